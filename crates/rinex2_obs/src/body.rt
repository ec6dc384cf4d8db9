//! The body: blank lines, epochs and events.
ghost use Rattle.std.specs.Prelude.{◌≡◌, []};
ghost use Rattle.rinex_head.specs.LineRules.{rest_gives, Gives};
ghost use Rattle.rinex2_obs.specs.Profile.{kept_of};
ghost use Rattle.rinex2_obs.specs.Obs2Rules.{Body, file_of, obs2_rules};

use crate::epoch_lines::{EpochLine, epoch_line};
use crate::events::{skip_lines, skip_slips};
use crate::sats::read_epoch;
use line_source::Lines;
use obs_fields::{Header, KeptType};
use obs_store::{Epoch, Epochs};
use rinex_head::{TextFault, line_or_end};
use std::alloc::Global;

/// The epochs of a body, up to the end of the text.
pub fn read_epochs(
    alloc: Global,
    lines: &mut Lines<'_>,
    header: &Header,
    kept: &[KeptType],
) -> Result<Epochs, TextFault>
    requires { kept.now ≡ kept_of header.now.types }
    ensures { Gives (rest_gives obs2_rules lines.old (Body header.now [])) (λ epochs.
        file_of header.now epochs) result }
{
    let mut epochs = Epochs::new(alloc);
    'epochs: loop {
        let line = match line_or_end(lines) {
            Ok(Some(line)) => line,
            Ok(None) => return Ok(epochs),
            Err(at) => return Err(TextFault::Refused(at)),
        };
        match epoch_line(line.bytes, &epochs) {
            Ok(EpochLine::Blank) => {}
            Ok(EpochLine::Event { changes, count }) => {
                match skip_lines(lines, changes, count as u32) {
                    Ok(()) => {}
                    Err(at) => return Err(TextFault::Refused(at)),
                }
            }
            Ok(EpochLine::Slips { count }) => match skip_slips(lines, header, count) {
                Ok(()) => {}
                Err(at) => return Err(TextFault::Refused(at)),
            },
            Ok(EpochLine::Epoch { tag, power, list }) => {
                let sats = read_epoch(alloc, lines, header, kept, list)?;
                match epochs.push(Epoch { tag, power, sats }) {
                    Ok(()) => {}
                    Err(_) => return Err(TextFault::NoMemory),
                }
            }
            Err(flaw) => return Err(TextFault::Refused(flaw.at(line.number))),
        }
    }
}
