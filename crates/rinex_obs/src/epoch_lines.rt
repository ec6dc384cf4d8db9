//! The line of an epoch or an event (RINEX 3, epoch record).
ghost use Rattle.std.specs.Prelude.{◌≡◌, length, ◌<◌, IfOk, IfSome, Ok, true, false};
ghost use Rattle.obs_store.specs.Epochs.{last_tag_of};
ghost use Rattle.rinex_obs.specs.EpochTag.{IfEpoch, IsNoEpoch};
ghost use Rattle.rinex_obs.specs.EpochLines.{tag_in, event_in, epoch_in, by_flag, epoch_line_of};

use decimal_text::all_blank;
use gps_time::Tick;
use obs_fields::{Layout, comes_later, count, moment};
use obs_store::Epochs;
use rinex_head::{
    Flaw, What, bad_field, byte_in, field, filled_number, fixed_number, flaw, two_digits,
};

/// What stands where an epoch's line is expected.
#[derive(Clone, Copy, Debug)]
pub enum EpochLine {
    Blank,
    /// An event with the number of its lines; after it the header may change.
    Event { changes: bool, count: u16 },
    /// An epoch with the number of its satellites' lines; power may have failed before it.
    Epoch { tag: Tick, power: bool, count: u16 },
}

#[tactic(auto, unfolding(crate::specs::EpochLines::tag_in, rinex_head::specs::Fields::fixed_in))]
fn tag(line: &[u8]) -> Result<Tick, Flaw>
    ensures { result ≡ tag_in line.now }
{
    let year = filled_number(&field::<4>(line, 3), 3)?;
    let month = two_digits(line, 8)?;
    let day = two_digits(line, 11)?;
    let hour = two_digits(line, 14)?;
    let minute = two_digits(line, 17)?;
    let part = fixed_number(&field::<11>(line, 19), 19, 7)?;
    moment(Layout::Rinex3, year, month, day, hour, minute, part)
}

fn event(line: &[u8], changes: bool) -> Result<EpochLine, Flaw>
    ensures value { result ≡ event_in line.now changes }
    ensures event { IfOk result IsNoEpoch }
{
    let count = count(Layout::Rinex3, line)?;
    Ok(EpochLine::Event { changes, count })
}

#[tactic(auto, unfolding(crate::specs::EpochLines::epoch_in))]
fn epoch(line: &[u8], power: bool, epochs: &Epochs) -> Result<EpochLine, Flaw>
    ensures value { result ≡ epoch_in epochs.now line.now power }
    ensures room { IfOk result (λ l. IfEpoch l (λ tag. length epochs.now < 20_000)) }
    ensures later { IfOk result (λ l.
        IfEpoch l (λ tag. IfSome (last_tag_of epochs.now) (λ last. last.0 < tag.0))) }
{
    if epochs.len() >= Epochs::MOST {
        return Err(flaw(1, What::TooMany));
    }
    let tag = tag(line)?;
    if !comes_later(epochs.last_tag(), tag) {
        return Err(flaw(3, What::Order));
    }
    let count = count(Layout::Rinex3, line)?;
    Ok(EpochLine::Epoch { tag, power, count })
}

fn flagged(line: &[u8], flag: u8, epochs: &Epochs) -> Result<EpochLine, Flaw>
    ensures value { result ≡ by_flag epochs.now line.now flag }
    ensures room { IfOk result (λ l. IfEpoch l (λ tag. length epochs.now < 20_000)) }
    ensures later { IfOk result (λ l.
        IfEpoch l (λ tag. IfSome (last_tag_of epochs.now) (λ last. last.0 < tag.0))) }
{
    match flag {
        b'0' => epoch(line, false, epochs),
        b'1' => epoch(line, true, epochs),
        b'2' | b'3' => Err(flaw(32, What::Moving)),
        b'4' => event(line, true),
        b'5' | b'6' => event(line, false),
        _ => Err(flaw(32, What::Flag)),
    }
}

/// What a line says where an epoch's line is expected after these epochs.
#[tactic(auto, unfolding(crate::specs::EpochLines::epoch_line_of))]
pub fn epoch_line(line: &[u8], epochs: &Epochs) -> Result<EpochLine, Flaw>
    ensures value { result ≡ epoch_line_of epochs.now line.now }
    ensures room { IfOk result (λ l. IfEpoch l (λ tag. length epochs.now < 20_000)) }
    ensures later { IfOk result (λ l.
        IfEpoch l (λ tag. IfSome (last_tag_of epochs.now) (λ last. last.0 < tag.0))) }
{
    if all_blank(line) {
        return Ok(EpochLine::Blank);
    }
    if byte_in(line, 1) != b'>' {
        return Err(bad_field(1));
    }
    flagged(line, byte_in(line, 32), epochs)
}
