//! The lines of the pairs that aren't tracked.
ghost use Rattle.std.specs.Prelude.{◌≡◌, ◌++◌, OnOk};
ghost use Rattle.track_job.specs.TrackTexts.{cause_word, lost_line, lost_lines};

use std::alloc::{AllocError, Global};
use track_data::{Lost, LostCause};

fn cause_word(cause: LostCause) -> &'static str
    ensures { result.now ≡ cause_word cause }
{
    match cause {
        LostCause::Rows => "rows",
        LostCause::Coarse => "coarse",
        LostCause::Unsettled => "unsettled",
        LostCause::Y => "y",
        LostCause::Weak => "weak",
        LostCause::Wide => "wide",
    }
}

fn push_lost_line(alloc: Global, text: &mut Vec<u8>, lost: &Lost) -> Result<(), AllocError>
    ensures { OnOk result (text.new.items ≡ text.old.items ++ lost_line lost.now) }
{
    let pair = lost.pair;
    let word = cause_word(lost.cause);
    let line = format!(in alloc; "lost {pair} {word}\n")?;
    text.extend_from_slice(line.as_bytes())
}

/// Appends a line for each pair that isn't tracked: its number, and why.
pub(crate) fn push_lost_lines(
    alloc: Global,
    text: &mut Vec<u8>,
    lost: &[Lost],
) -> Result<(), AllocError>
    ensures { OnOk result (text.new.items ≡ text.old.items ++ lost_lines lost.now) }
{
    for one in lost.iter() {
        push_lost_line(alloc, text, one)?;
    }
    Ok(())
}
