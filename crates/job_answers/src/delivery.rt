//! How an answer is written.
ghost use Rattle.std.specs.Prelude.{◌≡◌, length};
ghost use Rattle.job_answers.specs.Statuses.{IsVerdictStatus};
ghost use Rattle.job_answers.specs.Endings.{ending};
ghost use Rattle.job_answers.specs.Delivered.{sink_change, GainsUnlessFault, IsDelivered};

use crate::Status;
use line_source::{Sink, put_all};

// Writes a line about a fault. Its own fault changes nothing.
fn tell<E: Sink>(err: &mut E, line: &[u8])
    ensures { GainsUnlessFault (sink_change E.Sink err.old err.new) line.now }
{
    let _ = put_all(err, line);
}

/// Writes the two texts, out first. Only a verdict has a text for out; a fault of out is reported on err, once.
pub fn deliver<O: Sink, E: Sink>(
    status: Status,
    out_text: &[u8],
    err_text: &[u8],
    out: &mut O,
    err: &mut E,
) -> Status
    requires { (IsVerdictStatus status → ⊥) → length out_text.now ≡ 0 }
    ensures { IsDelivered (ending status out_text.now err_text.now) result
        (sink_change O.Sink out.old out.new)
        (sink_change E.Sink err.old err.new) }
{
    if put_all(out, out_text).is_err() {
        tell(err, b"write fault\n");
        return Status::WriteFault;
    }
    match status {
        Status::Done | Status::Declined => {
            if put_all(err, err_text).is_err() {
                return Status::WriteFault;
            }
            status
        }
        _ => {
            tell(err, err_text);
            status
        }
    }
}
