//! The check.
ghost use Rattle.std.specs.Prelude.{◌≡◌, IfOk, Ok};
ghost use Rattle.obs_rows.specs.Signals.{fine_signals};
ghost use Rattle.cert_data.specs.declared.verdicts.Verdict.{Verdict};
ghost use Rattle.cert_data.specs.declared.verdicts.Verdict.TheVariants.{Certified};
ghost use Rattle.track_form.specs.Verdicts.{IsSaidOf, IsTrackVerdict, IsTrackBestIn, IsTrackBestByRatioIn};

use crate::decided::decide_track;
use crate::tails::says_numbers;
use cert_data::{Cause, Verdict};
use std::alloc::{AllocError, Global};
use track_data::{TrackCert, TrackTail};

/// What is said of rows that are decided so, where a text has this tail.
fn said_of(decided: &TrackTail, tail: &TrackTail) -> Verdict
    ensures { IsSaidOf decided.now tail.now result }
{
    match decided {
        TrackTail::Fixed {
            h,
            moves,
            best,
            top,
        } => {
            if says_numbers(tail, *h, moves.as_slice(), best, *top) {
                return Verdict::Certified;
            }
            Verdict::Not(Cause::Tail)
        }
        TrackTail::Unseparated { .. } => Verdict::Not(Cause::Unseparated),
        TrackTail::Weak { column, pivot } => Verdict::Not(Cause::Weak {
            column: *column,
            pivot: *pivot,
        }),
        TrackTail::Overwidth { place } => Verdict::Not(Cause::Overwidth { place: *place }),
        TrackTail::Spent { .. } => Verdict::Not(Cause::Spent),
    }
}

/// Whether the rows of a track's certificate, decided again, say what its tail says of a fix.
///
/// Where they do, the tail's first integers with its moves are strictly best: whatever the data in the boxes of the rows
/// are, each other integer vector, with any list of baselines, one for each pair, has a sum of the pairs' weighted sums of
/// squares that is greater, and greater by the certificate's ratio. Nothing of the tail is read before the rows are decided.
pub fn check_track(alloc: Global, cert: &TrackCert) -> Result<Verdict, AllocError>
    ensures verdict { IfOk result (IsTrackVerdict cert.now.track.arcs (fine_signals
        cert.now.track.signals) cert.now.track.pairs cert.now.ratio cert.now.budget cert.now.tail) }
    ensures strictly_best { result ≡ Ok Certified → IsTrackBestIn cert.now.track.arcs
        (fine_signals cert.now.track.signals) cert.now.track.pairs cert.now.tail }
    ensures by_ratio { result ≡ Ok Certified →
        IsTrackBestByRatioIn cert.now.ratio cert.now.track.arcs
        (fine_signals cert.now.track.signals) cert.now.track.pairs cert.now.tail }
    ensures only { IfOk result (λ v. (w : Verdict) →
        IsTrackVerdict cert.now.track.arcs (fine_signals cert.now.track.signals)
        cert.now.track.pairs cert.now.ratio cert.now.budget cert.now.tail w → w ≡ v) }
{
    let decided = decide_track(alloc, &cert.track, cert.ratio, cert.budget)?;
    Ok(said_of(&decided, &cert.tail))
}
