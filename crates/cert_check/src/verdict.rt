//! The check.
ghost use Rattle.std.specs.Prelude.{◌≡◌};
ghost use Rattle.cert_data.specs.declared.verdicts.Verdict.{Verdict};
ghost use Rattle.cert_data.specs.declared.verdicts.Verdict.TheVariants.{Certified};
ghost use Rattle.cert_check.specs.Verdicts.{IsSaidOf, IsVerdictOf, IsBestIn, IsBestByRatioIn};

use crate::decided::decide_rows;
use crate::tails::says_numbers;
use cert_data::{Cause, Cert, Tail, Verdict};

/// What is said of rows that are decided so, where a text has this tail.
fn said_of(decided: &Tail, tail: &Tail) -> Verdict
    ensures { IsSaidOf decided.now tail.now result }
{
    match decided {
        Tail::Fixed {
            h,
            moved,
            best,
            top,
        } => {
            if says_numbers(tail, *h, moved, best, *top) {
                return Verdict::Certified;
            }
            Verdict::Not(Cause::Tail)
        }
        Tail::Unseparated { .. } | Tail::Unsettled { .. } => Verdict::Not(Cause::Unseparated),
        Tail::Weak { column, pivot } => Verdict::Not(Cause::Weak {
            column: *column,
            pivot: *pivot,
        }),
        Tail::Overwidth { place } => Verdict::Not(Cause::Overwidth { place: *place }),
        Tail::Spent { .. } => Verdict::Not(Cause::Spent),
    }
}

/// Whether the rows of a certificate, decided again, say what its tail says of a fix.
///
/// Where they do, the tail's first integers with its move are strictly best: whatever the data in the boxes of the rows
/// are, each other integer vector, with any baseline, has a weighted sum of squares that is greater, and greater by the
/// certificate's ratio. Nothing of the tail is read before the rows are decided.
pub fn check(cert: &Cert) -> Verdict
    ensures verdict { IsVerdictOf cert.now.session cert.now.ratio cert.now.budget cert.now.tail
        result }
    ensures strictly_best { result ≡ Certified → IsBestIn cert.now.session cert.now.tail }
    ensures by_ratio { result ≡ Certified →
        IsBestByRatioIn cert.now.ratio cert.now.session cert.now.tail }
    ensures only { (v : Verdict) →
        IsVerdictOf cert.now.session cert.now.ratio cert.now.budget cert.now.tail v → v ≡ result }
{
    let decided = decide_rows(&cert.session, cert.ratio, cert.budget);
    said_of(&decided, &cert.tail)
}
