//! A tail that was read, moved into the types of the first version.
ghost use Rattle.std.specs.Prelude.{◌≡◌, ◌≤◌, take};
ghost use Rattle.cert_migrate.specs.Carriers.{IsBestOf, IsEndOf, HasFewEntries};

use crate::{OldBest, OldTail};
use cert_data::{Tail, TwoBest};
use quadratic_form::MOST_INTEGERS;

fn first_entries(entries: &[i64; MOST_INTEGERS]) -> [i64; 40]
    ensures { result ≡ take 40 entries.now }
{
    let mut first = [0; 40];
    first.copy_from_slice(&entries[..40]);
    first
}

fn old_best(best: &TwoBest) -> OldBest
    requires { best.now.size ≤ 40 }
    ensures { IsBestOf best.now result }
{
    OldBest {
        first: first_entries(&best.first),
        second: first_entries(&best.second),
        p1: best.p1,
        p2: best.p2,
        size: best.size,
    }
}

/// The tail of version 1 with the same ending and the same numbers.
pub(crate) fn old_tail(tail: &Tail) -> OldTail
    requires { HasFewEntries tail.now }
    ensures { IsEndOf tail.now result }
{
    match tail {
        Tail::Fixed {
            h,
            moved,
            best,
            top,
        } => OldTail::Fixed {
            h: *h,
            moved: *moved,
            best: old_best(best),
            top: *top,
        },
        Tail::Unseparated {
            h,
            moved,
            best,
            top,
        } => OldTail::Unseparated {
            h: *h,
            moved: *moved,
            best: old_best(best),
            top: *top,
        },
        Tail::Weak { column, pivot } => OldTail::Weak {
            column: *column,
            pivot: *pivot,
        },
        Tail::Overwidth { place } => OldTail::Overwidth { place: *place },
        Tail::Unsettled { entry } => OldTail::Unsettled { entry: *entry },
        Tail::Spent { budget } => OldTail::Spent { budget: *budget },
    }
}
