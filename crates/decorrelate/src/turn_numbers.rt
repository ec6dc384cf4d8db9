//! The numbers of one turn: what it makes of two pivots and of the factor between them.
ghost use Rattle.std.specs.Prelude.{◌^◌, ◌<◌, unsigned_abs, MatchOption};
ghost use Rattle.decorrelate.specs.States.{IsWeight};
ghost use Rattle.decorrelate.specs.Turning.{left_of, IsTurnable};
ghost use Rattle.decorrelate.specs.TurnNumbers.{AreNumbersOf};

use crate::numbers::{first_weight, gains, left_of, narrow, new_factor, second_weight};

/// The numbers of a turn.
#[derive(Clone, Copy, Debug)]
pub(crate) struct TurnNumbers {
    /// What is left of the factor between the two.
    pub(crate) rest: i64,
    /// What is kept of the first after the turn.
    pub(crate) first: i64,
    /// What is kept of the second.
    pub(crate) second: i64,
    /// The new factor between the two.
    pub(crate) between: i64,
}

/// The numbers of the turn of two of which a and b are kept; None where it gains too little, or the factor between them gets
/// too large.
pub(crate) fn turn_numbers(a: i64, b: i64, factor: i64) -> Option<TurnNumbers>
    requires a { IsWeight a }
    requires b { IsWeight b }
    requires factor { unsigned_abs factor < 2 ^ 52 }
    ensures { MatchOption result (IsTurnable a b (left_of factor) →
        ⊥) (λ t. AreNumbersOf a b (left_of factor) t) }
{
    let rest = left_of(factor);
    if !gains(a, b, rest) {
        return None;
    }
    let first = first_weight(a, b, rest);
    let between = narrow(new_factor(a, rest, first))?;
    let second = second_weight(a, b, first);
    Some(TurnNumbers {
        rest,
        first,
        second,
        between,
    })
}
