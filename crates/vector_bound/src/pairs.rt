//! The bound of the vector of one pair of a track.
ghost use Rattle.std.specs.Prelude.{◌≡◌, ◌^◌, ◌≤◌, length, All, unsigned_abs, IfSome, IsNone};
ghost use Rattle.obs_rows.specs.declared.units.TheConstants.{MOST_FREE_ARCS};
ghost use Rattle.obs_rows.specs.Arcs.{free_count};
ghost use Rattle.obs_rows.specs.Ranges.{IsBelow};
ghost use Rattle.obs_rows.specs.Pairs.{HasItsArcs};
ghost use Rattle.obs_rows.specs.Signals.{fine_signals};
ghost use Rattle.obs_rows.specs.Integers.{integer_count};
ghost use Rattle.vector_bound.specs.VectorBounds.{move_units, hundredths_of_mm};
ghost use Rattle.vector_bound.specs.PairBounds.{KeepsPairNear, IsPairBound, IsRoundedPairBound, LacksPairBound};

use crate::bounds::{bound_of, in_hundredths};
use fix_decide::pair_upper;
use lower_form::exponent;
use normal_sum::sum_pair;
use obs_rows::{Arc, PairRows, Signals};
use whole_math::ceil_shift;

/// How far, in 2^-5 ι, the least-squares baseline of one pair of a track may lie from the pair's move in any coordinate, with the
/// track's integers: whatever the data in the boxes of the pair's rows are, no rational baseline that is farther has a sum of
/// squares over these rows that is at most that of the move.
///
/// z has an entry for each free arc of the list and each phase. `None` where the residual of some row may lie 2^33 or more from
/// 0, as no certified track has it, or where `move_bound` of the pair's rows would give none.
pub fn pair_move_bound(
    arcs: &[Arc],
    signals: Signals,
    pair: &PairRows,
    z: &[i64],
    moved: &[i64; 3],
) -> Option<i64>
    requires arcs { HasItsArcs arcs.now pair.now }
    requires free { free_count arcs.now ≤ MOST_FREE_ARCS }
    requires entries { length z.now ≡ integer_count arcs.now (fine_signals signals) }
    requires z_size { All (IsBelow (2 ^ 30)) z.now }
    requires moved_size { All (IsBelow (2 ^ 46)) moved.now }
    ensures near { IfSome result (λ x.
        KeepsPairNear arcs.now (fine_signals signals) pair.now z.now moved.now (move_units x)) }
    ensures value { IfSome result
        (IsPairBound arcs.now (fine_signals signals) pair.now z.now moved.now) }
    ensures none { IsNone result →
        LacksPairBound arcs.now (fine_signals signals) pair.now z.now moved.now }
{
    match pair_upper(arcs, signals, pair, z, moved) {
        Ok(upper) => {
            let normal = sum_pair(arcs, signals, 0, pair);
            let h = exponent(&normal);
            bound_of(&normal, h, z, moved, ceil_shift(upper, h))
        }
        Err(_) => None,
    }
}

/// The same in hundredths of a millimetre, rounded up: how far, in each coordinate, the least-squares vector of the pair, of any
/// data in the boxes, may lie from this move's, which is printed rounded to 0.1 mm. No other pair changes it, since each has a
/// baseline of its own.
pub fn pair_vector_bound(
    arcs: &[Arc],
    signals: Signals,
    pair: &PairRows,
    z: &[i64],
    moved: &[i64; 3],
) -> Option<i64>
    requires arcs { HasItsArcs arcs.now pair.now }
    requires free { free_count arcs.now ≤ MOST_FREE_ARCS }
    requires entries { length z.now ≡ integer_count arcs.now (fine_signals signals) }
    requires z_size { All (IsBelow (2 ^ 30)) z.now }
    requires moved_size { All (IsBelow (2 ^ 46)) moved.now }
    ensures near { IfSome result (λ y. KeepsPairNear arcs.now
        (fine_signals signals) pair.now z.now moved.now (hundredths_of_mm y)) }
    ensures value { IfSome result
        (IsRoundedPairBound arcs.now (fine_signals signals) pair.now z.now moved.now) }
    ensures size { IfSome result (λ y. unsigned_abs y ≤ 2 ^ 60) }
    ensures none { IsNone result →
        LacksPairBound arcs.now (fine_signals signals) pair.now z.now moved.now }
{
    let units = pair_move_bound(arcs, signals, pair, z, moved)?;
    Some(in_hundredths(units))
}
