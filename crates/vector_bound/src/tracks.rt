//! The greatest of the bounds of a track's pairs.
ghost use Rattle.std.specs.Prelude.{◌≡◌, ◌^◌, ◌≤◌, length, All, IfSome, IsNone};
ghost use Rattle.std.specs.Int.{int_max};
ghost use Rattle.obs_rows.specs.declared.units.TheConstants.{MOST_FREE_ARCS};
ghost use Rattle.obs_rows.specs.Arcs.{free_count};
ghost use Rattle.obs_rows.specs.Ranges.{IsBelow};
ghost use Rattle.obs_rows.specs.Pairs.{HasItsArcs};
ghost use Rattle.obs_rows.specs.Signals.{fine_signals};
ghost use Rattle.obs_rows.specs.Integers.{integer_count};
ghost use Rattle.vector_bound.specs.VectorBounds.{hundredths_of_mm};
ghost use Rattle.vector_bound.specs.PairBounds.{KeepsPairNear, LacksPairBound, OfEachPair, OfSomePair, IsGreatestBound};

use crate::pairs::pair_vector_bound;
use obs_rows::{Arc, PairRows, Signals};

/// The greater of two.
fn greater_bound(a: i64, b: i64) -> i64
    ensures value { result ≡ int_max a b }
{
    a.max(b)
}

/// The greatest of the bounds of a track's pairs, in hundredths of a millimetre, and 0 of no pair: how far, in each coordinate,
/// the least-squares vector of any pair, of any data in the boxes, may lie from its own move's, which is printed rounded to
/// 0.1 mm. `None` where some pair has none.
pub fn track_vector_bound(
    arcs: &[Arc],
    signals: Signals,
    pairs: &[PairRows],
    z: &[i64],
    moves: &[[i64; 3]],
) -> Option<i64>
    requires arcs { All (HasItsArcs arcs.now) pairs.now }
    requires free { free_count arcs.now ≤ MOST_FREE_ARCS }
    requires move_each { length moves.now ≡ length pairs.now }
    requires entries { length z.now ≡ integer_count arcs.now (fine_signals signals) }
    requires z_size { All (IsBelow (2 ^ 30)) z.now }
    requires moves_size { All (All (IsBelow (2 ^ 46))) moves.now }
    ensures near { IfSome result (λ y. OfEachPair (λ p m.
        KeepsPairNear arcs.now (fine_signals signals) p z.now m (hundredths_of_mm y))
        pairs.now moves.now) }
    ensures value { IfSome result
        (IsGreatestBound arcs.now (fine_signals signals) pairs.now z.now moves.now) }
    ensures none { IsNone result → OfSomePair (λ p m.
        LacksPairBound arcs.now (fine_signals signals) p z.now m)
        (length pairs.now) pairs.now moves.now }
{
    let mut greatest = 0;
    for k in 0..pairs.len() {
        let bound = pair_vector_bound(arcs, signals, &pairs[k], z, &moves[k])?;
        greatest = greater_bound(greatest, bound);
    }
    Some(greatest)
}
