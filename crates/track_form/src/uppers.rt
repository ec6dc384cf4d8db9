//! The upper sum of a track.
ghost use Rattle.std.specs.Prelude.{◌≡◌, ◌^◌, ◌≤◌, length, All, pos, ◌≤ℤ◌, IfOk, IfErr, OnErr};
ghost use Rattle.std.specs.List.{AllZip};
ghost use Rattle.whole_math.specs.Vectors.{sum};
ghost use Rattle.obs_rows.specs.declared.units.TheConstants.{MOST_FREE_ARCS};
ghost use Rattle.obs_rows.specs.Arcs.{free_count};
ghost use Rattle.obs_rows.specs.Ranges.{IsBelow};
ghost use Rattle.obs_rows.specs.Pairs.{HasItsArcs};
ghost use Rattle.obs_rows.specs.Integers.{integer_count};
ghost use Rattle.obs_rows.specs.Signals.{fine_signals};
ghost use Rattle.obs_rows.specs.declared.limits.TheConstants.{MOST_PAIRS};
ghost use Rattle.fix_decide.specs.Widths.{IsWide};
ghost use Rattle.track_form.specs.Fronts.{track_top};
ghost use Rattle.track_form.specs.SumDecided.{pair_uppers};
ghost use Rattle.track_form.specs.Uppers.{IsSomeWide};

use fix_decide::pair_upper;
use integer_form::{Overwidth, Place};
use obs_rows::{Arc, PairRows, Signals};
use track_data::Track;
use whole_math::ceil_shift;

/// U of all these pairs, each with a move of its own.
fn sum_of_uppers(
    arcs: &[Arc],
    signals: Signals,
    pairs: &[PairRows],
    z: &[i64],
    moves: &[[i64; 3]],
) -> Result<i128, Overwidth>
    requires arcs { All (HasItsArcs arcs.now) pairs.now }
    requires few { length pairs.now ≤ MOST_PAIRS }
    requires free { free_count arcs.now ≤ MOST_FREE_ARCS }
    requires move_each { length moves.now ≡ length pairs.now }
    requires entries { length z.now ≡ integer_count arcs.now (fine_signals signals) }
    requires z_size { All (IsBelow (2 ^ 30)) z.now }
    requires moves_size { All (All (IsBelow (2 ^ 46))) moves.now }
    ensures value { IfOk result (λ u.
        u ≡ sum (pair_uppers arcs.now (fine_signals signals) z.now pairs.now moves.now)) }
    ensures from { IfOk result (λ u. pos 0 ≤ℤ u) }
    ensures to { IfOk result (λ u. u ≤ℤ pos (2 ^ 119)) }
    ensures bounded { IfOk result (λ u.
        AllZip (λ p m. IsWide arcs.now (fine_signals signals) z.now m p → ⊥) pairs.now moves.now) }
    ensures wide { OnErr result
        (IsSomeWide arcs.now (fine_signals signals) z.now pairs.now moves.now) }
    ensures place { IfErr result (λ e. e.place ≡ Place.Sum) }
{
    let mut sum = 0;
    for k in 0..pairs.len() {
        sum += pair_upper(arcs, signals, &pairs[k], z, &moves[k])?;
    }
    Ok(sum)
}

/// T: what the weighted sums of squares of a track's pairs are together at most, in units of 2^h, at the integers z and a
/// move in 2^-5 ι for each pair.
///
/// z has an entry for each free arc and each phase. Refused by the place `Sum` exactly where the residual of some row may
/// lie 2^33 or more from 0, as some signal sees it.
pub(crate) fn track_upper(
    track: &Track,
    h: u32,
    z: &[i64],
    moves: &[[i64; 3]],
) -> Result<i128, Overwidth>
    requires h_to { h ≤ 127 }
    requires move_each { length moves.now ≡ length track.now.pairs }
    requires entries { length z.now
        ≡ integer_count track.now.arcs (fine_signals track.now.signals) }
    requires z_size { All (IsBelow (2 ^ 30)) z.now }
    requires moves_size { All (All (IsBelow (2 ^ 46))) moves.now }
    ensures value { IfOk result (λ t. t ≡ track_top h (pair_uppers track.now.arcs
        (fine_signals track.now.signals) z.now track.now.pairs moves.now)) }
    ensures from { IfOk result (λ t. pos 0 ≤ℤ t) }
    ensures to { IfOk result (λ t. t ≤ℤ pos (2 ^ 119)) }
    ensures bounded { IfOk result (λ t. AllZip (λ p m. IsWide track.now.arcs
        (fine_signals track.now.signals) z.now m p → ⊥) track.now.pairs moves.now) }
    ensures wide { OnErr result (IsSomeWide track.now.arcs
        (fine_signals track.now.signals) z.now track.now.pairs moves.now) }
    ensures place { IfErr result (λ e. e.place ≡ Place.Sum) }
{
    let sum = sum_of_uppers(
        track.arcs.as_slice(),
        track.signals,
        track.pairs.as_slice(),
        z,
        moves,
    )?;
    Ok(ceil_shift(sum, h))
}
