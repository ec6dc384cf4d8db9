//! The upper sum of a session.
ghost use Rattle.std.specs.Prelude.{◌≡◌, ◌^◌, ◌≤◌, ◌↔◌, length, All, pos, ◌*ℤ◌, ◌≤ℤ◌, IsErr, IfOk, IfErr};
ghost use Rattle.obs_rows.specs.declared.units.TheConstants.{MOST_FREE_ARCS};
ghost use Rattle.obs_rows.specs.Arcs.{free_count};
ghost use Rattle.obs_rows.specs.Ranges.{IsBelow};
ghost use Rattle.obs_rows.specs.Pairs.{HasItsArcs};
ghost use Rattle.obs_rows.specs.Integers.{integer_count};
ghost use Rattle.obs_rows.specs.Signals.{fine_signals};
ghost use Rattle.obs_rows.specs.CountedSignals.{AreCounted};
ghost use Rattle.obs_rows.specs.declared.limits.TheConstants.{MOST_PAIRS};
ghost use Rattle.fix_decide.specs.UpperSums.{upper_sum as upper_sum_of, top};
ghost use Rattle.fix_decide.specs.Bounds.{StaysAtMost};
ghost use Rattle.fix_decide.specs.Widths.{AreWide};

use crate::pairs::upper_over;
use integer_form::{Form, Overwidth, Place};
use obs_rows::{Arc, PairRows, Session, fine_signals};
use whole_math::ceil_shift;

/// U of all these pairs.
fn sum_of_pairs(
    arcs: &[Arc],
    signals: &[usize],
    pairs: &[PairRows],
    z: &[i64],
    moved: &[i64; 3],
) -> Result<i128, Overwidth>
    requires arcs { All (HasItsArcs arcs.now) pairs.now }
    requires few { length pairs.now ≤ MOST_PAIRS }
    requires free { free_count arcs.now ≤ MOST_FREE_ARCS }
    requires counted { AreCounted signals.now }
    requires entries { length z.now ≡ integer_count arcs.now signals.now }
    requires z_size { All (IsBelow (2 ^ 30)) z.now }
    requires moved_size { All (IsBelow (2 ^ 46)) moved.now }
    ensures value { IfOk result (λ u.
        u ≡ upper_sum_of arcs.now signals.now pairs.now z.now moved.now) }
    ensures from { IfOk result (λ u. pos 0 ≤ℤ u) }
    ensures to { IfOk result (λ u. u ≤ℤ pos (2 ^ 119)) }
    ensures refused { IsErr result ↔ AreWide arcs.now signals.now pairs.now z.now moved.now }
    ensures place { IfErr result (λ e. e.place ≡ Place.Sum) }
{
    let mut sum = 0;
    for pair in pairs {
        sum += upper_over(arcs, signals, pair, z, moved)?;
    }
    Ok(sum)
}

/// T: what the weighted sum of squares of a fine session is at most, in units of 2^h, at the integers z and a move in
/// 2^-5 ι.
///
/// z has an entry for each free arc and each phase. Refused by the place `Sum` exactly where the residual of some row may lie 2^33 or
/// more from 0, as some signal sees it.
pub fn upper_sum(
    session: &Session,
    form: &Form,
    z: &[i64],
    moved: &[i64; 3],
) -> Result<i128, Overwidth>
    requires fine { session.now.scale ≡ 0 }
    requires entries { length z.now
        ≡ integer_count session.now.arcs (fine_signals session.now.signals) }
    requires z_size { All (IsBelow (2 ^ 30)) z.now }
    requires moved_size { All (IsBelow (2 ^ 46)) moved.now }
    ensures value { IfOk result (λ t. t ≡ top form.now.h session.now.arcs
        (fine_signals session.now.signals) session.now.pairs z.now moved.now) }
    ensures above { IfOk result (λ t. StaysAtMost session.now.arcs (fine_signals
        session.now.signals) session.now.pairs z.now moved.now (pos (2 ^ form.now.h) *ℤ t)) }
    ensures from { IfOk result (λ t. pos 0 ≤ℤ t) }
    ensures to { IfOk result (λ t. t ≤ℤ pos (2 ^ 119)) }
    ensures refused { IsErr result ↔ AreWide session.now.arcs
        (fine_signals session.now.signals) session.now.pairs z.now moved.now }
    ensures place { IfErr result (λ e. e.place ≡ Place.Sum) }
{
    let sum = sum_of_pairs(
        session.arcs.as_slice(),
        fine_signals(session.signals),
        session.pairs.as_slice(),
        z,
        moved,
    )?;
    Ok(ceil_shift(sum, form.h))
}
