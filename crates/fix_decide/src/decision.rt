//! The decision whether the least integers are fixed.
ghost use Rattle.std.specs.Prelude.{◌≡◌, ◌⊎◌, ◌↔◌, ◌^◌, ◌≤◌, pos, ◌*ℤ◌, ◌≤ℤ◌, IsTrue, IfOk, IfErr, IsErrAnd};
ghost use Rattle.integer_form.specs.declared.faults.Place.TheVariants.{Float, Sum};
ghost use Rattle.integer_form.specs.FloatPoint.{HasWide};
ghost use Rattle.obs_rows.specs.Signals.{fine_signals};
ghost use Rattle.obs_rows.specs.Best.{IsStrictlyBest, IsBestByRatio};
ghost use Rattle.obs_rows.specs.declared.limits.TheConstants.{MOST_RATIO};
ghost use Rattle.fix_decide.specs.UpperSums.{top};
ghost use Rattle.fix_decide.specs.Widths.{AreWide};
ghost use Rattle.int_search.specs.Answers.{IsTwoBest};
ghost use Rattle.fix_decide.specs.Decisions.{IsFormOf, IsSeparated, first_of, move_of};

use crate::upper_sums::upper_sum;
use int_search::TwoBest;
use integer_form::{Form, Overwidth};
use obs_rows::Session;

/// Whether the integers at which a session's form is least are fixed, with the numbers that say so.
#[derive(Clone, Copy, Debug, PartialEq, Eq)]
pub struct Decision {
    /// Whether 1000 · p2 > 64 · ratio · top. Then the first integers with the move are best by the ratio for all data.
    pub fixed: bool,
    /// The two least vectors of the form, with its values there.
    pub best: TwoBest,
    /// The baseline of the first, as a move in 2^-5 ι.
    pub moved: [i64; 3],
    /// The upper sum at the first with this move, in units of 2^h.
    pub top: i128,
}

/// The sum of squares is divided by 64 in the bound of the form; the ratio is in thousandths.
const BOUND_FACTOR: i128 = 64;

/// 64 · ratio · top
fn times_ratio(ratio: u32, top: i128) -> i128
    requires ratio_to { ratio ≤ MOST_RATIO }
    requires top_from { pos 0 ≤ℤ top }
    requires top_to { top ≤ℤ pos (2 ^ 62) }
    ensures { result ≡ pos 64 *ℤ (pos ratio *ℤ top) }
{
    BOUND_FACTOR * (ratio as i128 * top)
}

/// Whether 1000 · p2 > 64 · ratio · top.
pub fn is_separated(ratio: u32, top: i128, p2: i128) -> bool
    requires ratio_from { 1000 ≤ ratio }
    requires ratio_to { ratio ≤ MOST_RATIO }
    requires top_from { pos 0 ≤ℤ top }
    requires p2_to { p2 ≤ℤ pos (2 ^ 62) }
    ensures { IsTrue result ↔ IsSeparated (pos ratio) top p2 }
{
    // The products of greater numbers might not fit.
    if p2 <= top {
        return false;
    }
    times_ratio(ratio, top) < 1000 * p2
}

/// Decides whether the least integers of a fine session's form are fixed, at a ratio in thousandths.
///
/// Where they are, they are with their move strictly best: whatever the data in the boxes are, each other integer vector,
/// with any baseline, has a weighted sum of squares that is greater, and greater by the ratio. Refused by the place
/// `Float` exactly where a number of the baseline is 2^46 or more in size, and else by the place `Sum` exactly where the
/// residual of some row may lie 2^33 or more from 0.
pub fn decide(
    session: &Session,
    form: &Form,
    best: &TwoBest,
    ratio: u32,
) -> Result<Decision, Overwidth>
    requires fine { session.now.scale ≡ 0 }
    requires form { IsFormOf session.now form.now }
    requires best { IsTwoBest form.now best.now }
    requires ratio_from { 1000 ≤ ratio }
    requires ratio_to { ratio ≤ MOST_RATIO }

    ensures best { IfOk result (λ d. d.best ≡ best.now) }
    ensures moved { IfOk result (λ d. d.moved ≡ move_of form.now (first_of best.now)) }
    ensures top { IfOk result (λ d. d.top ≡ top form.now.h session.now.arcs
        (fine_signals session.now.signals) session.now.pairs (first_of best.now) d.moved) }
    ensures top_from { IfOk result (λ d. pos 0 ≤ℤ d.top) }
    ensures top_to { IfOk result (λ d. d.top ≤ℤ pos (2 ^ 119)) }
    ensures fixed { IfOk result (λ d. IsTrue d.fixed ↔ IsSeparated (pos ratio) d.top best.now.p2) }
    ensures strictly_best { IfOk result (λ d. IsTrue d.fixed →
        IsStrictlyBest session.now (first_of best.now) d.moved) }
    ensures by_ratio { IfOk result (λ d. IsTrue d.fixed →
        IsBestByRatio ratio session.now (first_of best.now) d.moved) }

    ensures float { IsErrAnd result (λ e. e.place ≡ Float)
        ↔ HasWide (move_of form.now (first_of best.now)) }
    ensures sum { IsErrAnd result (λ e. e.place ≡ Sum)
        ↔ ((HasWide (move_of form.now (first_of best.now)) → ⊥)
        × AreWide session.now.arcs (fine_signals session.now.signals) session.now.pairs
        (first_of best.now) (move_of form.now (first_of best.now))) }
    ensures only { IfErr result (λ e. (e.place ≡ Float) ⊎ (e.place ≡ Sum)) }
{
    let first = &best.first[..best.size];
    let moved = form.baseline_of(first)?;
    let top = upper_sum(session, form, first, &moved)?;
    Ok(Decision {
        fixed: is_separated(ratio, top, best.p2),
        best: *best,
        moved,
        top,
    })
}
