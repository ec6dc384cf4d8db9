//! What a session's rows are decided to say.
ghost use Rattle.std.specs.Prelude.{◌≡◌, ◌^◌, ◌≤◌, List, ℤ, length, pos, neg_ℤ, ◌≤ℤ◌, IfOk, IfErr};
ghost use Rattle.obs_rows.specs.Signals.{fine_signals};
ghost use Rattle.obs_rows.specs.declared.limits.TheConstants.{MOST_RATIO};
ghost use Rattle.integer_form.specs.Forms.{integers_of, value_of};
ghost use Rattle.cert_data.specs.Tails.{IsTailOf};
ghost use Rattle.fix_decide.specs.Decisions.{IsFormOf};
ghost use Rattle.cert_check.specs.Settled.{IsRefused, IsDecision, IsBestByRatioWhereFixed, tail_of};
ghost use Rattle.cert_check.specs.RowDecisions.{IsRowDecision};

use cert_data::Tail;
use fix_decide::decide;
use int_search::{SearchFault, two_best};
use integer_form::{Form, LowerFault, Place, lower_sum_law};
use lower_form::lower;
use normal_sum::sum;
use obs_rows::Session;

/// The form of a session's rows, or why the elimination of their normal matrix is refused.
///
/// It isn't inlined, so that the normal matrix has left the stack before the form is searched.
#[inline(never)]
pub fn form_of_rows(session: &Session) -> Result<Form, LowerFault>
    ensures form { IfOk result (IsFormOf session.now) }
    ensures refused { IfErr result (IsRefused session.now) }
{
    let normal = sum(session);
    lower(&normal)
}

/// A refusal of the elimination as a tail.
pub fn tail_of(fault: LowerFault) -> Tail
    ensures { result ≡ tail_of fault }
{
    match fault {
        LowerFault::Weak { column, pivot } => Tail::Weak { column, pivot },
        LowerFault::Overwidth { place } => Tail::Overwidth { place },
    }
}

/// Decides a fine session, whose form this is, at a ratio in thousandths: the search, the baseline of the least integers,
/// their upper sum, and whether the second value is far enough above it.
pub fn decide_settled(session: &Session, form: &Form, ratio: u32, budget: u64) -> Tail
    requires fine { session.now.scale ≡ 0 }
    requires form { IsFormOf session.now form.now }
    requires ratio_from { 1000 ≤ ratio }
    requires ratio_to { ratio ≤ MOST_RATIO }
    ensures decision { IsDecision session.now form.now ratio budget result }
    ensures by_ratio { IsBestByRatioWhereFixed ratio session.now result }
    ensures fits { IsTailOf (fine_signals session.now.signals) session.now.arcs budget result }
{
    values_from(form);
    let best = match two_best(form, budget) {
        Ok(best) => best,
        Err(SearchFault::Spent) => return Tail::Spent { budget },
        Err(SearchFault::Overwidth) => {
            return Tail::Overwidth {
                place: Place::Search,
            };
        }
    };
    match decide(session, form, &best, ratio) {
        Ok(decision) => Tail::of_vectors(
            decision.fixed,
            form.h,
            decision.moved,
            decision.best,
            decision.top,
        ),
        Err(fault) => Tail::Overwidth { place: fault.place },
    }
}

/// Decides the rows of a fine session at a ratio in thousandths, whatever its point: the elimination, the search, the
/// baseline of the least integers, their upper sum and the ratio. It isn't asked whether the point is settled.
///
/// It isn't inlined, so that its form doesn't lie on the stack of its callers.
#[inline(never)]
pub fn decide_rows(session: &Session, ratio: u32, budget: u64) -> Tail
    requires fine { session.now.scale ≡ 0 }
    requires ratio_from { 1000 ≤ ratio }
    requires ratio_to { ratio ≤ MOST_RATIO }
    ensures decision { IsRowDecision session.now ratio budget result }
    ensures by_ratio { IsBestByRatioWhereFixed ratio session.now result }
    ensures fits { IsTailOf (fine_signals session.now.signals) session.now.arcs budget result }
{
    match form_of_rows(session) {
        Ok(form) => decide_settled(session, &form, ratio, budget),
        Err(fault) => tail_of(fault),
    }
}

/// No value of a form is below its last entry, which fits its word.
pub fn values_from(form: &Form)
    ensures { (z : List ℤ) → length z ≡ integers_of form.now →
        neg_ℤ (pos (2 ^ 63)) ≤ℤ value_of form.now z }
{
    lower_sum_law(form);
    let _last = form.g;
}
