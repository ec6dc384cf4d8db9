//! The search in decorrelated coordinates.
ghost use Rattle.std.specs.Prelude.{◌≡◌, ◌<◌, IfOk, IfErr, IfSome, MatchOption, Err};
ghost use Rattle.int_search.specs.Answers.{IsTwoBest, IsPlainCountOver, IsSearchTooWide};
ghost use Rattle.int_search.specs.ReducedCounts.{HasReducedCount, IsVisitedReducedIn, KeepsBudget, ReducedEndsByItself, IsSearchEnd};
ghost use Rattle.int_search.specs.declared.answer.SearchFault.TheVariants as SearchFault;

use crate::answer::{SearchFault, TwoBest};
use crate::coordinates::transformed;
use crate::search::{plain_best, search};
use decorrelate::reduce;
use elimination::finish;
use integer_form::Form;
use quadratic_form::BASELINE_COLUMNS;

// The two least vectors, searched in the coordinates of the reduction; None where this attempt ends without an answer.
fn reduced_best(form: &Form, budget: u64) -> Option<TwoBest>
    requires { 4 < form.now.columns }
    ensures found { MatchOption result (HasReducedCount form.now budget → ⊥) (IsTwoBest form.now) }
    ensures visits { IfSome result (IsVisitedReducedIn form.now budget) }
    ensures end { MatchOption result (ReducedEndsByItself form.now budget →
        ⊥) (λ b. ReducedEndsByItself form.now budget) }
{
    let change = reduce(form.columns - BASELINE_COLUMNS - 1, &form.d, &form.l);
    let Some(front) = transformed(form, &change) else {
        return None;
    };
    let Ok(reduced) = finish(&front) else {
        return None;
    };
    // What the type of a table says is known after a call of it.
    let _ = change.map.at(0, 0);
    match search(&reduced, &change.map, budget) {
        Ok(best) => Some(best),
        Err(_) => None,
    }
}

/// Of all integer vectors the two at which the form is least.
///
/// Each visit of a suffix costs one of the budget. The search in decorrelated coordinates comes first, and where it ends
/// without an answer, the plain search with the same budget.
pub fn two_best(form: &Form, budget: u64) -> Result<TwoBest, SearchFault>
    requires { 4 < form.now.columns }
    ensures found { IfOk result (IsTwoBest form.now) }
    ensures visits { IfOk result (KeepsBudget form.now budget) }
    ensures spent { result ≡ Err SearchFault.Spent → IsPlainCountOver form.now budget }
    ensures overwidth { result ≡ Err SearchFault.Overwidth → IsSearchTooWide form.now budget }
    ensures reduced { HasReducedCount form.now budget → IfErr result (λ e. ⊥) }
    ensures end { IsSearchEnd form.now budget result }
{
    match reduced_best(form, budget) {
        Some(best) => Ok(best),
        None => plain_best(form, budget),
    }
}
