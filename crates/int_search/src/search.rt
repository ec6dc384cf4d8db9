//! The searches.
ghost use Rattle.std.specs.Prelude.{◌≡◌, ◌<◌, IfOk, MatchResult, Err};
ghost use Rattle.int_search.specs.SearchedForm.{search_form};
ghost use Rattle.int_search.specs.SearchStates.{CanSearch, search_image};
ghost use Rattle.int_search.specs.Answers.{IsAnswer, IsFault, IsTwoBest, IsVisitedIn, IsPlainCountOver, IsSearchTooWide, IsPlainEnd};
ghost use Rattle.int_search.specs.declared.answer.SearchFault.TheVariants as SearchFault;

use crate::answer::{SearchFault, TwoBest};
use crate::images::identity;
use crate::walk::{SearchState, Turn};
use integer_form::Form;
use quadratic_form::MapTable;

/// The two least vectors in the coordinates that the map gives, among all integer vectors of the form.
pub(crate) fn search(form: &Form, map: &MapTable, budget: u64) -> Result<TwoBest, SearchFault>
    requires { CanSearch form.now map.now }
    ensures { MatchResult result (IsAnswer (search_form form.now) (search_image form.now map.now)
        budget) (IsFault (search_form form.now) (search_image form.now map.now) budget) }
{
    let Some(mut walk) = SearchState::start(form, map) else {
        return Err(SearchFault::Overwidth);
    };
    loop {
        match walk.turn(form, map, budget) {
            Turn::Going => {}
            Turn::Done => {
                return Ok(TwoBest {
                    first: walk.best.first,
                    second: walk.best.second,
                    p1: walk.best.p1,
                    p2: walk.best.p2,
                    size: walk.size,
                });
            }
            Turn::Spent => return Err(SearchFault::Spent),
            Turn::Wide => return Err(SearchFault::Overwidth),
        }
    }
}

/// Of all integer vectors the two at which the form is least, searched in the form's own coordinates.
///
/// Each visit of a suffix costs one of the budget.
pub fn plain_best(form: &Form, budget: u64) -> Result<TwoBest, SearchFault>
    requires { 4 < form.now.columns }
    ensures found { IfOk result (IsTwoBest form.now) }
    ensures visits { IfOk result (IsVisitedIn form.now budget) }
    ensures spent { result ≡ Err SearchFault.Spent → IsPlainCountOver form.now budget }
    ensures overwidth { result ≡ Err SearchFault.Overwidth → IsSearchTooWide form.now budget }
    ensures end { IsPlainEnd form.now budget result }
{
    search(form, &identity(), budget)
}
