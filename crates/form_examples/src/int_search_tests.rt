//! The two best vectors of forms.
ghost use Rattle.std.specs.Prelude.{◌^◌, ◌+◌, ◌<◌, ◌≤◌, unsigned_abs, IfSome};
ghost use Rattle.quadratic_form.specs.declared.sizes.TheConstants.{MOST_INTEGERS, MOST_FORM_COLUMNS};
ghost use Rattle.quadratic_form.specs.Tables.{IsZeroOutside};
ghost use Rattle.quadratic_form.specs.Matrices.{IsSymmetric, EntriesBelow};

use crate::search_cases::{Case, SMALL};
use crate::search_reduced_case::FIVE_EPOCHS;
use crate::search_session_cases::SESSIONS;
use int_search::{SearchFault, TwoBest, plain_best, two_best};
use integer_form::{Form, FrontForm};
use lower_form::finish;
use quadratic_form::{FormTable, MOST_FORM_COLUMNS, MOST_INTEGERS};

// Writes an entry of a form of n columns at its place and across the diagonal.
fn set_both(p: &mut FormTable, r: usize, c: usize, n: usize, value: i64)
    requires row_in { r < n }
    requires column_in { c < n }
    requires columns_in { n ≤ MOST_FORM_COLUMNS }
    requires small { unsigned_abs value < 2 ^ 52 }
    requires symmetric { IsSymmetric p.old }
    requires entries { EntriesBelow (2 ^ 52) p.old }
    requires outside { IsZeroOutside n n p.old }
    ensures symmetric { IsSymmetric p.new }
    ensures entries { EntriesBelow (2 ^ 52) p.new }
    ensures outside { IsZeroOutside n n p.new }
{
    p.set(r, c, value);
    p.set(c, r, value);
}

// Writes row r of a form of n columns, from the diagonal on; false where an entry is missing or too large.
fn set_row(p: &mut FormTable, r: usize, n: usize, entries: &[i64]) -> bool
    requires row_in { r < n }
    requires columns_in { n ≤ MOST_FORM_COLUMNS }
    requires symmetric { IsSymmetric p.old }
    requires entries { EntriesBelow (2 ^ 52) p.old }
    requires outside { IsZeroOutside n n p.old }
    ensures symmetric { IsSymmetric p.new }
    ensures entries { EntriesBelow (2 ^ 52) p.new }
    ensures outside { IsZeroOutside n n p.new }
{
    for c in r..n {
        match entries.get(c - r) {
            Some(&value) if value.unsigned_abs() < 1 << 52 => set_both(p, r, c, n, value),
            _ => return false,
        }
    }
    true
}

// The matrix of a form of n columns.
fn table(n: usize, entries: &[i64]) -> Option<FormTable>
    requires { n ≤ MOST_FORM_COLUMNS }
    ensures symmetric { IfSome result IsSymmetric }
    ensures entries { IfSome result (EntriesBelow (2 ^ 52)) }
    ensures outside { IfSome result (IsZeroOutside n n) }
{
    let mut p = FormTable::zeros();
    let mut left = entries;
    for r in 0..n {
        if !set_row(&mut p, r, n, left) {
            return None;
        }
        left = left.get(n - r..)?;
    }
    Some(p)
}

fn form(integers: usize, entries: &[i64]) -> Option<Form>
    requires { integers ≤ MOST_INTEGERS }
{
    let p = table(integers + 1, entries)?;
    finish(&FrontForm::of(integers + 4, 0, &p)).ok()
}

// The form of a case, where it has integers.
fn case_form(case: &Case) -> Option<Form>
    ensures { IfSome result (λ f. 4 < f.columns) }
{
    if case.integers > MOST_INTEGERS {
        return None;
    }
    let form = form(case.integers, case.entries)?;
    if form.columns > 4 { Some(form) } else { None }
}

// Whether these are the two best of a case.
fn is_answer(case: &Case, best: &TwoBest) -> bool {
    best.size == case.integers
        && best.first.get(..best.size) == Some(case.first)
        && best.second.get(..best.size) == Some(case.second)
        && (best.p1, best.p2) == case.values
}

fn is_spent(found: &Result<TwoBest, SearchFault>) -> bool {
    matches!(found, Err(SearchFault::Spent))
}

// Whether the plain search gives this answer with this budget and none with one visit less, and the other search the same
// answer with a budget of the reduced count.
fn answers(case: &Case) -> bool {
    let Some(form) = case_form(case) else {
        return false;
    };
    let Ok(plain) = plain_best(&form, case.visits) else {
        return false;
    };
    let Ok(best) = two_best(&form, case.reduced_count) else {
        return false;
    };
    is_spent(&plain_best(&form, case.visits.saturating_sub(1)))
        && is_answer(case, &plain)
        && is_answer(case, &best)
}

// Whether the search gives this answer with this budget and none with one visit less, and the plain search none with the
// greater budget.
fn answers_decorrelated(case: &Case, greater: u64) -> bool {
    let Some(form) = case_form(case) else {
        return false;
    };
    let Ok(best) = two_best(&form, case.visits) else {
        return false;
    };
    is_spent(&two_best(&form, case.visits.saturating_sub(1)))
        && is_spent(&plain_best(&form, greater))
        && is_answer(case, &best)
}

// The two best vectors of a form of two integers.
fn best_of_two(entries: &[i64]) -> Option<TwoBest> {
    let form = form(2, entries)?;
    if form.columns != 6 {
        return None;
    }
    two_best(&form, 1000).ok()
}

#[test]
fn two_integers(rt: HostRuntime) {
    let entries = [10000 << 30, -(9900 << 30), 0, 9802 << 30, 0, 0];
    let best = best_of_two(&entries).expect(&rt, "two vectors");
    assert!(rt; [best.first[0], best.first[1]] == [0, 0]);
    assert!(rt; [best.second[0], best.second[1]] == [-1, -1]);
    assert!(rt; best.p1 == 0 && best.p2 == 2_147_483_648);
}

#[test]
fn small_forms_with_ties(rt: HostRuntime) {
    for case in SMALL.iter() {
        assert!(rt; answers(case));
    }
}

#[test]
fn forms_of_sessions(rt: HostRuntime) {
    for case in SESSIONS.iter() {
        assert!(rt; answers(case));
    }
}

#[test]
fn form_of_five_epochs(rt: HostRuntime) {
    assert!(rt; answers_decorrelated(&FIVE_EPOCHS, 1000));
}
