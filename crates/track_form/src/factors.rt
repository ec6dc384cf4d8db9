//! What is kept of the fronts of pairs.
ghost use Rattle.std.specs.Prelude.{◌≡◌, ◌^◌, ◌≤◌};
ghost use Rattle.quadratic_form.specs.Matrices.{EntriesBelow};
ghost use Rattle.quadratic_form.specs.declared.sizes.TheConstants.{MOST_COLUMNS};
ghost use Rattle.integer_form.specs.Kept.{IsBelowDiagonal};

use lower_form::FrontForm;
use quadratic_form::{BASELINE_COLUMNS, FrontTable, MOST_COLUMNS};

/// The factors of a pair's front. Its form, which is twenty times as large, isn't kept.
#[derive(Clone, Copy, Debug)]
pub struct PairFactors {
    /// The number of columns, those of the baseline among them.
    pub columns: usize,
    /// What is kept of the pivots of the baseline's columns.
    pub d: [i64; BASELINE_COLUMNS],
    /// The factors of each column with the baseline's columns, in units of 2^-30.
    pub l: FrontTable,
    pub ghost columns_from: { 4 ≤ columns },
    pub ghost columns_to: { columns ≤ MOST_COLUMNS },
    pub ghost factors_in: { EntriesBelow (2 ^ 52) l },
    pub ghost factors_outside: { IsBelowDiagonal columns l },
}

impl PairFactors {
    /// The factors of this front.
    pub(crate) fn of(front: &FrontForm) -> PairFactors
        ensures columns { result.columns ≡ front.now.columns }
        ensures d { result.d ≡ front.now.d }
        ensures l { result.l ≡ front.now.l }
    {
        PairFactors {
            columns: front.columns,
            d: front.d,
            l: front.l,
        }
    }
}
