//! The form of the integers and the constant that the steps of the baseline's columns leave.
ghost use Rattle.std.specs.Prelude.{◌≡◌, ◌-◌, ◌^◌, ◌≤◌, pos, replicate};
ghost use Rattle.quadratic_form.specs.Tables.{IsZeroOutside, zero_rows};
ghost use Rattle.quadratic_form.specs.declared.sizes.TheConstants.{MOST_COLUMNS, BASELINE_COLUMNS};
ghost use Rattle.quadratic_form.specs.Matrices.{IsSymmetric, EntriesBelow};
ghost use Rattle.integer_form.specs.Kept.{IsBelowDiagonal};

use quadratic_form::{BASELINE_COLUMNS, FormTable, FrontTable, MOST_COLUMNS};

/// The form without the baseline: a form of the integers and the constant, and what the steps of the baseline's columns kept. What
/// stands outside the columns in use is 0.
#[derive(Clone, Copy, Debug)]
pub struct FrontForm {
    /// The number of columns, those of the baseline among them.
    pub columns: usize,
    /// 64 times the sum of squares is at least 2^h times the form.
    pub h: u32,
    /// What is kept of the pivots of the baseline's columns.
    pub d: [i64; BASELINE_COLUMNS],
    /// The factors of each column with the baseline's columns, in units of 2^-30.
    pub l: FrontTable,
    /// The matrix of the form.
    pub p: FormTable,
    pub ghost columns_from: { 4 ≤ columns },
    pub ghost columns_to: { columns ≤ MOST_COLUMNS },
    pub ghost h_in: { h ≤ 127 },
    pub ghost factors_in: { EntriesBelow (2 ^ 52) l },
    pub ghost factors_outside: { IsBelowDiagonal columns l },
    pub ghost symmetric: { IsSymmetric p },
    pub ghost entries_in: { EntriesBelow (2 ^ 52) p },
    pub ghost nothing_outside: { IsZeroOutside (columns - 3) (columns - 3) p },
}

impl FrontForm {
    /// The form of this matrix, with no factors of the baseline's columns.
    pub fn of(columns: usize, h: u32, p: &FormTable) -> FrontForm
        requires columns_from { 4 ≤ columns }
        requires columns_to { columns ≤ MOST_COLUMNS }
        requires h_in { h ≤ 127 }
        requires symmetric { IsSymmetric p.now }
        requires entries_in { EntriesBelow (2 ^ 52) p.now }
        requires nothing_outside { IsZeroOutside (columns - 3) (columns - 3) p.now }
        ensures columns { result.columns ≡ columns }
        ensures h { result.h ≡ h }
        ensures d { result.d ≡ replicate BASELINE_COLUMNS (pos 0) }
        ensures l { result.l ≡ zero_rows MOST_COLUMNS BASELINE_COLUMNS }
        ensures p { result.p ≡ p.now }
    {
        FrontForm {
            columns,
            h,
            d: [0; BASELINE_COLUMNS],
            l: FrontTable::zeros(),
            p: *p,
        }
    }
}
