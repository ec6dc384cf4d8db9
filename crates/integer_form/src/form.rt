//! The integer form: what the whole elimination gives.
ghost use Rattle.std.specs.Prelude.{◌-◌, ◌^◌, ◌≤◌};
ghost use Rattle.quadratic_form.specs.Tables.{IsZeroOutside};
ghost use Rattle.quadratic_form.specs.declared.sizes.TheConstants.{MOST_COLUMNS};
ghost use Rattle.quadratic_form.specs.Matrices.{IsSymmetric, EntriesBelow};
ghost use Rattle.integer_form.specs.Kept.{IsEliminated, AreKept, IsZeroFrom, IsBelowDiagonal};

use quadratic_form::{FactorTable, FormTable, MOST_FACTORS};

/// A form of the integers and the constant, with the factors of its columns.
///
/// The columns are the three of the baseline, the integers, and the constant. The matrix p has those of the integers
/// and the constant alone, from 0 on. What stands outside the columns in use is 0.
#[derive(Clone, Copy, Debug)]
pub struct Form {
    /// The number of columns, those of the baseline among them.
    pub columns: usize,
    /// 64 times the sum of squares is at least 2^h times the form.
    pub h: u32,
    /// What is kept of the pivot of each column but the constant.
    pub d: [i64; MOST_FACTORS],
    /// The factors of each column with the columns before it, in units of 2^-30.
    pub l: FactorTable,
    /// The entry that the steps of all columns but the constant leave.
    pub g: i64,
    /// The matrix of the form.
    pub p: FormTable,
    pub ghost columns_from: { 4 ≤ columns },
    pub ghost columns_to: { columns ≤ MOST_COLUMNS },
    pub ghost h_in: { h ≤ 127 },
    pub ghost kept_in: { AreKept columns d },
    pub ghost kept_outside: { IsZeroFrom (columns - 1) d },
    pub ghost factors_in: { EntriesBelow (2 ^ 52) l },
    pub ghost factors_outside: { IsBelowDiagonal columns l },
    pub ghost symmetric: { IsSymmetric p },
    pub ghost entries_in: { EntriesBelow (2 ^ 52) p },
    pub ghost nothing_outside: { IsZeroOutside (columns - 3) (columns - 3) p },
    pub ghost eliminated: { IsEliminated columns d l g p },
}
