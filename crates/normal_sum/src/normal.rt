//! The normal matrix of rows.
ghost use Rattle.std.specs.Prelude.{◌≡◌, ℕ, ◌^◌, ◌≤◌, pos, All};
ghost use Rattle.quadratic_form.specs.Tables.{entry, IsZeroOutside};
ghost use Rattle.quadratic_form.specs.declared.sizes.TheConstants.{MOST_COLUMNS};
ghost use Rattle.quadratic_form.specs.Matrices.{IsSymmetric, EntriesBelow};
ghost use Rattle.normal_sum.specs.Matrices.{IsRadiusSum};

use quadratic_form::{BASELINE_COLUMNS, NormalTable};

/// The weighted sum of squares at the centres of the rows as a matrix, and what the radii of the rows may take from it.
///
/// The columns are the three of the baseline, in units of 2^(11 + scale) ι, the integers, one for each free arc and
/// each phase that counts, and the constant.
#[derive(Clone, Copy, Debug)]
pub struct Normal {
    /// The number of columns.
    pub columns: usize,
    /// The matrix C: the sum of squares at the centres is xᵀCx for x = (baseline, integers, 1). After the last
    /// column it is 0.
    pub c: NormalTable,
    /// Σ 360360·w·ru² for the three columns of the baseline and Σ 360360·w·ry² for the constant.
    pub r: [i128; 4],
    pub ghost columns_from: { 4 ≤ columns },
    pub ghost columns_to: { columns ≤ MOST_COLUMNS },
    pub ghost symmetric: { IsSymmetric c },
    pub ghost entries_in: { EntriesBelow (2 ^ 120) c },
    pub ghost nothing_outside: { IsZeroOutside columns columns c },
    pub ghost radii_in: { All IsRadiusSum r },
}

impl Normal {
    /// The matrix of no rows: 0, in the columns of the baseline and of the constant. Another may be written over it.
    pub fn empty() -> Normal
        ensures { (i j : ℕ) → entry result.c i j ≡ pos 0 }
    {
        Normal {
            columns: BASELINE_COLUMNS + 1,
            c: NormalTable::zeros(),
            r: [0, 0, 0, 0],
        }
    }
}
