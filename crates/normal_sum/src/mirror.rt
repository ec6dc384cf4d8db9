//! The entries below the diagonal of a symmetric matrix.
ghost use Rattle.std.specs.Prelude.{◌≡◌, ◌≢◌, ℕ, ◌<◌, ◌≤◌, pos};
ghost use Rattle.quadratic_form.specs.Tables.{entry};
ghost use Rattle.normal_sum.specs.Matrices.{IsMirrored};

use quadratic_form::{MOST_COLUMNS, NormalTable};

/// Gives the entries of a row before the diagonal those of its column.
fn mirror_row(table: &mut NormalTable, row: usize)
    requires row_in { row < MOST_COLUMNS }
    ensures before { (j : ℕ) → j < row → entry table.new row j ≡ entry table.old j row }
    ensures later { (i j : ℕ) → row ≤ j → entry table.new i j ≡ entry table.old i j }
    ensures others { (i j : ℕ) → i ≢ row → entry table.new i j ≡ entry table.old i j }
{
    for column in 0..row {
        let above = table.at(column, row);
        table.set(row, column, above);
    }
}

/// Writes 0 into a row, from one column up to another.
pub(crate) fn clear_row(table: &mut NormalTable, row: usize, from: usize, to: usize)
    requires row_in { row < MOST_COLUMNS }
    requires to_in { to ≤ MOST_COLUMNS }
    ensures cleared { (j : ℕ) → from ≤ j → j < to → entry table.new row j ≡ pos 0 }
    ensures later { (j : ℕ) → to ≤ j → entry table.new row j ≡ entry table.old row j }
    ensures others { (i j : ℕ) → i ≢ row → entry table.new i j ≡ entry table.old i j }
{
    for column in from..to {
        table.set(row, column, 0);
    }
}

/// Gives the entries below the diagonal those above it. After the first columns both are 0.
pub(crate) fn mirror(table: &mut NormalTable, columns: usize)
    requires columns_in { columns ≤ MOST_COLUMNS }
    requires outside { (i j : ℕ) → i < j → columns ≤ j → j < MOST_COLUMNS →
        entry table.old i j ≡ pos 0 }
    requires below { (i j : ℕ) → j < i → columns ≤ i → entry table.old i j ≡ pos 0 }
    ensures { IsMirrored table.old table.new }
{
    for row in 0..columns {
        mirror_row(table, row);
    }
}
