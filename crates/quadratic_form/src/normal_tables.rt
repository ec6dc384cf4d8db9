//! The table of a normal matrix, whose entries need twice the bits of the others.
ghost use Rattle.std.specs.Prelude.{◌≡◌, ◌≢◌, ◌⊎◌, ℕ, ◌<◌};
ghost use Rattle.quadratic_form.specs.Tables.{entry, set_entry, zero_rows, HasShape};
ghost use Rattle.quadratic_form.specs.declared.sizes.TheConstants.{MOST_COLUMNS};

use crate::MOST_COLUMNS;
use std::marker::Model;

/// The normal matrix: an entry for each two columns.
#[derive(Clone, Copy, Debug)]
pub struct NormalTable {
    entries: [[i128; MOST_COLUMNS]; MOST_COLUMNS],
}

impl Model for NormalTable {
    ghost use Rattle.std.specs.Prelude.{List, ℤ};
    ghost use Rattle.quadratic_form.specs.Tables.{HasShape};
    ghost use Rattle.quadratic_form.specs.declared.sizes.TheConstants.{MOST_COLUMNS};

    ghost Value = { List (List ℤ) };

    ghost view = { λ t. t.entries };

    ghost invariant = { λ t. HasShape MOST_COLUMNS MOST_COLUMNS t.entries };

    ghost inverse = { λ rows. record { entries = rows } };
}

impl NormalTable {
    /// A table of zeros.
    pub fn zeros() -> Self
        ensures zeros { result ≡ zero_rows MOST_COLUMNS MOST_COLUMNS }
        ensures shape { HasShape MOST_COLUMNS MOST_COLUMNS result }
    {
        NormalTable {
            entries: [[0; MOST_COLUMNS]; MOST_COLUMNS],
        }
    }

    /// The entry in this row and column.
    pub fn at(&self, row: usize, column: usize) -> i128
        requires row_in { row < MOST_COLUMNS }
        requires column_in { column < MOST_COLUMNS }
        ensures value { result ≡ entry self.now row column }
        ensures shape { HasShape MOST_COLUMNS MOST_COLUMNS self.now }
    {
        let of_row = &self.entries[row];
        of_row[column]
    }

    /// Puts a value in this row and column.
    pub fn set(&mut self, row: usize, column: usize, value: i128)
        requires row_in { row < MOST_COLUMNS }
        requires column_in { column < MOST_COLUMNS }
        ensures whole { self.new ≡ set_entry self.old row column value }
        ensures there { entry self.new row column ≡ value }
        ensures others { (i j : ℕ) → (i ≢ row) ⊎ (j ≢ column) →
            entry self.new i j ≡ entry self.old i j }
        ensures shape { HasShape MOST_COLUMNS MOST_COLUMNS self.new }
    {
        self.entries[row][column] = value;
    }
}
