//! Tables of whole numbers of a fixed size, which contracts see as the list of their rows.
ghost use Rattle.std.specs.Prelude.{◌≡◌, ◌≢◌, ◌⊎◌, ℕ, ◌<◌};
ghost use Rattle.quadratic_form.specs.Tables.{entry, set_entry, zero_rows, HasShape};

use crate::{BASELINE_COLUMNS, MOST_COLUMNS, MOST_FACTORS, MOST_FORM_COLUMNS, MOST_INTEGERS};
use std::fmt;
use std::marker::Model;

/// A table of `ROWS` rows and `COLUMNS` columns.
#[derive(Clone, Copy)]
pub struct Table<const ROWS: usize, const COLUMNS: usize> {
    entries: [[i64; COLUMNS]; ROWS],
}

/// The factors of an elimination: for each column those with the columns before it.
pub type FactorTable = Table<MOST_COLUMNS, MOST_FACTORS>;

/// The factors of the baseline's columns: for each column those with these three.
pub type FrontTable = Table<MOST_COLUMNS, BASELINE_COLUMNS>;

/// A form of the integers and the constant: an entry for each two of them.
pub type FormTable = Table<MOST_FORM_COLUMNS, MOST_FORM_COLUMNS>;

/// A map of integer vectors: a row for each entry of the image.
pub type MapTable = Table<MOST_INTEGERS, MOST_INTEGERS>;

impl<const ROWS: usize, const COLUMNS: usize> Model for Table<ROWS, COLUMNS> {
    ghost use Rattle.std.specs.Prelude.{List, ℤ};
    ghost use Rattle.quadratic_form.specs.Tables.{HasShape};

    ghost Value = { List (List ℤ) };

    ghost view = { λ t. t.entries };

    ghost invariant = { λ t. HasShape ROWS COLUMNS t.entries };

    ghost inverse = { λ rows. record { entries = rows } };
}

impl<const ROWS: usize, const COLUMNS: usize> Table<ROWS, COLUMNS> {
    /// A table of zeros.
    pub fn zeros() -> Self
        ensures zeros { result ≡ zero_rows ROWS COLUMNS }
        ensures shape { HasShape ROWS COLUMNS result }
    {
        Table {
            entries: [[0; COLUMNS]; ROWS],
        }
    }

    /// The entry in this row and column.
    pub fn at(&self, row: usize, column: usize) -> i64
        requires row_in { row < ROWS }
        requires column_in { column < COLUMNS }
        ensures value { result ≡ entry self.now row column }
        ensures shape { HasShape ROWS COLUMNS self.now }
    {
        let of_row = &self.entries[row];
        of_row[column]
    }

    /// Puts a value in this row and column.
    pub fn set(&mut self, row: usize, column: usize, value: i64)
        requires row_in { row < ROWS }
        requires column_in { column < COLUMNS }
        ensures whole { self.new ≡ set_entry self.old row column value }
        ensures there { entry self.new row column ≡ value }
        ensures others { (i j : ℕ) → (i ≢ row) ⊎ (j ≢ column) →
            entry self.new i j ≡ entry self.old i j }
        ensures shape { HasShape ROWS COLUMNS self.new }
    {
        self.entries[row][column] = value;
    }
}

// A table is too long to print: its type says its size.
impl<const ROWS: usize, const COLUMNS: usize> fmt::Debug for Table<ROWS, COLUMNS> {
    fn fmt<W: fmt::Write>(&self, f: &mut fmt::Formatter<W>) -> fmt::Result {
        f.write_str("Table")
    }
}
