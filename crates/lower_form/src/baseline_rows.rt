//! The front of the elimination row by row: each row is rounded and taken through the three steps of the baseline's columns at
//! once, in 64 bits, and written into the form. Where a step stops, the answer is false: the steps column by column say why.
ghost use Rattle.std.specs.Prelude.{◌≡◌, ℕ, ◌+◌, ◌-◌, ◌^◌, ◌<◌, ◌≤◌, true, pos, ◌<ℤ◌, unsigned_abs, Ok};
ghost use Rattle.quadratic_form.specs.Tables.{entry, item};
ghost use Rattle.integer_form.specs.Factors.{stored};
ghost use Rattle.integer_form.specs.Kept.{form_of_table};
ghost use Rattle.elimination.specs.StepEntries.{is_small};
ghost use Rattle.elimination.specs.FrontSteps.{DifferInFactors};
ghost use Rattle.elimination.specs.RowSteps.{row_entry, HasFactors, ArePivotRows};
ghost use Rattle.lower_form.specs.FirstRounding.{first_entry as first_entry_of};
ghost use Rattle.lower_form.specs.Fronts.{front_of};

use crate::first_entries::first_entry;
use crate::repeats::LastRounded;
use elimination::{PivotRows, is_small, put_row, step_through};
use integer_form::FrontForm;
use normal_sum::Normal;
use quadratic_form::{BASELINE_COLUMNS, MOST_COLUMNS};

/// Writes the entries of row r of the first rounding over 2^h after its own; false where one is too large.
fn first_others(normal: &Normal, h: u32, r: usize, row: &mut [i64; MOST_COLUMNS]) -> bool
    requires few { h ≤ 76 }
    requires row_in { r < normal.now.columns }
    ensures value { result ≡ true → (c : ℕ) → r < c → c < normal.now.columns →
        item row.new c ≡ first_entry_of normal.now h r c }
    ensures small { result ≡ true → (c : ℕ) → r < c → c < normal.now.columns →
        is_small (item row.new c) ≡ true }
    ensures before { (c : ℕ) → c ≤ r → item row.new c ≡ item row.old c }
{
    let mut last = LastRounded::zero();
    for c in r + 1..normal.columns {
        match last.round(normal.c.at(r, c), h) {
            Some(rounded) => row[c] = rounded,
            None => return false,
        }
    }
    true
}

/// Writes row r of the first rounding over 2^h, from its own entry on; false where one is too large.
fn first_row(normal: &Normal, h: u32, r: usize, row: &mut [i64; MOST_COLUMNS]) -> bool
    requires few { h ≤ 76 }
    requires row_in { r < normal.now.columns }
    ensures value { result ≡ true → (c : ℕ) → r ≤ c → c < normal.now.columns →
        item row.new c ≡ first_entry_of normal.now h r c }
    ensures small { result ≡ true → (c : ℕ) → r ≤ c → c < normal.now.columns →
        is_small (item row.new c) ≡ true }
{
    let own = first_entry(normal, h, r, r);
    if !is_small(own) {
        return false;
    }
    row[r] = own as i64;
    first_others(normal, h, r, row)
}

/// Writes row r as the first rounding over 2^h and the steps of the first columns leave it, and its factors; false where a step stops.
fn stepped_row(
    normal: &Normal,
    h: u32,
    pivots: &PivotRows,
    front: &mut FrontForm,
    count: usize,
    r: usize,
    row: &mut [i64; MOST_COLUMNS],
) -> bool
    requires few { h ≤ 76 }
    requires columns { front.old.columns ≡ normal.now.columns }
    requires count { count ≤ BASELINE_COLUMNS }
    requires row { count ≤ r }
    requires row_in { r < normal.now.columns }
    requires positive { (j : ℕ) → j < count → pos 0 <ℤ entry pivots.now.rows j j }
    requires pivots { (j c : ℕ) → j < count → j ≤ c → c < normal.now.columns →
        unsigned_abs (entry pivots.now.rows j c) ≤ 2 ^ 52 }
    ensures value { result ≡ true → (c : ℕ) → r ≤ c → c < normal.now.columns → item row.new c
        ≡ row_entry (first_entry_of normal.now h) pivots.now.rows normal.now.columns count r c }
    ensures small { result ≡ true → (k c : ℕ) → k ≤ count → r ≤ c → c < normal.now.columns →
        is_small (row_entry (first_entry_of normal.now h) pivots.now.rows normal.now.columns k r c)
        ≡ true }
    ensures factors { result ≡ true → (j : ℕ) → j < count →
        HasFactors pivots.now.rows front.new.l j r }
    ensures others { DifferInFactors front.old front.new r }
{
    if !first_row(normal, h, r, row) {
        return false;
    }
    step_through(row, pivots, front, count, r)
}

/// Takes the rows of the baseline's columns, writes their factors and what is kept of their pivots; false where a step stops.
fn pivot_rows(
    normal: &Normal,
    h: u32,
    pivots: &mut PivotRows,
    front: &mut FrontForm,
    row: &mut [i64; MOST_COLUMNS],
) -> bool
    requires few { h ≤ 76 }
    requires columns { front.old.columns ≡ normal.now.columns }
    ensures rows { result ≡ true → ArePivotRows (first_entry_of normal.now h) pivots.new.rows
        normal.now.columns front.new.d front.new.l 3 }
    ensures columns { front.new.columns ≡ normal.now.columns }
{
    for j in 0..BASELINE_COLUMNS {
        if !stepped_row(normal, h, pivots, front, j, j, row) {
            return false;
        }
        match pivots.keep(row, j, normal.columns) {
            Some(kept) => front.d[j] = kept,
            None => return false,
        }
    }
    true
}

/// Takes the rows of the other columns, and writes their factors and the form that they leave; false where a step stops.
fn form_rows(
    normal: &Normal,
    h: u32,
    pivots: &PivotRows,
    front: &mut FrontForm,
    row: &mut [i64; MOST_COLUMNS],
) -> bool
    requires few { h ≤ 76 }
    requires columns { front.old.columns ≡ normal.now.columns }
    requires positive { (j : ℕ) → j < BASELINE_COLUMNS → pos 0 <ℤ entry pivots.now.rows j j }
    requires pivots { (j c : ℕ) → j < BASELINE_COLUMNS → j ≤ c → c < normal.now.columns →
        unsigned_abs (entry pivots.now.rows j c) ≤ 2 ^ 52 }
    ensures form { result ≡ true → (r c : ℕ) → r ≤ c → c < normal.now.columns - 3 →
        entry front.new.p r c ≡ row_entry (first_entry_of normal.now h) pivots.now.rows
        normal.now.columns 3 (3 + r) (3 + c) }
    ensures small { result ≡ true → (k r c : ℕ) → k ≤ 3 → 3 ≤ r → r ≤ c → c < normal.now.columns →
        is_small (row_entry (first_entry_of normal.now h) pivots.now.rows normal.now.columns k r c)
        ≡ true }
    ensures factors { result ≡ true → (j r : ℕ) → j < 3 → 3 ≤ r → r < normal.now.columns →
        HasFactors pivots.now.rows front.new.l j r }
    ensures first { (i m : ℕ) → i < 3 → entry front.new.l i m ≡ entry front.old.l i m }
    ensures kept { front.new.d ≡ front.old.d }
    ensures columns { front.new.columns ≡ normal.now.columns }
{
    let order = normal.columns - BASELINE_COLUMNS;
    for r in 0..order {
        let at = BASELINE_COLUMNS + r;
        if !stepped_row(normal, h, pivots, front, BASELINE_COLUMNS, at, row) {
            return false;
        }
        put_row(row, &mut front.p, r, order);
    }
    true
}

/// Writes the front of a normal matrix over 2^h: what is kept of the pivots, the factors and the form. False where a step stops.
pub(crate) fn front_by_rows(normal: &Normal, h: u32, front: &mut FrontForm) -> bool
    requires few { h ≤ 76 }
    requires columns { front.old.columns ≡ normal.now.columns }
    ensures taken { result ≡ true →
        front_of h normal.now ≡ Ok (
          stored front.new.d front.new.l normal.now.columns 0 3,
          form_of_table front.new.p (normal.now.columns - 3),
        ) }
    ensures columns { front.new.columns ≡ normal.now.columns }
{
    let mut pivots = PivotRows::empty();
    let mut row = [0; MOST_COLUMNS];
    if !pivot_rows(normal, h, &mut pivots, front, &mut row) {
        return false;
    }
    form_rows(normal, h, &pivots, front, &mut row)
}
