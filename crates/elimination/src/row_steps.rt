//! The steps of the baseline's columns, row by row: of a form only the rows of these columns are kept, in 64 bits, and each other
//! row is taken through their steps at once, so each of its entries is read and written once. Where a step stops, the answer is
//! false, and nothing is said of why: the steps column by column say that.
ghost use Rattle.std.specs.Prelude.{◌≡◌, ◌≢◌, ℕ, suc, ◌+◌, ◌-◌, ◌^◌, ◌<◌, ◌≤◌, true, false, ℤ, int_lt, pos, ◌-ℤ◌, ◌<ℤ◌, unsigned_abs, IsTrue, IfSome};
ghost use Rattle.quadratic_form.specs.Elimination.{kept};
ghost use Rattle.quadratic_form.specs.Tables.{entry, item};
ghost use Rattle.elimination.specs.StepEntries.{is_small};
ghost use Rattle.elimination.specs.RowSteps.{left_after, AreLeft, HasFactors};
ghost use Rattle.elimination.specs.FrontSteps.{DifferInFactors};
ghost use Rattle.elimination.specs.Quotients.{quotient_in, IsQuotientOf, AreQuotients, HasQuotients, HasFactorsBy, IsLeftBy, IsOwnLeftBy};

use crate::entries::kept_of;
use crate::quotients::{Quotient, Reciprocal, RowQuotients};
use integer_form::FrontForm;
use quadratic_form::{BASELINE_COLUMNS, MOST_COLUMNS, Table};

/// The rows of the baseline's columns, each as the steps of the columns before it left it.
pub type PivotTable = Table<BASELINE_COLUMNS, MOST_COLUMNS>;

/// The rows of the baseline's columns, and the reciprocal of the pivot of each.
#[derive(Clone, Copy)]
pub struct PivotRows {
    pub rows: PivotTable,
    pub(crate) reciprocals: [Reciprocal; BASELINE_COLUMNS],
}

/// A pivot is at least this.
const LEAST_PIVOT: i64 = 1 << 20;

impl RowQuotients {
    /// The quotient by the pivot of column j.
    #[inline(always)]
    fn column(&self, j: usize) -> Quotient
        requires { j < BASELINE_COLUMNS }
        ensures { result ≡ quotient_in self.now j }
    {
        match j {
            0 => self.first,
            1 => self.second,
            _ => self.third,
        }
    }
}

/// The quotient of the entry of row r by the pivot of column j, where j is one of the first columns.
fn quotient_at(pivots: &PivotRows, count: usize, j: usize, r: usize) -> Quotient
    requires column { j < BASELINE_COLUMNS }
    requires row_in { r < MOST_COLUMNS }
    requires quotients { HasQuotients pivots.now.rows r count }
    ensures { j < count → IsQuotientOf pivots.now.rows j r result }
{
    if j < count {
        Quotient::of(
            pivots.rows.at(j, r),
            pivots.rows.at(j, j),
            &pivots.reciprocals[j],
        )
    } else {
        Quotient::zero()
    }
}

/// The quotients of the entries of row r by the pivots of the first columns.
fn quotients_of(pivots: &PivotRows, count: usize, r: usize) -> RowQuotients
    requires row_in { r < MOST_COLUMNS }
    requires quotients { HasQuotients pivots.now.rows r count }
    ensures { AreQuotients pivots.now.rows r count result }
{
    RowQuotients {
        first: quotient_at(pivots, count, 0, r),
        second: quotient_at(pivots, count, 1, r),
        third: quotient_at(pivots, count, 2, r),
    }
}

/// Writes a factor of column j in row r.
fn put_factor(front: &mut FrontForm, j: usize, r: usize, factor: i64)
    requires column { j < BASELINE_COLUMNS }
    requires row { j < r }
    requires row_in { r < front.old.columns }
    requires small { is_small factor ≡ true }
    ensures value { entry front.new.l r j ≡ factor }
    ensures row { (m : ℕ) → m ≢ j → entry front.new.l r m ≡ entry front.old.l r m }
    ensures others { DifferInFactors front.old front.new r }
{
    front.l.set(r, j, factor);
}

/// Writes the factors of row r in the first columns; false where one is too large.
fn put_factors(front: &mut FrontForm, quotients: &RowQuotients, count: usize, r: usize) -> bool
    requires count { count ≤ BASELINE_COLUMNS }
    requires row { count ≤ r }
    requires row_in { r < front.old.columns }
    ensures factors { result ≡ true → HasFactorsBy quotients.now front.new.l r count }
    ensures others { DifferInFactors front.old front.new r }
{
    for j in 0..count {
        match quotients.column(j).factor() {
            Some(factor) => put_factor(front, j, r, factor),
            None => return false,
        }
    }
    true
}

/// What the steps of the first columns leave of a row's own entry, where none leaves one that is too large.
fn own_through(own: i64, quotients: &RowQuotients, count: usize, columns: usize) -> Option<i64>
    requires count { count ≤ BASELINE_COLUMNS }
    requires count_in { count < columns }
    requires columns_in { columns ≤ MOST_COLUMNS }
    requires size { unsigned_abs own ≤ 2 ^ 52 }
    ensures left { IfSome result (IsOwnLeftBy quotients.now columns count own) }
    ensures size { IfSome result (λ x. unsigned_abs x ≤ 2 ^ 52) }
{
    let mut left = own;
    for j in 0..count {
        match quotients.column(j).own_less(left, columns - j - 1) {
            Some(less) => left = less,
            None => return None,
        }
    }
    Some(left)
}

/// x + 2^51 without a sign, which is below 2^52 for an x from -2^51 to below 2^51 only.
fn raised(x: i64) -> u64
    requires { unsigned_abs x ≤ 2 ^ 62 }
    ensures { result < 2 ^ 52 → is_small x ≡ true }
{
    (x + (1 << 51)).cast_unsigned()
}

/// Whether three numbers are all from -2^51 to below 2^51, by one comparison.
fn are_short(x: i64, y: i64, z: i64) -> bool
    requires x_size { unsigned_abs x ≤ 2 ^ 62 }
    requires y_size { unsigned_abs y ≤ 2 ^ 62 }
    requires z_size { unsigned_abs z ≤ 2 ^ 62 }
    ensures x { IsTrue result → is_small x ≡ true }
    ensures y { IsTrue result → is_small y ≡ true }
    ensures z { IsTrue result → is_small z ≡ true }
{
    (raised(x) | raised(y) | raised(z)) < 1 << 52
}

/// number - first - second - third, where each of these differences is short.
#[inline(always)]
fn less_quotients(number: i64, first: i64, second: i64, third: i64) -> Option<i64>
    requires number { unsigned_abs number ≤ 2 ^ 52 }
    requires first { unsigned_abs first ≤ 2 ^ 60 + 1 }
    requires second { unsigned_abs second ≤ 2 ^ 60 + 1 }
    requires third { unsigned_abs third ≤ 2 ^ 60 + 1 }
    ensures value { IfSome result (λ x. x ≡ ((number -ℤ first) -ℤ second) -ℤ third) }
    ensures small { IfSome result (λ x. is_small x ≡ true) }
    ensures small_first { IfSome result (λ x. is_small (number -ℤ first) ≡ true) }
    ensures small_second { IfSome result (λ x. is_small ((number -ℤ first) -ℤ second) ≡ true) }
{
    let less_one = number - first;
    let less_two = less_one - second;
    let less_three = less_two - third;
    if are_short(less_one, less_two, less_three) {
        Some(less_three)
    } else {
        None
    }
}

/// What the three steps leave of a number in column c of the row of these quotients, off the diagonal, where the products say it.
#[inline(always)]
fn near_left(
    number: i64,
    rows: &PivotTable,
    c: usize,
    quotients: &RowQuotients,
    count: usize,
) -> Option<i64>
    requires count { count ≤ BASELINE_COLUMNS }
    requires column_in { c < MOST_COLUMNS }
    requires entries { (j : ℕ) → j < count → unsigned_abs (entry rows.now j c) ≤ 2 ^ 52 }
    requires size { unsigned_abs number ≤ 2 ^ 52 }
    ensures left { IfSome result (IsLeftBy quotients.now rows.now c count number) }
    ensures small { IfSome result (λ x. is_small x ≡ true) }
{
    if count < BASELINE_COLUMNS {
        return None;
    }
    let first = quotients.first.times(rows.at(0, c))?;
    let second = quotients.second.times(rows.at(1, c))?;
    let third = quotients.third.times(rows.at(2, c))?;
    less_quotients(number, first, second, third)
}

/// What the steps of the first columns leave of a number in column c of the row of these quotients, off the diagonal, one after
/// another. Few entries come here.
#[cold]
#[inline(never)]
fn left_by_steps(
    number: i64,
    rows: &PivotTable,
    c: usize,
    quotients: &RowQuotients,
    count: usize,
) -> Option<i64>
    requires count { count ≤ BASELINE_COLUMNS }
    requires column_in { c < MOST_COLUMNS }
    requires entries { (j : ℕ) → j < count → unsigned_abs (entry rows.now j c) ≤ 2 ^ 52 }
    requires size { unsigned_abs number ≤ 2 ^ 52 }
    ensures left { IfSome result (IsLeftBy quotients.now rows.now c count number) }
    ensures size { IfSome result (λ x. unsigned_abs x ≤ 2 ^ 52) }
{
    let mut left = number;
    for j in 0..count {
        match quotients.column(j).less(left, rows.at(j, c)) {
            Some(less) => left = less,
            None => return None,
        }
    }
    Some(left)
}

/// What the steps of the first columns leave of a number in column c of the row of these quotients, off the diagonal.
#[inline(always)]
fn entry_through(
    number: i64,
    rows: &PivotTable,
    c: usize,
    quotients: &RowQuotients,
    count: usize,
) -> Option<i64>
    requires count { count ≤ BASELINE_COLUMNS }
    requires column_in { c < MOST_COLUMNS }
    requires entries { (j : ℕ) → j < count → unsigned_abs (entry rows.now j c) ≤ 2 ^ 52 }
    requires size { unsigned_abs number ≤ 2 ^ 52 }
    ensures left { IfSome result (IsLeftBy quotients.now rows.now c count number) }
    ensures size { IfSome result (λ x. unsigned_abs x ≤ 2 ^ 52) }
{
    match near_left(number, rows, c, quotients, count) {
        Some(left) => Some(left),
        None => left_by_steps(number, rows, c, quotients, count),
    }
}

/// Takes the entries of row r after its own through the steps of the first columns; false where one is too large.
// Never inlined: the compiler would take the ratios for numbers of 128 bits, whose product takes three multiplications.
#[inline(never)]
fn others_through(
    row: &mut [i64; MOST_COLUMNS],
    rows: &PivotTable,
    quotients: &RowQuotients,
    count: usize,
    r: usize,
    columns: usize,
) -> bool
    requires count { count ≤ BASELINE_COLUMNS }
    requires row_in { r < columns }
    requires columns_in { columns ≤ MOST_COLUMNS }
    requires pivots { (j c : ℕ) → j < count → r < c → c < columns →
        unsigned_abs (entry rows.now j c) ≤ 2 ^ 52 }
    requires entries { (c : ℕ) → r < c → c < columns → unsigned_abs (item row.old c) ≤ 2 ^ 52 }
    requires quotients { AreQuotients rows.now r count quotients.now }
    ensures left { result ≡ true → AreLeft rows.now columns r count (item row.old) (item row.new) }
    ensures before { (c : ℕ) → c ≤ r → item row.new c ≡ item row.old c }
{
    for c in r + 1..columns {
        match entry_through(row[c], rows, c, quotients, count) {
            Some(left) => row[c] = left,
            None => return false,
        }
    }
    true
}

/// Takes row r through the steps of the first columns, and writes its factors; false where an entry or a factor is too large.
pub fn step_through(
    row: &mut [i64; MOST_COLUMNS],
    pivots: &PivotRows,
    front: &mut FrontForm,
    count: usize,
    r: usize,
) -> bool
    requires count { count ≤ BASELINE_COLUMNS }
    requires row { count ≤ r }
    requires row_in { r < front.old.columns }
    requires positive { (j : ℕ) → j < count → pos 0 <ℤ entry pivots.now.rows j j }
    requires pivots { (j c : ℕ) → j < count → j ≤ c → c < front.old.columns →
        unsigned_abs (entry pivots.now.rows j c) ≤ 2 ^ 52 }
    requires entries { (c : ℕ) → r ≤ c → c < front.old.columns →
        unsigned_abs (item row.old c) ≤ 2 ^ 52 }
    ensures value { result ≡ true → (c : ℕ) → r ≤ c → c < front.old.columns → item row.new c
        ≡ left_after pivots.now.rows front.old.columns r c count (item row.old c) }
    ensures small { result ≡ true → (k c : ℕ) → suc k ≤ count → r ≤ c → c < front.old.columns →
        is_small (left_after pivots.now.rows front.old.columns r c (suc k) (item row.old c))
        ≡ true }
    ensures factors { result ≡ true → (j : ℕ) → j < count →
        HasFactors pivots.now.rows front.new.l j r }
    ensures others { DifferInFactors front.old front.new r }
{
    let columns = front.columns;
    let quotients = quotients_of(pivots, count, r);
    if !put_factors(front, &quotients, count, r) {
        return false;
    }
    match own_through(row[r], &quotients, count, columns) {
        Some(own) => row[r] = own,
        None => return false,
    }
    others_through(row, &pivots.rows, &quotients, count, r, columns)
}

/// Writes the entries of row j from its own on.
fn copy_pivots(row: &[i64; MOST_COLUMNS], rows: &mut PivotTable, j: usize, columns: usize)
    requires column { j < BASELINE_COLUMNS }
    requires columns_in { columns ≤ MOST_COLUMNS }
    ensures row { (c : ℕ) → j ≤ c → c < columns → entry rows.new j c ≡ item row.now c }
    ensures others { (i c : ℕ) → i ≢ j → entry rows.new i c ≡ entry rows.old i c }
{
    for c in j..columns {
        rows.set(j, c, row[c]);
    }
}

impl PivotRows {
    /// Room for the rows. Nothing is promised of it: `keep` writes each row before it is read.
    pub fn empty() -> PivotRows {
        PivotRows {
            rows: PivotTable::zeros(),
            reciprocals: [Reciprocal {
                ratio: 0,
                exponent: 0,
            }; BASELINE_COLUMNS],
        }
    }

    /// Keeps the row of column j as its steps left it. Gives what is kept of its pivot, and None where that is below 2^20.
    pub fn keep(&mut self, row: &[i64; MOST_COLUMNS], j: usize, columns: usize) -> Option<i64>
        requires column { j < BASELINE_COLUMNS }
        requires column_in { j < columns }
        requires columns_in { columns ≤ MOST_COLUMNS }
        requires own_size { unsigned_abs (item row.now j) ≤ 2 ^ 52 }
        ensures row { (c : ℕ) → j ≤ c → c < columns → entry self.new.rows j c ≡ item row.now c }
        ensures others { (i c : ℕ) → i ≢ j → entry self.new.rows i c ≡ entry self.old.rows i c }
        ensures strong { IfSome result (λ d. int_lt (item row.now j) (pos (2 ^ 20)) ≡ false) }
        ensures kept { IfSome result (λ d. d ≡ kept (unsigned_abs (item row.now j))) }
        ensures size { IfSome result (λ d. unsigned_abs d ≤ 2 ^ 53) }
    {
        copy_pivots(row, &mut self.rows, j, columns);
        let a = row[j];
        if a < LEAST_PIVOT {
            return None;
        }
        self.reciprocals[j] = Reciprocal::of(a as i128);
        Some(kept_of(a as i128) as i64)
    }
}
