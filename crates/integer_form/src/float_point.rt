//! The float point of a form and the baseline of an integer vector, column by column from the last one.
ghost use Rattle.std.specs.Prelude.{◌≡◌, ◌↔◌, ℕ, suc, ◌+◌, ◌-◌, ◌^◌, ◌<◌, ◌≤◌, List, ℤ, length, pos, [], ◌∷◌, ◌++◌, unsigned_abs, nat_lt, OnOk, IfOk, IfErr, IsErr};
ghost use Rattle.whole_math.specs.Vectors.{dot, scaled};
ghost use Rattle.quadratic_form.specs.Places.{list_from};
ghost use Rattle.quadratic_form.specs.Tables.{entry, item};
ghost use Rattle.quadratic_form.specs.Matrices.{EntriesBelow};
ghost use Rattle.integer_form.specs.Factors.{stored};
ghost use Rattle.integer_form.specs.Forms.{integers_of};
ghost use Rattle.integer_form.specs.declared.faults.Place.TheVariants.{Float};
ghost use Rattle.integer_form.specs.FloatPoint.{next_number, solved, float_point, baseline_at, HasWide, HasWideBefore};

use crate::{Form, FrontForm, Overwidth, Place};
use quadratic_form::{BASELINE_COLUMNS, MOST_COLUMNS, MOST_FACTORS, MOST_INTEGERS, Table};
use whole_math::{nearest, product};

/// The number of the constant: 1 in units of 2^-16.
const ONE: i64 = 1 << 16;

/// The unit of the factors is 2^-30.
const FACTOR_UNIT: i128 = 1 << 30;

/// Every number is below this in size.
const LIMIT: i128 = 1 << 46;

/// Whether a number is below 2^46 in size.
fn is_narrow(number: i128) -> bool
    ensures { result ≡ nat_lt (unsigned_abs number) (2 ^ 46) }
{
    -LIMIT < number && number < LIMIT
}

/// The sum of the factors of column j with the columns after it, each times its number.
fn factor_sum<const WIDTH: usize>(
    l: &Table<MOST_COLUMNS, WIDTH>,
    numbers: &[i64; MOST_FACTORS],
    j: usize,
    columns: usize,
) -> i128
    requires factor { j < WIDTH }
    requires column { suc j < columns }
    requires columns_in { columns ≤ MOST_COLUMNS }
    requires factors { EntriesBelow (2 ^ 52) l.now }
    requires narrow { (i : ℕ) → j < i → i < columns - 1 →
        unsigned_abs (item numbers.now i) < 2 ^ 46 }
    ensures value { result ≡ dot (list_from (λ i. entry l.now i j) (suc j) (columns - j - 1))
        (list_from (item numbers.now) (suc j) (columns - 1 - suc j) ++ (pos (2 ^ 16) ∷ [])) }
    ensures size { unsigned_abs result ≤ 2 ^ 104 }
{
    let last = columns - 1;
    let mut sum = 0;
    for i in j + 1..last {
        sum += product::<52, 46>(l.at(i, j), numbers[i]);
    }
    sum + product::<52, 46>(l.at(last, j), ONE)
}

/// The number of column j, from those of the columns after it.
fn number_of<const WIDTH: usize>(
    l: &Table<MOST_COLUMNS, WIDTH>,
    numbers: &[i64; MOST_FACTORS],
    j: usize,
    columns: usize,
) -> i128
    requires factor { j < WIDTH }
    requires column { suc j < columns }
    requires columns_in { columns ≤ MOST_COLUMNS }
    requires factors { EntriesBelow (2 ^ 52) l.now }
    requires narrow { (i : ℕ) → j < i → i < columns - 1 →
        unsigned_abs (item numbers.now i) < 2 ^ 46 }
    ensures value { result ≡ next_number (list_from (λ i. entry l.now i j) (suc j)
        (columns - j - 1)) (list_from (item numbers.now) (suc j) (columns - 1 - suc j)) }
    ensures size { unsigned_abs result ≤ 2 ^ 104 }
{
    -nearest(factor_sum(l, numbers, j, columns), FACTOR_UNIT)
}

/// Writes the numbers of the first `count` columns, each from those of the columns after it.
fn solve<const WIDTH: usize>(
    l: &Table<MOST_COLUMNS, WIDTH>,
    numbers: &mut [i64; MOST_FACTORS],
    count: usize,
    columns: usize,
) -> Result<(), Overwidth>
    requires factors_of { count ≤ WIDTH }
    requires count_in { count < columns }
    requires columns_in { columns ≤ MOST_COLUMNS }
    requires factors { EntriesBelow (2 ^ 52) l.now }
    requires narrow { (i : ℕ) → count ≤ i → i < columns - 1 →
        unsigned_abs (item numbers.old i) < 2 ^ 46 }
    ensures solved { OnOk result ((d : List ℤ) →
        list_from (item numbers.new) 0 (columns - 1) ≡ solved (stored d l.now columns 0 count)
        (list_from (item numbers.old) count (columns - 1 - count))) }
    ensures narrow { OnOk result ((i : ℕ) → i < columns - 1 →
        unsigned_abs (item numbers.new i) < 2 ^ 46) }
    ensures outside { (i : ℕ) → count ≤ i → item numbers.new i ≡ item numbers.old i }
    ensures wide { IfErr result (λ e. (d : List ℤ) → HasWideBefore count (solved (stored d l.now
        columns 0 count) (list_from (item numbers.old) count (columns - 1 - count)))) }
    ensures place { IfErr result (λ e. e.place ≡ Float) }
{
    for k in 0..count {
        let j = count - 1 - k;
        let number = number_of(l, numbers, j, columns);
        if !is_narrow(number) {
            return Err(Overwidth {
                place: Place::Float,
            });
        }
        numbers[j] = number as i64;
    }
    Ok(())
}

/// The integers in units of 2^-16, after the columns of the baseline.
fn integer_numbers(z: &[i64]) -> [i64; MOST_FACTORS]
    requires count { length z.now ≤ MOST_INTEGERS }
    requires size { (i : ℕ) → i < length z.now → unsigned_abs (item z.now i) < 2 ^ 30 }
    ensures list { list_from (item result) 3 (length z.now) ≡ scaled (pos (2 ^ 16)) z.now }
    ensures narrow { (i : ℕ) → 3 ≤ i → i < 3 + length z.now →
        unsigned_abs (item result i) < 2 ^ 46 }
{
    let mut numbers = [0; MOST_FACTORS];
    for i in 0..z.len() {
        numbers[BASELINE_COLUMNS + i] = z[i] * ONE;
    }
    numbers
}

/// The baseline at the integers z, by the factors of its columns.
fn baseline_from<const WIDTH: usize>(
    l: &Table<MOST_COLUMNS, WIDTH>,
    columns: usize,
    z: &[i64],
) -> Result<[i64; BASELINE_COLUMNS], Overwidth>
    requires factors_of { BASELINE_COLUMNS ≤ WIDTH }
    requires columns_from { 4 ≤ columns }
    requires columns_in { columns ≤ MOST_COLUMNS }
    requires factors { EntriesBelow (2 ^ 52) l.now }
    requires count { length z.now ≡ columns - 4 }
    requires size { (i : ℕ) → i < length z.now → unsigned_abs (item z.now i) < 2 ^ 30 }
    ensures ok { IfOk result (λ b. (d : List ℤ) → b ≡ baseline_at d l.now columns z.now) }
    ensures refused { (d : List ℤ) → IsErr result ↔ HasWide (baseline_at d l.now columns z.now) }
    ensures place { IfErr result (λ e. e.place ≡ Float) }
{
    let mut numbers = integer_numbers(z);
    solve(l, &mut numbers, BASELINE_COLUMNS, columns)?;
    Ok([numbers[0], numbers[1], numbers[2]])
}

impl Form {
    /// The point with the least value over the rationals, as the factors have it: for each column but the constant its
    /// number in units of 2^-16, rounded to the nearest from the last column to the first. After them the array is 0.
    ///
    /// The baseline's numbers are in units of 2^(scale - 5) ι.
    pub fn float_of(&self) -> Result<[i64; MOST_FACTORS], Overwidth>
        ensures ok { IfOk result (λ f. (j : ℕ) → item f j ≡ item (float_point self.now) j) }
        ensures refused { IsErr result ↔ HasWide (float_point self.now) }
        ensures place { IfErr result (λ e. e.place ≡ Float) }
    {
        let mut numbers = [0; MOST_FACTORS];
        solve(&self.l, &mut numbers, self.columns - 1, self.columns)?;
        Ok(numbers)
    }

    /// The baseline at the integers z, by the same rule, in units of 2^(scale - 5) ι.
    pub fn baseline_of(&self, z: &[i64]) -> Result<[i64; BASELINE_COLUMNS], Overwidth>
        requires count { length z.now ≡ integers_of self.now }
        requires size { (i : ℕ) → i < length z.now → unsigned_abs (item z.now i) < 2 ^ 30 }
        ensures ok { IfOk result (λ b.
            b ≡ baseline_at self.now.d self.now.l self.now.columns z.now) }
        ensures refused { IsErr result
            ↔ HasWide (baseline_at self.now.d self.now.l self.now.columns z.now) }
        ensures place { IfErr result (λ e. e.place ≡ Float) }
    {
        baseline_from(&self.l, self.columns, z)
    }
}

impl FrontForm {
    /// The baseline at the integers z, in units of 2^(scale - 5) ι.
    pub fn baseline_of(&self, z: &[i64]) -> Result<[i64; BASELINE_COLUMNS], Overwidth>
        requires count { length z.now ≡ self.now.columns - 4 }
        requires size { (i : ℕ) → i < length z.now → unsigned_abs (item z.now i) < 2 ^ 30 }
        ensures ok { IfOk result (λ b.
            b ≡ baseline_at self.now.d self.now.l self.now.columns z.now) }
        ensures refused { IsErr result
            ↔ HasWide (baseline_at self.now.d self.now.l self.now.columns z.now) }
        ensures place { IfErr result (λ e. e.place ≡ Float) }
    {
        baseline_from(&self.l, self.columns, z)
    }
}
