//! One step of the elimination, in place: it reads the row of its column and writes only rows and columns after it.
//! Of a table only the entries on the diagonal and after it are read and written.
ghost use Rattle.std.specs.Prelude.{◌≡◌, ◌≢◌, ◌⊎◌, ℕ, ◌+◌, ◌-◌, ◌^◌, ◌<◌, ◌≤◌, pos, ◌<ℤ◌, unsigned_abs, true, false, IfOk, IfErr, Ok, Err};
ghost use Rattle.quadratic_form.specs.Elimination.{step as elimination};
ghost use Rattle.quadratic_form.specs.Tables.{entry};
ghost use Rattle.elimination.specs.StepEntries.{is_small, factor_entry, other_entry, new_entry};
ghost use Rattle.elimination.specs.Stops.{refusal_of, column_at, form_after};
ghost use Rattle.integer_form.specs.Factors.{factor_at};

use crate::entries::{kept_of, narrow};
use crate::quotients::{Quotient, Reciprocal};
use quadratic_form::{FactorTable, MOST_COLUMNS, MOST_FACTORS, NormalTable};

/// Why a step stops.
#[derive(Clone, Copy, Debug, PartialEq, Eq)]
pub enum StepFault {
    /// The pivot is below 2^20.
    Weak,
    /// A factor is 2^52 or more in size.
    WideFactor,
    /// A new entry is 2^52 or more in size.
    WideEntry,
}

/// A pivot is at least this.
const LEAST_PIVOT: i128 = 1 << 20;

/// Writes the factors of column j, by its pivot and the reciprocal; false where one is too large.
fn write_factors(
    table: &NormalTable,
    factors: &mut FactorTable,
    j: usize,
    columns: usize,
    a: i128,
    reciprocal: &Reciprocal,
) -> bool
    requires column { j < columns }
    requires factor_in { j < MOST_FACTORS }
    requires columns_in { columns ≤ MOST_COLUMNS }
    requires positive { pos 0 <ℤ a }
    requires pivot_size { unsigned_abs a ≤ 2 ^ 52 }
    requires entries { (c : ℕ) → j < c → c < columns → unsigned_abs (entry table.now j c) ≤ 2 ^ 52 }
    ensures value { result ≡ true → (c : ℕ) → j < c → c < columns →
        entry factors.new c j ≡ factor_entry table.now j (unsigned_abs a) c }
    ensures small { result ≡ true → (c : ℕ) → j < c → c < columns →
        is_small (factor_entry table.now j (unsigned_abs a) c) ≡ true }
    ensures refused { result ≡ false → (c : ℕ) × ((j < c) × (c < columns) ×
        (is_small (factor_entry table.now j (unsigned_abs a) c) ≡ false)) }
    ensures others { (i c : ℕ) → (c ≢ j) ⊎ ((i ≤ j) ⊎ (columns ≤ i)) →
        entry factors.new i c ≡ entry factors.old i c }
{
    for c in j + 1..columns {
        match Quotient::of(narrow(table.at(j, c)), narrow(a), reciprocal).factor() {
            Some(factor) => factors.set(c, j, factor),
            None => return false,
        }
    }
    true
}

/// Writes the entries of row r after its own, by the quotient of its entry in row j; false where one is too large.
// Never inlined: the compiler would take the ratio for a number of 128 bits, whose product takes three multiplications.
#[inline(never)]
fn update_others(
    table: &mut NormalTable,
    j: usize,
    r: usize,
    columns: usize,
    quotient: &Quotient,
) -> bool
    requires row { j < r }
    requires row_in { r < columns }
    requires columns_in { columns ≤ MOST_COLUMNS }
    requires pivots { (c : ℕ) → j < c → c < columns → unsigned_abs (entry table.old j c) ≤ 2 ^ 52 }
    requires entries { (c : ℕ) → r < c → c < columns → unsigned_abs (entry table.old r c) ≤ 2 ^ 52 }
    requires quotient { quotient.now.p ≡ entry table.old j r }
    ensures value { result ≡ true → (c : ℕ) → r < c → c < columns →
        entry table.new r c ≡ other_entry table.old j (unsigned_abs quotient.now.a) r c }
    ensures small { result ≡ true → (c : ℕ) → r < c → c < columns →
        is_small (other_entry table.old j (unsigned_abs quotient.now.a) r c) ≡ true }
    ensures refused { result ≡ false → (c : ℕ) × ((r < c) × (c < columns) ×
        (is_small (other_entry table.old j (unsigned_abs quotient.now.a) r c) ≡ false)) }
    ensures before { (c : ℕ) → c ≤ r → entry table.new r c ≡ entry table.old r c }
    ensures others { (i c : ℕ) → i ≢ r → entry table.new i c ≡ entry table.old i c }
{
    for c in r + 1..columns {
        match quotient.less(narrow(table.at(r, c)), narrow(table.at(j, c))) {
            Some(other) => table.set(r, c, other as i128),
            None => return false,
        }
    }
    true
}

/// Writes the entries of row r from its own on; false where one is too large.
fn update_row(
    table: &mut NormalTable,
    j: usize,
    r: usize,
    columns: usize,
    a: i128,
    reciprocal: &Reciprocal,
) -> bool
    requires row { j < r }
    requires row_in { r < columns }
    requires columns_in { columns ≤ MOST_COLUMNS }
    requires positive { pos 0 <ℤ a }
    requires pivot_size { unsigned_abs a ≤ 2 ^ 52 }
    requires pivots { (c : ℕ) → j < c → c < columns → unsigned_abs (entry table.old j c) ≤ 2 ^ 52 }
    requires entries { (c : ℕ) → r ≤ c → c < columns → unsigned_abs (entry table.old r c) ≤ 2 ^ 52 }
    ensures value { result ≡ true → (c : ℕ) → r ≤ c → c < columns → entry table.new r c
        ≡ new_entry table.old j (unsigned_abs a) (pos (columns - j - 1)) r c }
    ensures small { result ≡ true → (c : ℕ) → r ≤ c → c < columns →
        is_small (new_entry table.old j (unsigned_abs a) (pos (columns - j - 1)) r c) ≡ true }
    ensures refused { result ≡ false → (c : ℕ) × ((r ≤ c) × (c < columns) ×
        (is_small (new_entry table.old j (unsigned_abs a) (pos (columns - j - 1)) r c) ≡ false)) }
    ensures others { (i c : ℕ) → i ≢ r → entry table.new i c ≡ entry table.old i c }
{
    let old = narrow(table.at(r, r));
    let quotient = Quotient::of(narrow(table.at(j, r)), narrow(a), reciprocal);
    match quotient.own_less(old, columns - j - 1) {
        Some(own) => table.set(r, r, own as i128),
        None => return false,
    }
    update_others(table, j, r, columns, &quotient)
}

/// Writes all entries after column j; false where one is too large.
fn update(
    table: &mut NormalTable,
    j: usize,
    columns: usize,
    a: i128,
    reciprocal: &Reciprocal,
) -> bool
    requires column { j < columns }
    requires columns_in { columns ≤ MOST_COLUMNS }
    requires positive { pos 0 <ℤ a }
    requires pivot_size { unsigned_abs a ≤ 2 ^ 52 }
    requires pivots { (c : ℕ) → j < c → c < columns → unsigned_abs (entry table.old j c) ≤ 2 ^ 52 }
    requires entries { (r c : ℕ) → j < r → r ≤ c → c < columns →
        unsigned_abs (entry table.old r c) ≤ 2 ^ 52 }
    ensures value { result ≡ true → (r c : ℕ) → j < r → r ≤ c → c < columns → entry table.new r c
        ≡ new_entry table.old j (unsigned_abs a) (pos (columns - j - 1)) r c }
    ensures small { result ≡ true → (r c : ℕ) → j < r → r ≤ c → c < columns →
        is_small (new_entry table.old j (unsigned_abs a) (pos (columns - j - 1)) r c) ≡ true }
    ensures refused { result ≡ false → (r : ℕ) × (c : ℕ) × ((j < r) × (r ≤ c) × (c < columns) ×
        (is_small (new_entry table.old j (unsigned_abs a) (pos (columns - j - 1)) r c) ≡ false)) }
    ensures before { (r c : ℕ) → r ≤ j → entry table.new r c ≡ entry table.old r c }
{
    for r in j + 1..columns {
        if !update_row(table, j, r, columns, a, reciprocal) {
            return false;
        }
    }
    true
}

/// One step: column j goes, and its factors are written. Gives what is kept of the pivot.
pub(crate) fn step(
    table: &mut NormalTable,
    factors: &mut FactorTable,
    j: usize,
    columns: usize,
) -> Result<i128, StepFault>
    requires column { j < columns }
    requires factor_in { j < MOST_FACTORS }
    requires columns_in { columns ≤ MOST_COLUMNS }
    requires entries { (r c : ℕ) → j ≤ r → r ≤ c → c < columns →
        unsigned_abs (entry table.old r c) ≤ 2 ^ 52 }
    ensures taken { IfOk result (λ d.
        elimination j (column_at table.old j (columns - j - 1))
        (form_after table.old j (columns - j - 1)) ≡ Ok (
          factor_at d factors.new j (columns - j - 1),
          form_after table.new j (columns - j - 1),
        )) }
    ensures refused { IfErr result (λ e.
        elimination j (column_at table.old j (columns - j - 1))
        (form_after table.old j (columns - j - 1))
        ≡ Err (refusal_of j (entry table.old j j) e)) }
    ensures small { IfOk result (λ d. (r c : ℕ) → j < r → r ≤ c → c < columns →
        unsigned_abs (entry table.new r c) ≤ 2 ^ 52) }
    ensures size { IfOk result (λ d. unsigned_abs d ≤ 2 ^ 53) }
    ensures others { (i c : ℕ) → (c ≢ j) ⊎ ((i ≤ j) ⊎ (columns ≤ i)) →
        entry factors.new i c ≡ entry factors.old i c }
{
    let a = table.at(j, j);
    if a < LEAST_PIVOT {
        return Err(StepFault::Weak);
    }
    let reciprocal = Reciprocal::of(a);
    if !write_factors(table, factors, j, columns, a, &reciprocal) {
        return Err(StepFault::WideFactor);
    }
    if !update(table, j, columns, a, &reciprocal) {
        return Err(StepFault::WideEntry);
    }
    Ok(kept_of(a))
}
