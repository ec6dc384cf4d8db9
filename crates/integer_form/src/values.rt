//! The value of a form at an integer vector.
ghost use Rattle.std.specs.Prelude.{◌≡◌, ℕ, suc, ◌+◌, ◌-◌, ◌^◌, ◌<◌, ◌≤◌, length, pos, [], ◌∷◌, ◌++◌, unsigned_abs};
ghost use Rattle.whole_math.specs.Vectors.{dot};
ghost use Rattle.quadratic_form.specs.Places.{list_from};
ghost use Rattle.quadratic_form.specs.Tables.{entry, item};
ghost use Rattle.quadratic_form.specs.Matrices.{EntriesBelow};
ghost use Rattle.integer_form.specs.Forms.{integers_of, value_of};

use crate::Form;
use crate::products::column_value;
use quadratic_form::{BASELINE_COLUMNS, FormTable, MOST_FORM_COLUMNS, MOST_INTEGERS};
use whole_math::product;

/// The integers and 1 for the constant.
fn with_one(z: &[i64]) -> [i64; MOST_FORM_COLUMNS]
    requires count { length z.now ≤ MOST_INTEGERS }
    requires size { (i : ℕ) → i < length z.now → unsigned_abs (item z.now i) < 2 ^ 30 }
    ensures list { list_from (item result) 0 (suc (length z.now)) ≡ z.now ++ (pos 1 ∷ []) }
    ensures size { (i : ℕ) → i ≤ length z.now → unsigned_abs (item result i) ≤ 2 ^ 30 }
{
    let mut x = [0; MOST_FORM_COLUMNS];
    for i in 0..z.len() {
        x[i] = z[i];
    }
    x[z.len()] = 1;
    x
}

/// The sum of the entries of column r with the later ones of n columns, each times its number.
fn later_products(p: &FormTable, x: &[i64; MOST_FORM_COLUMNS], r: usize, n: usize) -> i128
    requires row_in { r < n }
    requires columns_in { n ≤ MOST_FORM_COLUMNS }
    requires entries { EntriesBelow (2 ^ 52) p.now }
    requires numbers { (i : ℕ) → i < n → unsigned_abs (item x.now i) ≤ 2 ^ 30 }
    ensures value { result ≡ dot (list_from (entry p.now r) (suc r) (n - r - 1))
        (list_from (item x.now) (suc r) (n - r - 1)) }
    ensures size { unsigned_abs result ≤ 2 ^ 88 }
{
    let mut sum = 0;
    for c in r + 1..n {
        sum += product::<52, 46>(p.at(r, c), x[c]);
    }
    sum
}

impl Form {
    /// P(z): the value of the form at the integers z and the constant 1. 64 times the sum of squares is at least 2^h
    /// times it.
    pub fn value(&self, z: &[i64]) -> i128
        requires count { length z.now ≡ integers_of self.now }
        requires size { (i : ℕ) → i < length z.now → unsigned_abs (item z.now i) < 2 ^ 30 }
        ensures value { result ≡ value_of self.now z.now }
        ensures size { unsigned_abs result ≤ 2 ^ 126 }
    {
        let x = with_one(z);
        let n = self.columns - BASELINE_COLUMNS;
        let mut sum = 0;
        for k in 0..n {
            let r = n - 1 - k;
            let later = later_products(&self.p, &x, r, n);
            sum += column_value(self.p.at(r, r), x[r], later);
        }
        sum
    }
}
