//! What one step of the elimination leaves of an entry: by a product where that says the quotient, and else by an exact division.
ghost use Rattle.std.specs.Prelude.{◌≡◌, ◌+◌, ◌^◌, ◌<◌, ◌≤◌, true, false, IfSome, IsNone, pos, ◌-ℤ◌, ◌*ℤ◌, unsigned_abs, nat_lt};
ghost use Rattle.whole_math.specs.Rounding.{ceil_div};
ghost use Rattle.elimination.specs.StepEntries.{is_small, square_over, IsSmallOnly};
ghost use Rattle.elimination.specs.Quotients.{factor_by, own_by, other_by};

use crate::quotients::Quotient;
use quadratic_form::MOST_COLUMNS;
use whole_math::{ceil, ceil_shift, nearest, product};

/// Every factor and every entry after a rounding is below this in size.
const LIMIT: i128 = 1 << 52;

/// The same, for a number of 64 bits.
const SHORT_LIMIT: i64 = 1 << 52;

/// Whether a number is below 2^52 in size.
pub fn is_small(number: i128) -> bool
    ensures { result ≡ nat_lt (unsigned_abs number) (2 ^ 52) }
{
    -LIMIT < number && number < LIMIT
}

/// A small number in 64 bits: a product of two such takes one multiplication, and of two of 128 bits three.
pub(crate) fn narrow(x: i128) -> i64
    requires { unsigned_abs x ≤ 2 ^ 52 }
    ensures value { result ≡ x }
    ensures size { unsigned_abs result ≤ 2 ^ 52 }
{
    x as i64
}

/// entry - square - count - loss
fn less_three(entry: i128, square: i128, count: i128, loss: i128) -> i128
    requires entry_size { unsigned_abs entry ≤ 2 ^ 52 }
    requires square_size { unsigned_abs square ≤ 2 ^ 104 }
    requires count_size { unsigned_abs count ≤ 2 ^ 52 }
    requires loss_size { unsigned_abs loss ≤ 2 ^ 104 }
    ensures value { result ≡ ((entry -ℤ square) -ℤ count) -ℤ loss }
    ensures size { unsigned_abs result ≤ 2 ^ 107 }
{
    let rest = entry - square;
    let fewer = rest - count;
    fewer - loss
}

/// entry - loss in 64 bits, where it is below 2^52 in size.
fn short_less(entry: i64, loss: i64) -> Option<i64>
    requires entry_size { unsigned_abs entry ≤ 2 ^ 52 }
    requires loss_size { unsigned_abs loss ≤ 2 ^ 62 + 1 }
    ensures value { IfSome result (λ x. x ≡ entry -ℤ loss) }
    ensures small { IfSome result (λ x. is_small x ≡ true) }
    ensures refused { IsNone result → is_small (entry -ℤ loss) ≡ false }
{
    let rest = entry - loss;
    if -SHORT_LIMIT < rest && rest < SHORT_LIMIT {
        Some(rest)
    } else {
        None
    }
}

/// entry - loss, where it is below 2^52 in size.
fn long_less(entry: i128, loss: i128) -> Option<i64>
    requires entry_size { unsigned_abs entry ≤ 2 ^ 52 }
    requires loss_size { unsigned_abs loss ≤ 2 ^ 104 }
    ensures value { IfSome result (λ x. x ≡ entry -ℤ loss) }
    ensures small { IfSome result (λ x. is_small x ≡ true) }
    ensures refused { IsNone result → is_small (entry -ℤ loss) ≡ false }
{
    let rest = entry - loss;
    if is_small(rest) {
        Some(rest as i64)
    } else {
        None
    }
}

/// later · a / 2^42 upward: what the rounding of the factors of later columns may take from an own entry.
fn factor_loss(later: usize, a: i64) -> i128
    requires few { later ≤ MOST_COLUMNS }
    requires a_size { unsigned_abs a ≤ 2 ^ 52 }
    ensures value { result ≡ ceil_div (pos later *ℤ a) (2 ^ 42) }
    ensures size { unsigned_abs result ≤ 2 ^ 58 }
{
    ceil_shift(product::<6, 52>(later as i64, a), 42)
}

/// What is kept of a pivot.
pub(crate) fn kept_of(a: i128) -> i128
    requires a_size { unsigned_abs a ≤ 2 ^ 52 }
    ensures value { result ≡ a -ℤ ceil_div a (2 ^ 20) }
    ensures size { unsigned_abs result ≤ 2 ^ 53 }
{
    a - ceil_shift(a, 20)
}

impl Quotient {
    /// An entry less p · q / a to the nearest, where that is below 2^52 in size, by a division. One entry in 256 comes here.
    #[cold]
    #[inline(never)]
    fn exact_less(&self, entry: i64, q: i64) -> Option<i64>
        requires entry_size { unsigned_abs entry ≤ 2 ^ 52 }
        requires q_size { unsigned_abs q ≤ 2 ^ 52 }
        ensures { IsSmallOnly (other_by self.now q entry) result }
    {
        let loss = nearest(product::<52, 52>(self.p, q), self.a as i128);
        long_less(entry as i128, loss)
    }

    /// An entry off the diagonal, less p · q / a to the nearest, where that is below 2^52 in size.
    #[inline(always)]
    pub(crate) fn less(&self, entry: i64, q: i64) -> Option<i64>
        requires entry_size { unsigned_abs entry ≤ 2 ^ 52 }
        requires q_size { unsigned_abs q ≤ 2 ^ 52 }
        ensures { IsSmallOnly (other_by self.now q entry) result }
    {
        match self.times(q) {
            Some(loss) => short_less(entry, loss),
            None => self.exact_less(entry, q),
        }
    }

    /// p · 2^30 / a to the nearest, where that is below 2^52 in size: the factor of a column with the entry p in the column of a.
    pub(crate) fn factor(&self) -> Option<i64>
        ensures { IsSmallOnly (factor_by self.now) result }
    {
        match self.less(0, 1 << 30) {
            Some(turned) => Some(-turned),
            None => None,
        }
    }

    /// p² / a upward.
    fn square(&self) -> i128
        ensures value { result ≡ square_over self.now.p self.now.a }
        ensures size { unsigned_abs result ≤ 2 ^ 104 }
    {
        match self.near_square() {
            Some(square) => square as i128,
            None => ceil(product::<52, 52>(self.p, self.p), self.a as i128),
        }
    }

    /// An own entry less p² / a upward, the number of later columns and the loss of their factors, where that is below 2^52 in size.
    pub(crate) fn own_less(&self, entry: i64, later: usize) -> Option<i64>
        requires entry_size { unsigned_abs entry ≤ 2 ^ 52 }
        requires few { later ≤ MOST_COLUMNS }
        ensures { IsSmallOnly (own_by self.now later entry) result }
    {
        let loss = factor_loss(later, self.a);
        let own = less_three(entry as i128, self.square(), later as i128, loss);
        if is_small(own) {
            Some(own as i64)
        } else {
            None
        }
    }
}
