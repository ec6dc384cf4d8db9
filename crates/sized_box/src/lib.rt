//! Boxes whose type says how far their ends are from 0 and how wide they are, so that arithmetic is never refused.
//!
//! A `SizedBox` has in its type how far its ends are from 0 and how wide it is. Its sums, differences, products,
//! squares and quotients hold every exact result and are never refused; the limits of the answer are compared with
//! those of the operands when the program is checked.
#![tactic(auto)]

ghost use Rattle.std.specs.Prelude.{◌≡◌, ◌+◌, ◌-◌, ◌*◌, ◌^◌, ◌<◌, ◌≤◌, pos, ◌≤ℤ◌};
ghost use Rattle.whole_math.specs.Rational.{Rational, ◌+ʳ◌, ◌-ʳ◌, ◌*ʳ◌, ◌≈◌};
ghost use Rattle.iv_core.specs.Intervals.{Holds, width_of, IsWithin};

use iv_core::Iv;

/// A box with ends at most SIZE units from 0 and at most WIDTH units apart.
#[derive(Clone, Copy, Debug)]
pub struct SizedBox<const K: u32, const SIZE: u64, const WIDTH: u64> {
    pub held: Iv<K>,
    pub ghost within: { IsWithin SIZE held },
    pub ghost narrow: { width_of held ≤ℤ pos WIDTH },
}

impl<const K: u32, const SIZE: u64, const WIDTH: u64> SizedBox<K, SIZE, WIDTH> {
    /// Any box of that size and width.
    pub fn new(held: Iv<K>) -> Self
        requires within { IsWithin SIZE held }
        requires narrow { width_of held ≤ℤ pos WIDTH }
        ensures { result.held ≡ held.entry }
    {
        SizedBox { held }
    }

    /// The same box with wider limits.
    pub fn loose<const TO_SIZE: u64, const TO_WIDTH: u64>(&self) -> SizedBox<K, TO_SIZE, TO_WIDTH>
        requires size { SIZE ≤ TO_SIZE }
        requires width { WIDTH ≤ TO_WIDTH }
        ensures { result.held ≡ self.now.held }
    {
        SizedBox::new(self.held)
    }

    /// Holds all sums.
    pub fn add<
        const OTHER_SIZE: u64,
        const OTHER_WIDTH: u64,
        const TO_SIZE: u64,
        const TO_WIDTH: u64,
    >(&self, other: &SizedBox<K, OTHER_SIZE, OTHER_WIDTH>) -> SizedBox<K, TO_SIZE, TO_WIDTH>
        requires size { SIZE + OTHER_SIZE ≤ TO_SIZE }
        requires limit { TO_SIZE ≤ 2 ^ 62 }
        requires width { WIDTH + OTHER_WIDTH ≤ TO_WIDTH }
        ensures holds { (x y : Rational) →
            Holds self.now.held x → Holds other.now.held y → Holds result.held (x +ʳ y) }
    {
        SizedBox::new(self.held.sum_of(&other.held))
    }

    /// Holds all differences.
    pub fn sub<
        const OTHER_SIZE: u64,
        const OTHER_WIDTH: u64,
        const TO_SIZE: u64,
        const TO_WIDTH: u64,
    >(&self, other: &SizedBox<K, OTHER_SIZE, OTHER_WIDTH>) -> SizedBox<K, TO_SIZE, TO_WIDTH>
        requires size { SIZE + OTHER_SIZE ≤ TO_SIZE }
        requires limit { TO_SIZE ≤ 2 ^ 62 }
        requires width { WIDTH + OTHER_WIDTH ≤ TO_WIDTH }
        ensures holds { (x y : Rational) →
            Holds self.now.held x → Holds other.now.held y → Holds result.held (x -ʳ y) }
    {
        SizedBox::new(self.held.difference_of(&other.held))
    }

    /// Holds all products.
    pub fn mul<
        const A: u32,
        const OTHER_SIZE: u64,
        const OTHER_WIDTH: u64,
        const TO: u32,
        const TO_SIZE: u64,
        const TO_WIDTH: u64,
    >(&self, other: &SizedBox<A, OTHER_SIZE, OTHER_WIDTH>) -> SizedBox<TO, TO_SIZE, TO_WIDTH>
        requires scale { TO ≤ 60 }
        requires coarser { TO ≤ K + A }
        requires size { SIZE * OTHER_SIZE ≤ TO_SIZE * 2 ^ (K + A - TO) }
        requires limit { TO_SIZE ≤ 2 ^ 62 }
        requires width { SIZE * OTHER_WIDTH + OTHER_SIZE * WIDTH + 2 * 2 ^ (K + A - TO)
            ≤ (TO_WIDTH + 1) * 2 ^ (K + A - TO) }
        ensures holds { (x y : Rational) →
            Holds self.now.held x → Holds other.now.held y → Holds result.held (x *ʳ y) }
    {
        SizedBox::new(self.held.product_of::<A, TO>(&other.held))
    }

    /// Holds all squares.
    pub fn square<const TO: u32, const TO_SIZE: u64, const TO_WIDTH: u64>(
        &self,
    ) -> SizedBox<TO, TO_SIZE, TO_WIDTH>
        requires scale { TO ≤ 60 }
        requires coarser { TO ≤ K + K }
        requires size { SIZE * SIZE ≤ TO_SIZE * 2 ^ (K + K - TO) }
        requires limit { TO_SIZE ≤ 2 ^ 62 }
        requires width { 2 * SIZE * WIDTH + 2 * 2 ^ (K + K - TO)
            ≤ (TO_WIDTH + 1) * 2 ^ (K + K - TO) }
        ensures holds { (x : Rational) → Holds self.now.held x → Holds result.held (x *ʳ x) }
    {
        SizedBox::new(self.held.square_of::<TO>())
    }

    /// Holds all quotients by a box whose lower end is at least LEAST.
    pub fn div<
        const A: u32,
        const OTHER_SIZE: u64,
        const OTHER_WIDTH: u64,
        const LEAST: u64,
        const TO: u32,
        const TO_SIZE: u64,
        const TO_WIDTH: u64,
    >(&self, other: &SizedBox<A, OTHER_SIZE, OTHER_WIDTH>) -> SizedBox<TO, TO_SIZE, TO_WIDTH>
        requires scale { TO ≤ 60 }
        requires finer { K ≤ TO + A }
        requires small { TO + A ≤ K + 60 }
        requires positive { 0 < LEAST }
        requires least { pos LEAST ≤ℤ other.now.held.lo }
        requires size { SIZE * 2 ^ (TO + A - K) ≤ TO_SIZE * LEAST }
        requires limit { TO_SIZE ≤ 2 ^ 62 }
        requires width { 2 ^ (TO + A - K) * WIDTH + TO_SIZE * OTHER_WIDTH + 2 * LEAST
            ≤ (TO_WIDTH + 1) * LEAST }
        ensures holds { (x y z : Rational) →
            Holds self.now.held x → Holds other.now.held y → z *ʳ y ≈ x → Holds result.held z }
    {
        SizedBox::new(self.held.div_to::<A, TO>(&other.held).unwrap())
    }
}
