//! The laws of rationals that a newcomer should see. Each function has an empty body: its contract states laws, and the check proves
//! them.
ghost use Rattle.std.specs.Prelude.{◌↔◌, ◌⊎◌, ℕ, List, ℤ, pos, ◌+ℤ◌, ◌*ℤ◌, ◌≤ℤ◌};
ghost use Rattle.whole_math.specs.Rational.{Rational, ◌≈◌, ◌≤ʳ◌, ◌<ʳ◌, of_whole, ◌+ʳ◌, neg_r, ◌-ʳ◌, ◌*ʳ◌, Near, InBox};
ghost use Rattle.whole_math.specs.Boxes.{of_scale};
ghost use Rattle.whole_math.specs.Over.{Over, HasCommonDenominator};

/// The order is total, and two rationals that are at most each other are equal.
pub fn order_laws()
    ensures transitive { (p q r : Rational) → p ≤ʳ q → q ≤ʳ r → p ≤ʳ r }
    ensures total { (p q : Rational) → (p ≤ʳ q) ⊎ (q <ʳ p) }
    ensures antisymmetric { (p q : Rational) → p ≤ʳ q → q ≤ʳ p → p ≈ q }
    ensures strict { (p q : Rational) → p <ʳ q → q ≤ʳ p → ⊥ }
{}

/// Equality is an equivalence, and equal rationals may stand for each other in every operation, order and box.
pub fn equality_laws()
    ensures symmetric { (p q : Rational) → p ≈ q → q ≈ p }
    ensures transitive { (p q r : Rational) → p ≈ q → q ≈ r → p ≈ r }
    ensures sum { (p q r : Rational) → p ≈ q → p +ʳ r ≈ q +ʳ r }
    ensures product { (p q r : Rational) → p ≈ q → p *ʳ r ≈ q *ʳ r }
    ensures order { (p p' q q' : Rational) → p ≈ p' → q ≈ q' → p ≤ʳ q → p' ≤ʳ q' }
    ensures boxes { (scale : ℕ) (lo hi : ℤ) (p q : Rational) → p ≈ q → InBox scale lo hi p →
        InBox scale lo hi q }
    ensures near { (centre radius : ℤ) (p q : Rational) → p ≈ q → Near centre radius p →
        Near centre radius q }
{}

/// The laws of sums and products.
pub fn ring_laws()
    ensures sum_commutes { (p q : Rational) → p +ʳ q ≈ q +ʳ p }
    ensures sum_associates { (p q r : Rational) → p +ʳ q +ʳ r ≈ p +ʳ (q +ʳ r) }
    ensures zero { (p : Rational) → p +ʳ of_whole (pos 0) ≈ p }
    ensures negative { (p : Rational) → p +ʳ neg_r p ≈ of_whole (pos 0) }
    ensures difference { (p q : Rational) → p -ʳ q ≈ p +ʳ neg_r q }
    ensures product_commutes { (p q : Rational) → p *ʳ q ≈ q *ʳ p }
    ensures product_associates { (p q r : Rational) → p *ʳ q *ʳ r ≈ p *ʳ (q *ʳ r) }
    ensures one { (p : Rational) → p *ʳ of_whole (pos 1) ≈ p }
    ensures distributive { (p q r : Rational) → p *ʳ (q +ʳ r) ≈ p *ʳ q +ʳ p *ʳ r }
{}

/// Sums keep the order, products by what is not negative too, and whole numbers are ordered and added as before.
pub fn ordered_ring_laws()
    ensures sum { (p q r : Rational) → p ≤ʳ q → p +ʳ r ≤ʳ q +ʳ r }
    ensures product { (p q r : Rational) → pos 0 ≤ℤ r.num → p ≤ʳ q → p *ʳ r ≤ʳ q *ʳ r }
    ensures square { (p : Rational) → of_whole (pos 0) ≤ʳ p *ʳ p }
    ensures whole_order { (a b : ℤ) → a ≤ℤ b → of_whole a ≤ʳ of_whole b }
    ensures whole_sum { (a b : ℤ) → of_whole (a +ℤ b) ≈ of_whole a +ʳ of_whole b }
    ensures whole_product { (a b : ℤ) → of_whole (a *ℤ b) ≈ of_whole a *ʳ of_whole b }
{}

/// A box holds what lies from its one end to the other, so it lies in each wider one.
pub fn box_laws()
    ensures ends { (scale : ℕ) (lo hi : ℤ) (q : Rational) →
        (InBox scale lo hi q) ↔ ((of_scale scale lo ≤ʳ q) × (q ≤ʳ of_scale scale hi)) }
    ensures wider { (scale : ℕ) (a b lo hi : ℤ) (q : Rational) → lo ≤ℤ a → b ≤ℤ hi →
        InBox scale a b q → InBox scale lo hi q }
    ensures ordered { (scale : ℕ) (lo hi : ℤ) (q : Rational) → InBox scale lo hi q → lo ≤ℤ hi }
{}

/// Finitely many rationals have a common denominator, over which sums are those of the numerators.
pub fn common_denominator_laws()
    ensures exists { (qs : List Rational) → HasCommonDenominator qs }
    ensures sum { (k m n : ℤ) (p q : Rational) → Over k m p → Over k n q →
        Over k (m +ℤ n) (p +ʳ q) }
    ensures product { (j k m n : ℤ) (p q : Rational) → Over j m p → Over k n q →
        Over (j *ℤ k) (m *ℤ n) (p *ʳ q) }
{}
