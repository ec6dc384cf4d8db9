//! The laws of whole numbers that the crates above rest on. Each function has an empty body: its
//! contract states a law, and the check proves it.

ghost use Rattle.std.specs.Prelude.{◌≡◌, ◌↔◌, ℕ, ◌+◌, ◌-◌, ◌*◌, ◌^◌, ◌<◌, ◌≤◌, List, ◌++◌, ℤ, pos, ◌+ℤ◌, ◌*ℤ◌, ◌≤ℤ◌, ◌<ℤ◌, unsigned_abs};
ghost use Rattle.whole_math.specs.Rounding.{floor_div, ceil_div, nearest_div, IsFloor, IsCeil, IsNearest};
ghost use Rattle.whole_math.specs.Sums.{sum_of};
ghost use Rattle.whole_math.specs.Vectors.{sum, squared_norm, dot, scaled, added};

/// The roundings are those numbers that their inequalities say, and no others.
pub fn rounding_laws()
    ensures floor { (z q : ℤ) (m : ℕ) → 0 < m → (IsFloor z m q) ↔ (q ≡ floor_div z m) }
    ensures ceil { (z q : ℤ) (m : ℕ) → 0 < m → (IsCeil z m q) ↔ (q ≡ ceil_div z m) }
    ensures nearest { (z q : ℤ) (m : ℕ) → 0 < m → (IsNearest z m q) ↔ (q ≡ nearest_div z m) }
{}

/// Signs and sizes of products.
pub fn product_laws()
    ensures sign { (a b : ℤ) → pos 0 ≤ℤ a → pos 0 ≤ℤ b → pos 0 ≤ℤ (a *ℤ b) }
    ensures square { (a : ℤ) → pos 0 ≤ℤ (a *ℤ a) }
    ensures size { (a b : ℤ) (m n : ℕ) → unsigned_abs a ≤ m → unsigned_abs b ≤ n →
        unsigned_abs (a *ℤ b) ≤ m * n }
    ensures factor { (c a b : ℤ) → pos 0 ≤ℤ c → a ≤ℤ b → (c *ℤ a) ≤ℤ (c *ℤ b) }
    ensures cancel { (c a b : ℤ) → pos 0 <ℤ c → (c *ℤ a) ≤ℤ (c *ℤ b) → a ≤ℤ b }
    ensures root { (a b : ℤ) → pos 0 ≤ℤ b → (a *ℤ a) ≤ℤ (b *ℤ b) → a ≤ℤ b }
{}

/// Two powers of two, as two others whose exponents have the same sum.
pub fn power_law()
    ensures { (k m n : ℕ) → n ≤ k + m → 2 ^ k * 2 ^ m ≡ 2 ^ (k + m - n) * 2 ^ n }
{}

/// A sum over a list is linear, keeps an order, and the order of two sums may be exchanged.
pub fn sum_laws()
    ensures linear { (f g : ℤ → ℤ) (xs : List ℤ) →
        sum_of (λ x. f x +ℤ g x) xs ≡ sum_of f xs +ℤ sum_of g xs }
    ensures factor { (k : ℤ) (f : ℤ → ℤ) (xs : List ℤ) →
        sum_of (λ x. k *ℤ f x) xs ≡ k *ℤ sum_of f xs }
    ensures append { (f : ℤ → ℤ) (xs ys : List ℤ) →
        sum_of f (xs ++ ys) ≡ sum_of f xs +ℤ sum_of f ys }
    ensures exchange { (f : ℤ → ℤ → ℤ) (xs ys : List ℤ) →
        sum_of (λ x. sum_of (λ y. f x y) ys) xs ≡ sum_of (λ y. sum_of (λ x. f x y) xs) ys }
{}

/// The dot product is linear and symmetric, and a sum of squares is not negative.
pub fn vector_laws()
    ensures linear { (r s v : List ℤ) → dot (added r s) v ≡ dot r v +ℤ dot s v }
    ensures factor { (k : ℤ) (r v : List ℤ) → dot (scaled k r) v ≡ k *ℤ dot r v }
    ensures symmetric { (r v : List ℤ) → dot r v ≡ dot v r }
    ensures squares { (s : List ℤ) → pos 0 ≤ℤ squared_norm s }
    ensures sum { (k : ℤ) (s t : List ℤ) → sum (added s (scaled k t)) ≡ sum s +ℤ (k *ℤ sum t) }
{}
