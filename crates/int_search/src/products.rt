//! Products in the ranges of a form and of a map.
ghost use Rattle.std.specs.Prelude.{◌≡◌, ◌^◌, ◌≤◌, ◌*ℤ◌, unsigned_abs};

/// q · m
pub(crate) fn half_product(q: i128, m: i64) -> i128
    requires q_size { unsigned_abs q ≤ 2 ^ 88 }
    requires m_size { unsigned_abs m ≤ 2 ^ 30 }
    ensures value { result ≡ q *ℤ m }
    ensures size { unsigned_abs result ≤ 2 ^ 118 }
{
    q * m as i128
}
