//! The weighted squares of the radii of the rows.
ghost use Rattle.std.specs.Prelude.{◌≡◌, ℕ, ◌+◌, ◌*◌, ◌^◌, ◌≤◌, List, ℤ, ◌+ℤ◌, ◌*ℤ◌, ◌≤ℤ◌, pos, length, map};
ghost use Rattle.quadratic_form.specs.Rows.{add_radii, row_radii};
ghost use Rattle.obs_rows.specs.declared.arcs.Arc.{Arc};
ghost use Rattle.obs_rows.specs.SignalGroups.{signal_row};
ghost use Rattle.normal_sum.specs.RadiusSums.{radii_of, IsAtMost, squares_of};

use crate::places::MOST_ROWS;
use obs_rows::Row;
use whole_math::product;

/// Sums of weighted squares of the radii of the three directions and of the observations.
#[derive(Clone, Copy)]
pub(crate) struct RadiusSums {
    pub(crate) u1: i128,
    pub(crate) u2: i128,
    pub(crate) u3: i128,
    pub(crate) y: i128,
}

/// radius²
fn square(radius: i64) -> i64
    requires from { pos 0 ≤ℤ radius }
    requires to { radius ≤ℤ pos (2 ^ 20) }
    ensures value { result ≡ radius *ℤ radius }
    ensures from { pos 0 ≤ℤ result }
    ensures to { result ≤ℤ pos (2 ^ 40) }
{
    radius * radius
}

/// weight · radius²
fn weighted_square(weight: i64, radius: i64) -> i128
    requires weight_from { pos 0 ≤ℤ weight }
    requires weight_to { weight ≤ℤ pos (2 ^ 35) }
    requires from { pos 0 ≤ℤ radius }
    requires to { radius ≤ℤ pos (2 ^ 20) }
    ensures value { result ≡ weight *ℤ (radius *ℤ radius) }
    ensures from { pos 0 ≤ℤ result }
    ensures to { result ≤ℤ pos (2 ^ 75) }
{
    product::<35, 40>(weight, square(radius))
}

/// sum + weight · radius²
fn plus_square(sum: i128, weight: i64, radius: i64) -> i128
    requires sum_from { pos 0 ≤ℤ sum }
    requires sum_to { sum ≤ℤ pos (2 ^ 110) }
    requires weight_from { pos 0 ≤ℤ weight }
    requires weight_to { weight ≤ℤ pos (2 ^ 35) }
    requires from { pos 0 ≤ℤ radius }
    requires to { radius ≤ℤ pos (2 ^ 20) }
    ensures value { result ≡ sum +ℤ (weight *ℤ (radius *ℤ radius)) }
    ensures from { pos 0 ≤ℤ result }
    ensures to { result ≤ℤ (sum +ℤ pos (2 ^ 75)) }
{
    sum + weighted_square(weight, radius)
}

/// The sums with one row more.
fn add_row(sums: RadiusSums, row: &Row, weight: i64) -> RadiusSums
    requires weight_from { pos 0 ≤ℤ weight }
    requires weight_to { weight ≤ℤ pos (2 ^ 35) }
    requires sums { IsAtMost (2 ^ 110) sums }
    ensures value { radii_of result ≡ add_radii (radii_of sums) (squares_of weight row.now) }
    ensures size { (m : ℕ) → IsAtMost m sums → IsAtMost (m + 2 ^ 75) result }
{
    RadiusSums {
        u1: plus_square(sums.u1, weight, row.ru[0]),
        u2: plus_square(sums.u2, weight, row.ru[1]),
        u3: plus_square(sums.u3, weight, row.ru[2]),
        y: plus_square(sums.y, weight, row.ry),
    }
}

/// The sums with the rows of a pair more, at this weight.
pub(crate) fn add_radii_of(start: RadiusSums, rows: &[Row], weight: i64) -> RadiusSums
    requires few_rows { length rows.now ≤ MOST_ROWS }
    requires weight_from { pos 0 ≤ℤ weight }
    requires weight_to { weight ≤ℤ pos (2 ^ 35) }
    requires sums { IsAtMost (2 ^ 99) start }
    ensures value { (w : ℤ) (arcs : List Arc) (ss : List ℕ) (s : ℕ) → weight ≡ pos 360360 *ℤ w →
        radii_of result
        ≡ add_radii (radii_of start) (row_radii w (map (signal_row arcs ss s) rows.now)) }
    ensures size { (m : ℕ) → IsAtMost m start → IsAtMost (m + (MOST_ROWS * 2 ^ 75)) result }
{
    let mut sums = start;
    for row in rows {
        sums = add_row(sums, row, weight);
    }
    sums
}
