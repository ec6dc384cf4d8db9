//! Tests of the ranges that rows, arcs and sessions keep.
ghost use Rattle.std.specs.Prelude.{◌↔◌, All, IsTrue};
ghost use Rattle.obs_rows.specs.Ranges.{IsWithin, IsRadius, IsSystem, IsPoint};
ghost use Rattle.obs_rows.specs.Arcs.{IsArcInRange, AreArcs};

use crate::{Arc, MOST_ARCS, MOST_COORDINATE, MOST_FREE_ARCS, MOST_PAIRS, free_arcs};

/// Whether each number is at most so great in size.
pub fn are_within(numbers: &[i64], most: u64) -> bool
    ensures { IsTrue result ↔ All (IsWithin most) numbers.now }
{
    numbers.iter().all(|n| n.unsigned_abs() <= most)
}

/// Whether a number is the radius of a box of a row.
pub fn is_radius(number: i64) -> bool
    ensures { IsTrue result ↔ IsRadius number }
{
    0 <= number && number <= 1 << 20
}

/// Whether each number is the radius of a box of a row.
pub fn are_radii(numbers: &[i64]) -> bool
    ensures { IsTrue result ↔ All IsRadius numbers.now }
{
    numbers.iter().all(|n| 0 <= *n && *n <= 1 << 20)
}

/// Whether this is the letter of a system.
pub fn is_system(system: u8) -> bool
    ensures { IsTrue result ↔ IsSystem system }
{
    system == b'G' || system == b'E'
}

/// Whether each coordinate, in 0.1 mm, is at most 7,000 km in size.
pub fn is_point(point: &[i64; 3]) -> bool
    ensures { IsTrue result ↔ IsPoint point.now }
{
    are_within(point, MOST_COORDINATE)
}

/// Whether an arc's numbers are in range. The call serves tests alone.
pub fn is_arc_in_range(arc: &Arc) -> bool
    ensures { IsTrue result ↔ IsArcInRange arc.now }
{
    let shifts = arc.shift.iter().all(|n| n.unsigned_abs() < 1 << 40);
    1 <= arc.sat && arc.sat <= 36 && arc.first <= arc.last && arc.last < MOST_PAIRS && shifts
}

/// Whether these are the arcs of a session: 2 to 200, of which 1 to 20 are free, with their numbers in range. The
/// call serves tests alone.
pub fn are_arcs(arcs: &[Arc]) -> bool
    ensures { IsTrue result ↔ AreArcs arcs.now }
{
    let free = free_arcs(arcs);
    let ranges = arcs.iter().all(|a| is_arc_in_range(a));
    2 <= arcs.len() && arcs.len() <= MOST_ARCS && 1 <= free && free <= MOST_FREE_ARCS && ranges
}
