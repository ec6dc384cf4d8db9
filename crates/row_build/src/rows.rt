//! One row.
ghost use Rattle.std.specs.Prelude.{◌≡◌, ◌^◌, ◌<◌, ◌≤◌, None, All, List, ℤ, pos, ◌≤ℤ◌, unsigned_abs, IfSome};
ghost use Rattle.obs_rows.specs.declared.units.TheConstants.{SIGNALS};
ghost use Rattle.obs_rows.specs.Ranges.{IsScale, IsBelow};
ghost use Rattle.obs_rows.specs.Unused.{IsZeroOff};
ghost use Rattle.row_boxes.specs.YBoxes.{HoldsYs, HasFarSignal, most_radius};
ghost use Rattle.row_build.specs.Sights.{IsSeen};
ghost use Rattle.row_build.specs.Rows.{HoldsU, seen_by};

use crate::entries::SeenSat;
use obs_rows::{PHASES, Row};
use row_boxes::observed_row;

/// The row of an arc with these shifts, from the entry of its satellite. There is none where an observation is too far.
pub fn row_of(
    ss: &[usize],
    arc: u16,
    shift: &[i64; PHASES],
    entry: &SeenSat<'_>,
    group: i64,
    scale: u32,
) -> Option<Row>
    requires small { All (λ s. s < SIGNALS) ss.now }
    requires shift { All (IsBelow (2 ^ 40)) shift.now }
    requires group { unsigned_abs group ≤ 2 ^ 43 }
    requires scale { IsScale scale }
    ensures arc { IfSome result (λ r. r.arc ≡ arc) }
    ensures y { IfSome result (λ r. (base point : List ℤ) → IsSeen entry.now base point →
        HoldsYs (seen_by entry.now.sv.now base point) ss.now scale entry.now.sv.now.observed group
        shift.now r.y r.ry) }
    ensures radius { IfSome result (λ r. r.ry ≤ℤ most_radius scale) }
    ensures others { IfSome result (λ r. IsZeroOff ss.now r.y) }
    ensures u { IfSome result (λ r. (base point : List ℤ) → IsSeen entry.now base point →
        HoldsU entry.now.sv.now.rover point r.u r.ru) }
    ensures narrow { IfSome result (λ r. All (λ n. n ≤ℤ pos 32) r.ru) }
    ensures far { result ≡ None → (base point : List ℤ) → IsSeen entry.now base point →
        HasFarSignal (seen_by entry.now.sv.now base point) ss.now scale entry.now.sv.now.observed
        group shift.now }
{
    // All six and all three, which the proof names.
    let sv = entry.sv;
    let [_l1, _l2, _c1, _c2, _l5, _c5] = sv.observed;
    let [_x, _y, _z] = entry.rover.direction;
    observed_row(
        ss,
        arc,
        &sv.observed,
        group,
        shift,
        &entry.base_pseudorange,
        &entry.rover,
        scale,
    )
}
