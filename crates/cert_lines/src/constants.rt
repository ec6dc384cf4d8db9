//! What the ranges of a certificate's numbers are (docs/FORMATS.md, certificates). Definitions cite them by their names,
//! so a slip in one would change a body and its meaning together.
ghost use Rattle.std.specs.Prelude.{◌≡◌, ◌-◌, ◌^◌, pos};
ghost use Rattle.cert_lines.specs.Limits.{up_to, from_0_to};
ghost use Rattle.cert_lines.specs.declared.ranges.TheConstants.{COORDINATES, SHIFTS, GROUPS, OLD_GROUPS, OBSERVATIONS, DIRECTIONS, RADII, ENTRIES, MOVES, PIVOTS, VALUE_LIMIT};
ghost use Rattle.obs_rows.specs.declared.limits.TheConstants.{MOST_COORDINATE};

/// The range of each number of a line.
pub fn ranges_law()
    // 7,000 km in 0.1 mm
    ensures coordinates { COORDINATES ≡ up_to MOST_COORDINATE }
    ensures shifts { SHIFTS ≡ up_to (2 ^ 40 - 1) }
    ensures groups { GROUPS ≡ up_to (2 ^ 55 - 1) }
    ensures old_groups { OLD_GROUPS ≡ up_to (2 ^ 50 - 1) }
    ensures observations { OBSERVATIONS ≡ up_to (2 ^ 34) }
    ensures directions { DIRECTIONS ≡ up_to (2 ^ 24) }
    ensures radii { RADII ≡ from_0_to (2 ^ 20) }
    ensures entries { ENTRIES ≡ up_to (2 ^ 30 - 1) }
    ensures moves { MOVES ≡ up_to (2 ^ 46 - 1) }
    ensures pivots { PIVOTS ≡ up_to (2 ^ 52 - 1) }
    ensures values { VALUE_LIMIT ≡ pos (2 ^ 126 - 1) }
{}
