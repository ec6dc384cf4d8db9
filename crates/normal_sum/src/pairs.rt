//! What the rows of a pair add to the normal matrix, over all signals that count.
ghost use Rattle.std.specs.Prelude.{◌≡◌, ℕ, ◌+◌, ◌*◌, ◌/◌, ◌^◌, ◌<◌, ◌≤◌, pos, ◌+ℤ◌, ◌*ℤ◌, ◌≤ℤ◌, List, map, unsigned_abs};
ghost use Rattle.whole_math.specs.Vectors.{sum};
ghost use Rattle.quadratic_form.specs.Rows.{add_radii, radii};
ghost use Rattle.quadratic_form.specs.MatrixEntries.{matrix_entry};
ghost use Rattle.obs_rows.specs.declared.arcs.Arc.{Arc};
ghost use Rattle.obs_rows.specs.Arcs.{free_count};
ghost use Rattle.quadratic_form.specs.Tables.{entry};
ghost use Rattle.obs_rows.specs.Signals.{weight};
ghost use Rattle.obs_rows.specs.CountedSignals.{AreCounted};
ghost use Rattle.obs_rows.specs.Integers.{integer_count};
ghost use Rattle.obs_rows.specs.declared.limits.TheConstants.{LAST_PAIR};
ghost use Rattle.normal_sum.specs.Pairs.{HaveArcs, pair_groups};
ghost use Rattle.normal_sum.specs.RadiusSums.{radii_of, IsAtMost};

use crate::directions::add_directions;
use crate::places::{MOST_ROWS, first_places};
use crate::radii::{RadiusSums, add_radii_of};
use crate::signals::{add_signal, share};
use obs_rows::{Arc, MOST_FREE_ARCS, PairRows, phase_place};
use quadratic_form::{MOST_COLUMNS, MOST_INTEGERS, NormalTable};

/// Adds the entries of a pair's rows.
pub(crate) fn add_pair(
    table: &mut NormalTable,
    arcs: &[Arc],
    signals: &[usize],
    integers: usize,
    pair: &PairRows,
)
    requires have_arcs { HaveArcs arcs.now pair.now.rows }
    requires free { free_count arcs.now ≤ MOST_FREE_ARCS }
    requires counted { AreCounted signals.now }
    requires integers { integers ≡ integer_count arcs.now signals.now }
    requires few { integers ≤ MOST_INTEGERS }
    requires entry_size { (i j : ℕ) → i ≤ j → j < MOST_COLUMNS →
        unsigned_abs (entry table.old i j) ≤ LAST_PAIR * 2 ^ 108 }
    ensures added { (i j : ℕ) → i ≤ j → j < MOST_COLUMNS → entry table.new i j
        ≡ entry table.old i j +ℤ matrix_entry (pair_groups arcs.now signals.now pair.now) i j }
    ensures size { (i j : ℕ) → i ≤ j → j < MOST_COLUMNS →
        unsigned_abs (entry table.new i j) ≤ unsigned_abs (entry table.old i j) + 2 ^ 108 }
    ensures below { (i j : ℕ) → j < i → entry table.new i j ≡ entry table.old i j }
{
    let firsts = first_places(arcs, signals, pair.rows.as_slice());
    for signal in signals {
        let phase = phase_place(signals, *signal);
        add_signal(table, pair, *signal, &firsts, phase, integers);
    }
    let rows = pair.rows.as_slice();
    add_directions(table, rows, total_share(rows.len(), signals));
}

/// 360360 times the weights of these signals together, over this number of rows.
fn total_share(rows: usize, signals: &[usize]) -> i64
    requires some { 1 ≤ rows }
    requires few { rows ≤ MOST_ROWS }
    requires counted { AreCounted signals.now }
    ensures value { result ≡ pos (360360 / rows) *ℤ sum (map weight signals.now) }
    ensures from { pos 0 ≤ℤ result }
    ensures to { result ≤ℤ pos (2 ^ 35) }
{
    let mut total = 0;
    for signal in signals {
        total += share(rows, *signal);
    }
    total
}

/// The sums with the radii of a pair's rows more. They are the same for each signal, so one pass weighs them for all.
pub(crate) fn add_pair_radii(start: RadiusSums, signals: &[usize], pair: &PairRows) -> RadiusSums
    requires sums { IsAtMost (2 ^ 99) start }
    requires counted { AreCounted signals.now }
    ensures value { (arcs : List Arc) → radii_of result
        ≡ add_radii (radii_of start) (radii (pair_groups arcs signals.now pair.now)) }
    ensures size { (m : ℕ) → IsAtMost m start → IsAtMost (m + 2 ^ 79) result }
{
    add_radii_of(start, pair.rows.as_slice(), total_share(1, signals))
}
