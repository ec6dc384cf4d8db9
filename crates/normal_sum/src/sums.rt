//! The normal matrix of one pair's rows and of a session.
ghost use Rattle.std.specs.Prelude.{◌≡◌, ◌≢◌, ◌⊎◌, ◌+◌, ◌∷◌, [], ℕ, ◌^◌, ◌<◌, ◌≤◌, pos, length, All};
ghost use Rattle.quadratic_form.specs.Rows.{radii};
ghost use Rattle.quadratic_form.specs.MatrixEntries.{matrix_entry};
ghost use Rattle.quadratic_form.specs.Tables.{entry, IsZeroOutside};
ghost use Rattle.quadratic_form.specs.Matrices.{EntriesBelow};
ghost use Rattle.obs_rows.specs.declared.limits.TheConstants.{MOST_PAIRS};
ghost use Rattle.obs_rows.specs.Arcs.{free_count};
ghost use Rattle.obs_rows.specs.Pairs.{HasItsArcs};
ghost use Rattle.obs_rows.specs.Signals.{counted};
ghost use Rattle.obs_rows.specs.CountedSignals.{AreCounted};
ghost use Rattle.obs_rows.specs.Integers.{integer_count};
ghost use Rattle.obs_rows.specs.SignalGroups.{signal_groups};
ghost use Rattle.normal_sum.specs.Matrices.{IsRadiusSum, radius_list};
ghost use Rattle.normal_sum.specs.Normals.{IsNormalOf};
ghost use Rattle.normal_sum.specs.Values.{IsSumAtCentres, StaysBelow};

use crate::Normal;
use crate::mirror::{clear_row, mirror};
use crate::pairs::{add_pair, add_pair_radii};
use crate::radii::RadiusSums;
use obs_rows::{Arc, MOST_FREE_ARCS, PairRows, Session, Signals, counted_signals, integer_count};
use quadratic_form::{BASELINE_COLUMNS, MOST_COLUMNS, NormalTable};
use std::slice;

/// Writes the sums over all these pairs into a table, and gives those of the squares of their radii. The table is zeros but
/// for places before the diagonal of the first rows, which are written over by the mirror images of the sums.
fn fill_table(
    table: &mut NormalTable,
    arcs: &[Arc],
    signals: &[usize],
    integers: usize,
    pairs: &[PairRows],
) -> [i128; 4]
    requires arcs { All (HasItsArcs arcs.now) pairs.now }
    requires counted { AreCounted signals.now }
    requires free { free_count arcs.now ≤ MOST_FREE_ARCS }
    requires few { length pairs.now ≤ MOST_PAIRS }
    requires integers { integers ≡ integer_count arcs.now signals.now }
    requires zeros { (i j : ℕ) → (i ≤ j) ⊎ (BASELINE_COLUMNS + integers + 1 ≤ i) →
        entry table.old i j ≡ pos 0 }
    ensures entries { (i j : ℕ) →
        entry table.new i j ≡ matrix_entry (signal_groups arcs.now signals.now pairs.now) i j }
    ensures entries_in { EntriesBelow (2 ^ 120) table.new }
    ensures radii { result ≡ radius_list (radii (signal_groups arcs.now signals.now pairs.now)) }
    ensures radii_in { All IsRadiusSum result }
{
    let mut radii = RadiusSums {
        u1: 0,
        u2: 0,
        u3: 0,
        y: 0,
    };
    for pair in pairs {
        add_pair(table, arcs, signals, integers, pair);
        radii = add_pair_radii(radii, signals, pair);
    }
    mirror(table, BASELINE_COLUMNS + integers + 1);
    // Every table has the shape that a read of it tells.
    let _first = table.at(0, 0);
    [radii.u1, radii.u2, radii.u3, radii.y]
}

/// The sums over all these pairs.
fn sum_pairs(arcs: &[Arc], signals: &[usize], pairs: &[PairRows]) -> Normal
    requires arcs { All (HasItsArcs arcs.now) pairs.now }
    requires counted { AreCounted signals.now }
    requires free { free_count arcs.now ≤ MOST_FREE_ARCS }
    requires few { length pairs.now ≤ MOST_PAIRS }
    ensures { IsNormalOf arcs.now signals.now pairs.now result }
{
    let integers = integer_count(arcs, signals);
    let mut table = NormalTable::zeros();
    let r = fill_table(&mut table, arcs, signals, integers, pairs);
    Normal {
        columns: BASELINE_COLUMNS + integers + 1,
        c: table,
        r,
    }
}

/// The first column to clear of a row: the diagonal's, where mirror images are to be written before it.
fn first_to_clear(row: usize, mirrored: usize) -> usize
    ensures { (j : ℕ) → (row ≤ j) ⊎ (mirrored ≤ row) → result ≤ j }
{
    if row < mirrored { row } else { 0 }
}

/// Clears a table that is 0 outside these columns: to clear them costs less than to clear it whole. What stands before the
/// diagonal of the first rows may stay, since mirror images are to be written over it.
fn clear(table: &mut NormalTable, columns: usize, mirrored: usize)
    requires columns_in { columns ≤ MOST_COLUMNS }
    requires outside { IsZeroOutside columns columns table.old }
    ensures { (i j : ℕ) → (i ≤ j) ⊎ (mirrored ≤ i) → entry table.new i j ≡ pos 0 }
{
    for row in 0..columns {
        clear_row(table, row, first_to_clear(row, mirrored), columns);
    }
}

/// Writes the sums over all these pairs over another matrix, so that no table is made or copied.
fn refill(normal: &mut Normal, arcs: &[Arc], signals: &[usize], pairs: &[PairRows])
    requires arcs { All (HasItsArcs arcs.now) pairs.now }
    requires counted { AreCounted signals.now }
    requires free { free_count arcs.now ≤ MOST_FREE_ARCS }
    requires few { length pairs.now ≤ MOST_PAIRS }
    ensures { IsNormalOf arcs.now signals.now pairs.now normal.new }
{
    let integers = integer_count(arcs, signals);
    let columns = BASELINE_COLUMNS + integers + 1;
    clear(&mut normal.c, normal.columns, columns);
    let r = fill_table(&mut normal.c, arcs, signals, integers, pairs);
    normal.r = r;
    normal.columns = columns;
}

/// Writes the normal matrix of one pair's rows over another. It is that of `sum_pair`.
pub fn refill_pair(normal: &mut Normal, arcs: &[Arc], signals: Signals, scale: u32, pair: &PairRows)
    requires arcs { HasItsArcs arcs.now pair.now }
    requires free { free_count arcs.now ≤ MOST_FREE_ARCS }
    ensures { IsNormalOf arcs.now (counted signals scale) (pair.now ∷ []) normal.new }
{
    refill(
        normal,
        arcs,
        counted_signals(signals, scale),
        slice::from_ref(pair),
    );
}

/// Writes the normal matrix of a session over another. It is that of `sum`.
pub fn refill_sum(normal: &mut Normal, session: &Session)
    ensures { IsNormalOf session.now.arcs
        (counted session.now.signals session.now.scale) session.now.pairs normal.new }
{
    refill(
        normal,
        session.arcs.as_slice(),
        counted_signals(session.signals, session.scale),
        session.pairs.as_slice(),
    );
}

/// The normal matrix of one pair's rows.
///
/// The columns are those of all free arcs of the list; those that have no row in the pair are 0.
pub fn sum_pair(arcs: &[Arc], signals: Signals, scale: u32, pair: &PairRows) -> Normal
    requires arcs { HasItsArcs arcs.now pair.now }
    requires free { free_count arcs.now ≤ MOST_FREE_ARCS }
    ensures normal { IsNormalOf arcs.now (counted signals scale) (pair.now ∷ []) result }
    ensures centres { IsSumAtCentres arcs.now (counted signals scale) (pair.now ∷ []) result }
    ensures below { StaysBelow arcs.now (counted signals scale) (pair.now ∷ []) result }
{
    sum_pairs(arcs, counted_signals(signals, scale), slice::from_ref(pair))
}

/// The normal matrix of a session: entry by entry the sum over its pairs.
pub fn sum(session: &Session) -> Normal
    ensures normal { IsNormalOf session.now.arcs
        (counted session.now.signals session.now.scale) session.now.pairs result }
    ensures centres { IsSumAtCentres session.now.arcs
        (counted session.now.signals session.now.scale) session.now.pairs result }
    ensures below { StaysBelow session.now.arcs
        (counted session.now.signals session.now.scale) session.now.pairs result }
{
    sum_pairs(
        session.arcs.as_slice(),
        counted_signals(session.signals, session.scale),
        session.pairs.as_slice(),
    )
}
