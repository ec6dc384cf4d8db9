//! The upper sum of the rows of one pair.
ghost use Rattle.std.specs.Prelude.{◌≡◌, ℕ, ◌*◌, ◌^◌, ◌<◌, ◌≤◌, ◌↔◌, ◌∷◌, [], ℤ, List, map, length, All, pos, ◌≤ℤ◌, slice_index_or, IfSome, None, IsErr, IfOk, IfErr, OnOk, OnErr};
ghost use Rattle.obs_rows.specs.declared.arcs.Arc.{Arc};
ghost use Rattle.obs_rows.specs.declared.units.TheConstants.{MOST_FREE_ARCS};
ghost use Rattle.obs_rows.specs.Arcs.{free_count};
ghost use Rattle.obs_rows.specs.Ranges.{IsBelow, IsWithin};
ghost use Rattle.obs_rows.specs.Pairs.{HasItsArcs};
ghost use Rattle.obs_rows.specs.Integers.{integer_count};
ghost use Rattle.obs_rows.specs.Signals.{fine_signals};
ghost use Rattle.obs_rows.specs.CountedSignals.{AreCounted};
ghost use Rattle.fix_decide.specs.Reaches.{IsNarrow};
ghost use Rattle.fix_decide.specs.RowReaches.{IsModest, row_reach, AreSeen};
ghost use Rattle.fix_decide.specs.UpperSums.{reach_of, signal_upper, pair_upper};
ghost use Rattle.fix_decide.specs.Bounds.{StaysAtMost};
ghost use Rattle.fix_decide.specs.Widths.{IsWideFor, IsWide};

use crate::gaps::gaps;
use crate::reaches::{ResidualBox, RowReach, reach_at, row_reach};
use arrayvec::ArrayVec;
use integer_form::{Overwidth, Place};
use normal_sum::{MOST_ROWS, first_places, places_of, share};
use obs_rows::{Arc, PairRows, Row, SIGNALS, Signals, fine_signals, phase_place};

/// What a move gives of each of these rows.
fn row_reaches(moved: &[i64; 3], rows: &[Row]) -> ArrayVec<RowReach, MOST_ROWS>
    requires few_rows { length rows.now ≤ MOST_ROWS }
    requires moved_size { All (IsWithin (2 ^ 46)) moved.now }
    ensures value { result.items ≡ map (row_reach moved.now) rows.now }
    ensures modest { All IsModest result.items }
{
    let mut moves = ArrayVec::new();
    for row in rows {
        moves.push(row_reach(moved, row));
    }
    moves
}

/// Puts where the residuals of these rows may lie, as a signal sees them.
///
/// `moves` has what the move gives of each row, and `places` where the integer of each stands in z. The room for the
/// reaches is the caller's, since to hand them back would copy them for each signal.
fn put_reaches(
    reaches: &mut ArrayVec<ResidualBox, MOST_ROWS>,
    rows: &[Row],
    moves: &[RowReach],
    places: &[Option<usize>; MOST_ROWS],
    z: &[i64],
    signal: usize,
) -> Result<(), Overwidth>
    requires empty { reaches.old.items ≡ [] }
    requires few_rows { length rows.now ≤ MOST_ROWS }
    requires moves { length moves.now ≡ length rows.now }
    requires modest { All IsModest moves.now }
    requires places { (k : ℕ) → IfSome (slice_index_or places.now k None) (λ i. i < length z.now) }
    requires signal { signal < SIGNALS }
    requires z_size { All (IsBelow (2 ^ 30)) z.now }
    ensures value { (arcs : List Arc) (ss : List ℕ) (m : List ℤ) →
        AreSeen arcs ss m signal rows.now places.now moves.now →
        OnOk result (reaches.new.items ≡ map (reach_of arcs ss z.now m signal) rows.now) }
    ensures length { OnOk result (length reaches.new.items ≡ length rows.now) }
    ensures narrow { OnOk result (All IsNarrow reaches.new.items) }
    ensures place { IfErr result (λ e. e.place ≡ Place.Sum) }
    ensures wide { (arcs : List Arc) (ss : List ℕ) (m : List ℤ) →
        AreSeen arcs ss m signal rows.now places.now moves.now →
        OnErr result (IsWideFor arcs ss z.now m rows.now signal) }
{
    for k in 0..rows.len() {
        reaches.push(reach_at(&rows[k], moves[k], z, places[k], signal)?);
    }
    Ok(())
}

/// The upper sum of a pair's rows as one signal sees them.
fn signal_upper(
    pair: &PairRows,
    moves: &[RowReach],
    places: &[Option<usize>; MOST_ROWS],
    z: &[i64],
    signal: usize,
) -> Result<i128, Overwidth>
    requires moves { length moves.now ≡ length pair.now.rows }
    requires modest { All IsModest moves.now }
    requires places { (k : ℕ) → IfSome (slice_index_or places.now k None) (λ i. i < length z.now) }
    requires signal { signal < SIGNALS }
    requires z_size { All (IsBelow (2 ^ 30)) z.now }
    ensures value { (arcs : List Arc) (ss : List ℕ) (m : List ℤ) →
        AreSeen arcs ss m signal pair.now.rows places.now moves.now →
        IfOk result (λ u. u ≡ signal_upper arcs ss z.now m pair.now signal) }
    ensures from { IfOk result (λ u. pos 0 ≤ℤ u) }
    ensures to { IfOk result (λ u. u ≤ℤ pos (2 ^ 104)) }
    ensures place { IfErr result (λ e. e.place ≡ Place.Sum) }
    ensures wide { (arcs : List Arc) (ss : List ℕ) (m : List ℤ) →
        AreSeen arcs ss m signal pair.now.rows places.now moves.now →
        OnErr result (IsWideFor arcs ss z.now m pair.now.rows signal) }
    ensures narrow { (arcs : List Arc) (ss : List ℕ) (m : List ℤ) →
        AreSeen arcs ss m signal pair.now.rows places.now moves.now →
        OnOk result (IsWideFor arcs ss z.now m pair.now.rows signal → ⊥) }
{
    let rows = pair.rows.as_slice();
    let mut reaches = ArrayVec::new();
    put_reaches(&mut reaches, rows, moves, places, z, signal)?;
    Ok(share(rows.len(), signal) as i128 * gaps(reaches.as_slice()))
}

/// What `pair_upper` gives, over a list of signals.
pub(crate) fn upper_over(
    arcs: &[Arc],
    signals: &[usize],
    pair: &PairRows,
    z: &[i64],
    moved: &[i64; 3],
) -> Result<i128, Overwidth>
    requires arcs { HasItsArcs arcs.now pair.now }
    requires free { free_count arcs.now ≤ MOST_FREE_ARCS }
    requires counted { AreCounted signals.now }
    requires entries { length z.now ≡ integer_count arcs.now signals.now }
    requires z_size { All (IsBelow (2 ^ 30)) z.now }
    requires moved_size { All (IsBelow (2 ^ 46)) moved.now }
    ensures value { IfOk result (λ u.
        u ≡ pair_upper arcs.now signals.now z.now moved.now pair.now) }
    ensures above { IfOk result (StaysAtMost arcs.now signals.now (pair.now ∷ []) z.now moved.now) }
    ensures from { IfOk result (λ u. pos 0 ≤ℤ u) }
    ensures to { IfOk result (λ u. u ≤ℤ pos (2 ^ 107)) }
    ensures refused { IsErr result ↔ IsWide arcs.now signals.now z.now moved.now pair.now }
    ensures place { IfErr result (λ e. e.place ≡ Place.Sum) }
{
    let rows = pair.rows.as_slice();
    let firsts = first_places(arcs, signals, rows);
    let moves = row_reaches(moved, rows);
    let mut sum = 0;
    for signal in signals {
        let places = places_of(&firsts, phase_place(signals, *signal));
        sum += signal_upper(pair, moves.as_slice(), &places, z, *signal)?;
    }
    Ok(sum)
}

/// What the weighted sum of squares of a pair's rows is at most, at the integers z and a move in 2^-5 ι: in a fine session, of
/// all signals of the bands that are used.
///
/// z has an entry for each free arc of the list and each phase of the signals. Refused by the place `Sum` exactly where the
/// residual of some row may lie 2^33 or more from 0, as some of the signals sees it.
pub fn pair_upper(
    arcs: &[Arc],
    signals: Signals,
    pair: &PairRows,
    z: &[i64],
    moved: &[i64; 3],
) -> Result<i128, Overwidth>
    requires arcs { HasItsArcs arcs.now pair.now }
    requires free { free_count arcs.now ≤ MOST_FREE_ARCS }
    requires entries { length z.now ≡ integer_count arcs.now (fine_signals signals) }
    requires z_size { All (IsBelow (2 ^ 30)) z.now }
    requires moved_size { All (IsBelow (2 ^ 46)) moved.now }
    ensures value { IfOk result (λ u.
        u ≡ pair_upper arcs.now (fine_signals signals) z.now moved.now pair.now) }
    ensures above { IfOk result
        (StaysAtMost arcs.now (fine_signals signals) (pair.now ∷ []) z.now moved.now) }
    ensures from { IfOk result (λ u. pos 0 ≤ℤ u) }
    ensures to { IfOk result (λ u. u ≤ℤ pos (2 ^ 107)) }
    ensures refused { IsErr result
        ↔ IsWide arcs.now (fine_signals signals) z.now moved.now pair.now }
    ensures place { IfErr result (λ e. e.place ≡ Place.Sum) }
{
    upper_over(arcs, fine_signals(signals), pair, z, moved)
}
