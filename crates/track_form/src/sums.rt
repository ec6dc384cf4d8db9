//! The fronts of all pairs, brought over one power of two and added, and the form that they leave. Each is made once.
ghost use Rattle.std.specs.Prelude.{◌≡◌, ◌≢◌, ◌⊎◌, ℕ, ◌+◌, ◌-◌, ◌*◌, ◌^◌, ◌<◌, ◌≤◌, List, length, All, IfOk, IfErr, ◌+ℤ◌, unsigned_abs};
ghost use Rattle.obs_rows.specs.declared.pair_rows.PairRows.{PairRows};
ghost use Rattle.obs_rows.specs.declared.units.TheConstants.{MOST_FREE_ARCS};
ghost use Rattle.obs_rows.specs.Arcs.{free_count};
ghost use Rattle.obs_rows.specs.Pairs.{HasItsArcs};
ghost use Rattle.obs_rows.specs.Signals.{fine_signals};
ghost use Rattle.obs_rows.specs.Integers.{integer_count};
ghost use Rattle.obs_rows.specs.declared.limits.TheConstants.{MOST_PAIRS};
ghost use Rattle.quadratic_form.specs.Tables.{entry, zero_rows};
ghost use Rattle.quadratic_form.specs.declared.sizes.TheConstants.{MOST_COLUMNS};
ghost use Rattle.integer_form.specs.declared.front_form.FrontForm.{FrontForm};
ghost use Rattle.integer_form.specs.ReportedRefusals.{IsReportedAs};
ghost use Rattle.elimination.specs.Finish.{IsFinishOf, finish_of};
ghost use Rattle.track_form.specs.Parts.{part_at};
ghost use Rattle.track_form.specs.PairFronts.{IsFirstRefused};
ghost use Rattle.track_form.specs.Sums.{HoldsSums, AreAtMost, IsStopped};
ghost use Rattle.track_form.specs.Factors.{AreFactors};
ghost use Rattle.track_form.specs.SumDecided.{IsSumOfFronts, IsTrackForm, IsFinishRefused};

use crate::factors::PairFactors;
use crate::fronts::{PairRoom, greatest_exponent};
use crate::parts::{later_part, least_power, part};
use elimination::form_table;
use lower_form::{Form, FrontForm, LowerFault, finish};
use obs_rows::{Arc, PairRows, Signals, fine_signals, integer_count};
use quadratic_form::{BASELINE_COLUMNS, NormalTable};
use std::alloc::{AllocError, Global};

/// sum + part
fn with_part(sum: i128, part: i128) -> i128
    requires sum_size { unsigned_abs sum ≤ MOST_PAIRS * 2 ^ 64 }
    requires part_size { unsigned_abs part ≤ 2 ^ 64 }
    ensures value { result ≡ sum +ℤ part }
    ensures size { unsigned_abs result ≤ unsigned_abs sum + 2 ^ 64 }
{
    sum + part
}

/// Adds this part to the entry in row r and column c after the baseline's.
fn add_part(table: &mut NormalTable, part: i128, r: usize, c: usize)
    requires part_size { unsigned_abs part ≤ 2 ^ 64 }
    requires row_in { 3 + r < MOST_COLUMNS }
    requires column_in { 3 + c < MOST_COLUMNS }
    requires size { unsigned_abs (entry table.old (3 + r) (3 + c)) ≤ MOST_PAIRS * 2 ^ 64 }
    ensures there { entry table.new (3 + r) (3 + c) ≡ entry table.old (3 + r) (3 + c) +ℤ part }
    ensures size { unsigned_abs (entry table.new (3 + r) (3 + c))
        ≤ unsigned_abs (entry table.old (3 + r) (3 + c)) + 2 ^ 64 }
    ensures others { (i j : ℕ) → (i ≢ 3 + r) ⊎ (j ≢ 3 + c) →
        entry table.new i j ≡ entry table.old i j }
{
    let old = table.at(BASELINE_COLUMNS + r, BASELINE_COLUMNS + c);
    let sum = with_part(old, part);
    table.set(BASELINE_COLUMNS + r, BASELINE_COLUMNS + c, sum);
}

/// Adds what a front adds to row r after its own entry.
fn add_others(table: &mut NormalTable, front: &FrontForm, shift: u32, r: usize)
    requires few { shift ≤ 90 }
    requires row_in { r < front.now.columns - 3 }
    requires sizes { (c : ℕ) → r < c → c < front.now.columns - 3 →
        unsigned_abs (entry table.old (3 + r) (3 + c)) ≤ MOST_PAIRS * 2 ^ 64 }
    ensures row { (c : ℕ) → r < c → c < front.now.columns - 3 →
        entry table.new (3 + r) (3 + c) ≡ entry table.old (3 + r) (3 + c)
        +ℤ part_at (front.now.columns - 3) (2 ^ shift) (entry front.now.p) r c }
    ensures sizes { (c : ℕ) → r < c → c < front.now.columns - 3 →
        unsigned_abs (entry table.new (3 + r) (3 + c))
        ≤ unsigned_abs (entry table.old (3 + r) (3 + c)) + 2 ^ 64 }
    ensures own { entry table.new (3 + r) (3 + r) ≡ entry table.old (3 + r) (3 + r) }
    ensures others { (i c : ℕ) → i ≢ 3 + r → entry table.new i c ≡ entry table.old i c }
{
    let order = front.columns - BASELINE_COLUMNS;
    for c in r + 1..order {
        add_part(table, later_part(front, shift, r, c), r, c);
    }
}

/// Adds what a front adds to row r, from its own entry on.
fn add_row(table: &mut NormalTable, front: &FrontForm, shift: u32, r: usize)
    requires few { shift ≤ 90 }
    requires row_in { r < front.now.columns - 3 }
    requires sizes { (c : ℕ) → r ≤ c → c < front.now.columns - 3 →
        unsigned_abs (entry table.old (3 + r) (3 + c)) ≤ MOST_PAIRS * 2 ^ 64 }
    ensures row { (c : ℕ) → r ≤ c → c < front.now.columns - 3 →
        entry table.new (3 + r) (3 + c) ≡ entry table.old (3 + r) (3 + c)
        +ℤ part_at (front.now.columns - 3) (2 ^ shift) (entry front.now.p) r c }
    ensures sizes { (c : ℕ) → r ≤ c → c < front.now.columns - 3 →
        unsigned_abs (entry table.new (3 + r) (3 + c))
        ≤ unsigned_abs (entry table.old (3 + r) (3 + c)) + 2 ^ 64 }
    ensures others { (i c : ℕ) → i ≢ 3 + r → entry table.new i c ≡ entry table.old i c }
{
    add_part(table, part(front, shift, r, r), r, r);
    add_others(table, front, shift, r);
}

/// Adds what a front adds, on the diagonal and after it.
fn add_front(table: &mut NormalTable, front: &FrontForm, shift: u32)
    requires few { shift ≤ 90 }
    requires sizes { (r c : ℕ) → r ≤ c → c < front.now.columns - 3 →
        unsigned_abs (entry table.old (3 + r) (3 + c)) ≤ MOST_PAIRS * 2 ^ 64 }
    ensures sums { (r c : ℕ) → r ≤ c → c < front.now.columns - 3 →
        entry table.new (3 + r) (3 + c) ≡ entry table.old (3 + r) (3 + c)
        +ℤ part_at (front.now.columns - 3) (2 ^ shift) (entry front.now.p) r c }
    ensures sizes { (r c : ℕ) → r ≤ c → c < front.now.columns - 3 →
        unsigned_abs (entry table.new (3 + r) (3 + c))
        ≤ unsigned_abs (entry table.old (3 + r) (3 + c)) + 2 ^ 64 }
{
    let order = front.columns - BASELINE_COLUMNS;
    for r in 0..order {
        add_row(table, front, shift, r);
    }
}

/// Why fronts aren't added.
#[derive(Clone, Copy, Debug)]
enum NoSum {
    /// A pair has none, for this reason.
    Refused(LowerFault),
    /// The exponent of one is above the power of two.
    Over,
}

/// Adds what all pairs add to the form over 2^h, after the baseline's columns, on the diagonal and after it, and keeps the
/// factors of their fronts. The inner error is that of the first pair that has no front, or whose front's exponent is above
/// `most`.
fn add_fronts(
    alloc: Global,
    room: &mut PairRoom,
    table: &mut NormalTable,
    arcs: &[Arc],
    signals: Signals,
    pairs: &[PairRows],
    most: u32,
    h: u32,
) -> Result<Result<Vec<PairFactors>, NoSum>, AllocError>
    requires arcs { All (HasItsArcs arcs.now) pairs.now }
    requires free { free_count arcs.now ≤ MOST_FREE_ARCS }
    requires few { length pairs.now ≤ MOST_PAIRS }
    requires h_in { h ≤ 90 }
    requires most { most ≤ h }
    requires columns { room.old.front.columns ≡ 4 + integer_count arcs.now (fine_signals signals) }
    requires zeros { table.old ≡ zero_rows MOST_COLUMNS MOST_COLUMNS }
    ensures factors { IfOk result (λ r.
        IfOk r (λ kept. AreFactors arcs.now (fine_signals signals) pairs.now kept.items)) }
    ensures sums { IfOk result (λ r.
        IfOk r (λ kept. HoldsSums arcs.now (fine_signals signals) pairs.now h table.new)) }
    ensures above { IfOk result (λ r.
        IfOk r (λ kept. AreAtMost arcs.now (fine_signals signals) pairs.now most)) }
    ensures stopped { IfOk result (λ r. IfErr r (IsStopped arcs.now (fine_signals signals) pairs.now
        (AreAtMost arcs.now (fine_signals signals) pairs.now most → ⊥))) }
{
    let mut kept = Vec::with_capacity(alloc, pairs.len())?;
    for pair in pairs {
        match room.fill(arcs, signals, pair) {
            Ok(()) => {
                let front = &room.front;
                if front.h > most {
                    return Ok(Err(NoSum::Over));
                }
                add_front(table, front, h - front.h);
                kept.push(PairFactors::of(front))?;
            }
            Err(fault) => return Ok(Err(NoSum::Refused(fault))),
        }
    }
    Ok(Ok(kept))
}

/// The sum of the fronts of pairs, and what is kept of each of them.
#[derive(Debug, Drop)]
pub struct SummedFronts {
    pub sum: FrontForm,
    pub factors: Vec<PairFactors>,
}

/// The sum over the power of two that each `every`th pair asks for. The inner error is that of the first pair that has no
/// front, or that asks for a greater power: none does where they are all asked.
// Never inlined: its tables would then lie on the stack twice.
#[inline(never)]
fn sum_by(
    alloc: Global,
    arcs: &[Arc],
    signals: Signals,
    pairs: &[PairRows],
    every: usize,
) -> Result<Result<SummedFronts, NoSum>, AllocError>
    requires arcs { All (HasItsArcs arcs.now) pairs.now }
    requires free { free_count arcs.now ≤ MOST_FREE_ARCS }
    requires some { 1 ≤ length pairs.now }
    requires few { length pairs.now ≤ MOST_PAIRS }
    requires every { 1 ≤ every }
    ensures sum { IfOk result (λ r. IfOk r (λ f. (fs : List FrontForm)
        × IsSumOfFronts arcs.now (fine_signals signals) pairs.now fs f.sum)) }
    ensures factors { IfOk result (λ r.
        IfOk r (λ f. AreFactors arcs.now (fine_signals signals) pairs.now f.factors.items)) }
    ensures few { IfOk result (λ r. IfOk r (λ f. f.sum.h ≤ 90)) }
    ensures stopped { IfOk result (λ r.
        IfErr r (IsStopped arcs.now (fine_signals signals) pairs.now (every ≢ 1))) }
{
    let mut room = PairRoom::new(arcs, signals);
    let most = greatest_exponent(&mut room, arcs, signals, pairs, every);
    let h = most + least_power(pairs.len());
    let mut table = NormalTable::zeros();
    match add_fronts(alloc, &mut room, &mut table, arcs, signals, pairs, most, h)? {
        Ok(factors) => {
            let integers = integer_count(arcs, fine_signals(signals));
            let p = form_table(&table, integers + 1);
            let sum = FrontForm::of(BASELINE_COLUMNS + integers + 1, h, &p);
            Ok(Ok(SummedFronts { sum, factors }))
        }
        Err(stopped) => Ok(Err(stopped)),
    }
}

/// One pair of this many is asked for its power of two before the fronts are made. Only where another one asks for a greater
/// power are all asked, and the fronts made again.
const ASKED_OF: usize = 16;

/// The fronts of all pairs, brought over one power of two and added, with no factors of the baseline's columns. The inner error is
/// that of the first pair that has no front.
///
/// The power has the exponent h: the greatest exponent of a front, and the least e with 2^e at least twice the number of
/// pairs. Over it an entry off the diagonal is the sum of the pairs' entries, each to the nearest, and one on it the sum of
/// theirs, each downward, less the order of the form for each pair. So 2^h times the value of the sum is at most the sum of
/// the values of the fronts.
pub fn sum_of_fronts(
    alloc: Global,
    arcs: &[Arc],
    signals: Signals,
    pairs: &[PairRows],
) -> Result<Result<SummedFronts, LowerFault>, AllocError>
    requires arcs { All (HasItsArcs arcs.now) pairs.now }
    requires free { free_count arcs.now ≤ MOST_FREE_ARCS }
    requires some { 1 ≤ length pairs.now }
    requires few { length pairs.now ≤ MOST_PAIRS }
    ensures sum { IfOk result (λ r. IfOk r (λ f. (fs : List FrontForm)
        × IsSumOfFronts arcs.now (fine_signals signals) pairs.now fs f.sum)) }
    ensures factors { IfOk result (λ r.
        IfOk r (λ f. AreFactors arcs.now (fine_signals signals) pairs.now f.factors.items)) }
    ensures few { IfOk result (λ r. IfOk r (λ f. f.sum.h ≤ 90)) }
    ensures refused { IfOk result (λ r.
        IfErr r (IsFirstRefused arcs.now (fine_signals signals) pairs.now)) }
{
    match sum_by(alloc, arcs, signals, pairs, ASKED_OF)? {
        Ok(summed) => Ok(Ok(summed)),
        Err(NoSum::Refused(fault)) => Ok(Err(fault)),
        Err(NoSum::Over) => match sum_by(alloc, arcs, signals, pairs, 1)? {
            Ok(summed) => Ok(Ok(summed)),
            Err(NoSum::Refused(fault)) => Ok(Err(fault)),
            Err(NoSum::Over) => unreachable!(),
        },
    }
}

/// The form of a track, and what is kept of the fronts of its pairs.
#[derive(Debug, Drop)]
pub struct TrackForm {
    pub form: Form,
    pub factors: Vec<PairFactors>,
}

/// The finish of a sum.
fn finished(summed: SummedFronts) -> Result<TrackForm, LowerFault>
    ensures form { IfOk result (λ f. IsFinishOf summed.sum f.form) }
    ensures factors { IfOk result (λ f. f.factors.items ≡ summed.factors.items) }
    ensures refused { IfErr result (λ e. IsReportedAs e (finish_of summed.sum)) }
{
    let SummedFronts { sum, factors } = summed;
    let form = finish(&sum)?;
    Ok(TrackForm { form, factors })
}

/// The form of a track: the finish of the sum of its pairs' fronts. The inner error is that of the first pair that has no front, and
/// else that of the finish.
pub fn form_of_track(
    alloc: Global,
    arcs: &[Arc],
    signals: Signals,
    pairs: &[PairRows],
) -> Result<Result<TrackForm, LowerFault>, AllocError>
    requires arcs { All (HasItsArcs arcs.now) pairs.now }
    requires free { free_count arcs.now ≤ MOST_FREE_ARCS }
    requires some { 1 ≤ length pairs.now }
    requires few { length pairs.now ≤ MOST_PAIRS }
    ensures form { IfOk result (λ r. IfOk r (λ f. (fs : List FrontForm)
        × IsTrackForm arcs.now (fine_signals signals) pairs.now fs f.form)) }
    ensures factors { IfOk result (λ r.
        IfOk r (λ f. AreFactors arcs.now (fine_signals signals) pairs.now f.factors.items)) }
    ensures few { IfOk result (λ r. IfOk r (λ f. f.form.h ≤ 90)) }
    ensures refused { IfOk result (λ r. IfErr r (λ e. IsFirstRefused arcs.now (fine_signals signals)
        pairs.now e ⊎ IsFinishRefused arcs.now (fine_signals signals) pairs.now e)) }
{
    match sum_of_fronts(alloc, arcs, signals, pairs)? {
        Ok(summed) => Ok(finished(summed)),
        Err(fault) => Ok(Err(fault)),
    }
}
