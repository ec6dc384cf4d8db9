//! The fronts of single pairs.
ghost use Rattle.std.specs.Prelude.{◌≡◌, ◌⊎◌, ℕ, ◌+◌, ◌-◌, ◌<◌, ◌≤◌, ◌∷◌, [], length, All, IfOk, OnOk, IfErr, get_or};
ghost use Rattle.obs_rows.specs.declared.pair_rows.PairRows.{PairRows};
ghost use Rattle.obs_rows.specs.declared.units.TheConstants.{MOST_FREE_ARCS};
ghost use Rattle.obs_rows.specs.Arcs.{free_count};
ghost use Rattle.obs_rows.specs.Pairs.{HasItsArcs};
ghost use Rattle.obs_rows.specs.Signals.{fine_signals};
ghost use Rattle.obs_rows.specs.Integers.{integer_count};
ghost use Rattle.integer_form.specs.declared.front_form.FrontForm.{FrontForm};
ghost use Rattle.integer_form.specs.Kept.{form_of_table};
ghost use Rattle.lower_form.specs.Fronts.{BoundsAllData};
ghost use Rattle.lower_form.specs.CleanSteps.{IsClean};
ghost use Rattle.track_form.specs.PairFronts.{IsFrontOfPair, IsRefusedPair};
ghost use Rattle.track_form.specs.Sums.{AreAtMost};

use lower_form::{BaselineSteps, FrontForm, LowerFault, exponent, front, refill_front};
use normal_sum::{Normal, refill_pair, sum_pair};
use obs_rows::{Arc, PairRows, Signals, fine_signals, integer_count};
use quadratic_form::{BASELINE_COLUMNS, FormTable};

/// The front of the rows of one pair, over all free arcs of the list.
pub fn pair_front(arcs: &[Arc], signals: Signals, pair: &PairRows) -> Result<FrontForm, LowerFault>
    requires arcs { HasItsArcs arcs.now pair.now }
    requires free { free_count arcs.now ≤ MOST_FREE_ARCS }
    ensures front { IfOk result (IsFrontOfPair arcs.now (fine_signals signals) pair.now) }
    ensures few { IfOk result (λ f. f.h ≤ 77) }
    ensures bound { IfOk result (λ f. BoundsAllData arcs.now (fine_signals signals)
        (pair.now ∷ []) f.h (form_of_table f.p (f.columns - 3))) }
    ensures refused { IfErr result (IsRefusedPair arcs.now (fine_signals signals) pair.now) }
{
    front(&sum_pair(arcs, signals, 0, pair))
}

/// The tables in which fronts of pairs are made, one after another: to make them anew for each pair would cost more than the
/// front itself.
#[derive(Clone, Copy, Debug)]
pub struct PairRoom {
    normal: Normal,
    room: BaselineSteps,
    /// The front of the pair that was filled last; where that pair was refused, what its refusal left.
    pub front: FrontForm,
    pub ghost clean: { IsClean front.columns room },
}

impl PairRoom {
    /// Room for the pairs of these arcs.
    pub fn new(arcs: &[Arc], signals: Signals) -> PairRoom
        requires free { free_count arcs.now ≤ MOST_FREE_ARCS }
        ensures { result.front.columns ≡ 4 + integer_count arcs.now (fine_signals signals) }
    {
        let columns = BASELINE_COLUMNS + integer_count(arcs, fine_signals(signals)) + 1;
        let room = BaselineSteps::empty();
        let front = FrontForm::of(columns, 0, &FormTable::zeros());
        PairRoom {
            normal: Normal::empty(),
            room,
            front,
        }
    }

    /// Makes the front of the rows of one pair. It is that of `pair_front`, and is refused as that is.
    pub fn fill(
        &mut self,
        arcs: &[Arc],
        signals: Signals,
        pair: &PairRows,
    ) -> Result<(), LowerFault>
        requires arcs { HasItsArcs arcs.now pair.now }
        requires free { free_count arcs.now ≤ MOST_FREE_ARCS }
        requires columns { self.old.front.columns
            ≡ 4 + integer_count arcs.now (fine_signals signals) }
        ensures front { OnOk result
            (IsFrontOfPair arcs.now (fine_signals signals) pair.now self.new.front) }
        ensures few { OnOk result (self.new.front.h ≤ 77) }
        ensures refused { IfErr result (IsRefusedPair arcs.now (fine_signals signals) pair.now) }
        ensures columns { self.new.front.columns ≡ self.old.front.columns }
    {
        refill_pair(&mut self.normal, arcs, signals, 0, pair);
        refill_front(&self.normal, &mut self.room, &mut self.front)
    }

    /// The exponent of the front of a pair's rows, if they have one.
    fn exponent(&mut self, arcs: &[Arc], signals: Signals, pair: &PairRows) -> u32
        requires arcs { HasItsArcs arcs.now pair.now }
        requires free { free_count arcs.now ≤ MOST_FREE_ARCS }
        ensures exponent { (f : FrontForm) →
            IsFrontOfPair arcs.now (fine_signals signals) pair.now f → f.h ≡ result }
        ensures few { result ≤ 77 }
        ensures columns { self.new.front.columns ≡ self.old.front.columns }
    {
        refill_pair(&mut self.normal, arcs, signals, 0, pair);
        exponent(&self.normal)
    }

    /// The exponent of the front of a pair's rows, or this number where it is greater.
    fn raised(&mut self, arcs: &[Arc], signals: Signals, pair: &PairRows, least: u32) -> u32
        requires arcs { HasItsArcs arcs.now pair.now }
        requires free { free_count arcs.now ≤ MOST_FREE_ARCS }
        requires few { least ≤ 77 }
        ensures above { (f : FrontForm) → IsFrontOfPair arcs.now (fine_signals signals) pair.now f →
            f.h ≤ result }
        ensures from { least ≤ result }
        ensures one { ((f : FrontForm) → IsFrontOfPair arcs.now (fine_signals signals) pair.now f →
            f.h ≡ result) ⊎ (result ≡ least) }
        ensures few { result ≤ 77 }
        ensures columns { self.new.front.columns ≡ self.old.front.columns }
    {
        let h = self.exponent(arcs, signals, pair);
        if h > least { h } else { least }
    }
}

/// The greatest exponent of the fronts of each `every`th pair, from the first on, and 0 of none. It is that of the
/// matrices, so no front is made for it.
pub(crate) fn greatest_exponent(
    room: &mut PairRoom,
    arcs: &[Arc],
    signals: Signals,
    pairs: &[PairRows],
    every: usize,
) -> u32
    requires arcs { All (HasItsArcs arcs.now) pairs.now }
    requires free { free_count arcs.now ≤ MOST_FREE_ARCS }
    requires some { 1 ≤ every }
    ensures above { every ≡ 1 → AreAtMost arcs.now (fine_signals signals) pairs.now result }
    ensures attained { 1 ≤ length pairs.now →
        (k : ℕ) × ((k < length pairs.now) × ((d : PairRows) (f : FrontForm) →
        IsFrontOfPair arcs.now (fine_signals signals) (get_or pairs.now k d) f → f.h ≡ result)) }
    ensures few { result ≤ 77 }
    ensures columns { room.new.front.columns ≡ room.old.front.columns }
{
    let mut greatest = 0;
    for k in 0..pairs.len() {
        let left = k % every;
        if left == 0 {
            greatest = room.raised(arcs, signals, &pairs[k], greatest);
        }
    }
    greatest
}
