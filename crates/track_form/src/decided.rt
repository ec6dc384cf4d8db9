//! What the rows of a track are decided to say.
ghost use Rattle.std.specs.Prelude.{◌≡◌, ◌≤◌, ℕ, List, length, map, All, IfOk};
ghost use Rattle.obs_rows.specs.Signals.{fine_signals};
ghost use Rattle.obs_rows.specs.declared.limits.TheConstants.{MOST_RATIO, MOST_BUDGET};
ghost use Rattle.integer_form.specs.declared.front_form.FrontForm.{FrontForm};
ghost use Rattle.integer_form.specs.FloatPoint.{HasWide};
ghost use Rattle.int_search.specs.Answers.{IsTwoBest};
ghost use Rattle.fix_decide.specs.Decisions.{first_of};
ghost use Rattle.track_data.specs.TrackTails.{IsTrackTailOf};
ghost use Rattle.track_data.specs.declared.tails.TrackTail.{TrackTail};
ghost use Rattle.track_form.specs.PairFronts.{move_at};
ghost use Rattle.track_form.specs.Factors.{AreFactors};
ghost use Rattle.track_form.specs.SumDecided.{IsTrackForm, IsSearchedIn};
ghost use Rattle.track_form.specs.Decided.{IsTrackDecision, IsTrackBestWhereFixed, IsSameTail, track_tail_of};

use crate::uppers::track_upper;
use crate::{PairFactors, form_of_track, moves_at};
use cert_check::values_from;
use fix_decide::is_separated;
use int_search::{SearchFault, TwoBest, two_best};
use integer_form::{Form, LowerFault, Place};
use std::alloc::{AllocError, Global};
use track_data::{Items, Track, TrackTail};

/// A refusal as a tail.
fn track_tail_of(fault: LowerFault) -> TrackTail
    ensures { result ≡ track_tail_of fault }
{
    match fault {
        LowerFault::Weak { column, pivot } => TrackTail::Weak { column, pivot },
        LowerFault::Overwidth { place } => TrackTail::Overwidth { place },
    }
}

/// The decision by the two least vectors of the form and the moves of the first: the upper sums, the ratio.
fn decide_moved(
    track: &Track,
    form: &Form,
    best: &TwoBest,
    moves: Vec<[i64; 3]>,
    ratio: u32,
) -> TrackTail
    requires form { (fs : List FrontForm)
        × (IsTrackForm track.now.arcs (fine_signals track.now.signals) track.now.pairs fs form.now
        × (moves.items ≡ map (move_at (first_of best.now)) fs)) }
    requires best { IsTwoBest form.now best.now }
    requires narrow { All (λ m. HasWide m → ⊥) moves.items }
    requires ratio_from { 1000 ≤ ratio }
    requires ratio_to { ratio ≤ MOST_RATIO }
    ensures decision { (budget : ℕ) → IsSearchedIn form.now budget best.now →
        IsTrackDecision track.now.arcs
        (fine_signals track.now.signals) track.now.pairs ratio budget result }
    ensures by_ratio { (budget : ℕ) → IsSearchedIn form.now budget best.now →
        IsTrackBestWhereFixed ratio track.now.arcs
        (fine_signals track.now.signals) track.now.pairs result }
    ensures fits { (budget : ℕ) → IsTrackTailOf (fine_signals track.now.signals) track.now.arcs
        track.now.pairs budget result }
{
    values_from(form);
    let first = &best.first[..best.size];
    match track_upper(track, form.h, first, moves.as_slice()) {
        Ok(top) => {
            let fixed = is_separated(ratio, top, best.p2);
            TrackTail::of_vectors(fixed, form.h, Items::new(moves), *best, top)
        }
        Err(wide) => TrackTail::Overwidth { place: wide.place },
    }
}

/// The decision by the two least vectors of the form: the moves, the upper sums, the ratio.
fn decide_best(
    alloc: Global,
    track: &Track,
    form: &Form,
    factors: &[PairFactors],
    best: &TwoBest,
    ratio: u32,
) -> Result<TrackTail, AllocError>
    requires form { (fs : List FrontForm)
        × IsTrackForm track.now.arcs (fine_signals track.now.signals) track.now.pairs fs form.now }
    requires factors { AreFactors track.now.arcs
        (fine_signals track.now.signals) track.now.pairs factors.now }
    requires best { IsTwoBest form.now best.now }
    requires ratio_from { 1000 ≤ ratio }
    requires ratio_to { ratio ≤ MOST_RATIO }
    ensures decision { IfOk result (λ t. (budget : ℕ) → IsSearchedIn form.now budget best.now →
        IsTrackDecision track.now.arcs
        (fine_signals track.now.signals) track.now.pairs ratio budget t) }
    ensures by_ratio { IfOk result (λ t. (budget : ℕ) → IsSearchedIn form.now budget best.now →
        IsTrackBestWhereFixed ratio track.now.arcs
        (fine_signals track.now.signals) track.now.pairs t) }
    ensures fits { IfOk result (λ t. (budget : ℕ) →
        IsTrackTailOf (fine_signals track.now.signals) track.now.arcs track.now.pairs budget t) }
{
    let first = &best.first[..best.size];
    match moves_at(alloc, factors, first)? {
        Ok(moves) => Ok(decide_moved(track, form, best, moves, ratio)),
        Err(wide) => Ok(TrackTail::Overwidth { place: wide.place }),
    }
}

/// Decides the rows of a track of at least one pair, at a ratio in thousandths and a budget of visits.
///
/// The tail is fixed exactly where 1000·P(z2) > 64·ratio·T, of the two least vectors z1 and z2 of the track's form P and of
/// the upper sum T of z1 with the baseline of each pair at z1. It is weak or too wide at `Factor` or `Entry` where the
/// front of a pair is refused, of the first such pair, or else the finish of their sum; spent or too wide at `Search` only
/// where the form has no reduced count within the budget; too wide at `Float` where the baseline of some pair is, and else
/// at `Sum` where the residual of some row may be.
pub fn decide_track(
    alloc: Global,
    track: &Track,
    ratio: u32,
    budget: u64,
) -> Result<TrackTail, AllocError>
    requires some_pairs { 1 ≤ length track.now.pairs }
    requires ratio_from { 1000 ≤ ratio }
    requires ratio_to { ratio ≤ MOST_RATIO }
    requires budget_from { 1 ≤ budget }
    requires budget_to { budget ≤ MOST_BUDGET }
    ensures decision { IfOk result (IsTrackDecision track.now.arcs
        (fine_signals track.now.signals) track.now.pairs ratio budget) }
    ensures only { IfOk result (λ t. (u : TrackTail) → IsTrackDecision track.now.arcs
        (fine_signals track.now.signals) track.now.pairs ratio budget u → IsSameTail u t) }
    ensures by_ratio { IfOk result (IsTrackBestWhereFixed ratio track.now.arcs
        (fine_signals track.now.signals) track.now.pairs) }
    ensures fits { IfOk result
        (IsTrackTailOf (fine_signals track.now.signals) track.now.arcs track.now.pairs budget) }
{
    let arcs = track.arcs.as_slice();
    let pairs = track.pairs.as_slice();
    let made = match form_of_track(alloc, arcs, track.signals, pairs)? {
        Ok(made) => made,
        Err(fault) => return Ok(track_tail_of(fault)),
    };
    let form = &made.form;
    match two_best(form, budget) {
        Ok(best) => decide_best(alloc, track, form, made.factors.as_slice(), &best, ratio),
        Err(SearchFault::Spent) => Ok(TrackTail::Spent { budget }),
        Err(SearchFault::Overwidth) => Ok(TrackTail::Overwidth {
            place: Place::Search,
        }),
    }
}
