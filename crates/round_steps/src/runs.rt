//! The rounds of a run.
ghost use Rattle.std.specs.Prelude.{◌≡◌, ◌+◌, ◌^◌, ◌<◌, ◌≤◌, ℕ, length, All, IfOk};
ghost use Rattle.obs_rows.specs.Arcs.{free_count};
ghost use Rattle.obs_rows.specs.Ranges.{IsScale};
ghost use Rattle.obs_rows.specs.Signals.{fine_signals};
ghost use Rattle.obs_rows.specs.Unused.{HasUsedShifts};
ghost use Rattle.obs_rows.specs.declared.units.TheConstants.{COARSE_SCALE, MOST_FREE_ARCS};
ghost use Rattle.obs_rows.specs.ReceiverPoints.{IsReceiverPoint};
ghost use Rattle.obs_rows.specs.declared.limits.TheConstants.{MOST_RATIO, MOST_ARCS};
ghost use Rattle.round_steps.specs.Shifts.{AreSameArcs, AreShiftsBelow};
ghost use Rattle.round_steps.specs.Runs.{Rules, MayBegin, AreSameRules, IsSessionAt, SettlesAt, IsCoarseEnd, IsEnd, FitsEnd, IsBestEnd, round_at, most_rounds, coarse_sessions, sessions_of};

use crate::coarse::{CoarseTables, coarse_step};
use crate::{Step, grown, round_step};
use cert_check::decide_settled;
use cert_data::{RoundCounts, Stage, Tail};
use integer_form::Place;
use obs_rows::{Arc, COARSE_SCALE, Session, fine_signals};
use std::alloc::{AllocError, Global};

/// What gives a run its sessions, and counts them.
pub trait Rounds {
    /// What the run keeps to: its sessions stand for these files and options.
    ghost rules: { Self → Rules };

    /// What its calls rest on.
    ghost ready: { Self → Type 0 };

    /// How many sessions were asked for. No run needs more than sixteen.
    ghost made: { Self → ℕ };

    /// The session of the round at this point with these arcs, or `None` where a centre of y may be out of range.
    fn session(
        &mut self,
        alloc: Global,
        arcs: &[Arc],
        point: &[i64; 3],
        scale: u32,
    ) -> Result<Option<Session>, AllocError>
        requires ready { ready self.old }
        requires few { made self.old < most_rounds COARSE_SCALE + most_rounds 0 }
        requires scale { IsScale scale }
        requires point { IsReceiverPoint point.now }
        requires arcs { AreSameArcs (rules self.old).arcs arcs.now }
        requires shifts { AreShiftsBelow (2 ^ 40) arcs.now }
        requires used { All (HasUsedShifts (fine_signals (rules self.old).signals)) arcs.now }
        ensures session { IfOk result
            (IsSessionAt (rules self.old) (round_at scale point.now arcs.now)) }
        ensures rules { AreSameRules (rules self.old) (rules self.new) }
        ensures ready { ready self.new }
        ensures made { made self.new ≡ made self.old + 1 };

    /// The arcs with shifts that the first fine round may have at this point.
    fn first_shifts(&self, alloc: Global, point: &[i64; 3]) -> Result<Vec<Arc>, AllocError>
        requires ready { ready self.now }
        requires point { IsReceiverPoint point.now }
        ensures begins { IfOk result (λ v. (rules self.now).begins point.now v.items) }
        ensures arcs { IfOk result (λ v. AreSameArcs (rules self.now).arcs v.items) }
        ensures shifts { IfOk result (λ v. AreShiftsBelow (2 ^ 39) v.items) }
        ensures used { IfOk result (λ v.
            All (HasUsedShifts (fine_signals (rules self.now).signals)) v.items) };
}

/// How a run ends, and after how many rounds.
#[derive(Debug, Drop)]
pub enum RunEnd {
    /// At a centre of y, or in a coarse round.
    Early {
        made: RoundCounts,
        stage: Stage,
        tail: Tail,
    },
    /// On the session of a fine round.
    Full {
        made: RoundCounts,
        session: Session,
        tail: Tail,
    },
}

/// How the coarse rounds end, and after how many.
#[derive(Clone, Copy, Debug)]
pub enum CoarseEnd {
    /// Settled at this point.
    Settled { made: u32, point: [i64; 3] },
    Declined { made: u32, tail: Tail },
}

/// At most ten rounds are coarse.
const COARSE_ROUNDS: u32 = 10;

/// At most six are fine.
const FINE_ROUNDS: u32 = 6;

/// No session, since a centre of y may be out of range.
const AT_Y: Tail = Tail::Overwidth { place: Place::Y };

/// The coarse rounds, of which the first is at the base. One session is made for each.
pub fn coarse_rounds<R: Rounds>(
    alloc: Global,
    rounds: &mut R,
    arcs: &[Arc],
    base: &[i64; 3],
) -> Result<CoarseEnd, AllocError>
    requires ready { R.ready rounds.old }
    requires begins { MayBegin (R.rules rounds.old) (R.made rounds.old) arcs.now base.now }
    ensures end { IfOk result (IsCoarseEnd (R.rules rounds.old)) }
    ensures rules { AreSameRules (R.rules rounds.old) (R.rules rounds.new) }
    ensures ready { R.ready rounds.new }
    ensures made { IfOk result (λ end. R.made rounds.new ≡ coarse_sessions end) }
{
    let mut point = *base;
    let mut made = 1;
    let mut tables = CoarseTables::empty();
    'rounds: loop {
        let Some(session) = rounds.session(alloc, arcs, &point, COARSE_SCALE)? else {
            return Ok(CoarseEnd::Declined { made, tail: AT_Y });
        };
        match coarse_step(&session, &mut tables, made == COARSE_ROUNDS) {
            Ok(None) => return Ok(CoarseEnd::Settled { made, point }),
            Ok(Some(moved)) => {
                point = moved;
                made += 1;
            }
            Err(tail) => return Ok(CoarseEnd::Declined { made, tail }),
        }
    }
}

/// The fine rounds, after `coarse` coarse rounds that settled at this point.
fn fine_rounds<R: Rounds>(
    alloc: Global,
    rounds: &mut R,
    coarse: u32,
    first: &[i64; 3],
    ratio: u32,
    budget: u64,
) -> Result<RunEnd, AllocError>
    requires ready { R.ready rounds.old }
    requires made { R.made rounds.old ≡ coarse }
    requires first { SettlesAt (R.rules rounds.old) coarse first.now }
    requires few { length (R.rules rounds.old).arcs ≤ MOST_ARCS }
    requires free { free_count (R.rules rounds.old).arcs ≤ MOST_FREE_ARCS }
    requires ratio_from { 1000 ≤ ratio }
    requires ratio_to { ratio ≤ MOST_RATIO }
    ensures end { IfOk result (IsEnd (R.rules rounds.old) ratio budget) }
    ensures made { IfOk result (λ end. R.made rounds.new ≡ sessions_of end) }
    ensures fits { IfOk result (FitsEnd budget) }
    ensures by_ratio { IfOk result (IsBestEnd ratio) }
{
    let mut point = *first;
    let mut arcs = rounds.first_shifts(alloc, first)?;
    let mut fine = 1;
    'rounds: loop {
        let made = RoundCounts { coarse, fine };
        let Some(session) = rounds.session(alloc, arcs.as_slice(), &point, 0)? else {
            return Ok(RunEnd::Early {
                made,
                stage: Stage::Fine,
                tail: AT_Y,
            });
        };
        match round_step(&session, fine == FINE_ROUNDS) {
            Ok(Step::Settled { form }) => {
                let tail = decide_settled(&session, &form, ratio, budget);
                return Ok(RunEnd::Full {
                    made,
                    session,
                    tail,
                });
            }
            Ok(
                Step::Moved {
                    point: moved,
                    numbers,
                },
            ) => {
                arcs = grown(
                    alloc,
                    arcs.as_slice(),
                    fine_signals(session.signals),
                    &numbers,
                )?;
                point = moved;
                fine += 1;
            }
            Err(tail) => {
                return Ok(RunEnd::Full {
                    made,
                    session,
                    tail,
                });
            }
        }
    }
}

/// The rounds of a run, to its end. One session is made for each, and no other.
pub fn run_rounds<R: Rounds>(
    alloc: Global,
    rounds: &mut R,
    arcs: &[Arc],
    base: &[i64; 3],
    ratio: u32,
    budget: u64,
) -> Result<RunEnd, AllocError>
    requires ready { R.ready rounds.old }
    requires begins { MayBegin (R.rules rounds.old) (R.made rounds.old) arcs.now base.now }
    requires few { length arcs.now ≤ MOST_ARCS }
    requires free { free_count arcs.now ≤ MOST_FREE_ARCS }
    requires ratio_from { 1000 ≤ ratio }
    requires ratio_to { ratio ≤ MOST_RATIO }
    ensures end { IfOk result (IsEnd (R.rules rounds.old) ratio budget) }
    ensures made { IfOk result (λ end. R.made rounds.new ≡ sessions_of end) }
    ensures fits { IfOk result (FitsEnd budget) }
    ensures by_ratio { IfOk result (IsBestEnd ratio) }
{
    match coarse_rounds(alloc, rounds, arcs, base)? {
        CoarseEnd::Settled { made, point } => {
            fine_rounds(alloc, rounds, made, &point, ratio, budget)
        }
        CoarseEnd::Declined { made, tail } => Ok(RunEnd::Early {
            made: RoundCounts {
                coarse: made,
                fine: 0,
            },
            stage: Stage::Coarse,
            tail,
        }),
    }
}
