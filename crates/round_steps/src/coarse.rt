//! What a coarse round makes of its session. It counts no integers, so the front of its normal matrix says its float point: the
//! rest of an elimination, with its tables of all columns, has nothing to do.
ghost use Rattle.std.specs.Prelude.{◌≡◌, ℕ, Bool, IfOk, IfErr};
ghost use Rattle.normal_sum.specs.Normals.{IsNormalOf};
ghost use Rattle.obs_rows.specs.Signals.{counted};
ghost use Rattle.obs_rows.specs.declared.units.TheConstants.{COARSE_SCALE};
ghost use Rattle.integer_form.specs.FloatPoint.{item};
ghost use Rattle.lower_form.specs.CleanSteps.{IsClean};
ghost use Rattle.round_steps.specs.Steps.{IsFloatOf, IsCoarseStep, IsRoundDeclined};

use crate::limits::first_over;
use crate::points::moved_point;
use cert_check::tail_of;
use cert_data::Tail;
use integer_form::Place;
use lower_form::{BaselineSteps, FrontForm, refill_front};
use normal_sum::{Normal, refill_sum};
use obs_rows::{Session, is_receiver_point};
use quadratic_form::{BASELINE_COLUMNS, FormTable, MOST_FACTORS};

/// The tables of coarse rounds, kept from one to the next: to make them anew for each would cost more than its steps.
#[derive(Clone, Copy, Debug)]
pub(crate) struct CoarseTables {
    normal: Normal,
    steps: BaselineSteps,
    front: FrontForm,
    pub ghost clean: { IsClean 4 steps },
    pub ghost columns: { front.columns ≡ 4 },
}

impl CoarseTables {
    /// Tables that no round has used.
    pub(crate) fn empty() -> CoarseTables {
        let steps = BaselineSteps::empty();
        let front = FrontForm::of(BASELINE_COLUMNS + 1, 0, &FormTable::zeros());
        CoarseTables {
            normal: Normal::empty(),
            steps,
            front,
        }
    }
}

/// The numbers of the baseline, and 0 for all other columns.
fn padded(baseline: &[i64; BASELINE_COLUMNS]) -> [i64; MOST_FACTORS]
    ensures { (j : ℕ) → item result j ≡ item baseline.now j }
{
    let mut numbers = [0; MOST_FACTORS];
    for i in 0..BASELINE_COLUMNS {
        numbers[i] = baseline[i];
    }
    numbers
}

/// The numbers of the float point where no integers are counted, by the front of the normal matrix of these tables.
fn numbers_by_front(
    session: &Session,
    tables: &mut CoarseTables,
) -> Result<[i64; MOST_FACTORS], Tail>
    requires of_rows { IsNormalOf session.now.arcs
        (counted session.now.signals session.now.scale) session.now.pairs tables.old.normal }
    requires no_integers { tables.old.normal.columns ≡ 4 }
    ensures float { IfOk result (λ x. IsFloatOf session.now x) }
    ensures refused { IfErr result (λ t. (last : Bool) → IsRoundDeclined last session.now t) }
{
    match refill_front(&tables.normal, &mut tables.steps, &mut tables.front) {
        Ok(()) => match tables.front.baseline_of(&[]) {
            Ok(numbers) => Ok(padded(&numbers)),
            Err(fault) => Err(Tail::Overwidth { place: fault.place }),
        },
        Err(fault) => Err(tail_of(fault)),
    }
}

/// The numbers of the float point of a coarse session, in the tables of an earlier one.
fn numbers_of(session: &Session, tables: &mut CoarseTables) -> Result<[i64; MOST_FACTORS], Tail>
    requires coarse { session.now.scale ≡ COARSE_SCALE }
    ensures float { IfOk result (λ x. IsFloatOf session.now x) }
    ensures refused { IfErr result (λ t. (last : Bool) → IsRoundDeclined last session.now t) }
{
    refill_sum(&mut tables.normal, session);
    numbers_by_front(session, tables)
}

/// What a coarse round makes of its session, or the tail with which it ends the run: the point where it moves to, or `None`
/// where it is settled. It is what `round_step` makes of it, without the form. What is made is written over that of an earlier
/// round.
pub(crate) fn coarse_step(
    session: &Session,
    tables: &mut CoarseTables,
    last: bool,
) -> Result<Option<[i64; 3]>, Tail>
    requires coarse { session.now.scale ≡ COARSE_SCALE }
    ensures step { IfOk result (IsCoarseStep last session.now) }
    ensures declined { IfErr result (IsRoundDeclined last session.now) }
{
    let numbers = numbers_of(session, tables)?;
    let Some(entry) = first_over(session.scale, &numbers) else {
        return Ok(None);
    };
    if last {
        return Err(Tail::Unsettled { entry });
    }
    let point = moved_point(session.scale, &session.point, &numbers);
    if !is_receiver_point(&point) {
        return Err(Tail::Overwidth {
            place: Place::Point,
        });
    }
    Ok(Some(point))
}
