//! What one round makes of its session.
ghost use Rattle.std.specs.Prelude.{◌≡◌, ℕ, ◌^◌, ◌<◌, Bool, List, unsigned_abs, IfOk, IfErr};
ghost use Rattle.integer_form.specs.FloatPoint.{item, float_point, HasWide};
ghost use Rattle.fix_decide.specs.Decisions.{IsFormOf};
ghost use Rattle.cert_data.specs.Tails.{IsTailOf};
ghost use Rattle.round_steps.specs.Steps.{IsStep, IsRoundDeclined};

use crate::limits::first_over;
use crate::points::moved_point;
use cert_check::tail_of;
use cert_data::Tail;
use integer_form::{Form, Place};
use lower_form::lower;
use normal_sum::sum;
use obs_rows::{Session, is_receiver_point};
use quadratic_form::MOST_FACTORS;

/// A session's form and the numbers of its float point.
#[derive(Clone, Copy, Debug)]
pub struct Solved {
    pub form: Form,
    pub numbers: [i64; MOST_FACTORS],
}

/// What a round that doesn't end the run makes of its session.
#[derive(Clone, Copy, Debug)]
pub enum Step {
    /// No number is over its limit.
    Settled {
        form: Form,
    },
    /// The point moves here, by the float point with these numbers.
    Moved {
        point: [i64; 3],
        numbers: [i64; MOST_FACTORS],
    },
}

/// The form of a session with its float point.
fn solve(session: &Session) -> Result<Solved, Tail>
    ensures form { IfOk result (λ s. IsFormOf session.now s.form) }
    ensures numbers { IfOk result (λ s. (j : ℕ) → item s.numbers j ≡ item (float_point s.form) j) }
    ensures narrow { IfOk result (λ s. HasWide (float_point s.form) → ⊥) }
    ensures small { IfOk result (λ s. (j : ℕ) → unsigned_abs (item s.numbers j) < 2 ^ 46) }
    ensures refused { IfErr result (λ t. (last : Bool) → IsRoundDeclined last session.now t) }
{
    let normal = sum(session);
    let form = match lower(&normal) {
        Ok(form) => form,
        Err(fault) => return Err(tail_of(fault)),
    };
    match form.float_of() {
        Ok(numbers) => Ok(Solved { form, numbers }),
        Err(fault) => Err(Tail::Overwidth { place: fault.place }),
    }
}

/// What a round makes of its session, or the tail with which it ends the run.
///
/// `last` says that no further round at its scale is allowed, so that one that isn't settled ends the run. `run_rounds` calls it for
/// its fine rounds, and no other crate does.
pub fn round_step(session: &Session, last: bool) -> Result<Step, Tail>
    ensures step { IfOk result (IsStep last session.now) }
    ensures declined { IfErr result (IsRoundDeclined last session.now) }
    ensures fits { IfErr result (λ t. (ss : List ℕ) (budget : ℕ) →
        IsTailOf ss session.now.arcs budget t) }
{
    let solved = solve(session)?;
    let Some(entry) = first_over(session.scale, &solved.numbers) else {
        return Ok(Step::Settled { form: solved.form });
    };
    if last {
        return Err(Tail::Unsettled { entry });
    }
    let point = moved_point(session.scale, &session.point, &solved.numbers);
    if !is_receiver_point(&point) {
        return Err(Tail::Overwidth {
            place: Place::Point,
        });
    }
    Ok(Step::Moved {
        point,
        numbers: solved.numbers,
    })
}
