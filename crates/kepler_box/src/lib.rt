//! The eccentric anomaly: boxes of all solutions of Kepler's equation M = E − e·sin E (IS-GPS-200, table 20-IV).
//!
//! `anomaly_box` holds every solution of Kepler's equation for every mean anomaly and eccentricity of its boxes
//! (`holds`), and says how near its boxes the solutions are whose mean anomaly lies outside (`near`). `quick_anomaly_box` says the
//! same of a box that it finds by a shorter search. They take no memory and are never refused.
#![tactic(auto)]

ghost use Rattle.std.specs.Prelude.{◌≡◌, ◌+◌, ◌-◌, ◌*◌, ◌^◌, ◌<◌, ◌≤◌, pos, ◌+ℤ◌, ◌-ℤ◌, ◌*ℤ◌, ℤ, ◌≤ℤ◌, unsigned_abs, IfSome};
ghost use Rattle.whole_math.specs.Rounding.{floor_div, ceil_div};
ghost use Rattle.whole_math.specs.Bounds.{Within};
ghost use Rattle.whole_math.specs.Rational.{Rational, ◌+ʳ◌, ◌*ʳ◌};
ghost use Rattle.whole_math.specs.Boxes.{of_scale, IsNearBox};
ghost use Rattle.iv_core.specs.Boxes.{least_corner, most_corner};
ghost use Rattle.iv_core.specs.Intervals.{Holds, width_of, IsWithin};
ghost use Rattle.trig_box.specs.AnglePairs.{IsAnglePair, SolvesKepler};
ghost use Rattle.kepler_box.specs.Kepler.{HoldsAnomaly, IsNearAnomaly, IsPairAtMostWide, IsAnomalyBox};
ghost use Rattle.kepler_box.specs.Steps.{IsMeanAnomaly, IsAngle, IsEccentricity, IsStep, AreNear, last_step, residual_limit, radius_limit, angle_width_limit, pair_width_limit};

mod rough;

use iv_core::{Iv, middle_between, signed_upper_half};
use rough::{rough_solution, rough_step};
use trig_box::{PairBox, PointPair, pair_box};

// After fourteen a further step leads at most 3 units away, wherever the first began.
const ROUNDS: u32 = 14;

// The box of the sine of angle / 2^56
fn sine_of(angle: i64) -> Iv<60>
    requires angle { IsAngle angle }
    ensures holds { (c s : Rational) → IsAnglePair 5 (of_scale 56 angle) c s → Holds result s }
    ensures narrow { width_of result ≤ℤ pos 512 }
    ensures lo_size { unsigned_abs result.lo ≤ 2 ^ 61 }
    ensures hi_size { unsigned_abs result.hi ≤ 2 ^ 61 }
{
    let point: Iv<56> = Iv {
        lo: angle,
        hi: angle,
    };
    pair_box(&point, 5).sin
}

// The same by the pair of the angle
fn sine_at(point: &PointPair) -> Iv<60>
    requires angle { IsAngle point.now.angle }
    ensures holds { (c s : Rational) → IsAnglePair 5 (of_scale 56 point.now.angle) c s →
        Holds result s }
    ensures lo_size { unsigned_abs result.lo ≤ 2 ^ 61 }
    ensures hi_size { unsigned_abs result.hi ≤ 2 ^ 61 }
{
    point.within(0).sin
}

// e · sine in units of 2^-56, rounded down
fn pull_of(e: i64, sine: i64) -> i64
    requires e_size { unsigned_abs e ≤ 2 ^ 55 }
    requires size { unsigned_abs sine ≤ 2 ^ 61 }
    ensures value { result ≡ floor_div (e *ℤ sine) (2 ^ 64) }
    ensures size { Within (pos (2 ^ 52)) result }
{
    signed_upper_half(e, sine)
}

// m + e · sine of the angle
fn step(m: i64, e: i64, angle: i64) -> i64
    requires mean { IsMeanAnomaly m }
    requires eccentricity { IsEccentricity e }
    requires angle { IsAngle angle }
    ensures step { IsStep m e angle result }
    ensures angle { IsAngle result }
{
    let sine = sine_of(angle);
    m + pull_of(e, middle_between(sine.lo(), sine.hi()))
}

// How far the right side of the equation may lie from an angle that is taken, in units of 2^-56
const RESIDUAL: i64 = 14;

// How far from the mean anomaly the steps may begin, in units of 2^-56: as far as a step leads at most
const REACH: i64 = 1 << 52;

// The box of the pair of angle / 2^56
fn pair_at(angle: i64) -> PairBox
    requires angle { IsAngle angle }
    ensures cos { unsigned_abs result.cos.lo ≤ 2 ^ 61 }
    ensures sin { unsigned_abs result.sin.lo ≤ 2 ^ 61 }
{
    let point: Iv<56> = Iv {
        lo: angle,
        hi: angle,
    };
    pair_box(&point, 5)
}

// One term more of change (1 + pull + pull² ..), in units of 2^-56
fn drawn_out(change: i64, pull: i64, sum: i64) -> i64
    requires change { Within (pos (2 ^ 54)) change }
    requires pull { Within (pos (2 ^ 52)) pull }
    requires sum { Within (pos (2 ^ 55)) sum }
    ensures { Within (pos (2 ^ 55)) result }
{
    change + pull_of(8 * pull, 32 * sum)
}

// The nearest angle that is in reach of m
fn in_reach(m: i64, angle: i64) -> i64
    requires mean { IsMeanAnomaly m }
    ensures { AreNear (pos (2 ^ 52)) result m }
{
    if angle > m + REACH {
        m + REACH
    } else if angle < m - REACH {
        m - REACH
    } else {
        angle
    }
}

// An angle that is nearer to the solution, as Newton's rule finds it. That it is nearer isn't proved, nor needed.
fn nearer(m: i64, e: i64, angle: i64) -> i64
    requires mean { IsMeanAnomaly m }
    requires eccentricity { IsEccentricity e }
    requires near { AreNear (pos (2 ^ 52)) angle m }
    ensures { AreNear (pos (2 ^ 52)) result m }
{
    let pair = pair_at(angle);
    let change = m + pull_of(e, pair.sin.lo) - angle;
    let pull = pull_of(e, pair.cos.lo);
    let first = drawn_out(change, pull, change);
    let second = drawn_out(change, pull, first);
    in_reach(m, angle + drawn_out(change, pull, second))
}

// About the solution, in reach of m. Nothing more is claimed of it: it is where a solution is looked for first.
fn aimed(m: i64, means: i64, shapes: i64) -> i64
    requires mean { IsMeanAnomaly m }
    ensures { IsAngle result }
{
    let near = rough_step(means, shapes, rough_step(means, shapes, m));
    in_reach(m, rough_step(means, shapes, near))
}

// The same by a shorter search
fn aimed_once(m: i64, shapes: i64) -> i64
    requires mean { IsMeanAnomaly m }
    ensures { IsAngle result }
{
    in_reach(m, rough_solution(shapes, m))
}

// The angle from which a further step leads at most 3 units away. Newton's rule leads near it.
fn settle(m: i64, e: i64) -> i64
    requires mean { IsMeanAnomaly m }
    requires eccentricity { IsEccentricity e }
    ensures settled { (next : ℤ) → IsStep m e result next → AreNear last_step next result }
    ensures angle { IsAngle result }
{
    let mut angle = nearer(m, e, nearer(m, e, nearer(m, e, m)));
    for _round in 0..ROUNDS {
        let next = step(m, e, angle);
        if next == angle {
            return angle;
        }
        angle = next;
    }
    angle
}

// m + e · sine
fn right_side(m: &Iv<56>, e: &Iv<60>, sine: &Iv<60>) -> Iv<56>
    requires mean { IsWithin (12 * 2 ^ 56) m.now }
    requires e_low { pos 0 ≤ℤ e.now.lo }
    requires e_high { e.now.hi ≤ℤ pos (2 ^ 55) }
    requires lo_size { unsigned_abs sine.now.lo ≤ 2 ^ 61 }
    requires hi_size { unsigned_abs sine.now.hi ≤ 2 ^ 61 }
    ensures holds { (x y z : Rational) →
        Holds m.now x → Holds e.now y → Holds sine.now z → Holds result (x +ʳ y *ʳ z) }
    ensures lo { result.lo ≡
        m.now.lo +ℤ floor_div (least_corner e.now.lo e.now.hi sine.now.lo sine.now.hi) (2 ^ 64) }
    ensures hi { result.hi ≡
        m.now.hi +ℤ ceil_div (most_corner e.now.lo e.now.hi sine.now.lo sine.now.hi) (2 ^ 64) }
{
    let product: Iv<56> = e.mul_to::<60, 56>(sine).unwrap();
    m.add(&product).unwrap()
}

// A little over 16/15 of the residual, which is at most 14: the least radius that is enough
fn widened(residual: i64) -> i64
    requires low { pos 0 ≤ℤ residual }
    requires high { residual ≤ℤ residual_limit }
    ensures wide { ((pos 16 *ℤ residual) +ℤ pos 1) ≤ℤ (pos 15 *ℤ result) }
    ensures low { pos 0 ≤ℤ result }
    ensures high { result ≤ℤ radius_limit }
{
    residual + 1
}

// How far the ends lo and hi lie from the angle at most
fn residual_of(angle: i64, lo: i64, hi: i64) -> i64
    requires ordered { lo ≤ℤ hi }
    requires above { (hi -ℤ angle) ≤ℤ residual_limit }
    requires below { (angle -ℤ lo) ≤ℤ residual_limit }
    requires angle { IsAngle angle }
    ensures above { (hi -ℤ angle) ≤ℤ result }
    ensures below { (angle -ℤ lo) ≤ℤ result }
    ensures low { pos 0 ≤ℤ result }
    ensures high { result ≤ℤ residual_limit }
{
    (hi - angle).max(angle - lo)
}

// The box that reaches `radius` beyond the angle
fn around(angle: i64, radius: i64) -> Iv<56>
    requires angle { IsAngle angle }
    requires radius_low { pos 0 ≤ℤ radius }
    requires radius_high { radius ≤ℤ radius_limit }
    ensures lo { result.lo ≡ angle -ℤ radius }
    ensures hi { result.hi ≡ angle +ℤ radius }
{
    let lo = angle - radius;
    let hi = angle + radius;
    Iv { lo, hi }
}

/// A box of the eccentric anomaly, in units of 2^-56 of a radian, and one of its cosine and of its sine, in units of 2^-60.
#[derive(Clone, Copy, Debug)]
pub struct Anomaly {
    pub angle: Iv<56>,
    pub cos: Iv<60>,
    pub sin: Iv<60>,
}

// The box that reaches `radius` beyond the angle, with the boxes of its pairs
fn pairs_around(point: &PointPair, radius: i64) -> Anomaly
    requires angle { IsAngle point.now.angle }
    requires radius_low { pos 0 ≤ℤ radius }
    requires radius_high { radius ≤ℤ radius_limit }
    ensures lo { result.angle.lo ≡ point.now.angle -ℤ radius }
    ensures hi { result.angle.hi ≡ point.now.angle +ℤ radius }
    ensures pairs { (x c s : Rational) →
        Holds result.angle x → IsAnglePair 5 x c s → Holds result.cos c × Holds result.sin s }
    ensures pair_width { IsPairAtMostWide pair_width_limit result }
    ensures ends { IsWithin (9 * 2 ^ 57) result.cos × IsWithin (9 * 2 ^ 57) result.sin }
{
    let reach = around(point.angle, radius);
    let pair = point.within(radius);
    Anomaly {
        angle: reach,
        cos: pair.cos,
        sin: pair.sin,
    }
}

// The boxes about an angle, if the right side of the equation lies near enough to it
fn found_at(m: &Iv<56>, e: &Iv<60>, angle: i64) -> Option<Anomaly>
    requires mean { IsWithin (12 * 2 ^ 56) m.now }
    requires e_low { pos 0 ≤ℤ e.now.lo }
    requires e_high { e.now.hi ≤ℤ pos (2 ^ 55) }
    requires angle { IsAngle angle }
    ensures { IfSome result (λ b. IsAnomalyBox m.now e.now b) }
{
    let point = PointPair::of(angle);
    let sine = sine_at(&point);
    let right = right_side(m, e, &sine);
    let lo = right.lo();
    let hi = right.hi();
    if hi - angle > RESIDUAL {
        return None;
    }
    if angle - lo > RESIDUAL {
        return None;
    }
    let radius = widened(residual_of(angle, lo, hi));
    Some(pairs_around(&point, radius))
}

/// `anomaly_box` by steps from box to box, which come near enough to every solution. It serves where a rough start does not.
pub fn anomaly_by_steps(m: &Iv<56>, e: &Iv<60>) -> Anomaly
    requires mean { IsWithin (12 * 2 ^ 56) m.now }
    requires mean_narrow { width_of m.now ≤ℤ pos (2 ^ 4) }
    requires eccentricity_low { pos 0 ≤ℤ e.now.lo }
    requires eccentricity_high { e.now.hi ≤ℤ pos (2 ^ 55) }
    requires eccentricity_narrow { width_of e.now ≤ℤ pos 2 }
    ensures { IsAnomalyBox m.now e.now result }
{
    let angle = settle(middle_between(m.lo(), m.hi()), e.lo());
    let sine = sine_of(angle);
    let right = right_side(m, e, &sine);
    let radius = widened(residual_of(angle, right.lo(), right.hi()));
    pairs_around(&PointPair::of(angle), radius)
}

/// Boxes of every solution of Kepler's equation for a mean anomaly in `m` and an eccentricity in `e`.
///
/// `m` is at most 12 in size and 2^-52 wide; `e` lies from 0 to 1/32 and is at most 2^-59 wide.
pub fn anomaly_box(m: &Iv<56>, e: &Iv<60>) -> Anomaly
    requires mean { IsWithin (12 * 2 ^ 56) m.now }
    requires mean_narrow { width_of m.now ≤ℤ pos (2 ^ 4) }
    requires eccentricity_low { pos 0 ≤ℤ e.now.lo }
    requires eccentricity_high { e.now.hi ≤ℤ pos (2 ^ 55) }
    requires eccentricity_narrow { width_of e.now ≤ℤ pos 2 }

    ensures holds { (mean eccentricity angle c s : Rational) →
        Holds m.now mean → Holds e.now eccentricity →
        SolvesKepler mean eccentricity angle c s → HoldsAnomaly result angle c s }

    // Every pair of every angle in the box, a solution or not
    ensures pairs { (angle c s : Rational) → Holds result.angle angle → IsAnglePair 5 angle c s →
        Holds result.cos c × Holds result.sin s }

    // A solution whose mean anomaly is only within d of the box m
    ensures near { (d mean eccentricity angle c s : Rational) →
        IsNearBox 56 m.now.lo m.now.hi d mean → Holds e.now eccentricity →
        SolvesKepler mean eccentricity angle c s → IsNearAnomaly d result angle c s }

    // No angle in the box is over 16 in size, so each has pairs.
    ensures range { IsWithin (2 ^ 60) result.angle }

    // 34 units of 2^-56, and 1600 of 2^-60
    ensures angle_width { width_of result.angle ≤ℤ angle_width_limit }
    ensures pair_width { IsPairAtMostWide pair_width_limit result }

    // So at most 2^-50; at most 2^-49, and all the more 2^-47
    ensures wide_angle { width_of result.angle ≤ℤ pos (2 ^ 6) }
    ensures wide_pair { IsPairAtMostWide (pos (2 ^ 11)) result }
    ensures wider_pair { IsPairAtMostWide (pos (2 ^ 13)) result }

    // No end of the pair is over 9/8 in size.
    ensures ends { IsWithin (9 * 2 ^ 57) result.cos × IsWithin (9 * 2 ^ 57) result.sin }
{
    let means = m.lo().wrapping_add(m.hi());
    let shapes = e.lo().wrapping_add(e.hi());
    let guess = aimed(middle_between(m.lo(), m.hi()), means, shapes);
    match found_at(m, e, guess) {
        Some(found) => found,
        None => anomaly_by_steps(m, e),
    }
}

/// `anomaly_box` by a shorter search, which may lead to an angle a unit or so away: it serves where what is made of the boxes is
/// widened by far more.
pub fn quick_anomaly_box(m: &Iv<56>, e: &Iv<60>) -> Anomaly
    requires mean { IsWithin (12 * 2 ^ 56) m.now }
    requires mean_narrow { width_of m.now ≤ℤ pos (2 ^ 4) }
    requires eccentricity_low { pos 0 ≤ℤ e.now.lo }
    requires eccentricity_high { e.now.hi ≤ℤ pos (2 ^ 55) }
    requires eccentricity_narrow { width_of e.now ≤ℤ pos 2 }
    ensures { IsAnomalyBox m.now e.now result }
{
    let shapes = e.lo().wrapping_add(e.hi());
    let guess = aimed_once(middle_between(m.lo(), m.hi()), shapes);
    match found_at(m, e, guess) {
        Some(found) => found,
        None => anomaly_by_steps(m, e),
    }
}
