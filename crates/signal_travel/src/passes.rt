//! The travel time, from a box of it to a narrower one.
ghost use Rattle.std.specs.Prelude.{◌≡◌, ◌+◌, ◌*◌, ◌^◌, ◌<◌, ◌≤◌, ℤ, pos, ◌+ℤ◌, ◌-ℤ◌, ◌*ℤ◌, ◌≤ℤ◌, true};
ghost use Rattle.whole_math.specs.Rational.{Rational, IsNearRoot};
ghost use Rattle.iv_core.specs.Intervals.{Holds, width_of};
ghost use Rattle.orbit_model.specs.Places.{IsBetweenDistances};
ghost use Rattle.orbit_model.specs.SeenPlaces.{Position, difference, square, point_of, IsSeenPlace, range_of};
ghost use Rattle.signal_travel.specs.SeenAfter.{IsSeenAfter};
ghost use Rattle.signal_travel.specs.VectorBoxes.{HoldsVector, IsVectorWithin, AreEndsWithin, IsVectorAtMostWide, IsTravel};

use crate::places::VectorBox;
use crate::sent::{Point, SentBox};
use crate::turns::{turn_in, turned_box};
use crate::vectors::{length_by, vector_from};
use iv_core::Iv;
use obs_rows::LIGHT_SPEED;

// The speed of light in m/s. It is divided by in two digits at 2^24: the divisor is known when the program is built, which then
// multiplies in place of dividing 128 bits.
const SPEED: u64 = LIGHT_SPEED as u64;

const DIGIT: u64 = 1 << 24;

// 1/6 s, which is later than any signal arrives, in 2^-60 s
const LATEST: i64 = 192_153_584_101_141_163;

// How far a guess may be off, in 2^-60 s
const REACH: i64 = 1 << 12;

// How far a pass from a time may lead, so that no travel time is further than `REACH` from that time: what a pass leads to moves by less
// than a 256th of what the time moves by
const SETTLED: i64 = REACH - REACH / 256;

// ⌊range · 2^24 / c⌋
fn time_below(range: u64) -> u64
    requires { range ≤ 45200000 * 2 ^ 36 }
    ensures low { result * SPEED ≤ range * 2 ^ 24 }
    ensures high { range * 2 ^ 24 < result * SPEED + SPEED }
{
    range / SPEED * DIGIT + range % SPEED * DIGIT / SPEED
}

// ⌈range · 2^24 / c⌉
fn time_above(range: u64) -> u64
    requires { range ≤ 45200000 * 2 ^ 36 }
    ensures low { range * 2 ^ 24 ≤ result * SPEED }
    ensures high { result * SPEED < range * 2 ^ 24 + SPEED }
{
    range / SPEED * DIGIT + (range % SPEED * DIGIT + SPEED - 1) / SPEED
}

// The time in which light goes so far
fn time_over(range: &Iv<36>) -> Iv<60>
    requires low { pos 0 ≤ℤ range.now.lo }
    requires high { range.now.hi ≤ℤ pos (45200000 * 2 ^ 36) }
    ensures holds { (t : Rational) → Holds range.now (range_of t) → Holds result t }
    ensures travel { IsTravel result }
    ensures width { (pos SPEED *ℤ width_of result)
        ≤ℤ ((pos (2 ^ 24) *ℤ width_of range.now) +ℤ pos (2 * SPEED)) }
{
    let low = time_below(range.lo as u64);
    let high = time_above(range.hi as u64);
    Iv::from_ends(low as i64, high as i64)
}

// About how far light goes in the times of the box, in 2^-34 m. Nothing is claimed of it.
fn range_guess(travel: &Iv<60>) -> u64
    requires { IsTravel travel.now }
{
    ((travel.lo + travel.hi) as u128 * SPEED as u128 >> 27) as u64
}

/// Where a receiver sees what was sent from a place, after which time, and the vector from the receiver to it.
#[derive(Clone, Copy)]
pub struct SightBoxes {
    pub place: VectorBox,
    pub vector: VectorBox,
    pub range: Iv<36>,
    pub travel: Iv<60>,
    pub ghost size: { IsVectorWithin (45200000 * 2 ^ 36) vector },
    pub ghost width: { (w : ℤ) → IsVectorAtMostWide w place →
        IsVectorAtMostWide (w +ℤ pos 1) vector },
    pub ghost lengths: { (p : Position) (r : Rational) → HoldsVector vector p →
        IsNearRoot r (square p) → Holds range r },
    pub ghost near: { range.hi ≤ℤ pos (45200000 * 2 ^ 36) },
    pub ghost reach: { (w : ℤ) → IsVectorAtMostWide w vector →
        AreEndsWithin ((range.lo +ℤ pos 80) +ℤ w) vector },
}

/// The sights at the point after the travel times of the box.
pub fn sight_after(sent: &SentBox, point: &Point, travel: &Iv<60>) -> SightBoxes
    requires { IsTravel travel.now }
    ensures place { (p seen : Position) (t : Rational) → HoldsVector sent.now.place p →
        Holds travel.now t → IsSeenPlace p (point_of point.now.x point.now.y point.now.z) t seen →
        HoldsVector result.place seen }
    ensures range { (p seen : Position) (t : Rational) → HoldsVector sent.now.place p →
        Holds travel.now t → IsSeenPlace p (point_of point.now.x point.now.y point.now.z) t seen →
        Holds result.range (range_of t) }
    ensures time { (p seen : Position) (t : Rational) → HoldsVector sent.now.place p →
        Holds travel.now t → IsSeenPlace p (point_of point.now.x point.now.y point.now.z) t seen →
        Holds result.travel t }
    ensures vector { (p : Position) → HoldsVector result.place p →
        HoldsVector result.vector (difference p (point_of point.now.x point.now.y point.now.z)) }
    // Light takes a time of `travel` after a turn in any time of the box, not only in its own.
    ensures light { (p seen : Position) (u t : Rational) → HoldsVector sent.now.place p →
        Holds travel.now u → IsSeenAfter p (point_of point.now.x point.now.y point.now.z) u t seen →
        Holds result.travel t }
    ensures travel { IsTravel result.travel }
    ensures far { pos (10000000 * 2 ^ 36) ≤ℤ result.range.lo }

    // A coordinate is at most 264,813 units and a 452nd of half the time's width wide.
    ensures width { (w : ℤ) → (width_of travel.now +ℤ pos (904 * 264813)) ≤ℤ (pos 904 *ℤ w) →
        IsVectorAtMostWide w result.place }
    ensures range_width { (w : ℤ) → (width_of travel.now +ℤ pos (904 * 264813)) ≤ℤ (pos 904 *ℤ w) →
        (pos 4 *ℤ width_of result.range) ≤ℤ ((pos 7 *ℤ w) +ℤ pos 807) }
    ensures time_width { (pos SPEED *ℤ width_of result.travel)
        ≤ℤ ((pos (2 ^ 24) *ℤ width_of result.range) +ℤ pos (2 * SPEED)) }
    ensures away { IsVectorAtMostWide (pos (2 ^ 19)) result.place →
        IsBetweenDistances 18900000 38100000 result.place.x result.place.y result.place.z }
{
    let turn = turn_in(travel);
    let place = turned_box(&turn, sent);
    let vector = vector_from(point, &place);
    let range = length_by(&vector, range_guess(travel));
    let travel = time_over(&range);
    SightBoxes {
        place,
        vector,
        range,
        travel,
    }
}

// From 0 to 1/6 s: every travel time that there is
fn any_travel() -> Iv<60>
    ensures lo { result.lo ≡ pos 0 }
    ensures hi { result.hi ≡ LATEST }
{
    Iv::from_ends(0, LATEST)
}

// Every travel time, by three passes
fn times_by_passes(sent: &SentBox, point: &Point) -> Iv<60>
    ensures holds { (p seen : Position) (t : Rational) → HoldsVector sent.now.place p →
        IsSeenPlace p (point_of point.now.x point.now.y point.now.z) t seen → Holds result t }
    ensures travel { IsTravel result }
    ensures width { width_of result ≤ℤ pos (2 ^ 19) }
{
    let first = sight_after(sent, point, &any_travel());
    let second = sight_after(sent, point, &first.travel);
    let third = sight_after(sent, point, &second.travel);
    third.travel
}

// The guess, or the nearest time that is `REACH` away from the first and the last
fn time_near(guess: i64) -> i64
    ensures low { REACH ≤ℤ result }
    ensures high { (result +ℤ REACH) ≤ℤ LATEST }
{
    if guess < REACH {
        REACH
    } else if guess > LATEST - REACH {
        LATEST - REACH
    } else {
        guess
    }
}

// The times within `REACH` of a time
fn times_around(time: i64) -> Iv<60>
    requires low { REACH ≤ℤ time }
    requires high { (time +ℤ REACH) ≤ℤ LATEST }
    ensures lo { result.lo ≡ time -ℤ REACH }
    ensures hi { result.hi ≡ time +ℤ REACH }
{
    Iv::from_ends(time - REACH, time + REACH)
}

// Whether a pass led so near the time that it began with that every travel time is within `REACH` of it
fn is_settled(travel: &Iv<60>, time: i64) -> bool
    requires travel { IsTravel travel.now }
    requires low { pos 0 ≤ℤ time }
    requires high { time ≤ℤ LATEST }
    ensures above { result ≡ true → (travel.now.hi -ℤ time) ≤ℤ SETTLED }
    ensures below { result ≡ true → (time -ℤ travel.now.lo) ≤ℤ SETTLED }
{
    travel.hi - time <= SETTLED && time - travel.lo <= SETTLED
}

/// The sights at the point, by one pass from the guess, or by four where the guess is poor.
pub fn sight_of(sent: &SentBox, point: &Point, guess: i64) -> SightBoxes
    ensures place { (p seen : Position) (t : Rational) → HoldsVector sent.now.place p →
        IsSeenPlace p (point_of point.now.x point.now.y point.now.z) t seen →
        HoldsVector result.place seen }
    ensures range { (p seen : Position) (t : Rational) → HoldsVector sent.now.place p →
        IsSeenPlace p (point_of point.now.x point.now.y point.now.z) t seen →
        Holds result.range (range_of t) }
    ensures time { (p seen : Position) (t : Rational) → HoldsVector sent.now.place p →
        IsSeenPlace p (point_of point.now.x point.now.y point.now.z) t seen →
        Holds result.travel t }
    ensures vector { (p : Position) → HoldsVector result.place p →
        HoldsVector result.vector (difference p (point_of point.now.x point.now.y point.now.z)) }
    ensures narrow { IsVectorAtMostWide (pos (2 ^ 19)) result.place }
    ensures range_narrow { width_of result.range ≤ℤ pos (2 ^ 19) }
    ensures time_narrow { width_of result.travel ≤ℤ pos (2 ^ 15) }
    ensures far { pos (10000000 * 2 ^ 36) ≤ℤ result.range.lo }
    ensures away { IsBetweenDistances 18900000 38100000 result.place.x result.place.y
        result.place.z }
{
    let time = time_near(guess);
    let sight = sight_after(sent, point, &times_around(time));
    if is_settled(&sight.travel, time) {
        sight
    } else {
        sight_after(sent, point, &times_by_passes(sent, point))
    }
}
