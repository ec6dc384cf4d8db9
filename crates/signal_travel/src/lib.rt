//! Travel time of a signal, the place where a receiver sees the satellite, the mean direction to it, and the mask.
//!
//! `seen_from` holds every seen place, range and travel time of every place in its box, for every solution of the
//! equations (`place`, `range`, `time`), and every place of the box has one (`exists`). The type `SeenBox` keeps the
//! widths, at most 2^-17 m for each coordinate and the range and 2^-45 s for the time, a range of at least 10,000 km,
//! and the distance from the Earth's centre; the call takes no memory and is never refused. `above` says whether a
//! satellite is above the elevation mask, exactly, at a place within 2^-17 m of every place in its box (`kept`,
//! `left_out`; a mask of 1000 included). `aim_from` gives the range with the mean direction, both at one point, and makes
//! their vector once (`range`, `direction`); `point_at` makes such a point, with the boxes of its coordinates, for all that is
//! seen from there. `mean_direction` holds the mean direction from a point, which may be another
//! one than the box was made with, for every place of the box and every displacement of at most 16 m; its type
//! `Spread` keeps each centre at most 1 in size and each radius at most 32 units of 2^-24. `is_receiver_point` tests
//! exactly what these calls ask of a point.
#![tactic(auto)]

ghost use Rattle.std.specs.Prelude.{◌≡◌, ◌*◌, ◌^◌, ◌≤◌, ℤ, pos, ◌≤ℤ◌, [], ◌∷◌, All, IsTrue, false};
ghost use Rattle.iv_core.specs.declared.Iv.{Iv};
ghost use Rattle.iv_core.specs.Intervals.{Holds, width_of};
ghost use Rattle.orbit_model.specs.Places.{IsBetweenDistances, HasSeenPlace, HoldsPlace};
ghost use Rattle.whole_math.specs.Rational.{Rational};
ghost use Rattle.orbit_model.specs.SeenPlaces.{Position, point_of, IsSeenPlace, range_of, IsDisplacement, IsMeanDirection, IsAboveMask, IsBelowMask};
ghost use Rattle.obs_rows.specs.ReceiverPoints.{IsReceiverPoint};
ghost use Rattle.signal_travel.specs.Boxes.{HasNearPlace};
ghost use Rattle.signal_travel.specs.Directions.{HoldsDirection};

mod aims;
mod directions;
mod mask;
mod passes;
mod places;
mod sent;
mod spread;
mod turns;
mod vectors;
mod wide;

use aims::travel_guess;
use directions::{direction_of, direction_to};
use iv_core::Iv;
use mask::{is_above, offset_of};
pub use obs_rows::is_receiver_point;
use passes::sight_of;
pub use sent::{Point, point_at};
use sent::{seen_place, sent_box};
pub use spread::Spread;
use sv_orbit::SvBox;

/// Where a receiver sees a satellite, in metres at scale 2^-36 and in the Earth-fixed frame of the moment of reception, with its
/// range in metres at 2^-36 and the signal's travel time in seconds at 2^-60.
///
/// Each coordinate and the range are at most 2^-17 m wide, and the travel time 2^-45 s; the range is at least 10,000 km, and every
/// place in the box is from 18,900 km to 38,100 km from the Earth's centre.
#[derive(Clone, Copy, Debug)]
pub struct SeenBox {
    pub place: [Iv<36>; 3],
    pub range: Iv<36>,
    pub travel: Iv<60>,
    pub ghost narrow: { All (λ b. width_of b ≤ℤ pos (2 ^ 19)) place },
    pub ghost away: { (a b c : Iv 36) → place ≡ a ∷ b ∷ c ∷ [] →
        IsBetweenDistances 18900000 38100000 a b c },
    pub ghost range_narrow: { width_of range ≤ℤ pos (2 ^ 19) },
    pub ghost range_far: { pos (10000000 * 2 ^ 36) ≤ℤ range.lo },
    pub ghost travel_narrow: { width_of travel ≤ℤ pos (2 ^ 15) },
}

/// Boxes of every place where a receiver at `point`, in units of 0.1 mm, sees a satellite that sent from a place of `sv`, with the
/// range and the travel time. It takes no memory and is never refused.
pub fn seen_from(sv: &SvBox, point: &[i64; 3]) -> SeenBox
    requires { IsReceiverPoint point.now }
    ensures place { (a b c : ℤ) (sent seen : Position) (travel : Rational) →
        point.now ≡ a ∷ b ∷ c ∷ [] → HoldsPlace sv.now.place sent →
        IsSeenPlace sent (point_of a b c) travel seen → HoldsPlace result.place seen }
    ensures range { (a b c : ℤ) (sent seen : Position) (travel : Rational) →
        point.now ≡ a ∷ b ∷ c ∷ [] → HoldsPlace sv.now.place sent →
        IsSeenPlace sent (point_of a b c) travel seen → Holds result.range (range_of travel) }
    ensures time { (a b c : ℤ) (sent seen : Position) (travel : Rational) →
        point.now ≡ a ∷ b ∷ c ∷ [] → HoldsPlace sv.now.place sent →
        IsSeenPlace sent (point_of a b c) travel seen → Holds result.travel travel }

    // The equations of each place of `sv` have a solution.
    ensures exists { (a b c : ℤ) (sent : Position) → point.now ≡ a ∷ b ∷ c ∷ [] →
        HoldsPlace sv.now.place sent → HasSeenPlace sent (point_of a b c) }
{
    seen_by_guess(sv, point, travel_guess(&sent_box(sv), &point_at(point)))
}

/// `seen_from` with a guess of the travel time, in seconds at 2^-60: one within 3 · 10^-15 s saves most of the work, and any other gives
/// boxes that hold the same.
pub fn seen_by_guess(sv: &SvBox, point: &[i64; 3], guess: i64) -> SeenBox
    requires { IsReceiverPoint point.now }
    ensures place { (a b c : ℤ) (sent seen : Position) (travel : Rational) →
        point.now ≡ a ∷ b ∷ c ∷ [] → HoldsPlace sv.now.place sent →
        IsSeenPlace sent (point_of a b c) travel seen → HoldsPlace result.place seen }
    ensures range { (a b c : ℤ) (sent seen : Position) (travel : Rational) →
        point.now ≡ a ∷ b ∷ c ∷ [] → HoldsPlace sv.now.place sent →
        IsSeenPlace sent (point_of a b c) travel seen → Holds result.range (range_of travel) }
    ensures time { (a b c : ℤ) (sent seen : Position) (travel : Rational) →
        point.now ≡ a ∷ b ∷ c ∷ [] → HoldsPlace sv.now.place sent →
        IsSeenPlace sent (point_of a b c) travel seen → Holds result.travel travel }
{
    let sight = sight_of(&sent_box(sv), &point_at(point), guess);
    SeenBox {
        place: [sight.place.x, sight.place.y, sight.place.z],
        range: sight.range,
        travel: sight.travel,
    }
}

/// How far a satellite is from a receiver, and the mean direction to it.
///
/// The range is in metres at 2^-36, at most 2^-17 m wide.
#[derive(Clone, Copy, Debug)]
pub struct Aim {
    pub range: Iv<36>,
    pub direction: [Spread; 3],
    pub ghost range_narrow: { width_of range ≤ℤ pos (2 ^ 19) },
}

/// The range of `seen_from` and the direction of `mean_direction` at one point. It takes no memory and is never refused.
pub fn aim_from(sv: &SvBox, point: &Point) -> Aim
    ensures range { (sent seen : Position) (travel : Rational) → HoldsPlace sv.now.place sent →
        IsSeenPlace sent (point_of point.now.x point.now.y point.now.z) travel seen →
        Holds result.range (range_of travel) }
    ensures direction { (sent seen move direction : Position) (travel : Rational) →
        HoldsPlace sv.now.place sent →
        IsSeenPlace sent (point_of point.now.x point.now.y point.now.z) travel seen →
        IsDisplacement move →
        IsMeanDirection seen (point_of point.now.x point.now.y point.now.z) move direction →
        HoldsDirection result.direction direction }
{
    let sent = sent_box(sv);
    let sight = sight_of(&sent, point, travel_guess(&sent, point));
    let direction = direction_of(&sight, point);
    Aim {
        range: sight.range,
        direction: [direction.x, direction.y, direction.z],
    }
}

/// Whether the satellite is above the elevation mask at `point`, in units of 0.1 mm: whether the sine of its elevation, above the
/// plane across the line from the Earth's centre, is at least `mask` / 1000. It is decided exactly at one place, which is within
/// 2^-17 m in each coordinate of every place in the box.
pub fn above(seen: &SeenBox, point: &[i64; 3], mask: u32) -> bool
    requires point { IsReceiverPoint point.now }
    requires mask { mask ≤ 1000 }
    ensures kept { IsTrue result → (a b c : ℤ) → point.now ≡ a ∷ b ∷ c ∷ [] →
        HasNearPlace seen.now.place (λ g. IsAboveMask mask g (point_of a b c)) }
    ensures left_out { result ≡ false → (a b c : ℤ) → point.now ≡ a ∷ b ∷ c ∷ [] →
        HasNearPlace seen.now.place (λ g. IsBelowMask mask g (point_of a b c)) }
{
    let [x, y, z] = seen.place;
    let [p, q, r] = *point;
    is_above(
        mask,
        offset_of(x.lo, p),
        offset_of(y.lo, q),
        offset_of(z.lo, r),
        p,
        q,
        r,
    )
}

/// The mean direction from `point`, in units of 0.1 mm, to the satellite over any displacement of at most 16 m: its product with
/// the displacement is what the range changes by. It takes no memory and is never refused, and works from `place` alone, so that
/// the point may be another one than the box was made with.
pub fn mean_direction(seen: &SeenBox, point: &[i64; 3]) -> [Spread; 3]
    requires { IsReceiverPoint point.now }
    ensures { (a b c : ℤ) (place move direction : Position) → point.now ≡ a ∷ b ∷ c ∷ [] →
        HoldsPlace seen.now.place place → IsDisplacement move →
        IsMeanDirection place (point_of a b c) move direction → HoldsDirection result direction }
{
    let direction = direction_to(&seen_place(seen), &point_at(point));
    [direction.x, direction.y, direction.z]
}
