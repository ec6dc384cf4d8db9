//! Boxes of a satellite's Earth-fixed place, from boxes of the numbers of its orbit: the user algorithm of IS-GPS-200 (table
//! 20-IV) from the true anomaly on.
//!
//! `place_of` takes boxes of the numbers of an orbit, of the time since the reference epoch, of the axis and of the
//! pair of the eccentric anomaly. Its three boxes hold the place of every solution of the user algorithm whose
//! numbers lie in the boxes (`holds`). Each is at most 2^-18 m wide (`narrow`), and every place in them is from
//! 19,000 km to 38,000 km from the Earth's centre (`away`). It takes no memory and is never refused.
//!
//! The boxes of a sum of angles have ends of at most a little over 1 again, since a box of a cosine and a sine knows how near
//! the circle of radius 1 it holds a pair: that stands in its type, in 2^-16, and is at most 32 of them. A sum counts those
//! of both its angles and one more.
//!
//! A `Rotation` is a box of a cosine and one of a sine that hold a pair near the circle of radius 1, and its type
//! says how near and how wide. `rotation_of` and `wide_rotation_of` hold every pair of every angle in a box, `turn`
//! that of every sum of two angles, `double` that of every double, `eccentric_pair` that of every solution of
//! Kepler's equation, and `on_ellipse` every true anomaly and the radius 1 − e·cos E. With a pair within 32 / 2^16 of
//! the circle no end of such a box is further from 0 than 1 + 2^-10. The calls take no memory and are never refused.
#![tactic(auto)]

mod angles;
mod directions;
mod ellipse;
mod orbit;
mod plane;
mod rotations;

ghost use Rattle.std.specs.Prelude.{◌≡◌, ◌^◌, pos, ◌≤ℤ◌, [], ◌∷◌, All};
ghost use Rattle.iv_core.specs.declared.Iv.{Iv};
ghost use Rattle.iv_core.specs.Intervals.{width_of};
ghost use Rattle.orbit_model.specs.Places.{IsBetweenDistances, HoldsPlace};
ghost use Rattle.orbit_model.specs.SeenPlaces.{sent_place};
ghost use Rattle.orbit_place.specs.Held.{ForSolutions};

pub use angles::{EARTH_TURN, RELATIVE_RATE, earth_turn, relative_rate};
use angles::{inclination_of, node_of};
use directions::direction_of;
pub use ellipse::{
    ANOMALY_WIDTH, ECCENTRICITY, OnEllipse, RADIUS, RADIUS_WIDTH, Shape, TRUE_WIDTH, on_ellipse,
};
use iv_core::Iv;
pub use orbit::{ANGLE, AXIS, EPOCH_TIME, Orbit, RADIUS_CHANGE, SMALL, TINY};
pub use plane::PERIGEE_WIDTH;
use plane::in_plane;
pub use rotations::{Rotation, SIZE, eccentric_pair, rotation_of, wide_rotation_of};
use sized_box::SizedBox;

// A coordinate.
const PLACE: u64 = 37_190_000 << 36;

const PLACE_WIDTH: u64 = 68_155;

/// The Earth-fixed place in metres, at scale 2^-36: holds that of every solution whose numbers lie in the boxes.
///
/// Each coordinate is at most 2^-18 m wide, and every place in the box is from 19,000 km to 38,000 km from the Earth's centre.
pub fn place_of(orbit: &Orbit) -> [Iv<36>; 3]
    ensures holds { ForSolutions orbit.now (λ q. HoldsPlace result (sent_place q)) }
    ensures narrow { All (λ b. width_of b ≤ℤ pos (2 ^ 18)) result }
    ensures away { (a b c : Iv 36) → result ≡ a ∷ b ∷ c ∷ [] →
        IsBetweenDistances 19000000 38000000 a b c }
{
    let plane = in_plane(orbit);
    let inclination = inclination_of(orbit, &plane.twice);
    let direction = direction_of(&plane.latitude, &inclination, &node_of(orbit));
    let x: SizedBox<36, PLACE, PLACE_WIDTH> = plane.radius.mul(&direction.x);
    let y: SizedBox<36, PLACE, PLACE_WIDTH> = plane.radius.mul(&direction.y);
    let z: SizedBox<36, PLACE, PLACE_WIDTH> = plane.radius.mul(&direction.z);
    [x.held, y.held, z.held]
}
