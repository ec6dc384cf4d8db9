//! What is handed in, with its coordinates by name.
ghost use Rattle.std.specs.Prelude.{◌≡◌, ◌*◌, ◌^◌, pos, [], ◌∷◌};
ghost use Rattle.orbit_model.specs.Places.{IsBetweenDistances};
ghost use Rattle.orbit_model.specs.SeenPlaces.{point_of};
ghost use Rattle.obs_rows.specs.ReceiverPoints.{IsReceiverPoint};
ghost use Rattle.signal_travel.specs.VectorBoxes.{HoldsVector, IsVectorWithin, IsVectorAtMostWide};

use crate::SeenBox;
use crate::places::VectorBox;
use crate::vectors::coordinate_box;
use sv_orbit::SvBox;

/// A box of the place from which a satellite sent.
#[derive(Clone, Copy)]
pub struct SentBox {
    pub place: VectorBox,
    pub ghost narrow: { IsVectorAtMostWide (pos (2 ^ 18)) place },
    pub ghost within: { IsVectorWithin (38000000 * 2 ^ 36) place },
    pub ghost away: { IsBetweenDistances 19000000 38000000 place.x place.y place.z },
}

pub fn sent_box(sv: &SvBox) -> SentBox
    ensures { sv.now.place ≡ result.place.x ∷ result.place.y ∷ result.place.z ∷ [] }
{
    let [x, y, z] = sv.place;
    SentBox {
        place: VectorBox { x, y, z },
    }
}

/// A point where a receiver may be, in units of 0.1 mm, with the boxes of its coordinates. They are made once for all that is seen
/// from there.
#[derive(Clone, Copy)]
pub struct Point {
    pub x: i64,
    pub y: i64,
    pub z: i64,
    pub boxes: VectorBox,
    pub ghost receiver: { IsReceiverPoint (x ∷ y ∷ z ∷ []) },
    pub ghost held: { HoldsVector boxes (point_of x y z) },
    pub ghost boxes_within: { IsVectorWithin (7000001 * 2 ^ 36) boxes },
    pub ghost boxes_narrow: { IsVectorAtMostWide (pos 1) boxes },
}

/// The point of these coordinates, in units of 0.1 mm.
pub fn point_at(point: &[i64; 3]) -> Point
    requires { IsReceiverPoint point.now }
    ensures { point.now ≡ result.x ∷ result.y ∷ result.z ∷ [] }
{
    let [x, y, z] = *point;
    Point {
        x,
        y,
        z,
        boxes: VectorBox {
            x: coordinate_box(x),
            y: coordinate_box(y),
            z: coordinate_box(z),
        },
    }
}

/// A box of the place where a receiver sees a satellite.
#[derive(Clone, Copy)]
pub struct SeenPlace {
    pub place: VectorBox,
    pub ghost narrow: { IsVectorAtMostWide (pos (2 ^ 19)) place },
    pub ghost within: { IsVectorWithin (38100000 * 2 ^ 36) place },
    pub ghost away: { IsBetweenDistances 18900000 38100000 place.x place.y place.z },
}

pub fn seen_place(seen: &SeenBox) -> SeenPlace
    ensures { seen.now.place ≡ result.place.x ∷ result.place.y ∷ result.place.z ∷ [] }
{
    let [x, y, z] = seen.place;
    SeenPlace {
        place: VectorBox { x, y, z },
    }
}
