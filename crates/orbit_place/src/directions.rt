//! The direction from the Earth's centre to a satellite.
ghost use Rattle.std.specs.Prelude.{◌≡◌, ◌≤◌, pos, ◌≤ℤ◌};
ghost use Rattle.iv_core.specs.Intervals.{width_of};
ghost use Rattle.trig_box.specs.AnglePairs.{Pair};
ghost use Rattle.orbit_place.specs.Rotations.{HoldsBoth};
ghost use Rattle.orbit_place.specs.Directions.{direction, HoldsPoint, HasPointNearSphere};

use crate::angles::{INCLINATION_WIDTH, NODE_WIDTH};
use crate::plane::CORRECTED_WIDTH;
use crate::rotations::{Rotation, SIZE};
use iv_core::Iv;
use sized_box::SizedBox;

// A product of two parts of pairs, and of three.
const HALF: u64 = 1 << 61;

const PART: u64 = 1027 << 50;

const SUM: u64 = 1 << 62;

const ALONG_WIDTH: u64 = 14_914;

const ACROSS_WIDTH: u64 = 11_551;

const TURNED_WIDTH: u64 = 15_800;

pub const DIRECTION_WIDTH: u64 = 30_714;

/// The three coordinates of a vector of length 1, in the Earth-fixed frame.
#[derive(Clone, Copy, Debug)]
pub struct Direction {
    pub x: SizedBox<60, SIZE, DIRECTION_WIDTH>,
    pub y: SizedBox<60, SIZE, DIRECTION_WIDTH>,
    pub z: SizedBox<60, SIZE, DIRECTION_WIDTH>,
    pub ghost near_sphere: { ∥ HasPointNearSphere 12 x.held y.held z.held ∥₁ },
}

/// The direction from the pairs of the argument of latitude, of the inclination and of the node.
pub fn direction_of(
    latitude: &Rotation<6, CORRECTED_WIDTH>,
    inclination: &Rotation<1, INCLINATION_WIDTH>,
    node: &Rotation<4, NODE_WIDTH>,
) -> Direction
    ensures holds { (u i n : Pair) → HoldsBoth latitude.now.cos latitude.now.sin u →
        HoldsBoth inclination.now.cos inclination.now.sin i →
        HoldsBoth node.now.cos node.now.sin n →
        HoldsPoint result.x.held result.y.held result.z.held (direction u i n) }
{
    let (ahead, aside) = (latitude.cosine(), latitude.sine());
    let (level, steep) = (inclination.cosine(), inclination.sine());
    let (cos, sin) = (node.cosine(), node.sine());
    let across: SizedBox<60, PART, ACROSS_WIDTH> = aside.mul(&level);
    let first: SizedBox<60, HALF, ALONG_WIDTH> = ahead.mul(&cos);
    let second: SizedBox<60, HALF, TURNED_WIDTH> = across.mul(&sin);
    let third: SizedBox<60, HALF, ALONG_WIDTH> = ahead.mul(&sin);
    let fourth: SizedBox<60, HALF, TURNED_WIDTH> = across.mul(&cos);
    let x: SizedBox<60, SUM, DIRECTION_WIDTH> = first.sub(&second);
    let y: SizedBox<60, SUM, DIRECTION_WIDTH> = third.add(&fourth);
    let z: SizedBox<60, PART, DIRECTION_WIDTH> = aside.mul(&steep);
    near_sphere(x.held, y.held, z.held)
}

// The direction in the boxes, one of which is near the sphere.
fn near_sphere(x: Iv<60>, y: Iv<60>, z: Iv<60>) -> Direction
    requires near { ∥ HasPointNearSphere 12 x y z ∥₁ }
    requires x_narrow { width_of x ≤ℤ pos DIRECTION_WIDTH }
    requires y_narrow { width_of y ≤ℤ pos DIRECTION_WIDTH }
    requires z_narrow { width_of z ≤ℤ pos DIRECTION_WIDTH }
    ensures x { result.x.held ≡ x }
    ensures y { result.y.held ≡ y }
    ensures z { result.z.held ≡ z }
{
    Direction {
        x: SizedBox::new(x),
        y: SizedBox::new(y),
        z: SizedBox::new(z),
    }
}
