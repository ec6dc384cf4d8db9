//! The base and the rover.
ghost use Rattle.std.specs.Prelude.{◌≡◌, ◌≤◌, pos, ◌+ℤ◌, ◌*ℤ◌, [], ◌∷◌, unsigned_abs};
ghost use Rattle.sim_session.specs.Texts.{base_point};
ghost use Rattle.sim_session.specs.declared.drawn.TheConstants.{MOST_CLOCK, MOST_OFFSET};

use crate::receiver::Receiver;

/// 6,378,137 m in units of 0.1 mm.
const EQUATOR: i64 = 63_781_370_000;

pub fn base_receiver(clock: i64) -> Receiver
    requires { unsigned_abs clock ≤ MOST_CLOCK }
    ensures point { result.point ≡ base_point }
    ensures clock { result.clock ≡ clock }
{
    Receiver {
        point: [EQUATOR, 0, 0],
        clock,
    }
}

/// The rover, which lies off the base by x, y and z mm.
pub fn rover_receiver(x: i64, y: i64, z: i64, clock: i64) -> Receiver
    requires x { unsigned_abs x ≤ MOST_OFFSET }
    requires y { unsigned_abs y ≤ MOST_OFFSET }
    requires z { unsigned_abs z ≤ MOST_OFFSET }
    requires clock { unsigned_abs clock ≤ MOST_CLOCK }
    ensures point { result.point
        ≡ (pos 63781370000 +ℤ (pos 10 *ℤ x)) ∷ (pos 10 *ℤ y) ∷ (pos 10 *ℤ z) ∷ [] }
    ensures clock { result.clock ≡ clock }
{
    Receiver {
        point: [EQUATOR + 10 * x, 10 * y, 10 * z],
        clock,
    }
}
