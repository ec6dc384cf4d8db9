//! The bound of a session's vector.
ghost use Rattle.std.specs.Prelude.{◌≡◌, ◌+◌, ◌^◌, ◌≤◌, length, All, ℤ, pos, ◌*ℤ◌, ◌≤ℤ◌, unsigned_abs, IfSome, IsNone};
ghost use Rattle.obs_rows.specs.Ranges.{IsBelow};
ghost use Rattle.obs_rows.specs.Signals.{fine_signals};
ghost use Rattle.obs_rows.specs.Integers.{integer_count};
ghost use Rattle.vector_bound.specs.VectorBounds.{KeepsSessionNear, StaysWithin, IsVectorBound, IsSessionBound, LacksSessionBound};
ghost use Rattle.vector_bound.specs.VectorBounds.{FitsWords, IsInHundredths, move_units, hundredths_of_mm};

use crate::kept::curvature;
use crate::reaches::least_reach;
use crate::slacks::slack;
use crate::slopes::steepness;
use normal_sum::{Normal, sum};
use obs_rows::Session;
use whole_math::ceil;

/// The bound, from the normal matrix of the rows. `None` where there is none, or a number on the way to it doesn't fit.
pub(crate) fn bound_of(
    normal: &Normal,
    h: u32,
    z: &[i64],
    moved: &[i64; 3],
    top: i128,
) -> Option<i64>
    requires few { h ≤ 80 }
    requires columns { normal.now.columns ≡ 4 + length z.now }
    requires z_size { All (IsBelow (2 ^ 30)) z.now }
    requires moved_size { All (IsBelow (2 ^ 46)) moved.now }
    ensures value { IfSome result (IsVectorBound normal.now h z.now moved.now top) }
    ensures none { IsNone result → FitsWords normal.now h z.now moved.now top →
        (x : ℤ) → IsVectorBound normal.now h z.now moved.now top x → ⊥ }
{
    let mu = curvature(normal, h)?;
    let steep = steepness(normal, h, z, moved)?;
    let more = slack(normal, h, moved, top)?;
    least_reach(mu, steep, more)
}

/// How far, in 2^-5 ι, the least-squares baseline of a fine session's data may lie from a move in any coordinate, with these
/// integers: whatever the data in the boxes are, no rational baseline that is farther has a sum of squares that is at most that
/// of the move. It is so where `top` bounds that of the move in units of 2^h, as the `top` of a `Decision` does. `None` only
/// where the geometry gives no bound up to 2^30, or a number on the way to it isn't of its size (`FitsWords` lists them).
pub fn move_bound(session: &Session, h: u32, z: &[i64], moved: &[i64; 3], top: i128) -> Option<i64>
    requires fine { session.now.scale ≡ 0 }
    requires few { h ≤ 77 }
    requires entries { length z.now ≡
        integer_count session.now.arcs (fine_signals session.now.signals) }
    requires z_size { All (IsBelow (2 ^ 30)) z.now }
    requires moved_size { All (IsBelow (2 ^ 46)) moved.now }
    ensures near { StaysWithin session.now h z.now moved.now top →
        IfSome result (λ x. KeepsSessionNear session.now z.now moved.now (move_units x)) }
    ensures value { IfSome result (IsSessionBound session.now h z.now moved.now top) }
    ensures none { IsNone result → LacksSessionBound session.now h z.now moved.now top }
{
    let normal = sum(session);
    bound_of(&normal, h, z, moved, top)
}

/// Units of 2^-5 ι as hundredths of a millimetre, rounded up.
pub(crate) fn in_hundredths(units: i64) -> i64
    requires from { pos 0 ≤ℤ units }
    requires to { units ≤ℤ pos (2 ^ 30) }
    ensures rounded { IsInHundredths units result }
    ensures size { unsigned_abs result ≤ 2 ^ 60 }
{
    ceil(units as i128 * 299_792_458, 695_705_472) as i64
}

/// The same in hundredths of a millimetre, rounded up: how far, in each coordinate, the least-squares vector of any data in the
/// boxes may lie from this move's, which is printed rounded to 0.1 mm.
pub fn vector_bound(
    session: &Session,
    h: u32,
    z: &[i64],
    moved: &[i64; 3],
    top: i128,
) -> Option<i64>
    requires fine { session.now.scale ≡ 0 }
    requires few { h ≤ 77 }
    requires entries { length z.now ≡
        integer_count session.now.arcs (fine_signals session.now.signals) }
    requires z_size { All (IsBelow (2 ^ 30)) z.now }
    requires moved_size { All (IsBelow (2 ^ 46)) moved.now }
    ensures near { StaysWithin session.now h z.now moved.now top →
        IfSome result (λ y. KeepsSessionNear session.now z.now moved.now (hundredths_of_mm y)) }
    ensures value { IfSome result (λ y. (units : ℤ) ×
        (IsSessionBound session.now h z.now moved.now top units × IsInHundredths units y)) }
    ensures none { IsNone result → LacksSessionBound session.now h z.now moved.now top }
{
    let units = move_bound(session, h, z, moved, top)?;
    Some(in_hundredths(units))
}
