//! Where the residual of a row may lie, whatever the data in its boxes are.
ghost use Rattle.std.specs.Prelude.{◌≡◌, ◌+◌, ◌*◌, ◌^◌, ◌<◌, ◌≤◌, map, length, All, pos, ◌+ℤ◌, ◌-ℤ◌, ◌*ℤ◌, ◌≤ℤ◌, unsigned_abs, IfSome, IfOk, IfErr, OnErr};
ghost use Rattle.whole_math.specs.Rounding.{ceil_div};
ghost use Rattle.obs_rows.specs.declared.units.TheConstants.{MOST_FREE_ARCS};
ghost use Rattle.obs_rows.specs.Arcs.{free_count};
ghost use Rattle.obs_rows.specs.Ranges.{IsWithin, IsBelow};
ghost use Rattle.obs_rows.specs.Signals.{cycle};
ghost use Rattle.obs_rows.specs.CountedSignals.{AreCounted};
ghost use Rattle.obs_rows.specs.Integers.{integer_count};
ghost use Rattle.obs_rows.specs.Data.{number_at};
ghost use Rattle.obs_rows.specs.Best.{move_exponent};
ghost use Rattle.quadratic_form.specs.UpperSum.{size};
ghost use Rattle.fix_decide.specs.Reaches.{IsNarrow, extent};
ghost use Rattle.fix_decide.specs.UpperSums.{scalar_product, centre, rad};
ghost use Rattle.fix_decide.specs.RowReaches.{IsModest, row_reach, reach_at};

use crate::integers::{integer_at, integer_of};
use integer_form::{Overwidth, Place};
use obs_rows::{Arc, DIRECTION_EXPONENT, MOVE_EXPONENT, ROW_EXPONENT, Row, SIGNALS, WAVELENGTHS};
use whole_math::{ceil_shift, product};

/// A direction times a move is in 2^-16 of the unit of a row.
const FINER: u32 = MOVE_EXPONENT + DIRECTION_EXPONENT - ROW_EXPONENT;

/// A residual that may lie this far from 0 is refused.
const WIDE: i64 = 1 << 33;

/// A residual lies within `rad` of `centre`, in the unit of the rows.
#[derive(Clone, Copy, Debug, Default)]
pub(crate) struct ResidualBox {
    pub(crate) centre: i64,
    pub(crate) rad: i64,
}

/// What a move gives of a row, the same for each signal: how far it brings the row, and how far from its centre the
/// residual may lie, in the unit of the rows.
#[derive(Clone, Copy, Debug, Default)]
pub(crate) struct RowReach {
    pub(crate) advance: i64,
    pub(crate) rad: i64,
}

/// a + b
fn sum_of(a: i128, b: i128) -> i128
    requires a_size { unsigned_abs a ≤ 2 ^ 80 }
    requires b_size { unsigned_abs b ≤ 2 ^ 80 }
    ensures value { result ≡ a +ℤ b }
    ensures size { unsigned_abs result ≤ unsigned_abs a + unsigned_abs b }
{
    a + b
}

/// u · m
fn scalar_product(u: &[i64; 3], m: &[i64; 3]) -> i128
    requires u_size { All (IsWithin (2 ^ 24)) u.now }
    requires m_size { All (IsWithin (2 ^ 46)) m.now }
    ensures value { result ≡ scalar_product u.now m.now }
    ensures size { unsigned_abs result ≤ 3 * 2 ^ 70 }
{
    let rest = sum_of(product::<24, 46>(u[1], m[1]), product::<24, 46>(u[2], m[2]));
    sum_of(product::<24, 46>(u[0], m[0]), rest)
}

/// ⌈n / 2^16⌉
fn rounded_up(n: i128) -> i64
    requires { unsigned_abs n ≤ 2 ^ 72 }
    ensures value { result ≡ ceil_div n (2 ^ move_exponent) }
    ensures size { unsigned_abs result ≤ 2 ^ 56 }
{
    ceil_shift(n, FINER) as i64
}

/// ⌈u · m / 2^16⌉
fn rounded_product(u: &[i64; 3], m: &[i64; 3]) -> i64
    requires u_size { All (IsWithin (2 ^ 24)) u.now }
    requires m_size { All (IsWithin (2 ^ 46)) m.now }
    ensures value { result ≡ ceil_div (scalar_product u.now m.now) (2 ^ move_exponent) }
    ensures size { unsigned_abs result ≤ 2 ^ 56 }
{
    rounded_up(scalar_product(u, m))
}

/// |n|
pub(crate) fn size(n: i64) -> i64
    requires { unsigned_abs n ≤ 2 ^ 62 }
    ensures { result ≡ size n }
{
    n.abs()
}

/// The sizes of the three numbers.
fn sizes(m: &[i64; 3]) -> [i64; 3]
    requires { All (IsWithin (2 ^ 46)) m.now }
    ensures value { result ≡ map size m.now }
    ensures from { All (λ x. pos 0 ≤ℤ x) result }
    ensures size { All (IsWithin (2 ^ 46)) result }
{
    [size(m[0]), size(m[1]), size(m[2])]
}

/// λ · N in the unit of the rows.
fn cycles(signal: usize, integer: i64) -> i64
    requires signal { signal < SIGNALS }
    requires size { unsigned_abs integer ≤ 2 ^ 30 }
    ensures value { result ≡ cycle signal *ℤ integer }
    ensures size { unsigned_abs result ≤ 2 ^ 55 }
{
    WAVELENGTHS[signal] * (1 << ROW_EXPONENT) * integer
}

/// The residual of the centres of a row's boxes, rounded down, where a move brings the row so far.
///
/// y is whole in the unit of the rows, so ⌊y - u · m / 2^16⌋ is y - ⌈u · m / 2^16⌉.
fn centre_at(row: &Row, signal: usize, advance: i64, integer: i64) -> i64
    requires signal { signal < SIGNALS }
    requires advance_size { unsigned_abs advance ≤ 2 ^ 56 }
    requires integer_size { unsigned_abs integer ≤ 2 ^ 30 }
    ensures value { result ≡ (number_at row.now.y signal -ℤ advance) -ℤ (cycle signal *ℤ integer) }
    ensures size { unsigned_abs result ≤ 2 ^ 57 }
{
    row.y[signal] - advance - cycles(signal, integer)
}

/// The residual of the centres of the boxes, rounded down, in the unit of the rows, at the integers z of these signals and a
/// move in 2^-5 ι.
pub fn centre_of(
    arcs: &[Arc],
    signals: &[usize],
    z: &[i64],
    moved: &[i64; 3],
    row: &Row,
    signal: usize,
) -> i64
    requires arc { row.now.arc < length arcs.now }
    requires signal { signal < SIGNALS }
    requires free { free_count arcs.now ≤ MOST_FREE_ARCS }
    requires counted { AreCounted signals.now }
    requires entries { length z.now ≡ integer_count arcs.now signals.now }
    requires z_size { All (IsBelow (2 ^ 30)) z.now }
    requires moved_size { All (IsWithin (2 ^ 46)) moved.now }
    ensures value { result ≡ centre arcs.now signals.now z.now moved.now signal row.now }
    ensures size { unsigned_abs result ≤ 2 ^ 57 }
{
    let integer = integer_of(arcs, signals, z, row.arc as usize, signal);
    centre_at(row, signal, rounded_product(&row.u, moved), integer)
}

/// How far from there the residual may lie.
fn radius_of(moved: &[i64; 3], row: &Row) -> i64
    requires { All (IsWithin (2 ^ 46)) moved.now }
    ensures value { result ≡ rad moved.now row.now }
    ensures from { pos 0 ≤ℤ result }
    ensures to { result ≤ℤ pos (2 ^ 57) }
{
    row.ry + rounded_product(&row.ru, &sizes(moved)) + 1
}

/// What a move gives of a row.
pub(crate) fn row_reach(moved: &[i64; 3], row: &Row) -> RowReach
    requires { All (IsWithin (2 ^ 46)) moved.now }
    ensures value { result ≡ row_reach moved.now row.now }
    ensures modest { IsModest result }
{
    RowReach {
        advance: rounded_product(&row.u, moved),
        rad: radius_of(moved, row),
    }
}

/// Where the residual of a row may lie, as a signal sees it whose integer has this place.
pub(crate) fn reach_at(
    row: &Row,
    moved: RowReach,
    z: &[i64],
    place: Option<usize>,
    signal: usize,
) -> Result<ResidualBox, Overwidth>
    requires moved { IsModest moved }
    requires within { IfSome place (λ i. i < length z.now) }
    requires signal { signal < SIGNALS }
    requires z_size { All (IsBelow (2 ^ 30)) z.now }
    ensures value { IfOk result (λ p. p ≡ reach_at z.now signal row.now moved place) }
    ensures narrow { IfOk result IsNarrow }
    ensures place { IfErr result (λ e. e.place ≡ Place.Sum) }
    ensures wide { OnErr result
        (pos (2 ^ 33) ≤ℤ extent (reach_at z.now signal row.now moved place)) }
{
    let centre = centre_at(row, signal, moved.advance, integer_at(z, place));
    if size(centre) + moved.rad >= WIDE {
        return Err(Overwidth { place: Place::Sum });
    }
    Ok(ResidualBox {
        centre,
        rad: moved.rad,
    })
}
