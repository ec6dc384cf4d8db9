//! The baseline of a fix.
ghost use Rattle.std.specs.Prelude.{◌≡◌, ◌^◌, ◌<◌, ◌≤◌, ◌-ℤ◌, ◌++◌, unsigned_abs, All, OnOk};
ghost use Rattle.obs_rows.specs.Ranges.{IsPoint, IsBelow, IsWithin};
ghost use Rattle.obs_rows.specs.declared.limits.TheConstants.{MOST_COORDINATE};
ghost use Rattle.report_text.specs.Baselines.{in_tenths, from_base, baseline_of, metres_behind_blanks, place_line};

use cert_data::MOVE_DIVISOR;
use decimal_text::write_fixed;
use obs_rows::LIGHT_SPEED;
use std::alloc::{AllocError, Global};
use whole_math::nearest;

// A number of a move in 0.1 mm.
fn in_tenths(number: i64) -> i64
    requires { IsBelow (2 ^ 46) number }
    ensures value { result ≡ in_tenths number }
    ensures size { unsigned_abs result < 2 ^ 44 }
{
    nearest(number as i128 * LIGHT_SPEED as i128, MOVE_DIVISOR) as i64
}

fn coordinate_difference(point: i64, base: i64) -> i64
    requires point { IsWithin MOST_COORDINATE point }
    requires base { IsWithin MOST_COORDINATE base }
    ensures value { result ≡ point -ℤ base }
    ensures size { unsigned_abs result ≤ 140_000_000_000 }
{
    point - base
}

// How far a coordinate of the moved point lies from the base's.
fn from_base(point: i64, base: i64, number: i64) -> i64
    requires point { IsWithin MOST_COORDINATE point }
    requires base { IsWithin MOST_COORDINATE base }
    requires number { IsBelow (2 ^ 46) number }
    ensures { result ≡ from_base point base number }
{
    coordinate_difference(point, base) + in_tenths(number)
}

// The point moved, less the base.
fn baseline_of(point: &[i64; 3], base: &[i64; 3], moved: &[i64; 3]) -> [i64; 3]
    requires point { IsPoint point.now }
    requires base { IsPoint base.now }
    requires moved { All (IsBelow (2 ^ 46)) moved.now }
    ensures { result ≡ baseline_of point.now base.now moved.now }
{
    let x = from_base(point[0], base[0], moved[0]);
    let y = from_base(point[1], base[1], moved[1]);
    let z = from_base(point[2], base[2], moved[2]);
    [x, y, z]
}

fn push_metres(alloc: Global, text: &mut Vec<u8>, lengths: &[i64]) -> Result<(), AllocError>
    ensures { OnOk result (text.new.items ≡ text.old.items ++ metres_behind_blanks lengths.now) }
{
    for length in lengths {
        text.push(b' ')?;
        write_fixed(alloc, text, *length, 4)?;
    }
    Ok(())
}

/// Appends a line: these words, and how far the moved point lies from the base along x, y and z, in metres with four
/// places. The points are in 0.1 mm, the move in 2^-5 ι. After an `Err` a part of the line may have been appended.
pub fn push_place(
    alloc: Global,
    text: &mut Vec<u8>,
    words: &str,
    point: &[i64; 3],
    base: &[i64; 3],
    moved: &[i64; 3],
) -> Result<(), AllocError>
    requires point { IsPoint point.now }
    requires base { IsPoint base.now }
    requires moved { All (IsBelow (2 ^ 46)) moved.now }
    ensures { OnOk result (text.new.items
        ≡ text.old.items ++ place_line words.now (baseline_of point.now base.now moved.now)) }
{
    let lengths = baseline_of(point, base, moved);
    text.extend_from_slice(words.as_bytes())?;
    push_metres(alloc, text, &lengths)?;
    text.push(b'\n')?;
    Ok(())
}
