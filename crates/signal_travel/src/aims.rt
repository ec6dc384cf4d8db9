//! About how long a signal travels. Nothing is claimed of it, so its sums may wrap: it is only where the passes begin.

use crate::sent::{Point, SentBox};
use iv_core::{Iv, signed_upper_half};

// The Earth's rate over the speed of light in rad/m, at 2^-102
const RATE_OVER_SPEED: i64 = 1_233_367_137_294_376_911;

// 2^90 over the speed of light
const PER_SPEED: i64 = 4_129_323_491_137_926_742;

// A place in 2^-26 m
#[derive(Clone, Copy)]
struct Rough {
    x: i64,
    y: i64,
    z: i64,
}

// About the middle of the box
fn middle_of(x: &Iv<36>) -> i64 {
    (x.lo >> 11) + (x.hi >> 11)
}

fn rough_place(sent: &SentBox) -> Rough {
    Rough {
        x: middle_of(&sent.place.x),
        y: middle_of(&sent.place.y),
        z: middle_of(&sent.place.z),
    }
}

fn rough_point(point: &Point) -> Rough {
    Rough {
        x: point.boxes.x.lo >> 10,
        y: point.boxes.y.lo >> 10,
        z: point.boxes.z.lo >> 10,
    }
}

// a · b in 2^-13 m², of a coordinate of a place and one of a point
fn area(a: i64, b: i64) -> i64 {
    signed_upper_half(a << 11, b << 14)
}

// (a − b)² in 2^-10 m²
fn squared_difference(a: i64, b: i64) -> i64 {
    let difference = a.wrapping_sub(b) << 11;
    signed_upper_half(difference, difference)
}

// |a − b|² in 2^-10 m²
fn squared_distance(a: &Rough, b: &Rough) -> i64 {
    squared_difference(a.x, b.x)
        .wrapping_add(squared_difference(a.y, b.y))
        .wrapping_add(squared_difference(a.z, b.z))
}

// An area in 2^-13 m² times the Earth's rate over the speed of light, in 2^-26 m
fn over_turn(area: i64) -> i64 {
    signed_upper_half(area, RATE_OVER_SPEED) >> 25
}

// 1/√s is about (a s + b) s + c, within a 120th of it for s from 0.3 to 0.78: a in 2^-61, b in 2^-59, c in 2^-57.
const SQUARE_TERM: i64 = 4_694_468_171_641_906_176;

const LINEAR_TERM: i64 = -2_071_190_245_937_620_224;

const FIRST_TERM: i64 = 389_891_758_260_353_920;

// About 1/√s in 2^-62, of s in 2^-62
fn first_inverse_root(s: i64) -> i64 {
    let slope = signed_upper_half(s, SQUARE_TERM).wrapping_add(LINEAR_TERM);
    signed_upper_half(s, slope).wrapping_add(FIRST_TERM) << 5
}

// About 1/√s from y, which is less near, by Newton's rule: y + y (1 − s y²)/2
fn nearer_inverse_root(s: i64, y: i64) -> i64 {
    let product = signed_upper_half(signed_upper_half(y, y), s);
    let missing = (1i64 << 58).wrapping_sub(product) << 5;
    y.wrapping_add(signed_upper_half(y, missing))
}

// About the root of s in 2^-60, of s in 2^-62: s/√s, and what is left of s over twice the root. There is no division, which would
// take as long as all of it.
fn rough_root(s: i64) -> i64 {
    let first = first_inverse_root(s);
    let second = nearer_inverse_root(s, first);
    let inverse = nearer_inverse_root(s, second);
    let root = signed_upper_half(s, inverse);
    let left = (s >> 6).wrapping_sub(signed_upper_half(root, root));
    root.wrapping_add(signed_upper_half(left << 28, inverse) >> 23)
}

// About the root of a square in 2^-10 m², in 2^-26 m: s is the square over 2^50 m².
fn rough_length(square: i64) -> i64 {
    rough_root(square << 2) >> 9
}

// The range in 2^-26 m with the Earth's turn in it to the second order: with a = ω (y p − x q) / c and b = ω (x p + y q) / c it is
// √(D² + a² + ω D² b / c) − a, where D is the distance without a turn.
fn range_between(a: &Rough, b: &Rough) -> i64 {
    let square = squared_distance(a, b);
    let across = over_turn(area(a.y, b.x).wrapping_sub(area(a.x, b.y)));
    let along = over_turn(area(a.x, b.x).wrapping_add(area(a.y, b.y)));
    // In 2^-62
    let share = signed_upper_half(along, RATE_OVER_SPEED) >> 2;
    let growth = signed_upper_half(square << 2, share);
    let turned = signed_upper_half(across << 10, across << 12);
    // Each of the five products is half a unit more on the mean.
    let whole = square
        .wrapping_add(turned)
        .wrapping_add(growth)
        .wrapping_add(2);
    rough_length(whole).wrapping_sub(across)
}

/// About the travel time in 2^-60 s. Nothing is claimed of it: the pass that begins there tests itself.
pub fn travel_guess(sent: &SentBox, point: &Point) -> i64 {
    let range = range_between(&rough_place(sent), &rough_point(point));
    signed_upper_half(range << 8, PER_SPEED)
}
