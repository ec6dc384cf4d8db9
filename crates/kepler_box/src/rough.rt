//! Where a solution is looked for first. Nothing is claimed of it, so the sums may wrap.
use iv_core::signed_upper_half;
use trig_box::rough_pair;

/// The next angle by Newton's rule, from a rough pair. `means` and `shapes` are the sums of the ends of the mean anomaly's box
/// and of the eccentricity's, so that the right side's middle is meant. The change is in units of 2^-60, so that only the last sum
/// is rounded. It ensures nothing, since its sums may wrap: what an angle leads to is tested.
pub fn rough_step(means: i64, shapes: i64, angle: i64) -> i64 {
    let (cos, sin) = rough_pair(angle);
    let apart = means.wrapping_sub(angle.wrapping_mul(2));
    let change = apart
        .wrapping_mul(8)
        .wrapping_add(signed_upper_half(shapes, sin).wrapping_mul(2));
    let pull = signed_upper_half(shapes, cos) << 5;
    angle.wrapping_add(drawn_out(change, pull).wrapping_add(8) >> 4)
}

// change / (1 - pull), by three terms more; pull is in units of 2^-64
fn drawn_out(change: i64, pull: i64) -> i64 {
    let first = change.wrapping_add(signed_upper_half(change, pull));
    let second = change.wrapping_add(signed_upper_half(first, pull));
    change.wrapping_add(signed_upper_half(second, pull))
}

// e sin M and e cos M in units of 2^-64, of which the solution is made: E - M is the x with x = e sin M cos x + e cos M sin x.
#[derive(Clone, Copy)]
struct Pulls {
    sin: i64,
    cos: i64,
}

// Newton's rule for x in units of 2^-64, by the first terms of its cosine and its sine: to some 10^-9
fn nearer_offset(pulls: &Pulls, x: i64) -> i64 {
    let square = signed_upper_half(x, x);
    let sin = x.wrapping_sub(signed_upper_half(x, square / 6));
    let change = pulls
        .sin
        .wrapping_sub(signed_upper_half(pulls.sin, square >> 1))
        .wrapping_add(signed_upper_half(pulls.cos, sin))
        .wrapping_sub(x);
    let pull = pulls.cos.wrapping_sub(signed_upper_half(pulls.sin, x));
    let first = change.wrapping_add(signed_upper_half(change, pull));
    x.wrapping_add(change.wrapping_add(signed_upper_half(first, pull)))
}

// Newton's rule for x by as many terms as change it
fn last_offset(pulls: &Pulls, x: i64) -> i64 {
    let square = signed_upper_half(x, x);
    let fourth = signed_upper_half(square, square);
    let sixth = signed_upper_half(fourth, square);
    let less = (square >> 1)
        .wrapping_sub(fourth / 24)
        .wrapping_add(sixth / 720);
    let share = (square / 6)
        .wrapping_sub(fourth / 120)
        .wrapping_add(sixth / 5040);
    let sin = x.wrapping_sub(signed_upper_half(x, share));
    let change = pulls
        .sin
        .wrapping_sub(signed_upper_half(pulls.sin, less))
        .wrapping_add(signed_upper_half(pulls.cos, sin))
        .wrapping_sub(x);
    let pull = pulls
        .cos
        .wrapping_sub(signed_upper_half(pulls.cos, less))
        .wrapping_sub(signed_upper_half(pulls.sin, sin));
    let drawn = drawn_out(change, pull);
    x.wrapping_add(change.wrapping_add(signed_upper_half(drawn, pull)))
}

/// About the solution by one rough pair, that of the mean anomaly: a third of the work of three steps, which end at the same angle or
/// the next. `shapes` is the sum of the ends of the eccentricity's box. It ensures nothing either.
pub fn rough_solution(shapes: i64, mean: i64) -> i64 {
    let (cos, sin) = rough_pair(mean);
    let pulls = Pulls {
        sin: signed_upper_half(shapes << 5, sin),
        cos: signed_upper_half(shapes << 5, cos),
    };
    let first = pulls
        .sin
        .wrapping_add(signed_upper_half(pulls.sin, pulls.cos));
    let x = last_offset(&pulls, nearer_offset(&pulls, first));
    mean.wrapping_add(x.wrapping_add(128) >> 8)
}
