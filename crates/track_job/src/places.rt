//! The lines of the tracked pairs.
ghost use Rattle.std.specs.Prelude.{◌≡◌, ◌^◌, ◌++◌, OnOk, All, length};
ghost use Rattle.obs_rows.specs.Ranges.{IsPoint, IsBelow};
ghost use Rattle.cert_data.specs.Tails.{IsMove};
ghost use Rattle.report_text.specs.Baselines.{baseline_of};
ghost use Rattle.track_job.specs.TrackTexts.{pair_place_line, place_lines};

use obs_rows::PairRows;
use report_text::push_place;
use std::alloc::{AllocError, Global};

fn push_pair_place(
    alloc: Global,
    text: &mut Vec<u8>,
    number: u32,
    point: &[i64; 3],
    base: &[i64; 3],
    moved: &[i64; 3],
) -> Result<(), AllocError>
    requires point { IsPoint point.now }
    requires base { IsPoint base.now }
    requires moved { All (IsBelow (2 ^ 46)) moved.now }
    ensures { OnOk result (text.new.items
        ≡ text.old.items ++ pair_place_line number (baseline_of point.now base.now moved.now)) }
{
    let words = format!(in alloc; "place {number}")?;
    push_place(alloc, text, words.as_str(), point, base, moved)
}

/// Appends a line for each tracked pair: its number, and how far the rover lies from the base.
pub(crate) fn push_places(
    alloc: Global,
    text: &mut Vec<u8>,
    base: &[i64; 3],
    pairs: &[PairRows],
    points: &[[i64; 3]],
    moves: &[[i64; 3]],
) -> Result<(), AllocError>
    requires base { IsPoint base.now }
    requires point_each { length points.now ≡ length pairs.now }
    requires points { All IsPoint points.now }
    requires move_each { length moves.now ≡ length pairs.now }
    requires moves { All IsMove moves.now }
    ensures { OnOk result
        (text.new.items ≡ text.old.items ++ place_lines base.now pairs.now points.now moves.now) }
{
    for k in 0..pairs.len() {
        push_pair_place(alloc, text, pairs[k].number, &points[k], base, &moves[k])?;
    }
    Ok(())
}
