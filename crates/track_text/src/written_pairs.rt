//! The pairs of a track with their points, written.
ghost use Rattle.std.specs.Prelude.{◌≡◌, ◌++◌, OnOk, All, length};
ghost use Rattle.cert_words.specs.Spelling.{text_of_lines};
ghost use Rattle.obs_rows.specs.Signals.{fine_signals};
ghost use Rattle.cert_lines.specs.Lengths.{IsWholePair};
ghost use Rattle.track_text.specs.Lengths.{AreTriples};
ghost use Rattle.track_text.specs.Spelling.{placed_pair_lines, all_placed_pairs, counted_placed_pairs};

use cert_lines::{push_count_line, push_pair_head, push_row_lines, push_vector_line};
use obs_rows::{PairRows, Signals};
use std::alloc::AllocError;

// Appends a pair, its point and its rows.
fn push_placed_pair(
    out: &mut Vec<u8>,
    signals: Signals,
    pair: &PairRows,
    point: &[i64; 3],
) -> Result<(), AllocError>
    ensures text { OnOk result (out.new.items ≡ out.old.items
        ++ text_of_lines (placed_pair_lines (fine_signals signals) pair.now point.now)) }
    ensures whole { OnOk result (IsWholePair pair.now) }
    ensures point { length point.now ≡ 3 }
{
    push_pair_head(out, pair)?;
    push_vector_line(out, b"at", point)?;
    push_row_lines(out, signals, pair.rows.as_slice())
}

fn push_all_pairs(
    out: &mut Vec<u8>,
    signals: Signals,
    pairs: &[PairRows],
    points: &[[i64; 3]],
) -> Result<(), AllocError>
    requires { length points.now ≡ length pairs.now }
    ensures text { OnOk result (out.new.items ≡ out.old.items
        ++ text_of_lines (all_placed_pairs (fine_signals signals) pairs.now points.now)) }
    ensures whole { OnOk result (All IsWholePair pairs.now) }
    ensures points { OnOk result (AreTriples points.now) }
{
    for k in 0..pairs.len() {
        push_placed_pair(out, signals, &pairs[k], &points[k])?;
    }
    Ok(())
}

/// Appends the number of pairs, and the pairs with their points and rows.
pub(crate) fn push_pairs(
    out: &mut Vec<u8>,
    signals: Signals,
    pairs: &[PairRows],
    points: &[[i64; 3]],
) -> Result<(), AllocError>
    requires { length points.now ≡ length pairs.now }
    ensures text { OnOk result (out.new.items ≡ out.old.items
        ++ text_of_lines (counted_placed_pairs (fine_signals signals) pairs.now points.now)) }
    ensures whole { OnOk result (All IsWholePair pairs.now) }
    ensures points { OnOk result (AreTriples points.now) }
{
    push_count_line(out, b"pairs", pairs.len() as u64)?;
    push_all_pairs(out, signals, pairs, points)
}
