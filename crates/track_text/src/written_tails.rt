//! The tail of the certificate of a track, written.
ghost use Rattle.std.specs.Prelude.{◌≡◌, ◌++◌, ◌∷◌, [], OnOk, length};
ghost use Rattle.cert_words.specs.Spelling.{text_of_lines};
ghost use Rattle.cert_lines.specs.Lines.{decision_line};
ghost use Rattle.track_text.specs.Lengths.{AreTriples, AreWholeTrackVectors, IsWholeTrackTail};
ghost use Rattle.track_text.specs.Spelling.{move_line, move_lines, track_vectors_lines, track_tail_lines};

use cert_data::{TwoBest, name_of_place};
use cert_lines::{
    FormValues, push_count_line, push_decision_line, push_named_line, push_values_line,
    push_vector_line, push_weak_line,
};
use cert_words::{push_number, push_numbers};
use obs_rows::PairRows;
use std::alloc::AllocError;
use track_data::{TrackCert, TrackTail};

// Appends the line of a pair's move.
fn push_move_line(out: &mut Vec<u8>, number: u32, moved: &[i64; 3]) -> Result<(), AllocError>
    ensures text { OnOk result
        (out.new.items ≡ out.old.items ++ text_of_lines (move_line number moved.now ∷ [])) }
    ensures whole { length moved.now ≡ 3 }
{
    out.extend_from_slice(b"move")?;
    push_number(out, number)?;
    push_numbers(out, moved)?;
    out.push(b'\n')?;
    Ok(())
}

fn push_move_lines(
    out: &mut Vec<u8>,
    pairs: &[PairRows],
    moves: &[[i64; 3]],
) -> Result<(), AllocError>
    requires { length moves.now ≡ length pairs.now }
    ensures text { OnOk result
        (out.new.items ≡ out.old.items ++ text_of_lines (move_lines pairs.now moves.now)) }
    ensures whole { OnOk result (AreTriples moves.now) }
{
    for k in 0..pairs.len() {
        push_move_line(out, pairs[k].number, &moves[k])?;
    }
    Ok(())
}

// Appends the vectors, the moves and the values, and the last line.
fn push_vectors(
    out: &mut Vec<u8>,
    pairs: &[PairRows],
    h: u32,
    moves: &[[i64; 3]],
    best: &TwoBest,
    top: i128,
    fixed: bool,
) -> Result<(), AllocError>
    requires { length moves.now ≡ length pairs.now }
    ensures text { OnOk result (out.new.items ≡ out.old.items ++ text_of_lines
        (track_vectors_lines pairs.now h moves.now best.now top ++ decision_line fixed ∷ [])) }
    ensures whole { OnOk result (AreWholeTrackVectors moves.now best.now) }
{
    push_vector_line(out, b"z1", &best.first[..best.size])?;
    push_vector_line(out, b"z2", &best.second[..best.size])?;
    push_move_lines(out, pairs, moves)?;
    let values = FormValues {
        h,
        p1: best.p1,
        p2: best.p2,
        top,
    };
    push_values_line(out, values)?;
    push_decision_line(out, fixed)
}

/// Appends the tail of the certificate of a track.
pub(crate) fn push_tail(out: &mut Vec<u8>, cert: &TrackCert) -> Result<(), AllocError>
    ensures text { OnOk result (out.new.items
        ≡ out.old.items ++ text_of_lines (track_tail_lines cert.now.track.pairs cert.now.tail)) }
    ensures whole { OnOk result (IsWholeTrackTail cert.now.tail) }
{
    let pairs = cert.track.pairs.as_slice();
    match &cert.tail {
        TrackTail::Fixed {
            h,
            moves,
            best,
            top,
        } => push_vectors(out, pairs, *h, moves.as_slice(), best, *top, true),
        TrackTail::Unseparated {
            h,
            moves,
            best,
            top,
        } => push_vectors(out, pairs, *h, moves.as_slice(), best, *top, false),
        TrackTail::Weak { column, pivot } => push_weak_line(out, b"declined weak", *column, *pivot),
        TrackTail::Overwidth { place } => {
            push_named_line(out, b"declined overwidth ", name_of_place(*place))
        }
        TrackTail::Spent { budget } => push_count_line(out, b"declined spent", *budget),
    }
}
