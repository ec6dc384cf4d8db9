//! The tail of a certificate, written.
ghost use Rattle.std.specs.Prelude.{◌≡◌, ◌++◌, ◌∷◌, [], OnOk};
ghost use Rattle.cert_words.specs.Spelling.{text_of_lines};
ghost use Rattle.cert_lines.specs.Lines.{decision_line};
ghost use Rattle.cert_text.specs.Lengths.{AreWholeVectors, IsWholeTail};
ghost use Rattle.cert_text.specs.Spelling.{vectors_lines, unsettled_line, tail_lines};

use cert_data::{Tail, TwoBest, name_of_place};
use cert_lines::{
    FormValues, push_count_line, push_decision_line, push_named_line, push_values_line,
    push_vector_line, push_weak_line,
};
use std::alloc::AllocError;

// Appends the vectors, the move and the values, and the last line.
fn push_vectors(
    out: &mut Vec<u8>,
    h: u32,
    moved: &[i64; 3],
    best: &TwoBest,
    top: i128,
    fixed: bool,
) -> Result<(), AllocError>
    ensures text { OnOk result (out.new.items ≡ out.old.items
        ++ text_of_lines (vectors_lines h moved.now best.now top ++ decision_line fixed ∷ [])) }
    ensures whole { OnOk result (AreWholeVectors moved.now best.now) }
{
    push_vector_line(out, b"z1", &best.first[..best.size])?;
    push_vector_line(out, b"z2", &best.second[..best.size])?;
    push_vector_line(out, b"move", moved)?;
    let values = FormValues {
        h,
        p1: best.p1,
        p2: best.p2,
        top,
    };
    push_values_line(out, values)?;
    push_decision_line(out, fixed)
}

fn push_unsettled_line(out: &mut Vec<u8>, entry: i64) -> Result<(), AllocError>
    ensures { OnOk result
        (out.new.items ≡ out.old.items ++ text_of_lines (unsettled_line entry ∷ [])) }
{
    push_vector_line(out, b"declined unsettled fine", &[entry])
}

/// Appends the tail of a certificate.
pub(crate) fn push_tail(out: &mut Vec<u8>, tail: &Tail) -> Result<(), AllocError>
    ensures text { OnOk result
        (out.new.items ≡ out.old.items ++ text_of_lines (tail_lines tail.now)) }
    ensures whole { OnOk result (IsWholeTail tail.now) }
{
    match tail {
        Tail::Fixed {
            h,
            moved,
            best,
            top,
        } => push_vectors(out, *h, moved, best, *top, true),
        Tail::Unseparated {
            h,
            moved,
            best,
            top,
        } => push_vectors(out, *h, moved, best, *top, false),
        Tail::Weak { column, pivot } => push_weak_line(out, b"declined weak fine", *column, *pivot),
        Tail::Overwidth { place } => {
            push_named_line(out, b"declined overwidth fine ", name_of_place(*place))
        }
        Tail::Unsettled { entry } => push_unsettled_line(out, *entry),
        Tail::Spent { budget } => push_count_line(out, b"declined spent", *budget),
    }
}
