//! The lines, written.
ghost use Rattle.std.specs.Prelude.{◌≡◌, ◌++◌, ◌∷◌, [], OnOk, All, length};
ghost use Rattle.cert_words.specs.Spelling.{text_of_lines};
ghost use Rattle.obs_rows.specs.Signals.{fine_signals};
ghost use Rattle.cert_lines.specs.declared.version.Version.TheVariants.{Two};
ghost use Rattle.cert_lines.specs.Lines.{count_line, vector_line, system_line, signals_line, arc_line, arc_lines, counted_arcs, kind_text, row_line, row_lines, pair_line, pair_lines};
ghost use Rattle.cert_lines.specs.Lengths.{IsWholeArc, IsWholeRow, IsWholePair};

use crate::places::push_selected;
use cert_words::{push_number, push_numbers};
use obs_rows::{Arc, PairRows, Row, Signals, fine_signals, phase_bands};
use std::alloc::AllocError;

/// Appends a line of a word and one number that isn't below 0.
pub fn push_count_line(out: &mut Vec<u8>, word: &[u8], number: u64) -> Result<(), AllocError>
    ensures { OnOk result
        (out.new.items ≡ out.old.items ++ text_of_lines (count_line word.now number ∷ [])) }
{
    out.extend_from_slice(word)?;
    push_number(out, number)?;
    out.push(b'\n')?;
    Ok(())
}

/// Appends a line of a word and numbers.
pub fn push_vector_line(out: &mut Vec<u8>, word: &[u8], numbers: &[i64]) -> Result<(), AllocError>
    ensures { OnOk result
        (out.new.items ≡ out.old.items ++ text_of_lines (vector_line word.now numbers.now ∷ [])) }
{
    out.extend_from_slice(word)?;
    push_numbers(out, numbers)?;
    out.push(b'\n')?;
    Ok(())
}

/// Appends the line of the system.
pub fn push_system_line(out: &mut Vec<u8>, system: u8) -> Result<(), AllocError>
    ensures { OnOk result
        (out.new.items ≡ out.old.items ++ text_of_lines (system_line system ∷ [])) }
{
    out.extend_from_slice(b"system")?;
    out.extend_from_slice(&[b' ', system, b'\n'])
}

/// Appends the line of the signals' letters.
pub fn push_signals_line(out: &mut Vec<u8>, signals: Signals) -> Result<(), AllocError>
    ensures { OnOk result (out.new.items
        ≡ out.old.items ++ text_of_lines (signals_line Two signals.l1 signals.l2 signals.l5 ∷ [])) }
{
    let Signals { l1, l2, l5 } = signals;
    if l5 == 0 {
        out.extend_from_slice(b"signals 12")?;
        return out.extend_from_slice(&[b' ', l1, b' ', l2, b'\n']);
    }
    if l2 == 0 {
        out.extend_from_slice(b"signals 15")?;
        return out.extend_from_slice(&[b' ', l1, b' ', l5, b'\n']);
    }
    out.extend_from_slice(b"signals 125")?;
    out.extend_from_slice(&[b' ', l1, b' ', l2, b' ', l5, b'\n'])
}

/// Appends the line of an arc, whose shifts are as many as there are bands, with the shift of each band that is used.
/// Outside this crate it serves tests alone.
pub fn push_arc_line(out: &mut Vec<u8>, signals: Signals, arc: &Arc) -> Result<(), AllocError>
    ensures text { OnOk result (out.new.items
        ≡ out.old.items ++ text_of_lines (arc_line (fine_signals signals) arc.now ∷ [])) }
    ensures whole { OnOk result (IsWholeArc arc.now) }
{
    out.extend_from_slice(b"arc")?;
    push_number(out, arc.sat)?;
    push_number(out, arc.first)?;
    push_number(out, arc.last)?;
    out.extend_from_slice(kind_text(arc.datum))?;
    push_selected(out, phase_bands(signals), &arc.shift)?;
    out.push(b'\n')?;
    Ok(())
}

fn push_arc_lines(out: &mut Vec<u8>, signals: Signals, arcs: &[Arc]) -> Result<(), AllocError>
    ensures text { OnOk result (out.new.items
        ≡ out.old.items ++ text_of_lines (arc_lines (fine_signals signals) arcs.now)) }
    ensures whole { OnOk result (All IsWholeArc arcs.now) }
{
    for arc in arcs {
        push_arc_line(out, signals, arc)?;
    }
    Ok(())
}

/// Appends the number of arcs, and the arcs.
pub fn push_arcs(out: &mut Vec<u8>, signals: Signals, arcs: &[Arc]) -> Result<(), AllocError>
    ensures text { OnOk result (out.new.items
        ≡ out.old.items ++ text_of_lines (counted_arcs (fine_signals signals) arcs.now)) }
    ensures whole { OnOk result (All IsWholeArc arcs.now) }
{
    push_count_line(out, b"arcs", arcs.len() as u64)?;
    push_arc_lines(out, signals, arcs)
}

fn kind_text(datum: bool) -> &'static [u8]
    ensures { result.now ≡ kind_text datum }
{
    if datum { b" datum" } else { b" free" }
}

/// Appends the line of a row, whose arrays have their lengths, with the observation of each signal of the bands that are
/// used.
pub fn push_row_line(out: &mut Vec<u8>, signals: Signals, row: &Row) -> Result<(), AllocError>
    ensures text { OnOk result (out.new.items
        ≡ out.old.items ++ text_of_lines (row_line (fine_signals signals) row.now ∷ [])) }
    ensures whole { OnOk result (IsWholeRow row.now) }
{
    out.extend_from_slice(b"row")?;
    push_number(out, row.arc)?;
    push_selected(out, fine_signals(signals), &row.y)?;
    push_number(out, row.ry)?;
    push_numbers(out, &row.u)?;
    push_numbers(out, &row.ru)?;
    out.push(b'\n')?;
    Ok(())
}

/// Appends the lines of rows.
pub fn push_row_lines(out: &mut Vec<u8>, signals: Signals, rows: &[Row]) -> Result<(), AllocError>
    ensures text { OnOk result (out.new.items
        ≡ out.old.items ++ text_of_lines (row_lines (fine_signals signals) rows.now)) }
    ensures whole { OnOk result (All IsWholeRow rows.now) }
{
    for row in rows {
        push_row_line(out, signals, row)?;
    }
    Ok(())
}

/// Appends the line of a pair.
pub fn push_pair_head(out: &mut Vec<u8>, pair: &PairRows) -> Result<(), AllocError>
    ensures { OnOk result (out.new.items ≡ out.old.items ++ text_of_lines
        (pair_line pair.now.number pair.now.tag.0 pair.now.group (length pair.now.rows) ∷ [])) }
{
    out.extend_from_slice(b"pair")?;
    push_number(out, pair.number)?;
    push_number(out, pair.tag.0)?;
    push_number(out, pair.group)?;
    push_number(out, pair.rows.len())?;
    out.push(b'\n')?;
    Ok(())
}

/// Appends the lines of a pair: its own, and one for each row.
pub fn push_pair_lines(
    out: &mut Vec<u8>,
    signals: Signals,
    pair: &PairRows,
) -> Result<(), AllocError>
    ensures text { OnOk result (out.new.items
        ≡ out.old.items ++ text_of_lines (pair_lines (fine_signals signals) pair.now)) }
    ensures whole { OnOk result (IsWholePair pair.now) }
{
    push_pair_head(out, pair)?;
    push_row_lines(out, signals, pair.rows.as_slice())
}
