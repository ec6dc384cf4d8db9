//! The parts of a certificate before its tail, written.
ghost use Rattle.std.specs.Prelude.{◌≡◌, ◌++◌, ◌∷◌, [], OnOk, All, length};
ghost use Rattle.cert_words.specs.Spelling.{text_of_lines};
ghost use Rattle.obs_rows.specs.Signals.{fine_signals};
ghost use Rattle.cert_lines.specs.Versions.{form_line};
ghost use Rattle.cert_lines.specs.declared.version.Version.TheVariants.{Two};
ghost use Rattle.cert_lines.specs.Lengths.{IsWholePair};
ghost use Rattle.cert_text.specs.Lengths.{IsWholeSession};
ghost use Rattle.cert_text.specs.Spelling.{head_lines, all_pair_lines, counted_pairs, session_lines};

use cert_lines::{
    push_arcs, push_count_line, push_pair_lines, push_signals_line, push_system_line,
    push_vector_line,
};
use obs_rows::{PairRows, Session, Signals};
use std::alloc::AllocError;

// Appends the first line.
fn push_form(out: &mut Vec<u8>) -> Result<(), AllocError>
    ensures { OnOk result (out.new.items ≡ out.old.items ++ text_of_lines (form_line Two ∷ [])) }
{
    out.extend_from_slice(b"baseline-cert 2\n")
}

// Appends what stands before the arcs.
fn push_head(
    out: &mut Vec<u8>,
    ratio: u32,
    budget: u64,
    system: u8,
    base: &[i64; 3],
    point: &[i64; 3],
    signals: Signals,
) -> Result<(), AllocError>
    ensures text { OnOk result (out.new.items ≡ out.old.items
        ++ text_of_lines (head_lines Two ratio budget system base.now point.now signals)) }
    ensures base { length base.now ≡ 3 }
    ensures point { length point.now ≡ 3 }
{
    push_form(out)?;
    push_count_line(out, b"ratio", ratio as u64)?;
    push_count_line(out, b"budget", budget)?;
    push_system_line(out, system)?;
    push_vector_line(out, b"base", base)?;
    push_vector_line(out, b"point", point)?;
    push_signals_line(out, signals)
}

fn push_all_pair_lines(
    out: &mut Vec<u8>,
    signals: Signals,
    pairs: &[PairRows],
) -> Result<(), AllocError>
    ensures text { OnOk result (out.new.items
        ≡ out.old.items ++ text_of_lines (all_pair_lines (fine_signals signals) pairs.now)) }
    ensures whole { OnOk result (All IsWholePair pairs.now) }
{
    for pair in pairs {
        push_pair_lines(out, signals, pair)?;
    }
    Ok(())
}

// Appends the number of pairs, and the pairs with their rows.
fn push_pairs(out: &mut Vec<u8>, signals: Signals, pairs: &[PairRows]) -> Result<(), AllocError>
    ensures text { OnOk result (out.new.items
        ≡ out.old.items ++ text_of_lines (counted_pairs (fine_signals signals) pairs.now)) }
    ensures whole { OnOk result (All IsWholePair pairs.now) }
{
    push_count_line(out, b"pairs", pairs.len() as u64)?;
    push_all_pair_lines(out, signals, pairs)
}

/// Appends what stands before the tail.
pub(crate) fn push_session(
    out: &mut Vec<u8>,
    ratio: u32,
    budget: u64,
    session: &Session,
) -> Result<(), AllocError>
    ensures text { OnOk result (out.new.items
        ≡ out.old.items ++ text_of_lines (session_lines Two ratio budget session.now)) }
    ensures whole { OnOk result (IsWholeSession session.now) }
{
    push_head(
        out,
        ratio,
        budget,
        session.system,
        &session.base,
        &session.point,
        session.signals,
    )?;
    push_arcs(out, session.signals, session.arcs.as_slice())?;
    push_pairs(out, session.signals, session.pairs.as_slice())
}
