//! The two texts of the end of a run.
ghost use Rattle.std.specs.Prelude.{◌≡◌, ◌^◌, ◌++◌, OnOk, All, codes};
ghost use Rattle.obs_rows.specs.Ranges.{IsBelow};
ghost use Rattle.report_text.specs.OutcomeText.{decline_line, answer_text, IsWholeAnswer, counts_text, delta_text, verdict_line, fixed_text, tail_text, verdict_text, outcome_text, is_fixed};

use crate::baselines::push_place;
use crate::declines::push_early;
use cert_data::{Answer, Cert, Outcome, Stage, Tail};
use cert_text::write_cert;
use obs_rows::Session;
use std::alloc::{AllocError, Global};

/// Appends the line of a decline that has one count: too few satellites, too many arcs, or no tracked pair.
pub fn push_decline(
    alloc: Global,
    text: &mut Vec<u8>,
    word: &str,
    count: u32,
) -> Result<(), AllocError>
    ensures { OnOk result (text.new.items ≡ text.old.items ++ decline_line word.now count) }
{
    let line = format!(in alloc; "declined {word} {count}\n")?;
    text.extend_from_slice(line.as_bytes())
}

// Appends the line of an early end.
fn push_early_line(
    alloc: Global,
    text: &mut Vec<u8>,
    stage: Stage,
    tail: &Tail,
) -> Result<(), AllocError>
    ensures { OnOk result
        (text.new.items ≡ text.old.items ++ answer_text (Answer.Early stage tail.now)) }
{
    text.extend_from_slice(b"declined ")?;
    push_early(alloc, text, stage, tail)?;
    text.extend_from_slice(b"\n")
}

// Appends the certificate, or why there is none.
fn write_answer(alloc: Global, out: &mut Vec<u8>, answer: &Answer) -> Result<(), AllocError>
    ensures text { OnOk result (out.new.items ≡ out.old.items ++ answer_text answer.now) }
    ensures whole { OnOk result (IsWholeAnswer answer.now) }
{
    match answer {
        Answer::Few { pairs } => push_decline(alloc, out, "few", *pairs),
        Answer::Arcs { free } => push_decline(alloc, out, "arcs", *free),
        Answer::Early { stage, tail } => push_early_line(alloc, out, *stage, tail),
        Answer::Full(cert) => write_cert(alloc, out, cert),
    }
}

/// Appends how many pairs were taken of how many, and how many arcs were kept.
pub fn push_counts(
    alloc: Global,
    text: &mut Vec<u8>,
    taken: u32,
    all: u32,
    kept: u32,
) -> Result<(), AllocError>
    ensures { OnOk result (text.new.items ≡ text.old.items ++ counts_text taken all kept) }
{
    let lines = format!(in alloc; "pairs {taken} of {all}\narcs {kept}\n")?;
    text.extend_from_slice(lines.as_bytes())
}

/// Appends that the antennas' deltas are not applied, where there are any.
pub fn push_delta(text: &mut Vec<u8>, delta: bool) -> Result<(), AllocError>
    ensures { OnOk result (text.new.items ≡ text.old.items ++ delta_text delta) }
{
    if delta {
        text.extend_from_slice(b"note antenna delta not applied\n")?;
    }
    Ok(())
}

/// Appends the last line: whether it is a fix.
pub fn push_verdict_line(text: &mut Vec<u8>, fixed: bool) -> Result<(), AllocError>
    ensures { OnOk result (text.new.items ≡ text.old.items ++ verdict_line fixed) }
{
    if fixed {
        text.extend_from_slice(b"verdict fixed\n")
    } else {
        text.extend_from_slice(b"verdict declined\n")
    }
}

fn push_declined(text: &mut Vec<u8>) -> Result<(), AllocError>
    ensures { OnOk result (text.new.items ≡ text.old.items ++ codes "verdict declined\n") }
{
    push_verdict_line(text, false)
}

// Appends the baseline of a fix, and that it is one.
fn push_fixed(
    alloc: Global,
    text: &mut Vec<u8>,
    session: &Session,
    moved: &[i64; 3],
) -> Result<(), AllocError>
    requires { All (IsBelow (2 ^ 46)) moved.now }
    ensures { OnOk result (text.new.items ≡ text.old.items ++ fixed_text session.now moved.now) }
{
    push_place(
        alloc,
        text,
        "baseline",
        &session.point,
        &session.base,
        moved,
    )?;
    push_verdict_line(text, true)?;
    Ok(())
}

// Appends what was decided on the rows of a session.
fn push_decided(alloc: Global, text: &mut Vec<u8>, cert: &Cert) -> Result<(), AllocError>
    ensures { OnOk result
        (text.new.items ≡ text.old.items ++ tail_text cert.now.session cert.now.tail) }
{
    match &cert.tail {
        Tail::Fixed { moved, .. } => push_fixed(alloc, text, &cert.session, moved),
        Tail::Unseparated { .. } => push_declined(text),
        Tail::Weak { .. } => push_declined(text),
        Tail::Overwidth { .. } => push_declined(text),
        Tail::Unsettled { .. } => push_declined(text),
        Tail::Spent { .. } => push_declined(text),
    }
}

fn push_verdict(alloc: Global, text: &mut Vec<u8>, answer: &Answer) -> Result<(), AllocError>
    ensures { OnOk result (text.new.items ≡ text.old.items ++ verdict_text answer.now) }
{
    match answer {
        Answer::Few { .. } => push_declined(text),
        Answer::Arcs { .. } => push_declined(text),
        Answer::Early { .. } => push_declined(text),
        Answer::Full(cert) => push_decided(alloc, text, cert),
    }
}

/// Appends what is printed of the end of a run: to `out` the certificate, or the line that says why there is none; to
/// `err` the numbers of pairs and arcs, the baseline of a fix, and the verdict. After an `Err` a part of the texts may
/// have been appended.
pub fn write_outcome(
    alloc: Global,
    out: &mut Vec<u8>,
    err: &mut Vec<u8>,
    outcome: &Outcome,
) -> Result<(), AllocError>
    ensures out { OnOk result (out.new.items ≡ out.old.items ++ answer_text outcome.now.answer) }
    ensures err { OnOk result (err.new.items ≡ err.old.items ++ outcome_text outcome.now) }
    ensures whole { OnOk result (IsWholeAnswer outcome.now.answer) }
{
    write_answer(alloc, out, &outcome.answer)?;
    push_counts(alloc, err, outcome.taken, outcome.all, outcome.kept)?;
    push_delta(err, outcome.delta)?;
    push_verdict(alloc, err, &outcome.answer)
}

/// Whether the run ends with a fix.
pub fn is_fixed(answer: &Answer) -> bool
    ensures { result ≡ is_fixed answer.now }
{
    match answer {
        Answer::Full(cert) => matches!(cert.tail, Tail::Fixed { .. }),
        _ => false,
    }
}
