//! The text of `sim run`.
ghost use Rattle.std.specs.Prelude.{◌≡◌, IfOk, string_bytes};
ghost use Rattle.sim_jobs.specs.SimRunJobs.{verdict_word, integers_of, match_word, made_line, found_lines, run_text};

use cert_data::Answer;
use obs_rows::{fine_signals, integer_count};
use report_text::is_fixed;
use std::alloc::{AllocError, Global};

fn verdict_word(answer: &Answer) -> &'static str
    ensures { result.now ≡ verdict_word answer.now }
{
    if is_fixed(answer) {
        "fixed"
    } else {
        "declined"
    }
}

fn integers_of(answer: &Answer) -> usize
    ensures { result ≡ integers_of answer.now }
{
    match answer {
        Answer::Full(cert) => {
            let signals = fine_signals(cert.session.signals);
            integer_count(cert.session.arcs.as_slice(), signals)
        }
        _ => 0,
    }
}

fn match_word(matched: bool) -> &'static str
    ensures { result.now ≡ match_word matched }
{
    if matched { "yes" } else { "no" }
}

fn made_line(alloc: Global, seed: u32, epochs: u32, sats: u32) -> Result<String, AllocError>
    ensures { IfOk result (λ text. string_bytes text ≡ made_line seed epochs sats) }
{
    format!(in alloc; "sim seed {seed} epochs {epochs} sats {sats}\n")
}

fn found_lines(alloc: Global, answer: &Answer, matched: bool) -> Result<String, AllocError>
    ensures { IfOk result (λ text. string_bytes text ≡ found_lines answer.now matched) }
{
    let verdict = verdict_word(answer);
    let integers = integers_of(answer);
    let word = match_word(matched);
    format!(in alloc; "verdict {verdict}\nintegers {integers}\nmatch {word}\n")
}

/// The four lines about a session that was made with these numbers.
pub fn run_text(
    alloc: Global,
    seed: u32,
    epochs: u32,
    sats: u32,
    answer: &Answer,
    matched: bool,
) -> Result<Vec<u8>, AllocError>
    ensures { IfOk result (λ text. text.items ≡ run_text seed epochs sats answer.now matched) }
{
    let mut text = made_line(alloc, seed, epochs, sats)?.into_bytes();
    let found = found_lines(alloc, answer, matched)?;
    text.extend_from_slice(found.as_bytes())?;
    Ok(text)
}
