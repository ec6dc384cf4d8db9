//! The parts of the certificate of a track before its tail, written.
ghost use Rattle.std.specs.Prelude.{◌≡◌, ◌++◌, ◌∷◌, [], OnOk, length};
ghost use Rattle.cert_words.specs.Spelling.{text_of_lines};
ghost use Rattle.track_text.specs.Lengths.{IsWholeTrack};
ghost use Rattle.track_text.specs.Spelling.{track_form, track_head_lines, track_lines};

use crate::written_pairs::push_pairs;
use cert_lines::{
    push_arcs, push_count_line, push_signals_line, push_system_line, push_vector_line,
};
use obs_rows::Signals;
use std::alloc::AllocError;
use track_data::Track;

// Appends the first line.
fn push_form(out: &mut Vec<u8>) -> Result<(), AllocError>
    ensures { OnOk result (out.new.items ≡ out.old.items ++ text_of_lines (track_form ∷ [])) }
{
    out.extend_from_slice(b"baseline-track 1\n")
}

// Appends what stands before the arcs.
fn push_head(
    out: &mut Vec<u8>,
    ratio: u32,
    budget: u64,
    system: u8,
    base: &[i64; 3],
    signals: Signals,
) -> Result<(), AllocError>
    ensures text { OnOk result (out.new.items
        ≡ out.old.items ++ text_of_lines (track_head_lines ratio budget system base.now signals)) }
    ensures base { length base.now ≡ 3 }
{
    push_form(out)?;
    push_count_line(out, b"ratio", ratio as u64)?;
    push_count_line(out, b"budget", budget)?;
    push_system_line(out, system)?;
    push_vector_line(out, b"base", base)?;
    push_signals_line(out, signals)
}

/// Appends what stands before the tail.
pub(crate) fn push_track(
    out: &mut Vec<u8>,
    ratio: u32,
    budget: u64,
    track: &Track,
) -> Result<(), AllocError>
    ensures text { OnOk result
        (out.new.items ≡ out.old.items ++ text_of_lines (track_lines ratio budget track.now)) }
    ensures whole { OnOk result (IsWholeTrack track.now) }
{
    let signals = track.signals;
    push_head(out, ratio, budget, track.system, &track.base, signals)?;
    push_arcs(out, signals, track.arcs.as_slice())?;
    push_pairs(
        out,
        signals,
        track.pairs.as_slice(),
        track.points.as_slice(),
    )
}
