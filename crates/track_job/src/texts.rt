//! The two texts of the end of a run.
ghost use Rattle.std.specs.Prelude.{◌≡◌, ◌++◌, OnOk, All, length};
ghost use Rattle.cert_data.specs.Tails.{IsMove};
ghost use Rattle.track_job.specs.TrackTexts.{track_answer_text, IsWholeTrackAnswer, tracked_text, decided_text, track_verdict_text, track_outcome_text, is_track_fixed};

use crate::answers::{TrackAnswer, TrackOutcome};
use crate::lost::push_lost_lines;
use crate::places::push_places;
use report_text::{push_counts, push_decline, push_delta, push_verdict_line};
use session_jobs::SessionOutcome;
use std::alloc::{AllocError, Global};
use track_data::{Track, TrackCert, TrackTail};
use track_text::write_track;

// Appends the certificate, or why there is none.
fn write_answer(alloc: Global, out: &mut Vec<u8>, answer: &TrackAnswer) -> Result<(), AllocError>
    ensures text { OnOk result (out.new.items ≡ out.old.items ++ track_answer_text answer.now) }
    ensures whole { OnOk result (IsWholeTrackAnswer answer.now) }
{
    match answer {
        TrackAnswer::Few { pairs } => push_decline(alloc, out, "few", *pairs),
        TrackAnswer::Arcs { free } => push_decline(alloc, out, "arcs", *free),
        TrackAnswer::Lost { pairs } => push_decline(alloc, out, "lost", *pairs),
        TrackAnswer::Full(cert) => write_track(alloc, out, cert),
    }
}

// Appends the places of a fix, and that it is one.
fn push_tracked(
    alloc: Global,
    text: &mut Vec<u8>,
    track: &Track,
    moves: &[[i64; 3]],
) -> Result<(), AllocError>
    requires move_each { length moves.now ≡ length track.now.pairs }
    requires moves { All IsMove moves.now }
    ensures { OnOk result (text.new.items ≡ text.old.items ++ tracked_text track.now moves.now) }
{
    push_places(
        alloc,
        text,
        &track.base,
        track.pairs.as_slice(),
        track.points.as_slice(),
        moves,
    )?;
    push_verdict_line(text, true)
}

// Appends what was decided on the rows of the tracked pairs.
fn push_decided(alloc: Global, text: &mut Vec<u8>, cert: &TrackCert) -> Result<(), AllocError>
    ensures { OnOk result
        (text.new.items ≡ text.old.items ++ decided_text cert.now.track cert.now.tail) }
{
    match &cert.tail {
        TrackTail::Fixed { moves, .. } => {
            push_tracked(alloc, text, &cert.track, moves.as_slice())
        }
        TrackTail::Unseparated { .. } => push_verdict_line(text, false),
        TrackTail::Weak { .. } => push_verdict_line(text, false),
        TrackTail::Overwidth { .. } => push_verdict_line(text, false),
        TrackTail::Spent { .. } => push_verdict_line(text, false),
    }
}

fn push_verdict(alloc: Global, text: &mut Vec<u8>, answer: &TrackAnswer) -> Result<(), AllocError>
    ensures { OnOk result (text.new.items ≡ text.old.items ++ track_verdict_text answer.now) }
{
    match answer {
        TrackAnswer::Few { .. } => push_verdict_line(text, false),
        TrackAnswer::Arcs { .. } => push_verdict_line(text, false),
        TrackAnswer::Lost { .. } => push_verdict_line(text, false),
        TrackAnswer::Full(cert) => push_decided(alloc, text, cert),
    }
}

impl SessionOutcome for TrackOutcome {
    ghost fixed = { λ o. is_track_fixed o.answer };

    ghost out_text = { λ o. track_answer_text o.answer };

    ghost err_text = { λ o. track_outcome_text o };

    ghost is_whole = { λ o. IsWholeTrackAnswer o.answer };

    fn is_fixed(&self) -> bool {
        match &self.answer {
            TrackAnswer::Full(cert) => matches!(cert.tail, TrackTail::Fixed { .. }),
            _ => false,
        }
    }

    // Out has the certificate of the track, or the line that says why there is none; err the numbers of pairs and arcs, the
    // pairs that are lost, the place of each tracked pair of a fix, and the verdict.
    fn write(&self, alloc: Global, out: &mut Vec<u8>, err: &mut Vec<u8>) -> Result<(), AllocError> {
        write_answer(alloc, out, &self.answer)?;
        push_counts(alloc, err, self.taken, self.all, self.kept)?;
        push_lost_lines(alloc, err, self.lost.as_slice())?;
        push_delta(err, self.delta)?;
        push_verdict(alloc, err, &self.answer)
    }
}
