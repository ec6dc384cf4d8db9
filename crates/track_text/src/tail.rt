//! The tail of the certificate of a track.
ghost use Rattle.std.specs.Prelude.{◌≡◌, ◌≤◌, ◌++◌, ◌∷◌, ℕ, List, take, codes, IfOk};
ghost use Rattle.obs_rows.specs.declared.arcs.Arc.{Arc};
ghost use Rattle.obs_rows.specs.Integers.{integer_count};
ghost use Rattle.integer_form.specs.Kept.{IsZeroFrom};
ghost use Rattle.int_search.specs.Vectors.{IsSmall};
ghost use Rattle.rinex_head.specs.LineRules.{Reads};
ghost use Rattle.cert_lines.specs.Lines.{vector_line};
ghost use Rattle.track_data.specs.TrackTails.{IsTrackTailOf};
ghost use Rattle.track_text.specs.Spelling.{track_tail_lines};
ghost use Rattle.track_text.specs.Lengths.{IsWholeTrackTail};
ghost use Rattle.track_text.specs.Rules.{track_rules, frame, numbers_of, Tail as TailStart, Second, End};

use crate::grammar::TrackText;
use crate::moves::read_moves;
use crate::tail_lines::declined_in;
use cert_data::TwoBest;
use cert_lines::begins;
use cert_text::{integers_in, next_decision, next_integers, next_values};
use line_source::Lines;
use obs_rows::PairRows;
use quadratic_form::MOST_INTEGERS;
use rinex_head::{TextFault, What, next_line};
use std::alloc::Global;
use track_data::TrackTail;

// A tail with vectors, after its first line.
fn read_vectors(
    alloc: Global,
    lines: &mut Lines<'_>,
    count: usize,
    first: [i64; MOST_INTEGERS],
    pairs: &[PairRows],
) -> Result<TrackTail, TextFault>
    requires count { count ≤ MOST_INTEGERS }
    requires small { IsSmall first }
    requires rest { IsZeroFrom count first }
    ensures reads { Reads track_rules lines.old lines.new (Second count (numbers_of pairs.now))
        (λ t. End) result }
    ensures took { IfOk result (λ t. vector_line (codes "z1") (take count first) ∷ lines.old.left
        ≡ track_tail_lines pairs.now t ++ lines.new.left) }
    ensures fits { IfOk result (λ t. (ss : List ℕ) (arcs : List Arc) (budget : ℕ) →
        count ≡ integer_count arcs ss → IsTrackTailOf ss arcs pairs.now budget t) }
    ensures whole { IfOk result IsWholeTrackTail }
{
    let second = next_integers::<TrackText>(lines, b"z2", count)?;
    let moves = read_moves(alloc, lines, pairs)?;
    let values = next_values::<TrackText>(lines)?;
    let fixed = next_decision::<TrackText>(lines)?;
    let best = TwoBest {
        first,
        second,
        p1: values.p1,
        p2: values.p2,
        size: count,
    };
    Ok(TrackTail::of_vectors(fixed, values.h, moves, best, values.top))
}

/// Reads the tail of the certificate of a track of `count` integers and these pairs.
pub(crate) fn read_tail(
    alloc: Global,
    lines: &mut Lines<'_>,
    budget: u64,
    count: usize,
    pairs: &[PairRows],
) -> Result<TrackTail, TextFault>
    requires { count ≤ MOST_INTEGERS }
    ensures reads { (ss : List ℕ) (arcs : List Arc) → count ≡ integer_count arcs ss →
        Reads track_rules lines.old lines.new
        (TailStart (frame budget ss) arcs (numbers_of pairs.now)) (λ t. End) result }
    ensures took { IfOk result (λ t.
        lines.old.left ≡ track_tail_lines pairs.now t ++ lines.new.left) }
    ensures fits { IfOk result (λ t. (ss : List ℕ) (arcs : List Arc) →
        count ≡ integer_count arcs ss → IsTrackTailOf ss arcs pairs.now budget t) }
    ensures whole { IfOk result IsWholeTrackTail }
{
    let line = next_line(lines, What::BadLine)?;
    if begins(b"z1", line.bytes) {
        let first = integers_in(b"z1", count, line.bytes, line.number)?;
        return read_vectors(alloc, lines, count, first, pairs);
    }
    match declined_in(budget, line.bytes) {
        Ok(tail) => Ok(tail),
        Err(flaw) => Err(TextFault::Refused(flaw.at(line.number))),
    }
}
