//! The tail of a certificate.
ghost use Rattle.std.specs.Prelude.{◌≡◌, ◌≤◌, ◌++◌, ◌∷◌, ℕ, List, take, codes, IfOk};
ghost use Rattle.obs_rows.specs.declared.arcs.Arc.{Arc};
ghost use Rattle.obs_rows.specs.Integers.{integer_count};
ghost use Rattle.integer_form.specs.Kept.{IsZeroFrom};
ghost use Rattle.int_search.specs.Vectors.{IsSmall};
ghost use Rattle.rinex_head.specs.LineRules.{ReadsFree};
ghost use Rattle.cert_lines.specs.Lines.{vector_line};
ghost use Rattle.cert_data.specs.Tails.{IsTailOf};
ghost use Rattle.cert_text.specs.Spelling.{tail_lines};
ghost use Rattle.cert_text.specs.Lengths.{IsWholeTail};
ghost use Rattle.cert_text.specs.Editions.{IsColumnOf};
ghost use Rattle.cert_lines.specs.declared.version.Version.{Version};
ghost use Rattle.cert_text.specs.Rules.{cert_rules, frame, Tail as TailStart, Second, End};

use crate::grammar::CertText;
use crate::tail_lines::declined_in;
use crate::{integers_in, next_decision, next_integers, next_triple, next_values};
use cert_data::{Tail, TwoBest};
use cert_lines::{MOVES, Version, begins};
use line_source::Lines;
use quadratic_form::MOST_INTEGERS;
use rinex_head::{At, What, next_line};

// A tail with vectors, after its first line.
fn read_vectors(
    lines: &mut Lines<'_>,
    count: usize,
    first: [i64; MOST_INTEGERS],
) -> Result<Tail, At>
    requires count { count ≤ MOST_INTEGERS }
    requires small { IsSmall first }
    requires rest { IsZeroFrom count first }
    ensures reads { ReadsFree cert_rules lines.old lines.new (Second count) (λ t. End) result }
    ensures took { IfOk result (λ t. vector_line (codes "z1") (take count first) ∷ lines.old.left
        ≡ tail_lines t ++ lines.new.left) }
    ensures fits { IfOk result (λ t. (ss : List ℕ) (arcs : List Arc) (budget : ℕ) →
        count ≡ integer_count arcs ss → IsTailOf ss arcs budget t) }
    ensures column { (version : Version) → IfOk result (IsColumnOf version) }
    ensures whole { IfOk result IsWholeTail }
{
    let second = next_integers::<CertText>(lines, b"z2", count)?;
    let moved = next_triple::<CertText>(lines, b"move", &MOVES)?;
    let values = next_values::<CertText>(lines)?;
    let fixed = next_decision::<CertText>(lines)?;
    let best = TwoBest {
        first,
        second,
        p1: values.p1,
        p2: values.p2,
        size: count,
    };
    Ok(Tail::of_vectors(fixed, values.h, moved, best, values.top))
}

/// Reads the tail of a certificate, by the number of its integers.
pub(crate) fn read_tail(
    lines: &mut Lines<'_>,
    version: Version,
    budget: u64,
    count: usize,
) -> Result<Tail, At>
    requires { count ≤ MOST_INTEGERS }
    ensures reads { (ss : List ℕ) (arcs : List Arc) → count ≡ integer_count arcs ss →
        ReadsFree cert_rules lines.old lines.new (TailStart (frame version budget ss) arcs) (λ t.
        End) result }
    ensures took { IfOk result (λ t. lines.old.left ≡ tail_lines t ++ lines.new.left) }
    ensures fits { IfOk result (λ t. (ss : List ℕ) (arcs : List Arc) →
        count ≡ integer_count arcs ss → IsTailOf ss arcs budget t) }
    ensures column { IfOk result (IsColumnOf version) }
    ensures whole { IfOk result IsWholeTail }
{
    let line = next_line(lines, What::BadLine)?;
    if begins(b"z1", line.bytes) {
        let first = integers_in(b"z1", count, line.bytes, line.number)?;
        return read_vectors(lines, count, first);
    }
    match declined_in(version, budget, line.bytes) {
        Ok(tail) => Ok(tail),
        Err(flaw) => Err(flaw.at(line.number)),
    }
}
