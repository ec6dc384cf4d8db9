//! The lines of a tail, and the end.
ghost use Rattle.std.specs.Prelude.{◌≡◌, ◌≤◌, ◌∷◌, [], ℤ, List, take, length, Ok, Err, IfOk, MatchResult};
ghost use Rattle.integer_form.specs.Kept.{IsZeroFrom};
ghost use Rattle.int_search.specs.Vectors.{IsSmall};
ghost use Rattle.rinex_head.specs.Places.{at_line};
ghost use Rattle.rinex_head.specs.LineRules.{rest_gives, ReadsFree};
ghost use Rattle.cert_lines.specs.Lines.{vector_line, named_line};
ghost use Rattle.cert_lines.specs.Forms.{vector_in};
ghost use Rattle.cert_lines.specs.declared.ranges.TheConstants.{ENTRIES};
ghost use Rattle.cert_data.specs.Places.{name_of_place};
ghost use Rattle.cert_text.specs.LineParts.{TakesLine, IsEnd};
ghost use Rattle.cert_text.specs.TailParts.{place_in};

use crate::Grammar;
use cert_data::{Place, place_named};
use cert_lines::{ENTRIES, name_in, vector_in};
use cert_words::BAD_LINE;
use line_source::Lines;
use quadratic_form::MOST_INTEGERS;
use rinex_head::{At, Flaw, What, line_or_end, next_line};

/// The integers of a line of a word, and 0 after them.
pub fn next_integers<G: Grammar>(
    lines: &mut Lines<'_>,
    word: &[u8],
    count: usize,
) -> Result<[i64; MOST_INTEGERS], At>
    requires { count ≤ MOST_INTEGERS }
    ensures reads { (s : G.State) (next : List ℤ → G.State) →
        TakesLine G.rules s (vector_in word.now count ENTRIES) next →
        ReadsFree G.rules lines.old lines.new s (λ z. next (take count z)) result }
    ensures took { IfOk result (λ z.
        lines.old.left ≡ vector_line word.now (take count z) ∷ lines.new.left) }
    ensures small { IfOk result IsSmall }
    ensures rest { IfOk result (IsZeroFrom count) }
{
    let line = next_line(lines, What::BadLine)?;
    integers_in(word, count, line.bytes, line.number)
}

/// The integers of this line, and 0 after them.
pub fn integers_in(
    word: &[u8],
    count: usize,
    line: &[u8],
    number: u32,
) -> Result<[i64; MOST_INTEGERS], At>
    requires count { count ≤ MOST_INTEGERS }
    requires short { length line.now ≤ 4096 }
    ensures value { MatchResult result
        (λ z. vector_in word.now count ENTRIES line.now ≡ Ok (take count z))
        (λ at. at_line number (vector_in word.now count ENTRIES line.now) ≡ Err at) }
    ensures spelled { IfOk result (λ z. line.now ≡ vector_line word.now (take count z)) }
    ensures small { IfOk result IsSmall }
    ensures rest { IfOk result (IsZeroFrom count) }
{
    match vector_in(word, count, &ENTRIES, line) {
        Ok(integers) => Ok(integers),
        Err(flaw) => Err(flaw.at(number)),
    }
}

/// The place whose name stands in a line after these words, which end with a blank.
pub fn place_in(words: &[u8], line: &[u8]) -> Result<Place, Flaw>
    ensures value { result ≡ place_in words.now line.now }
    ensures spelled { IfOk result (λ place. line.now ≡ named_line words.now (name_of_place place)) }
{
    let name = name_in(words, line)?;
    match place_named(name) {
        Some(place) => Ok(place),
        None => Err(BAD_LINE),
    }
}

/// Nothing stands after the last line.
pub fn read_end<G: Grammar>(lines: &mut Lines<'_>) -> Result<(), At>
    ensures { (s : G.State) → IsEnd G.rules s → MatchResult result
        (λ u. (rest_gives G.rules lines.old s ≡ Ok tt) × (lines.old.left ≡ []))
        (λ at. rest_gives G.rules lines.old s ≡ Err at) }
{
    match line_or_end(lines)? {
        Some(line) => Err(BAD_LINE.at(line.number)),
        None => Ok(()),
    }
}
