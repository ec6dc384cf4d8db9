//! The next line of a certificate, read by itself. Each call has the same form: where a line of its form is expected, it
//! has read that line, or the text is refused there; and the line is the spelling of what it answers.
ghost use Rattle.std.specs.Prelude.{◌≡◌, ◌≤◌, ◌<◌, ◌^◌, unsigned_abs, ◌∷◌, ℕ, ℤ, List, Bool, All, IfOk, OnOk};
ghost use Rattle.obs_rows.specs.Ranges.{IsBelow, IsSystem};
ghost use Rattle.obs_rows.specs.declared.limits.TheConstants.{MOST_PAIRS, MOST_SATELLITES};
ghost use Rattle.rinex_head.specs.LineRules.{ReadsFree};
ghost use Rattle.cert_words.specs.Numbers.{IsIn};
ghost use Rattle.cert_lines.specs.Lines.{count_line, vector_line, system_line, signals_line, pair_line, values_line, decision_line};
ghost use Rattle.cert_lines.specs.Versions.{group_limit};
ghost use Rattle.cert_lines.specs.declared.pairs.PairHead.{PairHead};
ghost use Rattle.cert_lines.specs.Forms.{count_in, vector_in, system_in, Letters, letters, signals_in, pair_in};
ghost use Rattle.cert_lines.specs.TailForms.{values_in, decision_line_in};
ghost use Rattle.cert_lines.specs.declared.tails.FormValues.{FormValues};
ghost use Rattle.cert_lines.specs.declared.version.Version.TheVariants.{One};
ghost use Rattle.cert_text.specs.LineParts.{word_in, TakesLine};

use crate::Grammar;
use cert_lines::{
    FormValues, PairHead, Version, count_in, decision_line_in, pair_in, signals_in, system_in,
    triple_in, values_in,
};
use cert_words::{BAD_LINE, Range};
use line_source::Lines;
use obs_rows::Signals;
use rinex_head::{At, What, next_line};

/// A line of one text.
pub fn next_word<G: Grammar>(lines: &mut Lines<'_>, word: &[u8]) -> Result<(), At>
    ensures reads { (s next : G.State) → TakesLine G.rules s (word_in word.now) (λ u. next) →
        ReadsFree G.rules lines.old lines.new s (λ u. next) result }
    ensures took { OnOk result (lines.old.left ≡ word.now ∷ lines.new.left) }
{
    let line = next_line(lines, What::BadLine)?;
    if line.bytes != word {
        return Err(BAD_LINE.at(line.number));
    }
    Ok(())
}

/// A line of a word and one number from `low` to `high`.
pub fn next_count<G: Grammar>(
    lines: &mut Lines<'_>,
    word: &[u8],
    low: u64,
    high: u64,
) -> Result<u64, At>
    ensures reads { (s : G.State) (next : ℕ → G.State) →
        TakesLine G.rules s (count_in word.now low high) next →
        ReadsFree G.rules lines.old lines.new s next result }
    ensures took { IfOk result (λ n. lines.old.left ≡ count_line word.now n ∷ lines.new.left) }
    ensures in_range { IfOk result (λ n. (low ≤ n) × (n ≤ high)) }
{
    let line = next_line(lines, What::BadLine)?;
    match count_in(word, low, high, line.bytes) {
        Ok(number) => Ok(number),
        Err(flaw) => Err(flaw.at(line.number)),
    }
}

/// A line of a word and three numbers of one range.
pub fn next_triple<G: Grammar>(
    lines: &mut Lines<'_>,
    word: &[u8],
    range: &Range,
) -> Result<[i64; 3], At>
    ensures reads { (s : G.State) (next : List ℤ → G.State) →
        TakesLine G.rules s (vector_in word.now 3 range.now) next →
        ReadsFree G.rules lines.old lines.new s next result }
    ensures took { IfOk result (λ zs. lines.old.left ≡ vector_line word.now zs ∷ lines.new.left) }
    ensures in_range { IfOk result (All (IsIn range.now)) }
{
    let line = next_line(lines, What::BadLine)?;
    match triple_in(word, range, line.bytes) {
        Ok(numbers) => Ok(numbers),
        Err(flaw) => Err(flaw.at(line.number)),
    }
}

/// The line of the system.
pub fn next_system<G: Grammar>(lines: &mut Lines<'_>) -> Result<u8, At>
    ensures reads { (s : G.State) (next : ℕ → G.State) → TakesLine G.rules s system_in next →
        ReadsFree G.rules lines.old lines.new s next result }
    ensures took { IfOk result (λ system. lines.old.left ≡ system_line system ∷ lines.new.left) }
    ensures system { IfOk result IsSystem }
{
    let line = next_line(lines, What::BadLine)?;
    match system_in(line.bytes) {
        Ok(system) => Ok(system),
        Err(flaw) => Err(flaw.at(line.number)),
    }
}

/// The line of the signals' letters.
pub fn next_letters<G: Grammar>(lines: &mut Lines<'_>, version: Version) -> Result<Signals, At>
    ensures reads { (s : G.State) (next : Letters → G.State) →
        TakesLine G.rules s (signals_in version) next → ReadsFree G.rules lines.old lines.new s
        (λ signals. next (letters signals.l1 signals.l2 signals.l5)) result }
    ensures took { IfOk result (λ s.
        lines.old.left ≡ signals_line version s.l1 s.l2 s.l5 ∷ lines.new.left) }
    ensures of_version { IfOk result (λ s. version ≡ One → s.l5 ≡ 0) }
{
    let line = next_line(lines, What::BadLine)?;
    match signals_in(version, line.bytes) {
        Ok(signals) => Ok(signals),
        Err(flaw) => Err(flaw.at(line.number)),
    }
}

/// The head of a pair whose number is at least `least`.
pub fn next_pair_head<G: Grammar>(
    lines: &mut Lines<'_>,
    version: Version,
    least: u32,
) -> Result<PairHead, At>
    ensures reads { (s : G.State) (next : PairHead → G.State) →
        TakesLine G.rules s (pair_in version least) next →
        ReadsFree G.rules lines.old lines.new s next result }
    ensures took { IfOk result (λ p.
        lines.old.left ≡ pair_line p.number p.tag.0 p.group p.count ∷ lines.new.left) }
    ensures number { IfOk result (λ p. (least ≤ p.number) × (p.number < MOST_PAIRS)) }
    ensures tag { IfOk result (λ p. p.tag.0 < 2 ^ 63) }
    ensures group { IfOk result (λ p. unsigned_abs p.group < 2 ^ 55) }
    ensures of_version { IfOk result (λ p. unsigned_abs p.group < group_limit version) }
    ensures count { IfOk result (λ p. (1 ≤ p.count) × (p.count ≤ MOST_SATELLITES)) }
{
    let line = next_line(lines, What::BadLine)?;
    match pair_in(version, least, line.bytes) {
        Ok(head) => Ok(head),
        Err(flaw) => Err(flaw.at(line.number)),
    }
}

/// The line of the values.
pub fn next_values<G: Grammar>(lines: &mut Lines<'_>) -> Result<FormValues, At>
    ensures reads { (s : G.State) (next : FormValues → G.State) →
        TakesLine G.rules s values_in next → ReadsFree G.rules lines.old lines.new s next result }
    ensures took { IfOk result (λ v.
        lines.old.left ≡ values_line v.h v.p1 v.p2 v.top ∷ lines.new.left) }
    ensures h { IfOk result (λ v. v.h ≤ 127) }
    ensures p1 { IfOk result (λ v. IsBelow (2 ^ 126) v.p1) }
    ensures p2 { IfOk result (λ v. IsBelow (2 ^ 126) v.p2) }
    ensures top { IfOk result (λ v. IsBelow (2 ^ 126) v.top) }
{
    let line = next_line(lines, What::BadLine)?;
    match values_in(line.bytes) {
        Ok(values) => Ok(values),
        Err(flaw) => Err(flaw.at(line.number)),
    }
}

/// The last line after two vectors: whether the integers are fixed.
pub fn next_decision<G: Grammar>(lines: &mut Lines<'_>) -> Result<bool, At>
    ensures reads { (s : G.State) (next : Bool → G.State) →
        TakesLine G.rules s decision_line_in next →
        ReadsFree G.rules lines.old lines.new s next result }
    ensures took { IfOk result (λ fixed. lines.old.left ≡ decision_line fixed ∷ lines.new.left) }
{
    let line = next_line(lines, What::BadLine)?;
    match decision_line_in(line.bytes) {
        Ok(fixed) => Ok(fixed),
        Err(flaw) => Err(flaw.at(line.number)),
    }
}
