//! The form of a `zero` file.
ghost use Rattle.std.specs.Prelude.{◌≡◌, ◌<◌, ◌≤◌, ℤ, List, length, vec_len, IfOk, All};
ghost use Rattle.decimal_text.specs.Whole.{size_of};
ghost use Rattle.line_source.specs.Lines.{lines_of};
ghost use Rattle.line_source.specs.declared.transfer.TheConstants.{MAX_FILE};
ghost use Rattle.rinex_head.specs.FirstFailing.{IsFirstFailing};
ghost use Rattle.rinex_head.specs.LineRules.{rest_gives, ReadsFree, Gives, OnRefusal, IfRefused};
ghost use Rattle.file_jobs.specs.ZeroRows.{rows, AreRows, IsZeroFile};
ghost use Rattle.file_jobs.specs.ZeroRules.{Head, claimed, number_behind, rows_rules, rows_of};

use decimal_text::{WholeFault, read_whole};
use line_source::Lines;
use rinex_head::{At, Flaw, TextFault, What, line_or_end, next_line};
use std::alloc::Global;
use std::marker::Model;

/// The most differences of one file.
pub const MAX_DIFFS: usize = 1000;

/// A whole number that is claimed to be best, at most 10^7 in size, and 1 to 1,000 differences, each at most 10^9 in
/// size.
#[derive(Drop)]
pub struct ZeroRows {
    claim: i64,
    diffs: Vec<i64>,
}

impl Model for ZeroRows {
    ghost use Rattle.file_jobs.specs.ZeroRows.{Rows, rows, AreInRange};

    ghost Value = { Rows };

    ghost view = { λ s. rows s.claim s.diffs.items };

    ghost invariant = { λ s. AreInRange s.claim s.diffs.items };
}

impl ZeroRows {
    /// The number that is claimed.
    pub fn claim(&self) -> i64
        ensures value { result ≡ self.now.claim }
        ensures in_range { size_of result ≤ 10000000 }
    {
        self.claim
    }

    /// The differences.
    pub fn diffs(&self) -> &[i64]
        ensures value { result.now ≡ self.now.diffs }
        ensures in_range { All (λ d. size_of d ≤ 1000000000) result.now }
        ensures some { 0 < length result.now }
        ensures few { length result.now ≤ MAX_DIFFS }
    {
        &self.diffs
    }
}

const BAD_LINE: Flaw = Flaw {
    column: 1,
    what: What::BadLine,
};

// The number in a line after a word and a blank.
fn number_in(word: &[u8], most: u32, line: &[u8]) -> Result<i64, Flaw>
    requires { length word.now ≤ 100 }
    ensures { result ≡ number_behind word.now most line.now }
{
    let Some(text) = line.strip_prefix(word) else {
        return Err(BAD_LINE);
    };
    let out_of_range = Flaw {
        column: word.len() as u32 + 1,
        what: What::BadRange,
    };
    match read_whole(text) {
        Ok(number) if number.unsigned_abs() <= most as u128 => Ok(number as i64),
        Ok(_) | Err(WholeFault::Size) => Err(out_of_range),
        Err(WholeFault::Spelling) => Err(BAD_LINE),
    }
}

// The differences of the lines that are left.
fn read_diffs(alloc: Global, lines: &mut Lines<'_>) -> Result<Vec<i64>, TextFault>
    ensures reads { (z : ℤ) →
        Gives (rest_gives rows_rules lines.old (claimed z)) (λ ds. rows z ds.items) result }
    ensures in_range { IfOk result (λ ds. All (λ d. size_of d ≤ 1000000000) ds.items) }
    ensures some { IfOk result (λ ds. 0 < vec_len ds) }
    ensures few { IfOk result (λ ds. vec_len ds ≤ MAX_DIFFS) }
{
    let mut diffs: Vec<i64> = Vec::new(alloc);
    'lines: while let Some(line) = line_or_end(lines)? {
        if diffs.len() >= MAX_DIFFS {
            return Err(TextFault::Refused(BAD_LINE.at(line.number)));
        }
        match number_in(b"diff ", 1_000_000_000, line.bytes) {
            Ok(diff) => diffs.push(diff)?,
            Err(flaw) => return Err(TextFault::Refused(flaw.at(line.number))),
        }
    }
    if diffs.is_empty() {
        return Err(TextFault::Refused(BAD_LINE.at(lines.next_number())));
    }
    Ok(diffs)
}

// The claimed number of the first two lines.
fn read_claim(lines: &mut Lines<'_>) -> Result<i64, At>
    ensures reads { ReadsFree rows_rules lines.old lines.new Head claimed result }
    ensures in_range { IfOk result (λ z. size_of z ≤ 10000000) }
{
    let first = next_line(lines, What::BadLine)?;
    if first.bytes != b"zero 1".as_slice() {
        return Err(BAD_LINE.at(first.number));
    }
    let second = next_line(lines, What::BadLine)?;
    match number_in(b"z ", 10_000_000, second.bytes) {
        Ok(claim) => Ok(claim),
        Err(flaw) => Err(flaw.at(second.number)),
    }
}

/// What a `zero` file says, or the first place at which it is none.
pub fn read_rows(alloc: Global, text: &[u8]) -> Result<ZeroRows, TextFault>
    requires { length text.now ≤ MAX_FILE }
    ensures ok { IfOk result (λ found. AreRows (lines_of text.now) found.claim found.diffs) }
    ensures only { IfOk result (λ found. (z : ℤ) (ds : List ℤ) → AreRows (lines_of text.now) z ds
        → rows z ds ≡ found) }
    ensures refused { OnRefusal result (IsZeroFile (lines_of text.now) → ⊥) }
    ensures first { IfRefused result (λ at. IsFirstFailing IsZeroFile (lines_of text.now) at.line) }
    ensures exact { Gives (rows_of (lines_of text.now)) (λ found. found) result }
{
    read_lines(alloc, Lines::new(text))
}

fn read_lines(alloc: Global, mut lines: Lines<'_>) -> Result<ZeroRows, TextFault>
    ensures { Gives (rest_gives rows_rules lines.entry Head) (λ found. found) result }
{
    let claim = read_claim(&mut lines)?;
    let diffs = read_diffs(alloc, &mut lines)?;
    Ok(ZeroRows { claim, diffs })
}
