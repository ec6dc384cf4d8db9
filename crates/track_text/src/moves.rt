//! The moves of a track's pairs.
ghost use Rattle.std.specs.Prelude.{◌≡◌, ◌≤◌, ◌++◌, ◌∷◌, ℕ, List, All, length, IfOk};
ghost use Rattle.rinex_head.specs.LineRules.{Reads, ReadsFree};
ghost use Rattle.cert_data.specs.Tails.{IsMove};
ghost use Rattle.track_text.specs.Lengths.{AreTriples};
ghost use Rattle.track_text.specs.Spelling.{move_line, move_lines};
ghost use Rattle.track_text.specs.TailForms.{move_in};
ghost use Rattle.track_text.specs.Rules.{track_rules, numbers_of, before_moves, Values};

use cert_lines::MOVES;
use cert_words::{each_within, number_at, numbers_behind};
use line_source::Lines;
use obs_rows::PairRows;
use rinex_head::{At, Flaw, TextFault, What, next_line};
use std::alloc::Global;
use track_data::Items;

// The move of the pair of this number.
fn move_in(number: u32, line: &[u8]) -> Result<[i64; 3], Flaw>
    requires { length line.now ≤ 4096 }
    ensures value { result ≡ move_in number line.now }
    ensures spelled { IfOk result (λ moved. line.now ≡ move_line number moved) }
    ensures in_range { IfOk result IsMove }
    ensures whole { IfOk result (λ moved. length moved ≡ 3) }
{
    let numbers = numbers_behind(b"move", 4, line)?;
    let numbers = numbers.as_slice();
    number_at(numbers, 0).natural(number as u64, number as u64)?;
    each_within(&MOVES, &numbers[1..4])
}

// The next line, which is the move of the pair of this number.
fn next_move(lines: &mut Lines<'_>, number: u32) -> Result<[i64; 3], At>
    ensures reads { (numbers : List ℕ) → ReadsFree track_rules lines.old lines.new
        (before_moves (number ∷ numbers)) (λ moved. before_moves numbers) result }
    ensures took { IfOk result (λ moved. lines.old.left ≡ move_line number moved ∷ lines.new.left) }
    ensures in_range { IfOk result IsMove }
    ensures whole { IfOk result (λ moved. length moved ≡ 3) }
{
    let line = next_line(lines, What::BadLine)?;
    match move_in(number, line.bytes) {
        Ok(moved) => Ok(moved),
        Err(flaw) => Err(flaw.at(line.number)),
    }
}

/// Reads the move of each pair.
pub(crate) fn read_moves(
    alloc: Global,
    lines: &mut Lines<'_>,
    pairs: &[PairRows],
) -> Result<Items<[i64; 3]>, TextFault>
    ensures reads { Reads track_rules lines.old lines.new (before_moves (numbers_of pairs.now))
        (λ moves. Values) result }
    ensures took { IfOk result (λ moves.
        lines.old.left ≡ move_lines pairs.now moves ++ lines.new.left) }
    ensures each { IfOk result (λ moves. length moves ≡ length pairs.now) }
    ensures in_range { IfOk result (All IsMove) }
    ensures whole { IfOk result AreTriples }
{
    let mut moves: Vec<[i64; 3]> = Vec::new(alloc);
    for pair in pairs {
        let moved = next_move(lines, pair.number)?;
        moves.push(moved)?;
    }
    Ok(Items::new(moves))
}
