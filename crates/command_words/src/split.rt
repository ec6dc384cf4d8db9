//! The words as clap splits them.
ghost use Rattle.std.specs.Prelude.{◌≡◌, ◌≢◌, IfOk, IsErrOf, List, map, string_bytes};
ghost use Rattle.clap.specs.Matches.{found_of};
ghost use Rattle.clap.specs.Values.{kind_of};
ghost use Rattle.clap.specs.Walk.{Row, Text, rows_of};
ghost use Rattle.command_words.specs.Commands.{is_short, has_short};
ghost use Rattle.command_words.specs.Split.{IsSplit};

use crate::WordFault;
use crate::program::program;
use clap::error::ErrorKind;
use clap::{ArgMatches, Error};
use std::alloc::Global;

/// A command, and what clap found after it.
#[derive(Drop)]
pub struct CommandLine<'a> {
    pub command: &'a str,
    pub matches: ArgMatches<'a>,
}

// One dash and more, but no second dash.
fn is_short_word(word: &[u8]) -> bool
    ensures { result ≡ is_short word.now }
{
    match word {
        [b'-', second, ..] => *second != b'-',
        _ => false,
    }
}

// Whether there is such a word before `--`.
fn has_short_word(words: &[String]) -> bool
    ensures { result ≡ has_short (map (λ w. string_bytes w) words.now) }
{
    let mut rest = words;
    while let [word, behind @ ..] = rest {
        if word.as_str() == "--" {
            return false;
        }
        if is_short_word(word.as_bytes()) {
            return true;
        }
        rest = behind;
    }
    false
}

// What an error of clap is here.
fn fault_of(error: &Error) -> WordFault
    ensures memory { kind_of error.now ≡ ErrorKind.OutOfMemory → result ≡ WordFault.NoMemory }
    ensures usage { kind_of error.now ≢ ErrorKind.OutOfMemory → result ≡ WordFault.Usage }
{
    match error.kind() {
        ErrorKind::OutOfMemory => WordFault::NoMemory,
        _ => WordFault::Usage,
    }
}

/// The words after the program's name, split. `Usage` exactly where they aren't split so.
pub fn split<'a>(alloc: Global, words: &'a [String]) -> Result<CommandLine<'a>, WordFault>
    ensures ok { IfOk result (λ s. IsSplit (map (λ w. string_bytes w) words.now) s.command.now
        (rows_of (found_of s.matches))) }
    ensures usage { IsErrOf result WordFault.Usage → (command : Text) (rows : List Row) →
        IsSplit (map (λ w. string_bytes w) words.now) command rows → ⊥ }
{
    if has_short_word(words) {
        return Err(WordFault::Usage);
    }
    let program = program(alloc)?;
    let mut matches = match program.try_get_matches_from(words) {
        Ok(matches) => matches,
        Err(error) => return Err(fault_of(&error)),
    };
    match matches.remove_subcommand() {
        Some((command, matches)) => Ok(CommandLine { command, matches }),
        None => Err(WordFault::Usage),
    }
}
