//! The ordinary words and the options of what clap found after a command.
ghost use Rattle.std.specs.Prelude.{◌≡◌, ◌++◌, ◌∷◌, [], map, IfOk, IsErrOf, OnOk};
ghost use Rattle.clap.specs.Matches.{found_of};
ghost use Rattle.clap.specs.Walk.{rows_of};
ghost use Rattle.command_words.specs.declared.settings.Setting.{Setting};
ghost use Rattle.command_words.specs.Commands.{word_id, values_in};
ghost use Rattle.command_words.specs.Settings.{name_of};
ghost use Rattle.command_words.specs.Split.{AreAll, HasNumbers, TakesNumbers};

use crate::WordFault;
use crate::numbers::value_of_setting;
use crate::settings::{Given, Setting};
use crate::word::Word;
use clap::ArgMatches;
use std::alloc::{AllocError, Global};

/// The ordinary words, and the options with their numbers.
#[derive(Drop)]
pub struct Parted {
    pub plain: Vec<Word>,
    pub given: Vec<Given>,
}

fn copies_of(alloc: Global, texts: &[&str]) -> Result<Vec<Word>, AllocError>
    ensures { IfOk result (λ copies. copies.items ≡ map (λ v. v.now) texts.now) }
{
    let mut copies = Vec::new(alloc);
    for text in texts {
        copies.push(Word::copy_of(alloc, *text)?)?;
    }
    Ok(copies)
}

fn push(given: &mut Vec<Given>, one: Given) -> Result<(), AllocError>
    ensures { OnOk result (given.new.items ≡ given.old.items ++ one ∷ []) }
{
    given.push(one)?;
    Ok(())
}

fn take_numbers(given: &mut Vec<Given>, setting: Setting, texts: &[&str]) -> Result<(), WordFault>
    ensures numbers { OnOk result
        (TakesNumbers setting (map (λ v. v.now) texts.now) given.old.items given.new.items) }
    ensures usage { IsErrOf result WordFault.Usage → AreAll setting (map (λ v. v.now) texts.now) →
        ⊥ }
{
    for text in texts {
        let Some(number) = value_of_setting(setting, text.as_bytes()) else {
            return Err(WordFault::Usage);
        };
        push(given, Given { setting, number })?;
    }
    Ok(())
}

// What is given for a setting.
fn take_setting(
    given: &mut Vec<Given>,
    setting: Setting,
    matches: &ArgMatches<'_>,
) -> Result<(), WordFault>
    ensures numbers { OnOk result (TakesNumbers setting (values_in (name_of setting)
        (rows_of (found_of matches.now))) given.old.items given.new.items) }
    ensures usage { IsErrOf result WordFault.Usage →
        AreAll setting (values_in (name_of setting) (rows_of (found_of matches.now))) → ⊥ }
{
    match matches.get_raw(setting.name()) {
        Some(texts) => take_numbers(given, setting, texts),
        None => Ok(()),
    }
}

// The options with their numbers.
fn numbers_in(alloc: Global, matches: &ArgMatches<'_>) -> Result<Vec<Given>, WordFault>
    ensures given { IfOk result (λ given. HasNumbers (rows_of (found_of matches.now)) given.items) }
    ensures usage { IsErrOf result WordFault.Usage →
        ((s : Setting) → AreAll s (values_in (name_of s) (rows_of (found_of matches.now)))) → ⊥ }
{
    let mut given = Vec::new(alloc);
    for place in 0..11 {
        take_setting(&mut given, Setting::at(place), matches)?;
    }
    Ok(given)
}

// The ordinary words.
fn words_in(alloc: Global, matches: &ArgMatches<'_>) -> Result<Vec<Word>, AllocError>
    ensures { IfOk result (λ words.
        words.items ≡ values_in word_id (rows_of (found_of matches.now))) }
{
    match matches.get_raw("word") {
        Some(texts) => copies_of(alloc, texts),
        None => Ok(Vec::new(alloc)),
    }
}

/// The ordinary words and the options with their values. `Usage` exactly where a word is no value of its option.
pub fn parted_of(alloc: Global, matches: &ArgMatches<'_>) -> Result<Parted, WordFault>
    ensures plain { IfOk result (λ p.
        p.plain.items ≡ values_in word_id (rows_of (found_of matches.now))) }
    ensures given { IfOk result (λ p. HasNumbers (rows_of (found_of matches.now)) p.given.items) }
    ensures usage { IsErrOf result WordFault.Usage →
        ((s : Setting) → AreAll s (values_in (name_of s) (rows_of (found_of matches.now)))) → ⊥ }
{
    let given = numbers_in(alloc, matches)?;
    let plain = words_in(alloc, matches)?;
    Ok(Parted { plain, given })
}
