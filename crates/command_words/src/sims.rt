//! What is asked of a simulated session.
ghost use Rattle.std.specs.Prelude.{◌≡◌, ℕ, IfSome, MatchOption};
ghost use Rattle.command_words.specs.declared.sims.Part.{Part};
ghost use Rattle.command_words.specs.declared.sims.Sim.{Sim};
ghost use Rattle.command_words.specs.Numbers.{IsNumberIn};
ghost use Rattle.command_words.specs.Words.{name_of_part, IsSim};

use crate::choices::SignalChoice;
use crate::numbers::number_of;
use crate::word::Word;
use obs_rows::MOST_PAIRS;

/// A file of a simulated session: of the base, of the rover, or of the satellites.
#[derive(Clone, Copy, Debug, PartialEq, Eq)]
pub enum File {
    Base,
    Rover,
    Nav,
}

/// What is asked of a simulated session: one of its files, or what the three are found to say.
#[derive(Clone, Copy, Debug, PartialEq, Eq)]
pub enum Part {
    File(File),
    Run,
}

/// A part of a simulated session, with its seed, epochs and satellites, the number of its bands and the letter of its system.
#[derive(Clone, Copy, Debug)]
pub struct Sim {
    pub part: Part,
    pub seed: u32,
    pub epochs: u32,
    pub sats: u32,
    pub bands: u16,
    pub system: u8,
}

fn number_in(word: &Word, least: u32, most: u32) -> Option<u32>
    ensures { MatchOption result ((n : ℕ) → IsNumberIn least most word.now n →
        ⊥) (λ n. IsNumberIn least most word.now n) }
{
    let number = number_of(word.as_bytes())?;
    if least as u64 <= number && number <= most as u64 {
        Some(number as u32)
    } else {
        None
    }
}

fn part_of(word: &[u8]) -> Option<Part>
    ensures { MatchOption result ((p : Part) → word.now ≡ name_of_part p →
        ⊥) (λ p. word.now ≡ name_of_part p) }
{
    if word == b"base".as_slice() {
        return Some(Part::File(File::Base));
    }
    if word == b"rover".as_slice() {
        return Some(Part::File(File::Rover));
    }
    if word == b"nav".as_slice() {
        return Some(Part::File(File::Nav));
    }
    if word == b"run".as_slice() {
        return Some(Part::Run);
    }
    None
}

/// What four words ask of a simulated session with these signals.
pub fn sim_of(
    part: &Word,
    seed: &Word,
    epochs: &Word,
    sats: &Word,
    choice: SignalChoice,
) -> Option<Sim>
    ensures sim { MatchOption result ((s : Sim) → IsSim part.now seed.now epochs.now sats.now s →
        ⊥) (λ s. IsSim part.now seed.now epochs.now sats.now s) }
    ensures bands { IfSome result (λ s. s.bands ≡ choice.bands) }
    ensures system { IfSome result (λ s. s.system ≡ choice.system) }
{
    let part = part_of(part.as_bytes())?;
    let seed = number_in(seed, 0, u32::MAX)?;
    let epochs = number_in(epochs, 1, MOST_PAIRS)?;
    let sats = number_in(sats, 4, 15)?;
    Some(Sim {
        part,
        seed,
        epochs,
        sats,
        bands: choice.bands,
        system: choice.system,
    })
}
