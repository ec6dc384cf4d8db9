//! An observation file of either format that is taken in pieces.
ghost use Rattle.std.specs.Prelude.{◌≡◌, ◌+◌, ◌≤◌, ◌++◌, List, ℕ, [], length, take, OnOk, OnErr, IfOk, IfSome, IfNone, IsErr, Err};
ghost use Rattle.std.specs.Str.Lines.{strip_carriage_return};
ghost use Rattle.line_source.specs.declared.transfer.TheConstants.{MAX_FILE};
ghost use Rattle.rinex_head.specs.declared.system.System.TheVariants.{Gps};
ghost use Rattle.rinex_obs.specs.Started.{EndsLine, GoesOn};
ghost use Rattle.rinex_obs.specs.ObsRules.{obs_of};
ghost use Rattle.rinex2_obs.specs.Obs2Rules.{obs2_of};
ghost use Rattle.job_answers.specs.Formats.{begins_2};
ghost use Rattle.job_answers.specs.Taking.{IsKeptOf, IsKeptOf-prop, IsReadBy, IsFirstOf, StandsForText, HasNoMemory, IsAnswer};

use line_source::{Line, Taker, without_return};
use obs_store::ObsFile;
use rinex_head::{FIRST_LABEL, System, TextFault, field, fixed, head_line};
use rinex_obs::{Feed, Overlong, StartedLine, split_line};
use rinex2_obs::read_obs2;
use std::alloc::{AllocError, Global};

/// What a taker holds between two pieces.
#[derive(Drop)]
pub enum Source {
    /// The first line, which hasn't ended.
    FirstLine(StartedLine),
    /// The file is read as RINEX 3.
    Three(Feed),
    /// The file is read as RINEX 2 when it is whole.
    Two(Vec<u8>),
    NoMemory,
}

// Whether a file with this first line is read as RINEX 2.
#[tactic(auto, unfolding(crate::specs::Formats::begins_2))]
fn begins_2(line: &[u8]) -> bool
    ensures { result ≡ begins_2 line.now }
{
    let head = head_line(&Line {
        number: 1,
        bytes: line,
    });
    if head.label != FIRST_LABEL {
        return false;
    }
    match fixed(&field::<9>(line, 1), 2) {
        Ok(hundredths) => hundredths >= 200 && hundredths <= 299,
        Err(_) => false,
    }
}

// The text of these two parts, which is read as RINEX 3, is fed to its reader.
fn feed_of(alloc: Global, line: &[u8], rest: &[u8]) -> Result<Source, AllocError>
    requires few { length line.now + length rest.now ≤ MAX_FILE }
    requires reads { IsReadBy (λ lines. obs_of Gps lines) (line.now ++ rest.now) }
    ensures kept { IfOk result (λ s. IsKeptOf s (length line.now + length rest.now)) }
    ensures stands { IfOk result (λ s. StandsForText s (line.now ++ rest.now)) }
{
    let mut feed = Feed::new(alloc, System::Gps);
    feed.take(line)?;
    feed.take(rest)?;
    Ok(Source::Three(feed))
}

// The text of these two parts, which is read as RINEX 2, is kept.
fn kept_of(alloc: Global, line: &[u8], rest: &[u8]) -> Result<Source, AllocError>
    requires few { length line.now + length rest.now ≤ MAX_FILE }
    requires reads { IsReadBy obs2_of (line.now ++ rest.now) }
    ensures kept { IfOk result (λ s. IsKeptOf s (length line.now + length rest.now)) }
    ensures stands { IfOk result (λ s. StandsForText s (line.now ++ rest.now)) }
{
    let mut bytes = Vec::new(alloc);
    bytes.extend_from_slice(line)?;
    bytes.extend_from_slice(rest)?;
    Ok(Source::Two(bytes))
}

// The text of these two parts, the first of which is its first line.
fn source_of(alloc: Global, line: &[u8], rest: &[u8]) -> Result<Source, AllocError>
    requires few { length line.now + length rest.now ≤ MAX_FILE }
    requires first { IsFirstOf (strip_carriage_return line.now) (line.now ++ rest.now) }
    ensures kept { IfOk result (λ s. IsKeptOf s (length line.now + length rest.now)) }
    ensures stands { IfOk result (λ s. StandsForText s (line.now ++ rest.now)) }
{
    if begins_2(without_return(line)) {
        kept_of(alloc, line, rest)
    } else {
        feed_of(alloc, line, rest)
    }
}

// The first line ends in the piece, after these bytes of it.
fn end_line(
    alloc: Global,
    line: &mut StartedLine,
    front: &[u8],
    piece: &[u8],
) -> Result<Source, AllocError>
    requires few { length line.old + length piece.now ≤ MAX_FILE }
    requires goes_on { GoesOn line.old }
    requires front { front.now ≡ take (length front.now) piece.now }
    requires ends { (behind : List ℕ) × EndsLine piece.now front.now behind }
    ensures kept { IfOk result (λ s. IsKeptOf s (length line.old + length piece.now)) }
    ensures stands { IfOk result (λ s. StandsForText s (line.old ++ piece.now)) }
{
    match line.extend(front) {
        Ok(()) => source_of(alloc, line.as_slice(), &piece[front.len()..]),
        Err(Overlong) => feed_of(alloc, line.as_slice(), piece),
    }
}

// The first line goes on with the piece. Where it ends in it, or is too long, the format is known.
fn go_on(alloc: Global, line: &mut StartedLine, piece: &[u8]) -> Result<Option<Source>, AllocError>
    requires few { length line.old + length piece.now ≤ MAX_FILE }
    requires goes_on { GoesOn line.old }
    ensures line { IfOk result (λ found. IfNone found (line.new ≡ line.old ++ piece.now)) }
    ensures goes_on { IfOk result (λ found. IfNone found (GoesOn line.new)) }
    ensures kept { IfOk result (λ found.
        IfSome found (λ s. IsKeptOf s (length line.old + length piece.now))) }
    ensures stands { IfOk result (λ found.
        IfSome found (λ s. StandsForText s (line.old ++ piece.now))) }
{
    match split_line(piece) {
        Some((front, _)) => Ok(Some(end_line(alloc, line, front, piece)?)),
        None => match line.extend(piece) {
            Ok(()) => Ok(None),
            Err(Overlong) => Ok(Some(feed_of(alloc, line.as_slice(), piece)?)),
        },
    }
}

// What the text of a line without an end gives.
fn read_line(alloc: Global, line: &[u8]) -> Result<ObsFile, TextFault>
    requires few { length line.now ≤ MAX_FILE }
    requires goes_on { GoesOn line.now }
    ensures { IsAnswer Gps line.now result }
{
    if begins_2(line) {
        return read_obs2(alloc, line);
    }
    let mut feed = Feed::new(alloc, System::Gps);
    match feed.take(line) {
        Ok(()) => feed.finish(),
        Err(AllocError) => Err(TextFault::NoMemory),
    }
}

/// Takes the text of an observation file of GPS piece by piece, in either format. Of a file of RINEX 3 it holds what the
/// lines have given so far and the line that has begun; one of RINEX 2 it keeps.
#[derive(Drop)]
pub struct ObsTaker {
    alloc: Global,
    taken: u32,
    source: Source,
    ghost few: { taken ≤ MAX_FILE },
    ghost kept: { IsKeptOf source taken } by { IsKeptOf-prop source taken },
}

impl ObsTaker {
    /// A taker that has taken nothing. It takes no memory.
    #[tactic(auto, using(crate::proofs::TakerLaws::goes_none))]
    pub fn new(alloc: Global) -> ObsTaker
        ensures taken { ⟦<ObsTaker as Taker>⟧.taken result ≡ 0 }
        ensures stands { ⟦<ObsTaker as Taker>⟧.stands_for result [] }
    {
        ObsTaker {
            alloc,
            taken: 0,
            source: Source::FirstLine(StartedLine::new()),
        }
    }

    /// The observation file that the text taken stands for, or the first place at which it stands for none: the same for
    /// all texts for which the taker stands, however they were cut.
    pub fn finish(self) -> Result<ObsFile, TextFault>
        ensures answers { (text : List ℕ) → ⟦<ObsTaker as Taker>⟧.stands_for self text →
            IsAnswer Gps text result }
        ensures no_memory { HasNoMemory self.source → result ≡ Err TextFault.NoMemory }
    {
        let alloc = self.alloc;
        let source = self.source;
        match source {
            Source::FirstLine(line) => read_line(alloc, line.as_slice()),
            Source::Three(feed) => feed.finish(),
            Source::Two(bytes) => read_obs2(alloc, &bytes),
            Source::NoMemory => Err(TextFault::NoMemory),
        }
    }
}

impl Taker for ObsTaker {
    ghost taken = { λ s. s.taken };

    ghost stands_for = { λ s text. StandsForText s.source text };

    ghost is_refused = { λ s. HasNoMemory s.source };

    /// Takes the next piece. After running out of memory it answers so again, and so does `finish`.
    fn take(&mut self, piece: &[u8]) -> Result<(), AllocError>
        requires { self.old.taken + length piece.now ≤ MAX_FILE }
        ensures counted { OnOk result (self.new.taken ≡ self.old.taken + length piece.now) }
        ensures stands { OnOk result ((text : List ℕ) → StandsForText self.old.source text →
            StandsForText self.new.source (text ++ piece.now)) }
        ensures no_memory { OnErr result (HasNoMemory self.new.source) }
        ensures again { HasNoMemory self.old.source → IsErr result }
    {
        self.taken += piece.len() as u32;
        match &mut self.source {
            Source::FirstLine(line) => match go_on(self.alloc, line, piece) {
                Ok(None) => Ok(()),
                Ok(Some(source)) => {
                    self.source = source;
                    Ok(())
                }
                Err(AllocError) => {
                    self.source = Source::NoMemory;
                    Err(AllocError)
                }
            },
            Source::Three(feed) => match feed.take(piece) {
                Ok(()) => Ok(()),
                Err(AllocError) => {
                    self.source = Source::NoMemory;
                    Err(AllocError)
                }
            },
            Source::Two(bytes) => match bytes.extend_from_slice(piece) {
                Ok(()) => Ok(()),
                Err(AllocError) => {
                    self.source = Source::NoMemory;
                    Err(AllocError)
                }
            },
            Source::NoMemory => Err(AllocError),
        }
    }
}
