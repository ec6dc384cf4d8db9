//! An observation file that is taken in pieces.
ghost use Rattle.std.specs.Prelude.{◌≡◌, ◌+◌, ◌≤◌, ◌<◌, ◌++◌, List, ℕ, [], length, OnOk, OnErr, IfErr, IsErr, Ok, Err};
ghost use Rattle.std.specs.Str.Lines.{strip_carriage_return};
ghost use Rattle.line_source.specs.declared.transfer.TheConstants.{MAX_FILE};
ghost use Rattle.rinex_head.specs.Places.{place, at_line};
ghost use Rattle.rinex_head.specs.declared.system.System.{System};
ghost use Rattle.rinex_head.specs.LineRules.{Gives, FailsBy};
ghost use Rattle.rinex_obs.specs.ObsRules.{finish};
ghost use Rattle.rinex_obs.specs.Opened.{expected_in};
ghost use Rattle.rinex_obs.specs.Feeding.{line_gives, gives_with, Takes, TakesAll, IsAnswerTo};
ghost use Rattle.rinex_obs.specs.Fed.{LinesWithin, LinesWithin-prop, gives_behind, StandsFor, HasNoMemory};

use crate::open_file::OpenFile;
use crate::started::{Overlong, StartedLine, split_line};
use line_source::{Line, MAX_LINE, Taker, without_return};
use obs_fields::OpenHeader;
use obs_store::ObsFile;
use rinex_head::{At, System, TextFault, What, flaw};
use std::alloc::{AllocError, Global};

/// A text of which more may follow: the number of the lines that were read, and the one that has begun.
#[derive(Drop)]
pub struct OpenText {
    pub number: u32,
    pub line: StartedLine,
    pub file: OpenFile,
}

/// What a feed holds between two pieces.
#[derive(Drop)]
pub enum FeedState {
    Open(OpenText),
    /// A line was refused, and the rest is dropped.
    Refused(At),
    NoMemory,
}

fn long_line(number: u32) -> At
    ensures { result ≡ place number 1 What.LongLine }
{
    flaw(1, What::LongLine).at(number)
}

// Reads a line, which may be too long.
fn take_line(alloc: Global, file: &mut OpenFile, number: u32, bytes: &[u8]) -> Result<(), TextFault>
    ensures { Takes (line_gives (expected_in file.old) bytes.now) number
        (expected_in file.new) result }
{
    if bytes.len() > MAX_LINE {
        return Err(TextFault::Refused(long_line(number)));
    }
    file.take_line(alloc, &Line { number, bytes })
}

impl OpenText {
    // The line that has begun ends with these bytes.
    fn end_line(&mut self, alloc: Global, bytes: &[u8]) -> Result<(), TextFault>
        requires { self.old.number < MAX_FILE }
        ensures taken { Takes (line_gives (expected_in self.old.file)
            (strip_carriage_return (self.old.line ++ bytes.now))) (self.old.number
            + 1) (expected_in self.new.file) result }
        ensures ended { OnOk result (self.new.line ≡ []) }
        ensures counted { OnOk result (self.new.number ≡ self.old.number + 1) }
    {
        self.number += 1;
        if self.line.as_slice().is_empty() {
            return take_line(alloc, &mut self.file, self.number, without_return(bytes));
        }
        match self.line.extend(bytes) {
            Ok(()) => {}
            Err(Overlong) => return Err(TextFault::Refused(long_line(self.number))),
        }
        let line = without_return(self.line.as_slice());
        take_line(alloc, &mut self.file, self.number, line)?;
        self.line.clear();
        Ok(())
    }

    // The line that has begun goes on with these bytes.
    fn go_on(&mut self, bytes: &[u8]) -> Result<(), At>
        requires { self.old.number ≤ MAX_FILE }
        ensures line { OnOk result (self.new.line ≡ self.old.line ++ bytes.now) }
        ensures number { OnOk result (self.new.number ≡ self.old.number) }
        ensures file { OnOk result (expected_in self.new.file ≡ expected_in self.old.file) }
        ensures err { IfErr result (λ at. (system : System) (more : List ℕ) →
            gives_with system self.old.number
            (self.old.line ++ bytes.now) (expected_in self.old.file) more ≡ Err at) }
    {
        match self.line.extend(bytes) {
            Ok(()) => Ok(()),
            Err(Overlong) => Err(long_line(self.number + 1)),
        }
    }

    // Reads the lines that end in the piece, and keeps the beginning of the next one.
    fn take(&mut self, alloc: Global, piece: &[u8]) -> Result<(), TextFault>
        requires { self.old.number + length self.old.line + length piece.now ≤ MAX_FILE }
        ensures takes { (system : System) → TakesAll piece.now (gives_behind system self.old)
            (gives_behind system self.new) result }
        ensures within { OnOk result (self.new.number + length self.new.line
            ≤ self.old.number + length self.old.line + length piece.now) }
    {
        let mut rest = piece;
        'lines: while let Some((bytes, behind)) = split_line(rest) {
            self.end_line(alloc, bytes)?;
            rest = behind;
        }
        match self.go_on(rest) {
            Ok(()) => Ok(()),
            Err(at) => Err(TextFault::Refused(at)),
        }
    }

    // Reads the last line, if one has begun.
    fn take_last(&mut self, alloc: Global) -> Result<(), TextFault>
        requires { self.old.number ≤ MAX_FILE }
        ensures ok { OnOk result ((system : System) → gives_behind system self.old []
            ≡ at_line (self.new.number + 1) (finish (expected_in self.new.file))) }
        ensures refused { IfErr result (λ fault. (system : System) →
            FailsBy (gives_behind system self.old []) fault) }
        ensures number { self.new.number ≤ self.old.number + 1 }
    {
        if self.line.as_slice().is_empty() {
            return Ok(());
        }
        self.number += 1;
        take_line(alloc, &mut self.file, self.number, self.line.as_slice())
    }

    // The file, where the text ends here.
    fn finish(mut self, alloc: Global) -> Result<ObsFile, TextFault>
        requires { self.number ≤ MAX_FILE }
        ensures { (system : System) → Gives (gives_behind system self []) (λ file. file) result }
    {
        self.take_last(alloc)?;
        let end = self.number + 1;
        self.file
            .finish()
            .map_err(|flaw| TextFault::Refused(flaw.at(end)))
    }
}

/// Takes the text of an observation file piece by piece, for the satellites of one system. Between two pieces it holds what the lines have given so far and
/// at most 4,097 bytes of the line that has begun, or the first refusal.
#[derive(Drop)]
pub struct Feed {
    alloc: Global,
    pub system: System,
    taken: u32,
    state: FeedState,
    ghost few: { taken ≤ MAX_FILE },
    ghost within: { LinesWithin state taken } by { LinesWithin-prop state taken },
}

impl Feed {
    /// A feed that has taken nothing, for the satellites of that system. It takes no memory.
    pub fn new(alloc: Global, system: System) -> Feed
        ensures system { result.system ≡ system }
        ensures taken { ⟦<Feed as Taker>⟧.taken result ≡ 0 }
        ensures stands { ⟦<Feed as Taker>⟧.stands_for result [] }
    {
        Feed {
            alloc,
            system,
            taken: 0,
            state: FeedState::Open(OpenText {
                number: 0,
                line: StartedLine::new(),
                file: OpenFile::Header(OpenHeader::First(system)),
            }),
        }
    }

    /// The observation file that the text taken stands for, or the first place at which it stands for none: the same for
    /// all texts for which the feed stands, however they were cut.
    pub fn finish(self) -> Result<ObsFile, TextFault>
        ensures answers { (text : List ℕ) → ⟦<Feed as Taker>⟧.stands_for self text →
            IsAnswerTo self.system text result }
        ensures no_memory { HasNoMemory self.state → result ≡ Err TextFault.NoMemory }
    {
        let alloc = self.alloc;
        let state = self.state;
        match state {
            FeedState::Open(text) => text.finish(alloc),
            FeedState::Refused(at) => Err(TextFault::Refused(at)),
            FeedState::NoMemory => Err(TextFault::NoMemory),
        }
    }
}

impl Taker for Feed {
    ghost taken = { λ s. s.taken };

    ghost stands_for = { λ s text. StandsFor s.system s.state s.taken text };

    ghost is_refused = { λ s. HasNoMemory s.state };

    /// Takes the next piece. After a line that is refused it drops what follows. After running out of memory it answers so
    /// again, and so does `finish`.
    fn take(&mut self, piece: &[u8]) -> Result<(), AllocError>
        requires { self.old.taken + length piece.now ≤ MAX_FILE }
        ensures counted { OnOk result (self.new.taken ≡ self.old.taken + length piece.now) }
        ensures stands { OnOk result ((text : List ℕ) →
            StandsFor self.old.system self.old.state self.old.taken text →
            StandsFor self.new.system self.new.state self.new.taken (text ++ piece.now)) }
        ensures system { self.new.system ≡ self.old.system }
        ensures no_memory { OnErr result (HasNoMemory self.new.state) }
        ensures again { HasNoMemory self.old.state → IsErr result }
    {
        self.taken += piece.len() as u32;
        match &mut self.state {
            FeedState::Open(text) => match text.take(self.alloc, piece) {
                Ok(()) => Ok(()),
                Err(TextFault::Refused(at)) => {
                    self.state = FeedState::Refused(at);
                    Ok(())
                }
                Err(TextFault::NoMemory) => {
                    self.state = FeedState::NoMemory;
                    Err(AllocError)
                }
            },
            FeedState::Refused(_) => Ok(()),
            FeedState::NoMemory => Err(AllocError),
        }
    }
}
