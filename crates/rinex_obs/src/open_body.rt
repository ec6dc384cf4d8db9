//! A body of which more may follow.
ghost use Rattle.std.specs.Prelude.{◌≡◌, ◌-◌, ◌<◌, [], length, IfSome, OnOk};
ghost use Rattle.obs_store.specs.Epochs.{last_tag_of};
ghost use Rattle.obs_fields.specs.Types.{kept_from};
ghost use Rattle.rinex_obs.specs.Parts.{FitsBehind, FitsBehind-prop};
ghost use Rattle.rinex_obs.specs.ObsRules.{Body, Sats, Skip, more_sats, more_lines, sats_with, admit, finish};
ghost use Rattle.rinex_obs.specs.Feeding.{Takes};

use crate::epoch_lines::{EpochLine, epoch_line};
use crate::sat_lines::satellite_line;
use gps_time::Tick;
use line_source::Line;
use obs_fields::{Header, KeptType, Layout, event_line, listed_types};
use obs_store::{Epoch, Epochs, ObsFile, SatValues, Satellites};
use rinex_head::{Flaw, System, TextFault, What, flaw};
use std::alloc::{AllocError, Global};
use std::mem;

/// An epoch, and how many of its lines are due.
#[derive(Drop)]
pub struct OpenEpoch {
    pub tag: Tick,
    pub power: bool,
    pub sats: Satellites,
    pub left: u16,
}

impl OpenEpoch {
    // Reads the line of a satellite, which is added where it is of the system.
    fn take_line(
        &mut self,
        system: System,
        kept: &[KeptType],
        line: &Line<'_>,
    ) -> Result<(), TextFault>
        requires due { 0 < self.old.left }
        ensures sats { Takes (sats_with system kept.now self.old.sats line.now.bytes.now)
            line.now.number self.new.sats result }
        ensures left { self.new.left ≡ self.old.left - 1 }
        ensures tag { self.new.tag ≡ self.old.tag }
        ensures power { self.new.power ≡ self.old.power }
    {
        self.left -= 1;
        let mut values = SatValues::missing();
        let found = match satellite_line(system, line.bytes, kept, &self.sats, &mut values) {
            Ok(found) => found,
            Err(flaw) => return Err(TextFault::Refused(flaw.at(line.number))),
        };
        let Some(number) = found else {
            return Ok(());
        };
        match self.sats.add(number, &values) {
            Ok(()) => Ok(()),
            Err(AllocError) => Err(TextFault::NoMemory),
        }
    }
}

/// Where the next line of a body stands.
#[derive(Drop)]
pub enum Part {
    /// After the parts that were read.
    Between,
    Epoch(OpenEpoch),
    /// In an event, and how many of its lines are due.
    Event { changes: bool, left: u16 },
}

/// What the lines of a body have given so far.
#[derive(Drop)]
pub struct OpenBody {
    header: Header,
    kept: Vec<KeptType>,
    epochs: Epochs,
    part: Part,
    // the memory of an epoch that was read, for the satellites of the next one
    spare: Satellites,
    ghost kept_is: { kept.items ≡ kept_from header.system 0 header.types },
    ghost fits: { FitsBehind epochs part } by { FitsBehind-prop epochs part },
}

impl OpenBody {
    ghost use Rattle.rinex_obs.specs.Opened.{expected_in_body};

    /// The body after its header, whose kept types are these.
    pub fn new(alloc: Global, header: Header, kept: Vec<KeptType>) -> OpenBody
        requires { kept.items ≡ kept_from header.system 0 header.types }
        ensures { expected_in_body result ≡ Body header [] }
    {
        OpenBody {
            header,
            kept,
            epochs: Epochs::new(alloc),
            part: Part::Between,
            spare: Satellites::new(alloc),
        }
    }

    /// Reads the next line.
    #[tactic(auto, using(crate::proofs::Admits::sats_due, crate::proofs::Admits::sats_taken, crate::proofs::Admits::lines_due))]
    pub fn take_line(&mut self, alloc: Global, line: &Line<'_>) -> Result<(), TextFault>
        ensures { Takes (admit (expected_in_body self.old) line.now.bytes.now) line.now.number
            (expected_in_body self.new) result }
    {
        // An epoch or an event of which more lines are due stays in its place.
        match &mut self.part {
            Part::Epoch(epoch) if epoch.left > 1 => {
                epoch.take_line(self.header.system, &self.kept, line)
            }
            Part::Event { changes, left } if *left > 1 => {
                match event_line(Layout::Rinex3, line, *changes) {
                    Ok(()) => {
                        *left -= 1;
                        Ok(())
                    }
                    Err(flaw) => Err(TextFault::Refused(flaw.at(line.number))),
                }
            }
            _ => self.take_any_line(alloc, line),
        }
    }

    // Reads a line after which the part may be whole.
    #[inline(never)]
    fn take_any_line(&mut self, alloc: Global, line: &Line<'_>) -> Result<(), TextFault>
        ensures { Takes (admit (expected_in_body self.old) line.now.bytes.now) line.now.number
            (expected_in_body self.new) result }
    {
        match mem::replace(&mut self.part, Part::Between) {
            Part::Between => self.begin_part(alloc, line),
            Part::Epoch(epoch) => self.take_satellite(alloc, line, epoch),
            Part::Event { changes, left } => self.take_event_line(line, changes, left),
        }
    }

    // A blank line, or the first line of an epoch or of an event.
    #[inline(never)]
    fn begin_part(&mut self, alloc: Global, line: &Line<'_>) -> Result<(), TextFault>
        requires { self.old.part ≡ Part.Between }
        ensures { Takes (admit (Body self.old.header self.old.epochs) line.now.bytes.now)
            line.now.number (expected_in_body self.new) result }
    {
        match epoch_line(line.bytes, &self.epochs) {
            Ok(EpochLine::Blank) => Ok(()),
            Ok(EpochLine::Event { changes, count }) => {
                self.expect_event(changes, count);
                Ok(())
            }
            Ok(EpochLine::Epoch { tag, power, count }) => {
                let mut sats = mem::replace(&mut self.spare, Satellites::new(alloc));
                sats.clear();
                let epoch = OpenEpoch {
                    tag,
                    power,
                    sats,
                    left: count,
                };
                match self.expect_epoch(alloc, epoch) {
                    Ok(()) => Ok(()),
                    Err(AllocError) => Err(TextFault::NoMemory),
                }
            }
            Err(flaw) => Err(TextFault::Refused(flaw.at(line.number))),
        }
    }

    #[tactic(auto, using(crate::proofs::Admits::sats_taken))]
    fn take_satellite(
        &mut self,
        alloc: Global,
        line: &Line<'_>,
        mut epoch: OpenEpoch,
    ) -> Result<(), TextFault>
        requires between { self.old.part ≡ Part.Between }
        requires due { 0 < epoch.left }
        requires room { length self.old.epochs < 20_000 }
        requires later { IfSome (last_tag_of self.old.epochs) (λ last. last.0 < epoch.tag.0) }
        ensures { Takes (admit (Sats self.old.header self.old.epochs epoch.tag epoch.power
            epoch.sats epoch.left) line.now.bytes.now) line.now.number
            (expected_in_body self.new) result }
    {
        epoch.take_line(self.header.system, &self.kept, line)?;
        match self.expect_epoch(alloc, epoch) {
            Ok(()) => Ok(()),
            Err(AllocError) => Err(TextFault::NoMemory),
        }
    }

    fn take_event_line(
        &mut self,
        line: &Line<'_>,
        changes: bool,
        left: u16,
    ) -> Result<(), TextFault>
        requires between { self.old.part ≡ Part.Between }
        requires due { 0 < left }
        ensures { Takes (admit (Skip self.old.header self.old.epochs changes left)
            line.now.bytes.now) line.now.number (expected_in_body self.new) result }
    {
        match event_line(Layout::Rinex3, line, changes) {
            Ok(()) => {
                self.expect_event(changes, left - 1);
                Ok(())
            }
            Err(flaw) => Err(TextFault::Refused(flaw.at(line.number))),
        }
    }

    // The epoch is whole where none of its lines is due.
    #[tactic(auto, using(crate::proofs::Admits::sats_due, crate::proofs::Admits::sats_all))]
    fn expect_epoch(&mut self, alloc: Global, epoch: OpenEpoch) -> Result<(), AllocError>
        requires between { self.old.part ≡ Part.Between }
        requires room { length self.old.epochs < 20_000 }
        requires later { IfSome (last_tag_of self.old.epochs) (λ last. last.0 < epoch.tag.0) }
        ensures { OnOk result (expected_in_body self.new ≡ more_sats self.old.header self.old.epochs
            epoch.tag epoch.power epoch.sats epoch.left) }
    {
        if epoch.left > 0 {
            self.part = Part::Epoch(epoch);
            return Ok(());
        }
        let whole = Epoch {
            tag: epoch.tag,
            power: epoch.power,
            sats: epoch.sats.copy(alloc)?,
        };
        self.spare = epoch.sats;
        self.epochs.push(whole)
    }

    // Where no line of it is due, the event is read.
    #[tactic(auto, using(crate::proofs::Admits::lines_due, crate::proofs::Admits::lines_all))]
    fn expect_event(&mut self, changes: bool, left: u16)
        requires { self.old.part ≡ Part.Between }
        ensures { expected_in_body self.new
            ≡ more_lines self.old.header self.old.epochs changes left }
    {
        if left > 0 {
            self.part = Part::Event { changes, left };
        }
    }

    /// The file, where no line is due.
    pub fn finish(self) -> Result<ObsFile, Flaw>
        ensures { result ≡ finish (expected_in_body self) }
    {
        if !matches!(self.part, Part::Between) {
            return Err(flaw(1, What::Truncated));
        }
        Ok(ObsFile {
            hundredths: self.header.hundredths,
            position: self.header.position,
            delta: self.header.delta,
            listed: listed_types(self.header.system, &self.header.types),
            epochs: self.epochs,
        })
    }
}
