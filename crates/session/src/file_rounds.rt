//! The rounds of a run over what was screened of two files.
ghost use Rattle.std.specs.Prelude.{◌≡◌, ◌<◌, ◌^◌, length, All, Some, slice_get};
ghost use Rattle.obs_rows.specs.Arcs.{AreArcs};
ghost use Rattle.obs_rows.specs.Ranges.{IsBelow, IsSystem};
ghost use Rattle.obs_rows.specs.Signals.{fine_signals};
ghost use Rattle.obs_rows.specs.Unused.{HasUsedShifts};
ghost use Rattle.obs_rows.specs.ReceiverPoints.{IsReceiverPoint};
ghost use Rattle.slip_arcs.specs.Linked.{IsCutOf};
ghost use Rattle.row_build.specs.BasePseudoranges.{AreBasePseudoranges};
ghost use Rattle.row_build.specs.Sights.{AreRoverSights};
ghost use Rattle.row_build.specs.Rows.{setting};
ghost use Rattle.row_build.specs.Shifts.{AreFirstShifts};
ghost use Rattle.round_steps.specs.Shifts.{without_shifts};
ghost use Rattle.session.specs.FileRules.{rules_of};

use obs_rows::{Arc, ArcList, Session, Signals};
use round_steps::Rounds;
use row_build::{KeptSights, Pseudorange, RowFault, RowSource, Screened, rows_with, shift_with};
use std::alloc::{AllocError, Global};

/// What was screened of two files, with the arcs that were kept.
#[derive(Debug, Drop)]
pub struct FileRounds {
    pub screened: Screened,
    pub kept: ArcList,
    /// The base's position.
    pub position: [i64; 3],
    pub signals: Signals,
    /// The satellites' system, by its letter.
    pub system: u8,
    /// The base's pseudorange of each entry, which no round changes.
    pub base_pseudoranges: Vec<Pseudorange>,
}

/// The rounds of a run over these files.
#[derive(Debug, Drop)]
pub struct FileRun<'a> {
    pub files: &'a FileRounds,
    /// How many sessions were made.
    pub made: u32,
    /// What the rover sees from the point of the last of them: the last coarse round and the first fine one have one point.
    pub kept: KeptSights,
}

impl<'a> Rounds for FileRun<'a> {
    ghost rules = { λ r. rules_of r.files.now.screened.boxes (length r.files.now.screened.used)
        r.files.now.kept r.files.now.position r.files.now.signals r.files.now.system };

    ghost ready = { λ r. IsCutOf r.files.now.screened.used r.files.now.kept
        × (AreArcs r.files.now.kept × IsReceiverPoint r.files.now.position)
        × (AreBasePseudoranges r.files.now.screened.boxes r.files.now.position
        r.files.now.base_pseudoranges.items × IsSystem r.files.now.system)
        × AreRoverSights r.files.now.screened.boxes r.kept.point r.kept.sights.items };

    ghost made = { λ r. r.made };

    fn session(
        &mut self,
        alloc: Global,
        arcs: &[Arc],
        point: &[i64; 3],
        scale: u32,
    ) -> Result<Option<Session>, AllocError> {
        self.made += 1;
        let files = self.files;
        self.kept.turn_to(alloc, &files.screened, point)?;
        let from = RowSource {
            screened: &files.screened,
            base_pseudoranges: files.base_pseudoranges.as_slice(),
            arcs,
            base: &files.position,
            point,
            sights: self.kept.sights.as_slice(),
            signals: files.signals,
        };
        match rows_with(alloc, &from, scale, files.system) {
            Ok(session) => Ok(Some(session)),
            Err(RowFault::Overwidth) => Ok(None),
            Err(RowFault::NoMemory) => Err(AllocError),
        }
    }

    fn first_shifts(&self, alloc: Global, point: &[i64; 3]) -> Result<Vec<Arc>, AllocError> {
        let mut arcs = Vec::new(alloc);
        for k in 0..self.files.kept.len() {
            arcs.push(first_arc(self.files, k, point))?;
        }
        Ok(arcs)
    }
}

/// Kept arc k with the shifts that its first pair gives.
fn first_arc(files: &FileRounds, k: usize, point: &[i64; 3]) -> Arc
    requires cut { IsCutOf files.now.screened.used files.now.kept }
    requires arcs { AreArcs files.now.kept }
    requires base { IsReceiverPoint files.now.position }
    requires base_pseudoranges { AreBasePseudoranges files.now.screened.boxes files.now.position
        files.now.base_pseudoranges.items }
    requires point { IsReceiverPoint point.now }
    requires inside { k < length files.now.kept }
    ensures same { (a : Arc) → slice_get files.now.kept k ≡ Some a →
        without_shifts result ≡ without_shifts a }
    ensures near { (a : Arc) → slice_get files.now.kept k ≡ Some a →
        AreFirstShifts (setting files.now.screened.boxes files.now.kept files.now.position point.now
        files.now.signals 0) a.first a.sat result.shift }
    ensures size { All (IsBelow (2 ^ 39)) result.shift }
    ensures used { HasUsedShifts (fine_signals files.now.signals) result }
{
    let kept = files.kept.as_slice();
    let arc = kept[k];
    let from = RowSource {
        screened: &files.screened,
        base_pseudoranges: files.base_pseudoranges.as_slice(),
        arcs: kept,
        base: &files.position,
        point,
        sights: &[],
        signals: files.signals,
    };
    // The arc holds its first pair.
    let shift = shift_with(&from, k as u16, arc.first).unwrap();
    Arc {
        sat: arc.sat,
        first: arc.first,
        last: arc.last,
        datum: arc.datum,
        shift,
    }
}
