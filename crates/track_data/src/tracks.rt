//! Tracks: the rows of the pairs that are tracked, each from a point of its own.
ghost use Rattle.std.specs.Prelude.{◌≡◌, All, length};
ghost use Rattle.obs_rows.specs.Ranges.{IsSystem, IsPoint};
ghost use Rattle.obs_rows.specs.Arcs.{AreArcs};
ghost use Rattle.obs_rows.specs.Pairs.{ArePairs};
ghost use Rattle.obs_rows.specs.Signals.{fine_signals};
ghost use Rattle.obs_rows.specs.Unused.{HasUsedRows, HasUsedShifts};

use crate::Items;
use obs_rows::{ArcList, PairList, Signals};

/// The rows of the tracked pairs at the fine scale. There may be none.
#[derive(Debug, Drop)]
pub struct Track {
    /// The letter of the satellite system: G or E.
    pub system: u8,
    /// The base's coordinates in 0.1 mm.
    pub base: [i64; 3],
    pub signals: Signals,
    pub arcs: ArcList,
    /// For each pair the rover's coordinates in 0.1 mm, from which the baseline of the pair is a move.
    pub points: Items<[i64; 3]>,
    pub pairs: PairList,
    pub ghost system_is: { IsSystem system },
    pub ghost base_in: { IsPoint base },
    pub ghost arcs_in: { AreArcs arcs },
    pub ghost points_in: { All IsPoint points },
    pub ghost point_each: { length points ≡ length pairs },
    pub ghost pairs_in: { ArePairs arcs pairs },
    pub ghost rows_used: { All (HasUsedRows (fine_signals signals)) pairs },
    pub ghost shifts_used: { All (HasUsedShifts (fine_signals signals)) arcs },
}
