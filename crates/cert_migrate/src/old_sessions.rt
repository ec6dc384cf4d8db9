//! Sessions as the first version has them: GPS, on L1 and L2, at the fine scale.
ghost use Rattle.std.specs.Prelude.{◌≡◌, ◌≤◌, length, IsTrue};
ghost use Rattle.cert_migrate.specs.OldRanges.{IsOldPoint, is_old_l1, is_old_l2};
ghost use Rattle.cert_migrate.specs.OldArcs.{AreOldArcs};
ghost use Rattle.cert_migrate.specs.OldPairs.{AreOldPairs};

use crate::{OldArc, OldPair};
use obs_rows::Items;

/// The letters of the codes on L1 and on L2.
#[derive(Clone, Copy, Debug, PartialEq, Eq)]
pub struct OldSignals {
    pub l1: u8,
    pub l2: u8,
    pub ghost on_l1: { IsTrue (is_old_l1 l1) },
    pub ghost on_l2: { IsTrue (is_old_l2 l2) },
}

/// The rows of all pairs at one point of the rover.
#[derive(Debug, Drop)]
pub struct OldSession {
    /// 0: the session is a fine one.
    pub scale: u32,
    /// The base's coordinates in 0.1 mm.
    pub base: [i64; 3],
    /// The rover's coordinates in 0.1 mm, from which the baseline is a move.
    pub point: [i64; 3],
    pub signals: OldSignals,
    pub arcs: Items<OldArc>,
    pub pairs: Items<OldPair>,
    pub ghost fine: { scale ≡ 0 },
    pub ghost base_in: { IsOldPoint base },
    pub ghost point_in: { IsOldPoint point },
    pub ghost arcs_in: { AreOldArcs arcs },
    pub ghost some_pairs: { 1 ≤ length pairs },
    pub ghost pairs_in: { AreOldPairs arcs pairs },
}
