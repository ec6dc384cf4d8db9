//! What rows are made from.
ghost use Rattle.std.specs.Prelude.{◌≤◌, length};
ghost use Rattle.obs_rows.specs.ReceiverPoints.{IsReceiverPoint};
ghost use Rattle.obs_rows.specs.declared.limits.TheConstants.{MOST_ARCS};
ghost use Rattle.slip_arcs.specs.Linked.{IsCutOf};
ghost use Rattle.row_build.specs.BasePseudoranges.{AreBasePseudoranges};
ghost use Rattle.row_build.specs.Sights.{AreRoverSights};

use obs_rows::{Arc, Signals};
use row_boxes::{Pseudorange, Sight};
use screening::Screened;

/// What the rows of a point are made from: each call that takes one knows what the ghost fields say.
#[derive(Clone, Copy)]
pub struct RowSource<'a> {
    /// The satellites that the pairs use, with their boxes.
    pub screened: &'a Screened,
    /// The base's pseudoranges that are kept, each in the place of its entry: `base_pseudoranges` makes them once for all points of
    /// a run.
    /// What is not kept is made, so the rows are the same with none.
    pub base_pseudoranges: &'a [Pseudorange],
    /// The arcs with their shifts: but for these some cut of the screened pairs keeps them.
    pub arcs: &'a [Arc],
    /// The base's position, in units of 0.1 mm.
    pub base: &'a [i64; 3],
    /// The rover's point, in units of 0.1 mm.
    pub point: &'a [i64; 3],
    /// What is kept of what the rover sees from the point, each in the place of its entry: `KeptSights` keeps it for the rounds that
    /// have one point. What is not kept is made, so the rows are the same with none.
    pub sights: &'a [Sight],
    /// The signals that `screened` was made of.
    pub signals: Signals,
    pub ghost cut: { ∥ IsCutOf screened.now.used arcs.now ∥₁ },
    pub ghost few: { length arcs.now ≤ MOST_ARCS },
    pub ghost base_in: { IsReceiverPoint base.now },
    pub ghost point_in: { IsReceiverPoint point.now },
    pub ghost base_pseudoranges_hold: { ∥ AreBasePseudoranges screened.now.boxes base.now
        base_pseudoranges.now ∥₁ },
    pub ghost sights_hold: { AreRoverSights screened.now.boxes point.now sights.now },
}
