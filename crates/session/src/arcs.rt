//! What was screened of two files, with the arcs that are kept of it.
ghost use Rattle.std.specs.Prelude.{◌≤◌, All, AllPairs, length, IfOk};
ghost use Rattle.obs_store.specs.Epochs.{tags_of};
ghost use Rattle.obs_rows.specs.declared.limits.TheConstants.{MOST_PAIRS};
ghost use Rattle.epoch_pair.specs.Pairs.{Follows, IsNearPair};
ghost use Rattle.slip_arcs.specs.Linked.{IsCutOf};
ghost use Rattle.epoch_pair.specs.Beginnings.{IsPosition};
ghost use Rattle.session.specs.ScreenedArcs.{AreScreenedArcs};

use eph_store::NavFile;
use epoch_pair::{Options, SessionStart};
use obs_store::ObsFile;
use row_build::{Screened, screen_in};
use slip_arcs::{Arcs, cut};
use std::alloc::{AllocError, Global};
use sv_orbit::world_of;

/// What was screened of two files, with the arcs that are kept and the number of those that are too short.
#[derive(Debug, Drop)]
pub struct ScreenedArcs {
    pub screened: Screened,
    pub arcs: Arcs,
}

/// The used satellites of the taken pairs, and the arcs that are kept of them.
pub fn screened_arcs(
    alloc: Global,
    base: &ObsFile,
    rover: &ObsFile,
    nav: &NavFile,
    begun: &SessionStart,
    options: &Options,
) -> Result<ScreenedArcs, AllocError>
    requires position { IsPosition base.now begun.now.position }
    requires few { length begun.now.taken.items ≤ MOST_PAIRS }
    requires rises { AllPairs Follows begun.now.taken.items }
    requires near { All (IsNearPair options.now.gap (tags_of base.now.epochs)
        (tags_of rover.now.epochs)) begun.now.taken.items }
    ensures screened { IfOk result (λ f. AreScreenedArcs base.now rover.now nav.now options.now
        begun.now.signals begun.now.taken.items f.screened f.arcs.kept f.arcs.short) }
    ensures cut { IfOk result (λ f. IsCutOf f.screened.used f.arcs.kept) }
{
    let taken = begun.taken.as_slice();
    let world = world_of(options.system);
    let screened = screen_in(
        alloc,
        base,
        rover,
        nav,
        begun.signals,
        taken,
        options.mask,
        &world,
    )?;
    let used = screened.used.as_slice();
    let arcs = cut(alloc, used, options.bands, options.jump, options.arc)?;
    Ok(ScreenedArcs { screened, arcs })
}
