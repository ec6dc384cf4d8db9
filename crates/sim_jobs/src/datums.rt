//! The datum of an arc's linked set.
ghost use Rattle.std.specs.Prelude.{◌≡◌, ◌<◌, length, Some, slice_get};
ghost use Rattle.obs_rows.specs.declared.arcs.Arc.{Arc};
ghost use Rattle.sim_jobs.specs.Matches.{IsDatumOf, AreMarked};

use obs_rows::Arc;

/// The place of the datum of arc k's linked set, which is the last at or before it.
pub fn datum_of(arcs: &[Arc], k: usize) -> usize
    requires inside { k < length arcs.now }
    requires marked { AreMarked arcs.now }
    ensures inside { result < length arcs.now }
    ensures datum { (e : Arc) → slice_get arcs.now result ≡ Some e → IsDatumOf arcs.now k result e }
{
    let mut place = k;
    // The first arc of all is a datum.
    'back: while !arcs[place].datum {
        place -= 1;
    }
    place
}
