//! The base's pseudoranges: the part of the computed term that doesn't depend on the rover's point.
ghost use Rattle.std.specs.Prelude.{◌≡◌, Some, length, slice_get, IfOk, All};
ghost use Rattle.obs_rows.specs.ReceiverPoints.{IsReceiverPoint};
ghost use Rattle.orbit_model.specs.SeenPlaces.{place_at};
ghost use Rattle.screening.specs.BaseRanges.{HoldsRange};
ghost use Rattle.row_boxes.specs.YBoxes.{HoldsPseudoranges};
ghost use Rattle.row_boxes.specs.declared.pseudoranges.Pseudorange.{Pseudorange};
ghost use Rattle.row_build.specs.BasePseudoranges.{IsBasePseudorange, AreBasePseudoranges};

use row_boxes::{Pseudorange, pseudorange_of, sight_of, sighting_law};
use screening::{Screened, SvPair};
use std::alloc::{AllocError, Global};

/// What the base would observe of the satellite of an entry if its clock were right.
fn base_pseudorange_of(entry: &SvPair, base: &[i64; 3]) -> Pseudorange
    requires { IsReceiverPoint base.now }
    ensures { IsBasePseudorange entry.now base.now result }
{
    sight_of(&entry.base, base).pseudorange
}

// The base's pseudorange by the entry's range, which is that from the base: the sight of the mask is the base's.
fn base_pseudorange_by_range(entry: &SvPair, base: &[i64; 3]) -> Pseudorange
    requires point { IsReceiverPoint base.now }
    requires range { HoldsRange (place_at base.now) entry.now }
    ensures { IsBasePseudorange entry.now base.now result }
{
    sighting_law(&entry.base, base);
    pseudorange_of(&entry.base_range, &entry.base.clock)
}

// By the entry's range, which is that from `ranged`, where the base is there, and by a sight of its own elsewhere
fn base_pseudorange_from(entry: &SvPair, ranged: &[i64; 3], base: &[i64; 3]) -> Pseudorange
    requires point { IsReceiverPoint base.now }
    requires range { HoldsRange (place_at ranged.now) entry.now }
    ensures { IsBasePseudorange entry.now base.now result }
{
    if *ranged == *base {
        base_pseudorange_by_range(entry, base)
    } else {
        base_pseudorange_of(entry, base)
    }
}

/// The base's pseudorange of the entry in this place: the one that is kept, or else one that is made.
pub fn base_pseudorange_at(
    base_pseudoranges: &[Pseudorange],
    place: usize,
    entry: &SvPair,
    base: &[i64; 3],
) -> Pseudorange
    requires kept { (base_pseudorange : Pseudorange) → slice_get base_pseudoranges.now place
        ≡ Some base_pseudorange → HoldsPseudoranges entry.now.base base.now base_pseudorange }
    requires base { IsReceiverPoint base.now }
    ensures { IsBasePseudorange entry.now base.now result }
{
    sighting_law(&entry.base, base);
    match base_pseudoranges.get(place) {
        Some(base_pseudorange) => *base_pseudorange,
        None => base_pseudorange_of(entry, base),
    }
}

// The base's pseudorange of each entry in its place. The range in each is that from `ranged`.
fn base_pseudoranges_of(
    alloc: Global,
    boxes: &[SvPair],
    ranged: &[i64; 3],
    base: &[i64; 3],
) -> Result<Vec<Pseudorange>, AllocError>
    requires point { IsReceiverPoint base.now }
    requires ranges { All (HoldsRange (place_at ranged.now)) boxes.now }
    ensures base_pseudoranges { IfOk result (λ base_pseudoranges.
        AreBasePseudoranges boxes.now base.now base_pseudoranges.items) }
    ensures each { IfOk result (λ base_pseudoranges.
        length base_pseudoranges.items ≡ length boxes.now) }
{
    let mut base_pseudoranges = Vec::with_capacity(alloc, boxes.len())?;
    for place in 0..boxes.len() {
        base_pseudoranges.push(base_pseudorange_from(&boxes[place], ranged, base))?;
    }
    Ok(base_pseudoranges)
}

/// The base's pseudorange of each entry in its place, in 2^-15 ι, to be made once and kept for all rounds of a run. The base is at
/// `base`, in units of 0.1 mm. Where it is the base that was screened, the sights of the mask serve. Refused only where it is out of
/// memory.
pub fn base_pseudoranges(
    alloc: Global,
    screened: &Screened,
    base: &[i64; 3],
) -> Result<Vec<Pseudorange>, AllocError>
    requires { IsReceiverPoint base.now }
    ensures base_pseudoranges { IfOk result (λ base_pseudoranges.
        AreBasePseudoranges screened.now.boxes base.now base_pseudoranges.items) }
    ensures each { IfOk result (λ base_pseudoranges.
        length base_pseudoranges.items ≡ length screened.now.boxes) }
{
    let base_pseudoranges = base_pseudoranges_of(
        alloc,
        screened.boxes.as_slice(),
        &screened.base,
        base,
    )?;
    Ok(base_pseudoranges)
}
