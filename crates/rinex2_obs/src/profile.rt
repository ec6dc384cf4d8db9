//! The types that are kept of a list of RINEX 2, and as which ones.
ghost use Rattle.std.specs.Prelude.{◌≡◌, IfOk};
ghost use Rattle.rinex2_obs.specs.Profile.{kept_type_in, kept_of, is_among, listed_of};

use obs_fields::{KeptType, TypeNames, add_kept};
use obs_store::{ObsType, SLOTS};
use std::alloc::{AllocError, Global};

fn kept_type(name: &[u8]) -> Option<ObsType>
    ensures { result ≡ kept_type_in name.now }
{
    if name == b"C1 ".as_slice() {
        return Some(ObsType::C1C);
    }
    if name == b"L1 ".as_slice() {
        return Some(ObsType::L1C);
    }
    if name == b"P2 ".as_slice() {
        return Some(ObsType::C2W);
    }
    if name == b"L2 ".as_slice() {
        return Some(ObsType::L2W);
    }
    if name == b"C5 ".as_slice() {
        return Some(ObsType::C5X);
    }
    if name == b"L5 ".as_slice() {
        return Some(ObsType::L5X);
    }
    None
}

/// The kept types of a list, each with its number in the list.
pub fn kept_types(alloc: Global, names: &TypeNames) -> Result<Vec<KeptType>, AllocError>
    ensures { IfOk result (λ kept. kept.items ≡ kept_of names.now) }
{
    let mut kept: Vec<KeptType> = Vec::new(alloc);
    for (number, name) in names.as_slice().iter().enumerate() {
        add_kept(&mut kept, number as u8, kept_type(name))?;
    }
    Ok(kept)
}

fn is_kept(kept: &[KeptType], kind: ObsType) -> bool
    ensures { result ≡ is_among kept.now kind }
{
    kept.iter().any(|one| one.kind.slot() == kind.slot())
}

/// Whether each type is among the kept ones, in the order of the slots.
pub fn listed_types(kept: &[KeptType]) -> [bool; SLOTS]
    ensures { result ≡ listed_of kept.now }
{
    let mut listed = [false; SLOTS];
    for (slot, kind) in ObsType::ALL.iter().enumerate() {
        listed[slot] = is_kept(kept, *kind);
    }
    listed
}
