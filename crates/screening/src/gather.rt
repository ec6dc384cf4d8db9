//! The used satellites of one pair.
ghost use Rattle.std.specs.Prelude.{◌≡◌, ◌≤◌, ◌⊎◌, ℕ, false, IfOk, OnOk};
ghost use Rattle.std.specs.Int.{abs_diff};
ghost use Rattle.obs_rows.specs.UsedSats.{IsSmall};
ghost use Rattle.screening.specs.declared.amounts.SignalTypes.{SignalTypes};
ghost use Rattle.screening.specs.Entries.{IsSatNumber};
ghost use Rattle.screening.specs.Observed.{phases_of};
ghost use Rattle.screening.specs.Marks.{power_failed, lost_lock};
ghost use Rattle.screening.specs.Sightings.{setting_with};
ghost use Rattle.screening.specs.Gathering.{IsPassedOver, IsAdded, AreGathered, IsGathered};

use crate::amounts::SignalTypes;
use crate::marks::{lost_in, may_lose, power_failed};
use crate::records::RecordTable;
use crate::rules::Rules;
use crate::sights::sv_pair_of;
use crate::{SvPair, SvPairList, UsedPair, UsedSat};
use obs_rows::{L1_PHASE, L2_PHASE, L5_PHASE, MOST_SATELLITES};
use obs_store::Epoch;
use std::alloc::{AllocError, Global};

/// A pair's two epochs, and the epochs of both files up to it.
#[derive(Clone, Copy)]
pub struct PairAt<'a> {
    pub number: u32,
    pub base: &'a Epoch,
    pub rover: &'a Epoch,
    pub base_passed: &'a [Epoch],
    pub rover_passed: &'a [Epoch],
}

// Whether power failed up to the pair.
fn power_up_to(at: &PairAt<'_>) -> bool
    ensures { result
        ≡ power_failed (record { base = at.now.base_passed.now; rover = at.now.rover_passed.now }) }
{
    power_failed(at.base_passed) || power_failed(at.rover_passed)
}

// Whether a phase of the satellite lost lock up to the pair; nothing is looked at where none may have.
fn lost_up_to(may: bool, types: &SignalTypes, number: u8, at: &PairAt<'_>) -> bool
    requires { may ≡ false → (types : SignalTypes) (number : ℕ) → lost_lock types number
        (record { base = at.now.base_passed.now; rover = at.now.rover_passed.now }) ≡ false }
    ensures { result ≡ lost_lock types.now number
        (record { base = at.now.base_passed.now; rover = at.now.rover_passed.now }) }
{
    may && (lost_in(types, number, at.base_passed) || lost_in(types, number, at.rover_passed))
}

fn used_sat(entry: &SvPair, lost: bool) -> UsedSat
    ensures sat { result.sat ≡ entry.now.sat }
    ensures phase { result.phase ≡ phases_of entry.now.observed }
    ensures lost { result.lost ≡ lost }
    ensures small { IsSmall result }
{
    UsedSat {
        sat: entry.sat,
        phase: [
            entry.observed[L1_PHASE],
            entry.observed[L2_PHASE],
            entry.observed[L5_PHASE],
        ],
        lost,
    }
}

// Adds the satellite of that number, where both epochs have it, the base sees it above the mask and there is room.
fn add_sat(
    rules: &Rules,
    table: &RecordTable<'_>,
    at: &PairAt<'_>,
    may: bool,
    number: u8,
    sats: &mut Vec<UsedSat>,
    boxes: &mut SvPairList,
) -> Result<(), AllocError>
    requires near { abs_diff at.now.base.now.tag.0 at.now.rover.now.tag.0 ≤ 5_000_000 }
    requires number { IsSatNumber number }
    requires may { may ≡ false → (types : SignalTypes) (number : ℕ) → lost_lock types number
        (record { base = at.now.base_passed.now; rover = at.now.rover_passed.now }) ≡ false }
    ensures { OnOk result (IsPassedOver (setting_with rules.now table.now) at.now.base.now
        at.now.rover.now number sats.old.items sats.new.items boxes.old boxes.new
        ⊎ IsAdded (setting_with rules.now table.now) at.now.base.now at.now.rover.now
        (record { base = at.now.base_passed.now; rover = at.now.rover_passed.now }) at.now.number
        number sats.old.items sats.new.items boxes.old boxes.new) }
{
    if sats.len() >= MOST_SATELLITES {
        return Ok(());
    }
    let Some(entry) = sv_pair_of(rules, table, at.base, at.rover, at.number, number) else {
        return Ok(());
    };
    let lost = lost_up_to(may, &rules.types, number, at);
    sats.push(used_sat(&entry, lost))?;
    boxes.push(entry)?;
    Ok(())
}

// The used satellites of a pair, in rising number. Their entries go after the earlier ones.
fn sats_of(
    alloc: Global,
    rules: &Rules,
    table: &RecordTable<'_>,
    at: &PairAt<'_>,
    boxes: &mut SvPairList,
) -> Result<Vec<UsedSat>, AllocError>
    requires near { abs_diff at.now.base.now.tag.0 at.now.rover.now.tag.0 ≤ 5_000_000 }
    ensures { IfOk result (λ sats. AreGathered (setting_with rules.now table.now) at.now.base.now
        at.now.rover.now (record { base = at.now.base_passed.now; rover = at.now.rover_passed.now })
        at.now.number 37 boxes.old sats.items boxes.new) }
{
    let may = may_lose(at.base_passed, at.rover_passed);
    let mut sats: Vec<UsedSat> = Vec::new(alloc);
    'numbers: for number in 1..37u8 {
        add_sat(rules, table, at, may, number, &mut sats, boxes)?;
    }
    Ok(sats)
}

/// What a pair uses. The entries of its satellites go after the earlier ones.
pub fn gather(
    alloc: Global,
    rules: &Rules,
    table: &RecordTable<'_>,
    at: &PairAt<'_>,
    boxes: &mut SvPairList,
) -> Result<UsedPair, AllocError>
    requires near { abs_diff at.now.base.now.tag.0 at.now.rover.now.tag.0 ≤ 5_000_000 }
    ensures { IfOk result (λ u. IsGathered (setting_with rules.now table.now) at.now.base.now
        at.now.rover.now (record { base = at.now.base_passed.now; rover = at.now.rover_passed.now })
        at.now.number boxes.old u boxes.new) }
{
    let power = power_up_to(at);
    let sats = sats_of(alloc, rules, table, at, boxes)?;
    Ok(UsedPair { power, sats })
}
