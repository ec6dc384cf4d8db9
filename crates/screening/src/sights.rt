//! A satellite that both receivers of a pair observe, with its boxes.
ghost use Rattle.std.specs.Prelude.{◌≡◌, ◌≤◌, ◌<◌, MatchOption, unsigned_abs};
ghost use Rattle.std.specs.Int.{abs_diff};
ghost use Rattle.obs_rows.specs.declared.units.TheConstants.{SIGNALS};
ghost use Rattle.screening.specs.Amounts.{AreAmounts, difference, differences};
ghost use Rattle.screening.specs.Entries.{IsSatNumber};
ghost use Rattle.screening.specs.Observed.{AreAmountsBelow, size_of};
ghost use Rattle.screening.specs.Sightings.{setting_with};
ghost use Rattle.screening.specs.Screening.{IsEntryAt, IsLeftOut};

use crate::SvPair;
use crate::amounts::amounts_at;
use crate::records::{RecordTable, chosen};
use crate::rules::Rules;
use obs_rows::{L1_CODE, SIGNALS};
use obs_store::Epoch;
use signal_travel::{above, seen_from};
use sv_orbit::sv_from;

fn difference(base: &[i64; SIGNALS], rover: &[i64; SIGNALS], signal: usize) -> i64
    requires base { AreAmounts base.now }
    requires rover { AreAmounts rover.now }
    requires signal { signal < SIGNALS }
    ensures value { result ≡ difference base.now rover.now signal }
    ensures size { unsigned_abs result < size_of signal }
{
    rover[signal] - base[signal]
}

fn differences(base: &[i64; SIGNALS], rover: &[i64; SIGNALS]) -> [i64; SIGNALS]
    requires base { AreAmounts base.now }
    requires rover { AreAmounts rover.now }
    ensures value { result ≡ differences base.now rover.now }
    ensures below { AreAmountsBelow result }
{
    let mut differences = [0; SIGNALS];
    for signal in 0..SIGNALS {
        differences[signal] = difference(base, rover, signal);
    }
    differences
}

/// What a pair of epochs says of a satellite that it may use. The boxes of a receiver are made once.
pub fn sv_pair_of(
    rules: &Rules,
    table: &RecordTable<'_>,
    base: &Epoch,
    rover: &Epoch,
    pair: u32,
    number: u8,
) -> Option<SvPair>
    requires near { abs_diff base.now.tag.0 rover.now.tag.0 ≤ 5_000_000 }
    requires number { IsSatNumber number }
    ensures { MatchOption result
        (IsLeftOut (setting_with rules.now table.now) base.now rover.now number)
        (IsEntryAt (setting_with rules.now table.now) base.now rover.now pair number) }
{
    let at_base = amounts_at(&rules.types, base, number)?;
    let at_rover = amounts_at(&rules.types, rover, number)?;
    let record = chosen(table, number, base.tag)?;
    // The mask needs the base's boxes alone. The range of its sight is kept for the rows.
    let from_base = sv_from(record, base.tag, at_base[L1_CODE]);
    let seen = seen_from(&from_base, &rules.point);
    if !above(&seen, &rules.point, rules.mask) {
        return None;
    }
    Some(SvPair {
        pair,
        sat: number,
        base: from_base,
        base_range: seen.range,
        rover: sv_from(record, rover.tag, at_rover[L1_CODE]),
        observed: differences(&at_base, &at_rover),
        tag: base.tag,
    })
}
