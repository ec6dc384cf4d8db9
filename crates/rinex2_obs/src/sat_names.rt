//! The names of the satellites in the line of an epoch and in further lines of names (RINEX 2.11, epoch record).
ghost use Rattle.std.specs.Prelude.{◌≡◌, ◌+◌, ◌≤◌, length, IfOk, OnOk, IfErr, Ok, Err};
ghost use Rattle.rinex2_obs.specs.SatNumbers.{FitsBehind};
ghost use Rattle.rinex2_obs.specs.SatNames.{name_in, names_from, with_line, first_names_of, further_mark_of, further_names_of};

use crate::sat_numbers::SatNames;
use decimal_text::all_blank;
use obs_fields::satellite;
use rinex_head::{Flaw, System, What, bad_field, field, flaw};

// how many names a line has room for
const NAMES_IN_LINE: u16 = 12;

/// The names that an epoch has so far, and how many are due.
#[derive(Drop)]
pub struct NameList {
    pub names: SatNames,
    pub left: u16,
}

// The satellite whose name begins at this column, after these ones.
fn name_at(line: &[u8], first: u32, names: &SatNames) -> Result<Option<u8>, Flaw>
    requires from_one { 1 ≤ first }
    requires near { first ≤ 100 }
    ensures value { result ≡ name_in line.now first names.now }
    ensures fits { IfOk result (λ name. FitsBehind names.now name) }
{
    let Some(number) = satellite(System::Gps, true, line, first)? else {
        return Ok(None);
    };
    if names.has(number) {
        return Err(flaw(first, What::Twice));
    }
    Ok(Some(number))
}

// A number of further names of a line.
fn add_names(line: &[u8], count: u16, names: &mut SatNames) -> Result<(), Flaw>
    requires room { length names.old + count ≤ 999 }
    requires few { count ≤ 12 }
    ensures ok { OnOk result (names_from line.now 33 count names.old ≡ Ok names.new) }
    ensures longer { OnOk result (length names.new ≡ length names.old + count) }
    ensures err { IfErr result (λ flaw. names_from line.now 33 count names.old ≡ Err flaw) }
{
    let mut first: u32 = 33;
    let mut left = count;
    'names: while left > 0 {
        let name = name_at(line, first, names)?;
        names.push(name);
        first += 3;
        left -= 1;
    }
    Ok(())
}

fn add_line(line: &[u8], mut list: NameList) -> Result<NameList, Flaw>
    requires { length list.names + list.left ≤ 999 }
    ensures value { result ≡ with_line line.now list.names list.left }
    ensures room { IfOk result (λ all. length all.names + all.left ≤ 999) }
{
    let count = list.left.min(NAMES_IN_LINE);
    add_names(line, count, &mut list.names)?;
    list.left -= count;
    Ok(list)
}

/// The names in the line of an epoch, by the number of its satellites.
pub fn first_names(line: &[u8], count: u16) -> Result<NameList, Flaw>
    requires { count ≤ 999 }
    ensures value { result ≡ first_names_of line.now count }
    ensures room { IfOk result (λ all. length all.names + all.left ≤ 999) }
{
    add_line(
        line,
        NameList {
            names: SatNames::new(),
            left: count,
        },
    )
}

/// Whether the columns before the names of a further line are blank, as they must be.
#[tactic(auto, unfolding(crate::specs::SatNames::further_mark_of))]
pub fn further_mark(line: &[u8]) -> Result<(), Flaw>
    ensures { result ≡ further_mark_of line.now }
{
    if !all_blank(&field::<32>(line, 1)) {
        return Err(bad_field(1));
    }
    Ok(())
}

/// A further line of names.
pub fn further_names(line: &[u8], list: NameList) -> Result<NameList, Flaw>
    requires { length list.names + list.left ≤ 999 }
    ensures value { result ≡ further_names_of line.now list.names list.left }
    ensures room { IfOk result (λ all. length all.names + all.left ≤ 999) }
{
    further_mark(line)?;
    add_line(line, list)
}
