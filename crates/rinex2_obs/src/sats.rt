//! An epoch: the further lines of its satellites' names, and their own lines (RINEX 2.11, observation record).
ghost use Rattle.std.specs.Prelude.{◌≡◌, ◌≤◌, ◌+◌, List, ℕ, [], ◌∷◌, ◌++◌, Bool, None, Some, length, OnOk};
ghost use Rattle.std.specs.declared.option.Option.{Option};
ghost use Rattle.gps_time.specs.declared.Tick.{Tick};
ghost use Rattle.obs_store.specs.declared.series.Epoch.{Epoch};
ghost use Rattle.obs_store.specs.declared.values.SatObs.{SatObs};
ghost use Rattle.obs_store.specs.Missing.{missing_values};
ghost use Rattle.obs_store.specs.Epochs.{epoch_of};
ghost use Rattle.rinex_head.specs.LineRules.{Reads, ReadsFree};
ghost use Rattle.rinex2_obs.specs.Profile.{kept_of};
ghost use Rattle.rinex2_obs.specs.SatNumbers.{AreNames, AreNew, IsWith};
ghost use Rattle.obs_fields.specs.declared.header.Header.{Header};
ghost use Rattle.rinex2_obs.specs.Obs2Rules.{Body, more_names, more_sats, obs2_rules};

use crate::header::rows;
use crate::sat_names::{NameList, further_names};
use crate::sat_numbers::SatNames;
use line_source::Lines;
use obs_fields::{Header, KeptType, Layout, set_values};
use obs_store::{SatValues, Satellites};
use rinex_head::{At, TextFault, What, next_line};
use std::alloc::Global;

// The further lines of names.
fn read_names(lines: &mut Lines<'_>, list: NameList) -> Result<SatNames, At>
    requires { length list.names + list.left ≤ 999 }
    ensures reads { (h : Header) (epochs : List Epoch) (tag : Tick) (power : Bool) →
        ReadsFree obs2_rules lines.old lines.new (more_names h epochs tag power list.names
        list.left) (λ names. more_sats h epochs tag power [] names) result }
    ensures less { length lines.new.left ≤ length lines.old.left }
{
    let mut list = list;
    'names: while list.left > 0 {
        let line = next_line(lines, What::Truncated)?;
        list = match further_names(line.bytes, list) {
            Ok(list) => list,
            Err(flaw) => return Err(flaw.at(line.number)),
        };
    }
    Ok(list.names)
}

// The lines of a satellite of GPS. Its values are set in the place of missing ones.
fn read_rows(
    lines: &mut Lines<'_>,
    header: &Header,
    kept: &[KeptType],
    values: &mut SatValues,
) -> Result<(), At>
    requires kept { kept.now ≡ kept_of header.now.types }
    requires missing { values.old ≡ missing_values }
    ensures reads { (number : ℕ) (epochs : List Epoch) (tag : Tick) (power : Bool)
        (sats : List SatObs) (names : List (Option ℕ)) →
        ReadsFree obs2_rules lines.old lines.new (more_sats header.now epochs tag power sats
        (Some number ∷ names)) (λ u. more_sats header.now epochs tag power
        (sats ++ record { number = number; values = values.new } ∷ []) names) result }
    ensures less { length lines.new.left ≤ length lines.old.left }
{
    for at in 0..rows(header) {
        let line = next_line(lines, What::Truncated)?;
        match set_values(Layout::Rinex2, at, line.bytes, kept, values) {
            Ok(()) => {}
            Err(flaw) => return Err(flaw.at(line.number)),
        }
    }
    Ok(())
}

// The lines of a satellite of another system.
fn skip_rows(lines: &mut Lines<'_>, header: &Header) -> Result<(), At>
    ensures reads { (epochs : List Epoch) (tag : Tick) (power : Bool) (sats : List SatObs)
        (names : List (Option ℕ)) →
        ReadsFree obs2_rules lines.old lines.new (more_sats header.now epochs tag power sats
        (None ∷ names)) (λ u. more_sats header.now epochs tag power sats names) result }
    ensures less { length lines.new.left ≤ length lines.old.left }
{
    for _at in 0..rows(header) {
        next_line(lines, What::Truncated)?;
    }
    Ok(())
}

fn read_satellite(
    lines: &mut Lines<'_>,
    header: &Header,
    kept: &[KeptType],
    name: Option<u8>,
    sats: &mut Satellites,
) -> Result<(), TextFault>
    requires kept { kept.now ≡ kept_of header.now.types }
    requires named { AreNames (name ∷ []) }
    requires once { AreNew sats.old (name ∷ []) }
    ensures reads { (epochs : List Epoch) (tag : Tick) (power : Bool) (names : List (Option ℕ)) →
        Reads obs2_rules lines.old lines.new (more_sats header.now epochs tag power sats.old
        (name ∷ names)) (λ u. more_sats header.now epochs tag power sats.new names) result }
    ensures added { OnOk result (IsWith name sats.old sats.new) }
    ensures less { length lines.new.left ≤ length lines.old.left }
{
    match name {
        Some(number) => {
            let mut values = SatValues::missing();
            match read_rows(lines, header, kept, &mut values) {
                Ok(()) => {}
                Err(at) => return Err(TextFault::Refused(at)),
            }
            match sats.add(number, &values) {
                Ok(()) => Ok(()),
                Err(_) => Err(TextFault::NoMemory),
            }
        }
        None => match skip_rows(lines, header) {
            Ok(()) => Ok(()),
            Err(at) => Err(TextFault::Refused(at)),
        },
    }
}

fn read_satellites(
    alloc: Global,
    lines: &mut Lines<'_>,
    header: &Header,
    kept: &[KeptType],
    names: &[Option<u8>],
) -> Result<Satellites, TextFault>
    requires kept { kept.now ≡ kept_of header.now.types }
    requires named { AreNames names.now }
    ensures reads { (epochs : List Epoch) (tag : Tick) (power : Bool) →
        Reads obs2_rules lines.old lines.new (more_sats header.now epochs tag power [] names.now)
        (λ sats. Body header.now (epochs ++ epoch_of tag power sats ∷ [])) result }
    ensures less { length lines.new.left ≤ length lines.old.left }
{
    let mut sats = Satellites::new(alloc);
    for name in names {
        read_satellite(lines, header, kept, *name, &mut sats)?;
    }
    Ok(sats)
}

/// The satellites of an epoch, of whose names those in its line are read.
pub fn read_epoch(
    alloc: Global,
    lines: &mut Lines<'_>,
    header: &Header,
    kept: &[KeptType],
    list: NameList,
) -> Result<Satellites, TextFault>
    requires kept { kept.now ≡ kept_of header.now.types }
    requires few { length list.names + list.left ≤ 999 }
    ensures reads { (epochs : List Epoch) (tag : Tick) (power : Bool) →
        Reads obs2_rules lines.old lines.new (more_names header.now epochs tag power list.names
        list.left) (λ sats. Body header.now (epochs ++ epoch_of tag power sats ∷ [])) result }
    ensures less { length lines.new.left ≤ length lines.old.left }
{
    match read_names(lines, list) {
        Ok(names) => read_satellites(alloc, lines, header, kept, names.as_slice()),
        Err(at) => Err(TextFault::Refused(at)),
    }
}
