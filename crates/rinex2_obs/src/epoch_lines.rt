//! The line of an epoch or an event (RINEX 2.11, epoch record).
ghost use Rattle.std.specs.Prelude.{◌≡◌, ◌+◌, ◌≤◌, length, ◌<◌, IfOk, IfSome, Ok, true, false};
ghost use Rattle.obs_store.specs.Epochs.{last_tag_of};
ghost use Rattle.obs_fields.specs.declared.layout.Layout.TheVariants.{Rinex2};
ghost use Rattle.obs_fields.specs.EpochFields.{count_in};
ghost use Rattle.rinex2_obs.specs.EpochTag.{IfEpoch, IsNoEpoch};
ghost use Rattle.rinex2_obs.specs.EpochLines.{year_of, tag_in, event_in, slips_in, epoch_in, by_flag, epoch_line_of};

use crate::sat_names::{NameList, first_names};
use decimal_text::all_blank;
use gps_time::Tick;
use obs_fields::{Layout, comes_later, count, moment};
use obs_store::Epochs;
use rinex_head::{Flaw, What, bad_field, byte_in, field, fixed_number, flaw, two_digits};

/// What stands where an epoch's line is expected.
#[derive(Drop)]
pub enum EpochLine {
    Blank,
    /// An event with the number of its lines; after it the header may change.
    Event {
        changes: bool,
        count: u16,
    },
    /// Cycle slips, with the number of the satellites.
    Slips {
        count: u16,
    },
    /// An epoch, before which power may have failed, with the names that its line has.
    Epoch {
        tag: Tick,
        power: bool,
        list: NameList,
    },
}

// The year of its last two digits.
fn full_year(digits: u8) -> u16
    requires { digits ≤ 99 }
    ensures { result ≡ year_of digits }
{
    if digits >= 80 {
        1900 + digits as u16
    } else {
        2000 + digits as u16
    }
}

#[tactic(auto, unfolding(crate::specs::EpochLines::tag_in, rinex_head::specs::Fields::fixed_in))]
fn tag(line: &[u8]) -> Result<Tick, Flaw>
    ensures { result ≡ tag_in line.now }
{
    let year = two_digits(line, 2)?;
    let month = two_digits(line, 5)?;
    let day = two_digits(line, 8)?;
    let hour = two_digits(line, 11)?;
    let minute = two_digits(line, 14)?;
    let part = fixed_number(&field::<11>(line, 16), 16, 7)?;
    moment(
        Layout::Rinex2,
        full_year(year),
        month,
        day,
        hour,
        minute,
        part,
    )
}

// How many satellites or lines follow, in three columns.
fn count_of(line: &[u8]) -> Result<u16, Flaw>
    ensures value { result ≡ count_in Rinex2 line.now }
    ensures few { IfOk result (λ n. n ≤ 999) }
{
    count(Layout::Rinex2, line)
}

fn event(line: &[u8], changes: bool) -> Result<EpochLine, Flaw>
    ensures value { result ≡ event_in line.now changes }
    ensures event { IfOk result IsNoEpoch }
{
    let count = count_of(line)?;
    Ok(EpochLine::Event { changes, count })
}

fn slips(line: &[u8]) -> Result<EpochLine, Flaw>
    ensures value { result ≡ slips_in line.now }
    ensures event { IfOk result IsNoEpoch }
{
    let count = count_of(line)?;
    Ok(EpochLine::Slips { count })
}

#[tactic(auto, unfolding(crate::specs::EpochLines::epoch_in))]
fn epoch(line: &[u8], power: bool, epochs: &Epochs) -> Result<EpochLine, Flaw>
    ensures value { result ≡ epoch_in epochs.now line.now power }
    ensures room { IfOk result (λ l. IfEpoch l (λ tag list. length epochs.now < 20_000)) }
    ensures later { IfOk result (λ l.
        IfEpoch l (λ tag list. IfSome (last_tag_of epochs.now) (λ last. last.0 < tag.0))) }
    ensures names { IfOk result (λ l. IfEpoch l (λ tag list. length list.names + list.left ≤ 999)) }
{
    if epochs.len() >= Epochs::MOST {
        return Err(flaw(1, What::TooMany));
    }
    let tag = tag(line)?;
    if !comes_later(epochs.last_tag(), tag) {
        return Err(flaw(2, What::Order));
    }
    let count = count_of(line)?;
    let list = first_names(line, count)?;
    Ok(EpochLine::Epoch { tag, power, list })
}

fn flagged(line: &[u8], flag: u8, epochs: &Epochs) -> Result<EpochLine, Flaw>
    ensures value { result ≡ by_flag epochs.now line.now flag }
    ensures room { IfOk result (λ l. IfEpoch l (λ tag list. length epochs.now < 20_000)) }
    ensures later { IfOk result (λ l.
        IfEpoch l (λ tag list. IfSome (last_tag_of epochs.now) (λ last. last.0 < tag.0))) }
    ensures names { IfOk result (λ l. IfEpoch l (λ tag list. length list.names + list.left ≤ 999)) }
{
    match flag {
        b'0' => epoch(line, false, epochs),
        b'1' => epoch(line, true, epochs),
        b'2' | b'3' => Err(flaw(29, What::Moving)),
        b'4' => event(line, true),
        b'5' => event(line, false),
        b'6' => slips(line),
        _ => Err(flaw(29, What::Flag)),
    }
}

/// What a line says where an epoch's line is expected after these epochs.
#[tactic(auto, unfolding(crate::specs::EpochLines::epoch_line_of))]
pub fn epoch_line(line: &[u8], epochs: &Epochs) -> Result<EpochLine, Flaw>
    ensures value { result ≡ epoch_line_of epochs.now line.now }
    ensures room { IfOk result (λ l. IfEpoch l (λ tag list. length epochs.now < 20_000)) }
    ensures later { IfOk result (λ l.
        IfEpoch l (λ tag list. IfSome (last_tag_of epochs.now) (λ last. last.0 < tag.0))) }
    ensures names { IfOk result (λ l. IfEpoch l (λ tag list. length list.names + list.left ≤ 999)) }
{
    if all_blank(line) {
        return Ok(EpochLine::Blank);
    }
    if byte_in(line, 1) != b' ' {
        return Err(bad_field(1));
    }
    flagged(line, byte_in(line, 29), epochs)
}
