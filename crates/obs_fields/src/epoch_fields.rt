//! Fields of the line of an epoch or an event.
ghost use Rattle.std.specs.Prelude.{◌≡◌, ◌<◌, IfSome, IsTrue};
ghost use Rattle.obs_fields.specs.EpochFields.{count_in, moment_of, is_later};

use crate::Layout;
use gps_time::{Tick, tick_of};
use rinex_head::{Flaw, What, field, whole_number};

/// How many lines or satellites follow; a blank count is 0.
#[tactic(auto, unfolding(crate::specs::EpochFields::count_in))]
pub fn count(layout: Layout, line: &[u8]) -> Result<u16, Flaw>
    ensures value { result ≡ count_in layout line.now }
{
    let first = layout.count_column();
    let count = whole_number(&field::<3>(line, first as usize), first)?;
    Ok(count.unwrap_or(0))
}

/// The tag of a date and a time, with the ticks within its minute.
#[tactic(auto, unfolding(crate::specs::EpochFields::moment_of))]
pub fn moment(
    layout: Layout,
    year: u16,
    month: u8,
    day: u8,
    hour: u8,
    minute: u8,
    part: i64,
) -> Result<Tick, Flaw>
    ensures { result ≡ moment_of layout year month day hour minute part }
{
    let bad_date = Flaw {
        column: layout.date_column(),
        what: What::BadDate,
    };
    if part < 0 {
        return Err(bad_date);
    }
    if part > 599_999_999 {
        return Err(bad_date);
    }
    match tick_of(year, month, day, hour, minute, part as u32) {
        Ok(tick) => Ok(tick),
        Err(_) => Err(bad_date),
    }
}

/// Whether a tag is later than the last one, if there is one.
pub fn comes_later(last: Option<Tick>, tag: Tick) -> bool
    ensures value { result ≡ is_later last tag }
    ensures later { IsTrue result → IfSome last (λ l. l.0 < tag.0) }
{
    match last {
        Some(last) => last.0 < tag.0,
        None => true,
    }
}
