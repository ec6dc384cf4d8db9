//! The first rounding of entries off the diagonal in a row: those that follow one another are mostly 0 or the same, and are
//! rounded once.
ghost use Rattle.std.specs.Prelude.{ℕ, ◌^◌, ◌<◌, ◌≤◌, unsigned_abs, IfSome};
ghost use Rattle.lower_form.specs.FirstRounding.{IsRounded};

use crate::first_entries::{nearest_shift, times_63};
use elimination::is_small;

/// The rounding of an entry over 2^h, where it is below 2^52 in size.
fn rounded_small(entry: i128, h: u32) -> Option<i64>
    requires entry_size { unsigned_abs entry < 2 ^ 120 }
    requires few { h ≤ 76 }
    ensures { IfSome result (IsRounded h entry) }
{
    let rounded = nearest_shift(times_63(entry), h);
    if is_small(rounded) {
        Some(rounded as i64)
    } else {
        None
    }
}

/// The last entry that was rounded, and what it was rounded to.
#[derive(Clone, Copy, Debug)]
pub(crate) struct LastRounded {
    pub(crate) entry: i128,
    pub(crate) rounded: i64,
}

impl LastRounded {
    /// Before the first entry: 0, which is rounded to 0.
    pub(crate) fn zero() -> LastRounded
        ensures { (h : ℕ) → IsRounded h result.entry result.rounded }
    {
        LastRounded {
            entry: 0,
            rounded: 0,
        }
    }

    /// The rounding of the next entry over the same 2^h, where it is below 2^52 in size.
    pub(crate) fn round(&mut self, entry: i128, h: u32) -> Option<i64>
        requires entry_size { unsigned_abs entry < 2 ^ 120 }
        requires few { h ≤ 76 }
        requires last { IsRounded h self.old.entry self.old.rounded }
        ensures value { IfSome result (IsRounded h entry) }
        ensures last { IsRounded h self.new.entry self.new.rounded }
    {
        if entry == 0 {
            return Some(0);
        }
        if entry == self.entry {
            return Some(self.rounded);
        }
        let rounded = rounded_small(entry, h)?;
        self.entry = entry;
        self.rounded = rounded;
        Some(rounded)
    }
}
