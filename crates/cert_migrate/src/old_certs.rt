//! Certificates of the first version.
ghost use Rattle.std.specs.Prelude.{◌≤◌};
ghost use Rattle.obs_rows.specs.declared.limits.TheConstants.{MOST_RATIO, MOST_BUDGET};
ghost use Rattle.cert_migrate.specs.OldTails.{IsOldTailOf, IsOldTailOf-prop};

use crate::{OldSession, OldTail};

/// The rows of a session of the first version, with what they were said to say.
#[derive(Debug, Drop)]
pub struct OldCert {
    /// How many times greater the rivals' sums of squares have to be, in thousandths.
    pub ratio: u32,
    /// The most visits of the search.
    pub budget: u64,
    pub session: OldSession,
    pub tail: OldTail,
    pub ghost ratio_from: { 1000 ≤ ratio },
    pub ghost ratio_to: { ratio ≤ MOST_RATIO },
    pub ghost budget_from: { 1 ≤ budget },
    pub ghost budget_to: { budget ≤ MOST_BUDGET },
    pub ghost tail_fits: { IsOldTailOf session.arcs budget tail } by { IsOldTailOf-prop session.arcs budget tail },
}
