//! The head of the certificate of a track: what stands before its arcs.
ghost use Rattle.std.specs.Prelude.{◌≡◌, ◌≤◌, ◌++◌, length, IfOk};
ghost use Rattle.obs_rows.specs.Ranges.{IsPoint, IsSystem};
ghost use Rattle.obs_rows.specs.Signals.{fine_signals};
ghost use Rattle.rinex_head.specs.LineRules.{ReadsFree};
ghost use Rattle.track_text.specs.Spelling.{track_head_lines};
ghost use Rattle.track_text.specs.Rules.{track_rules, frame, Form, ArcCount};

use crate::grammar::TrackText;
use cert_lines::{COORDINATES, Version};
use cert_text::{next_count, next_letters, next_system, next_triple, next_word};
use line_source::Lines;
use obs_rows::{MOST_BUDGET, MOST_RATIO, Signals};
use rinex_head::At;

/// What the head says.
#[derive(Clone, Copy, Debug)]
pub(crate) struct Head {
    pub(crate) ratio: u32,
    pub(crate) budget: u64,
    pub(crate) system: u8,
    pub(crate) base: [i64; 3],
    pub(crate) signals: Signals,
}

/// Reads the head.
pub(crate) fn read_head(lines: &mut Lines<'_>) -> Result<Head, At>
    ensures reads { ReadsFree track_rules lines.old lines.new Form (λ h.
        ArcCount (frame h.budget (fine_signals h.signals))) result }
    ensures took { IfOk result (λ h. lines.old.left
        ≡ track_head_lines h.ratio h.budget h.system h.base h.signals ++ lines.new.left) }
    ensures ratio { IfOk result (λ h. (1000 ≤ h.ratio) × (h.ratio ≤ MOST_RATIO)) }
    ensures budget { IfOk result (λ h. (1 ≤ h.budget) × (h.budget ≤ MOST_BUDGET)) }
    ensures system { IfOk result (λ h. IsSystem h.system) }
    ensures base { IfOk result (λ h. IsPoint h.base) }
    ensures whole { IfOk result (λ h. length h.base ≡ 3) }
{
    next_word::<TrackText>(lines, b"baseline-track 1")?;
    let ratio = next_count::<TrackText>(lines, b"ratio", 1000, MOST_RATIO as u64)?;
    let budget = next_count::<TrackText>(lines, b"budget", 1, MOST_BUDGET)?;
    let system = next_system::<TrackText>(lines)?;
    let base = next_triple::<TrackText>(lines, b"base", &COORDINATES)?;
    let signals = next_letters::<TrackText>(lines, Version::Two)?;
    Ok(Head {
        ratio: ratio as u32,
        budget,
        system,
        base,
        signals,
    })
}
