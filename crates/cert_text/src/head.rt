//! The head of a certificate: what stands before its arcs.
ghost use Rattle.std.specs.Prelude.{◌≡◌, ◌≤◌, ◌++◌, ℕ, length, IfOk};
ghost use Rattle.obs_rows.specs.Ranges.{IsPoint, IsSystem};
ghost use Rattle.rinex_head.specs.LineRules.{ReadsFree};
ghost use Rattle.cert_text.specs.Spelling.{system_lines, head_lines};
ghost use Rattle.cert_text.specs.Rules.{cert_rules, frame, behind_budget, Form, Base, ArcCount};
ghost use Rattle.obs_rows.specs.Signals.{fine_signals};
ghost use Rattle.cert_lines.specs.declared.version.Version.TheVariants.{One};

use crate::grammar::CertText;
use crate::{next_count, next_letters, next_system, next_triple, next_word};
use cert_lines::{COORDINATES, Version};
use line_source::Lines;
use obs_rows::{MOST_BUDGET, MOST_RATIO, Signals};
use rinex_head::At;

/// What the head says.
#[derive(Clone, Copy, Debug)]
pub(crate) struct Head {
    pub(crate) ratio: u32,
    pub(crate) budget: u64,
    pub(crate) system: u8,
    pub(crate) base: [i64; 3],
    pub(crate) point: [i64; 3],
    pub(crate) signals: Signals,
}

// The system, which the first version didn't say.
fn read_system(lines: &mut Lines<'_>, version: Version) -> Result<u8, At>
    ensures reads { (budget : ℕ) → ReadsFree cert_rules lines.old lines.new
        (behind_budget version budget) (λ s. Base version budget) result }
    ensures took { IfOk result (λ s. lines.old.left ≡ system_lines version s ++ lines.new.left) }
    ensures system { IfOk result IsSystem }
    ensures of_version { IfOk result (λ s. version ≡ One → s ≡ 71) }
{
    match version {
        Version::One => Ok(b'G'),
        Version::Two => next_system::<CertText>(lines),
    }
}

/// Reads the head.
pub(crate) fn read_head(lines: &mut Lines<'_>, version: Version) -> Result<Head, At>
    ensures reads { ReadsFree cert_rules lines.old lines.new (Form version) (λ h.
        ArcCount (frame version h.budget (fine_signals h.signals))) result }
    ensures took { IfOk result (λ h. lines.old.left
        ≡ head_lines version h.ratio h.budget h.system h.base h.point h.signals ++ lines.new.left) }
    ensures ratio { IfOk result (λ h. (1000 ≤ h.ratio) × (h.ratio ≤ MOST_RATIO)) }
    ensures budget { IfOk result (λ h. (1 ≤ h.budget) × (h.budget ≤ MOST_BUDGET)) }
    ensures system { IfOk result (λ h. IsSystem h.system) }
    ensures base { IfOk result (λ h. IsPoint h.base) }
    ensures point { IfOk result (λ h. IsPoint h.point) }
    ensures old_system { IfOk result (λ h. version ≡ One → h.system ≡ 71) }
    ensures old_bands { IfOk result (λ h. version ≡ One → h.signals.l5 ≡ 0) }
    ensures whole { IfOk result (λ h. (length h.base ≡ 3) × (length h.point ≡ 3)) }
{
    next_word::<CertText>(lines, version.form_line())?;
    let ratio = next_count::<CertText>(lines, b"ratio", 1000, MOST_RATIO as u64)?;
    let budget = next_count::<CertText>(lines, b"budget", 1, MOST_BUDGET)?;
    let system = read_system(lines, version)?;
    let base = next_triple::<CertText>(lines, b"base", &COORDINATES)?;
    let point = next_triple::<CertText>(lines, b"point", &COORDINATES)?;
    let signals = next_letters::<CertText>(lines, version)?;
    Ok(Head {
        ratio: ratio as u32,
        budget,
        system,
        base,
        point,
        signals,
    })
}
