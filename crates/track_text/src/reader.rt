//! The certificate of a track, read.
ghost use Rattle.std.specs.Prelude.{◌≡◌, ◌≤◌, [], length, Ok, Err, IfOk, MatchResult};
ghost use Rattle.line_source.specs.declared.transfer.TheConstants.{MAX_FILE};
ghost use Rattle.rinex_head.specs.LineRules.{rest_gives, Gives, OnRefusal, IfRefused};
ghost use Rattle.track_data.specs.declared.certs.TrackCert.{TrackCert};
ghost use Rattle.track_text.specs.Spelling.{lines_of_track, track_spelling};
ghost use Rattle.track_text.specs.Lengths.{IsWholeTrackCert, IsTrackCertificate};
ghost use Rattle.cert_text.specs.Beginnings.{NoneBegins};
ghost use Rattle.cert_text.specs.BeforePairs.{BeginsBefore};
ghost use Rattle.track_text.specs.Rules.{track_rules, track_reading, Form, End};

use crate::arcs::read_arcs;
use crate::grammar::TrackText;
use crate::head::read_head;
use crate::pairs::read_pairs;
use crate::tail::read_tail;
use line_source::Lines;
use obs_rows::{fine_signals, integer_count};
use rinex_head::{At, TextFault};
use std::alloc::Global;
use track_data::{Track, TrackCert};

// Nothing stands after a tail.
fn read_end(lines: &mut Lines<'_>) -> Result<(), At>
    ensures { MatchResult result
        (λ u. (rest_gives track_rules lines.old End ≡ Ok tt) × (lines.old.left ≡ []))
        (λ at. rest_gives track_rules lines.old End ≡ Err at) }
{
    cert_text::read_end::<TrackText>(lines)
}

fn read_lines(alloc: Global, mut lines: Lines<'_>) -> Result<TrackCert, TextFault>
    ensures reads { Gives (rest_gives track_rules lines.entry Form) (λ c. tt) result }
    ensures took { IfOk result (λ c. lines.entry.left ≡ lines_of_track c) }
    ensures whole { IfOk result IsWholeTrackCert }
{
    let head = read_head(&mut lines)?;
    let base = head.base;
    let signals = head.signals;
    let arcs = read_arcs(alloc, &mut lines, signals)?;
    let kept = arcs.as_slice();
    let placed = read_pairs(alloc, &mut lines, signals, kept)?;
    let counted = fine_signals(signals);
    let integers = integer_count(kept, counted);
    let pairs = placed.pairs.as_slice();
    let tail = read_tail(alloc, &mut lines, head.budget, integers, pairs)?;
    read_end(&mut lines)?;
    let track = Track {
        system: head.system,
        base,
        signals,
        arcs,
        points: placed.points,
        pairs: placed.pairs,
    };
    let cert = TrackCert {
        ratio: head.ratio,
        budget: head.budget,
        track,
        tail,
    };
    Ok(cert)
}

/// The certificate of a track that a text spells, or the first place at which it is none.
pub fn read_track(alloc: Global, text: &[u8]) -> Result<TrackCert, TextFault>
    requires { length text.now ≤ MAX_FILE }
    ensures ok { IfOk result (λ c. text.now ≡ track_spelling c) }
    ensures whole { IfOk result IsWholeTrackCert }
    ensures only { IfOk result (λ c. (d : TrackCert) → IsWholeTrackCert d →
        text.now ≡ track_spelling d → d ≡ c) }
    ensures refused { OnRefusal result (IsTrackCertificate text.now → ⊥) }
    ensures stuck { IfRefused result (λ at. NoneBegins IsTrackCertificate text.now at.line) }
    ensures first { IfRefused result (λ at. BeginsBefore IsTrackCertificate text.now at.line) }
    ensures exact { Gives (track_reading text.now) (λ c. tt) result }
{
    read_lines(alloc, Lines::strict(text))
}
