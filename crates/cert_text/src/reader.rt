//! A certificate, read.
ghost use Rattle.std.specs.Prelude.{◌≡◌, ◌≤◌, [], length, Ok, Err, IfOk, MatchResult};
ghost use Rattle.line_source.specs.declared.transfer.TheConstants.{MAX_FILE};
ghost use Rattle.rinex_head.specs.LineRules.{rest_gives, Gives, OnRefusal, IfRefused};
ghost use Rattle.cert_data.specs.declared.certs.Cert.{Cert};
ghost use Rattle.cert_text.specs.Spelling.{lines_of_cert, spelling_as, spelling};
ghost use Rattle.cert_text.specs.Lengths.{IsWhole, IsCertificate};
ghost use Rattle.cert_text.specs.Editions.{IsOfVersion, IsCertificateAs};
ghost use Rattle.cert_text.specs.Beginnings.{NoneBegins};
ghost use Rattle.cert_text.specs.BeforePairs.{BeginsBefore};
ghost use Rattle.cert_text.specs.Rules.{cert_rules, reading_as, reading_of, Form, End};

use crate::arcs::read_arcs;
use crate::grammar::CertText;
use crate::head::read_head;
use crate::pairs::read_pairs;
use crate::tail::read_tail;
use cert_data::Cert;
use cert_lines::Version;
use line_source::Lines;
use obs_rows::{SessionBuilder, fine_signals, integer_count};
use rinex_head::{At, TextFault};
use std::alloc::Global;

// Nothing stands after a tail.
fn read_end(lines: &mut Lines<'_>) -> Result<(), At>
    ensures { MatchResult result
        (λ u. (rest_gives cert_rules lines.old End ≡ Ok tt) × (lines.old.left ≡ []))
        (λ at. rest_gives cert_rules lines.old End ≡ Err at) }
{
    crate::read_end::<CertText>(lines)
}

fn read_lines(alloc: Global, version: Version, mut lines: Lines<'_>) -> Result<Cert, TextFault>
    ensures reads { Gives (rest_gives cert_rules lines.entry (Form version)) (λ c. tt) result }
    ensures took { IfOk result (λ c. lines.entry.left ≡ lines_of_cert version c) }
    ensures whole { IfOk result IsWhole }
    ensures of_version { IfOk result (IsOfVersion version) }
{
    let head = read_head(&mut lines, version)?;
    let arcs = read_arcs(alloc, &mut lines, version, head.signals)?;
    let builder = SessionBuilder::new(
        alloc,
        0,
        head.system,
        head.base,
        head.point,
        head.signals,
        arcs,
    );
    let session = read_pairs(alloc, &mut lines, version, builder)?;
    let integers = integer_count(session.arcs.as_slice(), fine_signals(session.signals));
    let tail = read_tail(&mut lines, version, head.budget, integers)?;
    read_end(&mut lines)?;
    Ok(Cert {
        ratio: head.ratio,
        budget: head.budget,
        session,
        tail,
    })
}

/// The certificate that a text spells in the form of a version, or the first place at which it is none.
pub fn read_as(alloc: Global, version: Version, text: &[u8]) -> Result<Cert, TextFault>
    requires { length text.now ≤ MAX_FILE }
    ensures ok { IfOk result (λ c. text.now ≡ spelling_as version c) }
    ensures whole { IfOk result IsWhole }
    ensures of_version { IfOk result (IsOfVersion version) }
    ensures only { IfOk result (λ c. (d : Cert) → IsWhole d → IsOfVersion version d →
        text.now ≡ spelling_as version d → d ≡ c) }
    ensures refused { OnRefusal result (IsCertificateAs version text.now → ⊥) }
    ensures stuck { IfRefused result (λ at. NoneBegins (IsCertificateAs version) text.now at.line) }
    ensures first { IfRefused result (λ at.
        BeginsBefore (IsCertificateAs version) text.now at.line) }
    ensures exact { Gives (reading_as version text.now) (λ c. tt) result }
{
    read_lines(alloc, version, Lines::strict(text))
}

/// The certificate that a text spells, or the first place at which it is none.
pub fn read_cert(alloc: Global, text: &[u8]) -> Result<Cert, TextFault>
    requires { length text.now ≤ MAX_FILE }
    ensures ok { IfOk result (λ c. text.now ≡ spelling c) }
    ensures whole { IfOk result IsWhole }
    ensures only { IfOk result (λ c. (d : Cert) → IsWhole d → text.now ≡ spelling d → d ≡ c) }
    ensures refused { OnRefusal result (IsCertificate text.now → ⊥) }
    ensures stuck { IfRefused result (λ at. NoneBegins IsCertificate text.now at.line) }
    ensures first { IfRefused result (λ at. BeginsBefore IsCertificate text.now at.line) }
    ensures exact { Gives (reading_of text.now) (λ c. tt) result }
{
    read_as(alloc, Version::Two, text)
}
