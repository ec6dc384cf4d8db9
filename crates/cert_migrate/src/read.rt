//! A certificate of the first version, read.
ghost use Rattle.std.specs.Prelude.{◌≡◌, ◌≤◌, length, IfOk};
ghost use Rattle.line_source.specs.declared.transfer.TheConstants.{MAX_FILE};
ghost use Rattle.rinex_head.specs.LineRules.{Gives, OnRefusal, IfRefused};
ghost use Rattle.cert_lines.specs.declared.version.Version.TheVariants.{One};
ghost use Rattle.cert_text.specs.Beginnings.{NoneBegins};
ghost use Rattle.cert_text.specs.BeforePairs.{BeginsBefore};
ghost use Rattle.cert_text.specs.Rules.{reading_as};
ghost use Rattle.cert_migrate.specs.declared.old_certs.OldCert.{OldCert};
ghost use Rattle.cert_migrate.specs.OldSpelling.{old_spelling, IsWholeOld, IsOldCertificate};

use crate::OldCert;
use crate::moved::old_cert;
use cert_text::{Version, read_as};
use rinex_head::TextFault;
use std::alloc::Global;

/// The certificate that a text spells in the form of the first version, or the first place at which it is none.
pub fn read_old(alloc: Global, text: &[u8]) -> Result<OldCert, TextFault>
    requires { length text.now ≤ MAX_FILE }
    ensures ok { IfOk result (λ c. text.now ≡ old_spelling c) }
    ensures whole { IfOk result IsWholeOld }
    ensures only { IfOk result (λ c. (d : OldCert) → IsWholeOld d → text.now ≡ old_spelling d →
        d ≡ c) }
    ensures refused { OnRefusal result (IsOldCertificate text.now → ⊥) }
    ensures stuck { IfRefused result (λ at. NoneBegins IsOldCertificate text.now at.line) }
    ensures first { IfRefused result (λ at. BeginsBefore IsOldCertificate text.now at.line) }
    ensures exact { Gives (reading_as One text.now) (λ c. tt) result }
{
    let cert = read_as(alloc, Version::One, text)?;
    Ok(old_cert(alloc, &cert)?)
}
