//! A certificate, written.
ghost use Rattle.std.specs.Prelude.{◌≡◌, ◌++◌, OnOk};
ghost use Rattle.cert_text.specs.Lengths.{IsWhole};
ghost use Rattle.cert_text.specs.Spelling.{spelling};

use crate::parts::push_session;
use crate::written_tails::push_tail;
use cert_data::Cert;
use std::alloc::{AllocError, Global};

/// Appends the spelling of a certificate. In a definition an array may have any length; that those of this certificate
/// have theirs is said where they are written, since two such certificates with one spelling are the same. What is
/// appended is in the memory of `out`; the allocator is taken as by the writers of the other texts.
pub fn write_cert(_alloc: Global, out: &mut Vec<u8>, cert: &Cert) -> Result<(), AllocError>
    ensures text { OnOk result (out.new.items ≡ out.old.items ++ spelling cert.now) }
    ensures whole { OnOk result (IsWhole cert.now) }
{
    push_session(out, cert.ratio, cert.budget, &cert.session)?;
    push_tail(out, &cert.tail)
}
