//! A certificate that was read in the form of the first version, moved into its types.
ghost use Rattle.std.specs.Prelude.{IfOk};
ghost use Rattle.cert_lines.specs.declared.version.Version.TheVariants.{One};
ghost use Rattle.cert_text.specs.Editions.{IsOfVersion};
ghost use Rattle.cert_migrate.specs.Carriers.{IsSessionOf, IsCarrierOf};

use crate::moved_rows::{old_arcs, old_pairs};
use crate::moved_tails::old_tail;
use crate::{OldCert, OldSession, OldSignals};
use cert_data::Cert;
use obs_rows::Items;
use std::alloc::{AllocError, Global};

// The session of a certificate in the form of the first version.
fn old_session(alloc: Global, cert: &Cert) -> Result<OldSession, AllocError>
    requires { IsOfVersion One cert.now }
    ensures { IfOk result (IsSessionOf cert.now.session) }
{
    let session = &cert.session;
    let arcs = old_arcs(alloc, session.arcs.as_slice())?;
    let pairs = old_pairs(alloc, session.pairs.as_slice())?;
    let signals = OldSignals {
        l1: session.signals.l1,
        l2: session.signals.l2,
    };
    Ok(OldSession {
        scale: 0,
        base: session.base,
        point: session.point,
        signals,
        arcs: Items::new(arcs),
        pairs: Items::new(pairs),
    })
}

/// The numbers of a certificate in the form of the first version.
pub(crate) fn old_cert(alloc: Global, cert: &Cert) -> Result<OldCert, AllocError>
    requires { IsOfVersion One cert.now }
    ensures { IfOk result (IsCarrierOf cert.now) }
{
    let session = old_session(alloc, cert)?;
    Ok(OldCert {
        ratio: cert.ratio,
        budget: cert.budget,
        session,
        tail: old_tail(&cert.tail),
    })
}
