//! A certificate of the first version, lifted to the present one.
ghost use Rattle.std.specs.Prelude.{◌≡◌, map, IfOk};
ghost use Rattle.cert_migrate.specs.Lifted.{lifted_arc, IsLiftedSession, HasScaledData, HasScaledSums, IsOldBestWhereFixed, IsOldBestByRatioWhereFixed};
ghost use Rattle.cert_data.specs.declared.tails.Tail.{Tail};
ghost use Rattle.cert_check.specs.Settled.{IsBestByRatioWhereFixed};
ghost use Rattle.cert_check.specs.RowDecisions.{IsRowDecision, IsSameTail};

use crate::lifted_rows::lifted_pairs;
use crate::{OldArc, OldCert, OldSession};
use cert_check::decide_rows;
use cert_data::Cert;
use obs_rows::{Arc, ArcList, PairList, Session, Signals};
use std::alloc::{AllocError, Global};

fn lifted_arc(arc: &OldArc) -> Arc
    ensures { result ≡ lifted_arc arc.now }
{
    Arc {
        sat: arc.sat,
        first: arc.first,
        last: arc.last,
        datum: arc.datum,
        shift: [arc.shift[0], arc.shift[1], 0],
    }
}

fn lifted_arcs(alloc: Global, arcs: &[OldArc]) -> Result<Vec<Arc>, AllocError>
    ensures { IfOk result (λ lifted. lifted.items ≡ map lifted_arc arcs.now) }
{
    arcs.iter().map(|arc| lifted_arc(arc)).collect(alloc)
}

fn lifted_session(alloc: Global, old: &OldSession) -> Result<Session, AllocError>
    ensures { IfOk result (IsLiftedSession old.now) }
{
    let arcs = lifted_arcs(alloc, old.arcs.as_slice())?;
    let pairs = lifted_pairs(alloc, old.pairs.as_slice())?;
    let signals = Signals {
        l1: old.signals.l1,
        l2: old.signals.l2,
        l5: 0,
    };
    Ok(Session {
        scale: 0,
        system: b'G',
        base: old.base,
        point: old.point,
        signals,
        arcs: ArcList::new(arcs),
        pairs: PairList::new(pairs),
    })
}

/// The certificate in the present unit: its boxes hold 23/32 of all that the old ones held, and its tail is the
/// decision of its own rows, their only one. What the old tail said isn't carried over. What
/// is fixed is best by the ratio in the new boxes (`new_by_ratio`), and by the ratio and strictly in the old ones.
pub fn lift(alloc: Global, old: &OldCert) -> Result<Cert, AllocError>
    ensures ratio { IfOk result (λ c. c.ratio ≡ old.now.ratio) }
    ensures budget { IfOk result (λ c. c.budget ≡ old.now.budget) }
    ensures session { IfOk result (λ c. IsLiftedSession old.now.session c.session) }
    ensures tail { IfOk result (λ c. IsRowDecision c.session c.ratio c.budget c.tail) }
    ensures only { IfOk result (λ c. (t : Tail) → IsRowDecision c.session c.ratio c.budget t →
        IsSameTail t c.tail) }
    ensures new_by_ratio { IfOk result (λ c. IsBestByRatioWhereFixed c.ratio c.session c.tail) }
    ensures boxes { IfOk result (λ c. HasScaledData old.now.session c.session) }
    ensures sums { IfOk result (λ c. HasScaledSums old.now.session c.session) }
    ensures best { IfOk result (λ c. IsOldBestWhereFixed old.now.session c.tail) }
    ensures by_ratio { IfOk result (λ c.
        IsOldBestByRatioWhereFixed c.ratio old.now.session c.tail) }
{
    let session = lifted_session(alloc, &old.session)?;
    let tail = decide_rows(&session, old.ratio, old.budget);
    Ok(Cert {
        ratio: old.ratio,
        budget: old.budget,
        session,
        tail,
    })
}
