//! A certificate of rows at the rover's true place, made by hand: decided, written, read and checked.
ghost use Rattle.std.specs.Prelude.{◌≡◌, IfSome};
ghost use Rattle.cert_data.specs.Tails.{IsTailOf};
ghost use Rattle.obs_rows.specs.Signals.{fine_signals};

use crate::files::{MOST_BYTES, files_of};
use crate::rows::fine_rows;
use cert_check::{check, decide_settled, form_of_rows};
use cert_data::{Cause, Cert, Tail, Verdict};
use cert_text::{read_cert, write_cert};
use obs_rows::{Options, Session};
use std::alloc::Global;

// The base and the offset that seed 1 draws, (-165,680, 943,607, -659,500) mm, in 0.1 mm.
const TRUE_PLACE: [i64; 3] = [63_779_713_200, 9_436_070, -6_595_000];

const RATIO: u32 = 2000;

const BUDGET: u64 = 1_000_000;

// The fine rows of the session of seed 1 with sixty epochs and eight satellites, where the rover stands.
fn true_rows(alloc: Global) -> Option<Session>
    ensures { IfSome result (λ s. s.scale ≡ 0) }
{
    let files = files_of(alloc, 1, 60, 8, &Options::defaults())?;
    fine_rows(alloc, &files, &TRUE_PLACE)
}

// What the rows say, where they have a form.
fn decided(session: &Session) -> Option<Tail>
    requires { session.now.scale ≡ 0 }
    ensures { IfSome result (IsTailOf (fine_signals session.now.signals) session.now.arcs 1000000) }
{
    let Ok(form) = form_of_rows(session) else {
        return None;
    };
    Some(decide_settled(session, &form, RATIO, BUDGET))
}

fn certificate(alloc: Global) -> Option<Cert> {
    let session = true_rows(alloc)?;
    let tail = decided(&session)?;
    Some(Cert {
        ratio: RATIO,
        budget: BUDGET,
        session,
        tail,
    })
}

fn text_of(alloc: Global, cert: &Cert) -> Option<Vec<u8>> {
    let mut text = Vec::new(alloc);
    write_cert(alloc, &mut text, cert).ok()?;
    Some(text)
}

// The text with another tail, where that says that the rows fix the integers.
fn unseparated(alloc: Global, text: &[u8]) -> Option<Vec<u8>> {
    let before = text.strip_suffix(b"fixed\n")?;
    let mut other = before.to_vec(alloc).ok()?;
    other.extend_from_slice(b"declined unseparated\n").ok()?;
    Some(other)
}

fn verdict_on(alloc: Global, text: &[u8]) -> Option<Verdict> {
    if text.len() > MOST_BYTES {
        return None;
    }
    let cert = read_cert(alloc, text).ok()?;
    Some(check(&cert))
}

#[test]
fn certified_at_the_true_place(rt: HostRuntime) {
    let cert = certificate(rt.alloc()).expect(&rt, "no certificate");
    let text = text_of(rt.alloc(), &cert).expect(&rt, "no text");
    assert_eq!(rt; verdict_on(rt.alloc(), &text), Some(Verdict::Certified));
    let other = unseparated(rt.alloc(), &text).expect(&rt, "not fixed");
    assert_eq!(rt;
        verdict_on(rt.alloc(), &other),
        Some(Verdict::Not(Cause::Tail))
    );
}
