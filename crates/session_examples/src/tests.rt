//! What whole runs end with.
use crate::cases::{CASES, Case, Edit, ExpectedEnd, Verdict};
use eph_store::NavFile;
use gal_nav::read_gal_nav;
use gal_obs::read_gal_obs;
use line_source::MAX_FILE;
use obs_rows::{GALILEO, Options, is_bands_number, is_system};
use obs_store::ObsFile;
use rinex_nav::read_nav;
use rinex_obs::read_obs;
use session::{Answer, Outcome, Tail, process};
use sim_session::{Made, make};
use std::alloc::Global;

// 1 mm, in 0.1 mm. A settled round moves no coordinate by more.
const NEAR: u64 = 10;

// The first place at which this stands in the text.
fn place_of(text: &[u8], what: &[u8]) -> Option<usize> {
    for at in 0..text.len() {
        if text[at..].starts_with(what) {
            return Some(at);
        }
    }
    None
}

// The text with another piece where the edit's first one stands.
fn changed(alloc: Global, text: &[u8], edit: Edit) -> Option<Vec<u8>> {
    let (old, new) = edit;
    let at = place_of(text, old.as_bytes())?;
    let before = text.get(..at)?;
    let after = text.get(at.saturating_add(old.len())..)?;
    let mut out = before.to_vec(alloc).ok()?;
    out.extend_from_slice(new.as_bytes()).ok()?;
    out.extend_from_slice(after).ok()?;
    Some(out)
}

// The text after these changes, each of which has to find its piece.
fn edited(alloc: Global, text: &[u8], edits: &[Edit]) -> Option<Vec<u8>> {
    let mut out = text.to_vec(alloc).ok()?;
    for edit in edits {
        out = changed(alloc, &out, *edit)?;
    }
    Some(out)
}

fn made_of(alloc: Global, case: &Case) -> Option<Made> {
    let of = case.of;
    if !is_bands_number(of.bands) || !is_system(of.system) {
        return None;
    }
    if (of.system == GALILEO && of.bands != 15) || of.epochs == 0 || of.epochs > 3600 {
        return None;
    }
    if of.sats < 4 || of.sats > 15 {
        return None;
    }
    make(alloc, 1, of.epochs, of.sats, of.bands, of.system).ok()
}

// The defaults but for the options of a case.
fn options_of(case: &Case) -> Option<Options> {
    let of = case.of;
    if !is_bands_number(of.bands) || !is_system(of.system) {
        return None;
    }
    if case.arc < 2 || case.arc > 3600 || case.budget < 1 || case.budget > 100_000_000 {
        return None;
    }
    let mut options = Options::defaults();
    options.arc = case.arc;
    options.budget = case.budget;
    options.bands = of.bands;
    options.system = of.system;
    Some(options)
}

// The observations of the text after these changes.
fn observations_of(
    alloc: Global,
    text: &[u8],
    edits: &[Edit],
    is_galileo: bool,
) -> Option<ObsFile> {
    let text = edited(alloc, text, edits)?;
    if text.len() > MAX_FILE {
        None
    } else if is_galileo {
        read_gal_obs(alloc, &text).ok()
    } else {
        read_obs(alloc, &text).ok()
    }
}

// The records of the text after these changes.
fn records_of(alloc: Global, text: &[u8], edits: &[Edit], is_galileo: bool) -> Option<NavFile> {
    let text = edited(alloc, text, edits)?;
    if text.len() > MAX_FILE {
        None
    } else if is_galileo {
        read_gal_nav(alloc, &text).ok()
    } else {
        read_nav(alloc, &text).ok()
    }
}

// The run over the files of a case.
fn outcome_of(alloc: Global, case: &Case) -> Option<Outcome> {
    let options = options_of(case)?;
    let is_galileo = options.system == GALILEO;
    let made = made_of(alloc, case)?;
    let base = observations_of(alloc, &made.base, case.base, is_galileo)?;
    let rover = observations_of(alloc, &made.rover, case.rover, is_galileo)?;
    let nav = records_of(alloc, &made.nav, case.nav, is_galileo)?;
    process(alloc, &base, &rover, &nav, &options).ok()
}

fn verdict_of(tail: &Tail) -> Verdict {
    match tail {
        Tail::Fixed { .. } => Verdict::Fixed,
        Tail::Unseparated { .. } => Verdict::Unseparated,
        Tail::Weak { column, .. } => Verdict::Weak { column: *column },
        Tail::Overwidth { place } => Verdict::Overwidth(*place),
        Tail::Unsettled { .. } => Verdict::Unsettled,
        Tail::Spent { .. } => Verdict::Spent,
    }
}

// What an answer ends with.
fn end_of(answer: &Answer) -> ExpectedEnd {
    match answer {
        Answer::Few { pairs } => ExpectedEnd::Few { pairs: *pairs },
        Answer::Arcs { free } => ExpectedEnd::Arcs { free: *free },
        Answer::Early { stage, tail } => ExpectedEnd::Early(*stage, verdict_of(tail)),
        Answer::Full(cert) => ExpectedEnd::Full(verdict_of(&cert.tail)),
    }
}

// Whether the session's point is near that of the model, where it is given.
fn is_near(answer: &Answer, want: Option<[i64; 3]>) -> bool {
    match (answer, want) {
        (_, None) => true,
        (Answer::Full(cert), Some(want)) => {
            let mut pairs = cert.session.point.iter().zip(want);
            pairs.all(|(p, w)| p.abs_diff(w) <= NEAR)
        }
        _ => false,
    }
}

// What of an outcome isn't as the model has it.
fn outcome_fault(outcome: &Outcome, case: &Case) -> Option<&'static str> {
    let counts = (outcome.taken, outcome.all, outcome.kept, outcome.delta);
    if counts != (case.of.epochs, case.of.epochs, case.kept, case.delta) {
        Some("the counts")
    } else if (outcome.rounds.coarse, outcome.rounds.fine) != case.rounds {
        Some("the rounds")
    } else if end_of(&outcome.answer) != case.end {
        Some("the end")
    } else if !is_near(&outcome.answer, case.point) {
        Some("the point")
    } else {
        None
    }
}

fn case_fault(alloc: Global, case: &Case) -> Option<&'static str> {
    match outcome_of(alloc, case) {
        Some(outcome) => outcome_fault(&outcome, case),
        None => Some("no outcome"),
    }
}

// The first case that ends otherwise, and what of it.
fn first_fault(alloc: Global) -> Option<(&'static str, &'static str)> {
    for case in CASES.iter() {
        if let Some(fault) = case_fault(alloc, case) {
            return Some((case.what, fault));
        }
    }
    None
}

#[test]
fn ends_as_the_model_does(rt: HostRuntime) {
    assert_eq!(rt; first_fault(rt.alloc()), None);
}
