//! What is printed of ends without a session.
use cert_data::{Answer, Outcome, RoundCounts, Stage, Tail};
use integer_form::Place;
use report_text::{is_fixed, push_place, write_outcome};
use std::alloc::{AllocError, Global};

// Whether these texts are printed of an outcome, on standard output and on standard error.
pub(crate) fn is_printed(
    alloc: Global,
    outcome: &Outcome,
    text: &[u8],
    lines: &str,
) -> Result<bool, AllocError> {
    let mut out = Vec::new(alloc);
    let mut err = Vec::new(alloc);
    write_outcome(alloc, &mut out, &mut err, outcome)?;
    Ok(out.as_slice() == text && err.as_slice() == lines.as_bytes())
}

const LINES: &str = "pairs 20 of 60\narcs 22\nnote antenna delta not applied\nverdict declined\n";

// Whether this is what is printed of a run that ends so, without a fix.
fn declines(alloc: Global, answer: Answer, want: &str) -> bool {
    let outcome = Outcome {
        taken: 20,
        all: 60,
        kept: 22,
        delta: true,
        rounds: RoundCounts {
            coarse: 10,
            fine: 6,
        },
        answer,
    };
    let is_so = is_printed(alloc, &outcome, want.as_bytes(), LINES);
    !is_fixed(&outcome.answer) && matches!(is_so, Ok(true))
}

const WEAK: Tail = Tail::Weak {
    column: 2,
    pivot: -6,
};

// A stage, how its round ends, and what is printed of it.
const ROUNDS: [(Stage, Tail, &str); 3] = [
    (Stage::Coarse, WEAK, "declined weak coarse 2 -6\n"),
    (
        Stage::Fine,
        Tail::Overwidth { place: Place::Y },
        "declined overwidth fine y\n",
    ),
    (
        Stage::Coarse,
        Tail::Unsettled { entry: -65 },
        "declined unsettled coarse -65\n",
    ),
];

fn declines_early(alloc: Global, stage: Stage, tail: Tail, want: &str) -> bool {
    declines(alloc, Answer::Early { stage, tail }, want)
}

#[test]
fn prints_declines(rt: HostRuntime) {
    let alloc = rt.alloc();
    assert!(rt; declines(alloc, Answer::Few { pairs: 2 }, "declined few 2\n"));
    assert!(rt; declines(alloc, Answer::Arcs { free: 21 }, "declined arcs 21\n"));
    for row in ROUNDS.iter() {
        assert!(rt; declines_early(alloc, row.0, row.1, row.2));
    }
}

// Each place at which a number may be too large, by its name.
static PLACES: [(Place, &str); 7] = [
    (Place::Y, "declined overwidth coarse y\n"),
    (Place::Factor, "declined overwidth coarse factor\n"),
    (Place::Entry, "declined overwidth coarse entry\n"),
    (Place::Float, "declined overwidth coarse float\n"),
    (Place::Point, "declined overwidth coarse point\n"),
    (Place::Search, "declined overwidth coarse search\n"),
    (Place::Sum, "declined overwidth coarse sum\n"),
];

#[test]
fn prints_each_place(rt: HostRuntime) {
    for row in PLACES.iter() {
        let wide = Tail::Overwidth { place: row.0 };
        assert!(rt; declines_early(rt.alloc(), Stage::Coarse, wide, row.1));
    }
}

// 232 numbers of a move are 9.9972 of 0.1 mm, and 1,000 are 43.09: m is 299792458 · m / 6957054720 of them.
fn is_moved(alloc: Global) -> Result<bool, AllocError> {
    let mut text = Vec::new(alloc);
    let (point, base) = ([63_781_370_010, 0, -5], [63_781_370_000, 20_000, -5]);
    let moved = [232, -1_000, 0];
    push_place(alloc, &mut text, "place 7", &point, &base, &moved)?;
    Ok(text.as_slice() == b"place 7 0.0020 -2.0043 0.0000\n".as_slice())
}

#[test]
fn prints_places(rt: HostRuntime) {
    assert!(rt; matches!(is_moved(rt.alloc()), Ok(true)));
}
