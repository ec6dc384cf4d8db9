//! Sessions drawn by chance, which an independent model draws in the same way.
use crate::row_numbers::{
    L1_AND_L2, L1_AND_L5, NoSession, THREE_BANDS, arc, empty_pair, finished, push_pair, push_row,
    session_with, with_rows,
};
use obs_rows::{
    Arc, COARSE_SIGNALS, PairRows, ROW_EXPONENT, Row, SIGNALS, Session, SessionBuilder, Signals,
    WAVELENGTHS, fine_signals, phase_count,
};
use std::alloc::{AllocError, Global};

// What a session is made of.
#[derive(Clone, Copy)]
pub(crate) struct Case {
    pub(crate) seed: u64,
    pub(crate) arcs: u8,
    pub(crate) pairs: u32,
    // of the phases
    pub(crate) noise: u32,
    // the radius of the observations
    pub(crate) ry: i64,
    // 12, 15 or 125
    pub(crate) bands: u16,
}

// Rows, and the integers and the move that they were made with.
#[derive(Drop)]
pub(crate) struct Made {
    pub(crate) session: Session,
    pub(crate) z: Vec<i64>,
    pub(crate) moved: [i64; 3],
}

// From -most to most.
fn draw(state: &mut u64, most: u32) -> i64 {
    *state = state
        .wrapping_mul(6_364_136_223_846_793_005)
        .wrapping_add(1_442_695_040_888_963_407);
    ((*state >> 33) % (2 * most as u64 + 1)) as i64 - most as i64
}

pub(crate) fn signals_of(bands: u16) -> Signals {
    match bands {
        15 => L1_AND_L5,
        125 => THREE_BANDS,
        _ => L1_AND_L2,
    }
}

// The integers of arc k stand after those of the arcs before it, of which the first is the datum.
fn integer_at(z: &[i64], phases: usize, k: u8, phase: usize) -> i64 {
    if k == 0 {
        return 0;
    }
    let place = phases.wrapping_mul(k as usize - 1).wrapping_add(phase);
    if place < z.len() { z[place] } else { 0 }
}

fn drawn_row(
    state: &mut u64,
    k: u8,
    case: Case,
    clock: &[i64; SIGNALS],
    z: &[i64],
    moved: &[i64; 3],
) -> Option<Row> {
    let most = 1 << 23;
    let u = [draw(state, most), draw(state, most), draw(state, most)];
    let advance = u[0]
        .wrapping_mul(moved[0])
        .wrapping_add(u[1].wrapping_mul(moved[1]))
        .wrapping_add(u[2].wrapping_mul(moved[2]))
        >> 16;
    let signals = fine_signals(signals_of(case.bands));
    let phases = phase_count(signals);
    let mut y = [0; SIGNALS];
    let mut phase = 0usize;
    for s in signals {
        let cycle = WAVELENGTHS[*s].wrapping_mul(1 << ROW_EXPONENT);
        let seen = advance.wrapping_add(clock[*s]);
        y[*s] = if cycle > 0 {
            let cycles = cycle.wrapping_mul(integer_at(z, phases, k, phase));
            phase = phase.wrapping_add(1);
            seen.wrapping_add(cycles)
                .wrapping_add(draw(state, case.noise))
        } else {
            seen.wrapping_add(draw(state, 1 << 24))
        };
    }
    Row::new(k as u16, y, case.ry, u, [32; 3])
}

fn drawn_clocks(state: &mut u64, signals: Signals) -> [i64; SIGNALS] {
    let mut clocks = [0; SIGNALS];
    for s in fine_signals(signals) {
        clocks[*s] = draw(state, 1 << 20);
    }
    clocks
}

fn drawn_pair(
    alloc: Global,
    state: &mut u64,
    number: u32,
    case: Case,
    z: &[i64],
    moved: &[i64; 3],
) -> Result<PairRows, NoSession> {
    let clocks = drawn_clocks(state, signals_of(case.bands));
    let mut pair = empty_pair(alloc, number)?;
    for k in 0..case.arcs {
        push_row(&mut pair, drawn_row(state, k, case, &clocks, z, moved))?;
    }
    with_rows(pair)
}

fn later_row(row: &Row, by: i64) -> Option<Row> {
    let mut y = row.y;
    y[COARSE_SIGNALS[0]] = y[COARSE_SIGNALS[0]].wrapping_add(by);
    Row::new(row.arc, y, row.ry, row.u, row.ru)
}

// The same rows with the L1 code's y greater by `by`, as by the receivers' clocks.
fn later_pair(alloc: Global, pair: &PairRows, by: i64) -> Result<PairRows, NoSession> {
    let mut later = empty_pair(alloc, pair.number)?;
    for row in pair.rows.as_slice() {
        push_row(&mut later, later_row(row, by))?;
    }
    with_rows(later)
}

pub(crate) fn later_session(
    alloc: Global,
    session: &Session,
    by: i64,
) -> Result<Session, NoSession> {
    let arcs = session.arcs.as_slice().to_vec(alloc)?;
    let mut later = session_with(alloc, 0, session.signals, arcs)?;
    for pair in session.pairs.as_slice() {
        push_pair(&mut later, later_pair(alloc, pair, by)?)?;
    }
    finished(later)
}

fn drawn_arcs(alloc: Global, case: Case) -> Result<Vec<Arc>, AllocError> {
    let mut arcs = Vec::new(alloc);
    for k in 0..case.arcs {
        arcs.push(arc(k.wrapping_add(1), k == 0, case.pairs.wrapping_sub(1)))?;
    }
    Ok(arcs)
}

// The integers of the arcs after the first, which is the datum.
fn drawn_integers(alloc: Global, state: &mut u64, case: Case) -> Result<Vec<i64>, AllocError> {
    let phases = phase_count(fine_signals(signals_of(case.bands)));
    let mut z = Vec::new(alloc);
    for _ in 1..case.arcs {
        for _ in 0..phases {
            z.push(draw(state, 9))?;
        }
    }
    Ok(z)
}

fn push_drawn(
    alloc: Global,
    state: &mut u64,
    session: &mut SessionBuilder,
    case: Case,
    z: &[i64],
    moved: &[i64; 3],
) -> Result<(), NoSession> {
    for number in 0..case.pairs {
        push_pair(session, drawn_pair(alloc, state, number, case, z, moved)?)?;
    }
    Ok(())
}

pub(crate) fn drawn_session(alloc: Global, case: Case) -> Result<Made, NoSession> {
    let mut state = case.seed;
    let moved = [
        draw(&mut state, 20_000),
        draw(&mut state, 20_000),
        draw(&mut state, 20_000),
    ];
    let z = drawn_integers(alloc, &mut state, case)?;
    let arcs = drawn_arcs(alloc, case)?;
    let mut session = session_with(alloc, 0, signals_of(case.bands), arcs)?;
    push_drawn(alloc, &mut state, &mut session, case, &z, &moved)?;
    Ok(Made {
        session: finished(session)?,
        z,
        moved,
    })
}
