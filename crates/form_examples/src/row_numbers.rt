//! Sessions from the numbers of their rows.
ghost use Rattle.std.specs.Prelude.{◌≡◌, ◌⊎◌};

use gps_time::Tick;
use obs_rows::{
    Arc, ArcList, MOST_PAIRS, MOST_SATELLITES, PairBuilder, PairRows, Row, SIGNALS, Session,
    SessionBuilder, Signals, are_arcs, fine_signals, has_its_arcs, has_used_rows, has_used_shifts,
    is_point,
};
use std::alloc::{AllocError, Global};

/// Why there is no session.
#[derive(Clone, Copy, Debug)]
pub(crate) enum NoSession {
    /// An allocation failed.
    NoMemory,
    /// A number is out of its range, or there is no row or no pair.
    OutOfRange,
}

impl From<AllocError> for NoSession {
    fn from(_fault: AllocError) -> NoSession {
        NoSession::NoMemory
    }
}

/// The arc, and what its row says: the observations, their radius, the direction, its radii.
pub(crate) type Numbers = (u16, [i64; SIGNALS], i64, [i64; 3], [i64; 3]);

pub(crate) const L1_AND_L2: Signals = Signals {
    l1: b'C',
    l2: b'W',
    l5: 0,
};

pub(crate) const L1_AND_L5: Signals = Signals {
    l1: b'C',
    l2: 0,
    l5: b'Q',
};

pub(crate) const THREE_BANDS: Signals = Signals {
    l1: b'C',
    l2: b'W',
    l5: b'Q',
};

/// An arc without shifts.
pub(crate) fn arc(sat: u8, datum: bool, last: u32) -> Arc {
    Arc {
        sat,
        first: 0,
        last,
        datum,
        shift: [0; 3],
    }
}

/// Three arcs, of which the first is the datum.
pub(crate) fn three_arcs(alloc: Global, last: u32) -> Result<Vec<Arc>, AllocError> {
    Ok(vec![in alloc;
        arc(3, true, last),
        arc(5, false, last),
        arc(9, false, last),
    ]?)
}

/// A pair without rows.
pub(crate) fn empty_pair(alloc: Global, number: u32) -> Result<PairBuilder, NoSession> {
    if number >= MOST_PAIRS {
        return Err(NoSession::OutOfRange);
    }
    Ok(PairBuilder::new(alloc, number, Tick(13_881_024_000_000_000), 0))
}

/// Adds a row, where there is one that may follow.
pub(crate) fn push_row(pair: &mut PairBuilder, row: Option<Row>) -> Result<(), NoSession> {
    let row = row.ok_or(NoSession::OutOfRange)?;
    if pair.rows.len() >= MOST_SATELLITES || !pair.may_follow(row.arc) {
        return Err(NoSession::OutOfRange);
    }
    pair.push(row)?;
    Ok(())
}

/// The pair of these rows, where there is one at least.
pub(crate) fn with_rows(pair: PairBuilder) -> Result<PairRows, NoSession> {
    if pair.rows.is_empty() {
        return Err(NoSession::OutOfRange);
    }
    Ok(pair.finish())
}

// The observations with 0 in the place of each signal of a band that isn't used.
fn used_of(y: &[i64; SIGNALS], signals: Signals) -> [i64; SIGNALS] {
    let mut used = [0; SIGNALS];
    for s in fine_signals(signals) {
        used[*s] = y[*s];
    }
    used
}

/// A pair of what these rows say of the signals.
pub(crate) fn pair_of(
    alloc: Global,
    number: u32,
    signals: Signals,
    rows: &[Numbers],
) -> Result<PairRows, NoSession> {
    let mut pair = empty_pair(alloc, number)?;
    for (arc, y, ry, u, ru) in rows {
        push_row(&mut pair, Row::new(*arc, used_of(y, signals), *ry, *u, *ru))?;
    }
    with_rows(pair)
}

/// A session without pairs, where the arcs are in range.
pub(crate) fn session_with(
    alloc: Global,
    scale: u32,
    signals: Signals,
    arcs: Vec<Arc>,
) -> Result<SessionBuilder, NoSession>
    requires { (scale ≡ 0) ⊎ (scale ≡ 14) }
{
    let base = [63_781_370_000, 0, 0];
    if !are_arcs(&arcs) || !is_point(&base) || !arcs.iter().all(|a| has_used_shifts(signals, a)) {
        return Err(NoSession::OutOfRange);
    }
    Ok(SessionBuilder::new(alloc, scale, b'G', base, base, signals, ArcList::new(arcs)))
}

/// Adds a pair that may follow.
pub(crate) fn push_pair(session: &mut SessionBuilder, pair: PairRows) -> Result<(), NoSession> {
    if !session.may_follow(pair.number)
        || !has_its_arcs(session.arcs.as_slice(), &pair)
        || !has_used_rows(fine_signals(session.signals), &pair)
    {
        return Err(NoSession::OutOfRange);
    }
    session.push(pair)?;
    Ok(())
}

/// Adds the pair of these rows.
pub(crate) fn push(
    alloc: Global,
    session: &mut SessionBuilder,
    number: u32,
    rows: &[Numbers],
) -> Result<(), NoSession> {
    push_pair(session, pair_of(alloc, number, session.signals, rows)?)
}

/// The session of these pairs, where there is one at least.
pub(crate) fn finished(session: SessionBuilder) -> Result<Session, NoSession> {
    if session.pairs.is_empty() {
        return Err(NoSession::OutOfRange);
    }
    Ok(session.finish())
}
