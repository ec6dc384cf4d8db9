//! The boxes of the rows hold the values of the independent model, whatever groups and shifts are chosen.
ghost use Rattle.std.specs.Prelude.{◌<◌, ◌≤◌, ◌^◌, unsigned_abs};
ghost use Rattle.row_build.specs.BasePseudoranges.{AreBasePseudoranges};
ghost use Rattle.obs_rows.specs.ReceiverPoints.{IsReceiverPoint};
ghost use Rattle.slip_arcs.specs.Linked.{IsCutOf};

use crate::expected::{Expected, ExpectedPair, ExpectedRow, HIGH, PLAIN};
use crate::expected_bands::{ALL_BANDS, GALILEO};
use crate::files::{Files, files_of};
use crate::rows::{fine_rows, rows_of};
use obs_rows::{Arc, Options, PairRows, Row, Session};
use row_build::{pair_rows, shift_at};
use std::alloc::Global;

/// How many units of a fine row are one ι.
const FINE: i128 = 8192;

/// How many ι are one unit of a coarse row.
const COARSE: i64 = 2;

/// The greatest radii of y boxes.
const FINE_RADIUS: i64 = 470;

const COARSE_RADIUS: i64 = 1;

// Whether this is the arc, without shifts.
fn is_arc(arc: &Arc, want: (u8, u32, u32, bool)) -> bool {
    (arc.sat, arc.first, arc.last, arc.datum) == want && arc.shift == [0; 3]
}

fn are_arcs_held(kept: &[Arc], want: &Expected) -> bool {
    for (arc, want) in kept.iter().zip(want.arcs.iter()) {
        if !is_arc(arc, *want) {
            return false;
        }
    }
    kept.len() == want.arcs.len()
}

// Whether each pair uses every satellite, so that no run was too short to be kept.
fn are_pairs_full(files: &Files, want: &Expected) -> bool {
    let used = files.rounds.screened.used.as_slice();
    for pair in used.iter() {
        if pair.sats.len() != want.arcs.len() {
            return false;
        }
    }
    used.len() == want.taken
}

// Whether the box around y holds the value, once what was taken off is back.
fn is_held(y: i64, ry: i64, taken_off: i128, exact: i64) -> bool
    requires { unsigned_abs taken_off ≤ 2 ^ 100 }
{
    let apart = y as i128 + taken_off - exact as i128;
    apart.unsigned_abs() <= ry.unsigned_abs() as u128
}

fn is_direction(row: &Row, direction: [i64; 3]) -> bool {
    row.u.iter().zip(row.ru).zip(direction).all(|((u, ru), want)| ru <= 32
        && u.abs_diff(want) <= ru.unsigned_abs())
}

// What the shifts take off a signal, in ι: the wavelength for each cycle of a phase.
fn cycles_off(shift: [i64; 3], signal: usize) -> i128
    ensures { unsigned_abs result ≤ 2 ^ 80 }
{
    match signal {
        0 => 1380 * shift[0] as i128,
        1 => 1771 * shift[1] as i128,
        4 => 1848 * shift[2] as i128,
        _ => 0,
    }
}

// What the group and the shifts take off a signal, in units of a fine row.
fn taken_off(group: i64, shift: [i64; 3], signal: usize) -> i128
    ensures { unsigned_abs result ≤ 2 ^ 100 }
{
    (group as i128 + cycles_off(shift, signal)) * FINE
}

// Whether the row holds the value of the signal, and 0 for one that isn't used.
fn is_signal_held(row: &Row, group: i64, shift: [i64; 3], exact: &[i64; 6], signal: usize) -> bool
    requires { signal < 6 }
{
    let y = row.y[signal];
    if exact[signal] == 0 {
        return y == 0;
    }
    is_held(y, row.ry, taken_off(group, shift, signal), exact[signal])
}

fn is_fine_row(row: &Row, group: i64, shift: [i64; 3], want: ExpectedRow) -> bool {
    let (arc, exact, _coarse, direction) = want;
    for signal in 0..6 {
        if !is_signal_held(row, group, shift, &exact, signal) {
            return false;
        }
    }
    row.arc == arc && row.ry <= FINE_RADIUS && is_direction(row, direction)
}

fn is_coarse_row(row: &Row, group: i64, want: ExpectedRow) -> bool {
    let (arc, _exact, coarse, direction) = want;
    let [l1, l2, code, c2, l5, c5] = row.y;
    row.arc == arc
        && row.ry <= COARSE_RADIUS
        && [l1, l2, c2, l5, c5] == [0; 5]
        && is_held(
            code.saturating_mul(COARSE),
            COARSE * row.ry,
            group as i128,
            coarse,
        )
        && is_direction(row, direction)
}

// Whether a box meets that from -unit to unit.
fn is_near(y: i64, ry: i64, unit: u64) -> bool {
    y.unsigned_abs() <= unit.saturating_add(ry.unsigned_abs())
}

// Whether the box around a phase meets -λ to λ with this shift.
fn is_within_cycle(exact: i64, ry: i64, taken_off: i128, wavelength: i64) -> bool
    requires { unsigned_abs taken_off ≤ 2 ^ 100 }
{
    let left = exact as i128 - taken_off;
    left.unsigned_abs() <= (wavelength as i128 * FINE + ry as i128).unsigned_abs()
}

// Each phase by its number, with its wavelength in ι and the place of its shift.
const PHASES: [(usize, i64, usize); 3] = [(0, 1380, 0), (1, 1771, 1), (4, 1848, 2)];

fn are_shifts(shift: [i64; 3], ry: i64, group: i64, exact: [i64; 6]) -> bool {
    for (signal, wavelength, band) in PHASES {
        if band >= 3 || signal >= 6 || shift[band].unsigned_abs() >= 549_755_813_888 {
            return false;
        }
        let off = taken_off(group, shift, signal);
        let is_near = match exact[signal] {
            0 => shift[band] == 0,
            value => is_within_cycle(value, ry, off, wavelength),
        };
        if !is_near {
            return false;
        }
    }
    true
}

// Whether the pair has this head and as many rows.
fn is_pair(pair: &PairRows, want: &ExpectedPair) -> bool {
    let (number, tag, rows) = want;
    (pair.number as usize, pair.tag.0, pair.rows.len()) == (*number, *tag, rows.len())
}

// Whether the group takes off all of the first row's code but one ι.
fn is_fine_group(pair: &PairRows) -> bool {
    let first = &pair.rows.as_slice()[0];
    is_near(first.y[2], first.ry, 8192)
}

fn are_fine_rows(pair: &PairRows, arcs: &[Arc], want: &ExpectedPair) -> bool {
    for (row, want) in pair.rows.as_slice().iter().zip(want.2.iter()) {
        let Some(arc) = arcs.get(row.arc as usize) else {
            return false;
        };
        if !is_fine_row(row, pair.group, arc.shift, *want) {
            return false;
        }
    }
    true
}

// Whether the group takes off all of the first row's code but one unit.
fn is_coarse_group(pair: &PairRows) -> bool {
    let first = &pair.rows.as_slice()[0];
    is_near(COARSE * first.y[2], COARSE * first.ry, 1)
}

fn are_coarse_rows(pair: &PairRows, want: &ExpectedPair) -> bool {
    for (row, want) in pair.rows.as_slice().iter().zip(want.2.iter()) {
        if !is_coarse_row(row, pair.group, *want) {
            return false;
        }
    }
    true
}

// Whether the shifts of the arcs in a pair, at a point, leave less than a cycle.
fn are_shifts_held(files: &Files, pair: &PairRows, point: &[i64; 3], want: &ExpectedPair) -> bool
    requires cut { IsCutOf files.now.rounds.screened.used files.now.rounds.kept }
    requires point { IsReceiverPoint point.now }
{
    let (number, _tag, rows) = want;
    if *number >= files.rounds.screened.used.len() {
        return false;
    }
    let kept = files.rounds.kept.as_slice();
    for (arc, exact, _coarse, _direction) in rows.iter() {
        if *arc as usize >= kept.len() {
            return false;
        }
        let Some(shift) = shift_at(
            &files.rounds.screened,
            kept,
            *arc,
            *number as u32,
            &files.rounds.position,
            point,
            files.rounds.signals,
        ) else {
            return false;
        };
        if !are_shifts(shift, FINE_RADIUS, pair.group, *exact) {
            return false;
        }
    }
    true
}

fn is_same_pair(one: &PairRows, other: &PairRows) -> bool {
    (one.number, one.tag, one.group) == (other.number, other.tag, other.group)
        && one.rows.as_slice() == other.rows.as_slice()
}

// Whether the session's pair is that of `pair_rows`.
fn is_pair_alone(alloc: Global, files: &Files, session: &Session, number: usize) -> bool
    requires cut { IsCutOf files.now.rounds.screened.used session.now.arcs }
    requires base { IsReceiverPoint session.now.base }
    requires point { IsReceiverPoint session.now.point }
{
    if number >= session.pairs.len() || number >= files.rounds.screened.used.len() {
        return false;
    }
    match pair_rows(
        alloc,
        &files.rounds.screened,
        session.arcs.as_slice(),
        number as u32,
        &session.base,
        &session.point,
        session.signals,
        session.scale,
    ) {
        Ok(Some(alone)) => is_same_pair(&alone, &session.pairs.as_slice()[number]),
        _ => false,
    }
}

fn are_same_pairs(one: &[PairRows], other: &[PairRows]) -> bool {
    for (one, other) in one.iter().zip(other.iter()) {
        if !is_same_pair(one, other) {
            return false;
        }
    }
    one.len() == other.len()
}

fn is_same_session(one: &Session, other: &Session) -> bool {
    (one.scale, one.system, one.base, one.point)
        == (other.scale, other.system, other.base, other.point)
        && one.arcs.as_slice() == other.arcs.as_slice()
        && are_same_pairs(one.pairs.as_slice(), other.pairs.as_slice())
}

fn is_copied(alloc: Global, session: &Session) -> bool {
    match session.copy(alloc) {
        Ok(copied) => is_same_session(&copied, session),
        Err(_) => false,
    }
}

fn fine_pair_fault(files: &Files, session: &Session, want: &ExpectedPair) -> Option<&'static str>
    requires cut { IsCutOf files.now.rounds.screened.used files.now.rounds.kept }
    requires point { IsReceiverPoint session.now.point }
{
    let Some(pair) = session.pairs.as_slice().get(want.0) else {
        return Some("no such fine pair");
    };
    if !is_pair(pair, want) || !is_fine_group(pair) {
        Some("a fine pair")
    } else if !are_fine_rows(pair, session.arcs.as_slice(), want) {
        Some("a fine row")
    } else if !are_shifts_held(files, pair, &session.point, want) {
        Some("a shift")
    } else {
        None
    }
}

fn coarse_pair_fault(session: &Session, want: &ExpectedPair) -> Option<&'static str> {
    let Some(pair) = session.pairs.as_slice().get(want.0) else {
        return Some("no such coarse pair");
    };
    if !is_pair(pair, want) || !is_coarse_group(pair) {
        Some("a coarse pair")
    } else if !are_coarse_rows(pair, want) {
        Some("a coarse row")
    } else {
        None
    }
}

// What isn't so of a session whose pairs are as expected, fine or coarse.
fn session_fault(
    alloc: Global,
    files: &Files,
    session: &Session,
    want: &Expected,
) -> Option<&'static str>
    requires cut { IsCutOf files.now.rounds.screened.used session.now.arcs }
    requires base { IsReceiverPoint session.now.base }
    requires point { IsReceiverPoint session.now.point }
{
    if session.system != files.rounds.system || session.pairs.len() != want.taken {
        return Some("the system or the number of pairs");
    }
    for pair in want.pairs.iter() {
        if !is_pair_alone(alloc, files, session, pair.0) {
            return Some("the rows of one pair alone");
        }
    }
    if is_copied(alloc, session) {
        None
    } else {
        Some("the copy")
    }
}

fn fine_fault(alloc: Global, files: &Files, want: &Expected) -> Option<&'static str>
    requires cut { IsCutOf files.now.rounds.screened.used files.now.rounds.kept }
    requires base_pseudoranges { AreBasePseudoranges files.now.rounds.screened.boxes
        files.now.rounds.position files.now.rounds.base_pseudoranges.items }
{
    let Some(session) = fine_rows(alloc, files, &want.point) else {
        return Some("no fine rows");
    };
    for pair in want.pairs.iter() {
        if let Some(fault) = fine_pair_fault(files, &session, pair) {
            return Some(fault);
        }
    }
    session_fault(alloc, files, &session, want)
}

fn coarse_fault(alloc: Global, files: &Files, want: &Expected) -> Option<&'static str>
    requires cut { IsCutOf files.now.rounds.screened.used files.now.rounds.kept }
{
    let Some(session) = rows_of(alloc, files, files.rounds.kept.as_slice(), &want.point, 14) else {
        return Some("no coarse rows");
    };
    for pair in want.pairs.iter() {
        if let Some(fault) = coarse_pair_fault(&session, pair) {
            return Some(fault);
        }
    }
    session_fault(alloc, files, &session, want)
}

fn files_fault(alloc: Global, files: &Files, want: &Expected) -> Option<&'static str>
    requires cut { IsCutOf files.now.rounds.screened.used files.now.rounds.kept }
    requires base_pseudoranges { AreBasePseudoranges files.now.rounds.screened.boxes
        files.now.rounds.position files.now.rounds.base_pseudoranges.items }
{
    if files.rounds.position != want.base {
        return Some("the base");
    }
    if !are_pairs_full(files, want) {
        return Some("the pairs of epochs");
    }
    if !are_arcs_held(files.rounds.kept.as_slice(), want) {
        return Some("the arcs");
    }
    if let Some(fault) = fine_fault(alloc, files, want) {
        return Some(fault);
    }
    coarse_fault(alloc, files, want)
}

// What isn't as expected of a session that is simulated.
fn fault(
    alloc: Global,
    seed: u32,
    epochs: u32,
    sats: u32,
    options: &Options,
    want: &Expected,
) -> Option<&'static str>
    requires epochs { epochs ≤ 3600 }
    requires sats { sats ≤ 15 }
{
    let Some(files) = files_of(alloc, seed, epochs, sats, options) else {
        return Some("no files");
    };
    files_fault(alloc, &files, want)
}

#[test]
fn rows_where_the_rover_stands(rt: HostRuntime) {
    let found = fault(rt.alloc(), 1, 6, 4, &Options::defaults(), &PLAIN);
    assert_eq!(rt; found, None);
}

// With a higher mask and shorter arcs.
#[test]
fn rows_beside_the_rover(rt: HostRuntime) {
    let mut options = Options::defaults();
    options.mask = 500;
    options.arc = 2;
    assert_eq!(rt; fault(rt.alloc(), 77, 3, 6, &options, &HIGH), None);
}

// With the phases and codes of all three bands.
#[test]
fn rows_of_all_bands(rt: HostRuntime) {
    let mut options = Options::defaults();
    options.bands = 125;
    options.arc = 2;
    assert_eq!(rt; fault(rt.alloc(), 8, 3, 4, &options, &ALL_BANDS), None);
}

// With the last four satellites of Galileo.
#[test]
fn rows_of_galileo(rt: HostRuntime) {
    let mut options = Options::defaults();
    options.bands = 15;
    options.system = b'E';
    options.arc = 2;
    assert_eq!(rt; fault(rt.alloc(), 21, 3, 4, &options, &GALILEO), None);
}
