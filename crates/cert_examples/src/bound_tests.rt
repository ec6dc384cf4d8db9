//! How near the vectors of certificates are to the least-squares ones. The numbers come from the texts by a computation of its own
//! in whole numbers, not from the calls.
ghost use Rattle.std.specs.Prelude.{◌↔◌, IsTrue, All};
ghost use Rattle.obs_rows.specs.Ranges.{IsBelow};
ghost use Rattle.obs_rows.specs.Pairs.{HasItsArcs};

use crate::bound_texts::{GALILEO, MIGRATED, TEN_EPOCHS, THREE_BANDS, TRACK};
use crate::real_text::REAL;
use crate::texts::cert_of;
use cert_data::{Cert, Tail};
use line_source::MAX_FILE;
use obs_rows::{
    Arc, PairRows, Session, Signals, fine_signals, free_arcs, has_its_arcs, integer_count,
};
use std::alloc::Global;
use track_data::{TrackCert, TrackTail};
use track_text::read_track;
use vector_bound::{
    move_bound, pair_move_bound, pair_vector_bound, track_vector_bound, vector_bound,
};

// In 2^-5 ι, and in hundredths of a millimetre.
type Bounds = (Option<i64>, Option<i64>);

// Whether all are below the limit in size.
fn are_below(numbers: &[i64], limit: u64) -> bool
    ensures { IsTrue result ↔ All (IsBelow limit) numbers.now }
{
    numbers.iter().all(|n| n.unsigned_abs() < limit)
}

// The same of several lists.
fn are_all_below(lists: &[[i64; 3]], limit: u64) -> bool
    ensures { IsTrue result ↔ All (All (IsBelow limit)) lists.now }
{
    lists.iter().all(|numbers| are_below(numbers, limit))
}

// Whether each row of these pairs is of an arc of the list.
fn have_their_arcs(arcs: &[Arc], pairs: &[PairRows]) -> bool
    ensures { IsTrue result ↔ All (HasItsArcs arcs.now) pairs.now }
{
    pairs.iter().all(|pair| has_its_arcs(arcs, pair))
}

// Of a session, or nothing where the calls aren't allowed.
fn bounds_of(session: &Session, h: u32, z: &[i64], moved: &[i64; 3], top: i128) -> Option<Bounds> {
    let arcs = session.arcs.as_slice();
    if session.scale != 0 || h > 77 || !are_below(z, 1 << 30) || !are_below(moved, 1 << 46) {
        return None;
    }
    if z.len() != integer_count(arcs, fine_signals(session.signals)) {
        return None;
    }
    let units = move_bound(session, h, z, moved, top);
    Some((units, vector_bound(session, h, z, moved, top)))
}

// Of one pair of a track, or nothing where the calls aren't allowed.
fn pair_bounds(
    arcs: &[Arc],
    signals: Signals,
    pair: &PairRows,
    z: &[i64],
    moved: &[i64; 3],
) -> Option<Bounds> {
    if free_arcs(arcs) > 20 || z.len() != integer_count(arcs, fine_signals(signals)) {
        return None;
    }
    if !has_its_arcs(arcs, pair) || !are_below(z, 1 << 30) || !are_below(moved, 1 << 46) {
        return None;
    }
    let units = pair_move_bound(arcs, signals, pair, z, moved);
    Some((units, pair_vector_bound(arcs, signals, pair, z, moved)))
}

// The greatest in hundredths of a millimetre of a track's pairs, or nothing where the call isn't allowed.
fn greatest_bound(
    arcs: &[Arc],
    signals: Signals,
    pairs: &[PairRows],
    z: &[i64],
    moves: &[[i64; 3]],
) -> Option<i64> {
    if free_arcs(arcs) > 20 || z.len() != integer_count(arcs, fine_signals(signals)) {
        return None;
    }
    if moves.len() != pairs.len() || !have_their_arcs(arcs, pairs) {
        return None;
    }
    if !are_below(z, 1 << 30) || !are_all_below(moves, 1 << 46) {
        return None;
    }
    track_vector_bound(arcs, signals, pairs, z, moves)
}

// Of a certificate that is fixed.
fn bounds_in(cert: &Cert) -> Option<Bounds> {
    match &cert.tail {
        Tail::Fixed {
            h,
            moved,
            best,
            top,
        } => bounds_of(&cert.session, *h, &best.first[..best.size], moved, *top),
        _ => None,
    }
}

static VECTORS: [(&str, i64, i64); 5] = [
    (TEN_EPOCHS, 7, 4),
    (MIGRATED, 7, 4),
    (REAL, 6, 3),
    (THREE_BANDS, 17, 8),
    (GALILEO, 8, 4),
];

// Whether these are the bounds of the text's certificate.
fn are_bounds(alloc: Global, text: &str, units: i64, hundredths: i64) -> bool {
    match cert_of(alloc, text) {
        Some(cert) => bounds_in(&cert) == Some((Some(units), Some(hundredths))),
        None => false,
    }
}

#[test]
fn bounds_vectors(rt: HostRuntime) {
    for row in VECTORS.iter() {
        assert!(rt; are_bounds(rt.alloc(), row.0, row.1, row.2));
    }
}

// Of a pair of the track, at its move with this much more in each coordinate; nothing where the calls aren't allowed.
fn found_of_pair(cert: &TrackCert, k: usize, more: i64) -> Option<Bounds> {
    let track = &cert.track;
    let TrackTail::Fixed { moves, best, .. } = &cert.tail else {
        return None;
    };
    let pair = track.pairs.as_slice().get(k)?;
    let [a, b, c] = *moves.as_slice().get(k)?;
    let moved = [
        a.wrapping_add(more),
        b.wrapping_add(more),
        c.wrapping_add(more),
    ];
    let first = &best.first[..best.size];
    pair_bounds(track.arcs.as_slice(), track.signals, pair, first, &moved)
}

// Of all pairs of the track.
fn greatest_of(cert: &TrackCert) -> Option<i64> {
    let track = &cert.track;
    let (arcs, pairs) = (track.arcs.as_slice(), track.pairs.as_slice());
    match &cert.tail {
        TrackTail::Fixed { moves, best, .. } => {
            let first = &best.first[..best.size];
            greatest_bound(arcs, track.signals, pairs, first, moves.as_slice())
        }
        _ => None,
    }
}

// A pair, how much its move is more, and its bounds. A kilometre from its move a pair has none, since its residuals are too large.
static PAIRS: [(usize, i64, Bounds); 5] = [
    (0, 0, (Some(5), Some(3))),
    (1, 0, (Some(9), Some(4))),
    (2, 0, (Some(12), Some(6))),
    (3, 0, (Some(13), Some(6))),
    (0, 1 << 28, (None, None)),
];

// Whether each pair has its bounds, and which the greatest is. The vector of the same session has 13.
fn are_pairs_bounded(cert: &TrackCert) -> bool {
    for row in PAIRS.iter() {
        if found_of_pair(cert, row.0, row.1) != Some(row.2) {
            return false;
        }
    }
    greatest_of(cert) == Some(6)
}

// The certificate of the track.
fn track_cert(alloc: Global) -> Option<TrackCert> {
    if TRACK.len() > MAX_FILE {
        return None;
    }
    read_track(alloc, TRACK.as_bytes()).ok()
}

// Whether this holds of it.
fn is_track_bounded(alloc: Global) -> bool {
    match track_cert(alloc) {
        Some(cert) => are_pairs_bounded(&cert),
        None => false,
    }
}

#[test]
fn bounds_pairs(rt: HostRuntime) {
    assert!(rt; is_track_bounded(rt.alloc()));
}
