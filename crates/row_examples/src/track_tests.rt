//! The pairs of a session, tracked one by one, decided together, and checked.
use crate::files::files_of;
use cert_data::Verdict;
use obs_rows::Options;
use std::alloc::Global;
use track_data::{Track, TrackCert, TrackTail, Tracked};
use track_form::{check_track, decide_track};
use track_rows::track_at;

// The base and the offset that seed 3 draws, (116,938, 555,615, 178,927) mm, in 0.1 mm.
const TRUE_PLACE: [i64; 3] = [63_782_539_380, 5_556_150, 1_789_270];

// A metre, in 0.1 mm: the codes alone place a pair within that.
const NEAR: u64 = 10_000;

const RATIO: u32 = 2000;

const BUDGET: u64 = 1_000_000;

// The track of the session of seed 3 with six epochs and four satellites.
fn track(alloc: Global) -> Option<Tracked> {
    let files = files_of(alloc, 3, 6, 4, &Options::defaults())?;
    track_at(
        alloc,
        &files.rounds.screened,
        files.rounds.kept.as_slice(),
        &files.rounds.position,
        files.rounds.signals,
        files.rounds.system,
    )
    .ok()
}

fn is_near(point: &[i64; 3]) -> bool {
    let mut pairs = point.iter().zip(TRUE_PLACE);
    pairs.all(|(found, want)| found.abs_diff(want) <= NEAR)
}

// How many pairs are tracked, from how many of them the rows begin near the true place, and how many are lost.
fn counts(tracked: &Tracked) -> (usize, usize, usize) {
    let points = tracked.track.points.as_slice();
    let near = points.iter().filter(|point| is_near(*point)).count();
    (tracked.track.pairs.len(), near, tracked.lost.len())
}

#[test]
fn tracks_each_pair(rt: HostRuntime) {
    let tracked = track(rt.alloc()).expect(&rt, "no track");
    assert_eq!(rt; counts(&tracked), (6, 6, 0));
}

// Whether the rows are decided to say that the first integers are best by the ratio.
fn is_fixed(alloc: Global, track: &Track) -> bool {
    if track.pairs.len() == 0 {
        return false;
    }
    let tail = decide_track(alloc, track, RATIO, BUDGET);
    matches!(&tail, Ok(TrackTail::Fixed { .. }))
}

#[test]
fn decides_a_track(rt: HostRuntime) {
    let tracked = track(rt.alloc()).expect(&rt, "no track");
    assert!(rt; is_fixed(rt.alloc(), &tracked.track));
}

// What the check says of the track with what it was decided to say.
fn verdict_on(alloc: Global, track: Track) -> Option<Verdict> {
    if track.pairs.len() == 0 {
        return None;
    }
    let tail = decide_track(alloc, &track, RATIO, BUDGET).ok()?;
    let cert = TrackCert {
        ratio: RATIO,
        budget: BUDGET,
        track,
        tail,
    };
    check_track(alloc, &cert).ok()
}

#[test]
fn certifies_a_track(rt: HostRuntime) {
    let tracked = track(rt.alloc()).expect(&rt, "no track");
    assert_eq!(rt;
        verdict_on(rt.alloc(), tracked.track),
        Some(Verdict::Certified)
    );
}
