//! Eccentric anomalies as mpmath gives them.
use iv_core::Iv;
use kepler_box::{Anomaly, anomaly_box, anomaly_by_steps};

// A mean anomaly in units of 2^-56 and an eccentricity in units of 2^-60; then the solution as mpmath gives it, rounded
// down: the angle in units of 2^-56, its cosine and its sine in units of 2^-60.
type Solution = (i64, i64, i64, i64, i64);

static SOLUTIONS: [Solution; 27] = [
    (0, 0, 0, 1152921504606846976, 0),
    (0, 36028797018963968, 0, 1152921504606846976, 0),
    (1, 36028797018963968, 1, 1152921504606846975, 16),
    (-1, 36028797018963968, -2, 1152921504606846975, -17),
    (
        72057594037927936,
        0,
        72057594037927936,
        622926147424044489,
        970149993887725314,
    ),
    (
        72057594037927936,
        36028797018963968,
        73984267909044733,
        596766737937467854,
        986457022011800287,
    ),
    (
        -72057594037927936,
        36028797018963968,
        -73984267909044734,
        596766737937467854,
        -986457022011800288,
    ),
    (
        36028797018963968,
        18014398509481984,
        36576070891721424,
        1007556633529327445,
        560408445703635364,
    ),
    (
        113187804032455044,
        36028797018963968,
        115438505496159459,
        -36005368219557185,
        1152359149416660801,
    ),
    (
        -113187804032455044,
        36028797018963968,
        -115438505496159460,
        -36005368219557185,
        -1152359149416660802,
    ),
    (
        226375608064910088,
        36028797018963968,
        226375608064910088,
        -1152921504606846976,
        12,
    ),
    (
        -226375608064910088,
        1,
        -226375608064910089,
        -1152921504606846976,
        -14,
    ),
    (
        180143985094819840,
        11529215046068469,
        180571794772702977,
        -927735914648830435,
        684495484613020573,
    ),
    (
        -237790060325162189,
        36028797018963968,
        -237445485759151912,
        -1139343324448862974,
        176422177797262305,
    ),
    (
        288230376151711744,
        36028797018963967,
        286560766866761542,
        -773612725470929508,
        -854839953894503067,
    ),
    (
        410728286016189235,
        9223372036854775,
        410408706486119644,
        959533059163108617,
        -639159060139181765,
    ),
    (
        -432345564227567616,
        36028797018963968,
        -431696940036499267,
        1104056392427099288,
        332095585826994709,
    ),
    (
        452751216129820177,
        36028797018963968,
        452751216129820176,
        1152921504606846975,
        -11,
    ),
    (
        -504403158265495552,
        20000000000000000,
        -505235218302911476,
        860385932228112836,
        -767439928208636470,
    ),
    (
        594475150812905472,
        36028797018963968,
        596527096430571557,
        -474842829016162407,
        1050596156245035681,
    ),
    (
        -713370180975486567,
        3000000000000000,
        -713284591089571758,
        -1025793445353469637,
        526284906922832222,
    ),
    (
        727781699783072153,
        36028797018963968,
        726407929612945846,
        -913508718477052635,
        -703370327104668859,
    ),
    (
        792633534417207296,
        36028797018963968,
        790382544009402642,
        -30909643477808198,
        -1152507088795982488,
    ),
    (
        864691128455135232,
        0,
        864691128455135232,
        972897375770308954,
        -618626455952347813,
    ),
    (
        864691128455135232,
        36028797018963968,
        863450334112961767,
        962101242349952172,
        -635286703192813936,
    ),
    (
        -864691128455135232,
        36028797018963968,
        -863450334112961768,
        962101242349952172,
        635286703192813935,
    ),
    (
        -864691128455135232,
        0,
        -864691128455135232,
        972897375770308954,
        618626455952347812,
    ),
];

// The value rounded down, and the next one: the true one lies between them.
fn is_around<const K: u32>(b: &Iv<K>, value: i64) -> bool {
    b.lo() <= value && value < b.hi()
}

// What of a solution isn't held.
fn held_fault(found: &Anomaly, angle: i64, cos: i64, sin: i64) -> Option<&'static str> {
    if !is_around(&found.angle, angle) {
        Some("the angle")
    } else if !is_around(&found.cos, cos) {
        Some("the cosine")
    } else if !is_around(&found.sin, sin) {
        Some("the sine")
    } else {
        None
    }
}

// What of a row isn't held.
fn box_fault(row: &Solution) -> Option<&'static str> {
    let (m, e, angle, cos, sin) = *row;
    if m < -(12 << 56) || m > 12 << 56 || e < 0 || e > 1 << 55 {
        return Some("out of range");
    }
    let found = anomaly_box(&Iv::from_ends(m, m), &Iv::from_ends(e, e));
    held_fault(&found, angle, cos, sin)
}

#[test]
fn solutions(rt: HostRuntime) {
    for row in SOLUTIONS.iter() {
        assert!(rt; box_fault(row).is_none());
    }
}

// What of the solution at perigee isn't held, or wider than it may be.
fn perigee_fault(e: i64) -> Option<&'static str> {
    if e < 0 || e > 1 << 55 {
        return Some("out of range");
    }
    let found = anomaly_box(&Iv::from_ends(0, 0), &Iv::from_ends(e, e));
    if found.angle.width() > 1 << 6 || found.cos.width() > 1 << 11 || found.sin.width() > 1 << 11 {
        return Some("width");
    }
    held_fault(&found, 0, 1 << 60, 0)
}

#[test]
fn at_perigee(rt: HostRuntime) {
    for e in [0, 1 << 55] {
        assert!(rt; perigee_fault(e).is_none());
    }
}

// The solutions at the corners of boxes that are as wide as they may be.
static CORNERS: [(i64, i64, i64); 4] = [
    (863450334112961750, 962101242349952028, -635286703192814155),
    (863450334112961750, 962101242349952028, -635286703192814156),
    (863450334112961767, 962101242349952172, -635286703192813936),
    (863450334112961767, 962101242349952173, -635286703192813935),
];

#[test]
fn widest(rt: HostRuntime) {
    let m = Iv {
        lo: (12 << 56) - 16,
        hi: 12 << 56,
    };
    let e = Iv {
        lo: (1 << 55) - 2,
        hi: 1 << 55,
    };
    let found = anomaly_box(&m, &e);
    for row in CORNERS.iter() {
        let (angle, cos, sin) = *row;
        assert!(rt; held_fault(&found, angle, cos, sin).is_none());
    }
}

// What of a row isn't held by the steps alone, or wider than it may be: 34 units of 2^-56 and 1600 of 2^-60
fn steps_fault(row: &Solution) -> Option<&'static str> {
    let (m, e, angle, cos, sin) = *row;
    if m < -(12 << 56) || m > 12 << 56 || e < 0 || e > 1 << 55 {
        return Some("out of range");
    }
    let found = anomaly_by_steps(&Iv::from_ends(m, m), &Iv::from_ends(e, e));
    if found.angle.width() > 34 || found.cos.width() > 1600 || found.sin.width() > 1600 {
        return Some("width");
    }
    held_fault(&found, angle, cos, sin)
}

// The steps, which `anomaly_box` takes only where a rough start does not serve.
#[test]
fn by_steps(rt: HostRuntime) {
    for row in SOLUTIONS.iter() {
        assert!(rt; steps_fault(row).is_none());
    }
}
