//! Sums, doubles and true anomalies as mpmath gives them.
use iv_core::Iv;
use orbit_place::{Rotation, Shape, eccentric_pair, on_ellipse, rotation_of, wide_rotation_of};
use sized_box::SizedBox;

const LIMIT: u64 = 1 << 60;

// Two angles in units of 2^-56; the cosine and the sine of their sum, and of twice the first, in units of 2^-60, rounded down.
type Sums = (i64, i64, (i64, i64), (i64, i64));

static SUMS: [Sums; 10] = [
    (0, 0, (1152921504606846976, 0), (1152921504606846976, 0)),
    (1, -1, (1152921504606846976, 0), (1152921504606846975, 31)),
    (
        1152921504606846976,
        -1152921504606846976,
        (1152921504606846976, 0),
        (961794051973345948, 635751679017530071),
    ),
    (
        1152921504606846976,
        1152921504606846976,
        (961794051973345948, 635751679017530071),
        (961794051973345948, 635751679017530071),
    ),
    (
        25110709360032837,
        500531707995603097,
        (611661413993089293, 977291312975251254),
        (884055211326299556, 740050254450147261),
    ),
    (
        -4368849566706828,
        -913790581910326699,
        (1135181454998649217, -201472231367167856),
        (1144455623147750136, -139460827583987885),
    ),
    (
        -429572441709123013,
        561672729417945334,
        (-299137484782805631, 1113438260965884269),
        (922448482810752216, 691604505729291244),
    ),
    (
        603014453094475176,
        -682647592953976472,
        (517680957692995486, -1030162327901277358),
        (-594484445434465441, -987834115588944395),
    ),
    (
        -3086507062735035,
        729343013238315682,
        (-914984778487394761, -701449107862636758),
        (1148693464007466006, -98647460846411410),
    ),
    (
        -313245724772128739,
        643041115276481861,
        (-155810122983380491, -1142344607095783387),
        (-858771862309595619, -769245659259917318),
    ),
];

// An eccentricity in units of 2^-60 and a mean anomaly in units of 2^-56; the radius over the semi-major axis, and the cosine and
// the sine of the true anomaly, in units of 2^-60, rounded down.
type Ellipse = (i64, i64, i64, (i64, i64));

static ELLIPSES: [Ellipse; 9] = [
    (0, 0, 1152921504606846976, (1152921504606846976, 0)),
    (
        36028797018963968,
        0,
        1116892707587883008,
        (1152921504606846976, 0),
    ),
    (
        36028797018963968,
        864691128455135232,
        1122855840783410970,
        (950869023668277610, -651978600579077586),
    ),
    (
        36028797018963968,
        -864691128455135232,
        1122855840783410970,
        (950869023668277610, 651978600579077585),
    ),
    (
        5183230086075223,
        560149648225223402,
        1152528677295646061,
        (82222548954799517, 1149985846968688336),
    ),
    (
        32053790258585163,
        -559764465828012954,
        1151065552800010727,
        (34757660548472787, -1152397457832198193),
    ),
    (
        382852832453034,
        -482252208109259977,
        1152570312251153022,
        (1057518548934240595, -459219462180049651),
    ),
    (
        11996474469916032,
        -141460317223786659,
        1157614534583898647,
        (-461143139474139322, -1056681125364151833),
    ),
    (
        14331489657514994,
        578144468294061124,
        1155509973548175133,
        (-222066785540252522, 1131332991892632540),
    ),
];

fn is_around(b: &Iv<60>, value: i64) -> bool {
    b.lo() <= value && value <= b.hi()
}

// What of a row isn't held.
fn sum_fault(row: &Sums) -> Option<&'static str> {
    let (first, second, sum, twice) = *row;
    if first < -(1 << 60) || first > 1 << 60 || second < -(1 << 60) || second > 1 << 60 {
        return Some("out of range");
    }
    let angle: SizedBox<56, LIMIT, 0> = SizedBox::new(Iv::from_ends(first, first));
    let other: SizedBox<56, LIMIT, 0> = SizedBox::new(Iv::from_ends(second, second));
    let turn: Rotation<1, 512> = rotation_of(&angle);
    let further: Rotation<4, 4096> = wide_rotation_of(&other);
    let found: Rotation<6, 9300> = turn.turn::<4, 4096, 4650, 6, 9300>(&further);
    if !(is_around(&found.cos, sum.0) && is_around(&found.sin, sum.1)) {
        return Some("the sum");
    }
    let double: Rotation<3, 2100> = turn.double::<1050, 3, 2100>();
    if is_around(&double.cos, twice.0) && is_around(&double.sin, twice.1) {
        None
    } else {
        Some("the double")
    }
}

#[test]
fn sums_and_doubles(rt: HostRuntime) {
    for row in SUMS.iter() {
        assert!(rt; sum_fault(row).is_none());
    }
}

// What of a row isn't held.
fn ellipse_fault(row: &Ellipse) -> Option<&'static str> {
    let (e, mean, radius, pair) = *row;
    if e < 0 || e > 1 << 55 || mean < -(12 << 56) || mean > 12 << 56 {
        return Some("out of range");
    }
    let anomaly = eccentric_pair(&Iv::from_ends(mean, mean), &Iv::from_ends(e, e));
    let shape = Shape::of(&SizedBox::new(Iv::from_ends(e, e)));
    let found = on_ellipse(&shape, &anomaly);
    if !is_around(&found.radius.held, radius) {
        return Some("the radius");
    }
    let turn = found.true_anomaly;
    if is_around(&turn.cos, pair.0) && is_around(&turn.sin, pair.1) {
        None
    } else {
        Some("the true anomaly")
    }
}

#[test]
fn true_anomalies(rt: HostRuntime) {
    for row in ELLIPSES.iter() {
        assert!(rt; ellipse_fault(row).is_none());
    }
}
