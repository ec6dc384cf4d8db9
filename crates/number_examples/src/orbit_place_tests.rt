//! Places as mpmath gives them, at the ends of the ranges and between.
ghost use Rattle.std.specs.Prelude.{◌*◌, ◌^◌, ◌≤◌, pos, ◌≤ℤ◌};

use iv_core::Iv;
use orbit_place::{
    ANGLE, AXIS, Orbit, Shape, earth_turn, eccentric_pair, place_of, relative_rate, rotation_of,
};
use sized_box::SizedBox;
use std::process::Abort;

// The numbers of an orbit, each in the unit of its box, M in units of 2^-56, and the place in units of 2^-36 m, rounded down.
struct Case {
    eccentricity: i64,
    mean: i64,
    axis: i64,
    epoch_time: i64,
    perigee: i64,
    inclination: i64,
    node: i64,
    inclination_rate: i64,
    node_rate: i64,
    cuc: i64,
    cus: i64,
    cic: i64,
    cis: i64,
    crc: i64,
    crs: i64,
    toe_second: u32,
    place: [i64; 3],
}

static CASES: [Case; 10] = [
    Case {
        eccentricity: 0,
        mean: 0,
        axis: 1717986918400000000,
        epoch_time: 0,
        perigee: 0,
        inclination: 0,
        node: 0,
        inclination_rate: 0,
        node_rate: 0,
        cuc: 0,
        cus: 0,
        cic: 0,
        cis: 0,
        crc: 0,
        crs: 0,
        toe_second: 0,
        place: [1717986918400000000, 0, 0],
    },
    Case {
        eccentricity: 19090283558584024,
        mean: 403997894546881244,
        axis: 1491578577515900147,
        epoch_time: 830334067617851192,
        perigee: -468374361246531584,
        inclination: 468374361246531584,
        node: -468374361246531584,
        inclination_rate: 13375687636167,
        node_rate: -986868762609608,
        cuc: 596650733404715,
        cus: 294049321250524,
        cic: 855321180721618,
        cis: -1058691365387905,
        crc: 10995116277760000,
        crs: -10995116277760000,
        toe_second: 604799,
        place: [
            -281849349472145074,
            -1423640455789451328,
            -251913929213098632,
        ],
    },
    Case {
        eccentricity: 25561749168446365,
        mean: 468374361246531584,
        axis: 1391569403904000000,
        epoch_time: -762847828924510484,
        perigee: -468374361246531584,
        inclination: 468374361246531584,
        node: 468374361246531584,
        inclination_rate: 101769028050837,
        node_rate: 460387824658657,
        cuc: 1152921504606846,
        cus: -1152921504606846,
        cic: -429510645244689,
        cis: 19558701504106,
        crc: -10995116277760000,
        crs: -1704107202339244,
        toe_second: 25842,
        place: [524825194354073402, -1255498865372281423, 3150604334527591],
    },
    Case {
        eccentricity: 0,
        mean: 468374361246531584,
        axis: 2360724675563198499,
        epoch_time: -207844781116338486,
        perigee: -406606130239140867,
        inclination: -193368956190719251,
        node: -468374361246531584,
        inclination_rate: 8714831994239,
        node_rate: 1152921504606846,
        cuc: 12276774204854,
        cus: -1126166038363398,
        cic: -179869142131917,
        cis: -926800008118200,
        crc: 644056392323936,
        crs: 10995116277760000,
        toe_second: 159046,
        place: [2218944883075897554, 179576108598399985, -787554078480524065],
    },
    Case {
        eccentricity: 3571782751223610,
        mean: 468374361246531584,
        axis: 1391569403904000000,
        epoch_time: -175083859841593296,
        perigee: 165702740559613774,
        inclination: 360456798092697161,
        node: -33552704268860451,
        inclination_rate: -12890455108453,
        node_rate: -816816821561685,
        cuc: 1088030313563246,
        cus: 1152921504606846,
        cic: 814851705374314,
        cis: 878299520232019,
        crc: -10995116277760000,
        crs: 9467405265815641,
        toe_second: 0,
        place: [-974422959354515628, 607768136908489344, -776996415433174087],
    },
    Case {
        eccentricity: 17067991521671203,
        mean: -468374361246531584,
        axis: 2256379951576875059,
        epoch_time: -830334067617851192,
        perigee: -468374361246531584,
        inclination: -306444607889390685,
        node: -468374361246531584,
        inclination_rate: 96138972310903,
        node_rate: 1116287874934613,
        cuc: -1152921504606846,
        cus: -1152921504606846,
        cic: 29408920732530,
        cis: 479742698984614,
        crc: 8291110666306343,
        crs: -8685163291817788,
        toe_second: 0,
        place: [
            1790966346177543731,
            1009779400608983476,
            -849305451461500079,
        ],
    },
    Case {
        eccentricity: 36028797018963968,
        mean: 275527249037487734,
        axis: 2068579956363975125,
        epoch_time: 830334067617851192,
        perigee: -170471261029360971,
        inclination: -76949251563652787,
        node: 468374361246531584,
        inclination_rate: -21579372137491,
        node_rate: 34598588637184,
        cuc: 897188892159429,
        cus: -652758301729698,
        cic: 839986014841230,
        cis: 1030276086499394,
        crc: 4450195307032633,
        crs: -1097972942443654,
        toe_second: 69471,
        place: [
            -598620475820155063,
            873141242479628648,
            -1835888280904377709,
        ],
    },
    Case {
        eccentricity: 36028797018963968,
        mean: -467037273128730944,
        axis: 2013012719617121147,
        epoch_time: -830334067617851192,
        perigee: -468374361246531584,
        inclination: -363026245181900722,
        node: 289736411306546402,
        inclination_rate: 115292150460684,
        node_rate: -153020464028756,
        cuc: 424007904488833,
        cus: 1152921504606846,
        cic: 589040717371404,
        cis: 595234994902125,
        crc: 10995116277760000,
        crs: 5495407338284244,
        toe_second: 503319,
        place: [
            1135343372394705015,
            -1389185509250685858,
            -768074645216473180,
        ],
    },
    Case {
        eccentricity: 14372915203745064,
        mean: -238010849227370668,
        axis: 2175159013853965993,
        epoch_time: 830334067617851192,
        perigee: 335573129834118177,
        inclination: -90085575172444373,
        node: 118484410848884282,
        inclination_rate: -68355988038025,
        node_rate: 314620978671608,
        cuc: 188592339445390,
        cus: 231068019935322,
        cic: 117357667772685,
        cis: -1152921504606846,
        crc: 10995116277760000,
        crs: 10995116277760000,
        toe_second: 84225,
        place: [
            -502749626921560563,
            649716504382574532,
            -2042573792090001777,
        ],
    },
    Case {
        eccentricity: 32085332183361972,
        mean: 468374361246531584,
        axis: 1391569403904000000,
        epoch_time: -791749552252966432,
        perigee: -249773956577325041,
        inclination: 80060548574031061,
        node: 217142716620217199,
        inclination_rate: -66692388259016,
        node_rate: -809623770424880,
        cuc: 517892913280154,
        cus: 314870818974577,
        cic: 1152921504606846,
        cis: -1152921504606846,
        crc: -10995116277760000,
        crs: -10995116277760000,
        toe_second: 212713,
        place: [
            -1164986259492070152,
            -678843625212595123,
            115251767082807602,
        ],
    },
];

// The box of one number.
fn at<const K: u32, const SIZE: u64, const WIDTH: u64>(
    rt: &impl Abort,
    n: i64,
) -> SizedBox<K, SIZE, WIDTH>
    requires scale { K ≤ 60 }
    requires limit { SIZE ≤ 2 ^ 62 }
{
    let most = SIZE as i64;
    assert!(rt; -most <= n && n <= most);
    SizedBox::new(Iv::from_ends(n, n))
}

fn axis_at(rt: &impl Abort, n: i64) -> SizedBox<36, AXIS, 4>
    ensures least { pos (20249999 * 2 ^ 36) ≤ℤ result.held.lo }
{
    let least: i64 = 20_250_000 << 36;
    let most: i64 = 36_000_000 << 36;
    assert!(rt; least <= n && n <= most);
    SizedBox::new(Iv::from_ends(n, n))
}

fn orbit_of(rt: &impl Abort, case: &Case) -> Orbit {
    assert!(rt; 0 <= case.eccentricity && case.eccentricity <= 1 << 55);
    assert!(rt; -(12 << 56) <= case.mean && case.mean <= 12 << 56);
    assert!(rt; case.toe_second < 604_800);
    let mean = Iv::from_ends(case.mean, case.mean);
    let eccentricity = Iv::from_ends(case.eccentricity, case.eccentricity);
    Orbit {
        shape: Shape::of(&SizedBox::new(eccentricity)),
        anomaly: eccentric_pair(&mean, &eccentricity),
        axis: axis_at(rt, case.axis),
        epoch_time: at(rt, case.epoch_time),
        perigee: rotation_of(&at::<56, ANGLE, 1>(rt, case.perigee)),
        inclination: at(rt, case.inclination),
        node: at(rt, case.node),
        inclination_rate: at(rt, case.inclination_rate),
        node_rate: relative_rate(&at(rt, case.node_rate)),
        cuc: at(rt, case.cuc),
        cus: at(rt, case.cus),
        cic: at(rt, case.cic),
        cis: at(rt, case.cis),
        crc: at(rt, case.crc),
        crs: at(rt, case.crs),
        earth_turn: earth_turn(case.toe_second),
    }
}

// Whether the boxes of a case hold its place.
fn is_placed(rt: &impl Abort, case: &Case) -> bool {
    let found = place_of(&orbit_of(rt, case));
    let mut held = found.iter().zip(case.place.iter());
    held.all(|(coordinate, value)| coordinate.lo() <= *value && *value < coordinate.hi())
}

#[test]
fn places(rt: HostRuntime) {
    for case in CASES.iter() {
        assert!(rt; is_placed(&rt, case));
    }
}
