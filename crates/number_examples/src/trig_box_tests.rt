//! Cosines and sines as mpmath gives them.
use iv_core::Iv;
use trig_box::{PairBox, pair_box};

// Angles in units of 2^-56, with 2^60 times their cosine and their sine, rounded down, as mpmath gives them.
static SMALL: [(i64, i64, i64); 19] = [
    (0, 1152921504606846976, 0),
    (1, 1152921504606846975, 15),
    (-1, 1152921504606846975, -16),
    (1073741824, 1152921504606846848, 17179869183),
    (37729268010818348, 998459311558907194, 576460752303423486),
    (-56593902016227522, 815238614083298890, -815238614083298886),
    (75458536021636696, 576460752303423491, 998459311558907191),
    (113187804032455044, 6, 1152921504606846975),
    (-226375608064910088, -1152921504606846976, -14),
    (72057594037927936, 622926147424044489, 970149993887725314),
    (
        -216172782113783808,
        -1141383638730074417,
        -162700292022512490,
    ),
    (180143985094819840, -923655702642540182, 689991404845619264),
    (526020436476873932, 606526082878858497, 980486668227846913),
    (-720575940379279360, -967383609775591313, 627213637704460588),
    (905502432259640355, 1152921504606846975, -5),
    (
        -987189038319612724,
        488117616800298900,
        -1044494704607980497,
    ),
    (1080863910568919040, -875860531524827476, 749730835101479982),
    (
        1152921504606846976,
        -1104106208955447788,
        -331929925030788602,
    ),
    (
        -1152921504606846976,
        -1104106208955447788,
        331929925030788601,
    ),
];

static LARGE: [(i64, i64, i64); 14] = [
    (0, 1152921504606846976, 0),
    (-1, 1152921504606846975, -16),
    (113187804032455044, 6, 1152921504606846975),
    (
        -1152921504606846976,
        -1104106208955447788,
        331929925030788601,
    ),
    (1441151880758558720, 470486584708960221, 1052554212092571634),
    (
        -2399517881463000269,
        -355304951929099408,
        -1096807360897790580,
    ),
    (3199357175284000358, 1053797023027287575, 467696301079816337),
    (
        3602879701896396800,
        1112530085463620804,
        -302497611103334934,
    ),
    (
        -3684304783159255368,
        748254399320261732,
        -877122197691285300,
    ),
    (4527512161298201776, 1152921504606846975, -8),
    (
        -4323455642275676160,
        -1098057406387333475,
        351422719901315225,
    ),
    (4611686018427387903, 451780627697908748, 1060717804235320375),
    (4611686018427387904, 451780627697908733, 1060717804235320381),
    (
        -4611686018427387904,
        451780627697908733,
        -1060717804235320382,
    ),
];

// The value rounded down, and the next one: the true one lies between them.
fn is_around(b: &Iv<60>, value: i64) -> bool {
    b.lo() <= value && value < b.hi()
}

// Which number of a pair isn't held.
fn fault_of(pair: &PairBox, cos: i64, sin: i64) -> Option<&'static str> {
    if !is_around(&pair.cos, cos) {
        Some("the cosine")
    } else if !is_around(&pair.sin, sin) {
        Some("the sine")
    } else {
        None
    }
}

fn fault_by_five(row: &(i64, i64, i64)) -> Option<&'static str> {
    let (angle, cos, sin) = *row;
    if angle < -(1 << 60) || angle > 1 << 60 {
        return Some("out of range");
    }
    fault_of(&pair_box(&Iv::from_ends(angle, angle), 5), cos, sin)
}

#[test]
fn five_halvings(rt: HostRuntime) {
    for row in SMALL.iter() {
        assert!(rt; fault_by_five(row).is_none());
    }
}

fn fault_by_seven(row: &(i64, i64, i64)) -> Option<&'static str> {
    let (angle, cos, sin) = *row;
    let Ok(point) = Iv::point(angle) else {
        return Some("out of range");
    };
    fault_of(&pair_box(&point, 7), cos, sin)
}

#[test]
fn seven_halvings(rt: HostRuntime) {
    for row in LARGE.iter() {
        assert!(rt; fault_by_seven(row).is_none());
    }
}

// The cosine and the sine at both ends of a box of angles that is 2^-40 wide.
static ENDS: [(i64, i64); 2] = [
    (622926147424485662, 970149993887442040),
    (622926147423603315, 970149993888008588),
];

#[test]
fn widest(rt: HostRuntime) {
    let angles = Iv {
        lo: 72057594037895168,
        hi: 72057594037960704,
    };
    let pair = pair_box(&angles, 5);
    for row in ENDS.iter() {
        assert!(rt; fault_of(&pair, row.0, row.1).is_none());
    }
}
