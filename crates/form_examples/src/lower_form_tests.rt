//! Forms of an independent model, and why there is none.
ghost use Rattle.std.specs.Prelude.{◌≡◌, ◌⊎◌};

use crate::row_numbers::{
    L1_AND_L2, NoSession, THREE_BANDS, arc, empty_pair, finished, push_pair, push_row,
    session_with, three_arcs, with_rows,
};
use integer_form::{Form, FrontForm, LowerFault, Place, is_form_table};
use lower_form::{finish, front, lower};
use normal_sum::sum;
use obs_rows::{Arc, PairRows, Row, SIGNALS, Session, Signals};
use quadratic_form::{FormTable, MOST_COLUMNS, MOST_FACTORS, MOST_FORM_COLUMNS};
use std::alloc::{AllocError, Global};

// An arc, and the observations and the direction of a row of it.
type Sight = (u16, [i64; SIGNALS], [i64; 3]);

// Pairs of such rows, with the radius of all observations and that of all directions.
struct Sights {
    ry: i64,
    ru: i64,
    pairs: &'static [&'static [Sight]],
}

fn pair_of(
    alloc: Global,
    number: u32,
    sights: &Sights,
    rows: &[Sight],
) -> Result<PairRows, NoSession> {
    let mut pair = empty_pair(alloc, number)?;
    for (arc, y, u) in rows {
        push_row(&mut pair, Row::new(*arc, *y, sights.ry, *u, [sights.ru; 3]))?;
    }
    with_rows(pair)
}

// Of these arcs, of which the first is the datum.
fn session_of(
    alloc: Global,
    scale: u32,
    signals: Signals,
    arcs: Vec<Arc>,
    sights: &Sights,
) -> Result<Session, NoSession>
    requires { (scale ≡ 0) ⊎ (scale ≡ 14) }
{
    let mut session = session_with(alloc, scale, signals, arcs)?;
    let mut number = 0u32;
    for rows in sights.pairs {
        push_pair(&mut session, pair_of(alloc, number, sights, rows)?)?;
        number = number.wrapping_add(1);
    }
    finished(session)
}

fn two_arcs(alloc: Global) -> Result<Vec<Arc>, AllocError> {
    Ok(vec![in alloc; arc(3, true, 9), arc(5, false, 9)]?)
}

static TWO_PAIRS: Sights = Sights {
    ry: 700,
    ru: 32,
    pairs: &[
        &[
            (
                0,
                [586400, 766580, -1039743, 819513, 0, 0],
                [-3880093, -6271095, 170088],
            ),
            (
                1,
                [282820, -920273, -954951, -941849, 0, 0],
                [-4431913, 8235434, 6693809],
            ),
            (
                2,
                [721909, -926771, -118734, 788057, 0, 0],
                [7457312, 4349165, -1343694],
            ),
        ],
        &[
            (
                0,
                [-80252, -130942, 879140, 166856, 0, 0],
                [-3622341, -6288833, 270437],
            ),
            (
                1,
                [-268829, 194575, -541527, 346848, 0, 0],
                [-4671524, 8409686, 6536522],
            ),
            (
                2,
                [143274, 1045900, 601268, -903765, 0, 0],
                [7637779, 4286092, -1287734],
            ),
        ],
    ],
};

static THREE_PAIRS: Sights = Sights {
    ry: 2047,
    ru: 24,
    pairs: &[
        &[
            (
                0,
                [-620865, -2808, -993572, -139546, 411205, -96],
                [182704, 3641847, -7415355],
            ),
            (
                1,
                [584842, -379148, -746873, -466544, -27183, 8281],
                [7235095, -31788, -6648702],
            ),
            (
                2,
                [-1041132, -1026292, -170053, -144783, 314159, -26535],
                [-3125551, -4590047, 4086706],
            ),
        ],
        &[
            (
                0,
                [266973, -214374, -189669, -286603, -57721, 56649],
                [94473, 3554274, -7374141],
            ),
            (
                1,
                [-958104, 466364, 691668, -352506, 141421, -35623],
                [7179393, 107906, -6597544],
            ),
            (
                2,
                [343322, 215415, -1034387, 368666, -173205, 80757],
                [-3234916, -4575565, 3892865],
            ),
        ],
        &[
            (
                0,
                [235150, 967815, 275956, -273581, 69314, -71805],
                [-203126, 3767587, -7194419],
            ),
            (
                1,
                [-809497, 25928, -952671, 451491, -223606, 79775],
                [7719995, 434908, -6803640],
            ),
            (
                2,
                [487313, 530014, -1010499, 850698, 264575, -13110],
                [-2801973, -5076445, 4440762],
            ),
        ],
    ],
};

fn number_at(numbers: &[i64], at: usize) -> i64 {
    match numbers.get(at) {
        Some(number) => *number,
        None => 0,
    }
}

// The factors row by row, each those of a column with the columns before it.
fn factors_agree(form: &Form, l: &[i64]) -> bool {
    for r in 1..MOST_COLUMNS {
        for c in 0..r {
            let expected = if r < form.columns {
                number_at(l, r * (r - 1) / 2 + c)
            } else {
                0
            };
            if c < MOST_FACTORS && expected != form.l.at(r, c) {
                return false;
            }
        }
    }
    true
}

fn agrees(form: &Form, h: u32, g: i64, d: &[i64], l: &[i64]) -> bool {
    for j in 0..MOST_FACTORS {
        if form.d[j] != number_at(d, j) {
            return false;
        }
    }
    form.columns == d.len() + 1 && form.h == h && form.g == g && factors_agree(form, l)
}

fn float_agrees(form: &Form, point: &[i64]) -> bool {
    let Ok(numbers) = form.float_of() else {
        return false;
    };
    for j in 0..MOST_FACTORS {
        if numbers[j] != number_at(point, j) {
            return false;
        }
    }
    true
}

const FINE_D: [i64; 7] = [
    605298613249643,
    724024172318711,
    351061624301,
    140753078452494,
    94413935499,
    105564998031829,
    72056557878,
];

const FINE_L: [i64; 28] = [
    232664217,
    -462534273,
    439333416,
    -284876517,
    395147223,
    450727999,
    -365591531,
    507105603,
    578434265,
    -1377688032,
    516718564,
    28111975,
    -408548841,
    -536868464,
    9366235,
    663122157,
    36077035,
    -524304346,
    688847158,
    -524850904,
    -1377683093,
    -19299101,
    32479430,
    893833693,
    -20650357,
    -623263190,
    -41833933,
    -956789223,
];

const FINE_POINT: [i64; 7] = [-47286, -41076, -68629, 87104, 65910, 77482, 58398];

const COARSE_L: [i64; 6] = [
    232664217,
    -462534273,
    439333416,
    -64013097,
    45521403,
    -1837124107,
];

const COARSE_POINT: [i64; 3] = [62752, -48657, 112129];

const THREE_D: [i64; 9] = [
    427871697766790,
    227591059190487,
    317831814183,
    140908794400493,
    174471048735851,
    2731295397509,
    105587680785599,
    130505803394296,
    541946334779,
];

const THREE_L: [i64; 45] = [
    320350613,
    -892538343,
    -1276456599,
    416740066,
    -170603856,
    45701508,
    534816418,
    -218941615,
    58650269,
    -686489933,
    558069306,
    -228460816,
    61200281,
    -716337321,
    -1112342717,
    -316580491,
    -409165962,
    576885227,
    -536294058,
    895751,
    118983272,
    -406278296,
    -525096318,
    740336041,
    343985263,
    -535721365,
    152695200,
    -688326167,
    -423942570,
    -547926593,
    772524565,
    358941144,
    557370886,
    -377536791,
    -718253391,
    -1118287661,
    17763740,
    -22322646,
    2128378534,
    21424860,
    -10799908,
    -117915725,
    -13788184,
    24855102,
    -83311889,
];

const THREE_POINT: [i64; 9] = [-78327, -154569, -141017, 9296, 7886, 7709, 6666, 3779, 5085];

const COARSE_D: [i64; 3] = [495811042869822, 593061295834361, 287560927609];

// A form of an independent model: its factors and its float point.
struct WantedForm {
    h: u32,
    g: i64,
    d: &'static [i64],
    l: &'static [i64],
    point: &'static [i64],
}

static FINE: WantedForm = WantedForm {
    h: 37,
    g: 3268862075364,
    d: &FINE_D,
    l: &FINE_L,
    point: &FINE_POINT,
};

static COARSE: WantedForm = WantedForm {
    h: 23,
    g: 799130316951,
    d: &COARSE_D,
    l: &COARSE_L,
    point: &COARSE_POINT,
};

static THREE: WantedForm = WantedForm {
    h: 38,
    g: 2388094234167,
    d: &THREE_D,
    l: &THREE_L,
    point: &THREE_POINT,
};

// The form of a session, where it has one that is as wanted.
fn form_like(session: &Session, want: &WantedForm) -> Option<Form> {
    let form = lower(&sum(session)).ok()?;
    if agrees(&form, want.h, want.g, want.d, want.l) && float_agrees(&form, want.point) {
        Some(form)
    } else {
        None
    }
}

// The same of a session of three arcs.
fn lowered(
    alloc: Global,
    scale: u32,
    signals: Signals,
    sights: &Sights,
    want: &WantedForm,
) -> Result<Option<Form>, NoSession>
    requires { (scale ≡ 0) ⊎ (scale ≡ 14) }
{
    let session = session_of(alloc, scale, signals, three_arcs(alloc, 9)?, sights)?;
    Ok(form_like(&session, want))
}

// A fine session: the form, and its value at some integers and the baseline there, from an independent model.
#[test]
fn lowers_a_fine_session(rt: HostRuntime) -> Result<(), NoSession> {
    let form = lowered(rt.alloc(), 0, L1_AND_L2, &TWO_PAIRS, &FINE)?.expect(&rt, "another form");
    assert!(rt; form.columns == 8);
    let z: [i64; 4] = [-5, 2, 9, 16];
    assert!(rt; form.value(&z) == 14616769852822992);
    assert!(rt; form.baseline_of(&z) == Ok([-584900, -300359, 748825]));
    Ok(())
}

// The same rows by the code on L1 alone.
#[test]
fn lowers_a_coarse_session(rt: HostRuntime) -> Result<(), NoSession> {
    let form = lowered(rt.alloc(), 14, L1_AND_L2, &TWO_PAIRS, &COARSE)?.expect(&rt, "another form");
    assert!(rt; form.columns == 4);
    let z: [i64; 0] = [];
    assert!(rt; form.value(&z) == 799130316951);
    assert!(rt; form.baseline_of(&z) == Ok([62752, -48657, 112129]));
    Ok(())
}

// A fine session of three bands with wider radii.
#[test]
fn lowers_a_session_of_three_bands(rt: HostRuntime) -> Result<(), NoSession> {
    let form = lowered(rt.alloc(), 0, THREE_BANDS, &THREE_PAIRS, &THREE)?.expect(
        &rt,
        "another form",
    );
    assert!(rt; form.columns == 10);
    let z: [i64; 6] = [-5, 2, 9, 16, -23, 30];
    assert!(rt; form.value(&z) == 507725031356452889);
    assert!(rt; form.baseline_of(&z) == Ok([-481573, -534893, -1095346]));
    Ok(())
}

// Rows that are 0 but for one observation.
static STILL: Sights = Sights {
    ry: 0,
    ru: 0,
    pairs: &[&[
        (0, [262_144, 0, 0, 0, 0, 0], [0; 3]),
        (1, [0; SIGNALS], [0; 3]),
        (2, [0; SIGNALS], [0; 3]),
    ]],
};

// Why there is no form of a fine session on L1 and L2, by the whole elimination and by its steps up to the integers.
fn faults_of(
    alloc: Global,
    arcs: Vec<Arc>,
    sights: &Sights,
) -> Result<[Option<LowerFault>; 2], NoSession> {
    let normal = sum(&session_of(alloc, 0, L1_AND_L2, arcs, sights)?);
    Ok([lower(&normal).err(), front(&normal).err()])
}

// No pivot of the baseline's columns is left, and the first is less by the number of columns.
#[test]
fn refuses_a_weak_session(rt: HostRuntime) -> Result<(), NoSession> {
    let weak = LowerFault::Weak {
        column: 0,
        pivot: -8,
    };
    let found = faults_of(rt.alloc(), three_arcs(rt.alloc(), 9)?, &STILL)?;
    assert!(rt; found == [Some(weak), Some(weak)]);
    Ok(())
}

// Two arcs of which nothing is known, as a certificate may have them.
static NOTHING: Sights = Sights {
    ry: 0,
    ru: 0,
    pairs: &[&[(0, [0; SIGNALS], [0; 3]), (1, [0; SIGNALS], [0; 3])]],
};

// Of six columns the first pivot is -6.
#[test]
fn refuses_the_weakest_session(rt: HostRuntime) -> Result<(), NoSession> {
    let weak = LowerFault::Weak {
        column: 0,
        pivot: -6,
    };
    let [whole, _] = faults_of(rt.alloc(), two_arcs(rt.alloc())?, &NOTHING)?;
    assert!(rt; whole == Some(weak));
    Ok(())
}

fn too_wide(place: Place) -> LowerFault {
    LowerFault::Overwidth { place }
}

// The greatest radii, one pair.
static WIDE: Sights = Sights {
    ry: 1 << 20,
    ru: 0,
    pairs: &[&[
        (0, [0; SIGNALS], [0; 3]),
        (1, [0; SIGNALS], [0; 3]),
        (2, [0; SIGNALS], [0; 3]),
    ]],
};

// The entry of the constant is past 2^52 in size before the first pivot, which is weak, is seen.
#[test]
fn refuses_the_greatest_radii(rt: HostRuntime) -> Result<(), NoSession> {
    let [whole, _] = faults_of(rt.alloc(), three_arcs(rt.alloc(), 9)?, &WIDE)?;
    assert!(rt; whole == Some(too_wide(Place::Entry)));
    Ok(())
}

// A form of `columns` columns with these entries on the diagonal and after it, row by row.
fn form_of(columns: usize, entries: &[(usize, usize, i64)]) -> Option<FrontForm> {
    let mut p = FormTable::zeros();
    for (r, c, entry) in entries {
        if *r < MOST_FORM_COLUMNS && *c < MOST_FORM_COLUMNS {
            p.set(*r, *c, *entry);
            p.set(*c, *r, *entry);
        }
    }
    if columns < 4 || columns > MOST_COLUMNS || !is_form_table(&p, columns - 3) {
        return None;
    }
    Some(FrontForm::of(columns, 0, &p))
}

fn fault_of(columns: usize, entries: &[(usize, usize, i64)]) -> Option<LowerFault> {
    finish(&form_of(columns, entries)?).err()
}

#[test]
fn tells_why_a_form_is_refused(rt: HostRuntime) {
    let factor = [(0, 0, 1 << 20), (0, 1, 1 << 51)];
    let entry = [(0, 0, 1 << 20), (0, 1, 1 << 41)];
    let weak = [(0, 0, (1 << 20) - 1), (0, 1, 5)];
    let least = LowerFault::Weak {
        column: 3,
        pivot: (1 << 20) - 1,
    };
    assert!(rt; fault_of(5, &factor) == Some(too_wide(Place::Factor)));
    assert!(rt; fault_of(5, &entry) == Some(too_wide(Place::Entry)));
    assert!(rt; fault_of(5, &weak) == Some(least));
    assert!(rt; fault_of(4, &[(0, 0, -6)]).is_none());
}

// The place at which the float point of a form is too wide.
fn wide_place(columns: usize, entries: &[(usize, usize, i64)]) -> Option<Place> {
    let form = finish(&form_of(columns, entries)?).ok()?;
    Some(form.float_of().err()?.place)
}

// Two integers whose factors are so large that the number of the first is 2^46 or more in size.
#[test]
fn refuses_a_wide_float_point(rt: HostRuntime) {
    let last = (1 << 35) + (1 << 22);
    let entries = [
        (0, 0, 1 << 20),
        (0, 1, 1 << 35),
        (1, 1, (1 << 50) + (1 << 20) + 6),
        (1, 2, -last),
        (2, 2, 1 << 51),
    ];
    assert!(rt; wide_place(6, &entries) == Some(Place::Float));
}
