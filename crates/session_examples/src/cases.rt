//! Changes to sessions of seed 1, and what an independent model ends with, after how many rounds. Its verdicts stay the same where each
//! centre of its boxes is moved by chance: of an observation by up to 4 units of its row, of a direction by up to 40 units of 2^-24. The
//! integers of those that are fixed are cases of the program (cases/fix_ends.cases).

use integer_form::Place;
use session::Stage;

// What stands in a file, and what is put in its place.
pub type Edit = (&'static str, &'static str);

// Why there is no fix, or that there is one.
#[derive(Clone, Copy, Debug, PartialEq, Eq)]
pub enum Verdict {
    Fixed,
    Unseparated,
    Weak { column: u32 },
    Overwidth(Place),
    Unsettled,
    Spent,
}

#[derive(Clone, Copy, Debug, PartialEq, Eq)]
pub enum ExpectedEnd {
    Few { pairs: u32 },
    Arcs { free: u32 },
    Early(Stage, Verdict),
    Full(Verdict),
}

// A session of seed 1, as it is made.
#[derive(Clone, Copy)]
pub struct Made {
    pub epochs: u32,
    pub sats: u32,
    pub bands: u16,
    pub system: u8,
}

pub struct Case {
    pub what: &'static str,
    pub of: Made,
    pub base: &'static [Edit],
    pub rover: &'static [Edit],
    pub nav: &'static [Edit],
    pub arc: u32,
    pub budget: u64,
    pub kept: u32,
    pub delta: bool,
    // The rounds that are made, coarse and fine. No round is made without arcs enough, ten coarse ones where none of them settles,
    // and six fine ones.
    pub rounds: (u32, u32),
    pub end: ExpectedEnd,
    // The point of the last session, in 0.1 mm, where it doesn't hang on the rows' roundings.
    pub point: Option<[i64; 3]>,
}

// G04 gets the orbit of G03.
const DOUBLE: &[Edit] = &[
    (
        "E-09 8.000000000000E-01\n     1.000000000000E-06 4.0",
        "E-09-8.000000000000E-01\n     1.000000000000E-06 3.0",
    ),
    ("E+00-1.080000000000E+00", "E+00-1.200000000000E-01"),
];

// G04 gets an orbit whose node is a hundredth of a radian from that of G03.
const BESIDE: &[Edit] = &[
    (
        "E-09 8.000000000000E-01\n     1.000000000000E-06 4.0",
        "E-09-8.000000000000E-01\n     1.000000000000E-06 3.0",
    ),
    ("E+00-1.080000000000E+00", "E+00-1.300000000000E-01"),
];

// The second epoch comes after 1 s, 4 s or 5 s, so that the satellites have hardly moved.
const SECOND: &[Edit] = &[("00 00 30.0000000", "00 00  1.0000000")];

const FOUR_SECONDS: &[Edit] = &[("00 00 30.0000000", "00 00  4.0000000")];

const FIVE_SECONDS: &[Edit] = &[("00 00 30.0000000", "00 00  5.0000000")];

// The last numbers of Galileo in place of the first, in each of two epochs.
const RENUMBERED: &[Edit] = &[
    ("\nE01", "\nE33"),
    ("\nE02", "\nE34"),
    ("\nE03", "\nE35"),
    ("\nE04", "\nE36"),
    ("\nE01", "\nE33"),
    ("\nE02", "\nE34"),
    ("\nE03", "\nE35"),
    ("\nE04", "\nE36"),
];

const RENUMBERED_RECORDS: &[Edit] = &[
    ("\nE01", "\nE33"),
    ("\nE02", "\nE34"),
    ("\nE03", "\nE35"),
    ("\nE04", "\nE36"),
];

// In four epochs of twelve satellites, loss of lock in the third on L1 of nine and of ten of the satellites.
const NINE_CUTS: &[Edit] = &[
    ("119664227.809 ", "119664227.8091"),
    ("120609412.288 ", "120609412.2881"),
    ("118475158.441 ", "118475158.4411"),
    ("118708454.539 ", "118708454.5391"),
    ("112015758.991 ", "112015758.9911"),
    ("112589860.050 ", "112589860.0501"),
    ("109118195.067 ", "109118195.0671"),
    ("108537531.856 ", "108537531.8561"),
    ("109642237.517 ", "109642237.5171"),
];

const TEN_CUTS: &[Edit] = &[
    ("119664227.809 ", "119664227.8091"),
    ("120609412.288 ", "120609412.2881"),
    ("118475158.441 ", "118475158.4411"),
    ("118708454.539 ", "118708454.5391"),
    ("112015758.991 ", "112015758.9911"),
    ("112589860.050 ", "112589860.0501"),
    ("109118195.067 ", "109118195.0671"),
    ("108537531.856 ", "108537531.8561"),
    ("109642237.517 ", "109642237.5171"),
    ("107399011.299 ", "107399011.2991"),
];

const SHORT: Made = Made {
    epochs: 2,
    sats: 4,
    bands: 12,
    system: b'G',
};

const TWELVE: Made = Made {
    epochs: 4,
    sats: 12,
    bands: 12,
    system: b'G',
};

pub static CASES: [Case; 18] = [
    Case {
        what: "as it is",
        of: SHORT,
        base: &[],
        rover: &[],
        nav: &[],
        arc: 2,
        budget: 1_000_000,
        kept: 4,
        delta: false,
        rounds: (2, 2),
        end: ExpectedEnd::Full(Verdict::Fixed),
        point: Some([63_779_713_156, 9_436_085, -6_595_010]),
    },
    Case {
        what: "arcs of three pairs",
        of: SHORT,
        base: &[],
        rover: &[(
            "0.0000                  ANTENNA",
            "0.0010                  ANTENNA",
        )],
        nav: &[],
        arc: 3,
        budget: 1_000_000,
        kept: 0,
        delta: true,
        rounds: (0, 0),
        end: ExpectedEnd::Few { pairs: 2 },
        point: None,
    },
    Case {
        what: "a budget of one",
        of: SHORT,
        base: &[],
        rover: &[],
        nav: &[],
        arc: 2,
        budget: 1,
        kept: 4,
        delta: false,
        rounds: (2, 2),
        end: ExpectedEnd::Full(Verdict::Spent),
        point: Some([63_779_713_156, 9_436_085, -6_595_010]),
    },
    Case {
        what: "the base 2 km off in its header",
        of: SHORT,
        base: &[("6378137.0000        0.0000", "6378137.0000     2000.0000")],
        rover: &[],
        nav: &[],
        arc: 2,
        budget: 1_000_000,
        kept: 4,
        delta: false,
        rounds: (2, 2),
        end: ExpectedEnd::Full(Verdict::Fixed),
        point: Some([63_779_713_350, 29_436_538, -6_595_315]),
    },
    Case {
        what: "half a cycle of G03 on L1",
        of: SHORT,
        base: &[],
        rover: &[
            ("120372573.515", "120372574.015"),
            ("120283793.233", "120283793.733"),
        ],
        nav: &[],
        arc: 2,
        budget: 1_000_000,
        kept: 4,
        delta: false,
        rounds: (2, 2),
        end: ExpectedEnd::Full(Verdict::Unseparated),
        point: Some([63_779_713_156, 9_436_085, -6_595_010]),
    },
    Case {
        what: "10,000 km in the code of G02 on L1",
        of: SHORT,
        base: &[],
        rover: &[
            ("G02  22899670.168", "G02  32899670.168"),
            ("G02  22916593.286", "G02  32916593.286"),
        ],
        nav: &[],
        arc: 2,
        budget: 1_000_000,
        kept: 4,
        delta: false,
        rounds: (1, 0),
        end: ExpectedEnd::Early(Stage::Coarse, Verdict::Overwidth(Place::Y)),
        point: None,
    },
    Case {
        what: "2,000 km in the code of G02 on L1",
        of: SHORT,
        base: &[],
        rover: &[
            ("G02  22899670.168", "G02  20899670.168"),
            ("G02  22916593.286", "G02  20916593.286"),
        ],
        nav: &[],
        arc: 2,
        budget: 1_000_000,
        kept: 4,
        delta: false,
        rounds: (1, 0),
        end: ExpectedEnd::Early(Stage::Coarse, Verdict::Overwidth(Place::Point)),
        point: None,
    },
    Case {
        what: "two satellites in one place for a second",
        of: SHORT,
        base: SECOND,
        rover: SECOND,
        nav: DOUBLE,
        arc: 2,
        budget: 1_000_000,
        kept: 4,
        delta: false,
        rounds: (1, 0),
        end: ExpectedEnd::Early(Stage::Coarse, Verdict::Weak { column: 2 }),
        point: None,
    },
    Case {
        what: "two satellites in one place for four seconds",
        of: SHORT,
        base: FOUR_SECONDS,
        rover: FOUR_SECONDS,
        nav: DOUBLE,
        arc: 2,
        budget: 1_000_000,
        kept: 4,
        delta: false,
        rounds: (10, 0),
        end: ExpectedEnd::Early(Stage::Coarse, Verdict::Unsettled),
        point: None,
    },
    Case {
        what: "500 m in the code of G02 on L2",
        of: SHORT,
        base: &[],
        rover: &[(
            "22899670.168    93716932.260",
            "22899170.168    93716932.260",
        )],
        nav: &[],
        arc: 2,
        budget: 1_000_000,
        kept: 4,
        delta: false,
        rounds: (2, 1),
        end: ExpectedEnd::Early(Stage::Fine, Verdict::Overwidth(Place::Y)),
        point: None,
    },
    // 924 and 720 cycles are the same length on L1 and L2, so the slip isn't seen.
    Case {
        what: "a slip of G02 of 176 m",
        of: SHORT,
        base: &[],
        rover: &[(
            "119957737.534    22916593.286    93786229.598",
            "119956813.534    22916593.286    93785509.598",
        )],
        nav: &[],
        arc: 2,
        budget: 1_000_000,
        kept: 4,
        delta: false,
        rounds: (2, 1),
        end: ExpectedEnd::Full(Verdict::Weak { column: 4 }),
        point: None,
    },
    Case {
        what: "a slip of G04 of 59 m beside G03",
        of: SHORT,
        base: FIVE_SECONDS,
        rover: &[
            ("00 00 30.0000000", "00 00  5.0000000"),
            (
                "118204516.354    22602201.272    93018933.860",
                "118204208.354    22602201.272    93018693.860",
            ),
        ],
        nav: BESIDE,
        arc: 2,
        budget: 1_000_000,
        kept: 4,
        delta: false,
        rounds: (3, 6),
        end: ExpectedEnd::Full(Verdict::Unsettled),
        point: None,
    },
    Case {
        what: "L1 and L5",
        of: Made {
            epochs: 2,
            sats: 4,
            bands: 15,
            system: b'G',
        },
        base: &[],
        rover: &[],
        nav: &[],
        arc: 2,
        budget: 1_000_000,
        kept: 4,
        delta: false,
        rounds: (2, 2),
        end: ExpectedEnd::Full(Verdict::Fixed),
        point: Some([63_779_713_101, 9_436_086, -6_595_010]),
    },
    Case {
        what: "all three bands",
        of: Made {
            epochs: 2,
            sats: 4,
            bands: 125,
            system: b'G',
        },
        base: &[],
        rover: &[],
        nav: &[],
        arc: 2,
        budget: 1_000_000,
        kept: 4,
        delta: false,
        rounds: (2, 2),
        end: ExpectedEnd::Full(Verdict::Fixed),
        point: Some([63_779_713_125, 9_436_087, -6_595_009]),
    },
    Case {
        what: "Galileo",
        of: Made {
            epochs: 2,
            sats: 4,
            bands: 15,
            system: b'E',
        },
        base: &[],
        rover: &[],
        nav: &[],
        arc: 2,
        budget: 1_000_000,
        kept: 4,
        delta: false,
        rounds: (2, 2),
        end: ExpectedEnd::Full(Verdict::Fixed),
        point: Some([63_779_713_174, 9_436_067, -6_594_997]),
    },
    Case {
        what: "the last satellites of Galileo",
        of: Made {
            epochs: 2,
            sats: 4,
            bands: 15,
            system: b'E',
        },
        base: RENUMBERED,
        rover: RENUMBERED,
        nav: RENUMBERED_RECORDS,
        arc: 2,
        budget: 1_000_000,
        kept: 4,
        delta: false,
        rounds: (2, 2),
        end: ExpectedEnd::Full(Verdict::Fixed),
        point: Some([63_779_713_174, 9_436_067, -6_594_997]),
    },
    // With nine satellites cut all arcs are linked, since the others aren't cut.
    Case {
        what: "nine satellites cut",
        of: TWELVE,
        base: NINE_CUTS,
        rover: &[],
        nav: &[],
        arc: 2,
        budget: 1_000_000,
        kept: 21,
        delta: false,
        rounds: (2, 2),
        end: ExpectedEnd::Full(Verdict::Fixed),
        point: Some([63_779_713_209, 9_436_069, -6_594_999]),
    },
    Case {
        what: "ten satellites cut",
        of: TWELVE,
        base: TEN_CUTS,
        rover: &[],
        nav: &[],
        arc: 2,
        budget: 1_000_000,
        kept: 22,
        delta: false,
        rounds: (0, 0),
        end: ExpectedEnd::Arcs { free: 21 },
        point: None,
    },
];
