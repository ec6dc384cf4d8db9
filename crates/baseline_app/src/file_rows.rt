//! Observation and navigation files that are written out, and what `list` and `orbit` say of them.
use crate::rows::Ends::{Declined, Done, Held, Refused};
use crate::rows::Row;

/// A header of RINEX 3 with a position.
pub(crate) const HEADER: [&str; 4] = [
    "     3.04           OBSERVATION DATA    G                   RINEX VERSION / TYPE",
    "  6378137.0000        0.0000        0.0000                  APPROX POSITION XYZ",
    "G    4 C1C L1C C2W L2W                                      SYS / # / OBS TYPES",
    "                                                            END OF HEADER",
];

/// A header of navigation files of GPS.
pub(crate) const GPS_HEADER: [&str; 2] = [
    "     3.04           N: GNSS NAV DATA    G: GPS              RINEX VERSION / TYPE",
    "                                                            END OF HEADER",
];

/// A satellite on a circle of 25,000 km, over the equator, on the meridian of Greenwich at the start of week 2295.
pub(crate) const RECORD_OF_G07: [&str; 8] = [
    "G07 2023 12 31 00 00 00                  0                  0                  0",
    "                      0                  0                  0                  0",
    "                      0                  0                  0               5000",
    "                      0                  0                  0                  0",
    "                      0                  0                  0                  0",
    "                      0                  0               2295                  0",
    "                      0                  0                  0                  0",
    "                      0",
];

/// Where that satellite is, or one of Galileo with the same numbers, at the start of the week, in micrometres, and what its clock is
/// ahead.
pub(crate) const AT_START: [(&str, i64); 4] = [
    ("x", 25_000_000_000_000),
    ("y", 0),
    ("z", 0),
    ("clock", 0),
];

/// Observation files that are read, and some that aren't.
pub(crate) static OBSERVATION_ROWS: [Row; 12] = [
    Row {
        words: &["list", "F"],
        head: &[],
        lines: &[
            "     3.04           OBSERVATION DATA    G                   RINEX VERSION / TYPE",
            "G    1 C1C                                                  SYS / # / OBS TYPES",
            "                                                            END OF HEADER",
            "> 2024 01 01 00 00  0.0000000  0  1",
            "G05  22123456.789",
            "> 2024 01 01 00 00 30.0000000  0  2",
            "G05",
            "G12",
        ],
        ends: Done(&[
            "version 3.04",
            "epochs 2",
            "first 13881024000000000",
            "last 13881024300000000",
            "G05 2",
            "G12 1",
        ]),
    },
    Row {
        words: &["list", "F"],
        head: &[],
        lines: &[
            "     2.11           OBSERVATION DATA                        RINEX VERSION / TYPE",
            "     7    C1    L1    L2    P2    D1    S1    S2            # / TYPES OF OBSERV",
            "     1     1                                                WAVELENGTH FACT L1/2",
            "                                                            END OF HEADER",
            " 24  1  1  0  0 30.0000000  0  2G05 12",
            "  22123456.789 7 116260123.45617  90592304.12316  22123460.123 6",
            "",
            "  21000000.000",
            "",
        ],
        ends: Done(&[
            "version 2.11",
            "epochs 1",
            "first 13881024300000000",
            "last 13881024300000000",
            "G05 1",
            "G12 1",
        ]),
    },
    Row {
        words: &["list", "F"],
        head: &[],
        lines: &[
            "     2.11           OBSERVATION DATA                        RINEX VERSION / TYPE",
            "     7    C1    L1    L2    P2    D1    S1    S2            # / TYPES OF OBSERV",
            "     1     2                                                WAVELENGTH FACT L1/2",
            "                                                            END OF HEADER",
            " 24  1  1  0  0 30.0000000  0  2G05 12",
            "  22123456.789 7 116260123.45617  90592304.12316  22123460.123 6",
            "",
            "  21000000.000",
            "",
        ],
        ends: Refused("F line 3 column 7: wavelength factor not 1"),
    },
    Row {
        words: &["list", "F"],
        head: &[],
        lines: &[],
        ends: Refused("F line 1 column 1: version not 2.10 to 2.11 or 3.00 to 3.05"),
    },
    Row {
        words: &["list", "F"],
        head: &HEADER,
        lines: &["> 2024 01 01 00 00  0.0000000  7  0"],
        ends: Refused("F line 5 column 32: bad epoch flag"),
    },
    Row {
        words: &["list", "F"],
        head: &HEADER,
        lines: &["> 2024 01 01 00 00  0.0000000  0  1", "G00"],
        ends: Refused("F line 6 column 1: bad satellite name"),
    },
    Row {
        words: &["list", "F"],
        head: &HEADER,
        lines: &["> 2024 01 01 00 00  0.0000000  0  1", "G33"],
        ends: Refused("F line 6 column 1: bad satellite name"),
    },
    Row {
        words: &["list", "F"],
        head: &HEADER,
        lines: &["> 2024 01 01 00 00  0.0000000  0  2", "G05", "G05"],
        ends: Refused("F line 7 column 1: satellite twice in epoch"),
    },
    Row {
        words: &["list", "F"],
        head: &HEADER,
        lines: &["> 2024 01 01 00 00  0.0000000  0  1", "G05  1234567.8901"],
        ends: Refused("F line 6 column 4: bad field"),
    },
    Row {
        words: &["list", "F"],
        head: &HEADER,
        lines: &["> 2024 01 01 00 00  0.0000000  0  1", "G05   1234567.8908"],
        ends: Refused("F line 6 column 18: bad field"),
    },
    Row {
        words: &["list", "F"],
        head: &HEADER,
        lines: &["> 2024 01 01 00 00 60.0000000  0  0"],
        ends: Refused("F line 5 column 3: bad date"),
    },
    Row {
        words: &["list", "F"],
        head: &[],
        lines: &[
            "     3.04           OBSERVATION DATA    M                   RINEX VERSION / TYPE",
            "x                                                           COMMENT",
            "G    4 C1C L1C C2W L2W                                      SYS / # / OBS TYPES",
            "x                                                           COMMENT",
            "                                                            END OF HEADER",
            "> 2024 01 01 00 00  0.0000000  0  4",
            "R01 x",
            "E01",
            "C01",
            "G07",
            "> 2024 01 01 00 00  0.0000000  4  2",
            "x                                                           COMMENT",
            "x                                                           COMMENT",
            "",
            "> 2024 01 01 00 00  0.0000000  5  1",
            "xx",
            "   ",
            "> 2024 01 01 00 00 30.0000000  1  1",
            "G08",
        ],
        ends: Done(&[
            "version 3.04",
            "epochs 2",
            "first 13881024000000000",
            "last 13881024300000000",
            "G07 1",
            "G08 1",
        ]),
    },
];

/// A refusal of each column and reason.
pub(crate) static REFUSED_ROWS: [Row; 25] = [
    Row {
        words: &["list", "F"],
        head: &[],
        lines: &[
            "\x1fG    4 C1C L1C C2W L2W                                      SYS / # / OBS TYPES",
            "                                                            END OF HEADER",
        ],
        ends: Refused("F line 1 column 1: version not 2.10 to 2.11 or 3.00 to 3.05"),
    },
    Row {
        words: &["list", "F"],
        head: &[],
        lines: &[
            "     3.04           NAVIGATION DATA     G                   RINEX VERSION / TYPE",
            "G    4 C1C L1C C2W L2W                                      SYS / # / OBS TYPES",
            "                                                            END OF HEADER",
        ],
        ends: Refused("F line 1 column 21: not this kind of file"),
    },
    Row {
        words: &["list", "F"],
        head: &[],
        lines: &[
            "     3.04           OBSERVATION DATA    R                   RINEX VERSION / TYPE",
            "G    4 C1C L1C C2W L2W                                      SYS / # / OBS TYPES",
            "                                                            END OF HEADER",
        ],
        ends: Refused("F line 1 column 41: not this kind of file"),
    },
    Row {
        words: &["list", "F"],
        head: &[],
        lines: &[
            "     3.04           OBSERVATION DATA    G                   RINEX VERSION / TYPE",
            "G    4 C1C L1C C2W L2W                                      SYS / # / OBS TYPES",
        ],
        ends: Refused("F line 3 column 1: no end of header"),
    },
    Row {
        words: &["list", "F"],
        head: &[],
        lines: &[
            "     3.04           OBSERVATION DATA    G                   RINEX VERSION / TYPE",
            "                                                            END OF HEADER",
        ],
        ends: Refused("F line 2 column 1: no GPS observation types"),
    },
    Row {
        words: &["list", "F"],
        head: &[],
        lines: &[
            "     3.04           OBSERVATION DATA    G                   RINEX VERSION / TYPE",
            "G    2 C1C C1C                                              SYS / # / OBS TYPES",
            "                                                            END OF HEADER",
        ],
        ends: Refused("F line 2 column 12: bad list of observation types"),
    },
    Row {
        words: &["list", "F"],
        head: &[],
        lines: &[
            "     3.04           OBSERVATION DATA    G                   RINEX VERSION / TYPE",
            "G    0                                                      SYS / # / OBS TYPES",
            "                                                            END OF HEADER",
        ],
        ends: Refused("F line 2 column 4: bad list of observation types"),
    },
    Row {
        words: &["list", "F"],
        head: &[],
        lines: &[
            "     3.04           OBSERVATION DATA    G                   RINEX VERSION / TYPE",
            "G    4 C1C L1C C2W L2W                                      SYS / # / OBS TYPES",
            "G    0                                                      SYS / # / OBS TYPES",
        ],
        ends: Refused("F line 3 column 1: bad list of observation types"),
    },
    Row {
        words: &["list", "F"],
        head: &[],
        lines: &[
            "     3.04           OBSERVATION DATA    G                   RINEX VERSION / TYPE",
            "G   14 C1C L1C C2W L2W C1W L1W C1X L1X C1S L1S C1L L1L C2X  SYS / # / OBS TYPES",
            "                                                            END OF HEADER",
        ],
        ends: Refused("F line 3 column 1: bad list of observation types"),
    },
    Row {
        words: &["list", "F"],
        head: &[],
        lines: &[
            "     3.04           OBSERVATION DATA    G                   RINEX VERSION / TYPE",
            "G  10                                                       SYS / SCALE FACTOR",
            "                                                            END OF HEADER",
        ],
        ends: Refused("F line 2 column 1: GPS scale factor"),
    },
    Row {
        words: &["list", "F"],
        head: &[],
        lines: &[
            "     3.04           OBSERVATION DATA    G                   RINEX VERSION / TYPE",
            "  2024     1     1     0     0    0.0000000     GLO         TIME OF FIRST OBS",
            "                                                            END OF HEADER",
        ],
        ends: Refused("F line 2 column 49: time system not GPS"),
    },
    Row {
        words: &["list", "F"],
        head: &HEADER,
        lines: &["> 2024 01 01 00 00  0.0000000     0"],
        ends: Refused("F line 5 column 32: bad epoch flag"),
    },
    Row {
        words: &["list", "F"],
        head: &HEADER,
        lines: &["> 2024 01 01 00 00  0.0000000  2  0"],
        ends: Refused("F line 5 column 32: antenna moved"),
    },
    Row {
        words: &["list", "F"],
        head: &HEADER,
        lines: &["> 2024 01 01 00 00 -1.0000000  0  0"],
        ends: Refused("F line 5 column 3: bad date"),
    },
    Row {
        words: &["list", "F"],
        head: &HEADER,
        lines: &["> 2024    01 00 00  0.0000000  0  0"],
        ends: Refused("F line 5 column 8: bad field"),
    },
    Row {
        words: &["list", "F"],
        head: &HEADER,
        lines: &["  2024 01 01 00 00  0.0000000  0  0"],
        ends: Refused("F line 5 column 1: bad field"),
    },
    Row {
        words: &["list", "F"],
        head: &HEADER,
        lines: &["> 2024 01 01 00 00  0.0000000  0  1", "R0x"],
        ends: Refused("F line 6 column 1: bad satellite name"),
    },
    Row {
        words: &["list", "F"],
        head: &HEADER,
        lines: &["> 2024 01 01 00 00  0.0000000  0  3", "G01", "G02"],
        ends: Refused("F line 8 column 1: file ends early"),
    },
    Row {
        words: &["list", "F"],
        head: &HEADER,
        lines: &["> 2024 01 01 00 00  0.0000000  4  1"],
        ends: Refused("F line 6 column 1: file ends early"),
    },
    Row {
        words: &["list", "F"],
        head: &HEADER,
        lines: &[
            "> 2024 01 01 00 00  0.0000000  0  0",
            "> 2024 01 01 00 00  0.0000000  0  0",
        ],
        ends: Refused("F line 6 column 3: epochs out of order"),
    },
    Row {
        words: &["list", "F"],
        head: &HEADER,
        lines: &[
            "> 2024 01 01 00 00  0.0000000  4  1",
            "G    1 C1C                                                  SYS / # / OBS TYPES",
        ],
        ends: Refused("F line 6 column 61: types or scale changed after header"),
    },
    Row {
        words: &["list", "F"],
        head: &HEADER,
        lines: &[
            "> 2024 01 01 00 00  0.0000000  4  1",
            "G  10                                                       SYS / SCALE FACTOR",
        ],
        ends: Refused("F line 6 column 61: types or scale changed after header"),
    },
    Row {
        words: &["list", "F"],
        head: &[],
        lines: &[
            "     3.04           OBSERVATION DATA    G                   RINEX VERSION / TYPE",
            "G    4 C1C L1C C5Q L5X                                      SYS / # / OBS TYPES",
            "                                                            END OF HEADER",
            "> 2024 01 01 00 00  0.0000000  0  1",
            "G05                                 123x",
        ],
        ends: Refused("F line 5 column 36: bad field"),
    },
    Row {
        words: &["list", "F"],
        head: &[],
        lines: &[
            "     3.04           OBSERVATION DATA    G                   RINEX VERSION / TYPE",
            "G    4 C1C L1C C5Q L5X                                      SYS / # / OBS TYPES",
            "                                                            END OF HEADER",
            "> 2024 01 01 00 00  0.0000000  0  1",
            "G05                                                 1234567.8901",
        ],
        ends: Refused("F line 5 column 52: bad field"),
    },
    Row {
        words: &["list", "F"],
        head: &[],
        lines: &[
            "     3.04           OBSERVATION DATA    G                   RINEX VERSION / TYPE",
            "G    4 C1C L1C C5Q L5X                                      SYS / # / OBS TYPES",
            "                                                            END OF HEADER",
            "> 2024 01 01 00 00  0.0000000  0  1",
            "G05                                                         1.0008",
        ],
        ends: Refused("F line 5 column 66: bad field"),
    },
];

/// A satellite of Galileo with the same numbers, whose system has another constant of gravitation.
const GALILEO_FILE: [&str; 10] = [
    "     3.04           N: GNSS NAV DATA    E: GAL              RINEX VERSION / TYPE",
    "                                                            END OF HEADER",
    "E05 2023 12 31 00 00 00                  0                  0                  0",
    "                      0                  0                  0                  0",
    "                      0                  0                  0               5000",
    "                      0                  0                  0                  0",
    "                      0                  0                  0                  0",
    "                      0                  0               2295                  0",
    "                      0                  0                  0                  0",
    "                      0",
];

/// Records of a satellite. The places after 7,200 s are those of an independent model.
pub(crate) static ORBIT_ROWS: [Row; 10] = [
    Row {
        words: &["orbit", "F", "G07", "13880160000000000"],
        head: &GPS_HEADER,
        lines: &RECORD_OF_G07,
        ends: Held(&AT_START),
    },
    Row {
        words: &["orbit", "F", "G07", "13880232000000000"],
        head: &GPS_HEADER,
        lines: &RECORD_OF_G07,
        ends: Held(&[
            ("x", 20_274_799_627_681),
            ("y", 14_626_431_555_828),
            ("z", 0),
            ("clock", 0),
        ]),
    },
    Row {
        words: &["orbit", "F", "E05", "13880160000000000"],
        head: &GALILEO_FILE,
        lines: &[],
        ends: Held(&AT_START),
    },
    Row {
        words: &["orbit", "F", "E05", "13880232000000000"],
        head: &GALILEO_FILE,
        lines: &[],
        ends: Held(&[
            ("x", 20_274_800_855_643),
            ("y", 14_626_429_853_658),
            ("z", 0),
            ("clock", 0),
        ]),
    },
    Row {
        words: &["orbit", "F", "G07", "13880232000000001"],
        head: &GPS_HEADER,
        lines: &RECORD_OF_G07,
        ends: Declined(&["no record"]),
    },
    Row {
        words: &["orbit", "F", "G07", "13880087999999999"],
        head: &GPS_HEADER,
        lines: &RECORD_OF_G07,
        ends: Declined(&["no record"]),
    },
    Row {
        words: &["orbit", "F", "G08", "13880160000000000"],
        head: &GPS_HEADER,
        lines: &RECORD_OF_G07,
        ends: Declined(&["no record"]),
    },
    Row {
        words: &["orbit", "F", "G07", "13880160000000000"],
        head: &GPS_HEADER,
        lines: &[
            "G07 2023 12 31 00 00 00                  0                  0                  0",
            "                      0                  0                  0                  0",
            "                      0                  0                  0               5000",
            "                      0                  0                  0                  0",
            "                      0                  0                  0                  0",
        ],
        ends: Refused("F line 8 column 1: file ends early"),
    },
    Row {
        words: &["orbit", "F", "G07", "13880160000000000"],
        head: &GPS_HEADER,
        lines: &[
            "G07 2023 12 31 00 00 00                  0                  0                  0",
            "                      0                  0                  0                  0",
            "                      0                  0                  0          1.0D+1000",
            "                      0                  0                  0                  0",
            "                      0                  0                  0                  0",
            "                      0                  0               2295                  0",
            "                      0                  0                  0                  0",
            "                      0",
        ],
        ends: Refused("F line 5 column 62: bad field"),
    },
    Row {
        words: &["orbit", "F", "G07", "13880160000000000"],
        head: &GPS_HEADER,
        lines: &[
            "G07 2023 12 31 00 00 00                  0                  0                  0",
            "                      0                  0                  0                  0",
            "                      0                  0                  0     6000.000000001",
            "                      0                  0                  0                  0",
            "                      0                  0                  0                  0",
            "                      0                  0               2295                  0",
            "                      0                  0                  0                  0",
            "                      0",
        ],
        ends: Declined(&["no record"]),
    },
];
