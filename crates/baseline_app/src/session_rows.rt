//! Rows of a table: runs on the files of a simulated session, and what they end with. The places are the generator's own offset of
//! the seed; how many arcs are kept, which pair is lost and which searches end comes from an independent model.
use Wanted::{Parts, Whole};
use job_answers::Status;

/// What stands in the place of an observation file.
#[derive(Clone, Copy)]
pub(crate) enum Text {
    Base,
    Rover,
    /// The rover's, with half a cycle more in each phase of G03 on L1.
    HalfCycle,
    /// The rover's, whose epoch 7 has the satellites 1, 2 and 3 alone.
    Three,
    /// The same observations in RINEX 2.11.
    BaseOfRinex2,
    RoverOfRinex2,
    Empty,
}

/// What a text is to be.
pub(crate) enum Wanted {
    Whole(&'static str),
    /// It begins and ends so, and has these parts.
    Parts {
        begin: &'static str,
        within: &'static [&'static str],
        end: &'static str,
    },
}

/// Lines on standard error that begin with a word, and end with coordinates near the rover's.
pub(crate) struct Near {
    pub(crate) word: &'static str,
    /// The words before the three coordinates.
    pub(crate) skipped: usize,
    pub(crate) lines: usize,
    /// The rover's offset from the base, in units of 0.1 mm.
    pub(crate) offset: [i64; 3],
    /// How far off each coordinate may be, in the same units.
    pub(crate) most: u64,
}

/// A run on the files B, R and N of a simulated session.
pub(crate) struct SessionRow {
    /// The words after `sim` and the part that is asked for.
    pub(crate) simulated: &'static [&'static str],
    pub(crate) base: Text,
    pub(crate) rover: Text,
    pub(crate) words: &'static [&'static str],
    pub(crate) status: Status,
    pub(crate) out: Wanted,
    pub(crate) err: Wanted,
    pub(crate) near: Option<Near>,
    /// The command that says `certified` of what came on standard output.
    pub(crate) certified_by: Option<&'static str>,
}

/// Sessions of seed 1, whose rover stands (-165.680, 943.607, -659.500) m off the base, and of seed 3.
pub(crate) static SESSION_ROWS: [SessionRow; 13] = [
    SessionRow {
        simulated: &["1", "60", "8"],
        base: Text::Base,
        rover: Text::Rover,
        words: &["fix", "B", "R", "N"],
        status: Status::Done,
        out: Parts {
            begin: "baseline-cert 2\n",
            within: &["\nz1 "],
            end: "\nfixed\n",
        },
        err: Parts {
            begin: "pairs 60 of 60\narcs 8\nbaseline ",
            within: &[],
            end: "\nverdict fixed\n",
        },
        near: Some(Near {
            word: "baseline",
            skipped: 1,
            lines: 1,
            offset: [-1_656_800, 9_436_070, -6_595_000],
            most: 20,
        }),
        certified_by: Some("check"),
    },
    SessionRow {
        simulated: &["1", "60", "8"],
        base: Text::Base,
        rover: Text::Rover,
        words: &["fix", "B", "R", "N", "--count=2"],
        status: Status::Declined,
        out: Whole("declined few 2\n"),
        err: Whole("pairs 2 of 60\narcs 0\nverdict declined\n"),
        near: None,
        certified_by: None,
    },
    SessionRow {
        simulated: &["1", "60", "8"],
        base: Text::Base,
        rover: Text::Rover,
        words: &["fix", "B", "R", "N", "--budget=1"],
        status: Status::Declined,
        out: Parts {
            begin: "baseline-cert 2\n",
            within: &[],
            end: "\ndeclined spent 1\n",
        },
        err: Whole("pairs 60 of 60\narcs 8\nverdict declined\n"),
        near: None,
        certified_by: None,
    },
    SessionRow {
        simulated: &["1", "60", "8"],
        base: Text::Base,
        rover: Text::HalfCycle,
        words: &["fix", "B", "R", "N"],
        status: Status::Declined,
        out: Parts {
            begin: "baseline-cert 2\n",
            within: &["\nz1 ", "\nz2 "],
            end: "\ndeclined unseparated\n",
        },
        err: Whole("pairs 60 of 60\narcs 8\nverdict declined\n"),
        near: None,
        certified_by: None,
    },
    SessionRow {
        simulated: &["1", "60", "8"],
        base: Text::Empty,
        rover: Text::Rover,
        words: &["fix", "B", "R", "N"],
        status: Status::Refused,
        out: Whole(""),
        err: Whole("refused: B line 1 column 1: version not 2.10 to 2.11 or 3.00 to 3.05\n"),
        near: None,
        certified_by: None,
    },
    SessionRow {
        simulated: &["1", "60", "8"],
        base: Text::Base,
        rover: Text::Rover,
        words: &["fix", "--bands", "15", "B", "R", "N"],
        status: Status::Refused,
        out: Whole(""),
        err: Whole("refused: no common signals\n"),
        near: None,
        certified_by: None,
    },
    SessionRow {
        simulated: &["3", "6", "4", "--bands=15"],
        base: Text::Base,
        rover: Text::Rover,
        words: &["fix", "B", "R", "N", "--bands=15"],
        status: Status::Done,
        out: Parts {
            begin: "baseline-cert 2\n",
            within: &["\nsystem G\n", "\nsignals 15 C Q\n"],
            end: "\nfixed\n",
        },
        err: Parts {
            begin: "pairs 6 of 6\narcs 4\nbaseline ",
            within: &[],
            end: "\nverdict fixed\n",
        },
        near: Some(Near {
            word: "baseline",
            skipped: 1,
            lines: 1,
            offset: [1_169_380, 5_556_150, 1_789_270],
            most: 20,
        }),
        certified_by: Some("check"),
    },
    SessionRow {
        simulated: &["1", "5", "8"],
        base: Text::Base,
        rover: Text::Rover,
        words: &["fix", "B", "R", "N", "--budget=1000"],
        status: Status::Done,
        out: Parts {
            begin: "baseline-cert 2\n",
            within: &["\nz1 "],
            end: "\nfixed\n",
        },
        err: Parts {
            begin: "pairs 5 of 5\narcs 8\nbaseline ",
            within: &[],
            end: "\nverdict fixed\n",
        },
        near: None,
        certified_by: Some("check"),
    },
    SessionRow {
        simulated: &["1", "60", "8"],
        base: Text::Base,
        rover: Text::Rover,
        words: &["arcs", "B", "R", "N"],
        status: Status::Done,
        out: Whole(
            "arc G01 0 59 datum\narc G02 0 59 free\narc G03 0 59 free\narc G04 0 59 free\narc G05 0 59 free\narc G06 0 59 free\narc G07 0 59 free\narc G08 0 59 free\nshort 0\n",
        ),
        err: Whole(""),
        near: None,
        certified_by: None,
    },
    SessionRow {
        simulated: &["1", "60", "8"],
        base: Text::Base,
        rover: Text::Rover,
        words: &["arcs", "B", "B", "N"],
        status: Status::Done,
        out: Whole(
            "arc G01 0 59 datum\narc G02 0 59 free\narc G03 0 59 free\narc G04 0 59 free\narc G05 0 59 free\narc G06 0 59 free\narc G07 0 59 free\narc G08 0 59 free\nshort 0\n",
        ),
        err: Whole(""),
        near: None,
        certified_by: None,
    },
    SessionRow {
        simulated: &["1", "60", "8"],
        base: Text::Base,
        rover: Text::Rover,
        words: &["list", "B"],
        status: Status::Done,
        out: Whole(
            "version 3.04\nepochs 60\nfirst 13881024000000000\nlast 13881041700000000\nG01 60\nG02 60\nG03 60\nG04 60\nG05 60\nG06 60\nG07 60\nG08 60\n",
        ),
        err: Whole(""),
        near: None,
        certified_by: None,
    },
    SessionRow {
        simulated: &["1", "60", "8"],
        base: Text::Base,
        rover: Text::Rover,
        words: &["track", "B", "R", "N"],
        status: Status::Done,
        out: Parts {
            begin: "baseline-track 1\n",
            within: &["\npairs 60\n"],
            end: "\nfixed\n",
        },
        err: Parts {
            begin: "pairs 60 of 60\narcs 8\nplace 0 ",
            within: &[],
            end: "\nverdict fixed\n",
        },
        near: Some(Near {
            word: "place",
            skipped: 2,
            lines: 60,
            offset: [-1_656_800, 9_436_070, -6_595_000],
            most: 100,
        }),
        certified_by: Some("check-track"),
    },
    SessionRow {
        simulated: &["1", "60", "8"],
        base: Text::Base,
        rover: Text::Three,
        words: &["track", "B", "R", "N"],
        status: Status::Done,
        out: Parts {
            begin: "baseline-track 1\n",
            within: &["\npairs 59\n"],
            end: "\nfixed\n",
        },
        err: Parts {
            begin: "pairs 60 of 60\narcs 13\nlost 7 rows\nplace 0 ",
            within: &[],
            end: "\nverdict fixed\n",
        },
        near: Some(Near {
            word: "place",
            skipped: 2,
            lines: 59,
            offset: [-1_656_800, 9_436_070, -6_595_000],
            most: 100,
        }),
        certified_by: Some("check-track"),
    },
];
