//! Where and why a text is refused.
ghost use Rattle.std.specs.Prelude.{◌≡◌};
ghost use Rattle.rinex_head.specs.Places.{place};
ghost use Rattle.rinex_head.specs.Reasons.{text_of_reason};
ghost use Rattle.rinex_head.specs.declared.place.TextFault.TheVariants.{Refused, NoMemory};

use std::alloc::{AllocError, AllocFailed};
use thiserror::Error;

/// Why a text is refused. The list is closed.
#[derive(Clone, Copy, Debug, PartialEq, Eq)]
pub enum What {
    /// The first line is missing, has another label or another version.
    Version,
    /// The version of an observation file, where those of RINEX 2 are read too.
    ObsVersion,
    /// Column 21 or 41 of the first line.
    Kind,
    /// The text ends inside the header.
    NoEnd,
    Types,
    NoGps,
    NoGal,
    Scale,
    GalScale,
    /// A wavelength factor of RINEX 2 other than 1, of half cycles or of none.
    HalfCycle,
    TimeSystem,
    BadField,
    BadDate,
    Order,
    Flag,
    Moving,
    Changed,
    BadSat,
    Twice,
    /// The text ends inside counted lines.
    Truncated,
    /// A line has more than 4,096 bytes.
    LongLine,
    TooMany,
    /// The shape or the spelling of a line of a `zero` file or of a certificate.
    BadLine,
    /// A number of such a line.
    BadRange,
}

impl What {
    /// The reason as it is printed.
    pub fn text(self) -> &'static str
        ensures { result.now ≡ text_of_reason self }
    {
        match self {
            What::Version => "version not 3.00 to 3.05",
            What::ObsVersion => "version not 2.10 to 2.11 or 3.00 to 3.05",
            What::Kind => "not this kind of file",
            What::NoEnd => "no end of header",
            What::Types => "bad list of observation types",
            What::NoGps => "no GPS observation types",
            What::NoGal => "no Galileo observation types",
            What::Scale => "GPS scale factor",
            What::GalScale => "Galileo scale factor",
            What::HalfCycle => "wavelength factor not 1",
            What::TimeSystem => "time system not GPS",
            What::BadField => "bad field",
            What::BadDate => "bad date",
            What::Order => "epochs out of order",
            What::Flag => "bad epoch flag",
            What::Moving => "antenna moved",
            What::Changed => "types or scale changed after header",
            What::BadSat => "bad satellite name",
            What::Twice => "satellite twice in epoch",
            What::Truncated => "file ends early",
            What::LongLine => "line too long",
            What::TooMany => "too many epochs or records",
            What::BadLine => "bad line",
            What::BadRange => "number out of range",
        }
    }
}

/// The place at which a text is refused. Lines and columns are counted from 1.
#[derive(Clone, Copy, Debug, PartialEq, Eq)]
pub struct At {
    pub line: u32,
    pub column: u32,
    pub what: What,
}

/// What is wrong in a line, and from which column on.
#[derive(Clone, Copy, Debug, PartialEq, Eq)]
pub struct Flaw {
    pub column: u32,
    pub what: What,
}

impl Flaw {
    /// The flaw as one of the line of that number.
    pub fn at(self, line: u32) -> At
        ensures { result ≡ place line self.column self.what }
    {
        At {
            line,
            column: self.column,
            what: self.what,
        }
    }
}

/// Why a text is not read. A reader gives it a name of its own by an alias.
#[derive(Clone, Copy, Debug, PartialEq, Eq, Error)]
pub enum TextFault {
    /// No rule admits the text; this is the first place at which that shows.
    #[error("refused")]
    Refused(At),
    #[error("no memory")]
    NoMemory,
}

impl From<At> for TextFault {
    ghost from_gives = { λ at fault. fault ≡ Refused at };

    fn from(at: At) -> TextFault {
        TextFault::Refused(at)
    }
}

impl From<AllocError> for TextFault {
    ghost from_gives = { λ _ fault. fault ≡ NoMemory };

    fn from(_: AllocError) -> TextFault {
        TextFault::NoMemory
    }
}

impl<T: Drop> From<AllocFailed<T>> for TextFault {
    ghost from_gives = { λ _ fault. fault ≡ NoMemory };

    fn from(_: AllocFailed<T>) -> TextFault {
        TextFault::NoMemory
    }
}
