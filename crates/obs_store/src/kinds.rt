//! The observation types that are kept.
ghost use Rattle.std.specs.Prelude.{◌≡◌, ◌<◌};
ghost use Rattle.obs_store.specs.Kinds.{name_of, slot_count, slot_of, kept_type_of};

/// How many observation types are kept of each satellite.
pub const SLOTS: usize = 26;

/// The kept observation types, by their names in RINEX 3 (its tables of observation codes).
///
/// `C` is a code in metres, `L` a phase in cycles; the digit is the frequency, the last letter the tracking.
#[derive(Clone, Copy, Debug, Default, PartialEq, Eq)]
pub enum ObsType {
    #[default]
    C1C,
    C1W,
    C1X,
    C1S,
    C1L,
    L1C,
    L1W,
    L1X,
    L1S,
    L1L,
    C2W,
    C2X,
    C2L,
    C2S,
    C2C,
    L2W,
    L2X,
    L2L,
    L2S,
    L2C,
    C5Q,
    C5X,
    C5I,
    L5Q,
    L5X,
    L5I,
}

impl ObsType {
    /// All kept types, in the order of their slots.
    pub const ALL: [ObsType; SLOTS] = [
        ObsType::C1C,
        ObsType::C1W,
        ObsType::C1X,
        ObsType::C1S,
        ObsType::C1L,
        ObsType::L1C,
        ObsType::L1W,
        ObsType::L1X,
        ObsType::L1S,
        ObsType::L1L,
        ObsType::C2W,
        ObsType::C2X,
        ObsType::C2L,
        ObsType::C2S,
        ObsType::C2C,
        ObsType::L2W,
        ObsType::L2X,
        ObsType::L2L,
        ObsType::L2S,
        ObsType::L2C,
        ObsType::C5Q,
        ObsType::C5X,
        ObsType::C5I,
        ObsType::L5Q,
        ObsType::L5X,
        ObsType::L5I,
    ];

    /// The type of this name, if it is kept.
    pub fn named(name: &[u8]) -> Option<ObsType>
        ensures { result ≡ kept_type_of name.now }
    {
        Self::ALL.iter().copied().find(|kind| kind.name() == name)
    }

    /// The type's name, of three bytes.
    pub fn name(self) -> &'static [u8]
        ensures { result.now ≡ name_of self }
    {
        match self {
            ObsType::C1C => b"C1C",
            ObsType::C1W => b"C1W",
            ObsType::C1X => b"C1X",
            ObsType::C1S => b"C1S",
            ObsType::C1L => b"C1L",
            ObsType::L1C => b"L1C",
            ObsType::L1W => b"L1W",
            ObsType::L1X => b"L1X",
            ObsType::L1S => b"L1S",
            ObsType::L1L => b"L1L",
            ObsType::C2W => b"C2W",
            ObsType::C2X => b"C2X",
            ObsType::C2L => b"C2L",
            ObsType::C2S => b"C2S",
            ObsType::C2C => b"C2C",
            ObsType::L2W => b"L2W",
            ObsType::L2X => b"L2X",
            ObsType::L2L => b"L2L",
            ObsType::L2S => b"L2S",
            ObsType::L2C => b"L2C",
            ObsType::C5Q => b"C5Q",
            ObsType::C5X => b"C5X",
            ObsType::C5I => b"C5I",
            ObsType::L5Q => b"L5Q",
            ObsType::L5X => b"L5X",
            ObsType::L5I => b"L5I",
        }
    }

    /// The place of the type's value among the values of a satellite.
    pub fn slot(self) -> usize
        ensures value { result ≡ slot_of self }
        ensures bound { result < slot_count }
    {
        self as usize
    }
}
