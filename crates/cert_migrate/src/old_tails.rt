//! How a certificate of the first version ends.
ghost use Rattle.std.specs.Prelude.{◌≤◌};
ghost use Rattle.integer_form.specs.Kept.{IsZeroFrom};

use cert_data::Place;

/// The two integer vectors at which the form of the old rows was least, with its values there.
#[derive(Clone, Copy, Debug, PartialEq, Eq)]
pub struct OldBest {
    /// The entries of the least vector, and 0 after them.
    pub first: [i64; 40],
    /// The entries of the least of all others, and 0 after them.
    pub second: [i64; 40],
    pub p1: i128,
    pub p2: i128,
    /// The number of integers.
    pub size: usize,
    pub ghost size_to: { size ≤ 40 },
    pub ghost first_rest: { IsZeroFrom size first },
    pub ghost second_rest: { IsZeroFrom size second },
}

/// What the rows were said to say. A migration reads it, and decides the rows again.
#[derive(Clone, Copy, Debug, PartialEq, Eq)]
pub enum OldTail {
    Fixed {
        h: u32,
        /// In 2^-10 κ.
        moved: [i64; 3],
        best: OldBest,
        top: i128,
    },
    Unseparated {
        h: u32,
        moved: [i64; 3],
        best: OldBest,
        top: i128,
    },
    Weak {
        column: u32,
        pivot: i64,
    },
    Overwidth {
        place: Place,
    },
    Unsettled {
        entry: i64,
    },
    Spent {
        budget: u64,
    },
}
