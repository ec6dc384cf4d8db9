//! The limits of sessions, runs and certificates. `constants.rt` says what each is.

/// The most pairs of a session.
pub const MOST_PAIRS: u32 = 3600;

/// The greatest number of a pair.
pub const LAST_PAIR: u64 = MOST_PAIRS as u64 - 1;

/// The most satellites of a pair.
pub const MOST_SATELLITES: usize = 15;

/// The most arcs of a session.
pub const MOST_ARCS: usize = 200;

/// The most kept arcs of an outcome, which may be more than a session has.
pub const MOST_KEPT_ARCS: usize = 54_000;

/// The greatest ratio of the second best value to the best that a run asks for, in thousandths.
pub const MOST_RATIO: u32 = 100_000;

/// The greatest budget of a search: the most suffixes that it visits.
pub const MOST_BUDGET: u64 = 100_000_000;

/// The greatest size of a coordinate, in 0.1 mm: 7,000 km.
pub const MOST_COORDINATE: u64 = 70_000_000_000;

/// The least distance of a receiver from the Earth's centre, in 0.1 mm: 6,000 km.
pub const LEAST_DISTANCE: u64 = 60_000_000_000;

/// The greatest, which is that of a coordinate.
pub const MOST_DISTANCE: u64 = MOST_COORDINATE;
