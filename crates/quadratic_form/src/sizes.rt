//! The sizes that another count of integers would change. `laws.rt` says what each is.

/// The columns of the baseline.
pub const BASELINE_COLUMNS: usize = 3;

/// The most integers: one for each free arc and phase.
pub const MOST_INTEGERS: usize = 60;

/// The most integers, and the constant.
pub const MOST_FORM_COLUMNS: usize = 61;

/// The columns of the baseline and the most integers.
pub const MOST_FACTORS: usize = 63;

/// All columns: the baseline, the most integers and the constant.
pub const MOST_COLUMNS: usize = 64;
