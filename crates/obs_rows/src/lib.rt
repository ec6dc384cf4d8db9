//! Sessions as data: rows of observations, the sum of squares over them, what it means that integers are best, and the options with
//! which a session is made.
//!
//! A session's type keeps the ranges of its arcs, pairs and rows, a scale of 0 or 14 and the letter of its system, and that numbers of
//! signals and bands that aren't used are 0. `SessionBuilder` and `PairBuilder` make it pair by pair and row by row, exactly, and
//! `Session::copy` equals its source; these fail only where memory runs out. `Session::free` counts the free arcs, and
//! `integer_place` gives the place of an arc's integer. Which signals there are, with their bands, wavelengths and weights, stands in
//! `units.rt` alone, in the unit ι = c / (212520 · 10.23 MHz): all sums, counts and places take the list of the signals that count.
//!
//! Over this stand the definitions of data in the boxes, of the weighted sum of squares and of best, for all rational data, all integer
//! vectors and all rational baselines (docs/DEFINITIONS.md): strictly, or by a ratio, of which the first follows (`ratio_law`).
//! `groups_law`, `bound_law` and `best_law` carry the laws of quadratic_form over to them.
//!
//! A run uses L1 with L2, with L5 or with both, of GPS or of Galileo. Such a set of bands has a number, 12, 15 or 125, written with the
//! digits that its bands have in the names of observation types (`digits_law`). `bands_of` gives the bands of a number in the order L1,
//! L2, L5, and `is_bands_number` says which numbers there are. The type `Options` keeps the range of each option, `Options::defaults`
//! gives every default, and `defaults_law` says what number each is. Where no bands are named a run uses L1 and L2 of GPS, or L1 and L5
//! of Galileo (`default_bands`).
//!
//! `UsedPair` is what a taken pair of epochs says of the satellites that it uses: their phases, and what was lost up to it. screening
//! finds it in two files, and slip_arcs cuts arcs from it. Nothing is proved of it here: the definition `IsInRange` says in which range
//! it is.
#![tactic(auto)]

mod arcs;
mod band_sets;
mod bands;
mod constants;
mod default_laws;
mod default_options;
mod defaults;
mod items;
mod laws;
mod limits;
mod options;
mod pair_builder;
mod pair_rows;
mod places;
mod ranges;
mod receiver_points;
mod rows;
mod session_builder;
mod sessions;
mod signal_names;
mod units;
mod unused;
mod used;

pub use arcs::Arc;
pub use arcs::ArcList;
pub use band_sets::BAND_DIGITS;
pub use band_sets::BANDS_L1_L2;
pub use band_sets::BANDS_L1_L2_L5;
pub use band_sets::BANDS_L1_L5;
pub use band_sets::bands_of;
pub use band_sets::digits_law;
pub use band_sets::is_bands_number;
pub use band_sets::phase_of;
pub use bands::L1_LETTERS;
pub use bands::L2_LETTERS;
pub use bands::L5_LETTERS;
pub use bands::Signals;
pub use constants::letters_law;
pub use constants::limits_law;
pub use constants::signals_law;
pub use constants::sizes_law;
pub use default_laws::defaults_law;
pub use defaults::DEFAULT_ARC;
pub use defaults::DEFAULT_BUDGET;
pub use defaults::DEFAULT_COUNT;
pub use defaults::DEFAULT_FIRST;
pub use defaults::DEFAULT_GAP;
pub use defaults::DEFAULT_JUMP;
pub use defaults::DEFAULT_MASK;
pub use defaults::DEFAULT_RATIO;
pub use defaults::DEFAULT_STEP;
pub use defaults::DEFAULT_SYSTEM;
pub use defaults::default_bands;
pub use items::Items;
pub use laws::best_law;
pub use laws::bound_law;
pub use laws::centres_law;
pub use laws::groups_law;
pub use laws::ratio_law;
pub use limits::LAST_PAIR;
pub use limits::LEAST_DISTANCE;
pub use limits::MOST_ARCS;
pub use limits::MOST_BUDGET;
pub use limits::MOST_COORDINATE;
pub use limits::MOST_DISTANCE;
pub use limits::MOST_KEPT_ARCS;
pub use limits::MOST_PAIRS;
pub use limits::MOST_RATIO;
pub use limits::MOST_SATELLITES;
pub use options::GALILEO;
pub use options::GPS;
pub use options::Options;
pub use pair_builder::PairBuilder;
pub use pair_rows::PairList;
pub use pair_rows::PairRows;
pub use places::counted_signals;
pub use places::fine_signals;
pub use places::free_arcs;
pub use places::has_its_arcs;
pub use places::integer_count;
pub use places::integer_place;
pub use places::is_of_pair;
pub use places::phase_count;
pub use places::phase_place;
pub use quadratic_form::FactorTable;
pub use quadratic_form::FormTable;
pub use quadratic_form::FrontTable;
pub use quadratic_form::MOST_COLUMNS;
pub use quadratic_form::MOST_FACTORS;
pub use quadratic_form::MOST_FORM_COLUMNS;
pub use quadratic_form::MOST_INTEGERS;
pub use quadratic_form::MapTable;
pub use quadratic_form::NormalTable;
pub use ranges::are_arcs;
pub use ranges::are_radii;
pub use ranges::are_within;
pub use ranges::is_arc_in_range;
pub use ranges::is_point;
pub use ranges::is_radius;
pub use ranges::is_system;
pub use receiver_points::is_receiver_point;
pub use rows::Row;
pub use rows::RowList;
pub use session_builder::SessionBuilder;
pub use sessions::Session;
pub use signal_names::L1_CODE;
pub use signal_names::L1_PHASE;
pub use signal_names::L2_PHASE;
pub use signal_names::L5_PHASE;
pub use units::BANDS;
pub use units::BANDS_12;
pub use units::BANDS_15;
pub use units::BANDS_125;
pub use units::COARSE_SCALE;
pub use units::COARSE_SIGNALS;
pub use units::DIRECTION_EXPONENT;
pub use units::LIGHT_SPEED;
pub use units::MOST_FREE_ARCS;
pub use units::MOVE_EXPONENT;
pub use units::PHASES;
pub use units::ROW_EXPONENT;
pub use units::SIGNALS;
pub use units::SIGNALS_12;
pub use units::SIGNALS_15;
pub use units::SIGNALS_125;
pub use units::UNIT_FREQUENCY;
pub use units::WAVELENGTHS;
pub use units::WEIGHTS;
pub use unused::has_used_rows;
pub use unused::has_used_shifts;
pub use unused::is_zero_off;
pub use unused::phase_bands;
pub use used::UsedPair;
pub use used::UsedSat;
