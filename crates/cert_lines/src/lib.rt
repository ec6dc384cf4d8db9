//! The lines of a certificate, each by itself: how it is spelled, and what it says where it stands in its place.
//!
//! A reader of a line (`count_in`, `triple_in`, `vector_in`, `system_in`, `signals_in`, `arc_in`, `pair_in`, `row_in`,
//! `weak_in`, `values_in`, `decision_line_in`) answers exactly what the form of that line gives in its place, or its first flaw
//! (`value`): `BadLine` at column 1 where the line isn't of the form, `BadRange` at the first number outside its range.
//! Where it answers a value, the line is that value's spelling (`spelled`), with all ranges (`in_range`, `of_pair` and
//! others). A writer (`push_arcs`, `push_pair_lines` and others) appends exactly the spelling, and fails only where it
//! runs out of memory. `ranges_law` says what the ranges are.
#![tactic(auto)]

mod arcs;
mod constants;
mod counts;
mod pairs;
mod places;
mod ranges;
mod signals;
mod tails;
mod version;
mod write;

pub use arcs::{ArcWords, arc_in};
pub use constants::ranges_law;
pub use counts::{count_in, triple_in, vector_in};
pub use pairs::{PairHead, pair_in, row_in};
pub use ranges::{
    COORDINATES, DIRECTIONS, ENTRIES, GROUPS, MOVES, OBSERVATIONS, OLD_GROUPS, PIVOTS, RADII,
    SHIFTS, VALUE_LIMIT,
};
pub use signals::{signals_in, system_in};
pub use tails::{
    FormValues, WeakPivot, begins, decision_line_in, name_in, push_decision_line, push_named_line,
    push_values_line, push_weak_line, values_in, weak_in,
};
pub use version::Version;
pub use write::{
    push_arc_line, push_arcs, push_count_line, push_pair_head, push_pair_lines, push_row_lines,
    push_signals_line, push_system_line, push_vector_line,
};
