//! The check of a certificate: its rows are decided again, and its tail is compared with what they say.
//!
//! `check` decides the rows of a certificate again and reads nothing of its tail before. Its verdict is what is said of
//! that decision and the tail (`verdict`), and no other is one of the rows and the tail (`only`). So `Certified` comes
//! exactly where the rows are fixed and the tail says their numbers; and then the tail's first integers with its move are
//! strictly best for the rows, and best by the ratio, whoever wrote the text (`strictly_best`, `by_ratio`).
//! `are_same_best` compares two pairs of least vectors.
//!
//! The decision of a fine session's rows, as a tail: `form_of_rows` gives the form of a session's rows, or the refusal of
//! their elimination. `decide_settled` takes a form that is known, searches its two least vectors and decides whether the
//! first is fixed. Its answer is spent or too wide only where the form has no reduced count within the budget, and else
//! says of the baseline, the upper sum and the ratio exactly what they are (`decision`). It is a tail that a certificate
//! of the session may have (`fits`), and where it says fixed, the integers with their move are best by the ratio for all
//! data (`by_ratio`). `decide_rows` is both in a row: a refused elimination, or the decision of the form, with the same
//! clauses. `tail_of` gives a refused elimination as a
//! tail, and `values_from` is a law: no value of a form is below -2^63. A greater budget changes no decision but one that a
//! search ended without an answer, and so no verdict `Certified` (`more_budget_law`).
#![tactic(auto)]

mod decided;
mod laws;
mod tails;
mod verdict;

pub use decided::{decide_rows, decide_settled, form_of_rows, tail_of, values_from};
pub use laws::more_budget_law;
pub use tails::are_same_best;
pub use verdict::check;
