//! The commands on the files of two receivers that stood still: `fix`, their baseline with the certificate of its integers,
//! and `arcs`, their arcs of continuous phase.
//!
//! `Fix` is the command on the three files of a session of the options' system: it answers them with the texts of the
//! outcome, done for a fix and else declined, or refuses the two observation files (`AnswersFix`). Of a fix it says that its
//! integers with its move are strictly best for all data in the printed boxes, and best by the ratio of the options
//! (`by_ratio`), that its session stands for the files, and that a check of it answers `Certified`
//! (`IsFixedFor`). Whatever a certificate says, it stands for the files (`stands`), and the round of its session had to end
//! the run, and could end in no other way (`only`, both of `IsProvedOutcome`). One that is printed
//! is the only one with its text (`whole`, with `one_spelling_law` of cert_text).
//!
//! An outcome that is a fix or none is a `SessionOutcome`; `output_of` answers it with its two texts, done for a fix and else
//! declined.
//!
//! `KeptArcs` is the command `arcs`. The kept arcs are exactly those of the used satellites of the taken pairs, with their datums and the number of
//! shorter ones. The two files are refused exactly where the base has no position, a band has no common code or epochs
//! are too dense.
#![tactic(auto)]

mod arcs;
mod fixes;
mod outcomes;

pub use arcs::KeptArcs;
pub use fixes::Fix;
pub use outcomes::{SessionOutcome, output_of};
