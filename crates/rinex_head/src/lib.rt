//! What the readers of all texts share: the place of a refusal, the closed list of reasons, the systems, and the walk over
//! the lines of a text, in which a reader's contract names the first line that no rule admits.
//!
//! # How a reader uses the walk
//!
//! A reader states its form as `Rules` (specs/LineRules.antt), two tables over a type of its own for what is expected
//! next: `admit` says what a line must be in its place and what is expected after it, `finish` whether the text
//! may end there. `walk` then says of the whole list of lines what they give, or their first failing place. Lines
//! that are too long and the numbers of lines are its own and stand in no table.
//!
//! The code keeps no such state: it has its own loops over [`next_line`] and [`line_or_end`]. Each of its
//! functions has one clause, `Reads rules lines.old lines.new before after result`: where `before` was expected,
//! the function has read a part of the text, and `after` is expected now; or the text is refused there. The part
//! that reaches the end has `Gives (rest_gives rules lines.old before) view result`. Each loop has the invariant
//! `rest_gives rules l.fn.lines before ≡ rest_gives rules l.lines now`, and each answer is the invariant and one
//! step of proofs/LineRuleLaws.antt: `goes_on`, `stops_after`, `stops`, `has_none`, `has_long`, `ends_well`, `handed_on`.
//!
//! That the place of a refusal is the first failing line by the form alone, which mentions no rules
//! (specs/FirstFailing.antt), is `first_failing` of proofs/Stops.antt: it asks for a rest of a text, in bytes,
//! after every state that can be reached (`CanEnd`; `with_line`, one line more), and for a law between the form and the
//! rules. Lines of bytes are the lines of a text (`text_lines_law`). The column and the reason of a refusal are those of
//! the check of its own line, where the lines before are admitted in turn (specs/OwnFlaws.antt, `own_flaw` of
//! proofs/OwnFlawLaws.antt): each form has a law that says so.
//!
//! `head_line` gives content and label of a header line and `version_of` the version, kind and system of a first
//! line, both exactly, with columns past the end of a line blank; `version_of` refuses exactly the lines that lack
//! the label or a version from 3.00 to 3.05. What the formats say of GPS and of Galileo is by cases of `System`. The
//! numbers in fixed columns, which both readers of RINEX take (`whole_number`, `filled_number`, `two_digits`,
//! `fixed_number`, `exponent_number`), are exactly those that the bytes spell, or a bad field at its first column.
#![tactic(auto)]

mod columns;
mod fields;
mod head;
mod laws;
mod place;
mod system;
mod walk;

pub use columns::{byte_in, field};
pub use decimal_text::read_fixed as fixed;
pub use fields::{
    bad_field, exponent_number, filled_number, fixed_number, flaw, two_digits, whole_number,
    wide_number,
};
pub use head::{FIRST_LABEL, HeadLine, Version, head_line, version_of};
pub use laws::text_lines_law;
pub use place::{At, Flaw, TextFault, What};
pub use system::System;
pub use walk::{line_or_end, next_line};
