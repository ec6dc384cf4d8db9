//! Certificates as text: the one spelling of a certificate, written; and read again by rules, a line at a time.
//!
//! `write_cert` appends exactly the spelling of a certificate (`text`). It says too that the arrays have their lengths (`whole`), which a
//! definition doesn't know, since an array is a list of any length there. It fails only where memory runs out, and a part of the text
//! may have been appended then.
//!
//! `read_cert` answers the certificate whose spelling the text is (`ok`), the only one with that spelling (`only`), or refuses a text
//! that is the spelling of none (`refused`), at the first line and check that fails (`exact`). No certificate's text begins with the
//! lines up to that one (`stuck`). If it comes no later than the line `pairs`, some certificate's text begins with the lines before it
//! (`first`); after that no clause says so, since a number of pairs or rows that was announced may be one that the text can't meet any
//! more. `NoMemory` says nothing of the text. So what `write_cert` wrote is read again, and no other text gives it; two certificates with
//! one spelling are the same (`one_spelling_law`). `read_as` says the same of a text in the form of either version, and of the
//! certificates that this form can say.
//!
//! The readers of lines, arcs and rows serve every form of text, as that of a track (track_text): what may be expected in a form is a
//! ghost member of the trait `Grammar`. A reader of a line (`next_count`, `next_triple` and others) takes the next line where a line of
//! its form is expected (`TakesLine`), else the text is refused there (`reads`); and the line is the spelling of what it answers
//! (`took`). `read_arcs` and `read_rows` say the same of arcs and of a pair's rows, of which a number is to come, and `read_end` of the
//! end. `place_in` and `integers_in` read a line that was taken already.
#![tactic(auto)]

mod arc_readers;
mod arcs;
mod grammar;
mod head;
mod laws;
mod line_grammar;
mod lines;
mod pairs;
mod parts;
mod reader;
mod rows;
mod tail;
mod tail_lines;
mod tail_readers;
mod write;
mod written_tails;

pub use arc_readers::read_arcs;
pub use cert_data::{
    Answer, Cause, Cert, Outcome, Place, RoundCounts, Stage, Tail, TwoBest, Verdict, name_of_place,
};
pub use cert_lines::Version;
pub use laws::{cert_flaw_law, one_spelling_law};
pub use line_grammar::Grammar;
pub use lines::{
    next_count, next_decision, next_letters, next_pair_head, next_system, next_triple, next_values,
    next_word,
};
pub use reader::{read_as, read_cert};
/// What a reader fails with, by a name that serves tests alone.
pub use rinex_head::TextFault as CertFault;
pub use rows::read_rows;
pub use tail_readers::{integers_in, next_integers, place_in, read_end};
pub use write::write_cert;
