//! Reads a job from the words of the command line. Which words are a job, and which job it is, are definitions on the
//! list of words.
//!
//! `read_words` answers a job exactly where the words ask for one, and says `Usage` exactly where they ask for none
//! (`job`, `usage`); words ask for one job at most (`one_job_law`). The rules are a grammar over the whole
//! list of words: ordinary words, options in one word or two, and `--`, after which all words are ordinary. The body
//! splits the words with `clap`; the grammar knows nothing of it, and that `clap`'s own account of the program
//! answers as the grammar does is proved (`proofs/SplitLaws.antt`, `JobLaws.antt`, `ReadLaws.antt`).
#![tactic(auto)]

mod choices;
mod command_name;
mod fault;
mod jobs;
mod laws;
mod numbers;
mod options;
mod parts;
mod program;
mod settings;
mod sims;
mod split;
mod word;

pub use fault::WordFault;
pub use jobs::{Job, read_words};
pub use laws::one_job_law;
pub use settings::{Given, Setting};
pub use sims::{File, Part, Sim};
pub use word::Word;
