//! RINEX 3 observation files: the reader of each satellite system, for a whole text or for its pieces.
//!
//! obs_fields says what one line of an observation file says, for either format of RINEX (`Layout`) and each satellite
//! system, and reads the header. Here stand the form of a RINEX 3 file of one system, its rules and the feed (`Feed`), and
//! the calls of each system. `read_obs` answers the observation file of GPS that a text stands for exactly where it stands
//! for one (`ok`, `only`), and else refuses it at the first line with which no file begins (`refused`, `first`), at the column
//! and for the reason of the first failing check in that line (`exact`, `obs_flaw_law`). `ObsFeed` takes the text in pieces and keeps
//! at most 4,097 bytes of it, those of the line that has begun; its `finish` gives this answer for every text for which the feed
//! stands, and so for all its pieces together, however they were cut (`answers`). After running out of memory it answers
//! that alone (`no_memory`, `again`). `read_obs_of` and `SystemFeed` are the same for either system; gal_obs has the calls of
//! Galileo. The grammar, in RINEX's words, is in docs/FORMATS.md.
#![tactic(auto)]

mod epoch_lines;
mod feed;
mod gps;
mod laws;
mod open_body;
mod open_file;
mod reader;
mod sat_lines;
mod started;
mod system_feed;

pub use feed::{Feed, FeedState};
pub use gps::read_obs;
pub use laws::obs_flaw_law;
pub use reader::read_obs_of;
pub use rinex_head::TextFault as ObsFault;
pub use started::{Overlong, StartedLine, split_line};
pub use system_feed::{GalFeed, ObsFeed, OfGalileo, OfGps, OneSystem, SystemFeed};
