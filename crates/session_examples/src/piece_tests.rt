//! A simulated observation file is read the same however it is cut.
ghost use Rattle.std.specs.Prelude.{None};

use gal_obs::read_gal_obs;
use line_source::{
    Failed, FileId, Files, GivenLog, MAX_FILE, Opening, OpeningLog, Reading, load_into,
};
use obs_store::ObsFile;
use rinex_obs::{OfGalileo, OfGps, OneSystem, SystemFeed, read_obs};
use sim_session::make;
use std::alloc::{AllocError, Global};

// A file that gives at most `most` bytes a call.
#[derive(Drop)]
struct Pieces {
    text: Vec<u8>,
    at: usize,
    most: usize,
    openings: OpeningLog,
    given: GivenLog,
}

impl Files for Pieces {
    ghost text_of = { λ _ _. None };

    ghost unread = { λ _ _. None };

    ghost faults = { λ _. 0 };

    ghost openings = { λ s. s.openings.all };

    ghost given = { λ s. s.given.all };

    ghost is_sure_name = { λ _ _. ⊥ };

    ghost is_sure_id = { λ _ _. ⊥ };

    fn open_file(&mut self, name: &str) -> Result<FileId, Failed> {
        let id = FileId(0);
        let opening = Opening { name, id };
        self.openings = self.openings.and(&opening);
        self.given = self.given.opened(&opening);
        Ok(id)
    }

    fn read(&mut self, id: FileId, into: &mut [u8]) -> Result<usize, Failed> {
        let at = self.at.min(self.text.len());
        let count = into.len().min(self.most).min(self.text.len() - at);
        into[..count].copy_from_slice(&self.text[at..at + count]);
        self.at = at + count;
        self.given = self.given.gave(&Reading { into, id, count });
        Ok(count)
    }
}

impl Pieces {
    fn of(alloc: Global, text: &[u8], most: usize) -> Result<Pieces, AllocError> {
        Ok(Pieces {
            text: text.to_vec(alloc)?,
            at: 0,
            most,
            openings: OpeningLog::new(),
            given: GivenLog::new(),
        })
    }
}

// All that a file has.
fn shown(alloc: Global, file: &ObsFile) -> Option<String> {
    format!(in alloc; "{file:?}").ok()
}

// What a text of a system gives in pieces of this length.
fn shown_in_pieces<S: OneSystem>(alloc: Global, text: &[u8], most: usize) -> Option<String> {
    let mut files = Pieces::of(alloc, text, most).ok()?;
    let mut feed = SystemFeed::<S>::new(alloc);
    load_into(&mut files, "", &mut feed).ok()?;
    let file = feed.finish().ok()?;
    shown(alloc, &file)
}

fn is_shown<S: OneSystem>(alloc: Global, text: &[u8], most: usize, want: &str) -> bool {
    match shown_in_pieces::<S>(alloc, text, most) {
        Some(found) => found.as_str() == want,
        None => false,
    }
}

// Whether a text of a system gives in pieces what the whole gives.
fn gives<S: OneSystem>(alloc: Global, text: &[u8], whole: &ObsFile) -> bool {
    let Some(want) = shown(alloc, whole) else {
        return false;
    };
    for most in [1, 7, 65_536] {
        if !is_shown::<S>(alloc, text, most, want.as_str()) {
            return false;
        }
    }
    true
}

// Whether the base's file of a session of sixty epochs is read the same.
fn is_read(alloc: Global) -> Option<bool> {
    let made = make(alloc, 1, 60, 8, 12, b'G').ok()?;
    if made.base.len() > MAX_FILE {
        return None;
    }
    let whole = read_obs(alloc, &made.base).ok()?;
    Some(whole.epochs.len() == 60 && gives::<OfGps>(alloc, &made.base, &whole))
}

#[test]
fn reads_the_same_in_pieces(rt: HostRuntime) {
    assert!(rt; matches!(is_read(rt.alloc()), Some(true)));
}

// The same of six epochs of Galileo.
fn is_read_of_galileo(alloc: Global) -> Option<bool> {
    let made = make(alloc, 1, 6, 8, 15, b'E').ok()?;
    if made.base.len() > MAX_FILE {
        return None;
    }
    let whole = read_gal_obs(alloc, &made.base).ok()?;
    Some(whole.epochs.len() == 6 && gives::<OfGalileo>(alloc, &made.base, &whole))
}

#[test]
fn reads_galileo_the_same_in_pieces(rt: HostRuntime) {
    assert!(rt; matches!(is_read_of_galileo(rt.alloc()), Some(true)));
}
