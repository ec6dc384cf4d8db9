//! Files that are read in small pieces.
ghost use Rattle.std.specs.Prelude.{None};

use line_source::{Failed, FileId, Files, GivenLog, Opening, OpeningLog, Reading};

/// A file that gives at most `most` bytes a call, and whose calls fail once `reads` of them have given bytes.
#[derive(Drop)]
pub struct Slow {
    text: Vec<u8>,
    at: usize,
    most: usize,
    reads: u64,
    faults: u64,
    openings: OpeningLog,
    given: GivenLog,
}

impl Slow {
    /// A file of this text, at its beginning.
    pub fn new(text: Vec<u8>, most: usize, reads: u64) -> Slow {
        Slow {
            text,
            at: 0,
            most,
            reads,
            faults: 0,
            openings: OpeningLog::new(),
            given: GivenLog::new(),
        }
    }
}

impl Files for Slow {
    ghost text_of = { λ _ _. None };

    ghost unread = { λ _ _. None };

    ghost faults = { λ s. s.faults };

    ghost openings = { λ s. s.openings.all };

    ghost given = { λ s. s.given.all };

    ghost is_sure_name = { λ _ _. ⊥ };

    ghost is_sure_id = { λ _ _. ⊥ };

    fn open_file(&mut self, name: &str) -> Result<FileId, Failed> {
        self.at = 0;
        let id = FileId(0);
        let opening = Opening { name, id };
        self.openings = self.openings.and(&opening);
        self.given = self.given.opened(&opening);
        Ok(id)
    }

    fn read(&mut self, id: FileId, into: &mut [u8]) -> Result<usize, Failed> {
        if self.reads == 0 || self.at > self.text.len() {
            self.faults = self.faults.saturating_add(1);
            return Err(Failed);
        }
        self.reads -= 1;
        let count = into.len().min(self.most).min(self.text.len() - self.at);
        into[..count].copy_from_slice(&self.text[self.at..self.at + count]);
        self.at += count;
        self.given = self.given.gave(&Reading { into, id, count });
        Ok(count)
    }
}
