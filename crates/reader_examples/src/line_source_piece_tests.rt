//! Files that are handed on in pieces.
ghost use Rattle.std.specs.Prelude.{◌≡◌, length, None, ⊤};

use line_source::{
    Failed, FileId, Files, GivenLog, LoadFault, MAX_FILE, MAX_PIECE, MemFiles, Named, Opening,
    OpeningLog, Reading, Taker, load, load_into,
};
use std::alloc::{AllocError, Global};
use std::test::Fail;

// Keeps what it takes, and counts the pieces.
#[derive(Drop)]
struct Kept {
    bytes: Vec<u8>,
    pieces: u64,
}

impl Taker for Kept {
    ghost taken = { λ s. length s.bytes.items };

    ghost stands_for = { λ s text. s.bytes.items ≡ text };

    fn take(&mut self, piece: &[u8]) -> Result<(), AllocError> {
        self.pieces = self.pieces.saturating_add(1);
        self.bytes.extend_from_slice(piece)
    }
}

// Counts what it takes, up to a limit at which it has no memory.
#[derive(Drop)]
struct Counted {
    taken: usize,
    limit: usize,
}

impl Taker for Counted {
    ghost taken = { λ s. s.taken };

    ghost stands_for = { λ s text. length text ≡ s.taken };

    fn take(&mut self, piece: &[u8]) -> Result<(), AllocError> {
        if self.limit - self.taken.min(self.limit) < piece.len() {
            return Err(AllocError);
        }
        self.taken += piece.len();
        Ok(())
    }
}

// One file of this length, which takes no memory.
#[derive(Drop)]
struct LongFile {
    left: usize,
    openings: OpeningLog,
    given: GivenLog,
}

impl LongFile {
    fn new(left: usize) -> LongFile {
        LongFile {
            left,
            openings: OpeningLog::new(),
            given: GivenLog::new(),
        }
    }
}

impl Files for LongFile {
    ghost text_of = { λ _ _. None };

    ghost unread = { λ _ _. None };

    ghost faults = { λ _. 0 };

    ghost openings = { λ s. s.openings.all };

    ghost given = { λ s. s.given.all };

    ghost is_sure_name = { λ _ _. ⊤ };

    ghost is_sure_id = { λ _ _. ⊤ };

    fn open_file(&mut self, name: &str) -> Result<FileId, Failed> {
        let id = FileId(0);
        let opening = Opening { name, id };
        self.openings = self.openings.and(&opening);
        self.given = self.given.opened(&opening);
        Ok(id)
    }

    fn read(&mut self, id: FileId, into: &mut [u8]) -> Result<usize, Failed> {
        let count = into.len().min(self.left);
        self.left -= count;
        self.given = self.given.gave(&Reading { into, id, count });
        Ok(count)
    }
}

// A file of 70,000 bytes, no two pieces of which are equal.
fn long_file(alloc: Global, fails: Vec<u64>) -> Result<MemFiles, AllocError> {
    let mut bytes = vec![in alloc; 1u8; 70_000]?;
    bytes[65_536] = 2;
    let file = Named {
        name: String::from_str(alloc, "a")?,
        bytes,
        at: 0,
    };
    Ok(MemFiles::new(vec![in alloc; file]?, fails))
}

fn kept_of(alloc: Global, files: &mut MemFiles) -> Result<Kept, LoadFault> {
    let mut kept = Kept {
        bytes: Vec::new(alloc),
        pieces: 0,
    };
    load_into(files, "a", &mut kept)?;
    Ok(kept)
}

#[test]
fn takes_a_file_in_pieces(rt: HostRuntime) -> Result<(), Fail> {
    let alloc = rt.alloc();
    let mut files = long_file(alloc, Vec::new(alloc))?;
    let text = load(alloc, &mut files, "a")?;
    let kept = kept_of(alloc, &mut files)?;
    assert!(rt; kept.pieces == 2 && kept.bytes == text);
    Ok(())
}

// What is answered where that call fails.
fn answer_at(alloc: Global, call: u64) -> Result<Result<(), LoadFault>, AllocError> {
    let mut files = long_file(alloc, vec![in alloc; call]?)?;
    let mut counted = Counted {
        taken: 0,
        limit: MAX_FILE,
    };
    Ok(load_into(&mut files, "a", &mut counted))
}

#[test]
fn tells_read_faults(rt: HostRuntime) -> Result<(), AllocError> {
    // the file is opened, read twice, and read to its end: four calls
    for call in 0..4 {
        assert!(rt; answer_at(rt.alloc(), call)? == Err(LoadFault::ReadFault));
    }
    assert!(rt; answer_at(rt.alloc(), 4)?.is_ok());
    Ok(())
}

// The bytes of the file and those that the taker has room for; then what is answered and how many bytes it has taken.
type Limit = (usize, usize, Result<(), LoadFault>, usize);

const LIMITS: [Limit; 3] = [
    (MAX_FILE, MAX_FILE, Ok(()), MAX_FILE),
    (MAX_FILE + 1, MAX_FILE, Err(LoadFault::BigFile), MAX_FILE),
    (
        MAX_PIECE + 1,
        MAX_PIECE,
        Err(LoadFault::NoMemory),
        MAX_PIECE,
    ),
];

fn is_limited(row: &Limit) -> bool {
    let (long, limit, want, taken) = *row;
    let mut counted = Counted { taken: 0, limit };
    load_into(&mut LongFile::new(long), "a", &mut counted) == want && counted.taken == taken
}

#[test]
fn limits_the_file_and_the_memory(rt: HostRuntime) {
    for row in LIMITS.iter() {
        assert!(rt; is_limited(row));
    }
}
