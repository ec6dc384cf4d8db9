//! What calls gave and took. It is for proofs alone: it takes no memory, and its methods do nothing at run time.
ghost use Rattle.std.specs.Prelude.{◌≡◌, ℕ, List, [], ◌∷◌, ◌++◌, length, take};
ghost use Rattle.std.specs.Borrow.{ftrue};
ghost use Rattle.line_source.specs.Givens.{Given, begun, after_reading};

use crate::{FileId, Opening};
use std::marker::Model;

/// For each file that was opened the bytes that its reads gave.
#[derive(Drop)]
pub struct GivenLog {
    pub ghost all: { List Given },
}

impl Model for GivenLog {
    ghost also_owns = { λ _. ftrue };
}

/// A read: the id, the piece that it filled, and how many bytes it gave.
#[derive(Clone, Copy, Drop)]
pub struct Reading<'a> {
    pub into: &'a [u8],
    pub id: FileId,
    pub count: usize,
}

impl GivenLog {
    /// None was opened.
    pub fn new() -> GivenLog
        ensures { result.all ≡ [] }
    {
        GivenLog {}
    }

    /// This one was opened then.
    pub fn opened(&self, _opening: &Opening<'_>) -> GivenLog
        ensures { result.all ≡ self.now.all ++ begun _opening.now.name.now _opening.now.id.0 ∷ [] }
    {
        GivenLog {}
    }

    /// This was read then.
    pub fn gave(&self, _reading: &Reading<'_>) -> GivenLog
        ensures { result.all ≡ after_reading _reading.now.id.0 (take _reading.now.count
            _reading.now.into.now) (length _reading.now.into.now) self.now.all }
    {
        GivenLog {}
    }
}

/// The bytes that were taken.
#[derive(Drop)]
pub struct TakenLog {
    pub ghost all: { List ℕ },
}

impl Model for TakenLog {
    ghost also_owns = { λ _. ftrue };
}

/// A write: its piece, and how many bytes of it were taken.
#[derive(Clone, Copy, Drop)]
pub struct Writing<'a> {
    pub piece: &'a [u8],
    pub count: usize,
}

impl TakenLog {
    /// None was taken.
    pub fn new() -> TakenLog
        ensures { result.all ≡ [] }
    {
        TakenLog {}
    }

    /// This was written then.
    pub fn and(&self, _writing: &Writing<'_>) -> TakenLog
        ensures { result.all ≡ self.now.all ++ take _writing.now.count _writing.now.piece.now }
    {
        TakenLog {}
    }
}
