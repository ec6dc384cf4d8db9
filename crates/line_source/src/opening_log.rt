//! Which files were opened. It is for proofs alone: it takes no memory, and its methods do nothing at run time.
ghost use Rattle.std.specs.Prelude.{◌≡◌, ℕ, List, [], ◌∷◌, ◌++◌};
ghost use Rattle.std.specs.Borrow.{ftrue};

use crate::FileId;
use std::marker::Model;

/// The names that were opened, each with the id that was answered.
#[derive(Drop)]
pub struct OpeningLog {
    pub ghost all: { List (List ℕ × ℕ) },
}

impl Model for OpeningLog {
    ghost also_owns = { λ _. ftrue };
}

/// A name that was opened, and the id that was answered.
#[derive(Clone, Copy, Drop)]
pub struct Opening<'a> {
    pub name: &'a str,
    pub id: FileId,
}

impl OpeningLog {
    /// None was opened.
    pub fn new() -> OpeningLog
        ensures { result.all ≡ [] }
    {
        OpeningLog {}
    }

    /// This one was opened then.
    pub fn and(&self, _opening: &Opening<'_>) -> OpeningLog
        ensures { result.all ≡ self.now.all ++ (_opening.now.name.now, _opening.now.id.0) ∷ [] }
    {
        OpeningLog {}
    }
}
