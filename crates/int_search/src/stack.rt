//! The levels of a search.
ghost use Rattle.std.specs.Prelude.{◌≡◌, ◌<◌, ◌≤◌, [], ◌∷◌, length, drop};
ghost use Rattle.int_search.specs.LatestLevel.{IsLatest};
ghost use Rattle.quadratic_form.specs.declared.sizes.TheConstants.{MOST_INTEGERS};

use arrayvec::ArrayVec;
use quadratic_form::MOST_INTEGERS;
use std::marker::Model;

/// The level of one integer, where the entries after it are fixed: its entries strictly between `down` and `up` are
/// taken.
#[derive(Clone, Copy, Debug, Default)]
pub struct Level {
    /// The next entry above.
    pub up: i64,
    /// The next entry below.
    pub down: i64,
    /// 2^30 times the distance of `up` from the centre that the later entries give.
    pub up_offset: i128,
    /// 2^30 times the distance of `down` from that centre.
    pub down_offset: i128,
    /// The lower sum of the later entries.
    pub low: i128,
}

/// The levels, seen with the latest first.
#[derive(Drop)]
pub struct Stack {
    levels: ArrayVec<Level, MOST_INTEGERS>,
}

impl Model for Stack {
    ghost use Rattle.std.specs.Prelude.{List, reverse};
    ghost use Rattle.int_search.specs.declared.stack.Level.{Level};

    ghost Value = { List Level };

    ghost view = { λ s. reverse s.levels.items };
}

impl Stack {
    /// No levels.
    pub fn new() -> Self
        ensures { result ≡ [] }
    {
        Stack {
            levels: ArrayVec::new(),
        }
    }

    /// The number of levels.
    pub fn len(&self) -> usize
        ensures { result ≡ length self.now }
    {
        self.levels.len()
    }

    /// Adds a level.
    pub fn push(&mut self, level: Level)
        requires { length self.old < MOST_INTEGERS }
        ensures { self.new ≡ level ∷ self.old }
    {
        self.levels.push(level);
    }

    /// The latest level.
    pub fn top(&self) -> Level
        requires { 0 < length self.now }
        ensures { IsLatest self.now result }
    {
        let count = self.levels.len();
        self.levels[count - 1]
    }

    /// Removes the latest level.
    pub fn pop(&mut self)
        requires { 0 < length self.old }
        ensures { self.new ≡ drop 1 self.old }
    {
        let _ = self.levels.pop();
    }

    /// Puts a level in the place of the latest.
    pub fn replace(&mut self, level: Level)
        requires some { 0 < length self.old }
        requires most { length self.old ≤ MOST_INTEGERS }
        ensures { self.new ≡ level ∷ drop 1 self.old }
    {
        self.pop();
        self.push(level);
    }
}
