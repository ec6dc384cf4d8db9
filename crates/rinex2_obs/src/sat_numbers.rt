//! The satellites of an epoch in the order of their names.
ghost use Rattle.std.specs.Prelude.{◌≡◌, ◌<◌, ◌++◌, ◌∷◌, [], length};
ghost use Rattle.rinex2_obs.specs.SatNumbers.{has_number, is_named, AreNames, FitsBehind};

use arrayvec::ArrayVec;
use std::marker::Model;

// how many satellites an epoch may have: its count has three digits
const MOST_NAMES: usize = 999;

/// The satellites of an epoch by their names: the numbers of those of GPS, from 1 to 32, each at most once, and nothing
/// in the places of others. Contracts see the list of them.
#[derive(Drop)]
pub struct SatNames {
    items: ArrayVec<Option<u8>, MOST_NAMES>,
}

impl Model for SatNames {
    ghost use Rattle.std.specs.Prelude.{List, ℕ};
    ghost use Rattle.std.specs.declared.option.Option.{Option};
    ghost use Rattle.rinex2_obs.specs.SatNumbers.{AreNames};

    ghost Value = { List (Option ℕ) };

    ghost view = { λ s. s.items.items };

    ghost invariant = { λ s. AreNames s.items.items };
}

fn is_number(name: Option<u8>, number: u8) -> bool
    ensures { result ≡ has_number number name }
{
    match name {
        Some(n) => number == n,
        None => false,
    }
}

impl SatNames {
    /// No names.
    pub fn new() -> SatNames
        ensures { result ≡ [] }
    {
        SatNames {
            items: ArrayVec::new(),
        }
    }

    /// The names, in order.
    pub fn as_slice(&self) -> &[Option<u8>]
        ensures value { result.now ≡ self.now }
        ensures kept { AreNames self.now }
    {
        self.items.as_slice()
    }

    /// Whether a satellite of GPS has this number.
    pub fn has(&self, number: u8) -> bool
        ensures { result ≡ is_named number self.now }
    {
        self.items.iter().any(|name| is_number(*name, number))
    }

    /// Adds a name.
    pub fn push(&mut self, name: Option<u8>)
        requires room { length self.old < 999 }
        requires fits { FitsBehind self.old name }
        ensures { self.new ≡ self.old ++ name ∷ [] }
    {
        self.items.push(name);
    }
}
