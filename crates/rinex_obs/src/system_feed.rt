//! A feed whose type says the satellite system.
ghost use Rattle.std.specs.Prelude.{◌≡◌, ◌+◌, ◌≤◌, ◌++◌, List, ℕ, [], length, OnOk, OnErr, IsErr, Err};
ghost use Rattle.line_source.specs.declared.transfer.TheConstants.{MAX_FILE};
ghost use Rattle.rinex_head.specs.declared.system.System.{System};
ghost use Rattle.rinex_head.specs.declared.system.System.TheVariants.{Gps, Galileo};
ghost use Rattle.rinex_obs.specs.Feeding.{IsAnswerTo};
ghost use Rattle.rinex_obs.specs.Fed.{HasNoMemory};

use crate::Feed;
use line_source::Taker;
use obs_store::ObsFile;
use rinex_head::{System, TextFault};
use std::alloc::{AllocError, Global};
use std::marker::PhantomData;

/// A satellite system as a type.
pub trait OneSystem {
    ghost system: { System };

    /// The system.
    fn system() -> System
        ensures { result ≡ system };
}

/// GPS as a type.
#[derive(Clone, Copy, Debug)]
pub struct OfGps;

/// Galileo as a type.
#[derive(Clone, Copy, Debug)]
pub struct OfGalileo;

impl OneSystem for OfGps {
    ghost system = { Gps };

    fn system() -> System {
        System::Gps
    }
}

impl OneSystem for OfGalileo {
    ghost system = { Galileo };

    fn system() -> System {
        System::Galileo
    }
}

/// Takes the text of an observation file of one system piece by piece. Between two pieces it holds what the lines have
/// given so far and at most 4,097 bytes of the line that has begun, or the first refusal.
#[derive(Drop)]
pub struct SystemFeed<S: OneSystem> {
    feed: Feed,
    of: PhantomData<S>,
    ghost of_system: { feed.system ≡ S.system },
}

/// The feed of an observation file of GPS. It serves tests alone: the program takes these by job_answers, in either format.
pub type ObsFeed = SystemFeed<OfGps>;

/// The feed of an observation file of Galileo.
pub type GalFeed = SystemFeed<OfGalileo>;

impl<S: OneSystem> SystemFeed<S> {
    /// A feed that has taken nothing. It takes no memory.
    pub fn new(alloc: Global) -> SystemFeed<S>
        ensures taken { ⟦<SystemFeed<S> as Taker>⟧.taken result ≡ 0 }
        ensures stands { ⟦<SystemFeed<S> as Taker>⟧.stands_for result [] }
    {
        SystemFeed {
            feed: Feed::new(alloc, S::system()),
            of: PhantomData,
        }
    }

    /// The observation file that the text taken stands for, or the first place at which it stands for none: the same for
    /// all texts for which the feed stands, however they were cut.
    pub fn finish(self) -> Result<ObsFile, TextFault>
        ensures answers { (text : List ℕ) → ⟦<SystemFeed<S> as Taker>⟧.stands_for self text →
            IsAnswerTo S.system text result }
        ensures no_memory { HasNoMemory self.feed.state → result ≡ Err TextFault.NoMemory }
    {
        self.feed.finish()
    }
}

impl<S: OneSystem> Taker for SystemFeed<S> {
    ghost taken = { λ s. ⟦<Feed as Taker>⟧.taken s.feed };

    ghost stands_for = { λ s text. ⟦<Feed as Taker>⟧.stands_for s.feed text };

    ghost is_refused = { λ s. HasNoMemory s.feed.state };

    /// Takes the next piece. After a line that is refused it drops what follows. After running out of memory it answers
    /// so again, and so does `finish`.
    fn take(&mut self, piece: &[u8]) -> Result<(), AllocError>
        requires { ⟦<Feed as Taker>⟧.taken self.old.feed + length piece.now ≤ MAX_FILE }
        ensures counted { OnOk result (⟦<Feed as Taker>⟧.taken self.new.feed
            ≡ ⟦<Feed as Taker>⟧.taken self.old.feed + length piece.now) }
        ensures stands { OnOk result ((text : List ℕ) →
            ⟦<Feed as Taker>⟧.stands_for self.old.feed text →
            ⟦<Feed as Taker>⟧.stands_for self.new.feed (text ++ piece.now)) }
        ensures no_memory { OnErr result (HasNoMemory self.new.feed.state) }
        ensures again { HasNoMemory self.old.feed.state → IsErr result }
    {
        self.feed.take(piece)
    }
}
