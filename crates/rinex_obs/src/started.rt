//! The bytes of a line that has begun, and where it ends.
ghost use Rattle.std.specs.Prelude.{◌≡◌, ◌+◌, ◌≤◌, ◌<◌, ◌++◌, ℕ, List, [], length, take, IfSome, IfNone, OnOk, OnErr};
ghost use Rattle.rinex_obs.specs.Started.{EndsLine, GoesOn};

use arrayvec::ArrayVec;
use memchr::memchr;
use std::marker::Model;

// one more than a line may have, since the last one may be a CR before its end
const MOST_STARTED: usize = 4097;

/// The bytes of a line that has begun: at most 4,097. Contracts see the list of them.
#[derive(Drop)]
pub struct StartedLine {
    bytes: ArrayVec<u8, MOST_STARTED>,
}

impl Model for StartedLine {
    ghost use Rattle.std.specs.Prelude.{List, ℕ};

    ghost Value = { List ℕ };

    ghost view = { λ s. s.bytes.items };
}

/// A line that has begun has more than 4,097 bytes.
#[derive(Clone, Copy, Debug)]
pub struct Overlong;

impl StartedLine {
    /// No line has begun.
    pub fn new() -> StartedLine
        ensures { result ≡ [] }
    {
        StartedLine {
            bytes: ArrayVec::new(),
        }
    }

    /// The bytes, in order.
    pub fn as_slice(&self) -> &[u8]
        ensures value { result.now ≡ self.now }
        ensures few { length self.now ≤ 4097 }
    {
        self.bytes.as_slice()
    }

    /// Adds these bytes, where there are no more than 4,097 then; after an `Err` the line is as before.
    pub fn extend(&mut self, bytes: &[u8]) -> Result<(), Overlong>
        ensures added { OnOk result (self.new ≡ self.old ++ bytes.now) }
        ensures long { OnErr result (4097 < length self.old + length bytes.now) }
        ensures unchanged { OnErr result (self.new ≡ self.old) }
    {
        match self.bytes.try_extend_from_slice(bytes) {
            Ok(()) => Ok(()),
            Err(_) => Err(Overlong),
        }
    }

    /// Removes all bytes.
    pub fn clear(&mut self)
        ensures { self.new ≡ [] }
    {
        self.bytes.clear();
    }
}

/// The bytes before the first line feed and those after it, if there is one.
#[tactic(auto, using(crate::proofs::Feeds::ends_slices, crate::proofs::Feeds::front_slices, line_source::proofs::LineEnds::goes_on))]
pub fn split_line(bytes: &[u8]) -> Option<(&[u8], &[u8])>
    ensures ends { IfSome result (λ parts. EndsLine bytes.now parts.0.now parts.1.now) }
    ensures front { IfSome result (λ parts. parts.0.now ≡ take (length parts.0.now) bytes.now) }
    ensures long { IfSome result (λ parts.
        length parts.0.now + length parts.1.now + 1 ≡ length bytes.now) }
    ensures none { IfNone result (GoesOn bytes.now) }
{
    match memchr(b'\n', bytes) {
        Some(at) => Some((&bytes[..at], &bytes[at + 1..])),
        None => None,
    }
}
