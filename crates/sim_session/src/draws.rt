//! The sequence of draws.
ghost use Rattle.std.specs.Prelude.{◌≡◌, ℕ, ◌+◌, ◌/◌, ◌^◌, ◌<◌, ◌≤◌, unsigned_abs};
ghost use Rattle.sim_session.specs.Sequence.{next_state, state_after, drawn_within};

const MULTIPLIER: u128 = 6_364_136_223_846_793_005;

const INCREMENT: u128 = 1_442_695_040_888_963_407;

/// A sequence of draws, by the state after the last one.
#[derive(Clone, Copy, Debug)]
pub struct Draws {
    pub state: u64,
}

impl Draws {
    /// The sequence of a seed, from its beginning.
    pub fn new(seed: u32) -> Draws
        ensures { result.state ≡ state_after seed 0 }
    {
        Draws { state: seed as u64 }
    }

    /// The next draw: 31 bits.
    pub fn draw(&mut self) -> u32
        ensures state { self.new.state ≡ next_state self.old.state }
        ensures value { result ≡ next_state self.old.state / 2 ^ 33 }
    {
        let next = (self.state as u128 * MULTIPLIER + INCREMENT) % (1 << 64);
        self.state = next as u64;
        (self.state >> 33) as u32
    }

    /// The next draw as a whole number from `-most` to `most`, wherever in the sequence it stands.
    pub fn draw_within(&mut self, most: u32) -> i64
        requires { most < 2 ^ 31 }
        ensures moves { (seed n : ℕ) → self.old.state ≡ state_after seed n →
            self.new.state ≡ state_after seed (n + 1) }
        ensures value { (seed n : ℕ) → self.old.state ≡ state_after seed n →
            result ≡ drawn_within most seed n }
        ensures size { unsigned_abs result ≤ most }
    {
        let drawn = self.draw() % (2 * most + 1);
        drawn as i64 - most as i64
    }
}
