//! What is drawn of a session.
ghost use Rattle.std.specs.Prelude.{◌≡◌, ℕ, ◌+◌, ◌*◌, ◌≤◌, ℤ, ◌-ℤ◌, unsigned_abs, [], ◌∷◌, All, IfOk};
ghost use Rattle.sim_session.specs.Sequence.{state_after};
ghost use Rattle.sim_session.specs.Values.{offset_of, base_clock_of, rover_clock_of, l5_cycles, cycles_from, base_cycles, rover_cycles, truth_of, first_of, AreSmall};
ghost use Rattle.sim_session.specs.declared.drawn.TheConstants.{MOST_CLOCK, MOST_CYCLES, MOST_OFFSET};

use crate::draws::Draws;
use std::alloc::{AllocError, Global};

/// The most that the rover lies off the base in each coordinate, in mm.
pub(crate) const MOST_OFFSET: u32 = 1_000_000;

/// The most in size of a receiver's clock term, in mm.
pub(crate) const MOST_CLOCK: u32 = 100_000;

/// The most in size of a number of whole cycles.
pub(crate) const MOST_CYCLES: u32 = 1_000_000;

/// The whole cycles in the phases of each satellite, on L1, L2 and L5, and what the rover's are more than the base's.
#[derive(Debug, Drop)]
pub struct Cycles {
    pub base: Vec<[i64; 3]>,
    pub rover: Vec<[i64; 3]>,
    pub truth: Vec<[i64; 3]>,
}

/// What is drawn of a session: what the rover lies off the base in mm, the receivers' clock terms in mm, and the cycles.
#[derive(Debug, Drop)]
pub struct Drawn {
    pub offset: [i64; 3],
    pub base_clock: i64,
    pub rover_clock: i64,
    pub cycles: Cycles,
}

impl Draws {
    fn offset(&mut self) -> [i64; 3]
        ensures moves { (seed : ℕ) → self.old.state ≡ state_after seed 0 →
            self.new.state ≡ state_after seed 3 }
        ensures value { (seed : ℕ) → self.old.state ≡ state_after seed 0 → result ≡ offset_of seed }
        ensures size { All (λ z. unsigned_abs z ≤ MOST_OFFSET) result }
    {
        let x = self.draw_within(MOST_OFFSET);
        let y = self.draw_within(MOST_OFFSET);
        let z = self.draw_within(MOST_OFFSET);
        [x, y, z]
    }

    // The draws after those of L1 and L2 for `sats` satellites
    fn behind(self, sats: u32) -> Draws
        ensures { (seed n : ℕ) → self.state ≡ state_after seed n →
            result.state ≡ state_after seed (n + 4 * sats) }
    {
        let mut later = self;
        for _k in 0..sats {
            later.draw();
            later.draw();
            later.draw();
            later.draw();
        }
        later
    }

    // Where L5 isn't used its cycles are 0, whatever is drawn
    fn cycles_on_l5(&mut self, l5: bool) -> i64
        ensures moves { (seed n : ℕ) → self.old.state ≡ state_after seed n →
            self.new.state ≡ state_after seed (n + 1) }
        ensures value { (seed n : ℕ) → self.old.state ≡ state_after seed n →
            result ≡ l5_cycles l5 seed n }
        ensures size { unsigned_abs result ≤ MOST_CYCLES }
    {
        let drawn = self.draw_within(MOST_CYCLES);
        if l5 { drawn } else { 0 }
    }

    // Of a satellite at a receiver; those on L5 are drawn later
    fn cycles(&mut self, later: &mut Draws, l5: bool) -> [i64; 3]
        ensures moves { (seed n : ℕ) → self.old.state ≡ state_after seed n →
            self.new.state ≡ state_after seed (n + 1 + 1) }
        ensures later_moves { (seed n : ℕ) → later.old.state ≡ state_after seed n →
            later.new.state ≡ state_after seed (n + 1) }
        ensures value { (seed n m : ℕ) → self.old.state ≡ state_after seed n →
            later.old.state ≡ state_after seed m → result ≡ cycles_from l5 seed n m }
        ensures size { AreSmall result }
    {
        let on_l1 = self.draw_within(MOST_CYCLES);
        let on_l2 = self.draw_within(MOST_CYCLES);
        let on_l5 = later.cycles_on_l5(l5);
        [on_l1, on_l2, on_l5]
    }

    fn all_cycles(&mut self, alloc: Global, sats: u32, l5: bool) -> Result<Cycles, AllocError>
        ensures base { (seed : ℕ) → self.old.state ≡ state_after seed 5 →
            IfOk result (λ c. c.base.items ≡ first_of (base_cycles seed sats l5) sats) }
        ensures rover { (seed : ℕ) → self.old.state ≡ state_after seed 5 →
            IfOk result (λ c. c.rover.items ≡ first_of (rover_cycles seed sats l5) sats) }
        ensures truth { (seed : ℕ) → self.old.state ≡ state_after seed 5 →
            IfOk result (λ c. c.truth.items ≡ first_of (truth_of seed sats l5) sats) }
        ensures base_size { IfOk result (λ c. All AreSmall c.base.items) }
        ensures rover_size { IfOk result (λ c. All AreSmall c.rover.items) }
    {
        let mut later = self.behind(sats);
        let mut all = Cycles {
            base: Vec::new(alloc),
            rover: Vec::new(alloc),
            truth: Vec::new(alloc),
        };
        for _k in 0..sats {
            let base = self.cycles(&mut later, l5);
            let rover = self.cycles(&mut later, l5);
            all.base.push(base)?;
            all.rover.push(rover)?;
            all.truth.push(difference(&rover, &base))?;
        }
        Ok(all)
    }
}

fn difference(rover: &[i64; 3], base: &[i64; 3]) -> [i64; 3]
    requires rover { AreSmall rover.now }
    requires base { AreSmall base.now }
    ensures { (a b c x y z : ℤ) → rover.now ≡ a ∷ b ∷ c ∷ [] → base.now ≡ x ∷ y ∷ z ∷ [] →
        result ≡ (a -ℤ x) ∷ (b -ℤ y) ∷ (c -ℤ z) ∷ [] }
{
    let [a, b, c] = *rover;
    let [x, y, z] = *base;
    [a - x, b - y, c - z]
}

/// What is drawn from a seed for `sats` satellites. The cycles on L5 are 0 where it isn't used.
pub fn draw_all(alloc: Global, seed: u32, sats: u32, l5: bool) -> Result<Drawn, AllocError>
    ensures offset { IfOk result (λ d. d.offset ≡ offset_of seed) }
    ensures base_clock { IfOk result (λ d. d.base_clock ≡ base_clock_of seed) }
    ensures rover_clock { IfOk result (λ d. d.rover_clock ≡ rover_clock_of seed) }
    ensures base_cycles { IfOk result (λ d.
        d.cycles.base.items ≡ first_of (base_cycles seed sats l5) sats) }
    ensures rover_cycles { IfOk result (λ d.
        d.cycles.rover.items ≡ first_of (rover_cycles seed sats l5) sats) }
    ensures truth { IfOk result (λ d.
        d.cycles.truth.items ≡ first_of (truth_of seed sats l5) sats) }
    ensures offset_size { IfOk result (λ d. All (λ z. unsigned_abs z ≤ MOST_OFFSET) d.offset) }
    ensures base_clock_size { IfOk result (λ d. unsigned_abs d.base_clock ≤ MOST_CLOCK) }
    ensures rover_clock_size { IfOk result (λ d. unsigned_abs d.rover_clock ≤ MOST_CLOCK) }
    ensures base_cycles_size { IfOk result (λ d. All AreSmall d.cycles.base.items) }
    ensures rover_cycles_size { IfOk result (λ d. All AreSmall d.cycles.rover.items) }
{
    let mut draws = Draws::new(seed);
    let offset = draws.offset();
    let base_clock = draws.draw_within(MOST_CLOCK);
    let rover_clock = draws.draw_within(MOST_CLOCK);
    let cycles = draws.all_cycles(alloc, sats, l5)?;
    Ok(Drawn {
        offset,
        base_clock,
        rover_clock,
        cycles,
    })
}
