//! Whether there are arcs enough, and few enough.
ghost use Rattle.std.specs.Prelude.{◌≡◌, ◌≤◌, ◌↔◌, IsTrue, length};
ghost use Rattle.obs_rows.specs.Arcs.{free_count};
ghost use Rattle.obs_rows.specs.declared.limits.TheConstants.{MOST_KEPT_ARCS};
ghost use Rattle.round_steps.specs.Counts.{held, AreFew, AreMany};

use obs_rows::{Arc, MOST_ARCS, MOST_FREE_ARCS, free_arcs};

/// A baseline and the clock are four numbers.
pub const LEAST_SATELLITES: usize = 4;

/// How many of the arcs hold the pair of this number.
pub fn held(arcs: &[Arc], number: u32) -> usize
    ensures { result ≡ held arcs.now number }
{
    arcs.iter()
        .filter(|a| a.first <= number && number <= a.last)
        .count()
}

/// Whether none of the first `pairs` pairs has four satellites in the arcs.
pub fn are_few(pairs: u32, arcs: &[Arc]) -> bool
    ensures { IsTrue result ↔ AreFew pairs arcs.now }
{
    for number in 0..pairs {
        if held(arcs, number) >= LEAST_SATELLITES {
            return false;
        }
    }
    true
}

/// How many of the arcs are free.
pub fn free_count(arcs: &[Arc]) -> u32
    requires { length arcs.now ≤ MOST_KEPT_ARCS }
    ensures { result ≡ free_count arcs.now }
{
    free_arcs(arcs) as u32
}

/// Whether over 20 arcs are free, or there are over 200.
pub fn are_many(arcs: &[Arc]) -> bool
    ensures { IsTrue result ↔ AreMany arcs.now }
{
    free_arcs(arcs) > MOST_FREE_ARCS || arcs.len() > MOST_ARCS
}
