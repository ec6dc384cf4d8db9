//! The integer of an arc and a signal.
ghost use Rattle.std.specs.Prelude.{◌≡◌, ◌<◌, ◌≤◌, ℕ, length, All, IfSome, unsigned_abs};
ghost use Rattle.obs_rows.specs.declared.units.TheConstants.{MOST_FREE_ARCS};
ghost use Rattle.obs_rows.specs.Arcs.{free_count};
ghost use Rattle.obs_rows.specs.Ranges.{IsBelow};
ghost use Rattle.obs_rows.specs.CountedSignals.{AreCounted};
ghost use Rattle.obs_rows.specs.Integers.{integer_count, entry_at, integer};

use obs_rows::{Arc, integer_place};

/// The integer at this place of the vector z: 0 where there is none.
pub(crate) fn integer_at(z: &[i64], place: Option<usize>) -> i64
    requires { IfSome place (λ i. i < length z.now) }
    ensures value { result ≡ entry_at z.now place }
    ensures size { (m : ℕ) → All (IsBelow m) z.now → 0 < m → unsigned_abs result < m }
{
    match place {
        Some(i) => z[i],
        None => 0,
    }
}

/// The integer of an arc and a signal in the vector z: 0 for a datum and for a code.
///
/// z has an entry for each free arc and each phase of the signals that count. What it has after them is not read.
pub fn integer_of(arcs: &[Arc], signals: &[usize], z: &[i64], arc: usize, signal: usize) -> i64
    requires free { free_count arcs.now ≤ MOST_FREE_ARCS }
    requires counted { AreCounted signals.now }
    requires arc { arc < length arcs.now }
    requires entries { integer_count arcs.now signals.now ≤ length z.now }
    ensures value { result ≡ integer arcs.now signals.now z.now arc signal }
    ensures size { (m : ℕ) → All (IsBelow m) z.now → 0 < m → unsigned_abs result < m }
{
    integer_at(z, integer_place(arcs, signals, arc, signal))
}
