//! The lines of a tail, each by itself.
ghost use Rattle.std.specs.Prelude.{◌≡◌, ◌≤◌, ◌∷◌, [], ℕ, List, length, IfOk};
ghost use Rattle.obs_rows.specs.declared.arcs.Arc.{Arc};
ghost use Rattle.cert_data.specs.Tails.{IsTailOf};
ghost use Rattle.cert_text.specs.Spelling.{tail_lines};
ghost use Rattle.cert_text.specs.Lengths.{IsWholeTail};
ghost use Rattle.cert_text.specs.Editions.{IsColumnOf};
ghost use Rattle.cert_lines.specs.declared.version.Version.{Version};
ghost use Rattle.cert_text.specs.TailForms.{weak_tail_in, unsettled_in, spent_in, overwidth_in, declined_in};

use crate::place_in;
use cert_data::Tail;
use cert_lines::{MOVES, Version, WeakPivot, begins, count_in, vector_in, weak_in};
use rinex_head::Flaw;

fn weak_tail_in(version: Version, line: &[u8]) -> Result<Tail, Flaw>
    requires { length line.now ≤ 4096 }
    ensures value { result ≡ weak_tail_in version line.now }
    ensures spelled { IfOk result (λ t. line.now ∷ [] ≡ tail_lines t) }
    ensures fits { IfOk result (λ t. (ss : List ℕ) (arcs : List Arc) (budget : ℕ) →
        IsTailOf ss arcs budget t) }
    ensures column { IfOk result (IsColumnOf version) }
    ensures whole { IfOk result IsWholeTail }
{
    let WeakPivot { column, pivot } = weak_in(b"declined weak fine", version.last_column(), line)?;
    Ok(Tail::Weak { column, pivot })
}

fn unsettled_in(line: &[u8]) -> Result<Tail, Flaw>
    requires { length line.now ≤ 4096 }
    ensures value { result ≡ unsettled_in line.now }
    ensures spelled { IfOk result (λ t. line.now ∷ [] ≡ tail_lines t) }
    ensures fits { IfOk result (λ t. (ss : List ℕ) (arcs : List Arc) (budget : ℕ) →
        IsTailOf ss arcs budget t) }
    ensures column { (version : Version) → IfOk result (IsColumnOf version) }
    ensures whole { IfOk result IsWholeTail }
{
    let entries: [i64; 1] = vector_in(b"declined unsettled fine", 1, &MOVES, line)?;
    Ok(Tail::Unsettled { entry: entries[0] })
}

fn spent_in(budget: u64, line: &[u8]) -> Result<Tail, Flaw>
    requires { length line.now ≤ 4096 }
    ensures value { result ≡ spent_in budget line.now }
    ensures spelled { IfOk result (λ t. line.now ∷ [] ≡ tail_lines t) }
    ensures fits { IfOk result (λ t. (ss : List ℕ) (arcs : List Arc) → IsTailOf ss arcs budget t) }
    ensures column { (version : Version) → IfOk result (IsColumnOf version) }
    ensures whole { IfOk result IsWholeTail }
{
    let spent = count_in(b"declined spent", budget, budget, line)?;
    Ok(Tail::Spent { budget: spent })
}

fn overwidth_in(line: &[u8]) -> Result<Tail, Flaw>
    ensures value { result ≡ overwidth_in line.now }
    ensures spelled { IfOk result (λ t. line.now ∷ [] ≡ tail_lines t) }
    ensures fits { IfOk result (λ t. (ss : List ℕ) (arcs : List Arc) (budget : ℕ) →
        IsTailOf ss arcs budget t) }
    ensures column { (version : Version) → IfOk result (IsColumnOf version) }
    ensures whole { IfOk result IsWholeTail }
{
    let place = place_in(b"declined overwidth fine ", line)?;
    Ok(Tail::Overwidth { place })
}

/// A tail of one line.
pub(crate) fn declined_in(version: Version, budget: u64, line: &[u8]) -> Result<Tail, Flaw>
    requires { length line.now ≤ 4096 }
    ensures value { result ≡ declined_in version budget line.now }
    ensures spelled { IfOk result (λ t. line.now ∷ [] ≡ tail_lines t) }
    ensures fits { IfOk result (λ t. (ss : List ℕ) (arcs : List Arc) → IsTailOf ss arcs budget t) }
    ensures column { IfOk result (IsColumnOf version) }
    ensures whole { IfOk result IsWholeTail }
{
    if begins(b"declined weak", line) {
        return weak_tail_in(version, line);
    }
    if begins(b"declined unsettled", line) {
        return unsettled_in(line);
    }
    if begins(b"declined spent", line) {
        return spent_in(budget, line);
    }
    overwidth_in(line)
}
