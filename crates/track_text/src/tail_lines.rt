//! The tails of one line.
ghost use Rattle.std.specs.Prelude.{◌≡◌, ◌≤◌, ◌∷◌, [], ℕ, List, length, IfOk};
ghost use Rattle.obs_rows.specs.declared.arcs.Arc.{Arc};
ghost use Rattle.obs_rows.specs.declared.pair_rows.PairRows.{PairRows};
ghost use Rattle.track_data.specs.TrackTails.{IsTrackTailOf};
ghost use Rattle.track_text.specs.Spelling.{track_tail_lines};
ghost use Rattle.track_text.specs.Lengths.{IsWholeTrackTail};
ghost use Rattle.track_text.specs.TailForms.{weak_tail_in, spent_in, overwidth_in, declined_in};

use cert_lines::{Version, WeakPivot, begins, count_in, weak_in};
use cert_text::place_in;
use rinex_head::Flaw;
use track_data::TrackTail;

fn weak_tail_in(line: &[u8]) -> Result<TrackTail, Flaw>
    requires { length line.now ≤ 4096 }
    ensures value { result ≡ weak_tail_in line.now }
    ensures spelled { IfOk result (λ t. (pairs : List PairRows) →
        line.now ∷ [] ≡ track_tail_lines pairs t) }
    ensures fits { IfOk result (λ t. (ss : List ℕ) (arcs : List Arc) (pairs : List PairRows)
        (budget : ℕ) → IsTrackTailOf ss arcs pairs budget t) }
    ensures whole { IfOk result IsWholeTrackTail }
{
    let WeakPivot { column, pivot } = weak_in(b"declined weak", Version::Two.last_column(), line)?;
    Ok(TrackTail::Weak { column, pivot })
}

fn spent_in(budget: u64, line: &[u8]) -> Result<TrackTail, Flaw>
    requires { length line.now ≤ 4096 }
    ensures value { result ≡ spent_in budget line.now }
    ensures spelled { IfOk result (λ t. (pairs : List PairRows) →
        line.now ∷ [] ≡ track_tail_lines pairs t) }
    ensures fits { IfOk result (λ t. (ss : List ℕ) (arcs : List Arc) (pairs : List PairRows) →
        IsTrackTailOf ss arcs pairs budget t) }
    ensures whole { IfOk result IsWholeTrackTail }
{
    let spent = count_in(b"declined spent", budget, budget, line)?;
    Ok(TrackTail::Spent { budget: spent })
}

fn overwidth_in(line: &[u8]) -> Result<TrackTail, Flaw>
    ensures value { result ≡ overwidth_in line.now }
    ensures spelled { IfOk result (λ t. (pairs : List PairRows) →
        line.now ∷ [] ≡ track_tail_lines pairs t) }
    ensures fits { IfOk result (λ t. (ss : List ℕ) (arcs : List Arc) (pairs : List PairRows)
        (budget : ℕ) → IsTrackTailOf ss arcs pairs budget t) }
    ensures whole { IfOk result IsWholeTrackTail }
{
    let place = place_in(b"declined overwidth ", line)?;
    Ok(TrackTail::Overwidth { place })
}

/// A tail of one line.
pub(crate) fn declined_in(budget: u64, line: &[u8]) -> Result<TrackTail, Flaw>
    requires { length line.now ≤ 4096 }
    ensures value { result ≡ declined_in budget line.now }
    ensures spelled { IfOk result (λ t. (pairs : List PairRows) →
        line.now ∷ [] ≡ track_tail_lines pairs t) }
    ensures fits { IfOk result (λ t. (ss : List ℕ) (arcs : List Arc) (pairs : List PairRows) →
        IsTrackTailOf ss arcs pairs budget t) }
    ensures whole { IfOk result IsWholeTrackTail }
{
    if begins(b"declined weak", line) {
        return weak_tail_in(line);
    }
    if begins(b"declined spent", line) {
        return spent_in(budget, line);
    }
    overwidth_in(line)
}
