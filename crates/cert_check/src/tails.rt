//! What a tail says.
ghost use Rattle.std.specs.Prelude.{◌≡◌, ◌↔◌, IsTrue};
ghost use Rattle.cert_data.specs.declared.tails.Tail.TheVariants.{Fixed};
ghost use Rattle.cert_check.specs.SameTails.{AreSameBest, Says};

use cert_data::{Tail, TwoBest};

fn are_same(numbers: &[i64], others: &[i64]) -> bool
    ensures { IsTrue result ↔ (numbers.now ≡ others.now) }
{
    numbers == others
}

/// Whether these are the same integer vectors, with the same values.
pub fn are_same_best(best: &TwoBest, other: &TwoBest) -> bool
    ensures { IsTrue result ↔ AreSameBest best.now other.now }
{
    if !are_same(&best.first[..best.size], &other.first[..other.size]) {
        return false;
    }
    if !are_same(&best.second[..best.size], &other.second[..other.size]) {
        return false;
    }
    if best.p1 != other.p1 {
        return false;
    }
    best.p2 == other.p2
}

/// Whether the tail says that the rows are fixed, with these numbers.
pub(crate) fn says_numbers(tail: &Tail, h: u32, moved: &[i64; 3], best: &TwoBest, top: i128) -> bool
    ensures { IsTrue result ↔ Says tail.now (Fixed h moved.now best.now top) }
{
    match tail {
        Tail::Fixed {
            h: said_h,
            moved: said_move,
            best: said_best,
            top: said_top,
        } => {
            if *said_h != h || *said_top != top {
                return false;
            }
            if !are_same(said_move, moved) {
                return false;
            }
            are_same_best(said_best, best)
        }
        _ => false,
    }
}
