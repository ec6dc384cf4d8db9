//! What a tail says.
ghost use Rattle.std.specs.Prelude.{◌≡◌, ◌↔◌, IsTrue};
ghost use Rattle.track_data.specs.declared.tails.TrackTail.TheVariants.{Fixed};
ghost use Rattle.track_form.specs.Decided.{IsSameTail};

use cert_check::are_same_best;
use int_search::TwoBest;
use track_data::TrackTail;

fn are_same(moves: &[[i64; 3]], others: &[[i64; 3]]) -> bool
    ensures { IsTrue result ↔ (moves.now ≡ others.now) }
{
    moves == others
}

/// Whether the tail says that the rows are fixed, with these numbers.
pub(crate) fn says_numbers(
    tail: &TrackTail,
    h: u32,
    moves: &[[i64; 3]],
    best: &TwoBest,
    top: i128,
) -> bool
    ensures { IsTrue result ↔ IsSameTail tail.now (Fixed h moves.now best.now top) }
{
    match tail {
        TrackTail::Fixed {
            h: said_h,
            moves: said_moves,
            best: said_best,
            top: said_top,
        } => {
            if *said_h != h || *said_top != top {
                return false;
            }
            if !are_same(said_moves.as_slice(), moves) {
                return false;
            }
            are_same_best(said_best, best)
        }
        _ => false,
    }
}
