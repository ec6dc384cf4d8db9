//! How the certificate of a track ends.
ghost use Rattle.std.specs.Prelude.{◌≡◌, ℕ, List};
ghost use Rattle.obs_rows.specs.declared.arcs.Arc.{Arc};
ghost use Rattle.obs_rows.specs.declared.pair_rows.PairRows.{PairRows};
ghost use Rattle.track_data.specs.TrackTails.{AreTrackVectors, IsTrackTailOf, track_tail_of_vectors};

use crate::Items;
use int_search::TwoBest;
use integer_form::Place;

/// What the rows of a track were decided to say.
#[derive(Debug, Drop)]
pub enum TrackTail {
    /// The first integers with the moves are strictly best.
    Fixed {
        /// The values and the upper sum are in units of 2^h.
        h: u32,
        /// For each pair the baseline of the first integers, as a move from its point in 2^-5 ι.
        moves: Items<[i64; 3]>,
        /// The two integer vectors at which the form is least, and its values there.
        best: TwoBest,
        /// The upper sum of the first.
        top: i128,
    },
    /// The second integers aren't far enough from the first.
    Unseparated {
        h: u32,
        moves: Items<[i64; 3]>,
        best: TwoBest,
        top: i128,
    },
    /// The pivot of this column is too small.
    Weak {
        column: u32,
        pivot: i64,
    },
    /// A number is too large.
    Overwidth {
        place: Place,
    },
    /// The search has spent its budget.
    Spent {
        budget: u64,
    },
}

impl TrackTail {
    /// The tail with two vectors and their values, the moves and the upper sum of the first: fixed or unseparated.
    pub fn of_vectors(
        fixed: bool,
        h: u32,
        moves: Items<[i64; 3]>,
        best: TwoBest,
        top: i128,
    ) -> TrackTail
        ensures value { result ≡ track_tail_of_vectors fixed h moves best top }
        ensures fits { (ss : List ℕ) (arcs : List Arc) (pairs : List PairRows) (budget : ℕ) →
            AreTrackVectors ss arcs pairs h moves best top →
            IsTrackTailOf ss arcs pairs budget result }
    {
        if fixed {
            TrackTail::Fixed {
                h,
                moves,
                best,
                top,
            }
        } else {
            TrackTail::Unseparated {
                h,
                moves,
                best,
                top,
            }
        }
    }
}
