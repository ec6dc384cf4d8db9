//! Where a receiver sees a satellite, the mean direction to it and the mask, over rationals (`specs/SeenPlaces.antt`), and the laws of
//! these notions. There is no code to run: the functions below have empty bodies, and their contracts are the laws.
//!
//! Every satellite from 19,000 km to 38,000 km is seen from every point near the ground: a travel time and a place
//! solve the equation (`seen_place_exists`). Each solution keeps its distances and travels at most 1/6 s
//! (`seen_places`), and over a displacement of at most 16 m the range changes by at most 33/2 m, whichever near-roots
//! stand for it (`range_change`).
ghost use Rattle.std.specs.Prelude.{pos};
ghost use Rattle.whole_math.specs.Rational.{Rational, of_whole, ◌≤ʳ◌, ◌+ʳ◌, ◌-ʳ◌, ◌*ʳ◌, IsNearRoot};
ghost use Rattle.orbit_model.specs.SeenPlaces.{Position, difference, square, IsSeenPlace, IsDisplacement};
ghost use Rattle.orbit_model.specs.Places.{HasSeenPlace, IsSentPlace, IsReceiverPlace, HasLengthBetween};

/// A receiver sees a satellite wherever it sent from: some travel time and some place solve the equations.
pub fn seen_place_exists()
    ensures { (sent point : Position) → IsSentPlace sent → IsReceiverPlace point →
        HasSeenPlace sent point }
{}

/// Every solution is as far from the Earth's centre and from the receiver as a satellite, and the signal travels at most 1/6 s.
pub fn seen_places()
    ensures distance { (sent point seen : Position) (travel : Rational) → IsSentPlace sent →
        IsSeenPlace sent point travel seen → HasLengthBetween 18900000 38100000 seen }
    ensures range { (sent point seen : Position) (travel : Rational) → IsSentPlace sent →
        IsReceiverPlace point → IsSeenPlace sent point travel seen →
        HasLengthBetween 11800000 45200000 (difference seen point) }
    ensures at_least { (sent point seen : Position) (travel : Rational) →
        IsSeenPlace sent point travel seen → of_whole (pos 0) ≤ʳ travel }
    ensures at_most { (sent point seen : Position) (travel : Rational) → IsSentPlace sent →
        IsReceiverPlace point → IsSeenPlace sent point travel seen →
        of_whole (pos 6) *ʳ travel ≤ʳ of_whole (pos 1) }
{}

/// Over a displacement the length of a long vector changes by at most 33/2 m, whichever near-roots stand for it.
pub fn range_change()
    ensures { (vector move : Position) (before after : Rational) →
        HasLengthBetween 10000000 47000000 vector → IsDisplacement move →
        IsNearRoot before (square vector) → IsNearRoot after (square (difference vector move)) →
        (of_whole (pos 2) *ʳ after ≤ʳ of_whole (pos 2) *ʳ before +ʳ of_whole (pos 33))
        × (of_whole (pos 2) *ʳ before -ʳ of_whole (pos 33) ≤ʳ of_whole (pos 2) *ʳ after) }
{}
