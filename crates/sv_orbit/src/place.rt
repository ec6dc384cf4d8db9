//! A satellite's place and clock.
ghost use Rattle.std.specs.Prelude.{◌≡◌, ◌^◌, pos, ◌≤ℤ◌, [], ◌∷◌, All};
ghost use Rattle.iv_core.specs.declared.Iv.{Iv};
ghost use Rattle.iv_core.specs.Intervals.{width_of, IsWithin};
ghost use Rattle.orbit_model.specs.Places.{IsBetweenDistances};

use iv_core::Iv;

/// The Earth-fixed place of a satellite's antenna in metres, at scale 2^-36 and at most 2^-18 m wide in each
/// coordinate, and what its clock is ahead of GPS time in seconds, at scale 2^-60 and at most 2^-50 s wide.
///
/// Every place in the box is from 19,000 km to 38,000 km from the Earth's centre, and the clock is within 1/64 s.
#[derive(Clone, Copy, Debug)]
pub struct SvBox {
    pub place: [Iv<36>; 3],
    pub clock: Iv<60>,
    pub ghost narrow: { All (λ b. width_of b ≤ℤ pos (2 ^ 18)) place },
    pub ghost away: { (a b c : Iv 36) → place ≡ a ∷ b ∷ c ∷ [] →
        IsBetweenDistances 19000000 38000000 a b c },
    pub ghost clock_narrow: { width_of clock ≤ℤ pos (2 ^ 10) },
    pub ghost clock_small: { IsWithin (2 ^ 54) clock },
}
