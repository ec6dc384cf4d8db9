//! The constants of each satellite system, by the system's letter.
//!
//! `world_of` gives those of Galileo for the letter E, and those of GPS for any other. `worlds_law` says what they are,
//! as the contract of a function that does nothing.
ghost use Rattle.std.specs.Prelude.{◌≡◌, ◌*◌, ◌^◌, ℕ, ℤ, pos, neg_ℤ};
ghost use Rattle.std.proofs.Common.{lit<};
ghost use Rattle.whole_math.specs.Rational.{◌≈◌, ◌≤ʳ◌, of_whole, ◌-ʳ◌, divided};
ghost use Rattle.eph_store.specs.Decimals.{decimal};
ghost use Rattle.orbit_model.specs.Elements.{earth_rate, sent_at, gps, galileo, world_of};
ghost use Rattle.sv_orbit.specs.Records.{constants_of};
ghost use Rattle.sv_orbit.specs.Worlds.{squared_effect, four_mu};

use crate::World;

/// The constants of Galileo for its letter, E, else those of GPS.
pub fn world_of(system: u8) -> World
    ensures { constants_of result ≡ world_of system }
{
    if system == b'E' {
        World::galileo()
    } else {
        World::gps()
    }
}

/// The constants of the user algorithms of IS-GPS-200 and of the Galileo OS SIS ICD.
pub fn worlds_law()
    // IS-GPS-200, table 20-IV: m³/s², and radians per second, which are Galileo's too
    ensures gravity { gps.mu ≈ of_whole (pos (3_986_005 * 10 ^ 8)) }
    ensures earth_rate { earth_rate ≈ decimal (pos 72_921_151_467) 15 }
    // 20.3.3.3.3.1: F = -2 √μ / c² in s/√m, so that F² c⁴ is 4 μ, but for what F's ten digits leave: less than one part in 10^9
    ensures relativity { gps.relativity ≈ decimal (neg_ℤ (pos 4_442_807_633)) 19 }
    ensures effect_high { squared_effect gps ≤ʳ four_mu gps }
    ensures effect_low { four_mu gps -ʳ divided (four_mu gps) (10 ^ 9) (lit< tt)
        ≤ʳ squared_effect gps }
    // 20.3.4.3: c in m/s. A tag in ticks of 100 ns less a code in mm, in seconds
    ensures sent { (tag : ℕ) (code : ℤ) → sent_at tag code ≈ divided (of_whole (pos tag)) (10 ^ 7)
        (lit< tt) -ʳ divided (of_whole code) (1000 * 299_792_458) (lit< tt) }
    // Galileo OS SIS ICD, 5.1.1 and 5.1.4: μ, and F of the same form
    ensures gravity_of_galileo { galileo.mu ≈ of_whole (pos (3_986_004_418 * 10 ^ 5)) }
    ensures relativity_of_galileo { galileo.relativity ≈ decimal (neg_ℤ (pos 4_442_807_309)) 19 }
    ensures galileo_high { squared_effect galileo ≤ʳ four_mu galileo }
    ensures galileo_low { four_mu galileo -ʳ divided (four_mu galileo) (10 ^ 9) (lit< tt)
        ≤ʳ squared_effect galileo }
{}
