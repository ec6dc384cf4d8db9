//! The constants of a navigation system.
ghost use Rattle.std.specs.Prelude.{◌≡◌, pos, neg_ℤ};
ghost use Rattle.sv_orbit.specs.ClockWorlds.{IsWorld};

/// The Earth's gravitational constant μ in m³/s², and F of the relativistic clock term in 10^-19 s/√m.
#[derive(Clone, Copy, Debug, PartialEq, Eq)]
pub struct World {
    pub mu: i64,
    pub rel: i64,
    pub ghost known: { ∥ IsWorld mu rel ∥₁ },
}

impl World {
    /// The constants of IS-GPS-200.
    pub fn gps() -> World
        ensures mu { result.mu ≡ pos 398600500000000 }
        ensures rel { result.rel ≡ neg_ℤ (pos 4442807633) }
    {
        World {
            mu: 398_600_500_000_000,
            rel: -4_442_807_633,
        }
    }

    /// The constants of the Galileo OS SIS ICD.
    pub fn galileo() -> World
        ensures mu { result.mu ≡ pos 398600441800000 }
        ensures rel { result.rel ≡ neg_ℤ (pos 4442807309) }
    {
        World {
            mu: 398_600_441_800_000,
            rel: -4_442_807_309,
        }
    }
}
