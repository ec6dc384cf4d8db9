ghost use Rattle.std.specs.Prelude.{◌≡◌, ◌^◌, ◌≤◌, ℕ, ℤ, pos, ◌≤ℤ◌};
ghost use Rattle.std.specs.Int.{abs_diff};
ghost use Rattle.eph_store.specs.declared.ephemeris.Eph.{Eph};
ghost use Rattle.orbit_model.specs.Elements.{sent_at, elements_of};
ghost use Rattle.sv_orbit.specs.declared.world.World.{World};
ghost use Rattle.sv_orbit.specs.Records.{constants_of};
ghost use Rattle.sv_orbit.specs.Usable.{HasSolution};
ghost use Rattle.orbit_model.specs.Solution.{HasNearSolution};

/// A tag at most 7201 s from the ephemeris' time and a code up to 10^11 mm have a near solution, and an exact one where af2 is 0.
pub fn records_have_solutions()
    ensures near { (eph : Eph) (world : World) (tag : ℕ) (code : ℤ) →
        abs_diff tag eph.toe.0 ≤ 72010000000 → pos 0 ≤ℤ code → code ≤ℤ pos (10 ^ 11) →
        HasNearSolution (constants_of world) (elements_of eph) (sent_at tag code) }
    ensures exact { (eph : Eph) (world : World) (tag : ℕ) (code : ℤ) → abs_diff tag eph.toe.0
        ≤ 72010000000 → pos 0 ≤ℤ code → code ≤ℤ pos (10 ^ 11) → eph.af2.mant ≡ pos 0 →
        HasSolution (constants_of world) (elements_of eph) (sent_at tag code) }
{}
