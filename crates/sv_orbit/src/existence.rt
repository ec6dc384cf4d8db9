//! That solutions exist: of Kepler's equation where the mean anomaly follows the sine of the angle, and with it of the
//! user algorithm, so that every usable record has a satellite: the equations of its place and clock have a near solution at
//! each time of sending. And a seen place has a mean direction over each displacement. There is nothing to run: the contracts are the
//! laws.
ghost use Rattle.std.specs.Prelude.{pos};
ghost use Rattle.whole_math.specs.Rational.{Rational, ◌≈◌, of_whole};
ghost use Rattle.orbit_model.specs.Elements.{Elements, Constants};
ghost use Rattle.orbit_model.specs.SeenPlaces.{Position, difference, IsDisplacement};
ghost use Rattle.orbit_model.specs.Places.{HasLengthBetween};
ghost use Rattle.orbit_model.specs.Solution.{Quantities, IsSatelliteSolution, IsNearSolution, HasNearSolution};
ghost use Rattle.sv_orbit.specs.Directions.{HasMeanDirection};
ghost use Rattle.sv_orbit.specs.Usable.{AreUsable, HasSolution};
ghost use Rattle.sv_orbit.specs.FixedAngles.{IsSmallSlope, IsStart, HasFixedAngle};

/// Some angle with some pair is the start and the slope times its sine, exactly.
pub fn fixed_angle_exists()
    ensures { (start slope : Rational) → IsStart start → IsSmallSlope slope →
        HasFixedAngle start slope }
{}

/// A usable record has a near solution at each time of sending near its epochs. Each exact solution is a near one, and where af2
/// is 0 each near one is exact, so that the record has an exact one.
pub fn solutions_exist()
    ensures near { (world : Constants) (eph : Elements) (sent : Rational) →
        AreUsable world eph sent → HasNearSolution world eph sent }
    ensures exact { (world : Constants) (eph : Elements) (sent : Rational) →
        AreUsable world eph sent → eph.af2 ≈ of_whole (pos 0) → HasSolution world eph sent }
    ensures exact_is_near { (world : Constants) (eph : Elements) (sent : Rational)
        (q : Quantities) → IsSatelliteSolution world eph sent q → IsNearSolution world eph sent q }
    ensures near_is_exact { (world : Constants) (eph : Elements) (sent : Rational)
        (q : Quantities) → eph.af2 ≈ of_whole (pos 0) → IsNearSolution world eph sent q →
        IsSatelliteSolution world eph sent q }
{}

/// A place has a mean direction over each displacement from a point that it is 11,800 km to 45,200 km from, as each seen place is from its
/// receiver (`seen_places` of orbit_model).
pub fn mean_direction_exists()
    ensures { (seen point move : Position) →
        HasLengthBetween 11800000 45200000 (difference seen point) → IsDisplacement move →
        HasMeanDirection seen point move }
{}
