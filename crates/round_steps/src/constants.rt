//! What the limits of rounds are, as the contract of a function that does nothing.
ghost use Rattle.std.specs.Prelude.{◌≡◌, ◌*◌, ◌+ℤ◌, ◌*ℤ◌, ◌^◌, ◌<◌, ◌≤◌, ℕ, ℤ, pos};
ghost use Rattle.whole_math.specs.Rounding.{nearest_div};
ghost use Rattle.obs_rows.specs.declared.units.TheConstants.{UNIT_FREQUENCY, MOVE_EXPONENT, COARSE_SCALE};
ghost use Rattle.round_steps.specs.Limits.{limit};
ghost use Rattle.cert_data.specs.Moves.{parts};
ghost use Rattle.round_steps.specs.Points.{moved_coordinate};
ghost use Rattle.round_steps.specs.Runs.{most_rounds};

/// This project's limits of a settled round, and the unit in which a point moves.
pub fn limits_law()
    // 1 mm in 2^-5 ι, rounded
    ensures millimetre { (column : ℕ) → column < 3 → pos (limit 0 column)
        ≡ nearest_div (UNIT_FREQUENCY *ℤ pos (2 ^ MOVE_EXPONENT)) (1000 * 299_792_458) }
    // three quarters of a cycle in 2^-16 of it
    ensures cycles { (column : ℕ) → 3 ≤ column → 4 * limit 0 column ≡ 3 * 2 ^ 16 }
    // nearly 3.25 m in 2^9 ι
    ensures coarse { (column : ℕ) → limit COARSE_SCALE column ≡ 46 }
    // f · 2^scale in 2^-5 ι, taken to 0.1 mm
    ensures moves { (scale : ℕ) (p f : ℤ) →
        moved_coordinate scale p f ≡ p +ℤ nearest_div (f *ℤ pos (2 ^ scale * 299_792_458)) parts }
    // 232 in 2^-5 ι are 1 mm, and 1 in 2^9 ι is 7 cm
    ensures a_millimetre { (p : ℤ) → moved_coordinate 0 p (pos 232) ≡ p +ℤ pos 10 }
    ensures a_coarse_unit { (p : ℤ) → moved_coordinate COARSE_SCALE p (pos 1) ≡ p +ℤ pos 706 }
    ensures parts { parts * 10 ^ 4 ≡ 2_174_079_600_000 * 2 ^ 5 }
    // at most ten rounds are coarse, and at most six fine
    ensures coarse_rounds { most_rounds COARSE_SCALE ≡ 10 }
    ensures fine_rounds { most_rounds 0 ≡ 6 }
{}
