//! A number between bounds.
ghost use Rattle.std.specs.Prelude.{◌^◌, ◌≤◌, pos, ◌≤ℤ◌, unsigned_abs};
ghost use Rattle.obs_rows.specs.declared.units.TheConstants.{DIRECTION_EXPONENT};

/// A number between bounds that are given by their middle, in the unit of a row's directions, 2^-24: from `centre` − `radius` to `centre` + `radius`.
#[derive(Clone, Copy, Debug)]
pub struct Spread {
    pub centre: i64,
    pub radius: i64,
    pub ghost centre_in: { unsigned_abs centre ≤ 2 ^ DIRECTION_EXPONENT },
    pub ghost radius_least: { pos 0 ≤ℤ radius },
    pub ghost radius_most: { radius ≤ℤ pos 32 },
}
