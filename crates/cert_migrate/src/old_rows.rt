//! Rows as the first version has them.
ghost use Rattle.std.specs.Prelude.{◌^◌, All};
ghost use Rattle.obs_rows.specs.Ranges.{IsWithin};
ghost use Rattle.cert_migrate.specs.OldRanges.{IsOldRadius};

/// The observations of one arc in one pair, and the direction to its satellite. Each number is the centre of a box.
#[derive(Clone, Copy, Debug, PartialEq, Eq)]
pub struct OldRow {
    /// The number of the arc.
    pub arc: u16,
    /// Observed minus computed of the phases on L1 and L2 and of the codes on L1 and L2, in 2^-18 κ.
    pub y: [i64; 4],
    /// The radius of each y box.
    pub ry: i64,
    /// The mean direction from the point to the satellite, in 2^-24.
    pub u: [i64; 3],
    /// The radius of each u box.
    pub ru: [i64; 3],
    pub ghost y_in: { All (IsWithin (2 ^ 34)) y },
    pub ghost ry_in: { IsOldRadius ry },
    pub ghost u_in: { All (IsWithin (2 ^ 24)) u },
    pub ghost ru_in: { All IsOldRadius ru },
}
