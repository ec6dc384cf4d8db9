//! The numbers that another unit or another band would change. `constants.rt` says what each is.

/// How many signals a row has: phase on L1, phase on L2, code on L1, code on L2, phase on L5, code on L5, numbered from 0
/// in this order.
pub const SIGNALS: usize = 6;

/// How many of the signals are phases, one for each band.
pub const PHASES: usize = 3;

/// The band of each signal: 0 for L1, 1 for L2, 2 for L5. The shift of a phase stands in this place.
pub const BANDS: [usize; SIGNALS] = [0, 1, 0, 1, 2, 2];

/// The wavelength of each signal in ι, and 0 for a code, which has no integer.
pub const WAVELENGTHS: [i64; SIGNALS] = [1380, 1771, 0, 0, 1848, 0];

/// The weight of each signal: that of a phase is 10,000 times that of a code.
pub const WEIGHTS: [i64; SIGNALS] = [10_000, 10_000, 1, 1, 10_000, 1];

/// The signals of the bands L1 and L2. At scale 0 all signals of a session's bands count.
pub const SIGNALS_12: [usize; 4] = [0, 1, 2, 3];

/// The signals on L1 and L5.
pub const SIGNALS_15: [usize; 4] = [0, 2, 4, 5];

/// The signals on all three bands.
pub const SIGNALS_125: [usize; SIGNALS] = [0, 1, 2, 3, 4, 5];

/// The bands of the phases among those of L1 and L2: the places of their shifts.
pub const BANDS_12: [usize; 2] = [0, 1];

/// The bands of the phases on L1 and L5.
pub const BANDS_15: [usize; 2] = [0, 2];

/// The bands of the phases on all three bands.
pub const BANDS_125: [usize; 3] = [0, 1, 2];

/// The code on L1, which alone counts at the coarse scale.
pub const COARSE_SIGNALS: [usize; 1] = [2];

/// The scale of a coarse session. That of a fine one is 0.
pub const COARSE_SCALE: u32 = 14;

/// The unit of length is ι, the distance that light travels in one period of this frequency (in Hz): 212,520 times
/// the fundamental 10.23 MHz of GPS, the least multiple of it by which the carriers on L1 (154 times it), L2 (120 times
/// it) and L5 (115 times it) have whole wavelengths: 1380 ι, 1771 ι and 1848 ι.
pub const UNIT_FREQUENCY: i64 = 2_174_079_600_000;

/// The speed of light in m/s. So one metre is `UNIT_FREQUENCY` / `LIGHT_SPEED` ι.
pub const LIGHT_SPEED: i64 = 299_792_458;

/// A row's observations are in the unit 2^(scale - 13) ι.
pub const ROW_EXPONENT: u32 = 13;

/// A row's directions are in the unit 2^-24.
pub const DIRECTION_EXPONENT: u32 = 24;

/// A move of a baseline is in the unit 2^-5 ι.
pub const MOVE_EXPONENT: u32 = 5;

/// The most free arcs of a session.
pub const MOST_FREE_ARCS: usize = 20;
