//! Epochs of observation files.
use sim_session::{Signals, Tracking, write_epoch};
use std::alloc::{AllocError, Global};

static SATELLITES: [Signals; 2] = [
    Signals {
        code: 20_183_000_123,
        l1: 106_063_114_007,
        l2: 1,
        l5: 79_287_114_237,
    },
    Signals {
        code: 0,
        l1: 9_999_999_999_999,
        l2: 507,
        l5: 20,
    },
];

// The epoch of these satellites, by an independent model.
static EPOCHS: [(Tracking, &str); 3] = [
    (
        Tracking::GpsL1L2,
        "> 2024 01 01 01 01 30.0000000  0  2\n\
        G01  20183000.123   106063114.007    20183000.123           0.001\n\
        G02         0.000  9999999999.999           0.000           0.507\n",
    ),
    (
        Tracking::GpsL1L2L5,
        "> 2024 01 01 01 01 30.0000000  0  2\n\
        G01  20183000.123   106063114.007    20183000.123           0.001    20183000.123    79287114.237\n\
        G02         0.000  9999999999.999           0.000           0.507           0.000           0.020\n",
    ),
    (
        Tracking::GalileoE1E5a,
        "> 2024 01 01 01 01 30.0000000  0  2\n\
        E01  20183000.123   106063114.007    20183000.123    79287114.237\n\
        E02         0.000  9999999999.999           0.000           0.020\n",
    ),
];

fn is_written(alloc: Global, tracking: Tracking, want: &str) -> Result<bool, AllocError> {
    let mut out = Vec::new(alloc);
    write_epoch(alloc, &mut out, tracking, 3_690, &SATELLITES)?;
    Ok(out.as_slice() == want.as_bytes())
}

#[test]
fn writes_an_epoch(rt: HostRuntime) {
    for row in EPOCHS.iter() {
        assert!(rt; matches!(is_written(rt.alloc(), row.0, row.1), Ok(true)));
    }
}
