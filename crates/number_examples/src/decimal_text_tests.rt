//! Numbers as text, and back.
ghost use Rattle.std.specs.Prelude.{◌≤◌};

use decimal_text::{Dec, NumberFault, WholeFault, read_exp, read_fixed, read_whole, write_fixed};
use std::alloc::{AllocError, Global};

const WHOLE: [(&str, Result<i128, WholeFault>); 13] = [
    ("0", Ok(0)),
    ("-7", Ok(-7)),
    ("1000000001", Ok(1_000_000_001)),
    ("10", Ok(10)),
    ("", Err(WholeFault::Spelling)),
    ("-", Err(WholeFault::Spelling)),
    ("-0", Err(WholeFault::Spelling)),
    ("05", Err(WholeFault::Spelling)),
    ("+1", Err(WholeFault::Spelling)),
    ("1 ", Err(WholeFault::Spelling)),
    ("1.0", Err(WholeFault::Spelling)),
    (
        "85070591730234615865843651857942052864",
        Err(WholeFault::Size),
    ),
    (
        "-85070591730234615865843651857942052863",
        Ok(-85_070_591_730_234_615_865_843_651_857_942_052_863),
    ),
];

#[test]
fn reads_whole_numbers(rt: HostRuntime) {
    for row in WHOLE.iter() {
        let (text, want) = *row;
        assert!(rt; read_whole(text.as_bytes()) == want);
    }
}

const FIXED: [(&str, u32, Result<i64, NumberFault>); 19] = [
    ("-.5", 1, Ok(-5)),
    ("5.", 1, Ok(50)),
    ("  +12.25  ", 3, Ok(12_250)),
    ("0", 0, Ok(0)),
    ("-0.0", 2, Ok(0)),
    ("000000000000000000000000.1", 1, Ok(1)),
    ("999999999.999999999", 9, Ok(999_999_999_999_999_999)),
    ("", 1, Err(NumberFault::Blank)),
    ("   ", 1, Err(NumberFault::Blank)),
    (".", 1, Err(NumberFault::BadChar { at: 1 })),
    ("-", 1, Err(NumberFault::BadChar { at: 1 })),
    ("1 2", 1, Err(NumberFault::BadChar { at: 2 })),
    ("1.2.3", 0, Err(NumberFault::BadChar { at: 3 })),
    ("- 1", 1, Err(NumberFault::BadChar { at: 1 })),
    ("1e5", 1, Err(NumberFault::BadChar { at: 1 })),
    (" . ", 1, Err(NumberFault::BadChar { at: 2 })),
    ("1.25", 1, Err(NumberFault::TooManyPlaces)),
    ("1000000000000000000.25", 1, Err(NumberFault::TooManyPlaces)),
    ("1000000000.0", 9, Err(NumberFault::TooLong)),
];

#[test]
fn reads_fixed_numbers(rt: HostRuntime) {
    for row in FIXED.iter() {
        let (text, places, want) = *row;
        assert!(rt; read_fixed(text.as_bytes(), places) == want);
    }
}

const EXPONENTS: [(&str, Result<Dec, NumberFault>); 22] = [
    (
        "0.515365263176D+04",
        Ok(Dec {
            mant: 515_365_263_176,
            exp: -8,
        }),
    ),
    (
        " 0.515365263176D+04",
        Ok(Dec {
            mant: 515_365_263_176,
            exp: -8,
        }),
    ),
    (
        "5.15365263176e+03",
        Ok(Dec {
            mant: 515_365_263_176,
            exp: -8,
        }),
    ),
    ("-1.0E-5  ", Ok(Dec { mant: -10, exp: -6 })),
    ("7", Ok(Dec { mant: 7, exp: 0 })),
    (".5d3", Ok(Dec { mant: 5, exp: 2 })),
    ("-0.000000000000D+00", Ok(Dec { mant: 0, exp: -12 })),
    ("5.e007", Ok(Dec { mant: 5, exp: 7 })),
    ("000000000000000000001E999", Ok(Dec { mant: 1, exp: 999 })),
    ("   ", Err(NumberFault::Blank)),
    ("1.0D+1000", Err(NumberFault::BadChar { at: 8 })),
    ("D+04", Err(NumberFault::BadChar { at: 0 })),
    ("1 D+04", Err(NumberFault::BadChar { at: 2 })),
    ("1D", Err(NumberFault::BadChar { at: 2 })),
    ("1D+", Err(NumberFault::BadChar { at: 3 })),
    ("1D+ 4", Err(NumberFault::BadChar { at: 3 })),
    ("1D+1234", Err(NumberFault::BadChar { at: 6 })),
    ("1D1D1", Err(NumberFault::BadChar { at: 3 })),
    ("1D1 1", Err(NumberFault::BadChar { at: 4 })),
    ("+1.25-1", Err(NumberFault::BadChar { at: 5 })),
    (".D1", Err(NumberFault::BadChar { at: 1 })),
    ("1000000000000000000E0", Err(NumberFault::TooLong)),
];

#[test]
fn reads_exponents(rt: HostRuntime) {
    for row in EXPONENTS.iter() {
        let (text, want) = *row;
        assert!(rt; read_exp(text.as_bytes()) == want);
    }
}

// What is written after "> ".
const WRITTEN: [(i64, u32, &str); 9] = [
    (507, 4, "> 0.0507"),
    (-5, 1, "> -0.5"),
    (0, 3, "> 0.000"),
    (304, 2, "> 3.04"),
    (-1_656_801, 1, "> -165680.1"),
    (42, 0, "> 42"),
    (-42, 0, "> -42"),
    (i64::MAX, 9, "> 9223372036.854775807"),
    (i64::MIN, 9, "> -9223372036.854775808"),
];

fn is_written(alloc: Global, value: i64, places: u32, want: &str) -> Result<bool, AllocError>
    requires { places ≤ 9 }
{
    let mut out = b"> ".to_vec(alloc)?;
    write_fixed(alloc, &mut out, value, places)?;
    Ok(out.as_slice() == want.as_bytes())
}

#[test]
fn writes_fixed_numbers(rt: HostRuntime) -> Result<(), AllocError> {
    for row in WRITTEN.iter() {
        let (value, places, want) = *row;
        assert!(rt; is_written(rt.alloc(), value, places, want)?);
    }
    Ok(())
}
