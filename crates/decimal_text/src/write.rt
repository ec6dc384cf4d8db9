//! Numbers with a point, written.
ghost use Rattle.std.specs.Prelude.{◌≡◌, ◌++◌, ◌≤◌, OnOk, OnErr};
ghost use Rattle.decimal_text.specs.Write.{fixed_text, part_text, sign_text};

use crate::digits::push_digits;
use itoa::Buffer;
use std::alloc::{AllocError, Global};

fn push_part(text: &mut Vec<u8>, number: u64, places: u32) -> Result<(), AllocError>
    requires { places ≤ 9 }
    ensures { OnOk result (text.new.items ≡ text.old.items ++ part_text places number) }
{
    if places == 0 {
        return Ok(());
    }
    text.push(b'.')?;
    push_digits(text, number, places)
}

fn push_sign(text: &mut Vec<u8>, value: i64) -> Result<(), AllocError>
    ensures { OnOk result (text.new.items ≡ text.old.items ++ sign_text value) }
{
    if value < 0 {
        text.push(b'-')?;
    }
    Ok(())
}

fn push_fixed(text: &mut Vec<u8>, value: i64, places: u32) -> Result<(), AllocError>
    requires { places ≤ 9 }
    ensures { OnOk result (text.new.items ≡ text.old.items ++ fixed_text value places) }
{
    let size = value.unsigned_abs();
    push_sign(text, value)?;
    let mut buffer = Buffer::new();
    let whole = buffer.format(size / 10u64.pow(places));
    text.extend_from_slice(whole.as_bytes())?;
    push_part(text, size, places)
}

/// Appends value/10^places with exactly `places` digits after the point, and `-` only before a value below 0. After an
/// `Err` the bytes are as before.
pub fn write_fixed(
    alloc: Global,
    out: &mut Vec<u8>,
    value: i64,
    places: u32,
) -> Result<(), AllocError>
    requires { places ≤ 9 }
    ensures written { OnOk result (out.new.items ≡ out.old.items ++ fixed_text value places) }
    ensures unchanged { OnErr result (out.new.items ≡ out.old.items) }
{
    let mut text = Vec::new(alloc);
    push_fixed(&mut text, value, places)?;
    out.extend_from_slice(&text)?;
    Ok(())
}
