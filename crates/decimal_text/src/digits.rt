//! The last digits of a number, written.
ghost use Rattle.std.specs.Prelude.{◌≡◌, ◌++◌, ◌≤◌, OnOk};
ghost use Rattle.decimal_text.specs.Write.{last_digits};

use std::alloc::AllocError;

/// Appends the last `count` decimal digits of a number, with zeros before a shorter one. After an `Err` it
/// ran out of memory, and some of the digits may stand at the end of the text.
pub fn push_digits(text: &mut Vec<u8>, number: u64, count: u32) -> Result<(), AllocError>
    requires { count ≤ 20 }
    ensures { OnOk result (text.new.items ≡ text.old.items ++ last_digits count number) }
{
    let mut left = count;
    while left > 0 {
        left -= 1;
        let digit = number / 10u64.pow(left) % 10;
        text.push(b'0' + digit as u8)?;
    }
    Ok(())
}
