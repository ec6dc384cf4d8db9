//! Texts in columns.
ghost use Rattle.std.specs.Prelude.{◌≡◌, ◌≤◌, ◌++◌, replicate, OnOk};
ghost use Rattle.sim_session.specs.Columns.{right_in, fixed_in};

use decimal_text::write_fixed;
use std::alloc::{AllocError, Global};

fn push_blanks(out: &mut Vec<u8>, count: usize) -> Result<(), AllocError>
    ensures { OnOk result (out.new.items ≡ out.old.items ++ replicate count 32) }
{
    for _blank in 0..count {
        out.push(b' ')?;
    }
    Ok(())
}

#[tactic(auto, unfolding(crate::specs::Columns::right_in))]
fn push_right(out: &mut Vec<u8>, text: &[u8], width: usize) -> Result<(), AllocError>
    ensures { OnOk result (out.new.items ≡ out.old.items ++ right_in width text.now) }
{
    push_blanks(out, width.saturating_sub(text.len()))?;
    out.extend_from_slice(text)?;
    Ok(())
}

/// Appends value/10^places with `places` digits after the point, at the right end of `width` columns.
#[tactic(auto, unfolding(crate::specs::Columns::fixed_in))]
pub fn push_fixed(
    alloc: Global,
    out: &mut Vec<u8>,
    width: usize,
    value: i64,
    places: u32,
) -> Result<(), AllocError>
    requires { places ≤ 9 }
    ensures { OnOk result (out.new.items ≡ out.old.items ++ fixed_in width value places) }
{
    let mut text = Vec::new(alloc);
    write_fixed(alloc, &mut text, value, places)?;
    push_right(out, &text, width)?;
    Ok(())
}
