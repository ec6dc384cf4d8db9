//! What is printed of the arcs of a session.
ghost use Rattle.std.specs.Prelude.{◌≡◌, [], ◌∷◌, ◌++◌, OnOk};
ghost use Rattle.obs_rows.specs.Ranges.{IsSystem};
ghost use Rattle.report_text.specs.ArcLines.{kind_word, arc_line, arc_lines, short_line, arcs_text};

use obs_rows::Arc;
use slip_arcs::Arcs;
use std::alloc::{AllocError, Global};

fn kind_word(datum: bool) -> &'static str
    ensures { result.now ≡ kind_word datum }
{
    if datum { "datum" } else { "free" }
}

// The letter of a system as a text.
fn system_letter(system: u8) -> &'static str
    requires { IsSystem system }
    ensures { result.now ≡ system ∷ [] }
{
    if system == b'G' { "G" } else { "E" }
}

fn write_arc(alloc: Global, out: &mut Vec<u8>, arc: &Arc, system: u8) -> Result<(), AllocError>
    requires { IsSystem system }
    ensures { OnOk result (out.new.items ≡ out.old.items ++ arc_line system arc.now) }
{
    let letter = system_letter(system);
    let tens = arc.sat / 10;
    let ones = arc.sat % 10;
    let first = arc.first;
    let last = arc.last;
    let kind = kind_word(arc.datum);
    let line = format!(in alloc; "arc {letter}{tens}{ones} {first} {last} {kind}\n")?;
    out.extend_from_slice(line.as_bytes())
}

fn write_kept(alloc: Global, out: &mut Vec<u8>, kept: &[Arc], system: u8) -> Result<(), AllocError>
    requires { IsSystem system }
    ensures { OnOk result (out.new.items ≡ out.old.items ++ arc_lines system kept.now) }
{
    for arc in kept.iter() {
        write_arc(alloc, out, arc, system)?;
    }
    Ok(())
}

fn write_short(alloc: Global, out: &mut Vec<u8>, short: u32) -> Result<(), AllocError>
    ensures { OnOk result (out.new.items ≡ out.old.items ++ short_line short) }
{
    let line = format!(in alloc; "short {short}\n")?;
    out.extend_from_slice(line.as_bytes())
}

/// Appends a line for each kept arc of satellites of a system, `G` or `E`, and how many arcs are too short. After an `Err`
/// a part of the text may have been appended.
pub fn write_arcs(
    alloc: Global,
    out: &mut Vec<u8>,
    arcs: &Arcs,
    system: u8,
) -> Result<(), AllocError>
    requires { IsSystem system }
    ensures { OnOk result
        (out.new.items ≡ out.old.items ++ arcs_text system arcs.now.kept arcs.now.short) }
{
    write_kept(alloc, out, arcs.kept.as_slice(), system)?;
    write_short(alloc, out, arcs.short)?;
    Ok(())
}
