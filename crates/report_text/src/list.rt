//! What is listed of an observation file.
ghost use Rattle.std.specs.Prelude.{◌≡◌, ◌++◌, OnOk};
ghost use Rattle.obs_store.specs.Epochs.{last_tag_of};
ghost use Rattle.obs_store.specs.Seen.{seen_in};
ghost use Rattle.report_text.specs.List.{version_line, epochs_line, first_tag_of, tag_lines, satellite_line, satellite_lines, list_text};

use gps_time::Tick;
use obs_store::{Epochs, ObsFile};
use std::alloc::{AllocError, Global};

fn write_version(alloc: Global, out: &mut Vec<u8>, hundredths: u16) -> Result<(), AllocError>
    ensures { OnOk result (out.new.items ≡ out.old.items ++ version_line hundredths) }
{
    let whole = hundredths / 100;
    let tenths = hundredths % 100 / 10;
    let last = hundredths % 10;
    let line = format!(in alloc; "version {whole}.{tenths}{last}\n")?;
    out.extend_from_slice(line.as_bytes())
}

fn write_count(alloc: Global, out: &mut Vec<u8>, count: usize) -> Result<(), AllocError>
    ensures { OnOk result (out.new.items ≡ out.old.items ++ epochs_line count) }
{
    let line = format!(in alloc; "epochs {count}\n")?;
    out.extend_from_slice(line.as_bytes())
}

fn first_tag(epochs: &Epochs) -> Option<Tick>
    ensures { result ≡ first_tag_of epochs.now }
{
    match epochs.as_slice() {
        [] => None,
        [first, ..] => Some(first.tag),
    }
}

fn write_tags(alloc: Global, out: &mut Vec<u8>, epochs: &Epochs) -> Result<(), AllocError>
    ensures { OnOk result (out.new.items
        ≡ out.old.items ++ tag_lines (first_tag_of epochs.now) (last_tag_of epochs.now)) }
{
    let Some(first) = first_tag(epochs) else {
        return Ok(());
    };
    let Some(last) = epochs.last_tag() else {
        return Ok(());
    };
    let first = first.0;
    let last = last.0;
    let lines = format!(in alloc; "first {first}\nlast {last}\n")?;
    out.extend_from_slice(lines.as_bytes())
}

fn write_satellite(
    alloc: Global,
    out: &mut Vec<u8>,
    number: u8,
    count: u32,
) -> Result<(), AllocError>
    ensures { OnOk result (out.new.items ≡ out.old.items ++ satellite_line number count) }
{
    let tens = number / 10;
    let ones = number % 10;
    let line = format!(in alloc; "G{tens}{ones} {count}\n")?;
    out.extend_from_slice(line.as_bytes())
}

fn write_satellites(alloc: Global, out: &mut Vec<u8>, file: &ObsFile) -> Result<(), AllocError>
    ensures { OnOk result
        (out.new.items ≡ out.old.items ++ satellite_lines (seen_in file.now.epochs)) }
{
    let seen = file.seen(alloc)?;
    for (number, count) in seen.iter() {
        write_satellite(alloc, out, *number, *count)?;
    }
    Ok(())
}

/// Appends what is listed of an observation file: its version, its number of epochs, the first and the last tag in ticks
/// where there are epochs, and each satellite with its number of epochs, in the order in which they are seen first.
/// After an `Err` a part of the text may have been appended.
pub fn write_list(alloc: Global, out: &mut Vec<u8>, file: &ObsFile) -> Result<(), AllocError>
    ensures { OnOk result (out.new.items ≡ out.old.items ++ list_text file.now) }
{
    write_version(alloc, out, file.hundredths)?;
    write_count(alloc, out, file.epochs.len())?;
    write_tags(alloc, out, &file.epochs)?;
    write_satellites(alloc, out, file)?;
    Ok(())
}
