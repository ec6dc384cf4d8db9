//! Texts in pieces: the answer is that of the whole text, however it is cut.
use crate::slow_files::Slow;
use crate::texts::{MOST, refused, with_returns};
use line_source::{LoadFault, load_into};
use obs_store::ObsFile;
use rinex_head::What;
use rinex_obs::{ObsFault, ObsFeed, read_obs};
use std::alloc::Global;
use std::test::Fail;

const TEXT: &str = "     3.04           OBSERVATION DATA    M                   RINEX VERSION / TYPE
  6378137.0000        0.0000        0.0000                  APPROX POSITION XYZ
G   14 C1C L1C C2W L2W C5Q L5Q C1W L1W C2X L2X C5X L5X S1C  SYS / # / OBS TYPES
x                                                           COMMENT
       S2W                                                  SYS / # / OBS TYPES
                                                            END OF HEADER
> 2024 01 01 00 00  0.0000000  0  3
G05  22123456.789 7 116260123.45617                         0.000
R01 x
G07  22123456.789
> 2024 01 01 00 00  0.0000000  4  2
x                                                           COMMENT


> 2024 01 01 00 00 30.0000000  1  1
G08  22123456.789";

// What a text gives in pieces of this length, where the first `reads` calls don't fail.
fn fed(
    alloc: Global,
    text: &[u8],
    most: usize,
    reads: u64,
) -> Result<Result<ObsFile, ObsFault>, LoadFault> {
    let Ok(text) = text.to_vec(alloc) else {
        return Err(LoadFault::NoMemory);
    };
    let mut files = Slow::new(text, most, reads);
    let mut feed = ObsFeed::new(alloc);
    load_into(&mut files, "", &mut feed)?;
    Ok(feed.finish())
}

// Whether pieces of that length give this file.
fn gives(alloc: Global, text: &str, most: usize, file: &str) -> Result<bool, Fail> {
    let found = fed(alloc, text.as_bytes(), most, 10_000)??;
    Ok(format!(in alloc; "{found:?}")?.as_str() == file)
}

// The number of epochs of a text, and the first length of pieces in which it isn't read as it is whole.
fn other_length(alloc: Global, text: &str) -> Result<(usize, Option<usize>), Fail> {
    if text.len() > MOST {
        return Ok((0, None));
    }
    let whole = read_obs(alloc, text.as_bytes())?;
    let file = format!(in alloc; "{whole:?}")?;
    // 81 bytes end after the CR of the first line
    for most in [1, 7, 81, 65_536] {
        if !gives(alloc, text, most, &file)? {
            return Ok((whole.epochs.len(), Some(most)));
        }
    }
    Ok((whole.epochs.len(), None))
}

#[test]
fn gives_the_same_in_pieces(rt: HostRuntime) -> Result<(), Fail> {
    let returns = with_returns(rt.alloc(), TEXT)?;
    assert!(rt; other_length(rt.alloc(), TEXT)? == (2, None));
    assert!(rt; other_length(rt.alloc(), &returns)? == (2, None));
    Ok(())
}

#[test]
fn drops_what_follows_a_refusal(rt: HostRuntime) -> Result<(), Fail> {
    let alloc = rt.alloc();
    let bad = b"x\ny\nz".as_slice();
    assert!(rt; fed(alloc, bad, 2, 4)?.err() == refused(1, 1, What::ObsVersion));
    assert!(rt; fed(alloc, bad, 2, 2).err() == Some(LoadFault::ReadFault));
    Ok(())
}
