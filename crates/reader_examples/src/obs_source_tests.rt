//! Texts of either format in pieces: the first line tells the format, however the text is cut.
use crate::slow_files::Slow;
use crate::texts::{MOST, joined, with_returns};
use job_answers::ObsTaker;
use line_source::{LoadFault, load_into};
use obs_store::ObsFile;
use rinex_head::{At, TextFault, What};
use rinex_obs::read_obs;
use rinex2_obs::read_obs2;
use std::alloc::Global;
use std::test::Fail;

const LINE_3: &str =
    "     3.04           OBSERVATION DATA    M                   RINEX VERSION / TYPE";

const LINE_2: &str =
    "     2.11           OBSERVATION DATA    M (MIXED)           RINEX VERSION / TYPE";

const REST_3: &str = "
G    4 C1C L1C C2W L2W                                      SYS / # / OBS TYPES
                                                            END OF HEADER
> 2024 01 01 00 00 30.0000000  0  1
G05  22123456.789   116260123.45617";

const REST_2: &str = "
     2    C1    L1                                          # / TYPES OF OBSERV
                                                            END OF HEADER
 24  1  1  0  0 30.0000000  0  1G05
  22123456.789   116260123.45617";

// What a text gives in pieces of this length.
fn taken(alloc: Global, text: &[u8], most: usize) -> Result<Result<ObsFile, TextFault>, LoadFault> {
    let Ok(text) = text.to_vec(alloc) else {
        return Err(LoadFault::NoMemory);
    };
    let mut files = Slow::new(text, most, 10_000);
    let mut taker = ObsTaker::new(alloc);
    load_into(&mut files, "", &mut taker)?;
    Ok(taker.finish())
}

// What the reader of the format of that first line gives of a text.
fn whole(alloc: Global, first: &str, text: &str) -> Result<ObsFile, TextFault> {
    if text.len() > MOST {
        return Err(TextFault::NoMemory);
    }
    if first == LINE_3 {
        read_obs(alloc, text.as_bytes())
    } else {
        read_obs2(alloc, text.as_bytes())
    }
}

// Whether pieces of that length give this file.
fn gives(alloc: Global, text: &str, most: usize, file: &str) -> Result<bool, Fail> {
    let found = taken(alloc, text.as_bytes(), most)??;
    Ok(format!(in alloc; "{found:?}")?.as_str() == file)
}

// The number of epochs of a text, and the first length of pieces in which it isn't read as it is whole.
fn other_length(alloc: Global, first: &str, text: &str) -> Result<(usize, Option<usize>), Fail> {
    let whole = whole(alloc, first, text)?;
    let file = format!(in alloc; "{whole:?}")?;
    // 81 bytes end after the CR of the first line
    for most in [1, 7, 80, 81, 65_536] {
        if !gives(alloc, text, most, &file)? {
            return Ok((whole.epochs.len(), Some(most)));
        }
    }
    Ok((whole.epochs.len(), None))
}

// Whether the one epoch of a text is read in pieces, and of the text with CR before each LF.
fn is_read_in_pieces(alloc: Global, first: &str, rest: &str) -> Result<bool, Fail> {
    let text = joined(alloc, &[first, rest])?;
    let returns = with_returns(alloc, &text)?;
    Ok(
        other_length(alloc, first, &text)? == (1, None)
            && other_length(alloc, first, &returns)? == (1, None),
    )
}

#[test]
fn reads_either_format_in_pieces(rt: HostRuntime) -> Result<(), Fail> {
    for (first, rest) in [(LINE_3, REST_3), (LINE_2, REST_2)] {
        assert!(rt; is_read_in_pieces(rt.alloc(), first, rest)?);
    }
    Ok(())
}

// The line and the column at which a text in pieces is refused, and why, if it is.
fn place_of(alloc: Global, text: &[u8], most: usize) -> Result<Option<(u32, u32, What)>, Fail> {
    match taken(alloc, text, most)? {
        Ok(_) => Ok(None),
        Err(TextFault::Refused(At { line, column, what })) => Ok(Some((line, column, what))),
        Err(TextFault::NoMemory) => Err("no memory".into()),
    }
}

const LATE_VERSION: &str =
    "     2.99           OBSERVATION DATA    M                   RINEX VERSION / TYPE\n";

const NO_LABEL: &str =
    "     2.11           OBSERVATION DATA    M                   RINEX VERSION\n";

const GALILEO_ALONE: &str =
    "     3.04           OBSERVATION DATA    E                   RINEX VERSION / TYPE\n";

const FIRST_LINES: [(&str, (u32, u32, What)); 6] = [
    ("", (1, 1, What::ObsVersion)),
    (LATE_VERSION, (1, 1, What::ObsVersion)),
    (NO_LABEL, (1, 1, What::ObsVersion)),
    (LINE_2, (2, 1, What::NoEnd)),
    (LINE_3, (2, 1, What::NoEnd)),
    (GALILEO_ALONE, (1, 41, What::Kind)),
];

#[test]
fn tells_the_format_by_the_first_line(rt: HostRuntime) -> Result<(), Fail> {
    for row in FIRST_LINES.iter() {
        let (text, want) = *row;
        assert!(rt; place_of(rt.alloc(), text.as_bytes(), 1)? == Some(want));
    }
    Ok(())
}

const LONG: Option<(u32, u32, What)> = Some((1, 1, What::LongLine));

// A first line, what follows it, the length to which blanks fill it, and where the text is refused.
type Length = (&'static str, &'static str, usize, Option<(u32, u32, What)>);

const LENGTHS: [Length; 8] = [
    (LINE_3, REST_3, 4_096, None),
    (LINE_2, REST_2, 4_096, None),
    (LINE_3, REST_3, 4_097, LONG),
    (LINE_2, REST_2, 4_097, LONG),
    (LINE_3, REST_3, 4_098, LONG),
    (LINE_2, REST_2, 4_098, LONG),
    (LINE_3, "", 4_098, LONG),
    (LINE_2, "", 4_098, LONG),
];

// Whether a text is refused there in short and in long pieces.
fn is_refused_at(alloc: Global, row: &Length) -> Result<bool, Fail> {
    let (line, rest, length, want) = *row;
    let text = format!(in alloc; "{line:<length$}{rest}")?;
    Ok(
        place_of(alloc, text.as_bytes(), 1)? == want
            && place_of(alloc, text.as_bytes(), 4_096)? == want,
    )
}

#[test]
fn keeps_the_length_of_the_first_line(rt: HostRuntime) -> Result<(), Fail> {
    for row in LENGTHS.iter() {
        assert!(rt; is_refused_at(rt.alloc(), row)?);
    }
    Ok(())
}
