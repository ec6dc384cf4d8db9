//! Certificates, in parts, and what is made of their lines.
use cert_text::{Cert, read_cert};
use line_source::MAX_FILE;
use std::alloc::{AllocError, Global};

fn push_lines(text: &mut String, lines: &[&str]) -> Result<(), AllocError> {
    for line in lines {
        text.push_str(line)?;
        text.push('\n')?;
    }
    Ok(())
}

// The text of these lines.
pub(crate) fn text_of(alloc: Global, parts: &[&[&str]]) -> Result<String, AllocError> {
    let mut text = String::new(alloc);
    for lines in parts {
        push_lines(&mut text, *lines)?;
    }
    Ok(text)
}

// The text of the lines of two parts.
pub(crate) fn text_of_both(
    alloc: Global,
    front: &[&str],
    back: &[&str],
) -> Result<String, AllocError> {
    let mut text = String::new(alloc);
    push_lines(&mut text, front)?;
    push_lines(&mut text, back)?;
    Ok(text)
}

// The certificate of a text, if it is one.
pub(crate) fn cert_of(alloc: Global, text: &str) -> Option<Cert> {
    if text.len() > MAX_FILE {
        return None;
    }
    read_cert(alloc, text.as_bytes()).ok()
}

// Six epochs of five satellites, between the line of the budget and that of the values.
pub(crate) const SESSION: [&str; 50] = [
    "system G",
    "base 63781370000 0 0",
    "point 63779713226 9436069 -6594995",
    "signals 12 C W",
    "arcs 5",
    "arc 1 0 5 datum -352426 -269348",
    "arc 2 0 5 free 383694 -572712",
    "arc 3 0 5 free -414053 597662",
    "arc 4 0 5 free -240734 374034",
    "arc 5 0 5 free -827563 907918",
    "pairs 6",
    "pair 0 13881024000000000 -1350777 5",
    "row 0 -28076 -16017 -1200 -1200 1 -16772894 380786 -389 8 8 8",
    "row 1 -81115 -91667 -101560 -101560 1 -7929348 -9356320 -11448131 7 7 7",
    "row 2 -123928 -123362 -140429 -140429 1 -7531794 9738202 11398003 7 7 7",
    "row 3 -71729 -72671 -90230 -90230 1 -8711909 8406332 -11615128 7 7 7",
    "row 4 -112754 -113696 -134446 -134446 1 -9034159 -7952871 11688062 7 7 7",
    "pair 1 13881024300000000 -1350777 5",
    "row 0 -32331 -15562 1962 1962 1 -16772867 373566 -79716 8 8 8",
    "row 1 -93736 -83561 -75833 -75833 1 -7879504 -9349420 -11488113 7 7 7",
    "row 2 -127490 -115620 -165636 -165636 1 -7581033 9746853 11357894 7 7 7",
    "row 3 -82856 -81537 -77400 -77400 1 -8693294 8362158 -11660871 7 7 7",
    "row 4 -125403 -112591 -85725 -85725 1 -9054648 -7996749 11642179 7 7 7",
    "pair 2 13881024600000000 -1350782 5",
    "row 0 21477 19216 3553 3553 1 -16772462 366338 -159040 8 8 8",
    "row 1 -48276 -47899 -15547 -15547 1 -7829533 -9342564 -11527787 7 7 7",
    "row 2 -86566 -92218 -83382 -83382 1 -7630141 9755541 11317479 7 7 7",
    "row 3 -28280 -25830 2877 2877 1 -8674677 8317817 -11706361 7 7 7",
    "row 4 -69887 -84207 -86515 -86515 1 -9075127 -8040458 11596037 7 7 7",
    "pair 3 13881024900000000 -1350783 5",
    "row 0 24396 24585 -753 -753 1 -16771679 359101 -238359 8 8 8",
    "row 1 -38263 -41089 -51026 -51026 1 -7779437 -9335754 -11567153 7 7 7",
    "row 2 -81013 -78187 -81036 -81036 1 -7679117 9764266 11276757 7 7 7",
    "row 3 -29442 -25297 -44435 -44435 1 -8656058 8273308 -11751596 7 7 7",
    "row 4 -66080 -59674 -33249 -33249 1 -9095594 -8083998 11549637 7 7 7",
    "pair 4 13881025200000000 -1350780 5",
    "row 0 -2290 -3986 -977 -977 1 -16770518 351853 -317669 8 8 8",
    "row 1 -60943 -60378 -60702 -60702 1 -7729218 -9328991 -11606209 7 7 7",
    "row 2 -94295 -97309 -93958 -93958 1 -7727957 9773026 11235729 7 7 7",
    "row 3 -54948 -53440 -43633 -43633 1 -8637439 8228633 -11796577 7 7 7",
    "row 4 -92265 -97917 -45633 -45633 1 -9116048 -8127368 11502980 7 7 7",
    "pair 5 13881025500000000 -1350779 5",
    "row 0 -10778 -7386 2581 2581 1 -16768979 344595 -396969 8 8 8",
    "row 1 -75776 -68428 -111544 -111544 1 -7678876 -9322276 -11644956 7 7 7",
    "row 2 -105882 -109650 -127113 -127113 1 -7776662 9781821 11194395 7 7 7",
    "row 3 -58188 -49144 -66924 -66924 1 -8618821 8183792 -11841302 7 7 7",
    "row 4 -100148 -107119 -75376 -75376 1 -9136487 -8170567 11456065 7 7 7",
    "z1 0 0 0 0 0 0 0 0",
    "z2 -5 -4 4 3 4 3 -5 -4",
    "move -594 18 -117",
];

// Two satellites in one pair, before the rows.
pub(crate) const SMALL: [&str; 9] = [
    "system G",
    "base 63781370000 0 0",
    "point 63781370000 0 0",
    "signals 12 C W",
    "arcs 2",
    "arc 3 0 0 datum 0 0",
    "arc 5 0 0 free 0 0",
    "pairs 1",
    "pair 0 13881024000000000 0 2",
];

pub(crate) const NOTHING: [&str; 3] = [
    "row 0 0 0 0 0 0 0 0 0 0 0 0",
    "row 1 0 0 0 0 0 0 0 0 0 0 0",
    "declined weak fine 0 -6",
];
