//! Texts of several parts, and the places at which they are refused.
use rinex_head::{At, TextFault, What};
use std::alloc::{AllocError, Global};

/// The most bytes of a text that a reader takes.
pub const MOST: usize = 67_108_864;

/// These parts, one after the other.
pub fn joined(alloc: Global, parts: &[&str]) -> Result<String, AllocError> {
    let mut text = String::new(alloc);
    for part in parts {
        text.push_str(part)?;
    }
    Ok(text)
}

/// Adds these lines, each with its line feed.
pub fn push_lines(text: &mut String, lines: &[&str]) -> Result<(), AllocError> {
    for line in lines {
        text.push_str(line)?;
        text.push('\n')?;
    }
    Ok(())
}

/// The text with CR before each LF.
pub fn with_returns(alloc: Global, text: &str) -> Result<String, AllocError> {
    let mut returns = String::new(alloc);
    for c in text.chars() {
        if c == '\n' {
            returns.push('\r')?;
        }
        returns.push(c)?;
    }
    Ok(returns)
}

/// The fault of a text that is refused at this line and column, both from 1.
pub fn refused(line: u32, column: u32, what: What) -> Option<TextFault> {
    Some(TextFault::Refused(At { line, column, what }))
}
