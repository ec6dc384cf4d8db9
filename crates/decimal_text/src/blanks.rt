//! The blanks of a text.
ghost use Rattle.std.specs.Prelude.{◌≡◌, ◌≤◌, length};
ghost use Rattle.decimal_text.specs.Fixed.{is_blank, are_blank, without_blanks};

pub fn is_blank_byte(b: u8) -> bool
    ensures { result ≡ is_blank b }
{
    b == b' '
}

/// Whether each byte is blank.
pub fn all_blank(text: &[u8]) -> bool
    ensures { result ≡ are_blank text.now }
{
    let mut rest = text;
    while let [b, after @ ..] = rest {
        if !is_blank_byte(*b) {
            return false;
        }
        rest = after;
    }
    true
}

/// The text without the blanks at its start.
pub fn without_blanks(text: &[u8]) -> &[u8]
    ensures value { result.now ≡ without_blanks text.now }
    ensures shorter { length result.now ≤ length text.now }
{
    let mut rest = text;
    while let [b, after @ ..] = rest {
        if !is_blank_byte(*b) {
            return rest;
        }
        rest = after;
    }
    rest
}
