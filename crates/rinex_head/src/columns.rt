//! The columns of a line.
ghost use Rattle.std.specs.Prelude.{◌≡◌, ◌+◌, ◌≤◌};
ghost use Rattle.rinex_head.specs.Columns.{column, columns};

/// The byte in a column, counted from 1; past the end of the line it is blank.
pub fn byte_in(line: &[u8], at: usize) -> u8
    requires { 1 ≤ at }
    ensures { result ≡ column line.now at }
{
    if at <= line.len() { line[at - 1] } else { b' ' }
}

/// The bytes in a number of columns from one on; those past the end of the line are blank.
pub fn field<const N: usize>(line: &[u8], first: usize) -> [u8; N]
    requires from_one { 1 ≤ first }
    requires fits { first + N ≤ 5000 }
    ensures { result ≡ columns line.now first N }
{
    let mut bytes = [b' '; N];
    for k in 0..N {
        bytes[k] = byte_in(line, first + k);
    }
    bytes
}
