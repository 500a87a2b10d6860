//! Bytes from outside as text that a terminal may be shown.
use std::fmt::{self, Display};

/// Bytes, shown so that none reaches a terminal as it is: printable ASCII stands for itself, but a backslash is written twice, a line
/// feed is `\n`, a carriage return `\r`, and any other byte `\x` with two hexadecimal digits.
#[derive(Clone, Copy, Debug)]
pub struct Escaped<'a>(pub &'a [u8]);

impl Display for Escaped<'_> {
    fn fmt<W: fmt::Write>(&self, f: &mut fmt::Formatter<W>) -> fmt::Result {
        for byte in self.0 {
            match *byte {
                b'\n' => f.write_str("\\n")?,
                b'\r' => f.write_str("\\r")?,
                b'\\' => f.write_str("\\\\")?,
                32..=126 => f.write_char(char::from(*byte))?,
                other => write!(f, "\\x{other:02x}")?,
            }
        }
        Ok(())
    }
}
