//! Bytes as two hexadecimal digits each.
use std::alloc::{AllocError, Global};

/// The value of a digit; 0 of what is none.
fn digit(text: u8) -> u8 {
    match text {
        b'0'..=b'9' => text - b'0',
        b'a'..=b'f' => text - b'a' + 10,
        _ => 0,
    }
}

/// The bytes of a text.
pub fn bytes_of(alloc: Global, text: &str) -> Result<Vec<u8>, AllocError> {
    let mut bytes = Vec::new(alloc);
    for pair in text.as_bytes().chunks_exact(2) {
        bytes.push(digit(pair[0]) << 4 | digit(pair[1]))?;
    }
    Ok(bytes)
}

/// Writes bytes as text, and a line feed.
pub fn write_bytes(bytes: &[u8], out: &mut String) -> Result<(), AllocError> {
    for byte in bytes {
        write!(out, "{byte:02x}")?;
    }
    writeln!(out)
}
