//! The end of the last whole record of a text.
ghost use Rattle.std.specs.Prelude.{◌≡◌, ◌≢◌, ◌<◌, ◌≤◌, ℕ, length, slice_index, IfSome, IfNone};
ghost use Rattle.memchr.specs.Find.{IsFirstByte, is_byte};
ghost use Rattle.csv.specs.Machine.{in_field, step};
ghost use Rattle.csv.specs.Reading.{default_config};
ghost use Rattle.csv.specs.declared.parser.State.{State};
ghost use Rattle.fkv_blocks.specs.Cutting.{IsCut};
ghost use Rattle.fkv_blocks.specs.Standing.{StandsAt};

use memchr::{memchr, memrchr2};

/// Where a byte stands in a text, as far as cuts go.
#[derive(Clone, Copy, PartialEq, Eq, Debug)]
pub enum Standing {
    /// Between two records.
    Between,
    /// At the start of a field behind a comma.
    AtField,
    /// In a field without quotes.
    InField,
    /// Inside quotes.
    Quoted,
    /// Behind a quote inside quotes.
    BehindQuote,
}

/// Where the byte behind this one stands, where it begins no quotes.
fn outside(byte: u8) -> Standing
    ensures { StandsAt result (in_field default_config byte).0 }
{
    match byte {
        b',' => Standing::AtField,
        b'\r' | b'\n' => Standing::Between,
        _ => Standing::InField,
    }
}

/// Where the byte behind this one stands.
fn behind(standing: Standing, byte: u8) -> Standing
    ensures { (s : State) → StandsAt standing s → StandsAt result (step default_config s byte).0 }
{
    match standing {
        Standing::Between | Standing::AtField => {
            if byte == b'"' {
                Standing::Quoted
            } else {
                outside(byte)
            }
        }
        Standing::InField => outside(byte),
        Standing::Quoted => {
            if byte == b'"' {
                Standing::BehindQuote
            } else {
                Standing::Quoted
            }
        }
        Standing::BehindQuote => {
            if byte == b'"' {
                Standing::Quoted
            } else {
                outside(byte)
            }
        }
    }
}

/// The end of the last whole record of a text without quotes: the place behind its last line end.
fn plain_end(bytes: &[u8]) -> Option<usize>
    requires { (n : ℕ) → n < length bytes.now → slice_index bytes.now n ≢ 34 }
    ensures some { IfSome result (λ n. (0 < n) × IsCut bytes.now n) }
    ensures none { IfNone result ((n : ℕ) → 0 < n → IsCut bytes.now n → ⊥) }
{
    match memrchr2(b'\r', b'\n', bytes) {
        Some(at) => Some(at + 1),
        None => None,
    }
}

/// The same of any text, byte by byte.
fn quoted_end(bytes: &[u8]) -> Option<usize>
    ensures some { IfSome result (λ n. (0 < n) × IsCut bytes.now n) }
    ensures none { IfNone result ((n : ℕ) → 0 < n → IsCut bytes.now n → ⊥) }
{
    let mut last = 0;
    let mut standing = Standing::Between;
    for (at, byte) in bytes.iter().enumerate() {
        standing = behind(standing, *byte);
        if standing == Standing::Between {
            last = at + 1;
        }
    }
    if last == 0 {
        return None;
    }
    Some(last)
}

/// A place of a text before which stand whole records, one byte at least, so that what follows is a text of its own; none where
/// there is no such place.
pub fn record_end(bytes: &[u8]) -> Option<usize>
    ensures some { IfSome result (λ n. (0 < n) × IsCut bytes.now n) }
    ensures none { IfNone result ((n : ℕ) → 0 < n → IsCut bytes.now n → ⊥) }
{
    match memchr(b'"', bytes) {
        None => plain_end(bytes),
        Some(_) => quoted_end(bytes),
    }
}
