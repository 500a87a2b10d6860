//! Calls on the bytes of records, which are given in hexadecimal digits.
use crate::hex::{bytes_of, write_bytes};
use crate::lines::{Line, Subject};
use fkv_functions::{Fixed, Known, Name};
use fkv_records::{
    END, Header, Record, read_record, record_size, set_tombstone, value_offset, write_record,
    write_value,
};
use std::alloc::{AllocError, Global};

/// A key of one byte, so that a record has seven zeros at its end beside an i64.
#[derive(Clone, Copy, Debug, PartialEq, Eq)]
struct Byte(u8);

impl Known for Byte {
    ghost is_known = { λ _. Unit {0} };

    fn known(&self) {
        let _value = self.0;
    }

    fn is(&self, other: &Byte) -> bool {
        *self == *other
    }
}

impl Fixed for Byte {
    ghost use Rattle.std.specs.Prelude.{ℕ, List, ◌∷◌, [], slice_index, refl};
    ghost use Rattle.std.proofs.Common.{ap};

    const SIZE: usize = 1;

    ghost SIZE = { 1 };

    ghost codec = { record {
      is_known = λ _. Unit {0};
      bytes_of = λ b. b.0 ∷ [];
      sized = λ v h. refl;
      readable = λ v w h k e. ap (λ (bytes : List ℕ). record { 0 = slice_index bytes 0 }) e;
    } };

    fn put(&self, out: &mut [u8]) {
        out[0] = self.0;
    }

    fn take(bytes: &[u8]) -> Option<Byte> {
        Some(Byte(bytes[0]))
    }

    fn bytes_equal(&self, bytes: &[u8]) -> bool {
        bytes == [self.0].as_slice()
    }

    ghost written = { λ v h. h };
}

#[derive(Drop)]
pub struct RecordCalls {
    alloc: Global,
}

/// What bytes spell at an address: `.` no record; `=` a record that is written as these bytes; `d` one whose bytes
/// are the same but for zeros in the place of the value.
fn spelled<K: Fixed, V: Fixed>(address: u64, bytes: &[u8]) -> char {
    let mut written = [7u8; 192];
    let size = bytes.len();
    if record_size::<K, V>() != Some(size) {
        return '?';
    }
    let Ok(record) = read_record::<K, V>(address, bytes) else {
        return '.';
    };
    if record.previous >= END {
        return '?';
    }
    write_record(&record, &mut written[..size]);
    let start = 8 + K::SIZE;
    let is_front = written[..start] == bytes[..start];
    if is_front && written[start..size] == bytes[start..] {
        '='
    } else if is_front && written[start..size].iter().all(|byte| *byte == 0) {
        'd'
    } else {
        '?'
    }
}

/// Writes what bytes spell at an address, and then with each bit of theirs changed.
fn write_flips<K: Fixed, V: Fixed>(
    address: u64,
    bytes: &mut [u8],
    out: &mut String,
) -> Result<(), AllocError> {
    out.push(spelled::<K, V>(address, bytes))?;
    for at in 0..bytes.len() {
        out.push(' ')?;
        for bit in 0..8u32 {
            bytes[at] ^= 1 << bit;
            out.push(spelled::<K, V>(address, bytes))?;
            bytes[at] ^= 1 << bit;
        }
    }
    writeln!(out)
}

/// Writes what a record of a sum says.
fn write_read(address: u64, bytes: &[u8], out: &mut String) -> Result<(), AllocError> {
    if record_size::<Name, i128>() != Some(bytes.len()) {
        return writeln!(out, "Never");
    }
    let Ok(record) = read_record::<Name, i128>(address, bytes) else {
        return writeln!(out, "Damaged");
    };
    write!(out, "{} {:?} ", record.previous, record.value)?;
    if record.delta {
        write!(out, "delta ")?;
    }
    write_bytes(record.key.bytes(), out)
}

/// Writes the bytes of a record of a sum, or of a delta; a value that is no number is that of a tombstone.
fn write_written(
    previous: u64,
    key: &[u8],
    value: &str,
    delta: bool,
    out: &mut String,
) -> Result<(), AllocError> {
    let Some(key) = Name::new(key) else {
        return writeln!(out, "Never");
    };
    if previous >= END || record_size::<Name, i128>() != Some(56) {
        return writeln!(out, "Never");
    }
    let value = value.parse::<i128>().ok();
    let record = Record {
        previous,
        key,
        value,
        delta,
    };
    let mut bytes = [0xffu8; 56];
    write_record(&record, &mut bytes);
    write_bytes(&bytes, out)
}

/// Gives the bytes of a record of a sum another value, or makes them a tombstone, and writes them.
fn write_changed(bytes: &mut [u8], value: &str, out: &mut String) -> Result<(), AllocError> {
    if record_size::<Name, i128>() != Some(bytes.len()) {
        return writeln!(out, "Never");
    }
    let start = value_offset::<Name, i128>();
    match value.parse::<i128>() {
        Ok(value) => write_value::<Name, i128>(&value, &mut bytes[start..]),
        Err(_) => set_tombstone::<Name, i128>(bytes),
    }
    write_bytes(bytes, out)
}

/// Writes what the bytes of a header say, or the bytes of what they say.
fn write_header(bytes: &[u8], out: &mut String) -> Result<(), AllocError> {
    if bytes.len() != 8 {
        return writeln!(out, "Never");
    }
    match Header::from_bytes(bytes) {
        Some(header) if header.previous < END => {
            write!(out, "{header:?} ")?;
            write_bytes(&header.to_bytes(), out)
        }
        _ => writeln!(out, "None"),
    }
}

impl RecordCalls {
    pub fn new(alloc: Global) -> RecordCalls {
        RecordCalls { alloc }
    }

    /// Makes a call on records with a key and a value of one kind.
    fn call_at<K: Fixed, V: Fixed>(&self, line: &Line, out: &mut String) -> Result<(), AllocError> {
        if line.word == "size" {
            return writeln!(out, "{:?}", record_size::<K, V>());
        }
        let mut bytes = bytes_of(self.alloc, line.texts[2])?;
        write_flips::<K, V>(line.numbers[1], &mut bytes, out)
    }
}

impl Subject for RecordCalls {
    fn call(&mut self, line: &Line, out: &mut String) -> Result<(), AllocError> {
        let bytes = bytes_of(self.alloc, line.texts[1])?;
        match (line.word, line.texts[0]) {
            ("size" | "flips", "count") => self.call_at::<Name, u64>(line, out),
            ("size" | "flips", "maximum") => self.call_at::<Name, i64>(line, out),
            ("size" | "flips", "sum") => self.call_at::<Name, i128>(line, out),
            ("size" | "flips", "name") => self.call_at::<Name, Name>(line, out),
            ("size" | "flips", "byte") => self.call_at::<Byte, i64>(line, out),
            ("read", _) => write_read(line.numbers[0], &bytes, out),
            ("write", _) => write_written(line.numbers[0], &bytes, line.texts[2], false, out),
            ("delta", _) => write_written(line.numbers[0], &bytes, line.texts[2], true, out),
            ("change", value) => {
                let mut bytes = bytes;
                write_changed(&mut bytes, value, out)
            }
            ("header", _) => write_header(&bytes, out),
            _ => writeln!(out, "Never"),
        }
    }
}
