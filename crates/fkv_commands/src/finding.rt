//! Finding a row in its file again.
use csv::{ByteRecord, Reader, ReaderBuilder};
use fkv_feed_rows::row_of;
use fkv_feed_rows::rows::amount;
use std::alloc::Global;
use std::fs::{self, Files};
use std::io::{Read, Seek, SeekFrom};

/// The bytes of a row that are shown at most.
const SHOWN: usize = 60;

/// A record of a file that is no row.
#[derive(Drop)]
pub(crate) struct BadRow {
    /// The line of the file in which it begins, counted from 1.
    pub line: u64,
    /// Its bytes without the line end, or the first [`SHOWN`] of them.
    pub bytes: Vec<u8>,
    /// Whether it has more bytes.
    pub is_cut: bool,
    /// Whether it has two fields, the second of which is no amount.
    pub lacks_amount: bool,
}

/// Where a record of a file stands.
#[derive(Clone, Copy)]
struct RecordSpan {
    /// The line of its first byte, line ends before it included.
    line: u64,
    /// The file's bytes before it.
    start: u64,
    /// Its bytes, with the line ends before and behind it.
    length: u64,
    lacks_amount: bool,
}

/// Whether a record has two fields, the second of which is no amount.
fn lacks_amount(fields: &ByteRecord) -> bool {
    match (fields.get(1), fields.get(2)) {
        (Some(written), None) => amount(written).is_none(),
        _ => false,
    }
}

/// Where the next record stands; `None` where there is none, it is a row, or it can't be read.
fn place_of<R: Read>(reader: &mut Reader<R>, fields: &mut ByteRecord) -> Option<RecordSpan> {
    let begin = reader.position();
    match reader.read_byte_record(fields) {
        Ok(true) => {}
        _ => return None,
    }
    if row_of(fields).is_some() {
        return None;
    }
    Some(RecordSpan {
        line: begin.line(),
        start: begin.byte(),
        length: reader.position().byte().saturating_sub(begin.byte()),
        lacks_amount: lacks_amount(fields),
    })
}

/// Where the record of this number stands, counted from 1; `None` where it is a row by now.
fn place_in<R: Read + Drop>(alloc: Global, file: R, row: u64) -> Option<RecordSpan> {
    let mut reader = ReaderBuilder::new()
        .has_headers(false)
        .flexible(true)
        .from_reader(alloc, file);
    let mut fields = ByteRecord::new(alloc);
    for _ in 1..row {
        match reader.read_byte_record(&mut fields) {
            Ok(true) => {}
            _ => return None,
        }
    }
    place_of(&mut reader, &mut fields)
}

/// Whether a byte ends a line.
fn is_line_end(byte: u8) -> bool {
    byte == b'\n' || byte == b'\r'
}

/// Takes these bytes behind the others, but no line end before the first, and one more than are shown at most. `None` where there
/// is no memory.
fn take(row: &mut BadRow, bytes: &[u8]) -> Option<()> {
    for byte in bytes {
        if row.bytes.is_empty() && is_line_end(*byte) {
            row.line = row.line.saturating_add(u64::from(*byte == b'\n'));
        } else if row.bytes.len() <= SHOWN {
            row.bytes.push(*byte).ok()?;
        }
    }
    Some(())
}

/// Takes so many bytes of a file.
fn take_all<R: Read>(file: &mut R, length: u64, row: &mut BadRow) -> Option<()> {
    let mut buffer = [0u8; 512];
    let mut left = length;
    // each read gives a byte at least
    for _ in 0..length {
        if left == 0 || row.bytes.len() > SHOWN {
            break;
        }
        let room = left.min(512) as usize;
        let count = match file.read(&mut buffer[..room]) {
            Ok(0) => break,
            Ok(count) => count,
            Err(_) => return None,
        };
        take(row, &buffer[..count])?;
        left = left.saturating_sub(count as u64);
    }
    Some(())
}

/// Drops the line end behind a row, and what is more than is shown.
fn trim(row: &mut BadRow) {
    if row.bytes.len() > SHOWN {
        row.bytes.truncate(SHOWN);
        row.is_cut = true;
        return;
    }
    for _ in 0..SHOWN {
        match row.bytes.last() {
            Some(byte) if is_line_end(*byte) => {}
            _ => break,
        }
        row.bytes.pop();
    }
}

/// The record of this number in a file, counted from 1, which is no row. `None` where that can't be seen any more: where the file
/// is no regular one, whose bytes may be gone, or has changed.
pub(crate) fn bad_row<H: Files>(files: &H, alloc: Global, path: &str, row: u64) -> Option<BadRow> {
    if !fs::metadata(files, path).ok()?.is_file() {
        return None;
    }
    let place = place_in(alloc, fs::open(files, path).ok()?, row)?;
    let mut file = fs::open(files, path).ok()?;
    file.seek(SeekFrom::Start(place.start)).ok()?;
    let mut found = BadRow {
        line: place.line,
        bytes: Vec::new(alloc),
        is_cut: false,
        lacks_amount: place.lacks_amount,
    };
    take_all(&mut file, place.length, &mut found)?;
    trim(&mut found);
    Some(found)
}
