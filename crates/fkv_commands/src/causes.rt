//! What more can be said of a refusal, by looking once more at what the request names.
//!
//! A refusal is told by its own text first. What stands here is told behind it, a line more, and is found when the run is over: no
//! run carries it, and one that is done pays nothing.
ghost use Rattle.std.specs.Prelude.{◌≡◌};

use crate::escaping::Escaped;
use crate::finding::bad_row;
use crate::probing::{Why, why_unmade, why_unreadable, why_unwritten};
use crate::running::tell;
use crate::telling::SinkWriter;
use fkv_functions::Refused;
use fkv_requests::TableRequest;
use fkv_streams::Sink;
use std::alloc::Global;
use std::fs::Files;
use std::io::{self, Write};

/// What is told where memory was refused.
const LESS_MEMORY: &str =
    "fkv_cli: --memory 64M limits buckets and frames, and --dir keeps pages out of memory";

/// What is told where the first row of a feed may be a header.
const NO_HEADER: &str = "fkv_cli: a feed has no header; each line is KEY,AMOUNT";

/// A feed, by what names it.
#[derive(Clone, Copy)]
enum Named<'a> {
    Input,
    File(&'a str),
}

/// The feed of this number, counted from 1.
fn feed_of(table: &TableRequest, number: u64) -> Named<'_> {
    let Some(place) = number.checked_sub(1) else {
        return Named::Input;
    };
    let Ok(place) = usize::try_from(place) else {
        return Named::Input;
    };
    match table.paths.get(place) {
        Some(path) if path.as_str() != "-" => Named::File(path.as_str()),
        _ => Named::Input,
    }
}

/// Ends a line with a reason, if there is one.
fn tell_why<S: Sink>(why: Option<Why>, sink: &mut SinkWriter<'_, S>) -> io::Result<()> {
    match why {
        Some(why) => writeln!(sink, ": {why}"),
        None => writeln!(sink),
    }
}

/// Tells which feed can't be read, and why.
fn tell_feed<H: Files, S: Sink>(
    files: &H,
    table: &TableRequest,
    number: u64,
    sink: &mut SinkWriter<'_, S>,
) -> io::Result<()> {
    match feed_of(table, number) {
        Named::Input => writeln!(sink, "fkv_cli: feed {number} is standard input"),
        Named::File(path) => {
            let shown = Escaped(path.as_bytes());
            write!(sink, "fkv_cli: feed {number} is '{shown}'")?;
            tell_why(why_unreadable(files, path), sink)
        }
    }
}

/// Tells where a bad row stands, and its bytes.
fn tell_row<H: Files, S: Sink>(
    files: &H,
    alloc: Global,
    table: &TableRequest,
    feed: u64,
    row: u64,
    sink: &mut SinkWriter<'_, S>,
) -> io::Result<()> {
    let Named::File(path) = feed_of(table, feed) else {
        writeln!(sink, "fkv_cli: standard input, row {row}")?;
        return tell_header(row == 1, sink);
    };
    let shown = Escaped(path.as_bytes());
    match bad_row(files, alloc, path, row) {
        Some(found) => {
            let bytes = Escaped(found.bytes.as_slice());
            let more = if found.is_cut { "..." } else { "" };
            let line = found.line;
            writeln!(sink, "fkv_cli: '{shown}', line {line}: \"{bytes}{more}\"")?;
            tell_header(row == 1 && found.lacks_amount, sink)
        }
        None => writeln!(sink, "fkv_cli: '{shown}', row {row}"),
    }
}

/// Tells that a feed has no header, where one may stand.
fn tell_header<S: Sink>(may_stand: bool, sink: &mut SinkWriter<'_, S>) -> io::Result<()> {
    if may_stand {
        writeln!(sink, "{NO_HEADER}")
    } else {
        Ok(())
    }
}

/// Tells what is wrong with the folder of pages, if one is named: that it can't be made or written where the device's code is 1, why
/// the page was not written where it is 2, and else that its files were changed.
fn tell_folder<H: Files, S: Sink>(
    files: &H,
    alloc: Global,
    table: &TableRequest,
    code: u8,
    page: u64,
    sink: &mut SinkWriter<'_, S>,
) -> io::Result<()> {
    let Some(folder) = &table.folder else {
        return Ok(());
    };
    let shown = Escaped(folder.as_bytes());
    match code {
        1 => {
            write!(
                sink,
                "fkv_cli: the folder '{shown}' can't be made or written"
            )?;
            tell_why(
                why_unmade(files, alloc, folder.as_str(), &table.config),
                sink,
            )
        }
        2 => {
            write!(sink, "fkv_cli: page {page} of the folder '{shown}'")?;
            tell_why(
                why_unwritten(files, alloc, folder.as_str(), &table.config),
                sink,
            )
        }
        _ => writeln!(
            sink,
            "fkv_cli: the folder '{shown}' was changed while the run went on; is another run using it?"
        ),
    }
}

/// Tells a refusal of this table, and behind it what more can be said of it. Answers its status.
pub(crate) fn tell_with_cause<H: Files, E: Sink>(
    files: &H,
    alloc: Global,
    table: &TableRequest,
    refused: Refused,
    faults: &mut E,
) -> u8
    ensures { result ≡ 1 }
{
    let status = tell(faults, refused);
    tell_cause(files, alloc, table, refused, faults);
    status
}

/// The code of a page that was not read.
const CHANGED: u8 = 3;

/// Tells what more can be said of a refusal of this table, a line or two; nothing where nothing can. Where it can't be told, the
/// refusal stands all the same.
pub fn tell_cause<H: Files, E: Sink>(
    files: &H,
    alloc: Global,
    table: &TableRequest,
    refused: Refused,
    faults: &mut E,
) {
    let mut sink = SinkWriter { sink: faults };
    let _untold = match refused {
        Refused::Unreadable { number } => tell_feed(files, table, number, &mut sink),
        Refused::BadRow { feed, row } => tell_row(files, alloc, table, feed, row, &mut sink),
        Refused::Device { code, page } => {
            tell_folder(files, alloc, table, code, page, &mut sink)
        }
        Refused::Damaged { page } => { tell_folder(files, alloc, table, CHANGED, page, &mut sink) }
        Refused::NoMemory => writeln!(sink, "{LESS_MEMORY}"),
        _ => Ok(()),
    };
}
