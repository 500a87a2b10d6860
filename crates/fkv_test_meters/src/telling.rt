//! What is written of a run's progress, by a clock that a test sets.
use fkv_meters::{Beside, ProgressLine, ReadProgress};
use std::alloc::Global;
use std::cell::{Cell, RefCell};
use std::fmt::Display;
use std::io::{self, Error, ErrorKind, Print, Write};
use std::rt::Clock;
use std::time::Duration;

/// A clock that stands at so many milliseconds, or fails.
#[derive(Drop)]
struct Set(Cell<Option<u64>>);

impl Clock for Set {
    fn monotonic(&self) -> io::Result<Duration> {
        match self.0.get() {
            Some(millis) => Ok(Duration::from_millis(millis)),
            None => Err(Error::from(ErrorKind::Other)),
        }
    }

    fn since_1970(&self) -> io::Result<Duration> {
        self.monotonic()
    }
}

/// An output that keeps what is written, or fails.
#[derive(Drop)]
struct Paper {
    alloc: Global,
    text: RefCell<Vec<u8>>,
    is_torn: Cell<bool>,
}

impl Beside for Paper {}

impl Print for Paper {
    fn print<D: Display + Drop>(&self, value: D) -> io::Result<()> {
        let mut text = Vec::new(self.alloc);
        write!(text, "{value}")?;
        self.write_all(text.as_slice())
    }

    fn println<D: Display + Drop>(&self, value: D) -> io::Result<()> {
        let mut text = Vec::new(self.alloc);
        writeln!(text, "{value}")?;
        self.write_all(text.as_slice())
    }

    fn write_all(&self, bytes: &[u8]) -> io::Result<()> {
        match self.text.try_borrow_mut() {
            Ok(mut text) if !self.is_torn.get() => {
                text.extend_from_slice(bytes)?;
                Ok(())
            }
            _ => Err(Error::from(ErrorKind::Other)),
        }
    }
}

/// The clock's milliseconds or that it fails, whether the output fails, and what stands on the output after one line more.
type Row = (Option<u64>, bool, &'static str);

/// A clock that stands at 5,000 milliseconds when the run begins, and an output that is no terminal.
const ROWS: [Row; 12] = [
    (Some(5_000), false, ""),
    (Some(5_999), false, ""),
    (Some(6_000), false, "fkv_cli: 3 rows, 3 a second\n"),
    (Some(6_001), false, "fkv_cli: 3 rows, 3 a second\n"),
    (None, false, "fkv_cli: 3 rows, 3 a second\n"),
    (Some(4_000), false, "fkv_cli: 3 rows, 3 a second\n"),
    (Some(6_999), false, "fkv_cli: 3 rows, 3 a second\n"),
    // a line that could not be written is not made good
    (Some(7_500), true, "fkv_cli: 3 rows, 3 a second\n"),
    (Some(8_499), false, "fkv_cli: 3 rows, 3 a second\n"),
    (
        Some(8_500),
        false,
        "fkv_cli: 3 rows, 3 a second\nfkv_cli: 10 rows, 2 a second\n",
    ),
    (
        Some(9_000),
        false,
        "fkv_cli: 3 rows, 3 a second\nfkv_cli: 10 rows, 2 a second\n",
    ),
    (
        Some(60_000),
        false,
        "fkv_cli: 3 rows, 3 a second\nfkv_cli: 10 rows, 2 a second\nfkv_cli: 12 rows, 0 a second\n",
    ),
];

/// The same on a terminal: each line begins at the left, and wipes what stands behind it.
const OVER: [Row; 6] = [
    (Some(5_000), false, ""),
    (Some(5_099), false, ""),
    (Some(5_100), false, "\rfkv_cli: 3 rows, 30 a second\x1b[K"),
    (Some(5_199), false, "\rfkv_cli: 3 rows, 30 a second\x1b[K"),
    // the clock goes back
    (Some(4_000), false, "\rfkv_cli: 3 rows, 30 a second\x1b[K"),
    (
        Some(5_300),
        false,
        "\rfkv_cli: 3 rows, 30 a second\x1b[K\rfkv_cli: 6 rows, 15 a second\x1b[K",
    ),
];

/// What stands on a terminal at the end of [`OVER`].
const ENDED: &str = "\rfkv_cli: 3 rows, 30 a second\x1b[K\rfkv_cli: 6 rows, 15 a second\x1b[K\n";

/// Whether this stands on the output.
fn shows(paper: &Paper, text: &str) -> bool {
    match paper.text.try_borrow() {
        Ok(shown) => shown.as_slice() == text.as_bytes(),
        Err(_) => false,
    }
}

/// An output with nothing on it.
fn blank(alloc: Global) -> Paper {
    Paper {
        alloc,
        text: RefCell::new(Vec::new(alloc)),
        is_torn: Cell::new(false),
    }
}

/// The first row by which a hook of this clock, which has begun, does not show what it is to.
fn first_other(
    telling: &ProgressLine<'_, Set, Paper>,
    clock: &Set,
    paper: &Paper,
    rows: &[Row],
) -> Option<usize> {
    for (number, (time, is_torn, shown)) in rows.iter().enumerate() {
        clock.0.set(*time);
        paper.is_torn.set(*is_torn);
        telling.read(b"key,1\n");
        if !shows(paper, shown) {
            return Some(number);
        }
    }
    None
}

#[test]
fn a_line_a_second(rt: HostRuntime) {
    let clock = Set(Cell::new(Some(0)));
    let paper = blank(rt.alloc());
    let telling = ProgressLine::new(&clock, &paper, false);
    telling.read(b"before it begins\n");
    clock.0.set(Some(5_000));
    telling.begin();
    let other = first_other(&telling, &clock, &paper, &ROWS);
    assert!(rt; other == None, "row {other:?}");
    telling.end();
    clock.0.set(Some(99_000));
    telling.read(b"after the end\n");
    assert!(rt; shows(&paper, ROWS[11].2));
}

#[test]
fn a_line_over_the_last(rt: HostRuntime) {
    let clock = Set(Cell::new(Some(5_000)));
    let paper = blank(rt.alloc());
    let telling = ProgressLine::new(&clock, &paper, true);
    telling.end();
    telling.begin();
    let other = first_other(&telling, &clock, &paper, &OVER);
    assert!(rt; other == None, "row {other:?}");
    telling.end();
    assert!(rt; shows(&paper, ENDED));
    telling.end();
    clock.0.set(Some(9_000));
    telling.read(b"after the end\n");
    assert!(rt; shows(&paper, ENDED));
}
