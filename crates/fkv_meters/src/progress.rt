//! What is told how far a run is.
ghost use Rattle.std.specs.Prelude.{◌≡◌, ◌==◌, ◌+◌, ◌-◌, ◌*◌, ◌/◌, ◌^◌, ◌≤◌, ◌↔◌, IsTrue, count_by, max, min};

use std::io::Print;
use std::rt::{Clock, Stderr};
use std::sync::atomic::{AtomicBool, AtomicU64, Ordering};

/// The milliseconds that pass at least between two lines.
const PAUSE: u64 = 1_000;

/// The same where a line is written over the last.
const SHORT_PAUSE: u64 = 100;

/// Is told what was read. Several threads may tell it.
pub trait ReadProgress {
    /// From now on it is to tell how far a run is.
    fn begin(&self);

    /// These bytes were read. Of two threads, the one that read first may tell it later.
    fn read(&self, bytes: &[u8]);

    /// The run has read its feeds: from now on nothing is to be told, and a line that was begun is to be ended.
    fn end(&self);
}

/// An output beside that of what a run makes, to which may go how far the run is. Standard output is none.
pub trait Beside: Print {}

impl Beside for Stderr {}

/// Tells nothing.
#[derive(Clone, Copy, Debug, Default)]
pub struct Silent;

impl ReadProgress for Silent {
    fn begin(&self) {}

    fn read(&self, _bytes: &[u8]) {}

    fn end(&self) {}
}

/// Once it has begun, counts line ends and writes `fkv_cli: N rows, R a second` at most once a second, and not in the first
/// second; on a terminal it writes each line over the last, at most ten times a second, and ends the line at the end. The rate is
/// that since the last line. Where the clock or the output fails, nothing is written: that is no reason to stop. The count is kept
/// modulo 2^64.
#[derive(Drop)]
pub struct ProgressLine<'a, C, E> {
    clock: &'a C,
    output: &'a E,
    /// Whether each line is written over the last.
    is_terminal: bool,
    has_begun: AtomicBool,
    /// Whether a line stands that is not ended.
    is_open: AtomicBool,
    lines: AtomicU64,
    /// The line ends that were told of last.
    told: AtomicU64,
    /// The milliseconds of the clock at the last line, or at the beginning.
    last: AtomicU64,
}

/// The milliseconds of a clock, or `None` where it fails.
fn millis<C: Clock>(clock: &C) -> Option<u64> {
    match clock.monotonic() {
        Ok(time) => u64::try_from(time.as_millis()).ok(),
        Err(_) => None,
    }
}

/// Whether so many milliseconds have passed between two moments, in milliseconds.
fn is_due(last: u64, now: u64, pause: u64) -> bool
    ensures { IsTrue result ↔ (last + pause ≤ now) }
{
    match now.checked_sub(last) {
        Some(passed) => passed >= pause,
        None => false,
    }
}

/// How many rows a second so many in so many milliseconds are, rounded down; no time counts as a millisecond.
fn rate(rows: u64, millis: u64) -> u64
    ensures { result ≡ min (rows * 1000 / max millis 1) (2 ^ 64 - 1) }
{
    let rate = u128::from(rows) * 1_000 / u128::from(millis.max(1));
    u64::try_from(rate).unwrap_or(u64::MAX)
}

/// How many line ends these bytes have.
pub(crate) fn line_ends(bytes: &[u8]) -> u64
    ensures { result ≡ count_by (λ byte. byte == 10) bytes.now }
{
    bytes.iter().filter(|byte| **byte == b'\n').count() as u64
}

impl<'a, C: Clock, E: Beside> ProgressLine<'a, C, E> {
    /// Is to tell on this output, which is a terminal or not, by this clock. It has not begun.
    pub fn new(clock: &'a C, output: &'a E, is_terminal: bool) -> ProgressLine<'a, C, E> {
        ProgressLine {
            clock,
            output,
            is_terminal,
            has_begun: AtomicBool::new(false),
            is_open: AtomicBool::new(false),
            lines: AtomicU64::new(0),
            told: AtomicU64::new(0),
            last: AtomicU64::new(0),
        }
    }

    /// Tells how many lines were read, where the time has come.
    fn tell(&self, lines: u64) {
        let Some(now) = millis(self.clock) else {
            return;
        };
        let last = self.last.load(Ordering::SeqCst);
        let pause = if self.is_terminal { SHORT_PAUSE } else { PAUSE };
        if !is_due(last, now, pause) {
            return;
        }
        // of threads that come here at once, one goes on
        let claimed = self
            .last
            .compare_exchange(last, now, Ordering::SeqCst, Ordering::SeqCst);
        if claimed.is_ok() {
            let told = self.told.swap(lines, Ordering::SeqCst);
            let rate = rate(lines.saturating_sub(told), now.saturating_sub(last));
            self.write(lines, rate);
        }
    }

    /// Writes a line.
    fn write(&self, rows: u64, rate: u64) {
        if self.is_terminal {
            self.is_open.store(true, Ordering::SeqCst);
            let _untold = print!(self.output; "\rfkv_cli: {rows} rows, {rate} a second\x1b[K");
        } else {
            let _untold = println!(self.output; "fkv_cli: {rows} rows, {rate} a second");
        }
    }
}

impl<'a, C: Clock, E: Beside> ReadProgress for ProgressLine<'a, C, E> {
    fn begin(&self) {
        self.last
            .store(millis(self.clock).unwrap_or(0), Ordering::SeqCst);
        self.has_begun.store(true, Ordering::SeqCst);
    }

    fn read(&self, bytes: &[u8]) {
        if bytes.is_empty() || !self.has_begun.load(Ordering::SeqCst) {
            return;
        }
        let more = line_ends(bytes);
        let before = self.lines.fetch_add(more, Ordering::SeqCst);
        self.tell(before.wrapping_add(more));
    }

    fn end(&self) {
        self.has_begun.store(false, Ordering::SeqCst);
        if self.is_open.swap(false, Ordering::SeqCst) {
            let _untold = print!(self.output; "\n");
        }
    }
}
