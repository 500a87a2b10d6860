//! What bytes are written to.
ghost use Rattle.std.specs.Prelude.{◌≡◌, ◌<◌, ℕ, List, Option, Bool, true, false, length, IfOk, IfErr, OnOk};
ghost use Rattle.std.specs.Io.{WritesAtMost};
ghost use Rattle.std.specs.Io.KnownBytes.{WriteAppends, Keeps};
ghost use Rattle.fkv_streams.specs.Counting.{CountsOnly};

use crate::failures::Failures;
use fkv_functions::Refused;
use std::io::{ErrorKind, Write};

/// What bytes are written to, with a count of its failures.
pub trait Sink {
    /// The bytes that it holds, where they are known.
    ghost contents: { Self → Option (List ℕ) };

    /// Whether all that was written is out: a flush answered `Ok`, and nothing was written since.
    ghost is_out: { Self → Bool };

    /// How often it has failed, modulo 2^64: once for each failure that was told.
    ghost failures: { Self → ℕ };

    /// Writes the front of these bytes, one at least, and answers how many.
    ///
    /// # Errors
    ///
    /// `Unwritable` where it failed or takes no more. Then no byte was taken.
    fn write(&mut self, bytes: &[u8]) -> Result<usize, Refused>
        requires { 0 < length bytes.now }
        ensures some { IfOk result (λ n. 0 < n) }
        ensures bound { WritesAtMost result bytes.now }
        ensures bytes { WriteAppends (contents self.old) (contents self.new) result bytes.now }
        ensures held { is_out self.new ≡ false }
        ensures counted { CountsOnly Refused.Unwritable result (failures self.old) (failures self.new) }
        ensures only { IfErr result (λ e. e ≡ Refused.Unwritable) };

    /// Lets out what was written.
    ///
    /// # Errors
    ///
    /// `Unwritable` where it failed.
    fn flush(&mut self) -> Result<(), Refused>
        ensures bytes { Keeps (contents self.old) (contents self.new) }
        ensures out { OnOk result (is_out self.new ≡ true) }
        ensures counted { CountsOnly Refused.Unwritable result (failures self.old) (failures self.new) }
        ensures only { IfErr result (λ e. e ≡ Refused.Unwritable) };
}

/// A writer of the standard library, whose failures are counted. A write that was interrupted is made again,
/// a flush is not.
#[derive(Drop)]
pub struct CountedWriter<W> {
    writer: W,
    is_out: bool,
    failures: Failures,
}

impl<W> CountedWriter<W> {
    /// A writer that has not failed yet.
    pub fn new(writer: W) -> CountedWriter<W>
        ensures writer { result.writer ≡ writer }
        ensures none { result.failures ≡ 0 }
    {
        CountedWriter {
            writer,
            is_out: false,
            failures: Failures::new(),
        }
    }
}

impl<W: Write> Sink for CountedWriter<W> {
    ghost contents = { λ w. W.contents w.writer };

    ghost is_out = { λ w. w.is_out };

    ghost failures = { λ w. w.failures };

    fn write(&mut self, bytes: &[u8]) -> Result<usize, Refused> {
        self.is_out = false;
        for _try in 0..u64::MAX {
            match self.writer.write(bytes) {
                Ok(0) => break,
                Ok(count) => return Ok(count),
                Err(error) => {
                    if error.kind() != ErrorKind::Interrupted {
                        break;
                    }
                }
            }
        }
        self.failures.count();
        Err(Refused::Unwritable)
    }

    fn flush(&mut self) -> Result<(), Refused> {
        match self.writer.flush() {
            Ok(()) => {
                self.is_out = true;
                Ok(())
            }
            Err(_) => {
                self.failures.count();
                Err(Refused::Unwritable)
            }
        }
    }
}
