//! What bytes are read from.
ghost use Rattle.std.specs.Prelude.{◌≡◌, ◌⊎◌, ℕ, List, Option, IfErr};
ghost use Rattle.std.specs.Io.{ReadsAtMost};
ghost use Rattle.std.specs.Io.KnownBytes.{ReadConsumes};
ghost use Rattle.fkv_streams.specs.Counting.{CountsOnly};

use crate::failures::Failures;
use fkv_functions::Refused;
use std::io::{ErrorKind, Read};

/// What bytes are read from, with a count of its failures.
pub trait Source {
    /// The bytes that are still to come, where they are known.
    ghost remaining: { Self → Option (List ℕ) };

    /// How often it has failed, modulo 2^64: once for each failure that was told.
    ghost failures: { Self → ℕ };

    /// Reads into the front of `buf`, and answers how many bytes; 0 of a `buf` with room at the end alone.
    ///
    /// # Errors
    ///
    /// `NoMemory`; `Unreadable` with number 1 where it failed. Then no byte was lost.
    fn read(&mut self, buf: &mut [u8]) -> Result<usize, Refused>
        ensures bound { ReadsAtMost result buf.new }
        ensures bytes { ReadConsumes (remaining self.old) (remaining self.new) result buf.new }
        ensures counted { CountsOnly (Refused.Unreadable 1) result (failures self.old) (failures self.new) }
        ensures only { IfErr result (λ e. (e ≡ Refused.NoMemory) ⊎ (e ≡ Refused.Unreadable 1)) };
}

/// A reader of the standard library, whose failures are counted. A read that was interrupted is made again.
#[derive(Drop)]
pub struct CountedReader<R> {
    reader: R,
    failures: Failures,
}

impl<R> CountedReader<R> {
    /// A reader that has not failed yet.
    pub fn new(reader: R) -> CountedReader<R>
        ensures reader { result.reader ≡ reader }
        ensures none { result.failures ≡ 0 }
    {
        CountedReader {
            reader,
            failures: Failures::new(),
        }
    }
}

impl<R: Read> Source for CountedReader<R> {
    ghost remaining = { λ r. R.remaining r.reader };

    ghost failures = { λ r. r.failures };

    fn read(&mut self, buf: &mut [u8]) -> Result<usize, Refused> {
        for _try in 0..u64::MAX {
            match self.reader.read(buf) {
                Ok(count) => return Ok(count),
                Err(error) => match error.kind() {
                    ErrorKind::Interrupted => {}
                    ErrorKind::OutOfMemory => return Err(Refused::NoMemory),
                    _ => break,
                },
            }
        }
        self.failures.count();
        Err(Refused::Unreadable { number: 1 })
    }
}
