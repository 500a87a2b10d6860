//! A stream as a reader of the standard library, which tells whether the stream failed.
//!
//! What is lent to a reader of records comes back when that is done, but nothing is said of what it did meanwhile. So
//! a watched stream carries what must hold of it, in its type: which stream it is, and how often that has failed.
ghost use Rattle.std.specs.Prelude.{◌≡◌, ℕ, false};
ghost use Rattle.fkv_feed_rows.specs.Watching.{count_of};

use fkv_functions::Refused;
use fkv_streams::Source;
use std::io::{self, Error, ErrorKind, Read};
use std::marker::{Brand, PhantomData};

/// A stream, and its count of failures, at a moment.
pub trait Since {
    /// The name of the loan of the stream.
    ghost name: { ℕ };

    /// How often it had failed.
    ghost count: { ℕ };
}

impl Since for Brand {
    ghost name = { 0 };

    ghost count = { 0 };
}

/// A stream that is read as a reader of the standard library. Once it failed it fails.
#[derive(Drop)]
pub struct Watched<'a, S: Source, B: Since> {
    pub source: &'a mut S,
    /// Whether it failed since then.
    pub failed: bool,
    since: PhantomData<B>,
    pub ghost same: { source.ghost_name ≡ B.name },
    pub ghost counted: { S.failures source.now ≡ count_of failed B.count },
}

impl<'a, S: Source, B: Since> Watched<'a, S, B> {
    /// A stream that has not failed since this moment.
    pub fn new(source: &'a mut S) -> Watched<'a, S, B>
        requires name { source.ghost_name ≡ B.name }
        requires count { S.failures source.old ≡ B.count }
        ensures source { result.source.now ≡ source.old }
        ensures steady { result.failed ≡ false }
    {
        Watched {
            source,
            failed: false,
            since: PhantomData,
        }
    }
}

impl<S: Source, B: Since> Read for Watched<'_, S, B> {
    ghost remaining = { λ w. S.remaining w.source.now };

    fn read(&mut self, buf: &mut [u8]) -> io::Result<usize> {
        if self.failed {
            return Err(Error::from(ErrorKind::Other));
        }
        match self.source.read(buf) {
            Ok(count) => Ok(count),
            Err(Refused::NoMemory) => Err(Error::from(ErrorKind::OutOfMemory)),
            Err(_) => {
                self.failed = true;
                Err(Error::from(ErrorKind::Other))
            }
        }
    }
}
