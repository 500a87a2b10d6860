//! Texts that are written as they are formatted, with no memory of their own.
use fkv_streams::Sink;
use std::io::{self, Error, ErrorKind, Write};

/// A sink as a writer of the standard library. Nothing is said of what it takes: a text that must be known is made
/// first, and written out then.
#[derive(Drop)]
pub struct SinkWriter<'a, S> {
    pub sink: &'a mut S,
}

impl<S: Sink> Write for SinkWriter<'_, S> {
    fn write(&mut self, bytes: &[u8]) -> io::Result<usize> {
        if bytes.is_empty() {
            return Ok(0);
        }
        match self.sink.write(bytes) {
            Ok(count) => Ok(count),
            Err(_) => Err(Error::from(ErrorKind::Other)),
        }
    }

    fn flush(&mut self) -> io::Result<()> {
        match self.sink.flush() {
            Ok(()) => Ok(()),
            Err(_) => Err(Error::from(ErrorKind::Other)),
        }
    }
}
