//! A writer that fails.
use crate::is_used_up;
use std::alloc::Global;
use std::io::{self, Error, ErrorKind, Write};

/// Takes bytes in pieces, and fails once, after so many calls, or where it is full.
#[derive(Drop)]
pub struct Filling {
    /// What it took.
    pub text: Vec<u8>,
    /// How many bytes of it the last flush let out.
    pub out: usize,
    /// The bytes that a call takes at most.
    pub piece: usize,
    /// The bytes that it has room for.
    pub room: usize,
    /// The calls before the one that fails.
    pub calls: u64,
    /// How a write fails, or nothing where it takes no byte.
    pub kind: Option<ErrorKind>,
}

impl Filling {
    /// A writer that has room for so many bytes, and fails at no call before.
    pub fn with_room(alloc: Global, piece: usize, room: usize) -> Filling {
        Filling {
            text: Vec::new(alloc),
            out: 0,
            piece,
            room,
            calls: u64::MAX,
            kind: Some(ErrorKind::Other),
        }
    }

    /// A writer that fails so once, after so many calls.
    pub fn once(alloc: Global, piece: usize, calls: u64, kind: Option<ErrorKind>) -> Filling {
        Filling {
            calls,
            kind,
            ..Filling::with_room(alloc, piece, usize::MAX)
        }
    }
}

impl Write for Filling {
    fn write(&mut self, buf: &[u8]) -> io::Result<usize> {
        if is_used_up(&mut self.calls) {
            return match self.kind {
                Some(kind) => Err(Error::from(kind)),
                None => Ok(0),
            };
        }
        let count = buf.len().min(self.piece).min(self.room);
        if count == 0 && !buf.is_empty() {
            return Err(Error::from(ErrorKind::Other));
        }
        self.text.extend_from_slice(&buf[..count])?;
        self.room -= count;
        Ok(count)
    }

    fn flush(&mut self) -> io::Result<()> {
        if is_used_up(&mut self.calls) {
            return Err(Error::from(ErrorKind::Other));
        }
        self.out = self.text.len();
        Ok(())
    }
}
