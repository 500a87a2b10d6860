//! A reader that fails.
use crate::is_used_up;
use std::io::{self, Error, ErrorKind, Read};

/// Gives a text in pieces, and fails after so many calls.
#[derive(Drop)]
pub struct Breaking<'a> {
    pub text: &'a [u8],
    /// The bytes that a call gives at most.
    pub piece: usize,
    /// The calls before the one that fails.
    pub calls: u64,
    pub kind: ErrorKind,
    /// Whether each call after the one that fails does so too.
    pub is_broken: bool,
    pub is_ended: bool,
}

impl<'a> Breaking<'a> {
    /// A reader that fails at each call after so many.
    pub fn new(text: &'a [u8], piece: usize, calls: u64) -> Breaking<'a> {
        Breaking {
            text,
            piece,
            calls,
            kind: ErrorKind::Other,
            is_broken: true,
            is_ended: false,
        }
    }

    /// A reader that fails so once, after so many calls.
    pub fn once(text: &'a [u8], piece: usize, calls: u64, kind: ErrorKind) -> Breaking<'a> {
        Breaking {
            kind,
            is_broken: false,
            ..Breaking::new(text, piece, calls)
        }
    }
}

impl Read for Breaking<'_> {
    fn read(&mut self, buf: &mut [u8]) -> io::Result<usize> {
        if self.is_ended {
            return Ok(0);
        }
        if is_used_up(&mut self.calls) {
            if self.is_broken {
                self.calls = 0;
            }
            return Err(Error::from(self.kind));
        }
        self.is_ended = self.text.is_empty();
        let count = buf.len().min(self.text.len()).min(self.piece);
        let (given, rest) = self.text.split_at(count);
        buf[..count].copy_from_slice(given);
        self.text = rest;
        Ok(count)
    }
}
