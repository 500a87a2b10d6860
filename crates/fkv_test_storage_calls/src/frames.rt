//! Calls on frames of 256 bytes.
use crate::lines::{Line, Subject};
use fkv_frames::Frames;
use fkv_functions::Refused;
use std::alloc::{AllocError, Global};

#[derive(Drop)]
pub struct FrameCalls {
    frames: Frames,
}

impl FrameCalls {
    /// So many frames, one at least.
    pub fn new(alloc: Global, count: u64) -> Option<FrameCalls> {
        if count == 0 {
            return None;
        }
        let made = match Frames::new(alloc, 8, count) {
            Err(Refused::NoMemory) => Frames::new(alloc, 8, count),
            made => made,
        };
        match made {
            Ok(frames) => Some(FrameCalls { frames }),
            Err(_) => None,
        }
    }

    /// Writes so many bytes at an offset of a page, by their address or by their page, where there is room for them.
    fn write(&mut self, line: &Line) -> bool {
        let [page, offset, byte, count, _] = line.numbers;
        let is_room = offset < 256 && count <= 64 && offset + count <= 256;
        if !is_room || page >= 1 << 40 || !self.frames.holds(page) {
            return false;
        }
        if self.frames.bytes(page).len() != 256 {
            return false;
        }
        let bytes = [(byte % 256) as u8; 64];
        if line.word == "write_at" {
            self.frames
                .write_at(page * 256 + offset, &bytes[..count as usize]);
        } else {
            self.frames
                .write_in(page, offset as usize, &bytes[..count as usize]);
        }
        true
    }
}

/// Writes how often each byte stands in a row.
fn write_runs(bytes: &[u8], out: &mut String) -> Result<(), AllocError> {
    let mut rest = bytes;
    for _ in 0..bytes.len() {
        let Some(byte) = rest.first().copied() else {
            break;
        };
        let count = rest.iter().take_while(|next| **next == byte).count();
        write!(out, "{count}x{byte} ")?;
        rest = rest.get(count..).unwrap_or(&[]);
    }
    writeln!(out)
}

impl Subject for FrameCalls {
    fn call(&mut self, line: &Line, out: &mut String) -> Result<(), AllocError> {
        let page = line.numbers[0];
        match line.word {
            "open" => self.frames.open_page(page),
            "show" if self.frames.holds(page) => return write_runs(self.frames.bytes(page), out),
            "write_at" | "write_in" if self.write(line) => (),
            _ => return writeln!(out, "Never"),
        }
        writeln!(out, "Done")
    }
}
