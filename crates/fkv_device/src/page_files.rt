//! Files that take and give pages.
ghost use Rattle.std.specs.Prelude.{◌≡◌, ◌*◌, ◌^◌, None, Option, Some, IsTrue, IfSome};
ghost use Rattle.fkv_device.specs.Known.{Pages, IsTaken, IsGiven};

use std::fs::File;
use std::io::{Read, Seek, SeekFrom, Write};

/// A file with a place for a page of `2^page_bits` bytes at each multiple of that.
///
/// No contract can say what a file gives back. The pages that files of a type take and give in a run may be known, as
/// the bytes of a stream may be: of what the system's own files hold nothing is known.
pub trait PageFile: Drop {
    /// The pages that files of this type take and give, where they are known.
    ghost pages: { Option Pages };

    /// Writes a page of `2^page_bits` bytes at a place, and says whether it was taken.
    fn put(&mut self, page_bits: u32, place: u64, bytes: &[u8]) -> bool
        ensures taken { IsTrue result → IsTaken pages bytes.now };

    /// Reads a page from a place, and says whether it was there.
    fn take(&mut self, page_bits: u32, place: u64, out: &mut [u8]) -> bool
        ensures given { IsTrue result → IsGiven pages out.new };
}

/// Goes to a place for a page, `place * 2^page_bits`, and says whether the file is there.
fn go_to_place<F: Seek>(file: &mut F, page_bits: u32, place: u64) -> bool
    ensures { IsTrue result → IfSome (F.stream_position file.old)
        (λ _. F.stream_position file.new ≡ Some (place * 2 ^ page_bits)) }
{
    let Some(size) = 2u64.checked_pow(page_bits) else {
        return false;
    };
    let Some(start) = place.checked_mul(size) else {
        return false;
    };
    file.seek(SeekFrom::Start(start)).is_ok()
}

/// Writes a page at a place, and says whether the file took it.
pub fn put_page<F: Write + Seek>(file: &mut F, page_bits: u32, place: u64, bytes: &[u8]) -> bool {
    go_to_place(file, page_bits, place) && file.write_all(bytes).is_ok()
}

/// Reads a page from a place, and says whether it was there.
pub fn take_page<F: Read + Seek>(file: &mut F, page_bits: u32, place: u64, out: &mut [u8]) -> bool {
    go_to_place(file, page_bits, place) && file.read_exact(out).is_ok()
}

impl PageFile for File {
    ghost pages = { None };

    fn put(&mut self, page_bits: u32, place: u64, bytes: &[u8]) -> bool {
        put_page(self, page_bits, place, bytes)
    }

    fn take(&mut self, page_bits: u32, place: u64, out: &mut [u8]) -> bool {
        take_page(self, page_bits, place, out)
    }
}
