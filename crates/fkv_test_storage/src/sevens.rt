//! A file of which it is known what it takes and gives: a type that meets what is asked of files whose pages are known.
ghost use Rattle.std.specs.Prelude.{◌≡◌, ◌⊎◌, ◌∷◌, [], Some, IsTrue, IfOk};
ghost use Rattle.fkv_test_storage.specs.Sevens.{sevens, eights};

use fkv_device::page_files::{put_page, take_page};
use fkv_device::{
    FileReader, FileReceipt, FileWriter, Page, PageFile, PageReader, PageWriter, Receipt,
};
use fkv_functions::Refused;
use std::io;
use std::io::{Error, ErrorKind, Read, Seek, SeekFrom, Write};

/// A file of pages of 64 sevens, which moves ten bytes at a time and fails once, after so many calls. Where somebody else has changed
/// it, it has eights.
#[derive(Drop)]
pub struct Sevens {
    left: u64,
    byte: u8,
}

impl Sevens {
    /// A file of sevens, whose call after so many fails.
    pub fn new(left: u64) -> Sevens {
        Sevens { left, byte: 7 }
    }

    /// The same file, where somebody has written eights.
    pub fn changed(left: u64) -> Sevens {
        Sevens { left, byte: 8 }
    }

    fn call(&mut self) -> io::Result<()> {
        let (left, fails) = self.left.overflowing_sub(1);
        self.left = left;
        if fails {
            return Err(Error::from(ErrorKind::Other));
        }
        Ok(())
    }
}

impl Read for Sevens {
    fn read(&mut self, buf: &mut [u8]) -> io::Result<usize> {
        self.call()?;
        let count = buf.len().min(10);
        buf[..count].fill(self.byte);
        Ok(count)
    }
}

impl Write for Sevens {
    fn write(&mut self, buf: &[u8]) -> io::Result<usize> {
        self.call()?;
        Ok(buf.len().min(10))
    }

    fn flush(&mut self) -> io::Result<()> {
        self.call()
    }
}

impl Seek for Sevens {
    fn seek(&mut self, _to: SeekFrom) -> io::Result<u64> {
        self.call()?;
        Ok(0)
    }
}

fn is_sevens(bytes: &[u8]) -> bool
    ensures { IsTrue result → bytes.now ≡ sevens }
{
    bytes == [7u8; 64].as_slice()
}

fn is_sevens_or_eights(bytes: &[u8]) -> bool
    ensures { IsTrue result → (bytes.now ≡ sevens) ⊎ (bytes.now ≡ eights) }
{
    bytes == [7u8; 64].as_slice() || bytes == [8u8; 64].as_slice()
}

impl PageFile for Sevens {
    ghost pages = { Some (record { taken = sevens ∷ []; given = sevens ∷ eights ∷ [] }) };

    fn put(&mut self, page_bits: u32, place: u64, bytes: &[u8]) -> bool {
        is_sevens(bytes) && put_page(self, page_bits, place, bytes)
    }

    fn take(&mut self, page_bits: u32, place: u64, out: &mut [u8]) -> bool {
        take_page(self, page_bits, place, out) && is_sevens_or_eights(out)
    }
}

/// Such files keep what they are given, although others may change them: SHA-256 tells the two pages apart.
pub fn sevens_keep()
    ensures { IsTrue ⟦<FileReceipt<Sevens> as Receipt>⟧.keeps }
{}

/// A page that is written and read again, by clauses alone: whatever stood in the file by then, it is this page, or it is refused.
pub fn read_back(
    writer: &mut FileWriter<Sevens>,
    reader: &mut FileReader<Sevens>,
    page: &Page,
) -> Result<Page, Refused>
    ensures { IfOk result (λ read. read ≡ page.now) }
{
    sevens_keep();
    let receipt = writer.write(0, page)?;
    reader.read(&receipt, page.bytes().len())
}
