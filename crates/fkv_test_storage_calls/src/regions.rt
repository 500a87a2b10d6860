//! Calls on regions: the answer, and then the offsets closed, Head, SafeReadOnly and ReadOnly.
use crate::lines::{Line, Subject};
use fkv_records::{END, Shape};
use fkv_regions::{Region, Regions};
use std::alloc::AllocError;

/// The regions of a log of pages of 256 bytes.
pub fn small_regions() -> Option<Regions> {
    Some(Regions::new(Shape::new(8, 48)?))
}

/// A letter for the region of an address as the session at a slot sees it: `-` where no session is entered.
fn letter(regions: &Regions, slot: usize, address: u64) -> char {
    if !regions.is_entered(slot) {
        return '-';
    }
    let region = regions.region(slot, address);
    if regions.view(slot).region(address) != region {
        return '!';
    }
    match region {
        Region::OnDisk => 'D',
        Region::ReadOnly => 'R',
        Region::Fuzzy => 'F',
        Region::Mutable => 'M',
    }
}

/// The letters of eighteen slots.
fn write_letters(regions: &Regions, address: u64, out: &mut String) -> Result<(), AllocError> {
    for slot in 0..18 {
        out.push(letter(regions, slot, address))?;
    }
    writeln!(out)
}

/// Takes in that pages are flushed, where that is due.
fn flush(regions: &mut Regions, page: u64) -> bool {
    let is_due = regions.is_flush_due(page);
    if is_due {
        regions.raise_flushed(page);
    }
    is_due
}

impl Subject for Regions {
    fn call(&mut self, line: &Line, out: &mut String) -> Result<(), AllocError> {
        let [number, tail, ..] = line.numbers;
        match line.word {
            "enter" => write!(out, "{:?}", self.enter())?,
            "leave" => write!(out, "{:?}", self.leave(number as usize))?,
            "refresh" => write!(out, "{:?}", self.refresh(number as usize))?,
            "readonly" if tail <= END && self.offsets().read_only <= tail => {
                write!(out, "{:?}", self.shift_read_only(number, tail))?
            }
            "head" => write!(out, "{:?}", self.shift_head(number))?,
            "flush" => write!(out, "{}", flush(self, number))?,
            "sees" => return write_letters(self, number, out),
            _ => write!(out, "Never")?,
        }
        let now = self.offsets();
        let (closed, head, safe, read_only) = (
            now.closed,
            now.head,
            now.safe_read_only,
            now.read_only,
        );
        writeln!(out, " {closed} {head} {safe} {read_only}")
    }
}
