//! A device in memory whose writers and readers are told when to answer wrongly.
ghost use Rattle.std.specs.Prelude.{◌≡◌, length, IfOk, IfErr};
ghost use Rattle.fkv_functions.specs.declared.refusals.Refused.TheVariants as refused;

use crate::receipts::UnsureReceipt;
use fkv_device::failures::Failures;
use fkv_device::{Disk, Page, PageReader, PageWriter};
use fkv_functions::Refused;
use std::alloc::Global;

/// More pages than any test writes or reads.
const NEVER: u64 = 1 << 60;

/// A writer that fails once, after so many pages.
#[derive(Drop)]
pub struct UnsureWriter {
    partition: u64,
    next: u64,
    pub left: u64,
    failures: Failures,
}

impl PageWriter for UnsureWriter {
    type Receipt = UnsureReceipt;

    ghost failures = { λ w. w.failures };

    ghost next = { λ w. w.next };

    ghost part = { λ w. w.partition };

    ghost can_fail = { λ _. Unit {0} };

    fn write(&mut self, page: u64, bytes: &Page) -> Result<UnsureReceipt, Refused> {
        let (left, fails) = self.left.overflowing_sub(1);
        self.left = left;
        let number = self.next;
        let (Some(next), false) = (number.checked_add(1), fails) else {
            return Err(self.failures.count(Refused::Device { code: 2, page }));
        };
        match bytes.again() {
            Err(refused) => Err(refused),
            Ok(bytes) => {
                self.next = next;
                Ok(UnsureReceipt {
                    number,
                    page,
                    bytes,
                })
            }
        }
    }

    fn drop_below(&mut self, _page: u64) {}
}

/// What a reader does once.
#[derive(Clone, Copy)]
pub enum Turn {
    Fails,
    /// Gives zeros.
    Clears,
    /// Gives the byte at this place plus 1.
    Raises(usize),
    /// Gives the record at this place as a delta.
    Parts(usize),
    /// Gives the page that it gave before, where that has as many bytes.
    Repeats,
}

/// A reader that does so after so many pages.
#[derive(Drop)]
pub struct UnsureReader {
    alloc: Global,
    partition: u64,
    pub left: u64,
    pub turn: Turn,
    /// The page that it gave before.
    last: Option<Page>,
    failures: Failures,
}

impl UnsureReader {
    /// The page that is given in place of these bytes.
    fn lie(&self, bytes: &[u8]) -> Result<Page, Refused>
        ensures size { IfOk result (λ page. length page ≡ length bytes.now) }
        ensures memory { IfErr result (λ e. e ≡ refused.NoMemory) }
    {
        let Ok(mut copy) = bytes.to_vec(self.alloc) else {
            return Err(Refused::NoMemory);
        };
        let given: &mut [u8] = &mut copy;
        match self.turn {
            Turn::Raises(place) => {
                if let Some(byte) = given.get_mut(place) {
                    *byte = byte.wrapping_add(1);
                }
            }
            Turn::Parts(place) => {
                // bit 49 of the header's 64
                if let Some(byte) = given.get_mut(place.saturating_add(6)) {
                    *byte |= 2;
                }
            }
            _ => given.fill(0),
        }
        Page::new(self.alloc, copy)
    }

    /// The page that it gave before, where that has as many bytes as these, else theirs.
    fn repeat(&self, page: &Page) -> Result<Page, Refused>
        ensures size { IfOk result (λ given. length given ≡ length page.now) }
        ensures memory { IfErr result (λ e. e ≡ refused.NoMemory) }
    {
        match &self.last {
            Some(last) if last.bytes().len() == page.bytes().len() => last.again(),
            _ => page.again(),
        }
    }

    /// The page that is given for this one, from which it strays or not.
    fn given(&self, page: &Page, strays: bool) -> Result<Page, Refused>
        ensures size { IfOk result (λ given. length given ≡ length page.now) }
        ensures memory { IfErr result (λ e. e ≡ refused.NoMemory) }
    {
        match (strays, self.turn) {
            (false, _) => page.again(),
            (true, Turn::Repeats) => self.repeat(page),
            (true, _) => self.lie(page.bytes()),
        }
    }
}

impl PageReader for UnsureReader {
    type Receipt = UnsureReceipt;

    ghost failures = { λ r. r.failures };

    ghost part = { λ r. r.partition };

    ghost can_fail = { λ _ _. Unit {0} };

    fn read(&mut self, receipt: &UnsureReceipt, size: usize) -> Result<Page, Refused> {
        let (left, strays) = self.left.overflowing_sub(1);
        self.left = left;
        let bytes = receipt.bytes.bytes();
        if bytes.len() != size || (strays && matches!(self.turn, Turn::Fails)) {
            let page = receipt.page;
            return Err(self.failures.count(Refused::Device { code: 3, page }));
        }
        let given = self.given(&receipt.bytes, strays)?;
        self.last = Some(given.again()?);
        Ok(given)
    }
}

/// A device in memory whose writers fail, and whose readers answer wrongly, after so many pages.
#[derive(Drop)]
pub struct UnsureDevice {
    alloc: Global,
    pub writes: u64,
    pub reads: u64,
    pub turn: Turn,
}

impl UnsureDevice {
    /// A device whose writers and readers do what those of a device in memory do, until they are told otherwise.
    pub fn new(alloc: Global) -> UnsureDevice {
        UnsureDevice {
            alloc,
            writes: NEVER,
            reads: NEVER,
            turn: Turn::Fails,
        }
    }
}

impl Disk for UnsureDevice {
    type Receipt = UnsureReceipt;

    type Writer = UnsureWriter;

    type Reader = UnsureReader;

    ghost failures = { λ _. 0 };

    /// A writer, which is never refused.
    fn writer(&mut self, partition: u64) -> Result<UnsureWriter, Refused> {
        Ok(UnsureWriter {
            partition,
            next: 0,
            left: self.writes,
            failures: Failures::new(self.alloc),
        })
    }

    /// A reader, which is never refused.
    fn reader(&mut self, partition: u64) -> Result<UnsureReader, Refused> {
        Ok(UnsureReader {
            alloc: self.alloc,
            partition,
            left: self.reads,
            turn: self.turn,
            last: None,
            failures: Failures::new(self.alloc),
        })
    }
}
