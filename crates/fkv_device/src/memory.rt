//! A device in memory, which keeps what it is given.
ghost use Rattle.std.specs.Prelude.{◌≡◌, ◌≢◌, ◌+◌, ◌^◌, ℕ, List, [], length, ◌↔◌, true, IfOk, IfErr, OnOk, IsOk};
ghost use Rattle.fkv_functions.specs.declared.refusals.Refused.TheVariants as refused;
ghost use Rattle.fkv_device.specs.Failing.{FailsOnlyBy};

use crate::comparing::is_same;
use crate::disks::Disk;
use crate::failures::Failures;
use crate::pages::{PageReader, PageWriter};
use crate::receipts::Receipt;
use crate::shared::Page;
use fkv_functions::Refused;
use std::alloc::Global;

/// A receipt of a page in memory, which shares the page.
#[derive(Drop)]
pub struct MemoryReceipt {
    number: u64,
    page: u64,
    bytes: Page,
}

impl Receipt for MemoryReceipt {
    ghost keeps = { true };

    ghost stands = { λ r. record {
      number = r.number;
      page = r.page;
      length = length r.bytes;
      bytes = r.bytes;
      mark = [];
    } };

    fn number(&self) -> u64 {
        self.number
    }

    fn page(&self) -> u64 {
        self.page
    }

    fn size(&self) -> usize {
        self.bytes.bytes().len()
    }

    fn same(&self, other: &MemoryReceipt) -> bool {
        self.number == other.number
            && self.page == other.page
            && is_same(self.bytes.bytes(), other.bytes.bytes())
    }

    fn again(&self) -> Result<MemoryReceipt, Refused> {
        match self.bytes.again() {
            Err(refused) => Err(refused),
            Ok(bytes) => Ok(MemoryReceipt {
                number: self.number,
                page: self.page,
                bytes,
            }),
        }
    }
}

/// Writes pages to memory. It has the numbers below 2^64 - 1 for its receipts.
#[derive(Drop)]
pub struct MemoryWriter {
    partition: u64,
    next: u64,
    failures: Failures,
}

impl MemoryWriter {
    /// A writer of this partition's pages, whose next receipt has this number.
    pub fn at(alloc: Global, partition: u64, next: u64) -> MemoryWriter
        ensures next { result.next ≡ next }
        ensures place { result.partition ≡ partition }
    {
        MemoryWriter {
            partition,
            next,
            failures: Failures::new(alloc),
        }
    }
}

impl PageWriter for MemoryWriter {
    type Receipt = MemoryReceipt;

    ghost failures = { λ w. w.failures };

    ghost next = { λ w. w.next };

    ghost part = { λ w. w.partition };

    // where no number is left
    ghost can_fail = { λ w. w.next + 1 ≡ 2 ^ 64 };

    /// Writes a page: its bytes are shared, not copied.
    ///
    /// # Errors
    ///
    /// `NoMemory`; `Device` with code 2 where no number is left, and never else.
    fn write(&mut self, page: u64, bytes: &Page) -> Result<MemoryReceipt, Refused>
        ensures kept { IfOk result (λ r. r.bytes ≡ bytes.now) }
        ensures page { IfOk result (λ r. r.page ≡ page) }
        ensures number { IfOk result (λ r. r.number ≡ self.old.next) }
        ensures next { OnOk result (self.new.next ≡ self.old.next + 1) }
        ensures same_next { IfErr result (λ _. self.new.next ≡ self.old.next) }
        ensures same_part { self.new.partition ≡ self.old.partition }
        ensures steady { OnOk result (self.new.failures ≡ self.old.failures) }
        ensures counted { IfErr result (FailsOnlyBy 2 page self.old.failures self.new.failures) }
        ensures caused { IfErr result (λ e. e ≢ refused.NoMemory → self.old.next + 1 ≡ 2 ^ 64) }
    {
        let Some(next) = self.next.checked_add(1) else {
            return Err(self.failures.count(Refused::Device { code: 2, page }));
        };
        let bytes = bytes.again()?;
        let number = self.next;
        self.next = next;
        Ok(MemoryReceipt {
            number,
            page,
            bytes,
        })
    }

    /// Nothing is done: a page goes with its receipts.
    fn drop_below(&mut self, _page: u64)
        ensures { self.new ≡ self.old }
    {}
}

/// Reads pages of memory.
#[derive(Drop)]
pub struct MemoryReader {
    partition: u64,
    failures: Failures,
}

impl PageReader for MemoryReader {
    type Receipt = MemoryReceipt;

    ghost failures = { λ r. r.failures };

    ghost part = { λ r. r.partition };

    ghost can_fail = { λ receipt size. size ≢ length receipt.bytes };

    /// Reads a page: it is shared, not copied.
    ///
    /// # Errors
    ///
    /// `Device` with code 3 where the page has not `size` bytes; `NoMemory` where it can't be shared once more or a
    /// failure can't be counted.
    fn read(&mut self, receipt: &MemoryReceipt, size: usize) -> Result<Page, Refused>
        ensures kept { IfOk result (λ page. page ≡ receipt.now.bytes) }
        ensures length { OnOk result (size ≡ length receipt.now.bytes) }
        ensures same_part { self.new.partition ≡ self.old.partition }
        ensures steady { OnOk result (self.new.failures ≡ self.old.failures) }
        ensures counted { IfErr result (FailsOnlyBy 3 receipt.now.page self.old.failures self.new.failures) }
        ensures caused { IfErr result (λ e. e ≢ refused.NoMemory
            → size ≢ length receipt.now.bytes) }
    {
        if size != receipt.bytes.bytes().len() {
            let page = receipt.page;
            return Err(self.failures.count(Refused::Device { code: 3, page }));
        }
        receipt.bytes.again()
    }
}

/// A device in memory. Its pages live as long as their receipts.
#[derive(Drop)]
pub struct MemoryDevice {
    alloc: Global,
}

impl MemoryDevice {
    /// A device whose pages are made by `alloc`.
    pub fn new(alloc: Global) -> MemoryDevice {
        MemoryDevice { alloc }
    }
}

impl Disk for MemoryDevice {
    type Receipt = MemoryReceipt;

    type Writer = MemoryWriter;

    type Reader = MemoryReader;

    ghost failures = { λ _. 0 };

    /// A writer, which is never refused.
    fn writer(&mut self, partition: u64) -> Result<MemoryWriter, Refused>
        ensures done { IsOk result }
        ensures number { IfOk result (λ w. w.next ≡ 0) }
        ensures place { IfOk result (λ w. w.partition ≡ partition) }
    {
        Ok(MemoryWriter::at(self.alloc, partition, 0))
    }

    /// A reader, which is never refused.
    fn reader(&mut self, partition: u64) -> Result<MemoryReader, Refused>
        ensures done { IsOk result }
        ensures place { IfOk result (λ r. r.partition ≡ partition) }
    {
        Ok(MemoryReader {
            partition,
            failures: Failures::new(self.alloc),
        })
    }
}
