//! A device of which one call fails, whichever that is: to open, to write or to read. Each other call is that of a device
//! behind it.
ghost use Rattle.std.specs.Prelude.{◌+◌};

use fkv_device::failures::Failures;
use fkv_device::{Disk, Page, PageReader, PageWriter, Receipt};
use fkv_functions::Refused;
use std::alloc::Global;
use std::sync::atomic::{AtomicU8, AtomicU64, Ordering};

/// How many calls of a device, its writers and its readers are left before the one that fails, and how that one is told. They
/// may be called by several threads: still one call fails.
#[derive(Drop)]
pub struct Fault {
    left: AtomicU64,
    code: AtomicU8,
    page: AtomicU64,
}

impl Fault {
    /// A fault after so many calls.
    pub fn after(calls: u64) -> Fault {
        Fault {
            left: AtomicU64::new(calls),
            code: AtomicU8::new(0),
            page: AtomicU64::new(0),
        }
    }

    /// Has the next call fail.
    pub fn come(&self) {
        self.left.store(0, Ordering::SeqCst);
    }

    /// Counts a call, and says whether it is the one that fails. From then on calls are counted down from 2^64 - 1.
    fn comes(&self, code: u8, page: u64) -> bool {
        if self.left.fetch_sub(1, Ordering::SeqCst) != 0 {
            return false;
        }
        self.page.store(page, Ordering::SeqCst);
        self.code.store(code, Ordering::SeqCst);
        true
    }

    /// How the call that failed was told, or nothing where none did.
    pub fn told(&self) -> Option<Refused> {
        match self.code.load(Ordering::SeqCst) {
            0 => None,
            code => Some(Refused::Device {
                code,
                page: self.page.load(Ordering::SeqCst),
            }),
        }
    }
}

/// A writer of which a call may fail.
#[derive(Drop)]
pub struct FailingWriter<'a, W: PageWriter> {
    writer: W,
    failures: Failures,
    fault: &'a Fault,
}

impl<'a, W: PageWriter> PageWriter for FailingWriter<'a, W> {
    type Receipt = W::Receipt;

    ghost failures = { λ w. w.failures + W.failures w.writer };

    ghost next = { λ w. W.next w.writer };

    ghost part = { λ w. W.part w.writer };

    ghost can_fail = { λ _. Unit {0} };

    fn write(&mut self, page: u64, bytes: &Page) -> Result<W::Receipt, Refused> {
        if self.fault.comes(2, page) {
            return Err(self.failures.count(Refused::Device { code: 2, page }));
        }
        self.writer.write(page, bytes)
    }

    fn drop_below(&mut self, page: u64) {
        self.writer.drop_below(page);
    }
}

/// A reader of which a call may fail.
#[derive(Drop)]
pub struct FailingReader<'a, P: PageReader> {
    reader: P,
    failures: Failures,
    fault: &'a Fault,
}

impl<'a, P: PageReader> PageReader for FailingReader<'a, P> {
    type Receipt = P::Receipt;

    ghost failures = { λ r. r.failures + P.failures r.reader };

    ghost part = { λ r. P.part r.reader };

    ghost reads = { λ r. P.reads r.reader };

    ghost can_fail = { λ _ _. Unit {0} };

    fn read(&mut self, receipt: &P::Receipt, size: usize) -> Result<Page, Refused> {
        let page = receipt.page();
        if self.fault.comes(3, page) {
            return Err(self.failures.count(Refused::Device { code: 3, page }));
        }
        self.reader.read(receipt, size)
    }
}

/// A device of which one call fails.
#[derive(Drop)]
pub struct FailingDevice<'a, D: Disk> {
    alloc: Global,
    device: D,
    failures: Failures,
    fault: &'a Fault,
}

impl<'a, D: Disk> FailingDevice<'a, D> {
    /// This device, but for one call.
    pub fn new(alloc: Global, device: D, fault: &'a Fault) -> FailingDevice<'a, D> {
        FailingDevice {
            alloc,
            device,
            failures: Failures::new(alloc),
            fault,
        }
    }
}

impl<'a, D: Disk> Disk for FailingDevice<'a, D> {
    type Receipt = D::Receipt;

    type Writer = FailingWriter<'a, D::Writer>;

    type Reader = FailingReader<'a, D::Reader>;

    ghost failures = { λ d. d.failures + D.failures d.device };

    fn writer(&mut self, partition: u64) -> Result<FailingWriter<'a, D::Writer>, Refused> {
        if self.fault.comes(1, 0) {
            return Err(self.failures.count(Refused::Device { code: 1, page: 0 }));
        }
        match self.device.writer(partition) {
            Ok(writer) => Ok(FailingWriter {
                writer,
                failures: Failures::new(self.alloc),
                fault: self.fault,
            }),
            Err(refused) => Err(refused),
        }
    }

    fn reader(&mut self, partition: u64) -> Result<FailingReader<'a, D::Reader>, Refused> {
        if self.fault.comes(1, 0) {
            return Err(self.failures.count(Refused::Device { code: 1, page: 0 }));
        }
        match self.device.reader(partition) {
            Ok(reader) => Ok(FailingReader {
                reader,
                failures: Failures::new(self.alloc),
                fault: self.fault,
            }),
            Err(refused) => Err(refused),
        }
    }
}
