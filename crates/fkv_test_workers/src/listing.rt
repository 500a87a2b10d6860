//! The end of a run by two workers: each page that left memory is read once for the table, and of refused reads that of the first
//! partition is told.
ghost use Rattle.std.specs.Prelude.{◌+◌};

use crate::tables::{LETTERS, LETTERS_TABLE, SMALL, summed_over};
use fkv_device::failures::Failures;
use fkv_device::{Disk, MemoryDevice, Page, PageReader, Receipt};
use fkv_functions::{Refused, SumFns};
use fkv_histories::{Audited, Plain, Recorder};
use fkv_partition::Config;
use fkv_store::Open;
use std::alloc::Global;
use std::rt::Clock;
use std::sync::Wait;
use std::sync::atomic::{AtomicU64, Ordering};
use std::test::Fail;
use std::thread::Threads;

/// Two partitions, so that each of two workers lists one.
const TWO: Config = Config {
    partition_bits: 1,
    ..SMALL
};

/// The readers that are opened before the last ones, which list: one a partition for each of two workers.
const WORKING: u64 = 4;

/// What the readers that list do: of each partition whether they refuse pages, and which they have read, a bit a page.
#[derive(Drop)]
struct Lists {
    opened: AtomicU64,
    refuses: [bool; 2],
    read: [AtomicU64; 2],
    again: AtomicU64,
}

impl Lists {
    /// Readers of which those of a partition refuse pages or not.
    fn new(refuses: [bool; 2]) -> Lists {
        Lists {
            opened: AtomicU64::new(0),
            refuses,
            read: [AtomicU64::new(0), AtomicU64::new(0)],
            again: AtomicU64::new(0),
        }
    }

    /// Notes that a page of a partition is read.
    fn note(&self, partition: u64, page: u64) {
        let bit = 1u64 << (page % 64);
        let before = self.read[(partition % 2) as usize].fetch_or(bit, Ordering::SeqCst);
        if before & bit != 0 {
            self.again.fetch_add(1, Ordering::SeqCst);
        }
    }

    /// Whether pages of both partitions were read, and each once.
    fn has_read_once(&self) -> bool {
        self.read[0].load(Ordering::SeqCst) != 0
            && self.read[1].load(Ordering::SeqCst) != 0
            && self.again.load(Ordering::SeqCst) == 0
    }
}

/// A reader that may be one of those that list.
#[derive(Drop)]
struct ListReader<'a, P: PageReader> {
    reader: P,
    failures: Failures,
    partition: u64,
    lists: Option<&'a Lists>,
}

impl<'a, P: PageReader> PageReader for ListReader<'a, P> {
    type Receipt = P::Receipt;

    ghost failures = { λ r. r.failures + P.failures r.reader };

    ghost part = { λ r. P.part r.reader };

    ghost can_fail = { λ _ _. Unit {0} };

    fn read(&mut self, receipt: &P::Receipt, size: usize) -> Result<Page, Refused> {
        let Some(lists) = self.lists else {
            return self.reader.read(receipt, size);
        };
        let page = receipt.page();
        lists.note(self.partition, page);
        if !lists.refuses[(self.partition % 2) as usize] {
            return self.reader.read(receipt, size);
        }
        if self.partition == 0 {
            return Err(self.failures.count(Refused::Device { code: 3, page }));
        }
        Err(self.failures.count(Refused::Damaged { page }))
    }
}

/// A device whose last readers list.
#[derive(Drop)]
struct ListDevice<'a, D: Disk> {
    alloc: Global,
    device: D,
    lists: &'a Lists,
}

impl<'a, D: Disk> Disk for ListDevice<'a, D> {
    type Receipt = D::Receipt;

    type Writer = D::Writer;

    type Reader = ListReader<'a, D::Reader>;

    ghost failures = { λ d. D.failures d.device };

    fn writer(&mut self, partition: u64) -> Result<D::Writer, Refused> {
        self.device.writer(partition)
    }

    fn reader(&mut self, partition: u64) -> Result<ListReader<'a, D::Reader>, Refused> {
        let before = self.lists.opened.fetch_add(1, Ordering::SeqCst);
        let reader = match self.device.reader(partition) {
            Ok(reader) => reader,
            Err(refused) => return Err(refused),
        };
        let lists = if before < WORKING {
            None
        } else {
            Some(self.lists)
        };
        Ok(ListReader {
            reader,
            failures: Failures::new(self.alloc),
            partition,
            lists,
        })
    }
}

/// How a run ends.
#[derive(Debug, Clone, Copy, PartialEq)]
enum End {
    /// The table is whole, and each page was read once.
    Whole,
    /// The refusal of the first partition, or of the second one.
    First,
    Second,
    /// Anything else.
    Other,
}

/// How a run of two workers ends where readers that list refuse pages so.
fn ended<H: Recorder<SumFns> + Send, T: Threads + Wait + Clock + Sync>(
    rt: &T,
    alloc: Global,
    refuses: [bool; 2],
) -> End {
    let lists = Lists::new(refuses);
    let device = ListDevice {
        alloc,
        device: MemoryDevice::new(alloc),
        lists: &lists,
    };
    let feeds: [&[u8]; 2] = [LETTERS, b"t,1\n"];
    match summed_over::<H, _, _, _>(rt, alloc, &feeds, 2, &TWO, device, &Open) {
        Ok(text) if text.as_slice() == LETTERS_TABLE && lists.has_read_once() => End::Whole,
        Err(Refused::Device { code: 3, .. }) => End::First,
        Err(Refused::Damaged { .. }) => End::Second,
        _ => End::Other,
    }
}

/// Which partitions' pages are refused, and how the run ends.
const ROWS: [([bool; 2], End); 4] = [
    ([false, false], End::Whole),
    ([true, false], End::First),
    ([false, true], End::Second),
    ([true, true], End::First),
];

#[test]
fn pages_are_listed(rt: HostRuntime) -> Result<(), Fail> {
    let alloc = rt.alloc();
    for (refuses, end) in ROWS {
        let audited = ended::<Audited<SumFns>, _>(&rt, alloc, refuses);
        assert!(rt; audited == end, "{refuses:?}: {audited:?}");
        let plain = ended::<Plain, _>(&rt, alloc, refuses);
        assert!(rt; plain == end, "{refuses:?}: {plain:?}");
    }
    Ok(())
}
