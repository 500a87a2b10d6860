//! No run stalls: many workers over few frames, and compactions that are slow, take too long or fail; and which fault comes first.
use crate::tables::{LETTERS, SMALL, summed_by, summed_over};
use fkv_device::{Disk, MemoryDevice};
use fkv_feeds::RowMode;
use fkv_functions::{Name, Refused, SumFns};
use fkv_histories::{Audited, Plain, Recorder};
use fkv_partition::Config;
use fkv_store::{Gate, KEEPER, Open, Place, Store};
use fkv_test_devices::{FailingDevice, Fault, UnsureDevice};
use std::alloc::Global;
use std::io::Write;
use std::rt::Clock;
use std::sync::Wait;
use std::sync::atomic::{AtomicBool, AtomicU64, Ordering};
use std::test::Fail;
use std::thread;
use std::thread::Threads;

/// So many rows over fifty keys, each key once in fifty rows, with this amount.
fn fifty(alloc: Global, rows: u64, amount: i64) -> Result<Vec<u8>, Fail> {
    let mut text = Vec::new(alloc);
    for row in 0..rows {
        writeln!(text, "k{},{amount}", row.wrapping_mul(37) % 50)?;
    }
    Ok(text)
}

/// The table of these feeds by so many workers, over memory.
fn table<H: Recorder<SumFns> + Send, G: Gate + Sync, T: Threads + Wait + Clock + Sync>(
    rt: &T,
    alloc: Global,
    feeds: &[&[u8]],
    workers: usize,
    config: &Config,
    gate: &G,
    mode: RowMode,
) -> Result<Vec<u8>, Refused> {
    let device = MemoryDevice::new(alloc);
    summed_by::<H, _, _, _>(rt, alloc, feeds, workers, config, device, gate, mode)
}

/// Runs over one partition: by how many workers, with how many frames, whether a row may be a merge, and whether histories are
/// kept.
const RUNS: &[(usize, usize, RowMode, bool)] = &[
    (14, 2, RowMode::Update, false),
    (14, 2, RowMode::Merge, false),
    (14, 2, RowMode::Merge, true),
    (5, 2, RowMode::Merge, false),
    (5, 3, RowMode::Merge, false),
    (2, 8, RowMode::Merge, true),
    (2, 2, RowMode::Merge, false),
];

/// Each run makes the table of one worker.
#[test]
fn many_workers(rt: HostRuntime) -> Result<(), Fail> {
    let alloc = rt.alloc();
    let rows = fifty(alloc, 60, 7)?;
    let feeds = [rows.as_slice(); 14];
    let one = table::<Plain, _, _>(&rt, alloc, &feeds, 1, &SMALL, &Open, RowMode::Update)?;
    for (workers, frames, mode, audited) in RUNS {
        let config = Config {
            frames: *frames as u64,
            ..SMALL
        };
        let made = if *audited {
            table::<Audited<SumFns>, _, _>(&rt, alloc, &feeds, *workers, &config, &Open, *mode)?
        } else {
            table::<Plain, _, _>(&rt, alloc, &feeds, *workers, &config, &Open, *mode)?
        };
        assert!(rt;
            made.as_slice() == one.as_slice(),
            "{workers} workers, {frames} frames"
        );
    }
    Ok(())
}

/// How many pages a compaction reads, at the most, until the worker answers again.
const IDLE: u64 = 64;

/// How often the worker holds its partition while a compaction reads a page.
const HOLDS: u64 = 4;

/// Has a compaction read a page only when worker 0 has gone on meanwhile, or has made all its rows; and counts pages that were
/// read, all and those between two answers, the most.
#[derive(Drop)]
struct Watched {
    rows: u64,
    holds: AtomicU64,
    answers: AtomicU64,
    answers_before: AtomicU64,
    pages: AtomicU64,
    idle: AtomicU64,
    most_idle: AtomicU64,
}

impl Watched {
    fn of(rows: u64) -> Watched {
        Watched {
            rows,
            holds: AtomicU64::new(0),
            answers: AtomicU64::new(0),
            answers_before: AtomicU64::new(0),
            pages: AtomicU64::new(0),
            idle: AtomicU64::new(0),
            most_idle: AtomicU64::new(0),
        }
    }

    fn has_ended(&self) -> bool {
        self.answers.load(Ordering::SeqCst) == self.rows
    }

    /// A compaction is going to read a page.
    fn reads(&self) {
        let goal = self.holds.load(Ordering::SeqCst).saturating_add(HOLDS);
        for _ in 0..LOOKS {
            if self.has_ended() || self.holds.load(Ordering::SeqCst) >= goal {
                break;
            }
            thread::yield_now();
        }
        self.pages.fetch_add(1, Ordering::SeqCst);
        let answers = self.answers.load(Ordering::SeqCst);
        if self.has_ended() || self.answers_before.swap(answers, Ordering::SeqCst) != answers {
            self.idle.store(0, Ordering::SeqCst);
            return;
        }
        let idle = self.idle.fetch_add(1, Ordering::SeqCst).saturating_add(1);
        self.most_idle.fetch_max(idle, Ordering::SeqCst);
    }
}

impl Gate for Watched {
    fn pass(&self, worker: u32, place: Place) {
        match (worker, place) {
            (0, Place::Locked(_)) => {
                self.holds.fetch_add(1, Ordering::SeqCst);
            }
            (0, Place::Answered) => {
                self.answers.fetch_add(1, Ordering::SeqCst);
            }
            (KEEPER, Place::Load) => self.reads(),
            _ => {}
        }
    }
}

/// A compaction holds nobody up: whenever it reads many pages the worker answers meanwhile. Few buckets make ways long, so one
/// relocation reads many.
#[test]
fn compaction_holds_nobody_up(rt: HostRuntime) -> Result<(), Fail> {
    let alloc = rt.alloc();
    let rows = fifty(alloc, 1_500, 3)?;
    let feeds = [rows.as_slice()];
    let config = Config {
        bucket_bits: 2,
        ..SMALL
    };
    let one = table::<Plain, _, _>(&rt, alloc, &feeds, 1, &SMALL, &Open, RowMode::Update)?;
    let gate = Watched::of(1_500);
    let made = table::<Plain, _, _>(&rt, alloc, &feeds, 1, &config, &gate, RowMode::Merge)?;
    assert!(rt; made.as_slice() == one.as_slice());
    let pages = gate.pages.load(Ordering::SeqCst);
    let most = gate.most_idle.load(Ordering::SeqCst);
    assert!(rt;
        pages > IDLE && most < IDLE,
        "{pages} pages, at most {most} without an answer"
    );
    Ok(())
}

/// The operation of worker 0 that is held until a compaction reads a page: by then enough pages have left memory for one.
const HELD: u64 = 700;

/// How often it looks, at the most.
const LOOKS: u64 = 10_000_000;

/// Holds worker 0 there until a compaction has read a page, or has failed to, where the device has a fault: that read is the call
/// that fails.
#[derive(Drop)]
struct Caught<'a> {
    begun: AtomicU64,
    is_reading: AtomicBool,
    has_read: AtomicBool,
    fault: Option<&'a Fault>,
}

impl<'a> Caught<'a> {
    fn by(fault: Option<&'a Fault>) -> Caught<'a> {
        Caught {
            begun: AtomicU64::new(0),
            is_reading: AtomicBool::new(false),
            has_read: AtomicBool::new(false),
            fault,
        }
    }

    /// Holds whoever comes until the compaction has read a page.
    fn hold(&self) {
        for _ in 0..LOOKS {
            if self.has_read.load(Ordering::SeqCst) {
                return;
            }
            thread::yield_now();
        }
    }

    /// A compaction is going to read a page.
    fn reads(&self) {
        if !self.is_reading.swap(true, Ordering::SeqCst) {
            if let Some(fault) = self.fault {
                fault.come();
            }
        }
    }
}

impl<'a> Gate for Caught<'a> {
    fn pass(&self, worker: u32, place: Place) {
        match (worker, place) {
            (KEEPER, Place::Load) => self.reads(),
            (KEEPER, Place::Locked(_)) if self.is_reading.load(Ordering::SeqCst) => {
                self.has_read.store(true, Ordering::SeqCst);
            }
            (0, Place::Start) if self.begun.fetch_add(1, Ordering::SeqCst) == HELD => self.hold(),
            _ => {}
        }
    }
}

/// A page that a compaction can't read ends the run.
#[test]
fn failing_compaction(rt: HostRuntime) -> Result<(), Fail> {
    let alloc = rt.alloc();
    let rows = fifty(alloc, 1_000, 3)?;
    let fault = Fault::after(u64::MAX);
    let device = FailingDevice::new(alloc, MemoryDevice::new(alloc), &fault);
    let gate = Caught::by(Some(&fault));
    let made = summed_by::<Plain, _, _, _>(
        &rt,
        alloc,
        &[rows.as_slice()],
        1,
        &SMALL,
        device,
        &gate,
        RowMode::Merge,
    );
    assert!(rt; made == Err(Refused::Device { code: 3, page: 0 }));
    assert!(rt; fault.told() == Some(Refused::Device { code: 3, page: 0 }));
    Ok(())
}

/// Two partitions.
const TWO: Config = Config {
    partition_bits: 1,
    ..SMALL
};

/// So many rows with this amount, over keys of the second of two partitions.
fn of_the_second(alloc: Global, rows: u64, amount: i64) -> Result<Vec<u8>, Fail> {
    let device = MemoryDevice::new(alloc);
    let store = Store::<SumFns, MemoryDevice, Plain>::open(alloc, &TWO, SumFns, device)?;
    let mut keys = Vec::new(alloc);
    for number in 0..100u8 {
        let text = [b'k', number / 10 + b'0', number % 10 + b'0'];
        if let Some(name) = Name::new(&text) {
            if store.home(&name) == 1 {
                keys.push(text)?;
            }
        }
    }
    let mut text = Vec::new(alloc);
    for row in 0..rows as usize {
        if let Some(key) = row
            .checked_rem(keys.len())
            .and_then(|place| keys.get(place))
        {
            text.write_all(key)?;
            writeln!(text, ",{amount}")?;
        }
    }
    Ok(text)
}

/// The keeper compacts each partition: only the second one has rows here, so the page is one of its pages.
#[test]
fn failing_compaction_of_the_second_partition(rt: HostRuntime) -> Result<(), Fail> {
    let alloc = rt.alloc();
    let rows = of_the_second(alloc, 1_000, 3)?;
    let fault = Fault::after(u64::MAX);
    let device = FailingDevice::new(alloc, MemoryDevice::new(alloc), &fault);
    let gate = Caught::by(Some(&fault));
    let feeds = [rows.as_slice()];
    let mode = RowMode::Merge;
    let made = summed_by::<Plain, _, _, _>(&rt, alloc, &feeds, 1, &TWO, device, &gate, mode);
    assert!(rt; made == Err(Refused::Device { code: 3, page: 0 }));
    assert!(rt; fault.told() == Some(Refused::Device { code: 3, page: 0 }));
    Ok(())
}

/// A compaction that takes more events than an operation may take turns is passed over.
#[test]
fn stalled_compaction(rt: HostRuntime) -> Result<(), Fail> {
    let alloc = rt.alloc();
    let rows = fifty(alloc, 3_000, 3)?;
    let feeds = [rows.as_slice()];
    let config = Config {
        turns: 400,
        ..SMALL
    };
    let one = table::<Plain, _, _>(&rt, alloc, &feeds, 1, &SMALL, &Open, RowMode::Update)?;
    let gate = Caught::by(None);
    let made = table::<Plain, _, _>(&rt, alloc, &feeds, 1, &config, &gate, RowMode::Merge)?;
    assert!(rt; gate.has_read.load(Ordering::SeqCst));
    assert!(rt; made.as_slice() == one.as_slice());
    Ok(())
}

/// The rows before a bad one are made first: where the device can't read a page for one of them, that is told.
#[test]
fn rows_before_a_bad_row(rt: HostRuntime) -> Result<(), Fail> {
    let alloc = rt.alloc();
    let mut rows = LETTERS.to_vec(alloc)?;
    rows.extend_from_slice(b"a\n")?;
    let feeds = [rows.as_slice()];
    let mut device = UnsureDevice::new(alloc);
    let bad = summed_over::<Plain, _, _, _>(&rt, alloc, &feeds, 1, &SMALL, device, &Open);
    assert!(rt; bad == Err(Refused::BadRow { feed: 1, row: 22 }));
    device = UnsureDevice::new(alloc);
    // the first page that each reader is asked for
    device.reads = 0;
    let failed = summed_over::<Plain, _, _, _>(&rt, alloc, &feeds, 1, &SMALL, device, &Open);
    assert!(rt; failed == Err(Refused::Device { code: 3, page: 0 }));
    Ok(())
}

/// A device that counts the readers of pages that it opens: one for each worker and each partition, and one for each compaction.
#[derive(Drop)]
struct OpeningDevice<'a, D: Disk> {
    device: D,
    opened: &'a AtomicU64,
}

impl<'a, D: Disk> Disk for OpeningDevice<'a, D> {
    type Receipt = D::Receipt;

    type Writer = D::Writer;

    type Reader = D::Reader;

    ghost failures = { λ d. D.failures d.device };

    fn writer(&mut self, partition: u64) -> Result<D::Writer, Refused> {
        self.device.writer(partition)
    }

    fn reader(&mut self, partition: u64) -> Result<D::Reader, Refused> {
        self.opened.fetch_add(1, Ordering::SeqCst);
        self.device.reader(partition)
    }
}

/// Before which operations worker 0 is held until so many readers were opened: the first one is its own.
const PACES: [(u64, u64); 2] = [(400, 2), (900, 3)];

/// How often the keeper holds the partition before the last operations.
const KEPT: u64 = 400;

/// Holds worker 0 until its partition was compacted, and at the end until the keeper has made many turns.
#[derive(Drop)]
struct Paced<'a> {
    begun: AtomicU64,
    holds: AtomicU64,
    opened: &'a AtomicU64,
    missed: AtomicBool,
}

impl<'a> Paced<'a> {
    fn by(opened: &'a AtomicU64) -> Paced<'a> {
        Paced {
            begun: AtomicU64::new(0),
            holds: AtomicU64::new(0),
            opened,
            missed: AtomicBool::new(false),
        }
    }

    /// Holds whoever comes until a number has come so far.
    fn hold(&self, number: &AtomicU64, goal: u64) {
        for _ in 0..LOOKS {
            if number.load(Ordering::SeqCst) >= goal {
                return;
            }
            thread::yield_now();
        }
        self.missed.store(true, Ordering::SeqCst);
    }

    /// Worker 0 begins an operation.
    fn begins(&self) {
        let begun = self.begun.fetch_add(1, Ordering::SeqCst);
        for (place, readers) in PACES {
            if begun == place {
                self.hold(self.opened, readers);
            }
        }
        if begun == 950 {
            let goal = self.holds.load(Ordering::SeqCst).saturating_add(KEPT);
            self.hold(&self.holds, goal);
        }
    }
}

impl<'a> Gate for Paced<'a> {
    fn pass(&self, worker: u32, place: Place) {
        match (worker, place) {
            (KEEPER, Place::Locked(_)) => {
                self.holds.fetch_add(1, Ordering::SeqCst);
            }
            (0, Place::Start) => self.begins(),
            _ => {}
        }
    }
}

/// The keeper compacts again when Head has moved on, and not before: 1,000 rows fill 250 pages, and what is relocated some more.
#[test]
fn compactions(rt: HostRuntime) -> Result<(), Fail> {
    let alloc = rt.alloc();
    let rows = fifty(alloc, 1_000, 3)?;
    let feeds = [rows.as_slice()];
    let opened = AtomicU64::new(0);
    let device = OpeningDevice {
        device: MemoryDevice::new(alloc),
        opened: &opened,
    };
    let gate = Paced::by(&opened);
    let mode = RowMode::Merge;
    let one = table::<Plain, _, _>(&rt, alloc, &feeds, 1, &SMALL, &Open, RowMode::Update)?;
    let made = summed_by::<Plain, _, _, _>(&rt, alloc, &feeds, 1, &SMALL, device, &gate, mode)?;
    assert!(rt; made.as_slice() == one.as_slice());
    let readers = opened.load(Ordering::SeqCst);
    assert!(rt; !gate.missed.load(Ordering::SeqCst), "{readers} readers");
    assert!(rt; readers < 32, "{readers} readers");
    Ok(())
}
