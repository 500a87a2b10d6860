//! A partition of sums whose operations are made alone, over a device that may answer wrongly, with a clock of its own: each event is
//! made at the next moment, and each call once more where memory is refused to it.
ghost use Rattle.std.specs.Prelude.{◌≡◌, ◌≤◌, ⊤};

use crate::calls::{LetterOp, Told, done_told, is_map, on_name, place_told, progress_told};
use fkv_alone::run_alone;
use fkv_device::{Disk, Loaded, Written};
use fkv_functions::{Refused, SumFns};
use fkv_operations::Clock;
use fkv_partition::{Config, Partition, Progress, ProgressOf};
use fkv_test_devices::{Turn, UnsureDevice, UnsureReader, UnsureReceipt, UnsureWriter};
use std::alloc::{AllocError, Global};

/// One call. Where two numbers stand, the first is a slot and the second a context of it.
#[derive(Copy)]
pub enum Step {
    Enter,
    Refresh(usize),
    ReadOnly(u64),
    Head(u64),
    Flush,
    Issue(usize, LetterOp),
    Go(usize, usize),
    /// Hands in the page that was last asked for.
    Load(usize, usize),
    /// Makes an operation alone, by at most so many events.
    Alone(usize, LetterOp, u64),
    /// From now on the reader answers wrongly so, once, after so many pages.
    Stray(u64, Turn),
}

impl Clone for Step {
    ghost is_clone = { λ x y. y ≡ x };

    ghost is_infallible = { λ _. ⊤ };

    fn clone(&self) -> Result<Self, AllocError> {
        Ok(*self)
    }
}

/// A call, what it is to tell, and the events of an operation that is made alone, or 0.
pub type Row = (Step, Told, u64);

/// A partition, the last moment that it was given, the receipt of the page that was last asked for, and its device.
#[derive(Drop)]
struct Lone {
    partition: Partition<SumFns, UnsureReceipt>,
    reader: UnsureReader,
    writer: UnsureWriter,
    receipt: Option<UnsureReceipt>,
    now: u64,
    ghost timely: { partition.moment ≤ now },
}

impl Lone {
    fn new(alloc: Global, config: &Config) -> Result<Lone, Refused> {
        let mut device = UnsureDevice::new(alloc);
        let writer = device.writer(0)?;
        let reader = device.reader(0)?;
        Ok(Lone {
            partition: Partition::new(alloc, config, 0)?,
            reader,
            writer,
            receipt: None,
            now: 0,
        })
    }

    /// Takes the lowest page, writes it, and hands it in.
    fn flush(&mut self, alloc: Global) -> Told {
        let Some(taken) = self.now.checked_add(1) else {
            return Told::Refused(Refused::Worn);
        };
        let job = self.partition.flush_take(alloc, taken);
        self.now = taken;
        let job = match job {
            Ok(job) => job,
            Err(refused) => return Told::Refused(refused),
        };
        let page = job.page;
        let written = match Written::write(&mut self.writer, job) {
            Ok(written) => written,
            Err(refused) => return Told::Refused(refused),
        };
        let Some(now) = self.now.checked_add(1) else {
            return Told::Refused(Refused::Worn);
        };
        let done = self.partition.flush_done(written, now);
        self.now = now;
        match done {
            Ok(()) => Told::At(page),
            Err(refused) => Told::Refused(refused),
        }
    }

    fn alone(&mut self, slot: usize, op: LetterOp, limit: u64) -> (Told, u64) {
        let Some(op) = on_name(op) else {
            return (Told::Refused(Refused::Stalled), 0);
        };
        let Some(op) = op.keyed() else {
            return (Told::Refused(Refused::Stalled), 0);
        };
        let mut clock = Clock::starting(self.now);
        let alone = run_alone(
            &mut self.partition,
            slot,
            op,
            &SumFns,
            &mut self.reader,
            &mut clock,
            limit,
        );
        self.now = clock.last();
        (progress_told(&alone.progress), alone.events)
    }

    /// Notes what an operation asked for, and tells what its event answered.
    fn note(&mut self, progress: Result<ProgressOf<SumFns, UnsureReceipt>, Refused>) -> Told {
        let told = progress_told(&progress);
        if let Ok(Progress::NeedsLoad(receipt, _)) = progress {
            self.receipt = Some(receipt);
        }
        told
    }

    fn go(&mut self, slot: usize, context: usize) -> Told {
        let Some(now) = self.now.checked_add(1) else {
            return Told::Refused(Refused::Worn);
        };
        let progress = self.partition.go(slot, context, &SumFns, now);
        self.now = now;
        self.note(progress)
    }

    /// Hands in the page that was last asked for.
    fn load(&mut self, slot: usize, context: usize) -> Told {
        let Some(now) = self.now.checked_add(1) else {
            return Told::Refused(Refused::Worn);
        };
        let came = match &self.receipt {
            None => return Told::Refused(Refused::NotReady),
            Some(receipt) => { Loaded::fetch(&mut self.reader, receipt, 256) }
        };
        let progress = self.partition.load(slot, context, came, &SumFns, now);
        self.now = now;
        self.note(progress)
    }

    /// A call of sessions or offsets, or one that issues.
    fn begun(&mut self, step: Step) -> Told {
        let Some(now) = self.now.checked_add(1) else {
            return Told::Refused(Refused::Worn);
        };
        self.now = now;
        match step {
            Step::Enter => place_told(self.partition.enter(now)),
            Step::Refresh(slot) => done_told(self.partition.refresh(slot, now)),
            Step::ReadOnly(page) => done_told(self.partition.shift_read_only(page, now)),
            Step::Head(page) => done_told(self.partition.shift_head(page, now)),
            Step::Issue(slot, op) => match on_name(op) {
                Some(op) => place_told(self.partition.issue(slot, op, &SumFns, now)),
                None => Told::Refused(Refused::Stalled),
            },
            _ => Told::Refused(Refused::Stalled),
        }
    }

    /// What a call tells, and the events that it took of an operation alone.
    fn told(&mut self, alloc: Global, step: Step) -> (Told, u64) {
        match step {
            Step::Flush => (self.flush(alloc), 0),
            Step::Go(slot, context) => (self.go(slot, context), 0),
            Step::Load(slot, context) => (self.load(slot, context), 0),
            Step::Alone(slot, op, limit) => self.alone(slot, op, limit),
            Step::Stray(left, turn) => {
                self.reader.left = left;
                self.reader.turn = turn;
                (Told::Ok, 0)
            }
            step => (self.begun(step), 0),
        }
    }

    /// Whether the live map, asked for again where memory is refused once, is this one.
    fn is_live(&mut self, alloc: Global, map: &[(u8, i128)]) -> bool {
        let live = match self.partition.live(&SumFns, alloc, &mut self.reader) {
            Err(Refused::NoMemory) => self.partition.live(&SumFns, alloc, &mut self.reader),
            live => live,
        };
        match live {
            Ok(pairs) => is_map(pairs.as_slice(), map),
            Err(_) => false,
        }
    }

    /// The number of the first row that tells something else.
    fn first_other(&mut self, alloc: Global, rows: &[Row]) -> Option<usize> {
        for (at, row) in rows.iter().enumerate() {
            let told = match self.told(alloc, row.0) {
                (Told::Refused(Refused::NoMemory), _) => self.told(alloc, row.0),
                told => told,
            };
            if told != (row.1, row.2) {
                return Some(at);
            }
        }
        None
    }
}

/// A worked run: the rows of its opening, its own, and the live map at its end.
#[derive(Drop)]
pub struct Run {
    pub name: &'static str,
    pub config: Config,
    pub opening: &'static [Row],
    pub rows: &'static [Row],
    pub map: &'static [(u8, i128)],
}

/// The number of the first row that tells something else, the opening's first; that of all rows where the live map at the end
/// is another; and none where all is as wanted.
pub fn first_wrong(alloc: Global, run: &Run) -> Option<usize> {
    let made = match Lone::new(alloc, &run.config) {
        Err(Refused::NoMemory) => Lone::new(alloc, &run.config),
        made => made,
    };
    let Ok(mut lone) = made else {
        return Some(0);
    };
    if let Some(at) = lone.first_other(alloc, run.opening) {
        return Some(at);
    }
    let before = run.opening.len();
    if let Some(at) = lone.first_other(alloc, run.rows) {
        return Some(before.saturating_add(at));
    }
    if lone.is_live(alloc, run.map) {
        None
    } else {
        Some(before.saturating_add(run.rows.len()))
    }
}
