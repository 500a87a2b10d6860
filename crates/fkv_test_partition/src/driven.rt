//! A partition of sums over a device that may answer wrongly, with a clock of its own: each event is made at the next
//! moment, and once more where memory is refused to it.
ghost use Rattle.std.specs.Prelude.{◌≤◌};

use crate::calls::{
    Call, Told, Work, done_told, is_map, number_told, on_name, place_told, progress_told,
};
use fkv_compaction::Compactor;
use fkv_device::{Disk, FlushJob, Loaded, Page, Written};
use fkv_functions::{Ask, Built, Name, Refused, SumFns};
use fkv_operations::Clock;
use fkv_partition::{Config, Partition, Progress, ProgressOf};
use fkv_test_devices::{UnsureDevice, UnsureReader, UnsureReceipt, UnsureWriter};
use std::alloc::Global;

/// The contexts of a partition's sessions.
const CONTEXTS: usize = 128;

/// The contexts, and one place for each compactor behind them.
const PLACES: usize = 144;

/// What was last asked for in a context, or by a compactor.
#[derive(Drop)]
struct Asked {
    ask: Option<Ask<Name, i128, i64>>,
    receipt: Option<UnsureReceipt>,
}

/// A partition with its compactors, the last moment that it was given, what each context last asked for, and its device.
#[derive(Drop)]
pub struct Driven {
    pub compacted: Partition<SumFns, UnsureReceipt>,
    compactors: Vec<Compactor>,
    reader: UnsureReader,
    writer: UnsureWriter,
    asked: Vec<Asked>,
    pub now: u64,
    /// The moment of the effect of the operation that was done last.
    pub effect: u64,
    ghost timely: { compacted.moment ≤ now },
}

/// The place of a context among those of all sessions.
fn place_of(slot: usize, context: usize) -> usize {
    slot.saturating_mul(8).saturating_add(context)
}

/// As many places as there are contexts and compactors, in which nothing is asked for.
fn unasked(alloc: Global) -> Result<Vec<Asked>, Refused> {
    let mut asked = Vec::new(alloc);
    for _ in 0..PLACES {
        let nothing = Asked {
            ask: None,
            receipt: None,
        };
        let Ok(()) = asked.push(nothing) else {
            return Err(Refused::NoMemory);
        };
    }
    Ok(asked)
}

impl Driven {
    fn made(alloc: Global, config: &Config) -> Result<Driven, Refused> {
        let mut device = UnsureDevice::new(alloc);
        let writer = device.writer(0)?;
        let reader = device.reader(0)?;
        let asked = unasked(alloc)?;
        Ok(Driven {
            compacted: Partition::new(alloc, config, 0)?,
            compactors: Vec::new(alloc),
            reader,
            writer,
            asked,
            now: 0,
            effect: 0,
        })
    }

    /// A partition that is empty, made again where memory is refused once.
    pub fn new(alloc: Global, config: &Config) -> Result<Driven, Refused> {
        match Driven::made(alloc, config) {
            Err(Refused::NoMemory) => Driven::made(alloc, config),
            made => made,
        }
    }

    /// The live map, as a list, asked for again where memory is refused once.
    pub fn live(&mut self, alloc: Global) -> Result<Vec<(Name, i128)>, Refused> {
        match self.compacted.live(&SumFns, alloc, &mut self.reader) {
            Err(Refused::NoMemory) => self.compacted.live(&SumFns, alloc, &mut self.reader),
            live => live,
        }
    }

    /// The page that was last asked for at a place.
    fn came(&mut self, place: usize) -> Result<Loaded<UnsureReceipt>, Refused> {
        match self.asked.get(place) {
            Some(
                Asked {
                    ask: _,
                    receipt: Some(receipt),
                },
            ) => Loaded::fetch(&mut self.reader, receipt, 256),
            _ => Err(Refused::NotReady),
        }
    }

    /// Notes what an operation asked for, and tells what its event answered.
    fn note(
        &mut self,
        place: usize,
        progress: Result<ProgressOf<SumFns, UnsureReceipt>, Refused>,
    ) -> Told {
        let told = progress_told(&progress);
        match progress {
            Ok(Progress::Done(_, effect)) => self.effect = effect,
            Ok(Progress::NeedsBuild(ask)) => {
                if let Some(asked) = self.asked.get_mut(place) {
                    asked.ask = Some(ask);
                }
            }
            Ok(Progress::NeedsLoad(receipt, _)) => {
                if let Some(asked) = self.asked.get_mut(place) {
                    asked.receipt = Some(receipt);
                }
            }
            _ => (),
        }
        told
    }

    /// A call of sessions or offsets.
    fn offsets_told(&mut self, call: Call) -> Told {
        let Some(now) = self.now.checked_add(1) else {
            return Told::Refused(Refused::Worn);
        };
        self.now = now;
        match call {
            Call::Enter => place_told(self.compacted.enter(now)),
            Call::Leave(slot) => done_told(self.compacted.leave(slot, now)),
            Call::Refresh(slot) => done_told(self.compacted.refresh(slot, now)),
            Call::ReadOnly(page) => done_told(self.compacted.shift_read_only(page, now)),
            Call::Head(page) => done_told(self.compacted.shift_head(page, now)),
            Call::Truncate(page) => done_told(self.compacted.truncate(page, now)),
            Call::TruncateCleared => number_told(self.compacted.truncate_cleared(now)),
            _ => Told::Refused(Refused::Stalled),
        }
    }

    /// Writes a page, and hands it in.
    fn hand_in(&mut self, job: FlushJob) -> Told {
        let Some(now) = self.now.checked_add(1) else {
            return Told::Refused(Refused::Worn);
        };
        let page = job.page;
        let written = match Written::write(&mut self.writer, job) {
            Ok(written) => written,
            Err(refused) => return Told::Refused(refused),
        };
        self.now = now;
        match self.compacted.flush_done(written, now) {
            Ok(()) => Told::At(page),
            Err(refused) => Told::Refused(refused),
        }
    }

    /// Takes the lowest page, at a moment of its own.
    fn taken(&mut self, alloc: Global) -> Result<FlushJob, Refused> {
        let Some(now) = self.now.checked_add(1) else {
            return Err(Refused::Worn);
        };
        self.now = now;
        self.compacted.flush_take(alloc, now)
    }

    /// Hands in the lowest page, or zeros as the page of a number.
    fn flushed(&mut self, alloc: Global, number: Option<u64>) -> Told {
        let taken = match number {
            None => self.taken(alloc),
            Some(page) => match Page::copy_of(alloc, &[0u8; 256]) {
                Ok(bytes) => Ok(FlushJob { page, bytes }),
                Err(refused) => Err(refused),
            },
        };
        match taken {
            Ok(job) => self.hand_in(job),
            Err(refused) => Told::Refused(refused),
        }
    }

    /// Hands an operation a page, or the refusal that came in its place.
    fn loaded(
        &mut self,
        slot: usize,
        context: usize,
        came: Result<Loaded<UnsureReceipt>, Refused>,
    ) -> Told {
        let Some(now) = self.now.checked_add(1) else {
            return Told::Refused(Refused::Worn);
        };
        let progress = self.compacted.load(slot, context, came, &SumFns, now);
        self.now = now;
        self.note(place_of(slot, context), progress)
    }

    /// Has an operation read its page.
    fn read_told(&mut self, slot: usize, context: usize) -> Told {
        let Some(now) = self.now.checked_add(1) else {
            return Told::Refused(Refused::Worn);
        };
        let progress = self
            .compacted
            .load_by(slot, context, &SumFns, &mut self.reader, now);
        self.now = now;
        self.note(place_of(slot, context), progress)
    }

    /// Installs what is built for the question that was last asked in a context.
    fn installed(&mut self, slot: usize, context: usize) -> Told {
        let Some(now) = self.now.checked_add(1) else {
            return Told::Refused(Refused::Worn);
        };
        let place = place_of(slot, context);
        let ask = match self.asked.get(place) {
            Some(asked) => asked.ask,
            None => None,
        };
        let Some(ask) = ask else {
            return Told::Refused(Refused::NotReady);
        };
        let built = Built::make(&SumFns, ask);
        let progress = self.compacted.install(slot, context, built, &SumFns, now);
        self.now = now;
        self.note(place, progress)
    }

    /// A call of an operation that begins, goes on or is given up.
    fn opened_told(&mut self, call: Call) -> Told {
        let Some(now) = self.now.checked_add(1) else {
            return Told::Refused(Refused::Worn);
        };
        self.now = now;
        match call {
            Call::Issue(slot, op) => match on_name(op) {
                Some(op) => place_told(self.compacted.issue(slot, op, &SumFns, now)),
                None => Told::Refused(Refused::Stalled),
            },
            Call::Go(slot, context) => {
                let progress = self.compacted.go(slot, context, &SumFns, now);
                self.note(place_of(slot, context), progress)
            }
            Call::GiveUp(slot, context) => done_told(self.compacted.give_up(slot, context, now)),
            _ => Told::Refused(Refused::Stalled),
        }
    }

    /// A call that hands in a page, or a refusal in its place.
    fn loads_told(&mut self, call: Call) -> Told {
        match call {
            Call::Load(slot, context) => {
                let came = self.came(place_of(slot, context));
                self.loaded(slot, context, came)
            }
            Call::LoadOther(slot, context, from) => {
                let came = self.came(place_of(slot, from));
                self.loaded(slot, context, came)
            }
            Call::Fault(slot, context, refused) => self.loaded(slot, context, Err(refused)),
            _ => Told::Refused(Refused::Stalled),
        }
    }

    fn joined(&mut self) -> Told {
        let Some(now) = self.now.checked_add(1) else {
            return Told::Refused(Refused::Worn);
        };
        self.now = now;
        match Compactor::join(&mut self.compacted, now) {
            Err(refused) => Told::Refused(refused),
            Ok(compactor) => match self.compactors.push(compactor) {
                Ok(()) => Told::At(compactor.slot() as u64),
                Err(_) => Told::Refused(Refused::Stalled),
            },
        }
    }

    /// The next step of a compactor, or the one with the page, or the refusal, that came.
    fn moved(
        &mut self,
        compactor: Compactor,
        place: usize,
        came: Option<Result<Loaded<UnsureReceipt>, Refused>>,
    ) -> Told {
        let Some(now) = self.now.checked_add(1) else {
            return Told::Refused(Refused::Worn);
        };
        self.now = now;
        let moved = match came {
            None => compactor.next(&mut self.compacted, &SumFns, now),
            Some(came) => compactor.load(&mut self.compacted, came, &SumFns, now),
        };
        self.note(place, moved)
    }

    fn truncated(&mut self, compactor: Compactor) -> Told {
        let Some(now) = self.now.checked_add(1) else {
            return Told::Refused(Refused::Worn);
        };
        self.now = now;
        number_told(compactor.truncate_cleared(&mut self.compacted, now))
    }

    /// A compactor parts by a clock whose last moment is this one, which is not to be past.
    fn parted(&mut self, compactor: Compactor, last: u64) -> Told {
        if last < self.now {
            return Told::Refused(Refused::Stalled);
        }
        let mut clock = Clock::starting(last);
        let parted = compactor.part(&mut self.compacted, &mut clock);
        self.now = clock.last();
        done_told(parted)
    }

    /// A step of a compactor.
    fn work_told(&mut self, number: usize, work: Work) -> Told {
        let Some(compactor) = self.compactors.get(number).copied() else {
            return Told::Refused(Refused::Stalled);
        };
        let place = CONTEXTS.saturating_add(number);
        match work {
            Work::Next => self.moved(compactor, place, None),
            Work::Load => {
                let came = self.came(place);
                self.moved(compactor, place, Some(came))
            }
            Work::Fault(refused) => self.moved(compactor, place, Some(Err(refused))),
            Work::Truncate => self.truncated(compactor),
            Work::Part => self.parted(compactor, self.now),
            Work::PartAt(last) => self.parted(compactor, last),
            Work::Slot => Told::At(compactor.slot() as u64),
        }
    }

    /// A call that is no event.
    fn seen(&mut self, alloc: Global, call: Call) -> Told {
        match call {
            Call::Begin => Told::At(self.compacted.begin()),
            Call::Cleared => Told::At(self.compacted.cleared()),
            Call::Tail => Told::At(self.compacted.tail()),
            Call::Moment => Told::At(self.now),
            Call::Live(map) => match self.live(alloc) {
                Ok(pairs) => Told::Is(is_map(pairs.as_slice(), map)),
                Err(refused) => Told::Refused(refused),
            },
            Call::Stray(left, turn) => {
                self.reader.left = left;
                self.reader.turn = turn;
                Told::Ok
            }
            Call::FailWrite(left) => {
                self.writer.left = left;
                Told::Ok
            }
            _ => Told::Refused(Refused::Stalled),
        }
    }

    /// What a call tells that is at most one event.
    fn told_once(&mut self, alloc: Global, call: Call) -> Told {
        match call {
            Call::Enter
            | Call::Leave(_)
            | Call::Refresh(_)
            | Call::ReadOnly(_)
            | Call::Head(_)
            | Call::Truncate(_)
            | Call::TruncateCleared => self.offsets_told(call),
            Call::Issue(_, _) | Call::Go(_, _) | Call::GiveUp(_, _) => self.opened_told(call),
            Call::Load(_, _) | Call::LoadOther(_, _, _) | Call::Fault(_, _, _) => {
                self.loads_told(call)
            }
            Call::LoadBy(slot, context) => self.read_told(slot, context),
            Call::Install(slot, context) => self.installed(slot, context),
            Call::Flush => self.flushed(alloc, None),
            Call::HandIn(page) => self.flushed(alloc, Some(page)),
            Call::Join => self.joined(),
            Call::By(number, work) => self.work_told(number, work),
            _ => self.seen(alloc, call),
        }
    }

    /// What a call tells that is at most one event, made again where memory is refused to it once.
    pub fn step(&mut self, alloc: Global, call: Call) -> Told {
        match self.told_once(alloc, call) {
            Told::Refused(Refused::NoMemory) => self.told_once(alloc, call),
            told => told,
        }
    }
}
