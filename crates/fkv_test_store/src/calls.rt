//! A store of sums over memory with two passes, and rows of calls with what each tells.
use fkv_device::Disk;
use fkv_functions::{Name, Refused, SumFns};
use fkv_histories::Recorder;
use fkv_operations::{Answer, KeyedOp};
use fkv_partition::Config;
use fkv_store::{Events, Gate, KEEPER, Loads, Open, Pass, Place, Store};
use std::alloc::Global;
use std::rt::Clock;
use std::sync::Wait;
use std::sync::atomic::{AtomicBool, AtomicU64, Ordering};
use std::test::Fail;

/// One partition, 256 buckets, pages of 256 bytes and two frames.
pub const SMALL: Config = Config {
    id: 1,
    partition_bits: 0,
    bucket_bits: 8,
    page_bits: 8,
    frames: 2,
    turns: 1_000_000,
};

/// The same, where an operation may take ten turns.
pub const IMPATIENT: Config = Config {
    id: 1,
    partition_bits: 0,
    bucket_bits: 8,
    page_bits: 8,
    frames: 2,
    turns: 10,
};

/// A gate that counts how often a page is read, and how often a pass holds the lock of a partition.
#[derive(Drop)]
pub struct Counted {
    loads: AtomicU64,
    holds: AtomicU64,
}

impl Gate for Counted {
    fn pass(&self, worker: u32, place: Place) {
        match place {
            Place::Load => {
                self.loads.fetch_add(1, Ordering::SeqCst);
            }
            Place::Locked(_) if worker != KEEPER => {
                self.holds.fetch_add(1, Ordering::SeqCst);
            }
            _ => {}
        }
    }
}

/// A gate that tells a compaction to stop when it is going to read a page.
#[derive(Drop)]
struct Stops(AtomicBool);

impl Gate for Stops {
    fn pass(&self, _worker: u32, place: Place) {
        if place == Place::Load {
            self.0.store(true, Ordering::SeqCst);
        }
    }
}

/// One call. The first number is that of a pass.
#[derive(Clone, Copy)]
pub enum Call {
    /// Operations on a key of one letter.
    Upsert(usize, u8, i128),
    Update(usize, u8, i64),
    Merge(usize, u8, i64),
    Read(usize, u8),
    /// An update of a key of one letter, or a merge where that would read a page.
    UpdateOrMerge(usize, u8, i64),
    /// Updates of keys of one letter, in one call.
    UpdateAll(usize, &'static [(u8, i64)], Loads),
    Refresh(usize),
    Rest(usize),
    /// Moves the pages of this partition.
    Tidy(usize),
    /// Relocates and truncates this partition.
    Compact(usize),
    /// The same, but it is told to stop when it reads its first page.
    Stop(usize),
    /// How often a page was read for an operation so far.
    Loads,
    /// How often a pass held the lock of a partition so far.
    Holds,
}

/// What a call tells.
#[derive(Clone, Copy, PartialEq)]
pub enum Told {
    Ok,
    Count(u64),
    Done(Answer<i128>),
    Refused(Refused),
}

/// A call, and what it is to tell.
pub type Row = (Call, Told);

/// A store with its passes.
#[derive(Drop)]
pub struct Called<D: Disk, H: Recorder<SumFns>> {
    pub store: Store<SumFns, D, H>,
    pub passes: Vec<Pass<SumFns, D, H>>,
    counted: Counted,
}

fn done_told(done: Result<(), Refused>) -> Told {
    match done {
        Ok(()) => Told::Ok,
        Err(refused) => Told::Refused(refused),
    }
}

/// The operation on a key of one letter, and the pass that asks for it.
fn asked(call: Call) -> Option<(usize, KeyedOp<Name, i128, i64>)> {
    match call {
        Call::Upsert(pass, letter, value) => {
            Some((pass, KeyedOp::Upsert(Name::new(&[letter])?, value)))
        }
        Call::Update(pass, letter, amount) => {
            Some((pass, KeyedOp::Rmw(Name::new(&[letter])?, amount)))
        }
        Call::Merge(pass, letter, amount) => {
            Some((pass, KeyedOp::Merge(Name::new(&[letter])?, amount)))
        }
        Call::Read(pass, letter) => Some((pass, KeyedOp::Read(Name::new(&[letter])?, 0))),
        _ => None,
    }
}

impl<D: Disk, H: Recorder<SumFns>> Called<D, H> {
    /// A store of this configuration over a device, with nothing in it, and two passes, whose numbers are 0 and 1.
    pub fn new(
        rt: &(impl Wait + Clock),
        alloc: Global,
        config: &Config,
        device: D,
    ) -> Result<Called<D, H>, Fail> {
        let store = Store::open(alloc, config, SumFns, device)?;
        let mut passes = Vec::new(alloc);
        for worker in 0..2u32 {
            passes.push(store.pass(rt, alloc, worker)?)?;
        }
        Ok(Called {
            store,
            passes,
            counted: Counted {
                loads: AtomicU64::new(0),
                holds: AtomicU64::new(0),
            },
        })
    }

    fn told(&mut self, rt: &(impl Wait + Clock), alloc: Global, call: Call) -> Told {
        if let Some(asked) = asked(call) {
            let (pass, op) = asked;
            if pass >= self.passes.len() {
                return Told::Refused(Refused::Unknown);
            }
            return match self.passes[pass].run(rt, alloc, &self.store, op, &self.counted) {
                Ok(answer) => Told::Done(answer),
                Err(refused) => Told::Refused(refused),
            };
        }
        match call {
            Call::UpdateOrMerge(pass, letter, amount) if pass < self.passes.len() => {
                let Some(key) = Name::new(&[letter]) else {
                    return Told::Refused(Refused::Unknown);
                };
                let Called {
                    store,
                    passes,
                    counted,
                } = self;
                done_told(passes[pass].update_or_merge(rt, alloc, store, key, amount, counted))
            }
            Call::UpdateAll(pass, letters, loads) if pass < self.passes.len() => {
                done_told(self.update_all(rt, alloc, pass, letters, loads))
            }
            Call::Refresh(pass) if pass < self.passes.len() => {
                done_told(self.passes[pass].refresh(rt, &self.store))
            }
            Call::Rest(pass) if pass < self.passes.len() => {
                done_told(self.passes[pass].rest(rt, &self.store))
            }
            Call::Tidy(partition) => match self.store.tidy(rt, alloc, partition, &Open) {
                Ok(head) => Told::Count(head),
                Err(refused) => Told::Refused(refused),
            },
            Call::Compact(partition) => done_told(self.store.compact(rt, partition, &Open)),
            Call::Stop(partition) => done_told(self.stop(rt, partition)),
            Call::Holds => Told::Count(self.holds()),
            _ => Told::Count(self.counted.loads.load(Ordering::SeqCst)),
        }
    }

    /// Refused as a pass is, and `NoMemory`; `Unknown` where there is no such pass.
    fn update_all(
        &mut self,
        rt: &(impl Wait + Clock),
        alloc: Global,
        pass: usize,
        letters: &[(u8, i64)],
        loads: Loads,
    ) -> Result<(), Refused> {
        let mut rows = Vec::new(alloc);
        for (letter, amount) in letters {
            let Some(key) = Name::new(&[*letter]) else {
                return Err(Refused::Unknown);
            };
            let Ok(()) = rows.push((key, *amount)) else {
                return Err(Refused::NoMemory);
            };
        }
        let Called {
            store,
            passes,
            counted,
        } = self;
        if pass >= passes.len() {
            return Err(Refused::Unknown);
        }
        passes[pass].update_all(rt, alloc, store, &rows, loads, counted)
    }

    fn stop(&self, rt: &impl Wait, partition: usize) -> Result<(), Refused> {
        let stops = Stops(AtomicBool::new(false));
        let mut events = Events::none();
        self.store
            .compact_until(rt, partition, &stops, &mut events, &stops.0)
    }

    /// How often its passes held the lock of a partition for an operation.
    pub fn holds(&self) -> u64 {
        self.counted.holds.load(Ordering::SeqCst)
    }

    /// The number of the first row that tells something else.
    pub fn first_other(
        &mut self,
        rt: &(impl Wait + Clock),
        alloc: Global,
        rows: &[Row],
    ) -> Option<usize> {
        rows.iter()
            .position(|row| self.told(rt, alloc, row.0) != row.1)
    }
}

impl<D: Disk, H: Recorder<SumFns>> Called<D, H> {
    /// Closes the store with the first of its passes, so many of them: what key a has, how many keys there are, and how many
    /// operations were finished.
    pub fn closed(
        self,
        alloc: Global,
        passes: usize,
    ) -> Result<(Option<i128>, usize, u64), Refused> {
        let Called {
            store,
            passes: mut all,
            ..
        } = self;
        all.truncate(passes);
        let closed = store.close(alloc, all)?;
        let held = match Name::new(b"a") {
            Some(key) => closed.map.get(&key).copied(),
            None => None,
        };
        Ok((held, closed.map.len(), closed.finished))
    }
}
