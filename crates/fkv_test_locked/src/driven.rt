//! A locked partition of sums over a device in memory, with one caller and one compactor.
ghost use Rattle.std.specs.Prelude.{◌≡◌, length};

use fkv_compaction::Compactor;
use fkv_device::{Disk, Loaded, MemoryDevice, MemoryReader, MemoryReceipt, MemoryWriter, Written};
use fkv_functions::{Built, Name, Refused, SumFns};
use fkv_histories::Recorder;
use fkv_locked::{EndedPartition, FinishedOf, Locked, OpenOperationOf, Owns, SessionId, Turn};
use fkv_operations::{Answer, KeyedOp, KeyedOpOf};
use fkv_partition::{Config, Progress};
use std::alloc::Global;

/// 256 buckets, pages of 256 bytes and two frames.
const CONFIG: Config = Config {
    id: 1,
    partition_bits: 0,
    bucket_bits: 8,
    page_bits: 8,
    frames: 2,
    turns: 1_000,
};

/// The events that an operation or a relocation may take.
const EVENTS: usize = 100;

/// One call. A key is one letter.
#[derive(Clone, Copy)]
pub enum Call {
    /// Operations of the caller, each driven to its end.
    Upsert(u8, i128),
    Add(u8, i64),
    Read(u8),
    /// An operation that writes in place, in one call; where it is not finished so it tells no more than that.
    AddAtOnce(u8, i64),
    UpsertAtOnce(u8, i128),
    MergeAtOnce(u8, i64),
    DeleteAtOnce(u8),
    /// A read, in one call; where a page has to be read for it, it tells no more than that.
    ReadAtOnce(u8),
    /// The read-only offset moves to a page, or Head does; the caller's session is refreshed; the lowest page is flushed.
    ReadOnly(u64),
    Head(u64),
    Refresh,
    Flush,
    /// The compactor is refreshed, relocates once, cuts the log's start, or parts.
    RefreshCompactor,
    Relocate,
    Truncate,
    Leave,
}

/// What a call tells.
#[derive(Clone, Copy, PartialEq)]
pub enum Told {
    Ok,
    /// A page or an address.
    At(u64),
    Done(Answer<i128>),
    Refused(Refused),
}

/// A call, and what it is to tell.
pub type Row = (Call, Told);

/// A locked partition, its device, and who is in it.
#[derive(Drop)]
pub struct Driven<H: Recorder<SumFns>> {
    locked: Locked<SumFns, MemoryReceipt, H>,
    reader: MemoryReader,
    writer: MemoryWriter,
    session: SessionId,
    compactor: Compactor,
    /// What the caller was answered, in one partition.
    owns: Owns<SumFns, H>,
    ghost in_one: { length owns.told ≡ 1 },
}

impl<H: Recorder<SumFns>> Driven<H> {
    pub fn new(alloc: Global) -> Result<Driven<H>, Refused> {
        let mut device = MemoryDevice::new(alloc);
        let writer = device.writer(0)?;
        let reader = device.reader(0)?;
        let mut locked = Locked::new(alloc, &CONFIG, 0)?;
        let session = locked.enter()?;
        let compactor = locked.join()?;
        let owns = Owns::fresh(alloc, 1)?;
        Ok(Driven {
            locked,
            reader,
            writer,
            session,
            compactor,
            owns,
        })
    }

    pub fn end(self, alloc: Global) -> EndedPartition<SumFns, MemoryReceipt> {
        self.locked.end(alloc)
    }

    /// An operation of the caller, driven to its end.
    fn done(&mut self, op: KeyedOpOf<SumFns>) -> Result<Told, Refused> {
        let operation = self.issued(op)?;
        self.ended(&operation)
    }

    /// An operation of the caller, issued.
    pub fn issued(&mut self, op: KeyedOpOf<SumFns>) -> Result<OpenOperationOf<SumFns>, Refused> {
        let told = self.owns.told_at(0);
        self.locked.issue(self.session, op, told, &SumFns)
    }

    /// The receipt of the page that an operation needs after its next event, if it needs one.
    pub fn looked(
        &mut self,
        operation: &OpenOperationOf<SumFns>,
    ) -> Result<Option<MemoryReceipt>, Refused> {
        self.owns.make_room(0)?;
        match self.locked.go(operation, &SumFns)? {
            Turn::NeedsLoad(receipt, _address) => Ok(Some(receipt)),
            Turn::Done(finished) => {
                let _answer = self.owns.take(0, finished);
                Ok(None)
            }
            Turn::Next | Turn::NeedsBuild(_) | Turn::Waits(_) => Ok(None),
        }
    }

    /// What an operation is answered by the page that it needs.
    pub fn loaded(
        &mut self,
        operation: &OpenOperationOf<SumFns>,
        receipt: &MemoryReceipt,
    ) -> Result<Told, Refused> {
        self.owns.make_room(0)?;
        let came = fetched(&self.locked, &mut self.reader, receipt);
        match self.locked.load(operation, came, &SumFns)? {
            Turn::Done(finished) => Ok(Told::Done(self.owns.take(0, finished))),
            Turn::Next | Turn::NeedsBuild(_) | Turn::NeedsLoad(_, _) | Turn::Waits(_) => {
                Ok(Told::Ok)
            }
        }
    }

    /// An operation that was issued, driven to its end.
    pub fn ended(&mut self, operation: &OpenOperationOf<SumFns>) -> Result<Told, Refused> {
        self.owns.make_room(0)?;
        let finished = drive(&mut self.locked, &mut self.reader, operation)?;
        Ok(Told::Done(self.owns.take(0, finished)))
    }

    /// An operation of the caller that writes in place, in one call.
    fn done_at_once(&mut self, op: KeyedOpOf<SumFns>) -> Result<Told, Refused> {
        self.owns.make_room(0)?;
        let told = self.owns.told_at(0);
        match self
            .locked
            .try_write_in_place(self.session, &op, told, &SumFns)?
        {
            Some(finished) => Ok(Told::Done(self.owns.take(0, finished))),
            None => Ok(Told::Ok),
        }
    }

    /// A read of the caller, in one call.
    fn try_read_in_memory(&mut self, letter: u8) -> Result<Told, Refused> {
        let key = key(letter)?;
        self.owns.make_room(0)?;
        let told = self.owns.told_at(0);
        match self
            .locked
            .try_read_in_memory(self.session, &key, &0, told, &SumFns)?
        {
            Some(finished) => Ok(Told::Done(self.owns.take(0, finished))),
            None => Ok(Told::Ok),
        }
    }

    /// A relocation, driven to its end.
    fn relocated(&mut self) -> Result<Told, Refused> {
        let mut progress = self.locked.next(&self.compactor, &SumFns)?;
        for _event in 0..EVENTS {
            progress = match progress {
                Progress::Next => self.locked.next(&self.compactor, &SumFns)?,
                Progress::NeedsLoad(receipt, _address) => {
                    let came = fetched(&self.locked, &mut self.reader, &receipt);
                    self.locked.load_relocation(&self.compactor, came, &SumFns)?
                }
                Progress::Done(answer, _effect) => return Ok(Told::Done(answer)),
                Progress::NeedsBuild(_) | Progress::Waits(_) => return Err(Refused::Stalled),
            };
        }
        Err(Refused::Stalled)
    }

    /// The lowest page is taken, written, and handed in.
    fn flushed(&mut self, alloc: Global) -> Result<Told, Refused> {
        let job = self.locked.flush_take(alloc)?;
        let page = job.page;
        let written = Written::write(&mut self.writer, job)?;
        self.locked.flush_done(written)?;
        Ok(Told::At(page))
    }

    fn made(&mut self, alloc: Global, call: Call) -> Result<Told, Refused> {
        match call {
            Call::Upsert(letter, value) => self.done(KeyedOp::Upsert(key(letter)?, value)),
            Call::Add(letter, amount) => self.done(KeyedOp::Rmw(key(letter)?, amount)),
            Call::Read(letter) => self.done(KeyedOp::Read(key(letter)?, 0)),
            Call::AddAtOnce(letter, amount) => self.done_at_once(KeyedOp::Rmw(
                key(letter)?,
                amount,
            )),
            Call::UpsertAtOnce(letter, value) => {
                self.done_at_once(KeyedOp::Upsert(key(letter)?, value))
            }
            Call::MergeAtOnce(letter, amount) => {
                self.done_at_once(KeyedOp::Merge(key(letter)?, amount))
            }
            Call::DeleteAtOnce(letter) => self.done_at_once(KeyedOp::Delete(key(letter)?)),
            Call::ReadAtOnce(letter) => self.try_read_in_memory(letter),
            Call::ReadOnly(page) => {
                self.locked.shift_read_only(page)?;
                Ok(Told::Ok)
            }
            Call::Head(page) => {
                self.locked.shift_head(page)?;
                Ok(Told::Ok)
            }
            Call::Refresh => {
                self.locked.refresh(self.session)?;
                Ok(Told::Ok)
            }
            Call::Flush => self.flushed(alloc),
            Call::RefreshCompactor => {
                self.locked.refresh_compactor(&self.compactor)?;
                Ok(Told::Ok)
            }
            Call::Relocate => self.relocated(),
            Call::Truncate => {
                let begin = self.locked.truncate_cleared(&self.compactor)?;
                Ok(Told::At(begin))
            }
            Call::Leave => {
                self.locked.part(self.compactor)?;
                Ok(Told::Ok)
            }
        }
    }

    fn told(&mut self, alloc: Global, call: Call) -> Told {
        match self.made(alloc, call) {
            Ok(told) => told,
            Err(refused) => Told::Refused(refused),
        }
    }

    /// The number of the first row that tells something else.
    pub fn first_other(&mut self, alloc: Global, rows: &[Row]) -> Option<usize> {
        rows.iter().position(|row| self.told(alloc, row.0) != row.1)
    }
}

/// The page that is asked for.
fn fetched<H: Recorder<SumFns>>(
    locked: &Locked<SumFns, MemoryReceipt, H>,
    reader: &mut MemoryReader,
    receipt: &MemoryReceipt,
) -> Result<Loaded<MemoryReceipt>, Refused> {
    Loaded::fetch(reader, receipt, locked.page_size())
}

/// An operation that was issued, driven to its end.
fn drive<H: Recorder<SumFns>>(
    locked: &mut Locked<SumFns, MemoryReceipt, H>,
    reader: &mut MemoryReader,
    operation: &OpenOperationOf<SumFns>,
) -> Result<FinishedOf<SumFns>, Refused> {
    let mut turn = locked.go(operation, &SumFns)?;
    for _event in 0..EVENTS {
        turn = match turn {
            Turn::Done(finished) => return Ok(finished),
            Turn::Next => locked.go(operation, &SumFns)?,
            Turn::NeedsBuild(ask) => {
                let built = Built::make(&SumFns, ask);
                locked.install(operation, built, &SumFns)?
            }
            Turn::NeedsLoad(receipt, _address) => {
                let came = fetched(locked, reader, &receipt);
                locked.load(operation, came, &SumFns)?
            }
            Turn::Waits(_why) => return Err(Refused::Stalled),
        };
    }
    match turn {
        Turn::Done(finished) => Ok(finished),
        Turn::Next | Turn::NeedsBuild(_) | Turn::NeedsLoad(_, _) | Turn::Waits(_) => {
            Err(Refused::Stalled)
        }
    }
}

/// The key of a letter.
pub fn key(letter: u8) -> Result<Name, Refused> {
    match Name::new(&[letter]) {
        Some(name) => Ok(name),
        None => Err(Refused::Unknown),
    }
}
