//! A partition of sums over one file, whose operations are made alone, with a clock of its own: each event is made at the next
//! moment.
ghost use Rattle.std.specs.Prelude.{◌<◌, ◌≤◌};

use fkv_alone::run_alone;
use fkv_device::{Disk, FileDevice, FileReader, FileReceipt, FileWriter, Written};
use fkv_functions::{Name, Refused, SumFns};
use fkv_operations::{Answer, Clock, KeyedOp};
use fkv_partition::{Config, Partition, Progress, Wait};
use std::alloc::Global;
use std::fs::File;
use std::test::Fail;

/// 256 buckets, pages of 256 bytes and two frames.
const CONFIG: Config = Config {
    id: 1,
    partition_bits: 0,
    bucket_bits: 8,
    page_bits: 8,
    frames: 2,
    turns: 1_000_000,
};

/// One call. A number that stands alone is a slot.
#[derive(Clone, Copy)]
pub enum Call {
    Enter,
    Refresh(usize),
    ReadOnly(u64),
    Head(u64),
    Flush,
    /// Makes an operation on a key of one letter alone.
    Upsert(u8, i128),
    Read(u8),
}

/// What a call tells.
#[derive(Clone, Copy, PartialEq)]
pub enum Told {
    Ok,
    /// A slot or a page.
    At(u64),
    Done(Answer<i128>),
    Waits,
    Refused(Refused),
}

/// A call, and what it is to tell.
pub type Row = (Call, Told);

/// A partition, the last moment that it was given, and its device.
#[derive(Drop)]
pub struct Filed {
    partition: Partition<SumFns, FileReceipt<File>>,
    reader: FileReader<File>,
    writer: FileWriter<File>,
    now: u64,
    ghost timely: { partition.moment ≤ now },
}

fn done_told(done: Result<(), Refused>) -> Told {
    match done {
        Ok(()) => Told::Ok,
        Err(refused) => Told::Refused(refused),
    }
}

impl Filed {
    /// A partition that is empty, over a file of this folder, which is made anew.
    pub fn new(rt: &HostRuntime, folder: &str) -> Result<Filed, Fail> {
        let alloc = rt.alloc();
        let folder = String::from_str(alloc, folder)?;
        let mut device = FileDevice::new(rt.clone()?, alloc, folder, 8);
        let writer = device.writer(0)?;
        let reader = device.reader(0)?;
        Ok(Filed {
            partition: Partition::new(alloc, &CONFIG, 0)?,
            reader,
            writer,
            now: 0,
        })
    }

    /// Takes the lowest page, writes it, and hands it in.
    fn flushed(&mut self, alloc: Global, now: u64) -> Told
        requires { self.old.partition.moment < now }
    {
        let Some(later) = now.checked_add(1) else {
            return Told::Refused(Refused::Worn);
        };
        let job = match self.partition.flush_take(alloc, now) {
            Ok(job) => job,
            Err(refused) => return Told::Refused(refused),
        };
        self.now = later;
        let page = job.page;
        let written = match Written::write(&mut self.writer, job) {
            Ok(written) => written,
            Err(refused) => return Told::Refused(refused),
        };
        match self.partition.flush_done(written, later) {
            Ok(()) => Told::At(page),
            Err(refused) => Told::Refused(refused),
        }
    }

    fn done(&mut self, op: KeyedOp<Name, i128, i64>) -> Told {
        let mut clock = Clock::starting(self.now);
        let alone = run_alone(
            &mut self.partition,
            0,
            op,
            &SumFns,
            &mut self.reader,
            &mut clock,
            100,
        );
        self.now = clock.last();
        match alone.progress {
            Ok(Progress::Done(answer, _)) => Told::Done(answer),
            Ok(_) => Told::Waits,
            Err(refused) => Told::Refused(refused),
        }
    }

    fn told(&mut self, alloc: Global, call: Call) -> Told {
        let Some(now) = self.now.checked_add(1) else {
            return Told::Refused(Refused::Worn);
        };
        match call {
            Call::Flush => return self.flushed(alloc, now),
            Call::Upsert(letter, value) => {
                return match Name::new(&[letter]) {
                    Some(name) => self.done(KeyedOp::Upsert(name, value)),
                    None => Told::Waits,
                };
            }
            Call::Read(letter) => {
                return match Name::new(&[letter]) {
                    Some(name) => self.done(KeyedOp::Read(name, 0)),
                    None => Told::Waits,
                };
            }
            _ => (),
        }
        self.now = now;
        match call {
            Call::Enter => match self.partition.enter(now) {
                Ok(slot) => Told::At(slot as u64),
                Err(refused) => Told::Refused(refused),
            },
            Call::Refresh(slot) => done_told(self.partition.refresh(slot, now)),
            Call::ReadOnly(page) => done_told(self.partition.shift_read_only(page, now)),
            Call::Head(page) => done_told(self.partition.shift_head(page, now)),
            _ => Told::Waits,
        }
    }

    /// The number of the first row that tells something else.
    pub fn first_other(&mut self, alloc: Global, rows: &[Row]) -> Option<usize> {
        rows.iter().position(|row| self.told(alloc, row.0) != row.1)
    }
}
