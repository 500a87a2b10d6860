//! A partition beside its device and its clock.
ghost use Rattle.std.specs.Prelude.{◌≤◌};

use crate::latest_inputs::LatestFns;
use fkv_alone::run_alone;
use fkv_device::{Disk, FileDevice, FileReader, FileReceipt, FileWriter, Written};
use fkv_functions::{Name, Refused};
use fkv_operations::{Clock, KeyedOp};
use fkv_partition::{Config, Partition, Progress, ProgressOf};
use std::alloc::Global;
use std::fs::File;

/// One partition, in pages of 256 bytes. A record of a name and a value of 16 bytes has 56.
pub const CONFIG: Config = Config {
    id: 1,
    partition_bits: 0,
    bucket_bits: 4,
    page_bits: 8,
    frames: 4,
    turns: 1_000,
};

/// So many events are enough for an operation that is driven alone.
const LIMIT: u64 = 100;

/// What an event tells of an operation.
pub type Told = ProgressOf<LatestFns, FileReceipt<File>>;

/// A partition beside its device and its clock. The moments of a partition rise, so each event is made at the clock's next
/// one.
#[derive(Drop)]
pub struct Store {
    pub partition: Partition<LatestFns, FileReceipt<File>>,
    pub reader: FileReader<File>,
    writer: FileWriter<File>,
    pub clock: Clock,
    ghost timely: { partition.moment ≤ clock },
}

impl Store {
    /// An empty store, whose pages go to a file in this folder.
    pub fn open(rt: HostRuntime, alloc: Global, folder: &str) -> Result<Store, Refused> {
        let Ok(folder) = String::from_str(alloc, folder) else {
            return Err(Refused::NoMemory);
        };
        let mut device = FileDevice::new(rt, alloc, folder, 8);
        // the writer comes first: it makes the folder and the file
        let writer = device.writer(0)?;
        let reader = device.reader(0)?;
        Ok(Store {
            partition: Partition::new(alloc, &CONFIG, 0)?,
            reader,
            writer,
            clock: Clock::starting(0),
        })
    }

    /// Makes an update from its issue to its end, with no other event in between. One that waits has not been made, and is told as
    /// `Stalled`: a store whose pages fill its frames moves them on first, as `flush` and [`Partition::shift_head`] do.
    pub fn update(&mut self, slot: usize, key: Name, input: i64) -> Result<Told, Refused> {
        let ran = run_alone(
            &mut self.partition,
            slot,
            KeyedOp::Rmw(key, input),
            &LatestFns,
            &mut self.reader,
            &mut self.clock,
            LIMIT,
        );
        match ran.progress {
            Ok(Progress::Waits(_)) => Err(Refused::Stalled),
            told => told,
        }
    }

    /// Lets a session look at the offsets of now.
    pub fn refresh(&mut self, slot: usize) -> Result<(), Refused> {
        self.partition.refresh(slot, self.clock.tick()?)
    }

    /// Writes the lowest page that is frozen and not written yet.
    pub fn flush(&mut self, alloc: Global) -> Result<(), Refused> {
        let job = self.partition.flush_take(alloc, self.clock.tick()?)?;
        let written = Written::write(&mut self.writer, job)?;
        self.partition.flush_done(written, self.clock.tick()?)
    }
}
