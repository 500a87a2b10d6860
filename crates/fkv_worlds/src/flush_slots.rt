//! The device of a world, which is one in memory: how the pages of its partitions are written, and how they are read.
ghost use Rattle.std.specs.Prelude.{◌≡◌, Some, None, IsSome, IfOk, IfErr};
ghost use Rattle.fkv_worlds.specs.Devices.{receipt_of, Comes, Unwritten};

use fkv_device::{
    Disk, FlushJob, Loaded, MemoryDevice, MemoryReader, MemoryReceipt, MemoryWriter, PageWriter,
    Receipt, Written,
};
use fkv_functions::Refused;
use fkv_lives::steps::Access;
use std::alloc::Global;

/// Where the pages of a partition are written.
#[derive(Drop)]
pub struct FlushSlot {
    /// The page that was taken last, to be written.
    pub(crate) job: Option<FlushJob>,
}

impl FlushSlot {
    /// The slot of a partition that has taken no page.
    pub fn new() -> FlushSlot
        ensures { result.job ≡ None }
    {
        FlushSlot { job: None }
    }

    /// Writes the page that was taken last, and empties the slot. Refused: `Device` with code 2 where the device is to
    /// fail, and where it works `NoMemory` alone.
    pub fn write(
        &mut self,
        alloc: Global,
        access: Access,
    ) -> Result<Written<MemoryReceipt>, Refused>
        requires { IsSome self.old.job }
        ensures used { self.new.job ≡ None }
        ensures written { IfOk result (λ w. (job : FlushJob)
            → self.old.job ≡ Some job
            → (access ≡ Access.Works) × (⟦<MemoryReceipt as Receipt>⟧.stands w.receipt ≡ receipt_of job)
            × (w.bytes ≡ job.bytes)) }
        ensures unwritten { IfErr result (λ e. (job : FlushJob) → self.old.job ≡ Some job → Unwritten job access e) }
    {
        let Some(job) = self.job.take() else {
            unreachable!()
        };
        match access {
            Access::Fails => Err(Refused::Device {
                code: 2,
                page: job.page,
            }),
            Access::Works => Written::<MemoryReceipt>::write(&mut writer(alloc), job),
        }
    }
}

/// A writer of pages in memory, which has written none: a page stands by its receipt alone, so each is written by a writer
/// of its own, that never runs out of numbers.
fn writer(alloc: Global) -> MemoryWriter
    ensures { ⟦<MemoryWriter as PageWriter>⟧.next result ≡ 0 }
{
    let mut device = MemoryDevice::new(alloc);
    let Ok(writer) = device.writer(0) else {
        unreachable!()
    };
    writer
}

/// A reader of pages in memory: it reads by any receipt.
pub fn reader(alloc: Global) -> MemoryReader {
    let mut device = MemoryDevice::new(alloc);
    let Ok(reader) = device.reader(0) else {
        unreachable!()
    };
    reader
}

/// Reads the page that a receipt stands for. Refused: `Device` with code 3 where the device is to fail, and where it works
/// `NoMemory` alone.
pub fn read(
    alloc: Global,
    receipt: &MemoryReceipt,
    access: Access,
) -> Result<Loaded<MemoryReceipt>, Refused>
    ensures { Comes ⟦<MemoryReceipt as Receipt>⟧.stands receipt.now access result }
{
    match access {
        Access::Fails => Err(Refused::Device {
            code: 3,
            page: receipt.page(),
        }),
        Access::Works => {
            match Loaded::<MemoryReceipt>::fetch(&mut reader(alloc), receipt, receipt.size()) {
                Ok(loaded) => {
                    // its bytes are those that the receipt stands for
                    let _kept = loaded.receipt();
                    Ok(loaded)
                }
                Err(refused) => Err(refused),
            }
        }
    }
}
