//! A device that puts pages on another device where there is one, else into memory.
ghost use Rattle.std.specs.Prelude.{◌≡◌, true, if◌then◌else◌, IfOk, IfErr, OnOk};
ghost use Rattle.fkv_device.specs.Failing.{FailsOnlyBy};
ghost use Rattle.fkv_either.specs.Either.{failures_of, is_absent, is_memory, number_at, part_at};

use crate::either::Either;
use crate::keeping::Keeping;
use crate::readers::EitherReader;
use crate::receipts::EitherReceipt;
use crate::writers::EitherWriter;
use fkv_device::failures::Failures;
use fkv_device::{Disk, MemoryDevice, MemoryReader, MemoryWriter, PageReader, PageWriter};
use fkv_functions::Refused;
use std::alloc::Global;
use std::marker::PhantomData;

/// A device that puts pages on another device where there is one, else into memory.
#[derive(Drop)]
pub struct EitherDevice<D: Disk, K: Keeping> {
    alloc: Global,
    memory: MemoryDevice,
    other: Option<D>,
    of: PhantomData<K>,
    ghost kept: { (if K.keeps then is_absent other else true) ≡ true },
}

impl<D: Disk, K: Keeping> EitherDevice<D, K> {
    /// A device whose pages go to this other device, and are made by `alloc` where there is none, as has to be where the
    /// marker keeps.
    pub fn new(alloc: Global, other: Option<D>) -> EitherDevice<D, K>
        requires { (if K.keeps then is_absent other else true) ≡ true }
        ensures { result.other ≡ other }
    {
        EitherDevice {
            alloc,
            memory: MemoryDevice::new(alloc),
            other,
            of: PhantomData,
        }
    }
}

impl<D: Disk, K: Keeping> Disk for EitherDevice<D, K> {
    type Receipt = EitherReceipt<D::Receipt, K>;

    type Writer = EitherWriter<D::Writer, K>;

    type Reader = EitherReader<D::Reader, K>;

    ghost failures = { λ d. failures_of D.failures d.other };

    /// A writer to the other device where there is one, else to memory.
    fn writer(&mut self, partition: u64) -> Result<EitherWriter<D::Writer, K>, Refused>
        ensures device { IfOk result (λ w. is_memory w.either ≡ is_absent self.old.other) }
        ensures number { IfOk result
            (λ w. number_at ⟦<MemoryWriter as PageWriter>⟧.next D.Writer.next w.either ≡ 0) }
        ensures place { IfOk result
            (λ w. number_at ⟦<MemoryWriter as PageWriter>⟧.part D.Writer.part w.either ≡ partition) }
        ensures steady { OnOk result (failures_of D.failures self.new.other ≡ failures_of D.failures self.old.other) }
        ensures counted { IfErr result
            (FailsOnlyBy 1 0 (failures_of D.failures self.old.other) (failures_of D.failures self.new.other)) }
        ensures same { is_absent self.new.other ≡ is_absent self.old.other }
    {
        let either = match &mut self.other {
            Some(other) => Either::Other(other.writer(partition)?),
            None => Either::Memory(self.memory.writer(partition)?),
        };
        Ok(EitherWriter {
            either,
            of: PhantomData,
        })
    }

    /// A reader of pages in memory, and of those on the other device where there is one.
    fn reader(&mut self, partition: u64) -> Result<EitherReader<D::Reader, K>, Refused>
        ensures device { IfOk result (λ r. is_absent r.other ≡ is_absent self.old.other) }
        ensures place { IfOk result
            (λ r. part_at ⟦<MemoryReader as PageReader>⟧.part D.Reader.part r.memory r.other ≡ partition) }
        ensures steady { OnOk result (failures_of D.failures self.new.other ≡ failures_of D.failures self.old.other) }
        ensures counted { IfErr result
            (FailsOnlyBy 1 0 (failures_of D.failures self.old.other) (failures_of D.failures self.new.other)) }
        ensures same { is_absent self.new.other ≡ is_absent self.old.other }
    {
        let other = match &mut self.other {
            Some(other) => Some(other.reader(partition)?),
            None => None,
        };
        let memory = self.memory.reader(partition)?;
        Ok(EitherReader {
            memory,
            other,
            strange: Failures::new(self.alloc),
            of: PhantomData,
        })
    }
}
