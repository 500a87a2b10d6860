//! Pages of a locked partition: each call is one event.
ghost use Rattle.std.specs.Prelude.{◌≡◌, ◌+◌, ◌-◌, ◌^◌, ◌↔◌, ◌⊎◌, [], Some, Err, IfOk, IfErr, OnOk, OnErr, length, slice_get};
ghost use Rattle.fkv_partition.specs.Events.{Shifts, Evicts, Flushes};
ghost use Rattle.fkv_partition.specs.Views.{at_moment};
ghost use Rattle.fkv_locked.specs.Locks.{IsTimed, with_partition};

use crate::locked::{Locked, next_moment};
use fkv_device::{FlushJob, Receipt, Written};
use fkv_functions::{Mergeable, Refused};
use fkv_histories::Recorder;
use fkv_operations::Clock;
use std::alloc::Global;

impl<F: Mergeable, R: Receipt, H: Recorder<F>> Locked<F, R, H> {
    /// Moves the read-only offset, as [`fkv_partition::Partition::shift_read_only`] does, whose refusals it has after `Worn`
    /// where there is no next moment; then nothing changes.
    pub fn shift_read_only(&mut self, page: u64) -> Result<(), Refused>
        ensures effect { IsTimed self.old.clock result
            (Shifts R.keeps self.old.partition self.new.partition page (self.old.clock + 1) result) }
        ensures after { OnOk result (self.new ≡ with_partition self.old self.new.partition) }
        ensures unchanged { OnErr result (self.new ≡ self.old) }
    {
        let Some(now) = next_moment(&self.clock) else {
            return Err(Refused::Worn);
        };
        match self.partition.shift_read_only(page, now) {
            Err(refused) => Err(refused),
            Ok(()) => {
                self.clock = Clock::starting(now);
                Ok(())
            }
        }
    }

    /// Moves Head, as [`fkv_partition::Partition::shift_head`] does, whose refusals it has after `Worn` where there is no
    /// next moment; then nothing changes.
    pub fn shift_head(&mut self, page: u64) -> Result<(), Refused>
        ensures effect { IsTimed self.old.clock result
            (Evicts R.keeps self.old.partition self.new.partition page (self.old.clock + 1) result) }
        ensures after { OnOk result (self.new ≡ with_partition self.old self.new.partition) }
        ensures unchanged { OnErr result (self.new ≡ self.old) }
    {
        let Some(now) = next_moment(&self.clock) else {
            return Err(Refused::Worn);
        };
        match self.partition.shift_head(page, now) {
            Err(refused) => Err(refused),
            Ok(()) => {
                self.clock = Clock::starting(now);
                Ok(())
            }
        }
    }

    /// A copy of the lowest page that is not flushed, to be written with no lock of a partition held. Refused, in this order,
    /// and then nothing changes: `Worn` where there is no next moment, `NotDue` where the page does not end at or below the
    /// safe read-only offset, `NoMemory`.
    pub fn flush_take(&mut self, alloc: Global) -> Result<FlushJob, Refused>
        ensures page { IfOk result (λ job. job.page ≡ length self.old.partition.records.log.receipts) }
        ensures bytes { IfOk result
            (λ job. slice_get self.old.partition.records.log.waiting 0 ≡ Some job.bytes) }
        ensures due { IsTimed self.old.clock result
            ((result ≡ Err Refused.NotDue) ↔ (self.old.partition.records.log.waiting ≡ [])) }
        ensures only { IsTimed self.old.clock result
            (IfErr result (λ refused. (refused ≡ Refused.NotDue) ⊎ (refused ≡ Refused.NoMemory))) }
        ensures after { OnOk result
            (self.new ≡ with_partition self.old (at_moment self.old.partition (self.old.clock + 1))) }
        ensures unchanged { OnErr result (self.new ≡ self.old) }
    {
        let Some(now) = next_moment(&self.clock) else {
            return Err(Refused::Worn);
        };
        match self.partition.flush_take(alloc, now) {
            Err(refused) => Err(refused),
            Ok(job) => {
                self.clock = Clock::starting(now);
                Ok(job)
            }
        }
    }

    /// Takes in that the lowest page that is not flushed was written, as [`fkv_partition::Partition::flush_done`] does, whose
    /// refusals it has after `Worn` where there is no next moment; then nothing changes.
    pub fn flush_done(&mut self, written: Written<R>) -> Result<(), Refused>
        ensures effect { IsTimed self.old.clock result
            (Flushes self.old.partition self.new.partition (R.stands written.receipt) written.bytes
            (self.old.clock + 1) result) }
        ensures after { OnOk result (self.new ≡ with_partition self.old self.new.partition) }
        ensures unchanged { OnErr result (self.new ≡ self.old) }
    {
        let Some(now) = next_moment(&self.clock) else {
            return Err(Refused::Worn);
        };
        match self.partition.flush_done(written, now) {
            Err(refused) => Err(refused),
            Ok(()) => {
                self.clock = Clock::starting(now);
                Ok(())
            }
        }
    }
}
