//! The steps that reach the device: a page is taken, written and read.
ghost use Rattle.std.specs.Prelude.{◌≡◌, ◌+◌, ◌*◌, ◌<◌, ◌≤◌, false, length, Some, IsSome};
ghost use Rattle.fkv_hybrid.specs.Spelled.{IsEntryIn};
ghost use Rattle.fkv_worlds.specs.States.{receipt_in, is_unasked};
ghost use Rattle.fkv_lives.specs.Told.{ends_operation};
ghost use Rattle.fkv_worlds.specs.Acts.{Acts};
ghost use Rattle.fkv_worlds.specs.Devices.{Comes};
ghost use Rattle.fkv_worlds.specs.Moments.{IsMomentIn};
ghost use Rattle.fkv_lives.specs.declared.steps.Step.TheVariants.{Take, Write, Load};

use crate::flush_slots::read;
use crate::states::State;
use crate::tables::{end_life, has_receipt, life_at, note_progress, row_of};
use fkv_device::{Loaded, MemoryReceipt, Receipt};
use fkv_functions::{Mergeable, Refused};
use fkv_lives::lives::End;
use fkv_lives::outcomes::{Outcome, OutcomeOf};
use fkv_lives::steps::{Access, ContextId, Step};
use std::alloc::Global;

/// Whether a refusal ends the operation that it is told to.
pub(crate) fn ends_operation(refused: &Refused) -> bool
    ensures { result ≡ ends_operation refused.now }
{
    match refused {
        Refused::Device { code, .. } => *code == 3,
        Refused::Damaged { .. } => true,
        _ => false,
    }
}

/// The page that a context asked for last, as the device gives it.
pub(crate) fn read_asked(
    alloc: Global,
    receipts: &[Option<MemoryReceipt>],
    place: ContextId,
    access: Access,
) -> Result<Loaded<MemoryReceipt>, Refused>
    requires partition { place.partition < 64 }
    requires rows { place.partition * 128 + 128 ≤ length receipts.now }
    requires asked { IsSome (receipt_in receipts.now place) }
    ensures came { (receipt : MemoryReceipt)
        → receipt_in receipts.now place ≡ Some receipt
        → Comes ⟦<MemoryReceipt as Receipt>⟧.stands receipt access result }
{
    let Some(receipt) = &receipts[row_of(place)] else {
        unreachable!()
    };
    read(alloc, receipt, access)
}

impl<F: Mergeable> State<F> {
    /// Takes the lowest page that is not flushed, to be written.
    pub(crate) fn take_at(&mut self, partition: usize, now: u64) -> Result<OutcomeOf<F>, Refused>
        requires due { IsMomentIn self.old partition now }
        ensures effect { Acts ⟦<MemoryReceipt as Receipt>⟧.stands (IsEntryIn F.Key.codec F.Value.codec) F.Key.cmp F.parts.joined F.meaning F.code
            self.old self.new (Take partition) result }
    {
        match self.partitions[partition].flush_take(self.alloc, now) {
            Ok(job) => {
                let page = job.page;
                self.moment = now;
                self.flush_slots[partition].job = Some(job);
                Ok(Outcome::Taken(page))
            }
            Err(refused) => Err(refused),
        }
    }

    /// Writes the page that was taken last, and flushes it.
    pub(crate) fn write(
        &mut self,
        partition: usize,
        access: Access,
    ) -> Result<OutcomeOf<F>, Refused>
        ensures effect { Acts ⟦<MemoryReceipt as Receipt>⟧.stands (IsEntryIn F.Key.codec F.Value.codec) F.Key.cmp F.parts.joined F.meaning F.code
            self.old self.new (Write partition access) result }
    {
        if partition >= self.partitions.len() {
            return Err(Refused::Unknown);
        }
        if self.flush_slots[partition].job.is_none() {
            return Err(Refused::NotReady);
        }
        match self.moment_in(partition) {
            Ok(now) => self.write_at(partition, access, now),
            Err(refused) => Err(refused),
        }
    }

    fn write_at(
        &mut self,
        partition: usize,
        access: Access,
        now: u64,
    ) -> Result<OutcomeOf<F>, Refused>
        requires due { IsMomentIn self.old partition now }
        requires asked { is_unasked self.old (Write partition access) ≡ false }
        ensures effect { Acts ⟦<MemoryReceipt as Receipt>⟧.stands (IsEntryIn F.Key.codec F.Value.codec) F.Key.cmp F.parts.joined F.meaning F.code
            self.old self.new (Write partition access) result }
    {
        match self.flush_slots[partition].write(self.alloc, access) {
            Ok(written) => {
                let page = written.page();
                match self.partitions[partition].flush_done(written, now) {
                    Ok(()) => {
                        self.moment = now;
                        Ok(Outcome::Flushed(page))
                    }
                    Err(refused) => Err(refused),
                }
            }
            Err(refused) => Err(refused),
        }
    }

    /// Reads the page that an operation asked for last, and goes on with it.
    pub(crate) fn load(
        &mut self,
        functions: &F,
        place: ContextId,
        access: Access,
    ) -> Result<OutcomeOf<F>, Refused>
        ensures effect { Acts ⟦<MemoryReceipt as Receipt>⟧.stands (IsEntryIn F.Key.codec F.Value.codec) F.Key.cmp F.parts.joined F.meaning F.code
            self.old self.new (Load place access) result }
    {
        let now = match self.moment_in(place.partition) {
            Err(refused) => return Err(refused),
            Ok(now) => now,
        };
        if !has_receipt(&self.tables.receipts, place) {
            return Err(self.why_unloaded(place, access));
        }
        self.load_at(functions, place, access, now)
    }

    fn load_at(
        &mut self,
        functions: &F,
        place: ContextId,
        access: Access,
        now: u64,
    ) -> Result<OutcomeOf<F>, Refused>
        requires due { IsMomentIn self.old place.partition now }
        requires asked { is_unasked self.old (Load place access) ≡ false }
        ensures effect { Acts ⟦<MemoryReceipt as Receipt>⟧.stands (IsEntryIn F.Key.codec F.Value.codec) F.Key.cmp F.parts.joined F.meaning F.code
            self.old self.new (Load place access) result }
    {
        let came = read_asked(self.alloc, &self.tables.receipts, place, access);
        let partition = &mut self.partitions[place.partition];
        match partition.load(place.slot, place.context, came, functions, now) {
            Ok(progress) => {
                self.moment = now;
                Ok(note_progress(&mut self.lives, &mut self.tables, place, progress, now))
            }
            Err(refused) => {
                if !ends_operation(&refused) {
                    return Err(refused);
                }
                self.moment = now;
                let life = life_at(&self.tables.begun, place);
                end_life(&mut self.lives, life, End::Failed);
                Err(refused)
            }
        }
    }
}
