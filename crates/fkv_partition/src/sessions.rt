//! Sessions of a partition, and the relocations that they begin and give up.
ghost use Rattle.std.specs.Prelude.{◌≡◌, ◌<◌, ◌≤◌, None, IsTrue, IfOk, OnOk, OnErr};
ghost use Rattle.fkv_partition.specs.Pending.{AllPend};
ghost use Rattle.fkv_partition.specs.Views.{relocation_at};
ghost use Rattle.fkv_partition.specs.Relocating.{IsRelocating};
ghost use Rattle.fkv_partition.specs.Effect.{IsQuiet};
ghost use Rattle.fkv_partition.specs.Events.{Enters, Refreshes};
ghost use Rattle.fkv_partition.specs.Beginning.{Relocates, LeavesAll, Drops};

use crate::partitions::Partition;
use crate::relocations::{Relocation, Stage};
use fkv_device::Receipt;
use fkv_functions::{Mergeable, Refused};

impl<F: Mergeable, R: Receipt> Partition<F, R> {
    /// Enters a session, which has the view of now, and answers its slot, the lowest free one. Refused, and then
    /// nothing changes: `NoSlot` where sixteen sessions are entered.
    pub fn enter(&mut self, now: u64) -> Result<usize, Refused>
        requires later { self.old.moment < now }
        ensures effect { Enters self.old self.new now result }
        ensures event { IfOk result (λ _. IsQuiet R.keeps self.old self.new now) }
        ensures pends { AllPend F.Key.cmp self.old self.new }
        ensures within { IfOk result (λ slot. slot < 16) }
        ensures unchanged { OnErr result (self.new ≡ self.old) }
        ensures moment { self.new.moment ≤ now }
    {
        let slot = match self.records.enter() {
            Err(refused) => return Err(refused),
            Ok(slot) => slot,
        };
        self.records.facts();
        self.moment = now;
        Ok(slot)
    }

    /// Refreshes a session: it tells that the session relies on nothing that it saw before, moves the offsets that are
    /// due then, and gives the session the view of now. Refused, and then nothing changes: `Unknown` where the slot is
    /// that of no session.
    pub fn refresh(&mut self, slot: usize, now: u64) -> Result<(), Refused>
        requires later { self.old.moment < now }
        ensures effect { Refreshes R.keeps self.old self.new slot now result }
        ensures event { OnOk result (IsQuiet R.keeps self.old self.new now) }
        ensures pends { IsTrue R.keeps → AllPend F.Key.cmp self.old self.new }
        ensures unchanged { OnErr result (self.new ≡ self.old) }
        ensures moment { self.new.moment ≤ now }
    {
        match self.records.refresh(slot) {
            Err(refused) => return Err(refused),
            Ok(()) => (),
        }
        self.records.facts();
        self.moment = now;
        Ok(())
    }

    /// Leaves a session, frees its slot, and moves the offsets that are due then. Refused, in this order, and then nothing
    /// changes: `Unknown` where the slot is that of no session, `Busy` where an operation or a relocation of the session is
    /// open.
    pub fn leave(&mut self, slot: usize, now: u64) -> Result<(), Refused>
        requires later { self.old.moment < now }
        ensures effect { LeavesAll R.keeps self.old self.new slot now result }
        ensures event { OnOk result (IsQuiet R.keeps self.old self.new now) }
        ensures pends { IsTrue R.keeps → AllPend F.Key.cmp self.old self.new }
        ensures unchanged { OnErr result (self.new ≡ self.old) }
        ensures moment { self.new.moment ≤ now }
    {
        self.facts();
        if self.has_relocation(slot) {
            return Err(Refused::Busy);
        }
        self.leave_slot(slot, now)
    }

    /// Issues a relocation in a session, of the lowest address that is not cleared, and answers its context, the lowest free
    /// one. Refused, in this order, and then nothing changes: `Unknown` where the slot is that of no session, `NotDue`
    /// where the address does not lie below what the session sees as safely read-only, `NoContext`.
    pub(crate) fn relocate(&mut self, slot: usize, now: u64) -> Result<usize, Refused>
        requires later { self.old.moment < now }
        ensures effect { Relocates self.old self.new slot now result }
        ensures event { IfOk result (λ context. IsRelocating R.keeps F.Key.cmp self.old self.new slot context now) }
        ensures within { IfOk result (λ context. (slot < 16) × (context < 8)) }
        ensures closed { IfOk result (λ context. relocation_at self.old slot context ≡ None) }
        ensures unchanged { OnErr result (self.new ≡ self.old) }
        ensures moment { self.new.moment ≤ now }
    {
        self.facts();
        if !self.is_session(slot) {
            return Err(Refused::Unknown);
        }
        let view = self.records().view(slot);
        let target = self.cleared();
        if target >= view.safe_read_only {
            return Err(Refused::NotDue);
        }
        let Some(context) = self.first_free(slot) else {
            return Err(Refused::NoContext);
        };
        let fresh = Relocation {
            number: now,
            target,
            stage: Stage::Fresh,
        };
        self.begin_relocation(slot, context, fresh, now);
        Ok(context)
    }

    /// Gives up a relocation, which ends without effect, and frees its context. Refused, and then nothing changes:
    /// `Unknown` where no relocation is open there.
    pub(crate) fn drop_relocation(
        &mut self,
        slot: usize,
        context: usize,
        now: u64,
    ) -> Result<(), Refused>
        requires later { self.old.moment < now }
        ensures effect { Drops self.old self.new slot context now result }
        ensures event { OnOk result (IsRelocating R.keeps F.Key.cmp self.old self.new slot context now) }
        ensures within { OnOk result ((slot < 16) × (context < 8)) }
        ensures unchanged { OnErr result (self.new ≡ self.old) }
        ensures moment { self.new.moment ≤ now }
    {
        let Some(_relocation) = self.relocation(slot, context) else {
            return Err(Refused::Unknown);
        };
        self.end(slot, context, now);
        Ok(())
    }
}
