//! How sessions and operations end without an answer.
ghost use Rattle.std.specs.Prelude.{◌≡◌, ◌<◌, ◌≤◌, IfOk, OnOk, OnErr};
ghost use Rattle.fkv_partition.specs.KeyEnding.{Leaves, GivesUp};
ghost use Rattle.fkv_partition.specs.KeyEffect.{IsQuiet, IsGiveUp};
ghost use Rattle.fkv_partition.specs.Events.{IsPassedOn};

use crate::contexts::claim_of;
use crate::partitions::Partition;
use fkv_device::Receipt;
use fkv_functions::{Mergeable, Refused};

impl<F: Mergeable, R: Receipt> Partition<F, R> {
    /// Leaves a session, frees its slot, and moves the offsets that are due then. Refused, in this order, and then nothing
    /// changes: `Unknown` where the slot is that of no session, `Busy` where an operation of the session is open.
    pub(crate) fn leave_slot(&mut self, slot: usize, now: u64) -> Result<(), Refused>
        requires later { self.old.moment < now }
        ensures effect { Leaves R.keeps self.old self.new slot now result }
        ensures event { OnOk result (IsQuiet R.keeps self.old self.new now) }
        ensures unchanged { OnErr result (self.new ≡ self.old) }
        ensures moment { self.new.moment ≤ now }
    {
        if !self.is_session(slot) {
            return Err(Refused::Unknown);
        }
        if let Some(_open) = self.first_open(slot) {
            return Err(Refused::Busy);
        }
        self.vacate(slot, now);
        Ok(())
    }

    /// Gives up an operation on a key, as [`Partition::give_up`] does, but takes no moment: for one that was refused or
    /// stalled at the moment that stands. Refused, and then nothing changes: `Unknown` where no operation on a key is open
    /// there.
    pub fn give_up_untimed(&mut self, slot: usize, context: usize) -> Result<(), Refused>
        ensures effect { GivesUp self.old self.new slot context self.old.moment result }
        ensures rest { IsPassedOn self.old self.new }
        ensures event { OnOk result (IsGiveUp self.old self.new slot context self.old.moment) }
        ensures within { OnOk result ((slot < 16) × (context < 8)) }
        ensures unchanged { OnErr result (self.new ≡ self.old) }
        ensures moment { self.new.moment ≤ self.old.moment }
    {
        let now = self.moment;
        self.give_up_on_key(slot, context, now)
    }

    /// Ends an operation without effect at this moment.
    pub(crate) fn give_up_on_key(
        &mut self,
        slot: usize,
        context: usize,
        now: u64,
    ) -> Result<(), Refused>
        requires since { self.old.moment ≤ now }
        ensures effect { GivesUp self.old self.new slot context now result }
        ensures event { OnOk result (IsGiveUp self.old self.new slot context now) }
        ensures within { OnOk result ((slot < 16) × (context < 8)) }
        ensures unchanged { OnErr result (self.new ≡ self.old) }
        ensures moment { self.new.moment ≤ now }
    {
        let Some(open) = self.open(slot, context) else {
            return Err(Refused::Unknown);
        };
        if let Some(place) = claim_of(&open.phase) {
            self.cancel(slot, context, &open, place, now);
            return Ok(());
        }
        self.free(slot, context, now);
        Ok(())
    }
}
