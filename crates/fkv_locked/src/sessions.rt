//! Sessions of callers in a locked partition: each call is one event.
ghost use Rattle.std.specs.Prelude.{◌≡◌, ◌≢◌, ◌+◌, ◌-◌, ◌^◌, ◌<◌, ◌⊎◌, Ok, Err, IfOk, IfErr, OnOk, OnErr};
ghost use Rattle.fkv_partition.specs.Effect.{IsQuiet};
ghost use Rattle.fkv_partition.specs.Events.{Enters, Refreshes};
ghost use Rattle.fkv_partition.specs.Beginning.{LeavesAll};
ghost use Rattle.fkv_locked.specs.Locks.{IsTimed, with_partition, with_session};

use crate::locked::{Locked, next_moment};
use crate::open_operations::SessionId;
use fkv_device::Receipt;
use fkv_functions::{Mergeable, Refused};
use fkv_histories::Recorder;
use fkv_operations::Clock;

impl<F: Mergeable, R: Receipt, H: Recorder<F>> Locked<F, R, H> {
    /// Enters a session, as [`fkv_partition::Partition::enter`] does, and gives it the next number. Refused, in this order,
    /// and then nothing changes: `Worn` where there is no next number of sessions or no next moment, and what that refuses.
    pub fn enter(&mut self) -> Result<SessionId, Refused>
        ensures enters { IfOk result (λ session.
            Enters self.old.partition self.new.partition (self.old.clock + 1) (Ok session.slot)) }
        ensures session { IfOk result (λ session. (session.slot < 16) × (session.number ≡ self.old.enters + 1)) }
        ensures after { IfOk result (λ _. self.new ≡ with_session self.old self.new.partition) }
        ensures refused { IfErr result (λ why.
            ((why ≡ Refused.Worn) × ((self.old.enters ≡ 2 ^ 64 - 1) ⊎ (self.old.clock ≡ 2 ^ 64 - 1)))
            ⊎ Enters self.old.partition self.new.partition (self.old.clock + 1) (Err why)) }
        ensures unchanged { OnErr result (self.new ≡ self.old) }
    {
        let Some(number) = self.enters.checked_add(1) else {
            return Err(Refused::Worn);
        };
        let Some(now) = next_moment(&self.clock) else {
            return Err(Refused::Worn);
        };
        match self.partition.enter(now) {
            Err(refused) => Err(refused),
            Ok(slot) => {
                self.clock = Clock::starting(now);
                self.enters = number;
                Ok(SessionId { slot, number })
            }
        }
    }

    /// Refreshes a session, as [`fkv_partition::Partition::refresh`] does, whose refusals it has after `Worn` where there is
    /// no next moment; then nothing changes.
    pub fn refresh(&mut self, session: SessionId) -> Result<(), Refused>
        ensures effect { IsTimed self.old.clock result
            (Refreshes R.keeps self.old.partition self.new.partition session.slot (self.old.clock + 1) result) }
        ensures after { OnOk result (self.new ≡ with_partition self.old self.new.partition) }
        ensures unchanged { OnErr result (self.new ≡ self.old) }
    {
        let Some(now) = next_moment(&self.clock) else {
            return Err(Refused::Worn);
        };
        match self.partition.refresh(session.slot, now) {
            Err(refused) => Err(refused),
            Ok(()) => {
                self.clock = Clock::starting(now);
                Ok(())
            }
        }
    }

    /// Leaves a session, as [`fkv_partition::Partition::leave`] does, whose refusals it has after `Worn` where there is no
    /// next moment; then nothing changes.
    pub fn leave(&mut self, session: SessionId) -> Result<(), Refused>
        ensures effect { IsTimed self.old.clock result
            (LeavesAll R.keeps self.old.partition self.new.partition session.slot (self.old.clock + 1) result) }
        ensures after { OnOk result (self.new ≡ with_partition self.old self.new.partition) }
        ensures unchanged { OnErr result (self.new ≡ self.old) }
    {
        let Some(now) = next_moment(&self.clock) else {
            return Err(Refused::Worn);
        };
        match self.partition.leave(session.slot, now) {
            Err(refused) => Err(refused),
            Ok(()) => {
                self.clock = Clock::starting(now);
                Ok(())
            }
        }
    }
}
