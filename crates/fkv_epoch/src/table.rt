//! The table of epochs.
ghost use Rattle.std.specs.Prelude.{◌≡◌, ◌-◌, ◌<◌, ◌^◌, ◌↔◌, length, slice_get, slice_set, is_some, is_none, IsTrue};
ghost use Rattle.std.specs.Prelude.{IsOk, IfOk, IfErr, OnOk, OnErr};
ghost use Rattle.std.specs.List.{position};
ghost use Rattle.std.specs.Option.{ok_or, option_flatten};
ghost use Rattle.fkv_epoch.specs.Due.{due, settled, actions_of};
ghost use Rattle.fkv_epoch.specs.Moves.{fresh, free_slot, is_entered, renewed, vacated, bumped};
ghost use Rattle.fkv_epoch.specs.Timely.{IsTimely};

use crate::actions::{Action, Due, ROOM, SLOTS, Waiting};
use crate::safety::take_due;
use arrayvec::ArrayVec;
use fkv_functions::Refused;
use std::marker::Model;

/// The current epoch, the epoch at which each session last looked, and the actions that wait until every
/// session has looked again.
#[derive(Drop)]
pub struct Epochs {
    epoch: u64,
    slots: ArrayVec<Option<u64>, SLOTS>,
    waiting: ArrayVec<Waiting, ROOM>,
}

impl Model for Epochs {
    ghost use Rattle.fkv_epoch.specs.EpochState.{EpochState};

    ghost Value = { EpochState };

    ghost use Rattle.fkv_epoch.specs.Inside.{state_of};
    ghost use Rattle.fkv_epoch.specs.Timely.{IsTimely};

    ghost view = { state_of };

    ghost invariant = { λ e. IsTimely (state_of e) };
}

impl Epochs {
    /// Epoch 1, sixteen free slots, and nothing waits.
    pub fn new() -> Epochs
        ensures { result ≡ fresh }
    {
        Epochs {
            epoch: 1,
            slots: ArrayVec::from([None; SLOTS]),
            waiting: ArrayVec::new(),
        }
    }

    /// The current epoch, from 1.
    pub fn epoch(&self) -> u64
        ensures { result ≡ self.now.epoch }
    {
        self.epoch
    }

    /// Tells a proof what holds of epochs at any time. It does nothing when it runs.
    pub fn facts(&self)
        ensures { IsTimely self.now }
    {
        let _epoch = self.epoch;
    }

    /// Whether a session is entered at a slot.
    pub fn is_entered(&self, slot: usize) -> bool
        ensures { result ≡ is_entered self.now slot }
    {
        has_session(&self.slots, slot)
    }

    /// Enters a session: the lowest free slot gets the current epoch.
    ///
    /// `NoSlot` where sixteen sessions are entered.
    pub fn enter(&mut self) -> Result<usize, Refused>
        ensures slot { result ≡ ok_or (free_slot self.old) Refused.NoSlot }
        ensures effect { IfOk result (λ slot. self.new ≡ renewed self.old slot) }
        ensures unchanged { OnErr result (self.new ≡ self.old) }
    {
        let Some(free) = lowest_free(&self.slots) else {
            return Err(Refused::NoSlot);
        };
        put_epoch(&mut self.slots, free, Some(self.epoch));
        Ok(free)
    }

    /// Gives a session's slot the current epoch, and answers the actions that are due then.
    ///
    /// `Unknown` where no session is entered at the slot.
    pub fn refresh(&mut self, slot: usize) -> Result<Due, Refused>
        ensures unknown { IsOk result ↔ IsTrue (is_entered self.old slot) }
        ensures due { IfOk result (λ actions. actions.items ≡ actions_of (due (renewed self.old slot))) }
        ensures effect { OnOk result (self.new ≡ settled (renewed self.old slot)) }
        ensures refused { IfErr result (λ why. (why ≡ Refused.Unknown) × (self.new ≡ self.old)) }
    {
        if !has_session(&self.slots, slot) {
            return Err(Refused::Unknown);
        }
        put_epoch(&mut self.slots, slot, Some(self.epoch));
        Ok(take_due(&self.slots, &mut self.waiting))
    }

    /// Frees a session's slot, and answers the actions that are due then.
    ///
    /// `Unknown` where no session is entered at the slot.
    pub fn leave(&mut self, slot: usize) -> Result<Due, Refused>
        ensures unknown { IsOk result ↔ IsTrue (is_entered self.old slot) }
        ensures due { IfOk result (λ actions. actions.items ≡ actions_of (due (vacated self.old slot))) }
        ensures effect { OnOk result (self.new ≡ settled (vacated self.old slot)) }
        ensures refused { IfErr result (λ why. (why ≡ Refused.Unknown) × (self.new ≡ self.old)) }
    {
        if !has_session(&self.slots, slot) {
            return Err(Refused::Unknown);
        }
        put_epoch(&mut self.slots, slot, None);
        Ok(take_due(&self.slots, &mut self.waiting))
    }

    /// Lets an action wait for the current epoch, makes the next epoch current, and answers the actions
    /// that are due then.
    ///
    /// `DrainFull` where sixteen actions wait.
    pub fn bump(&mut self, action: Action) -> Result<Due, Refused>
        requires { self.old.epoch < 2 ^ 64 - 1 }
        ensures full { IsOk result ↔ (length self.old.waiting < 16) }
        ensures due { IfOk result (λ actions. actions.items ≡ actions_of (due (bumped self.old action))) }
        ensures effect { OnOk result (self.new ≡ settled (bumped self.old action)) }
        ensures refused { IfErr result (λ why. (why ≡ Refused.DrainFull) × (self.new ≡ self.old)) }
    {
        if self.waiting.is_full() {
            return Err(Refused::DrainFull);
        }
        self.waiting.push(Waiting {
            epoch: self.epoch,
            action,
        });
        self.epoch += 1;
        Ok(take_due(&self.slots, &mut self.waiting))
    }
}

/// The lowest free slot.
fn lowest_free(slots: &[Option<u64>]) -> Option<usize>
    ensures { result ≡ position is_none slots.now }
{
    slots.iter().position(|entered| entered.is_none())
}

/// Whether a session is entered at a slot.
fn has_session(slots: &[Option<u64>], slot: usize) -> bool
    ensures { result ≡ is_some (option_flatten (slice_get slots.now slot)) }
{
    slots.get(slot).is_some_and(|entered| entered.is_some())
}

/// Gives a slot this epoch, or none.
fn put_epoch(slots: &mut ArrayVec<Option<u64>, SLOTS>, slot: usize, epoch: Option<u64>)
    requires { slot < length slots.old.items }
    ensures { slots.new.items ≡ slice_set slots.old.items slot epoch }
{
    slots[slot] = epoch;
}
