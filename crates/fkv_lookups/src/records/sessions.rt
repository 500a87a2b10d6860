//! The sessions of the records, what each sees of the log's regions, and what it may change in place.
ghost use Rattle.std.specs.Prelude.{◌≡◌, ◌<◌, ◌≤◌, ◌↔◌, ◌⊎◌, length, IsSome, IsTrue, IsOk, IfOk, IfErr, OnOk, OnErr, Err};
ghost use Rattle.std.specs.Option.{ok_or};
ghost use Rattle.fkv_records.specs.Places.{start_at};
ghost use Rattle.fkv_epoch.specs.Moves.{free_slot, is_entered};
ghost use Rattle.fkv_regions.specs.Offsets.{view_at};
ghost use Rattle.fkv_regions.specs.RegionsView.{IsReadOnlyDue, IsHeadDue, IsRoomy, entered, refreshed, left};
ghost use Rattle.fkv_regions.specs.RegionsView.{with_read_only, with_head};
ghost use Rattle.fkv_regions.specs.Agree.{IsRaised, ViewAgrees};
ghost use Rattle.fkv_lookups.specs.RecordsViews.{with_regions, with_value, IsReplaceable, IsMoved};

use crate::records::Records;
use fkv_device::Receipt;
use fkv_functions::{Mergeable, Refused};
use fkv_records::Address;
use fkv_regions::View;

impl<F: Mergeable, R: Receipt> Records<F, R> {
    /// Whether a session is entered at a slot.
    pub fn is_entered(&self, slot: usize) -> bool
        ensures value { result ≡ is_entered self.now.log.regions.epochs slot }
        ensures within { IsTrue result → slot < 16 }
    {
        self.log.facts();
        self.log.regions().is_entered(slot)
    }

    /// What the session at a slot saw when it last looked.
    pub fn view(&self, slot: usize) -> View
        requires { IsTrue (is_entered self.now.log.regions.epochs slot) }
        ensures value { result ≡ view_at self.now.log.regions.views slot }
        ensures agrees { ViewAgrees self.now.log.regions.offsets result }
    {
        self.log.regions().view(slot)
    }

    /// Enters a session: the lowest free slot gets the current epoch and the view of now. Refused, and then nothing
    /// changes: `NoSlot` where sixteen sessions are entered.
    pub fn enter(&mut self) -> Result<usize, Refused>
        ensures slot { result ≡ ok_or (free_slot self.old.log.regions.epochs) Refused.NoSlot }
        ensures within { IfOk result (λ slot. slot < 16) }
        ensures effect { IfOk result (λ slot. self.new ≡ with_regions self.old (entered self.old.log.regions slot)) }
        ensures unchanged { OnErr result (self.new ≡ self.old) }
    {
        let slot = self.log.enter();
        self.log.facts();
        slot
    }

    /// Gives a session's slot the current epoch, moves the offsets that are due then, and gives the slot the view
    /// of now. Refused, and then nothing changes: `Unknown` where no session is entered at the slot.
    pub fn refresh(&mut self, slot: usize) -> Result<(), Refused>
        ensures unknown { IsOk result ↔ IsTrue (is_entered self.old.log.regions.epochs slot) }
        ensures effect { OnOk result (IsMoved R.keeps (refreshed self.old.log.regions slot) self.old self.new) }
        ensures raised { IsRaised self.old.log.regions.offsets self.new.log.regions.offsets }
        ensures refused { IfErr result (λ why. (why ≡ Refused.Unknown) × (self.new ≡ self.old)) }
    {
        let moved = self.log.refresh(slot);
        self.log.facts();
        moved
    }

    /// Frees a session's slot, and moves the offsets that are due then. Refused, and then nothing changes: `Unknown`
    /// where no session is entered at the slot.
    pub fn leave(&mut self, slot: usize) -> Result<(), Refused>
        ensures unknown { IsOk result ↔ IsTrue (is_entered self.old.log.regions.epochs slot) }
        ensures effect { OnOk result (IsMoved R.keeps (left self.old.log.regions slot) self.old self.new) }
        ensures raised { IsRaised self.old.log.regions.offsets self.new.log.regions.offsets }
        ensures refused { IfErr result (λ why. (why ≡ Refused.Unknown) × (self.new ≡ self.old)) }
    {
        let moved = self.log.leave(slot);
        self.log.facts();
        moved
    }

    /// Moves the read-only offset to a page's start, and the safe one behind it as far as is due. Refused, and then
    /// nothing changes: `NotDue` where it would not rise, or the page is above the tail's; `DrainFull` where sixteen
    /// moves wait.
    pub fn shift_read_only(&mut self, page: u64) -> Result<(), Refused>
        ensures ok { IsOk result
            ↔ (IsReadOnlyDue self.old.log.regions page self.old.log.tail × IsRoomy self.old.log.regions) }
        ensures effect { OnOk result (IsMoved R.keeps
            (with_read_only self.old.log.regions (start_at self.old.log.regions.bits page)) self.old self.new) }
        ensures raised { IsRaised self.old.log.regions.offsets self.new.log.regions.offsets }
        ensures not_due { (result ≡ Err Refused.NotDue) ↔ ¬ IsReadOnlyDue self.old.log.regions page self.old.log.tail }
        ensures full { (result ≡ Err Refused.DrainFull)
            ↔ (IsReadOnlyDue self.old.log.regions page self.old.log.tail
            × (16 ≤ length self.old.log.regions.epochs.waiting)) }
        ensures only { IfErr result (λ why. (why ≡ Refused.NotDue) ⊎ (why ≡ Refused.DrainFull)) }
        ensures unchanged { OnErr result (self.new ≡ self.old) }
    {
        let moved = self.log.shift_read_only(page);
        self.log.facts();
        moved
    }

    /// Moves Head to a page's start, and closes the frames below as far as is due. Refused, and then nothing changes:
    /// `NotDue` where it would not rise, or a page below is not flushed; `DrainFull` where sixteen moves wait.
    pub fn shift_head(&mut self, page: u64) -> Result<(), Refused>
        ensures ok { IsOk result
            ↔ (IsHeadDue self.old.log.regions page × IsRoomy self.old.log.regions) }
        ensures effect { OnOk result (IsMoved R.keeps
            (with_head self.old.log.regions (start_at self.old.log.regions.bits page)) self.old self.new) }
        ensures raised { IsRaised self.old.log.regions.offsets self.new.log.regions.offsets }
        ensures not_due { (result ≡ Err Refused.NotDue) ↔ ¬ IsHeadDue self.old.log.regions page }
        ensures full { (result ≡ Err Refused.DrainFull)
            ↔ (IsHeadDue self.old.log.regions page
            × (16 ≤ length self.old.log.regions.epochs.waiting)) }
        ensures only { IfErr result (λ why. (why ≡ Refused.NotDue) ⊎ (why ≡ Refused.DrainFull)) }
        ensures unchanged { OnErr result (self.new ≡ self.old) }
    {
        let moved = self.log.shift_head(page);
        self.log.facts();
        moved
    }

    /// Gives the record at an address, which is the last of its key and has a value, another one where it stands, or makes
    /// it a tombstone. Nothing else changes.
    pub fn replace(&mut self, address: Address, value: Option<F::Value>)
        requires last { IsReplaceable F.Key.cmp self.old address }
        requires mutable { self.old.log.regions.offsets.safe_read_only ≤ address }
        ensures { self.new ≡ with_value self.old address value }
    {
        match value {
            Some(value) => self.log.write_value(address, value),
            None => self.log.set_tombstone(address),
        }
    }
}
