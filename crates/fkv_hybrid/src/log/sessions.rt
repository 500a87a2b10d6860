//! What sessions see of a log, and how its regions move.
ghost use Rattle.std.specs.Prelude.{◌≡◌, ◌^◌, ◌<◌, ◌≤◌, ◌↔◌, ◌⊎◌, length, IsTrue, IsOk, IfOk, IfErr, OnOk, OnErr, Err};
ghost use Rattle.std.specs.Option.{ok_or};
ghost use Rattle.fkv_records.specs.Places.{page_at, start_at, IsRecordStart};
ghost use Rattle.fkv_records.specs.Records.{size_of};
ghost use Rattle.fkv_epoch.specs.Moves.{free_slot, is_entered};
ghost use Rattle.fkv_regions.specs.RegionsView.{IsReadOnlyDue, IsHeadDue, IsRoomy, entered, refreshed, left};
ghost use Rattle.fkv_regions.specs.RegionsView.{with_read_only, with_head};
ghost use Rattle.fkv_regions.specs.Agree.{IsRaised};
ghost use Rattle.fkv_hybrid.specs.Views.{with_regions, IsMoved};

use crate::log::Log;
use fkv_device::Receipt;
use fkv_functions::{Fixed, Refused};

impl<K: Fixed, V: Fixed, R: Receipt> Log<K, V, R> {
    /// Enters a session: the lowest free slot gets the current epoch and the view of now.
    ///
    /// `NoSlot` where sixteen sessions are entered.
    pub fn enter(&mut self) -> Result<usize, Refused>
        ensures slot { result ≡ ok_or (free_slot self.old.regions.epochs) Refused.NoSlot }
        ensures effect { IfOk result (λ slot. self.new ≡ with_regions self.old (entered self.old.regions slot)) }
        ensures unchanged { OnErr result (self.new ≡ self.old) }
    {
        self.regions.enter()
    }

    /// Gives a session's slot the current epoch, moves the offsets that are due then, and gives the slot the view
    /// of now.
    ///
    /// `Unknown` where no session is entered at the slot.
    pub fn refresh(&mut self, slot: usize) -> Result<(), Refused>
        ensures unknown { IsOk result ↔ IsTrue (is_entered self.old.regions.epochs slot) }
        ensures effect { OnOk result (IsMoved R.keeps (refreshed self.old.regions slot) self.old self.new) }
        ensures raised { IsRaised self.old.regions.offsets self.new.regions.offsets }
        ensures refused { IfErr result (λ why. (why ≡ Refused.Unknown) × (self.new ≡ self.old)) }
    {
        self.regions.refresh(slot)
    }

    /// Frees a session's slot, and moves the offsets that are due then.
    ///
    /// `Unknown` where no session is entered at the slot.
    pub fn leave(&mut self, slot: usize) -> Result<(), Refused>
        ensures unknown { IsOk result ↔ IsTrue (is_entered self.old.regions.epochs slot) }
        ensures effect { OnOk result (IsMoved R.keeps (left self.old.regions slot) self.old self.new) }
        ensures raised { IsRaised self.old.regions.offsets self.new.regions.offsets }
        ensures refused { IfErr result (λ why. (why ≡ Refused.Unknown) × (self.new ≡ self.old)) }
    {
        self.regions.leave(slot)
    }

    /// Moves the read-only offset to a page's start, and the safe one behind it as far as is due.
    ///
    /// `NotDue` where it would not rise, or the page is above the tail's; `DrainFull` where sixteen moves wait.
    pub fn shift_read_only(&mut self, page: u64) -> Result<(), Refused>
        ensures ok { IsOk result
            ↔ (IsReadOnlyDue self.old.regions page self.old.tail × IsRoomy self.old.regions) }
        ensures effect { OnOk result (IsMoved R.keeps
            (with_read_only self.old.regions (start_at self.old.regions.bits page)) self.old self.new) }
        ensures raised { IsRaised self.old.regions.offsets self.new.regions.offsets }
        ensures not_due { (result ≡ Err Refused.NotDue) ↔ ¬ IsReadOnlyDue self.old.regions page self.old.tail }
        ensures full { (result ≡ Err Refused.DrainFull)
            ↔ (IsReadOnlyDue self.old.regions page self.old.tail
            × (16 ≤ length self.old.regions.epochs.waiting)) }
        ensures only { IfErr result (λ why. (why ≡ Refused.NotDue) ⊎ (why ≡ Refused.DrainFull)) }
        ensures unchanged { OnErr result (self.new ≡ self.old) }
    {
        self.regions.shift_read_only(page, self.tail)
    }

    /// Moves Head to a page's start, and closes the frames below as far as is due.
    ///
    /// `NotDue` where Head would not rise, or a page below is not flushed; `DrainFull` where sixteen moves wait.
    pub fn shift_head(&mut self, page: u64) -> Result<(), Refused>
        ensures ok { IsOk result ↔ (IsHeadDue self.old.regions page × IsRoomy self.old.regions) }
        ensures effect { OnOk result (IsMoved R.keeps
            (with_head self.old.regions (start_at self.old.regions.bits page)) self.old self.new) }
        ensures raised { IsRaised self.old.regions.offsets self.new.regions.offsets }
        ensures not_due { (result ≡ Err Refused.NotDue) ↔ ¬ IsHeadDue self.old.regions page }
        ensures full { (result ≡ Err Refused.DrainFull)
            ↔ (IsHeadDue self.old.regions page × (16 ≤ length self.old.regions.epochs.waiting)) }
        ensures only { IfErr result (λ why. (why ≡ Refused.NotDue) ⊎ (why ≡ Refused.DrainFull)) }
        ensures unchanged { OnErr result (self.new ≡ self.old) }
    {
        self.regions.shift_head(page)
    }
}
