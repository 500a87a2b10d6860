//! The offsets of a log with its epochs and what each session has seen.
ghost use Rattle.std.specs.Prelude.{◌≡◌, ◌<◌, ◌≤◌, ◌^◌, ◌↔◌, ◌⊎◌, length, slice_set, IsTrue, IsOk, IfOk, IfErr};
ghost use Rattle.std.specs.Prelude.{OnOk, OnErr, Err};
ghost use Rattle.std.specs.Option.{ok_or};
ghost use Rattle.fkv_records.specs.Places.{start_at};
ghost use Rattle.fkv_epoch.specs.Moves.{free_slot, is_entered};
ghost use Rattle.fkv_epoch.specs.Timely.{IsTimely};
ghost use Rattle.fkv_regions.specs.declared.offsets.Region.TheVariants.{OnDisk, ReadOnly, Mutable};
ghost use Rattle.fkv_regions.specs.Offsets.{region_of, view_at};
ghost use Rattle.fkv_regions.specs.RegionsView.{IsReadOnlyDue, IsHeadDue, IsFlushDue, IsRoomy, fresh_regions, entered};
ghost use Rattle.fkv_regions.specs.RegionsView.{refreshed, left, with_read_only, with_head, with_flushed};
ghost use Rattle.fkv_regions.specs.Agree.{IsRegions, IsMoved, ViewAgrees};

use crate::offsets::{Offsets, Region, View, run};
use arrayvec::ArrayVec;
use fkv_epoch::{Action, Epochs, SLOTS};
use fkv_functions::Refused;
use fkv_records::{Address, FIRST, Shape};
use std::marker::Model;

/// The offsets of a log, the epochs in which they move, and what each session has seen of them.
#[derive(Drop)]
pub struct Regions {
    shape: Shape,
    flushed: u64,
    offsets: Offsets,
    epochs: Epochs,
    views: ArrayVec<View, SLOTS>,
}

impl Model for Regions {
    ghost use Rattle.fkv_regions.specs.RegionsView.{RegionsView};

    ghost Value = { RegionsView };

    ghost use Rattle.fkv_regions.specs.Agree.{IsRegions};
    ghost use Rattle.fkv_regions.specs.Inside.{state_of};

    ghost view = { state_of };

    ghost invariant = { λ r. IsRegions (state_of r) };
}

impl Regions {
    /// All offsets at the first record, and no session.
    pub fn new(shape: Shape) -> Regions
        ensures { result ≡ fresh_regions shape.page_bits }
    {
        let offsets = Offsets {
            closed: FIRST,
            head: FIRST,
            safe_read_only: FIRST,
            read_only: FIRST,
        };
        Regions {
            shape,
            flushed: 0,
            offsets,
            epochs: Epochs::new(),
            views: ArrayVec::from([offsets.view(); SLOTS]),
        }
    }

    /// The offsets of now.
    pub fn offsets(&self) -> Offsets
        ensures { result ≡ self.now.offsets }
    {
        self.offsets
    }

    /// Tells a proof what holds at any time. It does nothing when it runs.
    pub fn facts(&self)
        ensures regions { IsRegions self.now }
        ensures epochs { IsTimely self.now.epochs }
    {
        self.epochs.facts();
    }

    /// Whether a session is entered at a slot.
    pub fn is_entered(&self, slot: usize) -> bool
        ensures { result ≡ is_entered self.now.epochs slot }
    {
        self.epochs.is_entered(slot)
    }

    /// Enters a session: the lowest free slot gets the current epoch and the view of now.
    ///
    /// `NoSlot` where sixteen sessions are entered.
    pub fn enter(&mut self) -> Result<usize, Refused>
        ensures slot { result ≡ ok_or (free_slot self.old.epochs) Refused.NoSlot }
        ensures effect { IfOk result (λ slot. self.new ≡ entered self.old slot) }
        ensures moved { IsMoved self.old self.new self.old.offsets.read_only }
        ensures unchanged { OnErr result (self.new ≡ self.old) }
    {
        self.epochs.facts();
        let slot = self.epochs.enter()?;
        let now = self.offsets.view();
        look(&mut self.views, slot, now);
        Ok(slot)
    }

    /// Gives a session's slot the current epoch, runs what is due then, and gives it the view of now.
    ///
    /// `Unknown` where no session is entered at the slot.
    pub fn refresh(&mut self, slot: usize) -> Result<(), Refused>
        ensures unknown { IsOk result ↔ IsTrue (is_entered self.old.epochs slot) }
        ensures effect { OnOk result (self.new ≡ refreshed self.old slot) }
        ensures moved { IsMoved self.old self.new self.old.offsets.read_only }
        ensures refused { IfErr result (λ why. (why ≡ Refused.Unknown) × (self.new ≡ self.old)) }
    {
        self.epochs.facts();
        let due = self.epochs.refresh(slot)?;
        run(&mut self.offsets, &due);
        look(&mut self.views, slot, self.offsets.view());
        Ok(())
    }

    /// Frees a session's slot, and runs what is due then.
    ///
    /// `Unknown` where no session is entered at the slot.
    pub fn leave(&mut self, slot: usize) -> Result<(), Refused>
        ensures unknown { IsOk result ↔ IsTrue (is_entered self.old.epochs slot) }
        ensures effect { OnOk result (self.new ≡ left self.old slot) }
        ensures moved { IsMoved self.old self.new self.old.offsets.read_only }
        ensures refused { IfErr result (λ why. (why ≡ Refused.Unknown) × (self.new ≡ self.old)) }
    {
        self.epochs.facts();
        let due = self.epochs.leave(slot)?;
        run(&mut self.offsets, &due);
        Ok(())
    }

    /// What the session at a slot saw when it last looked.
    pub fn view(&self, slot: usize) -> View
        requires { IsTrue (is_entered self.now.epochs slot) }
        ensures value { result ≡ view_at self.now.views slot }
        ensures agrees { ViewAgrees self.now.offsets result }
    {
        self.epochs.facts();
        view_in(&self.views, slot)
    }

    /// The region of an address by the view of the session at a slot.
    pub fn region(&self, slot: usize, address: Address) -> Region
        requires { IsTrue (is_entered self.now.epochs slot) }
        ensures value { result ≡ region_of (view_at self.now.views slot) address }
        // what a session may write in place is not frozen, and what it may not is frozen, or is fuzzy
        ensures mutable { result ≡ Mutable → self.now.offsets.safe_read_only ≤ address }
        ensures frozen { (result ≡ ReadOnly) ⊎ (result ≡ OnDisk) → address < self.now.offsets.safe_read_only }
        // what lies in no frame lies below Head, and the frame of what a session reads in memory is still there
        ensures on_disk { result ≡ OnDisk → address < self.now.offsets.head }
        ensures open_page { (result ≡ OnDisk → ⊥) → self.now.offsets.closed ≤ address }
    {
        self.epochs.facts();
        view_in(&self.views, slot).region(address)
    }

    /// Whether all pages below this one may be flushed now: they are frozen, and no fewer than were flushed before.
    pub fn is_flush_due(&self, page: u64) -> bool
        ensures { IsTrue result ↔ IsFlushDue self.now page }
    {
        self.flushed <= page && page <= self.shape.page_of(self.offsets.safe_read_only)
    }

    /// Takes in that all pages below this one are flushed ([`Regions::is_flush_due`]).
    pub fn raise_flushed(&mut self, page: u64)
        requires { IsFlushDue self.old page }
        ensures { self.new ≡ with_flushed self.old page }
    {
        self.flushed = page;
    }

    /// Moves ReadOnly to a page's start, and runs what is due. `tail` is the end of the log.
    ///
    /// `NotDue` where ReadOnly would not rise, or the page is above the tail's; `DrainFull` where sixteen actions
    /// wait.
    pub fn shift_read_only(&mut self, page: u64, tail: Address) -> Result<(), Refused>
        requires begun { self.old.offsets.read_only ≤ tail }
        requires most { tail ≤ 2 ^ 48 }
        ensures ok { IsOk result ↔ (IsReadOnlyDue self.old page tail × IsRoomy self.old) }
        ensures effect { OnOk result (self.new ≡ with_read_only self.old (start_at self.old.bits page)) }
        ensures moved { IsMoved self.old self.new tail }
        ensures not_due { (result ≡ Err Refused.NotDue) ↔ ¬ IsReadOnlyDue self.old page tail }
        ensures full { (result ≡ Err Refused.DrainFull)
            ↔ (IsReadOnlyDue self.old page tail × (16 ≤ length self.old.epochs.waiting)) }
        ensures only { IfErr result (λ why. (why ≡ Refused.NotDue) ⊎ (why ≡ Refused.DrainFull)) }
        ensures unchanged { OnErr result (self.new ≡ self.old) }
    {
        if !self.is_read_only_due(page, tail) {
            return Err(Refused::NotDue);
        }
        self.epochs.facts();
        let start = self.shape.start(page);
        let due = self.epochs.bump(Action::Safe(start))?;
        self.offsets.read_only = start;
        run(&mut self.offsets, &due);
        Ok(())
    }

    /// Moves Head to a page's start, and runs what is due.
    ///
    /// `NotDue` where Head would not rise, or a page below is not flushed; `DrainFull` where sixteen actions wait.
    pub fn shift_head(&mut self, page: u64) -> Result<(), Refused>
        ensures ok { IsOk result ↔ (IsHeadDue self.old page × IsRoomy self.old) }
        ensures effect { OnOk result (self.new ≡ with_head self.old (start_at self.old.bits page)) }
        ensures moved { IsMoved self.old self.new self.old.offsets.read_only }
        ensures not_due { (result ≡ Err Refused.NotDue) ↔ ¬ IsHeadDue self.old page }
        ensures full { (result ≡ Err Refused.DrainFull)
            ↔ (IsHeadDue self.old page × (16 ≤ length self.old.epochs.waiting)) }
        ensures only { IfErr result (λ why. (why ≡ Refused.NotDue) ⊎ (why ≡ Refused.DrainFull)) }
        ensures unchanged { OnErr result (self.new ≡ self.old) }
    {
        if !self.is_head_due(page) {
            return Err(Refused::NotDue);
        }
        self.epochs.facts();
        let start = self.shape.start(page);
        let due = self.epochs.bump(Action::Closed(start))?;
        self.offsets.head = start;
        run(&mut self.offsets, &due);
        Ok(())
    }

    /// Whether ReadOnly may move to a page's start. No start is computed of a page above the tail's.
    fn is_read_only_due(&self, page: u64, tail: Address) -> bool
        requires { tail ≤ 2 ^ 48 }
        ensures { IsTrue result ↔ IsReadOnlyDue self.now page tail }
    {
        page <= self.shape.page_of(tail) && self.offsets.read_only < self.shape.start(page)
    }

    /// Whether Head may move to a page's start. No start is computed of a page above the flushed ones.
    fn is_head_due(&self, page: u64) -> bool
        ensures { IsTrue result ↔ IsHeadDue self.now page }
    {
        page <= self.flushed && self.offsets.head < self.shape.start(page)
    }
}

/// The view of the session at a slot.
fn view_in(views: &ArrayVec<View, SLOTS>, slot: usize) -> View
    requires { slot < length views.now.items }
    ensures { result ≡ view_at views.now.items slot }
{
    views[slot]
}

/// Gives a session a view.
fn look(views: &mut ArrayVec<View, SLOTS>, slot: usize, view: View)
    requires { slot < length views.old.items }
    ensures { views.new.items ≡ slice_set views.old.items slot view }
{
    views[slot] = view;
}
