//! What events change of relocations and of what is cleared. Each change keeps what every partition keeps.
ghost use Rattle.std.specs.Prelude.{IsSome, ◌≡◌, ◌+◌, ◌*◌, ◌<◌, ◌≤◌, ◌↔◌, ℕ, IsTrue, Some, None, slice_get};
ghost use Rattle.std.specs.Bool.{OnTrue, OnFalse};
ghost use Rattle.fkv_records.specs.Places.{IsRecordStart};
ghost use Rattle.fkv_texts.specs.declared.entries.Entry.{Entry};
ghost use Rattle.fkv_texts.specs.Text.{entry_at};
ghost use Rattle.fkv_texts.specs.Deltas.{IsSuperseded};
ghost use Rattle.fkv_partition.specs.Contexts.{is_session, joined};
ghost use Rattle.fkv_partition.specs.Views.{slots_of, at_stage, cleared_past, done_at, relocation_at, with_relocation};
ghost use Rattle.fkv_partition.specs.KeyBeginning.{IsEntered};
ghost use Rattle.fkv_partition.specs.Stages.{RelocationStands, StageStands};
ghost use Rattle.fkv_partition.specs.Beginning.{IsFree, IsFirstOpen};

use crate::contexts::{is_vacant, set_context};
use crate::partitions::Partition;
use crate::relocations::{RelocationOf, StageOf, in_stage};
use fkv_device::Receipt;
use fkv_functions::Mergeable;
use fkv_lookups::clearing::cleared_stay;
use fkv_records::Address;

impl<F: Mergeable, R: Receipt> Partition<F, R> {
    /// Whether nothing stands in a context of a session.
    pub(crate) fn is_free(&self, slot: usize, context: usize) -> bool
        requires session { slot < 16 }
        requires context { context < 8 }
        ensures { IsTrue result ↔ IsFree self.now slot context }
    {
        is_vacant(&self.contexts, slot, context)
    }

    /// Whether what is open in a context is a relocation.
    pub(crate) fn holds_relocation(&self, slot: usize, context: usize) -> bool
        ensures some { OnTrue result ((x : _) × (relocation_at self.now slot context ≡ Some x)) }
        ensures none { OnFalse result (relocation_at self.now slot context ≡ None) }
    {
        self.is_relocating(slot, context)
    }

    /// Whether a relocation of a session is open.
    pub(crate) fn has_relocation(&self, slot: usize) -> bool
        ensures { IsTrue result ↔ ((c : ℕ) × (x : _) × (relocation_at self.now slot c ≡ Some x)) }
    {
        self.is_session(slot) && self.first_relocation(slot).is_some()
    }

    /// The lowest context of a session in which a relocation is open.
    pub fn open_relocation(&self, slot: usize) -> Option<usize>
        ensures { IsFirstOpen self.now slot result }
    {
        if !self.is_session(slot) {
            return None;
        }
        self.first_relocation(slot)
    }

    /// Opens a relocation in a free context.
    pub(crate) fn begin_relocation(
        &mut self,
        slot: usize,
        context: usize,
        relocation: RelocationOf<F>,
        now: u64,
    )
        requires session { slot < 16 }
        requires context { context < 8 }
        requires entered { IsEntered self.old slot }
        requires free { IsFree self.old slot context }
        requires stands { RelocationStands R.keeps F.Key.cmp F.parts.joined F.code self.old self.old.cleared relocation }
        ensures { self.new ≡ with_relocation self.old slot context (Some relocation) now }
    {
        self.set_relocation(slot, context, relocation, now);
    }

    /// Moves a relocation to another stage.
    pub(crate) fn set_stage(
        &mut self,
        slot: usize,
        context: usize,
        relocation: &RelocationOf<F>,
        stage: StageOf<F>,
        now: u64,
    )
        requires session { slot < 16 }
        requires context { context < 8 }
        requires here { relocation_at self.old slot context ≡ Some relocation.now }
        requires stands { StageStands R.keeps F.Key.cmp F.parts.joined F.code self.old relocation.now.target stage }
        ensures { self.new ≡ with_relocation self.old slot context (Some (at_stage relocation.now stage)) now }
    {
        self.facts();
        let moved = in_stage(relocation, stage);
        self.set_relocation(slot, context, moved, now);
    }

    /// Frees the context of a relocation, which has no effect.
    pub(crate) fn end(&mut self, slot: usize, context: usize, now: u64)
        requires session { slot < 16 }
        requires context { context < 8 }
        requires here { IsSome (relocation_at self.old slot context) }
        ensures { self.new ≡ with_relocation self.old slot context None now }
    {
        self.free(slot, context, now);
    }

    /// What is cleared once the record at a place is.
    pub(crate) fn past(&self, place: Address) -> Address
        requires place { IsRecordStart self.now.records.log.bits self.now.records.record_size place }
        ensures { result ≡ cleared_past self.now place }
    {
        if self.cleared <= place {
            self.records().next(place)
        } else {
            self.cleared
        }
    }

    /// Clears a place whose record is superseded, where it was not cleared before, and frees the context of the relocation.
    pub(crate) fn finish(&mut self, slot: usize, context: usize, place: Address, now: u64)
        requires session { slot < 16 }
        requires context { context < 8 }
        requires here { IsSome (relocation_at self.old slot context) }
        requires issued { place ≤ self.old.cleared }
        requires place { IsRecordStart self.old.records.log.bits self.old.records.record_size place }
        requires low { place < self.old.records.log.tail }
        requires superseded { IsTrue R.keeps → (e : Entry F.Key F.Value)
            → entry_at self.old.records.log.text place ≡ Some e
            → IsSuperseded F.Key.cmp self.old.records.log.text e }
        ensures { self.new ≡ done_at self.old slot context place now }
    {
        cleared_stay::<F::Key, F::Value>();
        self.facts();
        let cleared = self.past(place);
        self.moment = now;
        self.cleared = cleared;
        set_context(&mut self.contexts, slot, context, None);
    }
}
