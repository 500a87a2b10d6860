//! What events change of a partition. Each change keeps what every partition keeps, and says what it leaves.
ghost use Rattle.std.specs.Prelude.{◌≡◌, ⊤, ◌+◌, ◌*◌, ◌^◌, ◌<◌, ◌≤◌, ◌↔◌, true, false, IsSome, IsTrue, Some, None, Ok, Err, IfSome, IfOk, IfErr, OnOk, OnErr, slice_get};
ghost use Rattle.std.specs.List.{list_any};
ghost use Rattle.std.specs.Bool.{OnTrue, OnFalse};
ghost use Rattle.fkv_index.specs.Words.{is_empty};
ghost use Rattle.fkv_index.specs.Places.{words_of};
ghost use Rattle.fkv_index.specs.Entries.{IsAlone};
ghost use Rattle.fkv_operations.specs.After.{key_of, is_merge};
ghost use Rattle.fkv_operations.specs.Classes.{IsClass};
ghost use Rattle.fkv_lookups.specs.RecordsViews.{class_in, confirmed, released, with_value, IsReplaceable};
ghost use Rattle.fkv_hybrid.specs.Views.{IsFull};
ghost use Rattle.fkv_lookups.specs.Payloads.{standing};
ghost use Rattle.fkv_partition.specs.Contexts.{joined, on_key, at_phase, claim_by, claim_at};
ghost use Rattle.fkv_partition.specs.Claiming.{IsClaimed};
ghost use Rattle.fkv_regions.specs.RegionsView.{left};
ghost use Rattle.fkv_partition.specs.Views.{at_moment, context_at, open_context, MovesTo, partition_of, with_relocation, with_context, with_payload, with_replaced, live_of};
ghost use Rattle.fkv_partition.specs.KeySound.{StandsFor};
ghost use Rattle.fkv_partition.specs.KeyBeginning.{IsEntered};
ghost use Rattle.fkv_partition.specs.Sound.{MayClear};
ghost use Rattle.fkv_partition.specs.Stages.{RelocationStands};
ghost use Rattle.fkv_partition.specs.Writes.{IsWrite};

use crate::contexts::{Context, ContextOf, OpenWork, Phase, move_on, set_context};
use crate::partitions::Partition;
use crate::relocations::RelocationOf;
use fkv_device::Receipt;
use fkv_functions::{Mergeable, Refused};
use fkv_index::Place;
use fkv_lookups::Payload;
use fkv_lookups::clearing::cleared_stay;
use fkv_lookups::laws::{records_change, records_grow};
use fkv_operations::{Class, IndexEntry, KeyedOpOf};
use fkv_records::Address;
use std::alloc::AllocError;

/// A record that is to be appended.
#[derive(Copy)]
pub struct Write<K, V> {
    /// The entry of the key's class, as it stands.
    pub entry: IndexEntry,
    pub key: K,
    pub payload: Payload<V>,
}

impl<K: Copy, V: Copy> Clone for Write<K, V> {
    ghost is_clone = { λ x y. y ≡ x };

    ghost is_infallible = { λ _. ⊤ };

    fn clone(&self) -> Result<Self, AllocError> {
        Ok(*self)
    }
}

impl<F: Mergeable, R: Receipt> Partition<F, R> {
    /// A moment passes, and nothing else changes.
    pub(crate) fn pass(&mut self, now: u64)
        ensures { self.new ≡ at_moment self.old now }
    {
        self.moment = now;
    }

    /// Clears up to an address, where that may be. Nothing else changes.
    pub(crate) fn clear_to(&mut self, address: Address)
        requires clears { MayClear R.keeps F.Key.cmp self.old address }
        ensures { self.new ≡ record self.old { cleared = address } }
    {
        self.cleared = address;
    }

    /// Frees a context, where what is open there, if anything, waits to confirm no entry.
    pub(crate) fn free(&mut self, slot: usize, context: usize, now: u64)
        requires session { slot < 16 }
        requires context { context < 8 }
        requires unclaimed { claim_at self.old.contexts (slot * 8 + context) ≡ None }
        ensures { self.new ≡ with_context self.old slot context None now }
    {
        self.moment = now;
        set_context(&mut self.contexts, slot, context, None);
    }

    /// Opens an operation in a free context.
    pub(crate) fn start(&mut self, slot: usize, context: usize, op: KeyedOpOf<F>, now: u64)
        requires session { slot < 16 }
        requires entered { IsEntered self.old slot }
        requires context { context < 8 }
        requires unclaimed { claim_at self.old.contexts (slot * 8 + context) ≡ None }
        requires own { partition_of self.old.count (F.code (key_of op)) ≡ self.old.number }
        requires merging { is_merge op ≡ true → self.old.merges ≡ true }
        ensures { self.new ≡ with_context self.old slot context
            (Some (record { number = now; op = op; phase = Phase.Fresh })) now }
    {
        let fresh = Context {
            number: now,
            op,
            phase: Phase::Fresh,
        };
        self.moment = now;
        set_context(
            &mut self.contexts,
            slot,
            context,
            Some(OpenWork::OnKey(fresh)),
        );
    }

    /// Opens a relocation in a context in which no operation on a key is open, or moves the one that is open there to another
    /// stage.
    pub(crate) fn set_relocation(
        &mut self,
        slot: usize,
        context: usize,
        relocation: RelocationOf<F>,
        now: u64,
    )
        requires session { slot < 16 }
        requires entered { IsEntered self.old slot }
        requires context { context < 8 }
        requires keyless { on_key (joined (slice_get self.old.contexts (slot * 8 + context))) ≡ None }
        requires stands { RelocationStands R.keeps F.Key.cmp F.parts.joined F.code self.old self.old.cleared relocation }
        ensures { self.new ≡ with_relocation self.old slot context (Some relocation) now }
    {
        self.moment = now;
        set_context(
            &mut self.contexts,
            slot,
            context,
            Some(OpenWork::Relocating(relocation)),
        );
    }

    /// Moves the operation that is open in a context to another phase. Before and after it waits to confirm no entry.
    pub(crate) fn set_phase(
        &mut self,
        slot: usize,
        context: usize,
        operation: &ContextOf<F>,
        phase: Phase<F::Value>,
        now: u64,
    )
        requires session { slot < 16 }
        requires context { context < 8 }
        requires here { context_at self.old slot context ≡ Some operation.now }
        requires unclaimed { claim_by operation.now.phase ≡ None }
        requires claims_nothing { claim_by phase ≡ None }
        requires stands { StandsFor R.keeps F.Key.cmp F.parts.joined F.code self.old.records operation.now.op phase }
        ensures { self.new ≡ with_context self.old slot context (Some (at_phase operation.now phase)) now }
    {
        self.moment = now;
        move_on(&mut self.contexts, slot, context, operation, phase);
    }

    /// Frees the slot of a session that has no open operation, and moves the offsets that are due then.
    pub(crate) fn vacate(&mut self, slot: usize, now: u64)
        requires entered { IsEntered self.old slot }
        requires idle { open_context self.old slot ≡ None }
        ensures { MovesTo R.keeps (left self.old.records.log.regions slot) self.old self.new now }
    {
        let _left = self.records.leave(slot);
        self.records.facts();
        self.moment = now;
    }

    /// Gives the last record of its key, which has a value, another one where it stands, or makes it a tombstone, and frees
    /// the context, whose operation waits to confirm no entry.
    pub(crate) fn replace(
        &mut self,
        slot: usize,
        context: usize,
        address: Address,
        value: Option<F::Value>,
        now: u64,
    )
        requires session { slot < 16 }
        requires context { context < 8 }
        requires unclaimed { claim_at self.old.contexts (slot * 8 + context) ≡ None }
        requires last { IsReplaceable F.Key.cmp self.old.records address }
        requires mutable { self.old.records.log.regions.offsets.safe_read_only ≤ address }
        ensures { self.new ≡ with_replaced self.old slot context address value now }
    {
        records_change::<F::Key, F::Value>();
        cleared_stay::<F::Key, F::Value>();
        self.records.facts();
        self.records.replace(address, value);
        self.records.facts();
        self.moment = now;
        set_context(&mut self.contexts, slot, context, None);
    }

    /// Gives the last record of its key, which has a value, another one where it stands, or makes it a tombstone. No context
    /// changes.
    #[inline(always)]
    pub(crate) fn revalue(&mut self, address: Address, value: Option<F::Value>, now: u64)
        requires last { IsReplaceable F.Key.cmp self.old.records address }
        requires mutable { self.old.records.log.regions.offsets.safe_read_only ≤ address }
        ensures { self.new ≡ record self.old { records = with_value self.old.records address value; moment = now } }
    {
        records_change::<F::Key, F::Value>();
        cleared_stay::<F::Key, F::Value>();
        self.records.facts();
        self.records.replace(address, value);
        self.records.facts();
        self.moment = now;
    }

    /// Makes a tentative entry for the class of an operation's key, which the operation then waits to confirm. Refused,
    /// and then nothing changes: `NoMemory`, which comes only where no place of the bucket is empty.
    pub(crate) fn claim(
        &mut self,
        slot: usize,
        context: usize,
        operation: &ContextOf<F>,
        class: Class,
        now: u64,
    ) -> Result<(), Refused>
        requires session { slot < 16 }
        requires context { context < 8 }
        requires here { context_at self.old slot context ≡ Some operation.now }
        requires unclaimed { claim_by operation.now.phase ≡ None }
        requires class { class ≡ class_in F.code self.old.records (key_of operation.now.op) }
        requires range { IsClass self.old.records.bucket_bits class }
        ensures ok { OnOk result (IsClaimed F.code self.old self.new slot context operation.now now) }
        ensures full { OnErr result (list_any is_empty (words_of self.old.records.words class.bucket) ≡ false) }
        ensures only { IfErr result (λ refused. refused ≡ Refused.NoMemory) }
        ensures unchanged { OnErr result (self.new ≡ self.old) }
    {
        let place = match self.records.claim(class) {
            Err(refused) => return Err(refused),
            Ok(place) => place,
        };
        self.records.facts();
        self.moment = now;
        let waiting = Phase::Confirm { place };
        move_on(&mut self.contexts, slot, context, operation, waiting);
        Ok(())
    }

    /// Makes a tentative entry final where no other entry of its tag stands in its bucket, and empties its place else;
    /// the operation that waited for it is to look again. Answers whether the entry is final.
    pub(crate) fn confirm(
        &mut self,
        slot: usize,
        context: usize,
        operation: &ContextOf<F>,
        place: Place,
        now: u64,
    ) -> bool
        requires session { slot < 16 }
        requires context { context < 8 }
        requires here { context_at self.old slot context ≡ Some operation.now }
        requires phase { operation.now.phase ≡ Phase.Confirm place }
        ensures alone { IsTrue result ↔ IsAlone self.old.records.words place }
        ensures final_now { OnTrue result (self.new
            ≡ record (with_context self.old slot context (Some (at_phase operation.now Phase.Fresh)) now)
            { records = confirmed self.old.records place }) }
        ensures backed_off { OnFalse result (self.new
            ≡ record (with_context self.old slot context (Some (at_phase operation.now Phase.Fresh)) now)
            { records = released self.old.records place }) }
    {
        let is_final = self.records.confirm(place);
        self.records.facts();
        self.moment = now;
        move_on(&mut self.contexts, slot, context, operation, Phase::Fresh);
        is_final
    }

    /// Frees the context of an operation that waits to confirm an entry, and empties the place of the entry.
    pub(crate) fn cancel(
        &mut self,
        slot: usize,
        context: usize,
        operation: &ContextOf<F>,
        place: Place,
        now: u64,
    )
        requires session { slot < 16 }
        requires context { context < 8 }
        requires here { context_at self.old slot context ≡ Some operation.now }
        requires phase { operation.now.phase ≡ Phase.Confirm place }
        ensures { self.new ≡ record (with_context self.old slot context None now)
            { records = released self.old.records place } }
    {
        self.records.cancel(place);
        self.records.facts();
        self.moment = now;
        set_context(&mut self.contexts, slot, context, None);
    }

    /// Appends a record, moves the entry of its class to it, and frees the context, whose operation waits to confirm no
    /// entry. Answers the record's address, or `None` where there is no room for one: then a moment passes, and nothing
    /// else changes. Refused, and then nothing changes: `Worn` where no address is left.
    pub(crate) fn append(
        &mut self,
        slot: usize,
        context: usize,
        write: Write<F::Key, F::Value>,
        now: u64,
    ) -> Result<Option<Address>, Refused>
        requires session { slot < 16 }
        requires context { context < 8 }
        requires unclaimed { claim_at self.old.contexts (slot * 8 + context) ≡ None }
        requires write { IsWrite F.code self.old write }
        ensures ok { IfOk result (λ o. IfSome o (λ _.
            self.new ≡ with_payload self.old slot context write.entry write.key write.payload
            (standing F.parts.joined (live_of F.Key.cmp self.old write.key) write.payload) now)) }
        ensures room { (result ≡ Ok None) ↔ IsFull self.old.records.log }
        ensures full { result ≡ Ok None → self.new ≡ record self.old { moment = now } }
        ensures worn { (result ≡ Err Refused.Worn) ↔ (self.old.records.log.tail ≡ 2 ^ 48) }
        ensures only { IfErr result (λ refused. refused ≡ Refused.Worn) }
        ensures unchanged { OnErr result (self.new ≡ self.old) }
    {
        records_grow::<F::Key, F::Value>();
        cleared_stay::<F::Key, F::Value>();
        match self.records.append(write.entry, write.key, write.payload) {
            Err(refused) => return Err(refused),
            Ok(None) => {
                self.moment = now;
                return Ok(None);
            }
            Ok(Some(address)) => {
                self.records.facts();
                self.moment = now;
                set_context(&mut self.contexts, slot, context, None);
                Ok(Some(address))
            }
        }
    }
}
