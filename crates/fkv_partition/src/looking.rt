//! What events look at in a partition. None of these changes it.
ghost use Rattle.std.specs.Prelude.{◌≡◌, ◌+◌, ◌*◌, ◌<◌, ◌≤◌, ◌↔◌, Some, None, true, false, IsTrue, IfSome, is_some, option_map, position, slice_get, slice_range};
ghost use Rattle.std.specs.Bool.{OnTrue, OnFalse};
ghost use Rattle.fkv_index.specs.Words.{address_of};
ghost use Rattle.fkv_operations.specs.After.{key_of, is_merge};
ghost use Rattle.fkv_texts.specs.declared.entries.Entry.{Entry};
ghost use Rattle.fkv_lookups.specs.Decisions.{decision, low_of};
ghost use Rattle.fkv_operations.specs.Classes.{IsClass};
ghost use Rattle.fkv_lookups.specs.RecordsViews.{class_in, IsEntryOf};
ghost use Rattle.fkv_partition.specs.Contexts.{is_session, joined, relocating};
ghost use Rattle.fkv_partition.specs.KeyBeginning.{IsEntered};
ghost use Rattle.fkv_partition.specs.Views.{MayNeedPage, context_at, entry_for, found_for, newest_in_memory, met_at, open_context, partition_of, relocation_at, reached_from, seen_at, slots_of};

use crate::contexts::{
    ContextOf, holds_relocation, open_context, operation_at, relocating_context,
};
use crate::partitions::Partition;
use fkv_device::Receipt;
use fkv_functions::{Functions, Mergeable};
use fkv_lookups::decisions::blind;
use fkv_lookups::laws::lookups_tell;
use fkv_lookups::{ChainResult, DecisionOf, LookupResult, decide, low_of, met_by};
use fkv_operations::{Class, IndexEntry, KeyedOpOf, partition_at};
use fkv_records::Address;
use fkv_texts::ChainPosition;

/// What leads nowhere.
const NOWHERE: Address = 1;

/// Where an entry leads.
pub(crate) fn address_of(entry: &Option<IndexEntry>) -> Option<Address>
    ensures { result ≡ option_map (λ e. address_of e.word) entry.now }
{
    match entry {
        None => None,
        Some(entry) => Some(entry.address()),
    }
}

impl<F: Mergeable, R: Receipt> Partition<F, R> {
    /// Whether an operation is a merge, and the functions don't merge.
    pub(crate) fn lacks_merges(&self, op: &KeyedOpOf<F>) -> bool
        ensures lacks { OnTrue result ((is_merge op.now ≡ true) × (self.now.merges ≡ false)) }
        ensures merges { OnFalse result (is_merge op.now ≡ true → self.now.merges ≡ true) }
    {
        let merges = self.merges();
        op.is_merge() && !merges
    }

    /// The operation that is open in a context.
    pub(crate) fn open(&self, slot: usize, context: usize) -> Option<ContextOf<F>>
        ensures value { result ≡ context_at self.now slot context }
        ensures session { IfSome result (λ _. slot < 16) }
        ensures context { IfSome result (λ _. context < 8) }
    {
        if !self.records.is_entered(slot) {
            return None;
        }
        operation_at(&self.contexts, slot, context)
    }

    /// Whether a relocation is open in a context.
    pub(crate) fn is_relocating(&self, slot: usize, context: usize) -> bool
        ensures { result ≡ is_some (relocation_at self.now slot context) }
    {
        if !self.records.is_entered(slot) {
            return false;
        }
        holds_relocation(&self.contexts, slot, context)
    }

    /// The lowest context of a slot in which a relocation stands.
    pub(crate) fn first_relocation(&self, slot: usize) -> Option<usize>
        requires { slot < 16 }
        ensures { result ≡ position (λ o. is_some (relocating o)) (slice_range self.now.contexts (slot * 8) (slot * 8 + 8)) }
    {
        relocating_context(&self.contexts, slot)
    }

    /// Whether a slot is that of a session.
    pub(crate) fn is_session(&self, slot: usize) -> bool
        ensures value { result ≡ is_session (slots_of self.now) slot }
        ensures within { IsTrue result → slot < 16 }
    {
        self.records.is_entered(slot)
    }

    /// The lowest open context of a session.
    pub(crate) fn first_open(&self, slot: usize) -> Option<usize>
        requires { slot < 16 }
        ensures { result ≡ open_context self.now slot }
    {
        open_context(&self.contexts, slot)
    }

    /// The number of the partition to which a key belongs.
    pub(crate) fn home(&self, functions: &F, key: &F::Key) -> u64
        ensures { result ≡ partition_of self.now.count (F.code key.now) }
    {
        self.facts();
        partition_at(functions.hash(key), self.count)
    }

    /// The class of a key, and its final entry.
    pub(crate) fn find(&self, functions: &F, key: &F::Key) -> (Class, Option<IndexEntry>)
        ensures class { result.0 ≡ class_in F.code self.now.records key.now }
        ensures range { IsClass self.now.records.bucket_bits result.0 }
        ensures entry { result.1 ≡ found_for F.code self.now key.now }
        ensures address { option_map (λ e. address_of e.word) result.1 ≡ entry_for F.code self.now key.now }
        ensures stands { IfSome result.1
            (λ e. IsEntryOf self.now.records (class_in F.code self.now.records key.now) e) }
    {
        let class = self.records.class(functions, key);
        let entry = self.records.entry(&class);
        (class, entry)
    }

    /// The address to which the final entry of a key's class leads.
    #[inline(always)]
    pub(crate) fn entry_address(&self, functions: &F, key: &F::Key) -> Option<Address>
        ensures { result ≡ entry_for F.code self.now key.now }
    {
        let class = self.records.class(functions, key);
        self.records.entry_address(&class)
    }

    /// The last record of a key that the session at a slot reads in memory, by the address to which the entry of the key's
    /// class leads, or where the records of the class lead.
    #[inline(always)]
    pub(crate) fn newest_in_memory(
        &self,
        slot: usize,
        key: &F::Key,
        entry: Option<Address>,
    ) -> ChainPosition<F::Key, F::Value>
        requires entered { IsEntered self.now slot }
        requires entry { entry ≡ entry_for F.code self.now key.now }
        ensures { result ≡ newest_in_memory F.Key.cmp F.code self.now slot key.now (entry_for F.code self.now key.now) }
    {
        match entry {
            None => ChainPosition::Below(NOWHERE),
            Some(address) => {
                let low = self.lowest(slot);
                self.records.newest_in_memory(address, key, low)
            }
        }
    }

    /// The lowest address that the session at a slot reads in memory.
    pub(crate) fn lowest(&self, slot: usize) -> Address
        requires { IsEntered self.now slot }
        ensures value { result ≡ low_of self.now.records.log.begin (seen_at self.now slot) }
        ensures begin { self.now.records.log.begin ≤ result }
        ensures closed { self.now.records.log.regions.offsets.closed ≤ result }
    {
        let view = self.records.view(slot);
        low_of(self.records.begin(), &view)
    }

    /// What a look-up of a key comes to in memory, no lower than an address that a session reads there ([`Partition::lowest`]), by
    /// the address to which the entry of the key's class leads.
    pub(crate) fn reach(
        &self,
        functions: &F,
        slot: usize,
        key: &F::Key,
        low: Address,
        entry: Option<Address>,
    ) -> ChainResult<F::Key, F::Value>
        requires begin { self.now.records.log.begin ≤ low }
        requires closed { self.now.records.log.regions.offsets.closed ≤ low }
        requires entry { entry ≡ entry_for F.code self.now key.now }
        ensures { result ≡ reached_from F.Key.cmp F.parts.joined F.code self.now slot key.now low
            (entry_for F.code self.now key.now) }
    {
        let _slot = slot;
        match entry {
            None => ChainResult {
                parts: None,
                position: ChainPosition::Below(NOWHERE),
            },
            Some(address) => {
                let first = self.records.newest_in_memory(address, key, low);
                self.records.gather(functions, address, first, key, low)
            }
        }
    }

    /// What the session at a slot meets, by the address to which the entry of a key's class leads and by the last record of
    /// the key that it reads in memory.
    #[inline(always)]
    pub(crate) fn met(
        &self,
        functions: &F,
        slot: usize,
        key: &F::Key,
        entry: Option<Address>,
        first: &ChainPosition<F::Key, F::Value>,
    ) -> LookupResult<F::Value>
        requires entered { IsEntered self.now slot }
        requires entry { entry ≡ entry_for F.code self.now key.now }
        requires first { first.now ≡ newest_in_memory F.Key.cmp F.code self.now slot key.now
            (entry_for F.code self.now key.now) }
        ensures { result ≡ met_at F.Key.cmp F.parts.joined F.code self.now slot key.now }
    {
        let view = self.records.view(slot);
        let begin = self.records.begin();
        let Some(address) = entry else {
            return LookupResult::NoEntry;
        };
        let low = self.lowest(slot);
        let came = self.records.gather(functions, address, *first, key, low);
        met_by(functions, entry, begin, &view, &came)
    }

    /// What an operation of the session at a slot does for what it meets: by the entry of its key's class, and by the last
    /// record of its key that it reads in memory. Parts of deltas are not collected for an operation that needs no value.
    pub(crate) fn decided(
        &self,
        slot: usize,
        functions: &F,
        op: &KeyedOpOf<F>,
        entry: Option<Address>,
        first: &ChainPosition<F::Key, F::Value>,
    ) -> DecisionOf<F>
        requires entered { IsEntered self.now slot }
        requires merging { is_merge op.now ≡ true → self.now.merges ≡ true }
        requires entry { entry ≡ entry_for F.code self.now (key_of op.now) }
        requires first { first.now ≡ newest_in_memory F.Key.cmp F.code self.now slot (key_of op.now)
            (entry_for F.code self.now (key_of op.now)) }
        ensures { result ≡ decision F.meaning op.now
            (met_at F.Key.cmp F.parts.joined F.code self.now slot (key_of op.now)) }
    {
        self.facts();
        let _merges = self.merges();
        lookups_tell::<F::Key, F::Value>();
        if is_delta(first) {
            if let Some(decision) = blind(functions, op) {
                return decision;
            }
        }
        let met = self.met(functions, slot, &op.key(), entry, first);
        decide(functions, op, &met)
    }
}

/// Whether a look-up came to a delta.
fn is_delta<K, V>(position: &ChainPosition<K, V>) -> bool
    ensures { IsTrue result ↔ ((e : Entry K V) × (position.now ≡ ChainPosition.Found e) × (e.delta ≡ true)) }
{
    match position {
        ChainPosition::Found(last) => last.delta,
        ChainPosition::Below(_) => false,
    }
}
