//! A partition: what it has, and what can be read of it.
ghost use Rattle.std.specs.Prelude.{◌≡◌, ◌≢◌, ◌<◌, ◌≤◌, ◌⊎◌, ◌+◌, ◌*◌, ◌^◌, ◌||◌, Option, Some, None, Err, IsTrue, ◌↔◌, IfOk, IfErr, IfSome, is_some, length, replicate, slice_get};
ghost use Rattle.fkv_records.specs.Records.{size_of};
ghost use Rattle.fkv_partition.specs.Contexts.{joined};
ghost use Rattle.fkv_partition.specs.Limits.{IsPartitionOf};
ghost use Rattle.fkv_partition.specs.Effect.{asked};
ghost use Rattle.fkv_partition.specs.KeyBeginning.{IsEntered};
ghost use Rattle.fkv_partition.specs.Views.{MayNeedPage, loading_at, empty_partition, relocation_at};
ghost use Rattle.fkv_partition.specs.KeySound.{IsSound};
ghost use Rattle.fkv_partition.specs.Going.{is_awaiting};
ghost use Rattle.fkv_partition.specs.Sound.{IsCompacting};
ghost use Rattle.fkv_partition.specs.Beginning.{IsFirstFree};

use crate::contexts::{CONTEXTS, OpenWork, relocation_at};
use crate::limits::Config;
use crate::relocations::{RelocationOf, awaited};
use fkv_device::Receipt;
use fkv_functions::{Mergeable, Refused};
use fkv_lookups::Records;
use fkv_operations::{Op, OpOf};
use fkv_records::{Address, FIRST};
use fkv_texts::ChainPosition;
use std::alloc::Global;
use std::marker::Model;

/// The contexts of all sessions of one partition.
const MAX_CONTEXTS: usize = 128;

/// One partition of a store: its records with their entries and sessions, the open operations and relocations of these, and how
/// much of its log is cleared. Each call that takes a moment is one event; the moments of a partition rise.
#[derive(Drop)]
pub struct Partition<F: Mergeable, R: Receipt> {
    pub(crate) number: u64,
    pub(crate) count: u64,
    pub(crate) records: Records<F, R>,
    pub(crate) contexts: Vec<Option<OpenWork<F::Key, F::Value, F::Input>>>,
    pub(crate) moment: u64,
    pub(crate) cleared: Address,
}

impl<F: Mergeable, R: Receipt> Model for Partition<F, R> {
    ghost use Rattle.fkv_partition.specs.Views.{PartitionView};

    ghost Value = { PartitionView F.Key F.Value F.Input };

    ghost use Rattle.fkv_partition.specs.Inside.{view_of};
    ghost use Rattle.fkv_partition.specs.Sound.{IsPartition};

    ghost view = { λ p. view_of F.MERGES p.number p.count p.records p.contexts.items p.moment p.cleared };

    ghost invariant = { λ p. IsPartition R.keeps F.Key.cmp F.parts.joined F.code
        (view_of F.MERGES p.number p.count p.records p.contexts.items p.moment p.cleared) };
}

/// A place for each context of each session, which holds nothing. Refused: `NoMemory`.
fn free_places<T: Drop>(alloc: Global) -> Result<Vec<Option<T>>, Refused>
    ensures ok { IfOk result (λ places. places.items ≡ replicate 128 None) }
    ensures only { IfErr result (λ refused. refused ≡ Refused.NoMemory) }
{
    let mut places = Vec::new(alloc);
    for _ in 0..MAX_CONTEXTS {
        let Ok(()) = places.push(None) else {
            return Err(Refused::NoMemory);
        };
    }
    Ok(places)
}

impl<F: Mergeable, R: Receipt> Partition<F, R> {
    /// The partition of this number, with nothing in it. Refused, in this order: `BadConfig` where a number of the
    /// configuration is outside its limits, a record is too large, or there is no partition of this number, `NoMemory`.
    pub fn new(alloc: Global, config: &Config, number: u64) -> Result<Self, Refused>
        ensures ok { IfOk result (λ c. c ≡ empty_partition F.MERGES config.now (size_of F.Key.SIZE F.Value.SIZE) number) }
        ensures good { result ≢ Err Refused.BadConfig
            → IsPartitionOf config.now (size_of F.Key.SIZE F.Value.SIZE) number }
        ensures bad { result ≡ Err Refused.BadConfig
            → ¬ IsPartitionOf config.now (size_of F.Key.SIZE F.Value.SIZE) number }
        ensures only { IfErr result (λ refused. (refused ≡ Refused.BadConfig) ⊎ (refused ≡ Refused.NoMemory)) }
    {
        let Some(shape) = config.shape::<F::Key, F::Value>() else {
            return Err(Refused::BadConfig);
        };
        let count = config.partitions();
        if number >= count {
            return Err(Refused::BadConfig);
        }
        let records = Records::new(
            alloc,
            config.partition_bits,
            config.bucket_bits,
            shape,
            config.frames,
        )?;
        let contexts = free_places(alloc)?;
        records.facts();
        Ok(Partition {
            number,
            count,
            records,
            contexts,
            moment: 0,
            cleared: FIRST,
        })
    }

    /// What holds of every partition. It does nothing when it runs.
    pub fn facts(&self)
        ensures sound { IsSound R.keeps F.Key.cmp F.parts.joined F.code self.now }
        ensures compacting { IsCompacting R.keeps F.Key.cmp F.parts.joined F.code self.now }
    {
        let _moment = self.moment;
    }

    /// Whether a session is entered at a slot and the last record of a key that it reads in memory, if any, has no value of the
    /// key: it is a delta, or the records of the key's class go on in a page on the device.
    pub fn may_need_page(&self, slot: usize, functions: &F, key: &F::Key) -> bool
        ensures { IsTrue result ↔ MayNeedPage F.Key.cmp F.code self.now slot key.now }
    {
        if !self.is_session(slot) {
            return false;
        }
        let entry = self.entry_address(functions, key);
        match self.newest_in_memory(slot, key, entry) {
            ChainPosition::Found(newest) => newest.delta,
            ChainPosition::Below(address) => self.records.begin() <= address,
        }
    }

    /// Whether the functions merge.
    pub fn merges(&self) -> bool
        ensures value { result ≡ self.now.merges }
        ensures functions { result ≡ F.MERGES }
    {
        let _moment = self.moment;
        F::MERGES
    }

    /// The number of the partition.
    pub fn number(&self) -> u64
        ensures { result ≡ self.now.number }
    {
        self.number
    }

    /// How many partitions the store has.
    pub fn count(&self) -> u64
        ensures { result ≡ self.now.count }
    {
        self.count
    }

    /// The records of the partition, to look at.
    pub(crate) fn records(&self) -> &Records<F, R>
        ensures { result.now ≡ self.now.records }
    {
        &self.records
    }

    /// Where the records begin that are not cleared: on a device that keeps, each record below is a tombstone, or a later
    /// record of its key stands above it that is no delta.
    pub fn cleared(&self) -> Address
        ensures { result ≡ self.now.cleared }
    {
        self.cleared
    }

    /// Begin: where the records begin that are not dropped.
    pub fn begin(&self) -> Address
        ensures { result ≡ self.now.records.log.begin }
    {
        self.records().begin()
    }

    /// The address of the next record, or 2^48 where there can't be one.
    pub fn tail(&self) -> Address
        ensures { result ≡ self.now.records.log.tail }
    {
        self.records().log().tail()
    }

    /// Head: records below it are read from the device by sessions that are refreshed from now on.
    pub fn head(&self) -> Address
        ensures { result ≡ self.now.records.log.regions.offsets.head }
    {
        self.records().log().regions().offsets().head
    }

    /// How many frames its pages have in memory: one at least.
    pub fn frames(&self) -> u64
        ensures value { result ≡ self.now.records.log.frames }
        ensures some { 0 < result }
    {
        self.records().log().frame_count()
    }

    /// The bytes of a page.
    pub fn page_size(&self) -> usize
        ensures { result ≡ 2 ^ self.now.records.log.bits }
    {
        self.records().log().shape().page_size()
    }

    /// What is open in a context, an operation on a key or a relocation, after its number, which is the moment of its
    /// issue. Refused: `Unknown` where nothing is open there.
    pub fn asked(&self, slot: usize, context: usize) -> Result<(u64, OpOf<F>), Refused>
        ensures ok { IfOk result (λ x. asked self.now slot context ≡ Some (record { number = x.0; op = x.1 })) }
        ensures within { IfOk result (λ _. (slot < 16) × (context < 8)) }
        ensures none { IfErr result (λ _. asked self.now slot context ≡ None) }
        ensures only { IfErr result (λ refused. refused ≡ Refused.Unknown) }
    {
        if !self.is_session(slot) {
            return Err(Refused::Unknown);
        }
        match self.asked_on_key(slot, context) {
            Ok((number, op)) => Ok((number, op.op())),
            Err(_unknown) => match self.relocation(slot, context) {
                Some(relocation) => Ok((relocation.number, Op::Relocate)),
                None => Err(Refused::Unknown),
            },
        }
    }

    /// Whether what is open in a context waits for a page.
    pub fn awaits_page(&self, slot: usize, context: usize) -> bool
        ensures { result ≡ (is_some (loading_at self.now slot context)
            || is_awaiting (relocation_at self.now slot context)) }
    {
        self.awaits_page_on_key(slot, context) || self.relocation_awaits(slot, context)
    }

    /// Whether the relocation in a context waits for a page.
    fn relocation_awaits(&self, slot: usize, context: usize) -> bool
        ensures { result ≡ is_awaiting (relocation_at self.now slot context) }
    {
        match self.relocation(slot, context) {
            None => false,
            Some(relocation) => awaited(relocation.target, &relocation.stage).is_some(),
        }
    }

    /// The relocation that is open in a context.
    pub fn relocation(&self, slot: usize, context: usize) -> Option<RelocationOf<F>>
        ensures value { result ≡ relocation_at self.now slot context }
        ensures session { IfSome result (λ _. slot < 16) }
        ensures context { IfSome result (λ _. context < 8) }
    {
        if !self.records.is_entered(slot) {
            return None;
        }
        relocation_at(&self.contexts, slot, context)
    }

    /// The lowest context of a session in which nothing is open.
    pub(crate) fn first_free(&self, slot: usize) -> Option<usize>
        requires session { slot < 16 }
        requires entered { IsEntered self.now slot }
        ensures value { IsFirstFree self.now slot result }
        ensures within { IfSome result (λ context. context < 8) }
    {
        for context in 0..CONTEXTS {
            if self.is_free(slot, context) {
                return Some(context);
            }
        }
        None
    }
}
