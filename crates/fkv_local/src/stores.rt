//! The store of one thread.
ghost use Rattle.std.specs.Prelude.{◌≡◌, ◌≢◌, ◌<◌, ◌+◌, ◌-◌, ◌^◌, min, sum_by, ℕ, false, true, None, Some, Err, IsTrue, IfOk, IfErr, OnOk, List, map, length, slice_get};
ghost use Rattle.std.specs.BTreeMap.{get};
ghost use Rattle.fkv_records.specs.Records.{size_of};
ghost use Rattle.fkv_functions.specs.Plain.{Same};
ghost use Rattle.fkv_operations.specs.After.{after, answer};
ghost use Rattle.fkv_operations.specs.declared.operations.KeyedOp.TheVariants.{Read, Upsert, Rmw, Delete, Merge};
ghost use Rattle.fkv_partition.specs.Views.{partition_of, PartitionView};
ghost use Rattle.fkv_partition.specs.Limits.{IsWithinLimits};
ghost use Rattle.fkv_local.specs.Storing.{plain, IsRun, IsUpdateRun, IsUnopened, SameTerms, log_bytes, evicted_bytes};
ghost use Rattle.fkv_alone.specs.Bound.{may_load};
ghost use Rattle.fkv_alone.specs.Causes.{CanFailToRead, CanFailToWrite};
ghost use Rattle.fkv_local.specs.Resting.{IsMadeBy};
ghost use Rattle.fkv_local.specs.Causing.{IsCausedBy};
ghost use Rattle.fkv_local.specs.Clearing.{IsCutAt, AnyIsCut, IsAllCut, IsGivenBack, IsAllGivenBack, begin_at};
ghost use Rattle.fkv_local.specs.Reading.{ReadsFew};
ghost use Rattle.fkv_local.specs.Refusing.{IsRefusal, IsUncompacted, IsUncompactedAt, FailedAsBefore, StaysAt};
ghost use Rattle.fkv_local.specs.Listing.{IsUnlisted, lists_of, left};

use crate::compacting::{Effort, compact};
use crate::counting::{StoreCounts, appended_records, held_bytes};
use crate::driving::operate;
use crate::gathering::gather;
use crate::listing::Listing;
use crate::merging::update_or_merge;
use crate::parts::{Shard, Terms, all_placed};
use fkv_device::Disk;
use fkv_functions::{Mergeable, Refused};
use fkv_operations::{Answer, Clock, KeyedOp, KeyedOpOf, partition_at};
use fkv_partition::Config;
use std::alloc::Global;
use std::collections::BTreeMap;
use std::marker::Model;

/// A store of values by key, on one thread, whose pages move to a device by themselves. **It is a plain map**: `plain` of it. On a
/// device that keeps what it is given, each operation that is answered has made of that map what it makes of a plain one, and is
/// answered as by a plain one; each that is refused has left it, and none is refused as damaged but where a reader told that and
/// counted it. On any other device no clause says what an answer is: bytes that come back otherwise than they were written are
/// answered where they spell records, unless the reader compares them, as the one of a folder does by their SHA-256.
#[derive(Drop)]
pub struct LocalStore<F: Mergeable, D: Disk> {
    terms: Terms<F>,
    shards: Vec<Shard<F, D>>,
    clock: Clock,
}

impl<F: Mergeable, D: Disk> Model for LocalStore<F, D> {
    ghost use Rattle.std.specs.Prelude.{map};
    ghost use Rattle.std.specs.Prelude.{◌≡◌, ◌≤◌, ℕ, Some, slice_get};
    ghost use Rattle.fkv_local.specs.Resting.{AreAtRest, AreNumbered};
    ghost use Rattle.fkv_local.specs.Storing.{StoreView};

    ghost Value = { StoreView F.Key F.Value F.Input D.Writer D.Reader };

    ghost view = { λ s. record {
      parts = map (λ shard. shard.part.partition) s.shards.items;
      writers = map (λ shard. shard.part.writer) s.shards.items;
      readers = map (λ shard. shard.reader) s.shards.items;
      config = s.terms.config;
      keeps_log = s.terms.keeps_log;
      moments = s.clock;
    } };

    ghost invariant = { λ s. AreAtRest (map (λ shard. shard.part.partition) s.shards.items) s.clock
        × AreNumbered D.Writer.next (map (λ shard. shard.part.writer) s.shards.items) s.clock };
}

impl<F: Mergeable, D: Disk> LocalStore<F, D> {
    /// An empty store of this configuration over a device.
    ///
    /// # Errors
    ///
    /// `BadConfig` where a number of the configuration is outside its limits or a record would be too large, and then the device
    /// is not touched; `NoMemory`; `Device` with code 1 where the device refuses to open a partition's pages.
    pub fn open(
        alloc: Global,
        config: &Config,
        functions: F,
        device: &mut D,
    ) -> Result<Self, Refused>
        ensures empty { IfOk result (λ s. (k : F.Key) → plain F.Key.cmp F.code s k ≡ None) }
        ensures compacts { IfOk result (λ s. s.keeps_log ≡ false) }
        ensures configured { IfOk result (λ s. s.config ≡ config.now) }
        ensures made { IfOk result (λ s. (p : ℕ) (v : PartitionView F.Key F.Value F.Input) → slice_get s.parts p ≡ Some v → IsMadeBy config.now v) }
        ensures sized { IfOk result (λ s. length s.parts ≡ 2 ^ config.now.partition_bits) }
        ensures good { result ≢ Err Refused.BadConfig → IsWithinLimits config.now (size_of F.Key.SIZE F.Value.SIZE) }
        ensures bad { result ≡ Err Refused.BadConfig → IsWithinLimits config.now (size_of F.Key.SIZE F.Value.SIZE) → ⊥ }
        ensures steady { OnOk result (D.failures device.new ≡ D.failures device.old) }
        ensures told { IfErr result (IsUnopened (D.failures device.old) (D.failures device.new)) }
    {
        if !config.is_within_limits::<F::Key, F::Value>() {
            return Err(Refused::BadConfig);
        }
        let count = config.partitions();
        match all_placed::<F, D>(alloc, config, device, count) {
            Ok(shards) => Ok(LocalStore {
                terms: Terms {
                    alloc,
                    functions,
                    config: *config,
                    keeps_log: false,
                },
                shards,
                clock: Clock::starting(count),
            }),
            Err(refused) => Err(refused),
        }
    }

    /// The configuration that the store was opened with.
    pub fn config(&self) -> &Config
        ensures { result.now ≡ self.now.config }
    {
        &self.terms.config
    }

    /// From now on no log is compacted by itself, but by [`LocalStore::compact`] alone.
    pub fn keep_log(&mut self)
        ensures { self.new ≡ record self.old { keeps_log = true } }
    {
        self.terms.keeps_log = true;
    }

    /// Makes an operation, of any kind. Whatever is refused, the store stays the map that it was, and can be used on.
    ///
    /// # Errors
    ///
    /// `NoMemory`; `NoMerge` of a merge, where the functions don't merge; `Device` with code 2 or 3 where a page can't be written
    /// or read; `Damaged` where a page came back with other bytes, or spells no record; `Worn` where no address or no two moments
    /// are left. It is never `Stalled`: where there is no room for a record pages move on, and then there is.
    #[inline(always)]
    pub fn run(&mut self, op: KeyedOpOf<F>) -> Result<Answer<F::Output>, Refused>
        ensures runs { IsTrue D.Receipt.keeps → IsRun F.Key.cmp F.meaning (plain F.Key.cmp F.code self.old) (plain F.Key.cmp F.code self.new) op result }
        ensures told { IfErr result (IsRefusal D.Receipt.keeps F.MERGES
            F.code D.Writer.failures D.Reader.failures self.old self.new op) }
        ensures caused { IsTrue D.Receipt.keeps → IfErr result
            (IsCausedBy (CanFailToWrite D.Writer.next D.Writer.can_fail) (CanFailToRead D.Receipt.stands D.Reader.can_fail)) }
        ensures unread { may_load op ≡ false → IsTrue self.old.keeps_log → self.new.readers ≡ self.old.readers }
        ensures loads { IsTrue D.Receipt.keeps → IsTrue self.old.keeps_log → ReadsFew F.code D.Reader.reads self.old self.new op }
        ensures same_terms { SameTerms self.old self.new }
    {
        let home = self.home(&op.key());
        let shard = &mut self.shards[home];
        operate(&self.terms, shard, op, &mut self.clock)
    }

    /// Changes a key's value by an input, or gives it its first value, and shows the new one; or is declined. A value in memory
    /// is changed where it stands.
    ///
    /// # Errors
    ///
    /// As [`LocalStore::run`]'s.
    pub fn rmw(&mut self, key: &F::Key, input: &F::Input) -> Result<Answer<F::Output>, Refused>
        ensures runs { IsTrue D.Receipt.keeps → IsRun F.Key.cmp F.meaning (plain F.Key.cmp F.code self.old) (plain F.Key.cmp F.code self.new) (Rmw key.now input.now) result }
        ensures told { IfErr result (IsRefusal D.Receipt.keeps F.MERGES
            F.code D.Writer.failures D.Reader.failures self.old self.new (Rmw key.now input.now)) }
        ensures caused { IsTrue D.Receipt.keeps → IfErr result
            (IsCausedBy (CanFailToWrite D.Writer.next D.Writer.can_fail) (CanFailToRead D.Receipt.stands D.Reader.can_fail)) }
        ensures loads { IsTrue D.Receipt.keeps → IsTrue self.old.keeps_log
            → ReadsFew {V = F.Value} F.code D.Reader.reads self.old self.new (Rmw key.now input.now) }
        ensures same_terms { SameTerms self.old self.new }
    {
        self.run(KeyedOp::Rmw(*key, *input))
    }

    /// Changes a key's value as [`LocalStore::rmw`] does, and reads no page for it: where one would have to be read, and the functions
    /// merge, it is made as [`LocalStore::merge`] makes it, and answers `Stored`.
    ///
    /// # Errors
    ///
    /// As [`LocalStore::rmw`]'s.
    pub fn update_or_merge(
        &mut self,
        key: &F::Key,
        input: &F::Input,
    ) -> Result<Answer<F::Output>, Refused>
        ensures runs { IsTrue D.Receipt.keeps → IsUpdateRun F.Key.cmp F.meaning (plain F.Key.cmp F.code self.old) (plain F.Key.cmp F.code self.new) key.now input.now result }
        ensures told { IfErr result (IsRefusal D.Receipt.keeps F.MERGES
            F.code D.Writer.failures D.Reader.failures self.old self.new (Rmw key.now input.now)) }
        ensures unread { IsTrue F.MERGES → IsTrue self.old.keeps_log → self.new.readers ≡ self.old.readers }
        ensures caused { IsTrue D.Receipt.keeps → IfErr result
            (IsCausedBy (CanFailToWrite D.Writer.next D.Writer.can_fail) (CanFailToRead D.Receipt.stands D.Reader.can_fail)) }
        ensures same_terms { SameTerms self.old self.new }
    {
        let place = self.home(key);
        let shard = &mut self.shards[place];
        update_or_merge(&self.terms, shard, key, input, &mut self.clock)
    }

    /// Shows a key's value, for an input. One in memory is read in one call, and takes no moment.
    ///
    /// # Errors
    ///
    /// As [`LocalStore::run`]'s.
    pub fn read(&mut self, key: &F::Key, input: &F::Input) -> Result<Answer<F::Output>, Refused>
        ensures runs { IsTrue D.Receipt.keeps → IsRun F.Key.cmp F.meaning (plain F.Key.cmp F.code self.old) (plain F.Key.cmp F.code self.new) (Read key.now input.now) result }
        ensures told { IfErr result (IsRefusal D.Receipt.keeps F.MERGES
            F.code D.Writer.failures D.Reader.failures self.old self.new (Read key.now input.now)) }
        ensures caused { IsTrue D.Receipt.keeps → IfErr result
            (IsCausedBy (CanFailToWrite D.Writer.next D.Writer.can_fail) (CanFailToRead D.Receipt.stands D.Reader.can_fail)) }
        ensures loads { IsTrue D.Receipt.keeps → IsTrue self.old.keeps_log
            → ReadsFew {V = F.Value} F.code D.Reader.reads self.old self.new (Read key.now input.now) }
        ensures same_terms { SameTerms self.old self.new }
    {
        self.run(KeyedOp::Read(*key, *input))
    }

    /// Sets a key's value, whatever it was.
    ///
    /// # Errors
    ///
    /// As [`LocalStore::run`]'s.
    pub fn upsert(&mut self, key: &F::Key, value: &F::Value) -> Result<Answer<F::Output>, Refused>
        ensures runs { IsTrue D.Receipt.keeps → IsRun F.Key.cmp F.meaning (plain F.Key.cmp F.code self.old) (plain F.Key.cmp F.code self.new) (Upsert key.now value.now) result }
        ensures told { IfErr result (IsRefusal D.Receipt.keeps F.MERGES
            F.code D.Writer.failures D.Reader.failures self.old self.new (Upsert key.now value.now)) }
        ensures caused { IsTrue D.Receipt.keeps → IfErr result
            (IsCausedBy (CanFailToWrite D.Writer.next D.Writer.can_fail) (CanFailToRead D.Receipt.stands D.Reader.can_fail)) }
        ensures unread { IsTrue self.old.keeps_log → self.new.readers ≡ self.old.readers }
        ensures same_terms { SameTerms self.old self.new }
    {
        self.run(KeyedOp::Upsert(*key, *value))
    }

    /// Removes a key.
    ///
    /// # Errors
    ///
    /// As [`LocalStore::run`]'s.
    pub fn delete(&mut self, key: &F::Key) -> Result<Answer<F::Output>, Refused>
        ensures runs { IsTrue D.Receipt.keeps → IsRun F.Key.cmp F.meaning (plain F.Key.cmp F.code self.old) (plain F.Key.cmp F.code self.new) (Delete key.now) result }
        ensures told { IfErr result (IsRefusal D.Receipt.keeps F.MERGES
            F.code D.Writer.failures D.Reader.failures self.old self.new (Delete key.now)) }
        ensures caused { IsTrue D.Receipt.keeps → IfErr result
            (IsCausedBy (CanFailToWrite D.Writer.next D.Writer.can_fail) (CanFailToRead D.Receipt.stands D.Reader.can_fail)) }
        ensures unread { IsTrue self.old.keeps_log → self.new.readers ≡ self.old.readers }
        ensures same_terms { SameTerms self.old self.new }
    {
        self.run(KeyedOp::Delete(*key))
    }

    /// Changes a key's value as [`LocalStore::rmw`] does, shows nothing, and reads no page.
    ///
    /// # Errors
    ///
    /// As [`LocalStore::run`]'s.
    pub fn merge(&mut self, key: &F::Key, input: &F::Input) -> Result<Answer<F::Output>, Refused>
        ensures runs { IsTrue D.Receipt.keeps → IsRun F.Key.cmp F.meaning (plain F.Key.cmp F.code self.old) (plain F.Key.cmp F.code self.new) (Merge key.now input.now) result }
        ensures told { IfErr result (IsRefusal D.Receipt.keeps F.MERGES
            F.code D.Writer.failures D.Reader.failures self.old self.new (Merge key.now input.now)) }
        ensures caused { IsTrue D.Receipt.keeps → IfErr result
            (IsCausedBy (CanFailToWrite D.Writer.next D.Writer.can_fail) (CanFailToRead D.Receipt.stands D.Reader.can_fail)) }
        ensures unread { IsTrue self.old.keeps_log → self.new.readers ≡ self.old.readers }
        ensures same_terms { SameTerms self.old self.new }
    {
        self.run(KeyedOp::Merge(*key, *input))
    }

    /// All keys with their values, keys rising. Each page that left memory is read once.
    ///
    /// # Errors
    ///
    /// `NoMemory`; `Device` with code 3 where a page can't be read; `Damaged` where one came back with other bytes, or spells no
    /// record.
    pub fn live(&mut self) -> Result<BTreeMap<F::Key, F::Value>, Refused>
        ensures map { IsTrue D.Receipt.keeps → IfOk result (λ live. Same (get F.Key.cmp live) (plain F.Key.cmp F.code self.old)) }
        ensures stays { self.new ≡ record self.old { readers = self.new.readers } }
        ensures steady { OnOk result (map D.Reader.failures self.new.readers ≡ map D.Reader.failures self.old.readers) }
        ensures told { IfErr result (IsUnlisted D.Receipt.keeps D.Reader.failures self.old.parts self.old.readers self.new.readers) }
        ensures caused { IsTrue D.Receipt.keeps → IfErr result
            (IsCausedBy (CanFailToWrite D.Writer.next D.Writer.can_fail) (CanFailToRead D.Receipt.stands D.Reader.can_fail)) }
    {
        let mut map = BTreeMap::new(self.terms.alloc);
        match gather(&self.terms.functions, &mut map, &mut self.shards) {
            Ok(()) => {}
            Err(refused) => return Err(refused),
        }
        Ok(map)
    }

    /// The map that the store is, as [`LocalStore::live`] gives it, and the end of the store.
    ///
    /// # Errors
    ///
    /// As [`LocalStore::live`]'s.
    pub fn into_map(self) -> Result<BTreeMap<F::Key, F::Value>, Refused>
        ensures map { IsTrue D.Receipt.keeps → IfOk result (λ live. Same (get F.Key.cmp live) (plain F.Key.cmp F.code self)) }
        ensures told { IfErr result (λ why. (readers : List D.Reader)
            × IsUnlisted D.Receipt.keeps D.Reader.failures self.parts self.readers readers why) }
        ensures caused { IsTrue D.Receipt.keeps → IfErr result
            (IsCausedBy (CanFailToWrite D.Writer.next D.Writer.can_fail) (CanFailToRead D.Receipt.stands D.Reader.can_fail)) }
    {
        let mut store = self;
        store.live()
    }

    /// The lists of its live pairs, one a partition, of which none is made yet; and the end of the store. So there is never a
    /// list, and never a map, of all keys.
    pub fn into_lists(self) -> Listing<F, D>
        ensures all { result ≡ lists_of self }
        ensures map { Same (left F.Key.cmp F.code result) (plain F.Key.cmp F.code self) }
    {
        let LocalStore { terms, shards, .. } = self;
        Listing::of(terms, shards)
    }

    /// Appends what lives in the pages that left memory again, and drops those pages: in memory they are freed, and the places that
    /// they had in files are used again. Answers whether any log's start was cut. No key's value changes, whatever is refused. It is
    /// done by itself too, as far as it pays, for each partition where its pages have moved far enough.
    ///
    /// # Errors
    ///
    /// `NoMemory`; `Device` with code 2 or 3; `Damaged`; `Worn`. What is cleared by then stays so, and the partitions behind are
    /// not compacted.
    pub fn compact(&mut self) -> Result<bool, Refused>
        ensures stays { IsTrue D.Receipt.keeps → Same (plain F.Key.cmp F.code self.new) (plain F.Key.cmp F.code self.old) }
        ensures sized { length self.new.parts ≡ length self.old.parts }
        ensures caused { IsTrue D.Receipt.keeps → IfErr result
            (IsCausedBy (CanFailToWrite D.Writer.next D.Writer.can_fail) (CanFailToRead D.Receipt.stands D.Reader.can_fail)) }
        ensures same_terms { SameTerms self.old self.new }
        ensures given_back { OnOk result (IsAllGivenBack self.old self.new) }
        ensures cut { IfOk result (AnyIsCut self.old self.new) }
        ensures whole { OnOk result ((p : ℕ) (v : PartitionView F.Key F.Value F.Input) → slice_get self.new.parts p ≡ Some v → IsAllCut v) }
        ensures steady { OnOk result ((p : ℕ) → FailedAsBefore D.Writer.failures D.Reader.failures self.old self.new p) }
        ensures told { IfErr result (IsUncompacted D.Receipt.keeps
            D.Writer.failures D.Reader.failures self.old self.new) }
    {
        let mut has_cut = false;
        for home in 0..self.shards.len() {
            match self.compact_part(home) {
                Ok(is_cut) => has_cut = is_cut || has_cut,
                Err(refused) => return Err(refused),
            }
        }
        Ok(has_cut)
    }

    /// Compacts the log of the partition at a place.
    fn compact_part(&mut self, home: usize) -> Result<bool, Refused>
        requires within { home < length self.old.parts }
        ensures stays { IsTrue D.Receipt.keeps → Same (plain F.Key.cmp F.code self.new) (plain F.Key.cmp F.code self.old) }
        ensures sized { length self.new.parts ≡ length self.old.parts }
        ensures caused { IsTrue D.Receipt.keeps → IfErr result
            (IsCausedBy (CanFailToWrite D.Writer.next D.Writer.can_fail) (CanFailToRead D.Receipt.stands D.Reader.can_fail)) }
        ensures same_terms { SameTerms self.old self.new }
        ensures others { (p : ℕ) → p ≢ home → StaysAt self.old self.new p }
        ensures given_back { OnOk result ((v w : PartitionView F.Key F.Value F.Input)
            → slice_get self.old.parts home ≡ Some v → slice_get self.new.parts home ≡ Some w → IsGivenBack v w) }
        ensures cut { IfOk result (λ has_cut. IsTrue has_cut → IsCutAt self.old self.new home) }
        ensures uncut { IfOk result (λ has_cut. has_cut ≡ false → begin_at self.new home ≡ begin_at self.old home) }
        ensures whole { OnOk result ((v : PartitionView F.Key F.Value F.Input) → slice_get self.new.parts home ≡ Some v → IsAllCut v) }
        ensures steady { OnOk result (FailedAsBefore D.Writer.failures D.Reader.failures self.old self.new home) }
        ensures told { IfErr result (IsUncompactedAt D.Receipt.keeps
            D.Writer.failures D.Reader.failures self.old self.new home) }
    {
        let shard = &mut self.shards[home];
        compact(&self.terms, shard, Effort::Whole, &mut self.clock)
    }

    /// How much the store holds.
    pub fn counts(&self) -> StoreCounts
        ensures bytes { result.bytes ≡ min (sum_by log_bytes self.now.parts) (2 ^ 64 - 1) }
        ensures evicted { result.evicted ≡ min (sum_by evicted_bytes self.now.parts) (2 ^ 64 - 1) }
        ensures moments { result.moments ≡ self.now.moments }
    {
        let (bytes, evicted) = held_bytes(&self.shards);
        StoreCounts {
            bytes,
            evicted,
            records: appended_records(&self.shards),
            moments: self.clock.last(),
        }
    }

    /// The place of the partition of a key.
    fn home(&self, key: &F::Key) -> usize
        ensures value { result ≡ partition_of (length self.now.parts) (F.code key.now) }
        ensures within { result < length self.now.parts }
    {
        // which says that their number is a power of two
        self.shards[0].part.partition.facts();
        let count = self.shards.len() as u64;
        partition_at(self.terms.functions.hash(key), count) as usize
    }
}
