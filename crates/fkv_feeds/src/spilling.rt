//! Runs over feeds with one worker, whose table stands on the device of their store: a sorted run of each partition, which is written in
//! the place of the partition's log once its list is made, and the merge of these.
ghost use Rattle.std.specs.Prelude.{◌≡◌, ◌≢◌, ◌<◌, ◌≤◌, ◌%◌, ◌⊎◌, ◌∷◌, [], ℤ, List, filter, length, map, nat_eq, IsTrue, Err, IfOk, IfErr, OnOk};
ghost use Rattle.std.specs.BTreeMap.{is_at};
ghost use Rattle.std.specs.Map.{lookup, keys_of};
ghost use Rattle.std.specs.List.Sorted.{IsStrictlySortedBy};
ghost use Rattle.fkv_functions.specs.Names.{name_cmp};
ghost use Rattle.fkv_functions.specs.declared.names.Name.{Name};
ghost use Rattle.fkv_records.specs.Records.{size_of};
ghost use Rattle.fkv_alone.specs.Causes.{CanFailToRead, CanFailToWrite};
ghost use Rattle.fkv_local.specs.Listing.{IsNextList, behind_next, left};
ghost use Rattle.fkv_spills.specs.Reading.{IsLeft};
ghost use Rattle.fkv_spills.specs.Spilling.{pair_size};
ghost use Rattle.fkv_feeds.specs.Refusing.{IsRunnable, TellsWhyNone};
ghost use Rattle.fkv_feeds.specs.Spilling.{ArePairsOf, HasTableOf, IsSpillFault};
ghost use Rattle.fkv_feeds.specs.Tables.{HaveRows, StandsFor, amounts_of, folded};

use crate::counting::{Plan, RowMode, RunCounts};
use crate::reading::{RowStore, read_feed};
use crate::running::{LIMIT, MOST, opened, read_feeds};
use fkv_device::Disk;
use fkv_functions::{Mergeable, Name, Refused};
use fkv_local::Listing;
use fkv_partition::Config;
use fkv_spills::{ReadMerge, Spilled, SpilledPart, SpilledParts, SpilledRest, SpilledTable};
use fkv_streams::Source;
use std::alloc::Global;
use std::collections::BTreeMap;

/// A run over feeds whose table stands on the device of its store: its pairs, to be written out once, how many there are, how much
/// it did, and how.
#[derive(Drop)]
pub struct SpilledRun<V, R, P> {
    pub pairs: ReadMerge<ReadMerge<SpilledRest<V, R, P>>>,
    /// How many keys the table has.
    pub keys: usize,
    pub counts: RunCounts,
    pub plan: Plan,
}

/// The run of a partition's list, in pages of so many bytes: the partition's place on the device begins anew, with the run alone. A key
/// whose hash names another partition is left out: no device that keeps brings one. Refused: `NoMemory`, and as a device refuses.
fn spilled<F: Mergeable<Key = Name>, D: Disk>(
    alloc: Global,
    lists: &Listing<F, D>,
    map: &BTreeMap<Name, F::Value>,
    device: &mut D,
    page_size: usize,
) -> Result<SpilledPart<F::Value, D::Receipt, D::Reader>, Refused>
    requires most { pair_size F.Value.SIZE ≤ 192 }
    ensures ok { IsTrue D.Receipt.keeps → IfOk result (λ part. IsLeft F.Value.codec D.Receipt.keeps D.Receipt.stands part.rest
        (filter (λ pair. nat_eq (F.code pair.0 % lists.now.count) (length lists.now.parts)) map.now.entries)) }
    ensures len { IfOk result (λ part. part.len
        ≡ length (filter (λ pair. nat_eq (F.code pair.0 % lists.now.count) (length lists.now.parts)) map.now.entries)) }
    ensures told { IfErr result (IsSpillFault D.Receipt.keeps D.failures D.Writer.failures D.Reader.failures
        (CanFailToWrite D.Writer.next D.Writer.can_fail) (CanFailToRead D.Receipt.stands D.Reader.can_fail)) }
{
    let number = lists.len() as u64;
    let mut writer = match device.writer(number) {
        Ok(writer) => writer,
        Err(refused) => return Err(refused),
    };
    let count = lists.count() as u64;
    let functions = lists.functions();
    let run = match Spilled::of_home(
        alloc,
        functions,
        number,
        count,
        map,
        &mut writer,
        page_size,
        0,
    ) {
        Ok(run) => run,
        Err(refused) => return Err(refused),
    };
    let len = run.len;
    let reader = match device.reader(number) {
        Ok(reader) => reader,
        Err(refused) => return Err(refused),
    };
    match SpilledRest::of(run, reader) {
        Ok(rest) => Ok(SpilledPart { rest, len }),
        Err(refused) => Err(refused),
    }
}

/// The run of the next list, whose partition has gone before its place begins anew. Refused: `NoMemory`, and as a device refuses.
fn next_part<F: Mergeable<Key = Name>, D: Disk>(
    alloc: Global,
    lists: &mut Listing<F, D>,
    device: &mut D,
    page_size: usize,
) -> Result<SpilledPart<F::Value, D::Receipt, D::Reader>, Refused>
    requires some { 0 < length lists.old.parts }
    requires most { pair_size F.Value.SIZE ≤ 192 }
    ensures ok { IsTrue D.Receipt.keeps → IfOk result (λ part. (pairs : List (Name × F.Value))
        × IsLeft F.Value.codec D.Receipt.keeps D.Receipt.stands part.rest
        (filter (λ pair. nat_eq (F.code pair.0 % lists.old.count) (length lists.new.parts)) pairs)
        × (part.len ≡ length (filter (λ pair. nat_eq (F.code pair.0 % lists.old.count) (length lists.new.parts)) pairs))
        × IsStrictlySortedBy name_cmp (keys_of pairs)
        × IsNextList name_cmp F.code lists.old lists.new (λ k. lookup (is_at (name_cmp k)) pairs)) }
    ensures after { OnOk result (lists.new ≡ behind_next lists.old) }
    ensures told { IfErr result (IsSpillFault D.Receipt.keeps D.failures D.Writer.failures D.Reader.failures
        (CanFailToWrite D.Writer.next D.Writer.can_fail) (CanFailToRead D.Receipt.stands D.Reader.can_fail)) }
{
    let map = match lists.next() {
        Ok(Some(map)) => map,
        Ok(None) => unreachable!(),
        Err(refused) => return Err(refused),
    };
    let _ordered = map.len();
    spilled(alloc, lists, &map, device, page_size)
}

/// The table of all that is to be listed of a store, in pages of so many bytes of its device. Refused: `NoMemory`; `Worn` where it
/// has more keys than a number counts; and as a device refuses.
fn spilled_table_of<F: Mergeable<Key = Name>, D: Disk>(
    alloc: Global,
    lists: Listing<F, D>,
    device: &mut D,
    page_size: usize,
) -> Result<SpilledTable<F::Value, D::Receipt, D::Reader>, Refused>
    requires all { length lists.parts ≡ lists.count }
    requires most { pair_size F.Value.SIZE ≤ 192 }
    ensures ok { IsTrue D.Receipt.keeps → IfOk result (λ table. (xs : List (Name × F.Value))
        × ArePairsOf F.Value.codec D.Receipt.keeps D.Receipt.stands table.pairs xs
        × (table.keys ≡ length xs)
        × IsStrictlySortedBy name_cmp (keys_of xs)
        × ((k : Name) → lookup (is_at (name_cmp k)) xs ≡ left name_cmp F.code lists k)) }
    ensures told { IfErr result (λ e. (e ≡ Refused.NoMemory) ⊎ (e ≡ Refused.Worn)
        ⊎ IsSpillFault D.Receipt.keeps D.failures D.Writer.failures D.Reader.failures
        (CanFailToWrite D.Writer.next D.Writer.can_fail) (CanFailToRead D.Receipt.stands D.Reader.can_fail) e) }
{
    let mut lists = lists;
    lists.count();
    let mut parts = SpilledParts::new(alloc);
    'lists: while lists.len() > 0 {
        let part = match next_part(alloc, &mut lists, device, page_size) {
            Ok(part) => part,
            Err(refused) => return Err(refused),
        };
        match parts.add(part) {
            Ok(()) => {}
            Err(refused) => return Err(refused),
        }
    }
    match parts.merge() {
        Ok(table) => Ok(table),
        Err(refused) => Err(refused),
    }
}

/// The run that a store stands for at its end, over so many rows, by the plan that is read off the store, with its table in pages of so
/// many bytes of its device. Refused: as [`spilled_table_of`].
fn finish<F: Mergeable<Key = Name, Input = i64>, D: Disk>(
    alloc: Global,
    store: RowStore<F, D>,
    device: &mut D,
    page_size: usize,
    rows: u64,
) -> Result<SpilledRun<F::Value, D::Receipt, D::Reader>, Refused>
    requires most { pair_size F.Value.SIZE ≤ 192 }
    ensures ok { IsTrue D.Receipt.keeps → IfOk result (λ run. (xs : List (Name × F.Value))
        × ArePairsOf F.Value.codec D.Receipt.keeps D.Receipt.stands run.pairs xs
        × (run.keys ≡ length xs)
        × IsStrictlySortedBy name_cmp (keys_of xs)
        × ((rows : List (Name × ℤ)) → StandsFor D.Receipt.keeps F.meaning F.code store.store rows
        → (k : Name) → lookup (is_at (name_cmp k)) xs ≡ folded F.meaning k (amounts_of name_cmp k rows))) }
    ensures counted { IfOk result (λ run. run.counts.rows ≡ rows) }
    ensures planned { IfOk result
        (λ run. run.plan ≡ record { config = store.store.config; mode = store.mode; workers = 1 }) }
    ensures told { IfErr result (λ e. (e ≡ Refused.NoMemory) ⊎ (e ≡ Refused.Worn)
        ⊎ IsSpillFault D.Receipt.keeps D.failures D.Writer.failures D.Reader.failures
        (CanFailToWrite D.Writer.next D.Writer.can_fail) (CanFailToRead D.Receipt.stands D.Reader.can_fail) e) }
{
    let plan = store.plan();
    let appended = store.store.counts().records;
    let table = match spilled_table_of(alloc, store.store.into_lists(), device, page_size) {
        Ok(table) => table,
        Err(refused) => return Err(refused),
    };
    let SpilledTable { pairs, keys } = table;
    Ok(SpilledRun {
        pairs,
        keys,
        counts: RunCounts {
            rows,
            appended: Some(appended),
        },
        plan,
    })
}

/// The table of these feeds, made as [`run_one_by`](crate::running::run_one_by) makes it, but in pages of the device: at the end a
/// partition goes from memory as its list is made, and its place on the device begins anew, with a sorted run of that list. The pairs
/// that are read from there are the table's, as long as the device keeps; [`write_pairs`](crate::writing::write_pairs) writes them out.
///
/// # Errors
///
/// As [`run_one`](crate::running::run_one)'s. `Device` with code 1 may come at the end too, where a partition's place is not opened
/// anew; with code 2, where a page of its run is not written; 3 and `Damaged` where the first of these is not read back; `Worn`
/// where the table has 2^64 keys.
pub fn spill_one_by<S: Source, F: Mergeable<Key = Name, Input = i64>, D: Disk>(
    alloc: Global,
    feeds: &mut [S],
    functions: F,
    config: &Config,
    mut device: D,
    mode: RowMode,
) -> Result<SpilledRun<F::Value, D::Receipt, D::Reader>, Refused>
    ensures ok { IsTrue D.Receipt.keeps → IfOk result
        (HasTableOf F.Value.codec D.Receipt.keeps D.Receipt.stands F.meaning (map S.remaining feeds.old)) }
    ensures counted { IfOk result (λ run. HaveRows (map S.remaining feeds.old) run.counts.rows) }
    ensures ran { IfOk result (λ run. run.plan ≡ record { config = config.now; mode = mode; workers = 1 }) }
    ensures steady { OnOk result (map S.failures feeds.new ≡ map S.failures feeds.old) }
    ensures good { result ≢ Err Refused.BadConfig
        → IsRunnable config.now (size_of 32 F.Value.SIZE) (length feeds.old) }
    ensures told { IfErr result (TellsWhyNone (IsSpillFault D.Receipt.keeps D.failures D.Writer.failures D.Reader.failures
        (CanFailToWrite D.Writer.next D.Writer.can_fail) (CanFailToRead D.Receipt.stands D.Reader.can_fail))
        config.now (size_of 32 F.Value.SIZE) (map S.remaining feeds.old)
        (map S.failures feeds.old) (map S.failures feeds.new)) }
{
    let is_within = config.is_within_limits::<Name, F::Value>();
    if !is_within || feeds.is_empty() || feeds.len() > MOST {
        return Err(Refused::BadConfig);
    }
    let page_size = 1usize << config.page_bits;
    let mut store = match opened(alloc, functions, config, &mut device, mode) {
        Ok(store) => store,
        Err(refused) => return Err(refused),
    };
    match read_feeds(alloc, feeds, &mut store) {
        Ok(rows) => finish(alloc, store, &mut device, page_size, rows),
        Err(refused) => Err(refused),
    }
}

/// The run over one feed, as [`spill_one_by`] makes it.
///
/// # Errors
///
/// As [`spill_one_by`]'s.
pub fn spill_alone_by<S: Source, F: Mergeable<Key = Name, Input = i64>, D: Disk>(
    alloc: Global,
    feed: &mut S,
    functions: F,
    config: &Config,
    mut device: D,
    mode: RowMode,
) -> Result<SpilledRun<F::Value, D::Receipt, D::Reader>, Refused>
    ensures ok { IsTrue D.Receipt.keeps → IfOk result
        (HasTableOf F.Value.codec D.Receipt.keeps D.Receipt.stands F.meaning (S.remaining feed.old ∷ [])) }
    ensures counted { IfOk result (λ run. HaveRows (S.remaining feed.old ∷ []) run.counts.rows) }
    ensures ran { IfOk result (λ run. run.plan ≡ record { config = config.now; mode = mode; workers = 1 }) }
    ensures steady { OnOk result (S.failures feed.new ≡ S.failures feed.old) }
    ensures good { result ≢ Err Refused.BadConfig → IsRunnable config.now (size_of 32 F.Value.SIZE) 1 }
    ensures told { IfErr result (TellsWhyNone (IsSpillFault D.Receipt.keeps D.failures D.Writer.failures D.Reader.failures
        (CanFailToWrite D.Writer.next D.Writer.can_fail) (CanFailToRead D.Receipt.stands D.Reader.can_fail))
        config.now (size_of 32 F.Value.SIZE) (S.remaining feed.old ∷ [])
        (S.failures feed.old ∷ []) (S.failures feed.new ∷ [])) }
{
    let is_within = config.is_within_limits::<Name, F::Value>();
    if !is_within {
        return Err(Refused::BadConfig);
    }
    let page_size = 1usize << config.page_bits;
    let mut store = match opened(alloc, functions, config, &mut device, mode) {
        Ok(store) => store,
        Err(refused) => return Err(refused),
    };
    match read_feed(alloc, feed, 1, LIMIT, &mut store) {
        Ok(rows) => finish(alloc, store, &mut device, page_size, rows),
        Err(refused) => Err(refused),
    }
}
