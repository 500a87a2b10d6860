//! Runs over feeds, with one worker.
ghost use Rattle.std.specs.Prelude.{◌≡◌, ◌≢◌, ◌≤◌, ◌⊎◌, ◌∷◌, [], ℤ, List, map, length, IsTrue, Err, IfOk, IfErr, OnOk};
ghost use Rattle.std.specs.BTreeMap.{is_at};
ghost use Rattle.std.specs.Map.{lookup, keys_of};
ghost use Rattle.std.specs.List.Sorted.{IsStrictlySortedBy};
ghost use Rattle.fkv_functions.specs.Names.{name_cmp};
ghost use Rattle.fkv_functions.specs.declared.names.Name.{Name};
ghost use Rattle.fkv_records.specs.Records.{size_of};
ghost use Rattle.fkv_device.specs.Failing.{FailsOnlyBy};
ghost use Rattle.fkv_partition.specs.Limits.{IsWithinLimits};
ghost use Rattle.fkv_alone.specs.Causes.{CanFailToRead, CanFailToWrite};
ghost use Rattle.fkv_feeds.specs.Faults.{IsDeviceFault};
ghost use Rattle.fkv_feeds.specs.Keeping.{kept_of};
ghost use Rattle.fkv_feeds.specs.Tables.{IsTableOf, AreFeeds, HaveRows, StandsFor, amounts_of, folded, most_rows};
ghost use Rattle.fkv_feeds.specs.Refusing.{IsRunnable, TellsStopped, TellsWhyNone};
ghost use Rattle.fkv_local.specs.Causing.{IsCausedBy};
ghost use Rattle.fkv_local.specs.Listing.{ListsView, IsUnlisted};

use crate::counting::{RowMode, RunCounts, TableRun};
use crate::reading::{RowStore, read_feed};
use crate::tabling::table_of;
use fkv_device::Disk;
use fkv_functions::{Mergeable, Name, Refused};
use fkv_local::LocalStore;
use fkv_partition::Config;
use fkv_streams::Source;
use std::alloc::Global;

/// The rows that a feed may have.
pub const LIMIT: u64 = 1_099_511_627_776;

/// The most feeds of a run.
pub(crate) const MOST: usize = 64;

/// A store that stands for no rows. Where rows are made merges its logs are kept whole, so that no row reads a page.
pub(crate) fn opened<F: Mergeable<Key = Name, Input = i64>, D: Disk>(
    alloc: Global,
    functions: F,
    config: &Config,
    device: &mut D,
    mode: RowMode,
) -> Result<RowStore<F, D>, Refused>
    requires limits { IsWithinLimits config.now (size_of 32 F.Value.SIZE) }
    ensures stands { IfOk result (λ rows. StandsFor D.Receipt.keeps F.meaning F.code rows.store []) }
    ensures kept { IfOk result (λ rows. mode ≡ RowMode.Merge → IsTrue rows.store.keeps_log) }
    ensures mode { IfOk result (λ rows. rows.mode ≡ mode) }
    ensures configured { IfOk result (λ rows. rows.store.config ≡ config.now) }
    ensures told { IfErr result (FailsOnlyBy 1 0 (D.failures device.old) (D.failures device.new)) }
{
    let mut store = match LocalStore::open(alloc, config, functions, device) {
        Ok(store) => store,
        Err(refused) => return Err(refused),
    };
    match mode {
        RowMode::Update => {}
        RowMode::Merge => store.keep_log(),
    }
    Ok(RowStore { store, mode })
}

/// The run that a store stands for at its end, over so many rows, by the plan that is read off the store. Refused: `NoMemory`, and as
/// a device refuses pages.
fn finish<F: Mergeable<Key = Name, Input = i64>, D: Disk>(
    alloc: Global,
    store: RowStore<F, D>,
    rows: u64,
) -> Result<TableRun<F::Value>, Refused>
    ensures value { IsTrue D.Receipt.keeps → IfOk result (λ run. (rows : List (Name × ℤ))
        → StandsFor D.Receipt.keeps F.meaning F.code store.store rows
        → (k : Name) → lookup (is_at (name_cmp k)) run.table ≡ folded F.meaning k (amounts_of name_cmp k rows)) }
    ensures rising { IfOk result (λ run. IsStrictlySortedBy name_cmp (keys_of run.table)) }
    ensures counted { IfOk result (λ run. run.counts.rows ≡ rows) }
    ensures planned { IfOk result
        (λ run. run.plan ≡ record { config = store.store.config; mode = store.mode; workers = 1 }) }
    ensures told { IfErr result (λ e. (e ≡ Refused.NoMemory) ⊎ ((was : ListsView Name F.Value ℤ D.Reader) × (readers : List D.Reader)
        × IsUnlisted D.Receipt.keeps D.Reader.failures was.parts was.readers readers e
        × (IsTrue D.Receipt.keeps → IsCausedBy (CanFailToWrite D.Writer.next D.Writer.can_fail)
        (CanFailToRead D.Receipt.stands D.Reader.can_fail) e))) }
{
    let plan = store.plan();
    let appended = store.store.counts().records;
    let table = match table_of(alloc, store.store.into_lists()) {
        Ok(table) => table,
        Err(refused) => return Err(refused),
    };
    Ok(TableRun {
        table,
        counts: RunCounts {
            rows,
            appended: Some(appended),
        },
        plan,
    })
}

/// Reads feeds, one after the other, into a store that stands for no rows. Answers how many rows they have.
pub(crate) fn read_feeds<S: Source, F: Mergeable<Key = Name, Input = i64>, D: Disk>(
    alloc: Global,
    feeds: &mut [S],
    store: &mut RowStore<F, D>,
) -> Result<u64, Refused>
    requires most { length feeds.old ≤ 64 }
    requires stands { StandsFor D.Receipt.keeps F.meaning F.code store.old.store [] }
    ensures ok { IfOk result (λ count. (rows : List (Name × ℤ)) × AreFeeds most_rows (map S.remaining feeds.old) rows
        × StandsFor D.Receipt.keeps F.meaning F.code store.new.store rows × (count ≡ length rows)) }
    ensures kept { kept_of F.MERGES store.new.mode store.new.store ≡ kept_of F.MERGES store.old.mode store.old.store }
    ensures steady { OnOk result (map S.failures feeds.new ≡ map S.failures feeds.old) }
    ensures told { IfErr result (TellsStopped (IsDeviceFault D.Receipt.keeps D.failures D.Writer.failures D.Reader.failures
        (CanFailToWrite D.Writer.next D.Writer.can_fail) (CanFailToRead D.Receipt.stands D.Reader.can_fail))
        (map S.remaining feeds.old) (map S.failures feeds.old)
        (map S.failures feeds.new)) }
{
    let mut rows = 0u64;
    for index in 0..feeds.len() {
        let feed = &mut feeds[index];
        match read_feed(alloc, feed, index as u64 + 1, LIMIT, store) {
            Ok(count) => rows += count,
            Err(refused) => return Err(refused),
        }
    }
    Ok(rows)
}

/// The table of these feeds: each key whose amounts come to a value by these functions, with that value. That is each key
/// of a row, but those whose updates are all declined. The feeds are read one after the other, to their ends, and each row
/// is one update of a store of this configuration over this device, through the events of its partitions. On a device that
/// keeps, the table is that of the rows; on any other errors are reported as below. Beside the table
/// stands how many rows were read, how many records they appended, and how the table was made.
///
/// # Errors
///
/// In this order: `BadConfig`, where a number of the configuration is outside its limits, or there are not 1 to 64
/// feeds, and then no feed is read; `BadRow`, with the first row that is none, of the first feed that has
/// one, both counted from 1; `Unreadable`, with the number of a feed, counted from 1, whose stream fails or that has
/// more than [`LIMIT`] rows; `NoMemory`; `Worn`, where a partition has no address left; `Device` with code 1, where the device does not open a partition's pages,
/// before any feed is read, 2, where it does not write a page, and 3, where it does not read one; `Damaged`, where it
/// gives other bytes than were written, or bytes that spell no records.
pub fn run_one<S: Source, F: Mergeable<Key = Name, Input = i64>, D: Disk>(
    alloc: Global,
    feeds: &mut [S],
    functions: F,
    config: &Config,
    device: D,
) -> Result<TableRun<F::Value>, Refused>
    ensures ok { IsTrue D.Receipt.keeps
        → IfOk result (λ run. IsTableOf F.meaning (map S.remaining feeds.old) run.table) }
    ensures counted { IfOk result (λ run. HaveRows (map S.remaining feeds.old) run.counts.rows) }
    ensures ran { IfOk result (λ run. run.plan ≡ record { config = config.now; mode = RowMode.Update; workers = 1 }) }
    ensures steady { OnOk result (map S.failures feeds.new ≡ map S.failures feeds.old) }
    ensures good { result ≢ Err Refused.BadConfig
        → IsRunnable config.now (size_of 32 F.Value.SIZE) (length feeds.old) }
    ensures told { IfErr result (TellsWhyNone (IsDeviceFault D.Receipt.keeps D.failures D.Writer.failures D.Reader.failures
        (CanFailToWrite D.Writer.next D.Writer.can_fail) (CanFailToRead D.Receipt.stands D.Reader.can_fail))
        config.now (size_of 32 F.Value.SIZE) (map S.remaining feeds.old)
        (map S.failures feeds.old) (map S.failures feeds.new)) }
{
    run_one_by(alloc, feeds, functions, config, device, RowMode::Update)
}

/// The table of these feeds, as [`run_one`] makes it, with each row made an update of the store in this mode. Where rows
/// are made merges the pages that are read are those of the list of the table's keys, at the end.
///
/// # Errors
///
/// As [`run_one`]'s.
pub fn run_one_by<S: Source, F: Mergeable<Key = Name, Input = i64>, D: Disk>(
    alloc: Global,
    feeds: &mut [S],
    functions: F,
    config: &Config,
    mut device: D,
    mode: RowMode,
) -> Result<TableRun<F::Value>, Refused>
    ensures ok { IsTrue D.Receipt.keeps
        → IfOk result (λ run. IsTableOf F.meaning (map S.remaining feeds.old) run.table) }
    ensures counted { IfOk result (λ run. HaveRows (map S.remaining feeds.old) run.counts.rows) }
    ensures ran { IfOk result (λ run. run.plan ≡ record { config = config.now; mode = mode; workers = 1 }) }
    ensures steady { OnOk result (map S.failures feeds.new ≡ map S.failures feeds.old) }
    ensures good { result ≢ Err Refused.BadConfig
        → IsRunnable config.now (size_of 32 F.Value.SIZE) (length feeds.old) }
    ensures told { IfErr result (TellsWhyNone (IsDeviceFault D.Receipt.keeps D.failures D.Writer.failures D.Reader.failures
        (CanFailToWrite D.Writer.next D.Writer.can_fail) (CanFailToRead D.Receipt.stands D.Reader.can_fail))
        config.now (size_of 32 F.Value.SIZE) (map S.remaining feeds.old)
        (map S.failures feeds.old) (map S.failures feeds.new)) }
{
    let is_within = config.is_within_limits::<Name, F::Value>();
    if !is_within || feeds.is_empty() || feeds.len() > MOST {
        return Err(Refused::BadConfig);
    }
    let mut store = match opened(alloc, functions, config, &mut device, mode) {
        Ok(store) => store,
        Err(refused) => return Err(refused),
    };
    match read_feeds(alloc, feeds, &mut store) {
        Ok(rows) => finish(alloc, store, rows),
        Err(refused) => Err(refused),
    }
}

/// The run over one feed, as [`run_one`] makes it.
///
/// # Errors
///
/// As [`run_one`]'s.
pub fn run_alone<S: Source, F: Mergeable<Key = Name, Input = i64>, D: Disk>(
    alloc: Global,
    feed: &mut S,
    functions: F,
    config: &Config,
    device: D,
) -> Result<TableRun<F::Value>, Refused>
    ensures ok { IsTrue D.Receipt.keeps
        → IfOk result (λ run. IsTableOf F.meaning (S.remaining feed.old ∷ []) run.table) }
    ensures counted { IfOk result (λ run. HaveRows (S.remaining feed.old ∷ []) run.counts.rows) }
    ensures ran { IfOk result (λ run. run.plan ≡ record { config = config.now; mode = RowMode.Update; workers = 1 }) }
    ensures steady { OnOk result (S.failures feed.new ≡ S.failures feed.old) }
    ensures good { result ≢ Err Refused.BadConfig → IsRunnable config.now (size_of 32 F.Value.SIZE) 1 }
    ensures told { IfErr result (TellsWhyNone (IsDeviceFault D.Receipt.keeps D.failures D.Writer.failures D.Reader.failures
        (CanFailToWrite D.Writer.next D.Writer.can_fail) (CanFailToRead D.Receipt.stands D.Reader.can_fail))
        config.now (size_of 32 F.Value.SIZE) (S.remaining feed.old ∷ [])
        (S.failures feed.old ∷ []) (S.failures feed.new ∷ [])) }
{
    run_alone_by(alloc, feed, functions, config, device, RowMode::Update)
}

/// The run over one feed, as [`run_one_by`] makes it.
///
/// # Errors
///
/// As [`run_one`]'s.
pub fn run_alone_by<S: Source, F: Mergeable<Key = Name, Input = i64>, D: Disk>(
    alloc: Global,
    feed: &mut S,
    functions: F,
    config: &Config,
    mut device: D,
    mode: RowMode,
) -> Result<TableRun<F::Value>, Refused>
    ensures ok { IsTrue D.Receipt.keeps
        → IfOk result (λ run. IsTableOf F.meaning (S.remaining feed.old ∷ []) run.table) }
    ensures counted { IfOk result (λ run. HaveRows (S.remaining feed.old ∷ []) run.counts.rows) }
    ensures ran { IfOk result (λ run. run.plan ≡ record { config = config.now; mode = mode; workers = 1 }) }
    ensures steady { OnOk result (S.failures feed.new ≡ S.failures feed.old) }
    ensures good { result ≢ Err Refused.BadConfig → IsRunnable config.now (size_of 32 F.Value.SIZE) 1 }
    ensures told { IfErr result (TellsWhyNone (IsDeviceFault D.Receipt.keeps D.failures D.Writer.failures D.Reader.failures
        (CanFailToWrite D.Writer.next D.Writer.can_fail) (CanFailToRead D.Receipt.stands D.Reader.can_fail))
        config.now (size_of 32 F.Value.SIZE) (S.remaining feed.old ∷ [])
        (S.failures feed.old ∷ []) (S.failures feed.new ∷ [])) }
{
    let is_within = config.is_within_limits::<Name, F::Value>();
    if !is_within {
        return Err(Refused::BadConfig);
    }
    let mut store = match opened(alloc, functions, config, &mut device, mode) {
        Ok(store) => store,
        Err(refused) => return Err(refused),
    };
    match read_feed(alloc, feed, 1, LIMIT, &mut store) {
        Ok(rows) => finish(alloc, store, rows),
        Err(refused) => Err(refused),
    }
}
