//! The table of a store that workers have filled.
ghost use Rattle.std.specs.Prelude.{◌≡◌, ◌<◌, ◌≤◌, ℕ, ℤ, List, Option, true, length, map, IsTrue, IfOk, IfErr};
ghost use Rattle.std.specs.BTreeMap.{is_at};
ghost use Rattle.std.specs.List.{AllZip};
ghost use Rattle.std.specs.Map.{lookup};
ghost use Rattle.fkv_alone.specs.Causes.{CanFailToRead, CanFailToWrite};
ghost use Rattle.fkv_blocks.specs.Pieces.{AreFed};
ghost use Rattle.fkv_closing.specs.Closing.{IsClosed};
ghost use Rattle.fkv_feeds.specs.Spilling.{ArePairsOf, HasTableOf, IsSpillFault};
ghost use Rattle.fkv_feeds.specs.Tables.{IsTableOf, most_rows};
ghost use Rattle.fkv_functions.specs.Names.{name_cmp};
ghost use Rattle.fkv_functions.specs.declared.names.Name.{Name};
ghost use Rattle.fkv_histories.specs.declared.entries.Entry.{Entry};
ghost use Rattle.fkv_spills.specs.Spilling.{pair_size};
ghost use Rattle.fkv_store.specs.Stores.{IsClosing};
ghost use Rattle.fkv_workers.specs.Shares.{HasShare};
ghost use Rattle.fkv_workers.specs.Spilling.{IsSpillEnding};

use crate::laws::tables_join;
use crate::listing::table_of;
use crate::spilling::spill_parts;
use fkv_device::Disk;
use fkv_feeds::{Plan, RowMode, RunCounts, SpilledRun, TableRun};
use fkv_functions::{Mergeable, Name, OrderFree, Refused};
use fkv_histories::Recorder;
use fkv_partition::Config;
use fkv_spills::SpilledTable;
use fkv_store::{ClosedStore, Pass, Store};
use std::alloc::Global;
use std::rt::Clock;
use std::sync::Wait;
use std::thread::Threads;

/// The table of a store, which these passes have filled, as so many threads list it. Where the passes' own lists have the rows of
/// feeds, shared out among them, it is the feeds' table. Refused as the store's end is, and as its partitions are listed.
pub(crate) fn tabled<
    F: Mergeable + OrderFree<Key = Name, Input = i64> + Send + Sync,
    D: Disk + Send,
    H: Recorder<F> + Send,
    T: Threads + Wait + Clock + Sync,
>(
    rt: &T,
    alloc: Global,
    store: Store<F, D, H>,
    passes: Vec<Pass<F, D, H>>,
    config: &Config,
    mode: RowMode,
    workers: usize,
) -> Result<TableRun<F::Value>, Refused>
where
    F::Value: Send,
    F::Output: Send,
    D::Receipt: Send,
    D::Writer: Send,
    D::Reader: Send,
    requires some { 0 < store.count }
    requires workers { 0 < workers }
    ensures table { H.keeps ≡ true → IsTrue D.Receipt.keeps → IfOk result (λ run.
        (feeds : List (Option (List ℕ))) (shares : List (List (Name × ℤ)))
        → AreFed most_rows feeds shares
        → AllZip (λ pass rows. HasShare F.code (length pass.told) pass.own rows) passes.items shares
        → IsTableOf F.meaning feeds run.table) }
    ensures closed { H.keeps ≡ true → IsTrue D.Receipt.keeps → IfOk result (λ run.
        (histories : List (List (Entry Name F.Value ℤ F.Output)))
        × IsClosed name_cmp F.meaning F.code (map (λ pass. pass.own) passes.items) (map (λ pass. pass.share) passes.items)
        (λ k. lookup (is_at (name_cmp k)) run.table) histories run.counts.rows) }
    ensures ran { IfOk result (λ run. run.plan ≡ record { config = config.now; mode = mode; workers = workers }) }
    ensures only { IfErr result IsClosing }
{
    let ended = match store.close_unlisted(alloc, passes) {
        Ok(ended) => ended,
        Err(refused) => return Err(refused),
    };
    let ClosedStore {
        functions,
        partitions,
        finished,
        ..
    } = ended;
    tables_join::<F>();
    let table = match table_of(rt, alloc, workers, &functions, partitions) {
        Ok(table) => table,
        Err(refused) => return Err(refused),
    };
    Ok(TableRun {
        table,
        counts: RunCounts {
            rows: finished,
            appended: None,
        },
        plan: Plan {
            config: *config,
            mode,
            workers,
        },
    })
}

/// The same with its table in pages of the store's device, as so many threads list and spill it: its pairs are still to be read.
/// Refused as the store's end is, and as its partitions are spilled.
pub(crate) fn spilled<
    F: Mergeable + OrderFree<Key = Name, Input = i64> + Send + Sync,
    D: Disk + Send,
    H: Recorder<F> + Send,
    T: Threads + Wait + Clock + Sync,
>(
    rt: &T,
    alloc: Global,
    store: Store<F, D, H>,
    passes: Vec<Pass<F, D, H>>,
    config: &Config,
    mode: RowMode,
    workers: usize,
) -> Result<SpilledRun<F::Value, D::Receipt, D::Reader>, Refused>
where
    F::Value: Send,
    F::Output: Send,
    D::Receipt: Send,
    D::Writer: Send,
    D::Reader: Send,
    requires some { 0 < store.count }
    requires workers { 0 < workers }
    requires most { pair_size F.Value.SIZE ≤ 192 }
    requires bits { config.now.page_bits < 57 }
    ensures table { H.keeps ≡ true → IsTrue D.Receipt.keeps → IfOk result (λ run.
        (feeds : List (Option (List ℕ))) (shares : List (List (Name × ℤ)))
        → AreFed most_rows feeds shares
        → AllZip (λ pass rows. HasShare F.code (length pass.told) pass.own rows) passes.items shares
        → HasTableOf F.Value.codec D.Receipt.keeps D.Receipt.stands F.meaning feeds run) }
    ensures closed { H.keeps ≡ true → IsTrue D.Receipt.keeps → IfOk result (λ run. (pairs : List (Name × F.Value))
        × ArePairsOf F.Value.codec D.Receipt.keeps D.Receipt.stands run.pairs pairs
        × (histories : List (List (Entry Name F.Value ℤ F.Output)))
        × IsClosed name_cmp F.meaning F.code (map (λ pass. pass.own) passes.items) (map (λ pass. pass.share) passes.items)
        (λ k. lookup (is_at (name_cmp k)) pairs) histories run.counts.rows) }
    ensures ran { IfOk result (λ run. run.plan ≡ record { config = config.now; mode = mode; workers = workers }) }
    ensures refused { IfErr result (IsSpillEnding (IsSpillFault D.Receipt.keeps D.failures D.Writer.failures D.Reader.failures
        (CanFailToWrite D.Writer.next D.Writer.can_fail) (CanFailToRead D.Receipt.stands D.Reader.can_fail))) }
{
    let page_size = 1usize << config.page_bits;
    let ended = match store.close_unlisted(alloc, passes) {
        Ok(ended) => ended,
        Err(refused) => return Err(refused),
    };
    let ClosedStore {
        functions,
        partitions,
        finished,
        ..
    } = ended;
    tables_join::<F>();
    let table = match spill_parts(rt, alloc, workers, &functions, partitions, page_size) {
        Ok(table) => table,
        Err(refused) => return Err(refused),
    };
    let SpilledTable { pairs, keys } = table;
    Ok(SpilledRun {
        pairs,
        keys,
        counts: RunCounts {
            rows: finished,
            appended: None,
        },
        plan: Plan {
            config: *config,
            mode,
            workers,
        },
    })
}
