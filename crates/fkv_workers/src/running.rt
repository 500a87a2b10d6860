//! Runs over feeds, with several workers.
ghost use Rattle.std.specs.Prelude.{◌≡◌, ◌≢◌, ◌≤◌, ◌<◌, ◌↔◌, ◌⊎◌, true, length, map, IsTrue, Ok, Err, None, IfOk, IfErr, OnOk};
ghost use Rattle.std.specs.List.{All};
ghost use Rattle.fkv_records.specs.Records.{size_of};
ghost use Rattle.fkv_partition.specs.Limits.{IsWithinLimits};
ghost use Rattle.fkv_feeds.specs.Tables.{IsTableOf};
ghost use Rattle.fkv_functions.specs.declared.refusals.Refused.TheVariants as refused;
ghost use Rattle.fkv_workers.specs.Works.{HaveRead, IsFedBy, IsFirst, IsFirstFault, IsMadeBy, IsRunnable, IsUnmade, IsUnworked};

use crate::feed_shares::share_out;
use crate::keeping::keeper_of;
use crate::tabling::tabled;
use crate::worker_jobs::{jobs, passes_of};
use crate::working::WorkerResult;
use fkv_device::Disk;
use fkv_feeds::{RowMode, TableRun};
use fkv_functions::{Fixed, Mergeable, Name, OrderFree, Refused};
use fkv_histories::Recorder;
use fkv_jobs::{JobResults, run_jobs};
use fkv_partition::Config;
use fkv_store::{Gate, Pass, Store};
use fkv_streams::Source;
use std::alloc::Global;
use std::rt::Clock;
use std::sync::Wait;
use std::thread::Threads;

/// The most feeds of a run.
pub const MOST_FEEDS: usize = 64;

/// The most workers of a run: a partition has sixteen sessions, and a compactor needs one.
pub const MOST_WORKERS: usize = 14;

/// Whether a run of so many workers over so many feeds, with a store of this configuration, is within its limits.
pub(crate) fn is_runnable<V: Fixed>(config: &Config, workers: usize, feeds: usize) -> bool
    ensures { IsTrue result ↔ IsRunnable config.now (size_of 32 V.SIZE) workers feeds }
{
    config.is_within_limits::<Name, V>()
        && (1..=MOST_WORKERS).contains(&workers)
        && (1..=MOST_FEEDS).contains(&feeds)
}

/// The passes of workers, where neither they nor the keeper have a fault. The fault of the first worker that has one comes
/// first, then the keeper's.
fn ended<F: Mergeable, D: Disk, H: Recorder<F>, R: Drop>(
    alloc: Global,
    ran: JobResults<WorkerResult<F, D, H, R>>,
) -> Result<Vec<Pass<F, D, H>>, Refused>
    ensures ok { IfOk result (λ passes. passes.items ≡ map (λ w. w.pass) ran.results.items) }
    ensures none { OnOk result (All (λ fault. fault ≡ None) (map (λ w. w.fault) ran.results.items)) }
    ensures kept { OnOk result (ran.kept ≡ Ok tt) }
    ensures refused { IfErr result (λ e. (e ≡ refused.NoMemory) ⊎ IsFirstFault (map (λ w. w.fault) ran.results.items) e
        ⊎ ((ran.kept ≡ Err e) × All (λ fault. fault ≡ None) (map (λ w. w.fault) ran.results.items))) }
{
    let JobResults { results, kept } = ran;
    let passes = match passes_of(alloc, results) {
        Ok(passes) => passes,
        Err(refused) => return Err(refused),
    };
    match kept {
        Ok(()) => Ok(passes),
        Err(refused) => Err(refused),
    }
}

/// The passes of workers that have read all feeds, and by which mode their rows were made.
#[derive(Drop)]
struct FinishedPasses<F: Mergeable, D: Disk, H: Recorder<F>> {
    passes: Vec<Pass<F, D, H>>,
    mode: RowMode,
}

/// The passes of workers in threads of their own that have read all feeds into a store, beside a keeper: each row is an update
/// there, or, only where the mode asks for merges, a merge.
fn run_workers<
    S: Source + Drop + Send,
    F: Mergeable + OrderFree<Key = Name, Input = i64> + Send + Sync,
    D: Disk + Send,
    H: Recorder<F> + Send,
    G: Gate + Sync,
    T: Threads + Wait + Clock + Sync,
>(
    rt: &T,
    alloc: Global,
    feeds: Vec<S>,
    workers: usize,
    store: &Store<F, D, H>,
    page_bits: u64,
    gate: &G,
    mode: RowMode,
) -> Result<FinishedPasses<F, D, H>, Refused>
where
    F::Value: Send,
    F::Output: Send,
    D::Receipt: Send,
    D::Writer: Send,
    D::Reader: Send,
    requires some { 0 < workers }
    requires store { 0 < store.now.count }
    requires bits { page_bits < 57 }
    ensures ok { IfOk result (λ fed. H.keeps ≡ true
        → IsFedBy F.code fed.mode (map S.remaining feeds.items) fed.passes.items) }
    ensures mode { IfOk result (λ fed. fed.mode ≡ mode) }
    ensures read { OnOk result (HaveRead S.remaining S.failures workers workers feeds.items) }
    ensures refused { IfErr result (IsUnworked S.remaining S.failures workers feeds.items) }
    ensures first { IfErr result (IsFirst S.remaining S.failures workers feeds.items) }
{
    let hands = match share_out(alloc, feeds, workers) {
        Ok(hands) => hands,
        Err(refused) => return Err(refused),
    };
    let jobs = match jobs(rt, alloc, store, gate, mode, hands) {
        Ok(jobs) => jobs,
        Err(refused) => return Err(refused),
    };
    let keeper = match keeper_of(alloc, store, gate, page_bits) {
        Ok(keeper) => keeper,
        Err(refused) => return Err(refused),
    };
    let ran = match run_jobs(rt, alloc, &keeper, jobs) {
        Ok(ran) => ran,
        Err(refused) => return Err(refused),
    };
    match ended(alloc, ran) {
        Ok(passes) => Ok(FinishedPasses { passes, mode }),
        Err(refused) => Err(refused),
    }
}

/// The table of these feeds, as [`fkv_feeds::run_one`] makes it, by so many workers in threads of their own, beside a keeper
/// that moves pages: feed i, counted from 0, is read by worker `i mod workers`, and each row is one update of a store that all
/// share. With a recorder that keeps, and on a device that keeps, the table is that of one worker. Beside it stand how many updates
/// were made, one a row, and how the table was made.
///
/// # Errors
///
/// In this order: `BadConfig`, where there are none of 1 to 14 workers, or none of 1 to 64 feeds, or a number of the
/// configuration is outside its limits, and then no feed is read; `NoMemory`, and `Device` with code 1, before any feed is
/// read; `NoMemory` where a thread can't be made, after those that were made have ended; the fault of the first worker that has
/// one: `BadRow` and `Unreadable` of one of its feeds, and what its pass refuses; the keeper's; and what the end of the store
/// refuses.
pub fn run_feeds<
    S: Source + Drop + Send,
    F: Mergeable + OrderFree<Key = Name, Input = i64> + Send + Sync,
    D: Disk + Send,
    H: Recorder<F> + Send,
    G: Gate + Sync,
    T: Threads + Wait + Clock + Sync,
>(
    rt: &T,
    alloc: Global,
    feeds: Vec<S>,
    workers: usize,
    functions: F,
    config: &Config,
    device: D,
    gate: &G,
) -> Result<TableRun<F::Value>, Refused>
where
    F::Value: Send,
    F::Output: Send,
    D::Receipt: Send,
    D::Writer: Send,
    D::Reader: Send,
    ensures ok { H.keeps ≡ true → IsTrue D.Receipt.keeps
        → IfOk result (λ run. IsTableOf F.meaning (map S.remaining feeds.items) run.table) }
    ensures made { H.keeps ≡ true → IsTrue D.Receipt.keeps → IfOk result (λ run.
        IsMadeBy F.meaning F.code RowMode.Update (map S.remaining feeds.items) run.table run.counts.rows) }
    ensures ran { IfOk result (λ run. run.plan ≡ record { config = config.now; mode = RowMode.Update; workers = workers }) }
    ensures good { result ≢ Err Refused.BadConfig
        → IsRunnable config.now (size_of 32 F.Value.SIZE) workers (length feeds.items) }
    ensures refused { IfErr result (IsUnmade S.remaining S.failures
        (IsRunnable config.now (size_of 32 F.Value.SIZE) workers (length feeds.items)) workers feeds.items) }
    ensures first { IfErr result (IsFirst S.remaining S.failures workers feeds.items) }
{
    run_feeds_by::<S, F, D, H, G, T>(
        rt,
        alloc,
        feeds,
        workers,
        functions,
        config,
        device,
        gate,
        RowMode::Update,
    )
}

/// The same, where the mode says how each row is made an update: as [`run_feeds`] makes it, or so that no row reads a page,
/// where the functions merge. The table is the same.
///
/// # Errors
///
/// As [`run_feeds`]'s.
pub fn run_feeds_by<
    S: Source + Drop + Send,
    F: Mergeable + OrderFree<Key = Name, Input = i64> + Send + Sync,
    D: Disk + Send,
    H: Recorder<F> + Send,
    G: Gate + Sync,
    T: Threads + Wait + Clock + Sync,
>(
    rt: &T,
    alloc: Global,
    feeds: Vec<S>,
    workers: usize,
    functions: F,
    config: &Config,
    device: D,
    gate: &G,
    mode: RowMode,
) -> Result<TableRun<F::Value>, Refused>
where
    F::Value: Send,
    F::Output: Send,
    D::Receipt: Send,
    D::Writer: Send,
    D::Reader: Send,
    ensures ok { H.keeps ≡ true → IsTrue D.Receipt.keeps
        → IfOk result (λ run. IsTableOf F.meaning (map S.remaining feeds.items) run.table) }
    ensures made { H.keeps ≡ true → IsTrue D.Receipt.keeps → IfOk result (λ run.
        IsMadeBy F.meaning F.code mode (map S.remaining feeds.items) run.table run.counts.rows) }
    ensures ran { IfOk result (λ run. run.plan ≡ record { config = config.now; mode = mode; workers = workers }) }
    ensures good { result ≢ Err Refused.BadConfig
        → IsRunnable config.now (size_of 32 F.Value.SIZE) workers (length feeds.items) }
    ensures refused { IfErr result (IsUnmade S.remaining S.failures
        (IsRunnable config.now (size_of 32 F.Value.SIZE) workers (length feeds.items)) workers feeds.items) }
    ensures first { IfErr result (IsFirst S.remaining S.failures workers feeds.items) }
{
    if !is_runnable::<F::Value>(config, workers, feeds.len()) {
        return Err(Refused::BadConfig);
    }
    let store = match Store::<F, D, H>::open(alloc, config, functions, device) {
        Ok(store) => store,
        Err(refused) => return Err(refused),
    };
    let bits = config.page_bits;
    let fed = match run_workers(rt, alloc, feeds, workers, &store, bits, gate, mode) {
        Ok(fed) => fed,
        Err(refused) => return Err(refused),
    };
    let FinishedPasses { passes, mode } = fed;
    tabled(rt, alloc, store, passes, config, mode, workers)
}
