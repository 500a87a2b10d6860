//! Runs over feeds whose blocks all workers share.
ghost use Rattle.std.specs.Prelude.{◌≡◌, ◌≢◌, ◌<◌, ◌⊎◌, true, length, map, IsTrue, Err, None, Some, IfOk, IfErr, IfSome, OnOk};
ghost use Rattle.std.specs.List.{All};
ghost use Rattle.fkv_alone.specs.Causes.{CanFailToRead, CanFailToWrite};
ghost use Rattle.fkv_blocks.specs.Pieces.{AreWhole, IsFirstUnread};
ghost use Rattle.fkv_blocks.specs.Shares.{IsStop, WereRead};
ghost use Rattle.fkv_feeds.specs.Spilling.{HasTableOf, IsSpillFault};
ghost use Rattle.fkv_feeds.specs.Tables.{IsTableOf, most_rows};
ghost use Rattle.fkv_records.specs.Records.{size_of};
ghost use Rattle.fkv_store.specs.Stores.{IsTold};
ghost use Rattle.fkv_workers.specs.Spilling.{IsSpilledFrom, IsSpillEnding};
ghost use Rattle.fkv_workers.specs.Works.{IsMadeOf, IsRunnable, IsShared, IsUnread};

use crate::keeping::keeper_of;
use crate::running::is_runnable;
use crate::sharing::{SharedFeeds, Tickets};
use crate::tabling::{spilled, tabled};
use crate::worker_jobs::jobs;
use crate::working::WorkerResult;
use fkv_blocks::{Feeds, Origin, ReadFeeds, Stop, Ticket};
use fkv_device::Disk;
use fkv_feeds::{LIMIT, RowMode, SpilledRun, TableRun};
use fkv_functions::{Mergeable, Name, OrderFree, Refused};
use fkv_histories::Recorder;
use fkv_jobs::{JobResults, run_jobs};
use fkv_partition::Config;
use fkv_store::{Gate, Pass, Store};
use fkv_streams::Source;
use std::alloc::Global;
use std::marker::Brand;
use std::mem;
use std::rt::Clock;
use std::sync::Wait;
use std::thread::Threads;

/// How many bytes a block has at least, but for the last one of a feed.
const BLOCK: usize = 1 << 18;

/// What workers hand back, apart: their passes, their tickets, and the first place at which one of them stopped.
#[derive(Drop)]
struct WorkerResults<F: Mergeable, D: Disk, H: Recorder<F>> {
    passes: Vec<Pass<F, D, H>>,
    hands: Vec<Vec<Ticket>>,
    first: Option<Stop>,
}

/// Whether a place lies before another one: in a feed before the other's, or before it in the same feed.
fn lies_before(one: &Stop, other: &Stop) -> bool {
    one.feed < other.feed || (one.feed == other.feed && one.low < other.low)
}

/// The first of two places; of one place twice the earlier worker's.
fn first_of(first: Option<Stop>, other: Stop) -> Stop
    ensures { (result ≡ other) ⊎ (first ≡ Some result) }
{
    match first {
        None => other,
        Some(first) => {
            if lies_before(&other, &first) {
                other
            } else {
                first
            }
        }
    }
}

/// What workers hand back, apart. Refused: `NoMemory`.
fn taken_apart<B: Origin, F: Mergeable, D: Disk, H: Recorder<F>>(
    alloc: Global,
    results: Vec<WorkerResult<F, D, H, Tickets>>,
) -> Result<WorkerResults<F, D, H>, Refused>
    requires read { All (λ w. WereRead B.feeds w.had.tickets.items) results.items }
    requires stops { All (λ w. IfSome w.fault (λ why. IsTold why ⊎ IsStop B.feeds most_rows
        (record { feed = w.had.feed; low = w.had.low; refused = why; has_failed = w.had.has_failed }))) results.items }
    ensures passes { IfOk result (λ p. p.passes.items ≡ map (λ w. w.pass) results.items) }
    ensures hands { IfOk result (λ p. map (λ hand. hand.items) p.hands.items ≡ map (λ w. w.had.tickets.items) results.items) }
    ensures read { IfOk result (λ p. All (WereRead B.feeds) (map (λ hand. hand.items) p.hands.items)) }
    ensures none { IfOk result (λ p. p.first ≡ None → All (λ fault. fault ≡ None) (map (λ w. w.fault) results.items)) }
    ensures first { IfOk result (λ p. IfSome p.first (λ stop. IsTold stop.refused ⊎ IsStop B.feeds most_rows stop)) }
    ensures only { IfErr result (λ e. e ≡ Refused.NoMemory) }
{
    let mut passes = Vec::new(alloc);
    let mut hands = Vec::new(alloc);
    let mut first = None;
    for one in results {
        let WorkerResult { pass, had, fault } = one;
        let Tickets {
            tickets,
            feed,
            low,
            has_failed,
        } = had;
        match fault {
            None => {}
            Some(refused) => {
                let stop = Stop {
                    feed,
                    low,
                    refused,
                    has_failed,
                };
                first = Some(first_of(first, stop));
            }
        }
        let Ok(()) = passes.push(pass) else {
            return Err(Refused::NoMemory);
        };
        let Ok(()) = hands.push(tickets) else {
            return Err(Refused::NoMemory);
        };
    }
    Ok(WorkerResults {
        passes,
        hands,
        first,
    })
}

/// What is told of the first place at which a worker stopped: what the store refused there, or what is wrong with the feed.
fn told_of<S: Source + Drop, B: Origin>(
    alloc: Global,
    feeds: &ReadFeeds<S, B>,
    hands: &[Vec<Ticket>],
    stop: Stop,
) -> Refused
    requires read { All (WereRead B.feeds) (map (λ hand. hand.items) hands.now) }
    requires stop { IsTold stop.refused ⊎ IsStop B.feeds most_rows stop }
    ensures { IsTold result ⊎ (result ≡ Refused.Mismatch) ⊎ IsFirstUnread B.feeds B.counts feeds.now most_rows result }
{
    match stop.refused {
        Refused::BadRow { .. } | Refused::Unreadable { .. } => feeds.fault(
            alloc, LIMIT, hands, stop,
        ),
        other => other,
    }
}

/// That workers with these tickets have read all blocks of these feeds. Refused as the first of them is that stopped, by its place; then
/// as the keeper is; and as the blocks are not all.
fn concluded<S: Source + Drop, B: Origin>(
    alloc: Global,
    feeds: &ReadFeeds<S, B>,
    hands: &[Vec<Ticket>],
    first: Option<Stop>,
    kept: Result<(), Refused>,
) -> Result<(), Refused>
    requires read { All (WereRead B.feeds) (map (λ hand. hand.items) hands.now) }
    requires first { IfSome first (λ stop. IsTold stop.refused ⊎ IsStop B.feeds most_rows stop) }
    requires kept { IfErr kept IsTold }
    ensures none { OnOk result (first ≡ None) }
    ensures whole { OnOk result (AreWhole most_rows B.feeds (map (λ hand. hand.items) hands.now)) }
    ensures refused { IfErr result (λ e. IsTold e ⊎ (e ≡ Refused.Mismatch)
        ⊎ IsFirstUnread B.feeds B.counts feeds.now most_rows e) }
{
    match first {
        None => {}
        Some(stop) => return Err(told_of(alloc, feeds, hands, stop)),
    }
    match kept {
        Ok(()) => {}
        Err(refused) => return Err(refused),
    }
    feeds.whole(alloc, LIMIT, hands)
}

/// The passes of workers that have read all blocks of these feeds, whose streams come back. Refused as [`concluded`] is; and `NoMemory`.
fn joined<S: Source + Drop, B: Origin, F: Mergeable, D: Disk, H: Recorder<F>>(
    alloc: Global,
    feeds: Feeds<S, B>,
    ran: JobResults<WorkerResult<F, D, H, Tickets>>,
    left: &mut Vec<S>,
) -> Result<Vec<Pass<F, D, H>>, Refused>
    requires read { All (λ w. WereRead B.feeds w.had.tickets.items) ran.results.items }
    requires stops { All (λ w. IfSome w.fault (λ why. IsTold why ⊎ IsStop B.feeds most_rows
        (record { feed = w.had.feed; low = w.had.low; refused = why; has_failed = w.had.has_failed }))) ran.results.items }
    requires kept { IfErr ran.kept IsTold }
    ensures ok { IfOk result (λ passes. passes.items ≡ map (λ w. w.pass) ran.results.items) }
    ensures none { OnOk result (All (λ fault. fault ≡ None) (map (λ w. w.fault) ran.results.items)) }
    ensures whole { OnOk result (AreWhole most_rows B.feeds (map (λ w. w.had.tickets.items) ran.results.items)) }
    ensures refused { IfErr result (λ e. IsTold e ⊎ (e ≡ Refused.Mismatch)
        ⊎ IsFirstUnread B.feeds B.counts (map S.failures left.new.items) most_rows e) }
{
    let JobResults { results, kept } = ran;
    let WorkerResults {
        passes,
        hands,
        first,
    } = match taken_apart::<B, F, D, H>(alloc, results) {
        Ok(parted) => parted,
        Err(refused) => return Err(refused),
    };
    let ended = match feeds.ended(alloc) {
        Ok(ended) => ended,
        Err(refused) => return Err(refused),
    };
    let concluded = concluded(alloc, &ended, hands.as_slice(), first, kept);
    *left = match ended.into_sources(alloc) {
        Ok(sources) => sources,
        Err(refused) => return Err(refused),
    };
    match concluded {
        Ok(()) => Ok(passes),
        Err(refused) => Err(refused),
    }
}

/// What each worker reads of these feeds: blocks, of all. Refused: `NoMemory`.
fn shares_of<'a, S: Source + Drop, B: Origin>(
    alloc: Global,
    feeds: &'a Feeds<S, B>,
    workers: usize,
) -> Result<Vec<SharedFeeds<'a, S, B>>, Refused>
    ensures only { IfErr result (λ e. e ≡ Refused.NoMemory) }
{
    let mut shares = Vec::new(alloc);
    for worker in 0..workers {
        let Ok(()) = shares.push(SharedFeeds { feeds, worker }) else {
            return Err(Refused::NoMemory);
        };
    }
    Ok(shares)
}

/// The passes of workers in threads of their own that have read these feeds into a store, beside a keeper: each block is read by one of
/// them, and each row is an update there, or, only where the mode asks for merges, a merge.
fn run_workers<
    S: Source + Drop + Send,
    B: Origin + Send + Sync,
    F: Mergeable + OrderFree<Key = Name, Input = i64> + Send + Sync,
    D: Disk + Send,
    H: Recorder<F> + Send,
    G: Gate + Sync,
    T: Threads + Wait + Clock + Sync,
>(
    rt: &T,
    alloc: Global,
    feeds: &mut Vec<S>,
    workers: usize,
    store: &Store<F, D, H>,
    page_bits: u64,
    gate: &G,
    mode: RowMode,
) -> Result<Vec<Pass<F, D, H>>, Refused>
where
    F::Value: Send,
    F::Output: Send,
    D::Receipt: Send,
    D::Writer: Send,
    D::Reader: Send,
    requires store { 0 < store.now.count }
    requires bits { page_bits < 57 }
    requires bytes { map S.remaining feeds.old.items ≡ B.feeds }
    requires counted { map S.failures feeds.old.items ≡ B.counts }
    ensures ok { IfOk result (λ passes. H.keeps ≡ true → IsShared F.code mode B.feeds passes.items) }
    ensures refused { IfErr result (λ e. IsTold e ⊎ (e ≡ Refused.Mismatch)
        ⊎ IsFirstUnread B.feeds B.counts (map S.failures feeds.new.items) most_rows e) }
{
    let sources = mem::replace(feeds, Vec::new(alloc));
    let shared = match Feeds::<S, B>::open(alloc, sources, BLOCK) {
        Ok(shared) => shared,
        Err(refused) => return Err(refused),
    };
    let shares = match shares_of(alloc, &shared, workers) {
        Ok(shares) => shares,
        Err(refused) => return Err(refused),
    };
    let jobs = match jobs(rt, alloc, store, gate, mode, shares) {
        Ok(jobs) => jobs,
        Err(refused) => return Err(refused),
    };
    let keeper = match keeper_of(alloc, store, gate, page_bits) {
        Ok(keeper) => keeper,
        Err(refused) => return Err(refused),
    };
    match run_jobs(rt, alloc, &keeper, jobs) {
        Ok(ran) => joined(alloc, shared, ran, feeds),
        Err(refused) => Err(refused),
    }
}

/// A store that workers have filled with the rows of feeds, and their passes.
#[derive(Drop)]
struct Filled<F: Mergeable, D: Disk, H: Recorder<F>> {
    store: Store<F, D, H>,
    passes: Vec<Pass<F, D, H>>,
}

/// A store of this configuration, and the passes of workers that have read these feeds into it, as [`run_blocks`] says. Refused as there,
/// but for the end of the store.
fn fill<
    S: Source + Drop + Send,
    F: Mergeable + OrderFree<Key = Name, Input = i64> + Send + Sync,
    D: Disk + Send,
    H: Recorder<F> + Send,
    G: Gate + Sync,
    T: Threads + Wait + Clock + Sync,
>(
    rt: &T,
    alloc: Global,
    feeds: &mut Vec<S>,
    workers: usize,
    functions: F,
    config: &Config,
    device: D,
    gate: &G,
    mode: RowMode,
) -> Result<Filled<F, D, H>, Refused>
where
    F::Value: Send,
    F::Output: Send,
    D::Receipt: Send,
    D::Writer: Send,
    D::Reader: Send,
    ensures shared { IfOk result (λ filled. H.keeps ≡ true
        → IsShared F.code mode (map S.remaining feeds.old.items) filled.passes.items) }
    ensures some { IfOk result (λ filled. 0 < filled.store.count) }
    ensures runnable { OnOk result (IsRunnable config.now (size_of 32 F.Value.SIZE) workers (length feeds.old.items)) }
    ensures good { result ≢ Err Refused.BadConfig
        → IsRunnable config.now (size_of 32 F.Value.SIZE) workers (length feeds.old.items) }
    ensures refused { IfErr result (IsUnread
        (IsRunnable config.now (size_of 32 F.Value.SIZE) workers (length feeds.old.items))
        (map S.remaining feeds.old.items) (map S.failures feeds.old.items) (map S.failures feeds.new.items)) }
{
    if !is_runnable::<F::Value>(config, workers, feeds.len()) {
        return Err(Refused::BadConfig);
    }
    let store = match Store::<F, D, H>::open(alloc, config, functions, device) {
        Ok(store) => store,
        Err(refused) => return Err(refused),
    };
    let bits = config.page_bits;
    let passes = match run_workers::<S, Brand, F, D, H, G, T>(
        rt, alloc, feeds, workers, &store, bits, gate, mode,
    ) {
        Ok(passes) => passes,
        Err(refused) => return Err(refused),
    };
    Ok(Filled { store, passes })
}

/// The table of these feeds, as [`fkv_feeds::run_one`] makes it, by so many workers in threads of their own, beside a keeper that moves
/// pages: each takes blocks of whole records of any feed, one after the other, and each row is one update of a store that all share, or,
/// as the mode says, a merge, so that no row reads a page. With a recorder that keeps, and on a device that keeps, the table is that of
/// one worker. A worker rests while it waits for a block, so a slow feed holds up none of the others. Beside the table stand how many
/// updates were made, one a row, and how it was made.
///
/// A worker holds a block of 256 KiB or more, and each feed that is being read as much again. The feeds come back as far as they were
/// read, with what their streams have counted; they may be gone where the refusal is `NoMemory`, or `Device` with code 1.
///
/// # Errors
///
/// In this order: `BadConfig`, where there are none of 1 to 14 workers, or none of 1 to 64 feeds, or a number of the configuration is
/// outside its limits, and then no feed is read; `NoMemory`, and `Device` with code 1, before any feed is read; `NoMemory` where a
/// thread can't be made, after those that were made have ended; the fault of the first feed that has one: `BadRow` with its first
/// record that is no row, and `Unreadable`, whatever the threads did, unless a worker's pass was refused at a block before it: then
/// what the pass refuses; the keeper's; and what the end of the store refuses.
pub fn run_blocks<
    S: Source + Drop + Send,
    F: Mergeable + OrderFree<Key = Name, Input = i64> + Send + Sync,
    D: Disk + Send,
    H: Recorder<F> + Send,
    G: Gate + Sync,
    T: Threads + Wait + Clock + Sync,
>(
    rt: &T,
    alloc: Global,
    feeds: &mut Vec<S>,
    workers: usize,
    functions: F,
    config: &Config,
    device: D,
    gate: &G,
    mode: RowMode,
) -> Result<TableRun<F::Value>, Refused>
where
    F::Value: Send,
    F::Output: Send,
    D::Receipt: Send,
    D::Writer: Send,
    D::Reader: Send,
    ensures ok { H.keeps ≡ true → IsTrue D.Receipt.keeps
        → IfOk result (λ run. IsTableOf F.meaning (map S.remaining feeds.old.items) run.table) }
    ensures made { H.keeps ≡ true → IsTrue D.Receipt.keeps → IfOk result (λ run.
        IsMadeOf F.meaning F.code mode (map S.remaining feeds.old.items) run.table run.counts.rows) }
    ensures ran { IfOk result (λ run. run.plan ≡ record { config = config.now; mode = mode; workers = workers }) }
    ensures good { result ≢ Err Refused.BadConfig
        → IsRunnable config.now (size_of 32 F.Value.SIZE) workers (length feeds.old.items) }
    ensures refused { IfErr result (IsUnread
        (IsRunnable config.now (size_of 32 F.Value.SIZE) workers (length feeds.old.items))
        (map S.remaining feeds.old.items) (map S.failures feeds.old.items) (map S.failures feeds.new.items)) }
{
    let filled = match fill::<S, F, D, H, G, T>(
        rt, alloc, feeds, workers, functions, config, device, gate, mode,
    ) {
        Ok(filled) => filled,
        Err(refused) => return Err(refused),
    };
    let Filled { store, passes } = filled;
    tabled(rt, alloc, store, passes, config, mode, workers)
}

/// The table of these feeds, made as [`run_blocks`] makes it, but in pages of the device: at the end so many threads list the partitions
/// one after the other, each goes from memory as its list is made, and a sorted run of the list is written behind its pages. The pairs
/// that are read from there are the table's, as long as the device keeps; [`fkv_feeds::write_pairs`] writes them out.
///
/// # Errors
///
/// As [`run_blocks`]'s. At its end also `Device` with code 2, where a page of a run is not written; 3 and `Damaged` where the first of
/// these is not read back; and `Worn` where the table has 2^64 keys.
pub fn spill_blocks<
    S: Source + Drop + Send,
    F: Mergeable + OrderFree<Key = Name, Input = i64> + Send + Sync,
    D: Disk + Send,
    H: Recorder<F> + Send,
    G: Gate + Sync,
    T: Threads + Wait + Clock + Sync,
>(
    rt: &T,
    alloc: Global,
    feeds: &mut Vec<S>,
    workers: usize,
    functions: F,
    config: &Config,
    device: D,
    gate: &G,
    mode: RowMode,
) -> Result<SpilledRun<F::Value, D::Receipt, D::Reader>, Refused>
where
    F::Value: Send,
    F::Output: Send,
    D::Receipt: Send,
    D::Writer: Send,
    D::Reader: Send,
    ensures ok { H.keeps ≡ true → IsTrue D.Receipt.keeps → IfOk result
        (HasTableOf F.Value.codec D.Receipt.keeps D.Receipt.stands F.meaning (map S.remaining feeds.old.items)) }
    ensures made { H.keeps ≡ true → IsTrue D.Receipt.keeps → IfOk result (IsSpilledFrom F.Value.codec D.Receipt.keeps
        D.Receipt.stands F.meaning F.code mode (map S.remaining feeds.old.items)) }
    ensures ran { IfOk result (λ run. run.plan ≡ record { config = config.now; mode = mode; workers = workers }) }
    ensures good { result ≢ Err Refused.BadConfig
        → IsRunnable config.now (size_of 32 F.Value.SIZE) workers (length feeds.old.items) }
    ensures refused { IfErr result (λ why. IsSpillEnding (IsSpillFault D.Receipt.keeps D.failures D.Writer.failures D.Reader.failures
        (CanFailToWrite D.Writer.next D.Writer.can_fail) (CanFailToRead D.Receipt.stands D.Reader.can_fail)) why
        ⊎ IsUnread (IsRunnable config.now (size_of 32 F.Value.SIZE) workers (length feeds.old.items))
        (map S.remaining feeds.old.items) (map S.failures feeds.old.items) (map S.failures feeds.new.items) why) }
{
    let filled = match fill::<S, F, D, H, G, T>(
        rt, alloc, feeds, workers, functions, config, device, gate, mode,
    ) {
        Ok(filled) => filled,
        Err(refused) => return Err(refused),
    };
    let Filled { store, passes } = filled;
    spilled(rt, alloc, store, passes, config, mode, workers)
}
