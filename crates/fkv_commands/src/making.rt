//! Making tables over a device, by one worker or by several.
ghost use Rattle.std.specs.Prelude.{◌≡◌, ◌≢◌, ◌⊎◌, ◌↔◌, ◌∷◌, ◌<◌, [], true, map, max, string_bytes, IfOk, IfErr, IsTrue, OnOk};
ghost use Rattle.fkv_feeds.specs.Spilling.{HasTableOf};
ghost use Rattle.fkv_feeds.specs.Tables.{IsTableOf};
ghost use Rattle.fkv_commands.specs.Plans.{IsPlanBy};

use crate::opening::{Feed, FeedOf, Opener, all_opened, read_whole};
use fkv_device::Disk;
use fkv_feeds::{
    RowMode, SpilledRun, TableRun, run_alone_by, run_one_by, spill_alone_by, spill_one_by,
};
use fkv_functions::{Mergeable, Name, OrderFree, Refused};
use fkv_histories::{Audited, Plain, Recorder};
use fkv_meters::ReadProgress;
use fkv_requests::TableRequest;
use fkv_store::Open;
use fkv_streams::{CountedReader, Source};
use fkv_workers::{run_blocks, spill_blocks};
use std::alloc::Global;
use std::fs::Files;
use std::rt::Clock;
use std::sync::Wait;
use std::thread::Threads;

/// How each row of a table is made an update of the store.
fn mode_of(table: &TableRequest) -> RowMode
    ensures { (result ≡ RowMode.Merge) ↔ IsTrue table.now.merge }
{
    if table.merge {
        RowMode::Merge
    } else {
        RowMode::Update
    }
}

/// A run over these feeds by so many workers, in threads of their own: each takes blocks of any feed.
fn shared<
    S: Source + Drop + Send,
    F: Mergeable + OrderFree<Key = Name, Input = i64> + Send + Sync,
    H: Recorder<F> + Send,
    D: Disk + Send,
    T: Threads + Wait + Clock + Sync,
>(
    rt: &T,
    alloc: Global,
    table: &TableRequest,
    workers: usize,
    functions: F,
    feeds: Vec<S>,
    device: D,
) -> Result<TableRun<F::Value>, Refused>
where
    F::Value: Send,
    F::Output: Send,
    D::Receipt: Send,
    D::Writer: Send,
    D::Reader: Send,
    ensures ok { H.keeps ≡ true → IsTrue D.Receipt.keeps
        → IfOk result (λ run. IsTableOf F.meaning (map S.remaining feeds.items) run.table) }
    ensures ran { IfOk result (λ run. IsPlanBy table.now workers run.plan) }
    ensures some { OnOk result (0 < workers) }
    ensures only { IfErr result (λ e. e ≢ Refused.Unwritable) }
{
    let config = &table.config;
    let mode = mode_of(table);
    let mut feeds = feeds;
    run_blocks::<S, F, D, H, Open, T>(
        rt, alloc, &mut feeds, workers, functions, config, device, &Open, mode,
    )
}

/// A run over a reader's bytes. An audited one reads them whole before it starts threads, since the reader stays where it
/// is; the entry that it keeps of a row takes more memory than a row of usual length. Its feed has the type of one in a file
/// (`H`, `P`), so that runs over both are one code.
pub(crate) fn made_of_input<
    R: Source,
    F: Mergeable + OrderFree<Key = Name, Input = i64> + Send + Sync,
    D: Disk + Send,
    H: Files + Threads + Wait + Clock + Sync,
    P: ReadProgress + Sync,
>(
    rt: &H,
    alloc: Global,
    table: &TableRequest,
    functions: F,
    reader: &mut R,
    device: D,
) -> Result<TableRun<F::Value>, Refused>
where
    F::Value: Send,
    F::Output: Send,
    H::File: Send,
    H::Dir: Send,
    D::Receipt: Send,
    D::Writer: Send,
    D::Reader: Send,
    ensures ok { IsTrue D.Receipt.keeps
        → IfOk result (λ run. IsTableOf F.meaning (R.remaining reader.old ∷ []) run.table) }
    ensures ran { IfOk result (λ run. IsPlanBy table.now 1 run.plan) }
    ensures steady { OnOk result (R.failures reader.new ≡ R.failures reader.old) }
    ensures only { IfErr result (λ e. e ≢ Refused.Unwritable) }
{
    if !table.audit {
        let mode = mode_of(table);
        return run_alone_by(alloc, reader, functions, &table.config, device, mode);
    }
    let bytes = match read_whole(alloc, reader) {
        Ok(bytes) => bytes,
        Err(refused) => return Err(refused),
    };
    let mut feeds: Vec<FeedOf<'_, '_, H::File, P>> = Vec::new(alloc);
    let Ok(()) = feeds.push(Feed::Bytes(CountedReader::new(bytes.as_slice()))) else {
        return Err(Refused::NoMemory);
    };
    shared::<_, F, Audited<F>, D, H>(rt, alloc, table, 1, functions, feeds, device)
}

/// A run over the feeds that are named, all of which are opened, in order, before a row is read. One worker that keeps no
/// histories needs no thread.
pub(crate) fn made_of_feeds<
    F: Mergeable + OrderFree<Key = Name, Input = i64> + Send + Sync,
    D: Disk + Send,
    O: Opener,
    T: Threads + Wait + Clock + Sync,
>(
    rt: &T,
    alloc: Global,
    table: &TableRequest,
    functions: F,
    device: D,
    opener: &O,
) -> Result<TableRun<F::Value>, Refused>
where
    F::Value: Send,
    F::Output: Send,
    O::Feed: Send,
    D::Receipt: Send,
    D::Writer: Send,
    D::Reader: Send,
    ensures ok { IsTrue D.Receipt.keeps → IsTrue table.now.audit ⊎ (table.now.workers ≡ 1)
        → IfOk result (λ run. IsTableOf F.meaning
        (map (λ path. O.bytes opener.now (string_bytes path)) table.now.paths.items) run.table) }
    ensures ran { IfOk result (λ run. IsPlanBy table.now (max 1 table.now.workers) run.plan) }
    ensures only { IfErr result (λ e. e ≢ Refused.Unwritable) }
{
    let mut feeds = match all_opened(alloc, opener, table.paths.as_slice()) {
        Ok(feeds) => feeds,
        Err(refused) => return Err(refused),
    };
    let workers = table.workers as usize;
    if table.audit {
        return shared::<_, F, Audited<F>, D, T>(
            rt, alloc, table, workers, functions, feeds, device,
        );
    }
    if workers > 1 {
        return shared::<_, F, Plain, D, T>(rt, alloc, table, workers, functions, feeds, device);
    }
    let config = &table.config;
    let mode = mode_of(table);
    run_one_by(alloc, feeds.as_mut_slice(), functions, config, device, mode)
}

/// A run by one worker over a reader's bytes, whose table stands on the device.
pub(crate) fn spilled_of_input<
    R: Source,
    F: Mergeable + OrderFree<Key = Name, Input = i64>,
    D: Disk,
>(
    alloc: Global,
    table: &TableRequest,
    functions: F,
    reader: &mut R,
    device: D,
) -> Result<SpilledRun<F::Value, D::Receipt, D::Reader>, Refused>
    ensures ok { IsTrue D.Receipt.keeps → IfOk result
        (HasTableOf F.Value.codec D.Receipt.keeps D.Receipt.stands F.meaning (R.remaining reader.old ∷ [])) }
    ensures ran { IfOk result (λ run. IsPlanBy table.now 1 run.plan) }
    ensures steady { OnOk result (R.failures reader.new ≡ R.failures reader.old) }
    ensures only { IfErr result (λ e. e ≢ Refused.Unwritable) }
{
    let mode = mode_of(table);
    spill_alone_by(alloc, reader, functions, &table.config, device, mode)
}

/// A run over these feeds by so many workers, in threads of their own, whose table stands on the device: each takes blocks of any feed.
fn spilled_by<
    S: Source + Drop + Send,
    F: Mergeable + OrderFree<Key = Name, Input = i64> + Send + Sync,
    D: Disk + Send,
    T: Threads + Wait + Clock + Sync,
>(
    rt: &T,
    alloc: Global,
    table: &TableRequest,
    workers: usize,
    functions: F,
    feeds: Vec<S>,
    device: D,
) -> Result<SpilledRun<F::Value, D::Receipt, D::Reader>, Refused>
where
    F::Value: Send,
    F::Output: Send,
    D::Receipt: Send,
    D::Writer: Send,
    D::Reader: Send,
    ensures ran { IfOk result (λ run. IsPlanBy table.now workers run.plan) }
    ensures some { OnOk result (0 < workers) }
    ensures only { IfErr result (λ e. e ≢ Refused.Unwritable) }
{
    let config = &table.config;
    let mode = mode_of(table);
    let mut feeds = feeds;
    spill_blocks::<S, F, D, Plain, Open, T>(
        rt, alloc, &mut feeds, workers, functions, config, device, &Open, mode,
    )
}

/// A run over the feeds that are named, all of which are opened, in order, before a row is read. Its table stands on the device.
pub(crate) fn spilled_of_feeds<
    F: Mergeable + OrderFree<Key = Name, Input = i64> + Send + Sync,
    D: Disk + Send,
    O: Opener,
    T: Threads + Wait + Clock + Sync,
>(
    rt: &T,
    alloc: Global,
    table: &TableRequest,
    functions: F,
    device: D,
    opener: &O,
) -> Result<SpilledRun<F::Value, D::Receipt, D::Reader>, Refused>
where
    F::Value: Send,
    F::Output: Send,
    O::Feed: Send,
    D::Receipt: Send,
    D::Writer: Send,
    D::Reader: Send,
    ensures ok { IsTrue D.Receipt.keeps → table.now.workers ≡ 1
        → IfOk result (HasTableOf F.Value.codec D.Receipt.keeps D.Receipt.stands F.meaning
        (map (λ path. O.bytes opener.now (string_bytes path)) table.now.paths.items)) }
    ensures ran { IfOk result (λ run. IsPlanBy table.now (max 1 table.now.workers) run.plan) }
    ensures only { IfErr result (λ e. e ≢ Refused.Unwritable) }
{
    let mut feeds = match all_opened(alloc, opener, table.paths.as_slice()) {
        Ok(feeds) => feeds,
        Err(refused) => return Err(refused),
    };
    let workers = table.workers as usize;
    if workers > 1 {
        return spilled_by::<_, F, D, T>(rt, alloc, table, workers, functions, feeds, device);
    }
    let config = &table.config;
    let mode = mode_of(table);
    spill_one_by(alloc, feeds.as_mut_slice(), functions, config, device, mode)
}
