//! Making tables of feeds, and writing them.
ghost use Rattle.std.specs.Prelude.{◌≡◌, ◌≢◌, ◌⊎◌, ◌||◌, ◌^◌, ◌<◌, Err, None, false, true, option_map, string_bytes, if◌then◌else◌, IfOk, IfErr, IfSome, IsTrue, OnErr, OnOk};
ghost use Rattle.std.specs.Io.KnownBytes.{Appends};
ghost use Rattle.fkv_either.specs.Either.{is_absent};
ghost use Rattle.fkv_streams.specs.Streams.{AppendsPrefix};
ghost use Rattle.fkv_feeds.specs.Tables.{IsTableOf};
ghost use Rattle.fkv_feeds.specs.Writing.{fields_of};
ghost use Rattle.fkv_commands.specs.Endings.{IsAskedFor, IsKnown, IsOfPages, MayBeLate, PrintsTable, PrintsTablePart, Writes, feeds_by};
ghost use Rattle.fkv_commands.specs.Plans.{IsPlanOf, IsUnaudited};

use crate::making::{made_of_feeds, made_of_input};
use crate::opening::Opener;
use crate::peaks::peak_of;
use crate::reporting::RunReport;
use crate::spilling::spill_on;
use fkv_device::{Disk, FileDevice, PageFile};
use fkv_either::{EitherDevice, Keeping};
use fkv_feeds::{TableRun, write_table};
use fkv_functions::{CountFns, MaxFns, Mergeable, Name, OrderFree, Refused, SumFns};
use fkv_meters::{MeteredDevice, Meters, ReadProgress};
use fkv_requests::{Shown, TableRequest};
use fkv_streams::{Sink, Source};
use fkv_summaries::SummaryFns;
use std::alloc::Global;
use std::fs::Files;
use std::marker::Brand;
use std::rt::Clock;
use std::sync::Wait;
use std::thread::Threads;

/// The run that is asked for, over the feeds that are named, or over the reader, by a store on this device.
fn run_with<
    R: Source,
    F: Mergeable + OrderFree<Key = Name, Input = i64> + Send + Sync,
    D: Disk + Send,
    H: Files + Threads + Wait + Clock + Sync,
    P: ReadProgress + Sync,
    O: Opener,
>(
    rt: &H,
    alloc: Global,
    table: &TableRequest,
    functions: F,
    reader: &mut R,
    device: D,
    opener: &O,
) -> Result<TableRun<F::Value>, Refused>
where
    F::Value: Send,
    F::Output: Send,
    D::Receipt: Send,
    D::Writer: Send,
    D::Reader: Send,
    H::File: Send,
    H::Dir: Send,
    O::Feed: Send,
    ensures ok { IsTrue D.Receipt.keeps → IfOk result (λ run. IsKnown table.now
        → IsTableOf F.meaning (feeds_by (λ path. O.bytes opener.now path) table.now (R.remaining reader.old)) run.table) }
    ensures ran { IfOk result (λ run. IsPlanOf table.now run.plan) }
    ensures steady { OnOk result (R.failures reader.new ≡ R.failures reader.old) }
    ensures only { IfErr result (λ e. e ≢ Refused.Unwritable) }
{
    if table.paths.is_empty() {
        made_of_input::<R, F, D, H, P>(rt, alloc, table, functions, reader, device)
    } else {
        made_of_feeds(rt, alloc, table, functions, device, opener)
    }
}

/// The run that is asked for, by a store whose pages go to this folder, else to memory, and are counted.
fn run_on<
    R: Source,
    F: Mergeable + OrderFree<Key = Name, Input = i64> + Send + Sync,
    D: Disk + Send,
    H: Files + Threads + Wait + Clock + Sync,
    P: ReadProgress + Sync,
    O: Opener,
    K: Keeping + Send,
>(
    rt: &H,
    alloc: Global,
    table: &TableRequest,
    functions: F,
    reader: &mut R,
    folder: Option<D>,
    meters: &Meters,
    opener: &O,
) -> Result<TableRun<F::Value>, Refused>
where
    F::Value: Send,
    F::Output: Send,
    D::Receipt: Send,
    D::Writer: Send,
    D::Reader: Send,
    H::File: Send,
    H::Dir: Send,
    O::Feed: Send,
    requires { (if K.keeps then is_absent folder else true) ≡ true }
    ensures ok { IsTrue (K.keeps || D.Receipt.keeps) → IfOk result (λ run. IsKnown table.now
        → IsTableOf F.meaning (feeds_by (λ path. O.bytes opener.now path) table.now (R.remaining reader.old)) run.table) }
    ensures ran { IfOk result (λ run. IsPlanOf table.now run.plan) }
    ensures steady { OnOk result (R.failures reader.new ≡ R.failures reader.old) }
    ensures only { IfErr result (λ e. e ≢ Refused.Unwritable) }
{
    let device = MeteredDevice::new(EitherDevice::<D, K>::new(alloc, folder), meters);
    run_with::<R, F, _, H, P, O>(rt, alloc, table, functions, reader, device, opener)
}

/// The folder that is named, as a device whose pages have the size that is asked for; `None` where none is. Refused: `NoMemory`.
fn folder_of<'a, H: Files>(
    rt: &'a H,
    alloc: Global,
    table: &TableRequest,
) -> Result<Option<FileDevice<&'a H>>, Refused>
    ensures ok { IfOk result (λ folder. option_map string_bytes table.now.folder ≡ None → IsTrue (is_absent folder)) }
    ensures named { IfOk result (λ folder. IsTrue (is_absent folder) → option_map string_bytes table.now.folder ≡ None) }
    ensures bits { IfOk result (λ folder. table.now.config.page_bits < 2 ^ 32
        → IfSome folder (λ device. device.page_bits ≡ table.now.config.page_bits)) }
    ensures only { IfErr result (λ e. e ≡ Refused.NoMemory) }
{
    let Some(folder) = &table.folder else {
        return Ok(None);
    };
    let Ok(folder) = String::from_str(alloc, folder.as_str()) else {
        return Err(Refused::NoMemory);
    };
    let page_bits = u32::try_from(table.config.page_bits).unwrap_or(u32::MAX);
    Ok(Some(FileDevice::new(rt, alloc, folder, page_bits)))
}

/// The run that is asked for, by a store whose pages go to the folder that is named, else to memory.
fn run_of<
    R: Source,
    F: Mergeable + OrderFree<Key = Name, Input = i64> + Send + Sync,
    H: Files + Threads + Wait + Clock + Sync,
    P: ReadProgress + Sync,
    O: Opener,
>(
    rt: &H,
    alloc: Global,
    table: &TableRequest,
    functions: F,
    reader: &mut R,
    meters: &Meters,
    opener: &O,
) -> Result<TableRun<F::Value>, Refused>
where
    F::Value: Send,
    F::Output: Send,
    H::File: PageFile + Send,
    H::Dir: Send,
    O::Feed: Send,
    ensures ok { IfOk result (λ run. IsAskedFor F.meaning H.File.pages table.now
        (feeds_by (λ path. O.bytes opener.now path) table.now (R.remaining reader.old)) run.table) }
    ensures ran { IfOk result (λ run. IsPlanOf table.now run.plan) }
    ensures steady { OnOk result (R.failures reader.new ≡ R.failures reader.old) }
    ensures only { IfErr result (λ e. e ≢ Refused.Unwritable) }
{
    match folder_of(rt, alloc, table) {
        Ok(folder) => run_on::<R, F, _, H, P, O, Brand>(
            rt, alloc, table, functions, reader, folder, meters, opener,
        ),
        Err(refused) => Err(refused),
    }
}

/// Makes a table by these functions on the device, which is the folder that is named, and writes it from there. Answers what the run
/// did.
fn spill_by<
    R: Source,
    W: Sink,
    F: Mergeable + OrderFree<Key = Name, Input = i64> + Send + Sync,
    H: Files + Threads + Wait + Clock + Sync,
    P: ReadProgress,
    O: Opener,
>(
    rt: &H,
    alloc: Global,
    table: &TableRequest,
    functions: F,
    reader: &mut R,
    writer: &mut W,
    hook: &P,
    opener: &O,
) -> Result<RunReport, Refused>
where
    F::Value: fkv_feeds::RowFields + Send,
    F::Output: Send,
    H::File: PageFile + Send,
    H::Dir: Send,
    O::Feed: Send,
    requires unaudited { table.now.audit ≡ false }
    ensures ok { OnOk result (Writes (fields_of F.Value.FIELDS F.Value.field_at)
        (IsAskedFor F.meaning H.File.pages table.now
        (feeds_by (λ path. O.bytes opener.now path) table.now (R.remaining reader.old)))
        (Appends (W.contents writer.old) (W.contents writer.new))) }
    ensures ran { IfOk result (λ report. IsPlanOf table.now report.plan) }
    ensures unwritable { result ≡ Err Refused.Unwritable → Writes (fields_of F.Value.FIELDS F.Value.field_at)
        (IsAskedFor F.meaning H.File.pages table.now
        (feeds_by (λ path. O.bytes opener.now path) table.now (R.remaining reader.old)))
        (AppendsPrefix (W.contents writer.old) (W.contents writer.new)) }
    ensures nothing { IfErr result (λ e. (e ≡ Refused.Unwritable) ⊎ IsOfPages e ⊎ (W.contents writer.new ≡ W.contents writer.old)) }
    ensures front { OnErr result ((W.contents writer.new ≡ W.contents writer.old) ⊎ Writes (fields_of F.Value.FIELDS F.Value.field_at)
        (IsAskedFor F.meaning H.File.pages table.now
        (feeds_by (λ path. O.bytes opener.now path) table.now (R.remaining reader.old)))
        (AppendsPrefix (W.contents writer.old) (W.contents writer.new))) }
    ensures out { OnOk result (W.is_out writer.new ≡ true) }
    ensures steady { OnOk result ((R.failures reader.new ≡ R.failures reader.old)
        × (W.failures writer.new ≡ W.failures writer.old)) }
{
    let meters = Meters::new();
    let begun = rt.monotonic();
    let folder = match folder_of(rt, alloc, table) {
        Ok(folder) => folder,
        Err(refused) => {
            hook.end();
            return Err(refused);
        }
    };
    match spill_on::<R, W, F, _, P, O, Brand, H>(
        rt, alloc, table, functions, reader, writer, folder, &meters, hook, opener,
    ) {
        Ok(ran) => Ok(RunReport::of_spilled(
            ran,
            meters.seen(),
            begun,
            rt.monotonic(),
            peak_of(rt, alloc, table.stats),
        )),
        Err(refused) => Err(refused),
    }
}

/// Makes a table by these functions, and writes it. Answers what the run did.
fn tabulate_by<
    R: Source,
    W: Sink,
    F: Mergeable + OrderFree<Key = Name, Input = i64> + Send + Sync,
    H: Files + Threads + Wait + Clock + Sync,
    P: ReadProgress + Sync,
    O: Opener,
>(
    rt: &H,
    alloc: Global,
    table: &TableRequest,
    functions: F,
    reader: &mut R,
    writer: &mut W,
    hook: &P,
    opener: &O,
) -> Result<RunReport, Refused>
where
    F::Value: fkv_feeds::RowFields + Send,
    F::Output: Send,
    H::File: PageFile + Send,
    H::Dir: Send,
    O::Feed: Send,
    requires unaudited { IsUnaudited table.now }
    ensures ok { OnOk result (Writes (fields_of F.Value.FIELDS F.Value.field_at)
        (IsAskedFor F.meaning H.File.pages table.now
        (feeds_by (λ path. O.bytes opener.now path) table.now (R.remaining reader.old)))
        (Appends (W.contents writer.old) (W.contents writer.new))) }
    ensures ran { IfOk result (λ report. IsPlanOf table.now report.plan) }
    ensures unwritable { result ≡ Err Refused.Unwritable → Writes (fields_of F.Value.FIELDS F.Value.field_at)
        (IsAskedFor F.meaning H.File.pages table.now
        (feeds_by (λ path. O.bytes opener.now path) table.now (R.remaining reader.old)))
        (AppendsPrefix (W.contents writer.old) (W.contents writer.new)) }
    ensures nothing { IfErr result (λ e. MayBeLate table.now e ⊎ (W.contents writer.new ≡ W.contents writer.old)) }
    ensures spilled { table.now.spill ≡ true → OnErr result ((W.contents writer.new ≡ W.contents writer.old) ⊎ Writes (fields_of F.Value.FIELDS F.Value.field_at)
        (IsAskedFor F.meaning H.File.pages table.now
        (feeds_by (λ path. O.bytes opener.now path) table.now (R.remaining reader.old)))
        (AppendsPrefix (W.contents writer.old) (W.contents writer.new))) }
    ensures out { OnOk result (W.is_out writer.new ≡ true) }
    ensures steady { OnOk result ((R.failures reader.new ≡ R.failures reader.old)
        × (W.failures writer.new ≡ W.failures writer.old)) }
{
    if table.spill {
        return spill_by::<R, W, F, H, P, O>(
            rt, alloc, table, functions, reader, writer, hook, opener,
        );
    }
    let meters = Meters::new();
    let begun = rt.monotonic();
    let made = run_of::<R, F, H, P, O>(rt, alloc, table, functions, reader, &meters, opener);
    hook.end();
    match made {
        Ok(run) => match write_table(alloc, &run.table, writer) {
            Ok(()) => Ok(RunReport::new(
                &run,
                meters.seen(),
                begun,
                rt.monotonic(),
                peak_of(rt, alloc, table.stats),
            )),
            Err(refused) => Err(refused),
        },
        Err(refused) => Err(refused),
    }
}

/// Makes the table that is asked for, and writes it. Refused as `fkv_feeds::run_one_by`, `fkv_workers::run_blocks` and
/// `fkv_feeds::write_table` are; `Unreadable` too with the number of the first feed that can not be opened. Answers what the
/// run did.
pub fn tabulate<
    R: Source,
    W: Sink,
    H: Files + Threads + Wait + Clock + Sync,
    P: ReadProgress + Sync,
    O: Opener,
>(
    rt: &H,
    alloc: Global,
    table: &TableRequest,
    reader: &mut R,
    writer: &mut W,
    hook: &P,
    opener: &O,
) -> Result<RunReport, Refused>
where
    H::File: PageFile + Send,
    H::Dir: Send,
    O::Feed: Send,
    requires unaudited { IsUnaudited table.now }
    ensures ok { OnOk result (PrintsTable H.File.pages table.now
        (feeds_by (λ path. O.bytes opener.now path) table.now (R.remaining reader.old)) (W.contents writer.old) (W.contents writer.new)) }
    ensures ran { IfOk result (λ report. IsPlanOf table.now report.plan) }
    ensures unwritable { result ≡ Err Refused.Unwritable → PrintsTablePart H.File.pages table.now
        (feeds_by (λ path. O.bytes opener.now path) table.now (R.remaining reader.old)) (W.contents writer.old)
        (W.contents writer.new) }
    ensures nothing { IfErr result (λ e. MayBeLate table.now e ⊎ (W.contents writer.new ≡ W.contents writer.old)) }
    ensures spilled { table.now.spill ≡ true → OnErr result ((W.contents writer.new ≡ W.contents writer.old)
        ⊎ PrintsTablePart H.File.pages table.now
        (feeds_by (λ path. O.bytes opener.now path) table.now (R.remaining reader.old)) (W.contents writer.old)
        (W.contents writer.new)) }
    ensures out { OnOk result (W.is_out writer.new ≡ true) }
    ensures steady { OnOk result ((R.failures reader.new ≡ R.failures reader.old)
        × (W.failures writer.new ≡ W.failures writer.old)) }
{
    match table.shown {
        Shown::Count => tabulate_by::<R, W, _, H, P, O>(
            rt, alloc, table, CountFns, reader, writer, hook, opener,
        ),
        Shown::Sum => tabulate_by::<R, W, _, H, P, O>(
            rt, alloc, table, SumFns, reader, writer, hook, opener,
        ),
        Shown::Max => tabulate_by::<R, W, _, H, P, O>(
            rt, alloc, table, MaxFns, reader, writer, hook, opener,
        ),
        Shown::Summary => tabulate_by::<R, W, _, H, P, O>(
            rt, alloc, table, SummaryFns, reader, writer, hook, opener,
        ),
    }
}
