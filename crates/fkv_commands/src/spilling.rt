//! Tables that stand on the device of their run: they are written row by row, as their pages are read back.
ghost use Rattle.std.specs.Prelude.{◌≡◌, ◌≢◌, ◌⊎◌, ◌||◌, List, Err, false, true, if◌then◌else◌, IfOk, IfErr, IsTrue, OnOk, OnErr};
ghost use Rattle.std.specs.Io.KnownBytes.{Appends};
ghost use Rattle.fkv_functions.specs.declared.names.Name.{Name};
ghost use Rattle.fkv_either.specs.Either.{is_absent};
ghost use Rattle.fkv_streams.specs.Streams.{AppendsPrefix};
ghost use Rattle.fkv_feeds.specs.Spilling.{ArePairsOf, HasTableOf};
ghost use Rattle.fkv_feeds.specs.Tables.{IsTableOf};
ghost use Rattle.fkv_feeds.specs.Writing.{fields_of, table_text};
ghost use Rattle.fkv_commands.specs.Endings.{IsKnown, IsOfPages, Writes, feeds_by};
ghost use Rattle.fkv_commands.specs.Plans.{IsPlanOf};

use crate::making::{spilled_of_feeds, spilled_of_input};
use crate::opening::Opener;
use crate::reporting::SpilledReport;
use fkv_device::{Disk, PageReader};
use fkv_either::{EitherDevice, Keeping};
use fkv_feeds::{RowFields, SpilledRun, write_pairs};
use fkv_functions::{Fixed, Mergeable, Name, OrderFree, Refused};
use fkv_meters::{MeteredDevice, Meters, ReadProgress};
use fkv_requests::TableRequest;
use fkv_streams::{Sink, Source};
use std::alloc::Global;
use std::rt::Clock;
use std::sync::Wait;
use std::thread::Threads;

/// The run that is asked for, over the feeds that are named, or over the reader. Its table stands on the device.
fn spilled<
    R: Source,
    F: Mergeable + OrderFree<Key = Name, Input = i64> + Send + Sync,
    D: Disk + Send,
    O: Opener,
    T: Threads + Wait + Clock + Sync,
>(
    rt: &T,
    alloc: Global,
    table: &TableRequest,
    functions: F,
    reader: &mut R,
    device: D,
    opener: &O,
) -> Result<SpilledRun<F::Value, D::Receipt, D::Reader>, Refused>
where
    F::Value: Send,
    F::Output: Send,
    O::Feed: Send,
    D::Receipt: Send,
    D::Writer: Send,
    D::Reader: Send,
    requires unaudited { table.now.audit ≡ false }
    ensures ok { IsTrue D.Receipt.keeps → IfOk result (λ run. IsKnown table.now
        → HasTableOf F.Value.codec D.Receipt.keeps D.Receipt.stands F.meaning
        (feeds_by (λ path. O.bytes opener.now path) table.now (R.remaining reader.old)) run) }
    ensures ran { IfOk result (λ run. IsPlanOf table.now run.plan) }
    ensures steady { OnOk result (R.failures reader.new ≡ R.failures reader.old) }
    ensures only { IfErr result (λ e. e ≢ Refused.Unwritable) }
{
    if table.paths.is_empty() {
        spilled_of_input(alloc, table, functions, reader, device)
    } else {
        spilled_of_feeds(rt, alloc, table, functions, device, opener)
    }
}

/// Writes the table of a run from its device, and answers how much the run did.
fn write_spilled<V: Fixed + RowFields, P: PageReader, W: Sink>(
    alloc: Global,
    run: SpilledRun<V, P::Receipt, P>,
    writer: &mut W,
) -> Result<SpilledReport, Refused>
    ensures ok { (xs : List (Name × V)) → ArePairsOf V.codec P.Receipt.keeps P.Receipt.stands run.pairs xs → OnOk result
        (Appends (W.contents writer.old) (W.contents writer.new) (table_text (fields_of V.FIELDS V.field_at) xs)) }
    ensures prefix { (xs : List (Name × V)) → ArePairsOf V.codec P.Receipt.keeps P.Receipt.stands run.pairs xs → OnErr result
        (AppendsPrefix (W.contents writer.old) (W.contents writer.new) (table_text (fields_of V.FIELDS V.field_at) xs)) }
    ensures rows { (xs : List (Name × V))
        × OnOk result
        (Appends (W.contents writer.old) (W.contents writer.new) (table_text (fields_of V.FIELDS V.field_at) xs))
        × OnErr result
        (AppendsPrefix (W.contents writer.old) (W.contents writer.new) (table_text (fields_of V.FIELDS V.field_at) xs)) }
    ensures ran { IfOk result (λ ran. ran.plan ≡ run.plan) }
    ensures done { IfOk result (λ ran. (ran.keys ≡ run.keys) × (ran.counts ≡ run.counts)) }
    ensures only { IfErr result (λ e. (e ≡ Refused.Unwritable) ⊎ IsOfPages e) }
    ensures out { OnOk result (W.is_out writer.new ≡ true) }
    ensures steady { OnOk result (W.failures writer.new ≡ W.failures writer.old) }
{
    let mut run = run;
    let ran = SpilledReport::of(&run);
    match write_pairs(alloc, &mut run.pairs, writer) {
        Ok(()) => Ok(ran),
        Err(refused) => Err(refused),
    }
}

/// Makes the table on this device, else in memory, whose pages are counted, and writes it from there. Answers how much the run did.
pub(crate) fn spill_on<
    R: Source,
    W: Sink,
    F: Mergeable + OrderFree<Key = Name, Input = i64> + Send + Sync,
    D: Disk + Send,
    P: ReadProgress,
    O: Opener,
    K: Keeping + Send,
    T: Threads + Wait + Clock + Sync,
>(
    rt: &T,
    alloc: Global,
    table: &TableRequest,
    functions: F,
    reader: &mut R,
    writer: &mut W,
    folder: Option<D>,
    meters: &Meters,
    hook: &P,
    opener: &O,
) -> Result<SpilledReport, Refused>
where
    F::Value: RowFields + Send,
    F::Output: Send,
    O::Feed: Send,
    D::Receipt: Send,
    D::Writer: Send,
    D::Reader: Send,
    requires kept { (if K.keeps then is_absent folder else true) ≡ true }
    requires unaudited { table.now.audit ≡ false }
    ensures ok { OnOk result (Writes (fields_of F.Value.FIELDS F.Value.field_at)
        (λ pairs. IsTrue (K.keeps || D.Receipt.keeps) → IsKnown table.now
        → IsTableOf F.meaning (feeds_by (λ path. O.bytes opener.now path) table.now (R.remaining reader.old)) pairs)
        (Appends (W.contents writer.old) (W.contents writer.new))) }
    ensures ran { IfOk result (λ ran. IsPlanOf table.now ran.plan) }
    ensures unwritable { result ≡ Err Refused.Unwritable → Writes (fields_of F.Value.FIELDS F.Value.field_at)
        (λ pairs. IsTrue (K.keeps || D.Receipt.keeps) → IsKnown table.now
        → IsTableOf F.meaning (feeds_by (λ path. O.bytes opener.now path) table.now (R.remaining reader.old)) pairs)
        (AppendsPrefix (W.contents writer.old) (W.contents writer.new)) }
    ensures nothing { IfErr result (λ e. (e ≡ Refused.Unwritable) ⊎ IsOfPages e ⊎ (W.contents writer.new ≡ W.contents writer.old)) }
    ensures front { OnErr result ((W.contents writer.new ≡ W.contents writer.old) ⊎ Writes (fields_of F.Value.FIELDS F.Value.field_at)
        (λ pairs. IsTrue (K.keeps || D.Receipt.keeps) → IsKnown table.now
        → IsTableOf F.meaning (feeds_by (λ path. O.bytes opener.now path) table.now (R.remaining reader.old)) pairs)
        (AppendsPrefix (W.contents writer.old) (W.contents writer.new))) }
    ensures out { OnOk result (W.is_out writer.new ≡ true) }
    ensures steady { OnOk result ((R.failures reader.new ≡ R.failures reader.old)
        × (W.failures writer.new ≡ W.failures writer.old)) }
{
    let device = MeteredDevice::new(EitherDevice::<D, K>::new(alloc, folder), meters);
    let made = spilled(rt, alloc, table, functions, reader, device, opener);
    hook.end();
    match made {
        Ok(run) => write_spilled(alloc, run, writer),
        Err(refused) => Err(refused),
    }
}
