//! One operation of one partition, driven to its end.
ghost use Rattle.std.specs.Prelude.{◌≡◌, ◌≢◌, ◌<◌, ◌≤◌, ◌+◌, ◌-◌, ◌*◌, ◌^◌, ℕ, None, Ok, true, false, IsTrue, IfOk, IfErr, IfSome, OnOk, OnErr};
ghost use Rattle.fkv_operations.specs.After.{key_of};
ghost use Rattle.fkv_operations.specs.declared.operations.KeyedOp.TheVariants.{Read};
ghost use Rattle.fkv_hybrid.specs.Views.{IsFull};
ghost use Rattle.fkv_partition.specs.Views.{partition_of};
ghost use Rattle.fkv_partition.specs.Events.{IsPassedOn};
ghost use Rattle.fkv_alone.specs.Ending.{Ends};
ghost use Rattle.fkv_alone.specs.Bound.{may_load, loads_of, NoneClaims};
ghost use Rattle.fkv_alone.specs.Causes.{CanFailToRead, CanFailToWrite};
ghost use Rattle.fkv_local.specs.Causing.{IsCausedBy};
ghost use Rattle.fkv_local.specs.Resting.{IsIdle, StaysIdle};
ghost use Rattle.fkv_local.specs.Moving.{IsPassed, IsMoveRefusal, IsSameLog};
ghost use Rattle.fkv_local.specs.Reading.{records_of};
ghost use Rattle.fkv_local.specs.Failures.{failures_of, IsBeside};
ghost use Rattle.fkv_local.specs.Storing.{Runs};
ghost use Rattle.fkv_local.specs.Refusing.{IsStopped, IsRefusedBy};

use crate::compacting::compact_where_due;
use crate::moving::tidy;
use crate::parts::{PagedPartition, SLOT, Shard, Terms};
use fkv_alone::run_alone;
use fkv_device::{Disk, PageReader};
use fkv_functions::{Mergeable, Refused};
use fkv_operations::{Answer, AnswerOf, Clock, KeyedOp, KeyedOpOf};
use fkv_partition::{Progress, ProgressOf};

/// An operation that waits is in its session's lowest context, where nothing else is open.
const CONTEXT: usize = 0;

/// More events than a clock has moments.
const NO_LIMIT: u64 = u64::MAX;

/// Makes an operation in a session that has nothing open, by the events of its partition, until it is done, waits or is refused.
fn once<F: Mergeable, D: Disk, P: PageReader<Receipt = D::Receipt>>(
    functions: &F,
    part: &mut PagedPartition<F, D>,
    reader: &mut P,
    op: KeyedOpOf<F>,
    clock: &mut Clock,
) -> Result<ProgressOf<F, D::Receipt>, Refused>
    requires past { part.old.partition.moment ≤ clock.old }
    ensures ends { Ends D.Receipt.keeps F.Key.cmp F.parts.joined F.meaning F.code op part.old.partition part.new.partition 0
        (2 ^ 64 - 1) clock.old clock.new (P.failures reader.old) (P.failures reader.new) result }
    ensures unread { may_load op ≡ false → reader.new ≡ reader.old }
    ensures loads { IsTrue D.Receipt.keeps → NoneClaims part.old.partition
        → P.reads reader.new ≤ P.reads reader.old + loads_of F.code part.old.partition.records op }
    ensures caused { P.failures reader.new ≢ P.failures reader.old → CanFailToRead D.Receipt.stands P.can_fail }
    ensures rest { IsPassedOn part.old.partition part.new.partition }
    ensures passed { IsPassed part.new.partition.moment clock.old clock.new }
    ensures small { clock.new < 2 ^ 64 }
    ensures same_writer { part.new.writer ≡ part.old.writer }
    ensures merges { part.old.partition.merges ≡ F.MERGES }
{
    // which says that what it has of the functions is theirs
    let _merges = part.partition.merges();
    let told = run_alone(
        &mut part.partition,
        SLOT,
        op,
        functions,
        reader,
        clock,
        NO_LIMIT,
    )
    .progress;
    // which says that it has 64 bits
    let _last = clock.last();
    told
}

/// Makes an operation in a session that has nothing open, by the events of its partition. What it asks for is built or read. Answers
/// `None` where it has to wait, which is for room alone, and then it is given up, which is without effect.
fn try_by_events<F: Mergeable, D: Disk, P: PageReader<Receipt = D::Receipt>>(
    functions: &F,
    part: &mut PagedPartition<F, D>,
    reader: &mut P,
    op: KeyedOpOf<F>,
    clock: &mut Clock,
) -> Result<Option<Answer<F::Output>>, Refused>
    requires idle { IsIdle part.old.partition 0 }
    requires own { partition_of part.old.partition.count (F.code (key_of op)) ≡ part.old.partition.number }
    requires past { part.old.partition.moment ≤ clock.old }
    requires numbered { D.Writer.next part.old.writer ≤ clock.old }
    requires begun { 0 < clock.old }
    ensures runs { IfOk result (λ told. IfSome told (λ answer.
        Runs D.Receipt.keeps F.Key.cmp F.meaning part.old.partition part.new.partition op (Ok answer))) }
    ensures stays { IfOk result (λ told. told ≡ None
        → StaysIdle D.Receipt.keeps F.Key.cmp part.old.partition part.new.partition) }
    ensures full { IfOk result (λ told. told ≡ None → IsFull part.old.partition.records.log) }
    ensures same_log { IfOk result (λ told. told ≡ None → IsSameLog D.Receipt.keeps part.old.partition part.new.partition) }
    ensures loads { IsTrue D.Receipt.keeps → P.reads reader.new
        ≤ P.reads reader.old + records_of F.code part.old.partition.records (key_of op) }
    ensures steady { OnOk result (P.failures reader.new ≡ P.failures reader.old) }
    ensures left { OnErr result (StaysIdle D.Receipt.keeps F.Key.cmp part.old.partition part.new.partition) }
    ensures passed { IsPassed part.new.partition.moment clock.old clock.new }
    ensures numbered { D.Writer.next part.new.writer ≤ clock.new }
    ensures caused { IsTrue D.Receipt.keeps → IfErr result
        (IsCausedBy (CanFailToWrite D.Writer.next D.Writer.can_fail) (CanFailToRead D.Receipt.stands P.can_fail)) }
    ensures unread { may_load op ≡ false → reader.new ≡ reader.old }
    ensures same_writer { part.new.writer ≡ part.old.writer }
    ensures told { IfErr result (IsStopped D.Receipt.keeps F.MERGES
        op part.new.partition.records.log.tail clock.new
        (failures_of D.Writer.failures P.failures part.old.writer reader.old)
        (failures_of D.Writer.failures P.failures part.new.writer reader.new)) }
{
    // which says that no operation waits to confirm an entry
    part.partition.facts();
    let told = match once(functions, part, reader, op, clock) {
        Ok(told) => told,
        Err(refused) => return Err(refused),
    };
    match &told {
        Progress::Done(answer, _) => Ok(Some(*answer)),
        Progress::Waits(_) => {
            let _given_up = part.partition.give_up_untimed(SLOT, CONTEXT);
            Ok(None)
        }
        Progress::Next | Progress::NeedsBuild(_) | Progress::NeedsLoad(_, _) => unreachable!(),
    }
}

/// Makes an operation in a session that has nothing open, by the events of its partition, to its end. What it asks for is built
/// or read. Where it finds no room it is given up, which is without effect, pages move on, and it begins anew: then there is.
pub fn run_by_events<F: Mergeable, D: Disk, P: PageReader<Receipt = D::Receipt>>(
    terms: &Terms<F>,
    part: &mut PagedPartition<F, D>,
    reader: &mut P,
    op: KeyedOpOf<F>,
    clock: &mut Clock,
) -> Result<Answer<F::Output>, Refused>
    requires idle { IsIdle part.old.partition 0 }
    requires own { partition_of part.old.partition.count (F.code (key_of op)) ≡ part.old.partition.number }
    requires past { part.old.partition.moment ≤ clock.old }
    requires numbered { D.Writer.next part.old.writer ≤ clock.old }
    requires begun { 0 < clock.old }
    ensures runs { Runs D.Receipt.keeps F.Key.cmp F.meaning part.old.partition part.new.partition op result }
    // one for each record of the class, and once more where it begins anew
    ensures loads { IsTrue D.Receipt.keeps → P.reads reader.new
        ≤ P.reads reader.old + 2 * records_of F.code part.old.partition.records (key_of op) }
    ensures passed { IsPassed part.new.partition.moment clock.old clock.new }
    ensures numbered { D.Writer.next part.new.writer ≤ clock.new }
    ensures caused { IsTrue D.Receipt.keeps → IfErr result
        (IsCausedBy (CanFailToWrite D.Writer.next D.Writer.can_fail) (CanFailToRead D.Receipt.stands P.can_fail)) }
    ensures unread { may_load op ≡ false → reader.new ≡ reader.old }
    ensures told { IfErr result (IsStopped D.Receipt.keeps F.MERGES
        op part.new.partition.records.log.tail clock.new
        (failures_of D.Writer.failures P.failures part.old.writer reader.old)
        (failures_of D.Writer.failures P.failures part.new.writer reader.new)) }
{
    let first = try_by_events(&terms.functions, part, reader, op, clock);
    match first {
        Ok(Some(answer)) => return Ok(answer),
        Ok(None) => {}
        Err(refused) => return Err(refused),
    }
    match tidy(terms.alloc, part, clock) {
        Ok(()) => {}
        Err(refused) => return Err(refused),
    }
    let second = try_by_events(&terms.functions, part, reader, op, clock);
    match second {
        Ok(Some(answer)) => Ok(answer),
        Ok(None) => unreachable!(),
        Err(refused) => Err(refused),
    }
}

/// Makes an operation in one call, where it writes where its key's last record stands. Answers `None` where it does not, and then
/// nothing has changed. Refused: `Worn` where no moment is left.
#[inline(always)]
pub fn try_write_in_place<F: Mergeable, D: Disk>(
    functions: &F,
    part: &mut PagedPartition<F, D>,
    op: &KeyedOpOf<F>,
    clock: &mut Clock,
) -> Result<Option<AnswerOf<F>>, Refused>
    requires idle { IsIdle part.old.partition 0 }
    requires past { part.old.partition.moment ≤ clock.old }
    requires numbered { D.Writer.next part.old.writer ≤ clock.old }
    // on any device
    ensures done { IfOk result (λ told. IfSome told (λ answer. Runs true F.Key.cmp F.meaning
        part.old.partition part.new.partition op.now (Ok answer))) }
    ensures same { IfOk result (λ told. told ≡ None → part.new.partition ≡ part.old.partition) }
    ensures refused { OnErr result (part.new.partition ≡ part.old.partition) }
    ensures passed { IsPassed part.new.partition.moment clock.old clock.new }
    ensures numbered { D.Writer.next part.new.writer ≤ clock.new }
    ensures caused { IsTrue D.Receipt.keeps → IfErr result
        (IsCausedBy (CanFailToWrite D.Writer.next D.Writer.can_fail) (CanFailToRead D.Receipt.stands D.Reader.can_fail)) }
    ensures same_writer { part.new.writer ≡ part.old.writer }
    ensures told { IfErr result (λ e. (e ≡ Refused.Worn) × (2 ^ 64 ≤ clock.new + 2)) }
{
    let (issued, now) = match clock.tick_twice() {
        Ok(moments) => moments,
        Err(refused) => return Err(refused),
    };
    part.partition.facts();
    match part
        .partition
        .try_write_in_place(SLOT, op, functions, issued, now)
    {
        Some(answer) => Ok(Some(answer)),
        None => Ok(None),
    }
}

/// Counts an operation, and before every 64th moves the partition's pages on, where a record was appended since, and compacts its
/// log where that is due. Refused as [`tidy`] is.
#[inline(always)]
pub fn tidy_at_times<F: Mergeable, D: Disk>(
    terms: &Terms<F>,
    shard: &mut Shard<F, D>,
    clock: &mut Clock,
) -> Result<(), Refused>
    requires idle { IsIdle shard.old.part.partition 0 }
    requires past { shard.old.part.partition.moment ≤ clock.old }
    requires numbered { D.Writer.next shard.old.part.writer ≤ clock.old }
    ensures stays { StaysIdle D.Receipt.keeps F.Key.cmp shard.old.part.partition shard.new.part.partition }
    ensures passed { IsPassed shard.new.part.partition.moment clock.old clock.new }
    ensures numbered { D.Writer.next shard.new.part.writer ≤ clock.new }
    ensures caused { IsTrue D.Receipt.keeps → IfErr result
        (IsCausedBy (CanFailToWrite D.Writer.next D.Writer.can_fail) (CanFailToRead D.Receipt.stands D.Reader.can_fail)) }
    ensures same_reader { OnErr result (shard.new.reader ≡ shard.old.reader) }
    ensures unread { IsTrue terms.now.keeps_log → shard.new.reader ≡ shard.old.reader }
    ensures same_log { IsTrue terms.now.keeps_log
        → IsSameLog D.Receipt.keeps shard.old.part.partition shard.new.part.partition }
    ensures beside { OnOk result (IsBeside terms.now.keeps_log
        (failures_of D.Writer.failures D.Reader.failures shard.old.part.writer shard.old.reader)
        (failures_of D.Writer.failures D.Reader.failures shard.new.part.writer shard.new.reader)) }
    ensures told { IfErr result (IsMoveRefusal clock.new (D.Writer.failures shard.old.part.writer)
        (D.Writer.failures shard.new.part.writer)) }
{
    shard.part.operations = shard.part.operations.wrapping_add(1);
    if shard.part.operations % 64 != 0 {
        return Ok(());
    }
    tidy_where_grown(terms, shard, clock)
}

/// Moves the partition's pages on where a record was appended since they were, and compacts its log where that is due. Refused as
/// [`tidy`] is.
#[inline(never)]
fn tidy_where_grown<F: Mergeable, D: Disk>(
    terms: &Terms<F>,
    shard: &mut Shard<F, D>,
    clock: &mut Clock,
) -> Result<(), Refused>
    requires idle { IsIdle shard.old.part.partition 0 }
    requires past { shard.old.part.partition.moment ≤ clock.old }
    requires numbered { D.Writer.next shard.old.part.writer ≤ clock.old }
    ensures stays { StaysIdle D.Receipt.keeps F.Key.cmp shard.old.part.partition shard.new.part.partition }
    ensures passed { IsPassed shard.new.part.partition.moment clock.old clock.new }
    ensures numbered { D.Writer.next shard.new.part.writer ≤ clock.new }
    ensures caused { IsTrue D.Receipt.keeps → IfErr result
        (IsCausedBy (CanFailToWrite D.Writer.next D.Writer.can_fail) (CanFailToRead D.Receipt.stands D.Reader.can_fail)) }
    ensures same_reader { OnErr result (shard.new.reader ≡ shard.old.reader) }
    ensures unread { IsTrue terms.now.keeps_log → shard.new.reader ≡ shard.old.reader }
    ensures same_log { IsTrue terms.now.keeps_log
        → IsSameLog D.Receipt.keeps shard.old.part.partition shard.new.part.partition }
    ensures beside { OnOk result (IsBeside terms.now.keeps_log
        (failures_of D.Writer.failures D.Reader.failures shard.old.part.writer shard.old.reader)
        (failures_of D.Writer.failures D.Reader.failures shard.new.part.writer shard.new.reader)) }
    ensures told { IfErr result (IsMoveRefusal clock.new (D.Writer.failures shard.old.part.writer)
        (D.Writer.failures shard.new.part.writer)) }
{
    let tail = shard.part.partition.tail();
    if shard.part.tidied == tail {
        return Ok(());
    }
    match tidy(terms.alloc, &mut shard.part, clock) {
        Ok(()) => shard.part.tidied = tail,
        Err(refused) => return Err(refused),
    }
    compact_where_due(terms, shard, clock);
    Ok(())
}

/// Makes an operation in a session that has nothing open, to its end, after pages have moved on where they are due. Refused as
/// [`LocalStore::run`](crate::LocalStore::run) is.
#[inline(always)]
pub fn operate<F: Mergeable, D: Disk>(
    terms: &Terms<F>,
    shard: &mut Shard<F, D>,
    op: KeyedOpOf<F>,
    clock: &mut Clock,
) -> Result<Answer<F::Output>, Refused>
    requires idle { IsIdle shard.old.part.partition 0 }
    requires own { partition_of shard.old.part.partition.count (F.code (key_of op)) ≡ shard.old.part.partition.number }
    requires past { shard.old.part.partition.moment ≤ clock.old }
    requires numbered { D.Writer.next shard.old.part.writer ≤ clock.old }
    requires begun { 0 < clock.old }
    ensures runs { Runs D.Receipt.keeps F.Key.cmp F.meaning shard.old.part.partition shard.new.part.partition op result }
    ensures unread { may_load op ≡ false → IsTrue terms.now.keeps_log → shard.new.reader ≡ shard.old.reader }
    ensures loads { IsTrue D.Receipt.keeps → IsTrue terms.now.keeps_log → D.Reader.reads shard.new.reader
        ≤ D.Reader.reads shard.old.reader + 2 * records_of F.code shard.old.part.partition.records (key_of op) }
    ensures passed { IsPassed shard.new.part.partition.moment clock.old clock.new }
    ensures numbered { D.Writer.next shard.new.part.writer ≤ clock.new }
    ensures caused { IsTrue D.Receipt.keeps → IfErr result
        (IsCausedBy (CanFailToWrite D.Writer.next D.Writer.can_fail) (CanFailToRead D.Receipt.stands D.Reader.can_fail)) }
    ensures told { IfErr result (IsRefusedBy D.Receipt.keeps F.MERGES terms.now.keeps_log
        D.Writer.failures D.Reader.failures op shard.new.part.partition.records.log.tail clock.new
        shard.old.part.writer shard.old.reader shard.new.part.writer shard.new.reader) }
{
    match op {
        KeyedOp::Read(key, input) => read(terms, shard, &key, &input, clock),
        KeyedOp::Upsert(..) | KeyedOp::Rmw(..) | KeyedOp::Delete(_) | KeyedOp::Merge(..) => {
            write(terms, shard, &op, clock)
        }
    }
}

/// Makes a read as [`operate`] does, in one call where no page has to be read for it: then it takes no moment.
#[inline(always)]
fn read<F: Mergeable, D: Disk>(
    terms: &Terms<F>,
    shard: &mut Shard<F, D>,
    key: &F::Key,
    input: &F::Input,
    clock: &mut Clock,
) -> Result<Answer<F::Output>, Refused>
    requires idle { IsIdle shard.old.part.partition 0 }
    requires own { partition_of shard.old.part.partition.count (F.code key.now) ≡ shard.old.part.partition.number }
    requires past { shard.old.part.partition.moment ≤ clock.old }
    requires numbered { D.Writer.next shard.old.part.writer ≤ clock.old }
    requires begun { 0 < clock.old }
    ensures runs { Runs D.Receipt.keeps F.Key.cmp F.meaning shard.old.part.partition shard.new.part.partition
        (Read key.now input.now) result }
    ensures loads { IsTrue D.Receipt.keeps → IsTrue terms.now.keeps_log → D.Reader.reads shard.new.reader
        ≤ D.Reader.reads shard.old.reader + 2 * records_of F.code shard.old.part.partition.records key.now }
    ensures passed { IsPassed shard.new.part.partition.moment clock.old clock.new }
    ensures numbered { D.Writer.next shard.new.part.writer ≤ clock.new }
    ensures caused { IsTrue D.Receipt.keeps → IfErr result
        (IsCausedBy (CanFailToWrite D.Writer.next D.Writer.can_fail) (CanFailToRead D.Receipt.stands D.Reader.can_fail)) }
    ensures told { IfErr result (IsRefusedBy {V = F.Value} D.Receipt.keeps F.MERGES terms.now.keeps_log
        D.Writer.failures D.Reader.failures (Read key.now input.now) shard.new.part.partition.records.log.tail clock.new
        shard.old.part.writer shard.old.reader shard.new.part.writer shard.new.reader) }
{
    match tidy_at_times(terms, shard, clock) {
        Ok(()) => {}
        Err(refused) => return Err(refused),
    }
    let functions = &terms.functions;
    match shard
        .part
        .partition
        .try_read_in_memory(SLOT, key, input, functions)
    {
        Some(answer) => Ok(answer),
        None => {
            let read = KeyedOp::Read(*key, *input);
            run_by_events(terms, &mut shard.part, &mut shard.reader, read, clock)
        }
    }
}

/// Makes an operation as [`operate`] does, in one call where it writes where the key's last record stands.
#[inline(always)]
fn write<F: Mergeable, D: Disk>(
    terms: &Terms<F>,
    shard: &mut Shard<F, D>,
    op: &KeyedOpOf<F>,
    clock: &mut Clock,
) -> Result<Answer<F::Output>, Refused>
    requires idle { IsIdle shard.old.part.partition 0 }
    requires own { partition_of shard.old.part.partition.count (F.code (key_of op.now)) ≡ shard.old.part.partition.number }
    requires past { shard.old.part.partition.moment ≤ clock.old }
    requires numbered { D.Writer.next shard.old.part.writer ≤ clock.old }
    requires begun { 0 < clock.old }
    ensures runs { Runs D.Receipt.keeps F.Key.cmp F.meaning shard.old.part.partition shard.new.part.partition op.now result }
    ensures unread { may_load op.now ≡ false → IsTrue terms.now.keeps_log → shard.new.reader ≡ shard.old.reader }
    ensures loads { IsTrue D.Receipt.keeps → IsTrue terms.now.keeps_log → D.Reader.reads shard.new.reader
        ≤ D.Reader.reads shard.old.reader + 2 * records_of F.code shard.old.part.partition.records (key_of op.now) }
    ensures passed { IsPassed shard.new.part.partition.moment clock.old clock.new }
    ensures numbered { D.Writer.next shard.new.part.writer ≤ clock.new }
    ensures caused { IsTrue D.Receipt.keeps → IfErr result
        (IsCausedBy (CanFailToWrite D.Writer.next D.Writer.can_fail) (CanFailToRead D.Receipt.stands D.Reader.can_fail)) }
    ensures told { IfErr result (IsRefusedBy D.Receipt.keeps F.MERGES terms.now.keeps_log
        D.Writer.failures D.Reader.failures op.now shard.new.part.partition.records.log.tail clock.new
        shard.old.part.writer shard.old.reader shard.new.part.writer shard.new.reader) }
{
    match tidy_at_times(terms, shard, clock) {
        Ok(()) => {}
        Err(refused) => return Err(refused),
    }
    match try_write_in_place(&terms.functions, &mut shard.part, op, clock) {
        Ok(Some(answer)) => Ok(answer),
        Ok(None) => run_by_events(terms, &mut shard.part, &mut shard.reader, *op, clock),
        Err(refused) => Err(refused),
    }
}
