//! Updates that read no page: where one would have to be read they are merges.
ghost use Rattle.std.specs.Prelude.{◌≡◌, ◌≤◌, ◌<◌, ℕ, true, None, Ok, IsTrue, IfOk, IfErr, OnErr, IfSome, IsSome};
ghost use Rattle.fkv_operations.specs.After.{key_of, is_merge};
ghost use Rattle.fkv_operations.specs.declared.operations.KeyedOp.TheVariants.{Rmw};
ghost use Rattle.fkv_partition.specs.Views.{partition_of};
ghost use Rattle.fkv_alone.specs.Causes.{CanFailToRead, CanFailToWrite};
ghost use Rattle.fkv_local.specs.Causing.{IsCausedBy};
ghost use Rattle.fkv_local.specs.Resting.{IsIdle, StaysIdle};
ghost use Rattle.fkv_local.specs.Moving.{IsPassed};
ghost use Rattle.fkv_local.specs.Storing.{Runs, Updates};
ghost use Rattle.fkv_local.specs.Refusing.{IsStopped, IsRefusedBy};

use crate::barring::NoPages;
use crate::driving::{run_by_events, tidy_at_times, try_write_in_place};
use crate::parts::{PagedPartition, SLOT, Shard, Terms};
use fkv_device::Disk;
use fkv_functions::{Mergeable, Refused};
use fkv_operations::{Answer, Clock, KeyedOp, KeyedOpOf};

/// Makes an operation as [`run_by_events`] does, but reads no page: `None` where one would have to be read, and then the operation is
/// given up, which is without effect. None of a merge has to be.
fn run_in_memory<F: Mergeable, D: Disk>(
    terms: &Terms<F>,
    part: &mut PagedPartition<F, D>,
    op: KeyedOpOf<F>,
    clock: &mut Clock,
) -> Result<Option<Answer<F::Output>>, Refused>
    requires idle { IsIdle part.old.partition 0 }
    requires own { partition_of part.old.partition.count (F.code (key_of op)) ≡ part.old.partition.number }
    requires past { part.old.partition.moment ≤ clock.old }
    requires numbered { D.Writer.next part.old.writer ≤ clock.old }
    requires begun { 0 < clock.old }
    ensures runs { IfOk result (λ told. IfSome told (λ answer.
        Runs D.Receipt.keeps F.Key.cmp F.meaning part.old.partition part.new.partition op (Ok answer))) }
    ensures stays { IfOk result (λ told. told ≡ None
        → StaysIdle D.Receipt.keeps F.Key.cmp part.old.partition part.new.partition) }
    ensures steady { IfOk result (λ told. told ≡ None
        → D.Writer.failures part.new.writer ≡ D.Writer.failures part.old.writer) }
    ensures left { OnErr result (StaysIdle D.Receipt.keeps F.Key.cmp part.old.partition part.new.partition) }
    ensures merges { is_merge op ≡ true → IfOk result IsSome }
    ensures passed { IsPassed part.new.partition.moment clock.old clock.new }
    ensures numbered { D.Writer.next part.new.writer ≤ clock.new }
    ensures caused { IsTrue D.Receipt.keeps → IfErr result
        (IsCausedBy (CanFailToWrite D.Writer.next D.Writer.can_fail) (CanFailToRead D.Receipt.stands D.Reader.can_fail)) }
    ensures told { IfErr result (λ e. (reads : ℕ) → IsStopped D.Receipt.keeps F.MERGES
        op part.new.partition.records.log.tail clock.new
        (record { writes = D.Writer.failures part.old.writer; reads = reads })
        (record { writes = D.Writer.failures part.new.writer; reads = reads }) e) }
{
    let mut pages = NoPages::new();
    match run_by_events(terms, part, &mut pages, op, clock) {
        Ok(answer) => Ok(Some(answer)),
        Err(refused) => {
            if pages.asked() > 0 {
                Ok(None)
            } else {
                Err(refused)
            }
        }
    }
}

/// Makes an update that was not done in one call: as [`run_by_events`] does; or, where a page would have to be read, as a merge. It is
/// a merge with no look at its key's value where that is in no record in memory, and where the last one is a delta, since a page was
/// to be read when that was appended.
fn merge_for_page<F: Mergeable, D: Disk>(
    terms: &Terms<F>,
    part: &mut PagedPartition<F, D>,
    key: &F::Key,
    input: &F::Input,
    clock: &mut Clock,
) -> Result<Answer<F::Output>, Refused>
    requires merging { IsTrue F.MERGES }
    requires idle { IsIdle part.old.partition 0 }
    requires own { partition_of part.old.partition.count (F.code key.now) ≡ part.old.partition.number }
    requires past { part.old.partition.moment ≤ clock.old }
    requires numbered { D.Writer.next part.old.writer ≤ clock.old }
    requires begun { 0 < clock.old }
    ensures runs { Updates D.Receipt.keeps F.Key.cmp F.meaning part.old.partition part.new.partition key.now input.now result }
    ensures passed { IsPassed part.new.partition.moment clock.old clock.new }
    ensures numbered { D.Writer.next part.new.writer ≤ clock.new }
    ensures caused { IsTrue D.Receipt.keeps → IfErr result
        (IsCausedBy (CanFailToWrite D.Writer.next D.Writer.can_fail) (CanFailToRead D.Receipt.stands D.Reader.can_fail)) }
    ensures told { IfErr result (λ e. (reads : ℕ) → IsStopped {V = F.Value} D.Receipt.keeps F.MERGES
        (Rmw key.now input.now) part.new.partition.records.log.tail clock.new
        (record { writes = D.Writer.failures part.old.writer; reads = reads })
        (record { writes = D.Writer.failures part.new.writer; reads = reads }) e) }
{
    if !part.partition.may_need_page(SLOT, &terms.functions, key) {
        let rmw = KeyedOp::Rmw(*key, *input);
        match run_in_memory(terms, part, rmw, clock) {
            Ok(Some(answer)) => return Ok(answer),
            Ok(None) => {}
            Err(refused) => return Err(refused),
        }
    }
    let merge = KeyedOp::Merge(*key, *input);
    match run_in_memory(terms, part, merge, clock) {
        Ok(Some(answer)) => Ok(answer),
        Ok(None) => unreachable!(),
        Err(refused) => Err(refused),
    }
}

/// Makes an update in one call, where the key's last record may be changed in place; else by events, and where a page would have to
/// be read, and the functions merge, it is made a merge, which reads none.
pub fn update_or_merge<F: Mergeable, D: Disk>(
    terms: &Terms<F>,
    shard: &mut Shard<F, D>,
    key: &F::Key,
    input: &F::Input,
    clock: &mut Clock,
) -> Result<Answer<F::Output>, Refused>
    requires idle { IsIdle shard.old.part.partition 0 }
    requires own { partition_of shard.old.part.partition.count (F.code key.now) ≡ shard.old.part.partition.number }
    requires past { shard.old.part.partition.moment ≤ clock.old }
    requires numbered { D.Writer.next shard.old.part.writer ≤ clock.old }
    requires begun { 0 < clock.old }
    ensures runs { Updates D.Receipt.keeps F.Key.cmp F.meaning shard.old.part.partition shard.new.part.partition
        key.now input.now result }
    ensures passed { IsPassed shard.new.part.partition.moment clock.old clock.new }
    ensures numbered { D.Writer.next shard.new.part.writer ≤ clock.new }
    ensures caused { IsTrue D.Receipt.keeps → IfErr result
        (IsCausedBy (CanFailToWrite D.Writer.next D.Writer.can_fail) (CanFailToRead D.Receipt.stands D.Reader.can_fail)) }
    ensures told { IfErr result (IsRefusedBy {V = F.Value} D.Receipt.keeps F.MERGES terms.now.keeps_log
        D.Writer.failures D.Reader.failures (Rmw key.now input.now) shard.new.part.partition.records.log.tail clock.new
        shard.old.part.writer shard.old.reader shard.new.part.writer shard.new.reader) }
    ensures unread { IsTrue F.MERGES → IsTrue terms.now.keeps_log → shard.new.reader ≡ shard.old.reader }
{
    match tidy_at_times(terms, shard, clock) {
        Ok(()) => {}
        Err(refused) => return Err(refused),
    }
    let rmw = KeyedOp::Rmw(*key, *input);
    match try_write_in_place(&terms.functions, &mut shard.part, &rmw, clock) {
        Ok(Some(answer)) => return Ok(answer),
        Ok(None) => {}
        Err(refused) => return Err(refused),
    }
    if F::MERGES {
        merge_for_page(terms, &mut shard.part, key, input, clock)
    } else {
        run_by_events(terms, &mut shard.part, &mut shard.reader, rmw, clock)
    }
}
