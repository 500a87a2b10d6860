//! How a partition's pages move: to where they are read only, to the device, and out of their frames.
//!
//! A partition keeps its newest records in memory. ReadOnly follows the tail, each page below it is written, and Head follows so that
//! the page after the tail's finds its frame free. Whatever is refused on the way, the map stays, and the next call takes up where
//! this one ended.
ghost use Rattle.std.specs.Prelude.{◌≡◌, ◌<◌, ◌≤◌, ◌+◌, ◌-◌, ◌/◌, ◌^◌, false, IsTrue, IfOk, IfErr, OnOk};
ghost use Rattle.fkv_records.specs.Places.{page_at, start_at};
ghost use Rattle.fkv_regions.specs.Settled.{IsSettled};
ghost use Rattle.fkv_regions.specs.RegionsView.{refreshed};
ghost use Rattle.fkv_hybrid.specs.Views.{IsFull};
ghost use Rattle.fkv_partition.specs.KeyBeginning.{IsEntered};
ghost use Rattle.fkv_alone.specs.Causes.{CanFailToRead, CanFailToWrite};
ghost use Rattle.fkv_local.specs.Causing.{IsCausedBy};
ghost use Rattle.fkv_local.specs.Moving.{IsTidied, IsOnward, StaysSettled, IsSameLog, IsWritten, IsPassed, IsMoveRefusal};

use crate::parts::{PagedPartition, SLOT};
use fkv_device::{Disk, Receipt, Written};
use fkv_functions::{Mergeable, Refused};
use fkv_operations::Clock;
use fkv_partition::{Partition, kept_page, read_only_page};
use fkv_records::Address;
use std::alloc::Global;

/// Refreshes the session.
fn refresh<F: Mergeable, R: Receipt>(partition: &mut Partition<F, R>, now: u64)
    requires entered { IsEntered partition.old 0 }
    requires later { partition.old.moment < now }
    ensures tidied { IsTidied R.keeps F.Key.cmp partition.old partition.new }
    ensures onward { IsOnward partition.old partition.new }
    ensures refreshed { partition.new.records.log.regions ≡ refreshed partition.old.records.log.regions 0 }
    ensures same_log { IsSameLog R.keeps partition.old partition.new }
    ensures moment { partition.new.moment ≤ now }
{
    partition.facts();
    let _refreshed = partition.refresh(SLOT, now);
}

/// Moves ReadOnly to a page, where that is due, and refreshes the session. Refused: `Worn` where no two moments are left.
fn freeze<F: Mergeable, R: Receipt>(
    partition: &mut Partition<F, R>,
    page: u64,
    clock: &mut Clock,
) -> Result<(), Refused>
    requires entered { IsEntered partition.old 0 }
    requires past { partition.old.moment ≤ clock.old }
    ensures tidied { IsTidied R.keeps F.Key.cmp partition.old partition.new }
    ensures onward { IsOnward partition.old partition.new }
    ensures settled { StaysSettled partition.old partition.new }
    ensures frozen { OnOk result (IsSettled partition.old.records.log.regions
        → page ≤ page_at partition.old.records.log.regions.bits partition.old.records.log.tail
        → start_at partition.old.records.log.regions.bits page
        ≤ partition.new.records.log.regions.offsets.read_only) }
    ensures same_log { IsSameLog R.keeps partition.old partition.new }
    ensures passed { IsPassed partition.new.moment clock.old clock.new }
    ensures told { IfErr result (λ e. (e ≡ Refused.Worn) × (2 ^ 64 ≤ clock.new + 2)) }
{
    let (shifted, refreshed) = match clock.tick_twice() {
        Ok(moments) => moments,
        Err(refused) => return Err(refused),
    };
    partition.facts();
    let _passed = partition.shift_read_only(page, shifted);
    refresh(partition, refreshed);
    Ok(())
}

/// Moves Head to a page, where that is due, and refreshes the session. Refused: `Worn` where no two moments are left.
fn evict<F: Mergeable, R: Receipt>(
    partition: &mut Partition<F, R>,
    page: u64,
    clock: &mut Clock,
) -> Result<(), Refused>
    requires entered { IsEntered partition.old 0 }
    requires past { partition.old.moment ≤ clock.old }
    ensures tidied { IsTidied R.keeps F.Key.cmp partition.old partition.new }
    ensures onward { IsOnward partition.old partition.new }
    ensures settled { StaysSettled partition.old partition.new }
    ensures evicted { OnOk result (IsSettled partition.old.records.log.regions
        → page ≤ partition.old.records.log.regions.flushed
        → start_at partition.old.records.log.regions.bits page
        ≤ partition.new.records.log.regions.offsets.head) }
    ensures same_log { IsSameLog R.keeps partition.old partition.new }
    ensures passed { IsPassed partition.new.moment clock.old clock.new }
    ensures told { IfErr result (λ e. (e ≡ Refused.Worn) × (2 ^ 64 ≤ clock.new + 2)) }
{
    let (shifted, refreshed) = match clock.tick_twice() {
        Ok(moments) => moments,
        Err(refused) => return Err(refused),
    };
    partition.facts();
    let _passed = partition.shift_head(page, shifted);
    refresh(partition, refreshed);
    Ok(())
}

/// Writes the lowest page that is not flushed, where it waits. `Ok` tells whether it did. Refused: `Worn`, `NoMemory`,
/// and as the device refuses the page.
fn flush<F: Mergeable, D: Disk>(
    alloc: Global,
    part: &mut PagedPartition<F, D>,
    clock: &mut Clock,
) -> Result<bool, Refused>
    requires past { part.old.partition.moment ≤ clock.old }
    requires numbered { D.Writer.next part.old.writer ≤ clock.old }
    ensures tidied { IsTidied D.Receipt.keeps F.Key.cmp part.old.partition part.new.partition }
    ensures onward { IsOnward part.old.partition part.new.partition }
    ensures settled { StaysSettled part.old.partition part.new.partition }
    ensures passed { IsPassed part.new.partition.moment clock.old clock.new }
    ensures numbered { D.Writer.next part.new.writer ≤ clock.new }
    ensures caused { IsTrue D.Receipt.keeps → IfErr result
        (IsCausedBy (CanFailToWrite D.Writer.next D.Writer.can_fail) (CanFailToRead D.Receipt.stands D.Reader.can_fail)) }
    ensures same_log { IsSameLog D.Receipt.keeps part.old.partition part.new.partition }
    ensures same_offsets { part.new.partition.records.log.regions.offsets ≡ part.old.partition.records.log.regions.offsets }
    ensures later { OnOk result (clock.old < clock.new) }
    ensures written { IfOk result (λ did. did ≡ false → IsWritten part.new.partition) }
    ensures steady { OnOk result (D.Writer.failures part.new.writer ≡ D.Writer.failures part.old.writer) }
    ensures told { IfErr result (IsMoveRefusal clock.new (D.Writer.failures part.old.writer)
        (D.Writer.failures part.new.writer)) }
{
    let taken = match clock.tick() {
        Ok(taken) => taken,
        Err(refused) => return Err(refused),
    };
    let job = match part.partition.flush_take(alloc, taken) {
        Ok(job) => job,
        Err(Refused::NotDue) => {
            // which says how many pages wait
            part.partition.facts();
            part.partition.page_facts();
            return Ok(false);
        }
        Err(refused) => return Err(refused),
    };
    let written = match Written::<D::Receipt>::write(&mut part.writer, job) {
        Ok(written) => written,
        Err(refused) => return Err(refused),
    };
    let now = match clock.tick() {
        Ok(now) => now,
        Err(refused) => return Err(refused),
    };
    match part.partition.flush_done(written, now) {
        Ok(()) => Ok(true),
        Err(refused) => Err(refused),
    }
}

/// Writes the pages that wait. Refused as [`flush`] is.
fn flush_all<F: Mergeable, D: Disk>(
    alloc: Global,
    part: &mut PagedPartition<F, D>,
    clock: &mut Clock,
) -> Result<(), Refused>
    requires past { part.old.partition.moment ≤ clock.old }
    requires numbered { D.Writer.next part.old.writer ≤ clock.old }
    ensures tidied { IsTidied D.Receipt.keeps F.Key.cmp part.old.partition part.new.partition }
    ensures onward { IsOnward part.old.partition part.new.partition }
    ensures settled { StaysSettled part.old.partition part.new.partition }
    ensures same_log { IsSameLog D.Receipt.keeps part.old.partition part.new.partition }
    ensures same_offsets { part.new.partition.records.log.regions.offsets ≡ part.old.partition.records.log.regions.offsets }
    ensures written { OnOk result (IsWritten part.new.partition) }
    ensures passed { IsPassed part.new.partition.moment clock.old clock.new }
    ensures numbered { D.Writer.next part.new.writer ≤ clock.new }
    ensures caused { IsTrue D.Receipt.keeps → IfErr result
        (IsCausedBy (CanFailToWrite D.Writer.next D.Writer.can_fail) (CanFailToRead D.Receipt.stands D.Reader.can_fail)) }
    ensures steady { OnOk result (D.Writer.failures part.new.writer ≡ D.Writer.failures part.old.writer) }
    ensures told { IfErr result (IsMoveRefusal clock.new (D.Writer.failures part.old.writer)
        (D.Writer.failures part.new.writer)) }
{
    for _page in 0..u64::MAX {
        match flush(alloc, part, clock) {
            Ok(true) => {}
            Ok(false) => return Ok(()),
            Err(refused) => return Err(refused),
        }
    }
    // each of them took two moments
    Err(Refused::Worn)
}

/// The page of an address of a partition's log.
pub fn page_of<F: Mergeable, R: Receipt>(partition: &Partition<F, R>, address: Address) -> u64
    ensures value { result ≡ page_at partition.now.records.log.bits address }
{
    // which says that a page has bytes
    partition.facts();
    address / partition.page_size() as u64
}

/// Moves a partition's pages on: ReadOnly follows the tail, so that records in most frames are changed in place; the session is
/// refreshed; the pages below are written; Head follows, so that the page behind the tail's finds its frame free; and the session is
/// refreshed. What is not due is passed over. **Once it is done there is room for a record.** Refused: `Worn`, `NoMemory`, and as the
/// device refuses a page.
pub fn tidy<F: Mergeable, D: Disk>(
    alloc: Global,
    part: &mut PagedPartition<F, D>,
    clock: &mut Clock,
) -> Result<(), Refused>
    requires entered { IsEntered part.old.partition 0 }
    requires past { part.old.partition.moment ≤ clock.old }
    requires numbered { D.Writer.next part.old.writer ≤ clock.old }
    ensures tidied { IsTidied D.Receipt.keeps F.Key.cmp part.old.partition part.new.partition }
    ensures onward { IsOnward part.old.partition part.new.partition }
    ensures settled { StaysSettled part.old.partition part.new.partition }
    ensures roomy { OnOk result (IsSettled part.old.partition.records.log.regions
        → IsFull part.new.partition.records.log → ⊥) }
    ensures same_log { IsSameLog D.Receipt.keeps part.old.partition part.new.partition }
    ensures passed { IsPassed part.new.partition.moment clock.old clock.new }
    ensures numbered { D.Writer.next part.new.writer ≤ clock.new }
    ensures caused { IsTrue D.Receipt.keeps → IfErr result
        (IsCausedBy (CanFailToWrite D.Writer.next D.Writer.can_fail) (CanFailToRead D.Receipt.stands D.Reader.can_fail)) }
    ensures steady { OnOk result (D.Writer.failures part.new.writer ≡ D.Writer.failures part.old.writer) }
    ensures told { IfErr result (IsMoveRefusal clock.new (D.Writer.failures part.old.writer)
        (D.Writer.failures part.new.writer)) }
{
    // which says that regions have its pages' size
    part.partition.facts();
    let frames = part.partition.frames();
    let tail = page_of(&part.partition, part.partition.tail());
    match freeze(&mut part.partition, read_only_page(frames, tail), clock) {
        Ok(()) => {}
        Err(refused) => return Err(refused),
    }
    match flush_all(alloc, part, clock) {
        Ok(()) => {}
        Err(refused) => return Err(refused),
    }
    evict(&mut part.partition, kept_page(frames, tail), clock)
}
