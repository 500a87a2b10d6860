//! Pages of a partition: how the regions move, how pages get to a device, and how the log's start is cut.
ghost use Rattle.std.specs.Prelude.{◌≡◌, ◌≢◌, ◌+◌, ◌-◌, ◌^◌, ◌<◌, ◌≤◌, ◌↔◌, ◌⊎◌, ℕ, All, List, [], Err, IsTrue, IfOk, IfErr, OnOk};
ghost use Rattle.std.specs.Prelude.{OnErr, Some, length, None, slice_get};
ghost use Rattle.std.specs.BTreeMap.{get, is_at};
ghost use Rattle.std.specs.Map.{lookup, keys_of};
ghost use Rattle.std.specs.List.Sorted.{IsStrictlySortedBy};
ghost use Rattle.fkv_records.specs.Places.{page_at, start_at};
ghost use Rattle.fkv_device.specs.Standing.{Standing};
ghost use Rattle.fkv_hybrid.specs.Spelled.{IsPageOf};
ghost use Rattle.fkv_hybrid.specs.Loads.{IsHeldBy};
ghost use Rattle.fkv_functions.specs.Plain.{Same};
ghost use Rattle.fkv_hybrid.specs.Scans.{IsScanRefusal, MayFail};
ghost use Rattle.fkv_lookups.specs.Overlays.{with_text, HasFront};
ghost use Rattle.fkv_partition.specs.Pending.{AllPend};
ghost use Rattle.fkv_partition.specs.Views.{live_of, partition_of, IsBare, at_moment};
ghost use Rattle.fkv_partition.specs.Effect.{IsQuiet, IsTruncation};
ghost use Rattle.fkv_partition.specs.Events.{Shifts, Evicts, Flushes};
ghost use Rattle.fkv_partition.specs.Truncating.{Truncates, told_of};

use crate::partitions::Partition;
use fkv_device::{FlushJob, PageReader, Receipt, Written};
use fkv_functions::{Mergeable, Refused};
use fkv_lookups::clearing::cleared_stay;
use fkv_records::Address;
use std::alloc::Global;
use std::collections::BTreeMap;

impl<F: Mergeable, R: Receipt> Partition<F, R> {
    /// Moves the read-only offset to the start of a page: records below it are no more changed in place by sessions that
    /// are refreshed from now on. The safe read-only offset follows once every session has been. Refused, in this order,
    /// and then nothing changes: `NotDue` where the offset would not rise, or the page is above the tail's; `DrainFull`
    /// where sixteen moves wait.
    pub fn shift_read_only(&mut self, page: u64, now: u64) -> Result<(), Refused>
        requires later { self.old.moment < now }
        ensures effect { Shifts R.keeps self.old self.new page now result }
        ensures event { OnOk result (IsQuiet R.keeps self.old self.new now) }
        ensures pends { IsTrue R.keeps → AllPend F.Key.cmp self.old self.new }
        ensures unchanged { OnErr result (self.new ≡ self.old) }
        ensures moment { self.new.moment ≤ now }
    {
        match self.records.shift_read_only(page) {
            Err(refused) => return Err(refused),
            Ok(()) => (),
        }
        self.records.facts();
        self.moment = now;
        Ok(())
    }

    /// Moves Head to the start of a page: sessions that are refreshed from now on read records below it from the device.
    /// Frames below it may be used anew once every session has been. Refused, in this order, and then nothing changes:
    /// `NotDue` where Head would not rise, or a page below is not flushed; `DrainFull` where sixteen moves wait.
    pub fn shift_head(&mut self, page: u64, now: u64) -> Result<(), Refused>
        requires later { self.old.moment < now }
        ensures effect { Evicts R.keeps self.old self.new page now result }
        ensures event { OnOk result (IsQuiet R.keeps self.old self.new now) }
        ensures pends { IsTrue R.keeps → AllPend F.Key.cmp self.old self.new }
        ensures unchanged { OnErr result (self.new ≡ self.old) }
        ensures moment { self.new.moment ≤ now }
    {
        match self.records.shift_head(page) {
            Err(refused) => return Err(refused),
            Ok(()) => (),
        }
        self.records.facts();
        self.moment = now;
        Ok(())
    }

    /// The lowest page that is not flushed.
    pub fn unflushed(&self) -> u64
        ensures { result ≡ length self.now.records.log.receipts }
    {
        self.records().log().unflushed()
    }

    /// What holds of all pages that are kept or wait. It does nothing when it runs.
    pub fn page_facts(&self)
        ensures receipts { (n : ℕ) (s : Standing)
            → IsHeldBy self.now.records.log.receipts n s
            → (s.page ≡ n) × (s.length ≡ 2 ^ self.now.records.log.bits) }
        // the pages from the first that is not flushed to below that of SafeReadOnly wait, each with the records there
        ensures waiting { length self.now.records.log.waiting
            ≡ page_at self.now.records.log.bits self.now.records.log.regions.offsets.safe_read_only
            - length self.now.records.log.receipts }
        ensures spelled { (i : ℕ) (page : List ℕ)
            → slice_get self.now.records.log.waiting i ≡ Some page
            → IsPageOf F.Key.codec F.Value.codec self.now.records.log.bits
            (length self.now.records.log.receipts + i) self.now.records.log.text page }
    {
        self.records().log().facts();
    }

    /// A copy of the lowest page that is not flushed, to be written. Nothing changes but the moment. Refused, and then
    /// nothing changes: `NotDue` where the page does not end at or below the safe read-only offset, `NoMemory`.
    pub fn flush_take(&mut self, alloc: Global, now: u64) -> Result<FlushJob, Refused>
        requires later { self.old.moment < now }
        ensures page { IfOk result (λ job. job.page ≡ length self.old.records.log.receipts) }
        ensures bytes { IfOk result
            (λ job. slice_get self.old.records.log.waiting 0 ≡ Some job.bytes) }
        ensures due { (result ≡ Err Refused.NotDue) ↔ (self.old.records.log.waiting ≡ []) }
        ensures only { IfErr result (λ refused. (refused ≡ Refused.NotDue) ⊎ (refused ≡ Refused.NoMemory)) }
        ensures passes { OnOk result (self.new ≡ at_moment self.old now) }
        ensures event { OnOk result (IsQuiet R.keeps self.old self.new now) }
        ensures pends { AllPend F.Key.cmp self.old self.new }
        ensures unchanged { OnErr result (self.new ≡ self.old) }
        ensures moment { self.new.moment ≤ now }
    {
        let job = match self.records().log().flush_take(alloc) {
            Err(refused) => return Err(refused),
            Ok(job) => job,
        };
        self.pass(now);
        Ok(job)
    }

    /// Takes in that the lowest page that is not flushed was written. Refused, in this order, and then nothing changes:
    /// `Stranger` where another page is the lowest that is not flushed, `NotDue` where that one does not end at or below
    /// the safe read-only offset, `Stranger` where the bytes that were written are others, `NoMemory`.
    pub fn flush_done(&mut self, written: Written<R>, now: u64) -> Result<(), Refused>
        requires later { self.old.moment < now }
        ensures effect { Flushes self.old self.new (R.stands written.receipt) written.bytes now result }
        ensures event { OnOk result (IsQuiet R.keeps self.old self.new now) }
        ensures pends { AllPend F.Key.cmp self.old self.new }
        ensures unchanged { OnErr result (self.new ≡ self.old) }
        ensures moment { self.new.moment ≤ now }
    {
        match self.records.flush_done(written) {
            Err(refused) => return Err(refused),
            Ok(()) => (),
        }
        self.records.facts();
        self.moment = now;
        Ok(())
    }

    /// Moves Begin to the start of a page: records below it are dropped, each of them cleared, and the live map stays.
    /// Operations and relocations that wait for a page are to look again. Refused, and then nothing changes: `NotDue` where
    /// Begin would not rise, or would pass Head, or what is cleared.
    pub fn truncate(&mut self, page: u64, now: u64) -> Result<(), Refused>
        requires later { self.old.moment < now }
        ensures effect { Truncates R.keeps self.old self.new page now result }
        ensures event { OnOk result (IsTruncation R.keeps F.Key.cmp self.old self.new page now) }
        ensures unchanged { OnErr result (self.new ≡ self.old) }
        ensures moment { self.new.moment ≤ now }
    {
        cleared_stay::<F::Key, F::Value>();
        self.facts();
        if page > self.records().page_of(self.cleared()) {
            return Err(Refused::NotDue);
        }
        self.cut(page, now)
    }

    /// Moves Begin to the start of the page up to which all is cleared, and answers Begin. Refused, and then nothing
    /// changes: `NotDue` where Begin would not rise, or would pass Head.
    pub fn truncate_cleared(&mut self, now: u64) -> Result<Address, Refused>
        requires later { self.old.moment < now }
        ensures effect { Truncates R.keeps self.old self.new (page_at self.old.records.log.bits self.old.cleared)
            now (told_of result) }
        ensures begin { IfOk result (λ begin. (begin ≡ self.new.records.log.begin)
            × (begin ≡ start_at self.old.records.log.bits
            (page_at self.old.records.log.bits self.old.cleared))) }
        ensures event { OnOk result (IsTruncation R.keeps F.Key.cmp self.old self.new
            (page_at self.old.records.log.bits self.old.cleared) now) }
        ensures unchanged { OnErr result (self.new ≡ self.old) }
        ensures moment { self.new.moment ≤ now }
    {
        let page = self.records().page_of(self.cleared());
        match self.truncate(page, now) {
            Err(refused) => return Err(refused),
            Ok(()) => (),
        }
        Ok(self.begin())
    }
}
