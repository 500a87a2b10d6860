//! What becomes of a relocation whose record was read.
ghost use Rattle.std.specs.Prelude.{◌≡◌, ◌≢◌, ◌<◌, ◌≤◌, IsTrue, IfOk, OnErr, Ok, Some, None};
ghost use Rattle.fkv_texts.specs.Text.{entry_at};
ghost use Rattle.fkv_index.specs.Words.{address_of};
ghost use Rattle.fkv_lookups.specs.RecordsViews.{class_in, IsEntryOf};
ghost use Rattle.fkv_partition.specs.Views.{partition_of, found_for, entry_for, relocation_at};
ghost use Rattle.fkv_partition.specs.Relocating.{IsRelocating};
ghost use Rattle.fkv_partition.specs.Checking.{ChecksLiveness};

use crate::contexts::{Loading, Progress, ProgressOf};
use crate::partitions::Partition;
use crate::relocations::{EntryOf, Liveness, RelocationOf, Stage, higher_of, liveness_of, renewed};
use fkv_device::Receipt;
use fkv_functions::{Mergeable, Refused};
use fkv_operations::{Answer, IndexEntry};

impl<F: Mergeable, R: Receipt> Partition<F, R> {
    /// Checks the liveness of the record at a relocation's target: clears the target, asks for a page where the chain from the
    /// entry of the record's class goes on above it, or appends the record again. Refused, and then nothing changes: `Worn`,
    /// `NoMemory`.
    pub(crate) fn check_liveness(
        &mut self,
        slot: usize,
        context: usize,
        relocation: &RelocationOf<F>,
        entry: EntryOf<F>,
        functions: &F,
        now: u64,
    ) -> Result<ProgressOf<F, R>, Refused>
        requires later { self.old.moment < now }
        requires session { slot < 16 }
        requires context { context < 8 }
        requires here { relocation_at self.old slot context ≡ Some relocation.now }
        requires stands { entry.address ≡ relocation.now.target }
        requires begun { self.old.records.log.begin ≤ relocation.now.target }
        requires is { IsTrue R.keeps → entry_at self.old.records.log.text relocation.now.target ≡ Some entry }
        ensures effect { ChecksLiveness R.stands F.Key.cmp F.parts.joined F.code self.old self.new slot context relocation.now entry now
            result }
        ensures event { IfOk result (λ _. IsRelocating R.keeps F.Key.cmp self.old self.new slot context now) }
        ensures cleared { result ≡ Ok (Progress.Done Answer.Cleared now) → relocation.now.target < self.new.cleared }
        ensures unchanged { OnErr result (self.new ≡ self.old) }
        ensures moment { self.new.moment ≤ now }
    {
        self.facts();
        let target = relocation.target;
        let home = self.home(functions, &entry.key);
        if entry.value.is_none() {
            self.finish(slot, context, target, now);
            return Ok(Progress::Done(Answer::Cleared, now));
        }
        if home != self.number() {
            self.finish(slot, context, target, now);
            return Ok(Progress::Done(Answer::Cleared, now));
        }
        let (_class, found) = self.find(functions, &entry.key);
        match found {
            None => {
                self.finish(slot, context, target, now);
                Ok(Progress::Done(Answer::Cleared, now))
            }
            Some(kept) => self.follow(slot, context, relocation, entry, kept, functions, now),
        }
    }

    /// Checks the liveness of a record that has a value, and whose key belongs here and has this entry, by what the look-up
    /// from there comes to in memory. Refused, and then nothing changes: `Worn`, `NoMemory`.
    fn follow(
        &mut self,
        slot: usize,
        context: usize,
        relocation: &RelocationOf<F>,
        entry: EntryOf<F>,
        kept: IndexEntry,
        functions: &F,
        now: u64,
    ) -> Result<ProgressOf<F, R>, Refused>
        requires later { self.old.moment < now }
        requires session { slot < 16 }
        requires context { context < 8 }
        requires here { relocation_at self.old slot context ≡ Some relocation.now }
        requires stands { entry.address ≡ relocation.now.target }
        requires begun { self.old.records.log.begin ≤ relocation.now.target }
        requires is { IsTrue R.keeps → entry_at self.old.records.log.text relocation.now.target ≡ Some entry }
        requires some { entry.value ≢ None }
        requires own { partition_of self.old.count (F.code entry.key) ≡ self.old.number }
        requires found { found_for F.code self.old entry.key ≡ Some kept }
        requires leads { entry_for F.code self.old entry.key ≡ Some (address_of kept.word) }
        requires entry_stands { IsEntryOf self.old.records
            (class_in F.code self.old.records entry.key) kept }
        ensures effect { ChecksLiveness R.stands F.Key.cmp F.parts.joined F.code self.old self.new slot context relocation.now entry now
            result }
        ensures event { IfOk result (λ _. IsRelocating R.keeps F.Key.cmp self.old self.new slot context now) }
        ensures cleared { result ≡ Ok (Progress.Done Answer.Cleared now) → relocation.now.target < self.new.cleared }
        ensures unchanged { OnErr result (self.new ≡ self.old) }
        ensures moment { self.new.moment ≤ now }
    {
        self.facts();
        let target = relocation.target;
        let low = higher_of(target + 1, self.lowest(slot));
        let came = self.reach(functions, slot, &entry.key, low, Some(kept.address()));
        match liveness_of(target, &came) {
            Liveness::Superseded => {
                self.finish(slot, context, target, now);
                Ok(Progress::Done(Answer::Cleared, now))
            }
            Liveness::Last(parts) => {
                let whole = renewed(functions, entry, parts);
                self.append_again(slot, context, relocation, whole, kept, now)
            }
            Liveness::Further(wanted, parts) => {
                let loading = Loading {
                    begin: self.records().begin(),
                    kept,
                    wanted,
                    parts,
                    looked: now,
                };
                let stage = Stage::Tracing(entry, loading);
                self.ask(slot, context, relocation, stage, wanted, now)
            }
        }
    }
}
