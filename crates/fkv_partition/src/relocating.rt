//! What a relocation does when it goes on.
ghost use Rattle.std.specs.Prelude.{◌≡◌, ◌<◌, ◌≤◌, IsSome, IfOk, IfErr, IfSome, OnErr, Ok, Some};
ghost use Rattle.fkv_records.specs.Places.{page_at};
ghost use Rattle.fkv_hybrid.specs.Loads.{HasReceipt};
ghost use Rattle.fkv_partition.specs.declared.relocations.Stage.TheVariants.{Fresh, Tracing, Ready};
ghost use Rattle.fkv_partition.specs.Views.{relocation_at, with_relocation, at_stage};
ghost use Rattle.fkv_partition.specs.Stages.{StageStands};
ghost use Rattle.fkv_partition.specs.Relocating.{IsRelocating};
ghost use Rattle.fkv_partition.specs.Checking.{Ends, Asks};
ghost use Rattle.fkv_partition.specs.Going.{GoesOn};

use crate::changes::Write;
use crate::contexts::{Progress, ProgressOf, Wait};
use crate::partitions::Partition;
use crate::relocations::{EntryOf, RelocationOf, Stage, StageOf};
use fkv_device::Receipt;
use fkv_functions::{Mergeable, Refused};
use fkv_lookups::clearing::cleared_stay;
use fkv_lookups::{Payload, low_of};
use fkv_operations::{Answer, IndexEntry};
use fkv_records::Address;

impl<F: Mergeable, R: Receipt> Partition<F, R> {
    /// Goes on with a relocation. Where its target was cleared meanwhile it is finished. Else the record there is read in
    /// memory, or its page is asked for. Where the record is a tombstone, or its class has no entry, or a newer record of its
    /// key that is no delta is met, its target is cleared as it is; where the chain from the entry of its class goes on, above
    /// its target, below what the session reads in memory, a page is asked for; else the record is appended again, joined with
    /// the parts of the key's deltas above, and its target is cleared. Where there is no room for it the answer is `Waits`, and the next call tries this last part again, which
    /// begins anew, with the answer `Next`, where the entry has moved. Refused, in this order, and then nothing changes:
    /// `Unknown` where no relocation is open there; `NotReady` where it waits for a page; `Worn` where the record is to be
    /// appended and no address is left; `NoMemory` where the receipt of a page can't be shared.
    pub(crate) fn go_on(
        &mut self,
        slot: usize,
        context: usize,
        functions: &F,
        now: u64,
    ) -> Result<ProgressOf<F, R>, Refused>
        requires later { self.old.moment < now }
        ensures effect { GoesOn R.stands F.Key.cmp F.parts.joined F.code self.old self.new slot context now result }
        ensures event { IfOk result (λ _. IsRelocating R.keeps F.Key.cmp self.old self.new slot context now) }
        ensures cleared { result ≡ Ok (Progress.Done Answer.Cleared now)
            → IfSome (relocation_at self.old slot context) (λ x. x.target < self.new.cleared) }
        ensures within { IfOk result (λ _. (slot < 16) × (context < 8)) }
        ensures unchanged { OnErr result (self.new ≡ self.old) }
        ensures moment { self.new.moment ≤ now }
    {
        let Some(relocation) = self.relocation(slot, context) else {
            return Err(Refused::Unknown);
        };
        let stage = relocation.stage;
        match stage {
            Stage::Reading(_) | Stage::Tracing(_, _) => Err(Refused::NotReady),
            Stage::Ready(entry, kept) => {
                self.append_again(slot, context, &relocation, entry, kept, now)
            }
            Stage::Fresh => {
                if relocation.target < self.cleared {
                    self.end(slot, context, now);
                    return Ok(Progress::Done(Answer::Cleared, now));
                }
                self.look(slot, context, &relocation, functions, now)
            }
        }
    }

    /// Reads the record of a relocation's target in memory, and checks its liveness, or asks for its page.
    fn look(
        &mut self,
        slot: usize,
        context: usize,
        relocation: &RelocationOf<F>,
        functions: &F,
        now: u64,
    ) -> Result<ProgressOf<F, R>, Refused>
        requires later { self.old.moment < now }
        requires session { slot < 16 }
        requires context { context < 8 }
        requires here { relocation_at self.old slot context ≡ Some relocation.now }
        requires fresh { relocation.now.stage ≡ Fresh }
        requires uncleared { relocation.now.target ≡ self.old.cleared }
        ensures effect { GoesOn R.stands F.Key.cmp F.parts.joined F.code self.old self.new slot context now result }
        ensures event { IfOk result (λ _. IsRelocating R.keeps F.Key.cmp self.old self.new slot context now) }
        ensures cleared { result ≡ Ok (Progress.Done Answer.Cleared now) → relocation.now.target < self.new.cleared }
        ensures unchanged { OnErr result (self.new ≡ self.old) }
        ensures moment { self.new.moment ≤ now }
    {
        self.facts();
        let target = relocation.target;
        let view = self.records().view(slot);
        let begin = self.records().begin();
        if target < low_of(begin, &view) {
            return self.ask(
                slot,
                context,
                relocation,
                Stage::Reading(begin),
                target,
                now,
            );
        }
        let entry = self.records().record_at(target);
        self.check_liveness(slot, context, relocation, entry, functions, now)
    }

    /// Asks for the page of an address for a relocation. Refused, and then nothing changes: `NoMemory`.
    pub(crate) fn ask(
        &mut self,
        slot: usize,
        context: usize,
        relocation: &RelocationOf<F>,
        stage: StageOf<F>,
        wanted: Address,
        now: u64,
    ) -> Result<ProgressOf<F, R>, Refused>
        requires session { slot < 16 }
        requires context { context < 8 }
        requires here { relocation_at self.old slot context ≡ Some relocation.now }
        requires later { self.old.moment < now }
        requires flushed { HasReceipt self.old.records.log.receipts
            (page_at self.old.records.log.bits wanted) }
        requires stands { StageStands R.keeps F.Key.cmp F.parts.joined F.code self.old relocation.now.target stage }
        ensures effect { Asks R.stands self.old self.new
            (with_relocation self.old slot context (Some (at_stage relocation.now stage)) now) wanted result }
        ensures event { IfOk result (λ _. IsRelocating R.keeps F.Key.cmp self.old self.new slot context now) }
        ensures uncleared { result ≡ Ok (Progress.Done Answer.Cleared now) → ⊥ }
        ensures unchanged { OnErr result (self.new ≡ self.old) }
        ensures moment { self.new.moment ≤ now }
    {
        let page = self.records().page_of(wanted);
        let receipt = match self.records().receipt(page) {
            Err(refused) => return Err(refused),
            Ok(receipt) => receipt,
        };
        self.set_stage(slot, context, relocation, stage, now);
        Ok(Progress::NeedsLoad(receipt, wanted))
    }

    /// Tries the last part of a relocation: where the entry stands as it was kept, the record is appended again and its
    /// target is cleared; where there is no room, it waits; where the entry has moved, it begins anew. Refused, and then
    /// nothing changes: `Worn`.
    pub(crate) fn append_again(
        &mut self,
        slot: usize,
        context: usize,
        relocation: &RelocationOf<F>,
        entry: EntryOf<F>,
        kept: IndexEntry,
        now: u64,
    ) -> Result<ProgressOf<F, R>, Refused>
        requires later { self.old.moment < now }
        requires session { slot < 16 }
        requires context { context < 8 }
        requires here { relocation_at self.old slot context ≡ Some relocation.now }
        requires stands { StageStands R.keeps F.Key.cmp F.parts.joined F.code self.old relocation.now.target (Ready entry kept) }
        ensures effect { Ends self.old self.new slot context relocation.now entry kept now result }
        ensures event { IfOk result (λ _. IsRelocating R.keeps F.Key.cmp self.old self.new slot context now) }
        ensures cleared { result ≡ Ok (Progress.Done Answer.Cleared now) → relocation.now.target < self.new.cleared }
        ensures unchanged { OnErr result (self.new ≡ self.old) }
        ensures moment { self.new.moment ≤ now }
    {
        cleared_stay::<F::Key, F::Value>();
        self.facts();
        if !self.records().holds(&kept) {
            self.set_stage(slot, context, relocation, Stage::Fresh, now);
            return Ok(Progress::Next);
        }
        let write = Write {
            entry: kept,
            key: entry.key,
            payload: Payload::Whole(entry.value),
        };
        let cleared = self.past(relocation.target);
        match self.append(slot, context, write, now) {
            Err(refused) => Err(refused),
            Ok(None) => {
                self.set_stage(slot, context, relocation, Stage::Ready(entry, kept), now);
                Ok(Progress::Waits(Wait::Full))
            }
            Ok(Some(_address)) => {
                self.facts();
                self.clear_to(cleared);
                Ok(Progress::Done(Answer::Cleared, now))
            }
        }
    }
}
