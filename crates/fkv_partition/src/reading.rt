//! What a relocation does with the page that it waited for.
ghost use Rattle.std.specs.Prelude.{◌≡◌, ◌≢◌, ◌+◌, ◌<◌, ◌≤◌, ℕ, IsTrue, IfOk, IfSome, Ok, Err, length};
ghost use Rattle.fkv_records.specs.Places.{page_at};
ghost use Rattle.fkv_hybrid.specs.Loads.{IsHeldBy};
ghost use Rattle.fkv_hybrid.specs.Spelled.{IsEntryIn};
ghost use Rattle.fkv_hybrid.specs.Scans.{MayFail};
ghost use Rattle.fkv_partition.specs.declared.relocations.Stage.TheVariants.{Reading, Tracing};
ghost use Rattle.fkv_partition.specs.Views.{relocation_at};
ghost use Rattle.fkv_partition.specs.Relocating.{IsRelocating};
ghost use Rattle.fkv_partition.specs.Reading.{AwaitsPage, HasPage, LoadsOn, WaitsOn, LoadsOnBy};

use crate::contexts::{Loading, Progress, ProgressOf};
use crate::loading::is_no_memory;
use crate::partitions::Partition;
use crate::relocations::{
    EntryOf, Liveness, RelocationOf, Stage, awaited, higher_of, liveness_of, renewed,
};
use fkv_device::{Loaded, PageReader, Receipt};
use fkv_functions::{Mergeable, Refused};
use fkv_operations::Answer;
use fkv_records::Address;

impl<F: Mergeable, R: Receipt> Partition<F, R> {
    /// Goes on with a relocation that waits for a page, with that page as a device gave it, or with the refusal that came in
    /// its place. Where Begin has moved since it asked it is to begin anew, whatever came, and the answer is `Next`. Else
    /// the page of its target gives its record, whose liveness is checked, and a page on the chain from the entry is followed
    /// down to the target: where a newer record of the key that is no delta is met the target is cleared as it is, where the
    /// chain goes on above the target another page is asked for, and else the record is appended again, joined with the parts
    /// of the key's deltas above, unless the entry has moved, and the target is cleared. Refused, in this order: `Unknown` where no relocation is open there; `NotReady` where it waits
    /// for no page; what came in place of the page, which ends the relocation without effect unless it is `NoMemory`;
    /// `Stranger` where the page was read by another receipt than the one that is kept of it; `Damaged` where its bytes
    /// spell no record at the target, or on the chain, or lead to no place, which ends the relocation too; `Worn`;
    /// `NoMemory` where the receipt of the next page can't be shared. A refusal that ends no relocation changes nothing.
    pub(crate) fn resume_load(
        &mut self,
        slot: usize,
        context: usize,
        came: Result<Loaded<R>, Refused>,
        functions: &F,
        now: u64,
    ) -> Result<ProgressOf<F, R>, Refused>
        requires later { self.old.moment < now }
        ensures effect { LoadsOn R.stands (IsEntryIn F.Key.codec F.Value.codec) F.Key.cmp F.parts.joined F.code self.old self.new slot context came now result }
        ensures event { IfOk result (λ _. IsRelocating R.keeps F.Key.cmp self.old self.new slot context now) }
        ensures cleared { result ≡ Ok (Progress.Done Answer.Cleared now)
            → IfSome (relocation_at self.old slot context) (λ x. x.target < self.new.cleared) }
        ensures within { IfOk result (λ _. (slot < 16) × (context < 8)) }
        ensures undamaged { IsTrue R.keeps → (page : ℕ) → result ≡ Err (Refused.Damaged page) → came ≡ Err (Refused.Damaged page) }
        ensures moment { self.new.moment ≤ now }
    {
        let Some(relocation) = self.relocation(slot, context) else {
            return Err(Refused::Unknown);
        };
        let Some((begin, wanted)) = awaited(relocation.target, &relocation.stage) else {
            return Err(Refused::NotReady);
        };
        if begin != self.records().begin() {
            self.set_stage(slot, context, &relocation, Stage::Fresh, now);
            return Ok(Progress::Next);
        }
        match came {
            Err(refused) => {
                if is_no_memory(&refused) {
                    return Err(refused);
                }
                self.end(slot, context, now);
                Err(refused)
            }
            Ok(loaded) => {
                self.receive_place(slot, context, &relocation, wanted, loaded, functions, now)
            }
        }
    }

    /// Goes on with a relocation that waits for a page, as [`Partition::resume_load`] does, with the page that is read here, by the
    /// receipt that is kept of it. Where none is open there, it waits for no page, or Begin has moved, nothing is read. Refused
    /// as `resume_load` is, but never by `Stranger`; and by what the reader tells, and `NoMemory` where the receipt can't be shared:
    /// then nothing changes.
    pub(crate) fn resume_load_by<P: PageReader<Receipt = R>>(
        &mut self,
        slot: usize,
        context: usize,
        functions: &F,
        reader: &mut P,
        now: u64,
    ) -> Result<ProgressOf<F, R>, Refused>
        requires later { self.old.moment < now }
        ensures effect { LoadsOnBy R.stands (IsEntryIn F.Key.codec F.Value.codec) F.Key.cmp F.parts.joined F.code self.old self.new slot context now
            (P.failures reader.old) (P.failures reader.new) result }
        ensures event { IfOk result (λ _. IsRelocating R.keeps F.Key.cmp self.old self.new slot context now) }
        ensures cleared { result ≡ Ok (Progress.Done Answer.Cleared now)
            → IfSome (relocation_at self.old slot context) (λ x. x.target < self.new.cleared) }
        ensures once { P.reads reader.new ≤ P.reads reader.old + 1 }
        ensures unread { ((page : ℕ) → WaitsOn self.old slot context page → ⊥) → reader.new ≡ reader.old }
        ensures caused { P.failures reader.new ≢ P.failures reader.old → (page : ℕ)
            × MayFail R.stands P.can_fail self.old.records.log.receipts self.old.records.log.bits page }
        ensures within { IfOk result (λ _. (slot < 16) × (context < 8)) }
        ensures undamaged { IsTrue R.keeps → (page : ℕ) → result ≡ Err (Refused.Damaged page)
            → P.failures reader.new ≡ P.failures reader.old + 1 }
        ensures moment { self.new.moment ≤ now }
    {
        let Some(relocation) = self.relocation(slot, context) else {
            return Err(Refused::Unknown);
        };
        let Some((begin, wanted)) = awaited(relocation.target, &relocation.stage) else {
            return Err(Refused::NotReady);
        };
        let begins = self.records().begin();
        if begin != begins {
            self.set_stage(slot, context, &relocation, Stage::Fresh, now);
            return Ok(Progress::Next);
        }
        self.facts();
        let page = self.records().page_of(wanted);
        match self.read(reader, page) {
            Err(refused) => Err(refused),
            Ok(loaded) => self.read_on(slot, context, &relocation, loaded, functions, now),
        }
    }

    /// Goes on with a relocation that waits for a page, as [`Partition::resume_load`] does, with a page that is the one that is kept,
    /// where it waits for that: it is compared with no receipt. Refused as `resume_load` is, but never by `Stranger`.
    pub(crate) fn resume_load_own(
        &mut self,
        slot: usize,
        context: usize,
        loaded: Loaded<R>,
        functions: &F,
        now: u64,
    ) -> Result<ProgressOf<F, R>, Refused>
        requires later { self.old.moment < now }
        requires own { (page : ℕ) → WaitsOn self.old slot context page
            → IsHeldBy self.old.records.log.receipts page (R.stands loaded.receipt) }
        ensures effect { LoadsOn R.stands (IsEntryIn F.Key.codec F.Value.codec) F.Key.cmp F.parts.joined F.code self.old self.new slot context (Ok loaded) now result }
        ensures event { IfOk result (λ _. IsRelocating R.keeps F.Key.cmp self.old self.new slot context now) }
        ensures cleared { result ≡ Ok (Progress.Done Answer.Cleared now)
            → IfSome (relocation_at self.old slot context) (λ x. x.target < self.new.cleared) }
        ensures within { IfOk result (λ _. (slot < 16) × (context < 8)) }
        ensures undamaged { IsTrue R.keeps → (page : ℕ) → result ≢ Err (Refused.Damaged page) }
        ensures moment { self.new.moment ≤ now }
    {
        let Some(relocation) = self.relocation(slot, context) else {
            return Err(Refused::Unknown);
        };
        let Some((begin, _wanted)) = awaited(relocation.target, &relocation.stage) else {
            return Err(Refused::NotReady);
        };
        let begins = self.records().begin();
        if begin != begins {
            self.set_stage(slot, context, &relocation, Stage::Fresh, now);
            return Ok(Progress::Next);
        }
        self.read_on(slot, context, &relocation, loaded, functions, now)
    }

    /// Takes a page that came for a relocation, where it is the one that is kept.
    fn receive_place(
        &mut self,
        slot: usize,
        context: usize,
        relocation: &RelocationOf<F>,
        wanted: Address,
        loaded: Loaded<R>,
        functions: &F,
        now: u64,
    ) -> Result<ProgressOf<F, R>, Refused>
        requires later { self.old.moment < now }
        requires session { slot < 16 }
        requires context { context < 8 }
        requires awaits { AwaitsPage self.old slot context relocation.now wanted }
        ensures effect { LoadsOn R.stands (IsEntryIn F.Key.codec F.Value.codec) F.Key.cmp F.parts.joined F.code self.old self.new slot context (Ok loaded) now result }
        ensures event { IfOk result (λ _. IsRelocating R.keeps F.Key.cmp self.old self.new slot context now) }
        ensures cleared { result ≡ Ok (Progress.Done Answer.Cleared now) → relocation.now.target < self.new.cleared }
        ensures undamaged { IsTrue R.keeps → (page : ℕ) → result ≢ Err (Refused.Damaged page) }
        ensures moment { self.new.moment ≤ now }
    {
        self.facts();
        let page = self.records().page_of(wanted);
        if let Err(refused) = self.records().is_own(&loaded, page) {
            return Err(refused);
        }
        self.read_on(slot, context, relocation, loaded, functions, now)
    }

    /// Reads the page that a relocation waits for.
    fn read_on(
        &mut self,
        slot: usize,
        context: usize,
        relocation: &RelocationOf<F>,
        loaded: Loaded<R>,
        functions: &F,
        now: u64,
    ) -> Result<ProgressOf<F, R>, Refused>
        requires later { self.old.moment < now }
        requires session { slot < 16 }
        requires context { context < 8 }
        requires has { (wanted : _) × HasPage self.old slot context relocation.now wanted (R.stands loaded.receipt) }
        ensures effect { LoadsOn R.stands (IsEntryIn F.Key.codec F.Value.codec) F.Key.cmp F.parts.joined F.code self.old self.new slot context (Ok loaded) now result }
        ensures event { IfOk result (λ _. IsRelocating R.keeps F.Key.cmp self.old self.new slot context now) }
        ensures cleared { result ≡ Ok (Progress.Done Answer.Cleared now) → relocation.now.target < self.new.cleared }
        ensures undamaged { IsTrue R.keeps → (page : ℕ) → result ≢ Err (Refused.Damaged page) }
        ensures moment { self.new.moment ≤ now }
    {
        match relocation.stage {
            Stage::Reading(_) => {
                self.read_place(slot, context, relocation, &loaded, functions, now)
            }
            Stage::Tracing(entry, loading) => {
                self.resume_trace(
                    slot, context, relocation, entry, loading, &loaded, functions, now,
                )
            }
            Stage::Fresh | Stage::Ready(_, _) => unreachable!(),
        }
    }

    /// Reads the record of a relocation's target from its page, and checks its liveness.
    fn read_place(
        &mut self,
        slot: usize,
        context: usize,
        relocation: &RelocationOf<F>,
        loaded: &Loaded<R>,
        functions: &F,
        now: u64,
    ) -> Result<ProgressOf<F, R>, Refused>
        requires later { self.old.moment < now }
        requires session { slot < 16 }
        requires context { context < 8 }
        requires has { HasPage self.old slot context relocation.now relocation.now.target (R.stands loaded.now.receipt) }
        requires reads { relocation.now.stage ≡ Reading self.old.records.log.begin }
        ensures effect { LoadsOn R.stands (IsEntryIn F.Key.codec F.Value.codec) F.Key.cmp F.parts.joined F.code self.old self.new slot context (Ok loaded.now) now result }
        ensures event { IfOk result (λ _. IsRelocating R.keeps F.Key.cmp self.old self.new slot context now) }
        ensures cleared { result ≡ Ok (Progress.Done Answer.Cleared now) → relocation.now.target < self.new.cleared }
        ensures undamaged { IsTrue R.keeps → (page : ℕ) → result ≢ Err (Refused.Damaged page) }
        ensures moment { self.new.moment ≤ now }
    {
        self.facts();
        let target = relocation.target;
        let page = self.records().page_of(target);
        match self.records().own_record_in(loaded, target) {
            Err(_damaged) => {
                self.end(slot, context, now);
                Err(Refused::Damaged { page })
            }
            Ok(entry) => self.check_liveness(slot, context, relocation, entry, functions, now),
        }
    }

    /// Follows the chain from the entry of a record's class, in a page above the target, down to the target.
    fn resume_trace(
        &mut self,
        slot: usize,
        context: usize,
        relocation: &RelocationOf<F>,
        entry: EntryOf<F>,
        loading: Loading<F::Value>,
        loaded: &Loaded<R>,
        functions: &F,
        now: u64,
    ) -> Result<ProgressOf<F, R>, Refused>
        requires later { self.old.moment < now }
        requires session { slot < 16 }
        requires context { context < 8 }
        requires has { HasPage self.old slot context relocation.now loading.wanted (R.stands loaded.now.receipt) }
        requires traces { relocation.now.stage ≡ Tracing entry loading }
        ensures effect { LoadsOn R.stands (IsEntryIn F.Key.codec F.Value.codec) F.Key.cmp F.parts.joined F.code self.old self.new slot context (Ok loaded.now) now result }
        ensures event { IfOk result (λ _. IsRelocating R.keeps F.Key.cmp self.old self.new slot context now) }
        ensures cleared { result ≡ Ok (Progress.Done Answer.Cleared now) → relocation.now.target < self.new.cleared }
        ensures undamaged { IsTrue R.keeps → (page : ℕ) → result ≢ Err (Refused.Damaged page) }
        ensures moment { self.new.moment ≤ now }
    {
        self.facts();
        let target = relocation.target;
        let page = self.records().page_of(loading.wanted);
        let low = higher_of(target + 1, self.records().first_of(page));
        let came = match self.records().trace_in(
            functions,
            loaded,
            &entry.key,
            loading.wanted,
            low,
            loading.parts,
        ) {
            Err(_damaged) => {
                self.end(slot, context, now);
                return Err(Refused::Damaged { page });
            }
            Ok(came) => came,
        };
        match liveness_of(target, &came) {
            Liveness::Superseded => {
                self.finish(slot, context, target, now);
                Ok(Progress::Done(Answer::Cleared, now))
            }
            Liveness::Last(parts) => {
                let whole = renewed(functions, entry, parts);
                self.append_again(slot, context, relocation, whole, loading.kept, now)
            }
            Liveness::Further(address, parts) => {
                if !self.records().is_record_start(address) {
                    self.end(slot, context, now);
                    return Err(Refused::Damaged { page });
                }
                let further = Loading {
                    begin: loading.begin,
                    kept: loading.kept,
                    wanted: address,
                    parts,
                    looked: loading.looked,
                };
                self.ask(
                    slot,
                    context,
                    relocation,
                    Stage::Tracing(entry, further),
                    address,
                    now,
                )
            }
        }
    }
}
