//! What an operation does with the page that it waited for.
ghost use Rattle.std.specs.Prelude.{◌≡◌, ◌≢◌, ◌+◌, ◌<◌, ◌≤◌, ◌↔◌, ℕ, Some, None, Ok, Err, IsTrue, IfOk, IfErr, OnOk, OnErr};
ghost use Rattle.fkv_records.specs.Places.{page_at};
ghost use Rattle.fkv_device.specs.Failing.{ReadFailsBy};
ghost use Rattle.fkv_hybrid.specs.Spelled.{IsEntryIn};
ghost use Rattle.fkv_hybrid.specs.Loads.{HasReceipt, IsHeldBy};
ghost use Rattle.fkv_hybrid.specs.Scans.{MayFail};
ghost use Rattle.fkv_operations.specs.After.{key_of, shown_of};
ghost use Rattle.fkv_operations.specs.declared.operations.KeyedOp.TheVariants.{Read, Rmw};
ghost use Rattle.fkv_partition.specs.declared.contexts.Phase.TheVariants.{Prepared, Load};
ghost use Rattle.fkv_partition.specs.Contexts.{at_phase};
ghost use Rattle.fkv_partition.specs.KeyLoading.{AwaitsPage, MayLoad, Loads, WaitsFor, LoadsBy};
ghost use Rattle.fkv_partition.specs.KeySound.{IsKept, IsLoading};
ghost use Rattle.fkv_partition.specs.KeyEffect.{IsLoaded};
ghost use Rattle.fkv_partition.specs.Views.{with_context};

use crate::contexts::{ContextOf, Loading, Phase, Progress, ProgressOf, loading_of};
use crate::partitions::Partition;
use fkv_device::{Loaded, PageReader, Receipt};
use fkv_functions::{Ask, Mergeable, Refused};
use fkv_lookups::chain_results::combined;
use fkv_lookups::laws::lookups_tell;
use fkv_operations::KeyedOp;
use fkv_operations::plainly::shown;
use fkv_records::Address;
use fkv_texts::ChainPosition;

/// Whether it is memory that was wanted.
pub fn is_no_memory(refused: &Refused) -> bool
    ensures { IsTrue result ↔ (refused.now ≡ Refused.NoMemory) }
{
    match refused {
        Refused::NoMemory => true,
        _ => false,
    }
}

impl<F: Mergeable, R: Receipt> Partition<F, R> {
    /// Goes on with an operation that waits for a page, with that page as a device gave it, or with the refusal that came
    /// in its place. Where Begin has moved since the look-up the operation is to look again, whatever came, and the answer
    /// is `Next`. Else the records of the page are followed along the key's class, and the parts of the key's deltas are
    /// joined: where a record of the key that is no delta stands there, or the way ends below Begin, a read is finished, its effect being at its look-up, and an update asks for its
    /// new value; where the way goes on in another page, that one is asked for. Refused, in this order: `Unknown` where no
    /// operation is open there; `NotReady` where it waits for no page; what came in place of the page, which ends the
    /// operation without effect unless it is `NoMemory`; `Stranger` where the page was read by another receipt than the
    /// one that is kept of it; `Damaged` where its bytes spell no record on the way, or lead to no place, which ends the
    /// operation too; `NoMemory` where the receipt of the next page can't be shared. A refusal that ends no operation
    /// changes nothing.
    pub(crate) fn load_on_key(
        &mut self,
        slot: usize,
        context: usize,
        came: Result<Loaded<R>, Refused>,
        functions: &F,
        now: u64,
    ) -> Result<ProgressOf<F, R>, Refused>
        requires later { self.old.moment < now }
        ensures effect { Loads R.stands (IsEntryIn F.Key.codec F.Value.codec) F.Key.cmp F.parts.joined F.meaning self.old self.new slot context came now result }
        // on a device that keeps, what comes of it is what the look-up was to find
        ensures event { IsTrue R.keeps → IfOk result
            (λ progress. IsLoaded F.Key.cmp F.meaning self.old self.new slot context now progress) }
        // there it finds no damage, and tells only of what came in place of the page
        ensures undamaged { IsTrue R.keeps → (page : ℕ) → result ≡ Err (Refused.Damaged page) → came ≡ Err (Refused.Damaged page) }
        ensures within { IfOk result (λ _. (slot < 16) × (context < 8)) }
        ensures moment { self.new.moment ≤ now }
    {
        let Some(open) = self.open(slot, context) else {
            return Err(Refused::Unknown);
        };
        let Some(loading) = loading_of(&open.phase) else {
            return Err(Refused::NotReady);
        };
        if loading.begin != self.records.begin() {
            self.set_phase(slot, context, &open, Phase::Fresh, now);
            return Ok(Progress::Next);
        }
        match came {
            Err(refused) => {
                if is_no_memory(&refused) {
                    return Err(refused);
                }
                self.free(slot, context, now);
                Err(refused)
            }
            Ok(loaded) => self.receive(slot, context, &open, loading, loaded, functions, now),
        }
    }

    /// Goes on with an operation that waits for a page, as [`Partition::load_on_key`] does, with the page that is read here, by the
    /// receipt that is kept of it: so the page is the one that was asked for, and is compared with none. Where nothing is
    /// open there, the operation waits for no page, or Begin has moved, nothing is read. Refused as `load` is, but never by
    /// `Stranger`; and by what the reader tells, and `NoMemory` where the receipt can't be shared: then nothing changes, and
    /// the page may be asked for again.
    pub(crate) fn load_by_on_key<P: PageReader<Receipt = R>>(
        &mut self,
        slot: usize,
        context: usize,
        functions: &F,
        reader: &mut P,
        now: u64,
    ) -> Result<ProgressOf<F, R>, Refused>
        requires later { self.old.moment < now }
        ensures effect { LoadsBy R.stands (IsEntryIn F.Key.codec F.Value.codec) F.Key.cmp F.parts.joined F.meaning self.old self.new slot context now
            (P.failures reader.old) (P.failures reader.new) result }
        ensures event { IsTrue R.keeps → IfOk result
            (λ progress. IsLoaded F.Key.cmp F.meaning self.old self.new slot context now progress) }
        // on a device that keeps, it finds no damage, and tells only of what the reader counted
        ensures undamaged { IsTrue R.keeps → (page : ℕ) → result ≡ Err (Refused.Damaged page)
            → P.failures reader.new ≡ P.failures reader.old + 1 }
        ensures once { P.reads reader.new ≤ P.reads reader.old + 1 }
        ensures unread { ((page : ℕ) → WaitsFor self.old slot context page → ⊥) → reader.new ≡ reader.old }
        ensures caused { P.failures reader.new ≢ P.failures reader.old → (page : ℕ)
            × MayFail R.stands P.can_fail self.old.records.log.receipts self.old.records.log.bits page }
        ensures within { IfOk result (λ _. (slot < 16) × (context < 8)) }
        ensures moment { self.new.moment ≤ now }
    {
        let Some(open) = self.open(slot, context) else {
            return Err(Refused::Unknown);
        };
        let Some(loading) = loading_of(&open.phase) else {
            return Err(Refused::NotReady);
        };
        let begin = self.records.begin();
        if loading.begin != begin {
            self.set_phase(slot, context, &open, Phase::Fresh, now);
            return Ok(Progress::Next);
        }
        self.facts();
        let page = self.records.page_of(loading.wanted);
        match self.read(reader, page) {
            Err(refused) => Err(refused),
            Ok(loaded) => self.resume_look_up(
                slot, context, &open, loading, loaded, functions, now,
            ),
        }
    }

    /// Reads a flushed page by the receipt that is kept of it. Refused: `NoMemory`, or as the reader tells.
    pub(crate) fn read<P: PageReader<Receipt = R>>(
        &self,
        reader: &mut P,
        page: u64,
    ) -> Result<Loaded<R>, Refused>
        requires flushed { HasReceipt self.now.records.log.receipts page }
        ensures own { IfOk result (λ l. IsHeldBy self.now.records.log.receipts page (R.stands l.receipt)) }
        ensures steady { OnOk result (P.failures reader.new ≡ P.failures reader.old) }
        ensures counted { IfErr result (ReadFailsBy page (P.failures reader.old) (P.failures reader.new)) }
        ensures once { P.reads reader.new ≤ P.reads reader.old + 1 }
        ensures caused { IfErr result (λ e. e ≢ Refused.NoMemory
            → MayFail R.stands P.can_fail self.now.records.log.receipts self.now.records.log.bits page) }
    {
        self.records.log().facts();
        let receipt = match self.records.receipt(page) {
            Err(refused) => return Err(refused),
            Ok(receipt) => receipt,
        };
        Loaded::fetch(reader, &receipt, self.records.log().shape().page_size())
    }

    /// Takes a page that came for an operation, where it is the one that is kept.
    fn receive(
        &mut self,
        slot: usize,
        context: usize,
        operation: &ContextOf<F>,
        loading: Loading<F::Value>,
        loaded: Loaded<R>,
        functions: &F,
        now: u64,
    ) -> Result<ProgressOf<F, R>, Refused>
        requires later { self.old.moment < now }
        requires session { slot < 16 }
        requires context { context < 8 }
        requires awaits { AwaitsPage self.old slot context operation.now loading }
        ensures effect { Loads R.stands (IsEntryIn F.Key.codec F.Value.codec) F.Key.cmp F.parts.joined F.meaning self.old self.new slot context (Ok loaded) now result }
        ensures event { IsTrue R.keeps → IfOk result
            (λ progress. IsLoaded F.Key.cmp F.meaning self.old self.new slot context now progress) }
        ensures undamaged { IsTrue R.keeps → (page : ℕ) → result ≢ Err (Refused.Damaged page) }
        ensures moment { self.new.moment ≤ now }
    {
        self.facts();
        let page = self.records.page_of(loading.wanted);
        if let Err(refused) = self.records.is_own(&loaded, page) {
            return Err(refused);
        }
        self.resume_look_up(slot, context, operation, loading, loaded, functions, now)
    }

    /// Follows the records of the page that an operation waits for.
    fn resume_look_up(
        &mut self,
        slot: usize,
        context: usize,
        operation: &ContextOf<F>,
        loading: Loading<F::Value>,
        loaded: Loaded<R>,
        functions: &F,
        now: u64,
    ) -> Result<ProgressOf<F, R>, Refused>
        requires later { self.old.moment < now }
        requires session { slot < 16 }
        requires context { context < 8 }
        requires awaits { AwaitsPage self.old slot context operation.now loading }
        requires own { IsHeldBy self.old.records.log.receipts (page_at self.old.records.log.bits loading.wanted)
            (R.stands loaded.receipt) }
        ensures effect { Loads R.stands (IsEntryIn F.Key.codec F.Value.codec) F.Key.cmp F.parts.joined F.meaning self.old self.new slot context (Ok loaded) now result }
        ensures event { IsTrue R.keeps → IfOk result
            (λ progress. IsLoaded F.Key.cmp F.meaning self.old self.new slot context now progress) }
        ensures undamaged { IsTrue R.keeps → (page : ℕ) → result ≢ Err (Refused.Damaged page) }
        ensures moment { self.new.moment ≤ now }
    {
        self.facts();
        lookups_tell::<F::Key, F::Value>();
        let key = operation.op.key();
        let page = self.records.page_of(loading.wanted);
        let low = self.records.first_of(page);
        let came = match self.records.trace_in(
            functions,
            &loaded,
            &key,
            loading.wanted,
            low,
            loading.parts,
        ) {
            Err(_damaged) => {
                self.free(slot, context, now);
                return Err(Refused::Damaged { page });
            }
            Ok(came) => came,
        };
        let parts = came.parts;
        match came.position {
            ChainPosition::Found(last) => {
                let value = combined(functions, last.value, parts);
                Ok(self.tell(slot, context, operation, loading, value, functions, now))
            }
            ChainPosition::Below(address) => {
                if address < self.records.begin() {
                    return Ok(self.tell(slot, context, operation, loading, parts, functions, now));
                }
                if !self.records.is_record_start(address) {
                    self.free(slot, context, now);
                    return Err(Refused::Damaged { page });
                }
                self.look_further(slot, context, operation, loading, address, parts, now)
            }
        }
    }

    /// Finishes a read with a value of its key, or none, or asks for what an update makes of that value.
    fn tell(
        &mut self,
        slot: usize,
        context: usize,
        operation: &ContextOf<F>,
        loading: Loading<F::Value>,
        value: Option<F::Value>,
        functions: &F,
        now: u64,
    ) -> ProgressOf<F, R>
        requires later { self.old.moment < now }
        requires session { slot < 16 }
        requires context { context < 8 }
        requires awaits { AwaitsPage self.old slot context operation.now loading }
        requires asks { MayLoad operation.now.op }
        requires kept { IsKept R.keeps F.Key.cmp F.code self.old.records (key_of operation.now.op) loading.kept value }
        ensures read { (k : F.Key) (i : F.Input)
            → operation.now.op ≡ Read k i
            → (self.new ≡ with_context self.old slot context None now)
            × (result ≡ Progress.Done (shown_of F.meaning k i value) loading.looked) }
        ensures update { (k : F.Key) (i : F.Input)
            → operation.now.op ≡ Rmw k i
            → (self.new ≡ with_context self.old slot context
            (Some (at_phase operation.now (Prepared loading.kept value))) now)
            × (result ≡ Progress.NeedsBuild
            (record { number = operation.now.number; key = k; source = value; input = i })) }
        ensures moment { self.new.moment ≤ now }
    {
        match operation.op {
            KeyedOp::Read(key, input) => {
                self.free(slot, context, now);
                Progress::Done(shown(functions, &key, &input, value), loading.looked)
            }
            KeyedOp::Rmw(key, input) => {
                let ask = Ask {
                    number: operation.number,
                    key,
                    source: value,
                    input,
                };
                let prepared = Phase::Prepared {
                    kept: loading.kept,
                    source: value,
                };
                self.set_phase(slot, context, operation, prepared, now);
                Progress::NeedsBuild(ask)
            }
            KeyedOp::Upsert(_, _) | KeyedOp::Delete(_) | KeyedOp::Merge(_, _) => unreachable!(),
        }
    }

    /// Asks for the page in which the records of a key's class go on. Refused, and then nothing changes: `NoMemory`.
    fn look_further(
        &mut self,
        slot: usize,
        context: usize,
        operation: &ContextOf<F>,
        loading: Loading<F::Value>,
        address: Address,
        parts: Option<F::Value>,
        now: u64,
    ) -> Result<ProgressOf<F, R>, Refused>
        requires later { self.old.moment < now }
        requires session { slot < 16 }
        requires context { context < 8 }
        requires awaits { AwaitsPage self.old slot context operation.now loading }
        requires asks { MayLoad operation.now.op }
        requires flushed { HasReceipt self.old.records.log.receipts (page_at self.old.records.log.bits address) }
        requires stands { IsLoading R.keeps F.Key.cmp F.parts.joined F.code self.old.records (key_of operation.now.op)
            (record loading { wanted = address; parts = parts }) }
        ensures asked { IfOk result (λ progress. (r : R)
            × (progress ≡ Progress.NeedsLoad r address)
            × IsHeldBy self.old.records.log.receipts (page_at self.old.records.log.bits address) (R.stands r)) }
        ensures effect { OnOk result (self.new ≡ with_context self.old slot context
            (Some (at_phase operation.now (Load (record loading { wanted = address; parts = parts })))) now) }
        ensures only { IfErr result (λ refused. refused ≡ Refused.NoMemory) }
        ensures unchanged { OnErr result (self.new ≡ self.old) }
        ensures moment { self.new.moment ≤ now }
    {
        let page = self.records.page_of(address);
        let receipt = match self.records.receipt(page) {
            Err(refused) => return Err(refused),
            Ok(receipt) => receipt,
        };
        let further = Loading {
            begin: loading.begin,
            kept: loading.kept,
            wanted: address,
            parts,
            looked: loading.looked,
        };
        self.set_phase(slot, context, operation, Phase::Load(further), now);
        Ok(Progress::NeedsLoad(receipt, address))
    }
}
