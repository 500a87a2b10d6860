//! What an operation does when it goes on.
ghost use Rattle.std.specs.Prelude.{◌≡◌, ◌<◌, ◌≤◌, IsSome, Option, Some, None, false, Ok, IfOk, OnErr};
ghost use Rattle.fkv_operations.specs.After.{key_of};
ghost use Rattle.fkv_lookups.specs.RecordsViews.{class_in, IsEntryOf};
ghost use Rattle.fkv_texts.specs.Text.{entry_at, last_of};
ghost use Rattle.fkv_partition.specs.Contexts.{question_in, claim_by, loading_by};
ghost use Rattle.fkv_partition.specs.Views.{context_at, found_for};
ghost use Rattle.fkv_partition.specs.Writes.{IsWrite};
ghost use Rattle.fkv_partition.specs.KeyGoing.{Decides, IsDecided, Goes};
ghost use Rattle.fkv_partition.specs.KeyEffect.{IsEvent};

use crate::changes::Write;
use crate::contexts::{
    ContextOf, Loading, Phase, Progress, ProgressOf, Wait, claim_of, loading_of, question_of,
};
use crate::looking::address_of;
use crate::partitions::Partition;
use fkv_device::Receipt;
use fkv_functions::{Ask, Mergeable, Refused};
use fkv_index::Place;
use fkv_lookups::Decision;
use fkv_lookups::laws::{entries_lead, lookups_tell, meetings_tell, records_change, records_grow};
use fkv_operations::{AnswerOf, IndexEntry};
use fkv_records::Address;
use fkv_texts::{ChainPosition, Entry};

impl<F: Mergeable, R: Receipt> Partition<F, R> {
    /// Goes on with an operation: it looks its key up, and what it meets decides. A read is finished with
    /// its answer, and a delete of a key without a value. A write of a class without an entry makes a tentative one
    /// and answers `Next`; the next call confirms it, or takes it back where another entry of its tag stands in the
    /// bucket, and answers `Next` too. Where there is an entry, the region of the key's last record by the session's view
    /// decides. Where that is a delta, the parts of the key's deltas are joined with what it had before, for a read or an
    /// update. A mutable value is changed where it stands, by an upsert, an update or a delete, which is finished.
    /// A merge joins its part to a mutable value where that stands, and appends it as a delta else, whatever the key has.
    /// Else an upsert, and a delete of a value, append a record and are finished; and an update keeps the entry and the
    /// key's value and asks for the new one, the same again until it is installed, but over a fuzzy value it answers
    /// `Waits`. Where the records of the key's class go on below what the session reads in memory, a read and an update
    /// ask for the page there. Where a record is to be appended and there is no room, the answer is `Waits` too. Refused,
    /// in this order, and then nothing changes: `Unknown` where no operation is open there; `NotReady` where it waits
    /// for a page; `Worn` where a record is to be appended and no address is left; `NoMemory` where an entry is to be
    /// made and no place of its bucket is empty, or where the receipt of a page can't be shared.
    pub(crate) fn go_on_key(
        &mut self,
        slot: usize,
        context: usize,
        functions: &F,
        now: u64,
    ) -> Result<ProgressOf<F, R>, Refused>
        requires later { self.old.moment < now }
        ensures effect { Goes R.stands F.Key.cmp F.parts.joined F.meaning F.code self.old self.new slot context now result }
        ensures event { IfOk result
            (λ progress. IsEvent F.Key.cmp F.meaning self.old self.new slot context now progress) }
        ensures within { IfOk result (λ _. (slot < 16) × (context < 8)) }
        ensures unchanged { OnErr result (self.new ≡ self.old) }
        ensures moment { self.new.moment ≤ now }
    {
        let Some(open) = self.open(slot, context) else {
            return Err(Refused::Unknown);
        };
        if let Some(question) = question_of(&open) {
            self.pass(now);
            return Ok(Progress::NeedsBuild(question.1));
        }
        if let Some(place) = claim_of(&open.phase) {
            return Ok(self.confirm_claim(slot, context, &open, place, now));
        }
        if let Some(_loading) = loading_of(&open.phase) {
            return Err(Refused::NotReady);
        }
        self.look_up(slot, context, &open, functions, now)
    }

    /// Confirms the entry that an operation made, or takes it back; the operation is to look again.
    fn confirm_claim(
        &mut self,
        slot: usize,
        context: usize,
        operation: &ContextOf<F>,
        place: Place,
        now: u64,
    ) -> ProgressOf<F, R>
        requires session { slot < 16 }
        requires context { context < 8 }
        requires here { context_at self.old slot context ≡ Some operation.now }
        requires phase { claim_by operation.now.phase ≡ Some place }
        ensures effect { Goes R.stands F.Key.cmp F.parts.joined F.meaning F.code self.old self.new slot context now (Ok result) }
        ensures event { IsEvent F.Key.cmp F.meaning self.old self.new slot context now result }
        ensures moment { self.new.moment ≤ now }
    {
        let _is_final = self.confirm(slot, context, operation, place, now);
        Progress::Next
    }

    /// Looks the key of an operation up, and does what is decided.
    fn look_up(
        &mut self,
        slot: usize,
        context: usize,
        operation: &ContextOf<F>,
        functions: &F,
        now: u64,
    ) -> Result<ProgressOf<F, R>, Refused>
        requires later { self.old.moment < now }
        requires session { slot < 16 }
        requires context { context < 8 }
        requires here { context_at self.old slot context ≡ Some operation.now }
        requires asks_nothing { question_in operation.now ≡ None }
        requires unclaimed { claim_by operation.now.phase ≡ None }
        requires unloading { loading_by operation.now.phase ≡ None }
        ensures effect { Goes R.stands F.Key.cmp F.parts.joined F.meaning F.code self.old self.new slot context now result }
        ensures event { IfOk result
            (λ progress. IsEvent F.Key.cmp F.meaning self.old self.new slot context now progress) }
        ensures unchanged { OnErr result (self.new ≡ self.old) }
        ensures moment { self.new.moment ≤ now }
    {
        self.facts();
        let _merges = self.merges();
        entries_lead::<F::Key, F::Value>();
        lookups_tell::<F::Key, F::Value>();
        meetings_tell::<F::Key, F::Value>();
        let key = operation.op.key();
        let (class, entry) = self.find(functions, &key);
        let address = address_of(&entry);
        let first = self.newest_in_memory(slot, &key, address);
        match self.decided(slot, functions, &operation.op, address, &first) {
            Decision::Done(answer) => {
                self.free(slot, context, now);
                Ok(Progress::Done(answer, now))
            }
            Decision::Claim => {
                let Ok(()) = self.claim(slot, context, operation, class, now) else {
                    return Err(Refused::NoMemory);
                };
                Ok(Progress::Next)
            }
            Decision::Append(payload, answer) => {
                let Some(entry) = entry else { unreachable!() };
                let write = Write {
                    entry,
                    key,
                    payload,
                };
                self.write(slot, context, write, answer, now)
            }
            Decision::Replace(value, answer) => {
                let ChainPosition::Found(last) = first else {
                    unreachable!()
                };
                Ok(self.rewrite(slot, context, operation, last, value, answer, now))
            }
            Decision::Wait => {
                self.pass(now);
                Ok(Progress::Waits(Wait::Fuzzy))
            }
            Decision::Prepare(source, input) => {
                let Some(kept) = entry else { unreachable!() };
                let ask = Ask {
                    number: operation.number,
                    key,
                    source,
                    input,
                };
                Ok(self.prepare(slot, context, operation, kept, ask, now))
            }
            Decision::Load(wanted, parts) => {
                let Some(kept) = entry else { unreachable!() };
                self.ask_page(slot, context, operation, kept, wanted, parts, now)
            }
        }
    }

    /// Appends the record of a write, which is then done, or waits where there is no room. Refused, and then nothing
    /// changes: `Worn`.
    fn write(
        &mut self,
        slot: usize,
        context: usize,
        write: Write<F::Key, F::Value>,
        answer: AnswerOf<F>,
        now: u64,
    ) -> Result<ProgressOf<F, R>, Refused>
        requires later { self.old.moment < now }
        requires session { slot < 16 }
        requires context { context < 8 }
        requires write { IsWrite F.code self.old write }
        requires entry { found_for F.code self.old write.key ≡ Some write.entry }
        requires decided { IsDecided F.Key.cmp F.parts.joined F.meaning F.code self.old slot context
            write.key (Decision.Append write.payload answer) }
        ensures effect { Goes R.stands F.Key.cmp F.parts.joined F.meaning F.code self.old self.new slot context now result }
        ensures event { IfOk result
            (λ progress. IsEvent F.Key.cmp F.meaning self.old self.new slot context now progress) }
        ensures unchanged { OnErr result (self.new ≡ self.old) }
        ensures moment { self.new.moment ≤ now }
    {
        self.facts();
        let _merges = self.merges();
        records_grow::<F::Key, F::Value>();
        match self.append(slot, context, write, now) {
            Err(refused) => Err(refused),
            Ok(None) => Ok(Progress::Waits(Wait::Full)),
            Ok(Some(_address)) => Ok(Progress::Done(answer, now)),
        }
    }

    /// Gives the last record of a key another value where it stands, or makes it a tombstone; the operation is then done.
    fn rewrite(
        &mut self,
        slot: usize,
        context: usize,
        operation: &ContextOf<F>,
        last: Entry<F::Key, F::Value>,
        value: Option<F::Value>,
        answer: AnswerOf<F>,
        now: u64,
    ) -> ProgressOf<F, R>
        requires session { slot < 16 }
        requires context { context < 8 }
        requires last { last_of F.Key.cmp self.old.records.text (key_of operation.now.op) ≡ Some last }
        requires stands { entry_at self.old.records.text last.address ≡ Some last }
        requires whole { last.delta ≡ false }
        requires decided { Decides F.Key.cmp F.parts.joined F.meaning F.code self.old slot context operation.now
            (Decision.Replace value answer) }
        ensures effect { Goes R.stands F.Key.cmp F.parts.joined F.meaning F.code self.old self.new slot context now (Ok result) }
        ensures event { IsEvent F.Key.cmp F.meaning self.old self.new slot context now result }
        ensures moment { self.new.moment ≤ now }
    {
        self.facts();
        let _merges = self.merges();
        entries_lead::<F::Key, F::Value>();
        records_change::<F::Key, F::Value>();
        meetings_tell::<F::Key, F::Value>();
        self.replace(slot, context, last.address, value, now);
        Progress::Done(answer, now)
    }

    /// Keeps the entry as it stands and the value that was met, and asks for the new one.
    fn prepare(
        &mut self,
        slot: usize,
        context: usize,
        operation: &ContextOf<F>,
        kept: IndexEntry,
        ask: Ask<F::Key, F::Value, F::Input>,
        now: u64,
    ) -> ProgressOf<F, R>
        requires session { slot < 16 }
        requires context { context < 8 }
        requires kept { found_for F.code self.old (key_of operation.now.op) ≡ Some kept }
        requires stands { IsEntryOf self.old.records
            (class_in F.code self.old.records (key_of operation.now.op)) kept }
        requires number { ask.number ≡ operation.now.number }
        requires key { ask.key ≡ key_of operation.now.op }
        requires decided { Decides F.Key.cmp F.parts.joined F.meaning F.code self.old slot context operation.now
            (Decision.Prepare ask.source ask.input) }
        ensures effect { Goes R.stands F.Key.cmp F.parts.joined F.meaning F.code self.old self.new slot context now (Ok result) }
        ensures event { IsEvent F.Key.cmp F.meaning self.old self.new slot context now result }
        ensures moment { self.new.moment ≤ now }
    {
        self.facts();
        entries_lead::<F::Key, F::Value>();
        meetings_tell::<F::Key, F::Value>();
        let source = ask.source;
        self.set_phase(
            slot,
            context,
            operation,
            Phase::Prepared { kept, source },
            now,
        );
        Progress::NeedsBuild(ask)
    }

    /// Keeps Begin, the entry as it stands, the address to which the records of the key's class lead on disk and the parts
    /// of the key's deltas above, and asks for the page there. Refused, and then nothing changes: `NoMemory`.
    fn ask_page(
        &mut self,
        slot: usize,
        context: usize,
        operation: &ContextOf<F>,
        kept: IndexEntry,
        wanted: Address,
        parts: Option<F::Value>,
        now: u64,
    ) -> Result<ProgressOf<F, R>, Refused>
        requires later { self.old.moment < now }
        requires session { slot < 16 }
        requires context { context < 8 }
        requires kept { found_for F.code self.old (key_of operation.now.op) ≡ Some kept }
        requires stands { IsEntryOf self.old.records
            (class_in F.code self.old.records (key_of operation.now.op)) kept }
        requires decided { Decides F.Key.cmp F.parts.joined F.meaning F.code self.old slot context operation.now
            (Decision.Load wanted parts) }
        ensures effect { Goes R.stands F.Key.cmp F.parts.joined F.meaning F.code self.old self.new slot context now result }
        ensures event { IfOk result
            (λ progress. IsEvent F.Key.cmp F.meaning self.old self.new slot context now progress) }
        ensures unchanged { OnErr result (self.new ≡ self.old) }
        ensures moment { self.new.moment ≤ now }
    {
        self.facts();
        entries_lead::<F::Key, F::Value>();
        meetings_tell::<F::Key, F::Value>();
        let page = self.records.page_of(wanted);
        let receipt = match self.records.receipt(page) {
            Err(refused) => return Err(refused),
            Ok(receipt) => receipt,
        };
        let loading = Loading {
            begin: self.records.begin(),
            kept,
            wanted,
            parts,
            looked: now,
        };
        self.set_phase(slot, context, operation, Phase::Load(loading), now);
        Ok(Progress::NeedsLoad(receipt, wanted))
    }
}
