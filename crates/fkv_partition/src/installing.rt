//! How a built value becomes the key's.
ghost use Rattle.std.specs.Prelude.{◌≡◌, ◌<◌, ◌≤◌, Some, IsTrue, IfOk, OnErr};
ghost use Rattle.fkv_index.specs.Places.{word_at};
ghost use Rattle.fkv_partition.specs.Contexts.{question_in};
ghost use Rattle.fkv_partition.specs.Views.{context_at};
ghost use Rattle.fkv_partition.specs.KeyInstalling.{Asks, Installs};
ghost use Rattle.fkv_partition.specs.KeyEffect.{IsEvent};

use crate::changes::Write;
use crate::contexts::{Phase, Progress, ProgressOf, Wait, question_of};
use crate::partitions::Partition;
use fkv_device::Receipt;
use fkv_functions::{Built, Functions, Mergeable, Refused, What};
use fkv_lookups::Payload;
use fkv_lookups::laws::{entries_lead, records_grow};
use fkv_operations::{Answer, IndexEntry};

impl<F: Mergeable, R: Receipt> Partition<F, R> {
    /// Appends what was built for an update, where the place of its key's entry still holds the word that it held when
    /// the update asked; else the update is to look again, and the answer is `Next`. Where the functions decline the
    /// update, it is done and nothing is appended. Refused, in this order, and then
    /// nothing changes: `Unknown` where no operation is open there, `NotReady` where it asks for nothing
    /// to be built, `Stranger` where this answers another question; where it does, `Worn`
    /// where no address is left. Where there is no room for a record, the answer is `Waits`, and the update stays as it
    /// is.
    pub(crate) fn install_on_key(
        &mut self,
        slot: usize,
        context: usize,
        built: Built<F>,
        functions: &F,
        now: u64,
    ) -> Result<ProgressOf<F, R>, Refused>
        requires later { self.old.moment < now }
        ensures effect { Installs F.Key.cmp F.meaning F.code self.old self.new slot context built now result }
        ensures event { IsTrue R.keeps → IfOk result
            (λ progress. IsEvent F.Key.cmp F.meaning self.old self.new slot context now progress) }
        ensures within { IfOk result (λ _. (slot < 16) × (context < 8)) }
        ensures unchanged { OnErr result (self.new ≡ self.old) }
        ensures moment { self.new.moment ≤ now }
    {
        let Some(open) = self.open(slot, context) else {
            return Err(Refused::Unknown);
        };
        let Some(question) = question_of(&open) else {
            return Err(Refused::NotReady);
        };
        let kept = question.0;
        let mine = question.1;
        let ask = built.ask();
        if !ask.is(&mine) {
            return Err(Refused::Stranger {
                what: What::Built,
                held: mine.number,
                came: ask.number,
            });
        }
        if !self.records.holds(&kept) {
            self.set_phase(slot, context, &open, Phase::Fresh, now);
            return Ok(Progress::Next);
        }
        self.append_built(slot, context, kept, built, functions, now)
    }

    /// Appends what was built for an update, which is then done, or waits where there is no room. A declined update is
    /// done at once. Refused, and then nothing changes: `Worn`.
    fn append_built(
        &mut self,
        slot: usize,
        context: usize,
        kept: IndexEntry,
        built: Built<F>,
        functions: &F,
        now: u64,
    ) -> Result<ProgressOf<F, R>, Refused>
        requires later { self.old.moment < now }
        requires session { slot < 16 }
        requires context { context < 8 }
        requires asks { Asks self.old slot context kept built }
        requires stands { word_at self.old.records.words kept.place ≡ kept.word }
        ensures effect { Installs F.Key.cmp F.meaning F.code self.old self.new slot context built now result }
        ensures event { IsTrue R.keeps → IfOk result
            (λ progress. IsEvent F.Key.cmp F.meaning self.old self.new slot context now progress) }
        ensures unchanged { OnErr result (self.new ≡ self.old) }
        ensures moment { self.new.moment ≤ now }
    {
        self.facts();
        entries_lead::<F::Key, F::Value>();
        records_grow::<F::Key, F::Value>();
        let ask = built.ask();
        let Some(value) = built.value() else {
            self.free(slot, context, now);
            return Ok(Progress::Done(Answer::Declined, now));
        };
        let write = Write {
            entry: kept,
            key: ask.key,
            payload: Payload::Whole(Some(value)),
        };
        match self.append(slot, context, write, now) {
            Err(refused) => Err(refused),
            Ok(None) => Ok(Progress::Waits(Wait::Full)),
            Ok(Some(_address)) => {
                let shown = functions.read(&ask.key, &ask.input, &value);
                Ok(Progress::Done(Answer::Value(shown), now))
            }
        }
    }
}
