//! Pages on their way to a device; and the log's start, which is cut: records below are dropped, and no entry leads there any more.
ghost use Rattle.std.specs.Prelude.{◌≡◌, ◌-◌, ◌<◌, None, Err, IfOk, IfErr, IfSome, OnOk, OnErr, length, ◌↔◌, IsOk};
ghost use Rattle.fkv_hybrid.specs.Loads.{HasReceipt, IsHeldBy};
ghost use Rattle.fkv_hybrid.specs.Flushes.{flush_refusal};
ghost use Rattle.fkv_lookups.specs.RecordsViews.{with_receipt, truncated};
ghost use Rattle.fkv_records.specs.Places.{start_at};
ghost use Rattle.fkv_index.specs.Changes.{Sweeps, SameTentative};
ghost use Rattle.fkv_hybrid.specs.Views.{IsTruncationDue};

use crate::records::Records;
use fkv_device::{Receipt, Written};
use fkv_functions::{Mergeable, Refused};

impl<F: Mergeable, R: Receipt> Records<F, R> {
    /// Takes in that the lowest page that is not flushed was written, and keeps its receipt. Refused, and then nothing
    /// changes: as [`fkv_hybrid::Log::flush_refusal`] says, and then `NoMemory`.
    pub fn flush_done(&mut self, written: Written<R>) -> Result<(), Refused>
        ensures refused { IfSome (flush_refusal self.old.log (R.stands written.receipt).page written.bytes)
            (λ why. result ≡ Err why) }
        ensures only { flush_refusal self.old.log (R.stands written.receipt).page written.bytes ≡ None
            → IfErr result (λ why. why ≡ Refused.NoMemory) }
        ensures done { OnOk result (self.new ≡ with_receipt self.old (R.stands written.receipt)) }
        ensures unchanged { OnErr result (self.new ≡ self.old) }
    {
        let done = self.log.flush_done(written);
        self.log.facts();
        done
    }

    /// A receipt of a flushed page that is not dropped, by which it can be read. Refused: `NoMemory`.
    pub fn receipt(&self, page: u64) -> Result<R, Refused>
        requires { HasReceipt self.now.log.receipts page }
        ensures stands { IfOk result (λ r. IsHeldBy self.now.log.receipts page (R.stands r)) }
        ensures memory { IfErr result (λ refused. refused ≡ Refused.NoMemory) }
    {
        self.log.receipt(page)
    }
}

impl<F: Mergeable, R: Receipt> Records<F, R> {
    /// Moves Begin to the start of a page: records below are dropped, and the entries that lead there are emptied.
    /// Refused, and then nothing changes: `NotDue` where Begin would not rise, or would pass Head.
    pub fn truncate(&mut self, page: u64) -> Result<(), Refused>
        ensures ok { IsOk result ↔ IsTruncationDue self.old.log page }
        ensures effect { OnOk result (self.new
            ≡ truncated R.keeps self.old (start_at self.old.log.bits page) self.new.text) }
        ensures sweeps { OnOk result (Sweeps (start_at self.old.log.bits page) self.old.words self.new.words) }
        ensures tentative { OnOk result (SameTentative self.old.words self.new.words) }
        ensures only { IfErr result (λ refused. refused ≡ Refused.NotDue) }
        ensures unchanged { OnErr result (self.new ≡ self.old) }
    {
        match self.log.truncate(page) {
            Ok(()) => (),
            Err(refused) => return Err(refused),
        }
        self.log.facts();
        let begin = self.log.begin();
        self.index.sweep(begin);
        Ok(())
    }
}
