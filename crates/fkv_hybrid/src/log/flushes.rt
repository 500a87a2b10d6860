//! Pages on their way to a device.
ghost use Rattle.std.specs.Prelude.{◌≡◌, ◌<◌, ◌++◌, ◌∷◌, ◌↔◌, ◌⊎◌, [], Some, None, Err, IfOk, IfErr, IfSome, OnOk, OnErr};
ghost use Rattle.std.specs.Prelude.{length, slice_get, IsTrue, false};
ghost use Rattle.fkv_records.specs.Places.{page_at};
ghost use Rattle.fkv_hybrid.specs.Views.{with_receipt};
ghost use Rattle.fkv_hybrid.specs.Loads.{HasReceipt, IsHeldBy};
ghost use Rattle.fkv_hybrid.specs.Flushes.{flush_refusal};

use crate::differences::refusal_of_bytes;
use crate::log::Log;
use fkv_device::{FlushJob, Page, Receipt, Written};
use fkv_functions::{Fixed, Refused, What};
use std::alloc::Global;
use std::collections::VecDeque;

impl<K: Fixed, V: Fixed, R: Receipt> Log<K, V, R> {
    /// The lowest page that is not flushed.
    pub fn unflushed(&self) -> u64
        ensures { result ≡ length self.now.receipts }
    {
        self.shape.page_of(self.begin) + self.receipts.len() as u64
    }

    /// Whether the lowest page that is not flushed ends at or below what is frozen, so that it waits.
    pub fn is_flush_due(&self) -> bool
        ensures waits { (result ≡ false) ↔ (self.now.waiting ≡ []) }
        ensures due { IsTrue result → length self.now.receipts < page_at self.now.bits self.now.regions.offsets.safe_read_only }
    {
        self.unflushed() < self.shape.page_of(self.regions.offsets().safe_read_only)
    }

    /// A copy of the lowest page that is not flushed. Refused: `NotDue` where it does not end at or below what is
    /// frozen, `NoMemory`.
    pub fn flush_take(&self, alloc: Global) -> Result<FlushJob, Refused>
        ensures page { IfOk result (λ job. job.page ≡ length self.now.receipts) }
        ensures bytes { IfOk result (λ job. slice_get self.now.waiting 0 ≡ Some job.bytes) }
        ensures due { (result ≡ Err Refused.NotDue) ↔ (self.now.waiting ≡ []) }
        ensures only { IfErr result (λ refused. (refused ≡ Refused.NotDue) ⊎ (refused ≡ Refused.NoMemory)) }
    {
        if !self.is_flush_due() {
            return Err(Refused::NotDue);
        }
        let page = self.unflushed();
        let held = self.frames.bytes(page);
        let Ok(bytes) = Page::copy_of(alloc, held) else {
            return Err(Refused::NoMemory);
        };
        Ok(FlushJob { page, bytes })
    }

    /// Why a written page would not be taken in, but for want of memory: `Stranger` where another page is the lowest
    /// that is not flushed, `NotDue` where that one does not wait, `Stranger` where its bytes are others.
    pub fn flush_refusal(&self, written: &Written<R>) -> Option<Refused>
        ensures { result ≡ flush_refusal self.now (R.stands written.now.receipt).page written.now.bytes }
    {
        let page = self.unflushed();
        if written.page() != page {
            return Some(Refused::Stranger {
                what: What::Page,
                held: page,
                came: written.page(),
            });
        }
        if !self.is_flush_due() {
            return Some(Refused::NotDue);
        }
        refusal_of_bytes(self.frames.bytes(page), written.bytes())
    }

    /// Takes in that the lowest page that is not flushed was written, and keeps its receipt. Refused, and then nothing
    /// changes: as [`Log::flush_refusal`] says, and then `NoMemory`.
    pub fn flush_done(&mut self, written: Written<R>) -> Result<(), Refused>
        ensures refused { IfSome (flush_refusal self.old (R.stands written.receipt).page written.bytes)
            (λ why. result ≡ Err why) }
        ensures only { flush_refusal self.old (R.stands written.receipt).page written.bytes ≡ None
            → IfErr result (λ why. why ≡ Refused.NoMemory) }
        ensures done { OnOk result (self.new ≡ with_receipt self.old (R.stands written.receipt)) }
        ensures unchanged { OnErr result (self.new ≡ self.old) }
    {
        if let Some(refused) = self.flush_refusal(&written) {
            return Err(refused);
        }
        let page = self.unflushed();
        match keep(&mut self.receipts, written.into_receipt()) {
            Ok(()) => {
                self.regions.raise_flushed(page + 1);
                Ok(())
            }
            Err(refused) => Err(refused),
        }
    }

    /// A receipt of a flushed page that is not dropped, by which it can be read. Refused: `NoMemory`.
    pub fn receipt(&self, page: u64) -> Result<R, Refused>
        requires { HasReceipt self.now.receipts page }
        ensures stands { IfOk result (λ r. IsHeldBy self.now.receipts page (R.stands r)) }
        ensures memory { IfErr result (λ refused. refused ≡ Refused.NoMemory) }
    {
        self.kept(page).again()
    }

    /// The receipt that is kept of a flushed page that is not dropped.
    pub(crate) fn kept(&self, page: u64) -> &R
        requires { HasReceipt self.now.receipts page }
        ensures { IsHeldBy self.now.receipts page (R.stands result.now) }
    {
        let first = self.shape.page_of(self.begin);
        &self.receipts[(page - first) as usize]
    }
}

/// Keeps one more receipt. Refused, and then the receipts are as they were: `NoMemory`.
fn keep<R: Receipt>(receipts: &mut VecDeque<R>, receipt: R) -> Result<(), Refused>
    ensures ok { OnOk result (receipts.new.items ≡ receipts.old.items ++ receipt ∷ []) }
    ensures unchanged { OnErr result (receipts.new.items ≡ receipts.old.items) }
    ensures only { IfErr result (λ refused. refused ≡ Refused.NoMemory) }
{
    match receipts.push_back(receipt) {
        Ok(()) => Ok(()),
        Err(_) => Err(Refused::NoMemory),
    }
}
