//! Records of flushed pages, read from what a device gave.
ghost use Rattle.std.specs.Prelude.{◌≡◌, ◌≢◌, ◌<◌, ◌≤◌, ◌↔◌, ◌⊎◌, Ok, IsOk, IfOk, IfErr, IfSome, OnOk, IsTrue, length};
ghost use Rattle.fkv_functions.specs.declared.refusals.What.TheVariants as what;
ghost use Rattle.fkv_records.specs.Places.{page_at, IsRecordStart};
ghost use Rattle.fkv_texts.specs.declared.entries.Entry.{Entry};
ghost use Rattle.fkv_texts.specs.Text.{entry_at};
ghost use Rattle.fkv_hybrid.specs.Spelled.{IsEntryIn};
ghost use Rattle.fkv_hybrid.specs.Loads.{HasReceipt, IsHeldBy, first_place};
ghost use Rattle.fkv_hybrid.specs.Views.{receipt_at};
ghost use Rattle.fkv_lookups.specs.declared.chain_results.ChainResult.{ChainResult};
ghost use Rattle.fkv_lookups.specs.Lookups.{IsOfClass, ComesToInPage, ComesTo};

use crate::chain_results::{ChainResult, combined, delta_at};
use crate::records::Records;
use fkv_device::{Loaded, Receipt};
use fkv_functions::{Mergeable, Refused};
use fkv_records::Address;
use fkv_texts::{ChainPosition, Entry};

impl<F: Mergeable, R: Receipt> Records<F, R> {
    /// The page of an address.
    pub fn page_of(&self, address: Address) -> u64
        ensures { result ≡ page_at self.now.log.bits address }
    {
        self.log.shape().page_of(address)
    }

    /// Whether a record may stand at an address.
    pub fn is_record_start(&self, address: Address) -> bool
        ensures { IsTrue result ↔ IsRecordStart self.now.log.bits self.now.record_size address }
    {
        self.log.shape().is_record_start(address)
    }

    /// Whether a page was read by the receipt that is kept of it. Refused: `Stranger` where it was read by another.
    pub fn is_own(&self, loaded: &Loaded<R>, page: u64) -> Result<(), Refused>
        requires { HasReceipt self.now.log.receipts page }
        ensures own { IsOk result ↔ IsHeldBy self.now.log.receipts page (R.stands loaded.now.receipt) }
        ensures stranger { IfErr result (λ refused. IfSome (receipt_at self.now.log.receipts page) (λ s.
            (s ≢ R.stands loaded.now.receipt)
            × (refused
            ≡ Refused.Stranger what.Receipt s.number (R.stands loaded.now.receipt).number))) }
    {
        self.log.is_own(loaded, page)
    }

    /// The record at an address of a flushed page, from the page as a device gave it by the receipt that is kept of it
    /// ([`Records::is_own`]). On a device that keeps it is the log's. Refused: `Damaged` where its bytes spell no
    /// record there.
    pub fn own_record_in(
        &self,
        loaded: &Loaded<R>,
        address: Address,
    ) -> Result<Entry<F::Key, F::Value>, Refused>
        requires own { IsHeldBy self.now.log.receipts (page_at self.now.log.bits address)
            (R.stands loaded.now.receipt) }
        ensures only { IfOk result (IsEntryIn F.Key.codec F.Value.codec self.now.log.bits loaded.now.bytes address) }
        ensures found { (e : Entry F.Key F.Value)
            → IsEntryIn F.Key.codec F.Value.codec self.now.log.bits loaded.now.bytes address e
            → result ≡ Ok e }
        ensures damaged { IfErr result (λ refused. refused ≡ Refused.Damaged (page_at self.now.log.bits address)) }
        ensures kept { IsTrue R.keeps → IfSome (entry_at self.now.log.text address) (λ e. result ≡ Ok e) }
    {
        self.log.own_record_in(loaded, address)
    }

    /// Where the first record of a flushed page stands.
    pub fn first_of(&self, page: u64) -> Address
        requires { page < length self.now.log.receipts }
        ensures { result ≡ first_place self.now.log.bits page }
    {
        self.log.first_of(page)
    }

    /// Goes from an address of a flushed page along previous addresses, in the page as a device gave it by the receipt that
    /// is kept of it ([`Records::is_own`]): to the first record of a key that is no delta, joining the parts of deltas before
    /// those that are handed in, or below an address of the page. On a device that keeps, from a record of the key's class,
    /// these are the newest records of the key there and below. Refused: `Damaged` where the page's bytes spell no record on
    /// the way.
    pub fn trace_in(
        &self,
        functions: &F,
        loaded: &Loaded<R>,
        key: &F::Key,
        from: Address,
        low: Address,
        parts: Option<F::Value>,
    ) -> Result<ChainResult<F::Key, F::Value>, Refused>
        requires own { IsHeldBy self.now.log.receipts (page_at self.now.log.bits from) (R.stands loaded.now.receipt) }
        requires floor { first_place self.now.log.bits (page_at self.now.log.bits from) ≤ low }
        ensures damaged { IfErr result (λ refused. refused ≡ Refused.Damaged (page_at self.now.log.bits from)) }
        ensures read { ComesToInPage F.parts.joined (IsEntryIn F.Key.codec F.Value.codec self.now.log.bits loaded.now.bytes) F.Key.cmp key.now self.now.log.bits low
            from parts result }
        ensures kept { IsTrue R.keeps
            → self.now.log.begin ≤ from
            → IsOfClass F.code self.now key.now from
            → (r : ChainResult F.Key F.Value)
            × (result ≡ Ok r)
            × ComesTo F.Key.cmp F.parts.joined F.code self.now key.now low from parts r }
    {
        let page = self.page_of(from);
        let mut parts = parts;
        let mut position = match self.log.own_first_in_page(loaded, key, from, page, low) {
            Ok(position) => position,
            Err(refused) => return Err(refused),
        };
        while let Some(last) = delta_at(&position) {
            parts = combined(functions, last.value, parts);
            position = match self
                .log
                .own_first_in_page(loaded, key, last.previous, page, low)
            {
                Ok(position) => position,
                Err(refused) => return Err(refused),
            };
        }
        Ok(ChainResult { parts, position })
    }
}
