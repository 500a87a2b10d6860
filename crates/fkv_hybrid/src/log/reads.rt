//! Entries one by one: along previous addresses in frames, and those of flushed pages, read from what a device gave.
ghost use Rattle.std.specs.Prelude.{◌≡◌, ◌≢◌, ◌<◌, ◌≤◌, ◌↔◌, ℕ, List, Ok, Err, IsOk, IfOk, IfErr, IfSome, OnOk, IsTrue, find, length};
ghost use Rattle.std.specs.Prelude.{Some, IsSome};
ghost use Rattle.fkv_records.specs.Places.{page_at};
ghost use Rattle.fkv_texts.specs.Text.{entry_at, has_key};
ghost use Rattle.fkv_texts.specs.Chains.{IsChainFrom, leads_to, reached};
ghost use Rattle.fkv_texts.specs.declared.entries.Entry.{Entry};
ghost use Rattle.fkv_hybrid.specs.Spelled.{IsEntryIn};
ghost use Rattle.fkv_hybrid.specs.Loads.{HasReceipt, IsHeldBy, IsReached, first_place};
ghost use Rattle.fkv_hybrid.specs.Views.{receipt_at};

use crate::loads::{entry_in, reached_in};
use crate::log::Log;
use fkv_device::{Loaded, Receipt};
use fkv_functions::{Fixed, FixedKey, Refused, What};
use fkv_records::fields::{is_of, link_of, value_of};
use fkv_records::{Address, FIRST};
use fkv_texts::entries::entry_with;
use fkv_texts::{ChainPosition, Entry};

impl<K: Fixed, V: Fixed, R: Receipt> Log<K, V, R> {
    /// The entry at an address of a flushed page, from the page as a device gave it. On a device that keeps it is the
    /// text's. Refused: `Stranger` where the page was read by another receipt than the one that is kept of it,
    /// `Damaged` where its bytes spell no entry there.
    pub fn record_in(&self, loaded: &Loaded<R>, address: Address) -> Result<Entry<K, V>, Refused>
        requires held { HasReceipt self.now.receipts (page_at self.now.bits address) }
        ensures stranger { IfSome (receipt_at self.now.receipts (page_at self.now.bits address)) (λ s.
            s ≢ R.stands loaded.now.receipt
            → result ≡ Err (Refused.Stranger What.Receipt s.number (R.stands loaded.now.receipt).number)) }
        // who is answered knows that the page is the one that is kept
        ensures own { OnOk result (IsHeldBy self.now.receipts (page_at self.now.bits address)
            (R.stands loaded.now.receipt)) }
        ensures only { IsHeldBy self.now.receipts (page_at self.now.bits address) (R.stands loaded.now.receipt)
            → IfOk result (IsEntryIn K.codec V.codec self.now.bits
            loaded.now.bytes address) }
        ensures found { IsHeldBy self.now.receipts (page_at self.now.bits address) (R.stands loaded.now.receipt)
            → (e : Entry K V)
            → IsEntryIn K.codec V.codec self.now.bits
            loaded.now.bytes address e
            → result ≡ Ok e }
        ensures damaged { IsHeldBy self.now.receipts (page_at self.now.bits address)
            (R.stands loaded.now.receipt)
            → IfErr result (λ refused. refused ≡ Refused.Damaged (page_at self.now.bits address)) }
        ensures kept { IsTrue R.keeps
            → IsHeldBy self.now.receipts (page_at self.now.bits address) (R.stands loaded.now.receipt)
            → IfSome (entry_at self.now.text address) (λ e. result ≡ Ok e) }
    {
        let page = self.shape.page_of(address);
        if let Err(refused) = self.is_own(loaded, page) {
            return Err(refused);
        }
        self.own_record_in(loaded, address)
    }

    /// The entry at an address of a flushed page, from the page as a device gave it by the receipt that is kept of it:
    /// receipts are not compared. On a device that keeps it is the text's. Refused: `Damaged` where its bytes spell no
    /// entry there.
    pub fn own_record_in(
        &self,
        loaded: &Loaded<R>,
        address: Address,
    ) -> Result<Entry<K, V>, Refused>
        requires own { IsHeldBy self.now.receipts (page_at self.now.bits address) (R.stands loaded.now.receipt) }
        ensures only { IfOk result (IsEntryIn K.codec V.codec self.now.bits
            loaded.now.bytes address) }
        ensures found { (e : Entry K V)
            → IsEntryIn K.codec V.codec self.now.bits
            loaded.now.bytes address e
            → result ≡ Ok e }
        ensures damaged { IfErr result (λ refused. refused ≡ Refused.Damaged (page_at self.now.bits address)) }
        ensures kept { IsTrue R.keeps → IfSome (entry_at self.now.text address) (λ e. result ≡ Ok e) }
    {
        let _receipt = loaded.receipt();
        entry_in(self.shape, loaded.bytes(), address)
    }

    /// Whether a page was read by the receipt that is kept of it. Refused: `Stranger` where it was read by another.
    pub fn is_own(&self, loaded: &Loaded<R>, page: u64) -> Result<(), Refused>
        requires { HasReceipt self.now.receipts page }
        ensures own { IsOk result ↔ IsHeldBy self.now.receipts page (R.stands loaded.now.receipt) }
        ensures stranger { IfErr result (λ refused. IfSome (receipt_at self.now.receipts page) (λ s.
            (s ≢ R.stands loaded.now.receipt)
            × (refused ≡ Refused.Stranger What.Receipt s.number (R.stands loaded.now.receipt).number))) }
        // what is known of any page that was read
        ensures length { (R.stands loaded.now.receipt).length ≡ length loaded.now.bytes }
        ensures kept { IsTrue R.keeps → (R.stands loaded.now.receipt).bytes ≡ loaded.now.bytes }
    {
        let held = self.kept(page);
        if !loaded.receipt().same(held) {
            return Err(Refused::Stranger {
                what: What::Receipt,
                held: held.number(),
                came: loaded.receipt().number(),
            });
        }
        Ok(())
    }
}

impl<K: FixedKey, V: Fixed, R: Receipt> Log<K, V, R> {
    /// Goes from an address along previous addresses, in a flushed page as a device gave it by the receipt that is kept
    /// of it, to the first entry of a key, or to below the page: receipts are not compared. The address is at most in
    /// the page, and may lie below it. Refused: `Damaged` where the page's bytes spell no entry there.
    pub fn own_first_in_page(
        &self,
        loaded: &Loaded<R>,
        key: &K,
        from: Address,
        page: u64,
        low: Address,
    ) -> Result<ChainPosition<K, V>, Refused>
        requires own { IsHeldBy self.now.receipts page (R.stands loaded.now.receipt) }
        requires within { page_at self.now.bits from ≤ page }
        requires floor { first_place self.now.bits page ≤ low }
        ensures damaged { IfErr result (λ refused. refused ≡ Refused.Damaged page) }
        ensures read { IsReached (IsEntryIn K.codec V.codec self.now.bits
            loaded.now.bytes) K.cmp key.now self.now.bits low from result }
        // on a device that keeps, it is the text's chain
        ensures kept { IsTrue R.keeps
            → (es : List (Entry K V))
            → IsChainFrom low self.now.text from es
            → result ≡ Ok (reached (find (has_key K.cmp key.now) es) (leads_to from es)) }
    {
        let _receipt = loaded.receipt();
        let _page = page;
        reached_in(self.shape, loaded.bytes(), key, from, low)
    }
    /// Where the first entry of a flushed page stands.
    pub fn first_of(&self, page: u64) -> Address
        requires { page < length self.now.receipts }
        ensures { result ≡ first_place self.now.bits page }
    {
        if page == 0 {
            FIRST
        } else {
            self.shape.start(page)
        }
    }
}

impl<K: FixedKey, V: Fixed, R: Receipt> Log<K, V, R> {
    /// The first entry of a key on the chain from an address down to another, below which it does not look, or where the
    /// chain leads from there.
    #[inline(always)]
    pub fn first_on_chain(&self, key: &K, from: Address, head: Address) -> ChainPosition<K, V>
        requires in_frames { self.now.regions.offsets.closed ≤ head }
        requires chain { (es : List (Entry K V)) × IsChainFrom head self.now.text from es }
        ensures { (es : List (Entry K V))
            → IsChainFrom head self.now.text from es
            → result ≡ reached (find (has_key K.cmp key.now) es) (leads_to from es) }
    {
        self.facts();
        let mut address = from;
        while address >= head {
            match self.look_at(address, key) {
                Ok(entry) => return ChainPosition::Found(entry),
                Err(previous) => address = previous,
            }
        }
        ChainPosition::Below(address)
    }

    /// The entry at an address that is not closed, where it is one of this key, else its previous address. Of an entry
    /// that is passed the key's bytes are compared where they stand, and nothing is read but its previous address.
    #[inline(always)]
    fn look_at(&self, address: Address, key: &K) -> Result<Entry<K, V>, Address>
        requires there { IsSome (entry_at self.now.text address) }
        requires in_frame { self.now.regions.offsets.closed ≤ address }
        ensures met { IfOk result (λ e. (entry_at self.now.text address ≡ Some e) × (e.key ≡ key.now)) }
        ensures passed { IfErr result (λ previous. IfSome (entry_at self.now.text address)
            (λ e. (e.key ≡ key.now → ⊥) × (e.previous ≡ previous))) }
        // so the way along previous addresses falls
        ensures falls { IfErr result (λ previous. previous < address) }
    {
        let bytes = self.bytes_at(address);
        if !is_of::<K, V>(bytes, key) {
            return Err(link_of::<K, V>(bytes).previous);
        }
        let header = link_of::<K, V>(bytes);
        if header.is_tombstone {
            return Ok(entry_with(address, header.previous, key, None, false));
        }
        let value = value_of::<K, V>(bytes);
        Ok(entry_with(address, header.previous, key, value, header.is_delta))
    }
}
