//! A way along all entries of a log, the lowest first.
//!
//! Entries of flushed pages are read by their receipts, each page once; the others from their frames. So on a device that
//! keeps what it is given, what a scan reads is the log's text.
ghost use Rattle.std.specs.Prelude.{◌≡◌, ◌≢◌, ◌<◌, ◌≤◌, IsTrue, IsOk, IsSomeAnd, IfOk, IfErr, IfSome, OnOk, OnErr, Ok, length};
ghost use Rattle.fkv_records.specs.Places.{page_at};
ghost use Rattle.fkv_records.specs.Records.{size_of};
ghost use Rattle.fkv_device.specs.Failing.{ReadFailsBy};
ghost use Rattle.fkv_texts.specs.Places.{tail_after};
ghost use Rattle.fkv_texts.specs.Text.{entry_at};
ghost use Rattle.fkv_hybrid.specs.Loads.{HasReceipt, IsHeldBy};
ghost use Rattle.fkv_hybrid.specs.Scans.{IsScanOf, HasPage, MayFail, IsStepRefusal};

use crate::log::Log;
use fkv_device::{Loaded, PageReader, Receipt};
use fkv_functions::{Fixed, Refused};
use fkv_records::Address;
use fkv_texts::Entry;
use std::marker::Model;

/// Where a scan of a log stands, and the flushed page that it loaded last.
#[derive(Drop)]
pub struct Scan<R: Receipt> {
    address: Address,
    loaded: Option<Loaded<R>>,
}

impl<R: Receipt> Model for Scan<R> {
    ghost use Rattle.std.specs.Option.{option_map};
    ghost use Rattle.fkv_hybrid.specs.Scans.{ScanView};

    ghost Value = { ScanView };

    ghost view = { λ s. record { address = s.address; loaded = option_map (λ l. R.stands l.receipt) s.loaded } };
}

impl<R: Receipt> Scan<R> {
    /// The address of the entry that is read next, or where the log ended.
    pub fn address(&self) -> Address
        ensures { result ≡ self.now.address }
    {
        self.address
    }
}

impl<K: Fixed, V: Fixed, R: Receipt> Log<K, V, R> {
    /// A scan that stands at Begin, and has no page.
    pub fn scan(&self) -> Scan<R>
        ensures begins { result.address ≡ self.now.begin }
        ensures scan { IsScanOf (size_of K.SIZE V.SIZE) self.now result }
    {
        self.facts();
        Scan {
            address: self.begin(),
            loaded: None,
        }
    }

    /// The entry where a scan stands, which goes on to the next place. No page is read twice in turn, and a page that is
    /// not flushed is not read from the device. On a device that keeps the entry is the text's. Refused, and then the scan
    /// stands where it stood: `NoMemory`, or as the device refuses the entry's page; `Damaged` where the page's bytes
    /// spell no entry there.
    pub fn step<P: PageReader<Receipt = R>>(
        &self,
        reader: &mut P,
        scan: &mut Scan<R>,
    ) -> Result<Entry<K, V>, Refused>
        requires scan { IsScanOf (size_of K.SIZE V.SIZE) self.now scan.old }
        requires more { scan.old.address < self.now.tail }
        ensures stands { IfOk result (λ e. e.address ≡ scan.old.address) }
        ensures kept { IsTrue R.keeps → IfOk result (λ e. entry_at self.now.text scan.old.address ≡ Some e) }
        // an entry of a page that is not flushed is the text's on any device
        ensures in_frame { length self.now.receipts ≤ page_at self.now.bits scan.old.address
            → IfSome (entry_at self.now.text scan.old.address) (λ e. result ≡ Ok e) }
        ensures unread { length self.now.receipts ≤ page_at self.now.bits scan.old.address
            → IsOk result × (reader.new ≡ reader.old) }
        // a page that is loaded is not read again
        ensures once { HasPage scan.old (page_at self.now.bits scan.old.address) → reader.new ≡ reader.old }
        ensures loaded { OnOk result (page_at self.now.bits scan.old.address < length self.now.receipts
            → HasPage scan.new (page_at self.now.bits scan.old.address)) }
        ensures scan { IsScanOf (size_of K.SIZE V.SIZE) self.now scan.new }
        ensures goes { OnOk result (scan.new.address
            ≡ tail_after self.now.bits (size_of K.SIZE V.SIZE) scan.old.address) }
        ensures stays { OnErr result (scan.new.address ≡ scan.old.address) }
        ensures steady { OnOk result (P.failures reader.new ≡ P.failures reader.old) }
        ensures refused { IfErr result (IsStepRefusal R.keeps (page_at self.now.bits scan.old.address)
            (P.failures reader.old) (P.failures reader.new)) }
        ensures caused { IsTrue R.keeps → IfErr result (λ e. e ≢ Refused.NoMemory
            → MayFail R.stands P.can_fail self.now.receipts self.now.bits
            (page_at self.now.bits scan.old.address)) }
    {
        self.facts();
        let address = scan.address;
        let page = self.shape().page_of(address);
        if page >= self.unflushed() {
            scan.address = self.next(address);
            return Ok(self.record_at(address));
        }
        let held = scan.loaded.take();
        let loaded = match self.turned(reader, held, page) {
            Ok(loaded) => loaded,
            Err(refused) => return Err(refused),
        };
        match self.own_record_in(&loaded, address) {
            Ok(entry) => {
                scan.loaded = Some(loaded);
                scan.address = self.next(address);
                Ok(entry)
            }
            Err(refused) => Err(refused),
        }
    }

    /// A flushed page: the one in hand where it is that one, else the one that the device gives.
    fn turned<P: PageReader<Receipt = R>>(
        &self,
        reader: &mut P,
        held: Option<Loaded<R>>,
        page: u64,
    ) -> Result<Loaded<R>, Refused>
        requires held { HasReceipt self.now.receipts page }
        requires own { IfSome held (λ l. IsHeldBy self.now.receipts (R.stands l.receipt).page
            (R.stands l.receipt)) }
        ensures own { IfOk result (λ l. IsHeldBy self.now.receipts page (R.stands l.receipt)) }
        ensures page { IfOk result (λ l. (R.stands l.receipt).page ≡ page) }
        ensures once { IsSomeAnd held (λ l. (R.stands l.receipt).page ≡ page) → reader.new ≡ reader.old }
        ensures steady { OnOk result (P.failures reader.new ≡ P.failures reader.old) }
        ensures counted { IfErr result (ReadFailsBy page (P.failures reader.old)
            (P.failures reader.new)) }
        ensures caused { IfErr result (λ e. e ≢ Refused.NoMemory
            → MayFail R.stands P.can_fail self.now.receipts self.now.bits page) }
    {
        match held {
            None => self.load(reader, page),
            Some(loaded) => {
                if loaded.receipt().page() == page {
                    Ok(loaded)
                } else {
                    self.load(reader, page)
                }
            }
        }
    }

    /// Reads a flushed page by its receipt.
    fn load<P: PageReader<Receipt = R>>(
        &self,
        reader: &mut P,
        page: u64,
    ) -> Result<Loaded<R>, Refused>
        requires held { HasReceipt self.now.receipts page }
        ensures own { IfOk result (λ l. IsHeldBy self.now.receipts page (R.stands l.receipt)) }
        ensures page { IfOk result (λ l. (R.stands l.receipt).page ≡ page) }
        ensures steady { OnOk result (P.failures reader.new ≡ P.failures reader.old) }
        ensures counted { IfErr result (ReadFailsBy page (P.failures reader.old)
            (P.failures reader.new)) }
        ensures caused { IfErr result (λ e. e ≢ Refused.NoMemory
            → MayFail R.stands P.can_fail self.now.receipts self.now.bits page) }
    {
        self.facts();
        let receipt = match self.receipt(page) {
            Ok(receipt) => receipt,
            Err(refused) => return Err(refused),
        };
        Loaded::fetch(reader, &receipt, self.shape().page_size())
    }
}
