//! The log: records in frames and on a device, and the regions in which sessions see them.
ghost use Rattle.std.specs.Prelude.{◌≡◌, ◌+◌, ◌-◌, ◌^◌, ◌<◌, ◌≤◌, ◌↔◌, ℕ, List, Ok, Err, IfOk, IfErr, IfSome, IsTrue, Some, None};
ghost use Rattle.std.specs.Prelude.{IsSome, OnErr, length, map, slice_get, false};
ghost use mathlib.Core.Equiv.{IsContr-prop};
ghost use Rattle.fkv_records.specs.Places.{page_at};
ghost use Rattle.fkv_records.specs.Records.{size_of, IsPrevious};
ghost use Rattle.fkv_device.specs.Standing.{Standing};
ghost use Rattle.fkv_texts.specs.Places.{tail_after};
ghost use Rattle.fkv_texts.specs.Text.{entry_at, value_at};
ghost use Rattle.fkv_hybrid.specs.Spelled.{TheOne, IsTextOf, IsPageOf, IsIn};
ghost use Rattle.fkv_hybrid.specs.Pages.{page_in, receipts_from};
ghost use Rattle.fkv_hybrid.specs.Loads.{IsHeldBy};
ghost use Rattle.fkv_hybrid.specs.Views.{text_begin, empty_log, with_entry, IsFull, with_value};
ghost use Rattle.fkv_hybrid.specs.Logs.{IsLogOf};
ghost use Rattle.fkv_texts.specs.declared.entries.Entry.{Entry};

mod flushes;
mod reads;
mod sessions;
mod truncation;

use crate::bytes::{part, put_record, put_tombstone, put_value};
use fkv_device::Receipt;
use fkv_frames::Frames;
use fkv_functions::{Fixed, Refused};
use fkv_records::fields::record_of;
use fkv_records::{Address, END, FIRST, Record, Shape};
use fkv_regions::Regions;
use fkv_texts::Entry;
use fkv_texts::entries::entry_of;
use std::alloc::Global;
use std::collections::VecDeque;
use std::marker::{Model, PhantomData};

/// The log of one partition: a record at each place from [`FIRST`] to below the tail, in frames or on a device.
#[derive(Drop)]
pub struct Log<K: Fixed, V: Fixed, R: Receipt> {
    shape: Shape,
    begin: Address,
    tail: Address,
    frames: Frames,
    /// Those of the flushed pages from that of `begin` on, in order.
    receipts: VecDeque<R>,
    /// Entries are frozen below its safe read-only offset, and frames are closed below its `closed`.
    regions: Regions,
    keys: PhantomData<K>,
    values: PhantomData<V>,
    ghost text: { TheOne (λ t. IsTextOf K.codec V.codec shape.page_bits
        (page_in (page_at shape.page_bits regions.offsets.closed)
        (receipts_from (page_at shape.page_bits begin) (map R.stands receipts.items)) frames)
        (text_begin R.keeps begin regions.offsets.closed) tail t) } by { IsContr-prop },
}

impl<K: Fixed, V: Fixed, R: Receipt> Model for Log<K, V, R> {
    ghost use Rattle.std.specs.Prelude.{map};
    ghost use Rattle.fkv_records.specs.Places.{page_at};
    ghost use Rattle.fkv_hybrid.specs.Views.{LogView};
    ghost use Rattle.fkv_hybrid.specs.Pages.{IsWhole, receipts_from, view_as};

    ghost Value = { LogView K V };

    ghost view = { λ l. view_as R.keeps l.shape l.begin l.regions l.tail
        (receipts_from (page_at l.shape.page_bits l.begin) (map R.stands l.receipts.items)) l.frames l.text.0.0 };

    ghost invariant = { λ l. IsWhole K.codec V.codec R.keeps l.shape l.begin l.regions l.tail
        (receipts_from (page_at l.shape.page_bits l.begin) (map R.stands l.receipts.items)) l.frames l.text.0.0 };
}

impl<K: Fixed, V: Fixed, R: Receipt> Log<K, V, R> {
    /// A log of no records, in this shape and so many frames. Page 0 is begun. Refused: `NoMemory`.
    pub fn new(alloc: Global, shape: Shape, frames: u64) -> Result<Self, Refused>
        requires size { shape.record_size ≡ size_of K.SIZE V.SIZE }
        requires some { 0 < frames }
        ensures ok { IfOk result (λ log. log ≡ empty_log shape.page_bits frames) }
        ensures only { IfErr result (λ refused. refused ≡ Refused.NoMemory) }
    {
        let mut frames = Frames::new(alloc, shape.page_bits, frames)?;
        frames.open_page(0);
        Ok(Log {
            shape,
            begin: FIRST,
            tail: FIRST,
            frames,
            receipts: VecDeque::new(alloc),
            regions: Regions::new(shape),
            keys: PhantomData,
            values: PhantomData,
        })
    }

    /// How the pages and their records are laid out.
    pub fn shape(&self) -> Shape
        ensures bits { result.page_bits ≡ self.now.bits }
        ensures size { result.record_size ≡ size_of K.SIZE V.SIZE }
    {
        self.shape
    }

    /// Where the entries begin that are not dropped.
    pub fn begin(&self) -> Address
        ensures { result ≡ self.now.begin }
    {
        self.begin
    }

    /// The address of the next record, or 2^48 where there can't be one.
    pub fn tail(&self) -> Address
        ensures tail { result ≡ self.now.tail }
        ensures most { result ≤ 2 ^ 48 }
    {
        self.tail
    }

    /// The address after one: where the next entry stands behind an entry, or 2^48 where no record can.
    pub fn next(&self, address: Address) -> Address
        ensures next { result ≡ tail_after self.now.bits (size_of K.SIZE V.SIZE) address }
        ensures rises { address < 2 ^ 48 → address < result }
    {
        self.shape.next_place(address).unwrap_or(END)
    }

    /// How many frames there are: one at least.
    pub fn frame_count(&self) -> u64
        ensures value { result ≡ self.now.frames }
        ensures some { 0 < result }
    {
        self.frames.facts();
        self.frames.count()
    }

    /// The offsets, the epochs, and what each session has seen: there a session asks for the region of an address.
    pub fn regions(&self) -> &Regions
        ensures { result.now ≡ self.now.regions }
    {
        &self.regions
    }

    /// What holds of every log: its text has one entry at each place from where it begins to below the tail, and the
    /// views of its sessions agree with its offsets. It does nothing when it runs.
    pub fn facts(&self)
        ensures log { IsLogOf R.keeps (size_of K.SIZE V.SIZE) self.now }
        ensures receipts { (n : ℕ) (s : Standing)
            → IsHeldBy self.now.receipts n s
            → (s.page ≡ n) × (s.length ≡ 2 ^ self.now.bits) }
        // the pages from the first that is not flushed to below that of SafeReadOnly wait, each with the text's entries
        ensures waiting { length self.now.waiting
            ≡ page_at self.now.bits self.now.regions.offsets.safe_read_only - length self.now.receipts }
        ensures spelled { (i : ℕ) (page : List ℕ)
            → slice_get self.now.waiting i ≡ Some page
            → IsPageOf K.codec V.codec self.now.bits (length self.now.receipts + i)
            self.now.text page }
    {
        self.frames.facts();
        self.regions.facts();
    }

    /// Whether the next record needs a page whose frame is still in use.
    pub fn is_full(&self) -> bool
        ensures { IsTrue result ↔ IsFull self.now }
    {
        let address = self.tail;
        if address >= END || self.shape.offset_of(address) != 0 {
            return false;
        }
        let page = self.shape.page_of(address);
        let first = self.shape.page_of(self.regions.offsets().closed);
        page - first >= self.frames.count()
    }

    /// Appends a record and answers its address, or `None` where there is no room ([`Log::is_full`]), and then
    /// nothing changes. The value of a delta is a part, to be joined with what the key had before. A page is begun by
    /// the first append in it. No memory is taken. Refused, and then nothing changes: `Worn` where no address is left.
    pub fn append(
        &mut self,
        previous: Address,
        key: K,
        value: Option<V>,
        delta: bool,
    ) -> Result<Option<Address>, Refused>
        requires previous { IsPrevious self.old.tail previous }
        requires whole { IsTrue delta → IsSome value }
        ensures address { IfOk result (λ o. IfSome o (λ address. address ≡ self.old.tail)) }
        ensures appended { IfOk result (λ o. IfSome o (λ _. self.new
            ≡ with_entry (size_of K.SIZE V.SIZE) self.old previous key value delta)) }
        ensures room { (result ≡ Ok None) ↔ IsFull self.old }
        ensures full { result ≡ Ok None → self.new ≡ self.old }
        ensures worn { (result ≡ Err Refused.Worn) ↔ (self.old.tail ≡ 2 ^ 48) }
        ensures only { IfErr result (λ refused. refused ≡ Refused.Worn) }
        ensures unchanged { OnErr result (self.new ≡ self.old) }
    {
        if self.is_full() {
            return Ok(None);
        }
        let address = self.tail;
        if address >= END {
            return Err(Refused::Worn);
        }
        let page = self.shape.page_of(address);
        let is_new = self.shape.offset_of(address) == 0;
        let size = self.shape.record_size;
        let entry = Record {
            previous,
            key,
            value,
            delta,
        };
        put_record(&mut self.frames, is_new, page, address, size, &entry);
        self.tail = self.shape.next_place(address).unwrap_or(END);
        Ok(Some(address))
    }

    /// Whether an entry stands at an address that is not closed.
    pub fn has_entry(&self, address: Address) -> bool
        ensures { IsTrue result ↔ ((self.now.regions.offsets.closed ≤ address) × IsSome (entry_at self.now.text address)) }
    {
        if address < self.regions.offsets().closed {
            return false;
        }
        if address < self.begin {
            return false;
        }
        if address >= self.tail {
            return false;
        }
        self.shape.is_record_start(address)
    }

    /// The entry at an address that is not closed, where one stands ([`Log::has_entry`]).
    pub fn record_at(&self, address: Address) -> Entry<K, V>
        requires there { IsSome (entry_at self.now.text address) }
        requires in_frame { self.now.regions.offsets.closed ≤ address }
        ensures entry { entry_at self.now.text address ≡ Some result }
        // so the way along previous addresses falls
        ensures previous { IsPrevious address result.previous }
        ensures falls { result.previous < address }
    {
        entry_of(address, record_of(self.bytes_at(address)))
    }

    /// The bytes of the record at an address that is not closed, where one stands.
    pub(crate) fn bytes_at(&self, address: Address) -> &[u8]
        requires there { IsSome (entry_at self.now.text address) }
        requires in_frame { self.now.regions.offsets.closed ≤ address }
        ensures sized { length result.now ≡ size_of K.SIZE V.SIZE }
        ensures most { size_of K.SIZE V.SIZE ≤ 192 }
        ensures spelled { IfSome (entry_at self.now.text address)
            (IsIn K.codec V.codec address result.now) }
    {
        let page = self.shape.page_of(address);
        let offset = self.shape.offset_of(address);
        part(self.frames.bytes(page), offset, self.shape.record_size)
    }
}

impl<K: Fixed, V: Fixed, R: Receipt> Log<K, V, R> {
    /// Writes another value into the entry at an address that is not frozen, which has one. Nothing else changes.
    pub fn write_value(&mut self, address: Address, value: V)
        requires value { IsSome (value_at self.old.text address) }
        requires mutable { self.old.regions.offsets.safe_read_only ≤ address }
        ensures { self.new ≡ with_value self.old address (Some value) }
    {
        put_value::<K, V>(&mut self.frames, self.shape, address, &value);
    }

    /// Makes the entry at an address that is not frozen, which is no delta, a tombstone. Nothing else changes.
    pub fn set_tombstone(&mut self, address: Address)
        requires entry { IsSome (entry_at self.old.text address) }
        requires whole { (e : Entry K V) → entry_at self.old.text address ≡ Some e → e.delta ≡ false }
        requires mutable { self.old.regions.offsets.safe_read_only ≤ address }
        ensures { self.new ≡ with_value self.old address None }
    {
        put_tombstone::<K, V>(&mut self.frames, self.shape, address);
    }
}
