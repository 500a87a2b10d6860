//! The records of one partition: its log, and an index that leads to the last record of each class.
//!
//! The previous address of a record leads to the one before it in its class. So a key's last record is found by
//! the entry of its class and the records of that class alone: those in memory by [`Records::trace`], those of a page
//! that a device gave by [`Records::trace_in`]. A record and the move of the entry that leads to it come in one call
//! ([`Records::append`]). [`Records::live`] goes over all records instead, and says what each key's value is.
//!
//! A session may give a record another value where it stands, or make it a tombstone, as long as the record is mutable
//! in its view of the log's regions; which sessions there are, and what each has seen, stands in `sessions.rt`.
//!
//! An entry is made in two phases, so that of two operations that make one for the same class only one succeeds:
//! [`Records::claim`] makes it tentative, and look-ups pass over it until [`Records::confirm`] makes it final.
ghost use Rattle.std.specs.Prelude.{◌≡◌, ◌^◌, ◌<◌, ◌≤◌, ◌↔◌, None, Some, Ok, Err, IsTrue, IfSome, IfOk, IfErr, OnErr, false};
ghost use Rattle.std.specs.Prelude.{option_map, length};
ghost use Rattle.std.specs.List.{list_any};
ghost use Rattle.std.specs.Bool.{OnTrue, OnFalse};
ghost use Rattle.fkv_records.specs.Records.{size_of};
ghost use Rattle.fkv_hybrid.specs.Views.{IsFull};
ghost use Rattle.fkv_index.specs.Words.{address_of, tag_of, tentative_word, is_empty, is_tentative, final_word, is_final};
ghost use Rattle.fkv_index.specs.Places.{words_of, word_at, IsPlace, with_word};
ghost use Rattle.fkv_index.specs.Entries.{IsAlone, IsIndexMap};
ghost use Rattle.fkv_index.specs.Changes.{SameEntries, SameTentative, SetsEntry};
ghost use Rattle.fkv_operations.specs.declared.classes.Class.{Class};
ghost use Rattle.fkv_operations.specs.Classes.{IsClass};
ghost use Rattle.fkv_lookups.specs.RecordsViews.{empty_records, class_in, entry_of, found_in, IsEntryOf, with_written, Claims};
ghost use Rattle.fkv_lookups.specs.RecordsViews.{confirmed, released, ChangesAt};
ghost use Rattle.fkv_lookups.specs.Traced.{IsTraced, IsResolved};
ghost use Rattle.fkv_lookups.specs.Lookups.{newest_above, looked_up};
ghost use Rattle.fkv_lookups.specs.Payloads.{standing};
ghost use Rattle.fkv_texts.specs.Text.{live};

use crate::chain_results::{ChainResult, combined, delta_at};
use crate::payloads::Payload;
use fkv_device::Receipt;
use fkv_functions::{Mergeable, Refused};
use fkv_hybrid::Log;
use fkv_index::{Index, Place, Word};
use fkv_operations::{Class, IndexEntry, class_of};
use fkv_records::{Address, Shape};
use fkv_texts::ChainPosition;
use fkv_texts::laws::chains;
use std::alloc::Global;
use std::marker::Model;

mod live;
mod loads;
mod pages;
mod reads;
mod sessions;

/// The records of one partition, and the index of their classes.
#[derive(Drop)]
pub struct Records<F: Mergeable, R: Receipt> {
    log: Log<F::Key, F::Value, R>,
    index: Index,
    partition_bits: u64,
    bucket_bits: u64,
}

impl<F: Mergeable, R: Receipt> Model for Records<F, R> {
    ghost use Rattle.fkv_records.specs.Records.{size_of};
    ghost use Rattle.fkv_lookups.specs.RecordsViews.{RecordsView};
    ghost use Rattle.fkv_lookups.specs.Inside.{view_of};
    ghost use Rattle.fkv_lookups.specs.Traced.{IsTraced};

    ghost Value = { RecordsView F.Key F.Value };

    ghost view = { λ r. view_of F.Key.cmp F.parts.joined r.partition_bits r.bucket_bits
        (size_of F.Key.SIZE F.Value.SIZE) r.log r.index };

    ghost invariant = { λ r. IsTraced R.keeps F.code
        (view_of F.Key.cmp F.parts.joined r.partition_bits r.bucket_bits
        (size_of F.Key.SIZE F.Value.SIZE) r.log r.index) };
}

impl<F: Mergeable, R: Receipt> Records<F, R> {
    ghost use Rattle.fkv_index.specs.declared.words.Place.{Place};

    /// No records and no entries, of one of 2^`partition_bits` partitions, with 2^`bucket_bits` buckets, and a log
    /// of this shape and so many frames. Refused: `NoMemory`.
    pub fn new(
        alloc: Global,
        partition_bits: u64,
        bucket_bits: u64,
        shape: Shape,
        frames: u64,
    ) -> Result<Self, Refused>
        requires partition { partition_bits ≤ 6 }
        requires bucket { bucket_bits ≤ 20 }
        requires size { shape.record_size ≡ size_of F.Key.SIZE F.Value.SIZE }
        requires some { 0 < frames }
        ensures ok { IfOk result
            (λ records. records ≡ empty_records partition_bits bucket_bits shape.page_bits shape.record_size frames) }
        ensures tentative { IfOk result (λ records. (q : Place) → is_tentative (word_at records.words q) ≡ false) }
        ensures only { IfErr result (λ refused. refused ≡ Refused.NoMemory) }
    {
        let log = Log::new(alloc, shape, frames)?;
        log.facts();
        let index = Index::new(alloc, bucket_bits as u32)?;
        Ok(Records {
            log,
            index,
            partition_bits,
            bucket_bits,
        })
    }

    /// The class of a key.
    pub fn class(&self, functions: &F, key: &F::Key) -> Class
        ensures value { result ≡ class_in F.code self.now key.now }
        ensures range { IsClass self.now.bucket_bits result }
    {
        class_of(functions.hash(key), self.partition_bits, self.bucket_bits)
    }

    /// The final entry of a class. A class of which no key was written may have none, or one that leads nowhere.
    pub fn entry(&self, class: &Class) -> Option<IndexEntry>
        requires { IsClass self.now.bucket_bits class.now }
        ensures value { result ≡ found_in self.now class.now }
        ensures address { option_map (λ e. address_of e.word) result ≡ entry_of self.now class.now }
        ensures stands { IfSome result (λ entry. IsEntryOf self.now class.now entry) }
    {
        match self.index.find(class.bucket, class.tag) {
            None => None,
            Some((place, word)) => Some(IndexEntry { place, word }),
        }
    }

    /// The address to which the final entry of a class leads.
    pub fn entry_address(&self, class: &Class) -> Option<Address>
        requires { IsClass self.now.bucket_bits class.now }
        ensures { result ≡ entry_of self.now class.now }
    {
        match self.index.find(class.bucket, class.tag) {
            None => None,
            Some((_place, word)) => Some(word.address()),
        }
    }

    /// Whether an entry stands as it was found.
    pub fn holds(&self, entry: &IndexEntry) -> bool
        requires { IsPlace self.now.words entry.now.place }
        ensures { IsTrue result ↔ (word_at self.now.words entry.now.place ≡ entry.now.word) }
    {
        self.index.word(entry.place) == entry.word
    }

    /// The last record of a key at or above an address, by the address to which the entry of its class leads and previous
    /// addresses from there on; or where those lead below, the key having no record above. Pages below that address are
    /// not looked at.
    #[inline(always)]
    pub fn newest_in_memory(
        &self,
        entry: Address,
        key: &F::Key,
        low: Address,
    ) -> ChainPosition<F::Key, F::Value>
        requires entry { entry_of self.now (class_in F.code self.now key.now) ≡ Some entry }
        requires in_frames { self.now.log.regions.offsets.closed ≤ low }
        requires begin { self.now.log.begin ≤ low }
        ensures { result ≡ newest_above F.Key.cmp F.code self.now low key.now entry }
    {
        chains::<F::Key, F::Value, Class>();
        self.log.first_on_chain(key, entry, low)
    }

    /// What a look-up of a key comes to that reads no lower than an address: from its last record there
    /// ([`Records::first`]), while its records are deltas, whose parts are joined, to the first that is none, or below.
    pub fn gather(
        &self,
        functions: &F,
        entry: Address,
        first: ChainPosition<F::Key, F::Value>,
        key: &F::Key,
        low: Address,
    ) -> ChainResult<F::Key, F::Value>
        requires entry { entry_of self.now (class_in F.code self.now key.now) ≡ Some entry }
        requires first { first ≡ newest_above F.Key.cmp F.code self.now low key.now entry }
        requires in_frames { self.now.log.regions.offsets.closed ≤ low }
        requires begin { self.now.log.begin ≤ low }
        ensures { result ≡ looked_up F.Key.cmp F.parts.joined F.code self.now low key.now entry }
    {
        let mut parts = None;
        let mut position = first;
        while let Some(last) = delta_at(&position) {
            parts = combined(functions, last.value, parts);
            position = self.log.first_on_chain(key, last.previous, low);
        }
        ChainResult { parts, position }
    }

    /// Makes a tentative entry for a class, at the first empty place of its bucket, and answers its place. Look-ups
    /// pass over it. Refused, and then nothing changes: `NoMemory`, which comes only where no place of the bucket is
    /// empty.
    pub fn claim(&mut self, class: Class) -> Result<Place, Refused>
        requires { IsClass self.old.bucket_bits class }
        ensures ok { IfOk result (λ place. Claims self.old self.new class place) }
        ensures changes { IfOk result (λ place. ChangesAt place self.old.words self.new.words) }
        ensures free { IfOk result (λ place. is_tentative (word_at self.old.words place) ≡ false) }
        ensures bucket { IfOk result (λ place. place.bucket ≡ class.bucket) }
        ensures word { IfOk result (λ place. word_at self.new.words place ≡ tentative_word class.tag) }
        ensures taken { IfOk result (λ place. IsTrue (is_tentative (word_at self.new.words place))) }
        ensures entries { SameEntries self.old.words self.new.words }
        ensures only { IfErr result (λ refused. refused ≡ Refused.NoMemory) }
        ensures full { OnErr result (list_any is_empty (words_of self.old.words class.bucket) ≡ false) }
        ensures unchanged { OnErr result (self.new ≡ self.old) }
    {
        let place = match self.index.probe(class.bucket) {
            Err(refused) => return Err(refused),
            Ok(place) => place,
        };
        self.index.claim(place, class.tag);
        Ok(place)
    }

    /// Makes a tentative entry final where no other entry of its tag stands in its bucket, and empties its place
    /// else. Answers whether it is final; it leads to no record yet.
    pub fn confirm(&mut self, place: Place) -> bool
        requires { IsTrue (is_tentative (word_at self.old.words place)) }
        ensures alone { IsTrue result ↔ IsAlone self.old.words place }
        ensures confirmed { OnTrue result (self.new ≡ confirmed self.old place) }
        ensures entry { OnTrue result
            (SetsEntry place.bucket (tag_of (word_at self.old.words place)) 1 self.old.words self.new.words) }
        ensures emptied { OnFalse result (self.new ≡ released self.old place) }
        ensures entries { OnFalse result (SameEntries self.old.words self.new.words) }
        ensures changes { ChangesAt place self.old.words self.new.words }
        ensures freed { is_tentative (word_at self.new.words place) ≡ false }
    {
        self.index.confirm(place.bucket, place)
    }

    /// Empties the place of a tentative entry.
    pub fn cancel(&mut self, place: Place)
        requires { IsTrue (is_tentative (word_at self.old.words place)) }
        ensures emptied { self.new ≡ released self.old place }
        ensures entries { SameEntries self.old.words self.new.words }
        ensures changes { ChangesAt place self.old.words self.new.words }
        ensures freed { is_tentative (word_at self.new.words place) ≡ false }
    {
        self.index.cancel(place);
    }

    /// Appends a record of a key, behind the last of the key's class, and moves the class's entry to it: a value, a
    /// tombstone, or a part, which is joined with what the key has. Answers the record's
    /// address, or `None` where there is no room for one ([`fkv_hybrid::Log::is_full`]), and then nothing changes. No memory is
    /// taken. Refused, and then nothing changes: `Worn` where no address is left.
    pub fn append(
        &mut self,
        entry: IndexEntry,
        key: F::Key,
        payload: Payload<F::Value>,
    ) -> Result<Option<Address>, Refused>
        requires { IsEntryOf self.old (class_in F.code self.old key) entry }
        ensures ok { IfOk result (λ o. IfSome o (λ address. address ≡ self.old.log.tail)) }
        ensures appended { IfOk result (λ o. IfSome o (λ _.
            self.new ≡ with_written self.old entry key payload
            (standing F.parts.joined (live F.Key.cmp self.old.text key) payload))) }
        ensures entries { IfOk result (λ o. IfSome o (λ _.
            SetsEntry entry.place.bucket (tag_of entry.word) self.old.log.tail self.old.words self.new.words)) }
        ensures changes { IfOk result (λ o. IfSome o (λ _. ChangesAt entry.place self.old.words self.new.words)) }
        ensures tentative { IfOk result (λ o. IfSome o (λ _. SameTentative self.old.words self.new.words)) }
        ensures room { (result ≡ Ok None) ↔ IsFull self.old.log }
        ensures full { result ≡ Ok None → self.new ≡ self.old }
        ensures worn { (result ≡ Err Refused.Worn) ↔ (self.old.log.tail ≡ 2 ^ 48) }
        ensures only { IfErr result (λ refused. refused ≡ Refused.Worn) }
        ensures unchanged { OnErr result (self.new ≡ self.old) }
    {
        chains::<F::Key, F::Value, Class>();
        self.log.facts();
        let address = self.log.tail();
        match self
            .log
            .append(entry.address(), key, payload.value(), payload.is_part())
        {
            Err(refused) => return Err(refused),
            Ok(None) => return Ok(None),
            Ok(Some(_address)) => (),
        }
        self.log.facts();
        move_entry(&mut self.index, entry, address);
        Ok(Some(address))
    }

    /// Where the records begin that are not dropped.
    pub fn begin(&self) -> Address
        ensures { result ≡ self.now.log.begin }
    {
        self.log.begin()
    }

    /// The log of the records.
    pub fn log(&self) -> &Log<F::Key, F::Value, R>
        ensures { result.now ≡ self.now.log }
    {
        &self.log
    }

    /// What holds of all records of a partition.
    pub fn facts(&self)
        ensures traced { IsTraced R.keeps F.code self.now }
        // each record stands for what its key has once it stands
        ensures resolved { IsResolved F.Key.cmp F.parts.joined self.now }
    {
        self.log.facts();
    }
}

/// Moves an entry that stands as it was found to another address.
pub(crate) fn move_entry(index: &mut Index, entry: IndexEntry, address: Address)
    requires place { IsPlace index.old entry.place }
    requires stands { word_at index.old entry.place ≡ entry.word }
    requires is { IsTrue (is_final entry.word) }
    requires some { 0 < address }
    requires least { address < 2 ^ 48 }
    ensures word { index.new ≡ with_word index.old entry.place (final_word (tag_of entry.word) address) }
    ensures entry { SetsEntry entry.place.bucket (tag_of entry.word) address index.old index.new }
    ensures changes { ChangesAt entry.place index.old index.new }
    ensures tentative { SameTentative index.old index.new }
    ensures buckets { length index.new ≡ length index.old }
    ensures map { IsIndexMap index.new }
{
    let word = Word::entry(entry.word.tag(), address);
    let _moved = index.exchange(entry.place, entry.word, word);
}
