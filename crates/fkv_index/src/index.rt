//! The index: an entry for each bucket and tag.
ghost use Rattle.std.specs.Prelude.{ℕ, ◌≡◌, ◌+◌, ◌^◌, ◌<◌, ◌≤◌, ◌↔◌, IsTrue, IfOk, IfErr, OnErr, IfSome, None};
ghost use Rattle.std.specs.Prelude.{replicate, length, option_map, false};
ghost use Rattle.std.specs.List.{list_any};
ghost use Rattle.std.specs.Bool.{OnTrue, OnFalse};
ghost use Rattle.fkv_index.specs.Words.{empty, final_word, tentative_word, tag_of, address_of, is_empty, is_tentative};
ghost use Rattle.fkv_index.specs.Words.{is_final};
ghost use Rattle.fkv_index.specs.Places.{words_of, word_at, IsPlace};
ghost use Rattle.fkv_index.specs.Entries.{entry_at, place_of, IsIndexMap, StandsAt, IsAlone};
ghost use Rattle.fkv_index.specs.Changes.{Writes, Probes, Sweeps, SameEntries, SameTentative, SetsEntry, SweepsEntries};

use crate::buckets::{Buckets, first_empty, first_final, has_entry};
use crate::words::{NO_RECORD, Place, Word};
use fkv_functions::Refused;
use std::alloc::Global;
use std::marker::Model;

/// The index of a log: for each bucket and tag at most one final entry, with an address.
///
/// Contracts see it as the list of its buckets, each the list of its words in the order of their places.
/// Buckets are numbered from 0. Only [`Index::new`] and [`Index::probe`] take memory; where it is refused
/// they answer [`Refused::NoMemory`], and nothing changed.
#[derive(Drop)]
pub struct Index {
    buckets: Buckets,
}

impl Model for Index {
    ghost use Rattle.std.specs.Prelude.{List};
    ghost use Rattle.fkv_index.specs.declared.words.Word.{Word};

    ghost Value = { List (List Word) };

    ghost use Rattle.fkv_index.specs.Entries.{IsSingle};

    ghost view = { λ index. index.buckets };

    ghost invariant = { λ index. IsSingle index.buckets };
}

impl Index {
    ghost use Rattle.fkv_index.specs.declared.words.Place.{Place};

    /// An index of 2^bits empty buckets.
    pub fn new(alloc: Global, bits: u32) -> Result<Index, Refused>
        requires { bits < 64 }
        ensures made { IfOk result (λ index. index ≡ replicate (2 ^ bits) (replicate 7 empty)) }
        ensures entries { IfOk result (λ index. (bucket tag : ℕ) → entry_at index bucket tag ≡ None) }
        ensures map { IfOk result (λ index. IsIndexMap index) }
        ensures tentative { IfOk result (λ index. (q : Place) → is_tentative (word_at index q) ≡ false) }
        ensures refused { IfErr result (λ why. why ≡ Refused.NoMemory) }
    {
        let Ok(buckets) = Buckets::new(alloc, bits) else {
            return Err(Refused::NoMemory);
        };
        Ok(Index { buckets })
    }

    /// Tells a proof what holds of an index at any time. It does nothing when it runs.
    pub fn facts(&self)
        ensures { IsIndexMap self.now }
    {
        let _buckets = &self.buckets;
    }

    /// How many buckets there are.
    pub fn buckets(&self) -> usize
        ensures { result ≡ length self.now }
    {
        self.buckets.len()
    }

    /// The word at a place.
    pub fn word(&self, place: Place) -> Word
        requires { IsPlace self.now place }
        ensures { result ≡ word_at self.now place }
    {
        self.buckets.word(place)
    }

    /// Whether there is such a place.
    pub fn is_place(&self, place: Place) -> bool
        ensures { IsTrue result ↔ IsPlace self.now place }
    {
        place.bucket < self.buckets.len() && place.at < self.buckets.places(place.bucket)
    }

    /// The final entry of a tag in a bucket: its place and its word.
    #[inline(always)]
    pub fn find(&self, bucket: usize, tag: u16) -> Option<(Place, Word)>
        requires bucket { bucket < length self.now }
        requires tag { tag < 2 ^ 15 }
        ensures found { IfSome result (λ entry. StandsAt self.now bucket tag entry.0 entry.1) }
        ensures entry { option_map (λ entry. address_of entry.1) result ≡ entry_at self.now bucket tag }
        ensures place { option_map (λ entry. entry.0) result ≡ place_of self.now bucket tag }
        ensures map { IsIndexMap self.now }
    {
        let (at, word) = first_final(&self.buckets, bucket, tag)?;
        Some((Place { bucket, at }, word))
    }

    /// The first empty place of a bucket, in a new overflow bucket where no place is empty.
    pub fn probe(&mut self, bucket: usize) -> Result<Place, Refused>
        requires { bucket < length self.old }
        ensures probed { IfOk result (λ place. Probes bucket place self.old self.new) }
        ensures entries { SameEntries self.old self.new }
        ensures map { IsIndexMap self.new }
        ensures tentative { SameTentative self.old self.new }
        ensures refused { IfErr result (λ why. why ≡ Refused.NoMemory) }
        ensures full { OnErr result (list_any is_empty (words_of self.old bucket) ≡ false) }
        ensures same { OnErr result (self.new ≡ self.old) }
    {
        if let Some(at) = first_empty(&self.buckets, bucket) {
            return Ok(Place { bucket, at });
        }
        let at = self.buckets.places(bucket);
        let Ok(()) = self.buckets.grow(bucket) else {
            return Err(Refused::NoMemory);
        };
        Ok(Place { bucket, at })
    }

    /// Claims an empty place for a tag: its entry is tentative, with the address [`NO_RECORD`].
    pub fn claim(&mut self, place: Place, tag: u16)
        requires place { IsPlace self.old place }
        requires empty { IsTrue (is_empty (word_at self.old place)) }
        requires tag { tag < 2 ^ 15 }
        ensures word { Writes place (tentative_word tag) self.old self.new }
        ensures tentative { IsTrue (is_tentative (word_at self.new place)) }
        ensures tagged { tag_of (word_at self.new place) ≡ tag }
        ensures entries { SameEntries self.old self.new }
        ensures map { IsIndexMap self.new }
    {
        self.buckets.set(place, Word::claim(tag));
    }

    /// Makes a tentative entry final where no other entry of its tag stands in its bucket, and empties its
    /// place else. Answers whether it is final.
    pub fn confirm(&mut self, bucket: usize, place: Place) -> bool
        requires bucket { place.bucket ≡ bucket }
        requires tentative { IsTrue (is_tentative (word_at self.old place)) }
        ensures alone { IsTrue result ↔ IsAlone self.old place }
        ensures none { OnTrue result (entry_at self.old bucket (tag_of (word_at self.old place)) ≡ None) }
        ensures confirmed { OnTrue result
            (Writes place (final_word (tag_of (word_at self.old place)) NO_RECORD) self.old self.new) }
        ensures entry { OnTrue result (SetsEntry bucket (tag_of (word_at self.old place)) NO_RECORD self.old self.new) }
        ensures emptied { OnFalse result (Writes place empty self.old self.new) }
        ensures entries { OnFalse result (SameEntries self.old self.new) }
        ensures map { IsIndexMap self.new }
        ensures released { is_tentative (word_at self.new place) ≡ false }
    {
        let tag = self.buckets.word(place).tag();
        self.buckets.set(place, Word::empty());
        if has_entry(&self.buckets, bucket, tag) {
            return false;
        }
        self.buckets.set(place, Word::entry(tag, NO_RECORD));
        true
    }

    /// Empties the place of a tentative entry.
    pub fn cancel(&mut self, place: Place)
        requires { IsTrue (is_tentative (word_at self.old place)) }
        ensures word { Writes place empty self.old self.new }
        ensures entries { SameEntries self.old self.new }
        ensures map { IsIndexMap self.new }
        ensures released { is_tentative (word_at self.new place) ≡ false }
    {
        let word = Word::empty();
        self.buckets.set(place, word);
    }

    /// Writes a final entry in the place of another of its tag, where that is the expected one. Answers
    /// whether it was.
    pub fn exchange(&mut self, place: Place, expected: Word, new: Word) -> bool
        requires place { IsPlace self.old place }
        requires expected { IsTrue (is_final expected) }
        requires new { IsTrue (is_final new) }
        requires tag { tag_of new ≡ tag_of expected }
        ensures told { IsTrue result ↔ (word_at self.old place ≡ expected) }
        ensures word { OnTrue result (Writes place new self.old self.new) }
        ensures entry { OnTrue result (SetsEntry place.bucket (tag_of new) (address_of new) self.old self.new) }
        ensures same { OnFalse result (self.new ≡ self.old) }
        ensures map { IsIndexMap self.new }
        ensures tentative { SameTentative self.old self.new }
    {
        if self.buckets.word(place) != expected {
            return false;
        }
        self.buckets.set(place, new);
        true
    }

    /// Empties each final entry whose address is below `begin`.
    pub fn sweep(&mut self, begin: u64)
        ensures words { Sweeps begin self.old self.new }
        ensures entries { SweepsEntries begin self.old self.new }
        ensures map { IsIndexMap self.new }
        ensures tentative { SameTentative self.old self.new }
    {
        self.buckets.sweep(begin);
    }
}
