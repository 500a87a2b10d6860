//! How the words are stored: buckets of 64 bytes, and the blocks of their overflow buckets; and scans of a bucket: its first seven
//! words, and then those of its overflow buckets.
ghost use Rattle.std.specs.Prelude.{◌≡◌, ◌+◌, ◌^◌, ◌<◌, ◌≤◌, IfOk, OnOk, OnErr, length, replicate, take, drop, map, IfSome, IfNone};
ghost use Rattle.std.specs.Prelude.{slice_index_or};
ghost use Rattle.fkv_index.specs.Words.{empty, swept, is_empty, is_final_of, is_entry_of};
ghost use Rattle.fkv_index.specs.Storage.{swept_row};
ghost use Rattle.fkv_index.specs.Places.{words_of, word_at, IsPlace, with_word, with_overflow, IsFirst, NonePasses};
ghost use Rattle.std.specs.List.{list_any};

use crate::words::{Place, Word};
use std::alloc::{AllocError, Global};
use std::marker::Model;
use std::mem::size_of;

/// A bucket: seven words, and the number of the block of its overflow buckets, from 1; 0 where it has
/// none.
#[derive(Clone, Copy, Debug)]
pub struct Bucket {
    words: [Word; 7],
    overflow: usize,
}

// a bucket is a line of the cache
const _: () = prove!(size_of::<Bucket>() == 64);

/// The buckets, and a block for each bucket that overflowed. The overflow buckets of one bucket stand
/// side by side in its block, so a scan of a bucket reads at most two pieces of memory.
#[derive(Drop)]
pub struct Buckets {
    rows: Vec<Bucket>,
    blocks: Vec<Vec<Word>>,
    alloc: Global,
}

impl Model for Buckets {
    ghost use Rattle.std.specs.Prelude.{List};
    ghost use Rattle.fkv_index.specs.declared.words.Word.{Word};

    ghost Value = { List (List Word) };

    ghost use Rattle.fkv_index.specs.Storage.{stored_words, IsStored};

    ghost view = { stored_words };

    ghost invariant = { IsStored };
}

impl Buckets {
    /// 2^bits empty buckets.
    pub fn new(alloc: Global, bits: u32) -> Result<Buckets, AllocError>
        requires { bits < 64 }
        ensures { IfOk result (λ buckets. buckets ≡ replicate (2 ^ bits) (replicate 7 empty)) }
    {
        let bucket = Bucket {
            words: [Word::empty(); 7],
            overflow: 0,
        };
        let mut rows = Vec::new(alloc);
        rows.resize(1 << bits, bucket)?;
        let blocks = Vec::new(alloc);
        Ok(Buckets {
            rows,
            blocks,
            alloc,
        })
    }

    /// How many buckets there are.
    pub fn len(&self) -> usize
        ensures { result ≡ length self.now }
    {
        self.rows.len()
    }

    /// The first seven words of a bucket.
    pub fn first(&self, bucket: usize) -> &[Word]
        requires { bucket < length self.now }
        ensures value { result.now ≡ take 7 (words_of self.now bucket) }
        ensures seven { length result.now ≡ 7 }
    {
        &self.rows[bucket].words
    }

    /// The words of a bucket's overflow buckets.
    pub fn behind(&self, bucket: usize) -> &[Word]
        requires { bucket < length self.now }
        ensures { result.now ≡ drop 7 (words_of self.now bucket) }
    {
        let number = self.rows[bucket].overflow;
        if number == 0 {
            return &[];
        }
        &self.blocks[number - 1]
    }

    /// How many places a bucket has.
    pub fn places(&self, bucket: usize) -> usize
        requires { bucket < length self.now }
        ensures { result ≡ length (words_of self.now bucket) }
    {
        self.first(bucket).len() + self.behind(bucket).len()
    }

    /// The word at a place.
    pub fn word(&self, place: Place) -> Word
        requires { IsPlace self.now place }
        ensures { result ≡ word_at self.now place }
    {
        if place.at < 7 {
            return self.first(place.bucket)[place.at];
        }
        self.behind(place.bucket)[place.at - 7]
    }

    /// Writes the word at a place.
    pub fn set(&mut self, place: Place, word: Word)
        requires { IsPlace self.old place }
        ensures { self.new ≡ with_word self.old place word }
    {
        if place.at < 7 {
            let row = &mut self.rows[place.bucket];
            row.words[place.at] = word;
        } else {
            let number = self.rows[place.bucket].overflow;
            let block = &mut self.blocks[number - 1];
            block[place.at - 7] = word;
        }
    }

    /// Adds an overflow bucket of seven empty places behind a bucket.
    pub fn grow(&mut self, bucket: usize) -> Result<(), AllocError>
        requires { bucket < length self.old }
        ensures ok { OnOk result (self.new ≡ with_overflow self.old bucket) }
        ensures unchanged { OnErr result (self.new ≡ self.old) }
    {
        let places = [Word::empty(); 7];
        let number = self.rows[bucket].overflow;
        if number == 0 {
            let block = Vec::from_slice(self.alloc, &places)?;
            self.blocks.push(block)?;
            self.rows[bucket].overflow = self.blocks.len();
        } else {
            self.blocks[number - 1].extend_from_slice(&places)?;
        }
        Ok(())
    }

    /// Empties each final word whose address is below `begin`.
    pub fn sweep(&mut self, begin: u64)
        ensures { self.new ≡ map (map (swept begin)) self.old }
    {
        sweep_rows(&mut self.rows, begin);
        sweep_blocks(&mut self.blocks, begin);
    }
}

fn sweep_rows(rows: &mut Vec<Bucket>, begin: u64)
    ensures { rows.new.items ≡ map (swept_row begin) rows.old.items }
{
    for at in 0..rows.len() {
        let row = &mut rows[at];
        sweep_words(&mut row.words, begin);
    }
}

fn sweep_blocks(blocks: &mut Vec<Vec<Word>>, begin: u64)
    ensures { map (λ block. block.items) blocks.new.items
        ≡ map (map (swept begin)) (map (λ block. block.items) blocks.old.items) }
{
    for at in 0..blocks.len() {
        let block = &mut blocks[at];
        sweep_words(block, begin);
    }
}

/// Empties each final word of these whose address is below `begin`.
fn sweep_words(words: &mut [Word], begin: u64)
    ensures { words.new ≡ map (swept begin) words.old }
{
    for at in 0..words.len() {
        words[at] = words[at].swept(begin);
    }
}

/// The first place of a bucket that is empty.
pub fn first_empty(buckets: &Buckets, bucket: usize) -> Option<usize>
    requires { bucket < length buckets.now }
    ensures some { IfSome result (λ at. IsFirst is_empty (words_of buckets.now bucket) at) }
    ensures none { IfNone result (NonePasses is_empty (words_of buckets.now bucket)) }
{
    if let Some(at) = empty_place(buckets.first(bucket)) {
        return Some(at);
    }
    let at = empty_place(buckets.behind(bucket))?;
    Some(7 + at)
}

/// The first place of a bucket with a final entry of the tag, and its word.
#[inline(always)]
pub fn first_final(buckets: &Buckets, bucket: usize, tag: u16) -> Option<(usize, Word)>
    requires bucket { bucket < length buckets.now }
    requires tag { tag < 2 ^ 15 }
    ensures some { IfSome result (λ entry. IsFirst (is_final_of tag) (words_of buckets.now bucket) entry.0) }
    ensures word { IfSome result (λ entry. entry.1 ≡ slice_index_or (words_of buckets.now bucket) entry.0 empty) }
    ensures none { IfNone result (NonePasses (is_final_of tag) (words_of buckets.now bucket)) }
{
    let first = buckets.first(bucket);
    if let Some(at) = final_place(first, tag) {
        return Some((at, first[at]));
    }
    let behind = buckets.behind(bucket);
    let at = final_place(behind, tag)?;
    Some((7 + at, behind[at]))
}

/// Whether an entry of the tag stands in a bucket, final or tentative.
pub fn has_entry(buckets: &Buckets, bucket: usize, tag: u16) -> bool
    requires { bucket < length buckets.now }
    ensures { result ≡ list_any (is_entry_of tag) (words_of buckets.now bucket) }
{
    entry_stands(buckets.first(bucket), tag) || entry_stands(buckets.behind(bucket), tag)
}

fn empty_place(words: &[Word]) -> Option<usize>
    ensures some { IfSome result (λ at. IsFirst is_empty words.now at) }
    ensures none { IfNone result (NonePasses is_empty words.now) }
{
    words.iter().position(|word| word.is_empty())
}

#[inline(always)]
fn final_place(words: &[Word], tag: u16) -> Option<usize>
    requires { tag < 2 ^ 15 }
    ensures some { IfSome result (λ at. IsFirst (is_final_of tag) words.now at) }
    ensures none { IfNone result (NonePasses (is_final_of tag) words.now) }
{
    words.iter().position(|word| word.is_final_of(tag))
}

fn entry_stands(words: &[Word], tag: u16) -> bool
    ensures { result ≡ list_any (is_entry_of tag) words.now }
{
    words.iter().any(|word| word.is_entry_of(tag))
}
