//! Calls on an index. Places are numbers within a bucket.
ghost use Rattle.std.specs.Prelude.{◌<◌, ◌^◌};

use crate::lines::{Line, Subject};
use fkv_functions::Refused;
use fkv_index::{Index, NO_RECORD, Place, Word};
use std::alloc::{AllocError, Global};

/// An index of 2^bits buckets.
pub fn index_of(alloc: Global, bits: u64) -> Option<Index> {
    let bits = bits.min(20) as u32;
    match Index::new(alloc, bits) {
        Ok(index) => Some(index),
        Err(_) => Index::new(alloc, bits).ok(),
    }
}

/// The first empty place of a bucket. A call that memory was refused to changed nothing, and is made again.
fn probe(index: &mut Index, bucket: usize) -> Option<Place> {
    if bucket >= index.buckets() {
        return None;
    }
    match index.probe(bucket) {
        Ok(place) => Some(place),
        Err(_) => index.probe(bucket).ok(),
    }
}

/// Claims the first empty place of a bucket for a tag.
fn claim(index: &mut Index, bucket: usize, tag: u16) -> Option<Place> {
    let place = probe(index, bucket)?;
    if tag >= 0x8000 || !index.is_place(place) || !index.word(place).is_empty() {
        return None;
    }
    index.claim(place, tag);
    Some(place)
}

/// Confirms or cancels the claim at a place, and answers whether an entry stands there then.
fn end_claim(index: &mut Index, place: Place, is_confirmed: bool) -> Option<bool> {
    if !index.is_place(place) || !index.word(place).is_tentative() {
        return None;
    }
    if is_confirmed {
        return Some(index.confirm(place.bucket, place));
    }
    index.cancel(place);
    Some(index.is_place(place) && index.word(place).is_final())
}

/// Exchanges the entry of a tag and an address for one with another address.
fn exchange(index: &mut Index, place: Place, tag: u16, low: u64, high: u64) -> Option<bool> {
    let end = 1u64 << 48;
    if tag >= 0x8000 || low == 0 || low >= end || high == 0 || high >= end {
        return None;
    }
    if !index.is_place(place) {
        return None;
    }
    Some(index.exchange(place, Word::entry(tag, low), Word::entry(tag, high)))
}

/// Tags from the first to below the last, by steps.
#[derive(Clone, Copy)]
struct Tags {
    first: u16,
    last: u16,
    step: u16,
}

impl Tags {
    /// The tags that a line names behind a bucket.
    fn new(line: &Line) -> Tags {
        let [_, first, last, step, _] = line.numbers;
        Tags {
            first: first.min(0x8000) as u16,
            last: last.min(0x8000) as u16,
            step: step.clamp(1, 0x8000) as u16,
        }
    }

    /// How many there are.
    fn count(&self) -> u16 {
        self.last
            .saturating_sub(self.first)
            .div_ceil(self.step.max(1))
    }

    /// The tag after so many others.
    fn tag(&self, at: u16) -> u16 {
        self.first.saturating_add(at.saturating_mul(self.step))
    }
}

/// Makes entries of tags, each with an address of its own, and answers how many.
fn fill(index: &mut Index, bucket: usize, tags: Tags) -> u16 {
    let mut count = 0u16;
    for at in 0..tags.count() {
        let tag = tags.tag(at);
        let Some(place) = claim(index, bucket, tag) else {
            break;
        };
        let is_made = end_claim(index, place, true) == Some(true)
            && exchange(index, place, tag, NO_RECORD, 64 + u64::from(tag)) == Some(true);
        if !is_made {
            break;
        }
        count = count.saturating_add(1);
    }
    count
}

/// The place and the address of the entry of a tag.
fn find(index: &Index, bucket: usize, tag: u16) -> Option<(usize, u64)> {
    if bucket >= index.buckets() || tag >= 0x8000 {
        return None;
    }
    let (place, word) = index.find(bucket, tag)?;
    Some((place.at, word.address()))
}

/// Entries, each in the place behind the one before, with an address as far above as its tag.
#[derive(Clone, Copy)]
struct Run {
    first: u16,
    place: usize,
    address: u64,
    count: usize,
}

/// Whether the entry of a tag goes on a run.
fn goes_on(run: &Run, tag: u16, place: usize, address: u64) -> bool {
    place.checked_sub(run.place) == Some(run.count)
        && address.checked_sub(run.address) == Some(u64::from(tag.saturating_sub(run.first)))
}

/// Writes a run, if there is one.
fn write_run(run: Option<Run>, out: &mut String) -> Result<(), AllocError> {
    let Some(
        Run {
            first,
            place,
            address,
            count,
        },
    ) = run
    else {
        return Ok(());
    };
    write!(out, "{first} at {place} {address} x{count}, ")
}

/// Writes the entries of tags of a bucket, run by run.
fn write_entries(
    index: &Index,
    bucket: usize,
    tags: Tags,
    out: &mut String,
) -> Result<(), AllocError> {
    let mut run: Option<Run> = None;
    for at in 0..tags.count() {
        let tag = tags.tag(at);
        let Some((place, address)) = find(index, bucket, tag) else {
            write_run(run, out)?;
            run = None;
            continue;
        };
        match run.as_mut() {
            Some(open) if goes_on(open, tag, place, address) => open.count = open
                .count
                .saturating_add(1),
            _ => {
                write_run(run, out)?;
                run = Some(Run {
                    first: tag,
                    place,
                    address,
                    count: 1,
                });
            }
        }
    }
    write_run(run, out)?;
    writeln!(out)
}

/// Writes what the bits of a word say.
fn write_word(word: Word, out: &mut String) -> Result<(), AllocError> {
    let (bits, tag, address) = (word.bits, word.tag(), word.address());
    let kind = match (word.is_empty(), word.is_tentative(), word.is_final()) {
        (true, false, false) => "empty",
        (false, true, false) => "tentative",
        (false, false, true) => "final",
        _ => "of two kinds",
    };
    writeln!(out, "{bits:#018x} {kind} {tag} {address}")
}

impl Subject for Index {
    fn call(&mut self, line: &Line, out: &mut String) -> Result<(), AllocError> {
        let [bucket, number, third, low, high] = line.numbers;
        let bucket = bucket as usize;
        let place = Place {
            bucket,
            at: number as usize,
        };
        let tag = number.min(0x8000) as u16;
        match line.word {
            "claim" => writeln!(out, "{:?}", claim(self, bucket, tag).map(|place| place.at)),
            "confirm" => writeln!(out, "{:?}", end_claim(self, place, true)),
            "cancel" => writeln!(out, "{:?}", end_claim(self, place, false)),
            "find" => writeln!(out, "{:?}", find(self, bucket, tag)),
            "exchange" => {
                let tag = third.min(0x8000) as u16;
                writeln!(out, "{:?}", exchange(self, place, tag, low, high))
            }
            "word" if self.is_place(place) => write_word(self.word(place), out),
            "bits" => write_word(
                Word {
                    bits: line.numbers[0],
                },
                out,
            ),
            "probe" => writeln!(out, "{:?}", probe(self, bucket).map(|place| place.at)),
            "sweep" => {
                self.sweep(line.numbers[0]);
                writeln!(out, "Done")
            }
            "fill" => writeln!(out, "{}", fill(self, bucket, Tags::new(line))),
            "entries" => write_entries(self, bucket, Tags::new(line), out),
            _ => writeln!(out, "Never"),
        }
    }
}
