//! A feed that is cut into blocks of whole records.
//!
//! What lies under a lock is known by its type alone. So the type says which feeds there are (`Origin`), and a value which of them it
//! is: what is left of it, where it ended, and whether its stream failed, is a fact of each value.
ghost use Rattle.std.specs.Prelude.{◌≡◌, ◌≤◌, ◌+◌, ◌-◌, ◌^◌, ℕ, List, [], Option, None, Some, false, true, length, slice_index, slice_index_or, IfOk, IfErr, IfSome, IfNone, OnErr, IsSome, IsTrue};
ghost use Rattle.fkv_streams.specs.Counting.{one_more};
ghost use Rattle.fkv_blocks.specs.Left.{EndsAt, HasFailed, IsBlockOf, IsNext, IsUntaken, IsWide, number_of, text_at};

use crate::cutting::record_end;
use crate::filling::{begun, next_cut, split};
use fkv_functions::Refused;
use fkv_streams::Source;
use std::alloc::Global;
use std::marker::{Brand, Model, PhantomData};
use std::sync::{Mutex, Wait};

/// Which feeds there are.
pub trait Origin {
    /// The bytes of each, where they are known.
    ghost feeds: { List (Option (List ℕ)) };

    /// How often the stream of each had failed before it was read.
    ghost counts: { List ℕ };
}

impl Origin for Brand {
    ghost feeds = { [] };

    ghost counts = { [] };
}

/// Where a block lies: the place of its feed, counted from 0, and where it begins and ends there, behind a byte order mark.
#[derive(Clone, Copy, PartialEq, Eq, Debug)]
pub struct BlockSpan {
    pub feed: usize,
    pub low: u64,
    pub high: u64,
}

/// Why no more is read of a feed, by its place, counted from 0, and where: up to there its blocks were handed out.
#[derive(Clone, Copy, PartialEq, Eq, Debug)]
pub struct Stop {
    pub feed: usize,
    pub low: u64,
    pub refused: Refused,
    /// Whether its stream failed there.
    pub has_failed: bool,
}

/// How many of the bytes that are held make the next block, and whether it is the last.
#[derive(Clone, Copy, PartialEq, Eq, Debug)]
struct Cut {
    size: usize,
    is_last: bool,
}

/// Why a feed is read no more, by its number, counted from 1.
fn named(refused: Refused, place: usize) -> Refused
    ensures memory { refused ≡ Refused.NoMemory → result ≡ Refused.NoMemory }
    ensures failed { refused ≡ Refused.Unreadable 1 → result ≡ Refused.Unreadable (number_of place) }
{
    match refused {
        Refused::Unreadable { .. } => Refused::Unreadable {
            number: number(place),
        },
        other => other,
    }
}

/// The number of a feed, counted from 1.
pub fn number(place: usize) -> u64
    ensures { result ≡ number_of place }
{
    (place as u64).saturating_add(1)
}

/// Whether this is told of a feed whose stream failed.
fn is_unreadable(refused: Refused) -> bool
    ensures memory { refused ≡ Refused.NoMemory → result ≡ false }
    ensures failed { (n : ℕ) → refused ≡ Refused.Unreadable n → result ≡ true }
    ensures only { IsTrue result → (n : ℕ) × (refused ≡ Refused.Unreadable n) }
{
    matches!(refused, Refused::Unreadable { .. })
}

/// Where a block lies; none where it has no byte.
fn place_of(feed: usize, low: u64, high: u64) -> Option<BlockSpan>
    ensures some { IfSome result (λ p. p ≡ record { feed = feed; low = low; high = high }) }
    ensures none { IfNone result (low ≡ high) }
{
    if low == high {
        return None;
    }
    Some(BlockSpan { feed, low, high })
}

/// A feed in blocks, as far as it was read.
#[derive(Drop)]
pub struct Blocks<S: Source, B: Origin> {
    alloc: Global,
    source: S,
    place: usize,
    /// How many bytes are held at least before a block is cut.
    size: usize,
    held: Vec<u8>,
    at: u64,
    /// Whether its first bytes were read.
    begun: bool,
    over: bool,
    stopped: Option<Refused>,
    of: PhantomData<B>,
}

impl<S: Source, B: Origin> Model for Blocks<S, B> {
    ghost use Rattle.fkv_blocks.specs.Left.{BlocksView, IsOneOf};

    ghost Value = { BlocksView };

    ghost view = { λ b. record {
      place = b.place;
      at = b.at;
      begun = b.begun;
      over = b.over;
      stopped = b.stopped;
      held = b.held.items;
      left = S.remaining b.source;
      failures = S.failures b.source;
    } };

    ghost invariant = { λ b. IsOneOf B.feeds B.counts (record {
      place = b.place;
      at = b.at;
      begun = b.begun;
      over = b.over;
      stopped = b.stopped;
      held = b.held.items;
      left = S.remaining b.source;
      failures = S.failures b.source;
    }) };
}

impl<S: Source, B: Origin> Blocks<S, B> {
    /// The feed at a place, of which nothing is read yet, in blocks of so many bytes at least.
    pub fn begin(alloc: Global, source: S, place: usize, size: usize) -> Blocks<S, B>
        requires bytes { S.remaining source ≡ slice_index_or B.feeds place None }
        requires counted { S.failures source ≡ slice_index B.counts place }
        ensures place { result.place ≡ place }
    {
        Blocks {
            alloc,
            source,
            place,
            size,
            held: Vec::new(alloc),
            at: 0,
            begun: false,
            over: false,
            stopped: None,
            of: PhantomData,
        }
    }

    /// Reads the first bytes, and drops a byte order mark at the front. Where they are not read, that is told as a block is taken.
    fn start(&mut self)
        requires { self.old.begun ≡ false }
        ensures begun { self.new.begun ≡ true }
        ensures place { self.new.place ≡ self.old.place }
        ensures on { self.new.over ≡ false }
    {
        match begun(self.alloc, &mut self.source) {
            Ok(held) => self.held = held,
            Err(refused) => self.stopped = Some(named(refused, self.place)),
        }
        self.begun = true;
    }

    /// Where the next block ends among the bytes that are held, which are read on for it. Once no more is read, what is held is still cut.
    /// Refused by what stopped the reading, once no whole record is held.
    fn next(&mut self) -> Result<Cut, Refused>
        requires begun { self.old.begun ≡ true }
        requires on { self.old.over ≡ false }
        ensures ok { IfOk result (λ cut. IsNext self.new cut.size cut.is_last) }
        ensures stays { self.new ≡ record self.old {
          stopped = self.new.stopped;
          held = self.new.held;
          left = self.new.left;
          failures = self.new.failures;
        } }
        ensures told { IfErr result (λ why. HasFailed self.new.place (slice_index B.counts self.new.place) self.new.failures (Some why)) }
    {
        if self.stopped.is_none() {
            match next_cut(&mut self.source, &mut self.held, self.size) {
                Ok(Some(size)) => return Ok(Cut {
                    size,
                    is_last: false,
                }),
                Ok(None) => return Ok(Cut {
                    size: self.held.len(),
                    is_last: true,
                }),
                Err(refused) => self.stopped = Some(named(refused, self.place)),
            }
        }
        match (record_end(self.held.as_slice()), self.stopped) {
            (Some(size), _) => Ok(Cut {
                size,
                is_last: false,
            }),
            (None, Some(refused)) => Err(refused),
            (None, None) => unreachable!(),
        }
    }

    /// Hands out so many of the bytes that are held, and tells where they lie; none where there are none and the feed is over.
    fn hand_out(&mut self, cut: Cut, block: &mut Vec<u8>) -> Result<Option<BlockSpan>, Refused>
        requires begun { self.old.begun ≡ true }
        requires on { self.old.over ≡ false }
        requires next { IsNext self.old cut.size cut.is_last }
        ensures given { IfOk result (λ found. IfSome found (λ p. (p.feed ≡ self.old.place)
            × IsBlockOf (text_at B.feeds p.feed) block.new.items p.low p.high)) }
        ensures over { IfOk result (λ found. IfNone found (self.new.over ≡ true)) }
        ensures told { IfErr result (λ why. IsUntaken B.feeds
            (record { feed = self.new.place; low = self.old.at; refused = why; has_failed = false })) }
        ensures place { self.new.place ≡ self.old.place }
    {
        let low = self.at;
        let Some(high) = low.checked_add(cut.size as u64) else {
            return Err(Refused::Unreadable {
                number: number(self.place),
            });
        };
        match split(&mut self.held, block, cut.size) {
            Ok(()) => {}
            Err(refused) => return Err(refused),
        }
        self.at = high;
        self.over = cut.is_last;
        Ok(place_of(self.place, low, high))
    }

    /// Hands out the next block, and tells where it lies; none where the feed is over. Where its stream fails, the whole records that
    /// were read by then are handed out first.
    ///
    /// # Errors
    ///
    /// With where the block begins: `NoMemory`; `Unreadable` with the feed's number where its stream failed, or where it has 2^64 bytes or
    /// more.
    pub fn take(&mut self, block: &mut Vec<u8>) -> Result<Option<BlockSpan>, Stop>
        ensures given { IfOk result (λ found. IfSome found (λ p. (p.feed ≡ self.old.place)
            × IsBlockOf (text_at B.feeds p.feed) block.new.items p.low p.high)) }
        ensures over { IfOk result (λ found. IfNone found (self.new.over ≡ true)) }
        ensures told { IfErr result (λ stop. (stop.feed ≡ self.old.place) × IsUntaken B.feeds stop) }
        ensures place { self.new.place ≡ self.old.place }
    {
        if self.over {
            return Ok(None);
        }
        if !self.begun {
            self.start();
        }
        let (feed, low) = (self.place, self.at);
        let cut = match self.next() {
            Ok(cut) => cut,
            Err(refused) => return Err(Stop {
                feed,
                low,
                refused,
                has_failed: is_unreadable(refused),
            }),
        };
        match self.hand_out(cut, block) {
            Ok(place) => Ok(place),
            Err(refused) => Err(Stop {
                feed,
                low,
                refused,
                has_failed: false,
            }),
        }
    }

    /// The place of the feed, counted from 0.
    pub fn place(&self) -> usize
        ensures { result ≡ self.now.place }
    {
        self.place
    }

    /// Where a feed that is over ended.
    pub fn end(&self) -> Option<u64>
        ensures { IfSome result (EndsAt (text_at B.feeds self.now.place)) }
    {
        if !self.over {
            return None;
        }
        Some(self.at)
    }

    /// Whether its stream failed, which it counted.
    pub fn has_failed(&self) -> bool
        ensures { IsTrue result → self.now.failures ≡ one_more (slice_index B.counts self.now.place) }
    {
        match self.stopped {
            Some(refused) => is_unreadable(refused),
            None => false,
        }
    }

    /// Its stream, as far as it was read.
    pub fn into_source(self) -> S
        ensures { S.failures result ≡ self.failures }
    {
        let Blocks { source, .. } = self;
        source
    }
}

/// The next block of a feed that several threads share.
///
/// # Errors
///
/// As [`Blocks::take`]'s.
pub fn take_block<S: Source, B: Origin>(
    rt: &impl Wait,
    blocks: &Mutex<Blocks<S, B>>,
    block: &mut Vec<u8>,
) -> Result<Option<BlockSpan>, Stop>
    ensures given { IfOk result (λ found. IfSome found
        (λ p. IsBlockOf (text_at B.feeds p.feed) block.new.items p.low p.high)) }
    ensures told { IfErr result (IsUntaken B.feeds) }
{
    blocks.lock(rt).take(block)
}
