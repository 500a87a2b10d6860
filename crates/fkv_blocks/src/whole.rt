//! What workers have read, once all have ended: all blocks of all feeds, or those before the first one that stopped a worker.
ghost use Rattle.std.specs.Prelude.{◌≡◌, ◌<◌, ◌≤◌, ◌+◌, ◌^◌, ◌↔◌, ◌⊎◌, ℕ, [], IsTrue, length, map, slice_index, slice_index_or, IfOk, IfErr, IfSome, IfNone, OnOk};
ghost use Rattle.std.specs.List.{All};
ghost use Rattle.fkv_streams.specs.Counting.{one_more};
ghost use Rattle.fkv_blocks.specs.Left.{EndsAt, text_at};
ghost use Rattle.fkv_blocks.specs.Orders.{AreOrdered};
ghost use Rattle.fkv_blocks.specs.Pieces.{AreWhole, IsFirstUnread, IsUpTo, StandsBefore, records_of};
ghost use Rattle.fkv_blocks.specs.Shares.{IsStop, WereRead};

use crate::blocks::{Blocks, Origin, Stop, number};
use crate::feeds::{Feeds, SharedFeed};
use crate::orders::{Taken, ordered};
use crate::spans::Ticket;
use fkv_functions::Refused;
use fkv_streams::Source;
use std::alloc::Global;
use std::marker::Model;

/// How many records these blocks have; none where they are 2^64 or more.
fn total(order: &[Taken]) -> Option<u64>
    ensures some { IfSome result (λ n. n ≡ records_of order.now) }
    ensures none { IfNone result (2 ^ 64 ≤ records_of order.now) }
{
    let mut total = 0u64;
    for taken in order {
        total = total.checked_add(taken.span.records)?;
    }
    Some(total)
}

/// Whether these blocks have more records than so many.
fn is_long(order: &[Taken], limit: u64) -> bool
    ensures { IsTrue result ↔ limit < records_of order.now }
{
    match total(order) {
        Some(total) => total > limit,
        None => true,
    }
}

/// The first feed that has more records than so many, by the blocks of each; none where none has.
fn first_long(orders: &[Vec<Taken>], limit: u64) -> Option<usize>
    ensures some { IfSome result (λ place. (place < length orders.now)
        × (limit < records_of (slice_index_or (map (λ order. order.items) orders.now) place []))) }
    ensures before { IfSome result (λ place. (f : ℕ) → f < place
        → records_of (slice_index_or (map (λ order. order.items) orders.now) f []) ≤ limit) }
    ensures none { IfNone result ((f : ℕ) → f < length orders.now
        → records_of (slice_index_or (map (λ order. order.items) orders.now) f []) ≤ limit) }
{
    for (place, order) in orders.iter().enumerate() {
        if is_long(order.as_slice(), limit) {
            return Some(place);
        }
    }
    None
}

/// How many records these blocks have, or so many, where they have more.
fn total_within(order: &[Taken], limit: u64) -> u64
    ensures { IsUpTo limit (records_of order.now) result }
{
    match total(order) {
        Some(total) => total.min(limit),
        None => limit,
    }
}

/// What is told of a block behind so many rows of its feed: of a bad row its number in the feed, where that is no more than `limit`.
fn told_behind(refused: Refused, before: u64, limit: u64) -> Refused
    ensures row { (f n : ℕ) → refused ≡ Refused.BadRow f n → before + n ≤ limit → result ≡ Refused.BadRow f (before + n) }
    ensures long { (f n : ℕ) → refused ≡ Refused.BadRow f n → limit < before + n → result ≡ Refused.Unreadable f }
    ensures other { ((f n : ℕ) → refused ≡ Refused.BadRow f n → ⊥) → result ≡ refused }
{
    match refused {
        Refused::BadRow { feed, row } => match before.checked_add(row) {
            Some(row) if row <= limit => Refused::BadRow { feed, row },
            _ => Refused::Unreadable { number: feed },
        },
        other => other,
    }
}

/// Whether a block lies before this place of this feed.
fn is_before(ticket: &Ticket, feed: usize, low: u64) -> bool {
    ticket.feed < feed || (ticket.feed == feed && ticket.span.low < low)
}

/// The tickets of blocks before this place of this feed. Refused: `NoMemory`.
fn hand_before<B: Origin>(
    alloc: Global,
    hand: &[Ticket],
    feed: usize,
    low: u64,
) -> Result<Vec<Ticket>, Refused>
    requires { WereRead B.feeds hand.now }
    ensures ok { IfOk result (λ kept. WereRead B.feeds kept.items) }
    ensures only { IfErr result (λ e. e ≡ Refused.NoMemory) }
{
    let mut kept = Vec::new(alloc);
    for ticket in hand {
        if !is_before(ticket, feed, low) {
            continue;
        }
        let Ok(()) = kept.push(*ticket) else {
            return Err(Refused::NoMemory);
        };
    }
    Ok(kept)
}

/// The same of each worker's tickets.
fn hands_before<B: Origin>(
    alloc: Global,
    hands: &[Vec<Ticket>],
    feed: usize,
    low: u64,
) -> Result<Vec<Vec<Ticket>>, Refused>
    requires { All (WereRead B.feeds) (map (λ hand. hand.items) hands.now) }
    ensures ok { IfOk result (λ kept. All (WereRead B.feeds) (map (λ hand. hand.items) kept.items)) }
    ensures only { IfErr result (λ e. e ≡ Refused.NoMemory) }
{
    let mut kept = Vec::new(alloc);
    for hand in hands {
        let some = match hand_before::<B>(alloc, hand.as_slice(), feed, low) {
            Ok(some) => some,
            Err(refused) => return Err(refused),
        };
        let Ok(()) = kept.push(some) else {
            return Err(Refused::NoMemory);
        };
    }
    Ok(kept)
}

/// Where this feed ended, if it is the one at this place; none where it has not ended.
fn end_of<S: Source, B: Origin>(feed: &Blocks<S, B>, place: usize) -> Option<u64>
    ensures { IfSome result (EndsAt (text_at B.feeds place)) }
{
    if feed.place() != place {
        return None;
    }
    feed.end()
}

/// What these tickets have of feeds that end at these places, in order. Refused: `NoMemory`; and `Mismatch` where there is no order.
fn in_order(alloc: Global, ends: &[u64], hands: &[Vec<Ticket>]) -> Result<Vec<Vec<Taken>>, Refused>
    ensures ok { IfOk result (λ orders.
        AreOrdered ends.now (map (λ hand. hand.items) hands.now) (map (λ order. order.items) orders.items)) }
    ensures only { IfErr result (λ e. (e ≡ Refused.NoMemory) ⊎ (e ≡ Refused.Mismatch)) }
{
    match ordered(alloc, ends, hands) {
        Ok(Some(orders)) => Ok(orders),
        Ok(None) => Err(Refused::Mismatch),
        Err(refused) => Err(refused),
    }
}

/// Feeds that nobody reads any more. A contract sees how often their streams have failed.
#[derive(Drop)]
pub struct ReadFeeds<S: Source + Drop, B: Origin> {
    feeds: Vec<Blocks<S, B>>,
}

impl<S: Source + Drop, B: Origin> Model for ReadFeeds<S, B> {
    ghost use Rattle.std.specs.Prelude.{◌≡◌, ℕ, List, length, map};

    ghost Value = { List ℕ };

    ghost view = { λ e. map (λ feed. feed.failures) e.feeds.items };

    ghost invariant = { λ e. length e.feeds.items ≡ length B.feeds };
}

impl<S: Source + Drop, B: Origin> Feeds<S, B> {
    /// The feeds, out of their locks, once all who share them have ended. Refused: `NoMemory`.
    pub fn ended(self, alloc: Global) -> Result<ReadFeeds<S, B>, Refused>
        ensures only { IfErr result (λ e. e ≡ Refused.NoMemory) }
    {
        let Feeds { feeds } = self;
        let mut ended = Vec::new(alloc);
        for feed in feeds {
            let SharedFeed { blocks, .. } = feed;
            let Ok(()) = ended.push(blocks.into_inner()) else {
                return Err(Refused::NoMemory);
            };
        }
        Ok(ReadFeeds { feeds: ended })
    }
}

impl<S: Source + Drop, B: Origin> ReadFeeds<S, B> {
    /// The streams of the feeds, as far as they were read. Refused: `NoMemory`.
    pub fn into_sources(self, alloc: Global) -> Result<Vec<S>, Refused>
        ensures ok { IfOk result (λ sources. map S.failures sources.items ≡ self) }
        ensures only { IfErr result (λ e. e ≡ Refused.NoMemory) }
    {
        let ReadFeeds { feeds } = self;
        let mut sources = Vec::new(alloc);
        for feed in feeds {
            let Ok(()) = sources.push(feed.into_source()) else {
                return Err(Refused::NoMemory);
            };
        }
        Ok(sources)
    }

    /// Whether the stream of the feed at this place has failed in the run, which it counted.
    fn has_failed(&self, place: usize) -> bool
        ensures { IsTrue result → slice_index self.now place ≡ one_more (slice_index B.counts place) }
    {
        match self.feeds.get(place) {
            Some(feed) => feed.place() == place && feed.has_failed(),
            None => false,
        }
    }

    /// Where each of the first feeds ended, as many as are asked for. Refused: `NoMemory`; and `Mismatch` where one has not ended, or
    /// there are fewer.
    fn ends(&self, alloc: Global, many: usize) -> Result<Vec<u64>, Refused>
        ensures count { IfOk result (λ ends. length ends.items ≡ many) }
        ensures each { IfOk result (λ ends. (f : ℕ) → f < many → EndsAt (text_at B.feeds f) (slice_index ends.items f)) }
        ensures only { IfErr result (λ e. (e ≡ Refused.NoMemory) ⊎ (e ≡ Refused.Mismatch)) }
    {
        let mut ends = Vec::new(alloc);
        for place in 0..many {
            let Some(feed) = self.feeds.get(place) else {
                return Err(Refused::Mismatch);
            };
            let Some(end) = end_of(feed, place) else {
                return Err(Refused::Mismatch);
            };
            let Ok(()) = ends.push(end) else {
                return Err(Refused::NoMemory);
            };
        }
        Ok(ends)
    }

    /// That workers with these tickets have read all blocks of all feeds, each once: so their rows are the feeds' rows, of which no feed has
    /// more than `limit`.
    ///
    /// # Errors
    ///
    /// `NoMemory`; `Mismatch` where the blocks of some feed do not lie one behind another from its start to its end, which no workers
    /// bring about that read by [`Feeds::read`] and were not refused; and `Unreadable` with the number of the first feed that has more
    /// rows than `limit`.
    pub fn whole(&self, alloc: Global, limit: u64, hands: &[Vec<Ticket>]) -> Result<(), Refused>
        requires { All (WereRead B.feeds) (map (λ hand. hand.items) hands.now) }
        ensures ok { OnOk result (AreWhole limit B.feeds (map (λ hand. hand.items) hands.now)) }
        ensures refused { IfErr result (λ e. (e ≡ Refused.NoMemory) ⊎ (e ≡ Refused.Mismatch)
            ⊎ IsFirstUnread B.feeds B.counts self.now limit e) }
    {
        let ends = match self.ends(alloc, self.feeds.len()) {
            Ok(ends) => ends,
            Err(refused) => return Err(refused),
        };
        let orders = match in_order(alloc, ends.as_slice(), hands) {
            Ok(orders) => orders,
            Err(refused) => return Err(refused),
        };
        match first_long(orders.as_slice(), limit) {
            None => Ok(()),
            Some(place) => Err(Refused::Unreadable {
                number: number(place),
            }),
        }
    }

    /// How many rows stand before this place of a feed, or `limit`, where there are more: workers with these tickets have read the feeds
    /// before it to their ends, and the feed up to there. Refused: `NoMemory`; `Mismatch` where they have not; and `Unreadable` with
    /// the number of the first feed before it that has more rows than `limit`.
    fn rows_before(
        &self,
        alloc: Global,
        limit: u64,
        hands: &[Vec<Ticket>],
        feed: usize,
        low: u64,
    ) -> Result<u64, Refused>
        requires { All (WereRead B.feeds) (map (λ hand. hand.items) hands.now) }
        ensures ok { IfOk result (StandsBefore limit B.feeds feed low) }
        ensures refused { IfErr result (λ e. (e ≡ Refused.NoMemory) ⊎ (e ≡ Refused.Mismatch)
            ⊎ IsFirstUnread B.feeds B.counts self.now limit e) }
    {
        if feed >= self.feeds.len() {
            return Err(Refused::Mismatch);
        }
        let mut ends = match self.ends(alloc, feed) {
            Ok(ends) => ends,
            Err(refused) => return Err(refused),
        };
        let Ok(()) = ends.push(low) else {
            return Err(Refused::NoMemory);
        };
        let hands = match hands_before::<B>(alloc, hands, feed, low) {
            Ok(hands) => hands,
            Err(refused) => return Err(refused),
        };
        let orders = match in_order(alloc, ends.as_slice(), hands.as_slice()) {
            Ok(orders) => orders,
            Err(refused) => return Err(refused),
        };
        match first_long(&orders.as_slice()[..feed], limit) {
            None => Ok(total_within(orders[feed].as_slice(), limit)),
            Some(place) => Err(Refused::Unreadable {
                number: number(place),
            }),
        }
    }

    /// What is told of feeds where one worker stopped so, and none stopped at a block before that one: the feeds before it have rows, and it
    /// has none; a bad row is told by its number in the feed. The workers' tickets say how many rows stand before the block.
    ///
    /// `NoMemory` and `Mismatch` are told in its place, as [`ReadFeeds::whole`] is refused with them; and `Mismatch` where the worker met a
    /// failure of a stream that has none, which none does.
    pub fn fault(&self, alloc: Global, limit: u64, hands: &[Vec<Ticket>], stop: Stop) -> Refused
        requires read { All (WereRead B.feeds) (map (λ hand. hand.items) hands.now) }
        requires stop { IsStop B.feeds limit stop }
        ensures { (result ≡ Refused.NoMemory) ⊎ (result ≡ Refused.Mismatch)
            ⊎ IsFirstUnread B.feeds B.counts self.now limit result }
    {
        let Stop {
            feed,
            low,
            refused,
            has_failed,
        } = stop;
        if has_failed && !self.has_failed(feed) {
            return Refused::Mismatch;
        }
        match self.rows_before(alloc, limit, hands, feed, low) {
            Ok(before) => told_behind(refused, before, limit),
            Err(refused) => refused,
        }
    }
}
