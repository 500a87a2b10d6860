//! Feeds that several workers read, each of them blocks of any feed.
//!
//! Each feed stands behind a lock of its own, so feeds are read side by side. A worker goes through the feeds in a circle, from one of
//! its own on, and takes blocks of each until it is over. Once all workers have ended, their tickets say whether they have read all
//! blocks, or what stopped the first of them, in the order of the feeds.
ghost use Rattle.std.specs.Prelude.{◌≡◌, ◌⊎◌, ℕ, length, map, IfErr, OnOk, OnErr};
ghost use Rattle.fkv_blocks.specs.Shares.{HaveRows, IsStop, WereRead};

use crate::blocks::{Blocks, Origin, Stop};
use crate::reading::{BlockSink, read_next};
use crate::spans::Ticket;
use fkv_functions::Refused;
use fkv_streams::Source;
use std::alloc::Global;
use std::marker::Model;
use std::sync::atomic::{AtomicBool, Ordering};
use std::sync::{Mutex, Wait};

/// A feed behind its lock, and whether workers are to take no more blocks of it.
#[derive(Drop)]
pub(crate) struct SharedFeed<S: Source + Drop, B: Origin> {
    pub blocks: Mutex<Blocks<S, B>>,
    pub closed: AtomicBool,
}

/// Feeds, of which each worker takes blocks.
#[derive(Drop)]
pub struct Feeds<S: Source + Drop, B: Origin> {
    pub(crate) feeds: Vec<SharedFeed<S, B>>,
}

impl<S: Source + Drop, B: Origin> Model for Feeds<S, B> {
    ghost Value = { ℕ };

    ghost view = { λ f. length f.feeds.items };

    ghost invariant = { λ f. length f.feeds.items ≡ length B.feeds };
}

impl<S: Source + Drop, B: Origin> Feeds<S, B> {
    /// These feeds, of which nothing is read yet, in blocks of so many bytes at least.
    ///
    /// # Errors
    ///
    /// `NoMemory`.
    pub fn open(alloc: Global, sources: Vec<S>, size: usize) -> Result<Feeds<S, B>, Refused>
        requires bytes { map S.remaining sources.items ≡ B.feeds }
        requires counted { map S.failures sources.items ≡ B.counts }
        ensures only { IfErr result (λ e. e ≡ Refused.NoMemory) }
    {
        let mut feeds = Vec::new(alloc);
        let mut place = 0;
        for source in sources {
            let blocks = Mutex::new(Blocks::<S, B>::begin(alloc, source, place, size));
            let closed = AtomicBool::new(false);
            let Ok(()) = feeds.push(SharedFeed { blocks, closed }) else {
                return Err(Refused::NoMemory);
            };
            place += 1;
        }
        Ok(Feeds { feeds })
    }

    /// Has no worker take blocks of the feed at this place any more, nor of those behind it.
    fn close(&self, place: usize) {
        for feed in self.feeds.iter().skip(place) {
            feed.closed.store(true, Ordering::SeqCst);
        }
    }

    /// Takes blocks of one feed until there is none any more, or the feed is closed, and hands on their rows. Before each block the sink
    /// rests. Refused as [`Feeds::read`] is.
    fn read_one<K: BlockSink>(
        &self,
        rt: &impl Wait,
        alloc: Global,
        place: usize,
        limit: u64,
        sink: &mut K,
        tickets: &mut Vec<Ticket>,
    ) -> Result<(), Stop>
        requires { HaveRows B.feeds (K.RowSink.stands sink.old) tickets.old.items }
        ensures ok { OnOk result (HaveRows B.feeds (K.RowSink.stands sink.new) tickets.new.items) }
        ensures read { OnErr result (WereRead B.feeds tickets.new.items) }
        ensures told { IfErr result (λ stop. K.RowSink.fault stop.refused ⊎ IsStop B.feeds limit stop) }
    {
        let Some(feed) = self.feeds.get(place) else {
            return Ok(());
        };
        let mut block = Vec::new(alloc);
        for _ in rt.forever() {
            if feed.closed.load(Ordering::SeqCst) {
                return Ok(());
            }
            match sink.rest() {
                Ok(()) => {}
                Err(refused) => return Err(Stop {
                    feed: place,
                    low: 0,
                    refused,
                    has_failed: false,
                }),
            }
            match read_next(rt, alloc, &feed.blocks, limit, &mut block, sink, tickets) {
                Ok(true) => {}
                Ok(false) => return Ok(()),
                Err(stop) => return Err(stop),
            }
        }
        unreachable!()
    }

    /// Takes blocks of the feeds from one place up to another, as [`Feeds::read_one`] does.
    fn read_range<K: BlockSink>(
        &self,
        rt: &impl Wait,
        alloc: Global,
        low: usize,
        high: usize,
        limit: u64,
        sink: &mut K,
        tickets: &mut Vec<Ticket>,
    ) -> Result<(), Stop>
        requires { HaveRows B.feeds (K.RowSink.stands sink.old) tickets.old.items }
        ensures ok { OnOk result (HaveRows B.feeds (K.RowSink.stands sink.new) tickets.new.items) }
        ensures read { OnErr result (WereRead B.feeds tickets.new.items) }
        ensures told { IfErr result (λ stop. K.RowSink.fault stop.refused ⊎ IsStop B.feeds limit stop) }
    {
        for place in low..high {
            match self.read_one(rt, alloc, place, limit, sink, tickets) {
                Ok(()) => {}
                Err(stop) => {
                    self.close(stop.feed);
                    return Err(stop);
                }
            }
        }
        Ok(())
    }

    /// Takes blocks of all feeds, from one of this worker's own on in a circle, until there is none any more; hands on their rows, and keeps
    /// a ticket of each block that was read to its end. Before each block the sink rests. Where a worker is refused, no other one takes
    /// blocks of that feed or of those behind it any more.
    ///
    /// # Errors
    ///
    /// With where the block begins: as a block is taken; `BadRow` with the feed's number, and the row's number in its block;
    /// `Unreadable` with the feed's number where a block has more records than `limit`; as the sink refuses a row, or to rest; and
    /// `NoMemory`.
    pub fn read<K: BlockSink>(
        &self,
        rt: &impl Wait,
        alloc: Global,
        worker: usize,
        limit: u64,
        sink: &mut K,
        tickets: &mut Vec<Ticket>,
    ) -> Result<(), Stop>
        requires { HaveRows B.feeds (K.RowSink.stands sink.old) tickets.old.items }
        ensures ok { OnOk result (HaveRows B.feeds (K.RowSink.stands sink.new) tickets.new.items) }
        ensures read { WereRead B.feeds tickets.new.items }
        ensures told { IfErr result (λ stop. K.RowSink.fault stop.refused ⊎ IsStop B.feeds limit stop) }
    {
        let count = self.feeds.len();
        if count == 0 {
            return Ok(());
        }
        let first = worker % count;
        match self.read_range(rt, alloc, first, count, limit, sink, tickets) {
            Ok(()) => {}
            Err(stop) => return Err(stop),
        }
        self.read_range(rt, alloc, 0, first, limit, sink, tickets)
    }
}
