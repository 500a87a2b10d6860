//! What a worker reads: feeds of its own, or blocks of feeds that all workers share.
ghost use Rattle.std.specs.Prelude.{◌≡◌, ◌⊎◌, ◌++◌, [], ℤ, List, map, flat_map, Some, IfSome, IfNone, IfErr, OnOk};
ghost use Rattle.std.specs.List.{AllZip};
ghost use Rattle.fkv_functions.specs.declared.names.Name.{Name};
ghost use Rattle.fkv_functions.specs.declared.refusals.Refused.{Refused};
ghost use Rattle.fkv_blocks.specs.Shares.{AreRowsIn, IsStop, WereRead};
ghost use Rattle.fkv_feeds.specs.Tables.{AreFeeds, most_rows};
ghost use Rattle.fkv_workers.specs.Works.{IsUnreadOf};

use crate::feed_shares::FeedShare;
use fkv_blocks::{BlockSink, Feeds, Origin, Stop, Ticket};
use fkv_feed_rows::{RowSink, read_feed};
use fkv_feeds::LIMIT;
use fkv_functions::Refused;
use fkv_streams::Source;
use std::alloc::Global;
use std::sync::Wait;

/// What is left of a share that was read: what tells of it, and why it was not read to its end, if it was not.
#[derive(Drop)]
pub(crate) struct Reading<R> {
    pub had: R,
    pub fault: Option<Refused>,
}

/// What a worker reads.
pub(crate) trait Share: Drop {
    /// What tells of what was read.
    type Had: Drop;

    /// It was read to its end, and has these rows.
    ghost reads: { Self → Self.Had → List (Name × ℤ) → Type 0 };

    /// Why it was not.
    ghost fails: { Self → Self.Had → Refused → Type 0 };

    /// What is known of what was read in either case.
    ghost tells: { Self → Self.Had → Type 0 };

    /// Hands on the rows to a sink that stands for none.
    fn read<W: Wait, K: BlockSink>(self, rt: &W, alloc: Global, sink: &mut K) -> Reading<Self::Had>
        requires { K.RowSink.stands sink.old [] }
        ensures done { IfNone result.fault ((rows : List (Name × ℤ)) × reads self result.had rows × K.RowSink.stands sink.new rows) }
        ensures stopped { IfSome result.fault (λ why. K.RowSink.fault why ⊎ fails self result.had why) }
        ensures told { tells self result.had };
}

/// Reads feeds into a sink, one after the other. Refused as a feed is, by its number, and as the sink refuses a row.
fn read_all<S: Source + Drop, K: RowSink>(
    alloc: Global,
    feeds: FeedShare<S>,
    sink: &mut K,
) -> Result<(), Refused>
    requires { (rows : List (Name × ℤ)) × K.stands sink.old rows }
    ensures ok { OnOk result ((before : List (Name × ℤ)) → K.stands sink.old before
        → (rows : List (Name × ℤ)) × AreFeeds most_rows (map (λ feed. S.remaining feed.1) feeds.items) rows
        × K.stands sink.new (before ++ rows)) }
    ensures told { IfErr result (λ e. K.fault e ⊎ IsUnreadOf S.remaining S.failures feeds.items e) }
{
    for feed in feeds {
        let (place, source) = feed;
        let mut source = source;
        let number = (place as u64).saturating_add(1);
        match read_feed(alloc, &mut source, number, LIMIT, sink) {
            Ok(_rows) => {}
            Err(refused) => return Err(refused),
        }
    }
    Ok(())
}

/// Feeds that one worker alone reads, one after the other.
impl<S: Source + Drop> Share for FeedShare<S> {
    type Had = ();

    ghost reads = { λ share had. AreFeeds most_rows (map (λ feed. S.remaining feed.1) share.items) };

    ghost fails = { λ share had. IsUnreadOf S.remaining S.failures share.items };

    ghost tells = { λ share had. Unit {0} };

    fn read<W: Wait, K: BlockSink>(self, _rt: &W, alloc: Global, sink: &mut K) -> Reading<()> {
        match read_all(alloc, self, sink) {
            Ok(()) => Reading {
                had: (),
                fault: None,
            },
            Err(refused) => Reading {
                had: (),
                fault: Some(refused),
            },
        }
    }
}

/// Feeds that all workers share, and the place of this one, counted from 0.
#[derive(Drop)]
pub(crate) struct SharedFeeds<'a, S: Source + Drop, B: Origin> {
    pub feeds: &'a Feeds<S, B>,
    pub worker: usize,
}

/// A ticket of each block that a worker read, and where it stopped, if it did: the place of a feed, and of a block there.
#[derive(Drop)]
pub(crate) struct Tickets {
    pub tickets: Vec<Ticket>,
    pub feed: usize,
    pub low: u64,
    /// Whether the feed's stream failed there.
    pub has_failed: bool,
}

impl<'a, S: Source + Drop, B: Origin> Share for SharedFeeds<'a, S, B> {
    type Had = Tickets;

    ghost reads = { λ share had rows. (parts : List (List (Name × ℤ)))
        × AllZip (AreRowsIn B.feeds) had.tickets.items parts × (rows ≡ flat_map (λ part. part) parts) };

    ghost fails = { λ share had why. IsStop B.feeds most_rows
        (record { feed = had.feed; low = had.low; refused = why; has_failed = had.has_failed }) };

    ghost tells = { λ share had. WereRead B.feeds had.tickets.items };

    fn read<W: Wait, K: BlockSink>(self, rt: &W, alloc: Global, sink: &mut K) -> Reading<Tickets> {
        let mut tickets = Vec::new(alloc);
        match self
            .feeds
            .read(rt, alloc, self.worker, LIMIT, sink, &mut tickets)
        {
            Ok(()) => Reading {
                had: Tickets {
                    tickets,
                    feed: usize::MAX,
                    low: 0,
                    has_failed: false,
                },
                fault: None,
            },
            Err(stop) => {
                let Stop {
                    feed,
                    low,
                    refused,
                    has_failed,
                } = stop;
                Reading {
                    had: Tickets {
                        tickets,
                        feed,
                        low,
                        has_failed,
                    },
                    fault: Some(refused),
                }
            }
        }
    }
}
