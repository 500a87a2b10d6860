//! Reading blocks into what takes their rows.
ghost use Rattle.std.specs.Prelude.{◌≡◌, ◌⊎◌, ◌++◌, ℤ, List, false, length, IfOk, Ok, IfOk, IfErr, OnOk, OnErr};
ghost use Rattle.fkv_functions.specs.declared.names.Name.{Name};
ghost use Rattle.fkv_feed_rows.specs.Feeds.{AreRowsOf};
ghost use Rattle.fkv_blocks.specs.Shares.{HaveRows, IsStop, TellsBlock, WereRead};

use crate::blocks::{BlockSpan, Blocks, Origin, Stop, number, take_block};
use crate::bytes::BlockSource;
use crate::spans::{Span, Ticket};
use fkv_feed_rows::{RowSink, read_feed};
use fkv_functions::Refused;
use fkv_streams::Source;
use std::alloc::Global;
use std::sync::{Mutex, Wait};

/// What takes the rows of blocks, and rests before it waits for the next one.
pub trait BlockSink: RowSink {
    /// Lets go of all that others may wait for. Refused: as a row is.
    fn rest(&mut self) -> Result<(), Refused>
        ensures ok { OnOk result ((rows : List (Name × ℤ)) → Self.stands self.old rows → Self.stands self.new rows) }
        ensures told { IfErr result Self.fault };
}

/// Hands on the rows of a block, and tells how many there are. Refused: `BadRow` with the block's first record that is none, and as the
/// sink refuses a row.
fn read_block<K: RowSink>(
    alloc: Global,
    block: &[u8],
    number: u64,
    limit: u64,
    sink: &mut K,
) -> Result<u64, Refused>
    requires { (rows : List (Name × ℤ)) × K.stands sink.old rows }
    ensures ok { IfOk result (λ count. (before : List (Name × ℤ)) → K.stands sink.old before
        → (rows : List (Name × ℤ)) × AreRowsOf limit block.now rows × K.stands sink.new (before ++ rows) × (count ≡ length rows)) }
    ensures told { IfErr result (λ e. K.fault e ⊎ TellsBlock number limit block.now e) }
{
    let mut source = BlockSource::new(block);
    read_feed(alloc, &mut source, number, limit, sink)
}

/// Takes the next block of a feed, hands on its rows, and keeps a ticket of it; `Ok(false)` where there is no block any more.
///
/// # Errors
///
/// As a block is taken; `BadRow` with the feed's number, and the row's number in its block; `Unreadable` with the feed's number where a
/// block has more records than `limit`; as the sink refuses a row; and `NoMemory`.
pub(crate) fn read_next<S: Source, B: Origin, K: RowSink>(
    rt: &impl Wait,
    alloc: Global,
    feed: &Mutex<Blocks<S, B>>,
    limit: u64,
    block: &mut Vec<u8>,
    sink: &mut K,
    tickets: &mut Vec<Ticket>,
) -> Result<bool, Stop>
    requires { HaveRows B.feeds (K.stands sink.old) tickets.old.items }
    ensures ok { OnOk result (HaveRows B.feeds (K.stands sink.new) tickets.new.items) }
    ensures over { result ≡ Ok false → tickets.new.items ≡ tickets.old.items }
    ensures read { OnErr result (tickets.new.items ≡ tickets.old.items) }
    ensures told { IfErr result (λ stop. K.fault stop.refused ⊎ IsStop B.feeds limit stop) }
{
    let place = match take_block(rt, feed, block) {
        Ok(Some(place)) => place,
        Ok(None) => return Ok(false),
        Err(stop) => return Err(stop),
    };
    let BlockSpan { feed, low, high } = place;
    let records = match read_block(alloc, block.as_slice(), number(feed), limit, sink) {
        Ok(records) => records,
        Err(refused) => return Err(Stop {
            feed,
            low,
            refused,
            has_failed: false,
        }),
    };
    let span = Span { low, high, records };
    match tickets.push(Ticket { feed, span }) {
        Ok(()) => Ok(true),
        Err(_) => Err(Stop {
            feed,
            low,
            refused: Refused::NoMemory,
            has_failed: false,
        }),
    }
}
