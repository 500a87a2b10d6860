//! A feed in blocks of whole records, for many readers.
//!
//! A feed stands behind a lock, which hands out blocks of it. A block ends where csv stands between two records, so it is a text of its
//! own, and the records of the blocks, one behind another, are the feed's. Who has read a block keeps a ticket of it: where it begins
//! and ends, and how many records it has. Tickets that lie one behind another, from the feed's start to its end, are all of it.
#![tactic(auto)]

pub mod blocks;
pub mod bytes;
pub mod cutting;
pub mod feeds;
mod filling;
pub mod laws;
pub mod orders;
pub mod reading;
pub mod spans;
pub mod whole;

pub use blocks::{BlockSpan, Blocks, Origin, Stop, take_block};
pub use bytes::BlockSource;
pub use cutting::record_end;
pub use feeds::Feeds;
pub use orders::{Taken, ordered};
pub use reading::BlockSink;
pub use spans::{Span, Ticket, chains};
pub use whole::ReadFeeds;
