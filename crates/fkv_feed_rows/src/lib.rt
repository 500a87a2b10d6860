//! The rows of a feed: a text of comma-separated fields, a key and an amount in each row.
//!
//! `specs/Feeds.antt` says what the rows of a feed are, by the words of the crate `csv`. [`row_of`] tells the row that a
//! record is, [`Watched`] is a stream as what csv reads from, and [`read_feed`] hands on the rows of a feed to a [`RowSink`].
#![tactic(auto)]

pub mod reading;
pub mod rows;
pub mod sinks;
pub mod watching;

pub use reading::read_feed;
pub use rows::row_of;
pub use sinks::RowSink;
pub use watching::{Since, Watched};
