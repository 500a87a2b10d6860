//! The log of one partition: records in a ring of frames and on a device, and the regions in which sessions see them.
//!
//! Records stand at the places of a shape and are read and written as bytes. The newest pages stand in frames, page `n`
//! in frame `n` modulo their number; older pages were written to a device, and a receipt of each is kept. A contract
//! sees all of them by one text: the list of the log's entries in rising address, each with the address of the entry
//! before it in its class, its key, and its value or none for a tombstone. The bytes spell the text, and nothing keeps it
//! beside them.
//!
//! Each session sees the log in regions by the view that it took when it last looked. An entry at or above the safe
//! read-only offset may get another value or become a tombstone where it stands; an entry below it never changes, so
//! its page may be flushed once it ends there, the lowest page first. A page below Head may leave its frame once no
//! session reads it there any more, which is below `closed`: only then is there room for the page that needs the frame.
//!
//! On a device that keeps what it is given the text has every entry from Begin on: below `closed` it goes on by the
//! receipts. On another one nothing is known of what its receipts stand for, and the text begins where frames are closed.
//!
//! A scan goes over all entries from Begin on: those of flushed pages are read from the device, each page once, the others
//! from their frames.
#![tactic(auto)]

mod bytes;
mod differences;
pub mod laws;
mod loads;
pub mod log;
pub mod scan;

pub use log::Log;
pub use scan::Scan;
