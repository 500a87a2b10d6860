//! Sorted runs whose pairs stand in pages of a device, and their merge.
//!
//! A run that was written out takes a receipt for each of its pages in memory, and a page while it is read. So what gives its pairs
//! may be refused one: a page read may fail. It then has all that it had, and may be asked again.
#![tactic(auto)]

pub mod gathering;
pub mod groups;
pub mod merging;
pub mod pages;
pub mod parts;
pub mod reads;
pub mod rests;
pub mod spilled;
pub mod unread;

pub use groups::ReadGroups;
pub use merging::ReadMerge;
pub use pages::SpilledPage;
pub use parts::{SpilledPart, SpilledParts, SpilledTable};
pub use reads::ReadPairs;
pub use rests::SpilledRest;
pub use spilled::Spilled;
