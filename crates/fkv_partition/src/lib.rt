//! Partitions: every event of a store on one thread, relocations among the operations.
//!
//! A [`Partition`] has the sessions and operations of one part of a store's keys. A contract sees it (`specs/Views.antt`) as
//! its records, what is open in the contexts of its sessions, and what is cleared. What an event does is one relation an event
//! (`specs/Events.antt`); its effect on the live map, on what the contexts ask and on look-ups that wait for a page stands in
//! `specs/Effect.antt`.
//!
//! A relocation is an operation without a key. It takes the lowest address that is not cleared; the record there is read, in
//! memory or from the device, and the chain of its key's class is followed from the entry of the class down to it. Where a
//! newer record of the key that is no delta is met, or the record is a tombstone, the address is cleared as it is; else the
//! record is appended again, joined with the parts of the key's deltas above, while the entry stands as it was found, and its
//! address is cleared in the same event. So each record below what is cleared is superseded, by a later one that is no delta
//! or since it is a tombstone, and a truncation up to there leaves the live map.
#![tactic(auto)]

mod asking;
pub mod at_once;
mod changes;
mod checking;
pub mod contexts;
mod cutting;
mod ending;
mod going;
mod installing;
mod issuing;
pub mod laws;
pub mod limits;
mod listing;
mod loading;
mod looking;
pub mod operations;
pub mod pages;
pub mod partitions;
mod pending_laws;
mod places;
mod reading;
mod relocating;
pub mod relocations;
pub mod sessions;

pub use contexts::{Progress, ProgressOf, Wait};
pub use limits::{Config, kept_page, read_only_page};
pub use listing::pairs_of;
pub use partitions::Partition;
pub use pending_laws::pendings_stay;
pub use relocations::{Liveness, Relocation, Stage};
