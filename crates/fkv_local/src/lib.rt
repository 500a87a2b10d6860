//! A store for one thread: it is a plain map, whose pages move to a device.
//!
//! [`LocalStore`] has all that one caller needs: the partitions, a session in each, the device's writers and readers, and the
//! clock. Each call is one operation, driven to its end: what it asks for is built or read, and pages move on where there is no
//! room. On a device that keeps what it is given, the store IS the plain map that its operations make.
#![tactic(auto)]

mod barring;
mod compacting;
pub mod counting;
mod driving;
mod gathering;
pub mod laws;
pub mod listing;
mod merging;
mod moving;
mod parts;
pub mod stores;

pub use counting::StoreCounts;
pub use listing::Listing;
pub use stores::LocalStore;
