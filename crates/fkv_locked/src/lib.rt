//! What lies under the lock of a partition that callers share: the partition, its clock, the history of what was finished
//! there, and what ties them together.
//!
//! Nothing that is learnt under a lock is known at its next hold, but what the type of the locked value says: so that is the
//! whole promise (`specs/Kept.antt`). In an audited store the history is legal, the live map is what its updates make of the
//! empty map, what each look-up that waits for a page is to find is what some of them make of it, and the book counts the
//! entries. Each event of a caller's operation is one call of [`Locked`]; what it finished it notes in the same call.
#![tactic(auto)]

pub mod at_once;
pub mod beginnings;
pub mod compacting;
pub mod finished;
pub mod laws;
pub mod locked;
mod marks;
pub mod offsets;
pub mod open_operations;
pub mod operations;
pub mod owns;
pub mod pages;
pub mod sessions;
pub mod turns;

pub use finished::{Finished, FinishedOf};
pub use locked::{EndedPartition, Locked};
pub use open_operations::{OpenOperation, OpenOperationOf, SessionId};
pub use owns::Owns;
pub use turns::{Turn, TurnOf};
