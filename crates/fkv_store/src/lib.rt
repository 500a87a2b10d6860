//! A store that callers share: its partitions, each under a lock of its own, and the passes of its callers.
//!
//! A caller asks for a [`Pass`] and runs operations with it. Each hold of a partition's lock is one event of the partition, but
//! for an update in place and a read in memory, each of which is issued and finished in one, and of such updates as many as
//! [`Pass::update_all`] has in a row; values are built, and pages are read and written, with no partition's lock held. What stands under a lock ([`fkv_locked::Locked`]) is kept whenever the lock
//! is free. A pass has the list of what it was answered, with each partition, and of how many updates it was told there: no
//! answer comes from fewer.
#![tactic(auto)]

pub(crate) mod at_once;
pub mod closing;
pub mod compacting;
pub mod gates;
pub(crate) mod holds;
pub mod passes;
pub(crate) mod refusals;
pub(crate) mod running;
pub mod stores;
pub mod tidying;
pub mod unlisted;
pub mod updating;
pub(crate) mod waiting;

pub use compacting::Events;
pub use fkv_histories::{Audited, Plain, Recorder};
pub use gates::{Gate, Open, Place};
pub use passes::{Mark, Pass};
pub use running::Loads;
pub use stores::Store;
pub use tidying::KEEPER;
pub use unlisted::{ClosedStore, Listed, Unlisted};
