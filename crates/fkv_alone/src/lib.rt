//! One operation that is driven to its end, alone, by the events of its partition.
//!
//! [`run_alone`] issues an operation in a session and goes on with it until it is done, waits, or is refused. A
//! contract says how it ended (`specs/Ending.antt`), how far it is in between (`specs/Stages.antt`), and how many events
//! it takes at most (`specs/Bound.antt`).
#![tactic(auto)]

pub mod running;

pub use running::{Alone, AloneOf, run_alone};
