//! The offsets of a log, what each session has seen of them, and the regions of a view.
//!
//! Records above an offset may be written in place, and records below it never change. Such an offset moves at
//! once, but other sessions know of it only when they look again, so nothing may rely on it before every session
//! has. A move is therefore two: the offset itself, which each session sees at its next look, and the safe one
//! behind it, which follows once the epoch of the move is safe.
//!
//! Contracts see [`Regions`] as one record, and every call as what it makes of that record. Nothing here takes
//! memory.
#![tactic(auto)]

pub mod laws;
pub mod offsets;
pub mod regions;

pub use offsets::{Offsets, Region, View};
pub use regions::Regions;
