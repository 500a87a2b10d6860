//! Steps of worlds, what they are told, and the lives of the operations that they issue: the words in which the headline
//! speaks, with their texts.
//!
//! An accepted issue begins a life. `specs/Placed.antt` says what it means that a list of lives is placed on the steps:
//! each finished operation takes effect at one step of its own between its issue and its completion, and answers what the
//! plain map answers there. A relocation is an operation: it leaves the map, and its answer is Cleared.
#![tactic(auto)]

pub mod laws;
pub mod lives;
pub mod outcomes;
pub mod printed;
pub mod steps;

pub use fkv_partition::Wait;
pub use lives::{End, Finish, Life, LifeOf};
pub use outcomes::{Outcome, OutcomeOf};
pub use printed::Printed;
pub use steps::{Access, ContextId, Step, StepOf};
