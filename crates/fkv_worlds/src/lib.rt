//! Worlds of partitions over a device in memory, driven by single steps, with the headline over them, and replays of
//! lists of steps.
//!
//! An accepted issue begins a life (`fkv_lives`). `specs/Headline.antt` joins that the lives are placed on the steps with the
//! live records and with the outcomes that were told; [`World::step`] keeps it, whatever the step: one of a session, of the
//! flusher, of the evictor or of the compactor.
#![tactic(auto)]

pub mod flush_slots;
mod paging;
pub mod replays;
pub mod reports;
pub mod run_until;
pub mod states;
pub mod tables;
pub mod worlds;

pub use fkv_lives::{
    Access, ContextId, End, Finish, Life, LifeOf, Outcome, OutcomeOf, Printed, Step, StepOf, Wait,
};
pub use replays::replay;
pub use reports::{Report, ReportOf};
pub use worlds::World;
