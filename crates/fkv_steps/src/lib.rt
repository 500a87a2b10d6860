//! Scripts: the text that asks for the steps of a world, and the text that they print; and, by name, the
//! worlds of `fkv_worlds` that they run in and the words of `fkv_lives` in which these speak.
#![tactic(auto)]

pub mod scripts;

pub use fkv_lives::laws::wrong_lives;
pub use fkv_lives::{
    Access, ContextId, End, Finish, Life, LifeOf, Outcome, OutcomeOf, Step, StepOf, Wait,
};
pub use fkv_worlds::{Report, ReportOf, World, replay};
