//! Jobs, each in a thread of its own, beside a keeper that turns until they have ended.
//!
//! What a job does is a [`Job`], what the keeper does over and over is a [`Keeper`], and [`run_jobs`] runs them. No other
//! code of the store starts a thread. What each job promises of its result, and the keeper of its fault, is known after the
//! join (`Promise` of std).
#![tactic(auto)]

mod jobs;
mod keepers;
mod spread;

pub use jobs::{Job, JobResults, run_jobs};
pub use keepers::Keeper;
pub use spread::run_spread;
