//! Page frames, used in a circle.
//!
//! The tail of a log lives in a fixed number of page frames: page `n` uses frame `n mod count`. Contracts
//! see [`Frames`] as a finite map from page to bytes (`specs/Held.antt`). All memory is taken by
//! [`Frames::new`].
#![tactic(auto)]

pub mod ring;

pub use ring::Frames;
