//! Epochs, and the actions that wait for them.
//!
//! An offset of a log may move for good only once every session has seen the move. So the move is an
//! action beside the epoch in which it was made, and it comes out once that epoch is safe: once each
//! session has entered or refreshed since.
//!
//! Contracts see [`Epochs`] as one record: the current epoch, the sixteen slots' epochs, and the list of
//! what waits. Nothing here takes memory.
#![tactic(auto)]

pub mod actions;
pub mod calls;
pub mod laws;
pub mod safety;
pub mod table;

pub use actions::{Action, Due, ROOM, SLOTS, Waiting};
pub use calls::Call;
pub use table::Epochs;
