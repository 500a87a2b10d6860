//! The store of one thread, from C: a static library. `include/fkv.h` is what C includes.
#![tactic(auto)]

mod calls;
mod cell_calls;
pub mod cell_exports;
pub mod cells;
mod counting;
pub mod exports;
pub mod faults;
pub mod handles;
mod loose;
pub mod numbers;
mod sets;
mod stores;
