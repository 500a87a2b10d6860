//! Tests of workers: who waits for whom, by gates that hold them, tables of several workers, and faults of a device.
#![tactic(auto)]

#[cfg(test)]
mod faults;
#[cfg(test)]
mod gated;
#[cfg(test)]
mod listing;
#[cfg(test)]
mod merging;
#[cfg(test)]
mod shared;
#[cfg(test)]
mod spilled;
#[cfg(test)]
mod stalling;
#[cfg(test)]
mod tables;
