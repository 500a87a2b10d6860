//! Tests of meters and of progress: what is counted, with failures among the calls, and what is told when.
#![tactic(auto)]

#[cfg(test)]
mod devices;
#[cfg(test)]
mod sources;
#[cfg(test)]
mod telling;
#[cfg(test)]
mod threads;
