//! Tests of a store that callers share: rows of calls with what each tells, with a recorder that keeps entries and with one
//! that only counts, and two callers' threads.
#![tactic(auto)]

#[cfg(test)]
mod calls;
#[cfg(test)]
mod damage;
#[cfg(test)]
mod faults;
#[cfg(test)]
mod growths;
#[cfg(test)]
mod hearing;
#[cfg(test)]
mod merging;
#[cfg(test)]
mod room;
#[cfg(test)]
mod sharing;
#[cfg(test)]
mod threads;
#[cfg(test)]
mod turning;
