//! Tests of feeds, as rows.
#![tactic(auto)]

#[cfg(test)]
mod counts;
#[cfg(test)]
mod devices;
#[cfg(test)]
mod merging;
#[cfg(test)]
mod random;
#[cfg(test)]
mod rising;
#[cfg(test)]
mod spills;
#[cfg(test)]
mod streams;
#[cfg(test)]
mod tables;
#[cfg(test)]
mod turns;
