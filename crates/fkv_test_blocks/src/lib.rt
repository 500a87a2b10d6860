//! Tests of blocks, as rows.
#![tactic(auto)]

#[cfg(test)]
mod cuts;
#[cfg(test)]
mod orders;
#[cfg(test)]
mod random;
