//! Tests of operations, partitions and worlds that no line of a program can say: what makes an operation's answer elsewhere,
//! limits of configurations, the plain program, and refused growths. Runs of worlds stand in `fkv_test_worlds`, scripts in
//! `fkv_test_steps`.
//!
//! A run is a list of constant rows, or a text, and one interpreter a kind says which of them is answered otherwise than it
//! stands there. So a run costs the proofs one loop and one assert, and no crate below is proved a second time for its
//! tests.
#![tactic(auto)]

#[cfg(test)]
mod built;
#[cfg(test)]
mod classes;
#[cfg(test)]
mod folds;
#[cfg(test)]
mod growths;
#[cfg(test)]
mod letters;
#[cfg(test)]
mod limits;
#[cfg(test)]
mod lives;
#[cfg(test)]
mod plain;
#[cfg(test)]
mod scripts;
