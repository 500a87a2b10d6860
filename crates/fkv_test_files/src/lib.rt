//! Tests of a partition over files, of which bytes change behind its back.
#![tactic(auto)]

#[cfg(test)]
mod damage;
#[cfg(test)]
mod filed;
