//! Tests of jobs in threads of their own, and of the keeper beside them.
#![tactic(auto)]

#[cfg(test)]
mod meetings;
