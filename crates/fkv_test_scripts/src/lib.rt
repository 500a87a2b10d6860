//! Tests of scripts and of the command line: what is printed, how runs end, and readers and writers that fail. Whole
//! scripts, and what their lines say, stand in `fkv_test_steps`.
#![tactic(auto)]

#[cfg(test)]
mod causes;
#[cfg(test)]
mod commands;
#[cfg(test)]
mod failing;
#[cfg(test)]
mod folders;
#[cfg(test)]
mod named;
#[cfg(test)]
mod printed;
#[cfg(test)]
mod spilled;
#[cfg(test)]
mod stats;
#[cfg(test)]
mod streams;
#[cfg(test)]
mod summaries;
