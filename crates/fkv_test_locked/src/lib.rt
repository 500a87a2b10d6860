//! Tests of a locked partition that one caller drives, beside a compactor, with each recorder.
#![tactic(auto)]

#[cfg(test)]
mod driven;
#[cfg(test)]
mod histories;
