//! Scripts: the text that asks for the steps of a world, and what its lines say.
//!
//! `specs/Grammar.antt` says how each line is written, word by word, and `specs/Script.antt` what a text
//! says, and which of its lines is the first bad one.
#![tactic(auto)]

pub mod laws;
pub mod lines;
mod parse;
pub mod reading;
mod texts;
mod words;

pub use laws::one_reading;
pub use lines::{FunctionsName, Line, Opening, Script};
pub use reading::{LIMIT, read_script};
