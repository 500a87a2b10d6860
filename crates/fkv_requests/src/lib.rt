//! The program's command line: words come in, and what they ask for goes out.
//!
//! `words` collects the words of a process, and `requests` reads them by clap, which no other crate of the product calls:
//! what is told of help and of mistakes leaves here as text. Crates above speak of what words ask for by the names in
//! `specs/Requests.antt`, and `laws` tells what that is for the words that a user types most.
#![tactic(auto)]

pub mod laws;
mod memory;
pub mod requests;
pub mod words;

pub use laws::command_lines;
pub use requests::{Request, Shown, TableRequest, request_of};
pub use words::words_of;
