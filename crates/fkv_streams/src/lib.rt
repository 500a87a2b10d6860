//! Streams of bytes that count their failures: what a program reads from, and what it writes to.
//!
//! What a stream of the standard library answers is not known before it is asked. A contract sees how often it has
//! failed, so that a refusal which blames a stream can be held to a failure of that stream.
#![tactic(auto)]

pub mod buffers;
pub mod failures;
pub mod laws;
pub mod reading;
pub mod sinks;
pub mod sources;
pub mod writing;

pub use buffers::WriteBuffer;
pub use failures::Failures;
pub use laws::counts;
pub use reading::read_lines;
pub use sinks::{CountedWriter, Sink};
pub use sources::{CountedReader, Source};
pub use writing::{write_all, write_out};
