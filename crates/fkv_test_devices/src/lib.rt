//! Devices in memory for tests: a writer that fails once, and a reader that fails, gives zeros, another byte or the page
//! before once, each after so many pages. Else they do what a device in memory does. Nothing is promised of what is read, so
//! no contract that asks for a device that keeps holds of these.
//!
//! And a device of which one call fails, whichever that is ([`failing`]); else it is the device that is given, and keeps what
//! that keeps.
#![tactic(auto)]

pub mod devices;
pub mod failing;
pub mod receipts;

pub use devices::{Turn, UnsureDevice, UnsureReader, UnsureWriter};
pub use failing::{FailingDevice, FailingReader, FailingWriter, Fault};
pub use receipts::UnsureReceipt;
