//! Where pages go, chosen as a program runs: into memory, or to a device.
//!
//! A program that has one type of device for both is compiled once for both. An [`EitherDevice`] puts pages on a device where
//! there is one, else into memory. Its type does not tell which, so what it promises of bytes hangs on a marker, a
//! [`Keeping`]: where the marker keeps, there is no other device, and the pages are those of memory.
#![tactic(auto)]

pub mod devices;
pub mod either;
pub mod keeping;
pub mod readers;
pub mod receipts;
pub mod writers;

pub use devices::EitherDevice;
pub use keeping::Keeping;
pub use readers::EitherReader;
pub use receipts::EitherReceipt;
pub use writers::EitherWriter;
