//! Addresses: numbers of bytes from the start of a log.

/// An address of a log. Records stand at addresses from [`FIRST`] on, and end at or below [`END`].
pub type Address = u64;

/// In place of the address of a record: there is none.
pub const NO_RECORD: Address = 1;

/// The address of the first record.
pub const FIRST: Address = 64;

/// The end of all addresses, 2^48.
pub const END: Address = 0x1_0000_0000_0000;
