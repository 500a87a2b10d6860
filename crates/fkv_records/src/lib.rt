//! Where the records of a log stand, and their bytes.
//!
//! A log is bytes, in memory as on a device. This crate is the one place where a record and its bytes meet,
//! both ways, so everything above speaks of records. Its contracts speak of three things: these bytes spell
//! this record ([`write_record`], [`read_record`], its parts in [`fields`], and the changes [`write_value`] and
//! [`set_tombstone`]), the place after an address, and the set of all places ([`Shape`]). No call takes memory, and none reads or writes
//! outside the bytes that it is given.
#![tactic(auto)]

pub mod addresses;
pub mod fields;
pub mod records;
pub mod shapes;

pub use addresses::{Address, END, FIRST, NO_RECORD};
pub use fields::{Header, set_tombstone, value_offset, write_value};
pub use records::{Damaged, Record, read_record, record_size, write_record};
pub use shapes::Shape;
