//! Single steps of a world as text: what the lines of a part say, and the text that they print.
//!
//! The first line of a part opens a store of sums, as that of a script does, and the others are single steps, with the
//! words that scripts have (`docs/formats.md`). Three of them scripts do not have:
//!
//! | Line | Step |
//! |---|---|
//! | `take P` | the lowest page of partition P that is not flushed is taken |
//! | `write P ok`, `write P fault` | the page that was taken last is written; the device takes it, or fails |
//! | `relocate P S` | session S issues a relocation of the lowest record that is not cleared |
//!
//! A part does not have a script's `do`, `flush` and `compact`, which are several steps; `ready` and `finish` it has.
//!
//! Each line prints its outcome, or `refused` and the refusal with its numbers. After them stand: the number of outcomes
//! that the world kept; whether [`fkv_worlds::replay`] reports the same of these steps, where none of the lines is `ready` or `finish`;
//! a line for each life, in the order of the issues (partition, session, number, operation, the step of the issue, and
//! either the steps of effect and answer with the answer, or how it ended otherwise); and the live map.
#![tactic(auto)]

pub mod lines;
pub mod printing;
pub mod runs;

pub use lines::{Call, Part, part_of};
pub use runs::{driven, text_of};
