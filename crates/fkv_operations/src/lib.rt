//! Operations, what each does to a plain map and answers, and the clock of moments.
//!
//! A store is compared with a plain map: `specs/After.antt` says what an operation on a key does to one and what it answers,
//! and `specs/Operations.antt` the same of all operations, relocations among them. [`plainly`] is the slow program that does just that, which every faster body is compared
//! with.
#![tactic(auto)]

pub mod classes;
pub mod clocks;
pub mod entries;
pub mod kept_words;
mod maps;
pub mod operations;
pub mod plainly;

pub use classes::{Class, class_of, partition_at};
pub use clocks::Clock;
pub use entries::IndexEntry;
pub use kept_words::kept_words_are_sound;
pub use operations::{Answer, AnswerOf, KeyedOp, KeyedOpOf, Op, OpOf, is_same_answer, is_same_op};
pub use plainly::{PlainRun, apply_plainly, run_plainly, shown};
