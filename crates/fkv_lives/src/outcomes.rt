//! What a step that was not refused answers.
ghost use Rattle.std.specs.Prelude.{◌≡◌, ⊤};

use fkv_functions::Functions;
use fkv_operations::Answer;
use fkv_partition::Wait;
use std::alloc::AllocError;

/// What a step that was not refused answers.
#[derive(Copy, PartialEq, Eq)]
pub enum Outcome<V, O> {
    /// The session has this slot.
    Entered(usize),
    /// The session is left.
    Left,
    /// The session is refreshed.
    Refreshed,
    /// The read-only offset, or Head, has moved.
    Shifted,
    /// This page is taken, to be written.
    Taken(u64),
    /// This page is written, and flushed.
    Flushed(u64),
    /// The operation has this context.
    Issued(usize),
    /// The operation is to go on.
    Next,
    /// The operation asks for a value to be built from this one, if there is one.
    Build(Option<V>),
    /// The operation asks for the page of this address to be read.
    Load(u64),
    /// The operation can't go on yet, for this reason.
    Waits(Wait),
    /// The operation is finished with this answer.
    Done(Answer<O>),
    /// The operation is given up.
    GivenUp,
    /// Begin is here now.
    Truncated(u64),
}

impl<V: Copy, O: Copy> Clone for Outcome<V, O> {
    ghost is_clone = { λ x y. y ≡ x };

    ghost is_infallible = { λ _. ⊤ };

    fn clone(&self) -> Result<Self, AllocError> {
        Ok(*self)
    }
}

/// The outcomes of one type of functions.
pub type OutcomeOf<F> = Outcome<<F as Functions>::Value, <F as Functions>::Output>;
