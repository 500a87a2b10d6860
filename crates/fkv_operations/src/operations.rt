//! Operations and their answers.
ghost use Rattle.std.specs.Prelude.{◌≡◌, ◌↔◌, IsTrue};

use fkv_functions::{Functions, Known, Mergeable};
use std::alloc::AllocError;

/// An operation on a key.
#[derive(Clone, Copy, PartialEq, Eq, Debug)]
pub enum KeyedOp<K, V, I> {
    /// Shows the key's value, for this input.
    Read(K, I),
    /// Sets the key's value, whatever it was: a blind write.
    Upsert(K, V),
    /// Changes the key's value by this input, or gives it its first value, and shows the new one; or is declined.
    Rmw(K, I),
    /// Removes the key.
    Delete(K),
    /// Changes the key's value as an update by this input does, and shows nothing. Of functions that merge alone.
    Merge(K, I),
}

impl<K: Copy, V: Copy, I: Copy> KeyedOp<K, V, I> {
    ghost use Rattle.fkv_operations.specs.After.{key_of, is_merge};
    ghost use Rattle.fkv_operations.specs.Operations.{op_of};

    /// The operation's key.
    pub fn key(&self) -> K
        ensures { result ≡ key_of self.now }
    {
        match self {
            KeyedOp::Read(key, _) => *key,
            KeyedOp::Upsert(key, _) => *key,
            KeyedOp::Rmw(key, _) => *key,
            KeyedOp::Delete(key) => *key,
            KeyedOp::Merge(key, _) => *key,
        }
    }

    /// Whether only functions that merge have it.
    pub fn is_merge(&self) -> bool
        ensures { result ≡ is_merge self.now }
    {
        match self {
            KeyedOp::Merge(_, _) => true,
            KeyedOp::Read(_, _) | KeyedOp::Upsert(_, _) | KeyedOp::Rmw(_, _) | KeyedOp::Delete(_) =>
                false,
        }
    }

    /// The same among all operations.
    pub fn op(&self) -> Op<K, V, I>
        ensures { result ≡ op_of self.now }
    {
        match self {
            KeyedOp::Read(key, input) => Op::Read(*key, *input),
            KeyedOp::Upsert(key, value) => Op::Upsert(*key, *value),
            KeyedOp::Rmw(key, input) => Op::Rmw(*key, *input),
            KeyedOp::Delete(key) => Op::Delete(*key),
            KeyedOp::Merge(key, input) => Op::Merge(*key, *input),
        }
    }
}

/// The operations on keys of one type of functions.
pub type KeyedOpOf<F> = KeyedOp<
    <F as Functions>::Key,
    <F as Functions>::Value,
    <F as Functions>::Input,
>;

/// An operation: one on a key, or a relocation, which has none.
#[derive(Copy, PartialEq, Eq)]
pub enum Op<K, V, I> {
    /// Shows the key's value, for this input.
    Read(K, I),
    /// Sets the key's value, whatever it was: a blind write.
    Upsert(K, V),
    /// Changes the key's value by this input, or gives it its first value, and shows the new one; or is declined.
    Rmw(K, I),
    /// Removes the key.
    Delete(K),
    /// Changes the key's value as an update by this input does, and shows nothing. Of functions that merge alone.
    Merge(K, I),
    /// Clears the lowest place of the log that is not cleared: its record is appended again, unless it is superseded.
    Relocate,
}

impl<K: Copy, V: Copy, I: Copy> Clone for Op<K, V, I> {
    ghost use Rattle.std.specs.Prelude.{⊤};

    ghost is_clone = { λ x y. y ≡ x };

    ghost is_infallible = { λ _. ⊤ };

    fn clone(&self) -> Result<Self, AllocError> {
        Ok(*self)
    }
}

impl<K: Copy, V: Copy, I: Copy> Op<K, V, I> {
    ghost use Rattle.fkv_operations.specs.Operations.{keyed, may_update};

    /// The operation on a key, or none for a relocation.
    pub fn keyed(&self) -> Option<KeyedOp<K, V, I>>
        ensures { result ≡ keyed self.now }
    {
        match self {
            Op::Read(key, input) => Some(KeyedOp::Read(*key, *input)),
            Op::Upsert(key, value) => Some(KeyedOp::Upsert(*key, *value)),
            Op::Rmw(key, input) => Some(KeyedOp::Rmw(*key, *input)),
            Op::Delete(key) => Some(KeyedOp::Delete(*key)),
            Op::Merge(key, input) => Some(KeyedOp::Merge(*key, *input)),
            Op::Relocate => None,
        }
    }

    /// Whether it may change the live map.
    pub fn is_update(&self) -> bool
        ensures { result ≡ may_update self.now }
    {
        match self {
            Op::Read(_, _) | Op::Relocate => false,
            Op::Upsert(_, _) | Op::Rmw(_, _) | Op::Delete(_) | Op::Merge(_, _) => true,
        }
    }
}

/// The operations of one type of functions.
pub type OpOf<F> = Op<<F as Functions>::Key, <F as Functions>::Value, <F as Functions>::Input>;

/// Whether both are one operation.
pub fn is_same_op<F: Mergeable>(left: &OpOf<F>, right: &OpOf<F>) -> bool
    ensures { IsTrue result ↔ (left.now ≡ right.now) }
{
    match (*left, *right) {
        (Op::Read(key, input), Op::Read(other, came)) => key.is(&other) && input.is(&came),
        (Op::Upsert(key, value), Op::Upsert(other, came)) => key.is(&other) && value.is(&came),
        (Op::Rmw(key, input), Op::Rmw(other, came)) => key.is(&other) && input.is(&came),
        (Op::Delete(key), Op::Delete(other)) => key.is(&other),
        (Op::Merge(key, input), Op::Merge(other, came)) => key.is(&other) && input.is(&came),
        (Op::Relocate, Op::Relocate) => true,
        _ => false,
    }
}

/// What an operation answers.
#[derive(Clone, Copy, PartialEq, Eq, Debug)]
pub enum Answer<O> {
    /// What the functions show of the key's value.
    Value(O),
    /// The key has no value.
    Absent,
    /// The key has the value that was written.
    Stored,
    /// The key has no value any more.
    Deleted,
    /// The place is cleared.
    Cleared,
    /// The functions declined the update: the key's value is as it was.
    Declined,
}

/// The answers of one type of functions.
pub type AnswerOf<F> = Answer<<F as Functions>::Output>;

/// Whether both are one answer.
pub fn is_same_answer<F: Mergeable>(left: &AnswerOf<F>, right: &AnswerOf<F>) -> bool
    ensures { IsTrue result ↔ (left.now ≡ right.now) }
{
    match (*left, *right) {
        (Answer::Value(shown), Answer::Value(came)) => shown.is(&came),
        (Answer::Absent, Answer::Absent)
        | (Answer::Stored, Answer::Stored)
        | (Answer::Deleted, Answer::Deleted)
        | (Answer::Cleared, Answer::Cleared)
        | (Answer::Declined, Answer::Declined) => true,
        _ => false,
    }
}
