//! Entries of histories and of own lists.
ghost use Rattle.std.specs.Prelude.{◌≡◌, ◌↔◌, ⊤, IsTrue};
ghost use Rattle.fkv_histories.specs.Histories.{is_update_entry};
ghost use Rattle.fkv_histories.specs.Merges.{told_of};

use fkv_functions::{Functions, Known, Mergeable};
use fkv_operations::{Answer, AnswerOf, KeyedOp, KeyedOpOf, is_same_answer, is_same_op};
use std::alloc::AllocError;

/// A finished operation on a key: who asked what, what was answered, and how many updates of its partition stood before it
/// at three moments.
#[derive(Copy, PartialEq, Eq, Debug)]
pub struct Entry<K, V, I, O> {
    /// The number of the session.
    pub session: u64,
    /// The moment of the issue, which no other operation of the partition has.
    pub number: u64,
    pub op: KeyedOp<K, V, I>,
    pub answer: Answer<O>,
    /// How many updates stood there at the issue.
    pub low: u64,
    /// How many updates stand before it: the answer is that of the map after so many.
    pub at: u64,
    /// How many updates stood there just before the completion.
    pub high: u64,
}

impl<K: Copy, V: Copy, I: Copy, O: Copy> Clone for Entry<K, V, I, O> {
    ghost is_clone = { λ x y. y ≡ x };

    ghost is_infallible = { λ _. ⊤ };

    fn clone(&self) -> Result<Self, AllocError> {
        Ok(*self)
    }
}

/// The entries of one type of functions.
pub type EntryOf<F> = Entry<
    <F as Functions>::Key,
    <F as Functions>::Value,
    <F as Functions>::Input,
    <F as Functions>::Output,
>;

impl<K, V, I, O> Entry<K, V, I, O> {
    /// Whether the operation is an update: any but a read.
    pub fn is_update(&self) -> bool
        ensures { result ≡ is_update_entry self.now }
    {
        !matches!(&self.op, KeyedOp::Read(_, _))
    }
}

/// Whether both operations on keys are one.
fn is_same_keyed_op<F: Mergeable>(left: &KeyedOpOf<F>, right: &KeyedOpOf<F>) -> bool
    ensures { IsTrue result ↔ (left.now ≡ right.now) }
{
    is_same_op::<F>(&left.op(), &right.op())
}

/// Whether both tell a caller the same: they are one entry but for `low` and `high`.
pub fn is_same_told<F: Mergeable>(left: &EntryOf<F>, right: &EntryOf<F>) -> bool
    ensures { IsTrue result ↔ (told_of left.now ≡ told_of right.now) }
{
    left.session == right.session
        && left.number == right.number
        && left.at == right.at
        && is_same_answer::<F>(&left.answer, &right.answer)
        && is_same_keyed_op::<F>(&left.op, &right.op)
}
