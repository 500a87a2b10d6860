//! What became of the operations that were issued.
ghost use Rattle.std.specs.Prelude.{◌≡◌, ⊤};

use fkv_functions::Functions;
use fkv_operations::{Answer, Op};
use std::alloc::AllocError;

/// How an operation was finished.
#[derive(Copy, PartialEq, Eq)]
pub struct Finish<O> {
    /// The one step at which the operation takes effect.
    pub effect: u64,
    /// The step that told the answer.
    pub done: u64,
    /// The answer that was told.
    pub answer: Answer<O>,
}

impl<O: Copy> Clone for Finish<O> {
    ghost is_clone = { λ x y. y ≡ x };

    ghost is_infallible = { λ _. ⊤ };

    fn clone(&self) -> Result<Self, AllocError> {
        Ok(*self)
    }
}

/// How an operation ended, or that it is open.
#[derive(Copy, PartialEq, Eq)]
pub enum End<O> {
    /// The operation is open.
    Open,
    /// The operation was answered.
    Finished(Finish<O>),
    /// The operation was ended by a fault, without effect.
    Failed,
    /// The operation was given up, without effect.
    GivenUp,
}

impl<O: Copy> Clone for End<O> {
    ghost is_clone = { λ x y. y ≡ x };

    ghost is_infallible = { λ _. ⊤ };

    fn clone(&self) -> Result<Self, AllocError> {
        Ok(*self)
    }
}

/// What became of one accepted issue.
#[derive(Copy, PartialEq, Eq)]
pub struct Life<K, V, I, O> {
    /// The number of the partition.
    pub partition: u64,
    /// The session, by the count of enters in its partition, from 1.
    pub session: u64,
    /// The operation, by the count of issues in its session, from 1.
    pub number: u64,
    pub op: Op<K, V, I>,
    /// The step of the issue.
    pub issue: u64,
    pub end: End<O>,
}

impl<K: Copy, V: Copy, I: Copy, O: Copy> Clone for Life<K, V, I, O> {
    ghost is_clone = { λ x y. y ≡ x };

    ghost is_infallible = { λ _. ⊤ };

    fn clone(&self) -> Result<Self, AllocError> {
        Ok(*self)
    }
}

/// The lives of one type of functions.
pub type LifeOf<F> = Life<
    <F as Functions>::Key,
    <F as Functions>::Value,
    <F as Functions>::Input,
    <F as Functions>::Output,
>;
