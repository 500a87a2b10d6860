//! What a caller knows between two holds of a lock: plain data, which the next event compares.
use fkv_functions::Functions;
use fkv_operations::KeyedOp;

/// A session of a caller, by its slot and its number.
#[derive(Clone, Copy, Debug)]
pub struct SessionId {
    pub slot: usize,
    /// The count of enters in the partition when it was entered, from 1: no other session has it.
    pub number: u64,
}

/// An operation of a caller.
#[derive(Clone, Copy, Debug)]
pub struct OpenOperation<K, V, I> {
    pub session: SessionId,
    pub context: usize,
    /// The moment of its issue.
    pub number: u64,
    pub op: KeyedOp<K, V, I>,
    /// Of how many updates of the partition the caller was told before.
    pub told: u64,
}

/// The operations of callers of one type of functions.
pub type OpenOperationOf<F> = OpenOperation<
    <F as Functions>::Key,
    <F as Functions>::Value,
    <F as Functions>::Input,
>;
