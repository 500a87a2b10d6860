//! What is done to a key that was drawn.
use fkv_operations::KeyedOp;

/// What is done to keys, one after the other.
#[derive(Clone, Copy, PartialEq, Eq, Debug)]
pub enum Mix {
    /// Each is given the value 0.
    Load,
    /// Nothing: what is left is the time of the draws.
    Nothing,
    /// Each is a read-modify-write, which adds 1.
    Updates,
    /// Each second is an upsert, the others are reads.
    Halves,
    /// Each twentieth is an upsert, the others are reads.
    Reads,
}

/// The value that an upsert gives a key.
pub fn upserted(key: u64) -> u64 {
    key.wrapping_add(1)
}

impl Mix {
    /// What is done to a key at this place.
    #[inline(always)]
    pub fn op(self, place: usize, key: u64) -> KeyedOp<u64, u64, u64> {
        match self {
            Mix::Load => KeyedOp::Upsert(key, 0),
            Mix::Halves if place % 2 == 1 => KeyedOp::Upsert(key, upserted(key)),
            Mix::Reads if place % 20 == 19 => KeyedOp::Upsert(key, upserted(key)),
            Mix::Halves | Mix::Reads | Mix::Nothing => KeyedOp::Read(key, 0),
            Mix::Updates => KeyedOp::Rmw(key, 1),
        }
    }
}
