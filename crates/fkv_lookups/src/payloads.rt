//! What a record carries that is written.
ghost use Rattle.std.specs.Prelude.{◌≡◌, ⊤};

use std::alloc::AllocError;

/// What a record carries.
#[derive(Copy, PartialEq, Eq, Debug)]
pub enum Payload<V> {
    /// The key's value, or `None` for a tombstone.
    Whole(Option<V>),
    /// A part of a value, to be joined with what the key had before: the record is a delta.
    Part(V),
}

impl<V: Copy> Clone for Payload<V> {
    ghost is_clone = { λ x y. y ≡ x };

    ghost is_infallible = { λ _. ⊤ };

    fn clone(&self) -> Result<Self, AllocError> {
        Ok(*self)
    }
}

impl<V: Copy> Payload<V> {
    ghost use Rattle.fkv_lookups.specs.Payloads.{value_in, is_part};

    /// The value or part, or `None` for a tombstone.
    pub fn value(&self) -> Option<V>
        ensures { result ≡ value_in self.now }
    {
        match self {
            Payload::Whole(value) => *value,
            Payload::Part(part) => Some(*part),
        }
    }

    /// Whether the record is a delta.
    pub fn is_part(&self) -> bool
        ensures { result ≡ is_part self.now }
    {
        match self {
            Payload::Whole(_) => false,
            Payload::Part(_) => true,
        }
    }
}
