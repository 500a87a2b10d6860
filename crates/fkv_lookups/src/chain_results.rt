//! What a look-up gathers on its way.
ghost use Rattle.std.specs.Prelude.{◌≡◌, ⊤, true, false, None, IfSome};
ghost use Rattle.fkv_texts.specs.declared.entries.Entry.{Entry};
ghost use Rattle.fkv_texts.specs.Deltas.{combined};
ghost use Rattle.fkv_lookups.specs.Decisions.{joined_to};

use fkv_functions::Mergeable;
use fkv_texts::{ChainPosition, Entry};
use std::alloc::AllocError;

/// What a look-up of a key comes to.
#[derive(Copy)]
pub struct ChainResult<K, V> {
    /// The parts of the key's deltas on the way, joined, or `None` where none was met.
    pub parts: Option<V>,
    /// The first record of the key that is no delta, or where the way goes on.
    pub position: ChainPosition<K, V>,
}

impl<K: Copy, V: Copy> Clone for ChainResult<K, V> {
    ghost is_clone = { λ x y. y ≡ x };

    ghost is_infallible = { λ _. ⊤ };

    fn clone(&self) -> Result<Self, AllocError> {
        Ok(*self)
    }
}

/// The delta to which a look-up has come, if any.
pub(crate) fn delta_at<K: Copy, V: Copy>(position: &ChainPosition<K, V>) -> Option<Entry<K, V>>
    ensures some { IfSome result (λ e. (position.now ≡ ChainPosition.Found e) × (e.delta ≡ true)) }
    ensures none { result ≡ None → (e : Entry K V) → position.now ≡ ChainPosition.Found e → e.delta ≡ false }
{
    match position {
        ChainPosition::Found(last) => { if last.delta { Some(*last) } else { None } }
        ChainPosition::Below(_) => None,
    }
}

/// A value or part, if any, with the part that comes after it, if any.
pub fn combined<F: Mergeable>(
    functions: &F,
    before: Option<F::Value>,
    after: Option<F::Value>,
) -> Option<F::Value>
    ensures { result ≡ combined F.parts.joined before after }
{
    match (before, after) {
        (None, after) => after,
        (Some(value), None) => Some(value),
        (Some(value), Some(part)) => Some(functions.join(&value, &part)),
    }
}

/// A value that ends with this part, from what the key had before it.
pub(crate) fn joined_to<F: Mergeable>(
    functions: &F,
    before: Option<F::Value>,
    part: F::Value,
) -> F::Value
    ensures { result ≡ joined_to F.parts.joined before part }
{
    match before {
        None => part,
        Some(value) => functions.join(&value, &part),
    }
}
