//! Relocations: how far each is, and what the chain of its record's class tells of the record.
ghost use Rattle.std.specs.Prelude.{◌≡◌, ◌≤◌, ⊤, option_map};
ghost use Rattle.fkv_partition.specs.Views.{at_stage};
ghost use Rattle.fkv_partition.specs.Checking.{higher_of, liveness, renewed};
ghost use Rattle.fkv_partition.specs.Going.{awaited_by};

use crate::contexts::Loading;
use fkv_functions::{Functions, Mergeable};
use fkv_lookups::ChainResult;
use fkv_lookups::chain_results::combined;
use fkv_operations::IndexEntry;
use fkv_records::Address;
use fkv_texts::{ChainPosition, Entry};
use std::alloc::AllocError;

/// How far a relocation is.
#[derive(Copy)]
pub enum Stage<K, V> {
    /// Nothing is known.
    Fresh,
    /// It waits for the page of its target; Begin was here when it asked.
    Reading(Address),
    /// Its record was read, and it waits for a page on the chain from the entry of the record's class down to its target.
    Tracing(Entry<K, V>, Loading<V>),
    /// This record is to be appended for its own, while the entry of the record's class stands as it was kept.
    Ready(Entry<K, V>, IndexEntry),
}

impl<K: Copy, V: Copy> Clone for Stage<K, V> {
    ghost is_clone = { λ x y. y ≡ x };

    ghost is_infallible = { λ _. ⊤ };

    fn clone(&self) -> Result<Self, AllocError> {
        Ok(*self)
    }
}

/// An open relocation.
#[derive(Copy)]
pub struct Relocation<K, V> {
    /// The moment of its issue.
    pub number: u64,
    /// The address that it is to clear.
    pub target: Address,
    pub stage: Stage<K, V>,
}

impl<K: Copy, V: Copy> Clone for Relocation<K, V> {
    ghost is_clone = { λ x y. y ≡ x };

    ghost is_infallible = { λ _. ⊤ };

    fn clone(&self) -> Result<Self, AllocError> {
        Ok(*self)
    }
}

/// The relocations of one type of functions.
pub type RelocationOf<F> = Relocation<<F as Functions>::Key, <F as Functions>::Value>;

/// The stages of one type of functions.
pub type StageOf<F> = Stage<<F as Functions>::Key, <F as Functions>::Value>;

/// The records of one type of functions.
pub type EntryOf<F> = Entry<<F as Functions>::Key, <F as Functions>::Value>;

/// What the chain from the entry of a record's class tells of the record.
#[derive(Copy)]
pub enum Liveness<V> {
    /// A newer record of its key that is no delta was met.
    Superseded,
    /// The chain came down to the record, and no such record was met; the parts of the key's deltas above, joined, or `None`
    /// where it has none.
    Last(Option<V>),
    /// The chain goes on at this address, above the record; the parts of the key's deltas above that.
    Further(Address, Option<V>),
}

impl<V: Copy> Clone for Liveness<V> {
    ghost is_clone = { λ x y. y ≡ x };

    ghost is_infallible = { λ _. ⊤ };

    fn clone(&self) -> Result<Self, AllocError> {
        Ok(*self)
    }
}

/// What the chain tells of the record at an address, by what it came to.
pub fn liveness_of<K: Copy, V: Copy>(target: Address, came: &ChainResult<K, V>) -> Liveness<V>
    ensures { result ≡ liveness target came.now }
{
    let parts = came.parts;
    match came.position {
        ChainPosition::Found(last) => {
            if target < last.address {
                Liveness::Superseded
            } else {
                Liveness::Last(parts)
            }
        }
        ChainPosition::Below(address) => {
            if target < address {
                Liveness::Further(address, parts)
            } else {
                Liveness::Last(parts)
            }
        }
    }
}

/// The record that is appended for one: its value, joined with the parts of later deltas.
pub fn renewed<F: Mergeable>(
    functions: &F,
    entry: EntryOf<F>,
    parts: Option<F::Value>,
) -> EntryOf<F>
    ensures { result ≡ renewed F.parts.joined entry parts }
{
    Entry {
        address: entry.address,
        previous: entry.previous,
        key: entry.key,
        value: combined(functions, entry.value, parts),
        delta: false,
    }
}

/// The higher of two addresses.
pub fn higher_of(left: Address, right: Address) -> Address
    ensures value { result ≡ higher_of left right }
    ensures left { left ≤ result }
    ensures right { right ≤ result }
{
    if left <= right { right } else { left }
}

/// A relocation at another stage.
pub fn in_stage<K: Copy, V: Copy>(
    relocation: &Relocation<K, V>,
    stage: Stage<K, V>,
) -> Relocation<K, V>
    ensures { result ≡ at_stage relocation.now stage }
{
    Relocation {
        number: relocation.number,
        target: relocation.target,
        stage,
    }
}

/// Where Begin was when a relocation asked for the page that it waits for, and the address that it wants there.
pub fn awaited<K, V: Copy>(target: Address, stage: &Stage<K, V>) -> Option<(Address, Address)>
    ensures { result ≡ option_map (λ a. (a.begin, a.wanted)) (awaited_by target stage.now) }
{
    match stage {
        Stage::Fresh => None,
        Stage::Reading(begin) => Some((*begin, target)),
        Stage::Tracing(_, loading) => Some((loading.begin, loading.wanted)),
        Stage::Ready(_, _) => None,
    }
}
