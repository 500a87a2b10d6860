//! The entries of a text.
ghost use Rattle.std.specs.Prelude.{◌≡◌};

use fkv_records::{Address, Record};

/// A record of a log, where it stands.
#[derive(Clone, Copy, Debug, PartialEq, Eq)]
pub struct Entry<K, V> {
    pub address: Address,
    /// The address of the entry before it in its class, or 1 where there is none.
    pub previous: Address,
    pub key: K,
    /// The key's value, or `None` for a tombstone.
    pub value: Option<V>,
    /// Whether the value is a part, to be joined with what the key had before. A tombstone is no delta.
    pub delta: bool,
}

/// What a reader of a chain comes to.
#[derive(Clone, Copy, Debug, PartialEq, Eq)]
pub enum ChainPosition<K, V> {
    /// The entry that it looks for.
    Found(Entry<K, V>),
    /// Where the chain goes on, below the entries that were read: the entry is not among those.
    Below(Address),
}

/// The entry that a record is at an address.
pub fn entry_of<K, V>(address: Address, found: Record<K, V>) -> Entry<K, V>
    ensures { result ≡ record {
      address = address;
      previous = found.previous;
      key = found.key;
      value = found.value;
      delta = found.delta;
    } }
{
    Entry {
        address,
        previous: found.previous,
        key: found.key,
        value: found.value,
        delta: found.delta,
    }
}

/// An entry of a key in hand.
pub fn entry_with<K: Copy, V>(
    address: Address,
    previous: Address,
    key: &K,
    value: Option<V>,
    delta: bool,
) -> Entry<K, V>
    ensures { result ≡ record { address = address; previous = previous; key = key.now; value = value; delta = delta } }
{
    Entry {
        address,
        previous,
        key: *key,
        value,
        delta,
    }
}
