//! Ordered maps, changed as plain maps are.
ghost use Rattle.std.specs.Prelude.{◌≡◌, IfErr, OnOk, OnErr};
ghost use Rattle.std.specs.BTreeMap.{get};
ghost use Rattle.fkv_functions.specs.Plain.{Same, with_at};
ghost use Rattle.fkv_texts.specs.Deltas.{combined, value_after};

use fkv_functions::{Fixed, FixedKey, Mergeable, Refused};
use fkv_texts::Entry;
use std::collections::BTreeMap;
use std::collections::btree_map::Entry as Place;

/// Gives a key this value, or none. Refused, and then the map stays: `NoMemory`.
fn put<K: FixedKey, V: Fixed>(
    map: &mut BTreeMap<K, V>,
    key: K,
    value: Option<V>,
) -> Result<(), Refused>
    ensures ok { OnOk result (Same (get K.cmp map.new) (with_at K.cmp (get K.cmp map.old) key value)) }
    ensures only { IfErr result (λ refused. refused ≡ Refused.NoMemory) }
    ensures unchanged { OnErr result (Same (get K.cmp map.new) (get K.cmp map.old)) }
{
    match value {
        None => {
            map.remove(&key);
            Ok(())
        }
        Some(value) => match map.insert(key, value) {
            Ok(_) => Ok(()),
            Err(_) => Err(Refused::NoMemory),
        },
    }
}

/// Joins a part, if any, to what a map has of a key: the key is looked for once. Refused, and then the map stays: `NoMemory`.
fn put_part<F: Mergeable>(
    functions: &F,
    map: &mut BTreeMap<F::Key, F::Value>,
    key: F::Key,
    part: Option<F::Value>,
) -> Result<(), Refused>
    ensures ok { OnOk result (Same (get F.Key.cmp map.new)
        (with_at F.Key.cmp (get F.Key.cmp map.old) key (combined F.parts.joined (get F.Key.cmp map.old key) part))) }
    ensures only { IfErr result (λ refused. refused ≡ Refused.NoMemory) }
    ensures unchanged { OnErr result (Same (get F.Key.cmp map.new) (get F.Key.cmp map.old)) }
{
    let Some(part) = part else {
        let held = map.get(&key).copied();
        return put(map, key, held);
    };
    match map.entry(key) {
        Err(_) => Err(Refused::NoMemory),
        Ok(Place::Occupied(mut held)) => {
            let joined = functions.join(held.get(), &part);
            held.insert(joined);
            Ok(())
        }
        Ok(Place::Vacant(place)) => {
            place.insert(part);
            Ok(())
        }
    }
}

/// Gives the key of an entry what it has once that stands: the entry's value, or none, or what the map has joined with the part
/// of a delta. Refused, and then the map stays: `NoMemory`.
pub(crate) fn put_entry<F: Mergeable>(
    functions: &F,
    map: &mut BTreeMap<F::Key, F::Value>,
    entry: &Entry<F::Key, F::Value>,
) -> Result<(), Refused>
    ensures ok { OnOk result (Same (get F.Key.cmp map.new) (with_at F.Key.cmp (get F.Key.cmp map.old) entry.now.key
        (value_after F.parts.joined (get F.Key.cmp map.old entry.now.key) entry.now))) }
    ensures only { IfErr result (λ refused. refused ≡ Refused.NoMemory) }
    ensures unchanged { OnErr result (Same (get F.Key.cmp map.new) (get F.Key.cmp map.old)) }
{
    if entry.delta {
        put_part(functions, map, entry.key, entry.value)
    } else {
        put(map, entry.key, entry.value)
    }
}
