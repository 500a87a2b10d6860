//! Ordered maps, changed as plain maps are.
ghost use Rattle.std.specs.Prelude.{◌≡◌, Some, IfErr, OnOk, OnErr};
ghost use Rattle.std.specs.BTreeMap.{get};
ghost use Rattle.fkv_functions.specs.Plain.{Same, with_at};

use fkv_functions::{Fixed, FixedKey, Refused};
use std::collections::BTreeMap;

/// Gives a key this value. Refused, and then the map is as it was: `NoMemory`.
pub(crate) fn give<K: FixedKey, V: Fixed>(
    map: &mut BTreeMap<K, V>,
    key: K,
    value: V,
) -> Result<(), Refused>
    ensures ok { OnOk result (Same (get K.cmp map.new) (with_at K.cmp (get K.cmp map.old) key (Some value))) }
    ensures unchanged { OnErr result (Same (get K.cmp map.new) (get K.cmp map.old)) }
    ensures only { IfErr result (λ refused. refused ≡ Refused.NoMemory) }
{
    match map.insert(key, value) {
        Ok(_) => Ok(()),
        Err(_) => Err(Refused::NoMemory),
    }
}
