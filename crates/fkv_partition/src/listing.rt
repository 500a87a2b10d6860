//! The live map of a partition as a list.
ghost use Rattle.std.specs.Prelude.{◌≡◌, ◌≢◌, ℕ, All, IsTrue, IfOk, IfErr, OnOk, OnErr, None, length};
ghost use Rattle.std.specs.BTreeMap.{get, is_at};
ghost use Rattle.std.specs.Map.{lookup, keys_of};
ghost use Rattle.std.specs.List.Sorted.{IsStrictlySortedBy};
ghost use Rattle.fkv_functions.specs.Plain.{Same};
ghost use Rattle.fkv_records.specs.Places.{page_at};
ghost use Rattle.fkv_hybrid.specs.Scans.{IsScanRefusal, MayFail};
ghost use Rattle.fkv_lookups.specs.Overlays.{with_text, HasFront};
ghost use Rattle.fkv_partition.specs.Views.{live_of, partition_of, IsBare};

use crate::partitions::Partition;
use fkv_device::{PageReader, Receipt};
use fkv_functions::{Mergeable, Refused};
use std::alloc::Global;
use std::collections::BTreeMap;

/// The pairs of a map, keys rising. Refused: `NoMemory`.
pub fn pairs_of<K: Ord + Copy + Drop, V: Copy + Drop>(
    alloc: Global,
    map: &BTreeMap<K, V>,
) -> Result<Vec<(K, V)>, Refused>
    ensures ok { IfOk result (λ pairs. pairs.items ≡ map.now.entries) }
    ensures only { IfErr result (λ refused. refused ≡ Refused.NoMemory) }
{
    let mut pairs = Vec::new(alloc);
    for (key, value) in map {
        let Ok(()) = pairs.push((*key, *value)) else {
            return Err(Refused::NoMemory);
        };
    }
    Ok(pairs)
}

impl<F: Mergeable, R: Receipt> Partition<F, R> {
    /// Puts the live map into a map in which no key of this partition has a value: each key that has a record gets its value
    /// there, none where it is gone, and the others stay. Flushed pages are read from the device, each once, the others from their frames. On a device that keeps all
    /// keys with a record belong to this partition. Refused: `NoMemory`, or as the device refuses a flushed page; `Damaged`
    /// where a page's bytes spell no record at a place; on a device that keeps, the map then has what the first of the records
    /// say.
    pub fn put_live<P: PageReader<Receipt = R>>(
        &self,
        functions: &F,
        reader: &mut P,
        map: &mut BTreeMap<F::Key, F::Value>,
    ) -> Result<(), Refused>
        ensures map { IsTrue R.keeps → IsBare F.code self.now (get F.Key.cmp map.old)
            → OnOk result (Same (get F.Key.cmp map.new) (with_text F.Key.cmp (get F.Key.cmp map.old) self.now.records.text)) }
        // a key of no value gets its live one
        ensures live { IsTrue R.keeps → IsBare F.code self.now (get F.Key.cmp map.old) → OnOk result ((k : F.Key) → get F.Key.cmp map.old k ≡ None
            → get F.Key.cmp map.new k ≡ live_of F.Key.cmp self.now k) }
        // and those of other partitions stay
        ensures others { IsTrue R.keeps → IsBare F.code self.now (get F.Key.cmp map.old) → OnOk result ((k : F.Key)
            → partition_of self.now.count (F.code k) ≢ self.now.number
            → get F.Key.cmp map.new k ≡ get F.Key.cmp map.old k) }
        ensures front { IsTrue R.keeps → IsBare F.code self.now (get F.Key.cmp map.old) → OnErr result
            (HasFront F.Key.cmp (get F.Key.cmp map.old) (get F.Key.cmp map.new) self.now.records.text) }
        ensures steady { OnOk result (P.failures reader.new ≡ P.failures reader.old) }
        ensures refused { IfErr result (IsScanRefusal R.keeps (page_at self.now.records.log.bits self.now.records.log.begin)
            (length self.now.records.log.receipts) (P.failures reader.old) (P.failures reader.new)) }
        ensures caused { IsTrue R.keeps → IfErr result (λ e. e ≢ Refused.NoMemory → (page : ℕ)
            × MayFail R.stands P.can_fail self.now.records.log.receipts self.now.records.log.bits page) }
    {
        self.records.put_live(functions, reader, map)
    }

    /// The live map: each live key with its value, keys rising. It is read as [`Partition::put_live`] reads it. Refused:
    /// as there.
    pub fn live<P: PageReader<Receipt = R>>(
        &self,
        functions: &F,
        alloc: Global,
        reader: &mut P,
    ) -> Result<Vec<(F::Key, F::Value)>, Refused>
        ensures map { IsTrue R.keeps → IfOk result
            (λ pairs. (q : F.Key) → lookup (is_at (F.Key.cmp q)) pairs.items ≡ live_of F.Key.cmp self.now q) }
        ensures rising { IfOk result (λ pairs. IsStrictlySortedBy F.Key.cmp (keys_of pairs.items)) }
        ensures own { IsTrue R.keeps → IfOk result
            (λ pairs. All (λ k. partition_of self.now.count (F.code k) ≡ self.now.number) (keys_of pairs.items)) }
        ensures steady { OnOk result (P.failures reader.new ≡ P.failures reader.old) }
        ensures refused { IfErr result (IsScanRefusal R.keeps (page_at self.now.records.log.bits self.now.records.log.begin)
            (length self.now.records.log.receipts) (P.failures reader.old) (P.failures reader.new)) }
        ensures caused { IsTrue R.keeps → IfErr result (λ e. e ≢ Refused.NoMemory → (page : ℕ)
            × MayFail R.stands P.can_fail self.now.records.log.receipts self.now.records.log.bits page) }
    {
        let mut map = BTreeMap::new(alloc);
        match self.records.put_live(functions, reader, &mut map) {
            Err(refused) => return Err(refused),
            Ok(()) => (),
        }
        let _ordered = map.len();
        pairs_of(alloc, &map)
    }
}
