//! Whether partitions stand in their places, and whether their histories are merges of own lists.
ghost use Rattle.std.specs.Prelude.{◌≡◌, ◌↔◌, false, length, map, IsTrue, IfOk, IfErr};
ghost use Rattle.fkv_closing.specs.Closing.{AreNumbered, AreMerged, IsUnmerged};
ghost use Rattle.fkv_closing.specs.Lists.{lists_at};

use crate::owns::OwnLists;
use fkv_device::Receipt;
use fkv_functions::{Mergeable, Refused};
use fkv_histories::is_merge;
use fkv_locked::EndedPartition;
use std::alloc::Global;

/// Whether each partition stands in its place: it has that number, and says that there are as many as there are.
pub(crate) fn are_numbered<F: Mergeable, R: Receipt>(parts: &[EndedPartition<F, R>]) -> bool
    ensures { IsTrue result ↔ AreNumbered (map (λ part. part.partition) parts.now) }
{
    for (place, part) in parts.iter().enumerate() {
        if part.partition.number() != place as u64 {
            return false;
        }
        if part.partition.count() != parts.len() as u64 {
            return false;
        }
    }
    true
}

/// Whether each history is a merge of the own lists of its partition. Refused: `NoMemory`.
pub(crate) fn are_merged<F: Mergeable, R: Receipt>(
    alloc: Global,
    parts: &[EndedPartition<F, R>],
    all: &[OwnLists<F>],
) -> Result<bool, Refused>
    requires { length all.now ≡ length parts.now }
    ensures merged { IfOk result (λ are. IsTrue are → AreMerged (map (λ part. part.history.items) parts.now)
        (lists_at (map (λ of. map (λ own. own.items) of.items) all.now))) }
    ensures unmerged { IfOk result (λ are. are ≡ false → IsUnmerged (map (λ part. part.history.items) parts.now)
        (lists_at (map (λ of. map (λ own. own.items) of.items) all.now))) }
    ensures only { IfErr result (λ refused. refused ≡ Refused.NoMemory) }
{
    for (place, part) in parts.iter().enumerate() {
        let merged = match is_merge::<F>(alloc, part.history.as_slice(), all[place].as_slice()) {
            Err(refused) => return Err(refused),
            Ok(merged) => merged,
        };
        if !merged {
            return Ok(false);
        }
    }
    Ok(true)
}
