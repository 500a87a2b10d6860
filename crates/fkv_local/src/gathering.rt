//! The table of a store: the live maps of its partitions as one.
ghost use Rattle.std.specs.Prelude.{◌≡◌, ◌<◌, ℕ, [], length, map, IsTrue, IfErr, OnOk};
ghost use Rattle.std.specs.BTreeMap.{get};
ghost use Rattle.fkv_functions.specs.Plain.{Same};
ghost use Rattle.fkv_alone.specs.Causes.{CanFailToRead, CanFailToWrite};
ghost use Rattle.fkv_local.specs.Causing.{IsCausedBy};
ghost use Rattle.fkv_local.specs.Resting.{AreAtRest};
ghost use Rattle.fkv_local.specs.Listing.{IsUnlisted};
ghost use Rattle.fkv_partition.specs.Unions.{union_of};

use crate::parts::Shard;
use fkv_device::Disk;
use fkv_functions::{Mergeable, Refused};
use std::collections::BTreeMap;

/// Puts each live key of all partitions with its value into an empty map. Refused: `NoMemory`, and as a device refuses
/// pages of a partition.
pub fn gather<F: Mergeable, D: Disk>(
    functions: &F,
    tree: &mut BTreeMap<F::Key, F::Value>,
    shards: &mut [Shard<F, D>],
) -> Result<(), Refused>
    requires empty { tree.old.entries ≡ [] }
    requires some { 0 < length shards.old }
    requires numbered { (now : ℕ) × AreAtRest (map (λ shard. shard.part.partition) shards.old) now }
    ensures ok { IsTrue D.Receipt.keeps → OnOk result (Same (get F.Key.cmp tree.new)
        (union_of F.Key.cmp F.code (map (λ shard. shard.part.partition) shards.old))) }
    ensures views { map (λ shard. shard.part.partition) shards.new ≡ map (λ shard. shard.part.partition) shards.old }
    ensures writers { map (λ shard. shard.part.writer) shards.new ≡ map (λ shard. shard.part.writer) shards.old }
    ensures sized { length shards.new ≡ length shards.old }
    ensures steady { OnOk result (map D.Reader.failures (map (λ shard. shard.reader) shards.new)
        ≡ map D.Reader.failures (map (λ shard. shard.reader) shards.old)) }
    ensures caused { IsTrue D.Receipt.keeps → IfErr result
        (IsCausedBy (CanFailToWrite D.Writer.next D.Writer.can_fail) (CanFailToRead D.Receipt.stands D.Reader.can_fail)) }
    ensures told { IfErr result (IsUnlisted D.Receipt.keeps D.Reader.failures (map (λ shard. shard.part.partition) shards.old)
        (map (λ shard. shard.reader) shards.old) (map (λ shard. shard.reader) shards.new)) }
{
    for index in 0..shards.len() {
        let shard = &mut shards[index];
        match shard
            .part
            .partition
            .put_live(functions, &mut shard.reader, tree)
        {
            Ok(()) => {}
            Err(refused) => return Err(refused),
        }
    }
    Ok(())
}
