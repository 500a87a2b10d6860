//! The live maps of the partitions as one.
ghost use Rattle.std.specs.Prelude.{◌≡◌, ◌≢◌, [], length, map, IsTrue, IfOk, IfErr, OnOk};
ghost use Rattle.std.specs.BTreeMap.{get};
ghost use Rattle.fkv_functions.specs.Plain.{Same};
ghost use Rattle.fkv_partition.specs.Unions.{union_of};
ghost use Rattle.fkv_closing.specs.Closing.{AreNumbered};
ghost use Rattle.fkv_closing.specs.Refusing.{IsUnread, MayFailIn};

use fkv_device::{PageReader, Receipt};
use fkv_functions::{Mergeable, Refused};
use fkv_locked::EndedPartition;
use std::alloc::Global;
use std::collections::BTreeMap;

/// Puts each live key of all partitions with its value into an empty map. Refused: `NoMemory`, and as a reader refuses pages
/// of its partition.
fn gather<F: Mergeable, R: Receipt, P: PageReader<Receipt = R>>(
    functions: &F,
    tree: &mut BTreeMap<F::Key, F::Value>,
    parts: &[EndedPartition<F, R>],
    readers: &mut [P],
) -> Result<(), Refused>
    requires empty { tree.old.entries ≡ [] }
    requires read { length readers.old ≡ length parts.now }
    requires numbered { AreNumbered (map (λ part. part.partition) parts.now) }
    ensures ok { IsTrue R.keeps → OnOk result (Same (get F.Key.cmp tree.new)
        (union_of F.Key.cmp F.code (map (λ part. part.partition) parts.now))) }
    ensures steady { OnOk result (map P.failures readers.new ≡ map P.failures readers.old) }
    ensures unread { IfErr result (IsUnread R.keeps (map (λ part. part.partition) parts.now)
        (map P.failures readers.old) (map P.failures readers.new)) }
    ensures caused { IsTrue R.keeps → IfErr result (λ why. why ≢ Refused.NoMemory
        → MayFailIn R.stands P.can_fail (map (λ part. part.partition) parts.now)) }
{
    for (place, part) in parts.iter().enumerate() {
        match part
            .partition
            .put_live(functions, &mut readers[place], tree)
        {
            Ok(()) => {}
            Err(refused) => return Err(refused),
        }
    }
    Ok(())
}

/// Each live key of all partitions with its value. Refused: `NoMemory`, and as a reader refuses pages of its partition.
pub(crate) fn live<F: Mergeable, R: Receipt, P: PageReader<Receipt = R>>(
    functions: &F,
    alloc: Global,
    parts: &[EndedPartition<F, R>],
    readers: &mut [P],
) -> Result<BTreeMap<F::Key, F::Value>, Refused>
    requires read { length readers.old ≡ length parts.now }
    requires numbered { AreNumbered (map (λ part. part.partition) parts.now) }
    ensures map { IsTrue R.keeps → IfOk result (λ live. Same (get F.Key.cmp live)
        (union_of F.Key.cmp F.code (map (λ part. part.partition) parts.now))) }
    ensures steady { OnOk result (map P.failures readers.new ≡ map P.failures readers.old) }
    ensures unread { IfErr result (IsUnread R.keeps (map (λ part. part.partition) parts.now)
        (map P.failures readers.old) (map P.failures readers.new)) }
    ensures caused { IsTrue R.keeps → IfErr result (λ why. why ≢ Refused.NoMemory
        → MayFailIn R.stands P.can_fail (map (λ part. part.partition) parts.now)) }
{
    let mut tree = BTreeMap::new(alloc);
    match gather::<F, R, P>(functions, &mut tree, parts, readers) {
        Ok(()) => Ok(tree),
        Err(refused) => Err(refused),
    }
}
