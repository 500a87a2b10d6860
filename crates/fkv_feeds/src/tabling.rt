//! The table of what a store has: a sorted run of each partition, which goes as its run is made.
ghost use Rattle.std.specs.Prelude.{◌≡◌, ◌<◌, ◌%◌, ◌⊎◌, List, filter, length, nat_eq, IsTrue, IfOk, IfErr, OnOk};
ghost use Rattle.std.specs.BTreeMap.{is_at};
ghost use Rattle.std.specs.Map.{lookup, keys_of};
ghost use Rattle.std.specs.List.Sorted.{IsStrictlySortedBy};
ghost use Rattle.fkv_functions.specs.Names.{name_cmp};
ghost use Rattle.fkv_functions.specs.declared.names.Name.{Name};
ghost use Rattle.fkv_alone.specs.Causes.{CanFailToRead, CanFailToWrite};
ghost use Rattle.fkv_local.specs.Causing.{IsCausedBy};
ghost use Rattle.fkv_local.specs.Listing.{ListsView, IsNextList, IsUnlisted, behind_next, left};

use fkv_device::Disk;
use fkv_functions::{Mergeable, Name, Refused};
use fkv_local::Listing;
use fkv_runs::{Run, Table};
use std::alloc::Global;

/// The run of the next list. A key whose hash names another partition is left out: no device that keeps brings one. Refused:
/// `NoMemory`, and as a device refuses pages.
fn next_run<F: Mergeable<Key = Name>, D: Disk>(
    alloc: Global,
    lists: &mut Listing<F, D>,
) -> Result<Run<F::Value>, Refused>
    requires some { 0 < length lists.old.parts }
    ensures ok { IfOk result (λ run. (pairs : List (Name × F.Value))
        × (run ≡ filter (λ pair. nat_eq (F.code pair.0 % lists.old.count) (length lists.new.parts)) pairs)
        × IsStrictlySortedBy name_cmp (keys_of pairs)
        × (IsTrue D.Receipt.keeps
        → IsNextList name_cmp F.code lists.old lists.new (λ k. lookup (is_at (name_cmp k)) pairs))) }
    ensures after { OnOk result (lists.new ≡ behind_next lists.old) }
    ensures told { IfErr result (λ e. (e ≡ Refused.NoMemory) ⊎ ((was : ListsView Name F.Value F.Input D.Reader) × (readers : List D.Reader)
        × IsUnlisted D.Receipt.keeps D.Reader.failures was.parts was.readers readers e
        × (IsTrue D.Receipt.keeps → IsCausedBy (CanFailToWrite D.Writer.next D.Writer.can_fail)
        (CanFailToRead D.Receipt.stands D.Reader.can_fail) e))) }
{
    let map = match lists.next() {
        Ok(Some(map)) => map,
        Ok(None) => unreachable!(),
        Err(refused) => return Err(refused),
    };
    let _ordered = map.len();
    Run::of_home(
        alloc,
        lists.functions(),
        lists.len() as u64,
        lists.count() as u64,
        &map,
    )
}

/// The table of all that is to be listed of a store. Refused: `NoMemory`, and as a device refuses pages.
pub fn table_of<F: Mergeable<Key = Name>, D: Disk>(
    alloc: Global,
    lists: Listing<F, D>,
) -> Result<Table<F::Value>, Refused>
    requires all { length lists.parts ≡ lists.count }
    ensures value { IsTrue D.Receipt.keeps → IfOk result (λ table. (k : Name)
        → lookup (is_at (name_cmp k)) table ≡ left name_cmp F.code lists k) }
    ensures rising { IfOk result (λ table. IsStrictlySortedBy name_cmp (keys_of table)) }
    ensures told { IfErr result (λ e. (e ≡ Refused.NoMemory) ⊎ ((was : ListsView Name F.Value F.Input D.Reader) × (readers : List D.Reader)
        × IsUnlisted D.Receipt.keeps D.Reader.failures was.parts was.readers readers e
        × (IsTrue D.Receipt.keeps → IsCausedBy (CanFailToWrite D.Writer.next D.Writer.can_fail)
        (CanFailToRead D.Receipt.stands D.Reader.can_fail) e))) }
{
    let mut lists = lists;
    lists.count();
    let mut runs = Vec::new(alloc);
    'lists: while lists.len() > 0 {
        let run = match next_run(alloc, &mut lists) {
            Ok(run) => run,
            Err(refused) => return Err(refused),
        };
        let Ok(()) = runs.push(run) else {
            return Err(Refused::NoMemory);
        };
    }
    Table::new(runs)
}
