//! The table of a store that has ended, in pages of its device: some threads list its partitions, each some that stand one behind
//! another, one after the other, and write a sorted run of each behind the partition's log. A partition goes as its list is made, a
//! list as its run is written, and the table is the merge of these runs.
ghost use Rattle.std.specs.Prelude.{◌≡◌, ◌<◌, ◌≤◌, ◌⊎◌, List, Ok, length, map, IsTrue, IfOk, IfErr};
ghost use Rattle.std.specs.BTreeMap.{is_at};
ghost use Rattle.std.specs.List.Sorted.{IsStrictlySortedBy};
ghost use Rattle.std.specs.Map.{lookup, keys_of};
ghost use Rattle.fkv_functions.specs.Names.{name_cmp};
ghost use Rattle.fkv_functions.specs.declared.names.Name.{Name};
ghost use Rattle.fkv_partition.specs.Unions.{union_of};
ghost use Rattle.fkv_closing.specs.Closing.{AreNumbered};
ghost use Rattle.fkv_feeds.specs.Spilling.{ArePairsOf};
ghost use Rattle.fkv_runs.specs.Merging.{merged};
ghost use Rattle.fkv_spills.specs.Parts.{HasPairs, HasMergedPairs};
ghost use Rattle.fkv_spills.specs.Reading.{AreHeld};
ghost use Rattle.fkv_spills.specs.Spilling.{pair_size};
ghost use Rattle.fkv_workers.specs.Listing.{IsOfOne};
ghost use Rattle.fkv_workers.specs.Spilling.{IsSpilledOf, IsUnspilled};

use crate::listing::runs_of;
use fkv_device::{Disk, PageReader, PageWriter};
use fkv_functions::{Fixed, Mergeable, Name, Refused};
use fkv_jobs::{Job, run_spread};
use fkv_spills::{Spilled, SpilledPart, SpilledParts, SpilledRest, SpilledTable};
use fkv_store::{Listed, Unlisted};
use std::alloc::Global;
use std::rt::Clock;
use std::sync::Wait;
use std::thread::Threads;

/// A partition of a store that is to be listed and spilled, in pages of so many bytes.
#[derive(Drop)]
struct Spilling<'a, F: Mergeable, D: Disk> {
    alloc: Global,
    functions: &'a F,
    part: Unlisted<F, D>,
    page_size: usize,
}

/// The run of a partition in pages of so many bytes, behind those of the partition, which goes before they are written: the room of its
/// pages may be used for them. A key whose hash names another partition is left out: no device that keeps brings one. Refused:
/// `NoMemory`, and as its device refuses pages.
fn spill_one<F: Mergeable<Key = Name>, D: Disk>(
    alloc: Global,
    functions: &F,
    part: Unlisted<F, D>,
    page_size: usize,
) -> Result<SpilledPart<F::Value, D::Receipt, D::Reader>, Refused>
    requires { pair_size F.Value.SIZE ≤ 192 }
    ensures ok { IsTrue D.Receipt.keeps
        → IfOk result (IsSpilledOf F.Value.codec D.Receipt.keeps D.Receipt.stands F.code part.partition) }
    ensures refused { IfErr result (IsUnspilled D.Receipt.keeps D.Receipt.stands D.Reader.can_fail D.Reader.failures
        D.Writer.failures part.partition part.reader) }
{
    part.partition.facts();
    let number = part.partition.number();
    let count = part.partition.count();
    let listed = match part.list_apart(alloc, functions) {
        Ok(listed) => listed,
        Err(refused) => return Err(refused),
    };
    let Listed {
        map,
        reader,
        mut writer,
        behind,
    } = listed;
    let _ordered = map.len();
    // its log is read no more
    writer.drop_below(behind);
    let run = match Spilled::of_home(
        alloc,
        functions,
        number,
        count,
        &map,
        &mut writer,
        page_size,
        behind,
    ) {
        Ok(run) => run,
        Err(refused) => return Err(refused),
    };
    let len = run.len;
    match SpilledRest::of(run, reader) {
        Ok(rest) => Ok(SpilledPart { rest, len }),
        Err(refused) => Err(refused),
    }
}

impl<'a, F: Mergeable<Key = Name>, D: Disk> Job for Spilling<'a, F, D> {
    type Output = Result<SpilledPart<F::Value, D::Receipt, D::Reader>, Refused>;

    ghost ready = { λ _. pair_size F.Value.SIZE ≤ 192 };

    ghost gives = { λ j result. (IsTrue D.Receipt.keeps
        → IfOk result (IsSpilledOf F.Value.codec D.Receipt.keeps D.Receipt.stands F.code j.part.partition))
        × IfErr result (IsUnspilled D.Receipt.keeps D.Receipt.stands D.Reader.can_fail D.Reader.failures
        D.Writer.failures j.part.partition j.part.reader) };

    fn run<W: Wait + Clock>(
        self,
        _rt: &W,
    ) -> Result<SpilledPart<F::Value, D::Receipt, D::Reader>, Refused> {
        let Spilling {
            alloc,
            functions,
            part,
            page_size,
        } = self;
        spill_one(alloc, functions, part, page_size)
    }
}

/// What is to be spilled of each of these partitions, in order. Refused: `NoMemory`.
fn spillings<'a, F: Mergeable, D: Disk>(
    alloc: Global,
    functions: &'a F,
    parts: Vec<Unlisted<F, D>>,
    page_size: usize,
) -> Result<Vec<Spilling<'a, F, D>>, Refused>
    ensures ok { IfOk result (λ spillings. map (λ spilling. spilling.part) spillings.items ≡ parts.items) }
    ensures only { IfErr result (λ refused. refused ≡ Refused.NoMemory) }
{
    let mut spillings = Vec::new(alloc);
    for part in parts {
        let spilling = Spilling {
            alloc,
            functions,
            part,
            page_size,
        };
        let Ok(()) = spillings.push(spilling) else {
            return Err(Refused::NoMemory);
        };
    }
    Ok(spillings)
}

/// The table that the runs of partitions are. Refused: `NoMemory`; `Worn` where they have more pairs than a number counts.
fn merged_of<V: Fixed, P: PageReader>(
    alloc: Global,
    runs: Vec<SpilledPart<V, P::Receipt, P>>,
) -> Result<SpilledTable<V, P::Receipt, P>, Refused>
    ensures ok { (lists : List (List (Name × V))) → AreHeld (HasPairs V.codec P.Receipt.keeps P.Receipt.stands) runs.items lists
        → IfOk result (λ table. HasMergedPairs V.codec P.Receipt.keeps P.Receipt.stands table (merged name_cmp lists)) }
    ensures only { IfErr result (λ refused. (refused ≡ Refused.NoMemory) ⊎ (refused ≡ Refused.Worn)) }
{
    let mut parts = SpilledParts::new(alloc);
    for part in runs {
        match parts.add(part) {
            Ok(()) => {}
            Err(refused) => return Err(refused),
        }
    }
    match parts.merge() {
        Ok(table) => Ok(table),
        Err(refused) => Err(refused),
    }
}

/// The table of all that is live in these partitions of a store, in pages of so many bytes of its device, which so many threads list
/// and spill: each has some that stand one behind another. Refused: `NoMemory`; `Worn` where it has more keys than a number counts;
/// and as a device refuses pages, of the first partition of which it does.
pub(crate) fn spill_parts<
    F: Mergeable<Key = Name> + Send + Sync,
    D: Disk + Send,
    T: Threads + Wait + Clock + Sync,
>(
    rt: &T,
    alloc: Global,
    threads: usize,
    functions: &F,
    parts: Vec<Unlisted<F, D>>,
    page_size: usize,
) -> Result<SpilledTable<F::Value, D::Receipt, D::Reader>, Refused>
where
    F::Value: Send,
    F::Input: Send,
    F::Output: Send,
    D::Receipt: Send,
    D::Writer: Send,
    D::Reader: Send,
    requires some { 0 < threads }
    requires most { pair_size F.Value.SIZE ≤ 192 }
    requires numbered { AreNumbered (map (λ part. part.partition) parts.items) }
    ensures ok { IsTrue D.Receipt.keeps → IfOk result (λ table. (xs : List (Name × F.Value))
        × ArePairsOf F.Value.codec D.Receipt.keeps D.Receipt.stands table.pairs xs
        × (table.keys ≡ length xs)
        × IsStrictlySortedBy name_cmp (keys_of xs)
        × ((k : Name) → lookup (is_at (name_cmp k)) xs ≡ union_of name_cmp F.code (map (λ part. part.partition) parts.items) k)) }
    ensures refused { IfErr result (λ why. (why ≡ Refused.NoMemory) ⊎ (why ≡ Refused.Worn)
        ⊎ IsOfOne (λ part. IsUnspilled D.Receipt.keeps D.Receipt.stands D.Reader.can_fail D.Reader.failures
        D.Writer.failures part.partition part.reader) parts.items why) }
{
    let spillings = match spillings(alloc, functions, parts, page_size) {
        Ok(spillings) => spillings,
        Err(refused) => return Err(refused),
    };
    let results = match run_spread(rt, alloc, threads, spillings) {
        Ok(results) => results,
        Err(refused) => return Err(refused),
    };
    let spilled = match runs_of(alloc, results) {
        Ok(spilled) => spilled,
        Err(refused) => return Err(refused),
    };
    match merged_of(alloc, spilled) {
        Ok(table) => Ok(table),
        Err(refused) => Err(refused),
    }
}
