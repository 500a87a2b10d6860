//! The table of a store that has ended: some threads list its partitions, each some that stand one behind another, one after the
//! other. A partition goes as its run is made, and the table is these runs.
ghost use Rattle.std.specs.Prelude.{◌≡◌, ◌<◌, ◌⊎◌, Ok, map, IsTrue, IfOk, IfErr};
ghost use Rattle.std.specs.BTreeMap.{is_at};
ghost use Rattle.std.specs.List.Sorted.{IsStrictlySortedBy};
ghost use Rattle.std.specs.Map.{lookup, keys_of};
ghost use Rattle.fkv_functions.specs.Names.{name_cmp};
ghost use Rattle.fkv_functions.specs.declared.names.Name.{Name};
ghost use Rattle.fkv_functions.specs.declared.refusals.Refused.TheVariants as refused;
ghost use Rattle.fkv_partition.specs.Unions.{union_of};
ghost use Rattle.fkv_closing.specs.Closing.{AreNumbered};
ghost use Rattle.fkv_store.specs.Stores.{IsUnlisted};
ghost use Rattle.fkv_workers.specs.Listing.{IsRunOf, IsRunless, IsOfOne, IsFirstRefusal};

use fkv_device::Disk;
use fkv_functions::{Mergeable, Name, Refused};
use fkv_jobs::{Job, run_spread};
use fkv_runs::{Run, Table};
use fkv_store::Unlisted;
use std::alloc::Global;
use std::rt::Clock;
use std::sync::Wait;
use std::thread::Threads;

/// A partition of a store that is to be listed.
#[derive(Drop)]
struct Listing<'a, F: Mergeable, D: Disk> {
    alloc: Global,
    functions: &'a F,
    part: Unlisted<F, D>,
}

/// The run of a partition, which goes then. A key whose hash names another partition is left out: no device that keeps brings
/// one. Refused: `NoMemory`, and as its device refuses pages.
fn list_one<F: Mergeable<Key = Name>, D: Disk>(
    alloc: Global,
    functions: &F,
    part: Unlisted<F, D>,
) -> Result<Run<F::Value>, Refused>
    ensures ok { IfOk result (IsRunOf D.Receipt.keeps F.code part.partition) }
    ensures refused { IfErr result (λ why. (why ≡ Refused.NoMemory) ⊎ IsRunless D.Receipt.keeps D.Receipt.stands
        D.Reader.can_fail D.Reader.failures part.partition part.reader why) }
    ensures only { IfErr result IsUnlisted }
{
    part.partition.facts();
    let number = part.partition.number();
    let count = part.partition.count();
    let map = match part.list(alloc, functions) {
        Ok(map) => map,
        Err(refused) => return Err(refused),
    };
    let _ordered = map.len();
    Run::of_home(alloc, functions, number, count, &map)
}

impl<'a, F: Mergeable<Key = Name>, D: Disk> Job for Listing<'a, F, D> {
    type Output = Result<Run<F::Value>, Refused>;

    ghost ready = { λ _. Unit {0} };

    ghost gives = { λ j result. IfOk result (IsRunOf D.Receipt.keeps F.code j.part.partition)
        × IfErr result (λ why. (why ≡ refused.NoMemory) ⊎ IsRunless D.Receipt.keeps D.Receipt.stands
        D.Reader.can_fail D.Reader.failures j.part.partition j.part.reader why)
        × IfErr result IsUnlisted };

    fn run<W: Wait + Clock>(self, _rt: &W) -> Result<Run<F::Value>, Refused> {
        let Listing {
            alloc,
            functions,
            part,
        } = self;
        list_one(alloc, functions, part)
    }
}

/// What is to be listed of each of these partitions, in order. Refused: `NoMemory`.
fn listings<'a, F: Mergeable, D: Disk>(
    alloc: Global,
    functions: &'a F,
    parts: Vec<Unlisted<F, D>>,
) -> Result<Vec<Listing<'a, F, D>>, Refused>
    ensures ok { IfOk result (λ listings. map (λ listing. listing.part) listings.items ≡ parts.items) }
    ensures only { IfErr result (λ refused. refused ≡ Refused.NoMemory) }
{
    let mut listings = Vec::new(alloc);
    for part in parts {
        let listing = Listing {
            alloc,
            functions,
            part,
        };
        let Ok(()) = listings.push(listing) else {
            return Err(Refused::NoMemory);
        };
    }
    Ok(listings)
}

/// The runs that these results are, in order. Refused: as the first of them that is refused, and `NoMemory`.
pub(crate) fn runs_of<R: Drop>(
    alloc: Global,
    results: Vec<Result<R, Refused>>,
) -> Result<Vec<R>, Refused>
    ensures ok { IfOk result (λ runs. map Ok runs.items ≡ results.items) }
    ensures refused { IfErr result (λ why. (why ≡ Refused.NoMemory) ⊎ IsFirstRefusal results.items why) }
{
    let mut runs = Vec::new(alloc);
    for listed in results {
        let run = match listed {
            Ok(run) => run,
            Err(refused) => return Err(refused),
        };
        let Ok(()) = runs.push(run) else {
            return Err(Refused::NoMemory);
        };
    }
    Ok(runs)
}

/// The table of all that is live in these partitions of a store, which so many threads list: each has some that stand one behind
/// another. Refused: `NoMemory`, and as a device refuses pages, of the first partition of which it does.
pub(crate) fn table_of<
    F: Mergeable<Key = Name> + Send + Sync,
    D: Disk + Send,
    T: Threads + Wait + Clock + Sync,
>(
    rt: &T,
    alloc: Global,
    threads: usize,
    functions: &F,
    parts: Vec<Unlisted<F, D>>,
) -> Result<Table<F::Value>, Refused>
where
    F::Value: Send,
    F::Input: Send,
    F::Output: Send,
    D::Receipt: Send,
    D::Writer: Send,
    D::Reader: Send,
    requires some { 0 < threads }
    requires numbered { AreNumbered (map (λ part. part.partition) parts.items) }
    ensures value { IsTrue D.Receipt.keeps → IfOk result (λ table. (k : Name)
        → lookup (is_at (name_cmp k)) table ≡ union_of name_cmp F.code (map (λ part. part.partition) parts.items) k) }
    ensures rising { IfOk result (λ table. IsStrictlySortedBy name_cmp (keys_of table)) }
    ensures refused { IfErr result (λ why. (why ≡ Refused.NoMemory) ⊎ IsOfOne (λ part. IsRunless D.Receipt.keeps
        D.Receipt.stands D.Reader.can_fail D.Reader.failures part.partition part.reader) parts.items why) }
    ensures only { IfErr result IsUnlisted }
{
    let listings = match listings(alloc, functions, parts) {
        Ok(listings) => listings,
        Err(refused) => return Err(refused),
    };
    let results = match run_spread(rt, alloc, threads, listings) {
        Ok(results) => results,
        Err(refused) => return Err(refused),
    };
    match runs_of(alloc, results) {
        Ok(runs) => Table::new(runs),
        Err(refused) => Err(refused),
    }
}
