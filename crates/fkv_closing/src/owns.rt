//! The own lists of the passes, by partitions.
ghost use Rattle.std.specs.Prelude.{◌≡◌, ◌<◌, ◌++◌, [], ◌∷◌, ℕ, length, map, replicate, vec_len, slice_index_or, IfOk, IfErr, OnOk};
ghost use Rattle.std.specs.List.{All};
ghost use Rattle.fkv_closing.specs.Lists.{AddsLists, AreByPartition};

use fkv_functions::{Mergeable, Refused};
use fkv_histories::{EntryOf, Recorder};
use std::alloc::Global;

/// The own lists of one partition, one a pass.
pub(crate) type OwnLists<F> = Vec<Vec<EntryOf<F>>>;

/// No list yet, for so many partitions. Refused: `NoMemory`.
fn no_lists<F: Mergeable>(alloc: Global, count: usize) -> Result<Vec<OwnLists<F>>, Refused>
    ensures ok { IfOk result (λ all. map (λ of. map (λ own. own.items) of.items) all.items ≡ replicate count []) }
    ensures only { IfErr result (λ refused. refused ≡ Refused.NoMemory) }
{
    let mut all = Vec::new(alloc);
    for _ in 0..count {
        let Ok(()) = all.push(Vec::new(alloc)) else {
            return Err(Refused::NoMemory);
        };
    }
    Ok(all)
}

/// Puts each own list of a pass behind the other lists of its partition. Refused: `NoMemory`.
fn add_lists<F: Mergeable, H: Recorder<F>>(
    alloc: Global,
    all: &mut Vec<OwnLists<F>>,
    own: Vec<H>,
) -> Result<(), Refused>
    requires { vec_len own ≡ vec_len all.old }
    ensures ok { OnOk result (AddsLists (map (λ of. map (λ own. own.items) of.items) all.old.items)
        (map (λ of. map (λ own. own.items) of.items) all.new.items) (map H.entries own.items)) }
    ensures only { IfErr result (λ refused. refused ≡ Refused.NoMemory) }
{
    for (partition, recorder) in own.into_iter().enumerate() {
        let Ok(()) = all[partition].push(recorder.lists(alloc)) else {
            return Err(Refused::NoMemory);
        };
    }
    Ok(())
}

/// The own lists of each partition, in order of passes. Refused: `NoMemory`.
pub(crate) fn by_partition<F: Mergeable, H: Recorder<F>>(
    alloc: Global,
    owns: Vec<Vec<H>>,
    count: usize,
) -> Result<Vec<OwnLists<F>>, Refused>
    requires { All (λ own. vec_len own ≡ count) owns.items }
    ensures ok { IfOk result (λ all. AreByPartition count (map (λ of. map (λ own. own.items) of.items) all.items)
        (map (λ own. map H.entries own.items) owns.items)) }
    ensures only { IfErr result (λ refused. refused ≡ Refused.NoMemory) }
{
    let mut all = match no_lists::<F>(alloc, count) {
        Err(refused) => return Err(refused),
        Ok(all) => all,
    };
    for own in owns {
        match add_lists::<F, H>(alloc, &mut all, own) {
            Err(refused) => return Err(refused),
            Ok(()) => {}
        }
    }
    Ok(all)
}
