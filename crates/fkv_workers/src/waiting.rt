//! Rows that wait for others of their partition, so that a worker makes many updates of one partition in a row: then its lock,
//! and what lies under it, stays with one processor meanwhile.
ghost use Rattle.std.specs.Prelude.{◌≡◌, ◌<◌, ◌++◌, ◌∷◌, [], length, map, replicate, slice_index_or, slice_set, vec_len, IfOk, IfErr, OnOk};
ghost use Rattle.fkv_functions.specs.declared.refusals.Refused.TheVariants as refused;

use fkv_functions::{Name, Refused};
use std::alloc::Global;

/// How many rows of a partition wait until they are made updates.
const TOGETHER: usize = 64;

/// For each partition the rows with keys there that wait, in order.
pub(crate) type WaitingRows = Vec<Vec<(Name, i64)>>;

/// No rows, for each of so many partitions. Refused: `NoMemory`.
pub(crate) fn none_wait(alloc: Global, count: usize) -> Result<WaitingRows, Refused>
    ensures ok { IfOk result (λ waiting. map (λ rows. rows.items) waiting.items ≡ replicate count []) }
    ensures only { IfErr result (λ e. e ≡ refused.NoMemory) }
{
    let mut waiting = Vec::new(alloc);
    for _place in 0..count {
        let Ok(rows) = Vec::with_capacity(alloc, TOGETHER) else {
            return Err(Refused::NoMemory);
        };
        let Ok(()) = waiting.push(rows) else {
            return Err(Refused::NoMemory);
        };
    }
    Ok(waiting)
}

/// Has one row more wait, behind the others of its partition. `Ok` tells whether they are enough to be made updates. Refused:
/// `NoMemory`.
pub(crate) fn put(
    waiting: &mut WaitingRows,
    partition: usize,
    key: &Name,
    amount: i64,
) -> Result<bool, Refused>
    requires { partition < vec_len waiting.old }
    ensures ok { OnOk result (map (λ rows. rows.items) waiting.new.items
        ≡ slice_set (map (λ rows. rows.items) waiting.old.items) partition
        (slice_index_or (map (λ rows. rows.items) waiting.old.items) partition [] ++ (key.now, amount) ∷ [])) }
    ensures only { IfErr result (λ e. e ≡ refused.NoMemory) }
{
    let rows = &mut waiting[partition];
    match rows.push((*key, amount)) {
        Ok(()) => Ok(rows.len() >= TOGETHER),
        Err(_) => Err(Refused::NoMemory),
    }
}

/// The rows of a partition that wait.
pub(crate) fn rows_of(waiting: &WaitingRows, partition: usize) -> &[(Name, i64)]
    requires { partition < vec_len waiting.now }
    ensures { result.now ≡ slice_index_or (map (λ rows. rows.items) waiting.now.items) partition [] }
{
    waiting[partition].as_slice()
}

/// Has no row of a partition wait any more.
pub(crate) fn clear(waiting: &mut WaitingRows, partition: usize)
    requires { partition < vec_len waiting.old }
    ensures { map (λ rows. rows.items) waiting.new.items
        ≡ slice_set (map (λ rows. rows.items) waiting.old.items) partition [] }
{
    waiting[partition].clear();
}
