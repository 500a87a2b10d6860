//! The end of a store, from what is left of its partitions.
ghost use Rattle.std.specs.Prelude.{◌≡◌, ◌≢◌, ◌≤◌, ◌<◌, ◌^◌, ◌⊎◌, true, length, map, sum, sum_by, vec_len, Err, IsTrue, IfOk, IfErr, OnOk};
ghost use Rattle.std.specs.List.{All};
ghost use Rattle.std.specs.BTreeMap.{get};
ghost use Rattle.fkv_functions.specs.Plain.{Same};
ghost use Rattle.fkv_partition.specs.Unions.{union_of};
ghost use Rattle.fkv_locked.specs.Kept.{seen, IsEnded};
ghost use Rattle.fkv_closing.specs.Lists.{lists_of};
ghost use Rattle.fkv_closing.specs.Closing.{AreNumbered, AreMerged, IsUnmerged, IsClosed};
ghost use Rattle.fkv_closing.specs.Refusing.{IsUneven, IsUnsettled, IsUnclosed, MayFailIn};

use crate::gathering::live;
use crate::merges::{are_merged, are_numbered};
use crate::owns::by_partition;
use crate::sums::{sum_of_books, sum_of_shares};
use fkv_device::{PageReader, Receipt};
use fkv_functions::{Mergeable, Refused};
use fkv_histories::{EntryOf, Recorder};
use fkv_locked::EndedPartition;
use std::alloc::Global;
use std::collections::BTreeMap;

/// What a store comes to at its end.
#[derive(Drop)]
pub struct Closed<F: Mergeable> {
    /// Each live key with its value.
    pub map: BTreeMap<F::Key, F::Value>,
    /// The history of each partition, in order of partitions; each is empty where nothing is kept.
    pub histories: Vec<Vec<EntryOf<F>>>,
    /// How many operations were finished.
    pub finished: u64,
}

/// What a store comes to at its end before its pages are read.
#[derive(Drop)]
pub struct Settled<F: Mergeable, R: Receipt> {
    /// Each partition with its history and its book, in order of partitions.
    pub parts: Vec<EndedPartition<F, R>>,
    /// How many operations were finished.
    pub finished: u64,
}

/// How many operations were finished, by the shares and by the books alike, in partitions that stand in their places.
/// Refused, in this order: `Worn` where the shares or the books have no sum below 2^64, `Mismatch` where the sums differ or a
/// partition does not stand in its place.
fn count_finished<F: Mergeable, R: Receipt>(
    parts: &[EndedPartition<F, R>],
    shares: &[u64],
) -> Result<u64, Refused>
    ensures shared { IfOk result (λ total. total ≡ sum shares.now) }
    ensures booked { IfOk result (λ total. total ≡ sum_by (λ part. part.book) parts.now) }
    ensures numbered { OnOk result (AreNumbered (map (λ part. part.partition) parts.now)) }
    ensures refused { IfErr result (IsUneven (map (λ part. part.partition) parts.now) (sum shares.now)
        (sum_by (λ part. part.book) parts.now)) }
{
    let shared = match sum_of_shares(shares) {
        Err(refused) => return Err(refused),
        Ok(shared) => shared,
    };
    let booked = match sum_of_books::<F, R>(parts) {
        Err(refused) => return Err(refused),
        Ok(booked) => booked,
    };
    if shared != booked {
        return Err(Refused::Mismatch);
    }
    if !are_numbered::<F, R>(parts) {
        return Err(Refused::Mismatch);
    }
    Ok(shared)
}

/// Sees that each history is a merge of the own lists of its partition. Refused: `Mismatch` where one is not, `NoMemory`.
fn audit<F: Mergeable, R: Receipt, H: Recorder<F>>(
    alloc: Global,
    parts: &[EndedPartition<F, R>],
    owns: Vec<Vec<H>>,
) -> Result<(), Refused>
    requires { All (λ own. vec_len own ≡ length parts.now) owns.items }
    ensures merged { OnOk result (AreMerged (map (λ part. part.history.items) parts.now)
        (lists_of (map (λ own. map H.entries own.items) owns.items))) }
    ensures refused { IfErr result (λ why. ((why ≡ Refused.Mismatch)
        × IsUnmerged (map (λ part. part.history.items) parts.now)
        (lists_of (map (λ own. map H.entries own.items) owns.items))) ⊎ (why ≡ Refused.NoMemory)) }
{
    let all = match by_partition::<F, H>(alloc, owns, parts.len()) {
        Err(refused) => return Err(refused),
        Ok(all) => all,
    };
    match are_merged::<F, R>(alloc, parts, all.as_slice()) {
        Err(refused) => Err(refused),
        Ok(true) => Ok(()),
        Ok(false) => Err(Refused::Mismatch),
    }
}

/// The histories of these parts, in order. Refused: `NoMemory`.
fn histories_of<F: Mergeable, R: Receipt>(
    alloc: Global,
    parts: Vec<EndedPartition<F, R>>,
) -> Result<Vec<Vec<EntryOf<F>>>, Refused>
    ensures ok { IfOk result (λ histories. map (λ history. history.items) histories.items
        ≡ map (λ part. part.history.items) parts.items) }
    ensures only { IfErr result (λ refused. refused ≡ Refused.NoMemory) }
{
    let mut histories = Vec::new(alloc);
    for part in parts {
        let EndedPartition { history, .. } = part;
        let Ok(()) = histories.push(history) else {
            return Err(Refused::NoMemory);
        };
    }
    Ok(histories)
}

/// Ends a store before its pages are read: from what its partitions' locks leave, the own list that each pass has of each
/// partition, and the share of each pass. It hands the parts back, as they are.
///
/// Refused, in this order: `Worn` where the shares or the books have no sum below 2^64; `Mismatch` where the sums differ, or a
/// partition does not stand in its place; `NoMemory` where the own lists can't be put in order, and `Mismatch` where a history
/// is no merge of those of its partition. A store whose partitions and passes were made together meets no `Mismatch`.
pub fn close_unlisted<F: Mergeable, R: Receipt, H: Recorder<F>>(
    alloc: Global,
    parts: Vec<EndedPartition<F, R>>,
    owns: Vec<Vec<H>>,
    shares: &[u64],
) -> Result<Settled<F, R>, Refused>
    requires kept { All (λ own. vec_len own ≡ vec_len parts) owns.items }
    requires ended { H.keeps ≡ true → IsTrue R.keeps → All (λ part. IsEnded F.Key.cmp F.meaning
        (seen F.Key.cmp part.partition) part.history.items part.book) parts.items }
    // where the device and the recorders keep: the histories have all that was told, and make what is live in the partitions
    ensures closed { H.keeps ≡ true → IsTrue R.keeps → IfOk result (λ settled. IsClosed F.Key.cmp F.meaning F.code
        (map (λ own. map H.entries own.items) owns.items) shares.now
        (union_of F.Key.cmp F.code (map (λ part. part.partition) parts.items))
        (map (λ part. part.history.items) parts.items) settled.finished) }
    // whatever is kept
    ensures parts { IfOk result (λ settled. settled.parts ≡ parts) }
    ensures numbered { OnOk result (AreNumbered (map (λ part. part.partition) parts.items)) }
    ensures shared { IfOk result (λ settled. settled.finished ≡ sum shares.now) }
    ensures booked { IfOk result (λ settled. settled.finished ≡ sum_by (λ part. part.book) parts.items) }
    ensures merged { OnOk result (AreMerged (map (λ part. part.history.items) parts.items)
        (lists_of (map (λ own. map H.entries own.items) owns.items))) }
    // why it is refused
    ensures worn { (2 ^ 64 ≤ sum shares.now) ⊎ (2 ^ 64 ≤ sum_by (λ part. part.book) parts.items)
        → result ≡ Err Refused.Worn }
    ensures mismatch { sum shares.now < 2 ^ 64 → sum_by (λ part. part.book) parts.items < 2 ^ 64
        → (sum shares.now ≢ sum_by (λ part. part.book) parts.items)
        ⊎ ¬ AreNumbered (map (λ part. part.partition) parts.items) → result ≡ Err Refused.Mismatch }
    ensures refused { IfErr result (IsUnsettled (map (λ part. part.partition) parts.items)
        (map (λ part. part.history.items) parts.items)
        (lists_of (map (λ own. map H.entries own.items) owns.items)) (sum shares.now)
        (sum_by (λ part. part.book) parts.items)) }
{
    let slice = parts.as_slice();
    let finished = match count_finished::<F, R>(slice, shares) {
        Err(refused) => return Err(refused),
        Ok(finished) => finished,
    };
    match audit::<F, R, H>(alloc, slice, owns) {
        Err(refused) => Err(refused),
        Ok(()) => Ok(Settled { parts, finished }),
    }
}

/// Closes a store: from what its partitions' locks leave, with a reader of each partition's pages, the own list that each pass
/// has of each partition, and the share of each pass.
///
/// Refused, in this order: `Worn` where the shares or the books have no sum below 2^64; `Mismatch` where the sums differ, or a
/// partition does not stand in its place; `NoMemory` where the own lists can't be put in order, and `Mismatch` where a history
/// is no merge of those of its partition; as a reader refuses a page of its partition; `NoMemory`. A store whose partitions and
/// passes were made together meets no `Mismatch`.
pub fn close_parts<F: Mergeable, R: Receipt, H: Recorder<F>, P: PageReader<Receipt = R>>(
    functions: &F,
    alloc: Global,
    parts: Vec<EndedPartition<F, R>>,
    readers: &mut [P],
    owns: Vec<Vec<H>>,
    shares: &[u64],
) -> Result<Closed<F>, Refused>
    requires read { length readers.old ≡ vec_len parts }
    requires kept { All (λ own. vec_len own ≡ vec_len parts) owns.items }
    requires ended { H.keeps ≡ true → IsTrue R.keeps → All (λ part. IsEnded F.Key.cmp F.meaning
        (seen F.Key.cmp part.partition) part.history.items part.book) parts.items }
    // where the device and the recorders keep: the histories have all that was told, and make the map
    ensures closed { H.keeps ≡ true → IsTrue R.keeps → IfOk result (λ closed. IsClosed F.Key.cmp F.meaning F.code
        (map (λ own. map H.entries own.items) owns.items) shares.now (get F.Key.cmp closed.map)
        (map (λ history. history.items) closed.histories.items) closed.finished) }
    // whatever is kept
    ensures shared { IfOk result (λ closed. closed.finished ≡ sum shares.now) }
    ensures booked { IfOk result (λ closed. closed.finished ≡ sum_by (λ part. part.book) parts.items) }
    ensures histories { IfOk result (λ closed. map (λ history. history.items) closed.histories.items
        ≡ map (λ part. part.history.items) parts.items) }
    ensures merged { IfOk result (λ closed. AreMerged (map (λ history. history.items) closed.histories.items)
        (lists_of (map (λ own. map H.entries own.items) owns.items))) }
    ensures live { IsTrue R.keeps → IfOk result (λ closed. Same (get F.Key.cmp closed.map)
        (union_of F.Key.cmp F.code (map (λ part. part.partition) parts.items))) }
    ensures steady { OnOk result (map P.failures readers.new ≡ map P.failures readers.old) }
    // why it is refused
    ensures worn { (2 ^ 64 ≤ sum shares.now) ⊎ (2 ^ 64 ≤ sum_by (λ part. part.book) parts.items)
        → result ≡ Err Refused.Worn }
    ensures mismatch { sum shares.now < 2 ^ 64 → sum_by (λ part. part.book) parts.items < 2 ^ 64
        → (sum shares.now ≢ sum_by (λ part. part.book) parts.items)
        ⊎ ¬ AreNumbered (map (λ part. part.partition) parts.items) → result ≡ Err Refused.Mismatch }
    ensures refused { IfErr result (IsUnclosed R.keeps (map (λ part. part.partition) parts.items)
        (map (λ part. part.history.items) parts.items)
        (lists_of (map (λ own. map H.entries own.items) owns.items)) (sum shares.now)
        (sum_by (λ part. part.book) parts.items) (map P.failures readers.old) (map P.failures readers.new)) }
    ensures caused { IsTrue R.keeps → IfErr result (λ why. why ≢ Refused.Worn → why ≢ Refused.Mismatch
        → why ≢ Refused.NoMemory
        → MayFailIn R.stands P.can_fail (map (λ part. part.partition) parts.items)) }
{
    let settled = match close_unlisted::<F, R, H>(alloc, parts, owns, shares) {
        Err(refused) => return Err(refused),
        Ok(settled) => settled,
    };
    let Settled { parts, finished } = settled;
    let map = match live::<F, R, P>(functions, alloc, parts.as_slice(), readers) {
        Err(refused) => return Err(refused),
        Ok(map) => map,
    };
    match histories_of::<F, R>(alloc, parts) {
        Err(refused) => Err(refused),
        Ok(histories) => Ok(Closed {
            map,
            histories,
            finished,
        }),
    }
}
