//! The end of a store, with all its passes.
ghost use Rattle.std.specs.Prelude.{◌≡◌, ◌≤◌, ◌^◌, ◌⊎◌, ◌↔◌, true, length, map, sum, vec_len, Err, IsTrue, IfOk, IfErr, OnOk};
ghost use Rattle.std.specs.List.{All};
ghost use Rattle.std.specs.BTreeMap.{get};
ghost use Rattle.fkv_locked.specs.Kept.{seen, IsEnded};
ghost use Rattle.fkv_partition.specs.Unions.{union_of};
ghost use Rattle.fkv_closing.specs.Closing.{IsClosed, AreMerged, AreNumbered};
ghost use Rattle.fkv_closing.specs.Lists.{lists_of};
ghost use Rattle.fkv_store.specs.Closes.{IsUnclosedBy, IsUnsettledBy};
ghost use Rattle.fkv_store.specs.Passes.{IsPassOf};
ghost use Rattle.fkv_store.specs.Stores.{AreReaders, IsClosing, IsEnding, IsUnopened};

use crate::passes::Pass;
use crate::stores::{Store, readers_of};
use crate::unlisted::{ClosedStore, ListedPartitions, take_apart};
use fkv_closing::{Closed, Settled, close_parts, close_unlisted};
use fkv_device::{Disk, Receipt};
use fkv_functions::{Mergeable, Refused};
use fkv_histories::Recorder;
use fkv_locked::{EndedPartition, Locked};
use std::alloc::Global;
use std::sync::Mutex;

/// What passes keep: of each, its recorder of each partition, and its share.
#[derive(Drop)]
struct PassRecorders<H: Drop> {
    owns: Vec<Vec<H>>,
    shares: Vec<u64>,
}

/// What these passes of so many partitions keep, in order. Refused: `NoMemory`.
fn kept_by<F: Mergeable, D: Disk, H: Recorder<F>>(
    alloc: Global,
    passes: Vec<Pass<F, D, H>>,
    count: usize,
) -> Result<PassRecorders<H>, Refused>
    requires { All (λ pass. length pass.told ≡ count) passes.items }
    ensures sized { IfOk result (λ kept. All (λ own. vec_len own ≡ count) kept.owns.items) }
    ensures owns { IfOk result (λ kept. map (λ own. map H.entries own.items) kept.owns.items
        ≡ map (λ pass. pass.own) passes.items) }
    ensures shares { IfOk result (λ kept. kept.shares.items ≡ map (λ pass. pass.share) passes.items) }
    ensures only { IfErr result (λ refused. refused ≡ Refused.NoMemory) }
{
    let mut owns = Vec::new(alloc);
    let mut shares = Vec::new(alloc);
    for pass in passes {
        let Pass { owns: kept, .. } = pass;
        let (own, share) = kept.end();
        let Ok(()) = owns.push(own) else {
            return Err(Refused::NoMemory);
        };
        let Ok(()) = shares.push(share) else {
            return Err(Refused::NoMemory);
        };
    }
    Ok(PassRecorders { owns, shares })
}

/// What is left of partitions under their locks, in order. Refused: `NoMemory`.
fn parts_of<F: Mergeable, R: Receipt, H: Recorder<F>>(
    alloc: Global,
    locks: Vec<Mutex<Locked<F, R, H>>>,
) -> Result<Vec<EndedPartition<F, R>>, Refused>
    ensures ended { IfOk result (λ parts. H.keeps ≡ true → IsTrue R.keeps → All (λ part. IsEnded F.Key.cmp F.meaning
        (seen F.Key.cmp part.partition) part.history.items part.book) parts.items) }
    ensures len { IfOk result (λ parts. length parts.items ≡ vec_len locks) }
    ensures only { IfErr result (λ refused. refused ≡ Refused.NoMemory) }
{
    let mut parts = Vec::new(alloc);
    for lock in locks {
        let Ok(()) = parts.push(lock.into_inner().end(alloc)) else {
            return Err(Refused::NoMemory);
        };
    }
    Ok(parts)
}

/// What is left of a store and its passes: the functions, the parts of its partitions with what writes and what reads the pages of
/// each, and what the passes keep.
#[derive(Drop)]
struct Left<F: Mergeable, D: Disk, H: Recorder<F>> {
    functions: F,
    parts: Vec<EndedPartition<F, D::Receipt>>,
    writers: Vec<Mutex<D::Writer>>,
    readers: Vec<D::Reader>,
    owns: Vec<Vec<H>>,
    shares: Vec<u64>,
}

impl<F: Mergeable, D: Disk, H: Recorder<F>> Store<F, D, H> {
    /// Whether each pass is of this store.
    fn knows_all(&self, passes: &[Pass<F, D, H>]) -> bool
        ensures { IsTrue result ↔ All (IsPassOf self.now) passes.now }
    {
        for pass in passes {
            match pass.known_to(self) {
                Ok(()) => {}
                Err(_foreign) => return false,
            }
        }
        true
    }

    /// What is left of a store and its passes, which are gone then. Refused, in this order: `Mismatch` where a pass is not of this
    /// store; `NoMemory` and `Device` with code 1 where the device does not open a partition's pages.
    fn leave(self, alloc: Global, passes: Vec<Pass<F, D, H>>) -> Result<Left<F, D, H>, Refused>
        ensures ended { IfOk result (λ left. H.keeps ≡ true → IsTrue D.Receipt.keeps → All (λ part. IsEnded F.Key.cmp F.meaning
            (seen F.Key.cmp part.partition) part.history.items part.book) left.parts.items) }
        ensures parts { IfOk result (λ left. length left.parts.items ≡ self.count) }
        ensures writers { IfOk result (λ left. length left.writers.items ≡ self.count) }
        ensures readers { IfOk result (λ left. length left.readers.items ≡ self.count) }
        ensures places { IfOk result (λ left. AreReaders D.Reader.part left.readers.items) }
        ensures sized { IfOk result (λ left. All (λ own. vec_len own ≡ vec_len left.parts) left.owns.items) }
        ensures owns { IfOk result (λ left. map (λ own. map H.entries own.items) left.owns.items
            ≡ map (λ pass. pass.own) passes.items) }
        ensures shares { IfOk result (λ left. left.shares.items ≡ map (λ pass. pass.share) passes.items) }
        ensures own { OnOk result (All (IsPassOf self) passes.items) }
        ensures foreign { ¬ All (IsPassOf self) passes.items → result ≡ Err Refused.Mismatch }
        ensures known { All (IsPassOf self) passes.items → IfErr result IsUnopened }
        ensures only { IfErr result IsEnding }
    {
        if !self.knows_all(passes.as_slice()) {
            return Err(Refused::Mismatch);
        }
        let Store {
            functions,
            device,
            writers,
            locks,
            ..
        } = self;
        let mut device = device.into_inner();
        let readers = match readers_of(alloc, &mut device, locks.len()) {
            Ok(readers) => readers,
            Err(refused) => return Err(refused),
        };
        let parts = match parts_of(alloc, locks) {
            Ok(parts) => parts,
            Err(refused) => return Err(refused),
        };
        let kept = match kept_by(alloc, passes, parts.len()) {
            Ok(kept) => kept,
            Err(refused) => return Err(refused),
        };
        let PassRecorders { owns, shares } = kept;
        Ok(Left {
            functions,
            parts,
            writers,
            readers,
            owns,
            shares,
        })
    }

    /// Ends a store with all its passes: each live key with its value, the history of each partition, and how many operations
    /// were finished, which is what the shares of the passes add up to. With a recorder that keeps entries, each history is made
    /// up by the passes' own lists, and the map by the histories.
    ///
    /// # Errors
    ///
    /// The store and the passes are gone then. In this order: `Mismatch` where a pass is not of this store; `NoMemory` and
    /// `Device` with code 1 where the device does not open a partition's pages; `Worn` where the shares, or the books of the
    /// partitions, have no sum below 2^64; `Mismatch` where the shares and the books don't add up to the same, as where a pass
    /// is missing, or where a history is not made up by the own lists; `Device` with code 3 and `Damaged` where a page can't be
    /// read, or came back with other bytes; `NoMemory`.
    pub fn close(self, alloc: Global, passes: Vec<Pass<F, D, H>>) -> Result<Closed<F>, Refused>
        ensures closed { H.keeps ≡ true → IsTrue D.Receipt.keeps → IfOk result (λ closed. IsClosed F.Key.cmp F.meaning F.code
            (map (λ pass. pass.own) passes.items) (map (λ pass. pass.share) passes.items) (get F.Key.cmp closed.map)
            (map (λ history. history.items) closed.histories.items) closed.finished) }
        ensures shared { IfOk result (λ closed. closed.finished ≡ sum (map (λ pass. pass.share) passes.items)) }
        ensures merged { IfOk result (λ closed. AreMerged (map (λ history. history.items) closed.histories.items)
            (lists_of (map (λ pass. pass.own) passes.items))) }
        ensures len { IfOk result (λ closed. length closed.histories.items ≡ self.count) }
        ensures own { OnOk result (All (IsPassOf self) passes.items) }
        ensures foreign { ¬ All (IsPassOf self) passes.items → result ≡ Err Refused.Mismatch }
        ensures worn { All (IsPassOf self) passes.items → 2 ^ 64 ≤ sum (map (λ pass. pass.share) passes.items)
            → IfErr result (λ why. (why ≡ Refused.Worn) ⊎ IsUnopened why) }
        ensures refused { All (IsPassOf self) passes.items → IfErr result (λ why. IsUnopened why
            ⊎ IsUnclosedBy F.Key.cmp F.meaning H.keeps D.Receipt.keeps self.count (map (λ pass. pass.own) passes.items)
            (map (λ pass. pass.share) passes.items) why) }
        ensures only { IfErr result IsClosing }
    {
        let left = match self.leave(alloc, passes) {
            Ok(left) => left,
            Err(refused) => return Err(refused),
        };
        let Left {
            functions,
            parts,
            mut readers,
            owns,
            shares,
            ..
        } = left;
        match close_parts::<F, D::Receipt, H, D::Reader>(
            &functions,
            alloc,
            parts,
            readers.as_mut_slice(),
            owns,
            shares.as_slice(),
        ) {
            Ok(closed) => Ok(closed),
            Err(refused) => Err(refused),
        }
    }

    /// Ends a store with all its passes, as [`Store::close`] does, but reads no page: it hands its partitions out, each with what
    /// reads its pages and what writes them, to be listed (`Unlisted::list`), with the history of each, and how many operations were
    /// finished. What is live in them is the map of `close`.
    ///
    /// # Errors
    ///
    /// The store and the passes are gone then. As those of `close`, in the same order, but for those of pages.
    pub fn close_unlisted(
        self,
        alloc: Global,
        passes: Vec<Pass<F, D, H>>,
    ) -> Result<ClosedStore<F, D>, Refused>
        ensures closed { H.keeps ≡ true → IsTrue D.Receipt.keeps → IfOk result (λ ended. IsClosed F.Key.cmp F.meaning F.code
            (map (λ pass. pass.own) passes.items) (map (λ pass. pass.share) passes.items)
            (union_of F.Key.cmp F.code (map (λ part. part.partition) ended.partitions.items))
            (map (λ history. history.items) ended.histories.items) ended.finished) }
        ensures numbered { IfOk result (λ ended. AreNumbered (map (λ part. part.partition) ended.partitions.items)) }
        ensures shared { IfOk result (λ ended. ended.finished ≡ sum (map (λ pass. pass.share) passes.items)) }
        ensures merged { IfOk result (λ ended. AreMerged (map (λ history. history.items) ended.histories.items)
            (lists_of (map (λ pass. pass.own) passes.items))) }
        ensures partitions { IfOk result (λ ended. length ended.partitions.items ≡ self.count) }
        ensures readers { IfOk result (λ ended. AreReaders D.Reader.part (map (λ part. part.reader) ended.partitions.items)) }
        ensures len { IfOk result (λ ended. length ended.histories.items ≡ self.count) }
        ensures own { OnOk result (All (IsPassOf self) passes.items) }
        ensures foreign { ¬ All (IsPassOf self) passes.items → result ≡ Err Refused.Mismatch }
        ensures worn { All (IsPassOf self) passes.items → 2 ^ 64 ≤ sum (map (λ pass. pass.share) passes.items)
            → IfErr result (λ why. (why ≡ Refused.Worn) ⊎ IsUnopened why) }
        ensures refused { All (IsPassOf self) passes.items → IfErr result (λ why. IsUnopened why
            ⊎ IsUnsettledBy F.Key.cmp F.meaning H.keeps D.Receipt.keeps self.count (map (λ pass. pass.own) passes.items)
            (map (λ pass. pass.share) passes.items) why) }
        ensures only { IfErr result IsEnding }
    {
        let left = match self.leave(alloc, passes) {
            Ok(left) => left,
            Err(refused) => return Err(refused),
        };
        let Left {
            functions,
            parts,
            writers,
            readers,
            owns,
            shares,
        } = left;
        let settled = match close_unlisted::<F, D::Receipt, H>(
            alloc,
            parts,
            owns,
            shares.as_slice(),
        ) {
            Ok(settled) => settled,
            Err(refused) => return Err(refused),
        };
        let Settled { parts, finished } = settled;
        match take_apart(alloc, parts, writers, readers) {
            Ok(
                ListedPartitions {
                    partitions,
                    histories,
                },
            ) => Ok(ClosedStore {
                functions,
                partitions,
                histories,
                finished,
            }),
            Err(refused) => Err(refused),
        }
    }
}
