//! A store that has ended, partition by partition: the live keys of each are still to be listed.
ghost use Rattle.std.specs.Prelude.{◌≡◌, ◌≢◌, ℕ, length, map, IsTrue, IfOk, IfErr};
ghost use Rattle.std.specs.BTreeMap.{get};
ghost use Rattle.fkv_functions.specs.Plain.{Same};
ghost use Rattle.fkv_records.specs.Places.{page_at};
ghost use Rattle.fkv_hybrid.specs.Scans.{IsScanRefusal, MayFail};
ghost use Rattle.fkv_partition.specs.Views.{live_of};
ghost use Rattle.fkv_store.specs.Stores.{IsUnlisted};

use fkv_device::Disk;
use fkv_functions::{Mergeable, Refused};
use fkv_histories::EntryOf;
use fkv_locked::EndedPartition;
use fkv_partition::Partition;
use std::alloc::Global;
use std::collections::BTreeMap;
use std::sync::Mutex;

/// A partition of a store that has ended, with what reads its pages and what writes them: its live keys are still to be listed.
#[derive(Drop)]
pub struct Unlisted<F: Mergeable, D: Disk> {
    pub partition: Partition<F, D::Receipt>,
    pub reader: D::Reader,
    pub(crate) writer: Mutex<D::Writer>,
}

/// The live keys of a partition that has gone, with their values, and what reads and writes its pages.
#[derive(Drop)]
pub struct Listed<F: Mergeable, D: Disk> {
    pub map: BTreeMap<F::Key, F::Value>,
    pub reader: D::Reader,
    pub writer: D::Writer,
    /// The lowest page that is not written: those of the partition stand below it.
    pub behind: u64,
}

/// What a store comes to at its end, where its partitions are still to be listed.
#[derive(Drop)]
pub struct ClosedStore<F: Mergeable, D: Disk> {
    /// The functions of the store.
    pub functions: F,
    /// Its partitions, in order.
    pub partitions: Vec<Unlisted<F, D>>,
    /// The history of each partition, in order of partitions; each is empty where nothing is kept.
    pub histories: Vec<Vec<EntryOf<F>>>,
    /// How many operations were finished.
    pub finished: u64,
}

impl<F: Mergeable, D: Disk> Unlisted<F, D> {
    /// Its live keys with their values. Each of its pages that left memory is read once. Then the partition goes.
    ///
    /// # Errors
    ///
    /// `NoMemory`; `Device` with code 3 where a page can't be read; `Damaged` where one came back with other bytes, or spells no
    /// record.
    pub fn list(self, alloc: Global, functions: &F) -> Result<BTreeMap<F::Key, F::Value>, Refused>
        ensures list { IsTrue D.Receipt.keeps → IfOk result (λ list.
            Same (get F.Key.cmp list) (live_of F.Key.cmp self.partition)) }
        ensures refused { IfErr result (λ why. (reader : D.Reader) × IsScanRefusal D.Receipt.keeps
            (page_at self.partition.records.log.bits self.partition.records.log.begin)
            (length self.partition.records.log.receipts) (D.Reader.failures self.reader) (D.Reader.failures reader) why) }
        ensures caused { IsTrue D.Receipt.keeps → IfErr result (λ why. why ≢ Refused.NoMemory → (page : ℕ)
            × MayFail D.Receipt.stands D.Reader.can_fail self.partition.records.log.receipts
            self.partition.records.log.bits page) }
        ensures only { IfErr result IsUnlisted }
    {
        match self.list_apart(alloc, functions) {
            Ok(listed) => Ok(listed.map),
            Err(refused) => Err(refused),
        }
    }

    /// Its live keys with their values, as [`Unlisted::list`] makes them, and what reads and writes its pages, for pages that are
    /// written behind its own.
    ///
    /// # Errors
    ///
    /// Those of `list`.
    pub fn list_apart(self, alloc: Global, functions: &F) -> Result<Listed<F, D>, Refused>
        ensures list { IsTrue D.Receipt.keeps → IfOk result (λ listed.
            Same (get F.Key.cmp listed.map) (live_of F.Key.cmp self.partition)) }
        ensures behind { IfOk result (λ listed. listed.behind ≡ length self.partition.records.log.receipts) }
        ensures steady { IfOk result (λ listed. D.Reader.failures listed.reader ≡ D.Reader.failures self.reader) }
        ensures refused { IfErr result (λ why. (reader : D.Reader) × IsScanRefusal D.Receipt.keeps
            (page_at self.partition.records.log.bits self.partition.records.log.begin)
            (length self.partition.records.log.receipts) (D.Reader.failures self.reader) (D.Reader.failures reader) why) }
        ensures caused { IsTrue D.Receipt.keeps → IfErr result (λ why. why ≢ Refused.NoMemory → (page : ℕ)
            × MayFail D.Receipt.stands D.Reader.can_fail self.partition.records.log.receipts
            self.partition.records.log.bits page) }
        ensures only { IfErr result IsUnlisted }
    {
        let Unlisted {
            partition,
            reader,
            writer,
        } = self;
        let mut reader = reader;
        let mut map = BTreeMap::new(alloc);
        match partition.put_live(functions, &mut reader, &mut map) {
            Ok(()) => Ok(Listed {
                map,
                reader,
                writer: writer.into_inner(),
                behind: partition.unflushed(),
            }),
            Err(refused) => Err(refused),
        }
    }
}

/// The partitions of parts, each with its reader and its writer, and their histories.
#[derive(Drop)]
pub(crate) struct ListedPartitions<F: Mergeable, D: Disk> {
    pub partitions: Vec<Unlisted<F, D>>,
    pub histories: Vec<Vec<EntryOf<F>>>,
}

/// Takes parts apart: each partition with its reader and its writer, and the histories, in order. Refused: `NoMemory`.
pub(crate) fn take_apart<F: Mergeable, D: Disk>(
    alloc: Global,
    parts: Vec<EndedPartition<F, D::Receipt>>,
    writers: Vec<Mutex<D::Writer>>,
    readers: Vec<D::Reader>,
) -> Result<ListedPartitions<F, D>, Refused>
    requires writers { length writers.items ≡ length parts.items }
    requires readers { length readers.items ≡ length parts.items }
    ensures partitions { IfOk result (λ parted. map (λ part. part.partition) parted.partitions.items
        ≡ map (λ part. part.partition) parts.items) }
    ensures readers { IfOk result (λ parted. map (λ part. part.reader) parted.partitions.items ≡ readers.items) }
    ensures histories { IfOk result (λ parted. map (λ history. history.items) parted.histories.items
        ≡ map (λ part. part.history.items) parts.items) }
    ensures only { IfErr result (λ refused. refused ≡ Refused.NoMemory) }
{
    let mut partitions = Vec::new(alloc);
    let mut histories = Vec::new(alloc);
    let mut writers = writers.into_iter();
    let mut readers = readers.into_iter();
    for part in parts {
        let Some(reader) = readers.next() else {
            unreachable!();
        };
        let Some(writer) = writers.next() else {
            unreachable!();
        };
        let EndedPartition {
            partition,
            history,
            ..
        } = part;
        let Ok(()) = partitions.push(Unlisted {
            partition,
            reader,
            writer,
        }) else {
            return Err(Refused::NoMemory);
        };
        let Ok(()) = histories.push(history) else {
            return Err(Refused::NoMemory);
        };
    }
    Ok(ListedPartitions {
        partitions,
        histories,
    })
}
