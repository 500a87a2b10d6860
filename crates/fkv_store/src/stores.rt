//! A store, its beginning, and its passes.
ghost use Rattle.std.specs.Prelude.{◌≡◌, ◌≢◌, ◌<◌, ◌*◌, ◌^◌, ◌⊎◌, ℕ, [], length, replicate, None, Err, IfOk, IfErr};
ghost use Rattle.fkv_records.specs.Records.{size_of};
ghost use Rattle.fkv_partition.specs.Views.{partition_of};
ghost use Rattle.fkv_partition.specs.Limits.{IsWithinLimits};
ghost use Rattle.fkv_device.specs.Failing.{FailsOnlyBy};
ghost use Rattle.fkv_store.specs.Stores.{AreReaders, IsUnopened};

use crate::holds::Turned;
use crate::passes::Pass;
use crate::running::SeenMoves;
use fkv_device::Disk;
use fkv_functions::{Functions, Mergeable, Refused};
use fkv_histories::Recorder;
use fkv_locked::{Locked, Owns, SessionId};
use fkv_operations::partition_at;
use fkv_partition::Config;
use std::alloc::Global;
use std::marker::Model;
use std::sync::atomic::{AtomicU64, Ordering};
use std::sync::{Mutex, Wait};

/// A store that callers share: each partition under a lock of its own, and each writer of a partition's pages.
#[derive(Drop)]
pub struct Store<F: Mergeable, D: Disk, H: Recorder<F>> {
    pub(crate) id: u64,
    pub(crate) turns: u64,
    pub(crate) frames: u64,
    pub(crate) page_size: usize,
    pub(crate) functions: F,
    pub(crate) device: Mutex<D>,
    pub(crate) writers: Vec<Mutex<D::Writer>>,
    pub(crate) locks: Vec<Mutex<Locked<F, D::Receipt, H>>>,
    /// For each partition how often its pages were moved: a session that was refreshed since the last time sees all that moved.
    pub(crate) moves: Vec<AtomicU64>,
    /// How often pages of any partition were moved, so that who is to look whether some were reads one number.
    pub(crate) moves_of_any: AtomicU64,
}

impl<F: Mergeable, D: Disk, H: Recorder<F>> Model for Store<F, D, H> {
    ghost use Rattle.std.specs.Prelude.{◌≡◌, ◌^◌, ℕ, length};
    ghost use Rattle.fkv_store.specs.Stores.{StoreView};

    ghost Value = { StoreView };

    ghost view = { λ s. record { id = s.id; count = length s.locks.items; turns = s.turns } };

    ghost invariant = { λ s. (length s.writers.items ≡ length s.locks.items)
        × (length s.moves.items ≡ length s.locks.items)
        × ((bits : ℕ) × (length s.locks.items ≡ 2 ^ bits)) };
}

/// The locked partitions of a store, with nothing in them, and the writers of their pages.
#[derive(Drop)]
struct EmptyPartitions<F: Mergeable, D: Disk, H: Recorder<F>> {
    writers: Vec<Mutex<D::Writer>>,
    locks: Vec<Mutex<Locked<F, D::Receipt, H>>>,
    moves: Vec<AtomicU64>,
}

/// So many locked partitions, with nothing in them, and the writers of their pages. Refused: `NoMemory`, and as the device
/// refuses to open.
fn open_all<F: Mergeable, D: Disk, H: Recorder<F>>(
    alloc: Global,
    config: &Config,
    device: &mut D,
    count: u64,
) -> Result<EmptyPartitions<F, D, H>, Refused>
    requires limits { IsWithinLimits config.now (size_of F.Key.SIZE F.Value.SIZE) }
    requires count { count ≡ 2 ^ config.now.partition_bits }
    ensures locks { IfOk result (λ opened. length opened.locks.items ≡ count) }
    ensures writers { IfOk result (λ opened. length opened.writers.items ≡ count) }
    ensures moves { IfOk result (λ opened. length opened.moves.items ≡ count) }
    ensures only { IfErr result (FailsOnlyBy 1 0 (D.failures device.old) (D.failures device.new)) }
{
    let mut writers = Vec::new(alloc);
    let mut locks = Vec::new(alloc);
    let mut moves = Vec::new(alloc);
    for number in 0..count {
        let locked = match Locked::<F, D::Receipt, H>::new(alloc, config, number) {
            Ok(locked) => locked,
            Err(refused) => return Err(refused),
        };
        let writer = match device.writer(number) {
            Ok(writer) => writer,
            Err(refused) => return Err(refused),
        };
        let Ok(()) = writers.push(Mutex::new(writer)) else {
            return Err(Refused::NoMemory);
        };
        let Ok(()) = locks.push(Mutex::new(locked)) else {
            return Err(Refused::NoMemory);
        };
        let Ok(()) = moves.push(AtomicU64::new(0)) else {
            return Err(Refused::NoMemory);
        };
    }
    Ok(EmptyPartitions {
        writers,
        locks,
        moves,
    })
}

/// A reader of the pages of each of so many partitions. Refused: `NoMemory`, and as the device refuses to open.
pub(crate) fn readers_of<D: Disk>(
    alloc: Global,
    device: &mut D,
    count: usize,
) -> Result<Vec<D::Reader>, Refused>
    ensures ok { IfOk result (λ readers. length readers.items ≡ count) }
    ensures places { IfOk result (λ readers. AreReaders D.Reader.part readers.items) }
    ensures only { IfErr result IsUnopened }
{
    let mut readers = Vec::new(alloc);
    for number in 0..count {
        let reader = match device.reader(number as u64) {
            Ok(reader) => reader,
            Err(refused) => return Err(refused),
        };
        let Ok(()) = readers.push(reader) else {
            return Err(Refused::NoMemory);
        };
    }
    Ok(readers)
}

/// So many zeros. Refused: `NoMemory`.
fn zeros(alloc: Global, count: usize) -> Result<Vec<u64>, Refused>
    ensures ok { IfOk result (λ told. told.items ≡ replicate count 0) }
    ensures only { IfErr result (λ refused. refused ≡ Refused.NoMemory) }
{
    let Ok(told) = vec![in alloc; 0u64; count] else {
        return Err(Refused::NoMemory);
    };
    Ok(told)
}

/// No session, for each of so many partitions. Refused: `NoMemory`.
fn no_sessions(alloc: Global, count: usize) -> Result<Vec<Option<SessionId>>, Refused>
    ensures ok { IfOk result (λ sessions. sessions.items ≡ replicate count None) }
    ensures only { IfErr result (λ refused. refused ≡ Refused.NoMemory) }
{
    let Ok(sessions) = vec![in alloc; None; count] else {
        return Err(Refused::NoMemory);
    };
    Ok(sessions)
}

impl<F: Mergeable, D: Disk, H: Recorder<F>> Store<F, D, H> {
    /// A store of this configuration with nothing in it, whose pages go to this device. It is known by the configuration's `id`, and
    /// by nothing else: two stores that are opened with one configuration take each other's passes and marks.
    ///
    /// # Errors
    ///
    /// In this order: `BadConfig` where a number of the configuration is outside its limits or a record is too large;
    /// `NoMemory`; `Device` with code 1 where the device does not open a partition's pages.
    pub fn open(
        alloc: Global,
        config: &Config,
        functions: F,
        device: D,
    ) -> Result<Store<F, D, H>, Refused>
        ensures ok { IfOk result (λ store. store
            ≡ record { id = config.now.id; count = 2 ^ config.now.partition_bits; turns = config.now.turns }) }
        ensures good { result ≢ Err Refused.BadConfig → IsWithinLimits config.now (size_of F.Key.SIZE F.Value.SIZE) }
        ensures bad { result ≡ Err Refused.BadConfig → ¬ IsWithinLimits config.now (size_of F.Key.SIZE F.Value.SIZE) }
        ensures only { IfErr result (λ refused. (refused ≡ Refused.BadConfig)
            ⊎ ((failures : ℕ) × FailsOnlyBy 1 0 (D.failures device) failures refused)) }
    {
        if !config.is_within_limits::<F::Key, F::Value>() {
            return Err(Refused::BadConfig);
        }
        let mut device = device;
        let opened = match open_all::<F, D, H>(alloc, config, &mut device, config.partitions()) {
            Ok(opened) => opened,
            Err(refused) => return Err(refused),
        };
        let EmptyPartitions {
            writers,
            locks,
            moves,
        } = opened;
        Ok(Store {
            id: config.id,
            turns: config.turns,
            frames: config.frames,
            page_size: 1 << config.page_bits,
            functions,
            device: Mutex::new(device),
            writers,
            locks,
            moves,
            moves_of_any: AtomicU64::new(0),
        })
    }

    /// How many partitions the store has.
    pub fn partitions(&self) -> usize
        ensures { result ≡ self.now.count }
    {
        self.locks.len()
    }

    /// How often the pages of a partition were moved.
    pub(crate) fn moves_of(&self, partition: usize) -> u64
        requires { partition < self.now.count }
    {
        self.moves[partition].load(Ordering::SeqCst)
    }

    /// How often the pages of any partition were moved.
    pub(crate) fn moves_of_any(&self) -> u64 {
        self.moves_of_any.load(Ordering::SeqCst)
    }

    /// Tells sessions that pages of a partition were moved.
    pub(crate) fn tell_move(&self, partition: usize)
        requires { partition < self.now.count }
    {
        let _before = self.moves[partition].fetch_add(1, Ordering::SeqCst);
        let _of_any = self.moves_of_any.fetch_add(1, Ordering::SeqCst);
    }

    /// The partition of a key.
    pub fn home(&self, key: &F::Key) -> usize
        ensures value { result ≡ partition_of self.now.count (F.code key.now) }
        ensures within { result < self.now.count }
    {
        let count = self.locks.len() as u64;
        partition_at(self.functions.hash(key), count) as usize
    }

    /// A pass for a caller, who has this number at gates. It was answered nothing, and has no session yet. Any store with the same `id`
    /// and as many partitions takes it for one of its own.
    ///
    /// # Errors
    ///
    /// `NoMemory`; `Device` with code 1 where the device does not open a partition's pages.
    pub fn pass(&self, rt: &impl Wait, alloc: Global, worker: u32) -> Result<Pass<F, D, H>, Refused>
        ensures ok { IfOk result (λ pass. pass ≡ record {
          store = self.now.id;
          own = replicate self.now.count [];
          told = replicate self.now.count 0;
          share = 0;
          last = None;
          turned = 0;
          missed = 0;
          reads = pass.reads;
        }) }
        ensures reads { IfOk result (λ pass. length pass.reads ≡ self.now.count) }
        ensures only { IfErr result IsUnopened }
    {
        let count = self.locks.len();
        let readers = match self.readers(rt, alloc, count) {
            Ok(readers) => readers,
            Err(refused) => return Err(refused),
        };
        let owns = match Owns::fresh(alloc, count) {
            Ok(owns) => owns,
            Err(refused) => return Err(refused),
        };
        let sessions = match no_sessions(alloc, count) {
            Ok(sessions) => sessions,
            Err(refused) => return Err(refused),
        };
        let each = match zeros(alloc, count) {
            Ok(each) => each,
            Err(refused) => return Err(refused),
        };
        Ok(Pass {
            store: self.id,
            worker,
            owns,
            sessions,
            seen: SeenMoves { any: 0, each },
            readers,
            answered: 0,
            turned: Turned::none(),
        })
    }

    /// A reader of the pages of each of so many partitions. Refused: `NoMemory`, and as the device refuses to open.
    fn readers(
        &self,
        rt: &impl Wait,
        alloc: Global,
        count: usize,
    ) -> Result<Vec<D::Reader>, Refused>
        ensures ok { IfOk result (λ readers. length readers.items ≡ count) }
        ensures only { IfErr result IsUnopened }
    {
        let mut device = self.device.lock(rt);
        readers_of(alloc, &mut *device, count)
    }
}
