//! One partition of a store, with the session that all operations are made in, and its places on a device.
ghost use Rattle.std.specs.Prelude.{◌≡◌, ◌<◌, ◌≤◌, ◌+◌, ◌^◌, ◌∷◌, ◌++◌, [], ℕ, Some, slice_get, map, IfOk, IfErr, OnOk};
ghost use Rattle.fkv_records.specs.Records.{size_of};
ghost use Rattle.fkv_device.specs.Failing.{FailsOnlyBy};
ghost use Rattle.fkv_partition.specs.Limits.{IsWithinLimits, IsPartitionOf};
ghost use Rattle.fkv_local.specs.Resting.{IsSeatedIn, AreNew, AreNumbered};

use fkv_device::Disk;
use fkv_functions::{Mergeable, Refused};
use fkv_partition::{Config, Partition};
use fkv_records::{Address, FIRST};
use std::alloc::Global;

/// The slot of the session in which all operations are made: a partition's first.
pub const SLOT: usize = 0;

/// What holds for every operation of a store.
#[derive(Drop)]
pub struct Terms<F: Mergeable> {
    pub alloc: Global,
    pub functions: F,
    pub config: Config,
    /// Whether logs are compacted on call alone.
    pub keeps_log: bool,
}

/// One partition, with what writes its pages to the device.
#[derive(Drop)]
pub struct PagedPartition<F: Mergeable, D: Disk> {
    pub partition: Partition<F, D::Receipt>,
    pub writer: D::Writer,
    /// The operations that came here, as far as a byte counts.
    pub operations: u8,
    /// Where the log ended as pages were moved on for such an operation last.
    pub tidied: Address,
    /// Head as the log was compacted last, and the bytes that were left below it.
    pub compacted: Address,
    pub left: u64,
}

/// A part of a store: one partition, with what writes its pages and what reads them back.
#[derive(Drop)]
pub struct Shard<F: Mergeable, D: Disk> {
    pub part: PagedPartition<F, D>,
    pub reader: D::Reader,
}

/// The partition of this number, with nothing in it but a session, whose slot is 0. Refused: `NoMemory`.
fn seated<F: Mergeable, D: Disk>(
    alloc: Global,
    config: &Config,
    number: u64,
) -> Result<Partition<F, D::Receipt>, Refused>
    requires small { number < 64 }
    requires of { IsPartitionOf config.now (size_of F.Key.SIZE F.Value.SIZE) number }
    ensures ok { IfOk result (IsSeatedIn F.Key.cmp config.now number) }
    ensures only { IfErr result (λ refused. refused ≡ Refused.NoMemory) }
{
    let mut partition = match Partition::new(alloc, config, number) {
        Ok(partition) => partition,
        Err(refused) => return Err(refused),
    };
    match partition.enter(number + 1) {
        Ok(_) => Ok(partition),
        Err(refused) => Err(refused),
    }
}

/// The partition of this number, as [`seated`] makes it, with its place on a device. Refused: `NoMemory`, and as the
/// device refuses to open.
fn placed<F: Mergeable, D: Disk>(
    alloc: Global,
    config: &Config,
    device: &mut D,
    number: u64,
) -> Result<Shard<F, D>, Refused>
    requires small { number < 64 }
    requires of { IsPartitionOf config.now (size_of F.Key.SIZE F.Value.SIZE) number }
    ensures ok { IfOk result (λ shard. IsSeatedIn F.Key.cmp config.now number shard.part.partition) }
    ensures unused { IfOk result (λ shard. D.Writer.next shard.part.writer ≡ 0) }
    ensures places { IfOk result
        (λ shard. (D.Writer.part shard.part.writer ≡ number) × (D.Reader.part shard.reader ≡ number)) }
    ensures steady { OnOk result (D.failures device.new ≡ D.failures device.old) }
    ensures told { IfErr result (FailsOnlyBy 1 0 (D.failures device.old) (D.failures device.new)) }
{
    let partition = match seated::<F, D>(alloc, config, number) {
        Ok(partition) => partition,
        Err(refused) => return Err(refused),
    };
    let writer = match device.writer(number) {
        Ok(writer) => writer,
        Err(refused) => return Err(refused),
    };
    match device.reader(number) {
        Ok(reader) => Ok(Shard {
            part: PagedPartition {
                partition,
                writer,
                operations: 0,
                tidied: 0,
                compacted: FIRST,
                left: 0,
            },
            reader,
        }),
        Err(refused) => Err(refused),
    }
}

/// Adds an item. Refused: `NoMemory`.
fn keep<T: Drop>(items: &mut Vec<T>, item: T) -> Result<(), Refused>
    ensures ok { OnOk result (items.new.items ≡ items.old.items ++ item ∷ []) }
    ensures only { IfErr result (λ refused. refused ≡ Refused.NoMemory) }
{
    match items.push(item) {
        Ok(()) => Ok(()),
        Err(_) => Err(Refused::NoMemory),
    }
}

/// Partitions with nothing in them but a session in each, whose slot is 0, with their places on a device. Refused:
/// `NoMemory`, and as the device refuses to open.
pub fn all_placed<F: Mergeable, D: Disk>(
    alloc: Global,
    config: &Config,
    device: &mut D,
    count: u64,
) -> Result<Vec<Shard<F, D>>, Refused>
    requires limits { IsWithinLimits config.now (size_of F.Key.SIZE F.Value.SIZE) }
    requires count { count ≡ 2 ^ config.now.partition_bits }
    ensures ok { IfOk result
        (λ shards. AreNew F.Key.cmp config.now (map (λ shard. shard.part.partition) shards.items) count) }
    ensures unused { IfOk result (λ shards. AreNumbered D.Writer.next (map (λ shard. shard.part.writer) shards.items) 0) }
    ensures steady { OnOk result (D.failures device.new ≡ D.failures device.old) }
    ensures told { IfErr result (FailsOnlyBy 1 0 (D.failures device.old) (D.failures device.new)) }
{
    let mut shards = Vec::new(alloc);
    for number in 0..count {
        let shard = match placed::<F, D>(alloc, config, device, number) {
            Ok(shard) => shard,
            Err(refused) => return Err(refused),
        };
        match keep(&mut shards, shard) {
            Ok(()) => {}
            Err(refused) => return Err(refused),
        }
    }
    Ok(shards)
}
