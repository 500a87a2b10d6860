//! How much a store holds.
ghost use Rattle.std.specs.Prelude.{◌≡◌, ◌-◌, ◌^◌, min, sum_by, map};
ghost use Rattle.fkv_local.specs.Storing.{log_bytes, evicted_bytes};

use crate::parts::Shard;
use fkv_device::Disk;
use fkv_functions::Mergeable;
use fkv_records::{FIRST, record_size};

/// How much a store holds, all partitions together.
#[derive(Clone, Copy, Debug, PartialEq, Eq)]
pub struct StoreCounts {
    /// The bytes of the logs, from their beginnings to their tails.
    pub bytes: u64,
    /// Those of them that left memory, or are about to: they stand below Head.
    pub evicted: u64,
    /// The records that were appended to the logs, those that a compaction appended again among them.
    pub records: u64,
    /// The moments that were taken: events, and what moved pages.
    pub moments: u64,
}

/// How many bytes logs have, and how many of them below Head; 2^64 - 1 where it would be more.
pub fn held_bytes<F: Mergeable, D: Disk>(shards: &[Shard<F, D>]) -> (u64, u64)
    ensures bytes { result.0 ≡ min (sum_by log_bytes (map (λ shard. shard.part.partition) shards.now)) (2 ^ 64 - 1) }
    ensures evicted { result.1 ≡ min (sum_by evicted_bytes (map (λ shard. shard.part.partition) shards.now)) (2 ^ 64 - 1) }
{
    let mut bytes = 0u64;
    let mut evicted = 0u64;
    for index in 0..shards.len() {
        let part = &shards[index].part;
        let begin = part.partition.begin();
        bytes = bytes.saturating_add(part.partition.tail().saturating_sub(begin));
        evicted = evicted.saturating_add(part.partition.head().saturating_sub(begin));
    }
    (bytes, evicted)
}

/// The records of a log below its tail, where each page and each record has so many bytes. The first record stands at 64,
/// and no record lies in two pages.
fn records_below(tail: u64, page: u64, record: u64) -> u64 {
    let first = tail.min(page).saturating_sub(FIRST);
    let behind = tail.saturating_sub(page);
    let pages = behind.checked_div(page).unwrap_or(0);
    let last = behind.checked_rem(page).unwrap_or(0);
    let in_page = page.checked_div(record).unwrap_or(0);
    let in_first = first.checked_div(record).unwrap_or(0);
    let in_last = last.checked_div(record).unwrap_or(0);
    in_first
        .saturating_add(pages.saturating_mul(in_page))
        .saturating_add(in_last)
}

/// The records that were appended to all logs.
pub fn appended_records<F: Mergeable, D: Disk>(shards: &[Shard<F, D>]) -> u64 {
    let record = record_size::<F::Key, F::Value>().unwrap_or(0) as u64;
    let mut count = 0u64;
    for index in 0..shards.len() {
        let part = &shards[index].part;
        let page = part.partition.page_size() as u64;
        count = count.saturating_add(records_below(part.partition.tail(), page, record));
    }
    count
}
