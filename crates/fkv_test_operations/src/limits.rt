//! Limits.
use fkv_device::MemoryReceipt;
use fkv_functions::{Name, Refused, SumFns};
use fkv_partition::{Config, Partition};
use fkv_worlds::{StepOf, replay};
use std::alloc::Global;

/// The widest limits with these numbers in their place.
fn with(bits: [u64; 3], frames: u64, turns: u64) -> Config {
    Config {
        id: 0,
        partition_bits: bits[0],
        bucket_bits: bits[1],
        page_bits: bits[2],
        frames,
        turns,
    }
}

fn is_taken(alloc: Global, config: &Config, number: u64) -> Result<bool, Refused> {
    match Partition::<SumFns, MemoryReceipt>::new(alloc, config, number) {
        Ok(_) => Ok(true),
        Err(Refused::BadConfig) => Ok(false),
        Err(other) => Err(other),
    }
}

/// Numbers of a configuration and of a partition, and whether they are taken. Frames are made at once, so the highest
/// numbers of page bits and of frames are taken apart: both together would be a gibibyte.
const ROWS: [([u64; 3], u64, u64, u64, bool); 13] = [
    ([0, 8, 8], 2, 1_000_000, 0, true),
    ([0, 8, 8], 2, 1_000_000, 1, false),
    ([6, 20, 20], 2, 1_000_000_000, 63, true),
    ([6, 20, 8], 1024, 1_000_000_000, 63, true),
    ([6, 20, 20], 1024, 1_000_000_000, 64, false),
    ([7, 20, 20], 1024, 1, 0, false),
    ([6, 21, 20], 1024, 1, 0, false),
    ([6, 20, 7], 1024, 1, 0, false),
    ([6, 20, 21], 1024, 1, 0, false),
    ([6, 20, 20], 1, 1, 0, false),
    ([6, 20, 20], 1025, 1, 0, false),
    ([6, 20, 20], 2, 0, 0, false),
    ([6, 20, 20], 2, 1_000_000_001, 0, false),
];

#[test]
fn limits_by_rows(rt: HostRuntime) {
    for (bits, frames, turns, number, good) in ROWS {
        let config = with(bits, frames, turns);
        assert!(rt;
            is_taken(rt.alloc(), &config, number) == Ok(good),
            "{number}"
        );
    }
}

#[test]
fn highest_numbers_are_within_limits(rt: HostRuntime) {
    let config = with([6, 20, 20], 1024, 1_000_000_000);
    assert!(rt; config.is_within_limits::<Name, i128>());
}

#[test]
fn a_replay_has_the_limits(rt: HostRuntime) {
    let steps: [StepOf<SumFns>; 0] = [];
    let bad = replay(rt.alloc(), &with([7, 8, 8], 2, 1_000_000), &SumFns, &steps);
    assert!(rt; bad.is_err_and(|refused| refused == Refused::BadConfig));
}
