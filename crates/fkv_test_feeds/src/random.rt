//! Random feeds beside a plain fold.
use fkv_device::MemoryDevice;
use fkv_feeds::{RowMode, run_alone_by, write_table};
use fkv_functions::{Refused, SumFns};
use fkv_partition::Config;
use fkv_streams::{CountedReader, CountedWriter};
use rand_core::{Rng, SeedableRng};
use rand_xoshiro::Xoshiro256PlusPlus;
use std::alloc::Global;
use std::collections::BTreeMap;
use std::io::Write;

/// Few buckets and small pages, so that classes have many keys and pages fill.
pub(crate) const CONFIG: Config = Config {
    id: 1,
    partition_bits: 2,
    bucket_bits: 1,
    page_bits: 8,
    frames: 2,
    turns: 1_000_000,
};

/// A feed of so many rows over so many keys, and the text of their sums.
pub(crate) fn made(
    alloc: Global,
    seed: u64,
    rows: u64,
    keys: u64,
) -> Result<(Vec<u8>, Vec<u8>), Refused> {
    let mut words = Xoshiro256PlusPlus::seed_from_u64(seed);
    let mut feed = Vec::new(alloc);
    let mut sums = BTreeMap::new(alloc);
    for _row in 0..rows {
        let word = words.next_u64();
        // of as many digits each, so that numbers and texts are ordered alike
        let key = 1_000 + word % keys.clamp(1, 9_000);
        let amount = (word >> 32 & 0xffff) as i64 - 30_000;
        let Ok(()) = writeln!(feed, "k{key},{amount}") else {
            return Err(Refused::NoMemory);
        };
        let sum = sums.get(&key).copied().unwrap_or(0i64);
        if sums.insert(key, sum.wrapping_add(amount)).is_err() {
            return Err(Refused::NoMemory);
        }
    }
    let mut text = Vec::new(alloc);
    for (key, sum) in &sums {
        let Ok(()) = writeln!(text, "k{key},{sum}") else {
            return Err(Refused::NoMemory);
        };
    }
    Ok((feed, text))
}

/// Whether a random feed comes to the plain fold's sums, with its rows in this mode.
fn is_folded(alloc: Global, seed: u64, rows: u64, keys: u64, mode: RowMode) -> bool {
    let Ok((feed, wanted)) = made(alloc, seed, rows, keys) else {
        return false;
    };
    let mut reader = CountedReader::new(feed.as_slice());
    let device = MemoryDevice::new(alloc);
    let Ok(run) = run_alone_by(alloc, &mut reader, SumFns, &CONFIG, device, mode) else {
        return false;
    };
    let mut text = Vec::new(alloc);
    write_table(alloc, &run.table, &mut CountedWriter::new(&mut text)) == Ok(()) && text == wanted
}

/// Rows, and the keys that they are drawn from.
pub(crate) const FEEDS: [(u64, u64); 5] = [(0, 1), (1, 1), (100, 3), (2_000, 50), (3_000, 9_000)];

#[test]
fn random_feeds(rt: HostRuntime) {
    for (rows, keys) in FEEDS {
        for mode in [RowMode::Update, RowMode::Merge] {
            assert!(rt;
                is_folded(rt.alloc(), rows + keys, rows, keys, mode),
                "{rows} {keys} {mode:?}"
            );
        }
    }
}
