//! How much a run did.
use fkv_device::MemoryDevice;
use fkv_feeds::{RunCounts, run_one};
use fkv_functions::{CappedSumFns, Mergeable, Name};
use fkv_partition::Config;
use fkv_streams::CountedReader;
use std::alloc::Global;

/// One partition, with two frames of four records at most.
const TIGHT: Config = Config {
    id: 1,
    partition_bits: 0,
    bucket_bits: 10,
    page_bits: 8,
    frames: 2,
    turns: 1_000_000,
};

/// Four partitions, with room for all records.
const ROOMY: Config = Config {
    partition_bits: 2,
    page_bits: 16,
    frames: 4,
    ..TIGHT
};

/// What a run over these feeds did.
fn counted<F: Mergeable<Key = Name, Input = i64>>(
    alloc: Global,
    functions: F,
    feeds: &[&str],
    config: &Config,
) -> Option<RunCounts> {
    let mut readers = Vec::new(alloc);
    for feed in feeds {
        if readers.push(CountedReader::new(feed.as_bytes())).is_err() {
            return None;
        }
    }
    let device = MemoryDevice::new(alloc);
    match run_one(alloc, readers.as_mut_slice(), functions, config, device) {
        Ok(run) => Some(run.counts),
        Err(_) => None,
    }
}

/// Keys a to t, each once, and a again.
const TWENTY: &str =
    "a,1\nb,1\nc,1\nd,1\ne,1\nf,1\ng,1\nh,1\ni,1\nj,1\nk,1\nl,1\nm,1\nn,1\no,1\np,1\nq,1\nr,1\ns,1\nt,1\na,1\n";

/// Feeds, the configuration, the rows, and the records: one for each key, and one for each update of a key whose record
/// may not be changed where it stands. A declined row appends none.
const COUNTS: [(&[&str], Config, u64, u64); 8] = [
    (&[""], ROOMY, 0, 0),
    (&["a,5\nb,7\na,-2\n"], ROOMY, 3, 2),
    (&["b,1", "a,2\nb,3", ""], ROOMY, 3, 2),
    (&["a,-1\n", "a,1\n"], ROOMY, 2, 1),
    (&[TWENTY], ROOMY, 21, 20),
    // three records fill the first page, and each page after it has four
    (&["a,1\nb,1\nc,1\nd,1\na,1\n"], TIGHT, 5, 4),
    (&[TWENTY], TIGHT, 21, 21),
    (&[TWENTY, TWENTY], TIGHT, 42, 41),
];

#[test]
fn counts(rt: HostRuntime) {
    for (feeds, config, rows, appended) in COUNTS {
        let come = counted(rt.alloc(), CappedSumFns, feeds, &config);
        assert!(rt;
            come == Some(RunCounts {
                rows,
                appended: Some(appended)
            }),
            "{rows} {appended}"
        );
    }
}
