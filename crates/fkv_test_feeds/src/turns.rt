//! The turns that a row may take.
use fkv_device::MemoryDevice;
use fkv_feeds::run_one;
use fkv_functions::{Refused, SumFns};
use fkv_partition::Config;
use fkv_streams::CountedReader;
use std::alloc::Global;
use std::io::Write;

/// What a run over so many keys, each once, is refused by. There are two frames, of three records and of four.
fn stalled(alloc: Global, keys: u64, turns: u64) -> Option<Refused> {
    let config = Config {
        id: 1,
        partition_bits: 0,
        bucket_bits: 10,
        page_bits: 8,
        frames: 2,
        turns,
    };
    let mut feed = Vec::new(alloc);
    for key in 0..keys {
        let Ok(()) = writeln!(feed, "k{key},1") else {
            return Some(Refused::NoMemory);
        };
    }
    let mut readers = [CountedReader::new(feed.as_slice())];
    let device = MemoryDevice::new(alloc);
    run_one(alloc, readers.as_mut_slice(), SumFns, &config, device).err()
}

/// Keys, each once, and turns. The eighth key begins a page whose frame is to be emptied first: its row waits for one turn, in
/// which pages move, and is done then; so does each that begins a page.
const TURNS: [(u64, u64); 5] = [(0, 1), (1, 1), (8, 1), (100, 1), (1_000, 2)];

#[test]
fn turns(rt: HostRuntime) {
    for (keys, turns) in TURNS {
        let come = stalled(rt.alloc(), keys, turns);
        assert!(rt; come.is_none(), "{keys} {turns}");
    }
}
