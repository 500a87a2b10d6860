//! Tables of workers whose rows are merges where an update would read a page.
use crate::tables::{LETTERS, LETTERS_TABLE, SMALL, summed, summed_by};
use fkv_device::{FileDevice, MemoryDevice};
use fkv_feeds::RowMode;
use fkv_functions::{Refused, SumFns};
use fkv_histories::{Audited, Plain, Recorder};
use fkv_partition::Config;
use fkv_store::{Gate, KEEPER, Open, Place};
use std::alloc::Global;
use std::fs;
use std::io::Write;
use std::rt::Clock;
use std::sync::Wait;
use std::sync::atomic::{AtomicU64, Ordering};
use std::test::Fail;
use std::thread::Threads;

/// A gate that counts how often a page is read for an operation of a worker. The keeper reads pages too.
#[derive(Drop)]
struct Loads(AtomicU64);

impl Loads {
    fn new() -> Loads {
        Loads(AtomicU64::new(0))
    }

    fn count(&self) -> u64 {
        self.0.load(Ordering::SeqCst)
    }
}

impl Gate for Loads {
    fn pass(&self, worker: u32, place: Place) {
        if worker != KEEPER && place == Place::Load {
            self.0.fetch_add(1, Ordering::SeqCst);
        }
    }
}

/// The text of the table of sums of these feeds, by so many workers over memory, where no row reads a page.
fn merged<H: Recorder<SumFns> + Send, G: Gate + Sync, T: Threads + Wait + Clock + Sync>(
    rt: &T,
    alloc: Global,
    feeds: &[&[u8]],
    workers: usize,
    config: &Config,
    gate: &G,
) -> Result<Vec<u8>, Refused> {
    let device = MemoryDevice::new(alloc);
    let mode = RowMode::Merge;
    summed_by::<H, _, _, _>(rt, alloc, feeds, workers, config, device, gate, mode)
}

/// The letters and t once more, by two workers: an update of a reads a page, and a merge of it reads none.
#[test]
fn letters(rt: HostRuntime) -> Result<(), Fail> {
    let alloc = rt.alloc();
    let feeds: [&[u8]; 2] = [LETTERS, b"t,1\n"];
    let read = Loads::new();
    let updated = summed::<Audited<SumFns>, _, _>(&rt, alloc, &feeds, 2, &SMALL, &read)?;
    assert!(rt; updated.as_slice() == LETTERS_TABLE);
    assert!(rt; read.count() > 0);
    let none = Loads::new();
    let audited = merged::<Audited<SumFns>, _, _>(&rt, alloc, &feeds, 2, &SMALL, &none)?;
    assert!(rt; audited.as_slice() == LETTERS_TABLE);
    let plain = merged::<Plain, _, _>(&rt, alloc, &feeds, 2, &SMALL, &none)?;
    assert!(rt; plain.as_slice() == LETTERS_TABLE);
    assert!(rt; none.count() == 0);
    Ok(())
}

/// Two partitions, 16 buckets, pages of 256 bytes and two frames: most keys are on the device.
const TIGHT: Config = Config {
    id: 1,
    partition_bits: 1,
    bucket_bits: 4,
    page_bits: 8,
    frames: 2,
    turns: 1_000_000,
};

/// Rows 0 to 499, whose keys are k0 to k99 over and over, from this one on, with this amount.
fn fifth(alloc: Global, first: u64, amount: i64) -> Result<Vec<u8>, Fail> {
    let mut text = Vec::new(alloc);
    for row in 0..500u64 {
        writeln!(text, "k{},{amount}", first.saturating_add(row) % 100)?;
    }
    Ok(text)
}

/// Three workers with keys in common, of which each row may be an update or a merge.
#[test]
fn hundred_keys(rt: HostRuntime) -> Result<(), Fail> {
    let alloc = rt.alloc();
    let up = fifth(alloc, 0, 7)?;
    let down = fifth(alloc, 33, -3)?;
    let more = fifth(alloc, 66, 5)?;
    let feeds = [up.as_slice(), down.as_slice(), more.as_slice()];
    let updated = summed::<Audited<SumFns>, _, _>(&rt, alloc, &feeds, 3, &TIGHT, &Open)?;
    let loads = Loads::new();
    let audited = merged::<Audited<SumFns>, _, _>(&rt, alloc, &feeds, 3, &TIGHT, &loads)?;
    assert!(rt; audited.as_slice() == updated.as_slice());
    let plain = merged::<Plain, _, _>(&rt, alloc, &feeds, 3, &TIGHT, &loads)?;
    assert!(rt; plain.as_slice() == updated.as_slice());
    assert!(rt; loads.count() == 0);
    Ok(())
}

/// The letters and t once more, by two workers, over a file.
#[test]
fn merged_files(rt: HostRuntime) -> Result<(), Fail> {
    let alloc = rt.alloc();
    let feeds: [&[u8]; 2] = [LETTERS, b"t,1\n"];
    let folder = String::from_str(alloc, "merged_files/workers")?;
    let device = FileDevice::new(rt.clone()?, alloc, folder, 8);
    let mode = RowMode::Merge;
    let text = summed_by::<Audited<SumFns>, _, _, _>(
        &rt, alloc, &feeds, 2, &SMALL, device, &Open, mode,
    )?;
    assert!(rt; text.as_slice() == LETTERS_TABLE);
    fs::remove_dir_all(&rt, "merged_files")?;
    Ok(())
}
