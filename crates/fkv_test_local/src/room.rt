//! The room that a store takes: a log is short after a compaction, and its file is no longer than the log has been.
use crate::beside::{SMALL, name_of};
use fkv_device::{Disk, FileDevice, MemoryDevice};
use fkv_functions::{Refused, SumFns};
use fkv_local::LocalStore;
use fkv_test_devices::UnsureDevice;
use std::alloc::Global;
use std::fs;
use std::test::Fail;

/// So many updates of 40 keys in turn, whose records leave memory in between, so that each appends one. Answers the bytes of the
/// log then, and after a compaction.
fn written<D: Disk>(
    alloc: Global,
    device: D,
    updates: u64,
    keeps_log: bool,
) -> Result<(u64, u64), Refused> {
    let mut device = device;
    let mut store = LocalStore::open(alloc, &SMALL, SumFns, &mut device)?;
    if keeps_log {
        store.keep_log();
    }
    for at in 0..updates {
        let Some(key) = name_of(at % 40) else {
            return Err(Refused::Stalled);
        };
        store.rmw(&key, &1)?;
    }
    let before = store.counts().bytes;
    if !store.compact()? {
        return Err(Refused::NotDue);
    }
    Ok((before, store.counts().bytes))
}

/// Forty records take ten pages, and two pages stand in frames.
const LIVE: u64 = 12 << SMALL.page_bits;

/// By itself a log is cut each time Head has moved 64 pages.
const BY_ITSELF: u64 = 100 << SMALL.page_bits;

/// Each four updates fill a page.
const ALL: u64 = 700 << SMALL.page_bits;

/// The updates, whether the log is kept for compactions on call, and how long it has to be before that one, at least and at most.
const RUNS: [(u64, bool, u64, u64); 3] = [
    (200, true, LIVE, BY_ITSELF),
    (3_000, false, LIVE, BY_ITSELF),
    (3_000, true, ALL, 2 * ALL),
];

/// What left memory before a compaction takes no room after it.
#[test]
fn a_log_is_short_after_a_compaction(rt: HostRuntime) {
    for (updates, keeps_log, least, most) in RUNS {
        let device = MemoryDevice::new(rt.alloc());
        let come = written(rt.alloc(), device, updates, keeps_log);
        let is_right = come.as_ref().is_ok_and(|(before, after)| *before > least
            && *before < most
            && *after <= LIVE);
        assert!(rt; is_right, "{updates}: {come:?}");
    }
}

/// What a compaction comes to of a log of so many upserts of so many keys in turn, by a reader that fails once after so many pages:
/// the bytes that it gives back, and how it was refused.
fn compacted(
    alloc: Global,
    updates: u64,
    keys: u64,
    reads: u64,
) -> Result<(u64, Option<Refused>), Refused> {
    let mut device = UnsureDevice::new(alloc);
    device.reads = reads;
    let mut store = LocalStore::open(alloc, &SMALL, SumFns, &mut device)?;
    store.keep_log();
    for at in 0..updates {
        let Some(key) = at.checked_rem(keys).and_then(name_of) else {
            return Err(Refused::Stalled);
        };
        store.upsert(&key, &1)?;
    }
    let before = store.counts().bytes;
    let refused = store.compact().err();
    let after = store.counts().bytes;
    Ok((before.saturating_sub(after), refused))
}

/// How many upserts of how many keys in turn, and the pages that a compaction of their log reads: each that left memory once where
/// each key's last record stands in memory, else those too that the entries of the keys lead to.
const READ: [(u64, u64, u64); 2] = [(200, 6, 11), (60, 40, 429)];

#[test]
fn pages_that_a_compaction_reads(rt: HostRuntime) {
    for (updates, keys, reads) in READ {
        for fewer in 0..2u64 {
            let come = compacted(rt.alloc(), updates, keys, reads.saturating_sub(fewer));
            let is_right = come
                .as_ref()
                .is_ok_and(|(_, refused)| refused.is_some() == (fewer == 1));
            assert!(rt; is_right, "{keys} {fewer}: {come:?}");
        }
    }
}

/// The pages that are read before a read fails in a compaction of 400 upserts of 40 keys, and the bytes that it gives back, at least:
/// page 0 has 192, and the others 256.
const FAILING: [(u64, u64); 3] = [(20, 0), (60, 192), (195, 1_216)];

/// What is cleared before a read fails is given back.
#[test]
fn a_compaction_that_fails_cuts(rt: HostRuntime) {
    for (reads, least) in FAILING {
        let come = compacted(rt.alloc(), 400, 40, reads);
        let is_right = come.as_ref().is_ok_and(|(given, refused)| *given >= least
            && matches!(refused, Some(Refused::Device { code: 3, .. })));
        assert!(rt; is_right, "{reads}: {come:?}");
    }
}

/// The places of dropped pages are used again: 1,200 updates write some 300 pages.
#[test]
fn a_file_is_no_longer_than_its_log_has_been(rt: HostRuntime) -> Result<(), Fail> {
    let folder = String::from_str(rt.alloc(), "room_files")?;
    let device = FileDevice::new(rt.clone()?, rt.alloc(), folder, SMALL.page_bits as u32);
    let come = written(rt.alloc(), device, 1_200, false);
    assert!(rt; come.is_ok(), "{come:?}");
    let length = fs::metadata(&rt, "room_files/part-00.log")?.len();
    assert!(rt; length > 0 && length <= BY_ITSELF, "{length}");
    fs::remove_dir_all(&rt, "room_files")?;
    Ok(())
}
