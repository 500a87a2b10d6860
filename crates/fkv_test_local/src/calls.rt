//! Single calls: what is counted, what is refused for good, and a log that is compacted by itself.
use crate::beside::{SMALL, name_of};
use fkv_device::MemoryDevice;
use fkv_functions::{CappedSumFns, Name, Refused, SumFns};
use fkv_local::LocalStore;
use fkv_operations::Answer;
use fkv_partition::Config;
use fkv_test_devices::UnsureDevice;
use std::alloc::Global;

/// A store of sums in memory.
type Sums = LocalStore<SumFns, MemoryDevice>;

fn opened(alloc: Global, config: &Config) -> Result<Sums, Refused> {
    LocalStore::open(alloc, config, SumFns, &mut MemoryDevice::new(alloc))
}

/// Configurations outside their limits.
const BAD: [Config; 6] = [
    Config {
        partition_bits: 7,
        ..SMALL
    },
    Config {
        bucket_bits: 21,
        ..SMALL
    },
    Config {
        page_bits: 7,
        ..SMALL
    },
    Config {
        page_bits: 21,
        ..SMALL
    },
    Config { frames: 1, ..SMALL },
    Config { turns: 0, ..SMALL },
];

#[test]
fn bad_configurations(rt: HostRuntime) {
    for config in BAD {
        let refused = opened(rt.alloc(), &config).err();
        assert!(rt; refused == Some(Refused::BadConfig), "{config:?}");
    }
}

/// The answers to two updates, a read, a delete, a read and two updates that may be merges, of one key.
fn answers(alloc: Global, key: Name) -> Result<[Answer<i128>; 7], Refused> {
    let mut store = opened(alloc, &SMALL)?;
    Ok([
        store.rmw(&key, &12)?,
        store.rmw(&key, &-2)?,
        store.read(&key, &0)?,
        store.delete(&key)?,
        store.read(&key, &0)?,
        store.update_or_merge(&key, &5)?,
        store.update_or_merge(&key, &4)?,
    ])
}

/// None of them needs a page, so no update is a merge.
const ANSWERS: [Answer<i128>; 7] = [
    Answer::Value(12),
    Answer::Value(10),
    Answer::Value(10),
    Answer::Deleted,
    Answer::Absent,
    Answer::Value(5),
    Answer::Value(9),
];

/// What a merge is refused by of functions that don't merge, and what an update is answered then.
fn merged(alloc: Global, key: Name) -> Result<(Option<Refused>, Answer<i128>), Refused> {
    let mut store = LocalStore::open(alloc, &SMALL, CappedSumFns, &mut MemoryDevice::new(alloc))?;
    Ok((store.merge(&key, &5).err(), store.rmw(&key, &7)?))
}

/// Writes twenty new keys to a store in which an operation may wait for one turn. The record of the eighth begins a page whose frame
/// is to be emptied first: it waits, pages move, and it is done at its next try, and so on.
fn waiting(alloc: Global) -> Result<u64, Refused> {
    let config = Config { turns: 1, ..SMALL };
    let mut store = opened(alloc, &config)?;
    let mut taken = 0u64;
    for number in 0..20u64 {
        let Some(key) = name_of(number) else {
            return Err(Refused::Stalled);
        };
        if store.rmw(&key, &1)? == Answer::Value(1) {
            taken = taken.saturating_add(1);
        }
    }
    Ok(taken)
}

/// The bytes of a log, those below Head, its records, and the pairs of the map at the end of so many updates of three keys.
fn counted(alloc: Global, updates: u64) -> Result<(u64, u64, u64, usize), Refused> {
    let mut store = opened(alloc, &SMALL)?;
    for at in 0..updates {
        let Some(key) = name_of(at % 3) else {
            return Err(Refused::Stalled);
        };
        // of ever new values, each where the key's last one stands
        store.upsert(&key, &i128::from(at))?;
    }
    let counts = store.counts();
    Ok((
        counts.bytes,
        counts.evicted,
        counts.records,
        store.into_map()?.len(),
    ))
}

/// Numbers of updates, and what is counted: the first record stands at 64, and each has 56 bytes, so that the fourth stands at 256,
/// where the next page begins. Before the 64th update all below that page is frozen, written and evicted, so each key has one more
/// record there, which changes in place from then on: the tail stands at 424.
const COUNTED: [(u64, (u64, u64, u64, usize)); 3] = [
    (0, (0, 0, 0, 0)),
    (3, (256 - 64, 0, 3, 3)),
    (600, (424 - 64, 256 - 64, 6, 3)),
];

#[test]
fn single_calls(rt: HostRuntime) {
    let key = name_of(0).expect(&rt, "a name of five bytes");
    assert!(rt; answers(rt.alloc(), key) == Ok(ANSWERS));
    assert!(rt; merged(rt.alloc(), key) == Ok((Some(Refused::NoMerge), Answer::Value(7))));
    assert!(rt; waiting(rt.alloc()) == Ok(20));
    for (updates, wanted) in COUNTED {
        let come = counted(rt.alloc(), updates);
        assert!(rt; come == Ok(wanted), "{updates}: {come:?}");
    }
}

/// How many of twenty keys are in each of four lists, from the first one on, where that of a place is left out.
fn listed(alloc: Global, left_out: usize) -> Result<[usize; 4], Refused> {
    let config = Config {
        partition_bits: 2,
        ..SMALL
    };
    let mut store = opened(alloc, &config)?;
    for number in 0..20u64 {
        let Some(key) = name_of(number) else {
            return Err(Refused::Stalled);
        };
        store.rmw(&key, &1)?;
    }
    let mut lists = store.into_lists();
    let mut counts = [0; 4];
    for _list in 0..lists.len() {
        let place = lists.len().saturating_sub(1);
        if place == left_out {
            lists.skip();
        } else if let Some(list) = lists.next()? {
            if let Some(count) = counts.get_mut(place) {
                *count = list.len();
            }
        }
    }
    Ok(counts)
}

/// Whether lists have these counts, but that of a place, which was left out.
fn is_without(come: &[usize; 4], all: &[usize; 4], place: usize) -> bool {
    come.iter().zip(all).enumerate().all(|(at, (come, all))| if at == place {
        *come == 0
    } else {
        come == all
    })
}

/// Each list is the same where another one is left out, and that one is none; all have the twenty keys.
#[test]
fn lists_that_are_left_out(rt: HostRuntime) {
    let all = listed(rt.alloc(), 4).expect(&rt, "memory");
    let sum = all
        .iter()
        .fold(0usize, |sum, count| sum.saturating_add(*count));
    assert!(rt; sum == 20, "{all:?}");
    for place in 0..4usize {
        let come = listed(rt.alloc(), place).expect(&rt, "memory");
        assert!(rt; is_without(&come, &all, place), "{place}: {come:?}");
    }
}

/// The first refusal where twenty keys are written to a store whose device takes so many pages, if any is refused.
fn refused(alloc: Global, pages: u64) -> Option<Refused> {
    let mut device = UnsureDevice::new(alloc);
    device.writes = pages;
    let mut store = match LocalStore::open(alloc, &SMALL, SumFns, &mut device) {
        Ok(store) => store,
        Err(refused) => return Some(refused),
    };
    for number in 0..20u64 {
        let Some(key) = name_of(number) else {
            return Some(Refused::Stalled);
        };
        if let Err(refused) = store.upsert(&key, &1) {
            return Some(refused);
        }
    }
    None
}

/// Nineteen records fill five pages, of three and four times four. The last key's begins the sixth, and only the page before that
/// is in memory then too.
#[test]
fn each_page_is_written_once(rt: HostRuntime) {
    assert!(rt; refused(rt.alloc(), 5) == None);
    let fourth = Refused::Device { code: 2, page: 3 };
    assert!(rt; refused(rt.alloc(), 3) == Some(fourth));
}

/// How many pages a list of nineteen keys may take, if it is made: its reader fails after so many.
fn is_listed(alloc: Global, reads: u64) -> Result<bool, Refused> {
    let mut device = UnsureDevice::new(alloc);
    device.reads = reads;
    let mut store = LocalStore::open(alloc, &SMALL, SumFns, &mut device)?;
    for number in 0..19u64 {
        let Some(key) = name_of(number) else {
            return Err(Refused::Stalled);
        };
        store.upsert(&key, &1)?;
    }
    Ok(store.into_lists().next().is_ok())
}

/// Four pages left memory, and a list reads each of them.
#[test]
fn each_page_is_read_once_for_a_list(rt: HostRuntime) {
    for reads in 0..9u64 {
        let come = is_listed(rt.alloc(), reads);
        assert!(rt; come == Ok(reads >= 4), "{reads}: {come:?}");
    }
}

/// The bytes and the records of a log after so many updates of 40 keys in turn, whose records leave memory in between, so that each
/// appends one.
fn held(alloc: Global, updates: u64) -> Result<(u64, u64), Refused> {
    let mut store = opened(alloc, &SMALL)?;
    for at in 0..updates {
        let Some(key) = name_of(at % 40) else {
            return Err(Refused::Stalled);
        };
        store.rmw(&key, &1)?;
    }
    let counts = store.counts();
    Ok((counts.bytes, counts.records))
}

/// Some 750 pages are written in these updates; by itself the log is cut each time Head has moved 64 of them, and not more often: of
/// the records that live each time, some 40, few are appended again.
#[test]
fn a_log_is_compacted_by_itself(rt: HostRuntime) {
    let held = held(rt.alloc(), 3_000);
    assert!(rt;
        held.is_ok_and(|(bytes, records)| bytes < 100 << SMALL.page_bits && records < 3_600),
        "{held:?}"
    );
}
