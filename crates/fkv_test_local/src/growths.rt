//! Operations of which each that is refused memory is made again: the store is the map that it was, so all is answered as with
//! memory. `bench/refuse_growths` runs this with each allocation refused in turn.
use crate::beside::{SMALL, name_of};
use fkv_device::MemoryDevice;
use fkv_functions::{Name, Refused, SumFns};
use fkv_local::{Listing, LocalStore};
use fkv_operations::{Answer, KeyedOp, KeyedOpOf};
use std::alloc::Global;

/// What is done to a key of this number.
#[derive(Clone, Copy)]
enum Call {
    Read(u64),
    Upsert(u64, i128),
    Rmw(u64, i64),
    Delete(u64),
    Merge(u64, i64),
}

/// Nine keys fill two pages of two frames, so that the first ones leave memory.
const ROWS: [(Call, Answer<i128>); 17] = [
    (Call::Rmw(1, 5), Answer::Value(5)),
    (Call::Upsert(2, 7), Answer::Stored),
    (Call::Rmw(3, 1), Answer::Value(1)),
    (Call::Rmw(4, 1), Answer::Value(1)),
    (Call::Rmw(5, 1), Answer::Value(1)),
    (Call::Rmw(6, 1), Answer::Value(1)),
    (Call::Rmw(7, 1), Answer::Value(1)),
    (Call::Rmw(8, 1), Answer::Value(1)),
    (Call::Rmw(9, 1), Answer::Value(1)),
    (Call::Read(1), Answer::Value(5)),
    (Call::Rmw(1, 2), Answer::Value(7)),
    (Call::Merge(2, 3), Answer::Stored),
    (Call::Read(2), Answer::Value(10)),
    (Call::Delete(3), Answer::Deleted),
    (Call::Read(3), Answer::Absent),
    (Call::Rmw(9, 4), Answer::Value(5)),
    (Call::Rmw(4, 1), Answer::Value(2)),
];

/// The values of the keys at the end, keys rising.
const LIVE: [(u64, i128); 8] = [
    (1, 7),
    (2, 10),
    (4, 2),
    (5, 1),
    (6, 1),
    (7, 1),
    (8, 1),
    (9, 5),
];

fn op_of(call: Call) -> Option<KeyedOpOf<SumFns>> {
    Some(match call {
        Call::Read(key) => KeyedOp::Read(name_of(key)?, 0),
        Call::Upsert(key, value) => KeyedOp::Upsert(name_of(key)?, value),
        Call::Rmw(key, input) => KeyedOp::Rmw(name_of(key)?, input),
        Call::Delete(key) => KeyedOp::Delete(name_of(key)?),
        Call::Merge(key, input) => KeyedOp::Merge(name_of(key)?, input),
    })
}

/// Whether the store is the map of the end, as its map and, compacted, as the list that it ends in.
fn is_live(mut store: LocalStore<SumFns, MemoryDevice>) -> bool {
    let compacted = match store.compact() {
        Err(Refused::NoMemory) => store.compact(),
        compacted => compacted,
    };
    let live = match store.live() {
        Err(Refused::NoMemory) => store.live(),
        live => live,
    };
    let Ok(live) = live else {
        return false;
    };
    compacted.is_ok()
        && is_listed(store.into_lists())
        && live.len() == LIVE.len()
        && live.iter().zip(LIVE).all(|((key, value), (number, held))| is_key(key, number)
            && *value == held)
}

/// Whether these lists are one of the map of the end, and that there is none behind it.
fn is_listed(mut lists: Listing<SumFns, MemoryDevice>) -> bool {
    let list = match lists.next() {
        Err(Refused::NoMemory) => lists.next(),
        list => list,
    };
    let Ok(Some(list)) = list else {
        return false;
    };
    matches!(lists.next(), Ok(None))
        && list.len() == LIVE.len()
        && list.iter().zip(LIVE).all(|((key, value), (number, held))| is_key(key, number)
            && *value == held)
}

fn is_key(key: &Name, number: u64) -> bool {
    name_of(number).as_ref() == Some(key)
}

/// The number of the first row that is answered otherwise, that of all rows where the map at the end is another, and none where
/// all is as wanted.
fn first_wrong(alloc: Global) -> Option<usize> {
    let opened = match LocalStore::open(alloc, &SMALL, SumFns, &mut MemoryDevice::new(alloc)) {
        Err(Refused::NoMemory) => LocalStore::open(
            alloc,
            &SMALL,
            SumFns,
            &mut MemoryDevice::new(alloc),
        ),
        opened => opened,
    };
    let Ok(mut store) = opened else {
        return Some(0);
    };
    for (at, (call, wanted)) in ROWS.iter().enumerate() {
        let Some(op) = op_of(*call) else {
            return Some(at);
        };
        let answer = match store.run(op) {
            Err(Refused::NoMemory) => store.run(op),
            answer => answer,
        };
        if answer != Ok(*wanted) {
            return Some(at);
        }
    }
    if is_live(store) {
        None
    } else {
        Some(ROWS.len())
    }
}

#[test]
fn refused_growths_of_a_store(rt: HostRuntime) {
    let wrong = first_wrong(rt.alloc());
    assert!(rt; wrong == None, "row {wrong:?}");
}
