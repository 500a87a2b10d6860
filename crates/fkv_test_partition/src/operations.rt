//! Runs of operations beside pages that are flushed and leave their frames, on two frames.
use crate::calls::{Call, Row, Told};
use crate::openings::{EVICTED, EVICTED_MAP, IN_MEMORY, SMALL};
use crate::rows::{Run, first_wrong};
use fkv_functions::{Refused, What};
use fkv_operations::{Answer, Op};
use fkv_test_devices::Turn;

const FUZZY_WAIT: [Row; 9] = [
    // it ends above the safe read-only offset
    (Call::Head(1), Told::Refused(Refused::NotDue)),
    (Call::ReadOnly(1), Told::Ok),
    (Call::Refresh(1), Told::Ok),
    (Call::Issue(1, Op::Rmw(b'a', 1)), Told::At(0)),
    (Call::Ready(1, 0), Told::Fuzzy),
    (Call::Do(0, Op::Rmw(b'a', 5)), Told::Done(Answer::Value(15))),
    (Call::Refresh(0), Told::Ok),
    (Call::Refresh(1), Told::Ok),
    (Call::Finish(1, 0), Told::Done(Answer::Value(16))),
];

const PENDING_READ_BESIDE_A_WRITE: [Row; 5] = [
    (Call::Issue(0, Op::Read(b'a', 0)), Told::At(0)),
    (Call::Ready(0, 0), Told::Loads(64)),
    (Call::Do(1, Op::Upsert(b'a', 9)), Told::Done(Answer::Stored)),
    (Call::Load(0, 0), Told::Done(Answer::Value(10))),
    (Call::Do(0, Op::Read(b'a', 0)), Told::Done(Answer::Value(9))),
];

const TWO_UPDATES_OF_AN_EVICTED_KEY: [Row; 7] = [
    (Call::Issue(0, Op::Rmw(b'a', 5)), Told::At(0)),
    (Call::Ready(0, 0), Told::Loads(64)),
    (Call::Load(0, 0), Told::Builds(Some(10))),
    (Call::Do(1, Op::Rmw(b'a', 1)), Told::Done(Answer::Value(11))),
    (Call::Go(0, 0), Told::Builds(Some(10))),
    (Call::Install(0, 0), Told::Next),
    (Call::Finish(0, 0), Told::Done(Answer::Value(16))),
];

const DEVICE_FAULT: [Row; 21] = [
    // what it asked for is left in context 0, and neither loads nor installs anything there
    (Call::Do(0, Op::Rmw(b'b', 1)), Told::Done(Answer::Value(2))),
    (Call::Issue(0, Op::Read(b'a', 0)), Told::At(0)),
    (Call::Load(0, 0), Told::Refused(Refused::NotReady)),
    (Call::Ready(0, 0), Told::Loads(64)),
    (Call::Go(0, 0), Told::Refused(Refused::NotReady)),
    (Call::Install(0, 0), Told::Refused(Refused::NotReady)),
    (
        Call::Fault(0, 0, Refused::Device { code: 3, page: 0 }),
        Told::Refused(Refused::Device { code: 3, page: 0 }),
    ),
    (Call::Load(0, 0), Told::Refused(Refused::Unknown)),
    (
        Call::Do(0, Op::Read(b'a', 0)),
        Told::Done(Answer::Value(10)),
    ),
    // one that reads for itself waits where the device fails, and reads again; what spells no record ends it
    (Call::LoadBy(0, 0), Told::Refused(Refused::Unknown)),
    (Call::Issue(0, Op::Read(b'a', 0)), Told::At(0)),
    (Call::LoadBy(0, 0), Told::Refused(Refused::NotReady)),
    (Call::Ready(0, 0), Told::Loads(64)),
    (Call::Stray(0, Turn::Fails), Told::Ok),
    (
        Call::LoadBy(0, 0),
        Told::Refused(Refused::Device { code: 3, page: 0 }),
    ),
    (Call::LoadBy(0, 0), Told::Done(Answer::Value(10))),
    (Call::Issue(0, Op::Read(b'a', 0)), Told::At(0)),
    (Call::Ready(0, 0), Told::Loads(64)),
    (Call::Stray(0, Turn::Clears), Told::Ok),
    (
        Call::LoadBy(0, 0),
        Told::Refused(Refused::Damaged { page: 0 }),
    ),
    (Call::LoadBy(0, 0), Told::Refused(Refused::Unknown)),
];

const DELETES_OF_EVICTED_KEYS: [Row; 6] = [
    // neither a delete nor an upsert needs what is on disk
    (Call::Do(0, Op::Delete(b'a')), Told::Done(Answer::Deleted)),
    (Call::Do(1, Op::Upsert(b'b', 7)), Told::Done(Answer::Stored)),
    (Call::Tail, Told::At(368)),
    (Call::Do(0, Op::Read(b'a', 0)), Told::Done(Answer::Absent)),
    (Call::Do(0, Op::Read(b'b', 0)), Told::Done(Answer::Value(7))),
    (Call::Do(0, Op::Read(b'c', 0)), Told::Done(Answer::Value(1))),
];

const FULL: [Row; 25] = [
    (Call::Enter, Told::At(0)),
    (Call::Do(0, Op::Upsert(b'a', 1)), Told::Done(Answer::Stored)),
    (Call::Do(0, Op::Upsert(b'b', 2)), Told::Done(Answer::Stored)),
    (Call::Do(0, Op::Upsert(b'c', 3)), Told::Done(Answer::Stored)),
    (Call::Do(0, Op::Upsert(b'd', 4)), Told::Done(Answer::Stored)),
    (Call::Do(0, Op::Upsert(b'e', 5)), Told::Done(Answer::Stored)),
    (Call::Do(0, Op::Upsert(b'f', 6)), Told::Done(Answer::Stored)),
    (Call::Do(0, Op::Upsert(b'g', 7)), Told::Done(Answer::Stored)),
    (Call::Tail, Told::At(512)),
    (Call::Do(0, Op::Upsert(b'h', 8)), Told::Full),
    (Call::Flush, Told::Refused(Refused::NotDue)),
    (Call::ReadOnly(2), Told::Ok),
    (Call::Flush, Told::Refused(Refused::NotDue)),
    (Call::Refresh(0), Told::Ok),
    (Call::FailWrite(0), Told::Ok),
    (
        Call::Flush,
        Told::Refused(Refused::Device { code: 2, page: 0 }),
    ),
    (Call::Flush, Told::At(0)),
    (Call::Head(2), Told::Refused(Refused::NotDue)),
    (Call::Head(1), Told::Ok),
    (Call::Finish(0, 0), Told::Full),
    (Call::Refresh(0), Told::Ok),
    (Call::Finish(0, 0), Told::Done(Answer::Stored)),
    (Call::Flush, Told::At(1)),
    (Call::Flush, Told::Refused(Refused::NotDue)),
    (Call::Do(0, Op::Read(b'a', 0)), Told::Done(Answer::Value(1))),
];

/// Look-ups pass over an entry until it is confirmed, and then over one that leads to no record.
const CLAIMED_AND_CONFIRMED: [Row; 14] = [
    (Call::Enter, Told::At(0)),
    (Call::Enter, Told::At(1)),
    (Call::Issue(0, Op::Upsert(b'a', 5)), Told::At(0)),
    (Call::Do(1, Op::Read(b'a', 0)), Told::Done(Answer::Absent)),
    // claimed
    (Call::Go(0, 0), Told::Next),
    (Call::Do(1, Op::Read(b'a', 0)), Told::Done(Answer::Absent)),
    (Call::Do(1, Op::Delete(b'a')), Told::Done(Answer::Deleted)),
    // confirmed
    (Call::Go(0, 0), Told::Next),
    (Call::Do(1, Op::Read(b'a', 0)), Told::Done(Answer::Absent)),
    (Call::Do(1, Op::Delete(b'a')), Told::Done(Answer::Deleted)),
    (Call::Tail, Told::At(64)),
    (Call::Go(0, 0), Told::Done(Answer::Stored)),
    (Call::Tail, Told::At(120)),
    (Call::Do(1, Op::Read(b'a', 0)), Told::Done(Answer::Value(5))),
];

/// A page that was not taken is handed in, where page 0 is flushed and has left its frame.
const STRANGERS_OF_ONE_PAGE: [Row; 17] = [
    (Call::Enter, Told::At(0)),
    (Call::Enter, Told::At(1)),
    (
        Call::Do(0, Op::Upsert(b'a', 10)),
        Told::Done(Answer::Stored),
    ),
    (Call::Do(0, Op::Upsert(b'b', 1)), Told::Done(Answer::Stored)),
    (Call::Do(0, Op::Upsert(b'c', 1)), Told::Done(Answer::Stored)),
    (Call::ReadOnly(1), Told::Ok),
    (Call::Refresh(0), Told::Ok),
    (Call::Refresh(1), Told::Ok),
    (Call::Flush, Told::At(0)),
    (Call::Head(1), Told::Ok),
    (Call::Refresh(0), Told::Ok),
    (Call::Refresh(1), Told::Ok),
    (
        Call::HandIn(0),
        Told::Refused(Refused::Stranger {
            what: What::Page,
            held: 1,
            came: 0,
        }),
    ),
    // the page that is next does not wait
    (Call::HandIn(1), Told::Refused(Refused::NotDue)),
    (
        Call::HandIn(2),
        Told::Refused(Refused::Stranger {
            what: What::Page,
            held: 1,
            came: 2,
        }),
    ),
    (
        Call::Do(0, Op::Read(b'a', 0)),
        Told::Done(Answer::Value(10)),
    ),
    (Call::Tail, Told::At(256)),
];

/// A page is loaded by the receipt of another one, and page 0 is handed in again, after two pages were flushed.
const STRANGERS: [Row; 16] = [
    (Call::Head(2), Told::Ok),
    (Call::Refresh(0), Told::Ok),
    (Call::Issue(0, Op::Read(b'a', 0)), Told::At(0)),
    (Call::Ready(0, 0), Told::Loads(64)),
    (Call::Issue(0, Op::Read(b'd', 0)), Told::At(1)),
    (Call::Ready(0, 1), Told::Loads(256)),
    (
        Call::LoadOther(0, 0, 1),
        Told::Refused(Refused::Stranger {
            what: What::Receipt,
            held: 0,
            came: 1,
        }),
    ),
    // its context stays
    (Call::Go(0, 0), Told::Refused(Refused::NotReady)),
    (
        Call::LoadOther(0, 1, 0),
        Told::Refused(Refused::Stranger {
            what: What::Receipt,
            held: 1,
            came: 0,
        }),
    ),
    (Call::Load(0, 0), Told::Done(Answer::Value(1))),
    (Call::Load(0, 0), Told::Refused(Refused::Unknown)),
    (Call::Load(0, 1), Told::Done(Answer::Value(4))),
    (
        Call::HandIn(0),
        Told::Refused(Refused::Stranger {
            what: What::Page,
            held: 2,
            came: 0,
        }),
    ),
    (Call::Do(0, Op::Read(b'h', 0)), Told::Done(Answer::Value(8))),
    (Call::Do(0, Op::Read(b'b', 0)), Told::Done(Answer::Value(2))),
    (Call::Tail, Told::At(568)),
];

const RUNS: [Run; 9] = [
    Run {
        name: "fuzzy_wait",
        config: SMALL,
        opening: &IN_MEMORY,
        rows: &FUZZY_WAIT,
        map: &[(b'a', 16), (b'b', 1), (b'c', 1)],
    },
    Run {
        name: "pending_read_beside_a_write",
        config: SMALL,
        opening: &EVICTED,
        rows: &PENDING_READ_BESIDE_A_WRITE,
        map: &[(b'a', 9), (b'b', 1), (b'c', 1)],
    },
    Run {
        name: "two_updates_of_an_evicted_key",
        config: SMALL,
        opening: &EVICTED,
        rows: &TWO_UPDATES_OF_AN_EVICTED_KEY,
        map: &[(b'a', 16), (b'b', 1), (b'c', 1)],
    },
    Run {
        name: "device_fault",
        config: SMALL,
        opening: &EVICTED,
        rows: &DEVICE_FAULT,
        map: &[(b'a', 10), (b'b', 2), (b'c', 1)],
    },
    Run {
        name: "deletes_of_evicted_keys",
        config: SMALL,
        opening: &EVICTED,
        rows: &DELETES_OF_EVICTED_KEYS,
        map: &[(b'b', 7), (b'c', 1)],
    },
    Run {
        name: "full",
        config: SMALL,
        opening: &[],
        rows: &FULL,
        map: &[
            (b'a', 1),
            (b'b', 2),
            (b'c', 3),
            (b'd', 4),
            (b'e', 5),
            (b'f', 6),
            (b'g', 7),
            (b'h', 8),
        ],
    },
    Run {
        name: "claimed_and_confirmed",
        config: SMALL,
        opening: &[],
        rows: &CLAIMED_AND_CONFIRMED,
        map: &[(b'a', 5)],
    },
    Run {
        name: "strangers of one page",
        config: SMALL,
        opening: &[],
        rows: &STRANGERS_OF_ONE_PAGE,
        map: &EVICTED_MAP,
    },
    Run {
        name: "strangers",
        config: SMALL,
        opening: &FULL,
        rows: &STRANGERS,
        map: &[
            (b'a', 1),
            (b'b', 2),
            (b'c', 3),
            (b'd', 4),
            (b'e', 5),
            (b'f', 6),
            (b'g', 7),
            (b'h', 8),
        ],
    },
];

#[test]
fn operations(rt: HostRuntime) {
    for run in RUNS {
        let wrong = first_wrong(rt.alloc(), &run);
        assert!(rt; wrong == None, "{}: row {wrong:?}", run.name);
    }
}
