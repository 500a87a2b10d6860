//! Runs of relocations and truncations, on two frames.
use crate::calls::{Call, Row, Told};
use crate::openings::{EVICTED, EVICTED_MAP, FULL, FULL_MAP, SMALL};
use crate::rows::{Run, first_wrong};
use fkv_functions::Refused;
use fkv_operations::{Answer, Op};

const TRUNCATION_UNDER_A_PENDING_READ: [Row; 22] = [
    (Call::Issue(0, Op::Read(b'a', 0)), Told::At(0)),
    (Call::Ready(0, 0), Told::Loads(64)),
    (Call::Issue(1, Op::Relocate), Told::At(0)),
    (Call::Go(1, 0), Told::Loads(64)),
    (Call::Go(1, 0), Told::Refused(Refused::NotReady)),
    (Call::Load(1, 0), Told::Done(Answer::Cleared)),
    (Call::Go(1, 0), Told::Refused(Refused::Unknown)),
    (Call::Cleared, Told::At(120)),
    (Call::Move(1, 1), Told::Done(Answer::Cleared)),
    (Call::Cleared, Told::At(176)),
    (Call::Move(1, 1), Told::Done(Answer::Cleared)),
    (Call::Cleared, Told::At(256)),
    (Call::Tail, Told::At(424)),
    (Call::Issue(1, Op::Relocate), Told::Refused(Refused::NotDue)),
    (Call::Begin, Told::At(64)),
    (Call::TruncateCleared, Told::At(256)),
    (Call::Begin, Told::At(256)),
    (Call::TruncateCleared, Told::Refused(Refused::NotDue)),
    (Call::Cleared, Told::At(256)),
    (Call::Load(0, 0), Told::Next),
    (Call::Go(0, 0), Told::Done(Answer::Value(10))),
    (Call::Tail, Told::At(424)),
];

const A_DEAD_RECORD: [Row; 7] = [
    (Call::Do(0, Op::Upsert(b'a', 9)), Told::Done(Answer::Stored)),
    (Call::Tail, Told::At(312)),
    (Call::Move(1, 1), Told::Done(Answer::Cleared)),
    (Call::Tail, Told::At(312)),
    (Call::Move(1, 2), Told::Done(Answer::Cleared)),
    (Call::Tail, Told::At(424)),
    (Call::TruncateCleared, Told::At(256)),
];

pub const TOMBSTONES: [Row; 20] = [
    (Call::Do(0, Op::Delete(b'a')), Told::Done(Answer::Deleted)),
    (Call::Tail, Told::At(312)),
    (Call::Move(1, 3), Told::Done(Answer::Cleared)),
    (Call::Tail, Told::At(424)),
    (Call::TruncateCleared, Told::At(256)),
    (Call::Do(1, Op::Read(b'a', 0)), Told::Done(Answer::Absent)),
    (Call::Do(0, Op::Upsert(b'd', 4)), Told::Done(Answer::Stored)),
    (Call::Tail, Told::At(512)),
    (Call::Freeze(2), Told::Ok),
    (Call::Issue(0, Op::Relocate), Told::At(0)),
    // the tombstone, in memory
    (Call::Go(0, 0), Told::Done(Answer::Cleared)),
    (Call::Cleared, Told::At(312)),
    (Call::Tail, Told::At(512)),
    (Call::Move(0, 3), Told::Done(Answer::Cleared)),
    (Call::Tail, Told::At(680)),
    (Call::TruncateCleared, Told::Refused(Refused::NotDue)),
    (Call::Evict(2), Told::Ok),
    (Call::TruncateCleared, Told::At(512)),
    (Call::Do(1, Op::Read(b'a', 0)), Told::Done(Answer::Absent)),
    (Call::Do(1, Op::Read(b'd', 0)), Told::Done(Answer::Value(4))),
];

/// A tombstone on the device, and the same of a key that is written again.
const EVICTED_TOMBSTONES: [Row; 15] = [
    (Call::Do(0, Op::Delete(b'a')), Told::Done(Answer::Deleted)),
    (Call::Do(0, Op::Delete(b'b')), Told::Done(Answer::Deleted)),
    (Call::Do(0, Op::Upsert(b'd', 4)), Told::Done(Answer::Stored)),
    (Call::Do(0, Op::Upsert(b'e', 5)), Told::Done(Answer::Stored)),
    (Call::Freeze(2), Told::Ok),
    (Call::Evict(2), Told::Ok),
    (Call::Do(0, Op::Upsert(b'b', 2)), Told::Done(Answer::Stored)),
    (Call::Tail, Told::At(568)),
    // a and b are dead
    (Call::Move(1, 2), Told::Done(Answer::Cleared)),
    (Call::Tail, Told::At(568)),
    (Call::Move(1, 1), Told::Done(Answer::Cleared)),
    (Call::Tail, Told::At(624)),
    (Call::Move(1, 2), Told::Done(Answer::Cleared)),
    (Call::Tail, Told::At(624)),
    (Call::Cleared, Told::At(368)),
];

const TWO_ON_ONE_PLACE: [Row; 18] = [
    (Call::Issue(0, Op::Relocate), Told::At(0)),
    (Call::Issue(1, Op::Relocate), Told::At(0)),
    (Call::Go(0, 0), Told::Loads(64)),
    (Call::LoadBy(0, 0), Told::Done(Answer::Cleared)),
    (Call::Tail, Told::At(312)),
    // it had not begun
    (Call::Go(1, 0), Told::Done(Answer::Cleared)),
    (Call::Tail, Told::At(312)),
    (Call::Cleared, Told::At(120)),
    (Call::Issue(0, Op::Relocate), Told::At(0)),
    (Call::Issue(1, Op::Relocate), Told::At(0)),
    (Call::Go(0, 0), Told::Loads(120)),
    (Call::Go(1, 0), Told::Loads(120)),
    (Call::Load(0, 0), Told::Done(Answer::Cleared)),
    (Call::Move(0, 1), Told::Done(Answer::Cleared)),
    (Call::Tail, Told::At(424)),
    // it meets the record that the other one appended, and what is cleared stays
    (Call::Load(1, 0), Told::Done(Answer::Cleared)),
    (Call::Cleared, Told::At(256)),
    (Call::Tail, Told::At(424)),
];

const TWO_THAT_WAIT: [Row; 16] = [
    (Call::Issue(0, Op::Relocate), Told::At(0)),
    (Call::Go(0, 0), Told::Full),
    (Call::Cleared, Told::At(64)),
    (Call::Issue(1, Op::Relocate), Told::At(0)),
    (Call::Go(1, 0), Told::Full),
    (Call::Go(0, 0), Told::Full),
    (
        Call::Fault(0, 0, Refused::NoMemory),
        Told::Refused(Refused::NotReady),
    ),
    (Call::Evict(1), Told::Ok),
    (Call::Go(0, 0), Told::Done(Answer::Cleared)),
    (Call::Tail, Told::At(568)),
    (Call::Cleared, Told::At(120)),
    // the entry has moved
    (Call::Go(1, 0), Told::Next),
    (Call::Go(1, 0), Told::Done(Answer::Cleared)),
    (Call::Go(1, 0), Told::Refused(Refused::Unknown)),
    (Call::Tail, Told::At(568)),
    (Call::Cleared, Told::At(120)),
];

/// The key of a relocation that waits for room is written meanwhile.
const A_WRITE_BEFORE_THE_LAST_PART: [Row; 9] = [
    (Call::Issue(0, Op::Relocate), Told::At(0)),
    (Call::Go(0, 0), Told::Full),
    (Call::Evict(1), Told::Ok),
    (Call::Do(1, Op::Upsert(b'a', 9)), Told::Done(Answer::Stored)),
    (Call::Go(0, 0), Told::Next),
    (Call::Go(0, 0), Told::Loads(64)),
    (Call::Load(0, 0), Told::Done(Answer::Cleared)),
    (Call::Tail, Told::At(568)),
    (Call::Cleared, Told::At(120)),
];

/// The entry of a relocation that waits for room leads to a tombstone, and is emptied by a truncation.
const A_SWEPT_ENTRY: [Row; 23] = [
    (Call::Issue(0, Op::Relocate), Told::At(0)),
    (Call::Go(0, 0), Told::Full),
    (Call::Evict(1), Told::Ok),
    (Call::Do(1, Op::Delete(b'a')), Told::Done(Answer::Deleted)),
    (Call::Move(1, 1), Told::Done(Answer::Cleared)),
    (Call::Tail, Told::At(568)),
    (Call::Move(1, 3), Told::Done(Answer::Cleared)),
    (Call::Tail, Told::At(768)),
    (Call::Evict(2), Told::Ok),
    (Call::Move(1, 3), Told::Done(Answer::Cleared)),
    (Call::Tail, Told::At(936)),
    (Call::Freeze(3), Told::Ok),
    (Call::Move(1, 1), Told::Done(Answer::Cleared)),
    (Call::Tail, Told::At(936)),
    (Call::Evict(3), Told::Ok),
    (Call::Move(1, 3), Told::Done(Answer::Cleared)),
    (Call::Tail, Told::At(1136)),
    (Call::Cleared, Told::At(768)),
    (Call::TruncateCleared, Told::At(768)),
    (Call::Go(0, 0), Told::Next),
    (Call::Go(0, 0), Told::Done(Answer::Cleared)),
    (Call::Tail, Told::At(1136)),
    (Call::Do(0, Op::Read(b'a', 0)), Told::Done(Answer::Absent)),
];

const RUNS: [Run; 8] = [
    Run {
        name: "truncation_under_a_pending_read",
        config: SMALL,
        opening: &EVICTED,
        rows: &TRUNCATION_UNDER_A_PENDING_READ,
        map: &EVICTED_MAP,
    },
    Run {
        name: "a_dead_record",
        config: SMALL,
        opening: &EVICTED,
        rows: &A_DEAD_RECORD,
        map: &[(b'a', 9), (b'b', 1), (b'c', 1)],
    },
    Run {
        name: "tombstones",
        config: SMALL,
        opening: &EVICTED,
        rows: &TOMBSTONES,
        map: &[(b'b', 1), (b'c', 1), (b'd', 4)],
    },
    Run {
        name: "evicted_tombstones",
        config: SMALL,
        opening: &EVICTED,
        rows: &EVICTED_TOMBSTONES,
        map: &[(b'b', 2), (b'c', 1), (b'd', 4), (b'e', 5)],
    },
    Run {
        name: "two_on_one_place",
        config: SMALL,
        opening: &EVICTED,
        rows: &TWO_ON_ONE_PLACE,
        map: &EVICTED_MAP,
    },
    Run {
        name: "two_that_wait",
        config: SMALL,
        opening: &FULL,
        rows: &TWO_THAT_WAIT,
        map: &FULL_MAP,
    },
    Run {
        name: "a_write_before_the_last_part",
        config: SMALL,
        opening: &FULL,
        rows: &A_WRITE_BEFORE_THE_LAST_PART,
        map: &[
            (b'a', 9),
            (b'b', 2),
            (b'c', 3),
            (b'd', 4),
            (b'e', 5),
            (b'f', 6),
            (b'g', 7),
        ],
    },
    Run {
        name: "a_swept_entry",
        config: SMALL,
        opening: &FULL,
        rows: &A_SWEPT_ENTRY,
        map: &[
            (b'b', 2),
            (b'c', 3),
            (b'd', 4),
            (b'e', 5),
            (b'f', 6),
            (b'g', 7),
        ],
    },
];

#[test]
fn relocations(rt: HostRuntime) {
    for run in RUNS {
        let wrong = first_wrong(rt.alloc(), &run);
        assert!(rt; wrong == None, "{}: row {wrong:?}", run.name);
    }
}
