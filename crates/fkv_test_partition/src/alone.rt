//! Operations that are made alone: their answers, and the events that each takes, its issue counted. Records take 56 bytes
//! and pages 256, so page 0 has three of them and each other page four.
use crate::calls::Told;
use crate::lone::{Row, Run, Step, first_wrong};
use crate::openings::{SMALL, STEEP};
use fkv_functions::Refused;
use fkv_operations::{Answer, Op};
use fkv_test_devices::Turn;

/// Two sessions; a to c stand on page 0, which has left its frame.
const EVICTED: [Row; 12] = [
    (Step::Enter, Told::At(0), 0),
    (Step::Enter, Told::At(1), 0),
    (
        Step::Alone(0, Op::Upsert(b'a', 10), 20),
        Told::Done(Answer::Stored),
        4,
    ),
    (
        Step::Alone(0, Op::Upsert(b'b', 1), 20),
        Told::Done(Answer::Stored),
        4,
    ),
    (
        Step::Alone(0, Op::Upsert(b'c', 1), 20),
        Told::Done(Answer::Stored),
        4,
    ),
    (Step::ReadOnly(1), Told::Ok, 0),
    (Step::Refresh(0), Told::Ok, 0),
    (Step::Refresh(1), Told::Ok, 0),
    (Step::Flush, Told::At(0), 0),
    (Step::Head(1), Told::Ok, 0),
    (Step::Refresh(0), Told::Ok, 0),
    (Step::Refresh(1), Told::Ok, 0),
];

/// Two sessions; a to c on page 0, d to g on page 1, h to k on page 2, which have left their frames, and l in memory.
const TWELVE: [Row; 23] = [
    (Step::Enter, Told::At(0), 0),
    (Step::Enter, Told::At(1), 0),
    // a claim and its confirmation for the first of the class
    (
        Step::Alone(0, Op::Upsert(b'a', 1), 20),
        Told::Done(Answer::Stored),
        4,
    ),
    (
        Step::Alone(0, Op::Upsert(b'b', 1), 20),
        Told::Done(Answer::Stored),
        2,
    ),
    (
        Step::Alone(0, Op::Upsert(b'c', 1), 20),
        Told::Done(Answer::Stored),
        2,
    ),
    (
        Step::Alone(0, Op::Upsert(b'd', 1), 20),
        Told::Done(Answer::Stored),
        2,
    ),
    (
        Step::Alone(0, Op::Upsert(b'e', 1), 20),
        Told::Done(Answer::Stored),
        2,
    ),
    (
        Step::Alone(0, Op::Upsert(b'f', 1), 20),
        Told::Done(Answer::Stored),
        2,
    ),
    (
        Step::Alone(0, Op::Upsert(b'g', 1), 20),
        Told::Done(Answer::Stored),
        2,
    ),
    (
        Step::Alone(0, Op::Upsert(b'h', 1), 20),
        Told::Done(Answer::Stored),
        2,
    ),
    (
        Step::Alone(0, Op::Upsert(b'i', 1), 20),
        Told::Done(Answer::Stored),
        2,
    ),
    (
        Step::Alone(0, Op::Upsert(b'j', 1), 20),
        Told::Done(Answer::Stored),
        2,
    ),
    (
        Step::Alone(0, Op::Upsert(b'k', 1), 20),
        Told::Done(Answer::Stored),
        2,
    ),
    (
        Step::Alone(0, Op::Upsert(b'l', 1), 20),
        Told::Done(Answer::Stored),
        2,
    ),
    (Step::ReadOnly(3), Told::Ok, 0),
    (Step::Refresh(0), Told::Ok, 0),
    (Step::Refresh(1), Told::Ok, 0),
    (Step::Flush, Told::At(0), 0),
    (Step::Flush, Told::At(1), 0),
    (Step::Flush, Told::At(2), 0),
    (Step::Head(3), Told::Ok, 0),
    (Step::Refresh(0), Told::Ok, 0),
    (Step::Refresh(1), Told::Ok, 0),
];

const A_NEW_PARTITION: [Row; 5] = [
    (Step::Enter, Told::At(0), 0),
    // the issue, a claim, its confirmation, a look-up, and what was built
    (
        Step::Alone(0, Op::Rmw(b'a', 5), 5),
        Told::Done(Answer::Value(5)),
        5,
    ),
    // now the record is mutable
    (
        Step::Alone(0, Op::Rmw(b'a', 1), 2),
        Told::Done(Answer::Value(6)),
        2,
    ),
    // a merge: the issue, a claim, its confirmation and a look-up; and over a mutable value
    (
        Step::Alone(0, Op::Merge(b'b', 5), 9),
        Told::Done(Answer::Stored),
        4,
    ),
    (
        Step::Alone(0, Op::Merge(b'a', 5), 9),
        Told::Done(Answer::Stored),
        2,
    ),
];

const AN_EVICTED_KEY: [Row; 5] = [
    // the issue, a look-up, its page, and what was built
    (
        Step::Alone(0, Op::Rmw(b'a', 1), 9),
        Told::Done(Answer::Value(11)),
        4,
    ),
    (
        Step::Alone(1, Op::Read(b'b', 0), 9),
        Told::Done(Answer::Value(1)),
        3,
    ),
    (
        Step::Alone(1, Op::Delete(b'c'), 9),
        Told::Done(Answer::Deleted),
        2,
    ),
    // a merge reads no page, and its key has the sum
    (
        Step::Alone(1, Op::Merge(b'b', 5), 9),
        Told::Done(Answer::Stored),
        2,
    ),
    (
        Step::Alone(1, Op::Read(b'b', 0), 9),
        Told::Done(Answer::Value(6)),
        3,
    ),
];

const STALLED: [Row; 6] = [
    (
        Step::Alone(0, Op::Rmw(b'a', 1), 0),
        Told::Refused(Refused::Stalled),
        0,
    ),
    // it is given up after three events, which takes no moment
    (
        Step::Alone(0, Op::Rmw(b'a', 1), 3),
        Told::Refused(Refused::Stalled),
        3,
    ),
    // an entry that it waited to confirm is taken back
    (
        Step::Alone(0, Op::Upsert(b'd', 1), 2),
        Told::Refused(Refused::Stalled),
        2,
    ),
    (
        Step::Alone(1, Op::Delete(b'd'), 9),
        Told::Done(Answer::Deleted),
        2,
    ),
    // its context is free
    (Step::Issue(0, Op::Read(b'b', 0)), Told::At(0), 0),
    (Step::Issue(0, Op::Read(b'c', 0)), Told::At(1), 0),
];

const REFUSED: [Row; 12] = [
    (
        Step::Alone(2, Op::Read(b'a', 0), 9),
        Told::Refused(Refused::Unknown),
        1,
    ),
    (Step::Issue(0, Op::Read(b'a', 0)), Told::At(0), 0),
    (Step::Issue(0, Op::Read(b'a', 0)), Told::At(1), 0),
    (Step::Issue(0, Op::Read(b'a', 0)), Told::At(2), 0),
    (Step::Issue(0, Op::Read(b'a', 0)), Told::At(3), 0),
    (Step::Issue(0, Op::Read(b'a', 0)), Told::At(4), 0),
    (Step::Issue(0, Op::Read(b'a', 0)), Told::At(5), 0),
    (Step::Issue(0, Op::Read(b'a', 0)), Told::At(6), 0),
    (Step::Issue(0, Op::Read(b'a', 0)), Told::At(7), 0),
    (
        Step::Alone(0, Op::Read(b'a', 0), 9),
        Told::Refused(Refused::NoContext),
        1,
    ),
    (Step::Go(0, 7), Told::Loads(64), 0),
    (Step::Load(0, 7), Told::Done(Answer::Value(10)), 0),
];

const A_WAIT_STAYS_OPEN: [Row; 15] = [
    (Step::Enter, Told::At(0), 0),
    (
        Step::Alone(0, Op::Upsert(b'a', 1), 4),
        Told::Done(Answer::Stored),
        4,
    ),
    (
        Step::Alone(0, Op::Upsert(b'b', 2), 4),
        Told::Done(Answer::Stored),
        4,
    ),
    (
        Step::Alone(0, Op::Upsert(b'c', 3), 4),
        Told::Done(Answer::Stored),
        4,
    ),
    (
        Step::Alone(0, Op::Upsert(b'd', 4), 4),
        Told::Done(Answer::Stored),
        4,
    ),
    (
        Step::Alone(0, Op::Upsert(b'e', 5), 4),
        Told::Done(Answer::Stored),
        4,
    ),
    (
        Step::Alone(0, Op::Upsert(b'f', 6), 4),
        Told::Done(Answer::Stored),
        4,
    ),
    (
        Step::Alone(0, Op::Upsert(b'g', 7), 4),
        Told::Done(Answer::Stored),
        4,
    ),
    // no frame is free
    (Step::Alone(0, Op::Upsert(b'h', 8), 4), Told::Full, 4),
    (Step::ReadOnly(2), Told::Ok, 0),
    (Step::Refresh(0), Told::Ok, 0),
    (Step::Flush, Told::At(0), 0),
    (Step::Head(1), Told::Ok, 0),
    (Step::Refresh(0), Told::Ok, 0),
    (Step::Go(0, 0), Told::Done(Answer::Stored), 0),
];

/// The issue, a look-up, and a load for each page up to the one that fails.
const A_READER_THAT_FAILS: [Row; 8] = [
    (Step::Stray(0, Turn::Fails), Told::Ok, 0),
    (
        Step::Alone(0, Op::Rmw(b'a', 5), 20),
        Told::Refused(Refused::Device { code: 3, page: 2 }),
        3,
    ),
    (Step::Stray(1, Turn::Fails), Told::Ok, 0),
    (
        Step::Alone(0, Op::Rmw(b'a', 5), 20),
        Told::Refused(Refused::Device { code: 3, page: 1 }),
        4,
    ),
    (Step::Stray(2, Turn::Fails), Told::Ok, 0),
    (
        Step::Alone(0, Op::Rmw(b'a', 5), 20),
        Told::Refused(Refused::Device { code: 3, page: 0 }),
        5,
    ),
    // no page was wrong but once
    (Step::Stray(1000, Turn::Fails), Told::Ok, 0),
    (
        Step::Alone(0, Op::Rmw(b'a', 5), 20),
        Told::Done(Answer::Value(6)),
        6,
    ),
];

const A_READER_OF_ZEROS: [Row; 7] = [
    (Step::Stray(0, Turn::Clears), Told::Ok, 0),
    (
        Step::Alone(0, Op::Rmw(b'a', 5), 20),
        Told::Refused(Refused::Damaged { page: 2 }),
        3,
    ),
    (Step::Stray(1, Turn::Clears), Told::Ok, 0),
    (
        Step::Alone(0, Op::Rmw(b'a', 5), 20),
        Told::Refused(Refused::Damaged { page: 1 }),
        4,
    ),
    (Step::Stray(2, Turn::Clears), Told::Ok, 0),
    (
        Step::Alone(0, Op::Rmw(b'a', 5), 20),
        Told::Refused(Refused::Damaged { page: 0 }),
        5,
    ),
    (
        Step::Alone(0, Op::Read(b'a', 0), 20),
        Told::Done(Answer::Value(1)),
        5,
    ),
];

const WAYS_AND_CLAIMS: [Row; 20] = [
    // first writes of more classes than a bucket has words, and pages that leave their frames
    (
        Step::Alone(1, Op::Upsert(b'A', 2), 20),
        Told::Done(Answer::Stored),
        4,
    ),
    (
        Step::Alone(1, Op::Upsert(b'B', 2), 20),
        Told::Done(Answer::Stored),
        4,
    ),
    (
        Step::Alone(1, Op::Upsert(b'C', 2), 20),
        Told::Done(Answer::Stored),
        4,
    ),
    (
        Step::Alone(1, Op::Upsert(b'D', 2), 20),
        Told::Done(Answer::Stored),
        4,
    ),
    (
        Step::Alone(1, Op::Upsert(b'E', 2), 20),
        Told::Done(Answer::Stored),
        4,
    ),
    (
        Step::Alone(1, Op::Upsert(b'F', 2), 20),
        Told::Done(Answer::Stored),
        4,
    ),
    (
        Step::Alone(1, Op::Upsert(b'G', 2), 20),
        Told::Done(Answer::Stored),
        4,
    ),
    (
        Step::Alone(1, Op::Upsert(b'H', 2), 20),
        Told::Done(Answer::Stored),
        4,
    ),
    (
        Step::Alone(1, Op::Upsert(b'I', 2), 20),
        Told::Done(Answer::Stored),
        4,
    ),
    (Step::ReadOnly(5), Told::Ok, 0),
    (Step::Refresh(0), Told::Ok, 0),
    (Step::Refresh(1), Told::Ok, 0),
    (Step::Flush, Told::At(3), 0),
    (Step::Flush, Told::At(4), 0),
    (Step::Head(5), Told::Ok, 0),
    (Step::Refresh(0), Told::Ok, 0),
    (Step::Refresh(1), Told::Ok, 0),
    // the issue, a look-up, a load for each of four pages, and what was built
    (
        Step::Alone(0, Op::Rmw(b'c', 4), 20),
        Told::Done(Answer::Value(5)),
        7,
    ),
    // three pages
    (
        Step::Alone(1, Op::Read(b'd', 0), 20),
        Told::Done(Answer::Value(1)),
        5,
    ),
    // the issue, a claim, its confirmation, and an append
    (
        Step::Alone(1, Op::Upsert(b'J', 3), 20),
        Told::Done(Answer::Stored),
        4,
    ),
];

pub const GROWTHS: Run = Run {
    name: "ways and claims",
    config: STEEP,
    opening: &TWELVE,
    rows: &WAYS_AND_CLAIMS,
    map: &[
        (b'A', 2),
        (b'B', 2),
        (b'C', 2),
        (b'D', 2),
        (b'E', 2),
        (b'F', 2),
        (b'G', 2),
        (b'H', 2),
        (b'I', 2),
        (b'J', 3),
        (b'a', 1),
        (b'b', 1),
        (b'c', 5),
        (b'd', 1),
        (b'e', 1),
        (b'f', 1),
        (b'g', 1),
        (b'h', 1),
        (b'i', 1),
        (b'j', 1),
        (b'k', 1),
        (b'l', 1),
    ],
};

const RUNS: [Run; 7] = [
    Run {
        name: "a new partition",
        config: SMALL,
        opening: &[],
        rows: &A_NEW_PARTITION,
        map: &[(b'a', 11), (b'b', 5)],
    },
    Run {
        name: "an evicted key",
        config: SMALL,
        opening: &EVICTED,
        rows: &AN_EVICTED_KEY,
        map: &[(b'a', 11), (b'b', 6)],
    },
    Run {
        name: "stalled",
        config: SMALL,
        opening: &EVICTED,
        rows: &STALLED,
        map: &[(b'a', 10), (b'b', 1), (b'c', 1)],
    },
    Run {
        name: "refused",
        config: SMALL,
        opening: &EVICTED,
        rows: &REFUSED,
        map: &[(b'a', 10), (b'b', 1), (b'c', 1)],
    },
    Run {
        name: "a wait stays open",
        config: SMALL,
        opening: &[],
        rows: &A_WAIT_STAYS_OPEN,
        map: &[
            (b'a', 1),
            (b'b', 2),
            (b'c', 3),
            (b'd', 4),
            (b'e', 5),
            (b'f', 6),
            (b'g', 7),
            (b'h', 8),
        ],
    },
    Run {
        name: "a reader that fails",
        config: STEEP,
        opening: &TWELVE,
        rows: &A_READER_THAT_FAILS,
        map: &[
            (b'a', 6),
            (b'b', 1),
            (b'c', 1),
            (b'd', 1),
            (b'e', 1),
            (b'f', 1),
            (b'g', 1),
            (b'h', 1),
            (b'i', 1),
            (b'j', 1),
            (b'k', 1),
            (b'l', 1),
        ],
    },
    Run {
        name: "a reader of zeros",
        config: STEEP,
        opening: &TWELVE,
        rows: &A_READER_OF_ZEROS,
        map: &[
            (b'a', 1),
            (b'b', 1),
            (b'c', 1),
            (b'd', 1),
            (b'e', 1),
            (b'f', 1),
            (b'g', 1),
            (b'h', 1),
            (b'i', 1),
            (b'j', 1),
            (b'k', 1),
            (b'l', 1),
        ],
    },
];

#[test]
fn operations_alone(rt: HostRuntime) {
    for run in RUNS {
        let wrong = first_wrong(rt.alloc(), &run);
        assert!(rt; wrong == None, "{}: row {wrong:?}", run.name);
    }
}
