//! A reader that gives the newest record of `a`, on page 1, as a delta of 2, once: what reads it joins the part to the 1 of its
//! record on page 0.
use crate::calls::{Call, Told};
use crate::openings::{AGAIN, AGAIN_MAP, STEEP};
use crate::rows::{Run, first_wrong};
use fkv_operations::{Answer, Op};
use fkv_test_devices::Turn;

/// `AGAIN_MAP` with the part joined.
const JOINED: [(u8, i128); 10] = [
    (b'a', 3),
    (b'b', 1),
    (b'c', 1),
    (b'd', 1),
    (b'e', 1),
    (b'f', 1),
    (b'g', 1),
    (b'h', 1),
    (b'i', 1),
    (b'j', 1),
];

/// And 5 more.
const UPDATED: [(u8, i128); 10] = [
    (b'a', 8),
    (b'b', 1),
    (b'c', 1),
    (b'd', 1),
    (b'e', 1),
    (b'f', 1),
    (b'g', 1),
    (b'h', 1),
    (b'i', 1),
    (b'j', 1),
];

const RUNS: [Run; 4] = [
    // the pages are read from the highest down: 2, 1, 0
    Run {
        name: "a read",
        config: STEEP,
        opening: &AGAIN,
        rows: &[
            (Call::Evict(3), Told::Ok),
            (Call::Stray(1, Turn::Parts(0)), Told::Ok),
            (Call::Do(0, Op::Read(b'a', 0)), Told::Done(Answer::Value(3))),
        ],
        map: &AGAIN_MAP,
    },
    Run {
        name: "an update",
        config: STEEP,
        opening: &AGAIN,
        rows: &[
            (Call::Evict(3), Told::Ok),
            (Call::Stray(1, Turn::Parts(0)), Told::Ok),
            (Call::Do(0, Op::Rmw(b'a', 5)), Told::Done(Answer::Value(8))),
        ],
        map: &UPDATED,
    },
    // the page of its place, 0, is read before them
    Run {
        name: "a relocation",
        config: STEEP,
        opening: &AGAIN,
        rows: &[
            (Call::Evict(3), Told::Ok),
            (Call::Stray(2, Turn::Parts(0)), Told::Ok),
            (Call::Move(0, 1), Told::Done(Answer::Cleared)),
            (Call::Cleared, Told::At(120)),
        ],
        map: &JOINED,
    },
    // the live map is read from page 0 up
    Run {
        name: "the live map",
        config: STEEP,
        opening: &AGAIN,
        rows: &[
            (Call::Evict(3), Told::Ok),
            (Call::Stray(1, Turn::Parts(0)), Told::Ok),
            (Call::Live(&JOINED), Told::Is(true)),
        ],
        map: &AGAIN_MAP,
    },
];

#[test]
fn deltas_are_joined(rt: HostRuntime) {
    for run in RUNS {
        let wrong = first_wrong(rt.alloc(), &run);
        assert!(rt; wrong == None, "{}: row {wrong:?}", run.name);
    }
}
