//! A relocation whose way goes over three pages of the device, whose reader fails, or gives zeros, once: it is told, no key
//! changes, and the record is relocated the next time. Of a writer that fails see `full` in `operations`.
use crate::calls::{Call, Row, Told};
use crate::driven::Driven;
use crate::openings::{SMALL, STEEP, TWELVE, TWELVE_MAP};
use crate::rows::{Run, first_wrong};
use fkv_functions::Refused;
use fkv_operations::{Answer, Op};
use fkv_partition::Config;
use fkv_test_devices::Turn;
use std::alloc::Global;

/// The page of the record's place is read first.
const FAILS_AT_ITS_PLACE: [Row; 8] = [
    (Call::Evict(3), Told::Ok),
    (Call::Stray(0, Turn::Fails), Told::Ok),
    (
        Call::Move(0, 1),
        Told::Refused(Refused::Device { code: 3, page: 0 }),
    ),
    (Call::Cleared, Told::At(64)),
    (Call::Live(&TWELVE_MAP), Told::Is(true)),
    (Call::Move(1, 3), Told::Done(Answer::Cleared)),
    (Call::Cleared, Told::At(256)),
    (Call::TruncateCleared, Told::At(256)),
];

const FAILS_ON_PAGE_2: [Row; 8] = [
    (Call::Evict(3), Told::Ok),
    (Call::Stray(1, Turn::Fails), Told::Ok),
    (
        Call::Move(0, 1),
        Told::Refused(Refused::Device { code: 3, page: 2 }),
    ),
    (Call::Cleared, Told::At(64)),
    (Call::Live(&TWELVE_MAP), Told::Is(true)),
    (Call::Move(1, 3), Told::Done(Answer::Cleared)),
    (Call::Cleared, Told::At(256)),
    (Call::TruncateCleared, Told::At(256)),
];

const FAILS_ON_PAGE_1: [Row; 8] = [
    (Call::Evict(3), Told::Ok),
    (Call::Stray(2, Turn::Fails), Told::Ok),
    (
        Call::Move(0, 1),
        Told::Refused(Refused::Device { code: 3, page: 1 }),
    ),
    (Call::Cleared, Told::At(64)),
    (Call::Live(&TWELVE_MAP), Told::Is(true)),
    (Call::Move(1, 3), Told::Done(Answer::Cleared)),
    (Call::Cleared, Told::At(256)),
    (Call::TruncateCleared, Told::At(256)),
];

const FAILS_ON_PAGE_0: [Row; 8] = [
    (Call::Evict(3), Told::Ok),
    (Call::Stray(3, Turn::Fails), Told::Ok),
    (
        Call::Move(0, 1),
        Told::Refused(Refused::Device { code: 3, page: 0 }),
    ),
    (Call::Cleared, Told::At(64)),
    (Call::Live(&TWELVE_MAP), Told::Is(true)),
    (Call::Move(1, 3), Told::Done(Answer::Cleared)),
    (Call::Cleared, Told::At(256)),
    (Call::TruncateCleared, Told::At(256)),
];

const ZEROS_ON_PAGE_2: [Row; 8] = [
    (Call::Evict(3), Told::Ok),
    (Call::Stray(1, Turn::Clears), Told::Ok),
    (
        Call::Move(0, 1),
        Told::Refused(Refused::Damaged { page: 2 }),
    ),
    (Call::Cleared, Told::At(64)),
    (Call::Live(&TWELVE_MAP), Told::Is(true)),
    (Call::Move(1, 3), Told::Done(Answer::Cleared)),
    (Call::Cleared, Told::At(256)),
    (Call::TruncateCleared, Told::At(256)),
];

const RUNS: [Run; 5] = [
    Run {
        name: "fails at its place",
        config: STEEP,
        opening: &TWELVE,
        rows: &FAILS_AT_ITS_PLACE,
        map: &TWELVE_MAP,
    },
    Run {
        name: "fails on page 2",
        config: STEEP,
        opening: &TWELVE,
        rows: &FAILS_ON_PAGE_2,
        map: &TWELVE_MAP,
    },
    Run {
        name: "fails on page 1",
        config: STEEP,
        opening: &TWELVE,
        rows: &FAILS_ON_PAGE_1,
        map: &TWELVE_MAP,
    },
    Run {
        name: "fails on page 0",
        config: STEEP,
        opening: &TWELVE,
        rows: &FAILS_ON_PAGE_0,
        map: &TWELVE_MAP,
    },
    Run {
        name: "zeros on page 2",
        config: STEEP,
        opening: &TWELVE,
        rows: &ZEROS_ON_PAGE_2,
        map: &TWELVE_MAP,
    },
];

#[test]
fn readers_that_fail(rt: HostRuntime) {
    for run in RUNS {
        let wrong = first_wrong(rt.alloc(), &run);
        assert!(rt; wrong == None, "{}: row {wrong:?}", run.name);
    }
}

/// A class for each key, so a look-up ends in the page of its entry.
const WIDE: Config = Config { frames: 4, ..SMALL };

/// A read of a key of page 1, and of one at the same place of page 2.
const READS: [Row; 2] = [
    (Call::Do(0, Op::Read(b'd', 0)), Told::Done(Answer::Value(1))),
    (Call::Do(0, Op::Read(b'h', 0)), Told::Done(Answer::Value(1))),
];

/// The number of the first read that tells something else, where the reader answers wrongly so after one page.
fn first_other_read(alloc: Global, left: u64) -> Option<usize> {
    let Ok(mut driven) = Driven::new(alloc, &WIDE) else {
        return Some(0);
    };
    let before = [
        (Call::Evict(3), Told::Ok),
        (Call::Stray(left, Turn::Repeats), Told::Ok),
    ];
    if driven.first_other(alloc, &TWELVE) != None || driven.first_other(alloc, &before) != None {
        return Some(0);
    }
    driven.first_other(alloc, &READS)
}

/// A reader that gives the page before is caught by what is read alone, where nothing is known of the bytes: no call is refused.
#[test]
fn keeps_the_page_before(rt: HostRuntime) {
    assert!(rt; first_other_read(rt.alloc(), 1_000) == None);
    assert!(rt; first_other_read(rt.alloc(), 1) == Some(1));
}
