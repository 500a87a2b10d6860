//! What is refused, in the order of the tests.
use crate::calls::{Call, Row, Told};
use crate::driven::Driven;
use crate::openings::{EVICTED, EVICTED_MAP, SMALL};
use crate::rows::{Run, first_wrong};
use fkv_functions::{Refused, What};
use fkv_operations::{Answer, Op};
use fkv_partition::Config;

const DEVICE: Refused = Refused::Device { code: 3, page: 0 };

/// A context of one session is no context of the one before it.
const UNKNOWN: [Row; 18] = [
    (
        Call::Issue(2, Op::Relocate),
        Told::Refused(Refused::Unknown),
    ),
    (
        Call::Issue(16, Op::Relocate),
        Told::Refused(Refused::Unknown),
    ),
    (Call::Leave(2), Told::Refused(Refused::Unknown)),
    (Call::Leave(16), Told::Refused(Refused::Unknown)),
    (Call::Go(0, 0), Told::Refused(Refused::Unknown)),
    (Call::Go(2, 0), Told::Refused(Refused::Unknown)),
    (Call::Go(16, 0), Told::Refused(Refused::Unknown)),
    (Call::Fault(0, 0, DEVICE), Told::Refused(Refused::Unknown)),
    (Call::GiveUp(0, 0), Told::Refused(Refused::Unknown)),
    (Call::Issue(1, Op::Relocate), Told::At(0)),
    (Call::Go(1, 0), Told::Loads(64)),
    (Call::Go(0, 8), Told::Refused(Refused::Unknown)),
    (Call::Fault(0, 8, DEVICE), Told::Refused(Refused::Unknown)),
    (Call::GiveUp(0, 8), Told::Refused(Refused::Unknown)),
    (Call::Issue(0, Op::Read(b'b', 0)), Told::At(0)),
    (Call::Fault(0, 0, DEVICE), Told::Refused(Refused::NotReady)),
    (Call::Load(1, 0), Told::Done(Answer::Cleared)),
    (Call::Finish(0, 0), Told::Done(Answer::Value(1))),
];

/// Want of memory leaves a relocation, and another fault ends it.
const FAULTS: [Row; 19] = [
    (Call::Issue(0, Op::Relocate), Told::At(0)),
    (Call::Fault(0, 0, DEVICE), Told::Refused(Refused::NotReady)),
    (Call::Go(0, 0), Told::Loads(64)),
    (
        Call::Fault(0, 0, Refused::NoMemory),
        Told::Refused(Refused::NoMemory),
    ),
    (Call::Go(0, 0), Told::Refused(Refused::NotReady)),
    (Call::Load(0, 0), Told::Done(Answer::Cleared)),
    (Call::Issue(0, Op::Relocate), Told::At(0)),
    (Call::Go(0, 0), Told::Loads(120)),
    (Call::Fault(0, 0, DEVICE), Told::Refused(DEVICE)),
    (Call::Go(0, 0), Told::Refused(Refused::Unknown)),
    (Call::Cleared, Told::At(120)),
    (Call::Tail, Told::At(312)),
    (Call::Issue(0, Op::Relocate), Told::At(0)),
    (Call::Go(0, 0), Told::Loads(120)),
    (Call::GiveUp(0, 0), Told::Ok),
    (Call::GiveUp(0, 0), Told::Refused(Refused::Unknown)),
    (Call::Cleared, Told::At(120)),
    (Call::Tail, Told::At(312)),
    (Call::Move(1, 2), Told::Done(Answer::Cleared)),
];

/// A relocation is due by what its own session sees.
const VIEWS: [Row; 18] = [
    (Call::Enter, Told::At(0)),
    (Call::Enter, Told::At(1)),
    (Call::Issue(0, Op::Relocate), Told::Refused(Refused::NotDue)),
    (
        Call::Do(0, Op::Upsert(b'a', 10)),
        Told::Done(Answer::Stored),
    ),
    (Call::Do(0, Op::Upsert(b'b', 1)), Told::Done(Answer::Stored)),
    (Call::Do(0, Op::Upsert(b'c', 1)), Told::Done(Answer::Stored)),
    (Call::Issue(0, Op::Relocate), Told::Refused(Refused::NotDue)),
    (Call::ReadOnly(1), Told::Ok),
    (Call::Refresh(0), Told::Ok),
    (Call::Issue(0, Op::Relocate), Told::Refused(Refused::NotDue)),
    (Call::Refresh(1), Told::Ok),
    (Call::Issue(0, Op::Relocate), Told::Refused(Refused::NotDue)),
    (Call::Issue(1, Op::Relocate), Told::At(0)),
    (Call::Go(1, 0), Told::Done(Answer::Cleared)),
    (Call::Issue(0, Op::Relocate), Told::Refused(Refused::NotDue)),
    (Call::Refresh(0), Told::Ok),
    (Call::Move(0, 2), Told::Done(Answer::Cleared)),
    (Call::Issue(0, Op::Relocate), Told::Refused(Refused::NotDue)),
];

/// Eight contexts, of operations and of relocations, the lowest first.
const CONTEXTS: [Row; 20] = [
    (Call::Issue(0, Op::Read(b'a', 0)), Told::At(0)),
    (Call::Issue(0, Op::Relocate), Told::At(1)),
    (Call::Issue(0, Op::Read(b'a', 0)), Told::At(2)),
    (Call::Issue(0, Op::Read(b'a', 0)), Told::At(3)),
    (Call::Issue(0, Op::Relocate), Told::At(4)),
    (Call::Issue(0, Op::Relocate), Told::At(5)),
    (Call::Issue(0, Op::Relocate), Told::At(6)),
    (Call::Issue(0, Op::Read(b'a', 0)), Told::At(7)),
    (
        Call::Issue(0, Op::Read(b'a', 0)),
        Told::Refused(Refused::NoContext),
    ),
    (
        Call::Issue(0, Op::Relocate),
        Told::Refused(Refused::NoContext),
    ),
    (Call::Issue(1, Op::Relocate), Told::At(0)),
    (Call::GiveUp(0, 5), Told::Ok),
    (Call::GiveUp(0, 2), Told::Ok),
    (Call::Issue(0, Op::Relocate), Told::At(2)),
    (Call::Issue(0, Op::Read(b'b', 0)), Told::At(5)),
    (
        Call::Issue(0, Op::Relocate),
        Told::Refused(Refused::NoContext),
    ),
    (Call::Finish(0, 1), Told::Done(Answer::Cleared)),
    (Call::Finish(0, 5), Told::Done(Answer::Value(1))),
    (Call::Issue(0, Op::Read(b'c', 0)), Told::At(1)),
    (Call::Finish(0, 1), Told::Done(Answer::Value(1))),
];

/// What is not due is told before that no context is free.
const NOT_DUE_FIRST: [Row; 10] = [
    (Call::Move(0, 3), Told::Done(Answer::Cleared)),
    (Call::Issue(0, Op::Read(b'a', 0)), Told::At(0)),
    (Call::Issue(0, Op::Read(b'a', 0)), Told::At(1)),
    (Call::Issue(0, Op::Read(b'a', 0)), Told::At(2)),
    (Call::Issue(0, Op::Read(b'a', 0)), Told::At(3)),
    (Call::Issue(0, Op::Read(b'a', 0)), Told::At(4)),
    (Call::Issue(0, Op::Read(b'a', 0)), Told::At(5)),
    (Call::Issue(0, Op::Read(b'a', 0)), Told::At(6)),
    (Call::Issue(0, Op::Read(b'a', 0)), Told::At(7)),
    (Call::Issue(0, Op::Relocate), Told::Refused(Refused::NotDue)),
];

/// A session is not left while one of its relocations is open, or one of its operations; those of others are not in the
/// way.
const LEAVES: [Row; 18] = [
    (Call::Issue(1, Op::Relocate), Told::At(0)),
    (Call::Leave(1), Told::Refused(Refused::Busy)),
    (Call::Go(1, 0), Told::Loads(64)),
    (Call::Leave(1), Told::Refused(Refused::Busy)),
    (Call::Leave(0), Told::Ok),
    (Call::Load(1, 0), Told::Done(Answer::Cleared)),
    (Call::Issue(1, Op::Relocate), Told::At(0)),
    (Call::Issue(1, Op::Read(b'a', 0)), Told::At(1)),
    (Call::GiveUp(1, 0), Told::Ok),
    (Call::Leave(1), Told::Refused(Refused::Busy)),
    (Call::GiveUp(1, 1), Told::Ok),
    (Call::Leave(1), Told::Ok),
    (Call::Leave(1), Told::Refused(Refused::Unknown)),
    (
        Call::Issue(1, Op::Relocate),
        Told::Refused(Refused::Unknown),
    ),
    (Call::Go(1, 0), Told::Refused(Refused::Unknown)),
    (Call::Enter, Told::At(0)),
    (Call::Go(0, 0), Told::Refused(Refused::Unknown)),
    (Call::Move(0, 2), Told::Done(Answer::Cleared)),
];

/// Begin rises, and passes neither what is cleared nor Head.
const TRUNCATIONS: [Row; 17] = [
    (Call::Truncate(0), Told::Refused(Refused::NotDue)),
    (Call::Truncate(1), Told::Refused(Refused::NotDue)),
    (Call::TruncateCleared, Told::Refused(Refused::NotDue)),
    (Call::Move(1, 2), Told::Done(Answer::Cleared)),
    (Call::Truncate(1), Told::Refused(Refused::NotDue)),
    (Call::TruncateCleared, Told::Refused(Refused::NotDue)),
    (Call::Move(1, 1), Told::Done(Answer::Cleared)),
    (Call::Truncate(2), Told::Refused(Refused::NotDue)),
    (
        Call::Truncate(72_057_594_037_927_937),
        Told::Refused(Refused::NotDue),
    ),
    (
        Call::Truncate(18_446_744_073_709_551_615),
        Told::Refused(Refused::NotDue),
    ),
    (Call::Truncate(0), Told::Refused(Refused::NotDue)),
    (Call::Begin, Told::At(64)),
    (Call::Truncate(1), Told::Ok),
    (Call::Begin, Told::At(256)),
    (Call::Truncate(1), Told::Refused(Refused::NotDue)),
    (Call::Truncate(0), Told::Refused(Refused::NotDue)),
    (Call::TruncateCleared, Told::Refused(Refused::NotDue)),
];

/// The keys of another partition.
const ANOTHER_PARTITION: [Row; 12] = [
    (
        Call::Issue(0, Op::Read(b'a', 0)),
        Told::Refused(Refused::Unknown),
    ),
    (Call::Enter, Told::At(0)),
    (
        Call::Issue(0, Op::Read(b'b', 0)),
        Told::Refused(Refused::Stranger {
            what: What::Partition,
            held: 0,
            came: 1,
        }),
    ),
    (Call::Issue(0, Op::Read(b'a', 0)), Told::At(0)),
    (Call::Issue(0, Op::Read(b'a', 0)), Told::At(1)),
    (Call::Issue(0, Op::Read(b'a', 0)), Told::At(2)),
    (Call::Issue(0, Op::Read(b'a', 0)), Told::At(3)),
    (Call::Issue(0, Op::Read(b'a', 0)), Told::At(4)),
    (Call::Issue(0, Op::Read(b'a', 0)), Told::At(5)),
    (Call::Issue(0, Op::Read(b'a', 0)), Told::At(6)),
    (Call::Issue(0, Op::Read(b'a', 0)), Told::At(7)),
    // told before that no context is free
    (
        Call::Issue(0, Op::Read(b'b', 0)),
        Told::Refused(Refused::Stranger {
            what: What::Partition,
            held: 0,
            came: 1,
        }),
    ),
];

const OF_TWO: Config = Config {
    id: 1,
    partition_bits: 1,
    bucket_bits: 8,
    page_bits: 8,
    frames: 2,
    turns: 1_000_000,
};

const RUNS: [Run; 8] = [
    Run {
        name: "unknown",
        config: SMALL,
        opening: &EVICTED,
        rows: &UNKNOWN,
        map: &EVICTED_MAP,
    },
    Run {
        name: "faults",
        config: SMALL,
        opening: &EVICTED,
        rows: &FAULTS,
        map: &EVICTED_MAP,
    },
    Run {
        name: "views",
        config: SMALL,
        opening: &[],
        rows: &VIEWS,
        map: &EVICTED_MAP,
    },
    Run {
        name: "contexts",
        config: SMALL,
        opening: &EVICTED,
        rows: &CONTEXTS,
        map: &EVICTED_MAP,
    },
    Run {
        name: "not_due_first",
        config: SMALL,
        opening: &EVICTED,
        rows: &NOT_DUE_FIRST,
        map: &EVICTED_MAP,
    },
    Run {
        name: "leaves",
        config: SMALL,
        opening: &EVICTED,
        rows: &LEAVES,
        map: &EVICTED_MAP,
    },
    Run {
        name: "truncations",
        config: SMALL,
        opening: &EVICTED,
        rows: &TRUNCATIONS,
        map: &EVICTED_MAP,
    },
    Run {
        name: "another_partition",
        config: OF_TWO,
        opening: &[],
        rows: &ANOTHER_PARTITION,
        map: &[],
    },
];

#[test]
fn refusals(rt: HostRuntime) {
    for run in RUNS {
        let wrong = first_wrong(rt.alloc(), &run);
        assert!(rt; wrong == None, "{}: row {wrong:?}", run.name);
    }
}

#[test]
fn bad_configurations(rt: HostRuntime) {
    let no_frame = Config { frames: 0, ..SMALL };
    let made = Driven::new(rt.alloc(), &no_frame);
    assert!(rt; matches!(made, Err(Refused::BadConfig)));
}
