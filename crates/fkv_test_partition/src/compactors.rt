//! Compactors, beside other sessions: two sessions are entered, so that the first that joins has slot 2, and a to c stand at
//! 64, 120 and 176 on page 0, which has left its frame.
use crate::calls::{Call, Row, Told, Work};
use crate::openings::{EVICTED, EVICTED_MAP, SMALL};
use crate::rows::{Run, first_wrong};
use fkv_functions::Refused;
use fkv_operations::{Answer, Op};

const DEVICE: Refused = Refused::Device { code: 3, page: 0 };

/// Two have the same place in hand, and then each another one.
const TWO: [Row; 28] = [
    (Call::Join, Told::At(2)),
    (Call::Join, Told::At(3)),
    (Call::By(1, Work::Slot), Told::At(3)),
    (Call::By(0, Work::Next), Told::Next),
    (Call::By(1, Work::Next), Told::Next),
    (Call::By(0, Work::Next), Told::Loads(64)),
    (Call::By(1, Work::Next), Told::Loads(64)),
    (Call::By(0, Work::Next), Told::Refused(Refused::NotReady)),
    (Call::By(0, Work::Load), Told::Done(Answer::Cleared)),
    (Call::Tail, Told::At(312)),
    // its record was appended again meanwhile
    (Call::By(1, Work::Load), Told::Done(Answer::Cleared)),
    (Call::Tail, Told::At(312)),
    (Call::Cleared, Told::At(120)),
    (Call::By(1, Work::Next), Told::Next),
    (Call::By(1, Work::Next), Told::Loads(120)),
    (Call::By(0, Work::Next), Told::Next),
    (Call::By(1, Work::Load), Told::Done(Answer::Cleared)),
    // its place was cleared meanwhile
    (Call::By(0, Work::Next), Told::Done(Answer::Cleared)),
    (Call::By(0, Work::Next), Told::Next),
    (Call::By(0, Work::Next), Told::Loads(176)),
    (Call::By(0, Work::Load), Told::Done(Answer::Cleared)),
    (Call::Tail, Told::At(424)),
    (Call::By(0, Work::Next), Told::Refused(Refused::NotDue)),
    (Call::By(1, Work::Truncate), Told::At(256)),
    (Call::By(0, Work::Truncate), Told::Refused(Refused::NotDue)),
    (Call::By(0, Work::Part), Told::Ok),
    (Call::By(1, Work::Part), Told::Ok),
    (Call::Leave(3), Told::Refused(Refused::Unknown)),
];

/// What was begun in the contexts of its session by other calls is taken from the lowest one on.
const LOWEST_FIRST: [Row; 13] = [
    (Call::Join, Told::At(2)),
    (Call::Issue(2, Op::Read(b'c', 0)), Told::At(0)),
    (Call::Issue(2, Op::Relocate), Told::At(1)),
    (Call::Issue(2, Op::Relocate), Told::At(2)),
    (Call::Go(2, 2), Told::Loads(64)),
    (Call::By(0, Work::Next), Told::Loads(64)),
    (Call::By(0, Work::Load), Told::Done(Answer::Cleared)),
    (Call::By(0, Work::Next), Told::Refused(Refused::NotReady)),
    (Call::By(0, Work::Load), Told::Done(Answer::Cleared)),
    (Call::By(0, Work::Load), Told::Refused(Refused::Unknown)),
    (Call::By(0, Work::Next), Told::Next),
    (Call::Go(2, 1), Told::Loads(120)),
    (Call::Finish(2, 0), Told::Done(Answer::Value(1))),
];

/// Who parts gives up what is open, each at a moment, and leaves at one more.
const PARTS: [Row; 17] = [
    (Call::Join, Told::At(2)),
    (Call::By(0, Work::Next), Told::Next),
    (Call::By(0, Work::Next), Told::Loads(64)),
    (Call::Issue(1, Op::Relocate), Told::At(0)),
    (Call::Issue(2, Op::Relocate), Told::At(1)),
    (Call::Issue(2, Op::Relocate), Told::At(2)),
    (Call::GiveUp(2, 1), Told::Ok),
    (Call::By(0, Work::PartAt(100)), Told::Ok),
    (Call::Moment, Told::At(103)),
    (Call::Cleared, Told::At(64)),
    (Call::Go(2, 0), Told::Refused(Refused::Unknown)),
    (Call::By(0, Work::Next), Told::Refused(Refused::Unknown)),
    (Call::By(0, Work::Load), Told::Refused(Refused::Unknown)),
    (Call::By(0, Work::Part), Told::Refused(Refused::Unknown)),
    // that of another session is open still
    (Call::Go(1, 0), Told::Loads(64)),
    (Call::Join, Told::At(2)),
    (Call::Go(2, 0), Told::Refused(Refused::Unknown)),
];

/// An operation of its session keeps it, and what it relocated is given up.
const BUSY: [Row; 10] = [
    (Call::Join, Told::At(2)),
    (Call::Issue(2, Op::Read(b'a', 0)), Told::At(0)),
    (Call::By(0, Work::Next), Told::Next),
    (Call::By(0, Work::Part), Told::Refused(Refused::Busy)),
    (Call::Go(2, 1), Told::Refused(Refused::Unknown)),
    (Call::By(0, Work::Next), Told::Next),
    (Call::GiveUp(2, 0), Told::Ok),
    (Call::By(0, Work::PartAt(200)), Told::Ok),
    (Call::Moment, Told::At(202)),
    (Call::By(0, Work::Part), Told::Refused(Refused::Unknown)),
];

/// Want of memory leaves what waits for a page, and another fault ends it.
const FAULTS: [Row; 13] = [
    (Call::Join, Told::At(2)),
    (
        Call::By(0, Work::Fault(DEVICE)),
        Told::Refused(Refused::Unknown),
    ),
    (Call::By(0, Work::Next), Told::Next),
    (
        Call::By(0, Work::Fault(DEVICE)),
        Told::Refused(Refused::NotReady),
    ),
    (Call::By(0, Work::Next), Told::Loads(64)),
    (
        Call::By(0, Work::Fault(Refused::Stalled)),
        Told::Refused(Refused::Stalled),
    ),
    (Call::By(0, Work::Next), Told::Next),
    (Call::By(0, Work::Next), Told::Loads(64)),
    (Call::By(0, Work::Fault(DEVICE)), Told::Refused(DEVICE)),
    (
        Call::By(0, Work::Fault(DEVICE)),
        Told::Refused(Refused::Unknown),
    ),
    (Call::By(0, Work::Truncate), Told::Refused(Refused::NotDue)),
    (Call::Cleared, Told::At(64)),
    (Call::By(0, Work::Part), Told::Ok),
];

/// A clock that may not have enough moments changes nothing.
const WORN: [Row; 9] = [
    (Call::Join, Told::At(2)),
    (Call::By(0, Work::Next), Told::Next),
    (
        Call::By(0, Work::PartAt(18_446_744_073_709_551_615)),
        Told::Refused(Refused::Worn),
    ),
    (Call::Leave(2), Told::Refused(Refused::Worn)),
    (Call::Join, Told::Refused(Refused::Worn)),
    (Call::Moment, Told::At(18_446_744_073_709_551_615)),
    (
        Call::By(0, Work::PartAt(18_446_744_073_709_551_614)),
        Told::Refused(Refused::Stalled),
    ),
    (Call::By(0, Work::Next), Told::Refused(Refused::Worn)),
    (Call::By(0, Work::Slot), Told::At(2)),
];

/// With nine moments left it parts, and with eight it does not.
const LAST_MOMENTS: [Row; 9] = [
    (Call::Join, Told::At(2)),
    (Call::Join, Told::At(3)),
    (Call::By(0, Work::Next), Told::Next),
    (
        Call::By(0, Work::PartAt(18_446_744_073_709_551_606)),
        Told::Ok,
    ),
    (Call::Moment, Told::At(18_446_744_073_709_551_608)),
    (Call::By(1, Work::Next), Told::Next),
    (Call::Moment, Told::At(18_446_744_073_709_551_609)),
    (Call::By(1, Work::Part), Told::Refused(Refused::Worn)),
    (Call::By(1, Work::Next), Told::Loads(64)),
];

/// Eight operations leave no context, and sixteen sessions no slot.
const FULL: [Row; 25] = [
    (Call::Join, Told::At(2)),
    (Call::Issue(2, Op::Read(b'a', 0)), Told::At(0)),
    (Call::Issue(2, Op::Read(b'a', 0)), Told::At(1)),
    (Call::Issue(2, Op::Read(b'a', 0)), Told::At(2)),
    (Call::Issue(2, Op::Read(b'a', 0)), Told::At(3)),
    (Call::Issue(2, Op::Read(b'a', 0)), Told::At(4)),
    (Call::Issue(2, Op::Read(b'a', 0)), Told::At(5)),
    (Call::Issue(2, Op::Read(b'a', 0)), Told::At(6)),
    (Call::Issue(2, Op::Read(b'a', 0)), Told::At(7)),
    (Call::By(0, Work::Next), Told::Refused(Refused::NoContext)),
    (Call::Join, Told::At(3)),
    (Call::Join, Told::At(4)),
    (Call::Join, Told::At(5)),
    (Call::Join, Told::At(6)),
    (Call::Join, Told::At(7)),
    (Call::Join, Told::At(8)),
    (Call::Join, Told::At(9)),
    (Call::Join, Told::At(10)),
    (Call::Join, Told::At(11)),
    (Call::Join, Told::At(12)),
    (Call::Join, Told::At(13)),
    (Call::Join, Told::At(14)),
    (Call::Join, Told::At(15)),
    (Call::Join, Told::Refused(Refused::NoSlot)),
    (Call::By(13, Work::Next), Told::Next),
];

const RUNS: [Run; 8] = [
    Run {
        name: "two",
        config: SMALL,
        opening: &EVICTED,
        rows: &TWO,
        map: &EVICTED_MAP,
    },
    Run {
        name: "lowest_first",
        config: SMALL,
        opening: &EVICTED,
        rows: &LOWEST_FIRST,
        map: &EVICTED_MAP,
    },
    Run {
        name: "parts",
        config: SMALL,
        opening: &EVICTED,
        rows: &PARTS,
        map: &EVICTED_MAP,
    },
    Run {
        name: "busy",
        config: SMALL,
        opening: &EVICTED,
        rows: &BUSY,
        map: &EVICTED_MAP,
    },
    Run {
        name: "faults",
        config: SMALL,
        opening: &EVICTED,
        rows: &FAULTS,
        map: &EVICTED_MAP,
    },
    Run {
        name: "worn",
        config: SMALL,
        opening: &EVICTED,
        rows: &WORN,
        map: &EVICTED_MAP,
    },
    Run {
        name: "last_moments",
        config: SMALL,
        opening: &EVICTED,
        rows: &LAST_MOMENTS,
        map: &EVICTED_MAP,
    },
    Run {
        name: "full",
        config: SMALL,
        opening: &EVICTED,
        rows: &FULL,
        map: &EVICTED_MAP,
    },
];

#[test]
fn compactors(rt: HostRuntime) {
    for run in RUNS {
        let wrong = first_wrong(rt.alloc(), &run);
        assert!(rt; wrong == None, "{}: row {wrong:?}", run.name);
    }
}
