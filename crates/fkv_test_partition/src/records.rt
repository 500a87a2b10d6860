//! Where records stand and which are before them in their classes, over several pages: eight keys of one class and of classes
//! of their own, tombstones, and a log of which one half is flushed.
use crate::calls::{Call, Row, Told};
use crate::openings::{SMALL, STEEP};
use crate::rows::{Run, first_wrong};
use fkv_functions::Refused;
use fkv_operations::{Answer, Op};
use fkv_partition::Config;

/// Two rounds of eight keys, the second behind what is read-only by then; then all is frozen, and all but the last page is
/// read from the device.
const TWO_ROUNDS: [Row; 47] = [
    (Call::Enter, Told::At(0)),
    (Call::Enter, Told::At(1)),
    // each record of the first round
    (Call::Tail, Told::At(64)),
    (Call::Do(0, Op::Upsert(b'a', 0)), Told::Done(Answer::Stored)),
    (Call::Tail, Told::At(120)),
    (Call::Do(0, Op::Upsert(b'b', 1)), Told::Done(Answer::Stored)),
    (Call::Tail, Told::At(176)),
    (Call::Do(0, Op::Upsert(b'c', 2)), Told::Done(Answer::Stored)),
    (Call::Tail, Told::At(256)),
    (Call::Do(0, Op::Upsert(b'd', 3)), Told::Done(Answer::Stored)),
    (Call::Tail, Told::At(312)),
    (Call::Do(0, Op::Upsert(b'e', 4)), Told::Done(Answer::Stored)),
    (Call::Tail, Told::At(368)),
    (Call::Do(0, Op::Upsert(b'f', 5)), Told::Done(Answer::Stored)),
    (Call::Tail, Told::At(424)),
    (Call::Do(0, Op::Upsert(b'g', 6)), Told::Done(Answer::Stored)),
    (Call::Tail, Told::At(512)),
    (Call::Do(0, Op::Upsert(b'h', 7)), Told::Done(Answer::Stored)),
    (Call::Freeze(2), Told::Ok),
    // and of the second one, behind what is read-only by then
    (Call::Tail, Told::At(568)),
    (Call::Do(0, Op::Upsert(b'a', 8)), Told::Done(Answer::Stored)),
    (Call::Tail, Told::At(624)),
    (Call::Do(0, Op::Upsert(b'b', 9)), Told::Done(Answer::Stored)),
    (Call::Tail, Told::At(680)),
    (
        Call::Do(0, Op::Upsert(b'c', 10)),
        Told::Done(Answer::Stored),
    ),
    (Call::Tail, Told::At(768)),
    (
        Call::Do(0, Op::Upsert(b'd', 11)),
        Told::Done(Answer::Stored),
    ),
    (Call::Tail, Told::At(824)),
    (
        Call::Do(0, Op::Upsert(b'e', 12)),
        Told::Done(Answer::Stored),
    ),
    (Call::Tail, Told::At(880)),
    (
        Call::Do(0, Op::Upsert(b'f', 13)),
        Told::Done(Answer::Stored),
    ),
    (Call::Tail, Told::At(936)),
    (
        Call::Do(0, Op::Upsert(b'g', 14)),
        Told::Done(Answer::Stored),
    ),
    (Call::Freeze(3), Told::Ok),
    (Call::Tail, Told::At(1024)),
    (
        Call::Do(0, Op::Upsert(b'h', 15)),
        Told::Done(Answer::Stored),
    ),
    (Call::Tail, Told::At(1080)),
    (Call::Do(1, Op::Read(b'a', 0)), Told::Done(Answer::Value(8))),
    (Call::Do(1, Op::Read(b'b', 0)), Told::Done(Answer::Value(9))),
    (
        Call::Do(1, Op::Read(b'c', 0)),
        Told::Done(Answer::Value(10)),
    ),
    (
        Call::Do(1, Op::Read(b'd', 0)),
        Told::Done(Answer::Value(11)),
    ),
    (
        Call::Do(1, Op::Read(b'e', 0)),
        Told::Done(Answer::Value(12)),
    ),
    (
        Call::Do(1, Op::Read(b'f', 0)),
        Told::Done(Answer::Value(13)),
    ),
    (
        Call::Do(1, Op::Read(b'g', 0)),
        Told::Done(Answer::Value(14)),
    ),
    (
        Call::Do(1, Op::Read(b'h', 0)),
        Told::Done(Answer::Value(15)),
    ),
    (Call::Freeze(4), Told::Ok),
    (Call::Evict(4), Told::Ok),
];

/// The eight keys are of one class.
const ONE_CLASS: [Row; 18] = [
    // h stands in memory; the records before it lead from page to page
    (Call::Issue(0, Op::Read(b'a', 0)), Told::At(0)),
    (Call::Ready(0, 0), Told::Loads(936)),
    (Call::Load(0, 0), Told::Loads(680)),
    (Call::Load(0, 0), Told::Done(Answer::Value(8))),
    // a key of the class without a record
    (Call::Issue(0, Op::Read(b'i', 0)), Told::At(0)),
    (Call::Ready(0, 0), Told::Loads(936)),
    (Call::Load(0, 0), Told::Loads(680)),
    (Call::Load(0, 0), Told::Loads(424)),
    (Call::Load(0, 0), Told::Loads(176)),
    (Call::Load(0, 0), Told::Done(Answer::Absent)),
    (Call::Do(0, Op::Read(b'a', 0)), Told::Done(Answer::Value(8))),
    (Call::Do(0, Op::Read(b'b', 0)), Told::Done(Answer::Value(9))),
    (
        Call::Do(0, Op::Read(b'c', 0)),
        Told::Done(Answer::Value(10)),
    ),
    (
        Call::Do(0, Op::Read(b'd', 0)),
        Told::Done(Answer::Value(11)),
    ),
    (
        Call::Do(0, Op::Read(b'e', 0)),
        Told::Done(Answer::Value(12)),
    ),
    (
        Call::Do(0, Op::Read(b'f', 0)),
        Told::Done(Answer::Value(13)),
    ),
    (
        Call::Do(0, Op::Read(b'g', 0)),
        Told::Done(Answer::Value(14)),
    ),
    (
        Call::Do(0, Op::Read(b'h', 0)),
        Told::Done(Answer::Value(15)),
    ),
];

/// The eight keys have classes of their own.
const CLASSES: [Row; 23] = [
    // each key is read where its last record stands
    (Call::Issue(0, Op::Read(b'a', 0)), Told::At(0)),
    (Call::Ready(0, 0), Told::Loads(568)),
    (Call::Load(0, 0), Told::Done(Answer::Value(8))),
    (Call::Issue(0, Op::Read(b'b', 0)), Told::At(0)),
    (Call::Ready(0, 0), Told::Loads(624)),
    (Call::Load(0, 0), Told::Done(Answer::Value(9))),
    (Call::Issue(0, Op::Read(b'c', 0)), Told::At(0)),
    (Call::Ready(0, 0), Told::Loads(680)),
    (Call::Load(0, 0), Told::Done(Answer::Value(10))),
    (Call::Issue(0, Op::Read(b'd', 0)), Told::At(0)),
    (Call::Ready(0, 0), Told::Loads(768)),
    (Call::Load(0, 0), Told::Done(Answer::Value(11))),
    (Call::Issue(0, Op::Read(b'e', 0)), Told::At(0)),
    (Call::Ready(0, 0), Told::Loads(824)),
    (Call::Load(0, 0), Told::Done(Answer::Value(12))),
    (Call::Issue(0, Op::Read(b'f', 0)), Told::At(0)),
    (Call::Ready(0, 0), Told::Loads(880)),
    (Call::Load(0, 0), Told::Done(Answer::Value(13))),
    (Call::Issue(0, Op::Read(b'g', 0)), Told::At(0)),
    (Call::Ready(0, 0), Told::Loads(936)),
    (Call::Load(0, 0), Told::Done(Answer::Value(14))),
    (
        Call::Do(0, Op::Read(b'h', 0)),
        Told::Done(Answer::Value(15)),
    ),
    (Call::Do(0, Op::Read(b'i', 0)), Told::Done(Answer::Absent)),
];

/// A tombstone is a record of its own, and takes the key out of the live map.
const TOMBSTONES: [Row; 22] = [
    (Call::Enter, Told::At(0)),
    (Call::Enter, Told::At(1)),
    (Call::Do(0, Op::Upsert(b'a', 0)), Told::Done(Answer::Stored)),
    (Call::Do(0, Op::Upsert(b'b', 1)), Told::Done(Answer::Stored)),
    (Call::Do(0, Op::Upsert(b'c', 2)), Told::Done(Answer::Stored)),
    (Call::Do(0, Op::Upsert(b'd', 3)), Told::Done(Answer::Stored)),
    (Call::Do(0, Op::Upsert(b'e', 4)), Told::Done(Answer::Stored)),
    (Call::Do(0, Op::Upsert(b'f', 5)), Told::Done(Answer::Stored)),
    (Call::Do(0, Op::Upsert(b'g', 6)), Told::Done(Answer::Stored)),
    (Call::Do(0, Op::Upsert(b'h', 7)), Told::Done(Answer::Stored)),
    (Call::Freeze(2), Told::Ok),
    (Call::Tail, Told::At(568)),
    (Call::Do(0, Op::Delete(b'c')), Told::Done(Answer::Deleted)),
    (Call::Tail, Told::At(624)),
    (Call::Do(0, Op::Delete(b'f')), Told::Done(Answer::Deleted)),
    (Call::Tail, Told::At(680)),
    // nothing is written over a tombstone
    (
        Call::Do(0, Op::Upsert(b'f', -5)),
        Told::Done(Answer::Stored),
    ),
    (Call::Tail, Told::At(768)),
    (Call::Do(1, Op::Read(b'c', 0)), Told::Done(Answer::Absent)),
    (
        Call::Do(1, Op::Read(b'f', 0)),
        Told::Done(Answer::Value(-5)),
    ),
    (Call::Do(1, Op::Read(b'h', 0)), Told::Done(Answer::Value(7))),
    (Call::Do(1, Op::Read(b'i', 0)), Told::Done(Answer::Absent)),
];

/// Page 0 is frozen, flushed and closed while two sessions look on, and what was there is read from the device.
const HALF_FLUSHED: [Row; 85] = [
    (Call::Live(&[]), Told::Is(true)),
    (
        Call::Do(0, Op::Read(b'a', 0)),
        Told::Refused(Refused::Unknown),
    ),
    (Call::Enter, Told::At(0)),
    (Call::Do(0, Op::Read(b'a', 0)), Told::Done(Answer::Absent)),
    (Call::Do(0, Op::Upsert(b'a', 1)), Told::Done(Answer::Stored)),
    (Call::Do(0, Op::Upsert(b'b', 2)), Told::Done(Answer::Stored)),
    // what is mutable is changed where it stands
    (Call::Tail, Told::At(176)),
    (Call::Do(0, Op::Rmw(b'a', 4)), Told::Done(Answer::Value(5))),
    (Call::Do(0, Op::Delete(b'b')), Told::Done(Answer::Deleted)),
    (Call::Do(0, Op::Delete(b'b')), Told::Done(Answer::Deleted)),
    (Call::Do(0, Op::Read(b'b', 0)), Told::Done(Answer::Absent)),
    (Call::Tail, Told::At(176)),
    (Call::Do(0, Op::Rmw(b'c', 3)), Told::Done(Answer::Value(3))),
    (Call::Tail, Told::At(256)),
    (Call::Live(&[(b'a', 5), (b'c', 3)]), Told::Is(true)),
    (Call::Do(0, Op::Upsert(b'd', 7)), Told::Done(Answer::Stored)),
    (Call::Do(0, Op::Upsert(b'e', 8)), Told::Done(Answer::Stored)),
    (Call::Do(0, Op::Upsert(b'f', 9)), Told::Done(Answer::Stored)),
    (
        Call::Do(0, Op::Upsert(b'g', 10)),
        Told::Done(Answer::Stored),
    ),
    // page 2 would take the frame of page 0
    (Call::Tail, Told::At(512)),
    (Call::Do(0, Op::Upsert(b'h', 1)), Told::Full),
    (Call::GiveUp(0, 0), Told::Ok),
    (Call::Head(1), Told::Refused(Refused::NotDue)),
    (Call::ReadOnly(3), Told::Refused(Refused::NotDue)),
    (Call::ReadOnly(1), Told::Ok),
    (Call::ReadOnly(1), Told::Refused(Refused::NotDue)),
    // the first session has not seen it, and still changes page 0 in place
    (Call::Do(0, Op::Rmw(b'a', 1)), Told::Done(Answer::Value(6))),
    (Call::Flush, Told::Refused(Refused::NotDue)),
    (Call::Enter, Told::At(1)),
    (Call::Do(1, Op::Rmw(b'a', 1)), Told::Fuzzy),
    (Call::GiveUp(1, 0), Told::Ok),
    (Call::Do(1, Op::Read(b'a', 0)), Told::Done(Answer::Value(6))),
    (Call::Do(1, Op::Upsert(b'c', 1)), Told::Full),
    (Call::GiveUp(1, 0), Told::Ok),
    (Call::Refresh(0), Told::Ok),
    (
        Call::Live(&[
            (b'a', 6),
            (b'c', 3),
            (b'd', 7),
            (b'e', 8),
            (b'f', 9),
            (b'g', 10),
        ]),
        Told::Is(true),
    ),
    (Call::Flush, Told::At(0)),
    (Call::Flush, Told::Refused(Refused::NotDue)),
    // flushed, and read from the device by a scan, but from its frame by a session
    (
        Call::Live(&[
            (b'a', 6),
            (b'c', 3),
            (b'd', 7),
            (b'e', 8),
            (b'f', 9),
            (b'g', 10),
        ]),
        Told::Is(true),
    ),
    (Call::Do(0, Op::Read(b'a', 0)), Told::Done(Answer::Value(6))),
    (Call::Do(0, Op::Rmw(b'a', 1)), Told::Full),
    (Call::GiveUp(0, 0), Told::Ok),
    (Call::Head(2), Told::Refused(Refused::NotDue)),
    (Call::Head(1), Told::Ok),
    (Call::Do(0, Op::Read(b'a', 0)), Told::Done(Answer::Value(6))),
    (Call::Do(0, Op::Upsert(b'h', 1)), Told::Full),
    (Call::GiveUp(0, 0), Told::Ok),
    (Call::Refresh(0), Told::Ok),
    // the first session does not read page 0 in memory any more, the second still does
    (Call::Issue(0, Op::Read(b'a', 0)), Told::At(0)),
    (Call::Ready(0, 0), Told::Loads(176)),
    (Call::Do(1, Op::Read(b'a', 0)), Told::Done(Answer::Value(6))),
    (Call::Do(1, Op::Upsert(b'h', 1)), Told::Full),
    (Call::GiveUp(1, 0), Told::Ok),
    (Call::Refresh(1), Told::Ok),
    (Call::Issue(1, Op::Read(b'b', 0)), Told::At(0)),
    (Call::Ready(1, 0), Told::Loads(176)),
    (Call::Issue(1, Op::Rmw(b'a', 1)), Told::At(1)),
    (Call::Ready(1, 1), Told::Loads(176)),
    (Call::Load(0, 0), Told::Done(Answer::Value(6))),
    (Call::Load(1, 0), Told::Done(Answer::Absent)),
    (Call::GiveUp(1, 1), Told::Ok),
    (Call::Do(0, Op::Read(b'z', 0)), Told::Done(Answer::Absent)),
    // a blind write needs no load
    (Call::Do(0, Op::Upsert(b'a', 2)), Told::Done(Answer::Stored)),
    (Call::Tail, Told::At(568)),
    (Call::Do(1, Op::Read(b'a', 0)), Told::Done(Answer::Value(2))),
    (Call::Do(0, Op::Rmw(b'b', 5)), Told::Done(Answer::Value(5))),
    (Call::Do(1, Op::Read(b'c', 0)), Told::Done(Answer::Value(3))),
    (Call::Do(1, Op::Read(b'i', 0)), Told::Done(Answer::Absent)),
    (
        Call::Live(&[
            (b'a', 2),
            (b'b', 5),
            (b'c', 3),
            (b'd', 7),
            (b'e', 8),
            (b'f', 9),
            (b'g', 10),
        ]),
        Told::Is(true),
    ),
    (Call::ReadOnly(2), Told::Ok),
    (Call::Refresh(0), Told::Ok),
    (Call::Leave(1), Told::Ok),
    (Call::Leave(1), Told::Refused(Refused::Unknown)),
    (Call::Refresh(1), Told::Refused(Refused::Unknown)),
    (Call::Flush, Told::At(1)),
    (Call::Tail, Told::At(624)),
    (Call::Head(2), Told::Ok),
    (Call::Refresh(0), Told::Ok),
    // from the two in memory to page 1, and to page 0
    (Call::Issue(0, Op::Read(b'd', 0)), Told::At(0)),
    (Call::Ready(0, 0), Told::Loads(424)),
    (Call::Load(0, 0), Told::Done(Answer::Value(7))),
    (Call::Issue(0, Op::Read(b'c', 0)), Told::At(0)),
    (Call::Ready(0, 0), Told::Loads(424)),
    (Call::Load(0, 0), Told::Loads(176)),
    (Call::Load(0, 0), Told::Done(Answer::Value(3))),
];

/// Frames for each page that is written.
const ONE_BUCKET: Config = Config { frames: 8, ..STEEP };

/// Eight keys with classes of their own.
pub const A_CLASS_EACH: Run = Run {
    name: "a class each",
    config: Config { frames: 8, ..SMALL },
    opening: &TWO_ROUNDS,
    rows: &CLASSES,
    map: &[
        (b'a', 8),
        (b'b', 9),
        (b'c', 10),
        (b'd', 11),
        (b'e', 12),
        (b'f', 13),
        (b'g', 14),
        (b'h', 15),
    ],
};

/// Two frames for eight keys of one class.
pub const A_HALF_FLUSHED_LOG: Run = Run {
    name: "a half flushed log",
    config: Config { frames: 2, ..STEEP },
    opening: &[],
    rows: &HALF_FLUSHED,
    map: &[
        (b'a', 2),
        (b'b', 5),
        (b'c', 3),
        (b'd', 7),
        (b'e', 8),
        (b'f', 9),
        (b'g', 10),
    ],
};

const RUNS: [Run; 4] = [
    Run {
        name: "one class",
        config: ONE_BUCKET,
        opening: &TWO_ROUNDS,
        rows: &ONE_CLASS,
        map: &[
            (b'a', 8),
            (b'b', 9),
            (b'c', 10),
            (b'd', 11),
            (b'e', 12),
            (b'f', 13),
            (b'g', 14),
            (b'h', 15),
        ],
    },
    A_CLASS_EACH,
    Run {
        name: "tombstones",
        config: ONE_BUCKET,
        opening: &[],
        rows: &TOMBSTONES,
        map: &[
            (b'a', 0),
            (b'b', 1),
            (b'd', 3),
            (b'e', 4),
            (b'f', -5),
            (b'g', 6),
            (b'h', 7),
        ],
    },
    A_HALF_FLUSHED_LOG,
];

#[test]
fn records(rt: HostRuntime) {
    for run in RUNS {
        let wrong = first_wrong(rt.alloc(), &run);
        assert!(rt; wrong == None, "{}: row {wrong:?}", run.name);
    }
}
