//! Ways from an entry over several pages down to the place of a relocation: one bucket, so that all keys of one letter are
//! of one class, and four frames.
use crate::calls::{Call, Row, Told};
use crate::openings::{AGAIN, AGAIN_MAP, STEEP, TWELVE, TWELVE_MAP};
use crate::rows::{Run, first_wrong};
use fkv_functions::{Refused, What};
use fkv_operations::{Answer, Op};

const IN_MEMORY: [Row; 13] = [
    (Call::Issue(0, Op::Relocate), Told::At(0)),
    (Call::Go(0, 0), Told::Done(Answer::Cleared)),
    (Call::Tail, Told::At(880)),
    (Call::Move(1, 2), Told::Done(Answer::Cleared)),
    (Call::Tail, Told::At(1024)),
    // Head is lower
    (Call::TruncateCleared, Told::Refused(Refused::NotDue)),
    (Call::Truncate(1), Told::Refused(Refused::NotDue)),
    (Call::Move(1, 1), Told::Full),
    (Call::Evict(1), Told::Ok),
    (Call::Finish(1, 0), Told::Done(Answer::Cleared)),
    (Call::Cleared, Told::At(312)),
    (Call::TruncateCleared, Told::At(256)),
    (Call::Tail, Told::At(1080)),
];

const ON_THE_DEVICE: [Row; 15] = [
    (Call::Evict(3), Told::Ok),
    (Call::Issue(0, Op::Relocate), Told::At(0)),
    (Call::Go(0, 0), Told::Loads(64)),
    (Call::Load(0, 0), Told::Loads(680)),
    (Call::Go(0, 0), Told::Refused(Refused::NotReady)),
    (Call::Load(0, 0), Told::Loads(424)),
    (Call::Load(0, 0), Told::Loads(176)),
    (Call::Load(0, 0), Told::Done(Answer::Cleared)),
    (Call::Move(0, 1), Told::Done(Answer::Cleared)),
    (Call::Tail, Told::At(936)),
    (Call::Issue(1, Op::Relocate), Told::At(0)),
    (Call::Go(1, 0), Told::Loads(176)),
    (Call::Load(1, 0), Told::Loads(680)),
    (Call::Load(1, 0), Told::Loads(424)),
    // the way comes down to its very place
    (Call::Load(1, 0), Told::Done(Answer::Cleared)),
];

const A_NEWER_RECORD: [Row; 17] = [
    (Call::Evict(3), Told::Ok),
    (Call::Issue(0, Op::Relocate), Told::At(0)),
    (Call::Go(0, 0), Told::Loads(64)),
    (Call::Load(0, 0), Told::Loads(680)),
    (Call::Load(0, 0), Told::Loads(424)),
    // the newer record stands at 256
    (Call::Load(0, 0), Told::Done(Answer::Cleared)),
    (Call::Tail, Told::At(768)),
    (Call::Cleared, Told::At(120)),
    (Call::Move(0, 2), Told::Done(Answer::Cleared)),
    (Call::Tail, Told::At(880)),
    (Call::TruncateCleared, Told::At(256)),
    (Call::Issue(1, Op::Relocate), Told::At(0)),
    (Call::Go(1, 0), Told::Loads(256)),
    (Call::Load(1, 0), Told::Loads(680)),
    (Call::Load(1, 0), Told::Loads(424)),
    (Call::Load(1, 0), Told::Done(Answer::Cleared)),
    (Call::Tail, Told::At(936)),
];

/// Begin moves while relocations wait for pages: of one the place is cleared by then, of another not.
const BEGIN_MOVES: [Row; 26] = [
    (Call::Evict(3), Told::Ok),
    (Call::Issue(0, Op::Relocate), Told::At(0)),
    (Call::Go(0, 0), Told::Loads(64)),
    (Call::Load(0, 0), Told::Loads(680)),
    (Call::Issue(0, Op::Relocate), Told::At(1)),
    (Call::Go(0, 1), Told::Loads(64)),
    (Call::Move(1, 3), Told::Done(Answer::Cleared)),
    (Call::Tail, Told::At(1024)),
    (Call::Issue(0, Op::Relocate), Told::At(2)),
    (Call::Go(0, 2), Told::Loads(256)),
    (Call::Issue(0, Op::Relocate), Told::At(3)),
    (Call::Go(0, 3), Told::Loads(256)),
    (Call::Load(0, 3), Told::Loads(680)),
    (Call::TruncateCleared, Told::At(256)),
    (Call::Load(0, 0), Told::Next),
    (
        Call::Fault(0, 1, Refused::Device { code: 3, page: 0 }),
        Told::Next,
    ),
    (Call::Fault(0, 2, Refused::NoMemory), Told::Next),
    (Call::LoadBy(0, 3), Told::Next),
    (Call::Go(0, 0), Told::Done(Answer::Cleared)),
    (Call::Go(0, 1), Told::Done(Answer::Cleared)),
    (Call::Go(0, 2), Told::Loads(256)),
    (Call::Go(0, 3), Told::Loads(256)),
    (Call::Finish(0, 2), Told::Refused(Refused::NotReady)),
    (Call::LoadBy(0, 2), Told::Loads(680)),
    (Call::LoadBy(0, 2), Told::Loads(424)),
    (Call::LoadBy(0, 2), Told::Done(Answer::Cleared)),
];

/// Another key of the class is written while a relocation waits for a page on its way: it begins anew.
const THE_ENTRY_MOVES: [Row; 13] = [
    (Call::Evict(3), Told::Ok),
    (Call::Issue(0, Op::Relocate), Told::At(0)),
    (Call::Go(0, 0), Told::Loads(64)),
    (Call::Load(0, 0), Told::Loads(680)),
    (Call::Load(0, 0), Told::Loads(424)),
    (Call::Do(1, Op::Upsert(b'm', 1)), Told::Done(Answer::Stored)),
    (Call::Do(1, Op::Delete(b'm')), Told::Done(Answer::Deleted)),
    (Call::Load(0, 0), Told::Loads(176)),
    (Call::Load(0, 0), Told::Next),
    (Call::Cleared, Told::At(64)),
    (Call::Finish(0, 0), Told::Done(Answer::Cleared)),
    (Call::Cleared, Told::At(120)),
    (Call::Tail, Told::At(936)),
];

/// Pages of other receipts than those that are waited for: of the place, and on the way.
const OTHER_PAGES: [Row; 12] = [
    (Call::Evict(3), Told::Ok),
    (Call::Issue(0, Op::Relocate), Told::At(0)),
    (Call::Issue(0, Op::Read(b'd', 0)), Told::At(1)),
    (Call::Ready(0, 1), Told::Loads(680)),
    (Call::Go(0, 0), Told::Loads(64)),
    (
        Call::LoadOther(0, 0, 1),
        Told::Refused(Refused::Stranger {
            what: What::Receipt,
            held: 0,
            came: 2,
        }),
    ),
    (Call::Load(0, 0), Told::Loads(680)),
    (Call::Load(0, 1), Told::Loads(424)),
    (
        Call::LoadOther(0, 0, 1),
        Told::Refused(Refused::Stranger {
            what: What::Receipt,
            held: 2,
            came: 1,
        }),
    ),
    (Call::Load(0, 0), Told::Loads(424)),
    (Call::Load(0, 0), Told::Loads(176)),
    (Call::Load(0, 0), Told::Done(Answer::Cleared)),
];

const RUNS: [Run; 6] = [
    Run {
        name: "in_memory",
        config: STEEP,
        opening: &TWELVE,
        rows: &IN_MEMORY,
        map: &TWELVE_MAP,
    },
    Run {
        name: "on_the_device",
        config: STEEP,
        opening: &TWELVE,
        rows: &ON_THE_DEVICE,
        map: &TWELVE_MAP,
    },
    Run {
        name: "a_newer_record",
        config: STEEP,
        opening: &AGAIN,
        rows: &A_NEWER_RECORD,
        map: &AGAIN_MAP,
    },
    Run {
        name: "begin_moves",
        config: STEEP,
        opening: &TWELVE,
        rows: &BEGIN_MOVES,
        map: &TWELVE_MAP,
    },
    Run {
        name: "the_entry_moves",
        config: STEEP,
        opening: &TWELVE,
        rows: &THE_ENTRY_MOVES,
        map: &TWELVE_MAP,
    },
    Run {
        name: "other_pages",
        config: STEEP,
        opening: &TWELVE,
        rows: &OTHER_PAGES,
        map: &TWELVE_MAP,
    },
];

#[test]
fn ways(rt: HostRuntime) {
    for run in RUNS {
        let wrong = first_wrong(rt.alloc(), &run);
        assert!(rt; wrong == None, "{}: row {wrong:?}", run.name);
    }
}
