//! Runs in which each event that is refused memory is made again: it changed nothing, so all is told as with memory.
//! `bench/refuse_growths` runs them with each allocation refused in turn.
use crate::calls::{Call, Row, Told};
use crate::openings::{EVICTED, SMALL, STEEP};
use crate::records::{A_CLASS_EACH, A_HALF_FLUSHED_LOG};
use crate::relocations::TOMBSTONES;
use crate::rows::{Run, first_wrong};
use crate::{alone, lone};
use fkv_functions::Refused;
use fkv_operations::{Answer, Op};

const WAYS_AND_CLAIMS: [Row; 54] = [
    (Call::Enter, Told::At(0)),
    (Call::Enter, Told::At(1)),
    // three records on page 0, four on each of the next two, and one in memory
    (Call::Do(0, Op::Upsert(b'a', 1)), Told::Done(Answer::Stored)),
    (Call::Do(0, Op::Upsert(b'b', 1)), Told::Done(Answer::Stored)),
    (Call::Do(0, Op::Upsert(b'c', 1)), Told::Done(Answer::Stored)),
    (Call::Do(0, Op::Upsert(b'd', 1)), Told::Done(Answer::Stored)),
    (Call::Do(0, Op::Upsert(b'e', 1)), Told::Done(Answer::Stored)),
    (Call::Do(0, Op::Upsert(b'f', 1)), Told::Done(Answer::Stored)),
    (Call::Do(0, Op::Upsert(b'g', 1)), Told::Done(Answer::Stored)),
    (Call::Do(0, Op::Upsert(b'h', 1)), Told::Done(Answer::Stored)),
    (Call::Do(0, Op::Upsert(b'i', 1)), Told::Done(Answer::Stored)),
    (Call::Do(0, Op::Upsert(b'j', 1)), Told::Done(Answer::Stored)),
    (Call::Do(0, Op::Upsert(b'k', 1)), Told::Done(Answer::Stored)),
    (Call::Do(0, Op::Upsert(b'l', 1)), Told::Done(Answer::Stored)),
    (Call::ReadOnly(3), Told::Ok),
    (Call::Refresh(0), Told::Ok),
    (Call::Refresh(1), Told::Ok),
    (Call::Flush, Told::At(0)),
    (Call::Flush, Told::At(1)),
    (Call::Flush, Told::At(2)),
    (Call::Head(3), Told::Ok),
    (Call::Refresh(0), Told::Ok),
    (Call::Refresh(1), Told::Ok),
    (Call::Tail, Told::At(824)),
    // an update whose chain goes over those pages
    (Call::Issue(0, Op::Rmw(b'a', 5)), Told::At(0)),
    (Call::Ready(0, 0), Told::Loads(680)),
    (Call::Load(0, 0), Told::Loads(424)),
    // while it waits, first writes of more classes than a bucket has words, and pages that leave their frames
    (Call::Do(1, Op::Upsert(b'A', 2)), Told::Done(Answer::Stored)),
    (Call::Do(1, Op::Upsert(b'B', 2)), Told::Done(Answer::Stored)),
    (Call::Do(1, Op::Upsert(b'C', 2)), Told::Done(Answer::Stored)),
    (Call::Do(1, Op::Upsert(b'D', 2)), Told::Done(Answer::Stored)),
    (Call::Do(1, Op::Upsert(b'E', 2)), Told::Done(Answer::Stored)),
    (Call::Do(1, Op::Upsert(b'F', 2)), Told::Done(Answer::Stored)),
    (Call::Do(1, Op::Upsert(b'G', 2)), Told::Done(Answer::Stored)),
    (Call::Do(1, Op::Upsert(b'H', 2)), Told::Done(Answer::Stored)),
    (Call::Do(1, Op::Upsert(b'I', 2)), Told::Done(Answer::Stored)),
    (Call::ReadOnly(5), Told::Ok),
    (Call::Refresh(0), Told::Ok),
    (Call::Refresh(1), Told::Ok),
    (Call::Flush, Told::At(3)),
    (Call::Flush, Told::At(4)),
    (Call::Head(5), Told::Ok),
    (Call::Refresh(0), Told::Ok),
    (Call::Refresh(1), Told::Ok),
    // memory that was refused to who read the page
    (
        Call::Fault(0, 0, Refused::NoMemory),
        Told::Refused(Refused::NoMemory),
    ),
    (Call::Load(0, 0), Told::Loads(176)),
    (Call::Load(0, 0), Told::Builds(Some(1))),
    (Call::Install(0, 0), Told::Done(Answer::Value(6))),
    // a read over four pages
    (Call::Issue(1, Op::Read(b'b', 0)), Told::At(0)),
    (Call::Ready(1, 0), Told::Loads(768)),
    (Call::Load(1, 0), Told::Loads(680)),
    (Call::Load(1, 0), Told::Loads(424)),
    (Call::Load(1, 0), Told::Loads(176)),
    (Call::Load(1, 0), Told::Done(Answer::Value(1))),
];

const RUNS: [Run; 4] = [
    Run {
        name: "ways and claims",
        config: STEEP,
        opening: &[],
        rows: &WAYS_AND_CLAIMS,
        map: &[
            (b'A', 2),
            (b'B', 2),
            (b'C', 2),
            (b'D', 2),
            (b'E', 2),
            (b'F', 2),
            (b'G', 2),
            (b'H', 2),
            (b'I', 2),
            (b'a', 6),
            (b'b', 1),
            (b'c', 1),
            (b'd', 1),
            (b'e', 1),
            (b'f', 1),
            (b'g', 1),
            (b'h', 1),
            (b'i', 1),
            (b'j', 1),
            (b'k', 1),
            (b'l', 1),
        ],
    },
    Run {
        name: "tombstones",
        config: SMALL,
        opening: &EVICTED,
        rows: &TOMBSTONES,
        map: &[(b'b', 1), (b'c', 1), (b'd', 4)],
    },
    A_CLASS_EACH,
    A_HALF_FLUSHED_LOG,
];

#[test]
fn refused_growths_are_called_again(rt: HostRuntime) {
    for run in RUNS {
        let wrong = first_wrong(rt.alloc(), &run);
        assert!(rt; wrong == None, "{}: row {wrong:?}", run.name);
    }
}

#[test]
fn refused_growths_of_operations_alone(rt: HostRuntime) {
    let wrong = lone::first_wrong(rt.alloc(), &alone::GROWTHS);
    assert!(rt; wrong == None, "row {wrong:?}");
}
