//! Where two refusals hold at once the first is told, in the order of the tests. The other pairs of a partition's calls stand
//! among the runs of `refusals` and `operations`.
use crate::calls::{Call, Row, Told};
use crate::openings::{FULL, FULL_MAP, SMALL};
use crate::rows::{Run, first_wrong};
use fkv_functions::{Refused, What};
use fkv_operations::{Answer, Op};
use fkv_partition::Config;
use fkv_test_devices::Turn;

const DEVICE: Refused = Refused::Device { code: 3, page: 0 };

/// With no session, a key of another partition, and a relocation that is not due.
const UNKNOWN_FIRST: [Row; 3] = [
    (
        Call::Issue(0, Op::Read(b'b', 0)),
        Told::Refused(Refused::Unknown),
    ),
    (
        Call::Issue(0, Op::Relocate),
        Told::Refused(Refused::Unknown),
    ),
    (Call::Tail, Told::At(64)),
];

/// Begin is compared before the page: where it moved, neither another page, nor a fault in its place, nor what its bytes are
/// counts.
const BEGIN_FIRST: [Row; 23] = [
    (Call::Evict(2), Told::Ok),
    (Call::Issue(0, Op::Read(b'a', 0)), Told::At(0)),
    (Call::Ready(0, 0), Told::Loads(64)),
    (Call::Issue(0, Op::Read(b'd', 0)), Told::At(1)),
    (Call::Ready(0, 1), Told::Loads(256)),
    (Call::Issue(0, Op::Read(b'b', 0)), Told::At(2)),
    (Call::Ready(0, 2), Told::Loads(120)),
    (Call::Issue(0, Op::Read(b'c', 0)), Told::At(3)),
    (Call::Ready(0, 3), Told::Loads(176)),
    (Call::Move(1, 3), Told::Done(Answer::Cleared)),
    (Call::Truncate(1), Told::Ok),
    (Call::LoadOther(0, 0, 1), Told::Next),
    (Call::Fault(0, 2, DEVICE), Told::Next),
    (Call::Stray(0, Turn::Clears), Told::Ok),
    (Call::Load(0, 3), Told::Next),
    // nothing is asked for any more
    (Call::Fault(0, 2, DEVICE), Told::Refused(Refused::NotReady)),
    (Call::Go(0, 0), Told::Done(Answer::Value(1))),
    (Call::Go(0, 2), Told::Done(Answer::Value(2))),
    (Call::Go(0, 3), Told::Done(Answer::Value(3))),
    // nor which page it is: the look-up is made anew
    (Call::Load(0, 1), Told::Next),
    (Call::Go(0, 1), Told::Loads(256)),
    (Call::Load(0, 1), Told::Done(Answer::Value(4))),
    (Call::Tail, Told::At(680)),
];

/// A page of another receipt, whose bytes are zeros.
const RECEIPT_FIRST: [Row; 10] = [
    (Call::Evict(2), Told::Ok),
    (Call::Issue(0, Op::Read(b'a', 0)), Told::At(0)),
    (Call::Ready(0, 0), Told::Loads(64)),
    (Call::Issue(0, Op::Read(b'd', 0)), Told::At(1)),
    (Call::Ready(0, 1), Told::Loads(256)),
    (Call::Stray(0, Turn::Clears), Told::Ok),
    (
        Call::LoadOther(0, 0, 1),
        Told::Refused(Refused::Stranger {
            what: What::Receipt,
            held: 0,
            came: 1,
        }),
    ),
    (Call::Go(0, 0), Told::Refused(Refused::NotReady)),
    (Call::Load(0, 0), Told::Done(Answer::Value(1))),
    (Call::Load(0, 1), Told::Done(Answer::Value(4))),
];

const OF_TWO: Config = Config {
    partition_bits: 1,
    ..SMALL
};

const RUNS: [Run; 3] = [
    Run {
        name: "unknown_first",
        config: OF_TWO,
        opening: &[],
        rows: &UNKNOWN_FIRST,
        map: &[],
    },
    Run {
        name: "begin_first",
        config: SMALL,
        opening: &FULL,
        rows: &BEGIN_FIRST,
        map: &FULL_MAP,
    },
    Run {
        name: "receipt_first",
        config: SMALL,
        opening: &FULL,
        rows: &RECEIPT_FIRST,
        map: &FULL_MAP,
    },
];

#[test]
fn order_of_refusals(rt: HostRuntime) {
    for run in RUNS {
        let wrong = first_wrong(rt.alloc(), &run);
        assert!(rt; wrong == None, "{}: row {wrong:?}", run.name);
    }
}
