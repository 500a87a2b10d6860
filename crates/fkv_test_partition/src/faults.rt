//! A device that passes so many calls, fails the next, and goes on: each write and each read of a run in turn. The call that
//! meets the fault tells it, and made again it tells what it would have told.
use crate::calls::{Call, Told};
use crate::driven::Driven;
use crate::openings::SMALL;
use fkv_functions::Refused;
use fkv_operations::{Answer, Op};
use fkv_test_devices::Turn;
use std::alloc::Global;

/// A call, what it is to tell, and the page of a fault that it may tell in place of that.
type Step = (Call, Told, Option<u64>);

/// The page of the pending read is read too, and is no longer needed: whatever comes of it, the read looks again.
const TRUNCATION_UNDER_A_PENDING_READ: [Step; 17] = [
    (Call::Enter, Told::At(0), None),
    (Call::Enter, Told::At(1), None),
    (
        Call::Do(0, Op::Upsert(b'a', 10)),
        Told::Done(Answer::Stored),
        None,
    ),
    (
        Call::Do(0, Op::Upsert(b'b', 1)),
        Told::Done(Answer::Stored),
        None,
    ),
    (
        Call::Do(0, Op::Upsert(b'c', 1)),
        Told::Done(Answer::Stored),
        None,
    ),
    (Call::Freeze(1), Told::Ok, None),
    (Call::Evict(1), Told::Ok, Some(0)),
    (Call::Issue(0, Op::Read(b'a', 0)), Told::At(0), None),
    (Call::Ready(0, 0), Told::Loads(64), None),
    (Call::Move(1, 1), Told::Done(Answer::Cleared), Some(0)),
    (Call::Move(1, 1), Told::Done(Answer::Cleared), Some(0)),
    (Call::Move(1, 1), Told::Done(Answer::Cleared), Some(0)),
    (
        Call::Issue(1, Op::Relocate),
        Told::Refused(Refused::NotDue),
        None,
    ),
    (Call::TruncateCleared, Told::At(256), None),
    (Call::TruncateCleared, Told::Refused(Refused::NotDue), None),
    (Call::Load(0, 0), Told::Next, None),
    (Call::Finish(0, 0), Told::Done(Answer::Value(10)), None),
];

const FULL: [Step; 20] = [
    (Call::Enter, Told::At(0), None),
    (
        Call::Do(0, Op::Upsert(b'a', 1)),
        Told::Done(Answer::Stored),
        None,
    ),
    (
        Call::Do(0, Op::Upsert(b'b', 2)),
        Told::Done(Answer::Stored),
        None,
    ),
    (
        Call::Do(0, Op::Upsert(b'c', 3)),
        Told::Done(Answer::Stored),
        None,
    ),
    (
        Call::Do(0, Op::Upsert(b'd', 4)),
        Told::Done(Answer::Stored),
        None,
    ),
    (
        Call::Do(0, Op::Upsert(b'e', 5)),
        Told::Done(Answer::Stored),
        None,
    ),
    (
        Call::Do(0, Op::Upsert(b'f', 6)),
        Told::Done(Answer::Stored),
        None,
    ),
    (
        Call::Do(0, Op::Upsert(b'g', 7)),
        Told::Done(Answer::Stored),
        None,
    ),
    (Call::Do(0, Op::Upsert(b'h', 8)), Told::Full, None),
    (Call::ReadOnly(2), Told::Ok, None),
    (Call::Refresh(0), Told::Ok, None),
    (Call::Flush, Told::At(0), Some(0)),
    (Call::Head(2), Told::Refused(Refused::NotDue), None),
    (Call::Head(1), Told::Ok, None),
    (Call::Finish(0, 0), Told::Full, None),
    (Call::Refresh(0), Told::Ok, None),
    (Call::Finish(0, 0), Told::Done(Answer::Stored), None),
    (Call::Flush, Told::At(1), Some(1)),
    (Call::Flush, Told::Refused(Refused::NotDue), None),
    (
        Call::Do(0, Op::Read(b'a', 0)),
        Told::Done(Answer::Value(1)),
        Some(0),
    ),
];

/// A run with the live map at its end, and how many of its writes and reads of a page are needed.
#[derive(Drop)]
struct Run {
    name: &'static str,
    steps: &'static [Step],
    map: &'static [(u8, i128)],
    writes: u64,
    reads: u64,
}

const RUNS: [Run; 2] = [
    Run {
        name: "truncation_under_a_pending_read",
        steps: &TRUNCATION_UNDER_A_PENDING_READ,
        map: &[(b'a', 10), (b'b', 1), (b'c', 1)],
        writes: 1,
        reads: 3,
    },
    Run {
        name: "full",
        steps: &FULL,
        map: &[
            (b'a', 1),
            (b'b', 2),
            (b'c', 3),
            (b'd', 4),
            (b'e', 5),
            (b'f', 6),
            (b'g', 7),
            (b'h', 8),
        ],
        writes: 2,
        reads: 1,
    },
];

/// How often a fault was told, where each other step tells what it is to tell, and the live map at the end, of a device
/// that fails no more, is the run's. `None` where anything else is told.
fn faults_told(alloc: Global, run: &Run, fault: Call, code: u8) -> Option<u64> {
    let Ok(mut driven) = Driven::new(alloc, &SMALL) else {
        return None;
    };
    if driven.call(alloc, fault) != Told::Ok {
        return None;
    }
    let mut faults = 0u64;
    let mut next = 0usize;
    // a call that told a fault is made again
    for _ in 0..40 {
        let Some(step) = run.steps.get(next) else {
            break;
        };
        let told = driven.call(alloc, step.0);
        match step.2 {
            _ if told == step.1 => next = next.saturating_add(1),
            Some(page) if told == Told::Refused(Refused::Device { code, page }) => {
                faults = faults.saturating_add(1);
            }
            _ => return None,
        }
    }
    let ending = [
        (Call::Stray(1_000, Turn::Fails), Told::Ok),
        (Call::Live(run.map), Told::Is(true)),
    ];
    if next == run.steps.len() && driven.first_other(alloc, &ending) == None {
        Some(faults)
    } else {
        None
    }
}

/// After how many calls of a device a fault is first told no more, where it is told once after each number below that.
fn first_without(alloc: Global, run: &Run, writes: bool) -> Option<u64> {
    for passed in 0..40u64 {
        let told = if writes {
            faults_told(alloc, run, Call::FailWrite(passed), 2)
        } else {
            faults_told(alloc, run, Call::Stray(passed, Turn::Fails), 3)
        };
        match told {
            Some(1) => (),
            Some(0) => return Some(passed),
            _ => return None,
        }
    }
    None
}

#[test]
fn each_call_of_a_device_fails_in_turn(rt: HostRuntime) {
    for run in RUNS {
        let writes = first_without(rt.alloc(), &run, true);
        assert!(rt;
            writes == Some(run.writes),
            "{}: writes {writes:?}",
            run.name
        );
        let reads = first_without(rt.alloc(), &run, false);
        assert!(rt; reads == Some(run.reads), "{}: reads {reads:?}", run.name);
    }
}
