//! Workers that are held at gates, so that what others do meanwhile is seen.
use crate::tables::{LETTERS, LETTERS_TABLE, SMALL, summed};
use fkv_functions::SumFns;
use fkv_histories::{Audited, Plain};
use fkv_partition::Config;
use fkv_store::{Gate, Place};
use std::sync::atomic::{AtomicBool, Ordering};
use std::test::Fail;
use std::thread;

/// How often a worker that is held looks, at the most.
const TURNS: u64 = 10_000_000;

/// Holds whoever comes until a flag is set. It is told where that took too long.
fn hold(until: &AtomicBool, failed: &AtomicBool) {
    for _ in 0..TURNS {
        if until.load(Ordering::SeqCst) {
            return;
        }
        thread::yield_now();
    }
    failed.store(true, Ordering::SeqCst);
}

/// Holds worker 1 at its start until worker 0 is at a place of its own for the first time, and worker 0 there until worker 1
/// is answered.
#[derive(Drop)]
struct Held {
    place: Place,
    is_there: AtomicBool,
    is_answered: AtomicBool,
    failed: AtomicBool,
}

impl Held {
    fn at(place: Place) -> Held {
        Held {
            place,
            is_there: AtomicBool::new(false),
            is_answered: AtomicBool::new(false),
            failed: AtomicBool::new(false),
        }
    }
}

impl Gate for Held {
    fn pass(&self, worker: u32, place: Place) {
        if worker == 0 && place == self.place {
            if !self.is_there.swap(true, Ordering::SeqCst) {
                hold(&self.is_answered, &self.failed);
            }
        } else if worker == 1 && place == Place::Start {
            hold(&self.is_there, &self.failed);
        } else if worker == 1 && place == Place::Answered {
            self.is_answered.store(true, Ordering::SeqCst);
        }
    }
}

/// While one worker reads a page, another one is answered.
#[test]
fn gate_two_threads(rt: HostRuntime) -> Result<(), Fail> {
    let feeds: [&[u8]; 2] = [LETTERS, b"t,1\n"];
    let gate = Held::at(Place::Load);
    let text = summed::<Audited<SumFns>, _, _>(&rt, rt.alloc(), &feeds, 2, &SMALL, &gate)?;
    assert!(rt; !gate.failed.load(Ordering::SeqCst));
    assert!(rt; text.as_slice() == LETTERS_TABLE);
    let gate = Held::at(Place::Load);
    let text = summed::<Plain, _, _>(&rt, rt.alloc(), &feeds, 2, &SMALL, &gate)?;
    assert!(rt; !gate.failed.load(Ordering::SeqCst));
    assert!(rt; text.as_slice() == LETTERS_TABLE);
    Ok(())
}

/// While one worker holds the lock of a partition, another one is answered by another partition.
#[test]
fn gate_two_locks(rt: HostRuntime) -> Result<(), Fail> {
    let two = Config {
        partition_bits: 1,
        ..SMALL
    };
    let feeds: [&[u8]; 2] = [b"a,1\n", b"b,1\n"];
    let gate = Held::at(Place::Locked(0));
    let text = summed::<Audited<SumFns>, _, _>(&rt, rt.alloc(), &feeds, 2, &two, &gate)?;
    assert!(rt; !gate.failed.load(Ordering::SeqCst));
    assert!(rt; text.as_slice() == b"a,1\nb,1\n".as_slice());
    let gate = Held::at(Place::Locked(0));
    let text = summed::<Plain, _, _>(&rt, rt.alloc(), &feeds, 2, &two, &gate)?;
    assert!(rt; !gate.failed.load(Ordering::SeqCst));
    assert!(rt; text.as_slice() == b"a,1\nb,1\n".as_slice());
    Ok(())
}
