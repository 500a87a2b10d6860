//! What passes hear of one another.
use crate::calls::SMALL;
use fkv_device::MemoryDevice;
use fkv_functions::{Name, Refused, SumFns, What};
use fkv_histories::{Audited, Plain, Recorder};
use fkv_operations::{Answer, KeyedOp};
use fkv_partition::Config;
use fkv_store::{Open, Store};
use std::alloc::Global;
use std::rt::Clock;
use std::sync::Wait;
use std::test::Fail;

/// What a pass of the second store tells as it hears of this partition from a pass of the first, which made two updates there, and
/// then as it reads their key.
struct Row {
    ids: [u64; 2],
    partition: usize,
    hears: Result<(), Refused>,
    reads: Result<Answer<i128>, Refused>,
}

const ROWS: [Row; 3] = [
    // two stores of one number can't be told apart: but the second one has no update yet
    Row {
        ids: [1, 1],
        partition: 0,
        hears: Ok(()),
        reads: Err(Refused::Stranger {
            what: What::Pass,
            held: 0,
            came: 2,
        }),
    },
    Row {
        ids: [1, 1],
        partition: 1,
        hears: Err(Refused::Stranger {
            what: What::Pass,
            held: 1,
            came: 1,
        }),
        reads: Ok(Answer::Absent),
    },
    Row {
        ids: [1, 2],
        partition: 0,
        hears: Err(Refused::Stranger {
            what: What::Pass,
            held: 2,
            came: 1,
        }),
        reads: Ok(Answer::Absent),
    },
];

/// Whether two stores tell what a row says.
fn tells<H: Recorder<SumFns>>(
    rt: &(impl Wait + Clock),
    alloc: Global,
    row: &Row,
) -> Result<bool, Fail> {
    let Some(key) = Name::new(b"a") else {
        return Ok(false);
    };
    let config = Config {
        id: row.ids[0],
        ..SMALL
    };
    let device = MemoryDevice::new(alloc);
    let one = Store::<SumFns, MemoryDevice, H>::open(alloc, &config, SumFns, device)?;
    let config = Config {
        id: row.ids[1],
        ..SMALL
    };
    let device = MemoryDevice::new(alloc);
    let two = Store::<SumFns, MemoryDevice, H>::open(alloc, &config, SumFns, device)?;
    let mut first = one.pass(rt, alloc, 0)?;
    let mut second = two.pass(rt, alloc, 1)?;
    for _update in 0..2 {
        let _answer = first.run(rt, alloc, &one, KeyedOp::Rmw(key, 1), &Open)?;
    }
    let mark = first.mark(row.partition);
    Ok(
        second.hear(&mark) == row.hears
            && second.run(rt, alloc, &two, KeyedOp::Read(key, 0), &Open) == row.reads,
    )
}

#[test]
fn strangers_are_not_heard(rt: HostRuntime) -> Result<(), Fail> {
    for row in &ROWS {
        assert!(rt; tells::<Audited<SumFns>>(&rt, rt.alloc(), row)?);
        assert!(rt; tells::<Plain>(&rt, rt.alloc(), row)?);
    }
    Ok(())
}

/// A pass that hears of two updates of another reads them.
#[test]
fn a_pass_is_heard(rt: HostRuntime) -> Result<(), Fail> {
    let alloc = rt.alloc();
    let device = MemoryDevice::new(alloc);
    let store = Store::<SumFns, MemoryDevice, Plain>::open(alloc, &SMALL, SumFns, device)?;
    let Some(key) = Name::new(b"a") else {
        return Ok(());
    };
    let mut first = store.pass(&rt, alloc, 0)?;
    let mut second = store.pass(&rt, alloc, 1)?;
    for _update in 0..2 {
        let _answer = first.run(&rt, alloc, &store, KeyedOp::Rmw(key, 1), &Open)?;
    }
    second.hear(&first.mark(store.home(&key)))?;
    let read = second.run(&rt, alloc, &store, KeyedOp::Read(key, 0), &Open)?;
    assert!(rt; read == Answer::Value(2));
    Ok(())
}
