//! Two callers, each in a thread of its own.
use crate::calls::SMALL;
use fkv_device::MemoryDevice;
use fkv_functions::{Name, Refused, SumFns};
use fkv_histories::{Audited, Plain, Recorder};
use fkv_operations::KeyedOp;
use fkv_store::{Open, Pass, Store};
use std::alloc::Global;
use std::rt::Clock;
use std::sync::Wait;
use std::test::Fail;
use std::thread;
use std::thread::Threads;

/// The updates of each caller.
const EACH: usize = 1_000;

/// Adds 1 to key a, so many times.
fn add_ones<H: Recorder<SumFns>>(
    rt: &(impl Wait + Clock),
    alloc: Global,
    store: &Store<SumFns, MemoryDevice, H>,
    pass: &mut Pass<SumFns, MemoryDevice, H>,
) -> Result<(), Refused> {
    let Some(key) = Name::new(b"a") else {
        return Err(Refused::Unknown);
    };
    for _ in 0..EACH {
        let _sum = pass.run(rt, alloc, store, KeyedOp::Rmw(key, 1), &Open)?;
    }
    Ok(())
}

/// What key a has, and how many operations were finished, after two callers have added to it in threads of their own.
fn summed<H: Recorder<SumFns> + Send, T: Threads + Wait + Clock + Sync>(
    rt: &T,
    alloc: Global,
) -> Result<(Option<i128>, u64), Fail> {
    let store = Store::<SumFns, MemoryDevice, H>::open(
        alloc,
        &SMALL,
        SumFns,
        MemoryDevice::new(alloc),
    )?;
    let mut one = store.pass(rt, alloc, 0)?;
    let mut two = store.pass(rt, alloc, 1)?;
    let (left, right) = thread::join(
        rt,
        || add_ones(rt, alloc, &store, &mut one),
        || add_ones(rt, alloc, &store, &mut two),
    );
    left?;
    right?;
    let passes = vec![in alloc; one, two]?;
    let closed = store.close(alloc, passes)?;
    let held = match Name::new(b"a") {
        Some(key) => closed.map.get(&key).copied(),
        None => None,
    };
    Ok((held, closed.finished))
}

#[test]
fn two_callers(rt: HostRuntime) -> Result<(), Fail> {
    let audited = summed::<Audited<SumFns>, _>(&rt, rt.alloc())?;
    assert!(rt; audited == (Some(2_000), 2_000));
    let plain = summed::<Plain, _>(&rt, rt.alloc())?;
    assert!(rt; plain == (Some(2_000), 2_000));
    Ok(())
}
