//! Two passes of which a growth may be refused: what was refused is asked again, and the end has what was answered.
use crate::calls::SMALL;
use fkv_device::MemoryDevice;
use fkv_functions::{Name, Refused, SumFns};
use fkv_histories::{Audited, Plain, Recorder};
use fkv_operations::{Answer, KeyedOp};
use fkv_store::{Open, Pass, Store};
use std::alloc::Global;
use std::rt::Clock;
use std::sync::Wait;
use std::test::Fail;

type Passed<H> = Pass<SumFns, MemoryDevice, H>;

/// Adds 1 to key a, and where that is refused for want of memory once more.
fn add_one<H: Recorder<SumFns>>(
    rt: &(impl Wait + Clock),
    alloc: Global,
    store: &Store<SumFns, MemoryDevice, H>,
    pass: &mut Passed<H>,
) -> Result<Answer<i128>, Refused> {
    let Some(key) = Name::new(b"a") else {
        return Err(Refused::Unknown);
    };
    match pass.run(rt, alloc, store, KeyedOp::Rmw(key, 1), &Open) {
        Err(Refused::NoMemory) => pass.run(rt, alloc, store, KeyedOp::Rmw(key, 1), &Open),
        told => told,
    }
}

/// How many operations were finished, where each of two passes adds 1 to key a, or what was refused of the store's beginning
/// and end. Any other refusal is told as `Mismatch`.
fn finished<H: Recorder<SumFns>>(rt: &(impl Wait + Clock), alloc: Global) -> Result<u64, Refused> {
    let device = MemoryDevice::new(alloc);
    let store = Store::<SumFns, MemoryDevice, H>::open(alloc, &SMALL, SumFns, device)?;
    let mut one = store.pass(rt, alloc, 0)?;
    let mut two = store.pass(rt, alloc, 1)?;
    let first = add_one(rt, alloc, &store, &mut one);
    let second = add_one(rt, alloc, &store, &mut two);
    if first != Ok(Answer::Value(1)) || second != Ok(Answer::Value(2)) {
        return Err(Refused::Mismatch);
    }
    let Ok(mut passes) = Vec::with_capacity(alloc, 2) else {
        return Err(Refused::NoMemory);
    };
    let (Ok(()), Ok(())) = (passes.push(one), passes.push(two)) else {
        return Err(Refused::NoMemory);
    };
    let closed = store.close(alloc, passes)?;
    let held = match Name::new(b"a") {
        Some(key) => closed.map.get(&key).copied(),
        None => None,
    };
    if held != Some(2) {
        return Err(Refused::Mismatch);
    }
    Ok(closed.finished)
}

#[test]
fn refused_growths_of_audited_passes(rt: HostRuntime) -> Result<(), Fail> {
    let told = finished::<Audited<SumFns>>(&rt, rt.alloc());
    assert!(rt; told == Ok(2) || told == Err(Refused::NoMemory), "{told:?}");
    Ok(())
}

#[test]
fn refused_growths_of_plain_passes(rt: HostRuntime) -> Result<(), Fail> {
    let told = finished::<Plain>(&rt, rt.alloc());
    assert!(rt; told == Ok(2) || told == Err(Refused::NoMemory), "{told:?}");
    Ok(())
}
