//! Passes that share a partition: who waits for whom.
use crate::calls::{Call, Called, IMPATIENT, Row, SMALL, Told};
use fkv_device::MemoryDevice;
use fkv_functions::{Name, Refused, SumFns, What};
use fkv_histories::{Audited, Plain, Recorder};
use fkv_operations::{Answer, KeyedOp};
use fkv_partition::Config;
use fkv_store::{Open, Store};
use std::alloc::Global;
use std::rt::Clock;
use std::sync::Wait;
use std::test::Fail;

pub fn stored(call: Call) -> Row {
    (call, Told::Done(Answer::Stored))
}

pub fn value(call: Call, value: i128) -> Row {
    (call, Told::Done(Answer::Value(value)))
}

/// The number of the first row that tells something else, of a store with this recorder.
fn first_other<H: Recorder<SumFns>>(
    rt: &(impl Wait + Clock),
    alloc: Global,
    config: &Config,
    rows: &[Row],
) -> Result<Option<usize>, Fail> {
    let mut called = Called::<MemoryDevice, H>::new(rt, alloc, config, MemoryDevice::new(alloc))?;
    Ok(called.first_other(rt, alloc, rows))
}

/// An update of a value that one session may still change in place waits for that session.
fn fuzzy() -> [Row; 9] {
    [
        stored(Call::Upsert(1, b'a', 10)),
        stored(Call::Upsert(0, b'b', 1)),
        stored(Call::Upsert(0, b'c', 1)),
        (Call::Tidy(0), Told::Count(64)),
        (Call::Refresh(0), Told::Ok),
        (Call::Update(0, b'a', 1), Told::Refused(Refused::Stalled)),
        (Call::Rest(1), Told::Ok),
        value(Call::Update(0, b'a', 1), 11),
        value(Call::Read(1, b'a'), 11),
    ]
}

#[test]
fn stalled_by_a_fuzzy_value(rt: HostRuntime) -> Result<(), Fail> {
    let audited = first_other::<Audited<SumFns>>(&rt, rt.alloc(), &IMPATIENT, &fuzzy())?;
    assert!(rt; audited == None, "row {audited:?}");
    let plain = first_other::<Plain>(&rt, rt.alloc(), &IMPATIENT, &fuzzy())?;
    assert!(rt; plain == None, "row {plain:?}");
    Ok(())
}

/// A page that is needed waits for the session of a pass that does not rest.
pub fn full() -> [Row; 11] {
    [
        value(Call::Update(1, b'a', 1), 1),
        stored(Call::Upsert(0, b'b', 1)),
        stored(Call::Upsert(0, b'c', 1)),
        stored(Call::Upsert(0, b'd', 1)),
        stored(Call::Upsert(0, b'e', 1)),
        stored(Call::Upsert(0, b'f', 1)),
        stored(Call::Upsert(0, b'g', 1)),
        (Call::Upsert(0, b'h', 1), Told::Refused(Refused::Stalled)),
        (Call::Read(0, b'h'), Told::Done(Answer::Absent)),
        (Call::Rest(1), Told::Ok),
        stored(Call::Upsert(0, b'h', 1)),
    ]
}

#[test]
fn stalled(rt: HostRuntime) -> Result<(), Fail> {
    let audited = first_other::<Audited<SumFns>>(&rt, rt.alloc(), &IMPATIENT, &full())?;
    assert!(rt; audited == None, "row {audited:?}");
    let plain = first_other::<Plain>(&rt, rt.alloc(), &IMPATIENT, &full())?;
    assert!(rt; plain == None, "row {plain:?}");
    Ok(())
}

/// A value that left its frame is read from the device, until it is relocated, as all that left theirs are. A compaction that is
/// told to stop relocates nothing more.
fn evicted() -> [Row; 18] {
    [
        stored(Call::Upsert(0, b'a', 10)),
        stored(Call::Upsert(0, b'b', 1)),
        stored(Call::Upsert(0, b'c', 1)),
        (Call::Tidy(0), Told::Count(64)),
        (Call::Refresh(0), Told::Ok),
        (Call::Tidy(0), Told::Count(256)),
        (Call::Refresh(0), Told::Ok),
        value(Call::Read(0, b'a'), 10),
        (Call::Loads, Told::Count(1)),
        (Call::Stop(0), Told::Ok),
        value(Call::Read(0, b'a'), 10),
        (Call::Loads, Told::Count(2)),
        (Call::Compact(0), Told::Ok),
        value(Call::Read(0, b'a'), 10),
        value(Call::Read(0, b'b'), 1),
        value(Call::Read(0, b'c'), 1),
        (Call::Compact(0), Told::Ok),
        (Call::Loads, Told::Count(2)),
    ]
}

#[test]
fn read_from_the_device(rt: HostRuntime) -> Result<(), Fail> {
    let audited = first_other::<Audited<SumFns>>(&rt, rt.alloc(), &SMALL, &evicted())?;
    assert!(rt; audited == None, "row {audited:?}");
    let plain = first_other::<Plain>(&rt, rt.alloc(), &SMALL, &evicted())?;
    assert!(rt; plain == None, "row {plain:?}");
    Ok(())
}

/// A caller reads its own update.
fn own() -> [Row; 2] {
    [
        value(Call::Update(0, b'm', 7), 7),
        value(Call::Read(0, b'm'), 7),
    ]
}

#[test]
fn a_pass_reads_its_own_update(rt: HostRuntime) -> Result<(), Fail> {
    let audited = first_other::<Audited<SumFns>>(&rt, rt.alloc(), &SMALL, &own())?;
    assert!(rt; audited == None, "row {audited:?}");
    let plain = first_other::<Plain>(&rt, rt.alloc(), &SMALL, &own())?;
    assert!(rt; plain == None, "row {plain:?}");
    Ok(())
}

/// Whether a pass of a store of one configuration is refused by a store of another one, with these numbers.
fn is_stranger(
    rt: &(impl Wait + Clock),
    alloc: Global,
    configs: [&Config; 2],
    numbers: [u64; 2],
) -> Result<bool, Fail> {
    let one = Store::<SumFns, MemoryDevice, Plain>::open(
        alloc,
        configs[0],
        SumFns,
        MemoryDevice::new(alloc),
    )?;
    let two = Store::<SumFns, MemoryDevice, Plain>::open(
        alloc,
        configs[1],
        SumFns,
        MemoryDevice::new(alloc),
    )?;
    let mut pass = one.pass(rt, alloc, 0)?;
    let Some(key) = Name::new(b"a") else {
        return Ok(false);
    };
    let stranger = Refused::Stranger {
        what: What::Pass,
        held: numbers[0],
        came: numbers[1],
    };
    Ok(
        pass.run(rt, alloc, &two, KeyedOp::Rmw(key, 1), &Open) == Err(stranger)
            && pass.refresh(rt, &two) == Err(stranger)
            && pass.rest(rt, &two) == Err(stranger)
            && pass.run(rt, alloc, &one, KeyedOp::Read(key, 0), &Open) == Ok(Answer::Absent),
    )
}

/// A pass of another store, or of one with another number of partitions, is refused, and nothing is done.
#[test]
fn strangers(rt: HostRuntime) -> Result<(), Fail> {
    let second = Config { id: 2, ..SMALL };
    let wider = Config {
        partition_bits: 1,
        ..SMALL
    };
    assert!(rt; is_stranger(&rt, rt.alloc(), [&SMALL, &second], [2, 1])?);
    assert!(rt; is_stranger(&rt, rt.alloc(), [&SMALL, &wider], [2, 1])?);
    // of both, the stores' numbers are told
    let other = Config { id: 5, ..wider };
    assert!(rt; is_stranger(&rt, rt.alloc(), [&SMALL, &other], [5, 1])?);
    Ok(())
}

/// How many operations are finished of seventeen passes, each of which adds 1 to key a: the last one finds no free session,
/// twice, until the first one rests. Anything else gives a number below 5.
fn seventeen<H: Recorder<SumFns>>(rt: &(impl Wait + Clock), alloc: Global) -> Result<u64, Fail> {
    let device = MemoryDevice::new(alloc);
    let store = Store::<SumFns, MemoryDevice, H>::open(alloc, &SMALL, SumFns, device)?;
    let Some(key) = Name::new(b"a") else {
        return Ok(0);
    };
    let mut passes = Vec::new(alloc);
    for worker in 0..17u32 {
        let mut pass = store.pass(rt, alloc, worker)?;
        let told = pass.run(rt, alloc, &store, KeyedOp::Rmw(key, 1), &Open);
        if worker < 16 && told != Ok(Answer::Value(i128::from(worker) + 1)) {
            return Ok(0);
        }
        if worker == 16 && told != Err(Refused::NoSlot) {
            return Ok(1);
        }
        passes.push(pass)?;
    }
    if passes.len() < 17 {
        return Ok(2);
    }
    let again = passes[16].run(rt, alloc, &store, KeyedOp::Read(key, 0), &Open);
    if again != Err(Refused::NoSlot) {
        return Ok(3);
    }
    passes[0].rest(rt, &store)?;
    let last = passes[16].run(rt, alloc, &store, KeyedOp::Rmw(key, 1), &Open);
    if last != Ok(Answer::Value(17)) {
        return Ok(4);
    }
    Ok(store.close(alloc, passes)?.finished)
}

#[test]
fn seventeen_passes(rt: HostRuntime) -> Result<(), Fail> {
    let audited = seventeen::<Audited<SumFns>>(&rt, rt.alloc())?;
    assert!(rt; audited == 17, "{audited}");
    let plain = seventeen::<Plain>(&rt, rt.alloc())?;
    assert!(rt; plain == 17, "{plain}");
    Ok(())
}

/// Each of two passes adds 1 to key a.
fn both() -> [Row; 2] {
    [
        value(Call::Update(0, b'a', 1), 1),
        value(Call::Update(1, b'a', 1), 2),
    ]
}

/// What a store comes to, after these calls, with so many of its passes.
fn closed<H: Recorder<SumFns>>(
    rt: &(impl Wait + Clock),
    alloc: Global,
    config: &Config,
    rows: &[Row],
    passes: usize,
) -> Result<Result<(Option<i128>, usize, u64), Refused>, Fail> {
    let mut called = Called::<MemoryDevice, H>::new(rt, alloc, config, MemoryDevice::new(alloc))?;
    let _told = called.first_other(rt, alloc, rows);
    Ok(called.closed(alloc, passes))
}

#[test]
fn mismatch(rt: HostRuntime) -> Result<(), Fail> {
    let alloc = rt.alloc();
    let whole = Ok((Some(2), 1, 2));
    let missing = Err(Refused::Mismatch);
    assert!(rt; closed::<Audited<SumFns>>(&rt, alloc, &SMALL, &both(), 2)? == whole);
    assert!(rt; closed::<Plain>(&rt, alloc, &SMALL, &both(), 2)? == whole);
    assert!(rt; closed::<Audited<SumFns>>(&rt, alloc, &SMALL, &both(), 1)? == missing);
    assert!(rt; closed::<Plain>(&rt, alloc, &SMALL, &both(), 1)? == missing);
    Ok(())
}

/// What was refused is in no share and no history.
#[test]
fn closed_after_a_stalled_operation(rt: HostRuntime) -> Result<(), Fail> {
    let alloc = rt.alloc();
    let whole = Ok((Some(1), 8, 9));
    let missing = Err(Refused::Mismatch);
    assert!(rt; closed::<Audited<SumFns>>(&rt, alloc, &IMPATIENT, &full(), 2)? == whole);
    assert!(rt; closed::<Plain>(&rt, alloc, &IMPATIENT, &full(), 2)? == whole);
    assert!(rt; closed::<Audited<SumFns>>(&rt, alloc, &IMPATIENT, &full(), 1)? == missing);
    assert!(rt; closed::<Plain>(&rt, alloc, &IMPATIENT, &full(), 1)? == missing);
    Ok(())
}
