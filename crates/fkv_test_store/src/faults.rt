//! A device that fails once, behind a store that callers share.
use crate::calls::{Call, Called, IMPATIENT, Row, SMALL, Told};
use fkv_device::{Disk, MemoryDevice};
use fkv_functions::{Refused, SumFns};
use fkv_histories::{Audited, Plain, Recorder};
use fkv_operations::Answer;
use fkv_partition::Config;
use fkv_store::Store;
use fkv_test_devices::{FailingDevice, Fault, UnsureDevice};
use std::alloc::Global;
use std::rt::Clock;
use std::sync::Wait;
use std::test::Fail;

fn stored(call: Call) -> Row {
    (call, Told::Done(Answer::Stored))
}

/// A page that could not be written is written by the next call that moves pages.
fn write_fails() -> [Row; 10] {
    [
        // of a partition that is not there nothing else is asked
        (Call::Tidy(1), Told::Refused(Refused::Unknown)),
        (Call::Compact(1), Told::Refused(Refused::Unknown)),
        stored(Call::Upsert(0, b'a', 10)),
        stored(Call::Upsert(0, b'b', 1)),
        stored(Call::Upsert(0, b'c', 1)),
        (Call::Tidy(0), Told::Count(64)),
        (Call::Refresh(0), Told::Ok),
        (
            Call::Tidy(0),
            Told::Refused(Refused::Device { code: 2, page: 0 }),
        ),
        (Call::Tidy(0), Told::Count(256)),
        (Call::Read(0, b'a'), Told::Done(Answer::Value(10))),
    ]
}

/// A page that could not be read is read by the next operation on its key.
fn read_fails() -> [Row; 9] {
    [
        stored(Call::Upsert(0, b'a', 10)),
        stored(Call::Upsert(0, b'b', 1)),
        stored(Call::Upsert(0, b'c', 1)),
        (Call::Tidy(0), Told::Count(64)),
        (Call::Refresh(0), Told::Ok),
        (Call::Tidy(0), Told::Count(256)),
        (Call::Refresh(0), Told::Ok),
        (
            Call::Update(0, b'a', 1),
            Told::Refused(Refused::Device { code: 3, page: 0 }),
        ),
        (Call::Update(0, b'a', 1), Told::Done(Answer::Value(11))),
    ]
}

/// An operation that waits for a frame tells that its page could not be written; the next one has it written.
fn waiting_write_fails() -> [Row; 9] {
    [
        stored(Call::Upsert(0, b'a', 1)),
        stored(Call::Upsert(0, b'b', 1)),
        stored(Call::Upsert(0, b'c', 1)),
        stored(Call::Upsert(0, b'd', 1)),
        stored(Call::Upsert(0, b'e', 1)),
        stored(Call::Upsert(0, b'f', 1)),
        stored(Call::Upsert(0, b'g', 1)),
        (
            Call::Upsert(0, b'h', 1),
            Told::Refused(Refused::Device { code: 2, page: 0 }),
        ),
        stored(Call::Upsert(0, b'h', 1)),
    ]
}

/// A compaction that can't read a page leaves no session behind: an operation that needs a frame waits for nobody.
fn compaction_fails() -> [Row; 17] {
    [
        stored(Call::Upsert(0, b'a', 10)),
        stored(Call::Upsert(0, b'b', 1)),
        stored(Call::Upsert(0, b'c', 1)),
        (Call::Tidy(0), Told::Count(64)),
        (Call::Refresh(0), Told::Ok),
        (Call::Tidy(0), Told::Count(256)),
        (Call::Refresh(0), Told::Ok),
        (
            Call::Compact(0),
            Told::Refused(Refused::Device { code: 3, page: 0 }),
        ),
        stored(Call::Upsert(0, b'd', 1)),
        stored(Call::Upsert(0, b'e', 1)),
        stored(Call::Upsert(0, b'f', 1)),
        stored(Call::Upsert(0, b'g', 1)),
        stored(Call::Upsert(0, b'h', 1)),
        stored(Call::Upsert(0, b'i', 1)),
        stored(Call::Upsert(0, b'j', 1)),
        stored(Call::Upsert(0, b'k', 1)),
        stored(Call::Upsert(0, b'l', 1)),
    ]
}

/// The number of the first row that tells something else, where the device fails after so many pages.
fn first_other<H: Recorder<SumFns>>(
    rt: &(impl Wait + Clock),
    alloc: Global,
    config: &Config,
    writes: u64,
    reads: u64,
    rows: &[Row],
) -> Result<Option<usize>, Fail> {
    let mut device = UnsureDevice::new(alloc);
    device.writes = writes;
    device.reads = reads;
    let mut called = Called::<UnsureDevice, H>::new(rt, alloc, config, device)?;
    Ok(called.first_other(rt, alloc, rows))
}

#[test]
fn a_write_that_fails(rt: HostRuntime) -> Result<(), Fail> {
    let audited = first_other::<Audited<SumFns>>(&rt, rt.alloc(), &SMALL, 0, 9, &write_fails())?;
    assert!(rt; audited == None, "row {audited:?}");
    let plain = first_other::<Plain>(&rt, rt.alloc(), &SMALL, 0, 9, &write_fails())?;
    assert!(rt; plain == None, "row {plain:?}");
    let rows = waiting_write_fails();
    let waits = first_other::<Plain>(&rt, rt.alloc(), &SMALL, 0, 9, &rows)?;
    assert!(rt; waits == None, "row {waits:?}");
    Ok(())
}

#[test]
fn a_read_that_fails(rt: HostRuntime) -> Result<(), Fail> {
    let audited = first_other::<Audited<SumFns>>(&rt, rt.alloc(), &SMALL, 9, 0, &read_fails())?;
    assert!(rt; audited == None, "row {audited:?}");
    let plain = first_other::<Plain>(&rt, rt.alloc(), &SMALL, 9, 0, &read_fails())?;
    assert!(rt; plain == None, "row {plain:?}");
    let rows = compaction_fails();
    let compacts = first_other::<Plain>(&rt, rt.alloc(), &IMPATIENT, 9, 0, &rows)?;
    assert!(rt; compacts == None, "row {compacts:?}");
    Ok(())
}

/// A page that can't be read at the end, to which so many of two passes come: the store and its passes are gone.
fn closed<H: Recorder<SumFns>>(
    rt: &(impl Wait + Clock),
    alloc: Global,
    passes: usize,
) -> Result<Result<(Option<i128>, usize, u64), Refused>, Fail> {
    let mut device = UnsureDevice::new(alloc);
    device.reads = 0;
    let mut called = Called::<UnsureDevice, H>::new(rt, alloc, &SMALL, device)?;
    let evicted = read_fails();
    let _told = called.first_other(rt, alloc, &evicted[..7]);
    Ok(called.closed(alloc, passes))
}

#[test]
fn a_read_that_fails_at_the_end(rt: HostRuntime) -> Result<(), Fail> {
    let fault = Err(Refused::Device { code: 3, page: 0 });
    assert!(rt; closed::<Audited<SumFns>>(&rt, rt.alloc(), 2)? == fault);
    assert!(rt; closed::<Plain>(&rt, rt.alloc(), 2)? == fault);
    // a pass that is missing is told before
    let missing = Err(Refused::Mismatch);
    assert!(rt; closed::<Audited<SumFns>>(&rt, rt.alloc(), 0)? == missing);
    assert!(rt; closed::<Plain>(&rt, rt.alloc(), 0)? == missing);
    Ok(())
}

/// What the end of a store over a device refuses, with a pass of its own.
fn refused_at_end<H: Recorder<SumFns>, D: Disk>(
    rt: &(impl Wait + Clock),
    alloc: Global,
    device: D,
) -> Result<Option<Refused>, Fail> {
    let store = Store::<SumFns, D, H>::open(alloc, &SMALL, SumFns, device)?;
    let pass = store.pass(rt, alloc, 0)?;
    let passes = vec![in alloc; pass]?;
    Ok(store.close(alloc, passes).err())
}

/// The same with a pass of another store, over the second device.
fn strange_at_end<H: Recorder<SumFns>, D: Disk>(
    rt: &(impl Wait + Clock),
    alloc: Global,
    device: D,
    second: D,
) -> Result<Option<Refused>, Fail> {
    let store = Store::<SumFns, D, H>::open(alloc, &SMALL, SumFns, device)?;
    let config = Config { id: 2, ..SMALL };
    let other = Store::<SumFns, D, H>::open(alloc, &config, SumFns, second)?;
    let pass = other.pass(rt, alloc, 0)?;
    let passes = vec![in alloc; pass]?;
    Ok(store.close(alloc, passes).err())
}

/// What both refuse where the devices open no more pages by then.
fn unopened<H: Recorder<SumFns>>(
    rt: &(impl Wait + Clock),
    alloc: Global,
) -> Result<[Option<Refused>; 2], Fail> {
    let fault = Fault::after(2);
    let device = FailingDevice::new(alloc, MemoryDevice::new(alloc), &fault);
    let own = refused_at_end::<H, _>(rt, alloc, device)?;
    let fault = Fault::after(3);
    let fault = &fault;
    let device = FailingDevice::new(alloc, MemoryDevice::new(alloc), fault);
    let second = FailingDevice::new(alloc, MemoryDevice::new(alloc), fault);
    let strange = strange_at_end::<H, _>(rt, alloc, device, second)?;
    Ok([own, strange])
}

/// A pass of another store is told before a device that opens no more pages.
#[test]
fn order_of_refusals_at_the_end(rt: HostRuntime) -> Result<(), Fail> {
    let closed = Some(Refused::Device { code: 1, page: 0 });
    let told = [closed, Some(Refused::Mismatch)];
    assert!(rt; unopened::<Audited<SumFns>>(&rt, rt.alloc())? == told);
    assert!(rt; unopened::<Plain>(&rt, rt.alloc())? == told);
    Ok(())
}
