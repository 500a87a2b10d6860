//! Merges beside updates and reads, and updates that are merges where they would read a page.
use crate::calls::{Call, Called, IMPATIENT, Row, SMALL, Told};
use fkv_device::MemoryDevice;
use fkv_functions::{CappedSumFns, Name, Refused, SumFns};
use fkv_histories::{Audited, Plain, Recorder};
use fkv_operations::{Answer, KeyedOp};
use fkv_partition::Config;
use fkv_store::{Loads, Open, Store};
use std::alloc::Global;
use std::rt::Clock;
use std::sync::Wait;
use std::test::Fail;

fn stored(call: Call) -> Row {
    (call, Told::Done(Answer::Stored))
}

fn value(call: Call, value: i128) -> Row {
    (call, Told::Done(Answer::Value(value)))
}

/// What a store comes to after these calls, each of which has to tell what its row says: what key a has, how many keys there
/// are, and how many operations were finished.
fn closed<H: Recorder<SumFns>>(
    rt: &(impl Wait + Clock),
    alloc: Global,
    config: &Config,
    rows: &[Row],
) -> Result<(Option<i128>, usize, u64), Fail> {
    let mut called = Called::<MemoryDevice, H>::new(rt, alloc, config, MemoryDevice::new(alloc))?;
    let other = called.first_other(rt, alloc, rows);
    if other.is_some() {
        return Ok((None, other.unwrap_or(0), 0));
    }
    Ok(called.closed(alloc, 2)?)
}

/// Whether a store of each recorder comes to this.
fn come_to(
    rt: &(impl Wait + Clock),
    alloc: Global,
    config: &Config,
    rows: &[Row],
    end: (Option<i128>, usize, u64),
) -> Result<bool, Fail> {
    Ok(
        closed::<Audited<SumFns>>(rt, alloc, config, rows)? == end
            && closed::<Plain>(rt, alloc, config, rows)? == end,
    )
}

/// Two passes merge, update, write, delete and read one key; none of it reads a page.
fn in_memory() -> [Row; 13] {
    [
        stored(Call::Merge(0, b'a', 5)),
        value(Call::Read(1, b'a'), 5),
        value(Call::Update(1, b'a', 2), 7),
        stored(Call::Merge(0, b'a', -3)),
        stored(Call::Merge(1, b'a', 1)),
        value(Call::Read(0, b'a'), 5),
        stored(Call::Upsert(1, b'b', 10)),
        stored(Call::Merge(0, b'b', 10)),
        value(Call::Update(1, b'b', 1), 21),
        (Call::UpdateOrMerge(0, b'b', 4), Told::Ok),
        (Call::UpdateOrMerge(1, b'c', 6), Told::Ok),
        value(Call::Read(1, b'b'), 25),
        (Call::Loads, Told::Count(0)),
    ]
}

#[test]
fn merges_in_memory(rt: HostRuntime) -> Result<(), Fail> {
    let end = (Some(5), 3, 12);
    assert!(rt; come_to(&rt, rt.alloc(), &SMALL, &in_memory(), end)?);
    Ok(())
}

/// A key whose value is on the device: merges and updates that may be merges leave the page there, a read joins all parts, and
/// an update reads the page.
fn on_the_device() -> [Row; 19] {
    [
        stored(Call::Upsert(0, b'a', 10)),
        stored(Call::Upsert(0, b'b', 1)),
        stored(Call::Upsert(0, b'c', 1)),
        (Call::Tidy(0), Told::Count(64)),
        (Call::Refresh(0), Told::Ok),
        (Call::Tidy(0), Told::Count(256)),
        (Call::Refresh(0), Told::Ok),
        stored(Call::Merge(0, b'a', 5)),
        (Call::UpdateOrMerge(1, b'a', 7), Told::Ok),
        (Call::UpdateOrMerge(0, b'b', 2), Told::Ok),
        (Call::Loads, Told::Count(0)),
        value(Call::Read(0, b'a'), 22),
        value(Call::Read(1, b'b'), 3),
        (Call::Rest(1), Told::Ok),
        (Call::Compact(0), Told::Ok),
        value(Call::Read(0, b'a'), 22),
        value(Call::Update(0, b'a', 1), 23),
        (Call::UpdateOrMerge(0, b'a', 1), Told::Ok),
        value(Call::Read(0, b'a'), 24),
    ]
}

#[test]
fn merges_beside_a_device(rt: HostRuntime) -> Result<(), Fail> {
    let end = (Some(24), 3, 12);
    assert!(rt; come_to(&rt, rt.alloc(), &SMALL, &on_the_device(), end)?);
    Ok(())
}

/// A value that can't be changed in place any more is updated in memory: a later read needs no page of what stood before.
fn read_only() -> [Row; 13] {
    [
        stored(Call::Upsert(0, b'a', 1)),
        stored(Call::Upsert(0, b'b', 1)),
        stored(Call::Upsert(0, b'c', 1)),
        stored(Call::Upsert(0, b'd', 1)),
        stored(Call::Upsert(0, b'e', 1)),
        stored(Call::Upsert(0, b'f', 1)),
        (Call::Tidy(0), Told::Count(64)),
        (Call::Refresh(0), Told::Ok),
        (Call::UpdateOrMerge(0, b'a', 5), Told::Ok),
        (Call::Tidy(0), Told::Count(256)),
        (Call::Refresh(0), Told::Ok),
        value(Call::Read(0, b'a'), 6),
        (Call::Loads, Told::Count(0)),
    ]
}

#[test]
fn updates_of_what_is_read_only(rt: HostRuntime) -> Result<(), Fail> {
    let end = (Some(6), 6, 8);
    assert!(rt; come_to(&rt, rt.alloc(), &SMALL, &read_only(), end)?);
    Ok(())
}

/// Updates in one call are made in one hold as far as each is done at once. That of a fresh key is not: it is tried in two holds, and
/// then takes five, for its events; so is an upsert of one, which is tried in one. A merge in place of an update reads no page.
fn in_one_call() -> [Row; 20] {
    [
        (Call::UpdateAll(0, &[], Loads::Read), Told::Ok),
        stored(Call::Upsert(0, b'a', 10)),
        stored(Call::Upsert(0, b'b', 1)),
        (Call::Holds, Told::Count(11)),
        (
            Call::UpdateAll(
                0,
                &[(b'a', 1), (b'a', 2), (b'b', 3), (b'a', 4)],
                Loads::Read,
            ),
            Told::Ok,
        ),
        (Call::Holds, Told::Count(12)),
        value(Call::Read(1, b'a'), 17),
        (Call::Holds, Told::Count(14)),
        (
            Call::UpdateAll(
                1,
                &[(b'b', 1), (b'c', 5), (b'c', 6), (b'b', 1)],
                Loads::Read,
            ),
            Told::Ok,
        ),
        (Call::Holds, Told::Count(22)),
        value(Call::Read(0, b'b'), 6),
        value(Call::Read(0, b'c'), 11),
        (Call::Rest(1), Told::Ok),
        (Call::Tidy(0), Told::Count(64)),
        (Call::Refresh(0), Told::Ok),
        (Call::Tidy(0), Told::Count(256)),
        (Call::Refresh(0), Told::Ok),
        (
            Call::UpdateAll(0, &[(b'a', 1), (b'b', 1), (b'a', 1)], Loads::Merge),
            Told::Ok,
        ),
        (Call::Loads, Told::Count(0)),
        value(Call::Read(0, b'a'), 19),
    ]
}

#[test]
fn updates_in_one_call(rt: HostRuntime) -> Result<(), Fail> {
    let end = (Some(19), 3, 17);
    assert!(rt; come_to(&rt, rt.alloc(), &SMALL, &in_one_call(), end)?);
    Ok(())
}

/// A merge never waits for the session of another pass, where an update does.
/// Of updates in one call those before one that is refused are made, and none after it.
fn fuzzy() -> [Row; 13] {
    [
        stored(Call::Upsert(1, b'a', 10)),
        stored(Call::Upsert(0, b'b', 1)),
        stored(Call::Upsert(0, b'c', 1)),
        (Call::Tidy(0), Told::Count(64)),
        (Call::Refresh(0), Told::Ok),
        (Call::Update(0, b'a', 1), Told::Refused(Refused::Stalled)),
        stored(Call::Upsert(0, b'd', 1)),
        (
            Call::UpdateAll(
                0,
                &[(b'd', 1), (b'd', 2), (b'a', 1), (b'd', 9)],
                Loads::Read,
            ),
            Told::Refused(Refused::Stalled),
        ),
        value(Call::Read(0, b'd'), 4),
        stored(Call::Merge(0, b'a', 1)),
        value(Call::Read(0, b'a'), 11),
        (Call::Rest(1), Told::Ok),
        value(Call::Update(0, b'a', 1), 12),
    ]
}

#[test]
fn merges_wait_for_no_session(rt: HostRuntime) -> Result<(), Fail> {
    let end = (Some(12), 4, 10);
    assert!(rt; come_to(&rt, rt.alloc(), &IMPATIENT, &fuzzy(), end)?);
    Ok(())
}

/// What a store of functions that don't merge comes to: a merge is refused, and an update that may be one is an update, also of a key
/// whose page left memory.
fn capped<H: Recorder<CappedSumFns>>(rt: &(impl Wait + Clock), alloc: Global) -> Result<u64, Fail> {
    let device = MemoryDevice::new(alloc);
    let store = Store::<CappedSumFns, MemoryDevice, H>::open(alloc, &SMALL, CappedSumFns, device)?;
    let Some(key) = Name::new(b"a") else {
        return Ok(0);
    };
    let mut pass = store.pass(rt, alloc, 0)?;
    pass.update_or_merge(rt, alloc, &store, key, 3, &Open)?;
    for letter in b'b'..b'm' {
        if let Some(other) = Name::new(&[letter]) {
            let _stored = pass.run(rt, alloc, &store, KeyedOp::Upsert(other, 1), &Open)?;
        }
    }
    pass.update_or_merge(rt, alloc, &store, key, 4, &Open)?;
    let merged = pass.run(rt, alloc, &store, KeyedOp::Merge(key, 4), &Open);
    let read = pass.run(rt, alloc, &store, KeyedOp::Read(key, 0), &Open);
    if merged != Err(Refused::NoMerge) || read != Ok(Answer::Value(7)) {
        return Ok(1);
    }
    Ok(store.close(alloc, vec![in alloc; pass]?)?.finished)
}

#[test]
fn functions_that_do_not_merge(rt: HostRuntime) -> Result<(), Fail> {
    assert!(rt; capped::<Audited<CappedSumFns>>(&rt, rt.alloc())? == 14);
    assert!(rt; capped::<Plain>(&rt, rt.alloc())? == 14);
    Ok(())
}
