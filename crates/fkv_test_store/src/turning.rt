//! How many turns an operation takes that waits for good, what is left of it, and when sessions are refreshed.
use crate::calls::{Call, Called, IMPATIENT, Row, SMALL, Told};
use crate::sharing::{full, stored, value};
use fkv_device::{FileDevice, MemoryDevice};
use fkv_functions::{Refused, SumFns};
use fkv_histories::{Audited, Plain, Recorder};
use fkv_operations::Answer;
use fkv_partition::Config;
use std::alloc::Global;
use std::fs;
use std::rt::Clock;
use std::sync::Wait;
use std::test::Fail;

/// The operation that waits for the session of a pass that does not rest.
const WAITS: Row = (Call::Upsert(0, b'h', 1), Told::Refused(Refused::Stalled));

/// How often the lock is held for an operation that waits for good, where it may take so many turns.
fn holds_of_a_stall<H: Recorder<SumFns>>(
    rt: &(impl Wait + Clock),
    alloc: Global,
    turns: u64,
) -> Result<Option<u64>, Fail> {
    let config = Config { turns, ..SMALL };
    let device = MemoryDevice::new(alloc);
    let mut called = Called::<MemoryDevice, H>::new(rt, alloc, &config, device)?;
    let rows = full();
    if called.first_other(rt, alloc, &rows[..7]) != None {
        return Ok(None);
    }
    let before = called.holds();
    if called.first_other(rt, alloc, &[WAITS]) != None {
        return Ok(None);
    }
    Ok(called.holds().checked_sub(before))
}

/// The hold in which it is not done at once; the issue; a turn's event each, of which two claim an entry of the index; for each
/// other one, which waits, two refreshes of the pass's session; and the end without effect.
#[test]
fn stalled_after_its_turns(rt: HostRuntime) -> Result<(), Fail> {
    let alloc = rt.alloc();
    assert!(rt; holds_of_a_stall::<Audited<SumFns>>(&rt, alloc, 10)? == Some(29));
    assert!(rt; holds_of_a_stall::<Plain>(&rt, alloc, 10)? == Some(29));
    assert!(rt; holds_of_a_stall::<Plain>(&rt, alloc, 25)? == Some(74));
    Ok(())
}

/// The number of the first row that tells something else.
fn first_other<H: Recorder<SumFns>>(
    rt: &(impl Wait + Clock),
    alloc: Global,
    config: &Config,
    rows: &[Row],
) -> Result<Option<usize>, Fail> {
    let mut called = Called::<MemoryDevice, H>::new(rt, alloc, config, MemoryDevice::new(alloc))?;
    Ok(called.first_other(rt, alloc, rows))
}

/// An operation that waited for good is open no longer: a session has eight contexts, and nine of them leave one free.
#[test]
fn nine_stalls(rt: HostRuntime) -> Result<(), Fail> {
    let alloc = rt.alloc();
    let mut rows = Vec::new(alloc);
    for row in &full()[..7] {
        rows.push(*row)?;
    }
    for _ in 0..9 {
        rows.push(WAITS)?;
    }
    rows.push((Call::Rest(1), Told::Ok))?;
    rows.push(stored(Call::Upsert(0, b'h', 1)))?;
    let audited = first_other::<Audited<SumFns>>(&rt, alloc, &IMPATIENT, &rows)?;
    assert!(rt; audited == None, "row {audited:?}");
    let plain = first_other::<Plain>(&rt, alloc, &IMPATIENT, &rows)?;
    assert!(rt; plain == None, "row {plain:?}");
    Ok(())
}

/// So it is in the second of two partitions, which has the keys of every other letter.
#[test]
fn nine_stalls_of_the_second_partition(rt: HostRuntime) -> Result<(), Fail> {
    let alloc = rt.alloc();
    let config = Config {
        partition_bits: 1,
        ..IMPATIENT
    };
    let mut rows = Vec::new(alloc);
    rows.push(value(Call::Update(1, b'b', 1), 1))?;
    for letter in *b"dfhjln" {
        rows.push(stored(Call::Upsert(0, letter, 1)))?;
    }
    for _stall in 0..9 {
        rows.push((Call::Upsert(0, b'p', 1), Told::Refused(Refused::Stalled)))?;
    }
    rows.push((Call::Rest(1), Told::Ok))?;
    rows.push(stored(Call::Upsert(0, b'p', 1)))?;
    let audited = first_other::<Audited<SumFns>>(&rt, alloc, &config, &rows)?;
    assert!(rt; audited == None, "row {audited:?}");
    Ok(())
}

/// An update of the first of three keys waits for a pass that refreshes its session in their partition of itself.
fn fuzzy(alloc: Global, partition: usize, letters: [u8; 3]) -> Result<Vec<Row>, Fail> {
    let key = letters[0];
    let mut rows = Vec::new(alloc);
    rows.push(stored(Call::Upsert(1, key, 10)))?;
    rows.push(stored(Call::Upsert(0, letters[1], 1)))?;
    rows.push(stored(Call::Upsert(0, letters[2], 1)))?;
    rows.push((Call::Tidy(partition), Told::Count(64)))?;
    rows.push((Call::Refresh(0), Told::Ok))?;
    for _answer in 0..64 {
        rows.push((Call::Update(0, key, 1), Told::Refused(Refused::Stalled)))?;
        rows.push(value(Call::Read(1, key), 10))?;
    }
    rows.push(value(Call::Update(0, key, 1), 11))?;
    Ok(rows)
}

/// A pass that is refreshed of itself when pages are read only, which lets them be written and Head move, is so again after as many
/// answers: until then an upsert waits for the frame of a page that left memory.
fn evicting(alloc: Global) -> Result<Vec<Row>, Fail> {
    let mut rows = Vec::new(alloc);
    for row in &full()[..7] {
        rows.push(*row)?;
    }
    for _refresh in 0..2 {
        for _answer in 0..63 {
            rows.push(value(Call::Read(1, b'a'), 1))?;
        }
        rows.push(WAITS)?;
        rows.push(value(Call::Read(1, b'a'), 1))?;
        rows.push(WAITS)?;
    }
    let _last = rows.pop();
    rows.push(stored(Call::Upsert(0, b'h', 1)))?;
    Ok(rows)
}

/// A pass refreshes its sessions of itself before its next operation after 64 answers, in each partition where it has one, and again
/// where pages were moved since then.
#[test]
fn refreshed_after_64_answers(rt: HostRuntime) -> Result<(), Fail> {
    let alloc = rt.alloc();
    let two = Config {
        partition_bits: 1,
        ..IMPATIENT
    };
    let runs = [
        (&IMPATIENT, fuzzy(alloc, 0, *b"abc")?),
        (&two, fuzzy(alloc, 1, *b"bdf")?),
        (&IMPATIENT, evicting(alloc)?),
    ];
    for (config, rows) in &runs {
        let audited = first_other::<Audited<SumFns>>(&rt, alloc, config, rows)?;
        assert!(rt; audited == None, "row {audited:?}");
        let plain = first_other::<Plain>(&rt, alloc, config, rows)?;
        assert!(rt; plain == None, "row {plain:?}");
    }
    Ok(())
}

/// Pages that wait are written by one call, as many as there are frames, and leave memory by it.
fn together() -> [Row; 10] {
    [
        stored(Call::Upsert(0, b'a', 1)),
        stored(Call::Upsert(0, b'b', 1)),
        stored(Call::Upsert(0, b'c', 1)),
        stored(Call::Upsert(0, b'd', 1)),
        stored(Call::Upsert(0, b'e', 1)),
        stored(Call::Upsert(0, b'f', 1)),
        stored(Call::Upsert(0, b'g', 1)),
        (Call::Tidy(0), Told::Count(64)),
        (Call::Refresh(0), Told::Ok),
        (Call::Tidy(0), Told::Count(512)),
    ]
}

/// Of four frames two are changed in place: nobody is waited for.
fn mutable() -> [Row; 6] {
    [
        stored(Call::Upsert(1, b'a', 10)),
        stored(Call::Upsert(0, b'b', 1)),
        stored(Call::Upsert(0, b'c', 1)),
        (Call::Tidy(0), Told::Count(64)),
        (Call::Refresh(0), Told::Ok),
        value(Call::Update(0, b'a', 1), 11),
    ]
}

#[test]
fn pages_move_as_frames_say(rt: HostRuntime) -> Result<(), Fail> {
    let written = first_other::<Plain>(&rt, rt.alloc(), &SMALL, &together())?;
    assert!(rt; written == None, "row {written:?}");
    let four = Config {
        frames: 4,
        ..IMPATIENT
    };
    let changed = first_other::<Plain>(&rt, rt.alloc(), &four, &mutable())?;
    assert!(rt; changed == None, "row {changed:?}");
    Ok(())
}

/// In a partition that is not the first: a refresh lets its pages move, and a compaction has its values in memory again.
fn second_partition() -> [Row; 12] {
    [
        stored(Call::Upsert(0, b'a', 1)),
        stored(Call::Upsert(0, b'b', 10)),
        stored(Call::Upsert(0, b'd', 1)),
        stored(Call::Upsert(0, b'f', 1)),
        (Call::Tidy(1), Told::Count(64)),
        (Call::Refresh(0), Told::Ok),
        (Call::Tidy(1), Told::Count(256)),
        (Call::Refresh(0), Told::Ok),
        value(Call::Read(0, b'b'), 10),
        (Call::Loads, Told::Count(1)),
        (Call::Compact(1), Told::Ok),
        value(Call::Read(0, b'b'), 10),
    ]
}

#[test]
fn pages_of_the_second_partition(rt: HostRuntime) -> Result<(), Fail> {
    let alloc = rt.alloc();
    let config = Config {
        partition_bits: 1,
        ..SMALL
    };
    let mut rows = Vec::new(alloc);
    for row in &second_partition() {
        rows.push(*row)?;
    }
    rows.push((Call::Loads, Told::Count(1)))?;
    let audited = first_other::<Audited<SumFns>>(&rt, alloc, &config, &rows)?;
    assert!(rt; audited == None, "row {audited:?}");
    let plain = first_other::<Plain>(&rt, alloc, &config, &rows)?;
    assert!(rt; plain == None, "row {plain:?}");
    // so it is where each partition has a file of its own
    let folder = String::from_str(alloc, "second_files")?;
    let device = FileDevice::new(rt.clone()?, alloc, folder, 8);
    let mut called = Called::<_, Audited<SumFns>>::new(&rt, alloc, &config, device)?;
    let filed = called.first_other(&rt, alloc, &rows);
    assert!(rt; filed == None, "row {filed:?}");
    fs::remove_dir_all(&rt, "second_files")?;
    Ok(())
}
