//! The library, used with functions of one's own: per key how many inputs there were, and the last of them.
//!
//! `latest_inputs.rt` has the functions and their value. The program first uses them in the store for one thread, which is a plain
//! map. Then it makes updates and reads by single events, in two sessions that overlap, of one partition whose pages go to a file
//! (`store.rt`). `docs/library.md` walks through it.
#![tactic(auto)]

mod latest_inputs;
mod store;
mod tables;

use crate::latest_inputs::LatestFns;
use crate::store::{CONFIG, Store, Told};
use crate::tables::tabulate;
use anyhow::{Context, Result};
use fkv_device::{Loaded, MemoryDevice};
use fkv_functions::{Built, Name};
use fkv_local::LocalStore;
use fkv_operations::{Answer, Op};
use fkv_partition::{Progress, Wait};
use std::alloc::Global;
use std::{fs, str};

/// The folder of the pages, below the current one.
const FOLDER: &str = "fkv_example_pages";

/// Keeps the latest inputs in the store for one thread: prints what each update shows, and the map at the end, keys rising.
fn remember<P: Print>(rt: &P, alloc: Global) -> Result<()> {
    let mut device = MemoryDevice::new(alloc);
    let mut store = LocalStore::open(alloc, &CONFIG, LatestFns, &mut device)?;
    for (name, input) in [
        ("apples", 7i64),
        ("plums", 12),
        ("apples", -2),
        ("plums", 30),
    ] {
        if let Answer::Value(latest) = store.rmw(&name_of(name)?, &input)? {
            println!(rt; "{name}: {latest}")?;
        }
    }
    println!(rt; "the map:")?;
    for (key, latest) in &store.live()? {
        println!(rt; "{}: {latest}", str::from_utf8(key.bytes())?)?;
    }
    Ok(())
}

/// Updates a key by single events, after page 0 is made read-only. The first session sees that at once, and waits: the second
/// one may still change the value where it stands, until it looks too. Then the update copies the value.
fn update_by_events<P: Print>(
    rt: &P,
    store: &mut Store,
    first: usize,
    second: usize,
    key: Name,
) -> Result<()> {
    store.partition.shift_read_only(1, store.clock.tick()?)?;
    store.refresh(first)?;
    let context = store
        .partition
        .issue(first, Op::Rmw(key, 5), &LatestFns, store.clock.tick()?)?;
    let told = store
        .partition
        .go(first, context, &LatestFns, store.clock.tick()?)?;
    tell(rt, &key, &told)?;
    store.refresh(second)?;
    store.refresh(first)?;
    let told = store
        .partition
        .go(first, context, &LatestFns, store.clock.tick()?)?;
    tell(rt, &key, &told)?;
    // the functions are called outside the partition
    if let Progress::NeedsBuild(ask) = told {
        let built = Built::make(&LatestFns, ask);
        let told = store
            .partition
            .install(first, context, built, &LatestFns, store.clock.tick()?)?;
        tell(rt, &key, &told)?;
    }
    Ok(())
}

/// Writes page 0, which is frozen, and drops it from memory once both sessions have looked.
fn move_page(store: &mut Store, alloc: Global, first: usize, second: usize) -> Result<()> {
    store.flush(alloc)?;
    store.partition.shift_head(1, store.clock.tick()?)?;
    store.refresh(first)?;
    store.refresh(second)?;
    Ok(())
}

/// Reads a key of page 0 by single events. While its page is read, the other session goes on.
fn read_by_events<P: Print>(
    rt: &P,
    store: &mut Store,
    first: usize,
    second: usize,
    key: Name,
) -> Result<()> {
    let context = store
        .partition
        .issue(second, Op::Read(key, 0), &LatestFns, store.clock.tick()?)?;
    let told = store
        .partition
        .go(second, context, &LatestFns, store.clock.tick()?)?;
    tell(rt, &key, &told)?;
    if let Progress::NeedsLoad(receipt, _) = told {
        let size = store.partition.page_size();
        let came = Loaded::fetch(&mut store.reader, &receipt, size);
        let pears = name_of("pears")?;
        tell(rt, &pears, &store.update(first, pears, 1)?)?;
        // a refusal that came in place of the page is handed in too: it ends the read
        let told = store
            .partition
            .load(second, context, came, &LatestFns, store.clock.tick()?)?;
        tell(rt, &key, &told)?;
    }
    Ok(())
}

/// Prints what is live, keys rising.
fn report<P: Print>(rt: &P, store: &mut Store, alloc: Global) -> Result<()> {
    println!(rt; "in the end:")?;
    for (key, latest) in store.partition.live(&LatestFns, alloc, &mut store.reader)? {
        println!(rt; "{}: {latest}", str::from_utf8(key.bytes())?)?;
    }
    Ok(())
}

/// Updates that are driven alone, an update that waits, a page that moves, and a read of it.
fn run<P: Print>(rt: &P, store: &mut Store, alloc: Global) -> Result<()> {
    let first = store.partition.enter(store.clock.tick()?)?;
    let second = store.partition.enter(store.clock.tick()?)?;
    let apples = name_of("apples")?;
    let plums = name_of("plums")?;
    // three records fill page 0
    let figs = name_of("figs")?;
    for (slot, key, input) in [
        (first, apples, 7),
        (second, plums, 12),
        (second, apples, -2),
        (first, plums, 30),
        (first, figs, 4),
    ] {
        tell(rt, &key, &store.update(slot, key, input)?)?;
    }
    update_by_events(rt, store, first, second, apples)?;
    move_page(store, alloc, first, second)?;
    read_by_events(rt, store, first, second, plums)?;
    report(rt, store, alloc)?;
    store.partition.leave(first, store.clock.tick()?)?;
    store.partition.leave(second, store.clock.tick()?)?;
    Ok(())
}

fn main(rt: HostRuntime) -> Result<()> {
    let alloc = rt.alloc();
    remember(&rt, alloc)?;
    println!(rt; "a table of rows:")?;
    tabulate(&rt, alloc)?;
    println!(rt; "by single events:")?;
    let mut store = Store::open(rt.clone()?, alloc, FOLDER)?;
    run(&rt, &mut store, alloc)?;
    // nothing is kept between runs
    drop(store);
    fs::remove_dir_all(&rt, FOLDER)?;
    Ok(())
}

fn name_of(text: &str) -> Result<Name> {
    Name::new(text.as_bytes()).context("a name has 1 to 31 bytes")
}

/// Prints what an event told of an operation on a key.
fn tell<P: Print>(rt: &P, key: &Name, told: &Told) -> Result<()> {
    let key = str::from_utf8(key.bytes())?;
    match told {
        Progress::Done(Answer::Value(latest), _) => println!(rt; "{key}: {latest}")?,
        Progress::Done(Answer::Absent, _) => println!(rt; "{key}: no inputs")?,
        Progress::Done(_, _) => println!(rt; "{key}: done")?,
        Progress::Next => println!(rt; "{key}: goes on")?,
        Progress::NeedsBuild(_) => println!(rt; "{key}: needs its new value")?,
        Progress::NeedsLoad(_, address) => {
            println!(rt; "{key}: needs the page of address {address}")?
        }
        Progress::Waits(Wait::Fuzzy) => {
            println!(rt; "{key}: waits until all sessions have looked")?
        }
        Progress::Waits(Wait::Full) => println!(rt; "{key}: waits until a page has left memory")?,
    }
    Ok(())
}
