//! Tables of several workers.
use fkv_device::{Disk, FileDevice, MemoryDevice};
use fkv_feeds::{RowMode, write_table};
use fkv_functions::{Refused, SumFns};
use fkv_histories::{Audited, Plain, Recorder};
use fkv_partition::Config;
use fkv_store::{Gate, KEEPER, Open, Place};
use fkv_streams::{CountedReader, CountedWriter};
use fkv_workers::{run_feeds, run_feeds_by};
use std::alloc::Global;
use std::fs;
use std::io::Write;
use std::rt::Clock;
use std::sync::Wait;
use std::sync::atomic::{AtomicU64, Ordering};
use std::test::Fail;
use std::thread::Threads;

/// One partition, 256 buckets, pages of 256 bytes and two frames.
pub const SMALL: Config = Config {
    id: 1,
    partition_bits: 0,
    bucket_bits: 8,
    page_bits: 8,
    frames: 2,
    turns: 1_000_000,
};

/// Keys a to t with 1 each, and then a once more: more than two frames of four records hold.
pub const LETTERS: &[u8] =
    b"a,1\nb,1\nc,1\nd,1\ne,1\nf,1\ng,1\nh,1\ni,1\nj,1\nk,1\nl,1\nm,1\nn,1\no,1\np,1\nq,1\nr,1\ns,1\nt,1\na,1\n";

/// The table of the letters, and of a feed that has t once more.
pub const LETTERS_TABLE: &[u8] =
    b"a,2\nb,1\nc,1\nd,1\ne,1\nf,1\ng,1\nh,1\ni,1\nj,1\nk,1\nl,1\nm,1\nn,1\no,1\np,1\nq,1\nr,1\ns,1\nt,2\n";

/// Room for the text of any table here.
const ROOM: usize = 4096;

/// The text of the table of sums of these feeds, by so many workers, over this device, where rows are made updates so.
pub fn summed_by<
    H: Recorder<SumFns> + Send,
    D: Disk + Send,
    G: Gate + Sync,
    T: Threads + Wait + Clock + Sync,
>(
    rt: &T,
    alloc: Global,
    feeds: &[&[u8]],
    workers: usize,
    config: &Config,
    device: D,
    gate: &G,
    mode: RowMode,
) -> Result<Vec<u8>, Refused>
where
    D::Receipt: Send,
    D::Writer: Send,
    D::Reader: Send,
{
    let mut sources = Vec::new(alloc);
    for feed in feeds {
        let Ok(()) = sources.push(CountedReader::new(*feed)) else {
            return Err(Refused::NoMemory);
        };
    }
    let run = run_feeds_by::<_, _, _, H, _, _>(
        rt, alloc, sources, workers, SumFns, config, device, gate, mode,
    )?;
    // what it is written to takes no more memory
    let Ok(mut text) = Vec::with_capacity(alloc, ROOM) else {
        return Err(Refused::NoMemory);
    };
    write_table(alloc, &run.table, &mut CountedWriter::new(&mut text))?;
    Ok(text)
}

/// The same, where each row is an update.
pub fn summed_over<
    H: Recorder<SumFns> + Send,
    D: Disk + Send,
    G: Gate + Sync,
    T: Threads + Wait + Clock + Sync,
>(
    rt: &T,
    alloc: Global,
    feeds: &[&[u8]],
    workers: usize,
    config: &Config,
    device: D,
    gate: &G,
) -> Result<Vec<u8>, Refused>
where
    D::Receipt: Send,
    D::Writer: Send,
    D::Reader: Send,
{
    let mode = RowMode::Update;
    summed_by::<H, _, _, _>(rt, alloc, feeds, workers, config, device, gate, mode)
}

/// The same over memory.
pub fn summed<H: Recorder<SumFns> + Send, G: Gate + Sync, T: Threads + Wait + Clock + Sync>(
    rt: &T,
    alloc: Global,
    feeds: &[&[u8]],
    workers: usize,
    config: &Config,
    gate: &G,
) -> Result<Vec<u8>, Refused> {
    let device = MemoryDevice::new(alloc);
    summed_over::<H, _, _, _>(rt, alloc, feeds, workers, config, device, gate)
}

/// Rows 0 to 999, whose keys are k0 to k99 over and over, with this amount.
fn hundred(alloc: Global, amount: u64) -> Result<Vec<u8>, Fail> {
    let mut text = Vec::new(alloc);
    for row in 0..1_000u64 {
        writeln!(text, "k{},{amount}", row % 100)?;
    }
    Ok(text)
}

/// Two partitions, 16 buckets, pages of 256 bytes and two frames.
const TIGHT: Config = Config {
    id: 1,
    partition_bits: 1,
    bucket_bits: 4,
    page_bits: 8,
    frames: 2,
    turns: 1_000_000,
};

/// The table of rows 0 to 999 of each of four feeds, by amounts of 1 to 4.
const HUNDRED_TABLE: &[u8] =
    b"k0,100\nk1,100\nk10,100\nk11,100\nk12,100\nk13,100\nk14,100\nk15,100\nk16,100\nk17,100\nk18,100\n\
k19,100\nk2,100\nk20,100\nk21,100\nk22,100\nk23,100\nk24,100\nk25,100\nk26,100\nk27,100\nk28,100\n\
k29,100\nk3,100\nk30,100\nk31,100\nk32,100\nk33,100\nk34,100\nk35,100\nk36,100\nk37,100\nk38,100\n\
k39,100\nk4,100\nk40,100\nk41,100\nk42,100\nk43,100\nk44,100\nk45,100\nk46,100\nk47,100\nk48,100\n\
k49,100\nk5,100\nk50,100\nk51,100\nk52,100\nk53,100\nk54,100\nk55,100\nk56,100\nk57,100\nk58,100\n\
k59,100\nk6,100\nk60,100\nk61,100\nk62,100\nk63,100\nk64,100\nk65,100\nk66,100\nk67,100\nk68,100\n\
k69,100\nk7,100\nk70,100\nk71,100\nk72,100\nk73,100\nk74,100\nk75,100\nk76,100\nk77,100\nk78,100\n\
k79,100\nk8,100\nk80,100\nk81,100\nk82,100\nk83,100\nk84,100\nk85,100\nk86,100\nk87,100\nk88,100\n\
k89,100\nk9,100\nk90,100\nk91,100\nk92,100\nk93,100\nk94,100\nk95,100\nk96,100\nk97,100\nk98,100\n\
k99,100\n";

#[test]
fn four_workers(rt: HostRuntime) -> Result<(), Fail> {
    let alloc = rt.alloc();
    let one = hundred(alloc, 1)?;
    let two = hundred(alloc, 2)?;
    let three = hundred(alloc, 3)?;
    let four = hundred(alloc, 4)?;
    let feeds = [
        one.as_slice(),
        two.as_slice(),
        three.as_slice(),
        four.as_slice(),
    ];
    let audited = summed::<Audited<SumFns>, _, _>(&rt, alloc, &feeds, 4, &TIGHT, &Open)?;
    assert!(rt; audited.as_slice() == HUNDRED_TABLE);
    let plain = summed::<Plain, _, _>(&rt, alloc, &feeds, 4, &TIGHT, &Open)?;
    assert!(rt; plain.as_slice() == HUNDRED_TABLE);
    let folder = String::from_str(alloc, "four_files")?;
    let device = FileDevice::new(rt.clone()?, alloc, folder, 8);
    let filed = summed_over::<Audited<SumFns>, _, _, _>(
        &rt, alloc, &feeds, 4, &TIGHT, device, &Open,
    )?;
    assert!(rt; filed.as_slice() == HUNDRED_TABLE);
    fs::remove_dir_all(&rt, "four_files")?;
    Ok(())
}

#[test]
fn out_of_range(rt: HostRuntime) -> Result<(), Fail> {
    let alloc = rt.alloc();
    let feed: &[u8] = b"a,1\n";
    let none: [&[u8]; 0] = [];
    let bad = Err(Refused::BadConfig);
    assert!(rt; summed::<Plain, _, _>(&rt, alloc, &[feed], 0, &SMALL, &Open) == bad);
    assert!(rt; summed::<Plain, _, _>(&rt, alloc, &[feed], 15, &SMALL, &Open) == bad);
    assert!(rt; summed::<Plain, _, _>(&rt, alloc, &none, 1, &SMALL, &Open) == bad);
    assert!(rt; summed::<Plain, _, _>(&rt, alloc, &[feed; 65], 1, &SMALL, &Open) == bad);
    let most = summed::<Plain, _, _>(&rt, alloc, &[feed; 64], 14, &SMALL, &Open)?;
    assert!(rt; most.as_slice() == b"a,64\n".as_slice());
    Ok(())
}

#[test]
fn the_first_workers_fault(rt: HostRuntime) -> Result<(), Fail> {
    let alloc = rt.alloc();
    let feeds: [&[u8]; 2] = [b"a,1\nb,1\nc\n", b"a\n"];
    let bad = Err(Refused::BadRow { feed: 1, row: 3 });
    assert!(rt; summed::<Audited<SumFns>, _, _>(&rt, alloc, &feeds, 2, &SMALL, &Open) == bad);
    assert!(rt; summed::<Plain, _, _>(&rt, alloc, &feeds, 2, &SMALL, &Open) == bad);
    Ok(())
}

/// The letters and t once more, by two workers, over a file.
#[test]
fn files(rt: HostRuntime) -> Result<(), Fail> {
    let alloc = rt.alloc();
    let feeds: [&[u8]; 2] = [LETTERS, b"t,1\n"];
    let folder = String::from_str(alloc, "shared_files/workers")?;
    let device = FileDevice::new(rt.clone()?, alloc, folder, 8);
    let text = summed_over::<Audited<SumFns>, _, _, _>(
        &rt, alloc, &feeds, 2, &SMALL, device, &Open,
    )?;
    assert!(rt; text.as_slice() == LETTERS_TABLE);
    let folder = String::from_str(alloc, "shared_files/workers")?;
    let device = FileDevice::new(rt.clone()?, alloc, folder, 8);
    let text = summed_over::<Plain, _, _, _>(&rt, alloc, &feeds, 2, &SMALL, device, &Open)?;
    assert!(rt; text.as_slice() == LETTERS_TABLE);
    fs::remove_dir_all(&rt, "shared_files")?;
    Ok(())
}

/// One worker, of which a growth may be refused: the table is whole, or nothing is.
#[test]
fn refused_growths_of_one_worker(rt: HostRuntime) -> Result<(), Fail> {
    let two = Config {
        partition_bits: 1,
        ..SMALL
    };
    let feeds: [&[u8]; 2] = [b"a,1\n", b"b,1\n"];
    match summed::<Audited<SumFns>, _, _>(&rt, rt.alloc(), &feeds, 1, &two, &Open) {
        Ok(text) => assert!(rt; text.as_slice() == b"a,1\nb,1\n".as_slice()),
        Err(refused) => assert!(rt; refused == Refused::NoMemory, "{refused}"),
    }
    Ok(())
}

/// A gate that counts how often a worker reads a page, and keeps which partition's lock a worker held first.
#[derive(Drop)]
struct Seen {
    loads: AtomicU64,
    first: AtomicU64,
}

/// No partition.
const NONE: u64 = u64::MAX;

impl Seen {
    fn nothing() -> Seen {
        Seen {
            loads: AtomicU64::new(0),
            first: AtomicU64::new(NONE),
        }
    }
}

impl Gate for Seen {
    fn pass(&self, worker: u32, place: Place) {
        match place {
            _ if worker == KEEPER => {}
            Place::Load => {
                self.loads.fetch_add(1, Ordering::SeqCst);
            }
            Place::Locked(partition) if self.first.load(Ordering::SeqCst) == NONE => {
                self.first.store(partition, Ordering::SeqCst);
            }
            _ => {}
        }
    }
}

/// Each row is one update: that of a whose page left memory reads it again. As a merge it reads none.
#[test]
fn rows_are_updates(rt: HostRuntime) -> Result<(), Fail> {
    let alloc = rt.alloc();
    let feeds: [&[u8]; 2] = [LETTERS, b"t,1\n"];
    let sources = vec![in alloc; CountedReader::new(feeds[0]), CountedReader::new(feeds[1])]?;
    let device = MemoryDevice::new(alloc);
    let gate = Seen::nothing();
    let run = run_feeds::<_, _, _, Plain, _, _>(
        &rt, alloc, sources, 1, SumFns, &SMALL, device, &gate,
    )?;
    assert!(rt; run.counts.rows == 22);
    let mut text = Vec::new(alloc);
    write_table(alloc, &run.table, &mut CountedWriter::new(&mut text))?;
    assert!(rt; text.as_slice() == LETTERS_TABLE);
    assert!(rt; gate.loads.load(Ordering::SeqCst) > 0);
    let gate = Seen::nothing();
    let device = MemoryDevice::new(alloc);
    let mode = RowMode::Merge;
    let text = summed_by::<Plain, _, _, _>(&rt, alloc, &feeds, 1, &SMALL, device, &gate, mode)?;
    assert!(rt; text.as_slice() == LETTERS_TABLE);
    assert!(rt; gate.loads.load(Ordering::SeqCst) == 0);
    Ok(())
}

/// Which partition's lock a worker holds first that reads so many rows of the second one, and then a row of the first.
fn first_locked<T: Threads + Wait + Clock + Sync>(
    rt: &T,
    alloc: Global,
    rows: u64,
) -> Result<u64, Fail> {
    let two = Config {
        partition_bits: 1,
        ..SMALL
    };
    let mut feed = Vec::new(alloc);
    for _row in 0..rows {
        feed.write_all(b"b,1\n")?;
    }
    feed.write_all(b"a,1\n")?;
    let gate = Seen::nothing();
    let text = summed::<Plain, _, _>(rt, alloc, &[feed.as_slice()], 1, &two, &gate)?;
    if !text.starts_with(b"a,1\nb,") {
        return Ok(NONE);
    }
    Ok(gate.first.load(Ordering::SeqCst))
}

/// Rows wait until they are 64 of their partition; at the end those of the first partition are made first.
#[test]
fn rows_together(rt: HostRuntime) -> Result<(), Fail> {
    assert!(rt; first_locked(&rt, rt.alloc(), 63)? == 0);
    assert!(rt; first_locked(&rt, rt.alloc(), 64)? == 1);
    Ok(())
}
