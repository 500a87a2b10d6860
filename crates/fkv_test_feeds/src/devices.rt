//! Devices that fail a write or a read, or give other bytes than were written.
use fkv_device::{Disk, FileDevice};
use fkv_feeds::{run_alone, run_one, write_table};
use fkv_functions::{Refused, SumFns};
use fkv_partition::Config;
use fkv_streams::{CountedReader, CountedWriter};
use fkv_test_devices::{Turn, UnsureDevice};
use std::alloc::Global;
use std::io::Write;
use std::test::Fail;

/// One partition, with two frames of four records at most.
const CONFIG: Config = Config {
    id: 1,
    partition_bits: 0,
    bucket_bits: 10,
    page_bits: 8,
    frames: 2,
    turns: 100,
};

/// A hundred keys, one after the other, twice; or the table of these rows.
fn lines(alloc: Global, times: u64, amount: u64) -> Option<Vec<u8>> {
    let mut text = Vec::new(alloc);
    for line in 0..times.saturating_mul(100) {
        let Ok(()) = writeln!(text, "k{},{amount}", 100 + line % 100) else {
            return None;
        };
    }
    Some(text)
}

/// What the sums of a hundred keys, so many times over, come to over a device, or what they are refused by.
fn summed<D: Disk>(
    alloc: Global,
    times: u64,
    config: &Config,
    device: D,
) -> Result<Vec<u8>, Refused> {
    let Some(feed) = lines(alloc, times, 1) else {
        return Err(Refused::NoMemory);
    };
    let mut reader = CountedReader::new(feed.as_slice());
    let run = match run_alone(alloc, &mut reader, SumFns, config, device) {
        Ok(run) => run,
        Err(refused) => return Err(refused),
    };
    let mut text = Vec::new(alloc);
    match write_table(alloc, &run.table, &mut CountedWriter::new(&mut text)) {
        Ok(()) => Ok(text),
        Err(refused) => Err(refused),
    }
}

/// How often the hundred keys come, the pages that are written, and those that are read, before what happens then, and what
/// the run is refused by. The first page has three records, and each after it four; the rows of the second hundred read
/// them in order. Where each key comes once no row reads a page, and the list of the table's keys reads them in order.
const TURNS: [(u64, u64, u64, Turn, Option<Refused>); 14] = [
    (2, 1_000, 1_000, Turn::Fails, None),
    (
        2,
        0,
        1_000,
        Turn::Fails,
        Some(Refused::Device { code: 2, page: 0 }),
    ),
    (
        2,
        3,
        1_000,
        Turn::Fails,
        Some(Refused::Device { code: 2, page: 3 }),
    ),
    (
        2,
        20,
        1_000,
        Turn::Fails,
        Some(Refused::Device { code: 2, page: 20 }),
    ),
    (
        2,
        1_000,
        0,
        Turn::Fails,
        Some(Refused::Device { code: 3, page: 0 }),
    ),
    (
        2,
        1_000,
        2,
        Turn::Fails,
        Some(Refused::Device { code: 3, page: 0 }),
    ),
    (
        2,
        1_000,
        5,
        Turn::Fails,
        Some(Refused::Device { code: 3, page: 1 }),
    ),
    (
        2,
        1_000,
        2,
        Turn::Clears,
        Some(Refused::Damaged { page: 0 }),
    ),
    (
        2,
        1_000,
        3,
        Turn::Clears,
        Some(Refused::Damaged { page: 1 }),
    ),
    (1, 1_000, 1_000, Turn::Fails, None),
    (
        1,
        1_000,
        0,
        Turn::Fails,
        Some(Refused::Device { code: 3, page: 0 }),
    ),
    (
        1,
        1_000,
        7,
        Turn::Fails,
        Some(Refused::Device { code: 3, page: 7 }),
    ),
    (
        1,
        1_000,
        20,
        Turn::Fails,
        Some(Refused::Device { code: 3, page: 20 }),
    ),
    (
        1,
        1_000,
        7,
        Turn::Clears,
        Some(Refused::Damaged { page: 7 }),
    ),
];

#[test]
fn devices(rt: HostRuntime) {
    for (times, writes, reads, turn, told) in TURNS {
        let mut device = UnsureDevice::new(rt.alloc());
        device.writes = writes;
        device.reads = reads;
        device.turn = turn;
        let come = summed(rt.alloc(), times, &CONFIG, device);
        let wanted = match told {
            Some(refused) => Err(refused),
            None => match lines(rt.alloc(), 1, times) {
                Some(text) => Ok(text),
                None => Err(Refused::NoMemory),
            },
        };
        assert!(rt; come == wanted, "{times} {writes} {reads}");
    }
}

/// Feed a to t, each with 1, and then `a,1`: more keys than two frames of four records hold.
const TWENTY: &[u8] =
    b"a,1\nb,1\nc,1\nd,1\ne,1\nf,1\ng,1\nh,1\ni,1\nj,1\nk,1\nl,1\nm,1\nn,1\no,1\np,1\nq,1\nr,1\ns,1\nt,1\na,1\n";

/// A device whose first write fails ends the run. It catches a body that answers from a map of its own beside the log:
/// that would never write a page.
#[test]
fn map_beside_the_log(rt: HostRuntime) {
    let config = Config {
        bucket_bits: 8,
        ..CONFIG
    };
    let mut device = UnsureDevice::new(rt.alloc());
    device.writes = 0;
    let mut readers = [CountedReader::new(TWENTY)];
    let told = run_one(rt.alloc(), readers.as_mut_slice(), SumFns, &config, device).err();
    assert!(rt; told == Some(Refused::Device { code: 2, page: 0 }));
}

/// Four partitions, each with a file of its own.
const PARTED: Config = Config {
    partition_bits: 2,
    ..CONFIG
};

#[test]
fn files(rt: HostRuntime) -> Result<(), Fail> {
    let folder = String::from_str(rt.alloc(), "device_files/feeds")?;
    let device = FileDevice::new(rt.clone()?, rt.alloc(), folder, 8);
    let come = summed(rt.alloc(), 2, &PARTED, device);
    let wanted = match lines(rt.alloc(), 1, 2) {
        Some(text) => Ok(text),
        None => Err(Refused::NoMemory),
    };
    assert!(rt; come == wanted);
    Ok(())
}
