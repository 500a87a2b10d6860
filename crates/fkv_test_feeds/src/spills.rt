//! Tables that stand on the device of their run: the same text as in memory, and devices of which a call fails.
use crate::random::made;
use fkv_device::{Disk, MemoryDevice};
use fkv_feeds::{RowMode, run_one_by, spill_one_by, write_pairs, write_table};
use fkv_functions::{CountFns, MaxFns, Mergeable, Name, Refused, SumFns};
use fkv_meters::{MeteredDevice, Meters};
use fkv_partition::Config;
use fkv_streams::{CountedReader, CountedWriter};
use fkv_test_devices::{FailingDevice, Fault};
use itoa::Integer;
use std::alloc::Global;
use std::io::Write;

/// So many partitions, by the bits of their number, whose pages have so many bytes, by theirs.
fn config(partition_bits: u64, page_bits: u64) -> Config {
    Config {
        id: 1,
        partition_bits,
        bucket_bits: 1,
        page_bits,
        frames: 2,
        turns: 1_000_000,
    }
}

/// One partition, several and as many as there may be, with pages of four sums, and with larger ones; and how rows are made updates.
const CONFIGS: [(u64, u64, RowMode); 4] = [
    (0, 8, RowMode::Update),
    (2, 8, RowMode::Merge),
    (6, 8, RowMode::Update),
    (1, 12, RowMode::Merge),
];

/// Rows, and the keys that they are drawn from.
const FEEDS: [(u64, u64); 4] = [(0, 1), (100, 3), (300, 40), (300, 900)];

/// Readers of these feeds.
fn readers_of<'a>(
    alloc: Global,
    feeds: &[&'a [u8]],
) -> Result<Vec<CountedReader<&'a [u8]>>, Refused> {
    let mut readers = Vec::new(alloc);
    for feed in feeds {
        if readers.push(CountedReader::new(*feed)).is_err() {
            return Err(Refused::NoMemory);
        }
    }
    Ok(readers)
}

/// Writes the table of these feeds, which stands on a device, behind a text.
fn spill<F: Mergeable<Key = Name, Input = i64>, D: Disk>(
    alloc: Global,
    feeds: &[&[u8]],
    functions: F,
    config: &Config,
    device: D,
    mode: RowMode,
    text: &mut Vec<u8>,
) -> Result<(), Refused>
where
    F::Value: Integer,
{
    let mut readers = readers_of(alloc, feeds)?;
    let mut run = spill_one_by(
        alloc,
        readers.as_mut_slice(),
        functions,
        config,
        device,
        mode,
    )?;
    write_pairs(alloc, &mut run.pairs, &mut CountedWriter::new(text))
}

/// Whether the table of these feeds has the same text from a device as from memory.
fn is_one_table<F: Mergeable<Key = Name, Input = i64> + Copy>(
    alloc: Global,
    feeds: &[&[u8]],
    functions: F,
    config: &Config,
    mode: RowMode,
) -> Result<bool, Refused>
where
    F::Value: Integer,
{
    let mut readers = readers_of(alloc, feeds)?;
    let device = MemoryDevice::new(alloc);
    let run = run_one_by(
        alloc,
        readers.as_mut_slice(),
        functions,
        config,
        device,
        mode,
    )?;
    let mut wanted = Vec::new(alloc);
    write_table(alloc, &run.table, &mut CountedWriter::new(&mut wanted))?;
    let mut text = Vec::new(alloc);
    let device = MemoryDevice::new(alloc);
    spill(alloc, feeds, functions, config, device, mode, &mut text)?;
    Ok(text == wanted)
}

#[test]
fn one_table_from_a_device(rt: HostRuntime) -> Result<(), Refused> {
    let alloc = rt.alloc();
    for (rows, keys) in FEEDS {
        let (feed, _sums) = made(alloc, rows + keys, rows, keys)?;
        let feeds: [&[u8]; 3] = [&feed, b"", b"k1000,5\nz,-5\n"];
        for (partition_bits, page_bits, mode) in CONFIGS {
            let config = config(partition_bits, page_bits);
            assert!(rt;
                is_one_table(alloc, &feeds, SumFns, &config, mode)?,
                "{rows} {keys} {mode:?} {config:?}"
            );
        }
        let four = config(2, 8);
        assert!(rt;
            is_one_table(alloc, &feeds, CountFns, &four, RowMode::Update)?
                && is_one_table(alloc, &feeds[..1], MaxFns, &four, RowMode::Merge)?,
            "{rows} {keys}"
        );
    }
    Ok(())
}

/// The sums of a feed from a device of which the call after so many fails; what it was told by, and the text that was written.
fn failing(
    alloc: Global,
    feed: &[u8],
    calls: u64,
) -> (Result<(), Refused>, Option<Refused>, Vec<u8>) {
    let fault = Fault::after(calls);
    let device = FailingDevice::new(alloc, MemoryDevice::new(alloc), &fault);
    let mut text = Vec::new(alloc);
    let config = config(2, 8);
    let come = spill(
        alloc,
        &[feed],
        SumFns,
        &config,
        device,
        RowMode::Merge,
        &mut text,
    );
    (come, fault.told(), text)
}

/// Each call fails in turn, of those that open, write and read, for the log and for the table: it is told, and nothing is written, since
/// the text of the table is gathered before it goes out.
#[test]
fn each_call_fails_before_a_table_is_written(rt: HostRuntime) -> Result<(), Refused> {
    let (feed, sums) = made(rt.alloc(), 3, 80, 60)?;
    let mut whole = None;
    for calls in 0..500 {
        let (come, fault, text) = failing(rt.alloc(), &feed, calls);
        let is_right = match fault {
            Some(refused) => come == Err(refused) && text.is_empty(),
            None => come == Ok(()) && text == sums,
        };
        assert!(rt; is_right, "{calls} {come:?} {fault:?}");
        if fault.is_none() {
            whole = Some(calls);
            break;
        }
    }
    assert!(rt; whole.is_some_and(|calls| calls > 30), "{whole:?}");
    Ok(())
}

/// A feed of 1,500 keys of 31 bytes, each once, in their order: it is the table of its sums.
fn long_rows(alloc: Global) -> Result<Vec<u8>, Refused> {
    let mut feed = Vec::new(alloc);
    for number in 1_000..2_500u64 {
        let Ok(()) = writeln!(feed, "a-key-as-long-as-may-stand-{number},{}", i64::MIN) else {
            return Err(Refused::NoMemory);
        };
    }
    Ok(feed)
}

/// The last page of a table is not read back, when 64 KiB of its rows and more were gathered: those that were written stand.
#[test]
fn the_last_call_fails_after_rows_were_written(rt: HostRuntime) -> Result<(), Refused> {
    let feed = long_rows(rt.alloc())?;
    let meters = Meters::new();
    let device = MeteredDevice::new(MemoryDevice::new(rt.alloc()), &meters);
    let mut text = Vec::new(rt.alloc());
    let four = config(2, 8);
    spill(
        rt.alloc(),
        &[&feed],
        SumFns,
        &four,
        device,
        RowMode::Merge,
        &mut text,
    )?;
    assert!(rt; text == feed);
    // each of four partitions opens a writer and a reader, and the last call of all fails
    let seen = meters.seen();
    let moved = seen.pages_written.saturating_add(seen.pages_read);
    let (come, told, part) = failing(rt.alloc(), &feed, moved.saturating_add(7));
    assert!(rt; told.is_some() && come.err() == told, "{come:?} {told:?}");
    assert!(rt;
        part.len() > 60_000 && feed.starts_with(&part),
        "{}",
        part.len()
    );
    assert!(rt; part.len() < feed.len());
    Ok(())
}
