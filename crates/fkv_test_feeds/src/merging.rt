//! Rows that merge: they come to the table of rows that update, and read no page.
use crate::random::{CONFIG, FEEDS, made};
use fkv_device::MemoryDevice;
use fkv_feeds::{RowMode, run_alone_by, write_table};
use fkv_functions::{CountFns, MaxFns, Mergeable, Name, Refused, SumFns};
use fkv_meters::{MeteredDevice, Meters};
use fkv_streams::{CountedReader, CountedWriter};
use itoa::Integer;
use std::alloc::Global;

/// The text of the table of a feed, with its rows in this mode.
fn text_by<F: Mergeable<Key = Name, Input = i64>>(
    alloc: Global,
    feed: &[u8],
    functions: F,
    mode: RowMode,
) -> Result<Vec<u8>, Refused>
where
    F::Value: Integer,
{
    let mut reader = CountedReader::new(feed);
    let device = MemoryDevice::new(alloc);
    let run = run_alone_by(alloc, &mut reader, functions, &CONFIG, device, mode)?;
    let mut text = Vec::new(alloc);
    write_table(alloc, &run.table, &mut CountedWriter::new(&mut text))?;
    Ok(text)
}

/// Whether a feed comes to one table in both modes.
fn is_one_table<F: Mergeable<Key = Name, Input = i64> + Copy>(
    alloc: Global,
    feed: &[u8],
    functions: F,
) -> Result<bool, Refused>
where
    F::Value: Integer,
{
    let updated = text_by(alloc, feed, functions, RowMode::Update)?;
    let merged = text_by(alloc, feed, functions, RowMode::Merge)?;
    Ok(updated == merged)
}

/// How many pages a run over a feed writes, and how many it reads.
fn pages_of(alloc: Global, feed: &[u8], mode: RowMode) -> Result<(u64, u64), Refused> {
    let meters = Meters::new();
    let device = MeteredDevice::new(MemoryDevice::new(alloc), &meters);
    let mut reader = CountedReader::new(feed);
    let _run = run_alone_by(alloc, &mut reader, SumFns, &CONFIG, device, mode)?;
    let seen = meters.seen();
    Ok((seen.pages_written, seen.pages_read))
}

#[test]
fn one_table(rt: HostRuntime) -> Result<(), Refused> {
    let alloc = rt.alloc();
    for (rows, keys) in FEEDS {
        let (feed, _sums) = made(alloc, rows + keys, rows, keys)?;
        assert!(rt;
            is_one_table(alloc, &feed, CountFns)?,
            "count {rows} {keys}"
        );
        assert!(rt; is_one_table(alloc, &feed, SumFns)?, "sum {rows} {keys}");
        assert!(rt; is_one_table(alloc, &feed, MaxFns)?, "max {rows} {keys}");
    }
    Ok(())
}

/// The list of the keys at the end reads each page once. Rows that update read pages too, since few of the keys are in memory;
/// rows that merge read none.
#[test]
fn pages_that_rows_read(rt: HostRuntime) -> Result<(), Refused> {
    let (feed, _sums) = made(rt.alloc(), 1, 3_000, 500)?;
    let (written, read) = pages_of(rt.alloc(), &feed, RowMode::Update)?;
    assert!(rt; written > 100 && read > written, "{written} {read}");
    let (written, read) = pages_of(rt.alloc(), &feed, RowMode::Merge)?;
    assert!(rt; written > 100 && read == written, "{written} {read}");
    Ok(())
}
