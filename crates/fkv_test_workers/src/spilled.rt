//! Tables of several workers that stand on the device of their run: the same text as from memory.
use crate::tables::{LETTERS, LETTERS_TABLE, SMALL};
use fkv_device::{Disk, FileDevice, MemoryDevice};
use fkv_feeds::{RowMode, write_pairs};
use fkv_functions::{Refused, SumFns};
use fkv_histories::{Audited, Plain, Recorder};
use fkv_partition::Config;
use fkv_store::Open;
use fkv_streams::{CountedReader, CountedWriter};
use fkv_workers::spill_blocks;
use std::alloc::Global;
use std::fs;
use std::io::Write;
use std::rt::Clock;
use std::sync::Wait;
use std::test::Fail;
use std::thread::Threads;

/// The text of the table of sums of these feeds, by so many workers that share them, from this device.
pub fn spilled_over<H: Recorder<SumFns> + Send, D: Disk + Send, T: Threads + Wait + Clock + Sync>(
    rt: &T,
    alloc: Global,
    feeds: &[&[u8]],
    workers: usize,
    config: &Config,
    device: D,
    mode: RowMode,
) -> Result<Vec<u8>, Refused>
where
    D::Receipt: Send,
    D::Writer: Send,
    D::Reader: Send,
{
    let mut readers = Vec::new(alloc);
    for feed in feeds {
        let Ok(()) = readers.push(CountedReader::new(*feed)) else {
            return Err(Refused::NoMemory);
        };
    }
    let mut run = spill_blocks::<_, _, _, H, _, _>(
        rt,
        alloc,
        &mut readers,
        workers,
        SumFns,
        config,
        device,
        &Open,
        mode,
    )?;
    let mut text = Vec::new(alloc);
    write_pairs(alloc, &mut run.pairs, &mut CountedWriter::new(&mut text))?;
    Ok(text)
}

/// Rows of so many keys in their order, each key with this amount.
fn rows(alloc: Global, keys: u64, amount: u64) -> Result<Vec<u8>, Fail> {
    let mut text = Vec::new(alloc);
    for key in 0..keys {
        writeln!(text, "k{},{amount}", key.saturating_add(10_000))?;
    }
    Ok(text)
}

/// How many keys there are, how many workers and feeds, by how many bits partitions and pages go, and how rows are made updates.
const SHAPES: [(u64, usize, u64, u64, RowMode); 5] = [
    (0, 2, 1, 8, RowMode::Update),
    (1, 14, 6, 8, RowMode::Merge),
    (200, 2, 0, 8, RowMode::Update),
    (700, 4, 3, 8, RowMode::Merge),
    (3_000, 3, 2, 12, RowMode::Update),
];

#[test]
fn one_table_from_pages(rt: HostRuntime) -> Result<(), Fail> {
    let alloc = rt.alloc();
    for (keys, workers, partition_bits, page_bits, mode) in SHAPES {
        let feed = rows(alloc, keys, 1)?;
        let wanted = rows(alloc, keys, workers as u64)?;
        let mut feeds: Vec<&[u8]> = Vec::new(alloc);
        for _ in 0..workers {
            feeds.push(feed.as_slice())?;
        }
        let config = Config {
            partition_bits,
            page_bits,
            ..SMALL
        };
        let device = MemoryDevice::new(alloc);
        let plain = spilled_over::<Plain, _, _>(
            &rt, alloc, &feeds, workers, &config, device, mode,
        )?;
        assert!(rt; plain == wanted, "{keys} {workers} {mode:?}");
        let folder = String::from_str(alloc, "spilled_files")?;
        let device = FileDevice::new(rt.clone()?, alloc, folder, page_bits as u32);
        let audited = spilled_over::<Audited<SumFns>, _, _>(
            &rt, alloc, &feeds, workers, &config, device, mode,
        )?;
        assert!(rt; audited == wanted, "{keys} {workers} {mode:?}");
    }
    Ok(())
}

/// The pages of a table take the places of the log's, which is read no more: the file does not grow.
#[test]
fn runs_take_the_places_of_the_log(rt: HostRuntime) -> Result<(), Fail> {
    let alloc = rt.alloc();
    // four records or pairs a page
    let feed = rows(alloc, 200, 1)?;
    let folder = String::from_str(alloc, "spilled_places")?;
    let device = FileDevice::new(rt.clone()?, alloc, folder, 8);
    let mode = RowMode::Update;
    let text = spilled_over::<Plain, _, _>(&rt, alloc, &[&feed], 1, &SMALL, device, mode)?;
    assert!(rt; text == feed);
    let size = fs::metadata(&rt, "spilled_places/part-00.log")?.len();
    assert!(rt; 48 * 256 <= size && size <= 50 * 256, "{size}");
    Ok(())
}

#[test]
fn bad_runs_are_not_spilled(rt: HostRuntime) {
    let alloc = rt.alloc();
    let mode = RowMode::Update;
    let none = spilled_over::<Plain, _, _>(
        &rt,
        alloc,
        &[LETTERS],
        0,
        &SMALL,
        MemoryDevice::new(alloc),
        mode,
    );
    assert!(rt; none == Err(Refused::BadConfig));
    let bad = spilled_over::<Plain, _, _>(
        &rt,
        alloc,
        &[LETTERS, b"a\n"],
        2,
        &SMALL,
        MemoryDevice::new(alloc),
        mode,
    );
    assert!(rt; bad == Err(Refused::BadRow { feed: 2, row: 1 }));
    let one = spilled_over::<Plain, _, _>(
        &rt,
        alloc,
        &[LETTERS, b"t,1\n"],
        1,
        &SMALL,
        MemoryDevice::new(alloc),
        mode,
    );
    assert!(rt; one.is_ok_and(|text| text.as_slice() == LETTERS_TABLE));
}
