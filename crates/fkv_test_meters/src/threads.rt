//! Two threads that share counts.
use crate::sources::{Heard, all_of};
use fkv_device::{Disk, FileDevice, MemoryDevice, Page, PageReader, PageWriter};
use fkv_functions::Refused;
use fkv_meters::{
    MeterReadings, MeteredDevice, Meters, ProgressLine, ProgressSource, ReadProgress, Silent,
};
use fkv_streams::{CountedReader, Source};
use std::alloc::Global;
use std::test::Fail;
use std::thread::{Threads, join};

/// How many lines a feed has.
const ROWS: usize = 50_000;

/// Reads a source to its end, and says whether it gave these bytes.
fn reads_all<S: Source + Drop>(alloc: Global, source: S, text: &[u8]) -> bool {
    let mut source = source;
    match all_of(alloc, &mut source, 1_000) {
        Ok((read, Ok(()))) => read.as_slice() == text,
        _ => false,
    }
}

/// Whether two sources, each in a thread of its own, give all their bytes.
fn are_read_by_two<P: ReadProgress + Sync, T: Threads + Sync>(
    rt: &T,
    alloc: Global,
    text: &[u8],
    hook: &P,
) -> bool {
    hook.begin();
    let one = ProgressSource::new(CountedReader::new(text), hook);
    let two = ProgressSource::new(CountedReader::new(text), hook);
    let (first, second) = join(
        rt,
        move || reads_all(alloc, one, text),
        move || reads_all(alloc, two, text),
    );
    first && second
}

#[test]
fn two_sources_share_a_hook(rt: HostRuntime) -> Result<(), Fail> {
    let alloc = rt.alloc();
    let text = vec![in alloc; b'\n'; ROWS]?;
    let text = text.as_slice();
    let heard = Heard::new();
    assert!(rt; are_read_by_two(&rt, alloc, text, &heard));
    assert!(rt; heard.told().2 == 100_000, "{:?}", heard.told());
    let faults = rt.stderr();
    assert!(rt; are_read_by_two(&rt, alloc, text, &ProgressLine::new(&rt, &faults, false)));
    assert!(rt; are_read_by_two(&rt, alloc, text, &Silent));
    Ok(())
}

/// Writes so many pages of 64 bytes, and reads each twice.
fn works<W: PageWriter, R: PageReader<Receipt = W::Receipt>>(
    alloc: Global,
    writer: W,
    reader: R,
    pages: u64,
) -> Result<(), Refused> {
    let mut writer = writer;
    let mut reader = reader;
    let bytes = Page::copy_of(alloc, &[7u8; 64])?;
    for page in 0..pages {
        let receipt = writer.write(page, &bytes)?;
        let _once = reader.read(&receipt, 64)?;
        let _twice = reader.read(&receipt, 64)?;
    }
    Ok(())
}

#[test]
fn two_writers_share_meters(rt: HostRuntime) -> Result<(), Fail> {
    let alloc = rt.alloc();
    let meters = Meters::new();
    let mut device = MeteredDevice::new(MemoryDevice::new(alloc), &meters);
    let (first, its_reader) = (device.writer(0)?, device.reader(0)?);
    let (second, the_other) = (device.writer(1)?, device.reader(1)?);
    let (one, two) = join(
        &rt,
        move || works(alloc, first, its_reader, 300),
        move || works(alloc, second, the_other, 200),
    );
    let seen = MeterReadings {
        pages_written: 500,
        pages_read: 1_000,
        bytes_written: 32_000,
    };
    assert!(rt;
        one == Ok(()) && two == Ok(()) && meters.seen() == seen,
        "{one:?} {two:?}"
    );
    Ok(())
}

/// What a run in threads asks of its device and its feeds.
fn takes<D: Disk + Send, S: Source + Drop + Send>(_device: &D, _feed: &S) -> bool
where
    D::Receipt: Send,
    D::Writer: Send,
    D::Reader: Send,
{
    true
}

/// The same of any such device that is metered, and of any such feed that tells.
fn takes_wrapped<D: Disk + Send, S: Source + Drop + Send, P: ReadProgress + Sync>(
    device: D,
    feed: S,
    hook: &P,
) -> bool
where
    D::Receipt: Send,
    D::Writer: Send,
    D::Reader: Send,
{
    let meters = Meters::new();
    takes(
        &MeteredDevice::new(device, &meters),
        &ProgressSource::new(feed, hook),
    )
}

#[test]
fn a_run_in_threads_takes_both(rt: HostRuntime) -> Result<(), Fail> {
    let folder = String::from_str(rt.alloc(), "device_files")?;
    let device = FileDevice::new(&rt, rt.alloc(), folder, 8);
    let feed: &[u8] = b"a,1\n";
    let faults = rt.stderr();
    let telling = ProgressLine::new(&rt, &faults, false);
    assert!(rt; takes_wrapped(device, CountedReader::new(feed), &telling));
    Ok(())
}
