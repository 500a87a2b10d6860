//! Pages written and read back on devices in memory and in files, and each refusal once.
ghost use Rattle.std.specs.Prelude.{◌≡◌, IsTrue, IfOk};

use fkv_device::{
    Disk, FileDevice, FlushJob, Loaded, MemoryDevice, Page, PageReader, PageWriter, Receipt,
    Written,
};
use fkv_functions::Refused;
use std::alloc::Global;
use std::fs;
use std::test::Fail;

/// What a program over any device learns from the clauses: on one that keeps, a page that is written
/// and fetched again is the page.
fn there_and_back<W: PageWriter, P: PageReader<Receipt = W::Receipt>>(
    writer: &mut W,
    reader: &mut P,
    job: FlushJob,
    size: usize,
) -> Result<Loaded<W::Receipt>, Refused>
    ensures { IfOk result (λ read. IsTrue W.Receipt.keeps → read.bytes ≡ job.bytes) }
{
    let receipt = Written::write(writer, job)?.into_receipt();
    let again = receipt.again()?;
    Loaded::fetch(reader, &again, size)
}

/// A page of nines that is written and fetched, or why it is not.
fn nines_back<D: Disk>(alloc: Global, disk: &mut D, page: u64) -> Result<bool, Refused> {
    let bytes = Page::copy_of(alloc, &[9u8; 64])?;
    let mut writer = disk.writer(5)?;
    let mut reader = disk.reader(5)?;
    let job = FlushJob { page, bytes };
    let read = there_and_back(&mut writer, &mut reader, job, 64)?;
    Ok(read.bytes() == [9u8; 64].as_slice())
}

/// Whether a page of nines is written and fetched, all of it again where memory is refused once.
fn keeps_nines<D: Disk>(alloc: Global, disk: &mut D, page: u64) -> bool {
    match nines_back(alloc, disk, page) {
        Err(Refused::NoMemory) => nines_back(alloc, disk, page) == Ok(true),
        kept => kept == Ok(true),
    }
}

/// The page of a number: that byte everywhere, and 255 at the end.
fn page(alloc: Global, number: u8, length: usize) -> Option<Page> {
    let Ok(mut bytes) = vec![in alloc; number; length] else {
        return None;
    };
    if let Some(last) = bytes.last_mut() {
        *last = 255;
    }
    Page::new(alloc, bytes).ok()
}

fn is_page(bytes: &[u8], number: u8, length: usize) -> bool {
    bytes.len() == length
        && match bytes.split_last() {
            None => true,
            Some((last, rest)) => *last == 255 && rest.iter().all(|byte| *byte == number),
        }
}

/// Writes the page of a number, four places further on, and answers its receipt.
fn write_page<W: PageWriter>(
    alloc: Global,
    writer: &mut W,
    number: u8,
    length: usize,
) -> Option<W::Receipt> {
    let bytes = page(alloc, number, length)?;
    let place = u64::from(number) + 4;
    let job = FlushJob { page: place, bytes };
    let Ok(written) = Written::write(writer, job) else {
        return None;
    };
    if written.page() != place || !is_page(written.bytes(), number, length) {
        return None;
    }
    Some(written.into_receipt())
}

/// Whether the page of a number is fetched by its receipt, and none of another size.
fn is_fetched<P: PageReader>(
    reader: &mut P,
    receipt: &P::Receipt,
    number: u8,
    length: usize,
) -> bool {
    let Ok(loaded) = Loaded::fetch(reader, receipt, length) else {
        return false;
    };
    let place = u64::from(number) + 4;
    let is_whole = receipt.number() == u64::from(number)
        && receipt.page() == place
        && loaded.receipt().same(receipt)
        && is_page(loaded.bytes(), number, length);
    let fault = Refused::Device {
        code: 3,
        page: place,
    };
    is_whole && (length == 0 || reader.read(receipt, length.saturating_sub(1)).err() == Some(fault))
}

/// Whether three pages are written, and read in another order, each by its receipt.
fn keeps_three_pages<D: Disk>(alloc: Global, disk: &mut D, length: usize) -> Option<bool> {
    let Ok(mut writer) = disk.writer(7) else {
        return None;
    };
    let first = write_page(alloc, &mut writer, 0, length)?;
    let second = write_page(alloc, &mut writer, 1, length)?;
    let third = write_page(alloc, &mut writer, 2, length)?;
    let Ok(mut reader) = disk.reader(7) else {
        return None;
    };
    Some(
        is_fetched(&mut reader, &second, 1, length)
            && is_fetched(&mut reader, &third, 2, length)
            && is_fetched(&mut reader, &first, 0, length),
    )
}

#[test]
fn memory_gives_back_three_pages(rt: HostRuntime) {
    for length in [0, 1, 64, 4096] {
        let mut disk = MemoryDevice::new(rt.alloc());
        assert!(rt;
            keeps_three_pages(rt.alloc(), &mut disk, length) == Some(true),
            "{length}"
        );
    }
}

/// Run also with each allocation refused in turn, by `rt try --test --fail-alloc N`.
#[test]
fn refused_growths_are_called_again(rt: HostRuntime) {
    assert!(rt; keeps_nines(rt.alloc(), &mut MemoryDevice::new(rt.alloc()), 3));
}

/// The receipt of a copy of these bytes, written at a page.
pub(crate) fn receipt_of<W: PageWriter>(
    alloc: Global,
    writer: &mut W,
    page: u64,
    bytes: &[u8],
) -> Result<W::Receipt, Refused> {
    writer.write(page, &Page::copy_of(alloc, bytes)?)
}

/// Two receipts with the same number, each of a page and bytes, and whether they are the same.
const SAME: [(u64, &[u8], u64, &[u8], bool); 5] = [
    (3, b"page", 3, b"page", true),
    (3, b"page", 4, b"page", false),
    (3, b"page", 3, b"Page", false),
    (3, b"page", 3, b"pag", false),
    (0, b"", 0, b"", true),
];

/// Whether receipts of two writers are the same, and those of the second page that one of them writes.
fn is_same(alloc: Global, row: &(u64, &[u8], u64, &[u8], bool)) -> Result<(bool, bool), Refused> {
    let mut disk = MemoryDevice::new(alloc);
    let mut writer = disk.writer(0)?;
    let one = receipt_of(alloc, &mut writer, row.0, row.1)?;
    let second = receipt_of(alloc, &mut writer, row.0, row.1)?;
    let other = receipt_of(alloc, &mut disk.writer(1)?, row.2, row.3)?;
    let again = one.again()?;
    Ok((one.same(&again) && one.same(&other), one.same(&second)))
}

#[test]
fn same_is_of_number_page_and_bytes(rt: HostRuntime) {
    for (at, row) in SAME.iter().enumerate() {
        assert!(rt; is_same(rt.alloc(), row) == Ok((row.4, false)), "row {at}");
    }
}

/// Takes away what a test made.
fn clear(rt: &HostRuntime, folder: &str) -> Result<(), Fail> {
    if fs::exists(rt, folder)? {
        fs::remove_dir_all(rt, folder)?;
    }
    Ok(())
}

/// A device in a folder, with pages of `2^page_bits` bytes; the folder is named again where memory is refused once.
fn device(rt: &HostRuntime, folder: &str, page_bits: u32) -> Result<FileDevice<HostRuntime>, Fail> {
    let named = match String::from_str(rt.alloc(), folder) {
        Ok(named) => named,
        Err(_) => String::from_str(rt.alloc(), folder)?,
    };
    Ok(FileDevice::new(rt.clone()?, rt.alloc(), named, page_bits))
}

/// Whether a device of files keeps three pages, and leaves them where pages 4 to 6 stand behind zeros.
fn is_laid_out(rt: &HostRuntime, page_bits: u32, length: usize) -> Result<bool, Fail> {
    let mut disk = device(rt, "device_files/three", page_bits)?;
    let is_kept = keeps_three_pages(rt.alloc(), &mut disk, length) == Some(true);
    let bytes = fs::read(rt, "device_files/three/part-07.log")?;
    let size = length.min(4096);
    let (zeros, fifth) = (
        bytes.get(..4 * size),
        bytes.get(4 * size + size.saturating_sub(1)),
    );
    let (Some(zeros), Some(fifth)) = (zeros, fifth) else {
        return Ok(false);
    };
    let is_empty = zeros.iter().all(|byte| *byte == 0);
    Ok(is_kept && is_empty && bytes.len() % 7 == 0 && bytes.len() / 7 == length && *fifth == 255)
}

#[test]
fn files_give_back_three_pages(rt: HostRuntime) -> Result<(), Fail> {
    clear(&rt, "device_files/three")?;
    for (page_bits, length) in [(0, 1), (6, 64), (12, 4096)] {
        assert!(rt; is_laid_out(&rt, page_bits, length)?, "{length}");
    }
    clear(&rt, "device_files/three")
}

/// Run also with each allocation refused in turn, by `rt try --test --fail-alloc N`.
#[test]
fn refused_growths_of_files_are_called_again(rt: HostRuntime) -> Result<(), Fail> {
    let mut disk = device(&rt, "device_files/refused", 6)?;
    assert!(rt; keeps_nines(rt.alloc(), &mut disk, 0));
    if fs::remove_dir_all(&rt, "device_files/refused").is_err() {
        fs::remove_dir_all(&rt, "device_files/refused")?;
    }
    Ok(())
}

/// The file of pages of ones and of twos.
const PATH: &str = "device_files/changed/part-63.log";

/// What reading page 1 is refused by, where the file of pages 0 and 1 has another byte at a place, and where it
/// ends there.
fn refused_by<R: PageReader>(
    rt: &HostRuntime,
    reader: &mut R,
    receipt: &R::Receipt,
    place: usize,
) -> Result<(Option<Refused>, Option<Refused>), Fail> {
    let mut changed = [1u8; 128];
    changed[64..].fill(2);
    if place < 128 {
        fs::write(rt, PATH, &changed[..place])?;
    }
    let short = reader.read(receipt, 64).err();
    if place < 128 {
        changed[place] = 3;
    }
    fs::write(rt, PATH, changed.as_slice())?;
    Ok((reader.read(receipt, 64).err(), short))
}

#[test]
fn changed_files_are_found(rt: HostRuntime) -> Result<(), Fail> {
    clear(&rt, "device_files/changed")?;
    let mut disk = device(&rt, "device_files/changed", 6)?;
    let mut writer = disk.writer(63)?;
    let _first = receipt_of(rt.alloc(), &mut writer, 0, &[1u8; 64])?;
    let receipt = receipt_of(rt.alloc(), &mut writer, 1, &[2u8; 64])?;
    let mut reader = disk.reader(63)?;
    let damaged = Some(Refused::Damaged { page: 1 });
    let short = Some(Refused::Device { code: 3, page: 1 });
    for place in 64..128usize {
        let refused = refused_by(&rt, &mut reader, &receipt, place)?;
        assert!(rt; refused == (damaged, short), "{place}");
    }
    // the file as it was
    let refused = refused_by(&rt, &mut reader, &receipt, 128)?;
    assert!(rt; refused == (None, damaged));
    clear(&rt, "device_files/changed")
}

/// The refusal of a writer, and of a reader, of a partition in a folder.
fn closed(
    rt: &HostRuntime,
    folder: &str,
    partition: u64,
) -> Result<(Option<Refused>, Option<Refused>), Fail> {
    let mut disk = device(rt, folder, 6)?;
    let reader = disk.reader(partition).err();
    Ok((disk.writer(partition).err(), reader))
}

/// Folders and partitions, in turn, and whether a writer is refused and a reader is: a folder that is not there; it, once
/// there; one below a file; and one that holds a folder of a file's name, which can only be read.
const CLOSED: [(&str, u64, bool, bool); 5] = [
    ("device_files/codes", 0, false, true),
    ("device_files/codes", 0, false, false),
    ("device_files/codes/part-00.log", 0, true, true),
    ("device_files/codes/part-01.log", 0, false, true),
    ("device_files/codes", 1, true, false),
];

fn is_closed(refused: Option<Refused>, is_refused: bool) -> bool {
    let wanted = Refused::Device { code: 1, page: 0 };
    refused == is_refused.then_some(wanted)
}

#[test]
fn folders_that_can_not_be_opened(rt: HostRuntime) -> Result<(), Fail> {
    clear(&rt, "device_files/codes")?;
    for (folder, partition, no_writer, no_reader) in CLOSED {
        let (writer, reader) = closed(&rt, folder, partition)?;
        assert!(rt; is_closed(writer, no_writer), "writer {folder} {partition}");
        assert!(rt; is_closed(reader, no_reader), "reader {folder} {partition}");
    }
    clear(&rt, "device_files/codes")
}

/// Pages and lengths of what is written in files with pages of 64 bytes, and whether it is refused.
const WRITTEN: [(u64, usize, bool); 5] = [
    (8, 63, true),
    (8, 65, true),
    (8, 0, true),
    (8, 64, false),
    (18446744073709551615, 64, true),
];

#[test]
fn pages_that_can_not_be_written(rt: HostRuntime) -> Result<(), Fail> {
    clear(&rt, "device_files/lengths")?;
    let mut disk = device(&rt, "device_files/lengths", 6)?;
    let mut writer = disk.writer(0)?;
    let zeros = [0u8; 65];
    for (page, length, is_refused) in WRITTEN {
        let fault = Refused::Device { code: 2, page };
        let refused = receipt_of(rt.alloc(), &mut writer, page, &zeros[..length.min(65)]).err();
        assert!(rt; refused == is_refused.then_some(fault), "{length}");
    }
    clear(&rt, "device_files/lengths")
}
