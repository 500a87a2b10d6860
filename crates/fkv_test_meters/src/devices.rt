//! What meters show after known calls on three devices, failures among them, and what the calls answer.
use fkv_device::{Disk, FileDevice, MemoryDevice, Page, PageReader, PageWriter, Receipt};
use fkv_functions::Refused;
use fkv_meters::{MeterReadings, MeteredDevice, Meters};
use fkv_test_devices::UnsureDevice;
use std::alloc::Global;
use std::fs;
use std::test::Fail;

/// A call, and what it is to answer.
#[derive(Clone, Copy)]
enum Row {
    /// Writes a page of so many bytes, each this one.
    Write(u64, usize, u8, Result<(), Refused>),
    /// Reads so many bytes of the page of this receipt, counted from 0. They are to be these.
    Read(usize, usize, Result<u8, Refused>),
}

/// A page of so many bytes, each this one.
fn page_of(alloc: Global, size: usize, byte: u8) -> Result<Page, Refused> {
    let Ok(bytes) = vec![in alloc; byte; size] else {
        return Err(Refused::NoMemory);
    };
    Page::new(alloc, bytes)
}

/// What a read gave: the byte of which there are so many, or 0 where they differ.
fn byte_of(page: &Page, size: usize) -> u8 {
    let bytes = page.bytes();
    match bytes.first() {
        Some(first) if bytes.len() == size && bytes.iter().all(|byte| *byte == *first) => *first,
        _ => 0,
    }
}

/// The number of the first row that answers otherwise, and what the meters show after the rows.
fn metered<D: Disk>(
    alloc: Global,
    device: D,
    rows: &[Row],
) -> Result<(Option<usize>, MeterReadings), Refused> {
    let meters = Meters::new();
    let mut device = MeteredDevice::new(device, &meters);
    let mut writer = device.writer(0)?;
    let mut reader = device.reader(0)?;
    let mut receipts = Vec::new(alloc);
    for (number, row) in rows.iter().enumerate() {
        let is_so = match *row {
            Row::Write(page, size, byte, told) => {
                let bytes = page_of(alloc, size, byte)?;
                match writer.write(page, &bytes) {
                    Ok(receipt) => {
                        let is_so = receipt.page() == page && receipt.size() == size;
                        let Ok(()) = receipts.push(receipt) else {
                            return Err(Refused::NoMemory);
                        };
                        is_so && told == Ok(())
                    }
                    Err(refused) => told == Err(refused),
                }
            }
            Row::Read(receipt, size, told) => match receipts.get(receipt) {
                Some(receipt) => match reader.read(receipt, size) {
                    Ok(page) => told == Ok(byte_of(&page, size)),
                    Err(refused) => told == Err(refused),
                },
                None => false,
            },
        };
        if !is_so {
            return Ok((Some(number), meters.seen()));
        }
    }
    Ok((None, meters.seen()))
}

#[test]
fn pages_of_memory(rt: HostRuntime) -> Result<(), Fail> {
    let rows = [
        Row::Write(7, 256, 1, Ok(())),
        Row::Write(8, 100, 2, Ok(())),
        Row::Read(0, 256, Ok(1)),
        Row::Read(0, 255, Err(Refused::Device { code: 3, page: 7 })),
        Row::Read(1, 256, Err(Refused::Device { code: 3, page: 8 })),
        Row::Read(1, 100, Ok(2)),
        Row::Write(7, 256, 3, Ok(())),
        Row::Read(0, 256, Ok(1)),
        Row::Read(2, 256, Ok(3)),
    ];
    let seen = MeterReadings {
        pages_written: 3,
        pages_read: 4,
        bytes_written: 612,
    };
    let told = metered(rt.alloc(), MemoryDevice::new(rt.alloc()), &rows)?;
    assert!(rt; told == (None, seen), "{told:?}");
    Ok(())
}

#[test]
fn pages_of_a_file(rt: HostRuntime) -> Result<(), Fail> {
    let folder = "device_files/meters";
    let named = String::from_str(rt.alloc(), folder)?;
    let device = FileDevice::new(rt.clone()?, rt.alloc(), named, 8);
    let rows = [
        Row::Write(0, 256, 1, Ok(())),
        Row::Write(1, 255, 2, Err(Refused::Device { code: 2, page: 1 })),
        Row::Write(3, 256, 2, Ok(())),
        Row::Read(1, 256, Ok(2)),
        Row::Read(0, 128, Err(Refused::Device { code: 3, page: 0 })),
        Row::Read(0, 256, Ok(1)),
        Row::Write(0, 256, 3, Ok(())),
        Row::Read(0, 256, Err(Refused::Damaged { page: 0 })),
        Row::Read(2, 256, Ok(3)),
    ];
    let seen = MeterReadings {
        pages_written: 3,
        pages_read: 3,
        bytes_written: 768,
    };
    let told = metered(rt.alloc(), device, &rows)?;
    fs::remove_dir_all(&rt, folder)?;
    assert!(rt; told == (None, seen), "{told:?}");
    Ok(())
}

#[test]
fn pages_of_a_device_that_fails(rt: HostRuntime) -> Result<(), Fail> {
    let mut device = UnsureDevice::new(rt.alloc());
    device.writes = 1;
    device.reads = 1;
    let rows = [
        Row::Write(0, 64, 1, Ok(())),
        Row::Write(1, 64, 2, Err(Refused::Device { code: 2, page: 1 })),
        Row::Write(1, 64, 2, Ok(())),
        Row::Read(1, 64, Ok(2)),
        Row::Read(1, 64, Err(Refused::Device { code: 3, page: 1 })),
        Row::Read(0, 64, Ok(1)),
    ];
    let seen = MeterReadings {
        pages_written: 2,
        pages_read: 2,
        bytes_written: 128,
    };
    let told = metered(rt.alloc(), device, &rows)?;
    assert!(rt; told == (None, seen), "{told:?}");
    Ok(())
}
