//! Writers and readers over a file of which each call fails in turn, and writers at their last numbers.
use crate::devices::receipt_of;
use crate::replays::read_back_in;
use crate::sevens::{Sevens, read_back};
use fkv_device::{
    Disk, FileDevice, FileReader, FileReceipt, FileWriter, MemoryWriter, Page, PageReader,
    PageWriter, Receipt,
};
use fkv_functions::Refused;
use std::alloc::Global;
use std::collections::VecDeque;
use std::fs;
use std::fs::File;
use std::test::Fail;

/// What writing pages 0 and 1 is answered by, where the call after so many fails.
fn written(
    alloc: Global,
    left: u64,
) -> (
    Result<FileReceipt<Sevens>, Refused>,
    Result<FileReceipt<Sevens>, Refused>,
) {
    let mut writer = FileWriter::at(alloc, 0, Sevens::new(left), 6, 0);
    let first = receipt_of(alloc, &mut writer, 0, &[7u8; 64]);
    (first, receipt_of(alloc, &mut writer, 1, &[7u8; 64]))
}

/// What reading two pages is refused by, where the call after so many fails.
fn read(
    alloc: Global,
    left: u64,
    first: &FileReceipt<Sevens>,
    second: &FileReceipt<Sevens>,
) -> (Option<Refused>, Option<Refused>) {
    let mut reader = FileReader::new(alloc, 0, Sevens::new(left), 6);
    let one = reader.read(first, 64).err();
    (one, reader.read(second, 64).err())
}

/// A device fault of this code on page 0, where the failing call is one of the first page's, or on page 1. A page is a
/// seek and seven pieces.
fn faults(call: u64, code: u8) -> (Option<Refused>, Option<Refused>) {
    let first = Refused::Device { code, page: 0 };
    let second = Refused::Device { code, page: 1 };
    let (on_first, on_second) = (call < 8, 8 <= call && call < 16);
    (on_first.then_some(first), on_second.then_some(second))
}

#[test]
fn each_call_of_a_file_fails_in_turn(rt: HostRuntime) {
    let (first, second) = written(rt.alloc(), 100);
    assert!(rt; first.is_ok() && second.is_ok());
    if let (Ok(first), Ok(second)) = (first, second) {
        assert!(rt; first.number() == 0 && second.number() == 1);
        for call in 0..20u64 {
            let (one, other) = written(rt.alloc(), call);
            assert!(rt; (one.err(), other.err()) == faults(call, 2), "write {call}");
            assert!(rt;
                read(rt.alloc(), call, &first, &second) == faults(call, 3),
                "read {call}"
            );
        }
    }
}

/// The page that is read where a page of these bytes was written to the first file, and the second one is there by then.
fn read_again(alloc: Global, byte: u8, there: Sevens) -> Result<[u8; 64], Refused> {
    let mut writer = FileWriter::at(alloc, 0, Sevens::new(100), 6, 0);
    let mut reader = FileReader::new(alloc, 0, there, 6);
    let page = Page::copy_of(alloc, &[byte; 64])?;
    let mut read = [0u8; 64];
    read.copy_from_slice(read_back(&mut writer, &mut reader, &page)?.bytes());
    Ok(read)
}

#[test]
fn a_page_that_somebody_changed(rt: HostRuntime) {
    assert!(rt; read_again(rt.alloc(), 7, Sevens::new(100)) == Ok([7u8; 64]));
    let damaged = Err(Refused::Damaged { page: 0 });
    assert!(rt; read_again(rt.alloc(), 7, Sevens::changed(100)) == damaged);
    let unwritten = Err(Refused::Device { code: 2, page: 0 });
    assert!(rt; read_again(rt.alloc(), 8, Sevens::changed(100)) == unwritten);
}

/// What is read where a page of sevens was written, and the call that reads it gives this page of a page of sevens and one of eights.
fn read_in(alloc: Global, answer: Option<usize>) -> Result<bool, Refused> {
    let sevens = Page::copy_of(alloc, &[7u8; 64])?;
    let eights = Page::copy_of(alloc, &[8u8; 64])?;
    let (taken, given) = ([sevens.again()?], [sevens.again()?, eights]);
    let Ok(when_written) = VecDeque::from_array(alloc, [Some(0)]) else {
        return Err(Refused::NoMemory);
    };
    let Ok(when_read) = VecDeque::from_array(alloc, [answer]) else {
        return Err(Refused::NoMemory);
    };
    let read = read_back_in(alloc, &taken, &given, when_written, when_read, &sevens)?;
    Ok(read.bytes() == sevens.bytes())
}

#[test]
fn a_run_is_done_again(rt: HostRuntime) {
    let damaged = Err(Refused::Damaged { page: 0 });
    let unread = Err(Refused::Device { code: 3, page: 0 });
    for (answer, told) in [
        (Some(0), Ok(true)),
        (Some(1), damaged),
        (Some(2), unread),
        (None, unread),
    ] {
        assert!(rt; read_in(rt.alloc(), answer) == told, "{answer:?}");
    }
}

/// The numbers of the receipts that a writer gives in turn, or what it refuses by.
fn numbers<W: PageWriter>(alloc: Global, writer: &mut W, page: u64) -> [Result<u64, Refused>; 3] {
    let mut told = [Ok(0); 3];
    for at in 0..3 {
        told[at] = match receipt_of(alloc, writer, page, &[7u8; 64]) {
            Ok(receipt) => Ok(receipt.number()),
            Err(refused) => Err(refused),
        };
    }
    told
}

#[test]
fn numbers_are_used_up(rt: HostRuntime) {
    let fault = Err(Refused::Device { code: 2, page: 6 });
    let last = [Ok(u64::MAX - 1), fault, fault];
    let mut memory = MemoryWriter::at(rt.alloc(), 0, u64::MAX - 1);
    assert!(rt; numbers(rt.alloc(), &mut memory, 6) == last);
    let mut file = FileWriter::at(rt.alloc(), 0, Sevens::new(100), 6, u64::MAX - 1);
    assert!(rt; numbers(rt.alloc(), &mut file, 6) == last);
    let mut exhausted = FileWriter::at(rt.alloc(), 0, Sevens::new(100), 6, u64::MAX);
    assert!(rt; numbers(rt.alloc(), &mut exhausted, 6) == [fault; 3]);
}

#[test]
fn a_file_that_is_open_to_be_read_alone(rt: HostRuntime) -> Result<(), Fail> {
    let folder = String::from_str(rt.alloc(), "device_files/alone")?;
    let mut disk = FileDevice::new(rt.clone()?, rt.alloc(), folder, 6);
    let _writer = disk.writer(0)?;
    let file = File::open(&rt, "device_files/alone/part-00.log")?;
    let mut writer = FileWriter::at(rt.alloc(), 0, file, 6, 0);
    let fault = Err(Refused::Device { code: 2, page: 8 });
    assert!(rt; numbers(rt.alloc(), &mut writer, 8) == [fault; 3]);
    fs::remove_dir_all(&rt, "device_files/alone")?;
    Ok(())
}
