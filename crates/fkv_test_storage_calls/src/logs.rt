//! Calls on a log of pages of 256 bytes in a ring of frames, with a writer and a reader of a device: records take 48 bytes.
ghost use Rattle.std.specs.Prelude.{◌↔◌, IsTrue};
ghost use Rattle.fkv_records.specs.Records.{IsPrevious};
ghost use Rattle.fkv_hybrid.specs.Loads.{HasReceipt};

use crate::lines::{Line, Subject};
use fkv_device::{Disk, FileDevice, FlushJob, Loaded, MemoryDevice, Page, Receipt, Written};
use fkv_functions::{Fixed, Name, Refused};
use fkv_hybrid::Log;
use fkv_records::{Address, Shape, record_size};
use fkv_texts::{ChainPosition, Entry};
use std::alloc::{AllocError, Global};

/// A log, a writer and a reader.
#[derive(Drop)]
pub struct Driven<D: Disk> {
    alloc: Global,
    log: Log<Name, u64, D::Receipt>,
    writer: D::Writer,
    reader: D::Reader,
}

/// What a call answers.
#[derive(Clone, Copy, Debug, PartialEq)]
enum Told {
    Done,
    /// An address, a page, or a session's slot.
    At(u64),
    Full,
    /// The first letter of a record's key, its previous address and its value.
    Record(char, Address, Option<u64>),
    Below(Address),
    Refused(Refused),
    /// The call may not be made.
    Never,
}

fn record_told(read: Result<Entry<Name, u64>, Refused>) -> Told {
    match read {
        Ok(entry) => {
            let letter = entry.key.bytes().first().copied().unwrap_or(b'?');
            Told::Record(char::from(letter), entry.previous, entry.value)
        }
        Err(refused) => Told::Refused(refused),
    }
}

fn done_told(done: Result<(), Refused>) -> Told {
    match done {
        Ok(()) => Told::Done,
        Err(refused) => Told::Refused(refused),
    }
}

fn slot_told(done: Result<usize, Refused>) -> Told {
    match done {
        Ok(slot) => Told::At(slot as u64),
        Err(refused) => Told::Refused(refused),
    }
}

fn page_told(done: Result<u64, Refused>) -> Told {
    match done {
        Ok(page) => Told::At(page),
        Err(refused) => Told::Refused(refused),
    }
}

/// Whether a record may lead from an address to this one.
fn is_previous(address: Address, previous: Address) -> bool
    ensures { IsTrue result ↔ IsPrevious address previous }
{
    previous == 1 || (64 <= previous && previous < address)
}

/// Whether a page is flushed, and its receipt was not let go.
fn has_receipt<K: Fixed, V: Fixed, R: Receipt>(log: &Log<K, V, R>, page: u64) -> bool
    ensures { IsTrue result → HasReceipt log.now.receipts page }
{
    log.facts();
    log.shape().page_of(log.begin()) <= page && page < log.unflushed()
}

/// A page as it was taken; or with another number, with another byte at a place, or without its last byte, as the line
/// says.
fn changed(alloc: Global, job: FlushJob, line: &Line) -> Result<FlushJob, Refused> {
    let FlushJob { page, bytes } = job;
    let [number, byte, ..] = line.numbers;
    let Ok(mut copy) = bytes.bytes().to_vec(alloc) else {
        return Err(Refused::NoMemory);
    };
    let mut page = page;
    match line.word {
        "flush_as" => page = number,
        "flush_with" => {
            if let Some(place) = copy.get_mut(number as usize) {
                *place = (byte % 256) as u8;
            }
        }
        "flush_short" => {
            let _last = copy.pop();
        }
        _ => return Ok(FlushJob { page, bytes }),
    }
    match Page::new(alloc, copy) {
        Ok(bytes) => Ok(FlushJob { page, bytes }),
        Err(refused) => Err(refused),
    }
}

impl<D: Disk> Driven<D> {
    fn append(&mut self, line: &Line) -> Told {
        let previous = line.numbers[1];
        let Some(key) = Name::new(line.texts[0].as_bytes()) else {
            return Told::Never;
        };
        if !is_previous(self.log.tail(), previous) {
            return Told::Never;
        }
        let value = line.texts[2].parse::<u64>().ok();
        match self.log.append(previous, key, value, false) {
            Ok(Some(address)) => Told::At(address),
            Ok(None) => Told::Full,
            Err(refused) => Told::Refused(refused),
        }
    }

    fn read(&self, address: Address) -> Told {
        if !self.log.has_entry(address) {
            return Told::Never;
        }
        record_told(Ok(self.log.record_at(address)))
    }

    /// Gives a record another value, or makes it a tombstone, where it is not frozen and has a value.
    fn change(&mut self, address: Address, value: Option<u64>) -> Told {
        if !self.log.has_entry(address) || address < self.log.regions().offsets().safe_read_only {
            return Told::Never;
        }
        let entry = self.log.record_at(address);
        if entry.delta {
            return Told::Never;
        }
        match (entry.value, value) {
            (Some(_), Some(value)) => self.log.write_value(address, value),
            (_, None) => self.log.set_tombstone(address),
            (None, Some(_)) => return Told::Never,
        }
        Told::Done
    }

    /// Takes a page, writes it as the line says, and hands it in.
    fn flush(&mut self, line: &Line) -> Result<u64, Refused> {
        let taken = match self.log.flush_take(self.alloc) {
            Ok(job) => changed(self.alloc, job, line),
            Err(refused) => Err(refused),
        };
        let job = match taken {
            Ok(job) => job,
            Err(refused) => return Err(refused),
        };
        let page = job.page;
        let written = match Written::write(&mut self.writer, job) {
            Ok(written) => written,
            Err(refused) => return Err(refused),
        };
        match self.log.flush_done(written) {
            Ok(()) => Ok(page),
            Err(refused) => Err(refused),
        }
    }

    /// Reads a flushed page by its receipt.
    fn fetch(&mut self, page: u64) -> Result<Loaded<D::Receipt>, Refused> {
        if !has_receipt(&self.log, page) {
            return Err(Refused::NotReady);
        }
        match self.log.receipt(page) {
            Ok(receipt) => Loaded::fetch(&mut self.reader, &receipt, 256),
            Err(refused) => Err(refused),
        }
    }

    /// The record at an address, or the first of a key from there on, in the page that is read by the receipt of a page.
    fn load(&mut self, line: &Line) -> Told {
        let [page, address, ..] = line.numbers;
        let loaded = match self.fetch(page) {
            Ok(loaded) => loaded,
            Err(refused) => return Told::Refused(refused),
        };
        let own = self.log.shape().page_of(address);
        if !has_receipt(&self.log, own) {
            return Told::Refused(Refused::NotReady);
        }
        let Some(key) = Name::new(line.texts[2].as_bytes()) else {
            return record_told(self.log.record_in(&loaded, address));
        };
        if let Err(refused) = self.log.is_own(&loaded, own) {
            return Told::Refused(refused);
        }
        let low = self.log.first_of(own);
        match self.log.own_first_in_page(&loaded, &key, address, own, low) {
            Ok(ChainPosition::Found(entry)) => record_told(Ok(entry)),
            Ok(ChainPosition::Below(address)) => Told::Below(address),
            Err(refused) => Told::Refused(refused),
        }
    }

    fn answer(&mut self, line: &Line) -> Told {
        let address = line.numbers[0];
        match line.word {
            "append" => self.append(line),
            "read" => self.read(address),
            "write" => self.change(address, Some(line.numbers[1])),
            "bury" => self.change(address, None),
            "enter" => slot_told(self.log.enter()),
            "refresh" => done_told(self.log.refresh(address as usize)),
            "readonly" => done_told(self.log.shift_read_only(address)),
            "head" => done_told(self.log.shift_head(address)),
            "truncate" => done_told(self.log.truncate(address)),
            "flush" | "flush_as" | "flush_with" | "flush_short" => page_told(self.flush(line)),
            "load" => self.load(line),
            "tail" => Told::At(self.log.tail()),
            "next" => Told::At(self.log.next(address)),
            _ => Told::Never,
        }
    }
}

impl<D: Disk> Subject for Driven<D> {
    fn call(&mut self, line: &Line, out: &mut String) -> Result<(), AllocError> {
        if line.word == "entries" {
            for address in 0..line.numbers[0].min(1 << 20) {
                if self.log.has_entry(address) {
                    write!(out, "{address} ")?;
                }
            }
            return writeln!(out);
        }
        let told = match self.answer(line) {
            Told::Refused(Refused::NoMemory) => self.answer(line),
            told => told,
        };
        writeln!(out, "{told:?}")
    }
}

/// A log, and partition 3 of a device.
fn make_driven<D: Disk>(alloc: Global, mut disk: D, frames: u64) -> Result<Driven<D>, Refused> {
    let Some(size) = record_size::<Name, u64>() else {
        return Err(Refused::BadConfig);
    };
    let Some(shape) = Shape::new(8, size) else {
        return Err(Refused::BadConfig);
    };
    if frames == 0 {
        return Err(Refused::BadConfig);
    }
    let made = match Log::new(alloc, shape, frames) {
        Err(Refused::NoMemory) => Log::new(alloc, shape, frames),
        made => made,
    };
    let (log, writer, reader) = match (made, disk.writer(3), disk.reader(3)) {
        (Ok(log), Ok(writer), Ok(reader)) => (log, writer, reader),
        _ => return Err(Refused::NoMemory),
    };
    Ok(Driven {
        alloc,
        log,
        writer,
        reader,
    })
}

/// A log in so many frames over a device in memory.
pub fn memory_calls(alloc: Global, frames: u64) -> Option<Driven<MemoryDevice>> {
    make_driven(alloc, MemoryDevice::new(alloc), frames).ok()
}

/// A log in so many frames over files.
pub fn file_calls(rt: &HostRuntime, frames: u64) -> Option<Driven<FileDevice<HostRuntime>>> {
    let own: Result<HostRuntime, AllocError> = rt.clone();
    let folder = String::from_str(rt.alloc(), "device_files/pages");
    match (own, folder) {
        (Ok(own), Ok(folder)) => {
            let device = FileDevice::new(own, rt.alloc(), folder, 8);
            make_driven(rt.alloc(), device, frames).ok()
        }
        _ => None,
    }
}
