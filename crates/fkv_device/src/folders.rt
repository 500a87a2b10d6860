//! A device in a folder, with a file for each partition.
ghost use Rattle.std.specs.Prelude.{◌≡◌, false, IfOk, IfErr, OnOk, string_bytes};
ghost use Rattle.fkv_device.specs.Failing.{FailsOnlyBy};
ghost use Rattle.fkv_device.specs.Parts.{part_name};

use crate::disks::Disk;
use crate::failures::Failures;
use crate::files::{FileReader, FileReceipt, FileWriter};
use crate::page_files::PageFile;
use fkv_functions::Refused;
use std::alloc::{AllocError, Global};
use std::fs::{OpenOptions, create_dir_all};
use std::path::Path;
use std::rt::Files;

/// A device in a folder. The file of partition `n` is `part-NN.log`, with at least two digits, and page
/// `n` stands at `n * 2^page_bits` in it. Other programs may change the files: it keeps where the pages that they take and
/// give are known and none collide ([`files_keep_or_collide`](crate::laws::files_keep_or_collide)).
#[derive(Drop)]
pub struct FileDevice<R: Files + Drop> {
    rt: R,
    alloc: Global,
    folder: String,
    page_bits: u32,
    failures: Failures,
}

/// The file of a partition, beside its number: no file goes without the number that named it.
#[derive(Drop)]
struct PartFile<F: Drop> {
    partition: u64,
    file: F,
}

/// The name of the file of a partition. Refused where there is no memory for it.
fn part_name(alloc: Global, partition: u64) -> Result<String, AllocError>
    ensures { IfOk result (λ name. string_bytes name ≡ part_name partition) }
{
    if partition < 10 {
        format!(in alloc; "part-0{partition}.log")
    } else {
        format!(in alloc; "part-{partition}.log")
    }
}

impl<R: Files + Drop> FileDevice<R> {
    /// A device in this folder, which is made with its first file.
    pub fn new(rt: R, alloc: Global, folder: String, page_bits: u32) -> FileDevice<R>
        ensures none { result.failures ≡ 0 }
        ensures bits { result.page_bits ≡ page_bits }
    {
        FileDevice {
            rt,
            alloc,
            folder,
            page_bits,
            failures: Failures::new(alloc),
        }
    }

    /// Opens the file of a partition, which stands by its number from then on.
    fn open(&mut self, partition: u64, how: &OpenOptions) -> Result<PartFile<R::File>, Refused>
        ensures place { IfOk result (λ part. part.partition ≡ partition) }
        ensures steady { OnOk result (self.new.failures ≡ self.old.failures) }
        ensures counted { IfErr result (FailsOnlyBy 1 0 self.old.failures self.new.failures) }
        ensures bits { self.new.page_bits ≡ self.old.page_bits }
    {
        let Ok(name) = part_name(self.alloc, partition) else {
            return Err(Refused::NoMemory);
        };
        let Ok(path) = Path::new(self.folder.as_str()).join(self.alloc, name.as_str()) else {
            return Err(Refused::NoMemory);
        };
        match how.open(&self.rt, path.as_path()) {
            Ok(file) => Ok(PartFile { partition, file }),
            Err(_) => Err(self.failures.count(Refused::Device { code: 1, page: 0 })),
        }
    }
}

impl<R: Files + Drop> Disk for FileDevice<R>
where
    R::File: PageFile,
{
    type Receipt = FileReceipt<R::File>;

    type Writer = FileWriter<R::File>;

    type Reader = FileReader<R::File>;

    ghost failures = { λ d. d.failures };

    /// Makes the folder where it is not there, and the partition's file anew: an old one is cut to nothing.
    fn writer(&mut self, partition: u64) -> Result<FileWriter<R::File>, Refused>
        ensures number { IfOk result (λ w. w.next ≡ 0) }
        ensures place { IfOk result (λ w. w.partition ≡ partition) }
        ensures bits { IfOk result (λ w. w.page_bits ≡ self.old.page_bits) }
        ensures steady { OnOk result (self.new.failures ≡ self.old.failures) }
        ensures counted { IfErr result (FailsOnlyBy 1 0 self.old.failures self.new.failures) }
        ensures same_bits { self.new.page_bits ≡ self.old.page_bits }
    {
        if create_dir_all(&self.rt, self.folder.as_str()).is_err() {
            return Err(self.failures.count(Refused::Device { code: 1, page: 0 }));
        }
        let mut how = OpenOptions::new();
        let PartFile { partition, file } = self.open(
            partition,
            how.write(true).create(true).truncate(true),
        )?;
        Ok(FileWriter::at(self.alloc, partition, file, self.page_bits, 0))
    }

    fn reader(&mut self, partition: u64) -> Result<FileReader<R::File>, Refused>
        ensures place { IfOk result (λ r. r.partition ≡ partition) }
        ensures bits { IfOk result (λ r. r.page_bits ≡ self.old.page_bits) }
        ensures steady { OnOk result (self.new.failures ≡ self.old.failures) }
        ensures counted { IfErr result (FailsOnlyBy 1 0 self.old.failures self.new.failures) }
        ensures same_bits { self.new.page_bits ≡ self.old.page_bits }
    {
        let mut how = OpenOptions::new();
        let PartFile { partition, file } = self.open(partition, how.read(true))?;
        Ok(FileReader::new(self.alloc, partition, file, self.page_bits))
    }
}
