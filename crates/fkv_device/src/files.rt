//! A device of files: a page that was changed is found by its digest. It keeps where the pages that its files take and give
//! are known, and no two of them have one digest.
ghost use Rattle.std.specs.Prelude.{◌≡◌, ◌≢◌, ◌+◌, ℕ, List, length, true};
ghost use Rattle.std.specs.Prelude.{IsTrue, IsOk, IfOk, IfErr, IfSome, OnOk};
ghost use Rattle.std.specs.Arc.{arc_value};
ghost use Rattle.sha2.specs.Sha256.{sha256};
ghost use Rattle.fkv_functions.specs.declared.refusals.Refused.TheVariants as refused;
ghost use Rattle.fkv_device.specs.Failing.{FailsOnlyBy, ReadFailsBy};
ghost use Rattle.fkv_device.specs.Known.{are_kept, page_of, is_digest, IsTaken, IsGiven};

use crate::failures::Failures;
use crate::page_files::PageFile;
use crate::pages::{PageReader, PageWriter};
use crate::receipts::Receipt;
use crate::shared::Page;
use fkv_functions::Refused;
use sha2::{Digest, Sha256};
use std::alloc::Global;
use std::collections::{BTreeMap, VecDeque};
use std::marker::PhantomData;
use std::sync::Arc;

/// A receipt of a page in a file: the SHA-256 of the bytes that were written, and the place where they stand.
#[derive(Drop)]
pub struct FileReceipt<F: PageFile> {
    number: u64,
    page: u64,
    place: u64,
    length: usize,
    digest: [u8; 32],
    of: PhantomData<F>,
    ghost taken: { is_digest F.pages digest ≡ true },
}

impl<F: PageFile> Receipt for FileReceipt<F> {
    ghost keeps = { are_kept F.pages };

    ghost stands = { λ r. record {
      number = r.number;
      page = r.page;
      length = r.length;
      bytes = page_of F.pages r.digest;
      mark = r.digest;
    } };

    fn number(&self) -> u64 {
        self.number
    }

    fn page(&self) -> u64 {
        self.page
    }

    fn size(&self) -> usize {
        self.length
    }

    fn same(&self, other: &FileReceipt<F>) -> bool {
        self.number == other.number
            && self.page == other.page
            && self.length == other.length
            && self.digest == other.digest
    }

    /// A copy, which is never refused.
    fn again(&self) -> Result<FileReceipt<F>, Refused>
        ensures done { IsOk result }
        ensures same { IfOk result (λ r. r ≡ self.now) }
    {
        Ok(FileReceipt {
            number: self.number,
            page: self.page,
            place: self.place,
            length: self.length,
            digest: self.digest,
            of: PhantomData,
        })
    }
}

fn digest_of(bytes: &[u8]) -> [u8; 32]
    ensures { result ≡ sha256 bytes.now }
{
    let mut hasher = Sha256::new();
    hasher.update(bytes);
    hasher.finalize()
}

/// Writes pages of `2^page_bits` bytes to a file: page n at place n, until one is dropped; from then on at the place of a page that was
/// dropped, or, where none is free, at the file's end. So the file is as long as the log has been, and no longer. It has the numbers
/// below 2^64 - 1 for its receipts.
#[derive(Drop)]
pub struct FileWriter<F: PageFile> {
    partition: u64,
    file: F,
    page_bits: u32,
    next: u64,
    failures: Failures,
    /// The pages below this one are read no more.
    dropped: u64,
    /// The places of pages that were dropped.
    free: VecDeque<u64>,
    /// Where a page stands that was given such a place; each other page stands at its own.
    moved: BTreeMap<u64, u64>,
    /// The file's end: the places below this one have been taken.
    end: u64,
}

impl<F: PageFile> FileWriter<F> {
    /// A writer of this partition's pages to its file, whose next receipt has this number.
    pub fn at(alloc: Global, partition: u64, file: F, page_bits: u32, next: u64) -> FileWriter<F>
        ensures place { result.partition ≡ partition }
        ensures next { result.next ≡ next }
        ensures bits { result.page_bits ≡ page_bits }
    {
        FileWriter {
            partition,
            file,
            page_bits,
            next,
            failures: Failures::new(alloc),
            dropped: 0,
            free: VecDeque::new(alloc),
            moved: BTreeMap::new(alloc),
            end: 0,
        }
    }

    /// Where a page stands or is to stand, `None` where it was dropped: at the place that it was given; or at its own, where no page
    /// was dropped; or at one that is free, else at the file's end. Refused: `NoMemory`.
    fn place_of(&mut self, page: u64) -> Result<Option<u64>, Refused>
        ensures same_part { self.new.partition ≡ self.old.partition }
        ensures next { self.new.next ≡ self.old.next }
        ensures failures { self.new.failures ≡ self.old.failures }
        ensures bits { self.new.page_bits ≡ self.old.page_bits }
        ensures memory { IfErr result (λ e. e ≡ refused.NoMemory) }
    {
        if page < self.dropped {
            return Ok(None);
        }
        if let Some(place) = self.moved.get(&page) {
            return Ok(Some(*place));
        }
        if self.dropped == 0 {
            self.end = self.end.max(page.saturating_add(1));
            return Ok(Some(page));
        }
        let place = self.free.front().copied().unwrap_or(self.end);
        let Ok(_) = self.moved.insert(page, place) else {
            return Err(Refused::NoMemory);
        };
        if self.free.pop_front().is_none() {
            self.end = self.end.saturating_add(1);
        }
        Ok(Some(place))
    }

    /// Writes a page at a place, and says whether it was written.
    fn put(&mut self, place: u64, bytes: &[u8]) -> bool
        ensures same_part { self.new.partition ≡ self.old.partition }
        ensures next { self.new.next ≡ self.old.next }
        ensures failures { self.new.failures ≡ self.old.failures }
        ensures bits { self.new.page_bits ≡ self.old.page_bits }
        ensures taken { IsTrue result → IsTaken F.pages bytes.now }
    {
        2u64.checked_pow(self.page_bits) == Some(bytes.len() as u64)
            && self.file.put(self.page_bits, place, bytes)
    }
}

impl<F: PageFile> PageWriter for FileWriter<F> {
    type Receipt = FileReceipt<F>;

    ghost failures = { λ w. w.failures };

    ghost next = { λ w. w.next };

    ghost part = { λ w. w.partition };

    // a file may fail whenever it is written
    ghost can_fail = { λ _. Unit {0} };

    /// Writes a page.
    ///
    /// # Errors
    ///
    /// `Device` with code 2 where the bytes are not `2^page_bits`, the page was dropped, the file refuses the bytes or no
    /// number is left; `NoMemory`.
    fn write(&mut self, page: u64, bytes: &Page) -> Result<FileReceipt<F>, Refused>
        ensures digest { IfOk result (λ r. r.digest ≡ sha256 bytes.now) }
        ensures kept { IfOk result (λ r. IsTrue (are_kept F.pages) → page_of F.pages r.digest ≡ bytes.now) }
        ensures page { IfOk result (λ r. r.page ≡ page) }
        ensures length { IfOk result (λ r. r.length ≡ length bytes.now) }
        ensures number { IfOk result (λ r. r.number ≡ self.old.next) }
        ensures next { OnOk result (self.new.next ≡ self.old.next + 1) }
        ensures same_next { IfErr result (λ _. self.new.next ≡ self.old.next) }
        ensures same_part { self.new.partition ≡ self.old.partition }
        ensures steady { OnOk result (self.new.failures ≡ self.old.failures) }
        ensures counted { IfErr result (FailsOnlyBy 2 page self.old.failures self.new.failures) }
        ensures bits { self.new.page_bits ≡ self.old.page_bits }
    {
        let Some(next) = self.next.checked_add(1) else {
            return Err(self.failures.count(Refused::Device { code: 2, page }));
        };
        let Some(place) = self.place_of(page)? else {
            return Err(self.failures.count(Refused::Device { code: 2, page }));
        };
        let bytes = bytes.bytes();
        if !self.put(place, bytes) {
            return Err(self.failures.count(Refused::Device { code: 2, page }));
        }
        let number = self.next;
        self.next = next;
        Ok(FileReceipt {
            number,
            page,
            place,
            length: bytes.len(),
            digest: digest_of(bytes),
            of: PhantomData,
        })
    }

    /// The places of these pages are used for others from now on.
    fn drop_below(&mut self, page: u64)
        ensures same_next { self.new.next ≡ self.old.next }
        ensures same_part { self.new.partition ≡ self.old.partition }
        ensures steady { self.new.failures ≡ self.old.failures }
        ensures bits { self.new.page_bits ≡ self.old.page_bits }
    {
        let_go(&mut self.moved, &mut self.free, self.dropped, page);
        self.dropped = self.dropped.max(page);
    }
}

/// Puts the places of these pages to those that are free. One that there is no memory to keep is not used again.
fn let_go(moved: &mut BTreeMap<u64, u64>, free: &mut VecDeque<u64>, from: u64, to: u64) {
    for page in from..to {
        let place = moved.remove(&page).unwrap_or(page);
        let _kept = free.push_back(place);
    }
}

/// Reads pages of a file. It keeps the room of the page that it read last, and reads the next one there where nobody holds
/// that page any more.
#[derive(Drop)]
pub struct FileReader<F: PageFile> {
    alloc: Global,
    partition: u64,
    file: F,
    page_bits: u32,
    last: Option<Page>,
    failures: Failures,
}

impl<F: PageFile> FileReader<F> {
    /// A reader of this partition's pages from its file.
    pub fn new(alloc: Global, partition: u64, file: F, page_bits: u32) -> FileReader<F>
        ensures place { result.partition ≡ partition }
        ensures bits { result.page_bits ≡ page_bits }
    {
        FileReader {
            alloc,
            partition,
            file,
            page_bits,
            last: None,
            failures: Failures::new(alloc),
        }
    }

    /// Reads a page from its place, and says whether it was there.
    fn take(&mut self, receipt: &FileReceipt<F>, out: &mut [u8]) -> bool
        ensures same_part { self.new.partition ≡ self.old.partition }
        ensures length { IsTrue result → length out.old ≡ receipt.now.length }
        ensures failures { self.new.failures ≡ self.old.failures }
        ensures bits { self.new.page_bits ≡ self.old.page_bits }
        ensures given { IsTrue result → IsGiven F.pages out.new }
    {
        out.len() == receipt.length && self.file.take(self.page_bits, receipt.place, out)
    }

    /// Reads a page of `size` bytes into the room of the last one where nobody holds that any more, else into new room.
    /// `None` where it was not there.
    ///
    /// # Errors
    ///
    /// `NoMemory`.
    fn fill(
        &mut self,
        receipt: &FileReceipt<F>,
        size: usize,
    ) -> Result<Option<Arc<Vec<u8>>>, Refused>
        ensures size { IfOk result (λ o. IfSome o (λ p. length (arc_value p).items ≡ size)) }
        ensures length { IfOk result (λ o. IfSome o (λ _. size ≡ receipt.now.length)) }
        ensures given { IfOk result (λ o. IfSome o (λ p. IsGiven F.pages (arc_value p).items)) }
        ensures memory { IfErr result (λ e. e ≡ refused.NoMemory) }
        ensures same_part { self.new.partition ≡ self.old.partition }
        ensures failures { self.new.failures ≡ self.old.failures }
        ensures bits { self.new.page_bits ≡ self.old.page_bits }
    {
        if let Some(last) = self.last.take() {
            let mut last = last.into_shared();
            if let Some(bytes) = Arc::get_mut(&mut last) {
                if bytes.len() == size {
                    let is_there = self.take(receipt, bytes.as_mut_slice());
                    return Ok(if is_there { Some(last) } else { None });
                }
            }
        }
        let Ok(mut bytes) = vec![in self.alloc; 0u8; size] else {
            return Err(Refused::NoMemory);
        };
        if !self.take(receipt, &mut bytes) {
            return Ok(None);
        }
        match Arc::new(self.alloc, bytes) {
            Ok(page) => Ok(Some(page)),
            Err(_) => Err(Refused::NoMemory),
        }
    }
}

impl<F: PageFile> PageReader for FileReader<F> {
    type Receipt = FileReceipt<F>;

    ghost failures = { λ r. r.failures };

    ghost part = { λ r. r.partition };

    // and whenever it is read
    ghost can_fail = { λ _ _. Unit {0} };

    /// Reads a page, and compares its digest with that of the bytes that were written.
    ///
    /// # Errors
    ///
    /// `Device` with code 3 where the page has not `size` bytes, or the file fails or ends; `Damaged` where the digest
    /// differs; `NoMemory`, also where a failure can't be counted.
    fn read(&mut self, receipt: &FileReceipt<F>, size: usize) -> Result<Page, Refused>
        ensures digest { IfOk result (λ page. sha256 page ≡ receipt.now.digest) }
        ensures kept { IfOk result (λ page. IsTrue (are_kept F.pages) → page ≡ page_of F.pages receipt.now.digest) }
        ensures size { IfOk result (λ page. length page ≡ size) }
        ensures length { OnOk result (size ≡ receipt.now.length) }
        ensures same_part { self.new.partition ≡ self.old.partition }
        ensures steady { OnOk result (self.new.failures ≡ self.old.failures) }
        ensures counted { IfErr result (ReadFailsBy receipt.now.page self.old.failures self.new.failures) }
        ensures bits { self.new.page_bits ≡ self.old.page_bits }
        // the page that was read is kept, and its digest is another
        ensures damaged { IfErr result (λ e. e ≡ refused.Damaged receipt.now.page
            → (last : List ℕ) × (self.new.last ≡ Some last)
            × (sha256 last ≢ receipt.now.digest)) }
    {
        let page = receipt.page;
        let Some(read) = self.fill(receipt, size)? else {
            return Err(self.failures.count(Refused::Device { code: 3, page }));
        };
        let Ok(kept) = read.clone() else {
            return Err(Refused::NoMemory);
        };
        self.last = Some(Page::of(kept));
        let read = Page::of(read);
        if digest_of(read.bytes()) != receipt.digest {
            return Err(self.failures.count(Refused::Damaged { page }));
        }
        Ok(read)
    }
}
