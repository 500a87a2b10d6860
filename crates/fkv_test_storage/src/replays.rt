//! Files that do again what the files of a run did: for any pages that files took and gave there is such a type of files.
ghost use Rattle.std.specs.Prelude.{◌≡◌, ◌⊎◌, [], Some, Contains, IfOk, IsTrue};
ghost use Rattle.fkv_device.specs.Known.{Pages, HasCollision, are_kept};

use fkv_device::{FileReader, FileWriter, Page, PageFile, PageReader, PageWriter};
use fkv_functions::Refused;
use std::alloc::Global;
use std::collections::VecDeque;
use std::marker::{Brand, PhantomData};

/// Marks the pages that the files of a run took and gave. A call with the marker [`Brand`] picks them.
pub trait Recorded {
    ghost pages: { Pages };
}

impl Recorded for Brand {
    ghost pages = { record { taken = []; given = [] } };
}

/// A file that does again what a file of the run did. Each call of it has an answer: it is refused, or done, and then this page
/// of those that were given comes back.
#[derive(Drop)]
pub struct Replay<'a, K: Recorded> {
    taken: &'a [Page],
    given: &'a [Page],
    answers: VecDeque<Option<usize>>,
    of: PhantomData<K>,
    ghost known: { record { taken = taken.now; given = given.now } ≡ K.pages },
}

impl<'a, K: Recorded> PageFile for Replay<'a, K> {
    ghost pages = { Some K.pages };

    fn put(&mut self, _page_bits: u32, _place: u64, bytes: &[u8]) -> bool {
        self.answers.pop_front().flatten().is_some() && stands_in(self.taken, bytes)
    }

    fn take(&mut self, _page_bits: u32, _place: u64, out: &mut [u8]) -> bool {
        let Some(at) = self.answers.pop_front().flatten() else {
            return false;
        };
        match self.given.get(at) {
            Some(page) => copied(page.bytes(), out),
            None => false,
        }
    }
}

/// Whether a page of these has these bytes.
fn stands_in(pages: &[Page], bytes: &[u8]) -> bool
    ensures { IsTrue result → Contains pages.now bytes.now }
{
    for page in pages {
        if page.bytes() == bytes {
            return true;
        }
    }
    false
}

/// Copies a page, where there is room for just that.
fn copied(page: &[u8], out: &mut [u8]) -> bool
    ensures { IsTrue result → out.new ≡ page.now }
{
    if page.len() != out.len() {
        return false;
    }
    out.copy_from_slice(page);
    true
}

/// A page that is written and read again, under the premise that the marker's pages are kept.
fn read_back_on<K: Recorded>(
    alloc: Global,
    taken: &[Page],
    given: &[Page],
    when_written: VecDeque<Option<usize>>,
    when_read: VecDeque<Option<usize>>,
    page: &Page,
) -> Result<Page, Refused>
    requires { record { taken = taken.now; given = given.now } ≡ K.pages }
    ensures { IsTrue (are_kept (Some K.pages)) → IfOk result (λ read. read ≡ page.now) }
{
    let to = Replay::<K> {
        taken,
        given,
        answers: when_written,
        of: PhantomData,
    };
    let from = Replay::<K> {
        taken,
        given,
        answers: when_read,
        of: PhantomData,
    };
    let mut writer = FileWriter::at(alloc, 0, to, 6, 0);
    let mut reader = FileReader::new(alloc, 0, from, 6);
    let receipt = writer.write(0, page)?;
    reader.read(&receipt, page.bytes().len())
}

/// A page that is written to a file and read again, where the files of a run took and gave these pages, whichever these are: it is
/// the page that was written, or it is refused, or two of these pages have one SHA-256.
pub fn read_back_in(
    alloc: Global,
    taken: &[Page],
    given: &[Page],
    when_written: VecDeque<Option<usize>>,
    when_read: VecDeque<Option<usize>>,
    page: &Page,
) -> Result<Page, Refused>
    ensures { IfOk result (λ read. (read ≡ page.now) ⊎ HasCollision (record { taken = taken.now; given = given.now })) }
{
    read_back_on::<Brand>(alloc, taken, given, when_written, when_read, page)
}
