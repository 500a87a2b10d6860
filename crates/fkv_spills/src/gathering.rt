//! A run that is written, a pair at a time.
ghost use Rattle.std.specs.Prelude.{◌≡◌, ◌≤◌, ◌++◌, ◌∷◌, [], ℕ, List, IsTrue, IfOk, IfErr, OnOk};
ghost use Rattle.fkv_functions.specs.declared.names.Name.{Name};
ghost use Rattle.fkv_functions.specs.declared.refusals.Refused.TheVariants as refused;
ghost use Rattle.fkv_device.specs.Failing.{FailsOnlyBy};
ghost use Rattle.fkv_spills.specs.Spilling.{pair_size, IsGathered, AreSpilled};

use crate::pages::{SpilledPage, padded, put_pair};
use fkv_device::{PageWriter, Receipt};
use fkv_functions::{Fixed, Name, Refused};
use fkv_records::record_size;
use std::alloc::Global;
use std::collections::VecDeque;
use std::marker::PhantomData;

/// Pairs, those that stand in pages and those of the page that comes next.
#[derive(Drop)]
pub(crate) struct Gathered<V, R> {
    alloc: Global,
    page_size: usize,
    /// The number of the first page.
    first: u64,
    pages: VecDeque<SpilledPage<R>>,
    /// The pairs of the page that comes next, and how many they are.
    bytes: Vec<u8>,
    here: usize,
    values: PhantomData<V>,
}

impl<V: Fixed, R: Receipt> Gathered<V, R> {
    /// No pairs, to be written in pages of so many bytes from this page on.
    pub(crate) fn new(alloc: Global, page_size: usize, first: u64) -> Gathered<V, R>
        ensures { IsGathered V.codec R.stands result [] }
    {
        Gathered {
            alloc,
            page_size,
            first,
            pages: VecDeque::new(alloc),
            bytes: Vec::new(alloc),
            here: 0,
            values: PhantomData,
        }
    }

    /// Writes the next page, where it has pairs.
    fn write_page<W: PageWriter<Receipt = R>>(&mut self, writer: &mut W) -> Result<(), Refused>
        ensures ok { (xs : List (Name × V)) → IsTrue R.keeps
            → IsGathered V.codec R.stands self.old xs
            → OnOk result (AreSpilled V.codec R.stands self.new.pages.items xs) }
        ensures none { OnOk result ((self.new.bytes.items ≡ []) × (self.new.here ≡ 0)) }
        ensures steady { OnOk result (W.failures writer.new ≡ W.failures writer.old) }
        ensures refused { IfErr result (λ e. (page : ℕ) × FailsOnlyBy 2 page (W.failures writer.old) (W.failures writer.new) e) }
    {
        let count = self.here;
        if count > 0 {
            let page = match padded(self.alloc, &self.bytes, self.page_size) {
                Ok(page) => page,
                Err(refused) => return Err(refused),
            };
            let number = self.first.saturating_add(self.pages.len() as u64);
            let receipt = match writer.write(number, &page) {
                Ok(receipt) => receipt,
                Err(refused) => return Err(refused),
            };
            let Ok(()) = self.pages.push_back(SpilledPage { receipt, count }) else {
                return Err(Refused::NoMemory);
            };
        }
        self.bytes.clear();
        self.here = 0;
        Ok(())
    }

    /// Puts one more pair behind the others of the next page. Refused: `NoMemory`.
    fn add(&mut self, name: &Name, value: V) -> Result<(), Refused>
        requires most { pair_size V.SIZE ≤ 192 }
        ensures ok { (xs : List (Name × V))
            → IsGathered V.codec R.stands self.old xs
            → OnOk result (IsGathered V.codec R.stands self.new (xs ++ (name.now, value) ∷ [])) }
        ensures only { IfErr result (λ e. e ≡ refused.NoMemory) }
    {
        let Some(here) = self.here.checked_add(1) else {
            return Err(Refused::NoMemory);
        };
        match put_pair(&mut self.bytes, name, value) {
            Ok(()) => {
                self.here = here;
                Ok(())
            }
            Err(refused) => Err(refused),
        }
    }

    /// Whether the next page has no room for one pair more.
    fn is_full(&self) -> bool {
        match record_size::<Name, V>() {
            Some(size) => self.bytes.len() + size > self.page_size,
            None => true,
        }
    }

    /// One more pair; the next page is written first where it is full.
    pub(crate) fn put<W: PageWriter<Receipt = R>>(
        &mut self,
        writer: &mut W,
        name: &Name,
        value: V,
    ) -> Result<(), Refused>
        requires most { pair_size V.SIZE ≤ 192 }
        ensures ok { (xs : List (Name × V)) → IsTrue R.keeps
            → IsGathered V.codec R.stands self.old xs
            → OnOk result (IsGathered V.codec R.stands self.new (xs ++ (name.now, value) ∷ [])) }
        ensures steady { OnOk result (W.failures writer.new ≡ W.failures writer.old) }
        ensures refused { IfErr result (λ e. (page : ℕ) × FailsOnlyBy 2 page (W.failures writer.old) (W.failures writer.new) e) }
    {
        if self.is_full() {
            match self.write_page(writer) {
                Ok(()) => {}
                Err(refused) => return Err(refused),
            }
        }
        self.add(name, value)
    }

    /// The pages of all pairs.
    pub(crate) fn finish<W: PageWriter<Receipt = R>>(
        self,
        writer: &mut W,
    ) -> Result<VecDeque<SpilledPage<R>>, Refused>
        ensures ok { (xs : List (Name × V)) → IsTrue R.keeps
            → IsGathered V.codec R.stands self xs
            → IfOk result (λ pages. AreSpilled V.codec R.stands pages.items xs) }
        ensures steady { OnOk result (W.failures writer.new ≡ W.failures writer.old) }
        ensures refused { IfErr result (λ e. (page : ℕ) × FailsOnlyBy 2 page (W.failures writer.old) (W.failures writer.new) e) }
    {
        let mut gathered = self;
        match gathered.write_page(writer) {
            Ok(()) => {}
            Err(refused) => return Err(refused),
        }
        let Gathered { pages, .. } = gathered;
        Ok(pages)
    }
}
