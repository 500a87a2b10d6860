//! Pages of pairs that are still to be read.
ghost use Rattle.std.specs.Prelude.{◌≡◌, ◌≢◌, ℕ, List, drop, IsTrue, IsOk, IfOk, IfErr, OnOk, OnErr};
ghost use Rattle.fkv_functions.specs.declared.names.Name.{Name};
ghost use Rattle.fkv_functions.specs.declared.refusals.Refused.TheVariants as refused;
ghost use Rattle.fkv_device.specs.Failing.{ReadFailsBy};
ghost use Rattle.fkv_runs.specs.Merging.{first_pair};
ghost use Rattle.fkv_spills.specs.Spilling.{AreSpilled};
ghost use Rattle.fkv_spills.specs.Reading.{IsReady, IsUnread, IsUnreadable};

use crate::pages::{SpilledPage, pair_at};
use fkv_device::{Page, PageReader, Receipt};
use fkv_functions::{Fixed, Name, Refused};
use fkv_records::record_size;
use std::collections::VecDeque;
use std::marker::PhantomData;

/// Pages of pairs: what is left of the page in hand, and those behind it.
#[derive(Drop)]
pub(crate) struct Unread<V, R, P> {
    pub(crate) reader: P,
    pages: VecDeque<SpilledPage<R>>,
    page: Option<Page>,
    /// The number of the page in hand.
    number: u64,
    /// Where its next pair stands, and how many are left in it.
    at: usize,
    here: usize,
    values: PhantomData<V>,
}

impl<V: Fixed, P: PageReader> Unread<V, P::Receipt, P> {
    /// All pairs of these pages.
    pub(crate) fn new(
        pages: VecDeque<SpilledPage<P::Receipt>>,
        reader: P,
    ) -> Unread<V, P::Receipt, P>
        ensures all { (xs : List (Name × V)) → AreSpilled V.codec P.Receipt.stands pages.items xs
            → IsUnread V.codec P.Receipt.stands result xs }
        ensures reader { result.reader ≡ reader }
    {
        Unread {
            reader,
            pages,
            page: None,
            number: 0,
            at: 0,
            here: 0,
            values: PhantomData,
        }
    }

    /// Takes the next page in hand, if there is one. The one in hand goes first, so that its room may be used again.
    fn fetch(&mut self) -> Result<(), Refused>
        ensures ok { (xs : List (Name × V)) → IsTrue P.Receipt.keeps → self.old.here ≡ 0
            → IsUnread V.codec P.Receipt.stands self.old xs
            → OnOk result (IsUnread V.codec P.Receipt.stands self.new xs × IsReady self.new xs) }
        ensures kept { (xs : List (Name × V)) → self.old.here ≡ 0
            → IsUnread V.codec P.Receipt.stands self.old xs
            → OnErr result (IsUnread V.codec P.Receipt.stands self.new xs) }
        ensures refused { IfErr result (λ e. (page : ℕ)
            × ReadFailsBy page (P.failures self.old.reader) (P.failures self.new.reader) e) }
        ensures steady { OnOk result (P.failures self.new.reader ≡ P.failures self.old.reader) }
        ensures caused { IfErr result (λ e. e ≢ refused.NoMemory → (r : P.Receipt) × P.can_fail r (P.Receipt.stands r).length) }
    {
        self.page = None;
        let Some(next) = self.pages.front() else {
            return Ok(());
        };
        match self.reader.read(&next.receipt, next.receipt.size()) {
            Err(refused) => Err(refused),
            Ok(page) => {
                self.number = next.receipt.page();
                self.here = next.count;
                self.at = 0;
                self.page = Some(page);
                let _read = self.pages.pop_front();
                Ok(())
            }
        }
    }

    /// The next pair of the page in hand, if one is.
    ///
    /// # Errors
    ///
    /// `Damaged` where the page spells no pair there.
    fn take(&mut self) -> Result<Option<(Name, V)>, Refused>
        ensures pair { (xs : List (Name × V))
            → IsUnread V.codec P.Receipt.stands self.old xs
            → IsReady self.old xs
            → IfOk result (λ pair. pair ≡ first_pair xs) }
        ensures after { (xs : List (Name × V))
            → IsUnread V.codec P.Receipt.stands self.old xs
            → IsReady self.old xs
            → IsUnread V.codec P.Receipt.stands self.new (drop 1 xs) }
        ensures done { (xs : List (Name × V))
            → IsUnread V.codec P.Receipt.stands self.old xs
            → IsReady self.old xs
            → IsOk result }
        ensures same { self.new.reader ≡ self.old.reader }
        ensures damaged { IfErr result (λ e. (page : ℕ) × (e ≡ refused.Damaged page)) }
    {
        let Some(page) = &self.page else {
            return Ok(None);
        };
        let Some(pair) = pair_at(page.bytes(), self.at) else {
            return Err(Refused::Damaged { page: self.number });
        };
        let Some(here) = self.here.checked_sub(1) else {
            return Err(Refused::Damaged { page: self.number });
        };
        self.here = here;
        self.at += record_size::<Name, V>().unwrap_or(0);
        Ok(Some(pair))
    }

    /// The next pair.
    ///
    /// # Errors
    ///
    /// As a reader refuses a page; `Damaged` where a page spells no pair.
    pub(crate) fn next(&mut self) -> Result<Option<(Name, V)>, Refused>
        ensures pair { (xs : List (Name × V)) → IsTrue P.Receipt.keeps
            → IsUnread V.codec P.Receipt.stands self.old xs
            → IfOk result (λ pair. pair ≡ first_pair xs) }
        ensures after { (xs : List (Name × V)) → IsTrue P.Receipt.keeps
            → IsUnread V.codec P.Receipt.stands self.old xs
            → OnOk result (IsUnread V.codec P.Receipt.stands self.new (drop 1 xs)) }
        ensures kept { (xs : List (Name × V)) → IsTrue P.Receipt.keeps
            → IsUnread V.codec P.Receipt.stands self.old xs
            → OnErr result (IsUnread V.codec P.Receipt.stands self.new xs) }
        ensures told { IfErr result (IsUnreadable (P.failures self.old.reader) (P.failures self.new.reader)
            ((xs : List (Name × V)) × IsTrue P.Receipt.keeps
            × IsUnread V.codec P.Receipt.stands self.old xs)) }
        ensures caused { (xs : List (Name × V)) → IsTrue P.Receipt.keeps
            → IsUnread V.codec P.Receipt.stands self.old xs
            → IfErr result (λ e. e ≢ refused.NoMemory → (r : P.Receipt) × P.can_fail r (P.Receipt.stands r).length) }
    {
        if self.here == 0 {
            match self.fetch() {
                Ok(()) => {}
                Err(refused) => return Err(refused),
            }
        }
        self.take()
    }
}
