//! Reading a feed into the store of a run.
ghost use Rattle.std.specs.Prelude.{◌≡◌, ◌≤◌, ◌++◌, ◌∷◌, [], ℤ, List, length, IsTrue, OnOk, IfOk, IfErr};
ghost use Rattle.fkv_functions.specs.declared.names.Name.{Name};
ghost use Rattle.fkv_functions.specs.Names.{name_cmp};
ghost use Rattle.fkv_feed_rows.specs.Feeds.{IsFeed, TellsWhy};
ghost use Rattle.fkv_local.specs.Storing.{SameTerms};
ghost use Rattle.fkv_alone.specs.Causes.{CanFailToRead, CanFailToWrite};
ghost use Rattle.fkv_feeds.specs.Faults.{IsDeviceFault};
ghost use Rattle.fkv_feeds.specs.Keeping.{KeptOf, kept_of};
ghost use Rattle.fkv_feeds.specs.Refusing.{IsRowRefusal};
ghost use Rattle.fkv_feeds.specs.Tables.{StandsFor};

use crate::counting::{Plan, RowMode};
use fkv_device::Disk;
use fkv_feed_rows::RowSink;
use fkv_functions::{Mergeable, Name, Refused};
use fkv_local::LocalStore;
use fkv_streams::Source;
use std::alloc::Global;

/// The store of a run, and how each row is made an update of it: the plan of a run is read off it.
#[derive(Drop)]
pub struct RowStore<F: Mergeable, D: Disk> {
    pub store: LocalStore<F, D>,
    pub mode: RowMode,
}

impl<F: Mergeable<Key = Name, Input = i64>, D: Disk> RowStore<F, D> {
    /// How a table is made with it, by one worker.
    pub fn plan(&self) -> Plan
        ensures { result ≡ record { config = self.now.store.config; mode = self.now.mode; workers = 1 } }
    {
        Plan {
            config: *self.store.config(),
            mode: self.mode,
            workers: 1,
        }
    }
}

/// Makes a row an update of the store. Where rows are made merges, the functions merge and the logs are kept whole, no page is read.
/// Refused as [`LocalStore::rmw`] is; then the store is the map that it was.
fn add_row<F: Mergeable<Key = Name, Input = i64>, D: Disk>(
    rows: &mut RowStore<F, D>,
    key: &Name,
    amount: i64,
) -> Result<(), Refused>
    ensures ok { OnOk result ((before : List (Name × ℤ)) → StandsFor D.Receipt.keeps F.meaning F.code rows.old.store before
        → StandsFor D.Receipt.keeps F.meaning F.code rows.new.store (before ++ (key.now, amount) ∷ [])) }
    ensures told { IfErr result (IsRowRefusal (IsDeviceFault D.Receipt.keeps D.failures D.Writer.failures D.Reader.failures
        (CanFailToWrite D.Writer.next D.Writer.can_fail) (CanFailToRead D.Receipt.stands D.Reader.can_fail))) }
    ensures unread { IsTrue F.MERGES → rows.old.mode ≡ RowMode.Merge → IsTrue rows.old.store.keeps_log
        → rows.new.store.readers ≡ rows.old.store.readers }
    ensures same_terms { SameTerms rows.old.store rows.new.store }
    ensures same_mode { rows.new.mode ≡ rows.old.mode }
{
    match rows.mode {
        RowMode::Update => match rows.store.rmw(key, &amount) {
            Ok(_answer) => Ok(()),
            Err(refused) => Err(refused),
        },
        RowMode::Merge => match rows.store.update_or_merge(key, &amount) {
            Ok(_answer) => Ok(()),
            Err(refused) => Err(refused),
        },
    }
}

impl<F: Mergeable<Key = Name, Input = i64>, D: Disk> RowSink for RowStore<F, D> {
    ghost stands = { λ s rows. StandsFor D.Receipt.keeps F.meaning F.code s.store rows };

    ghost Kept = { KeptOf D.Reader };

    ghost kept = { λ s. kept_of F.MERGES s.mode s.store };

    ghost fault = { IsRowRefusal (IsDeviceFault D.Receipt.keeps D.failures D.Writer.failures D.Reader.failures
        (CanFailToWrite D.Writer.next D.Writer.can_fail) (CanFailToRead D.Receipt.stands D.Reader.can_fail)) };

    fn add(&mut self, key: &Name, amount: i64) -> Result<(), Refused> {
        add_row(self, key, amount)
    }
}

/// Reads the feed of this number, counted from 1, to its end, and makes each of its rows an update, in order.
/// Answers how many rows it has.
///
/// # Errors
///
/// `BadRow` with the first record that is no row, counted from 1: then those before it are rows. `Unreadable` with
/// the feed's number where its stream fails, or where it has more records than `limit`. `NoMemory`. `Worn`, by
/// an update. `Device` and `Damaged`, by a page. The store then stands for no rows.
pub fn read_feed<S: Source, F: Mergeable<Key = Name, Input = i64>, D: Disk>(
    alloc: Global,
    source: &mut S,
    feed: u64,
    limit: u64,
    rows: &mut RowStore<F, D>,
) -> Result<u64, Refused>
    requires { (before : List (Name × ℤ)) × StandsFor D.Receipt.keeps F.meaning F.code rows.old.store before }
    ensures ok { IfOk result (λ count. (before : List (Name × ℤ)) → StandsFor D.Receipt.keeps F.meaning F.code rows.old.store before
        → (read : List (Name × ℤ)) × IsFeed limit (S.remaining source.old) read
        × StandsFor D.Receipt.keeps F.meaning F.code rows.new.store (before ++ read) × (count ≡ length read)) }
    ensures within { IfOk result (λ count. count ≤ limit) }
    ensures kept { kept_of F.MERGES rows.new.mode rows.new.store ≡ kept_of F.MERGES rows.old.mode rows.old.store }
    ensures steady { OnOk result (S.failures source.new ≡ S.failures source.old) }
    ensures told { IfErr result
        (TellsWhy (IsDeviceFault D.Receipt.keeps D.failures D.Writer.failures D.Reader.failures
        (CanFailToWrite D.Writer.next D.Writer.can_fail) (CanFailToRead D.Receipt.stands D.Reader.can_fail))
        feed limit (S.remaining source.old) (S.failures source.old) (S.failures source.new)) }
{
    fkv_feed_rows::read_feed(alloc, source, feed, limit, rows)
}
