//! How the rows of a run reach the store, and how much it did.
use fkv_partition::Config;
use fkv_runs::Table;

/// How much a run did.
#[derive(Clone, Copy, Debug, PartialEq, Eq)]
pub struct RunCounts {
    /// The rows that were read.
    pub rows: u64,
    /// The records that were appended to the logs: one for each key, and one for each update of a key whose record could not
    /// be changed where it stood.
    /// `None` of a store that several workers share.
    pub appended: Option<u64>,
}

/// How a table was made.
#[derive(Clone, Copy, Debug, PartialEq, Eq)]
pub struct Plan {
    /// The configuration of the store.
    pub config: Config,
    /// How each row was made an update of it.
    pub mode: RowMode,
    /// How many workers read the feeds.
    pub workers: usize,
}

/// A run over feeds: its table, how much it did, and how.
#[derive(Drop)]
pub struct TableRun<V> {
    pub table: Table<V>,
    pub counts: RunCounts,
    pub plan: Plan,
}

/// How a row is made an update of the store.
#[derive(Clone, Copy, PartialEq, Eq, Debug)]
pub enum RowMode {
    /// As an update: where its key's value is on the device, the page is read.
    Update,
    /// As an update where its key's value is in memory; where a page would have to be read, as a merge, which reads none.
    /// Functions that don't merge make each row an update.
    Merge,
}
