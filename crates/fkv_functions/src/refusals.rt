//! Why a call is refused.
ghost use Rattle.std.specs.Prelude.{◌≡◌};
ghost use Rattle.fkv_functions.specs.RefusalNames.{name_of};

use thiserror::Error;

/// What a stranger's two numbers speak of.
#[derive(Clone, Copy, Debug, PartialEq, Eq)]
pub enum What {
    /// The partition's number, and that of the key's partition.
    Partition,
    /// The next page to flush, and the page that came.
    Page,
    /// The two bytes at the first difference, or the lengths where they differ.
    Bytes,
    /// The numbers of two receipts.
    Receipt,
    /// The numbers of two operations.
    Built,
    /// The ids of two stores, or their numbers of partitions, or the length of a history and what the
    /// pass was told.
    Pass,
}

/// Why a call was refused. The text of each, as its `Display` writes it, is part of the program's output;
/// numbers are decimal.
#[derive(Clone, Copy, Debug, PartialEq, Eq, Error)]
pub enum Refused {
    /// Memory was asked for and refused.
    #[error("no memory")]
    NoMemory,
    /// A number of the configuration is outside its limits.
    #[error("bad configuration")]
    BadConfig,
    /// All sessions of the partition are taken.
    #[error("no free session")]
    NoSlot,
    /// All contexts of the session are taken.
    #[error("no free context")]
    NoContext,
    /// There is no such partition, session or context.
    #[error("unknown session or context")]
    Unknown,
    /// The session has open operations.
    #[error("operations still open")]
    Busy,
    /// The call's condition does not hold yet, or no longer.
    #[error("not due")]
    NotDue,
    /// The list of waiting actions is full.
    #[error("drain list full")]
    DrainFull,
    /// What was handed in is not this object's.
    #[error("stranger: held {held}, came {came}")]
    Stranger { what: What, held: u64, came: u64 },
    /// A number that only grows has no next one.
    #[error("worn out")]
    Worn,
    /// The device failed: code 1 to open, 2 to write, 3 to read.
    #[error("device fault {code} on page {page}")]
    Device { code: u8, page: u64 },
    /// The page's bytes are not those that were written, or spell no record.
    #[error("damaged page {page}")]
    Damaged { page: u64 },
    /// The operation took more turns than it may.
    #[error("stalled")]
    Stalled,
    /// What the passes were told does not make up the histories.
    #[error("mismatch")]
    Mismatch,
    /// A row of a feed is no key and amount; both numbers are from 1.
    #[error("bad row {row} of feed {feed}")]
    BadRow { feed: u64, row: u64 },
    /// A line of a script means nothing; lines are counted from 1.
    #[error("bad script line {line}")]
    BadScript { line: u64 },
    /// The context asks for something else first.
    #[error("not ready")]
    NotReady,
    /// An input can not be read; standard input is 1.
    #[error("cannot read input {number}")]
    Unreadable { number: u64 },
    /// The output can not be written.
    #[error("cannot write output")]
    Unwritable,
    /// A merge was asked of functions that do not merge.
    #[error("functions do not merge")]
    NoMerge,
}

impl Refused {
    /// The refusal's name, as scripts print it.
    pub fn name(&self) -> &'static str
        ensures { result.now ≡ name_of self.now }
    {
        match self {
            Refused::NoMemory => "NoMemory",
            Refused::BadConfig => "BadConfig",
            Refused::NoSlot => "NoSlot",
            Refused::NoContext => "NoContext",
            Refused::Unknown => "Unknown",
            Refused::Busy => "Busy",
            Refused::NotDue => "NotDue",
            Refused::DrainFull => "DrainFull",
            Refused::Stranger { .. } => "Stranger",
            Refused::Worn => "Worn",
            Refused::Device { .. } => "Device",
            Refused::Damaged { .. } => "Damaged",
            Refused::Stalled => "Stalled",
            Refused::Mismatch => "Mismatch",
            Refused::BadRow { .. } => "BadRow",
            Refused::BadScript { .. } => "BadScript",
            Refused::NotReady => "NotReady",
            Refused::Unreadable { .. } => "Unreadable",
            Refused::Unwritable => "Unwritable",
            Refused::NoMerge => "NoMerge",
        }
    }
}
