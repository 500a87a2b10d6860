//! What the lines of a script say, and which of them a store takes.
ghost use Rattle.std.specs.Prelude.{◌≡◌};
ghost use Rattle.fkv_scripts.specs.Configs.{config_of};
ghost use Rattle.fkv_scripts.specs.Script.{takes_operation, takes};

use fkv_functions::Name;
use fkv_lives::{Access, ContextId};
use fkv_operations::KeyedOp;
use fkv_partition::Config;

/// The sets of functions that a script can name.
#[derive(Clone, Copy, PartialEq, Eq, Debug)]
pub enum FunctionsName {
    /// `count`: how often each key was updated.
    Count,
    /// `sum`: the sum of the amounts of each key.
    Sum,
    /// `max`: the greatest amount of each key.
    Max,
    /// `capped`: the sum of the amounts of each key, which declines to leave 0 to 1,000,000.
    Capped,
}

/// The first line of a script: the store that it opens. The numbers are those that are written, within
/// the limits of a configuration or not.
#[derive(Clone, Copy, PartialEq, Eq, Debug)]
pub struct Opening {
    pub functions: FunctionsName,
    pub partition_bits: u64,
    pub bucket_bits: u64,
    pub page_bits: u64,
    /// The page frames of a partition.
    pub frames: u64,
}

/// A line of a script, after the first. What an operation writes is an amount.
#[derive(Clone, Copy, PartialEq, Eq, Debug)]
pub enum Line {
    /// A session enters a partition.
    Enter {
        partition: u64,
    },
    /// A session is left.
    Leave {
        partition: u64,
        session: u64,
    },
    /// A session is refreshed.
    Refresh {
        partition: u64,
        session: u64,
    },
    /// The read-only offset moves to the start of a page.
    ReadOnly {
        partition: u64,
        page: u64,
    },
    /// Head moves to the start of a page.
    Head {
        partition: u64,
        page: u64,
    },
    /// The lowest page that is not flushed is taken, and written to the device.
    Flush {
        partition: u64,
        access: Access,
    },
    /// Begin moves to the start of the page up to which all is cleared.
    Truncate {
        partition: u64,
    },
    /// A session issues an operation. The input of a read is 0.
    Issue {
        partition: u64,
        session: u64,
        op: KeyedOp<Name, i64, i64>,
    },
    /// A session issues an operation and finishes it. The input of a read is 0.
    Do {
        partition: u64,
        session: u64,
        op: KeyedOp<Name, i64, i64>,
    },
    /// A session issues a relocation and finishes it.
    Compact {
        partition: u64,
        session: u64,
    },
    /// An operation or a relocation goes on by one step.
    Go(ContextId),
    /// What an operation last asked for is answered.
    Install(ContextId),
    /// The page that an operation or a relocation asked for is read from the device, and it goes on with that page.
    Load(ContextId, Access),
    /// An operation or a relocation is given up.
    GiveUp(ContextId),
    /// An operation or a relocation goes on until it asks for something or ends.
    Ready(ContextId),
    /// An operation or a relocation goes on, and is answered, until it ends.
    Finish(ContextId),
}

impl FunctionsName {
    /// Whether a store of these functions takes an operation: an amount below 0 is no count.
    fn takes_operation(self, op: &KeyedOp<Name, i64, i64>) -> bool
        ensures { result ≡ takes_operation self op.now }
    {
        match (self, op) {
            (FunctionsName::Count, KeyedOp::Upsert(_, amount)) => *amount >= 0,
            _ => true,
        }
    }

    /// Whether a store of these functions takes a line.
    pub fn takes(self, line: &Line) -> bool
        ensures { result ≡ takes self line.now }
    {
        match line {
            Line::Issue { op, .. } | Line::Do { op, .. } => self.takes_operation(op),
            _ => true,
        }
    }
}

impl Opening {
    /// The configuration that the line names. Its id is 1, and its turns are 1,000,000.
    pub fn config(&self) -> Config
        ensures { result ≡ config_of self.now }
    {
        Config {
            id: 1,
            partition_bits: self.partition_bits,
            bucket_bits: self.bucket_bits,
            page_bits: self.page_bits,
            frames: self.frames,
            turns: 1_000_000,
        }
    }
}

/// What a whole script says.
#[derive(Drop)]
pub struct Script {
    pub opening: Opening,
    /// The lines after the first, in order.
    pub lines: Vec<Line>,
}
