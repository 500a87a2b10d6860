//! Why a call has done nothing, as numbers.
ghost use Rattle.std.specs.Prelude.{◌≡◌, ◌<◌};
ghost use Rattle.fkv_c.specs.Statuses.{refusal_number, fault_number};

use fkv_functions::Refused;

/// Why a call has done nothing.
#[derive(Clone, Copy, Debug, PartialEq, Eq)]
pub enum Fault {
    /// The store refused it.
    Refused(Refused),
    /// The handle is closed.
    Closed,
    /// The handle that is to be opened is open.
    InUse,
    /// The handle leads to no store.
    NotAStore,
    /// The handle leads to no cursor.
    NotACursor,
    /// The key has no byte, or more than 31.
    BadKey,
    /// There are no functions of this number.
    BadKind,
    /// The value has more bits than the functions' values, or is below 0 and a count.
    OutOfRange,
    /// The handle leads to cells, and numbers are asked for.
    NotNumbers,
    /// The handle leads to numbers, and cells are asked for.
    NotCells,
}

impl Fault {
    /// The status by which a call tells it.
    pub(crate) fn number(&self) -> u32
        ensures value { result ≡ fault_number self.now }
        ensures some { 0 < result }
    {
        match self {
            Fault::Refused(refused) => refusal_number(refused),
            Fault::Closed => 32,
            Fault::InUse => 33,
            Fault::NotAStore => 34,
            Fault::NotACursor => 35,
            Fault::BadKey => 36,
            Fault::BadKind => 37,
            Fault::OutOfRange => 40,
            Fault::NotNumbers => 41,
            Fault::NotCells => 42,
        }
    }
}

/// The number of a refusal: its place among them, from 1.
fn refusal_number(refused: &Refused) -> u32
    ensures value { result ≡ refusal_number refused.now }
    ensures some { 0 < result }
{
    match refused {
        Refused::NoMemory => 1,
        Refused::BadConfig => 2,
        Refused::NoSlot => 3,
        Refused::NoContext => 4,
        Refused::Unknown => 5,
        Refused::Busy => 6,
        Refused::NotDue => 7,
        Refused::DrainFull => 8,
        Refused::Stranger { .. } => 9,
        Refused::Worn => 10,
        Refused::Device { .. } => 11,
        Refused::Damaged { .. } => 12,
        Refused::Stalled => 13,
        Refused::Mismatch => 14,
        Refused::BadRow { .. } => 15,
        Refused::BadScript { .. } => 16,
        Refused::NotReady => 17,
        Refused::Unreadable { .. } => 18,
        Refused::Unwritable => 19,
        Refused::NoMerge => 20,
    }
}

/// The name of a status; `?` where no call has it.
pub(crate) fn status_name(status: u32) -> &'static str {
    match status {
        0 => "Done",
        1 => "NoMemory",
        2 => "BadConfig",
        3 => "NoSlot",
        4 => "NoContext",
        5 => "Unknown",
        6 => "Busy",
        7 => "NotDue",
        8 => "DrainFull",
        9 => "Stranger",
        10 => "Worn",
        11 => "Device",
        12 => "Damaged",
        13 => "Stalled",
        14 => "Mismatch",
        15 => "BadRow",
        16 => "BadScript",
        17 => "NotReady",
        18 => "Unreadable",
        19 => "Unwritable",
        20 => "NoMerge",
        32 => "Closed",
        33 => "InUse",
        34 => "NotAStore",
        35 => "NotACursor",
        36 => "BadKey",
        37 => "BadKind",
        38 => "Null",
        39 => "Same",
        40 => "OutOfRange",
        41 => "NotNumbers",
        42 => "NotCells",
        _ => "?",
    }
}
