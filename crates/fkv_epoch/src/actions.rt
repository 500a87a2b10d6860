//! What waits for an epoch.
use arrayvec::ArrayVec;

/// How many sessions can be entered at a time.
pub const SLOTS: usize = 16;

/// How many actions can wait at a time.
pub const ROOM: usize = 16;

/// What a log does once an epoch is safe. Offsets are byte addresses in the log.
#[derive(Clone, Copy, Debug, PartialEq, Eq)]
pub enum Action {
    /// Records below this offset change no more: it becomes the safe read-only offset.
    Safe(u64),
    /// Frames of pages below this offset may be used again: it becomes the closed offset.
    Closed(u64),
}

impl Default for Action {
    ghost use Rattle.std.specs.Prelude.{◌≡◌};
    ghost use Rattle.fkv_epoch.specs.declared.actions.Action.TheVariants.{Safe};

    ghost is_default = { λ action. action ≡ Safe 0 };

    /// What stands in an unused place of a table. No list shows it.
    fn default() -> Action {
        Action::Safe(0)
    }
}

/// An action that waits.
#[derive(Clone, Copy, Debug, Default, PartialEq, Eq)]
pub struct Waiting {
    /// The epoch that has to be safe first.
    pub epoch: u64,
    pub action: Action,
}

/// The actions that are due, in the order in which they were put in.
pub type Due = ArrayVec<Action, ROOM>;
