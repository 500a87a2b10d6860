//! Calls as values, and what holds of any list of them.
ghost use Rattle.std.specs.Prelude.{◌≡◌, ◌-◌, ◌<◌, ◌^◌, ◌↔◌, List, IsSome, IsOk, IfOk, IfErr};

use crate::actions::{Action, Due};
use crate::table::Epochs;
use fkv_functions::Refused;

/// A call on [`Epochs`], as a value.
#[derive(Clone, Copy, Debug, PartialEq, Eq)]
pub enum Call {
    /// A session enters.
    Enter,
    /// The session at this slot looks again.
    Refresh(usize),
    /// The session at this slot leaves.
    Leave(usize),
    /// An action is put in.
    Bump(Action),
}

impl Epochs {
    ghost use Rattle.fkv_epoch.specs.Due.{actions_of};
    ghost use Rattle.fkv_epoch.specs.Calls.{moved, after, let_out, refusal_of};

    /// Makes a call, and answers the actions that are due then: none at `Enter`, whose slot is not told.
    pub fn make(&mut self, call: Call) -> Result<Due, Refused>
        requires { self.old.epoch < 2 ^ 64 - 1 }
        ensures taken { IsOk result ↔ IsSome (moved self.old call) }
        ensures due { IfOk result (λ actions. actions.items ≡ actions_of (let_out self.old call)) }
        ensures effect { self.new ≡ after self.old call }
        ensures refused { IfErr result (λ why. why ≡ refusal_of call) }
    {
        match call {
            Call::Enter => {
                self.enter()?;
                Ok(Due::new())
            }
            Call::Refresh(slot) => self.refresh(slot),
            Call::Leave(slot) => self.leave(slot),
            Call::Bump(action) => self.bump(action),
        }
    }
}
