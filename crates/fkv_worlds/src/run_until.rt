//! Steps that are repeated until an operation is where it is wanted.
ghost use Rattle.std.specs.Prelude.{◌≡◌};
ghost use Rattle.fkv_hybrid.specs.Spelled.{IsEntryIn};
ghost use Rattle.fkv_worlds.specs.declared.run_until.Until.TheVariants.{Ready, Finish};
ghost use Rattle.fkv_worlds.specs.Headline.{IsHeadline};
ghost use Rattle.fkv_worlds.specs.Reports.{follows, first_step, RunsUntil, IsRunUntil};

use crate::worlds::World;
use fkv_device::{MemoryReceipt, Receipt};
use fkv_functions::{Mergeable, Refused};
use fkv_lives::outcomes::{Outcome, OutcomeOf};
use fkv_lives::steps::{Access, ContextId, Step, StepOf};

/// The steps after which a run is stalled.
pub const LIMIT: u64 = 10_000;

/// How far an operation or a relocation is run.
#[derive(Clone, Copy)]
pub enum Until {
    /// Until it is not to go on: it is done, or waits, or asks for a value or a page.
    Ready,
    /// Until it is done, or waits.
    Finish,
}

/// The step that follows a step with this result, if one does.
fn following<F: Mergeable>(
    until: Until,
    place: ContextId,
    told: &Result<OutcomeOf<F>, Refused>,
) -> Option<StepOf<F>>
    ensures { result ≡ follows until place told.now }
{
    match told {
        Ok(Outcome::Next) => Some(Step::Go(place)),
        Ok(Outcome::Build(_)) => match until {
            Until::Ready => None,
            Until::Finish => Some(Step::Install(place)),
        },
        Ok(Outcome::Load(_)) => match until {
            Until::Ready => None,
            Until::Finish => Some(Step::Load(place, Access::Works)),
        },
        _ => None,
    }
}

impl<F: Mergeable> World<F> {
    /// Goes on with an operation or a relocation until it answers anything but `Next`, and answers that. It is `Stalled`
    /// after 10,000 steps, and then it stays open as it is; no step tells that, so it is not
    /// among the outcomes. Refused with `NoMemory` where an outcome could not be kept, and else as
    /// [`World::step`] is.
    pub fn ready(&mut self, functions: &F, place: ContextId) -> Result<OutcomeOf<F>, Refused>
        ensures runs { IsRunUntil ⟦<MemoryReceipt as Receipt>⟧.stands (IsEntryIn F.Key.codec F.Value.codec) F.Key.cmp F.parts.joined F.meaning F.code Ready place self.old self.new result }
        ensures headline { IsHeadline F.Key.cmp F.meaning F.code self.new }
    {
        self.run_until(functions, Until::Ready, place)
            .unwrap_or(Err(Refused::NoMemory))
    }

    /// Goes on with an operation or a relocation, installs what it asks for and loads the pages that it asks for, until it is
    /// done, waits, or is refused, and answers that. Where it waits for a page it begins with the load. `Stalled` and `NoMemory` as in [`World::ready`].
    pub fn finish(&mut self, functions: &F, place: ContextId) -> Result<OutcomeOf<F>, Refused>
        ensures runs { IsRunUntil ⟦<MemoryReceipt as Receipt>⟧.stands (IsEntryIn F.Key.codec F.Value.codec) F.Key.cmp F.parts.joined F.meaning F.code Finish place self.old self.new result }
        ensures headline { IsHeadline F.Key.cmp F.meaning F.code self.new }
    {
        self.run_until(functions, Until::Finish, place)
            .unwrap_or(Err(Refused::NoMemory))
    }

    /// Does steps, beginning with a `Go` or a `Load`, each followed by the one that its result leads to, and answers
    /// what the last of them told; `None` where there is no memory to keep the next one's outcome, which
    /// then isn't done.
    pub fn run_until(
        &mut self,
        functions: &F,
        until: Until,
        place: ContextId,
    ) -> Option<Result<OutcomeOf<F>, Refused>>
        ensures runs { RunsUntil ⟦<MemoryReceipt as Receipt>⟧.stands (IsEntryIn F.Key.codec F.Value.codec) F.Key.cmp F.parts.joined F.meaning F.code until place self.new result 10000
            (first_step self.old.state.partitions until place) self.old }
        ensures headline { IsHeadline F.Key.cmp F.meaning F.code self.new }
    {
        let told = self.follow(functions, until, place);
        self.headline();
        told
    }

    /// The step that a run begins with.
    fn first(&self, until: Until, place: ContextId) -> StepOf<F>
        ensures { result ≡ first_step self.now.state.partitions until place }
    {
        match until {
            Until::Ready => Step::Go(place),
            Until::Finish => {
                if self.state.awaits_page(place) {
                    Step::Load(place, Access::Works)
                } else {
                    Step::Go(place)
                }
            }
        }
    }

    /// Does the steps of a run.
    fn follow(
        &mut self,
        functions: &F,
        until: Until,
        place: ContextId,
    ) -> Option<Result<OutcomeOf<F>, Refused>>
        ensures { RunsUntil ⟦<MemoryReceipt as Receipt>⟧.stands (IsEntryIn F.Key.codec F.Value.codec) F.Key.cmp F.parts.joined F.meaning F.code until place self.new result 10000
            (first_step self.old.state.partitions until place) self.old }
    {
        let mut step = self.first(until, place);
        for _ in 0..LIMIT {
            let Some(told) = self.try_step(functions, step) else {
                return None;
            };
            let Some(next) = following::<F>(until, place, &told) else {
                return Some(told);
            };
            step = next;
        }
        Some(Err(Refused::Stalled))
    }
}
