//! A world: partitions that are driven by single steps, with what became of each operation.
ghost use Rattle.std.specs.Prelude.{◌≡◌, ◌≢◌, ◌⊎◌, ◌∷◌, [], ◌++◌, Err, IfOk, IfErr, IfSome, IfNone};
ghost use Rattle.fkv_records.specs.Records.{size_of};
ghost use Rattle.fkv_hybrid.specs.Spelled.{IsEntryIn};
ghost use Rattle.fkv_partition.specs.Limits.{IsWithinLimits};
ghost use Rattle.fkv_worlds.specs.States.{empty_world};
ghost use Rattle.fkv_worlds.specs.Acts.{Steps};
ghost use Rattle.fkv_worlds.specs.Reports.{IsStepTaken};
ghost use Rattle.fkv_worlds.specs.Headline.{IsHeadline};

use crate::states::State;
use fkv_device::{MemoryReceipt, Receipt};
use fkv_functions::{Mergeable, Refused};
use fkv_lives::outcomes::OutcomeOf;
use fkv_lives::steps::StepOf;
use fkv_partition::Config;
use std::alloc::Global;
use std::marker::Model;

/// Partitions that are driven by single steps. Each step that is not refused takes the next moment, its
/// number from 1. The world keeps what became of each operation that was issued (its lives), and each step with its
/// outcome, refused ones included.
#[derive(Drop)]
pub struct World<F: Mergeable> {
    pub(crate) state: State<F>,
    pub(crate) steps: Vec<StepOf<F>>,
    pub(crate) outcomes: Vec<Result<OutcomeOf<F>, Refused>>,
}

impl<F: Mergeable> Model for World<F> {
    ghost use Rattle.fkv_device.specs.declared.memory.MemoryReceipt.{MemoryReceipt};
    ghost use Rattle.fkv_worlds.specs.States.{WorldView};
    ghost use Rattle.fkv_worlds.specs.Sound.{IsRecorded};

    ghost Value = { WorldView F.Key F.Value F.Input F.Output MemoryReceipt };

    ghost view = { λ w. record { state = w.state; steps = w.steps.items; outcomes = w.outcomes.items } };

    ghost invariant = { λ w. IsRecorded w.state w.steps.items w.outcomes.items };
}

impl<F: Mergeable> World<F> {
    /// A world before its first step. Refused, in this order: `BadConfig` where a number of the
    /// configuration is outside its limits, `NoMemory`.
    pub fn new(alloc: Global, config: &Config) -> Result<Self, Refused>
        ensures ok { IfOk result (λ world. world ≡ empty_world F.MERGES config.now (size_of F.Key.SIZE F.Value.SIZE)) }
        ensures good { result ≢ Err Refused.BadConfig → IsWithinLimits config.now (size_of F.Key.SIZE F.Value.SIZE) }
        ensures bad { result ≡ Err Refused.BadConfig → ¬ IsWithinLimits config.now (size_of F.Key.SIZE F.Value.SIZE) }
        ensures only { IfErr result (λ refused. (refused ≡ Refused.BadConfig) ⊎ (refused ≡ Refused.NoMemory)) }
    {
        match State::new(alloc, config) {
            Ok(state) => Ok(World {
                state,
                steps: Vec::new(alloc),
                outcomes: Vec::new(alloc),
            }),
            Err(refused) => Err(refused),
        }
    }

    /// Does a step and keeps it with its outcome, which it answers; `None` where there is no memory to keep them, and
    /// then nothing is done. [`World::step`] has what is refused.
    pub fn try_step(
        &mut self,
        functions: &F,
        step: StepOf<F>,
    ) -> Option<Result<OutcomeOf<F>, Refused>>
        ensures kept { IfSome result (IsStepTaken ⟦<MemoryReceipt as Receipt>⟧.stands (IsEntryIn F.Key.codec F.Value.codec) F.Key.cmp F.parts.joined F.meaning F.code self.old self.new step) }
        ensures none { IfNone result (self.new ≡ self.old) }
    {
        let Ok(()) = self.steps.try_reserve(1) else {
            return None;
        };
        let Ok(()) = self.outcomes.try_reserve(1) else {
            return None;
        };
        self.state.sound();
        let result = self.state.act(functions, step);
        // there is room for both
        let _noted = self.steps.push(step);
        let _kept = self.outcomes.push(result);
        self.headline();
        Some(result)
    }

    /// Does a step and answers its outcome; both are kept. Refused, in this order: `NoMemory` where there
    /// is no memory to keep them, and then nothing is done; `Unknown` where there is no such
    /// partition; `NotReady` where nothing was asked for that is to be installed in an open context, or written; `Worn` where
    /// no moment is left; `NoMemory` where there is none for the life of an issue; and what the partition refuses, which is
    /// `Unknown` or `NotReady` too of a load for which no page was asked.
    /// A refused step takes no moment and changes nothing but the lists of steps and outcomes, with two exceptions: a write spends
    /// the page that was taken, and a load whose page could not be read, or is damaged, ends its operation without effect
    /// and takes its moment.
    pub fn step(&mut self, functions: &F, step: StepOf<F>) -> Result<OutcomeOf<F>, Refused>
        ensures effect { Steps ⟦<MemoryReceipt as Receipt>⟧.stands (IsEntryIn F.Key.codec F.Value.codec) F.Key.cmp F.parts.joined F.meaning F.code self.old self.new step result }
        ensures headline { IsHeadline F.Key.cmp F.meaning F.code self.new }
    {
        let told = self.try_step(functions, step);
        self.headline();
        match told {
            Some(result) => result,
            None => Err(Refused::NoMemory),
        }
    }

    /// What holds of every world: the headline.
    pub fn headline(&self)
        ensures { IsHeadline F.Key.cmp F.meaning F.code self.now }
    {
        self.state.sound();
    }
}
