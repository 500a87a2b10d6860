//! Lists of steps, replayed from nothing.
ghost use Rattle.std.specs.Prelude.{◌≡◌, ◌≢◌, ◌⊎◌, Err, IfOk, IfErr, OnOk};
ghost use Rattle.fkv_records.specs.Records.{size_of};
ghost use Rattle.fkv_hybrid.specs.Spelled.{IsEntryIn};
ghost use Rattle.fkv_partition.specs.Limits.{IsWithinLimits};
ghost use Rattle.fkv_worlds.specs.Headline.{IsHeadline};
ghost use Rattle.fkv_worlds.specs.Reports.{RunsTo, IsReport, IsReplay};

use crate::reports::ReportOf;
use crate::worlds::World;
use fkv_device::{MemoryReceipt, Receipt};
use fkv_functions::{Mergeable, Refused};
use fkv_lives::steps::StepOf;
use fkv_partition::Config;
use std::alloc::Global;

/// Does the steps in turn, each of them kept. Refused: `NoMemory` where an outcome could not be kept.
fn step_all<F: Mergeable>(
    world: &mut World<F>,
    functions: &F,
    steps: &[StepOf<F>],
) -> Result<(), Refused>
    ensures ok { OnOk result (RunsTo ⟦<MemoryReceipt as Receipt>⟧.stands (IsEntryIn F.Key.codec F.Value.codec) F.Key.cmp F.parts.joined F.meaning F.code world.old steps.now world.new) }
    ensures only { IfErr result (λ refused. refused ≡ Refused.NoMemory) }
{
    for step in steps {
        let Some(_told) = world.try_step(functions, *step) else {
            return Err(Refused::NoMemory);
        };
    }
    Ok(())
}

/// Does the steps in turn, and reports what became of the world. Refused: `NoMemory`.
fn run<F: Mergeable>(
    world: &mut World<F>,
    alloc: Global,
    functions: &F,
    steps: &[StepOf<F>],
) -> Result<ReportOf<F>, Refused>
    ensures ok { IfOk result (λ r. RunsTo ⟦<MemoryReceipt as Receipt>⟧.stands (IsEntryIn F.Key.codec F.Value.codec) F.Key.cmp F.parts.joined F.meaning F.code world.old steps.now world.new
        × IsReport F.Key.cmp F.code world.new r.outcomes.items r.lives.items r.map.items) }
    ensures headline { IsHeadline F.Key.cmp F.meaning F.code world.new }
    ensures only { IfErr result (λ refused. refused ≡ Refused.NoMemory) }
{
    let done = step_all(world, functions, steps);
    world.headline();
    match done {
        Ok(()) => world.report(functions, alloc),
        Err(refused) => Err(refused),
    }
}

/// Does the steps in turn in a world with nothing in it, and reports what became of them. A step that is
/// refused is an outcome like the others, and the replay goes on. Refused, in this order: `BadConfig`
/// where a number of the configuration is outside its limits, `NoMemory`.
pub fn replay<F: Mergeable>(
    alloc: Global,
    config: &Config,
    functions: &F,
    steps: &[StepOf<F>],
) -> Result<ReportOf<F>, Refused>
    ensures ok { IfOk result (λ r. IsReplay ⟦<MemoryReceipt as Receipt>⟧.stands (IsEntryIn F.Key.codec F.Value.codec) F.Key.cmp F.parts.joined F.meaning F.code F.MERGES config.now (size_of F.Key.SIZE F.Value.SIZE)
        steps.now
        r.outcomes.items r.lives.items r.map.items) }
    ensures good { result ≢ Err Refused.BadConfig → IsWithinLimits config.now (size_of F.Key.SIZE F.Value.SIZE) }
    ensures bad { result ≡ Err Refused.BadConfig → ¬ IsWithinLimits config.now (size_of F.Key.SIZE F.Value.SIZE) }
    ensures only { IfErr result (λ refused. (refused ≡ Refused.BadConfig) ⊎ (refused ≡ Refused.NoMemory)) }
{
    match World::new(alloc, config) {
        Ok(mut world) => run(&mut world, alloc, functions, steps),
        Err(refused) => Err(refused),
    }
}
