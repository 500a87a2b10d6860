//! Parts run in worlds. What a world refuses for want of memory is called again once, so that the lines of a part print the
//! same where one allocation of the world fails.
use crate::lines::{Call, Part, part_of};
use crate::printing::{add_report, add_told};
use fkv_functions::{Refused, SumFns};
use fkv_lives::{OutcomeOf, Step, StepOf};
use fkv_worlds::{ReportOf, World, replay};
use std::alloc::Global;

/// What a step or a run tells.
type Told = Result<OutcomeOf<SumFns>, Refused>;

/// What a step tells that was refused for want of memory, done again. A write has used its page, so that is taken
/// again.
fn told_again(world: &mut World<SumFns>, step: StepOf<SumFns>) -> Told {
    if let Step::Write(partition, _) = step {
        let _taken = world.step(&SumFns, Step::Take(partition));
    }
    world.step(&SumFns, step)
}

/// What a call tells.
fn told_by(world: &mut World<SumFns>, call: Call) -> Told {
    match call {
        Call::Step(step) => match world.step(&SumFns, step) {
            Err(Refused::NoMemory) => told_again(world, step),
            told => told,
        },
        Call::Ready(place) => world.ready(&SumFns, place),
        Call::Finish(place) => world.finish(&SumFns, place),
    }
}

/// Does the calls in turn, and answers the lines that they print. Refused: `NoMemory`.
fn drive(alloc: Global, world: &mut World<SumFns>, calls: &[Call]) -> Result<Vec<u8>, Refused> {
    let mut text = Vec::new(alloc);
    for call in calls {
        let told = told_by(world, *call);
        if add_told(&mut text, &told).is_err() {
            return Err(Refused::NoMemory);
        }
    }
    Ok(text)
}

/// The report of a world, asked for again where memory is refused once.
fn report(alloc: Global, world: &World<SumFns>) -> Result<ReportOf<SumFns>, Refused> {
    match world.report(&SumFns, alloc) {
        Err(Refused::NoMemory) => world.report(&SumFns, alloc),
        report => report,
    }
}

/// The steps of the calls, where each is one step.
fn steps_of(alloc: Global, calls: &[Call]) -> Result<Option<Vec<StepOf<SumFns>>>, Refused> {
    let mut steps = Vec::new(alloc);
    for call in calls {
        let Call::Step(step) = call else {
            return Ok(None);
        };
        if steps.push(*step).is_err() {
            return Err(Refused::NoMemory);
        }
    }
    Ok(Some(steps))
}

fn is_alike(one: &ReportOf<SumFns>, other: &ReportOf<SumFns>) -> bool {
    one.outcomes == other.outcomes && one.lives == other.lives && one.map == other.map
}

/// Whether a replay of the part reports the same; none where a call of it is several steps.
fn is_replayed(
    alloc: Global,
    part: &Part,
    report: &ReportOf<SumFns>,
) -> Result<Option<bool>, Refused> {
    let Some(steps) = steps_of(alloc, &part.calls)? else {
        return Ok(None);
    };
    let again = replay(alloc, &part.config, &SumFns, &steps)?;
    Ok(Some(is_alike(report, &again)))
}

/// The lines that the calls of a part print in a world of their own, and the report of that world. Refused: `BadConfig`;
/// `NoMemory`.
pub fn driven(alloc: Global, part: &Part) -> Result<(Vec<u8>, ReportOf<SumFns>), Refused> {
    let mut world = World::new(alloc, &part.config)?;
    let text = drive(alloc, &mut world, &part.calls)?;
    let report = report(alloc, &world)?;
    Ok((text, report))
}

/// The text that a part prints. Refused: as [`part_of`]; `BadConfig`; `NoMemory`.
pub fn text_of(alloc: Global, text: &str) -> Result<Vec<u8>, Refused> {
    let part = part_of(alloc, text)?;
    let (mut text, report) = driven(alloc, &part)?;
    let replayed = match is_replayed(alloc, &part, &report)? {
        Some(true) => "replayed alike",
        Some(false) => "replayed otherwise",
        None => "not replayed",
    };
    match add_report(&mut text, &report, replayed) {
        Ok(()) => Ok(text),
        Err(_) => Err(Refused::NoMemory),
    }
}
