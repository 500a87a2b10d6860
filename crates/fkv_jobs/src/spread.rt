//! Jobs that are spread over a few threads, with no keeper beside them.
ghost use Rattle.std.specs.Prelude.{◌≡◌, ◌<◌, All, Some, IsSome, map, IfOk, IfErr};
ghost use Rattle.std.specs.List.{AllZip};
ghost use Rattle.std.specs.Option.{IsSomeAnd};
ghost use Rattle.fkv_jobs.specs.Spread.{HasTurned};

use crate::jobs::Job;
use fkv_functions::Refused;
use std::alloc::Global;
use std::rt::Clock;
use std::sync::Wait;
use std::thread;
use std::thread::Threads;

/// A job, and then what it gave.
#[derive(Drop)]
struct Slot<J, O> {
    job: Option<J>,
    given: Option<O>,
}

/// A slot for each of these jobs, in order. Refused: `NoMemory`.
fn slots_of<J: Drop, O: Drop>(alloc: Global, jobs: Vec<J>) -> Result<Vec<Slot<J, O>>, Refused>
    ensures ok { IfOk result (λ slots. map (λ slot. slot.job) slots.items ≡ map Some jobs.items) }
    ensures only { IfErr result (λ refused. refused ≡ Refused.NoMemory) }
{
    let mut slots = Vec::new(alloc);
    for job in jobs {
        let slot = Slot {
            job: Some(job),
            given: None,
        };
        let Ok(()) = slots.push(slot) else {
            return Err(Refused::NoMemory);
        };
    }
    Ok(slots)
}

/// Does the job of a slot, and puts what it gave there.
fn turn<J: Job, W: Wait + Clock>(rt: &W, slot: &mut Slot<J, J::Output>)
    requires { IsSomeAnd slot.old.job J.ready }
    ensures { HasTurned J.gives slot.old slot.new }
{
    let Some(job) = slot.job.take() else {
        return;
    };
    slot.given = Some(job.run(rt));
}

/// Does the jobs of these slots, in at most so many threads.
fn turn_all<J: Job + Send, T: Threads + Wait + Clock + Sync>(
    rt: &T,
    threads: usize,
    slots: &mut [Slot<J, J::Output>],
)
where
    J::Output: Send,
    requires some { 0 < threads }
    requires asked { All (λ slot. IsSomeAnd slot.job J.ready) slots.old }
    ensures { AllZip (HasTurned J.gives) slots.old slots.new }
{
    let do_one = |_place: usize, slot: &mut Slot<J, J::Output>|
        requires { IsSomeAnd slot.now.job J.ready }
        ensures { HasTurned J.gives slot.entry.now slot.exit.now }
    { turn(rt, slot) };
    thread::for_each_mut(rt, slots, threads, &do_one);
}

/// What the jobs of these slots gave, in order. Refused: `NoMemory`.
fn given_by<J: Drop, O: Drop>(alloc: Global, slots: Vec<Slot<J, O>>) -> Result<Vec<O>, Refused>
    requires { All (λ slot. IsSome slot.given) slots.items }
    ensures ok { IfOk result (λ results. map Some results.items ≡ map (λ slot. slot.given) slots.items) }
    ensures only { IfErr result (λ refused. refused ≡ Refused.NoMemory) }
{
    let mut results = Vec::new(alloc);
    for slot in slots {
        let Slot { given, .. } = slot;
        let Some(given) = given else {
            unreachable!();
        };
        let Ok(()) = results.push(given) else {
            return Err(Refused::NoMemory);
        };
    }
    Ok(results)
}

/// Does each job, in at most so many threads, and gives what each gave, in the order of the jobs. A thread does jobs that stand
/// one behind another, in their order; the caller's is one of the threads, and where no other can be made it does them all.
///
/// # Errors
///
/// `NoMemory`, where there is no room for the jobs or for what they give.
pub fn run_spread<J: Job + Send, T: Threads + Wait + Clock + Sync>(
    rt: &T,
    alloc: Global,
    threads: usize,
    jobs: Vec<J>,
) -> Result<Vec<J::Output>, Refused>
where
    J::Output: Send,
    requires some { 0 < threads }
    requires ready { All J.ready jobs.items }
    ensures ok { IfOk result (λ results. AllZip J.gives jobs.items results.items) }
    ensures only { IfErr result (λ refused. refused ≡ Refused.NoMemory) }
{
    let mut slots = match slots_of::<J, J::Output>(alloc, jobs) {
        Ok(slots) => slots,
        Err(refused) => return Err(refused),
    };
    turn_all(rt, threads, slots.as_mut_slice());
    given_by(alloc, slots)
}
