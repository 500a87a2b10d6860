//! Jobs in threads of their own. Only this file starts threads.
ghost use Rattle.std.specs.Prelude.{◌≡◌, All, Err, IfOk, IfErr};
ghost use Rattle.fkv_jobs.specs.Runs.{HaveRun};

use crate::keepers::{Keeper, KeeperSnapshot, keep};
use fkv_functions::Refused;
use std::alloc::Global;
use std::rt::Clock;
use std::snapshot::Snapshot;
use std::sync::Wait;
use std::sync::atomic::{AtomicBool, Ordering};
use std::thread;
use std::thread::{Promise, Threads};

/// What one thread does, from its own values to its result.
pub trait Job: Drop {
    type Output: Drop;

    /// What is needed of a job.
    ghost ready: { Self → Type 0 };

    /// What is known of its result.
    ghost gives: { Self → Self.Output → Type 0 };

    /// Does it.
    fn run<W: Wait + Clock>(self, rt: &W) -> Self::Output
        requires { ready self }
        ensures { gives self result };
}

/// What jobs gave, and how their keeper ended.
#[derive(Drop)]
pub struct JobResults<O> {
    /// What each job gave, in the order of the jobs.
    pub results: Vec<O>,
    /// `Ok` where the keeper was told to stop, or why a turn of it was refused.
    pub kept: Result<(), Refused>,
}

/// What a job was, for the promise of its thread.
#[derive(Drop)]
struct Asked<J>(Snapshot<J>);

impl<J: Job> Promise<J::Output> for Asked<J> {
    ghost kept_by = { λ p w. J.gives p.0.value w };
}

/// Tells the keeper to stop, since memory is short.
fn halt<O>(stop: &AtomicBool) -> Result<JobResults<O>, Refused>
    ensures { result ≡ Err Refused.NoMemory }
{
    stop.store(true, Ordering::SeqCst);
    Err(Refused::NoMemory)
}

/// Runs each job in a thread of its own, with the keeper in another one, which turns until the jobs have ended.
///
/// # Errors
///
/// `NoMemory`, where a thread can not be made, or there is no room for what the threads are or give. Jobs that were
/// started have ended then as well, and the keeper too, but what they gave is gone.
pub fn run_jobs<J: Job + Send, K: Keeper + Sync, T: Threads + Wait + Clock + Sync>(
    rt: &T,
    alloc: Global,
    keeper: &K,
    jobs: Vec<J>,
) -> Result<JobResults<J::Output>, Refused>
where
    J::Output: Send,
    requires { All J.ready jobs.items }
    ensures ok { IfOk result (HaveRun J.gives (K.fault keeper.now) jobs.items) }
    ensures only { IfErr result (λ refused. refused ≡ Refused.NoMemory) }
{
    let stop = AtomicBool::new(false);
    let stop = &stop;
    thread::scope(
        thread::scope_env(),
        rt,
        |scope| -> Result<JobResults<J::Output>, Refused>
            requires { All J.ready jobs.items }
            ensures ok { IfOk result (HaveRun J.gives (K.fault keeper.entry.now) jobs.items) }
            ensures only { IfErr result (λ refused. refused ≡ Refused.NoMemory) }
        {
            let Ok(mut handles) = Vec::with_capacity(alloc, jobs.len()) else {
                return Err(Refused::NoMemory);
            };
            let turns = move || -> Result<(), Refused>
                ensures { IfErr result (K.fault keeper.entry.now) }
            { keep(rt, keeper, stop) };
            let Ok(keeping) = scope.spawn_with(KeeperSnapshot::by(keeper), turns) else {
                return Err(Refused::NoMemory);
            };
            for job in jobs {
                let asked = Asked(Snapshot::of(&job));
                let go = move || -> J::Output
                    requires { J.ready job }
                    ensures { J.gives job result }
                { job.run(rt) };
                let Ok(child) = scope.spawn_with(asked, go) else {
                    return halt(stop);
                };
                let Ok(()) = handles.push(child) else {
                    return halt(stop);
                };
            }
            let results = thread::join_promised(rt, handles);
            stop.store(true, Ordering::SeqCst);
            let kept = keeping.join(rt);
            let Ok(results) = results else {
                return Err(Refused::NoMemory);
            };
            Ok(JobResults { results, kept })
        },
    )
}
