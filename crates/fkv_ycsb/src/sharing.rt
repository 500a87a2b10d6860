//! A run over the store that threads share.
use crate::asking::Plan;
use crate::counters::CounterFns;
use crate::drawing::{Drawer, in_order};
use crate::keeping::{PageKeeper, fresh_heads, span_of};
use crate::mixes::Mix;
use crate::outcomes::Outcome;
use crate::working::{SharedStore, Work, Worked};
use fkv_device::Disk;
use fkv_functions::Refused;
use fkv_histories::Recorder;
use fkv_jobs::run_jobs;
use fkv_store::{Pass, Store};
use std::alloc::Global;
use std::rt::Clock;
use std::sync::Wait;
use std::thread::Threads;
use std::time::{CpuClock, Duration};

/// The passes of a store whose threads have ended.
type Passes<D, H> = Vec<Pass<CounterFns, D, H>>;

/// What each thread loads.
fn loads(alloc: Global, plan: &Plan<'_>) -> Result<Vec<Vec<u64>>, Refused> {
    let share = plan.keys.div_ceil(plan.threads.max(1));
    let mut lists = Vec::new(alloc);
    for thread in 0..plan.threads {
        let first = thread.saturating_mul(share).min(plan.keys);
        let list = in_order(alloc, first, first.saturating_add(share).min(plan.keys))?;
        let Ok(()) = lists.push(list) else {
            return Err(Refused::NoMemory);
        };
    }
    Ok(lists)
}

/// What each thread draws.
fn draws(alloc: Global, plan: &Plan<'_>) -> Result<Vec<Vec<u64>>, Refused> {
    let drawer = Drawer::new(plan.law, plan.keys);
    let mut lists = Vec::new(alloc);
    for thread in 0..plan.threads {
        let list = drawer.list(alloc, plan.operations, plan.seed.wrapping_add(thread))?;
        let Ok(()) = lists.push(list) else {
            return Err(Refused::NoMemory);
        };
    }
    Ok(lists)
}

/// The work of each thread, with a pass of its own.
fn works<'a, R: Wait, D: Disk, H: Recorder<CounterFns>>(
    rt: &R,
    alloc: Global,
    plan: &Plan<'_>,
    store: &'a SharedStore<D, H>,
    mix: Mix,
    lists: Vec<Vec<u64>>,
) -> Result<Vec<Work<'a, D, H>>, Refused> {
    let mut works = Vec::new(alloc);
    let mut worker = 0u32;
    for keys in lists {
        let work = Work {
            alloc,
            store,
            pass: store.pass(rt, alloc, worker)?,
            keys,
            mix,
            merge: plan.merge,
        };
        worker = worker.wrapping_add(1);
        let Ok(()) = works.push(work) else {
            return Err(Refused::NoMemory);
        };
    }
    Ok(works)
}

/// Takes the passes of threads that have ended. Answers the time of the one that took longest. Refused as the first of them was.
fn ended<D: Disk, H: Recorder<CounterFns>>(
    workers: Vec<Worked<D, H>>,
    passes: &mut Passes<D, H>,
) -> Result<Duration, Refused> {
    let mut longest = Duration::ZERO;
    for worked in workers {
        let Worked { pass, took, fault } = worked;
        if let Some(refused) = fault {
            return Err(refused);
        }
        longest = longest.max(took);
        let Ok(()) = passes.push(pass) else {
            return Err(Refused::NoMemory);
        };
    }
    Ok(longest)
}

/// Has threads do this to these keys, a list each. Answers the time of the one that took longest.
fn make<R: Threads + Wait + Clock + Sync, D: Disk + Send, H: Recorder<CounterFns> + Send>(
    rt: &R,
    alloc: Global,
    plan: &Plan<'_>,
    store: &SharedStore<D, H>,
    mix: Mix,
    lists: Vec<Vec<u64>>,
    passes: &mut Passes<D, H>,
) -> Result<Duration, Refused>
where
    D::Receipt: Send,
    D::Writer: Send,
    D::Reader: Send,
{
    let works = works(rt, alloc, plan, store, mix, lists)?;
    let keeper = PageKeeper {
        alloc,
        store,
        heads: fresh_heads(alloc, store.partitions())?,
        span: span_of(plan.config.page_bits),
    };
    let ran = run_jobs(rt, alloc, &keeper, works)?;
    ran.kept?;
    ended(ran.results, passes)
}

/// Loads a store over this device, and has each thread make its operations.
pub fn run_shared<
    R: Threads + Wait + Clock + CpuClock + Sync,
    D: Disk + Send,
    H: Recorder<CounterFns> + Send,
>(rt: &R, alloc: Global, plan: &Plan<'_>, device: D) -> Result<Outcome, Refused>
where
    D::Receipt: Send,
    D::Writer: Send,
    D::Reader: Send,
{
    let store = Store::<CounterFns, D, H>::open(alloc, &plan.config, CounterFns, device)?;
    let mut passes = Vec::new(alloc);
    let loads = loads(alloc, plan)?;
    make(rt, alloc, plan, &store, Mix::Load, loads, &mut passes)?;
    let draws = draws(alloc, plan)?;
    let before = rt.process_cpu_time().unwrap_or_default();
    let took = make(rt, alloc, plan, &store, plan.mix, draws, &mut passes)?;
    let after = rt.process_cpu_time().unwrap_or_default();
    let closed = store.close(alloc, passes)?;
    Ok(Outcome {
        took,
        processor: after.saturating_sub(before),
        map: closed.map,
    })
}
