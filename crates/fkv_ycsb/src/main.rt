//! How fast the library is: loads so many keys, makes read-modify-writes, or reads and upserts, of keys that are drawn alike or by
//! Zipf's law, and tells what they took. A run whose values are not what its operations come to fails.
#![tactic(auto)]

mod asking;
mod counters;
mod drawing;
mod keeping;
mod lone;
mod mixes;
mod outcomes;
mod sharing;
mod working;

use crate::asking::{Kind, Plan, command, plan_by};
use crate::counters::CounterFns;
use crate::lone::run_local;
use crate::outcomes::Outcome;
use crate::sharing::run_shared;
use anyhow::{Context, Result, bail};
use fkv_device::{Disk, FileDevice, MemoryDevice, PageFile};
use fkv_functions::Refused;
use fkv_histories::{Audited, Plain};
use std::alloc::Global;
use std::env::{self, Env};
use std::fs::Files;
use std::rt::Clock;
use std::sync::Wait;
use std::thread::Threads;
use std::time::CpuClock;

/// The run that is asked for, over this device.
fn run_on<R: Threads + Wait + Clock + CpuClock + Sync, D: Disk + Send>(
    rt: &R,
    alloc: Global,
    plan: &Plan<'_>,
    device: D,
) -> Result<Outcome, Refused>
where
    D::Receipt: Send,
    D::Writer: Send,
    D::Reader: Send,
{
    match plan.kind {
        Kind::Shared => run_shared::<R, D, Plain>(rt, alloc, plan, device),
        Kind::Audited => run_shared::<R, D, Audited<CounterFns>>(rt, alloc, plan, device),
        Kind::Local => run_local(rt, alloc, plan, device),
    }
}

/// The run that is asked for.
fn run<R: Files + Threads + Wait + Clock + CpuClock + Sync>(
    rt: &R,
    alloc: Global,
    plan: &Plan<'_>,
) -> Result<Outcome, Refused>
where
    R::File: PageFile + Send,
    R::Dir: Send,
{
    let Some(folder) = plan.folder else {
        return run_on(rt, alloc, plan, MemoryDevice::new(alloc));
    };
    let Ok(folder) = String::from_str(alloc, folder) else {
        return Err(Refused::NoMemory);
    };
    let page_bits = u32::try_from(plan.config.page_bits).unwrap_or(u32::MAX);
    run_on(
        rt,
        alloc,
        plan,
        FileDevice::new(rt, alloc, folder, page_bits),
    )
}

fn main(rt: HostRuntime) -> Result<()> {
    let alloc = rt.alloc();
    let words: Vec<String> = env::args(&rt)?.collect(alloc)?;
    let matches = match command(alloc)?.try_get_matches_from(words.as_slice()) {
        Ok(matches) => matches,
        Err(error) => {
            print!(rt; "{error}")?;
            bail!("no plan");
        }
    };
    let plan = plan_by(&matches).context("a word names no mix, law or store")?;
    let outcome = run(&rt, alloc, &plan)?;
    outcome.tell(&rt, &plan)?;
    if !outcome.is_right(&plan) {
        bail!("the values are not what the operations come to");
    }
    Ok(())
}
