//! A run over the store of one thread.
use crate::asking::Plan;
use crate::counters::CounterFns;
use crate::drawing::Drawer;
use crate::mixes::Mix;
use crate::outcomes::Outcome;
use crate::working::since;
use fkv_device::Disk;
use fkv_functions::Refused;
use fkv_local::LocalStore;
use fkv_operations::KeyedOp;
use std::alloc::Global;
use std::rt::Clock;
use std::time::{CpuClock, Instant};

/// Makes each operation, in order. Refused as the store is.
fn make_all<D: Disk>(
    store: &mut LocalStore<CounterFns, D>,
    plan: &Plan<'_>,
    keys: &[u64],
) -> Result<(), Refused> {
    if plan.mix == Mix::Nothing {
        return Ok(());
    }
    for (place, key) in keys.iter().enumerate() {
        let _answer = match plan.mix.op(place, *key) {
            KeyedOp::Rmw(key, input) if plan.merge => store.merge(&key, &input)?,
            KeyedOp::Rmw(key, input) => store.rmw(&key, &input)?,
            op => store.run(op)?,
        };
    }
    Ok(())
}

/// Loads a store over this device, and makes the operations.
pub fn run_local<R: Clock + CpuClock, D: Disk>(
    rt: &R,
    alloc: Global,
    plan: &Plan<'_>,
    device: D,
) -> Result<Outcome, Refused> {
    let mut device = device;
    let mut store = LocalStore::open(alloc, &plan.config, CounterFns, &mut device)?;
    for value in 0..plan.keys {
        let _stored = store.upsert(&value, &0)?;
    }
    let keys = Drawer::new(plan.law, plan.keys).list(alloc, plan.operations, plan.seed)?;
    let before = rt.process_cpu_time().unwrap_or_default();
    let begun = Instant::now(rt).ok();
    make_all(&mut store, plan, keys.as_slice())?;
    let took = since(rt, begun);
    let after = rt.process_cpu_time().unwrap_or_default();
    Ok(Outcome {
        took,
        processor: after.saturating_sub(before),
        map: store.into_map()?,
    })
}
