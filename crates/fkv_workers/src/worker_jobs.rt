//! What workers are given, and what they hand back.
ghost use Rattle.std.specs.Prelude.{◌≡◌, ◌<◌, ◌⊎◌, ℕ, [], length, map, replicate, None, IfOk, IfErr, OnOk};
ghost use Rattle.std.specs.List.{All};
ghost use Rattle.fkv_functions.specs.declared.refusals.Refused.TheVariants as refused;
ghost use Rattle.fkv_store.specs.Stores.{IsUnopened};
ghost use Rattle.fkv_workers.specs.Works.{StandsFor, IsFirstFault};

use crate::sharing::Share;
use crate::waiting::none_wait;
use crate::working::{WorkerJob, WorkerResult};
use fkv_device::Disk;
use fkv_feeds::RowMode;
use fkv_functions::{Mergeable, Name, Refused};
use fkv_histories::Recorder;
use fkv_store::{Pass, Store};
use std::alloc::Global;
use std::sync::Wait;

/// The work of each worker: its share of the feeds, and a pass of its own. Refused: `NoMemory`, and as the device refuses to open.
pub(crate) fn jobs<'a, C: Share, F: Mergeable<Key = Name, Input = i64>, D: Disk, H: Recorder<F>, G>(
    rt: &impl Wait,
    alloc: Global,
    store: &'a Store<F, D, H>,
    gate: &'a G,
    mode: RowMode,
    shares: Vec<C>,
) -> Result<Vec<WorkerJob<'a, C, F, D, H, G>>, Refused>
    requires { 0 < store.now.count }
    ensures shares { IfOk result (λ jobs. map (λ job. job.share) jobs.items ≡ shares.items) }
    ensures ready { IfOk result (λ jobs. All (λ job. StandsFor H.keeps F.code job.mode job.pass []
        × (length job.pass.told ≡ job.store.now.count)
        × (map (λ rows. rows.items) job.waiting.items ≡ replicate job.store.now.count [])) jobs.items) }
    ensures modes { IfOk result (λ jobs. All (λ job. job.mode ≡ mode) jobs.items) }
    ensures only { IfErr result IsUnopened }
{
    let mut jobs = Vec::new(alloc);
    let mut worker = 0u32;
    for share in shares {
        let pass = match store.pass(rt, alloc, worker) {
            Ok(pass) => pass,
            Err(refused) => return Err(refused),
        };
        let waiting = match none_wait(alloc, store.partitions()) {
            Ok(waiting) => waiting,
            Err(refused) => return Err(refused),
        };
        let job = WorkerJob {
            alloc,
            store,
            gate,
            mode,
            pass,
            waiting,
            share,
        };
        let Ok(()) = jobs.push(job) else {
            return Err(Refused::NoMemory);
        };
        worker = worker.wrapping_add(1);
    }
    Ok(jobs)
}

/// The passes of workers, in order. Refused: as the first of them stopped that did before its feeds ended, and `NoMemory`.
pub(crate) fn passes_of<F: Mergeable, D: Disk, H: Recorder<F>, R: Drop>(
    alloc: Global,
    results: Vec<WorkerResult<F, D, H, R>>,
) -> Result<Vec<Pass<F, D, H>>, Refused>
    ensures ok { IfOk result (λ passes. passes.items ≡ map (λ w. w.pass) results.items) }
    ensures none { OnOk result (All (λ fault. fault ≡ None) (map (λ w. w.fault) results.items)) }
    ensures refused { IfErr result (λ e. (e ≡ refused.NoMemory) ⊎ IsFirstFault (map (λ w. w.fault) results.items) e) }
{
    let mut passes = Vec::new(alloc);
    for one in results {
        let WorkerResult { pass, fault, .. } = one;
        match fault {
            None => {}
            Some(refused) => return Err(refused),
        }
        let Ok(()) = passes.push(pass) else {
            return Err(Refused::NoMemory);
        };
    }
    Ok(passes)
}
