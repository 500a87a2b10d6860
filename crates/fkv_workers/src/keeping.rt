//! Who moves the pages of a store while workers run.
ghost use Rattle.std.specs.Prelude.{◌≡◌, ◌<◌, length, IfOk, IfErr};
ghost use Rattle.fkv_functions.specs.declared.refusals.Refused.TheVariants as refused;
ghost use Rattle.fkv_store.specs.Stores.{IsTold};

use fkv_device::Disk;
use fkv_functions::{Mergeable, Refused};
use fkv_histories::Recorder;
use fkv_jobs::Keeper;
use fkv_store::{Events, Gate, Store};
use std::alloc::Global;
use std::sync::Wait;
use std::sync::atomic::{AtomicBool, AtomicU64, Ordering};

/// How many pages Head moves until a partition is compacted again.
const PAGES: u64 = 64;

/// The bytes of Head's way for which a compaction may make an event too many: a record has 48 to 64. So compactions make at most four
/// such events for each record that is appended.
const BYTES: u64 = 16;

/// The keeper of a store: where Head of each partition stood when it was compacted last.
#[derive(Drop)]
pub(crate) struct StoreKeeper<'a, F: Mergeable, D: Disk, H: Recorder<F>, G> {
    pub alloc: Global,
    pub store: &'a Store<F, D, H>,
    pub gate: &'a G,
    pub heads: Vec<AtomicU64>,
    /// The bytes that Head moves until then.
    pub span: u64,
}

/// Moves the pages of one partition, and compacts it, until it is told to stop, where its Head has moved far enough since the last
/// time.
fn keep_one<F: Mergeable, D: Disk, H: Recorder<F>, G: Gate>(
    rt: &impl Wait,
    keeper: &StoreKeeper<'_, F, D, H, G>,
    partition: usize,
    compacted: &AtomicU64,
    stop: &AtomicBool,
) -> Result<(), Refused>
    ensures { IfErr result IsTold }
{
    let head = match keeper.store.tidy(rt, keeper.alloc, partition, keeper.gate) {
        Ok(head) => head,
        Err(refused) => return Err(refused),
    };
    let last = compacted.load(Ordering::SeqCst);
    if head.saturating_sub(last) < keeper.span {
        return Ok(());
    }
    compacted.store(head, Ordering::SeqCst);
    let mut events = Events::within(keeper.span / BYTES);
    match keeper
        .store
        .compact_until(rt, partition, keeper.gate, &mut events, stop)
    {
        // one that took too long, or found no free session, is tried again when Head has moved on
        Ok(()) | Err(Refused::Stalled | Refused::NoSlot) => Ok(()),
        Err(refused) => Err(refused),
    }
}

impl<'a, F: Mergeable, D: Disk, H: Recorder<F>, G: Gate> Keeper for StoreKeeper<'a, F, D, H, G> {
    ghost fault = { λ _ refused. IsTold refused };

    fn turn<W: Wait>(&self, rt: &W, stop: &AtomicBool) -> Result<(), Refused> {
        for (partition, compacted) in self.heads.iter().enumerate() {
            match keep_one(rt, self, partition, compacted, stop) {
                Ok(()) => {}
                Err(refused) => return Err(refused),
            }
        }
        Ok(())
    }
}

/// The bytes of so many pages as Head moves between two compactions, where a page has 2 to this many.
fn span_of(page_bits: u64) -> u64
    requires { page_bits < 57 }
{
    PAGES << page_bits
}

/// So many places of Head, at which nothing was compacted. Refused: `NoMemory`.
fn fresh_heads(alloc: Global, count: usize) -> Result<Vec<AtomicU64>, Refused>
    ensures only { IfErr result (λ e. e ≡ refused.NoMemory) }
{
    let mut heads = Vec::new(alloc);
    for _ in 0..count {
        let Ok(()) = heads.push(AtomicU64::new(0)) else {
            return Err(Refused::NoMemory);
        };
    }
    Ok(heads)
}

/// The keeper of a store whose pages have 2 to so many bytes, before its first turn. Refused: `NoMemory`.
pub(crate) fn keeper_of<'a, F: Mergeable, D: Disk, H: Recorder<F>, G: Gate>(
    alloc: Global,
    store: &'a Store<F, D, H>,
    gate: &'a G,
    page_bits: u64,
) -> Result<StoreKeeper<'a, F, D, H, G>, Refused>
    requires { page_bits < 57 }
    ensures only { IfErr result (λ e. e ≡ refused.NoMemory) }
{
    let heads = match fresh_heads(alloc, store.partitions()) {
        Ok(heads) => heads,
        Err(refused) => return Err(refused),
    };
    Ok(StoreKeeper {
        alloc,
        store,
        gate,
        heads,
        span: span_of(page_bits),
    })
}
