//! Who moves the pages of the store while threads work.
use crate::counters::CounterFns;
use crate::working::SharedStore;
use fkv_device::Disk;
use fkv_functions::Refused;
use fkv_histories::Recorder;
use fkv_jobs::Keeper;
use fkv_store::{Events, Open};
use std::alloc::Global;
use std::sync::Wait;
use std::sync::atomic::{AtomicBool, AtomicU64, Ordering};

/// How many pages Head moves until a partition is compacted again.
const PAGES: u64 = 64;

/// The keeper of a store: where Head of each partition stood when it was compacted last.
#[derive(Drop)]
pub struct PageKeeper<'a, D: Disk, H: Recorder<CounterFns>> {
    pub alloc: Global,
    pub store: &'a SharedStore<D, H>,
    pub heads: Vec<AtomicU64>,
    /// The bytes that Head moves until then.
    pub span: u64,
}

/// The bytes that Head moves between two compactions, where a page has 2 to this many.
pub fn span_of(page_bits: u64) -> u64 {
    PAGES << page_bits.min(20)
}

/// So many places of Head, at which nothing was compacted. Refused: `NoMemory`.
pub fn fresh_heads(alloc: Global, count: usize) -> Result<Vec<AtomicU64>, Refused> {
    let mut heads = Vec::new(alloc);
    for _ in 0..count {
        let Ok(()) = heads.push(AtomicU64::new(0)) else {
            return Err(Refused::NoMemory);
        };
    }
    Ok(heads)
}

impl<'a, D: Disk, H: Recorder<CounterFns>> PageKeeper<'a, D, H> {
    /// Moves the pages of one partition, and compacts it where its Head has moved far enough since the last time.
    fn keep_one(
        &self,
        rt: &impl Wait,
        partition: usize,
        compacted: &AtomicU64,
        stop: &AtomicBool,
    ) -> Result<(), Refused> {
        let head = self.store.tidy(rt, self.alloc, partition, &Open)?;
        let last = compacted.load(Ordering::SeqCst);
        if head.saturating_sub(last) < self.span {
            return Ok(());
        }
        compacted.store(head, Ordering::SeqCst);
        let mut events = Events::none();
        match self
            .store
            .compact_until(rt, partition, &Open, &mut events, stop)
        {
            // one that took too long, or found no free session, is tried again when Head has moved on
            Ok(()) | Err(Refused::Stalled | Refused::NoSlot) => Ok(()),
            Err(refused) => Err(refused),
        }
    }
}

impl<'a, D: Disk, H: Recorder<CounterFns>> Keeper for PageKeeper<'a, D, H> {
    ghost fault = { λ _ _. Unit {0} };

    fn turn<W: Wait>(&self, rt: &W, stop: &AtomicBool) -> Result<(), Refused> {
        for (partition, compacted) in self.heads.iter().enumerate() {
            self.keep_one(rt, partition, compacted, stop)?;
        }
        Ok(())
    }
}
