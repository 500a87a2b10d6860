//! What a thread does over the store that all share.
use crate::counters::CounterFns;
use crate::mixes::Mix;
use fkv_device::Disk;
use fkv_functions::Refused;
use fkv_histories::Recorder;
use fkv_jobs::Job;
use fkv_operations::KeyedOp;
use fkv_store::{Open, Pass, Store};
use std::alloc::Global;
use std::rt::Clock;
use std::sync::Wait;
use std::time::{Duration, Instant};

/// A store of counters that threads share.
pub type SharedStore<D, H> = Store<CounterFns, D, H>;

/// What one thread is to do.
#[derive(Drop)]
pub struct Work<'a, D: Disk, H: Recorder<CounterFns>> {
    pub alloc: Global,
    pub store: &'a SharedStore<D, H>,
    pub pass: Pass<CounterFns, D, H>,
    pub keys: Vec<u64>,
    pub mix: Mix,
    /// Whether an update is a merge where it would read a page.
    pub merge: bool,
}

/// What a thread hands back: its pass, which rests, the time that its operations took, and why it stopped, if it did before
/// its end.
#[derive(Drop)]
pub struct Worked<D: Disk, H: Recorder<CounterFns>> {
    pub pass: Pass<CounterFns, D, H>,
    pub took: Duration,
    pub fault: Option<Refused>,
}

impl<'a, D: Disk, H: Recorder<CounterFns>> Work<'a, D, H> {
    /// Makes each operation, in order, and rests. Refused as the pass is.
    fn make_all<W: Wait + Clock>(&mut self, rt: &W) -> Result<(), Refused> {
        for (place, key) in self.keys.iter().enumerate() {
            match self.mix.op(place, *key) {
                KeyedOp::Rmw(key, input) if self.merge => {
                    self.pass
                        .update_or_merge(rt, self.alloc, self.store, key, input, &Open)?;
                }
                op => {
                    let _answer = self.pass.run(rt, self.alloc, self.store, op, &Open)?;
                }
            }
        }
        self.pass.rest(rt, self.store)
    }
}

/// The time since then, or 0 where the clock tells none.
pub fn since<W: Clock>(rt: &W, begun: Option<Instant>) -> Duration {
    match begun {
        Some(begun) => begun.elapsed(rt).unwrap_or_default(),
        None => Duration::ZERO,
    }
}

impl<'a, D: Disk, H: Recorder<CounterFns>> Job for Work<'a, D, H> {
    type Output = Worked<D, H>;

    ghost ready = { λ _. Unit {0} };

    ghost gives = { λ _ _. Unit {0} };

    fn run<W: Wait + Clock>(self, rt: &W) -> Worked<D, H> {
        let mut work = self;
        let begun = Instant::now(rt).ok();
        let made = match work.mix {
            Mix::Nothing => Ok(()),
            _ => work.make_all(rt),
        };
        let took = since(rt, begun);
        let Work { pass, .. } = work;
        Worked {
            pass,
            took,
            fault: made.err(),
        }
    }
}
