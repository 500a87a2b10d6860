//! What another thread does over and over, while jobs run.
ghost use Rattle.std.specs.Prelude.{◌≡◌, IfErr};
ghost use Rattle.fkv_functions.specs.declared.refusals.Refused.{Refused};

use fkv_functions::Refused;
use std::rt::Clock;
use std::snapshot::Snapshot;
use std::sync::Wait;
use std::sync::atomic::{AtomicBool, Ordering};
use std::thread;
use std::thread::Promise;
use std::time::Duration;

/// The milliseconds that it rests between two turns, so that jobs have the processors and the locks.
const PAUSE: u64 = 1;

/// What another thread does over and over until it is told to stop.
pub trait Keeper {
    /// Why a turn may be refused.
    ghost fault: { Self → Refused → Type 0 };

    /// One turn, which may end early where it is told to stop. After a refused one there is no other.
    fn turn<W: Wait>(&self, rt: &W, stop: &AtomicBool) -> Result<(), Refused>
        ensures { IfErr result (fault self.now) };
}

/// What a keeper was, for the promise of its thread.
#[derive(Drop)]
pub struct KeeperSnapshot<K>(Snapshot<K>);

impl<K> KeeperSnapshot<K> {
    /// This keeper.
    pub fn by(keeper: &K) -> KeeperSnapshot<K>
        ensures { result.0.value ≡ keeper.now }
    {
        KeeperSnapshot(Snapshot::of(keeper))
    }
}

impl<K: Keeper> Promise<Result<(), Refused>> for KeeperSnapshot<K> {
    ghost kept_by = { λ p r. IfErr r (K.fault p.0.value) };
}

/// Turns until it is told to stop, or a turn is refused: then so is this.
pub fn keep<K: Keeper, W: Wait + Clock>(
    rt: &W,
    keeper: &K,
    stop: &AtomicBool,
) -> Result<(), Refused>
    ensures { IfErr result (K.fault keeper.now) }
{
    for _ in rt.forever() {
        if stop.load(Ordering::SeqCst) {
            return Ok(());
        }
        match keeper.turn(rt, stop) {
            Ok(()) => thread::sleep(rt, Duration::from_millis(PAUSE)),
            Err(refused) => return Err(refused),
        }
    }
    Ok(())
}
