//! Operations of a pass that are done in one hold of a lock: writes where a key's last record stands, and reads in memory. Most operations
//! are such.
ghost use Rattle.std.specs.Prelude.{◌≡◌, ◌-◌, ◌^◌, ◌<◌, ◌≤◌, true, None, IfOk, IfSome};
ghost use Rattle.fkv_operations.specs.After.{key_of, is_merge};
ghost use Rattle.fkv_partition.specs.Views.{partition_of};
ghost use Rattle.fkv_store.specs.AtOnce.{IsDone};
ghost use Rattle.fkv_store.specs.Passes.{IsPassOf};

use crate::gates::{Gate, Place};
use crate::holds::{At, Turned};
use crate::passes::{Pass, has_session, is_fresh};
use crate::stores::Store;
use fkv_device::{Disk, Receipt};
use fkv_functions::{Mergeable, Refused};
use fkv_histories::Recorder;
use fkv_locked::{FinishedOf, Locked, SessionId};
use fkv_operations::{AnswerOf, KeyedOp, KeyedOpOf};
use std::sync::Wait;

/// Issues an operation with the lock of its partition held, and finishes it, where it is done at once. Answers `None`, and nothing
/// changes, where it is not.
#[inline(always)]
fn try_in_hold<F: Mergeable, R: Receipt, H: Recorder<F>>(
    held: &mut Locked<F, R, H>,
    session: SessionId,
    op: &KeyedOpOf<F>,
    told: u64,
    functions: &F,
) -> Result<Option<FinishedOf<F>>, Refused>
    ensures op_is { IfOk result (λ done. IfSome done (λ e. e.op ≡ op.now)) }
    ensures fresh { IfOk result (λ done. IfSome done (λ e. (told ≤ e.at) × (e.at < 2 ^ 64 - 1))) }
    ensures home { IfOk result (λ done. IfSome done (λ _. partition_of held.old.partition.count (F.code (key_of op.now))
        ≡ held.old.partition.number)) }
    ensures number { (held.new.partition.number ≡ held.old.partition.number)
        × (held.new.partition.count ≡ held.old.partition.count) }
{
    match op {
        KeyedOp::Read(key, input) => held.try_read_in_memory(session, key, input, told, functions),
        KeyedOp::Upsert(..) | KeyedOp::Rmw(..) | KeyedOp::Delete(_) | KeyedOp::Merge(..) => {
            held.try_write_in_place(session, op, told, functions)
        }
    }
}

impl<F: Mergeable, D: Disk, H: Recorder<F>> Pass<F, D, H> {
    /// Makes an operation in one hold of its partition's lock, where it is done at once: it writes where its key's last record stands,
    /// or reads in memory. Else nothing changes: what stands in its way is told where it runs by its events.
    #[inline(always)]
    pub(crate) fn try_at_once<G: Gate>(
        &mut self,
        rt: &impl Wait,
        store: &Store<F, D, H>,
        op: &KeyedOpOf<F>,
        gate: &G,
    ) -> Option<AnswerOf<F>>
        requires own { IsPassOf store.now self.old }
        ensures done { IfSome result
            (IsDone H.keeps self.old (partition_of store.now.count (F.code (key_of op.now))) op.now self.new) }
        ensures merging { IfSome result (λ _. is_merge op.now ≡ true → F.MERGES ≡ true) }
        ensures none { result ≡ None → self.new ≡ self.old }
    {
        if op.is_merge() && !F::MERGES {
            return None;
        }
        let partition = store.home(&op.key());
        let at = At {
            partition,
            worker: self.worker,
        };
        if !is_fresh(
            rt,
            store,
            &self.sessions,
            &mut self.seen,
            at.worker,
            &mut self.answered,
            gate,
        ) {
            return None;
        }
        if !has_session(rt, store, &mut self.sessions, at, gate) {
            return None;
        }
        let Some(session) = self.sessions[partition] else {
            return None;
        };
        let answered = self.answered;
        let Some(answer) = self.make_in_one(rt, store, at, session, op, gate) else {
            return None;
        };
        self.answered = answered + 1;
        gate.pass(at.worker, Place::Answered);
        Some(answer)
    }

    /// Makes an operation on a key of this partition in one hold of its lock, where it is done at once. Else nothing changes.
    #[inline(always)]
    fn make_in_one<G: Gate>(
        &mut self,
        rt: &impl Wait,
        store: &Store<F, D, H>,
        at: At,
        session: SessionId,
        op: &KeyedOpOf<F>,
        gate: &G,
    ) -> Option<AnswerOf<F>>
        requires here { at.partition < store.now.count }
        requires own { IsPassOf store.now self.old }
        ensures done { IfSome result (IsDone H.keeps self.old at.partition op.now self.new) }
        ensures none { result ≡ None → self.new ≡ self.old }
    {
        let mut held = store.locks[at.partition].lock(rt);
        gate.pass(at.worker, at.locked());
        self.make_one(store, &mut *held, at.partition, session, op)
    }

    /// Makes an operation on a key with the lock of its partition held, where it is done at once. Else nothing changes.
    #[inline(always)]
    pub(crate) fn make_one(
        &mut self,
        store: &Store<F, D, H>,
        held: &mut Locked<F, D::Receipt, H>,
        partition: usize,
        session: SessionId,
        op: &KeyedOpOf<F>,
    ) -> Option<AnswerOf<F>>
        requires here { partition < store.now.count }
        requires own { IsPassOf store.now self.old }
        ensures done { IfSome result (IsDone H.keeps self.old partition op.now self.new) }
        ensures home { IfSome result (λ _. partition_of held.old.partition.count (F.code (key_of op.now))
            ≡ held.old.partition.number) }
        ensures number { (held.new.partition.number ≡ held.old.partition.number)
            × (held.new.partition.count ≡ held.old.partition.count) }
        ensures own { IsPassOf store.now self.new }
        ensures none { result ≡ None → self.new ≡ self.old }
    {
        match self.owns.make_room(partition) {
            Ok(()) => {}
            Err(_refused) => return None,
        }
        let known = self.owns.told_at(partition);
        match try_in_hold(held, session, op, known, &store.functions) {
            Ok(Some(finished)) => {
                let answer = self.owns.take(partition, finished);
                self.turned = Turned::none();
                Some(answer)
            }
            Ok(None) => None,
            Err(_refused) => None,
        }
    }
}
