//! Updates of many rows in one call: those of one partition in a row that are done at once are made in one hold of its lock.
//!
//! A hold ends where a row is not done at once, or is of another partition, and where the pass is to refresh its sessions. A row at
//! which a hold makes nothing runs by its events.
ghost use Rattle.std.specs.Prelude.{◌≡◌, ◌<◌, ◌≤◌, ◌⊎◌, length, take, IfOk, IfErr, OnOk};
ghost use Rattle.fkv_store.specs.Passes.{PassView, IsPassOf, IsStrange};
ghost use Rattle.fkv_store.specs.Rows.{AreMade, IsCutShort};
ghost use Rattle.fkv_store.specs.declared.running.Loads.{Loads};

use crate::gates::{Gate, Place};
use crate::holds::At;
use crate::passes::{ANSWERS, Pass, is_fresh, session_in};
use crate::running::Loads;
use crate::stores::Store;
use fkv_device::Disk;
use fkv_functions::{Mergeable, Refused};
use fkv_histories::Recorder;
use fkv_locked::{Locked, SessionId};
use fkv_operations::KeyedOp;
use std::alloc::Global;
use std::rt::Clock;
use std::sync::Wait;

impl<F: Mergeable, D: Disk, H: Recorder<F>> Pass<F, D, H> {
    /// Updates keys by inputs, row by row, in order, each as [`Pass::run`] does, or as [`Pass::update_or_merge`] does where pages are
    /// not to be read. Rows of one partition in a row are made in one hold of its lock, at most 64 of them, as long as each is done
    /// at once: so rows go faster that are sorted by partition ([`Store::home`]).
    ///
    /// # Errors
    ///
    /// `Stranger` where the pass is not of this store, as [`Pass::run`] says it, and then nothing changes. Then those of [`Pass::run`]
    /// for an update, of the first row that is refused: the rows before it are made, and none after it.
    pub fn update_all<G: Gate>(
        &mut self,
        rt: &(impl Wait + Clock),
        alloc: Global,
        store: &Store<F, D, H>,
        rows: &[(F::Key, F::Input)],
        loads: Loads,
        gate: &G,
    ) -> Result<(), Refused>
        ensures ok { OnOk result (AreMade H.keeps F.code loads store.now self.old rows.now self.new) }
        ensures foreign { ¬ IsPassOf store.now self.old → IfErr result (IsStrange store.now self.old) }
        ensures own { OnOk result (IsPassOf store.now self.old) }
        ensures refused { IfErr result (λ why. (IsStrange store.now self.old why × (self.new ≡ self.old))
            ⊎ IsCutShort H.keeps F.code loads store.now D.Receipt.keeps self.old rows.now self.new why) }
    {
        match self.known_to(store) {
            Ok(()) => {}
            Err(refused) => return Err(refused),
        }
        let mut made = 0;
        while made < rows.len() {
            match self.update_some(rt, alloc, store, rows, made, loads, gate) {
                Ok(then) => made = then,
                Err(refused) => return Err(refused),
            }
        }
        Ok(())
    }

    /// Makes some rows more, behind those that are made: those that are done at once in one hold, or else one by its events. Answers
    /// how many are made then. Refused as [`Pass::run`] is.
    fn update_some<G: Gate>(
        &mut self,
        rt: &(impl Wait + Clock),
        alloc: Global,
        store: &Store<F, D, H>,
        rows: &[(F::Key, F::Input)],
        made: usize,
        loads: Loads,
        gate: &G,
    ) -> Result<usize, Refused>
        requires behind { made < length rows.now }
        requires own { IsPassOf store.now self.old }
        ensures more { IfOk result (λ then. (made < then) × (then ≤ length rows.now)) }
        ensures own { IsPassOf store.now self.new }
        ensures ok { IfOk result (λ then. (first : PassView F.Key F.Value F.Input F.Output)
            → AreMade H.keeps F.code loads store.now first (take made rows.now) self.old
            → AreMade H.keeps F.code loads store.now first (take then rows.now) self.new) }
        ensures refused { IfErr result (λ why. (first : PassView F.Key F.Value F.Input F.Output)
            → AreMade H.keeps F.code loads store.now first (take made rows.now) self.old
            → IsCutShort H.keeps F.code loads store.now D.Receipt.keeps first rows.now self.new why) }
    {
        let then = self.update_at_once(rt, store, rows, made, gate);
        if then > made {
            return Ok(then);
        }
        let row = rows[made];
        let op = KeyedOp::Rmw(row.0, row.1);
        match self.run_by_events(rt, alloc, store, op, loads, gate) {
            Ok(_answer) => Ok(made + 1),
            Err(refused) => Err(refused),
        }
    }

    /// Makes rows behind those that are made in one hold of the lock of the first one's partition, as many as are done at once there,
    /// until the pass is to refresh its sessions. Answers how many are made then: what stands in the way of the next one is told
    /// where it runs alone.
    #[inline(always)]
    fn update_at_once<G: Gate>(
        &mut self,
        rt: &impl Wait,
        store: &Store<F, D, H>,
        rows: &[(F::Key, F::Input)],
        made: usize,
        gate: &G,
    ) -> usize
        requires behind { made < length rows.now }
        requires own { IsPassOf store.now self.old }
        ensures more { (made ≤ result) × (result ≤ length rows.now) }
        ensures own { IsPassOf store.now self.new }
        ensures made { (loads : Loads) (first : PassView F.Key F.Value F.Input F.Output)
            → AreMade H.keeps F.code loads store.now first (take made rows.now) self.old
            → AreMade H.keeps F.code loads store.now first (take result rows.now) self.new }
    {
        let partition = store.home(&rows[made].0);
        let at = At {
            partition,
            worker: self.worker,
        };
        gate.pass(at.worker, Place::Start);
        if !is_fresh(
            rt,
            store,
            &self.sessions,
            &mut self.seen,
            at.worker,
            &mut self.answered,
            gate,
        ) {
            return made;
        }
        let session = match session_in(rt, store, &mut self.sessions, at, gate) {
            Ok(session) => session,
            Err(_refused) => return made,
        };
        let answered = self.answered;
        let until = made + (rows.len() - made).min((ANSWERS - answered) as usize);
        let then = self.update_in_hold(rt, store, at, session, rows, made, until, gate);
        self.answered = answered + (then - made) as u8;
        for _row in made..then {
            gate.pass(at.worker, Place::Answered);
        }
        then
    }

    /// Makes rows from one place until another in one hold, as long as each is done at once. Answers how many are made then.
    #[inline(always)]
    fn update_in_hold<G: Gate>(
        &mut self,
        rt: &impl Wait,
        store: &Store<F, D, H>,
        at: At,
        session: SessionId,
        rows: &[(F::Key, F::Input)],
        made: usize,
        until: usize,
        gate: &G,
    ) -> usize
        requires here { at.partition < store.now.count }
        requires behind { (made ≤ until) × (until ≤ length rows.now) }
        requires own { IsPassOf store.now self.old }
        ensures more { (made ≤ result) × (result ≤ until) }
        ensures own { IsPassOf store.now self.new }
        ensures made { (loads : Loads) (first : PassView F.Key F.Value F.Input F.Output)
            → AreMade H.keeps F.code loads store.now first (take made rows.now) self.old
            → AreMade H.keeps F.code loads store.now first (take result rows.now) self.new }
    {
        let mut held = store.locks[at.partition].lock(rt);
        gate.pass(at.worker, at.locked());
        if held.number() != at.partition as u64 || held.count() != store.locks.len() as u64 {
            return made;
        }
        self.update_rows(store, &mut *held, at.partition, session, rows, made, until)
    }

    /// Makes rows from one place until another with the lock of their partition held, as long as each is done at once. Answers how many
    /// are made then.
    #[inline(always)]
    fn update_rows(
        &mut self,
        store: &Store<F, D, H>,
        held: &mut Locked<F, D::Receipt, H>,
        partition: usize,
        session: SessionId,
        rows: &[(F::Key, F::Input)],
        made: usize,
        until: usize,
    ) -> usize
        requires number { (held.old.partition.number ≡ partition) × (held.old.partition.count ≡ store.now.count) }
        requires here { partition < store.now.count }
        requires behind { (made ≤ until) × (until ≤ length rows.now) }
        requires own { IsPassOf store.now self.old }
        ensures more { (made ≤ result) × (result ≤ until) }
        ensures own { IsPassOf store.now self.new }
        ensures made { (loads : Loads) (first : PassView F.Key F.Value F.Input F.Output)
            → AreMade H.keeps F.code loads store.now first (take made rows.now) self.old
            → AreMade H.keeps F.code loads store.now first (take result rows.now) self.new }
    {
        for place in made..until {
            let row = &rows[place];
            let op = KeyedOp::Rmw(row.0, row.1);
            match self.make_one(store, held, partition, session, &op) {
                Some(_answer) => {}
                None => return place,
            }
        }
        until
    }
}
