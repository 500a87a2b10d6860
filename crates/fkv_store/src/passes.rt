//! Passes: what a caller has of a store.
ghost use Rattle.std.specs.Prelude.{◌≡◌, ◌≢◌, ◌+◌, ◌-◌, ◌^◌, ◌<◌, ◌≤◌, ◌⊎◌, ℕ, true, List, [], ◌∷◌, ◌++◌, length, slice_index, Err, Some, None, IsTrue, IfOk, IfErr, OnOk, OnErr};
ghost use Rattle.fkv_partition.specs.Views.{partition_of};
ghost use Rattle.fkv_operations.specs.After.{key_of, is_merge};
ghost use Rattle.fkv_operations.specs.declared.operations.KeyedOp.{KeyedOp};
ghost use Rattle.fkv_store.specs.Stores.{IsUnentered, IsUnrefreshed, IsStopped, IsUnrun};
ghost use Rattle.fkv_store.specs.Passes.{IsPassOf, IsStrange, IsMarkOf, IsStrangeMark, heard_by, Runs, Updates};
ghost use Rattle.fkv_store.specs.Runs.{IsRunAs, AreCounted, AreSteady};

use crate::gates::{Gate, Open, Place};
use crate::holds::{At, Turned, enter, leave};
use crate::running::{Loads, OperationRun, SeenMoves, refresh_all, refresh_moved, run_by_turns};
use crate::stores::Store;
use fkv_device::Disk;
use fkv_functions::{Mergeable, Refused, What};
use fkv_histories::Recorder;
use fkv_locked::{Owns, SessionId};
use fkv_operations::{AnswerOf, KeyedOp, KeyedOpOf};
use std::alloc::Global;
use std::marker::Model;
use std::rt::Clock;
use std::sync::Wait;

/// After how many answers a pass refreshes its sessions of itself.
pub(crate) const ANSWERS: u8 = 64;

/// What a caller has of a store: its sessions, and for each partition the list of what it was answered and of how many
/// updates it was told there.
#[derive(Drop)]
pub struct Pass<F: Mergeable, D: Disk, H: Recorder<F>> {
    pub(crate) store: u64,
    pub(crate) worker: u32,
    /// What it was answered, and for each partition of how many updates it was told: by its answers, or by marks of other passes.
    pub(crate) owns: Owns<F, H>,
    pub(crate) sessions: Vec<Option<SessionId>>,
    /// How often pages had been moved when its sessions were refreshed.
    pub(crate) seen: SeenMoves,
    pub(crate) readers: Vec<D::Reader>,
    /// How many operations were answered since its sessions were refreshed.
    pub(crate) answered: u8,
    /// How many turns its last operation took, and how many faults of pages it passed over.
    pub(crate) turned: Turned,
}

impl<F: Mergeable, D: Disk, H: Recorder<F>> Model for Pass<F, D, H> {
    ghost use Rattle.std.specs.Prelude.{◌≡◌, length, map};
    ghost use Rattle.fkv_store.specs.Passes.{PassView};

    ghost Value = { PassView F.Key F.Value F.Input F.Output };

    ghost view = { λ p. record {
      store = p.store;
      own = map H.entries p.owns.lists;
      told = p.owns.told;
      share = p.owns.share;
      last = p.owns.last;
      turned = p.turned.count;
      missed = p.turned.missed;
      reads = map D.Reader.failures p.readers.items;
    } };

    ghost invariant = { λ p. (length p.owns.told ≡ length p.owns.lists)
        × (length p.sessions.items ≡ length p.owns.lists)
        × (length p.seen.each.items ≡ length p.owns.lists)
        × (length p.readers.items ≡ length p.owns.lists) };
}

/// How far a pass was told of a partition of its store. [`Pass::hear`] lets another pass know.
#[derive(Clone, Copy, Debug)]
pub struct Mark {
    store: u64,
    partition: usize,
    told: u64,
}

impl Model for Mark {
    ghost use Rattle.fkv_store.specs.Passes.{MarkView};

    ghost Value = { MarkView };

    ghost view = { λ m. record { store = m.store; partition = m.partition; told = m.told } };

    ghost inverse = { λ m. record { store = m.store; partition = m.partition; told = m.told } };
}

/// The session of a pass in a partition: the one that it has there, or one that is entered now.
#[inline(always)]
pub(crate) fn session_in<F: Mergeable, D: Disk, H: Recorder<F>, G: Gate>(
    rt: &impl Wait,
    store: &Store<F, D, H>,
    sessions: &mut Vec<Option<SessionId>>,
    at: At,
    gate: &G,
) -> Result<SessionId, Refused>
    requires within { at.partition < store.now.count }
    requires sessions { length sessions.old.items ≡ store.now.count }
    ensures sessions { length sessions.new.items ≡ length sessions.old.items }
    ensures only { IfErr result IsUnentered }
{
    if let Some(session) = sessions[at.partition] {
        return Ok(session);
    }
    match enter(rt, store, at, gate) {
        Ok(session) => {
            sessions[at.partition] = Some(session);
            Ok(session)
        }
        Err(refused) => Err(refused),
    }
}

/// Has a session of a pass in a partition, as [`session_in`] does. Answers whether it has one.
#[cold]
#[inline(never)]
fn enter_in<F: Mergeable, D: Disk, H: Recorder<F>, G: Gate>(
    rt: &impl Wait,
    store: &Store<F, D, H>,
    sessions: &mut Vec<Option<SessionId>>,
    at: At,
    gate: &G,
) -> bool
    requires within { at.partition < store.now.count }
    requires sessions { length sessions.old.items ≡ store.now.count }
    ensures sessions { length sessions.new.items ≡ length sessions.old.items }
{
    match session_in(rt, store, sessions, at, gate) {
        Ok(_session) => true,
        Err(_refused) => false,
    }
}

/// Whether a pass has a session in a partition: the one that it has there, or one that is entered now.
#[inline(always)]
pub(crate) fn has_session<F: Mergeable, D: Disk, H: Recorder<F>, G: Gate>(
    rt: &impl Wait,
    store: &Store<F, D, H>,
    sessions: &mut Vec<Option<SessionId>>,
    at: At,
    gate: &G,
) -> bool
    requires within { at.partition < store.now.count }
    requires sessions { length sessions.old.items ≡ store.now.count }
    ensures sessions { length sessions.new.items ≡ length sessions.old.items }
{
    if sessions[at.partition].is_some() {
        return true;
    }
    enter_in(rt, store, sessions, at, gate)
}

/// Refreshes the sessions of a pass where so many operations were answered since the last time: those in partitions whose
/// pages were moved since they were refreshed. To the others a refresh would show nothing new.
fn refresh_at_times<F: Mergeable, D: Disk, H: Recorder<F>, G: Gate>(
    rt: &impl Wait,
    store: &Store<F, D, H>,
    sessions: &[Option<SessionId>],
    seen: &mut SeenMoves,
    worker: u32,
    answered: &mut u8,
    gate: &G,
) -> Result<(), Refused>
    requires sessions { length sessions.now ≡ store.now.count }
    requires seen { length seen.old.each.items ≡ store.now.count }
    ensures seen { length seen.new.each.items ≡ length seen.old.each.items }
    ensures few { OnOk result (answered.new < 64) }
    ensures only { IfErr result IsUnrefreshed }
{
    if *answered < ANSWERS {
        return Ok(());
    }
    match refresh_moved(rt, store, sessions, seen, worker, gate) {
        Ok(()) => {
            *answered = 0;
            Ok(())
        }
        Err(refused) => Err(refused),
    }
}

/// Refreshes sessions as [`refresh_at_times`] does. Answers whether no session refused to.
#[cold]
#[inline(never)]
fn refresh_again<F: Mergeable, D: Disk, H: Recorder<F>, G: Gate>(
    rt: &impl Wait,
    store: &Store<F, D, H>,
    sessions: &[Option<SessionId>],
    seen: &mut SeenMoves,
    worker: u32,
    answered: &mut u8,
    gate: &G,
) -> bool
    requires sessions { length sessions.now ≡ store.now.count }
    requires seen { length seen.old.each.items ≡ store.now.count }
    ensures seen { length seen.new.each.items ≡ length seen.old.each.items }
    ensures few { IsTrue result → answered.new < 64 }
{
    match refresh_at_times(rt, store, sessions, seen, worker, answered, gate) {
        Ok(()) => true,
        Err(_refused) => false,
    }
}

/// Whether few operations were answered since the sessions of a pass were refreshed: else they are refreshed, and none of them is to
/// refuse.
#[inline(always)]
pub(crate) fn is_fresh<F: Mergeable, D: Disk, H: Recorder<F>, G: Gate>(
    rt: &impl Wait,
    store: &Store<F, D, H>,
    sessions: &[Option<SessionId>],
    seen: &mut SeenMoves,
    worker: u32,
    answered: &mut u8,
    gate: &G,
) -> bool
    requires sessions { length sessions.now ≡ store.now.count }
    requires seen { length seen.old.each.items ≡ store.now.count }
    ensures seen { length seen.new.each.items ≡ length seen.old.each.items }
    ensures few { IsTrue result → answered.new < 64 }
{
    if *answered < ANSWERS {
        return true;
    }
    refresh_again(rt, store, sessions, seen, worker, answered, gate)
}

impl<F: Mergeable, D: Disk, H: Recorder<F>> Pass<F, D, H> {
    /// That it is a pass of this store.
    pub(crate) fn known_to(&self, store: &Store<F, D, H>) -> Result<(), Refused>
        ensures ok { OnOk result (IsPassOf store.now self.now) }
        ensures refused { IfErr result (IsStrange store.now self.now) }
    {
        if self.store != store.id {
            return Err(Refused::Stranger {
                what: What::Pass,
                held: store.id,
                came: self.store,
            });
        }
        if self.owns.partitions() != store.locks.len() {
            return Err(Refused::Stranger {
                what: What::Pass,
                held: store.locks.len() as u64,
                came: self.owns.partitions() as u64,
            });
        }
        Ok(())
    }

    /// Whether it is a pass of this store.
    #[inline(always)]
    fn is_of(&self, store: &Store<F, D, H>) -> bool
        ensures { IsTrue result → IsPassOf store.now self.now }
    {
        self.store == store.id && self.owns.partitions() == store.locks.len()
    }

    /// Runs an operation on a key. Where it answers, the pass took exactly one entry more, which an event of a partition
    /// recorded in that hold: of this operation, with this answer, whose place is not before what the pass was told. So it
    /// takes effect exactly once. Where it is refused, no event recorded anything for it: it is over, without effect, and the
    /// pass's lists stay.
    ///
    /// # Errors
    ///
    /// In this order: `Stranger` where the pass is not of this store, with the two stores' numbers, or their numbers of
    /// partitions; `Worn` where the pass's share has no next number. Then, in the course of the operation: `NoMemory`;
    /// `NoSlot` where sixteen sessions are entered; `NoMerge` where it is a merge and the functions do not merge; `Stranger`
    /// where fewer updates stand than the pass was told of, with both numbers; `Worn` where a number of the store has no next one;
    /// `Device` with code 2 where a page can't be written, 3 where one can't be
    /// read; `Damaged` where a page came back with other bytes, or spells no record; `Stalled` where the operation took as
    /// many turns as the configuration says; `Unknown` where another caller took the pass's sessions for its own.
    /// Where a page is not read, it is the pass's reader of that partition that failed, and counted it.
    pub fn run<G: Gate>(
        &mut self,
        rt: &(impl Wait + Clock),
        alloc: Global,
        store: &Store<F, D, H>,
        op: KeyedOpOf<F>,
        gate: &G,
    ) -> Result<AnswerOf<F>, Refused>
        ensures ok { IfOk result (Runs H.keeps self.old self.new (partition_of store.now.count (F.code (key_of op))) op) }
        ensures merging { OnOk result (is_merge op ≡ true → F.MERGES ≡ true) }
        ensures foreign { ¬ IsPassOf store.now self.old → IfErr result (IsStrange store.now self.old) }
        ensures own { OnOk result (IsPassOf store.now self.old) }
        ensures worn { OnOk result (self.old.share < 2 ^ 64 - 1) }
        ensures only { IfErr result (λ why. IsStrange store.now self.old why
            ⊎ IsUnrun F.MERGES op (slice_index self.old.told (partition_of store.now.count (F.code (key_of op)))) why) }
        ensures stalled { IfErr result (λ why. why ≡ Refused.Stalled → self.new.turned ≡ store.now.turns) }
        ensures within { OnOk result (self.new.turned ≤ store.now.turns) }
        ensures unchanged { OnErr result
            (self.new ≡ record self.old { turned = self.new.turned; missed = self.new.missed; reads = self.new.reads }) }
        ensures steady { OnOk result (AreSteady (partition_of store.now.count (F.code (key_of op)))
            self.old.reads self.new.reads self.new.missed) }
        ensures counted { IfErr result (AreCounted D.Receipt.keeps (partition_of store.now.count (F.code (key_of op)))
            self.old.reads self.new.reads self.new.missed) }
    {
        self.run_as(rt, alloc, store, op, Loads::Read, gate)
    }

    /// Updates a key by an input as [`Pass::run`] does, but where the functions merge it reads no page: a merge of the key by
    /// the same input runs in its place where the last record of the key in memory, if any, has no value of it, since it is a
    /// delta or the records go on in a page, and where the update would read a page after all, and is given up, without effect.
    /// Either takes at most the turns of the configuration.
    ///
    /// # Errors
    ///
    /// Those of [`Pass::run`] for an update.
    pub fn update_or_merge<G: Gate>(
        &mut self,
        rt: &(impl Wait + Clock),
        alloc: Global,
        store: &Store<F, D, H>,
        key: F::Key,
        input: F::Input,
        gate: &G,
    ) -> Result<(), Refused>
        ensures ok { OnOk result
            (Updates H.keeps self.old self.new (partition_of store.now.count (F.code key)) key input) }
        ensures foreign { ¬ IsPassOf store.now self.old → IfErr result (IsStrange store.now self.old) }
        ensures own { OnOk result (IsPassOf store.now self.old) }
        ensures worn { OnOk result (self.old.share < 2 ^ 64 - 1) }
        ensures only { IfErr result (λ why. IsStrange store.now self.old why
            ⊎ IsStopped (slice_index self.old.told (partition_of store.now.count (F.code key))) why) }
        ensures stalled { IfErr result (λ why. why ≡ Refused.Stalled → self.new.turned ≡ store.now.turns) }
        ensures within { OnOk result (self.new.turned ≤ store.now.turns) }
        ensures unchanged { OnErr result
            (self.new ≡ record self.old { turned = self.new.turned; missed = self.new.missed; reads = self.new.reads }) }
        ensures steady { OnOk result (AreSteady (partition_of store.now.count (F.code key))
            self.old.reads self.new.reads self.new.missed) }
        ensures counted { IfErr result (AreCounted D.Receipt.keeps (partition_of store.now.count (F.code key))
            self.old.reads self.new.reads self.new.missed) }
    {
        let op = KeyedOp::Rmw(key, input);
        match self.run_as(rt, alloc, store, op, Loads::Merge, gate) {
            Ok(_answer) => Ok(()),
            Err(refused) => Err(refused),
        }
    }

    /// Runs an operation as [`Pass::run`] does, or where pages are not to be read an update as a merge. It is tried in one hold first.
    #[inline(always)]
    fn run_as<G: Gate>(
        &mut self,
        rt: &(impl Wait + Clock),
        alloc: Global,
        store: &Store<F, D, H>,
        op: KeyedOpOf<F>,
        loads: Loads,
        gate: &G,
    ) -> Result<AnswerOf<F>, Refused>
        ensures ok { IfOk result (λ answer. (ran : KeyedOp F.Key F.Value F.Input) × IsRunAs loads op ran
            × Runs H.keeps self.old self.new (partition_of store.now.count (F.code (key_of op))) ran answer) }
        ensures merging { OnOk result (is_merge op ≡ true → F.MERGES ≡ true) }
        ensures foreign { ¬ IsPassOf store.now self.old → IfErr result (IsStrange store.now self.old) }
        ensures own { OnOk result (IsPassOf store.now self.old) }
        ensures worn { OnOk result (self.old.share < 2 ^ 64 - 1) }
        ensures only { IfErr result (λ why. IsStrange store.now self.old why
            ⊎ IsUnrun F.MERGES op (slice_index self.old.told (partition_of store.now.count (F.code (key_of op)))) why) }
        ensures stalled { IfErr result (λ why. why ≡ Refused.Stalled → self.new.turned ≡ store.now.turns) }
        ensures within { OnOk result (self.new.turned ≤ store.now.turns) }
        ensures unchanged { OnErr result
            (self.new ≡ record self.old { turned = self.new.turned; missed = self.new.missed; reads = self.new.reads }) }
        ensures steady { OnOk result (AreSteady (partition_of store.now.count (F.code (key_of op)))
            self.old.reads self.new.reads self.new.missed) }
        ensures counted { IfErr result (AreCounted D.Receipt.keeps (partition_of store.now.count (F.code (key_of op)))
            self.old.reads self.new.reads self.new.missed) }
    {
        if !self.is_of(store) {
            return self.run_by_events(rt, alloc, store, op, loads, gate);
        }
        gate.pass(self.worker, Place::Start);
        match self.try_at_once(rt, store, &op, gate) {
            Some(answer) => Ok(answer),
            None => self.run_by_events(rt, alloc, store, op, loads, gate),
        }
    }

    /// Runs an operation as [`Pass::run`] does, or where pages are not to be read an update as a merge, by its events.
    #[inline(never)]
    pub(crate) fn run_by_events<G: Gate>(
        &mut self,
        rt: &(impl Wait + Clock),
        alloc: Global,
        store: &Store<F, D, H>,
        op: KeyedOpOf<F>,
        loads: Loads,
        gate: &G,
    ) -> Result<AnswerOf<F>, Refused>
        ensures ok { IfOk result (λ answer. (ran : KeyedOp F.Key F.Value F.Input) × IsRunAs loads op ran
            × Runs H.keeps self.old self.new (partition_of store.now.count (F.code (key_of op))) ran answer) }
        ensures merging { OnOk result (is_merge op ≡ true → F.MERGES ≡ true) }
        ensures foreign { ¬ IsPassOf store.now self.old → IfErr result (IsStrange store.now self.old) }
        ensures own { OnOk result (IsPassOf store.now self.old) }
        ensures worn { OnOk result (self.old.share < 2 ^ 64 - 1) }
        ensures only { IfErr result (λ why. IsStrange store.now self.old why
            ⊎ IsUnrun F.MERGES op (slice_index self.old.told (partition_of store.now.count (F.code (key_of op)))) why) }
        ensures stalled { IfErr result (λ why. why ≡ Refused.Stalled → self.new.turned ≡ store.now.turns) }
        ensures within { OnOk result (self.new.turned ≤ store.now.turns) }
        ensures unchanged { OnErr result
            (self.new ≡ record self.old { turned = self.new.turned; missed = self.new.missed; reads = self.new.reads }) }
        ensures steady { OnOk result (AreSteady (partition_of store.now.count (F.code (key_of op)))
            self.old.reads self.new.reads self.new.missed) }
        ensures counted { IfErr result (AreCounted D.Receipt.keeps (partition_of store.now.count (F.code (key_of op)))
            self.old.reads self.new.reads self.new.missed) }
    {
        let known = self.known_to(store);
        self.turned = Turned::none();
        match known {
            Ok(()) => {}
            Err(refused) => return Err(refused),
        }
        let partition = store.home(&op.key());
        match self.owns.make_room(partition) {
            Ok(()) => {}
            Err(refused) => return Err(refused),
        }
        let at = At {
            partition,
            worker: self.worker,
        };
        match refresh_at_times(
            rt,
            store,
            &self.sessions,
            &mut self.seen,
            at.worker,
            &mut self.answered,
            gate,
        ) {
            Ok(()) => {}
            Err(refused) => return Err(refused),
        }
        let session = match session_in(rt, store, &mut self.sessions, at, gate) {
            Ok(session) => session,
            Err(refused) => return Err(refused),
        };
        let known = self.owns.told_at(partition);
        let run = OperationRun {
            alloc,
            at,
            sessions: &self.sessions,
            session,
            known,
        };
        let finished = match run_by_turns(
            rt,
            store,
            &run,
            &mut self.readers,
            op,
            loads,
            &mut self.turned,
            gate,
        ) {
            Ok(finished) => finished,
            Err(refused) => return Err(refused),
        };
        let answer = self.owns.take(partition, finished);
        self.answered += 1;
        gate.pass(self.worker, Place::Answered);
        Ok(answer)
    }

    /// How far the pass was told of a partition, for another pass to hear of.
    pub fn mark(&self, partition: usize) -> Mark
        ensures { result ≡ record {
          store = self.now.store;
          partition = partition;
          told = slice_index self.now.told partition;
        } }
    {
        let told = if partition < self.owns.partitions() {
            self.owns.told_at(partition)
        } else {
            0
        };
        Mark {
            store: self.store,
            partition,
            told,
        }
    }

    /// Hears how far another pass was told of a partition: then this pass was told so far, at least, and no later answer of it there
    /// comes from fewer updates.
    ///
    /// # Errors
    ///
    /// `Stranger`, and then nothing changes, where the mark is of another store, with the two stores' numbers, or of no partition
    /// of this one, with how many it has and the mark's.
    pub fn hear(&mut self, mark: &Mark) -> Result<(), Refused>
        ensures ok { OnOk result (self.new ≡ heard_by self.old mark.now) }
        ensures own { OnOk result (IsMarkOf self.old mark.now) }
        ensures foreign { ¬ IsMarkOf self.old mark.now → IfErr result (IsStrangeMark self.old mark.now) }
        ensures refused { IfErr result (IsStrangeMark self.old mark.now) }
        ensures unchanged { OnErr result (self.new ≡ self.old) }
    {
        if mark.store != self.store {
            return Err(Refused::Stranger {
                what: What::Pass,
                held: self.store,
                came: mark.store,
            });
        }
        if mark.partition >= self.owns.partitions() {
            return Err(Refused::Stranger {
                what: What::Pass,
                held: self.owns.partitions() as u64,
                came: mark.partition as u64,
            });
        }
        self.owns.hear(mark.partition, mark.told);
        Ok(())
    }

    /// Refreshes each session of the pass, so that partitions need not wait for it.
    ///
    /// # Errors
    ///
    /// `Stranger` where the pass is not of this store; then, after the sessions before it are refreshed, what a partition
    /// refuses: `Worn` where its clock has no next moment, `Unknown` where another caller left the session.
    pub fn refresh(&mut self, rt: &impl Wait, store: &Store<F, D, H>) -> Result<(), Refused>
        ensures foreign { ¬ IsPassOf store.now self.old → IfErr result (IsStrange store.now self.old) }
        ensures own { OnOk result (IsPassOf store.now self.old) }
        ensures only { IfErr result (λ why. IsStrange store.now self.old why ⊎ IsUnrefreshed why) }
        ensures same { self.new ≡ self.old }
    {
        match self.known_to(store) {
            Ok(()) => {}
            Err(refused) => return Err(refused),
        }
        match refresh_all(rt, store, &self.sessions, self.worker, &Open) {
            Ok(()) => {
                self.answered = 0;
                Ok(())
            }
            Err(refused) => Err(refused),
        }
    }

    /// Leaves each session of the pass, so that partitions wait for it no longer. A later operation enters a new one.
    ///
    /// # Errors
    ///
    /// As [`Pass::refresh`]'s, after the sessions before it are left.
    pub fn rest(&mut self, rt: &impl Wait, store: &Store<F, D, H>) -> Result<(), Refused>
        ensures foreign { ¬ IsPassOf store.now self.old → IfErr result (IsStrange store.now self.old) }
        ensures own { OnOk result (IsPassOf store.now self.old) }
        ensures only { IfErr result (λ why. IsStrange store.now self.old why ⊎ IsUnrefreshed why) }
        ensures same { self.new ≡ self.old }
    {
        match self.known_to(store) {
            Ok(()) => {}
            Err(refused) => return Err(refused),
        }
        leave_all(rt, store, &mut self.sessions, self.worker)
    }
}

/// Leaves each session of a pass, in order.
fn leave_all<F: Mergeable, D: Disk, H: Recorder<F>>(
    rt: &impl Wait,
    store: &Store<F, D, H>,
    sessions: &mut Vec<Option<SessionId>>,
    worker: u32,
) -> Result<(), Refused>
    requires { length sessions.old.items ≡ store.now.count }
    ensures sessions { length sessions.new.items ≡ length sessions.old.items }
    ensures only { IfErr result IsUnrefreshed }
{
    for partition in 0..sessions.len() {
        let Some(session) = sessions[partition] else {
            continue;
        };
        match leave(rt, store, At { partition, worker }, session, &Open) {
            Ok(()) => sessions[partition] = None,
            Err(refused) => return Err(refused),
        }
    }
    Ok(())
}
