//! The state of a world, and what each step does to it.
ghost use Rattle.std.specs.Prelude.{◌≢◌, ◌⊎◌, ◌≡◌, ◌+◌, ◌-◌, ◌^◌, ◌<◌, ◌↔◌, ◌∷◌, [], ◌++◌, true, Some, None, Err, IfOk, IfErr, OnOk, length, map, replicate, slice_get, is_some};
ghost use Rattle.fkv_records.specs.Records.{size_of};
ghost use Rattle.fkv_partition.specs.Limits.{IsWithinLimits};
ghost use Rattle.fkv_partition.specs.Views.{empty_partition};
ghost use Rattle.fkv_worlds.specs.States.{empty_partitions, empty_state, question_in, is_unasked};
ghost use Rattle.fkv_worlds.specs.Sound.{IsState};
ghost use Rattle.fkv_worlds.specs.Worlds.{asked_in};
ghost use Rattle.fkv_worlds.specs.Reports.{awaits_at};
ghost use Rattle.fkv_hybrid.specs.Spelled.{IsEntryIn};
ghost use Rattle.fkv_worlds.specs.declared.flush_slots.FlushSlot.{FlushSlot};
ghost use Rattle.fkv_worlds.specs.Acts.{Acts};
ghost use Rattle.fkv_lives.specs.Steps.{partition_in};
ghost use Rattle.fkv_worlds.specs.Moments.{IsMomentIn, IsUntimely};
ghost use Rattle.fkv_lives.specs.declared.steps.Step.TheVariants.{Enter, Leave, Refresh, ReadOnly, Head, Issue, Go, Install, Load, GiveUp, Truncate};

use crate::flush_slots::FlushSlot;
use crate::tables::{
    Tables, begin_life, end_life, life_at, note_progress, question_at, seat_session,
};
use fkv_device::{MemoryReceipt, Receipt};
use fkv_functions::{Ask, Built, Mergeable, Refused};
use fkv_lives::lives::{End, LifeOf};
use fkv_lives::outcomes::{Outcome, OutcomeOf};
use fkv_lives::steps::{Access, ContextId, Step, StepOf};
use fkv_operations::{Clock, OpOf};
use fkv_partition::{Config, Partition};
use std::alloc::Global;
use std::marker::Model;

/// The partitions with the page that each has to write, the tables, lives and last moment of a world.
#[derive(Drop)]
pub struct State<F: Mergeable> {
    pub(crate) alloc: Global,
    pub(crate) partitions: Vec<Partition<F, MemoryReceipt>>,
    pub(crate) flush_slots: Vec<FlushSlot>,
    pub(crate) tables: Tables<F::Key, F::Value, F::Input>,
    pub(crate) lives: Vec<LifeOf<F>>,
    pub(crate) moment: u64,
}

impl<F: Mergeable> Model for State<F> {
    ghost use Rattle.std.specs.Prelude.{map};
    ghost use Rattle.fkv_worlds.specs.declared.flush_slots.FlushSlot.{FlushSlot};
    ghost use Rattle.fkv_device.specs.declared.memory.MemoryReceipt.{MemoryReceipt};
    ghost use Rattle.fkv_worlds.specs.States.{StateView, state_of};
    ghost use Rattle.fkv_worlds.specs.Sound.{IsState};

    ghost Value = { StateView F.Key F.Value F.Input F.Output MemoryReceipt };

    ghost view = { λ s. state_of s.partitions.items s.tables.begun.items s.tables.questions.items
        s.tables.receipts.items (map (λ (d : FlushSlot). d.job) s.flush_slots.items) s.tables.seats.items s.tables.enters.items
        s.lives.items s.moment };

    ghost invariant = { λ s. IsState F.Key.cmp F.meaning F.code (state_of s.partitions.items s.tables.begun.items
        s.tables.questions.items s.tables.receipts.items (map (λ (d : FlushSlot). d.job) s.flush_slots.items)
        s.tables.seats.items s.tables.enters.items s.lives.items s.moment) };
}

/// The moment after this one, or `Worn` after the last.
fn moment_after(moment: u64) -> Result<u64, Refused>
    ensures ok { IfOk result (λ now. now ≡ moment + 1) }
    ensures worn { (result ≡ Err Refused.Worn) ↔ (moment ≡ 2 ^ 64 - 1) }
    ensures only { IfErr result (λ refused. refused ≡ Refused.Worn) }
{
    Clock::starting(moment).tick()
}

/// Adds an item. Refused: `NoMemory`.
fn keep<T: Drop>(items: &mut Vec<T>, item: T) -> Result<(), Refused>
    ensures ok { OnOk result (items.new.items ≡ items.old.items ++ item ∷ []) }
    ensures only { IfErr result (λ refused. refused ≡ Refused.NoMemory) }
{
    match items.push(item) {
        Ok(()) => Ok(()),
        Err(_) => Err(Refused::NoMemory),
    }
}

/// Adds the partition of this number, with nothing in it. Refused: `NoMemory`.
fn add_empty<F: Mergeable>(
    partitions: &mut Vec<Partition<F, MemoryReceipt>>,
    alloc: Global,
    config: &Config,
    number: u64,
) -> Result<(), Refused>
    ensures ok { OnOk result (partitions.new.items ≡ partitions.old.items
        ++ empty_partition F.MERGES config.now (size_of F.Key.SIZE F.Value.SIZE) number ∷ []) }
    ensures only { IfErr result (λ refused. refused ≡ Refused.NoMemory) }
{
    match Partition::new(alloc, config, number) {
        Ok(partition) => keep(partitions, partition),
        Err(_) => Err(Refused::NoMemory),
    }
}

/// Partitions with nothing in them, one of each number. Refused: `NoMemory`.
fn empty_partitions<F: Mergeable>(
    alloc: Global,
    config: &Config,
    count: u64,
) -> Result<Vec<Partition<F, MemoryReceipt>>, Refused>
    ensures ok { IfOk result (λ partitions. partitions.items
        ≡ empty_partitions F.MERGES config.now (size_of F.Key.SIZE F.Value.SIZE) count) }
    ensures only { IfErr result (λ refused. refused ≡ Refused.NoMemory) }
{
    let mut partitions = Vec::new(alloc);
    for number in 0..count {
        let Ok(()) = add_empty(&mut partitions, alloc, config, number) else {
            return Err(Refused::NoMemory);
        };
    }
    Ok(partitions)
}

/// Flush slots of so many partitions, at which no page is to be written. Refused: `NoMemory`.
fn empty_flush_slots(alloc: Global, count: u64) -> Result<Vec<FlushSlot>, Refused>
    ensures ok { IfOk result (λ flush_slots. map (λ (d : FlushSlot). d.job) flush_slots.items ≡ replicate count None) }
    ensures only { IfErr result (λ refused. refused ≡ Refused.NoMemory) }
{
    let mut flush_slots = Vec::new(alloc);
    for _number in 0..count {
        let Ok(()) = keep(&mut flush_slots, FlushSlot::new()) else {
            return Err(Refused::NoMemory);
        };
    }
    Ok(flush_slots)
}

impl<F: Mergeable> State<F> {
    /// The state before the first step. Refused, in this order: `BadConfig` where a number of the
    /// configuration is outside its limits, `NoMemory`.
    pub fn new(alloc: Global, config: &Config) -> Result<Self, Refused>
        ensures ok { IfOk result (λ state. state ≡ empty_state F.MERGES config.now (size_of F.Key.SIZE F.Value.SIZE)) }
        ensures good { result ≢ Err Refused.BadConfig → IsWithinLimits config.now (size_of F.Key.SIZE F.Value.SIZE) }
        ensures bad { result ≡ Err Refused.BadConfig → ¬ IsWithinLimits config.now (size_of F.Key.SIZE F.Value.SIZE) }
        ensures only { IfErr result (λ refused. (refused ≡ Refused.BadConfig) ⊎ (refused ≡ Refused.NoMemory)) }
    {
        if !config.is_within_limits::<F::Key, F::Value>() {
            return Err(Refused::BadConfig);
        }
        State::empty(alloc, config)
    }

    /// The state before the first step, of a configuration within its limits. Refused: `NoMemory`.
    fn empty(alloc: Global, config: &Config) -> Result<Self, Refused>
        requires { IsWithinLimits config.now (size_of F.Key.SIZE F.Value.SIZE) }
        ensures ok { IfOk result (λ state. state ≡ empty_state F.MERGES config.now (size_of F.Key.SIZE F.Value.SIZE)) }
        ensures only { IfErr result (λ refused. refused ≡ Refused.NoMemory) }
    {
        let count = config.partitions();
        let Ok(tables) = Tables::new(alloc, count as usize) else {
            return Err(Refused::NoMemory);
        };
        let Ok(flush_slots) = empty_flush_slots(alloc, count) else {
            return Err(Refused::NoMemory);
        };
        // last, since only what is made before it is dropped where something is refused
        let Ok(partitions) = empty_partitions(alloc, config, count) else {
            return Err(Refused::NoMemory);
        };
        Ok(State {
            alloc,
            partitions,
            flush_slots,
            tables,
            lives: Vec::new(alloc),
            moment: 0,
        })
    }

    /// The moment of a step in this partition. Refused, in this order: `Unknown` where there is no such
    /// partition, `Worn` where no moment is left.
    pub(crate) fn moment_in(&self, partition: usize) -> Result<u64, Refused>
        ensures ok { IfOk result (IsMomentIn self.now partition) }
        ensures refused { IfErr result (IsUntimely self.now partition) }
    {
        if partition >= self.partitions.len() {
            return Err(Refused::Unknown);
        }
        moment_after(self.moment)
    }

    fn enter_at(&mut self, partition: usize, now: u64) -> Result<OutcomeOf<F>, Refused>
        requires due { IsMomentIn self.old partition now }
        ensures effect { Acts ⟦<MemoryReceipt as Receipt>⟧.stands (IsEntryIn F.Key.codec F.Value.codec) F.Key.cmp F.parts.joined F.meaning F.code
            self.old self.new (Enter partition) result }
    {
        match self.partitions[partition].enter(now) {
            Ok(slot) => {
                self.moment = now;
                seat_session(
                    &mut self.tables.enters,
                    &mut self.tables.seats,
                    partition,
                    slot,
                );
                Ok(Outcome::Entered(slot))
            }
            Err(refused) => Err(refused),
        }
    }

    fn leave_at(&mut self, partition: usize, slot: usize, now: u64) -> Result<OutcomeOf<F>, Refused>
        requires due { IsMomentIn self.old partition now }
        ensures effect { Acts ⟦<MemoryReceipt as Receipt>⟧.stands (IsEntryIn F.Key.codec F.Value.codec) F.Key.cmp F.parts.joined F.meaning F.code
            self.old self.new (Leave partition slot) result }
    {
        match self.partitions[partition].leave(slot, now) {
            Ok(()) => {
                self.moment = now;
                Ok(Outcome::Left)
            }
            Err(refused) => Err(refused),
        }
    }

    fn refresh_at(
        &mut self,
        partition: usize,
        slot: usize,
        now: u64,
    ) -> Result<OutcomeOf<F>, Refused>
        requires due { IsMomentIn self.old partition now }
        ensures effect { Acts ⟦<MemoryReceipt as Receipt>⟧.stands (IsEntryIn F.Key.codec F.Value.codec) F.Key.cmp F.parts.joined F.meaning F.code
            self.old self.new (Refresh partition slot) result }
    {
        match self.partitions[partition].refresh(slot, now) {
            Ok(()) => {
                self.moment = now;
                Ok(Outcome::Refreshed)
            }
            Err(refused) => Err(refused),
        }
    }

    fn shift_at(&mut self, partition: usize, page: u64, now: u64) -> Result<OutcomeOf<F>, Refused>
        requires due { IsMomentIn self.old partition now }
        ensures effect { Acts ⟦<MemoryReceipt as Receipt>⟧.stands (IsEntryIn F.Key.codec F.Value.codec) F.Key.cmp F.parts.joined F.meaning F.code
            self.old self.new (ReadOnly partition page) result }
    {
        match self.partitions[partition].shift_read_only(page, now) {
            Ok(()) => {
                self.moment = now;
                Ok(Outcome::Shifted)
            }
            Err(refused) => Err(refused),
        }
    }

    fn evict_at(&mut self, partition: usize, page: u64, now: u64) -> Result<OutcomeOf<F>, Refused>
        requires due { IsMomentIn self.old partition now }
        ensures effect { Acts ⟦<MemoryReceipt as Receipt>⟧.stands (IsEntryIn F.Key.codec F.Value.codec) F.Key.cmp F.parts.joined F.meaning F.code
            self.old self.new (Head partition page) result }
    {
        match self.partitions[partition].shift_head(page, now) {
            Ok(()) => {
                self.moment = now;
                Ok(Outcome::Shifted)
            }
            Err(refused) => Err(refused),
        }
    }

    fn issue_at(
        &mut self,
        functions: &F,
        partition: usize,
        slot: usize,
        op: OpOf<F>,
        now: u64,
    ) -> Result<OutcomeOf<F>, Refused>
        requires due { IsMomentIn self.old partition now }
        ensures effect { Acts ⟦<MemoryReceipt as Receipt>⟧.stands (IsEntryIn F.Key.codec F.Value.codec) F.Key.cmp F.parts.joined F.meaning F.code
            self.old self.new (Issue partition slot op) result }
    {
        let Ok(()) = self.lives.try_reserve(1) else {
            return Err(Refused::NoMemory);
        };
        match self.partitions[partition].issue(slot, op, functions, now) {
            Ok(context) => {
                self.moment = now;
                let place = ContextId {
                    partition,
                    slot,
                    context,
                };
                begin_life(&mut self.lives, &mut self.tables, place, op, now);
                Ok(Outcome::Issued(context))
            }
            Err(refused) => Err(refused),
        }
    }

    fn go_at(&mut self, functions: &F, place: ContextId, now: u64) -> Result<OutcomeOf<F>, Refused>
        requires due { IsMomentIn self.old place.partition now }
        ensures effect { Acts ⟦<MemoryReceipt as Receipt>⟧.stands (IsEntryIn F.Key.codec F.Value.codec) F.Key.cmp F.parts.joined F.meaning F.code self.old self.new (Go place) result }
    {
        let partition = &mut self.partitions[place.partition];
        match partition.go(place.slot, place.context, functions, now) {
            Ok(progress) => {
                self.moment = now;
                Ok(note_progress(&mut self.lives, &mut self.tables, place, progress, now))
            }
            Err(refused) => Err(refused),
        }
    }

    /// Installs what an operation asked for last.
    fn install(&mut self, functions: &F, place: ContextId) -> Result<OutcomeOf<F>, Refused>
        ensures effect { Acts ⟦<MemoryReceipt as Receipt>⟧.stands (IsEntryIn F.Key.codec F.Value.codec) F.Key.cmp F.parts.joined F.meaning F.code
            self.old self.new (Install place) result }
    {
        match self.asked(place) {
            Ok((ask, now)) => self.install_at(functions, place, ask, now),
            Err(refused) => Err(refused),
        }
    }

    /// What an operation asked for last, and the moment at which it is installed; else why nothing is.
    fn asked(&self, place: ContextId) -> Result<(Ask<F::Key, F::Value, F::Input>, u64), Refused>
        ensures ok { IfOk result (λ due. (question_in self.now.questions place ≡ Some due.0)
            × IsMomentIn self.now place.partition due.1) }
        ensures refused { IfErr result
            (λ refused. Acts ⟦<MemoryReceipt as Receipt>⟧.stands (IsEntryIn F.Key.codec F.Value.codec) F.Key.cmp F.parts.joined F.meaning F.code self.now self.now (Install place)
            (Err refused)) }
    {
        if place.partition >= self.partitions.len() {
            return Err(Refused::Unknown);
        }
        let Some(ask) = question_at(&self.tables.questions, place) else {
            return Err(self.why_uninstalled(place));
        };
        match self.moment_in(place.partition) {
            Ok(now) => Ok((ask, now)),
            Err(refused) => Err(refused),
        }
    }

    /// Why nothing is installed that nobody asked for: `NotReady` where an operation is open there; else `Worn` where no moment
    /// is left, and `Unknown`.
    fn why_uninstalled(&self, place: ContextId) -> Refused
        requires there { place.partition < length self.now.partitions }
        requires unasked { is_unasked self.now (Install place) ≡ true }
        ensures { Acts ⟦<MemoryReceipt as Receipt>⟧.stands (IsEntryIn F.Key.codec F.Value.codec) F.Key.cmp F.parts.joined F.meaning F.code self.now self.now (Install place) (Err result) }
    {
        match self.partitions[place.partition].asked(place.slot, place.context) {
            Ok(_) => Refused::NotReady,
            Err(_) => self.why_late(place),
        }
    }

    /// Why nothing is installed where nothing is open: `Worn` where no moment is left, and `Unknown` else.
    fn why_late(&self, place: ContextId) -> Refused
        requires there { place.partition < length self.now.partitions }
        requires unasked { is_unasked self.now (Install place) ≡ true }
        requires none { asked_in self.now.partitions place ≡ None }
        ensures { Acts ⟦<MemoryReceipt as Receipt>⟧.stands (IsEntryIn F.Key.codec F.Value.codec) F.Key.cmp F.parts.joined F.meaning F.code self.now self.now (Install place) (Err result) }
    {
        match self.moment_in(place.partition) {
            Ok(_now) => Refused::Unknown,
            Err(refused) => refused,
        }
    }

    /// Why nothing is loaded that nobody asked for: `NotReady` where an operation is open there, and `Unknown` else.
    pub(crate) fn why_unloaded(&self, place: ContextId, access: Access) -> Refused
        requires there { place.partition < length self.now.partitions }
        requires moment { self.now.moment < 2 ^ 64 - 1 }
        requires unasked { is_unasked self.now (Load place access) ≡ true }
        ensures { Acts ⟦<MemoryReceipt as Receipt>⟧.stands (IsEntryIn F.Key.codec F.Value.codec) F.Key.cmp F.parts.joined F.meaning F.code self.now self.now (Load place access) (Err result) }
    {
        match self.partitions[place.partition].asked(place.slot, place.context) {
            Ok(_) => Refused::NotReady,
            Err(_) => Refused::Unknown,
        }
    }

    fn install_at(
        &mut self,
        functions: &F,
        place: ContextId,
        ask: Ask<F::Key, F::Value, F::Input>,
        now: u64,
    ) -> Result<OutcomeOf<F>, Refused>
        requires moment { IsMomentIn self.old place.partition now }
        requires asked { question_in self.old.questions place ≡ Some ask }
        ensures effect { Acts ⟦<MemoryReceipt as Receipt>⟧.stands (IsEntryIn F.Key.codec F.Value.codec) F.Key.cmp F.parts.joined F.meaning F.code
            self.old self.new (Install place) result }
    {
        let built = Built::make(functions, ask);
        let partition = &mut self.partitions[place.partition];
        match partition.install(place.slot, place.context, built, functions, now) {
            Ok(installed) => {
                self.moment = now;
                Ok(note_progress(&mut self.lives, &mut self.tables, place, installed, now))
            }
            Err(refused) => Err(refused),
        }
    }

    fn give_up_at(&mut self, place: ContextId, now: u64) -> Result<OutcomeOf<F>, Refused>
        requires due { IsMomentIn self.old place.partition now }
        ensures effect { Acts ⟦<MemoryReceipt as Receipt>⟧.stands (IsEntryIn F.Key.codec F.Value.codec) F.Key.cmp F.parts.joined F.meaning F.code self.old self.new (GiveUp place) result }
    {
        let partition = &mut self.partitions[place.partition];
        match partition.give_up(place.slot, place.context, now) {
            Ok(()) => {
                self.moment = now;
                let life = life_at(&self.tables.begun, place);
                end_life(&mut self.lives, life, End::GivenUp);
                Ok(Outcome::GivenUp)
            }
            Err(refused) => Err(refused),
        }
    }

    /// Moves Begin to the start of the page up to which all is cleared.
    pub(crate) fn truncate_at(
        &mut self,
        partition: usize,
        now: u64,
    ) -> Result<OutcomeOf<F>, Refused>
        requires due { IsMomentIn self.old partition now }
        ensures effect { Acts ⟦<MemoryReceipt as Receipt>⟧.stands (IsEntryIn F.Key.codec F.Value.codec) F.Key.cmp F.parts.joined F.meaning F.code
            self.old self.new (Truncate partition) result }
    {
        match self.partitions[partition].truncate_cleared(now) {
            Ok(begin) => {
                self.moment = now;
                Ok(Outcome::Truncated(begin))
            }
            Err(refused) => Err(refused),
        }
    }

    /// Does a step.
    pub fn act(&mut self, functions: &F, step: StepOf<F>) -> Result<OutcomeOf<F>, Refused>
        ensures effect { Acts ⟦<MemoryReceipt as Receipt>⟧.stands (IsEntryIn F.Key.codec F.Value.codec) F.Key.cmp F.parts.joined F.meaning F.code self.old self.new step result }
    {
        // whether what is to be installed or written was asked for comes before whether there is a moment
        match step {
            Step::Install(place) => self.install(functions, place),
            Step::Load(place, access) => self.load(functions, place, access),
            Step::Write(partition, access) => self.write(partition, access),
            _ => match self.moment_in(step.partition()) {
                Ok(now) => self.act_at(functions, step, now),
                Err(refused) => Err(refused),
            },
        }
    }

    /// Does a step that answers nothing, at this moment.
    fn act_at(&mut self, functions: &F, step: StepOf<F>, now: u64) -> Result<OutcomeOf<F>, Refused>
        requires due { IsMomentIn self.old (partition_in step) now }
        ensures effect { Acts ⟦<MemoryReceipt as Receipt>⟧.stands (IsEntryIn F.Key.codec F.Value.codec) F.Key.cmp F.parts.joined F.meaning F.code self.old self.new step result }
    {
        match step {
            Step::Enter(partition) => self.enter_at(partition, now),
            Step::Leave(partition, slot) => self.leave_at(partition, slot, now),
            Step::Refresh(partition, slot) => self.refresh_at(partition, slot, now),
            Step::ReadOnly(partition, page) => self.shift_at(partition, page, now),
            Step::Take(partition) => self.take_at(partition, now),
            Step::Write(partition, access) => self.write(partition, access),
            Step::Head(partition, page) => self.evict_at(partition, page, now),
            Step::Issue(partition, slot, op) => self.issue_at(functions, partition, slot, op, now),
            Step::Go(place) => self.go_at(functions, place, now),
            Step::Install(place) => self.install(functions, place),
            Step::Load(place, access) => self.load(functions, place, access),
            Step::GiveUp(place) => self.give_up_at(place, now),
            Step::Truncate(partition) => self.truncate_at(partition, now),
        }
    }

    /// Whether the operation that is open in a context waits for a page.
    pub fn awaits_page(&self, place: ContextId) -> bool
        ensures { result ≡ awaits_at (slice_get self.now.partitions place.partition) place.slot place.context }
    {
        match self.partitions.get(place.partition) {
            None => false,
            Some(partition) => partition.awaits_page(place.slot, place.context),
        }
    }

    /// The lives, in the order of the issues.
    pub fn lives(&self) -> &[LifeOf<F>]
        ensures { result.now ≡ self.now.lives }
    {
        self.lives.as_slice()
    }

    /// What holds of every state.
    pub fn sound(&self)
        ensures { IsState F.Key.cmp F.meaning F.code self.now }
    {
        let _moment = self.moment;
    }
}
