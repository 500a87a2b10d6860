//! Compactors of a locked partition: each call is one event, but for `part`, which gives up first what is open. Relocations
//! are operations on no key: none stands in the history, so a compactor's session has no number as a caller's has.
ghost use Rattle.std.specs.Prelude.{◌≡◌, ◌+◌, ◌-◌, ◌^◌, ◌<◌, ◌⊎◌, ℕ, Ok, Err, Some, IfOk, IfErr, IfSome, OnOk, OnErr};
ghost use Rattle.fkv_records.specs.Places.{page_at, start_at};
ghost use Rattle.fkv_hybrid.specs.Spelled.{IsEntryIn};
ghost use Rattle.fkv_operations.specs.declared.operations.Answer.TheVariants.{Cleared};
ghost use Rattle.fkv_partition.specs.Beginning.{IsFirstOpen};
ghost use Rattle.fkv_partition.specs.Events.{Enters, Refreshes};
ghost use Rattle.fkv_partition.specs.declared.contexts.Progress.TheVariants.{Done};
ghost use Rattle.fkv_partition.specs.Truncating.{Truncates, told_of};
ghost use Rattle.fkv_partition.specs.Views.{relocation_at};
ghost use Rattle.fkv_compaction.specs.Compactor.{CompactsNext, CompactsLoad, Parts};
ghost use Rattle.fkv_locked.specs.Locks.{IsTimed, with_partition};
ghost use Rattle.fkv_locked.specs.Compacting.{IsRelocationProgress, IsRelocationRefused};

use crate::locked::{Locked, next_moment};
use crate::open_operations::SessionId;
use fkv_compaction::Compactor;
use fkv_device::{Loaded, Receipt};
use fkv_functions::{Mergeable, Refused};
use fkv_histories::Recorder;
use fkv_operations::Clock;
use fkv_partition::ProgressOf;
use fkv_records::Address;

impl<F: Mergeable, R: Receipt, H: Recorder<F>> Locked<F, R, H> {
    /// A compactor joins, as [`Compactor::join`] does, whose refusals it has after `Worn` where there is no next moment; then
    /// nothing changes.
    pub fn join(&mut self) -> Result<Compactor, Refused>
        ensures effect { IsTimed self.old.clock result
            (Enters self.old.partition self.new.partition (self.old.clock + 1) result) }
        ensures within { IfOk result (λ slot. slot < 16) }
        ensures after { OnOk result (self.new ≡ with_partition self.old self.new.partition) }
        ensures unchanged { OnErr result (self.new ≡ self.old) }
    {
        let Some(now) = next_moment(&self.clock) else {
            return Err(Refused::Worn);
        };
        match Compactor::join(&mut self.partition, now) {
            Err(refused) => Err(refused),
            Ok(compactor) => {
                self.clock = Clock::starting(now);
                Ok(compactor)
            }
        }
    }

    /// A compactor's session is refreshed, as [`Locked::refresh`] refreshes a caller's: a relocation is due only below what
    /// its session saw then as safely read-only, and a session that is not refreshed holds the offsets back. Refused, in this
    /// order, and then nothing changes: `Worn` where there is no next moment, `Unknown` where its slot is that of no session.
    pub fn refresh_compactor(&mut self, compactor: &Compactor) -> Result<(), Refused>
        ensures effect { IsTimed self.old.clock result
            (Refreshes R.keeps self.old.partition self.new.partition compactor.now (self.old.clock + 1) result) }
        ensures after { OnOk result (self.new ≡ with_partition self.old self.new.partition) }
        ensures unchanged { OnErr result (self.new ≡ self.old) }
    {
        // no caller's session has this number, and the event asks for none
        self.refresh(SessionId {
            slot: compactor.slot(),
            number: 0,
        })
    }

    /// A compactor takes its next step, as [`Compactor::next`] does, whose refusals it has after `Worn` where there is no
    /// next moment; then nothing changes. It asks for nothing to be built.
    pub fn next(
        &mut self,
        compactor: &Compactor,
        functions: &F,
    ) -> Result<ProgressOf<F, R>, Refused>
        ensures effect { IsTimed self.old.clock result (CompactsNext R.stands F.Key.cmp F.parts.joined F.meaning F.code
            self.old.partition self.new.partition compactor.now (self.old.clock + 1) result) }
        ensures tells { IfOk result (IsRelocationProgress (self.old.clock + 1)) }
        ensures cleared { result ≡ Ok (Done Cleared (self.old.clock + 1)) → (c : ℕ)
            → IsFirstOpen self.old.partition compactor.now (Some c)
            → IfSome (relocation_at self.old.partition compactor.now c) (λ x. x.target < self.new.partition.cleared) }
        ensures after { OnOk result (self.new ≡ with_partition self.old self.new.partition) }
        ensures unchanged { OnErr result (self.new ≡ self.old) }
    {
        let Some(now) = next_moment(&self.clock) else {
            return Err(Refused::Worn);
        };
        match compactor.next(&mut self.partition, functions, now) {
            Err(refused) => Err(refused),
            Ok(progress) => {
                self.clock = Clock::starting(now);
                Ok(progress)
            }
        }
    }

    /// A compactor goes on with the page that it waits for, or with the refusal that came in its place, as
    /// [`Compactor::load`] does. Refused, in this order: `Worn` where there is no next moment, and then nothing changes; and
    /// what that refuses, which takes a moment, and may give the relocation up.
    pub fn load_relocation(
        &mut self,
        compactor: &Compactor,
        came: Result<Loaded<R>, Refused>,
        functions: &F,
    ) -> Result<ProgressOf<F, R>, Refused>
        ensures effect { IsTimed self.old.clock result (CompactsLoad R.stands (IsEntryIn F.Key.codec F.Value.codec) F.Key.cmp F.parts.joined F.meaning F.code
            self.old.partition self.new.partition compactor.now came (self.old.clock + 1) result) }
        ensures tells { IfOk result (IsRelocationProgress (self.old.clock + 1)) }
        ensures cleared { result ≡ Ok (Done Cleared (self.old.clock + 1)) → (c : ℕ)
            → IsFirstOpen self.old.partition compactor.now (Some c)
            → IfSome (relocation_at self.old.partition compactor.now c) (λ x. x.target < self.new.partition.cleared) }
        ensures after { OnOk result (self.new ≡ with_partition self.old self.new.partition) }
        ensures refused { IfErr result (λ _. ((self.old.clock ≡ 2 ^ 64 - 1) × (self.new ≡ self.old))
            ⊎ IsRelocationRefused self.old self.new compactor.now) }
    {
        let Some(now) = next_moment(&self.clock) else {
            return Err(Refused::Worn);
        };
        self.clock = Clock::starting(now);
        compactor.load(&mut self.partition, came, functions, now)
    }

    /// Begin moves to the start of the page up to which all is cleared, as [`Compactor::truncate_cleared`] does, whose
    /// refusals it has after `Worn` where there is no next moment; then nothing changes.
    pub fn truncate_cleared(&mut self, compactor: &Compactor) -> Result<Address, Refused>
        ensures effect { IsTimed self.old.clock result (Truncates R.keeps self.old.partition self.new.partition
            (page_at self.old.partition.records.log.bits self.old.partition.cleared) (self.old.clock + 1)
            (told_of result)) }
        ensures begin { IfOk result (λ begin. (begin ≡ self.new.partition.records.log.begin)
            × (begin ≡ start_at self.old.partition.records.log.bits
            (page_at self.old.partition.records.log.bits self.old.partition.cleared))) }
        ensures after { OnOk result (self.new ≡ with_partition self.old self.new.partition) }
        ensures unchanged { OnErr result (self.new ≡ self.old) }
    {
        let Some(now) = next_moment(&self.clock) else {
            return Err(Refused::Worn);
        };
        match compactor.truncate_cleared(&mut self.partition, now) {
            Err(refused) => Err(refused),
            Ok(begin) => {
                self.clock = Clock::starting(now);
                Ok(begin)
            }
        }
    }

    /// A compactor parts, as [`Compactor::part`] does, whose refusals it has: its relocations that are open are given up,
    /// each at a moment, and its session is left at one more. Where fewer than nine moments are left it is `Worn`, and nothing
    /// changes.
    pub fn part(&mut self, compactor: Compactor) -> Result<(), Refused>
        ensures effect { Parts R.keeps self.old.partition self.new.partition compactor self.old.clock self.new.clock
            result }
        ensures after { self.new
            ≡ record self.old { partition = self.new.partition; clock = self.new.clock } }
    {
        compactor.part(&mut self.partition, &mut self.clock)
    }
}
