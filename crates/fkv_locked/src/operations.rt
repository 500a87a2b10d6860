//! Operations of callers in a locked partition: each call is one event, and what it finishes is noted in the same call.
ghost use Rattle.std.specs.Prelude.{◌≡◌, ◌≢◌, ◌+◌, ◌-◌, ◌^◌, ◌<◌, ◌≤◌, ◌⊎◌, ◌↔◌, ℕ, IsTrue, Some, Ok, Err, IfOk, IfErr, OnOk, OnErr, length, slice_index};
ghost use Rattle.fkv_hybrid.specs.Spelled.{IsEntryIn};
ghost use Rattle.fkv_operations.specs.Operations.{op_of};
ghost use Rattle.fkv_partition.specs.Effect.{asked, IsGiveUp};
ghost use Rattle.fkv_partition.specs.Events.{Issues, Goes, Installs, Loads, GivesUp};
ghost use Rattle.fkv_locked.specs.Kept.{place_of};
ghost use Rattle.fkv_locked.specs.Locks.{IsTimed, noted, with_partition, with_turn, with_issue, looks_now, IsLoadRefused};
ghost use Rattle.fkv_locked.specs.Marks.{Marks, IsOpen, mark_of};
ghost use Rattle.fkv_locked.specs.Turns.{question_of, IsUnheard, IsUnready, IsLookedEarly, Turns, IsToldBy};

use crate::locked::{Locked, next_moment};
use crate::marks::{mark_at, set_mark};
use crate::open_operations::{OpenOperation, OpenOperationOf, SessionId};
use crate::turns::{TurnOf, make_ready, note, note_loaded};
use fkv_device::{Loaded, Receipt};
use fkv_functions::{Built, Mergeable, Refused, What};
use fkv_histories::Recorder;
use fkv_operations::{Clock, KeyedOpOf, is_same_op};
use fkv_partition::Partition;

/// Whether a caller's operation is open in its context.
fn is_open<F: Mergeable, R: Receipt>(
    partition: &Partition<F, R>,
    operation: &OpenOperationOf<F>,
) -> bool
    ensures { IsTrue result
        ↔ (asked partition.now operation.now.session.slot operation.now.context ≡ Some (question_of operation.now)) }
{
    match partition.asked(operation.session.slot, operation.context) {
        Err(_unknown) => false,
        Ok((number, op)) => number == operation.number && is_same_op::<F>(&op, &operation.op.op()),
    }
}

impl<F: Mergeable, R: Receipt, H: Recorder<F>> Locked<F, R, H> {
    /// Issues an operation in a session of a caller, which was told of so many updates. Refused, in this order, and then
    /// nothing changes: `Stranger` where fewer updates stand there, `Worn` where there is no next moment, and what
    /// [`fkv_partition::Partition::issue`] refuses.
    pub fn issue(
        &mut self,
        session: SessionId,
        op: KeyedOpOf<F>,
        told: u64,
        functions: &F,
    ) -> Result<OpenOperationOf<F>, Refused>
        ensures issues { IfOk result (λ operation.
            Issues F.code self.old.partition self.new.partition session.slot (op_of op) (self.old.clock + 1) (Ok operation.context)) }
        ensures operation { IfOk result (λ operation. operation
            ≡ record { session = session; context = operation.context; number = self.old.clock + 1; op = op; told = told }) }
        ensures fresh { IfOk result (λ _. told ≤ self.old.count) }
        ensures after { IfOk result (λ operation.
            self.new ≡ with_issue self.old self.new.partition session.slot operation.context) }
        ensures opens { IfOk result (λ operation. IsOpen operation self.new) }
        ensures marks { OnOk result (Marks self.old self.new) }
        ensures mark { IfOk result (λ operation. mark_of operation self.new ≡ self.old.count) }
        ensures refused { IfErr result (λ why. IsUnheard self.old.count self.old.clock told why
            ⊎ Issues F.code self.old.partition self.new.partition session.slot (op_of op) (self.old.clock + 1) (Err why)) }
        ensures unchanged { OnErr result (self.new ≡ self.old) }
    {
        let held = self.history.updates();
        if held < told {
            return Err(Refused::Stranger {
                what: What::Pass,
                held,
                came: told,
            });
        }
        let Some(now) = next_moment(&self.clock) else {
            return Err(Refused::Worn);
        };
        match self.partition.issue(session.slot, op.op(), functions, now) {
            Err(refused) => Err(refused),
            Ok(context) => {
                set_mark(&mut self.lows, session.slot, context, held);
                self.clock = Clock::starting(now);
                Ok(OpenOperation {
                    session,
                    context,
                    number: now,
                    op,
                    told,
                })
            }
        }
    }

    /// Goes on with an operation of a caller, as [`fkv_partition::Partition::go`] does. Refused, in this order, and then
    /// nothing changes: `Unknown` where something else is open in its context, or nothing; `Stranger` where fewer updates
    /// stand there than the caller was told of; `Worn` where the updates, the book or the clock have no next number;
    /// `NoMemory`; and what that refuses.
    pub fn go(
        &mut self,
        operation: &OpenOperationOf<F>,
        functions: &F,
    ) -> Result<TurnOf<F, R>, Refused>
        ensures effect { IfOk result (λ turn. (p : _) × Goes R.stands F.Key.cmp F.parts.joined F.meaning F.code
            self.old.partition
            self.new.partition operation.now.session.slot operation.now.context (self.old.clock + 1) (Ok p) × IsToldBy p turn) }
        ensures open { OnOk result (IsOpen operation.now self.old) }
        ensures turns { IfOk result (Turns H.keeps self.old.count (looks_now self.old operation.now) (noted self.old)
            (noted self.new) operation.now) }
        ensures after { OnOk result (self.new ≡ with_turn self.old self.new) }
        ensures refused { IfErr result (λ why.
            IsUnready (asked self.old.partition operation.now.session.slot operation.now.context) self.old.count self.old.book
            self.old.clock operation.now why
            ⊎ Goes R.stands F.Key.cmp F.parts.joined F.meaning F.code
            self.old.partition self.new.partition operation.now.session.slot operation.now.context (self.old.clock + 1) (Err why)) }
        ensures unchanged { OnErr result (self.new ≡ self.old) }
    {
        let Locked {
            partition,
            history,
            lows,
            looks,
            clock,
            book,
            ..
        } = self;
        let now = match make_ready(partition, history, clock, *book, operation) {
            Err(refused) => return Err(refused),
            Ok(now) => now,
        };
        let progress = match partition.go(
            operation.session.slot,
            operation.context,
            functions,
            now,
        ) {
            Err(refused) => return Err(refused),
            Ok(progress) => progress,
        };
        *clock = Clock::starting(now);
        Ok(note::<F, R, H>(history, lows, looks, book, operation, progress))
    }

    /// Installs what was built for an operation of a caller, as [`fkv_partition::Partition::install`] does. Refused as
    /// [`Locked::go`] is, with what that refuses, and then nothing changes.
    pub fn install(
        &mut self,
        operation: &OpenOperationOf<F>,
        built: Built<F>,
        functions: &F,
    ) -> Result<TurnOf<F, R>, Refused>
        ensures effect { IfOk result (λ turn. (p : _) × Installs F.Key.cmp F.meaning F.code self.old.partition
            self.new.partition operation.now.session.slot operation.now.context built (self.old.clock + 1) (Ok p) × IsToldBy p turn) }
        ensures open { OnOk result (IsOpen operation.now self.old) }
        ensures turns { IfOk result (Turns H.keeps self.old.count (looks_now self.old operation.now) (noted self.old)
            (noted self.new) operation.now) }
        ensures after { OnOk result (self.new ≡ with_turn self.old self.new) }
        ensures refused { IfErr result (λ why.
            IsUnready (asked self.old.partition operation.now.session.slot operation.now.context) self.old.count self.old.book
            self.old.clock operation.now why
            ⊎ Installs {R = R} F.Key.cmp F.meaning F.code self.old.partition self.new.partition operation.now.session.slot
            operation.now.context built (self.old.clock + 1) (Err why)) }
        ensures unchanged { OnErr result (self.new ≡ self.old) }
    {
        let Locked {
            partition,
            history,
            lows,
            looks,
            clock,
            book,
            ..
        } = self;
        let now = match make_ready(partition, history, clock, *book, operation) {
            Err(refused) => return Err(refused),
            Ok(now) => now,
        };
        let progress = match partition.install(
            operation.session.slot,
            operation.context,
            built,
            functions,
            now,
        ) {
            Err(refused) => return Err(refused),
            Ok(progress) => progress,
        };
        *clock = Clock::starting(now);
        Ok(note::<F, R, H>(history, lows, looks, book, operation, progress))
    }

    /// Goes on with an operation of a caller for which a page came, or a refusal in its place, as
    /// [`fkv_partition::Partition::load`] does. Refused, in this order: as [`Locked::go`] is, and then nothing changes;
    /// `Stranger` where its last look-up was made when fewer updates stood than the caller was told of, and then nothing
    /// changes; and what that refuses, which may end the operation without effect.
    pub fn load(
        &mut self,
        operation: &OpenOperationOf<F>,
        came: Result<Loaded<R>, Refused>,
        functions: &F,
    ) -> Result<TurnOf<F, R>, Refused>
        ensures effect { IfOk result (λ turn. (p : _)
            × Loads R.stands (IsEntryIn F.Key.codec F.Value.codec) F.Key.cmp F.parts.joined F.meaning F.code
            self.old.partition self.new.partition operation.now.session.slot operation.now.context came (self.old.clock + 1) (Ok p)
            × IsToldBy p turn) }
        ensures open { OnOk result (IsOpen operation.now self.old) }
        ensures turns { IfOk result (Turns H.keeps
            (slice_index self.old.looks (place_of operation.now.session.slot operation.now.context)) self.old.looks (noted self.old)
            (noted self.new) operation.now) }
        ensures after { OnOk result (self.new ≡ with_turn self.old self.new) }
        ensures refused { IfErr result (λ why.
            IsUnready (asked self.old.partition operation.now.session.slot operation.now.context) self.old.count self.old.book
            self.old.clock operation.now why
            ⊎ IsLookedEarly (slice_index self.old.looks (place_of operation.now.session.slot operation.now.context)) operation.now why
            ⊎ Loads R.stands (IsEntryIn F.Key.codec F.Value.codec) F.Key.cmp F.parts.joined F.meaning F.code
            self.old.partition self.new.partition operation.now.session.slot
            operation.now.context came (self.old.clock + 1) (Err why)) }
        ensures left { IfErr result (λ _. (self.new ≡ self.old) ⊎ IsLoadRefused self.old self.new operation.now) }
        // on a device that keeps it finds no damage, and tells only of what came in place of the page
        ensures undamaged { IsTrue R.keeps → (page : ℕ) → result ≡ Err (Refused.Damaged page) → came ≡ Err (Refused.Damaged page) }
    {
        let Locked {
            partition,
            history,
            lows,
            looks,
            clock,
            book,
            ..
        } = self;
        let now = match make_ready(partition, history, clock, *book, operation) {
            Err(refused) => return Err(refused),
            Ok(now) => now,
        };
        let look = mark_at(looks, operation.session.slot, operation.context);
        if look < operation.told || look == u64::MAX {
            return Err(Refused::Stranger {
                what: What::Pass,
                held: look,
                came: operation.told,
            });
        }
        partition.facts();
        *clock = Clock::starting(now);
        let progress = match partition.load(
            operation.session.slot,
            operation.context,
            came,
            functions,
            now,
        ) {
            Err(refused) => return Err(refused),
            Ok(progress) => progress,
        };
        Ok(note_loaded::<F, R, H>(history, lows, look, book, operation, progress))
    }

    /// Gives an operation of a caller up: it ends without effect. Refused, in this order, and then nothing changes: `Unknown`
    /// where something else is open in its context, or nothing; `Worn` where there is no next moment.
    pub fn give_up(&mut self, operation: &OpenOperationOf<F>) -> Result<(), Refused>
        ensures effect { OnOk result (GivesUp self.old.partition self.new.partition operation.now.session.slot operation.now.context
            (self.old.clock + 1) (Ok tt)) }
        ensures open { OnOk result (IsOpen operation.now self.old) }
        ensures after { OnOk result (self.new ≡ with_partition self.old self.new.partition) }
        ensures refused { IfErr result (λ why.
            ((why ≡ Refused.Unknown)
            × (asked self.old.partition operation.now.session.slot operation.now.context ≢ Some (question_of operation.now)))
            ⊎ ((why ≡ Refused.Worn) × (self.old.clock ≡ 2 ^ 64 - 1))
            ⊎ GivesUp self.old.partition self.new.partition operation.now.session.slot operation.now.context (self.old.clock + 1)
            (Err why)) }
        ensures unchanged { OnErr result (self.new ≡ self.old) }
    {
        if !is_open::<F, R>(&self.partition, operation) {
            return Err(Refused::Unknown);
        }
        let Some(now) = next_moment(&self.clock) else {
            return Err(Refused::Worn);
        };
        match self
            .partition
            .give_up(operation.session.slot, operation.context, now)
        {
            Err(refused) => Err(refused),
            Ok(()) => {
                self.clock = Clock::starting(now);
                Ok(())
            }
        }
    }
}
