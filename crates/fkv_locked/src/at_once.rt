//! Operations of callers that are issued and finished in one call: most updates of a feed are such, and most reads.
ghost use Rattle.std.specs.Prelude.{◌≡◌, ◌+◌, ◌-◌, ◌^◌, ◌<◌, ◌≤◌, ◌↔◌, true, None, Ok, IsTrue, IfOk, IfErr, IfSome, OnOk, OnErr};
ghost use Rattle.fkv_operations.specs.declared.operations.Answer.{Answer};
ghost use Rattle.fkv_operations.specs.declared.operations.KeyedOp.TheVariants.{Read};
ghost use Rattle.fkv_partition.specs.AtOnce.{IsAtHand, IsDoneAtOnce, IsReadAtOnce};
ghost use Rattle.fkv_partition.specs.KeyAtOnce.{AsksForPage};
ghost use Rattle.fkv_partition.specs.KeyBeginning.{IsEntered};
ghost use Rattle.fkv_partition.specs.Views.{MayNeedPage, partition_of};
ghost use Rattle.fkv_locked.specs.AtOnce.{IsUnfit, IsNoted, entry_at_once};

use crate::finished::{FinishedOf, finish};
use crate::locked::Locked;
use crate::open_operations::SessionId;
use fkv_device::Receipt;
use fkv_functions::{Mergeable, Refused, What};
use fkv_histories::{Entry, Recorder};
use fkv_operations::{Clock, KeyedOp, KeyedOpOf};
use fkv_partition::pendings_stay;

/// How many updates stand where an operation is issued and finished at once, and the second of its two moments.
#[derive(Clone, Copy)]
struct AtOnce {
    at: u64,
    now: u64,
}

/// Makes ready for an operation of a caller, which was told of so many updates, that is issued and finished at once: room is made
/// for an entry. Refused, in this order, and then nothing changes: `Stranger` where fewer updates stand there; `Worn` where the
/// updates or the book have no next number, or the clock has no two; `NoMemory`.
#[inline(always)]
fn make_ready_at_once<F: Mergeable, H: Recorder<F>>(
    history: &mut H,
    clock: &Clock,
    book: u64,
    told: u64,
) -> Result<AtOnce, Refused>
    ensures entries { H.entries history.new ≡ H.entries history.old }
    ensures count { H.count history.new ≡ H.count history.old }
    ensures spare { OnOk result (1 ≤ H.spare history.new) }
    ensures at { IfOk result (λ ready. ready.at ≡ H.count history.old) }
    ensures now { IfOk result (λ ready. ready.now ≡ clock.now + 2) }
    ensures room { OnOk result ((H.count history.old < 2 ^ 64 - 1) × (book < 2 ^ 64 - 1)) }
    ensures told { OnOk result (told ≤ H.count history.old) }
    ensures only { IfErr result (IsUnfit (H.count history.old) book clock.now told) }
{
    let at = history.updates();
    if at < told {
        return Err(Refused::Stranger {
            what: What::Pass,
            held: at,
            came: told,
        });
    }
    if at == u64::MAX || book == u64::MAX {
        return Err(Refused::Worn);
    }
    let Some(now) = clock.last().checked_add(2) else {
        return Err(Refused::Worn);
    };
    match history.grow() {
        Err(refused) => Err(refused),
        Ok(()) => Ok(AtOnce { at, now }),
    }
}

impl<F: Mergeable, R: Receipt, H: Recorder<F>> Locked<F, R, H> {
    /// Issues an operation in a session of a caller, which was told of so many updates, and finishes it, where it writes where the
    /// last record of its key stands: what [`Locked::issue`] and [`Locked::go`] do then, at two moments, but no context is written
    /// and read again, and no mark. Answers its entry, which is noted, or `None` where it is a read or a merge, can't be issued or
    /// would not be finished so, and then nothing changes. Refused, in this order, and then nothing changes: `Stranger` where fewer
    /// updates stand there; `Worn` where the updates or the book have no next number, or the clock has no two; `NoMemory`.
    #[inline(always)]
    pub fn try_write_in_place(
        &mut self,
        session: SessionId,
        op: &KeyedOpOf<F>,
        told: u64,
        functions: &F,
    ) -> Result<Option<FinishedOf<F>>, Refused>
        ensures done { IfOk result (λ done. IfSome done (λ e. (answer : Answer F.Output)
            × (e ≡ entry_at_once self.old session op.now answer)
            × IsDoneAtOnce R.stands F.Key.cmp F.parts.joined F.meaning F.code
            self.old.partition self.new.partition session.slot op.now (self.old.clock + 1) (self.old.clock + 2) answer)) }
        ensures after { IfOk result (λ done. IfSome done (IsNoted H.keeps self.old self.new)) }
        ensures fresh { IfOk result (λ done. IfSome done (λ e. (told ≤ e.at) × (e.at < 2 ^ 64 - 1))) }
        ensures left { result ≡ Ok None
            → ¬ (IsAtHand F.Key.cmp F.parts.joined F.meaning F.code self.old.partition session.slot op.now) }
        ensures none { result ≡ Ok None → self.new ≡ self.old }
        ensures refused { IfErr result (IsUnfit self.old.count self.old.book self.old.clock told) }
        ensures unchanged { OnErr result (self.new ≡ self.old) }
    {
        pendings_stay::<F::Key, F::Value, F::Input, F::Output, R>();
        let Locked {
            partition,
            history,
            clock,
            book,
            ..
        } = self;
        let ready = match make_ready_at_once::<F, H>(history, clock, *book, told) {
            Err(refused) => return Err(refused),
            Ok(ready) => ready,
        };
        partition.facts();
        let AtOnce { at, now } = ready;
        let issued = now - 1;
        let Some(answer) = partition.try_write_in_place(session.slot, op, functions, issued, now)
        else {
            return Ok(None);
        };
        *clock = Clock::starting(now);
        let entry = Entry {
            session: session.number,
            number: issued,
            op: *op,
            answer,
            low: at,
            at,
            high: at,
        };
        Ok(Some(finish::<F, H>(history, book, entry)))
    }

    /// Whether the last record of a key that a session of a caller reads in memory, if any, has no value of the key: as
    /// [`fkv_partition::Partition::may_need_page`] tells.
    pub fn may_need_page(&self, session: SessionId, key: &F::Key, functions: &F) -> bool
        ensures { IsTrue result ↔ MayNeedPage F.Key.cmp F.code self.now.partition session.slot key.now }
    {
        self.partition.may_need_page(session.slot, functions, key)
    }

    /// Issues a read of a key in a session of a caller, which was told of so many updates, and finishes it, where no page has to
    /// be read for it: what [`Locked::issue`] and [`Locked::go`] answer then, at two moments, but the partition is left as it is,
    /// and no mark changes. Answers its entry, which is noted, or `None` where the slot is that of no session, the key belongs to
    /// another partition, or the read would ask for a page, and then nothing changes. Refused as [`Locked::try_write_in_place`] is,
    /// and then nothing changes.
    pub fn try_read_in_memory(
        &mut self,
        session: SessionId,
        key: &F::Key,
        input: &F::Input,
        told: u64,
        functions: &F,
    ) -> Result<Option<FinishedOf<F>>, Refused>
        ensures done { IfOk result (λ done. IfSome done (λ e. (answer : Answer F.Output)
            × (e ≡ entry_at_once self.old session (Read key.now input.now) answer)
            × IsReadAtOnce F.Key.cmp F.parts.joined F.meaning F.code self.old.partition session.slot key.now input.now answer)) }
        ensures after { IfOk result (λ done. IfSome done (IsNoted H.keeps self.old self.new)) }
        ensures still { self.new.partition ≡ self.old.partition }
        ensures fresh { IfOk result (λ done. IfSome done (λ e. (told ≤ e.at) × (e.at < 2 ^ 64 - 1))) }
        ensures left { result ≡ Ok None → IsEntered self.old.partition session.slot
            → partition_of self.old.partition.count (F.code key.now) ≡ self.old.partition.number
            → AsksForPage F.Key.cmp F.parts.joined F.meaning F.code self.old.partition session.slot key.now input.now }
        ensures none { result ≡ Ok None → self.new ≡ self.old }
        ensures refused { IfErr result (IsUnfit self.old.count self.old.book self.old.clock told) }
        ensures unchanged { OnErr result (self.new ≡ self.old) }
    {
        let Locked {
            partition,
            history,
            clock,
            book,
            ..
        } = self;
        let ready = match make_ready_at_once::<F, H>(history, clock, *book, told) {
            Err(refused) => return Err(refused),
            Ok(ready) => ready,
        };
        let Some(answer) = partition.try_read_in_memory(session.slot, key, input, functions) else {
            return Ok(None);
        };
        let AtOnce { at, now } = ready;
        *clock = Clock::starting(now);
        let entry = Entry {
            session: session.number,
            number: now - 1,
            op: KeyedOp::Read(*key, *input),
            answer,
            low: at,
            at,
            high: at,
        };
        Ok(Some(finish::<F, H>(history, book, entry)))
    }
}
