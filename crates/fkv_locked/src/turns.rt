//! What an event of a caller's operation comes to, and what it adds to the history.
ghost use Rattle.std.specs.Prelude.{◌≡◌, ℕ, ◌+◌, ◌-◌, ◌^◌, ◌<◌, ◌≤◌, true, List, length, slice_index, slice_set, Some, IfOk, IfErr, OnOk, OnErr};
ghost use Rattle.fkv_operations.specs.Operations.{op_of};
ghost use Rattle.fkv_partition.specs.Effect.{asked};
ghost use Rattle.fkv_partition.specs.Views.{PartitionView};
ghost use Rattle.fkv_locked.specs.Kept.{seen, place_of, IsFaithful};
ghost use Rattle.fkv_locked.specs.Turns.{question_of, IsUnready, Turns, IsToldBy, IsGone, IsCome};

use crate::finished::{Finished, finish};
use crate::marks::{mark_at, set_mark};
use crate::open_operations::OpenOperationOf;
use fkv_device::Receipt;
use fkv_functions::{Ask, Functions, Mergeable, Refused, What};
use fkv_histories::{Entry, Recorder};
use fkv_operations::{Clock, is_same_op};
use fkv_partition::{Partition, Progress, ProgressOf, Wait};
use fkv_records::Address;

/// What an event of a caller's operation comes to. It is not let go, since what is finished is to be told.
pub enum Turn<K, V, I, O, R: Drop> {
    /// The operation is finished, with this entry, which stands in the history now.
    Done(Finished<K, V, I, O>),
    /// It is to go on.
    Next,
    /// It needs this question answered.
    NeedsBuild(Ask<K, V, I>),
    /// It needs the page of this address, to be read by this receipt.
    NeedsLoad(R, Address),
    /// It can't go on yet, for this reason; it is to be tried again.
    Waits(Wait),
}

/// The turns of one type of functions on one kind of device.
pub type TurnOf<F, R> = Turn<
    <F as Functions>::Key,
    <F as Functions>::Value,
    <F as Functions>::Input,
    <F as Functions>::Output,
    R,
>;

/// Makes ready for an event of an operation that may finish it: what is open is compared with what the caller asked, and
/// room is made for an entry. Answers the next moment. Refused, in this order, and then nothing changes: `Unknown` where
/// something else is open there, or nothing; `Stranger` where fewer updates stand there than the caller was told of; `Worn`
/// where the updates, the book or the clock have no next number; `NoMemory`.
pub(crate) fn make_ready<F: Mergeable, R: Receipt, H: Recorder<F>>(
    partition: &Partition<F, R>,
    history: &mut H,
    clock: &Clock,
    book: u64,
    operation: &OpenOperationOf<F>,
) -> Result<u64, Refused>
    ensures entries { H.entries history.new ≡ H.entries history.old }
    ensures count { H.count history.new ≡ H.count history.old }
    ensures spare { OnOk result (1 ≤ H.spare history.new) }
    ensures asks { OnOk result (asked partition.now operation.now.session.slot operation.now.context ≡ Some (question_of operation.now)) }
    ensures within { OnOk result ((operation.now.session.slot < 16) × (operation.now.context < 8)) }
    ensures now { IfOk result (λ now. now ≡ clock.now + 1) }
    ensures room { OnOk result ((H.count history.old < 2 ^ 64 - 1) × (book < 2 ^ 64 - 1)) }
    ensures told { OnOk result (operation.now.told ≤ H.count history.old) }
    ensures only { IfErr result (IsUnready (asked partition.now operation.now.session.slot operation.now.context)
        (H.count history.old) book clock.now operation.now) }
{
    let Ok((number, op)) = partition.asked(operation.session.slot, operation.context) else {
        return Err(Refused::Unknown);
    };
    if number != operation.number || !is_same_op::<F>(&op, &operation.op.op()) {
        return Err(Refused::Unknown);
    }
    let held = history.updates();
    if held < operation.told {
        return Err(Refused::Stranger {
            what: What::Pass,
            held,
            came: operation.told,
        });
    }
    if held == u64::MAX || book == u64::MAX {
        return Err(Refused::Worn);
    }
    let Some(now) = clock.last().checked_add(1) else {
        return Err(Refused::Worn);
    };
    match history.grow() {
        Err(refused) => Err(refused),
        Ok(()) => Ok(now),
    }
}

/// Notes what an event of an operation told, beside its partition: what is finished is added to the history, at the end of
/// its updates, and to the book; and where a page is asked for, it is kept how many updates stand there.
pub(crate) fn note<F: Mergeable, R: Receipt, H: Recorder<F>>(
    history: &mut H,
    lows: &Vec<u64>,
    looks: &mut Vec<u64>,
    book: &mut u64,
    operation: &OpenOperationOf<F>,
    progress: ProgressOf<F, R>,
) -> TurnOf<F, R>
    requires spare { 1 ≤ H.spare history.old }
    requires room { (H.count history.old < 2 ^ 64 - 1) × (book.old < 2 ^ 64 - 1) }
    requires told { operation.now.told ≤ H.count history.old }
    requires within { (operation.now.session.slot < 16) × (operation.now.context < 8) }
    requires marks { (length lows.now.items ≡ 128) × (length looks.old.items ≡ 128) }
    ensures kept { H.keeps ≡ true → (old new : PartitionView F.Key F.Value F.Input) (now : ℕ)
        → IsGone {R = R} F.Key.cmp F.meaning old new operation.now now progress
        → IsFaithful F.Key.cmp F.meaning (seen F.Key.cmp old) (H.entries history.old) lows.now.items looks.old.items book.old
        → IsFaithful F.Key.cmp F.meaning (seen F.Key.cmp new) (H.entries history.new) lows.now.items looks.new.items
        book.new }
    ensures marks { length looks.new.items ≡ 128 }
    ensures turns { Turns H.keeps (H.count history.old)
        (slice_set looks.old.items (place_of operation.now.session.slot operation.now.context) (H.count history.old))
        (record {
          entries = H.entries history.old;
          count = H.count history.old;
          lows = lows.now.items;
          looks = looks.old.items;
          book = book.old;
        })
        (record {
          entries = H.entries history.new;
          count = H.count history.new;
          lows = lows.now.items;
          looks = looks.new.items;
          book = book.new;
        }) operation.now result }
    ensures tells { IsToldBy progress result }
{
    let at = history.updates();
    match progress {
        Progress::Next => Turn::Next,
        Progress::NeedsBuild(ask) => Turn::NeedsBuild(ask),
        Progress::Waits(why) => Turn::Waits(why),
        Progress::NeedsLoad(receipt, address) => {
            set_mark(looks, operation.session.slot, operation.context, at);
            Turn::NeedsLoad(receipt, address)
        }
        Progress::Done(answer, _effect) => {
            let entry = Entry {
                session: operation.session.number,
                number: operation.number,
                op: operation.op,
                answer,
                low: mark_at(lows, operation.session.slot, operation.context),
                at,
                high: at,
            };
            Turn::Done(finish::<F, H>(history, book, entry))
        }
    }
}

/// Notes what a page that came made of an operation, whose look-up was made when so many updates stood: a read that is
/// finished stands there among the updates.
pub(crate) fn note_loaded<F: Mergeable, R: Receipt, H: Recorder<F>>(
    history: &mut H,
    lows: &Vec<u64>,
    look: u64,
    book: &mut u64,
    operation: &OpenOperationOf<F>,
    progress: ProgressOf<F, R>,
) -> TurnOf<F, R>
    requires spare { 1 ≤ H.spare history.old }
    requires room { (H.count history.old < 2 ^ 64 - 1) × (book.old < 2 ^ 64 - 1) × (look < 2 ^ 64 - 1) }
    requires told { operation.now.told ≤ look }
    requires within { (operation.now.session.slot < 16) × (operation.now.context < 8) }
    requires marks { length lows.now.items ≡ 128 }
    ensures kept { H.keeps ≡ true → (old new : PartitionView F.Key F.Value F.Input) (looks : List ℕ)
        → look ≡ slice_index looks (place_of operation.now.session.slot operation.now.context)
        → IsCome {R = R} F.Key.cmp F.meaning old new operation.now progress
        → IsFaithful F.Key.cmp F.meaning (seen F.Key.cmp old) (H.entries history.old) lows.now.items looks book.old
        → IsFaithful F.Key.cmp F.meaning (seen F.Key.cmp new) (H.entries history.new) lows.now.items looks book.new }
    ensures turns { (looks : List ℕ) → Turns H.keeps look looks
        (record {
          entries = H.entries history.old;
          count = H.count history.old;
          lows = lows.now.items;
          looks = looks;
          book = book.old;
        })
        (record {
          entries = H.entries history.new;
          count = H.count history.new;
          lows = lows.now.items;
          looks = looks;
          book = book.new;
        }) operation.now result }
    ensures tells { IsToldBy progress result }
{
    let high = history.updates();
    match progress {
        Progress::Next => Turn::Next,
        Progress::NeedsBuild(ask) => Turn::NeedsBuild(ask),
        Progress::Waits(why) => Turn::Waits(why),
        Progress::NeedsLoad(receipt, address) => Turn::NeedsLoad(receipt, address),
        Progress::Done(answer, _effect) => {
            let entry = Entry {
                session: operation.session.number,
                number: operation.number,
                op: operation.op,
                answer,
                low: mark_at(lows, operation.session.slot, operation.context),
                at: look,
                high,
            };
            Turn::Done(finish::<F, H>(history, book, entry))
        }
    }
}
