//! An operation that is driven to its end, event by event: what it asks for is built and handed in, or read.
ghost use Rattle.std.specs.Prelude.{◌≡◌, ◌≢◌, ◌+◌, ◌-◌, ◌*◌, ◌^◌, ◌<◌, ◌≤◌, ◌⊎◌, ◌↔◌, ℕ, false, None, Some, Err, IsTrue, IfOk, IfErr};
ghost use Rattle.std.specs.Prelude.{slice_get};
ghost use Rattle.fkv_partition.specs.Beginning.{IsFirstFree};
ghost use Rattle.fkv_partition.specs.Views.{PartitionView};
ghost use Rattle.fkv_partition.specs.Pending.{OthersPend, pending};
ghost use Rattle.fkv_partition.specs.Contexts.{joined, relocating};
ghost use Rattle.fkv_partition.specs.Events.{IsPassedOn};
ghost use Rattle.fkv_operations.specs.declared.operations.KeyedOp.{KeyedOp};
ghost use Rattle.fkv_alone.specs.Stages.{IsReady, HasCome};
ghost use Rattle.fkv_alone.specs.Bound.{IsNear, NoneClaims, rest_of, loads_of, may_load, IsNearer, loads_left, loads_now};
ghost use Rattle.fkv_alone.specs.Causes.{CanFailToRead};
ghost use Rattle.fkv_alone.specs.Ending.{Ends, IsOn, Drives, Advances};
ghost use Rattle.fkv_operations.specs.After.{key_of};

use fkv_device::{PageReader, Receipt};
use fkv_functions::{Built, Functions, Mergeable, Refused};
use fkv_operations::{Clock, KeyedOpOf};
use fkv_partition::{Partition, Progress, ProgressOf};

/// What became of an operation, and how many moments of the clock it took.
#[derive(Drop)]
pub struct Alone<K, V, I, O, R: Drop> {
    /// `Done` or `Waits`, or why it was refused.
    pub progress: Result<Progress<K, V, I, O, R>, Refused>,
    /// The moments that were taken from the clock, one for each event.
    pub events: u64,
}

/// The outcome of one type of functions on one kind of device.
pub type AloneOf<F, R> = Alone<
    <F as Functions>::Key,
    <F as Functions>::Value,
    <F as Functions>::Input,
    <F as Functions>::Output,
    R,
>;

/// Makes one event of an operation, by what it told last: it goes on, or what it asked for is built and installed, or
/// the page that it waits for is read.
fn step<F: Mergeable, R: Receipt, P: PageReader<Receipt = R>>(
    partition: &mut Partition<F, R>,
    slot: usize,
    context: usize,
    told: ProgressOf<F, R>,
    functions: &F,
    reader: &mut P,
    now: u64,
) -> Result<ProgressOf<F, R>, Refused>
    requires later { partition.old.moment < now }
    requires none { relocating (joined (slice_get partition.old.contexts (slot * 8 + context))) ≡ None }
    requires on { IsOn told }
    ensures advances { (op : KeyedOp F.Key F.Value F.Input) (old : PartitionView F.Key F.Value F.Input) (started : ℕ)
        → HasCome R.keeps R.stands F.Key.cmp F.parts.joined F.meaning F.code op old
        partition.old slot context started told
        → Advances R.keeps R.stands F.Key.cmp F.parts.joined F.meaning F.code op old
        partition.old partition.new slot context
        started (P.failures reader.old) (P.failures reader.new) result }
    ensures others { IsTrue R.keeps → OthersPend F.Key.cmp partition.old partition.new slot context }
    // on a device that keeps, where nobody is in its way, the operation comes nearer to its end
    ensures nearer { (n : ℕ) → IsTrue R.keeps
        → IsNear F.code partition.old slot context told n
        → IfOk result (λ progress. IsOn progress → IsNearer F.code partition.new slot context progress n) }
    // an upsert, a delete and a merge read no page
    ensures unread { (op : KeyedOp F.Key F.Value F.Input) (old : PartitionView F.Key F.Value F.Input) (started : ℕ)
        → HasCome R.keeps R.stands F.Key.cmp F.parts.joined F.meaning F.code op old
        partition.old slot context started told
        → may_load op ≡ false → reader.new ≡ reader.old }
    // a page is read where one was asked for, and there is a record for it
    ensures once { P.reads reader.new ≤ P.reads reader.old + loads_now told }
    ensures wanted { IsTrue R.keeps → (op : KeyedOp F.Key F.Value F.Input) (old : PartitionView F.Key F.Value F.Input) (started : ℕ)
        → HasCome R.keeps R.stands F.Key.cmp F.parts.joined F.meaning F.code op old
        partition.old slot context started told
        → loads_now told ≤ loads_left F.code old.records op told }
    ensures caused { P.failures reader.new ≢ P.failures reader.old → CanFailToRead R.stands P.can_fail }
    ensures rest { IsPassedOn partition.old partition.new }
    ensures past { partition.new.moment ≤ now }
{
    partition.facts();
    match told {
        Progress::Next => partition.go(slot, context, functions, now),
        Progress::NeedsBuild(ask) => {
            let built = Built::make(functions, ask);
            partition.install(slot, context, built, functions, now)
        }
        Progress::NeedsLoad(_receipt, _address) => {
            partition.load_by(slot, context, functions, reader, now)
        }
        Progress::Done(_, _) | Progress::Waits(_) => unreachable!(),
    }
}

/// Whether an operation is to go on that told this.
fn is_on<K, V, I, O, R: Drop>(told: &Progress<K, V, I, O, R>) -> bool
    ensures { IsTrue result ↔ IsOn told.now }
{
    match told {
        Progress::Next | Progress::NeedsBuild(_) | Progress::NeedsLoad(_, _) => true,
        Progress::Done(_, _) | Progress::Waits(_) => false,
    }
}

/// The moment of the first event, where one is allowed. Refused, in this order, and then nothing changes: `Stalled` where
/// no event is allowed, `Worn`.
fn first_moment(clock: &mut Clock, limit: u64) -> Result<u64, Refused>
    ensures ok { IfOk result (λ now. (now ≡ clock.old + 1) × (clock.new ≡ now) × (0 < limit)) }
    ensures refused { IfErr result (λ refused. (clock.new ≡ clock.old)
        × (((refused ≡ Refused.Stalled) × (limit ≡ 0))
        ⊎ ((refused ≡ Refused.Worn) × (0 < limit) × (clock.old ≡ 2 ^ 64 - 1)))) }
{
    if limit == 0 {
        return Err(Refused::Stalled);
    }
    clock.tick()
}

/// Goes on with an open operation until it is done, waits or is refused, by at most so many events, each at the next
/// moment of the clock. Refused: as the events are; `Worn` where the clock has no moment for the next event; `Stalled`.
fn drive<F: Mergeable, R: Receipt, P: PageReader<Receipt = R>>(
    partition: &mut Partition<F, R>,
    slot: usize,
    context: usize,
    functions: &F,
    reader: &mut P,
    clock: &mut Clock,
    left: u64,
) -> Result<ProgressOf<F, R>, Refused>
    requires past { partition.old.moment ≤ clock.old }
    requires none { relocating (joined (slice_get partition.old.contexts (slot * 8 + context))) ≡ None }
    ensures drives { (op : KeyedOp F.Key F.Value F.Input) (old : PartitionView F.Key F.Value F.Input) (started : ℕ)
        → IsReady op old partition.old slot context started
        → Drives R.keeps R.stands F.Key.cmp F.parts.joined F.meaning F.code
        op old partition.new slot context started left
        clock.old clock.new (P.failures reader.old) (P.failures reader.new) result }
    ensures others { IsTrue R.keeps → OthersPend F.Key.cmp partition.old partition.new slot context }
    ensures bound { (n : ℕ) → IsTrue R.keeps
        → IsNear {O = F.Output} {R = R} F.code partition.old slot context Progress.Next n
        → clock.new ≤ clock.old + n }
    ensures enough { (op : KeyedOp F.Key F.Value F.Input) (old : PartitionView F.Key F.Value F.Input) (started n : ℕ)
        → IsReady op old partition.old slot context started
        → IsTrue R.keeps
        → IsNear {O = F.Output} {R = R} F.code partition.old slot context Progress.Next n
        → n ≤ left → result ≢ Err Refused.Stalled }
    ensures within { clock.new ≤ clock.old + left }
    ensures unread { (op : KeyedOp F.Key F.Value F.Input) (old : PartitionView F.Key F.Value F.Input) (started : ℕ)
        → IsReady op old partition.old slot context started
        → may_load op ≡ false → reader.new ≡ reader.old }
    ensures loads { IsTrue R.keeps
        → (op : KeyedOp F.Key F.Value F.Input) (old : PartitionView F.Key F.Value F.Input) (started n : ℕ)
        → IsReady op old partition.old slot context started
        → IsNear {O = F.Output} {R = R} F.code partition.old slot context Progress.Next n
        → P.reads reader.new ≤ P.reads reader.old + loads_of F.code old.records op }
    ensures caused { P.failures reader.new ≢ P.failures reader.old → CanFailToRead R.stands P.can_fail }
    ensures rest { IsPassedOn partition.old partition.new }
    ensures past { partition.new.moment ≤ clock.new }
    ensures onward { clock.old ≤ clock.new }
{
    let mut told = Progress::Next;
    for _turn in 0..left {
        let now = match clock.tick() {
            Err(refused) => return Err(refused),
            Ok(now) => now,
        };
        let progress = match step(partition, slot, context, told, functions, reader, now) {
            Err(refused) => return Err(refused),
            Ok(progress) => progress,
        };
        if !is_on(&progress) {
            return Ok(progress);
        }
        told = progress;
    }
    Err(Refused::Stalled)
}

/// Issues an operation, goes on with it, and gives it up where it is refused.
fn attempt<F: Mergeable, R: Receipt, P: PageReader<Receipt = R>>(
    partition: &mut Partition<F, R>,
    slot: usize,
    op: KeyedOpOf<F>,
    functions: &F,
    reader: &mut P,
    clock: &mut Clock,
    limit: u64,
) -> Result<ProgressOf<F, R>, Refused>
    requires past { partition.old.moment ≤ clock.old }
    ensures ends { Ends R.keeps F.Key.cmp F.parts.joined F.meaning F.code op partition.old partition.new slot limit
        clock.old clock.new (P.failures reader.old) (P.failures reader.new) result }
    ensures others { IsTrue R.keeps → (s c : ℕ)
        → (s ≢ slot) ⊎ ¬ IsFirstFree partition.old slot (Some c)
        → pending F.Key.cmp partition.new s c ≡ pending F.Key.cmp partition.old s c }
    ensures bound { IsTrue R.keeps → NoneClaims partition.old
        → clock.new ≤ clock.old + (4 + rest_of F.code partition.old.records op) }
    ensures enough { IsTrue R.keeps → NoneClaims partition.old
        → 4 + rest_of F.code partition.old.records op ≤ limit
        → result ≢ Err Refused.Stalled }
    ensures within { clock.new ≤ clock.old + limit }
    ensures unread { may_load op ≡ false → reader.new ≡ reader.old }
    ensures loads { IsTrue R.keeps → NoneClaims partition.old
        → P.reads reader.new ≤ P.reads reader.old + loads_of F.code partition.old.records op }
    ensures caused { P.failures reader.new ≢ P.failures reader.old → CanFailToRead R.stands P.can_fail }
    ensures rest { IsPassedOn partition.old partition.new }
    ensures past { partition.new.moment ≤ clock.new }
    ensures onward { clock.old ≤ clock.new }
{
    // that a hash has 64 bits is known of one in hand
    let _hash = functions.hash(&op.key());
    partition.facts();
    let now = match first_moment(clock, limit) {
        Err(refused) => return Err(refused),
        Ok(now) => now,
    };
    let context = match partition.issue(slot, op.op(), functions, now) {
        Err(refused) => return Err(refused),
        Ok(context) => context,
    };
    match drive(
        partition,
        slot,
        context,
        functions,
        reader,
        clock,
        limit - 1,
    ) {
        Ok(progress) => Ok(progress),
        Err(refused) => {
            let _given_up = partition.give_up_untimed(slot, context);
            Err(refused)
        }
    }
}

/// Issues an operation on a key in a session, and goes on with it by the events of its partition, each at the next moment
/// of the clock, until it is done, waits or is refused, by at most `limit` events, the issue counted. What it asks for is
/// built and handed in, or read by `reader`. A relocation is no operation that is driven alone.
///
/// Where it waits, it stays open, in the context that was the session's lowest free one. Where it is refused it is
/// given up, without effect, which takes no moment. Relocations stay, and so does what is cleared.
///
/// # Errors
///
/// In this order: `Stalled` where `limit` is 0; `Worn` where the clock has no moment left; those of
/// [`Partition::issue`]; and then, as events come, `NoMemory`, `Worn` where no address is left, `Device` and `Damaged`
/// as the reader tells, `Damaged` where the bytes that were read spell no record, `Worn` where the clock has no moment
/// for the next event, and `Stalled` after `limit` events.
pub fn run_alone<F: Mergeable, R: Receipt, P: PageReader<Receipt = R>>(
    partition: &mut Partition<F, R>,
    slot: usize,
    op: KeyedOpOf<F>,
    functions: &F,
    reader: &mut P,
    clock: &mut Clock,
    limit: u64,
) -> AloneOf<F, R>
    requires past { partition.old.moment ≤ clock.old }
    ensures ends { Ends R.keeps F.Key.cmp F.parts.joined F.meaning F.code op partition.old partition.new slot limit
        clock.old clock.new (P.failures reader.old) (P.failures reader.new) result.progress }
    ensures events { clock.new ≡ clock.old + result.events }
    ensures within { result.events ≤ limit }
    // on a device that keeps, what the look-ups of all other contexts are to find stays
    ensures others { IsTrue R.keeps → (s c : ℕ)
        → (s ≢ slot) ⊎ ¬ IsFirstFree partition.old slot (Some c)
        → pending F.Key.cmp partition.new s c ≡ pending F.Key.cmp partition.old s c }
    // the issue, a claim, its confirmation and a look-up; and, of a read or an update, a load for each record of the class below
    // Head, and the install
    ensures bound { IsTrue R.keeps → NoneClaims partition.old
        → result.events ≤ 4 + rest_of F.code partition.old.records op }
    ensures enough { IsTrue R.keeps → NoneClaims partition.old
        → 4 + rest_of F.code partition.old.records op ≤ limit
        → result.progress ≢ Err Refused.Stalled }
    // an upsert, a delete and a merge read no page; a read or an update reads one at most for each record of the class below Head
    ensures unread { may_load op ≡ false → reader.new ≡ reader.old }
    ensures loads { IsTrue R.keeps → NoneClaims partition.old
        → P.reads reader.new ≤ P.reads reader.old + loads_of F.code partition.old.records op }
    // the reader fails only where a read can
    ensures caused { P.failures reader.new ≢ P.failures reader.old → CanFailToRead R.stands P.can_fail }
    // relocations stay, and what is cleared
    ensures rest { IsPassedOn partition.old partition.new }
    ensures past { partition.new.moment ≤ clock.new }
{
    let started = clock.last();
    let progress = attempt(partition, slot, op, functions, reader, clock, limit);
    let events = clock.last() - started;
    Alone { progress, events }
}
