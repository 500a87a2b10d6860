//! The tables of a world: who sits in a slot, what began in a context, and what it asked for last.
ghost use Rattle.std.specs.Prelude.{◌≡◌, ◌+◌, ◌-◌, ◌*◌, ◌^◌, ◌<◌, ◌≤◌, ◌∷◌, [], ◌++◌, length, replicate, vec_capacity, Some, None, slice_get, slice_set, unwrap_or, IfOk, IfErr, OnOk, is_some};
ghost use Rattle.fkv_worlds.specs.States.{IsBlank, is_context, seat_row, seat_at, context_row, life_in, question_in, receipt_in};
ghost use Rattle.fkv_lives.specs.Changes.{ended_at};
ghost use Rattle.fkv_worlds.specs.Acts.{after_issue, begun_life, lives_by, questions_by, receipts_by, told};

use fkv_device::MemoryReceipt;
use fkv_functions::{Ask, Refused};
use fkv_lives::lives::{End, Finish, Life};
use fkv_lives::outcomes::Outcome;
use fkv_lives::steps::ContextId;
use fkv_operations::Op;
use fkv_partition::Progress;
use std::alloc::Global;

/// The slots of a partition.
pub const SLOTS: usize = 16;

/// The contexts of a slot.
pub const CONTEXTS: usize = 8;

/// The contexts of a partition.
pub const CONTEXT_ROWS: usize = SLOTS * CONTEXTS;

/// The session of a slot.
#[derive(Clone, Copy)]
pub struct Seat {
    /// The session, by the count of enters in its partition, from 1; 0 before the first.
    pub session: u64,
    /// How many operations the session has issued.
    pub issues: u64,
}

impl Seat {
    /// The seat once it has issued one more operation.
    pub fn after_issue(&self) -> Seat
        requires { self.now.issues < 2 ^ 64 - 1 }
        ensures { result ≡ after_issue self.now }
    {
        Seat {
            session: self.session,
            issues: self.issues + 1,
        }
    }
}

/// What a world keeps of its partitions, slots and contexts, a row for each.
#[derive(Drop)]
pub struct Tables<K, V, I> {
    /// For each context the place of the life that began there last.
    pub begun: Vec<usize>,
    /// For each context what it asked to be built last.
    pub questions: Vec<Option<Ask<K, V, I>>>,
    /// For each context the receipt of the page that it asked for last.
    pub receipts: Vec<Option<MemoryReceipt>>,
    /// The session of each slot.
    pub seats: Vec<Seat>,
    /// For each partition how many sessions entered it.
    pub enters: Vec<u64>,
}

/// Makes an empty table one of so many rows that hold nothing. Refused: `NoMemory`.
fn fill_empty<T: Drop>(table: &mut Vec<Option<T>>, rows: usize) -> Result<(), Refused>
    requires { table.old.items ≡ [] }
    ensures ok { OnOk result (table.new.items ≡ replicate rows None) }
    ensures only { IfErr result (λ refused. refused ≡ Refused.NoMemory) }
{
    for _ in 0..rows {
        let Ok(()) = table.push(None) else {
            return Err(Refused::NoMemory);
        };
    }
    Ok(())
}

/// Makes an empty table one of so many rows, all the same. Refused: `NoMemory`.
fn fill<T: Copy>(table: &mut Vec<T>, rows: usize, row: T) -> Result<(), Refused>
    requires { table.old.items ≡ [] }
    ensures ok { OnOk result (table.new.items ≡ replicate rows row) }
    ensures only { IfErr result (λ refused. refused ≡ Refused.NoMemory) }
{
    match table.resize(rows, row) {
        Ok(()) => Ok(()),
        Err(_) => Err(Refused::NoMemory),
    }
}

impl<K: Copy, V: Copy, I: Copy> Tables<K, V, I> {
    /// The tables of so many partitions, before the first step. Refused: `NoMemory`.
    pub fn new(alloc: Global, partitions: usize) -> Result<Self, Refused>
        requires { partitions ≤ 64 }
        ensures ok { IfOk result (λ tables. IsBlank partitions tables.begun.items tables.questions.items
            tables.receipts.items tables.seats.items tables.enters.items) }
        ensures only { IfErr result (λ refused. refused ≡ Refused.NoMemory) }
    {
        let mut tables = Tables {
            begun: Vec::new(alloc),
            questions: Vec::new(alloc),
            receipts: Vec::new(alloc),
            seats: Vec::new(alloc),
            enters: Vec::new(alloc),
        };
        match tables.fill(partitions) {
            Ok(()) => Ok(tables),
            Err(refused) => Err(refused),
        }
    }

    /// Makes empty tables those of so many partitions. Refused: `NoMemory`.
    fn fill(&mut self, partitions: usize) -> Result<(), Refused>
        requires most { partitions ≤ 64 }
        requires begun { self.old.begun.items ≡ [] }
        requires questions { self.old.questions.items ≡ [] }
        requires receipts { self.old.receipts.items ≡ [] }
        requires seats { self.old.seats.items ≡ [] }
        requires enters { self.old.enters.items ≡ [] }
        ensures ok { OnOk result (IsBlank partitions self.new.begun.items self.new.questions.items
            self.new.receipts.items self.new.seats.items self.new.enters.items) }
        ensures only { IfErr result (λ refused. refused ≡ Refused.NoMemory) }
    {
        let nobody = Seat {
            session: 0,
            issues: 0,
        };
        let Ok(()) = fill(&mut self.begun, partitions * CONTEXT_ROWS, 0) else {
            return Err(Refused::NoMemory);
        };
        let Ok(()) = fill(&mut self.questions, partitions * CONTEXT_ROWS, None) else {
            return Err(Refused::NoMemory);
        };
        let Ok(()) = fill_empty(&mut self.receipts, partitions * CONTEXT_ROWS) else {
            return Err(Refused::NoMemory);
        };
        let Ok(()) = fill(&mut self.seats, partitions * SLOTS, nobody) else {
            return Err(Refused::NoMemory);
        };
        fill(&mut self.enters, partitions, 0)
    }
}

/// Counts the session that entered a slot, which has issued nothing yet.
pub fn seat_session(enters: &mut Vec<u64>, seats: &mut Vec<Seat>, partition: usize, slot: usize)
    requires partition { partition < 64 }
    requires slot { slot < 16 }
    requires enters { partition < length enters.old.items }
    requires seats { partition * 16 + 16 ≤ length seats.old.items }
    requires count { unwrap_or (slice_get enters.old.items partition) 0 < 2 ^ 64 - 1 }
    ensures enters { enters.new.items
        ≡ slice_set enters.old.items partition (unwrap_or (slice_get enters.old.items partition) 0 + 1) }
    ensures seats { seats.new.items ≡ slice_set seats.old.items (seat_row partition slot)
        (record { session = unwrap_or (slice_get enters.old.items partition) 0 + 1; issues = 0 }) }
{
    let session = enters[partition] + 1;
    enters[partition] = session;
    seats[row_of_slot(partition, slot)] = Seat { session, issues: 0 };
}

/// Counts one more issue of the session of a slot, and answers its seat before.
fn take_number(seats: &mut Vec<Seat>, partition: usize, slot: usize) -> Seat
    requires partition { partition < 64 }
    requires slot { slot < 16 }
    requires seats { partition * 16 + 16 ≤ length seats.old.items }
    requires issues { (seat_at seats.old.items partition slot).issues < 2 ^ 64 - 1 }
    ensures before { result ≡ seat_at seats.old.items partition slot }
    ensures seats { seats.new.items
        ≡ slice_set seats.old.items (seat_row partition slot) (after_issue (seat_at seats.old.items partition slot)) }
{
    let row = row_of_slot(partition, slot);
    let seat = seats[row];
    seats[row] = seat.after_issue();
    seat
}

/// The life that an accepted issue begins.
pub fn begun_life<K, V, I, O>(
    partition: usize,
    seat: &Seat,
    op: Op<K, V, I>,
    now: u64,
) -> Life<K, V, I, O>
    requires { seat.now.issues < 2 ^ 64 - 1 }
    ensures { result ≡ begun_life partition seat.now op now }
{
    Life {
        partition: partition as u64,
        session: seat.session,
        number: seat.issues + 1,
        op,
        issue: now,
        end: End::Open,
    }
}

/// The row of a slot in a table of slots.
pub fn row_of_slot(partition: usize, slot: usize) -> usize
    requires partition { partition < 64 }
    requires slot { slot < 16 }
    ensures { result ≡ seat_row partition slot }
{
    partition * SLOTS + slot
}

/// The row of a context in a table of contexts.
pub fn row_of(place: ContextId) -> usize
    requires partition { place.partition < 64 }
    requires slot { place.slot < 16 }
    requires context { place.context < 8 }
    ensures { result ≡ context_row place }
{
    place.partition * CONTEXT_ROWS + place.slot * CONTEXTS + place.context
}

/// Whether there is such a context in a partition.
fn is_context(place: ContextId) -> bool
    ensures { result ≡ is_context place }
{
    place.slot < SLOTS && place.context < CONTEXTS
}

/// What a context asked for last; nothing where there is no such context.
pub fn question_at<K: Copy, V: Copy, I: Copy>(
    questions: &[Option<Ask<K, V, I>>],
    place: ContextId,
) -> Option<Ask<K, V, I>>
    requires partition { place.partition < 64 }
    requires rows { place.partition * 128 + 128 ≤ length questions.now }
    ensures { result ≡ question_in questions.now place }
{
    if !is_context(place) {
        return None;
    }
    questions[row_of(place)]
}

/// Whether a context asked for a page.
pub fn has_receipt(receipts: &[Option<MemoryReceipt>], place: ContextId) -> bool
    requires partition { place.partition < 64 }
    requires rows { place.partition * 128 + 128 ≤ length receipts.now }
    ensures { result ≡ is_some (receipt_in receipts.now place) }
{
    if !is_context(place) {
        return false;
    }
    receipts[row_of(place)].is_some()
}

/// The place of the life that began in a context.
pub fn life_at(begun: &[usize], place: ContextId) -> usize
    requires partition { place.partition < 64 }
    requires slot { place.slot < 16 }
    requires context { place.context < 8 }
    requires rows { place.partition * 128 + 128 ≤ length begun.now }
    ensures { result ≡ life_in begun.now place }
{
    begun[row_of(place)]
}

/// Ends the life at a place.
pub fn end_life<K: Copy, V: Copy, I: Copy, O: Copy>(
    lives: &mut Vec<Life<K, V, I, O>>,
    place: usize,
    end: End<O>,
)
    requires { place < length lives.old.items }
    ensures { lives.new.items ≡ ended_at lives.old.items place end }
{
    lives[place].end = end;
}

/// Drops what a context asked for last, since its number is given anew.
fn forget<K: Copy, V: Copy, I: Copy>(tables: &mut Tables<K, V, I>, place: ContextId)
    requires partition { place.partition < 64 }
    requires slot { place.slot < 16 }
    requires context { place.context < 8 }
    requires questions { place.partition * 128 + 128 ≤ length tables.old.questions.items }
    requires receipts { place.partition * 128 + 128 ≤ length tables.old.receipts.items }
    ensures questions { tables.new.questions.items ≡ slice_set tables.old.questions.items (context_row place) None }
    ensures receipts { tables.new.receipts.items ≡ slice_set tables.old.receipts.items (context_row place) None }
    ensures begun { tables.new.begun.items ≡ tables.old.begun.items }
    ensures seats { tables.new.seats.items ≡ tables.old.seats.items }
    ensures enters { tables.new.enters.items ≡ tables.old.enters.items }
{
    let context = row_of(place);
    tables.questions[context] = None;
    tables.receipts[context] = None;
}

/// Begins the life of an issue that was accepted in a context: it is the context's, which has asked for
/// nothing yet, and one more of its session.
pub fn begin_life<K: Copy, V: Copy, I: Copy, O: Copy>(
    lives: &mut Vec<Life<K, V, I, O>>,
    tables: &mut Tables<K, V, I>,
    place: ContextId,
    op: Op<K, V, I>,
    now: u64,
)
    requires partition { place.partition < 64 }
    requires slot { place.slot < 16 }
    requires context { place.context < 8 }
    requires room { length lives.old.items < vec_capacity lives.old }
    requires seats { place.partition * 16 + 16 ≤ length tables.old.seats.items }
    requires begun { place.partition * 128 + 128 ≤ length tables.old.begun.items }
    requires questions { place.partition * 128 + 128 ≤ length tables.old.questions.items }
    requires receipts { place.partition * 128 + 128 ≤ length tables.old.receipts.items }
    requires issues { (seat_at tables.old.seats.items place.partition place.slot).issues < 2 ^ 64 - 1 }
    ensures lives { lives.new.items ≡ lives.old.items ++ begun_life place.partition
        (seat_at tables.old.seats.items place.partition place.slot) op now ∷ [] }
    ensures seats { tables.new.seats.items ≡ slice_set tables.old.seats.items (seat_row place.partition place.slot)
        (after_issue (seat_at tables.old.seats.items place.partition place.slot)) }
    ensures begun { tables.new.begun.items
        ≡ slice_set tables.old.begun.items (context_row place) (length lives.old.items) }
    ensures questions { tables.new.questions.items ≡ slice_set tables.old.questions.items (context_row place) None }
    ensures receipts { tables.new.receipts.items ≡ slice_set tables.old.receipts.items (context_row place) None }
    ensures enters { tables.new.enters.items ≡ tables.old.enters.items }
{
    let seat = take_number(&mut tables.seats, place.partition, place.slot);
    tables.begun[row_of(place)] = lives.len();
    forget(tables, place);
    // there is room for it
    let _pushed = lives.push(begun_life(place.partition, &seat, op, now));
}

/// Keeps what a context asked for last.
fn keep_asked<T: Drop>(rows: &mut Vec<Option<T>>, place: ContextId, asked: T)
    requires partition { place.partition < 64 }
    requires slot { place.slot < 16 }
    requires context { place.context < 8 }
    requires rows { place.partition * 128 + 128 ≤ length rows.old.items }
    ensures { rows.new.items ≡ slice_set rows.old.items (context_row place) (Some asked) }
{
    rows[row_of(place)] = Some(asked);
}

/// Ends the life of an operation that is done, or keeps what it asks for, and tells its progress.
pub fn note_progress<K: Copy, V: Copy, I: Copy, O: Copy>(
    lives: &mut Vec<Life<K, V, I, O>>,
    tables: &mut Tables<K, V, I>,
    place: ContextId,
    progress: Progress<K, V, I, O, MemoryReceipt>,
    now: u64,
) -> Outcome<V, O>
    requires partition { place.partition < 64 }
    requires slot { place.slot < 16 }
    requires context { place.context < 8 }
    requires begun { place.partition * 128 + 128 ≤ length tables.old.begun.items }
    requires questions { place.partition * 128 + 128 ≤ length tables.old.questions.items }
    requires receipts { place.partition * 128 + 128 ≤ length tables.old.receipts.items }
    requires life { life_in tables.old.begun.items place < length lives.old.items }
    ensures lives { lives.new.items ≡ lives_by lives.old.items (life_in tables.old.begun.items place) now progress }
    ensures questions { tables.new.questions.items
        ≡ questions_by tables.old.questions.items (context_row place) progress }
    ensures receipts { tables.new.receipts.items ≡ receipts_by tables.old.receipts.items (context_row place) progress }
    ensures begun { tables.new.begun.items ≡ tables.old.begun.items }
    ensures seats { tables.new.seats.items ≡ tables.old.seats.items }
    ensures enters { tables.new.enters.items ≡ tables.old.enters.items }
    ensures told { result ≡ told progress }
{
    match progress {
        Progress::Done(answer, effect) => {
            let finish = Finish {
                effect,
                done: now,
                answer,
            };
            end_life(lives, life_at(&tables.begun, place), End::Finished(finish));
            Outcome::Done(answer)
        }
        Progress::Next => Outcome::Next,
        Progress::Waits(why) => Outcome::Waits(why),
        Progress::NeedsBuild(ask) => {
            keep_asked(&mut tables.questions, place, ask);
            Outcome::Build(ask.source)
        }
        Progress::NeedsLoad(receipt, address) => {
            keep_asked(&mut tables.receipts, place, receipt);
            Outcome::Load(address)
        }
    }
}
