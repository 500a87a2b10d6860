//! The open operations of a partition: how far each is, and what an event of it answers.
ghost use Rattle.std.specs.Prelude.{◌≡◌, ⊤, ◌+◌, ◌*◌, ◌<◌, ◌≤◌, ◌⊎◌, ◌↔◌, length, Option, Some, None, IfSome, IfNone, cond, nat_lt, slice_get, slice_range, slice_set, position, is_none, is_some, IsTrue};
ghost use Rattle.fkv_partition.specs.Contexts.{joined, on_key, relocating, at_phase, question_in, claim_by, loading_by};

use crate::relocations::Relocation;
use fkv_device::Receipt;
use fkv_functions::{Ask, Functions};
use fkv_index::Place;
use fkv_operations::{Answer, IndexEntry, KeyedOp};
use fkv_records::Address;
use std::alloc::AllocError;

/// How many operations of a session may be open.
pub const CONTEXTS: usize = 8;

/// How far an operation is.
#[derive(Copy)]
pub enum Phase<V> {
    /// Nothing is known.
    Fresh,
    /// It made a tentative entry at this place of the index, and is to confirm it.
    Confirm { place: Place },
    /// An update waits for its new value, built from this source; the entry of its key's class then stood so.
    Prepared { kept: IndexEntry, source: Option<V> },
    /// It waits for a page on the device.
    Load(Loading<V>),
}

impl<V: Copy> Clone for Phase<V> {
    ghost is_clone = { λ x y. y ≡ x };

    ghost is_infallible = { λ _. ⊤ };

    fn clone(&self) -> Result<Self, AllocError> {
        Ok(*self)
    }
}

/// A look-up that goes on in a page on the device.
#[derive(Copy)]
pub struct Loading<V> {
    /// Begin at the look-up.
    pub begin: Address,
    /// The entry of the key's class as it stood then.
    pub kept: IndexEntry,
    /// The address whose page is asked for: the key has no records but deltas between it and where the entry leads.
    pub wanted: Address,
    /// The parts of those deltas, joined, or `None` where there is none.
    pub parts: Option<V>,
    /// The moment of the look-up.
    pub looked: u64,
}

impl<V: Copy> Clone for Loading<V> {
    ghost is_clone = { λ x y. y ≡ x };

    ghost is_infallible = { λ _. ⊤ };

    fn clone(&self) -> Result<Self, AllocError> {
        Ok(*self)
    }
}

/// An open operation.
#[derive(Copy)]
pub struct Context<K, V, I> {
    /// The moment of its issue, which no other operation has.
    pub number: u64,
    pub op: KeyedOp<K, V, I>,
    pub phase: Phase<V>,
}

impl<K: Copy, V: Copy, I: Copy> Clone for Context<K, V, I> {
    ghost is_clone = { λ x y. y ≡ x };

    ghost is_infallible = { λ _. ⊤ };

    fn clone(&self) -> Result<Self, AllocError> {
        Ok(*self)
    }
}

/// What is open in a context of a session: one of these, or nothing.
#[derive(Copy)]
pub enum OpenWork<K, V, I> {
    /// An operation on a key.
    OnKey(Context<K, V, I>),
    /// A relocation.
    Relocating(Relocation<K, V>),
}

impl<K: Copy, V: Copy, I: Copy> Clone for OpenWork<K, V, I> {
    ghost is_clone = { λ x y. y ≡ x };

    ghost is_infallible = { λ _. ⊤ };

    fn clone(&self) -> Result<Self, AllocError> {
        Ok(*self)
    }
}

/// The operations on keys of one type of functions.
pub type ContextOf<F> = Context<
    <F as Functions>::Key,
    <F as Functions>::Value,
    <F as Functions>::Input,
>;

/// What an event of an operation answers.
#[derive(Drop)]
pub enum Progress<K, V, I, O, R: Drop> {
    /// The operation is finished with this answer; its effect is at this moment.
    Done(Answer<O>, u64),
    /// The operation is to go on.
    Next,
    /// The operation needs this question answered.
    NeedsBuild(Ask<K, V, I>),
    /// The operation needs the page of this address, to be read by this receipt.
    NeedsLoad(R, Address),
    /// The operation can't go on yet, for this reason; it is to be tried again.
    Waits(Wait),
}

/// Why an operation waits.
#[derive(Clone, Copy, PartialEq, Eq, Debug)]
pub enum Wait {
    /// The last record of its key lies where sessions with an older view may still change it: until these are refreshed
    /// or left, and then its own session is refreshed.
    Fuzzy,
    /// The next record needs a page whose frame is still in use: until that page is flushed, Head has
    /// passed it, and every session is refreshed.
    Full,
}

/// The progress of one type of functions on one kind of device.
pub type ProgressOf<F, R> = Progress<
    <F as Functions>::Key,
    <F as Functions>::Value,
    <F as Functions>::Input,
    <F as Functions>::Output,
    R,
>;

/// The operation on a key that is open in a context.
fn operation_in<K: Copy, V: Copy, I: Copy>(
    work: &Option<OpenWork<K, V, I>>,
) -> Option<Context<K, V, I>>
    ensures { result ≡ on_key work.now }
{
    match work {
        Some(OpenWork::OnKey(operation)) => Some(*operation),
        Some(OpenWork::Relocating(_)) | None => None,
    }
}

/// The relocation that is open in a context.
fn relocation_in<K: Copy, V: Copy, I: Copy>(
    work: &Option<OpenWork<K, V, I>>,
) -> Option<Relocation<K, V>>
    ensures { result ≡ relocating work.now }
{
    match work {
        Some(OpenWork::Relocating(relocation)) => Some(*relocation),
        Some(OpenWork::OnKey(_)) | None => None,
    }
}

/// The operation on a key that is open in a context of a session. It alone is copied.
pub fn operation_at<K: Copy, V: Copy, I: Copy>(
    contexts: &[Option<OpenWork<K, V, I>>],
    slot: usize,
    context: usize,
) -> Option<Context<K, V, I>>
    requires session { slot < 16 }
    requires places { length contexts.now ≡ 128 }
    ensures value { result ≡ on_key (cond (nat_lt context 8) (joined (slice_get contexts.now (slot * 8 + context))) None) }
    ensures context { IfSome result (λ _. context < 8) }
{
    if context >= CONTEXTS {
        return None;
    }
    operation_in(&contexts[slot * CONTEXTS + context])
}

/// The relocation that is open in a context of a session. It alone is copied.
pub fn relocation_at<K: Copy, V: Copy, I: Copy>(
    contexts: &[Option<OpenWork<K, V, I>>],
    slot: usize,
    context: usize,
) -> Option<Relocation<K, V>>
    requires session { slot < 16 }
    requires places { length contexts.now ≡ 128 }
    ensures value { result ≡ relocating (cond (nat_lt context 8) (joined (slice_get contexts.now (slot * 8 + context))) None) }
    ensures context { IfSome result (λ _. context < 8) }
{
    if context >= CONTEXTS {
        return None;
    }
    relocation_in(&contexts[slot * CONTEXTS + context])
}

/// Whether a relocation is open in a context of a session. It copies nothing.
pub fn holds_relocation<K, V, I>(
    contexts: &[Option<OpenWork<K, V, I>>],
    slot: usize,
    context: usize,
) -> bool
    requires session { slot < 16 }
    requires places { length contexts.now ≡ 128 }
    ensures { result ≡ is_some (relocating (cond (nat_lt context 8) (joined (slice_get contexts.now (slot * 8 + context))) None)) }
{
    if context >= CONTEXTS {
        return false;
    }
    is_relocating(&contexts[slot * CONTEXTS + context])
}

/// Whether nothing stands in a context of a session. It copies nothing.
pub fn is_vacant<T>(contexts: &[Option<T>], slot: usize, context: usize) -> bool
    requires session { slot < 16 }
    requires context { context < 8 }
    requires places { length contexts.now ≡ 128 }
    ensures { IsTrue result ↔ (joined (slice_get contexts.now (slot * 8 + context)) ≡ None) }
{
    contexts[slot * CONTEXTS + context].is_none()
}

/// The lowest context of a session in which a relocation is open.
pub fn relocating_context<K, V, I>(
    contexts: &[Option<OpenWork<K, V, I>>],
    slot: usize,
) -> Option<usize>
    requires session { slot < 16 }
    requires places { length contexts.now ≡ 128 }
    ensures value { result ≡ position (λ o. is_some (relocating o)) (slice_range contexts.now (slot * 8) (slot * 8 + 8)) }
{
    let first = slot * CONTEXTS;
    contexts[first..first + CONTEXTS]
        .iter()
        .position(|open| is_relocating(open))
}

/// Whether a relocation is open in a context.
fn is_relocating<K, V, I>(work: &Option<OpenWork<K, V, I>>) -> bool
    ensures { result ≡ is_some (relocating work.now) }
{
    match work {
        Some(OpenWork::Relocating(_)) => true,
        Some(OpenWork::OnKey(_)) | None => false,
    }
}

/// The lowest open context of a session.
pub fn open_context<T>(contexts: &[Option<T>], slot: usize) -> Option<usize>
    requires session { slot < 16 }
    requires places { length contexts.now ≡ 128 }
    ensures value { result ≡ position is_some (slice_range contexts.now (slot * 8) (slot * 8 + 8)) }
{
    let first = slot * CONTEXTS;
    contexts[first..first + CONTEXTS]
        .iter()
        .position(|context| context.is_some())
}

/// Sets or clears a context.
pub fn set_context<T: Copy>(
    contexts: &mut Vec<Option<T>>,
    slot: usize,
    context: usize,
    operation: Option<T>,
)
    requires session { slot < 16 }
    requires context { context < 8 }
    requires places { length contexts.old.items ≡ 128 }
    ensures { contexts.new.items ≡ slice_set contexts.old.items (slot * 8 + context) operation }
{
    contexts[slot * CONTEXTS + context] = operation;
}

/// Moves the operation that is open in a context to another phase, where it stands.
pub fn move_on<K: Copy, V: Copy, I: Copy>(
    contexts: &mut Vec<Option<OpenWork<K, V, I>>>,
    slot: usize,
    context: usize,
    _operation: &Context<K, V, I>,
    phase: Phase<V>,
)
    requires session { slot < 16 }
    requires context { context < 8 }
    requires here { slice_get contexts.old.items (slot * 8 + context) ≡ Some (Some (OpenWork.OnKey _operation.now)) }
    ensures { contexts.new.items
        ≡ slice_set contexts.old.items (slot * 8 + context) (Some (OpenWork.OnKey (at_phase _operation.now phase))) }
{
    if let Some(OpenWork::OnKey(open)) = &mut contexts[slot * CONTEXTS + context] {
        open.phase = phase;
    }
}

/// The place of the tentative entry that an operation made, and waits to confirm.
pub fn claim_of<V>(phase: &Phase<V>) -> Option<Place>
    ensures { result ≡ claim_by phase.now }
{
    match phase {
        Phase::Fresh => None,
        Phase::Confirm { place } => Some(*place),
        Phase::Prepared { .. } => None,
        Phase::Load(_) => None,
    }
}

/// The look-up that goes on in a page which an operation waits for.
pub fn loading_of<V: Copy>(phase: &Phase<V>) -> Option<Loading<V>>
    ensures { result ≡ loading_by phase.now }
{
    match phase {
        Phase::Fresh | Phase::Confirm { .. } | Phase::Prepared { .. } => None,
        Phase::Load(loading) => Some(*loading),
    }
}

/// The question that a prepared update asks, behind the entry that it kept.
pub fn question_of<K: Copy, V: Copy, I: Copy>(
    context: &Context<K, V, I>,
) -> Option<(IndexEntry, Ask<K, V, I>)>
    ensures { result ≡ question_in context.now }
{
    match &context.phase {
        Phase::Fresh | Phase::Confirm { .. } | Phase::Load(_) => None,
        Phase::Prepared { kept, source } => match &context.op {
            KeyedOp::Read(_, _)
            | KeyedOp::Upsert(_, _)
            | KeyedOp::Delete(_)
            | KeyedOp::Merge(_, _) => None,
            KeyedOp::Rmw(key, input) => {
                let ask = Ask {
                    number: context.number,
                    key: *key,
                    source: *source,
                    input: *input,
                };
                Some((*kept, ask))
            }
        },
    }
}
