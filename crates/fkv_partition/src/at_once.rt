//! Operations that are done in one call, as most are: writes where a key's last record stands, and reads of keys in memory.
ghost use Rattle.std.specs.Prelude.{◌≡◌, ◌<◌, ◌≤◌, None, IfSome, ◌≢◌, true, false, Option, IsTrue};
ghost use Rattle.fkv_partition.specs.KeyAtOnce as on_key;
ghost use Rattle.fkv_partition.specs.KeyAtOnce.{AsksForPage};
ghost use Rattle.fkv_partition.specs.KeyBeginning.{IsEntered};
ghost use Rattle.fkv_partition.specs.Views.{partition_of, held_at, entry_for, newest_in_memory, met_at};
ghost use Rattle.fkv_partition.specs.AtOnce.{IsAtHand, IsDoneAtOnce, IsReadAtOnce};
ghost use Rattle.fkv_operations.specs.After.{key_of, is_merge};
ghost use Rattle.fkv_operations.specs.declared.operations.Answer.{Answer};
ghost use Rattle.fkv_lookups.specs.Decisions.{decision};
ghost use Rattle.fkv_lookups.specs.declared.decisions.Decision.TheVariants.{Replace};
ghost use Rattle.fkv_lookups.specs.declared.decisions.LookupResult.TheVariants.{Mutable};
ghost use Rattle.fkv_texts.specs.declared.entries.ChainPosition.TheVariants.{Found};
ghost use Rattle.fkv_texts.specs.declared.entries.ChainPosition.{ChainPosition};
ghost use Rattle.fkv_texts.specs.declared.entries.Entry.{Entry};

use crate::partitions::Partition;
use fkv_device::Receipt;
use fkv_functions::{Functions, Mergeable};
use fkv_lookups::laws::{lookups_tell, meetings_tell, records_change};
use fkv_lookups::{Decision, LookupResult, decide};
use fkv_operations::plainly::shown;
use fkv_operations::{Answer, AnswerOf, KeyedOp, KeyedOpOf};
use fkv_texts::{ChainPosition, Entry};

/// What an operation gives a key where the record with this value stands, or `None` for a tombstone; and what it answers. No result
/// where it writes nothing there.
#[inline(always)]
fn replacement<F: Mergeable>(
    functions: &F,
    op: &KeyedOpOf<F>,
    held: F::Value,
) -> Option<(Option<F::Value>, AnswerOf<F>)>
    requires merging { is_merge op.now ≡ true → IsTrue F.MERGES }
    ensures some { IfSome result (λ r. decision F.meaning op.now (Mutable held) ≡ Replace r.0 r.1) }
    ensures none { result ≡ None → (value : Option F.Value) → (answer : Answer F.Output)
        → decision F.meaning op.now (Mutable held) ≢ Replace value answer }
{
    match op {
        KeyedOp::Rmw(key, input) => {
            let mut value = held;
            if !functions.in_place(key, input, &mut value) {
                return None;
            }
            let shown = functions.read(key, input, &value);
            Some((Some(value), Answer::Value(shown)))
        }
        KeyedOp::Upsert(_, value) => Some((Some(*value), Answer::Stored)),
        KeyedOp::Delete(_) => Some((None, Answer::Deleted)),
        KeyedOp::Read(_, _) => None,
        KeyedOp::Merge(_, _) => match decide(functions, op, &LookupResult::Mutable(held)) {
            Decision::Replace(value, answer) => Some((value, answer)),
            _ => None,
        },
    }
}

/// The value of the record that a look-up came to, or none of a tombstone, where that is no delta.
#[inline(always)]
fn whole<K: Copy, V: Copy>(position: &ChainPosition<K, V>) -> Option<Option<V>>
    ensures { IfSome result (λ held. (e : Entry K V) × (position.now ≡ ChainPosition.Found e) × (e.delta ≡ false) × (e.value ≡ held)) }
{
    match position {
        ChainPosition::Found(last) if !last.delta => Some(last.value),
        _ => None,
    }
}

impl<F: Mergeable, R: Receipt> Partition<F, R> {
    /// Issues an operation at one moment and goes on with it at another, where that writes where the last record of its key
    /// stands: where that record may be changed in place, and the operation is no read and no update that the functions decline.
    /// That is what [`Partition::issue`] and [`Partition::go`] do then, but no context is written and read again. Answers what
    /// the operation does, or `None` where it can't be issued or would not be finished so, and then nothing changes.
    #[inline(always)]
    pub fn try_write_in_place(
        &mut self,
        slot: usize,
        op: &KeyedOpOf<F>,
        functions: &F,
        issued: u64,
        now: u64,
    ) -> Option<AnswerOf<F>>
        requires later { self.old.moment < issued }
        requires after { issued < now }
        ensures done { IfSome result (IsDoneAtOnce R.stands F.Key.cmp F.parts.joined F.meaning F.code self.old self.new
            slot op.now issued now) }
        ensures left { result ≡ None → ¬ (IsAtHand F.Key.cmp F.parts.joined F.meaning F.code self.old slot op.now) }
        ensures none { result ≡ None → self.new ≡ self.old }
        ensures within { IfSome result (λ _. slot < 16) }
        ensures moment { self.new.moment ≤ now }
    {
        self.facts();
        if !self.is_session(slot) {
            return None;
        }
        let Some(context) = self.first_free(slot) else {
            return None;
        };
        self.write_at_once(slot, context, op, functions, issued, now)
    }

    /// Reads a key in a session, where no page is to be read for that. It answers what a read that is issued by
    /// [`Partition::issue`] is finished with when it goes on by [`Partition::go`], but takes no context, and no moment passes.
    /// Answers `None` where the slot is that of no session, the key belongs to another partition, or the read would ask for a
    /// page.
    pub fn try_read_in_memory(
        &self,
        slot: usize,
        key: &F::Key,
        input: &F::Input,
        functions: &F,
    ) -> Option<AnswerOf<F>>
        ensures done { IfSome result (IsReadAtOnce F.Key.cmp F.parts.joined F.meaning F.code self.now slot key.now input.now) }
        ensures left { result ≡ None → IsEntered self.now slot
            → partition_of self.now.count (F.code key.now) ≡ self.now.number
            → AsksForPage F.Key.cmp F.parts.joined F.meaning F.code self.now slot key.now input.now }
        ensures within { IfSome result (λ _. slot < 16) }
    {
        if !self.is_session(slot) {
            return None;
        }
        self.read_at_once(slot, key, input, functions)
    }

    /// Issues an operation at one moment, in a context of a session that the caller has chosen and in which nothing is open,
    /// and goes on with it at another, where that writes where the last record of its key stands: where that record may be changed
    /// in place, and the operation is no read and no update that the functions decline. That is what
    /// [`Partition::issue_in`] and [`Partition::go_on_key`] do then, but no context is written and read again. Answers what the
    /// operation does, or `None` where its key belongs to another partition or it would not be finished so, and then nothing
    /// changes.
    #[inline(always)]
    pub(crate) fn write_at_once(
        &mut self,
        slot: usize,
        context: usize,
        op: &KeyedOpOf<F>,
        functions: &F,
        issued: u64,
        now: u64,
    ) -> Option<AnswerOf<F>>
        requires later { self.old.moment < issued }
        requires after { issued < now }
        requires session { slot < 16 }
        requires entered { IsEntered self.old slot }
        requires context { context < 8 }
        requires free { held_at self.old slot context ≡ None }
        ensures done { IfSome result (on_key.IsDoneAtOnce R.stands F.Key.cmp F.parts.joined F.meaning F.code self.old self.new
            slot context op.now issued now) }
        ensures left { result ≡ None → ¬ (on_key.IsAtHand F.Key.cmp F.parts.joined F.meaning F.code self.old slot op.now) }
        ensures none { result ≡ None → self.new ≡ self.old }
        ensures moment { self.new.moment ≤ now }
    {
        if self.lacks_merges(op) {
            return None;
        }
        let key = op.key();
        if self.home(functions, &key) != self.number {
            return None;
        }
        let Some((last, held)) = self.at_hand(slot, &key, functions) else {
            return None;
        };
        self.write_at(slot, context, op, last, held, functions, issued, now)
    }

    /// The last record of a key and its value, where it may be changed in place.
    #[inline(always)]
    fn at_hand(
        &self,
        slot: usize,
        key: &F::Key,
        functions: &F,
    ) -> Option<(Entry<F::Key, F::Value>, F::Value)>
        requires { IsEntered self.now slot }
        ensures first { IfSome result (λ r. newest_in_memory F.Key.cmp F.code self.now slot key.now
            (entry_for F.code self.now key.now) ≡ Found r.0) }
        ensures whole { IfSome result (λ r. r.0.delta ≡ false) }
        ensures met { IfSome result (λ r. met_at F.Key.cmp F.parts.joined F.code self.now slot key.now ≡ Mutable r.1) }
        ensures none { result ≡ None → (held : F.Value) → ¬ (met_at F.Key.cmp F.parts.joined F.code self.now slot key.now ≡ Mutable held) }
    {
        self.facts();
        lookups_tell::<F::Key, F::Value>();
        let entry = self.entry_address(functions, key);
        let ChainPosition::Found(last) = self.newest_in_memory(slot, key, entry) else {
            return None;
        };
        if last.delta {
            return None;
        }
        let Some(held) = last.value else {
            return None;
        };
        if !self.records.view(slot).is_mutable(last.address) {
            return None;
        }
        Some((last, held))
    }

    /// Writes where the last record of an operation's key stands, which may be changed in place, by an operation that is issued
    /// and done at once. Answers what it does, or `None` where it writes nothing there, and then nothing changes.
    #[inline(always)]
    fn write_at(
        &mut self,
        slot: usize,
        _context: usize,
        op: &KeyedOpOf<F>,
        last: Entry<F::Key, F::Value>,
        held: F::Value,
        functions: &F,
        _issued: u64,
        now: u64,
    ) -> Option<AnswerOf<F>>
        requires session { slot < 16 }
        requires entered { IsEntered self.old slot }
        requires own { partition_of self.old.count (F.code (key_of op.now)) ≡ self.old.number }
        requires free { held_at self.old slot _context ≡ None }
        requires low { _context < 8 }
        requires merging { is_merge op.now ≡ true → self.old.merges ≡ true }
        requires first { newest_in_memory F.Key.cmp F.code self.old slot (key_of op.now)
            (entry_for F.code self.old (key_of op.now)) ≡ Found last }
        requires whole { last.delta ≡ false }
        requires met { met_at F.Key.cmp F.parts.joined F.code self.old slot (key_of op.now) ≡ Mutable held }
        ensures done { IfSome result (on_key.IsDoneAtOnce R.stands F.Key.cmp F.parts.joined F.meaning F.code self.old self.new
            slot _context op.now _issued now) }
        ensures left { result ≡ None → ¬ (on_key.IsAtHand F.Key.cmp F.parts.joined F.meaning F.code self.old slot op.now) }
        ensures none { result ≡ None → self.new ≡ self.old }
        ensures moment { IfSome result (λ _. self.new.moment ≤ now) }
    {
        self.facts();
        lookups_tell::<F::Key, F::Value>();
        records_change::<F::Key, F::Value>();
        meetings_tell::<F::Key, F::Value>();
        let _merges = self.merges();
        let Some((value, answer)) = replacement(functions, op, held) else {
            return None;
        };
        self.revalue(last.address, value, now);
        Some(answer)
    }

    /// Reads a key in a session, where no page is to be read for that. It answers what a read that is issued by [`Partition::issue_in`]
    /// is finished with when it goes on by [`Partition::go_on_key`], but no context is written and read again, and no moment passes. Answers
    /// `None` where its key belongs to another partition, or the read would ask for a page.
    pub(crate) fn read_at_once(
        &self,
        slot: usize,
        key: &F::Key,
        input: &F::Input,
        functions: &F,
    ) -> Option<AnswerOf<F>>
        requires entered { IsEntered self.now slot }
        ensures done { IfSome result (on_key.IsReadAtOnce F.Key.cmp F.parts.joined F.meaning F.code self.now slot key.now input.now) }
        ensures left { result ≡ None → partition_of self.now.count (F.code key.now) ≡ self.now.number
            → AsksForPage F.Key.cmp F.parts.joined F.meaning F.code self.now slot key.now input.now }
    {
        if self.home(functions, key) != self.number {
            return None;
        }
        self.facts();
        lookups_tell::<F::Key, F::Value>();
        meetings_tell::<F::Key, F::Value>();
        let entry = self.entry_address(functions, key);
        let first = self.newest_in_memory(slot, key, entry);
        if let Some(held) = whole(&first) {
            return Some(shown(functions, key, input, held));
        }
        let met = self.met(functions, slot, key, entry, &first);
        if let LookupResult::OnDisk(_, _) = met {
            return None;
        }
        Some(shown(functions, key, input, met.held()))
    }
}
