//! What an operation does for what it meets: the table of decisions.
ghost use Rattle.std.specs.Prelude.{◌≡◌, ⊤, ℕ, true, IsTrue, Some, IfSome};
ghost use Rattle.fkv_regions.specs.declared.offsets.View.{View};
ghost use Rattle.fkv_texts.specs.declared.entries.ChainPosition.{ChainPosition};
ghost use Rattle.fkv_operations.specs.After.{is_merge};
ghost use Rattle.fkv_lookups.specs.Decisions.{low_of, met_by, met_in, decision, held_of};

use crate::chain_results::{ChainResult, joined_to};
use crate::payloads::Payload;
use fkv_functions::{Functions, Mergeable};
use fkv_operations::plainly::shown;
use fkv_operations::{Answer, KeyedOp, KeyedOpOf};
use fkv_records::Address;
use fkv_regions::{Region, View};
use fkv_texts::ChainPosition;
use std::alloc::AllocError;

/// What the look-up of a key meets, as the session sees it that looks.
#[derive(Copy, PartialEq, Eq, Debug)]
pub enum LookupResult<V> {
    /// The index has no entry for the key.
    NoEntry,
    /// There is an entry, and the key has no value: it has no record, or its last one is a tombstone.
    NoValue,
    /// The key has this value, and its last record changes no more.
    ReadOnly(V),
    /// It holds this value, and sessions with an older view may still change it in place.
    Fuzzy(V),
    /// It holds this value, and may be changed in place.
    Mutable(V),
    /// The records of the key's class lead to this address, whose page the session does not read in memory; the parts of
    /// the key's deltas above, joined, or `None` where it has none.
    OnDisk(Address, Option<V>),
}

impl<V: Copy> Clone for LookupResult<V> {
    ghost is_clone = { λ x y. y ≡ x };

    ghost is_infallible = { λ _. ⊤ };

    fn clone(&self) -> Result<Self, AllocError> {
        Ok(*self)
    }
}

/// The lowest address that a session reads in memory: Begin, or its view of Head where that is higher.
pub fn low_of(begin: Address, view: &View) -> Address
    ensures { result ≡ low_of begin view.now }
{
    if begin <= view.head { view.head } else { begin }
}

/// What is met, by the address to which the key's entry leads, by Begin and the session's view, and by what the look-up
/// came to.
pub fn met_by<F: Mergeable>(
    functions: &F,
    entry: Option<Address>,
    begin: Address,
    view: &View,
    came: &ChainResult<F::Key, F::Value>,
) -> LookupResult<F::Value>
    ensures { result ≡ met_by F.parts.joined entry begin view.now came.now }
{
    let Some(_address) = entry else {
        return LookupResult::NoEntry;
    };
    match came.position {
        ChainPosition::Found(last) => match came.parts {
            None => match last.value {
                None => LookupResult::NoValue,
                Some(value) => met_in(view.region(last.address), value),
            },
            Some(part) => LookupResult::ReadOnly(joined_to(functions, last.value, part)),
        },
        ChainPosition::Below(address) => {
            if address >= begin {
                return LookupResult::OnDisk(address, came.parts);
            }
            match came.parts {
                None => LookupResult::NoValue,
                Some(part) => LookupResult::ReadOnly(part),
            }
        }
    }
}

/// A value in the region where its record stands.
fn met_in<V>(region: Region, value: V) -> LookupResult<V>
    ensures { result ≡ met_in region value }
{
    match region {
        Region::OnDisk | Region::ReadOnly => LookupResult::ReadOnly(value),
        Region::Fuzzy => LookupResult::Fuzzy(value),
        Region::Mutable => LookupResult::Mutable(value),
    }
}

impl<V: Copy> LookupResult<V> {
    /// The value that was met, if any.
    pub fn held(&self) -> Option<V>
        ensures { result ≡ held_of self.now }
    {
        match self {
            LookupResult::NoEntry | LookupResult::NoValue | LookupResult::OnDisk(_, _) => None,
            LookupResult::ReadOnly(value)
            | LookupResult::Fuzzy(value)
            | LookupResult::Mutable(value) => Some(*value),
        }
    }
}

/// What an operation does.
#[derive(Copy, PartialEq, Eq, Debug)]
pub enum Decision<V, I, O> {
    /// It is done and writes nothing.
    Done(Answer<O>),
    /// It makes an entry for its key, and looks again.
    Claim,
    /// It appends this value, a tombstone or a part, and is done.
    Append(Payload<V>, Answer<O>),
    /// It gives the last record of its key this value where it stands, or makes it a tombstone, and is done.
    Replace(Option<V>, Answer<O>),
    /// It asks for the new value, which this input makes of this source.
    Prepare(Option<V>, I),
    /// It waits until every session has seen that the last record of its key changes no more.
    Wait,
    /// It asks for the page of this address, where the records of its class go on, with the parts that it collected.
    Load(Address, Option<V>),
}

impl<V: Copy, I: Copy, O: Copy> Clone for Decision<V, I, O> {
    ghost is_clone = { λ x y. y ≡ x };

    ghost is_infallible = { λ _. ⊤ };

    fn clone(&self) -> Result<Self, AllocError> {
        Ok(*self)
    }
}

/// The decisions of one type of functions.
pub type DecisionOf<F> = Decision<
    <F as Functions>::Value,
    <F as Functions>::Input,
    <F as Functions>::Output,
>;

/// What an operation does for what it met.
pub fn decide<F: Mergeable>(
    functions: &F,
    op: &KeyedOpOf<F>,
    met: &LookupResult<F::Value>,
) -> DecisionOf<F>
    requires merging { is_merge op.now ≡ true → IsTrue F.MERGES }
    ensures { result ≡ decision F.meaning op.now met.now }
{
    match op {
        KeyedOp::Read(key, input) => match met {
            LookupResult::OnDisk(address, parts) => Decision::Load(*address, *parts),
            _ => Decision::Done(shown(functions, key, input, met.held())),
        },
        KeyedOp::Upsert(_, value) => match met {
            LookupResult::NoEntry => Decision::Claim,
            LookupResult::Mutable(_) => Decision::Replace(Some(*value), Answer::Stored),
            _ => Decision::Append(Payload::Whole(Some(*value)), Answer::Stored),
        },
        KeyedOp::Rmw(key, input) => match met {
            LookupResult::NoEntry => Decision::Claim,
            LookupResult::NoValue => Decision::Prepare(None, *input),
            LookupResult::ReadOnly(value) => Decision::Prepare(Some(*value), *input),
            LookupResult::Fuzzy(_) => Decision::Wait,
            LookupResult::Mutable(value) => update(functions, key, input, *value),
            LookupResult::OnDisk(address, parts) => Decision::Load(*address, *parts),
        },
        KeyedOp::Delete(_) => match met {
            LookupResult::NoEntry | LookupResult::NoValue => Decision::Done(Answer::Deleted),
            LookupResult::Mutable(_) => Decision::Replace(None, Answer::Deleted),
            _ => Decision::Append(Payload::Whole(None), Answer::Deleted),
        },
        KeyedOp::Merge(key, input) => merge(functions, key, input, met),
    }
}

/// What a merge does for what it met: it joins the input's part to a value that may be changed in place, and appends it
/// else, without a look at what the key has.
fn merge<F: Mergeable>(
    functions: &F,
    key: &F::Key,
    input: &F::Input,
    met: &LookupResult<F::Value>,
) -> DecisionOf<F>
    requires { IsTrue F.MERGES }
    ensures { result ≡ decision F.meaning (KeyedOp.Merge key.now input.now) met.now }
{
    match met {
        LookupResult::NoEntry => Decision::Claim,
        LookupResult::Mutable(value) => {
            let part = functions.delta(key, input);
            Decision::Replace(Some(functions.join(value, &part)), Answer::Stored)
        }
        _ => Decision::Append(Payload::Part(functions.delta(key, input)), Answer::Stored),
    }
}

/// What an operation that needs no value does where parts of deltas were collected, or more lie on disk: it appends.
/// `None` for a read or an update, which need the value.
pub fn blind<F: Mergeable>(functions: &F, op: &KeyedOpOf<F>) -> Option<DecisionOf<F>>
    requires merging { is_merge op.now ≡ true → IsTrue F.MERGES }
    ensures some { IfSome result (λ d. (e : ℕ) (begin : ℕ) (view : View) (p : F.Value) (at : ChainPosition F.Key F.Value)
        → d ≡ decision F.meaning op.now (met_by F.parts.joined (Some e) begin view
        (record { parts = Some p; position = at }))) }
{
    match op {
        KeyedOp::Read(_, _) | KeyedOp::Rmw(_, _) => None,
        KeyedOp::Upsert(_, value) => {
            let written = Payload::Whole(Some(*value));
            Some(Decision::Append(written, Answer::Stored))
        }
        KeyedOp::Delete(_) => Some(Decision::Append(Payload::Whole(None), Answer::Deleted)),
        KeyedOp::Merge(key, input) => {
            let part = Payload::Part(functions.delta(key, input));
            Some(Decision::Append(part, Answer::Stored))
        }
    }
}

/// What an update does to a value that may be changed in place.
fn update<F: Mergeable>(
    functions: &F,
    key: &F::Key,
    input: &F::Input,
    held: F::Value,
) -> DecisionOf<F>
    ensures { result ≡ decision F.meaning (KeyedOp.Rmw key.now input.now) (LookupResult.Mutable held) }
{
    let mut value = held;
    if !functions.in_place(key, input, &mut value) {
        return Decision::Done(Answer::Declined);
    }
    let shown = functions.read(key, input, &value);
    Decision::Replace(Some(value), Answer::Value(shown))
}
