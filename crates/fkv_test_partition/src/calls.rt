//! Calls on a partition of sums, and what each tells. A key is one letter; a capital stands for the name that
//! has it twice, whose class is another.
ghost use Rattle.std.specs.Prelude.{◌≡◌, ⊤};

use fkv_functions::{Name, Refused, SumFns};
use fkv_operations::{Answer, KeyedOp, Op, OpOf};
use fkv_partition::{Progress, ProgressOf, Wait};
use fkv_records::Address;
use fkv_test_devices::{Turn, UnsureReceipt};
use std::alloc::AllocError;

/// An operation whose key, if it has one, is one letter.
pub type LetterOp = Op<u8, i128, i64>;

/// One step of a compactor.
#[derive(Copy)]
pub enum Work {
    Next,
    /// Hands it the page that it last asked for.
    Load,
    /// Hands it this refusal in place of its page.
    Fault(Refused),
    Truncate,
    Part,
    /// Parts by a clock whose last moment is this one.
    PartAt(u64),
    Slot,
}

impl Clone for Work {
    ghost is_clone = { λ x y. y ≡ x };

    ghost is_infallible = { λ _. ⊤ };

    fn clone(&self) -> Result<Self, AllocError> {
        Ok(*self)
    }
}

/// One call. Where two numbers stand, the first is a slot and the second a context of it.
#[derive(Copy)]
pub enum Call {
    Enter,
    Leave(usize),
    Refresh(usize),
    /// Moves the read-only offset to the start of this page.
    ReadOnly(u64),
    /// Moves Head to the start of this page.
    Head(u64),
    Truncate(u64),
    TruncateCleared,
    /// Takes a page, writes it, and hands it in.
    Flush,
    /// Writes zeros as this page, and hands it in.
    HandIn(u64),
    Issue(usize, LetterOp),
    Go(usize, usize),
    /// Installs what the operation last asked for.
    Install(usize, usize),
    /// Hands an operation the page that it last asked for.
    Load(usize, usize),
    /// Has an operation read the page that it waits for.
    LoadBy(usize, usize),
    /// Hands an operation the page that the one of the last context, in the same session, last asked for.
    LoadOther(usize, usize, usize),
    /// Hands an operation this refusal in place of its page.
    Fault(usize, usize, Refused),
    GiveUp(usize, usize),
    /// A compactor joins; the first is number 0.
    Join,
    /// A step of the compactor of this number.
    By(usize, Work),
    Begin,
    Cleared,
    Tail,
    /// The last moment that was given.
    Moment,
    /// Whether the live map has these pairs.
    Live(&'static [(u8, i128)]),
    /// From now on the reader answers wrongly so, once, after so many pages.
    Stray(u64, Turn),
    /// From now on the writer fails, once, after so many pages.
    FailWrite(u64),
    /// Goes on until something is asked for, or the operation is done or waits.
    Ready(usize, usize),
    /// Goes on, loads and builds until the operation is done or waits.
    Finish(usize, usize),
    /// Issues an operation in the lowest free context, and finishes it.
    Do(usize, LetterOp),
    /// So many relocations, one after the other, each to its end.
    Move(usize, u64),
    /// Moves the read-only offset to this page, and refreshes sessions 0 and 1 until both see it as safe.
    Freeze(u64),
    /// Flushes the pages below this one, moves Head there, and refreshes sessions 0 and 1.
    Evict(u64),
}

impl Clone for Call {
    ghost is_clone = { λ x y. y ≡ x };

    ghost is_infallible = { λ _. ⊤ };

    fn clone(&self) -> Result<Self, AllocError> {
        Ok(*self)
    }
}

/// What a call tells.
#[derive(Copy, PartialEq)]
pub enum Told {
    Ok,
    /// A slot, a context, a page, an address or a moment.
    At(u64),
    Done(Answer<i128>),
    Next,
    Builds(Option<i128>),
    /// The page of this address is asked for.
    Loads(Address),
    Fuzzy,
    Full,
    Is(bool),
    Refused(Refused),
}

impl Clone for Told {
    ghost is_clone = { λ x y. y ≡ x };

    ghost is_infallible = { λ _. ⊤ };

    fn clone(&self) -> Result<Self, AllocError> {
        Ok(*self)
    }
}

/// A call, and what it is to tell.
pub type Row = (Call, Told);

/// The operation on a name.
pub fn on_name(op: LetterOp) -> Option<OpOf<SumFns>> {
    let Some(op) = op.keyed() else {
        return Some(Op::Relocate);
    };
    let letter = op.key();
    let key = if letter.is_ascii_uppercase() {
        Name::new(&[letter, letter])?
    } else {
        Name::new(&[letter])?
    };
    Some(match op {
        KeyedOp::Read(_, input) => Op::Read(key, input),
        KeyedOp::Upsert(_, value) => Op::Upsert(key, value),
        KeyedOp::Rmw(_, input) => Op::Rmw(key, input),
        KeyedOp::Delete(_) => Op::Delete(key),
        KeyedOp::Merge(_, input) => Op::Merge(key, input),
    })
}

/// The first letter of a name.
pub fn letter(name: &Name) -> u8 {
    match name.bytes() {
        [letter] | [letter, _] => *letter,
        _ => 0,
    }
}

/// Whether these are the pairs of a map, in its order.
pub fn is_map(pairs: &[(Name, i128)], wanted: &[(u8, i128)]) -> bool {
    pairs.len() == wanted.len()
        && pairs
            .iter()
            .zip(wanted.iter())
            .all(|(pair, it)| letter(&pair.0) == it.0 && pair.1 == it.1)
}

pub fn done_told(done: Result<(), Refused>) -> Told {
    match done {
        Ok(()) => Told::Ok,
        Err(refused) => Told::Refused(refused),
    }
}

pub fn number_told(number: Result<u64, Refused>) -> Told {
    match number {
        Ok(number) => Told::At(number),
        Err(refused) => Told::Refused(refused),
    }
}

pub fn place_told(place: Result<usize, Refused>) -> Told {
    match place {
        Ok(place) => Told::At(place as u64),
        Err(refused) => Told::Refused(refused),
    }
}

/// What an event of an operation tells.
pub fn progress_told(progress: &Result<ProgressOf<SumFns, UnsureReceipt>, Refused>) -> Told {
    match progress {
        Err(refused) => Told::Refused(*refused),
        Ok(Progress::Done(answer, _)) => Told::Done(*answer),
        Ok(Progress::Next) => Told::Next,
        Ok(Progress::Waits(Wait::Fuzzy)) => Told::Fuzzy,
        Ok(Progress::Waits(Wait::Full)) => Told::Full,
        Ok(Progress::NeedsBuild(ask)) => Told::Builds(ask.source),
        Ok(Progress::NeedsLoad(_, address)) => Told::Loads(*address),
    }
}
