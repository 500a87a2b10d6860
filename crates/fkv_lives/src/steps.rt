//! Single steps of a world.
ghost use Rattle.std.specs.Prelude.{◌≡◌, ⊤};

use fkv_functions::Functions;
use fkv_operations::Op;
use std::alloc::AllocError;

/// A context of a world: the number of its partition, the slot of its session, and its own number there.
#[derive(Clone, Copy, PartialEq, Eq, Debug)]
pub struct ContextId {
    pub partition: usize,
    pub slot: usize,
    pub context: usize,
}

/// How the device takes a page that is written, or gives one that is read.
#[derive(Clone, Copy, PartialEq, Eq, Debug)]
pub enum Access {
    /// It does what it is asked for.
    Works,
    /// It tells a fault, and does nothing.
    Fails,
}

/// A step of a world.
#[derive(Copy)]
pub enum Step<K, V, I> {
    /// Enters a session in this partition.
    Enter(usize),
    /// Leaves the session of this slot, after its partition.
    Leave(usize, usize),
    /// Refreshes the session of this slot, after its partition.
    Refresh(usize, usize),
    /// Moves the read-only offset of this partition to the start of this page.
    ReadOnly(usize, u64),
    /// Takes a copy of the lowest page of this partition that is not flushed, to be written.
    Take(usize),
    /// Writes the page that was taken last from this partition, and empties its slot.
    Write(usize, Access),
    /// Moves Head of this partition to the start of this page.
    Head(usize, u64),
    /// Issues an operation in the session of this slot, after its partition.
    Issue(usize, usize, Op<K, V, I>),
    /// Goes on with the operation that is open there.
    Go(ContextId),
    /// Installs what the operation that is open there asked for last.
    Install(ContextId),
    /// Reads the page that the operation that is open there asked for last, and goes on with it.
    Load(ContextId, Access),
    /// Gives up the operation that is open there.
    GiveUp(ContextId),
    /// Moves Begin of this partition to the start of the page up to which all is cleared.
    Truncate(usize),
}

impl<K: Copy, V: Copy, I: Copy> Clone for Step<K, V, I> {
    ghost is_clone = { λ x y. y ≡ x };

    ghost is_infallible = { λ _. ⊤ };

    fn clone(&self) -> Result<Self, AllocError> {
        Ok(*self)
    }
}

impl<K: Copy, V: Copy, I: Copy> Step<K, V, I> {
    ghost use Rattle.fkv_lives.specs.Steps.{partition_in};

    /// The number of the partition that it is in.
    pub fn partition(&self) -> usize
        ensures { result ≡ partition_in self.now }
    {
        match self {
            Step::Enter(partition) => *partition,
            Step::Leave(partition, _) => *partition,
            Step::Refresh(partition, _) => *partition,
            Step::ReadOnly(partition, _) => *partition,
            Step::Take(partition) => *partition,
            Step::Write(partition, _) => *partition,
            Step::Head(partition, _) => *partition,
            Step::Issue(partition, _, _) => *partition,
            Step::Go(place) => place.partition,
            Step::Install(place) => place.partition,
            Step::Load(place, _) => place.partition,
            Step::GiveUp(place) => place.partition,
            Step::Truncate(partition) => *partition,
        }
    }
}

/// The steps of one type of functions.
pub type StepOf<F> = Step<<F as Functions>::Key, <F as Functions>::Value, <F as Functions>::Input>;
