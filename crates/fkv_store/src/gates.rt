//! Where a pass tells how far it is, so that a test can hold it there.

/// How far a pass is.
#[derive(Clone, Copy, PartialEq, Eq, Debug)]
pub enum Place {
    /// Before the first hold of an operation, or of updates that are made in one hold.
    Start,
    /// In a hold of the lock of the partition of this number.
    Locked(u64),
    /// Before a value is built, with no partition's lock held.
    Build,
    /// Before a page is read, with no partition's lock held.
    Load,
    /// Before a page is written, with no partition's lock held.
    Flush,
    /// After the last hold of an operation that is answered.
    Answered,
}

/// Is told by each worker how far it is.
pub trait Gate {
    /// A worker is at a place.
    fn pass(&self, worker: u32, place: Place);
}

/// The gate that does nothing.
#[derive(Clone, Copy, Debug, Default)]
pub struct Open;

impl Gate for Open {
    fn pass(&self, _worker: u32, _place: Place) {}
}
