//! A part of memory, or of another device.

/// What belongs to memory, or to another device.
#[derive(Drop)]
pub(crate) enum Either<M, R> {
    Memory(M),
    Other(R),
}
