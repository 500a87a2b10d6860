//! The entries of classes in the index.
ghost use Rattle.std.specs.Prelude.{◌≡◌};
ghost use Rattle.fkv_index.specs.Words.{address_of};

use fkv_index::{Place, Word};
use fkv_records::Address;

/// The entry of a class as it was found: where it stands in the index, and its word.
#[derive(Clone, Copy, PartialEq, Eq, Debug)]
pub struct IndexEntry {
    pub place: Place,
    pub word: Word,
}

impl IndexEntry {
    /// Where it leads: the address of the last record of its class, or 1 where it has none yet.
    pub fn address(&self) -> Address
        ensures { result ≡ address_of self.now.word }
    {
        self.word.address()
    }
}
