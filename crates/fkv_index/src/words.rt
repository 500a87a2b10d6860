//! The words of the index, by the bits of their format, and where one stands.
ghost use Rattle.std.specs.Prelude.{◌≡◌, ◌+◌, ◌*◌, ◌^◌, ◌<◌, ◌↔◌, IsTrue};

/// A word of the index: bits 0 to 47 are an address, bits 48 to 62 a tag, and bit 63 is set where the
/// entry is tentative. The word 0 is an empty place.
#[derive(Clone, Copy, Debug, PartialEq, Eq)]
pub struct Word {
    /// The word as it is stored.
    pub bits: u64,
}

/// The address that says that there is no record.
pub const NO_RECORD: u64 = 1;

const ADDRESS: u64 = 0xffff_ffff_ffff;

const TAG: u64 = 0x7fff;

const TENTATIVE: u64 = 0x8000_0000_0000_0000;

#[tactic(auto, unfolding(crate::specs::Words::final_word, crate::specs::Words::tentative_word, crate::specs::Words::address_of, crate::specs::Words::tag_of, crate::specs::Words::is_empty, crate::specs::Words::is_tentative, crate::specs::Words::is_final, crate::specs::Words::is_entry_of, crate::specs::Words::is_final_of, crate::specs::Words::swept))]
impl Word {
    ghost use Rattle.fkv_index.specs.Words.{empty, final_word, tentative_word, tag_of, address_of, is_empty};
    ghost use Rattle.fkv_index.specs.Words.{is_tentative, is_final, is_entry_of, is_final_of, swept};

    /// The word of an empty place.
    pub(crate) fn empty() -> Word
        ensures { result ≡ empty }
    {
        Word { bits: 0 }
    }

    /// The word of a final entry: a tag below 2^15, and an address below 2^48 that is not 0.
    pub fn entry(tag: u16, address: u64) -> Word
        requires tag { tag < 2 ^ 15 }
        requires address { address < 2 ^ 48 }
        requires some { 0 < address }
        ensures bits { result ≡ final_word tag address }
        ensures is { IsTrue (is_final result) }
        ensures tag { tag_of result ≡ tag }
        ensures address { address_of result ≡ address }
    {
        Word {
            bits: u64::from(tag) << 48 | address,
        }
    }

    /// The word of a tentative entry, with the address [`NO_RECORD`].
    pub(crate) fn claim(tag: u16) -> Word
        requires { tag < 2 ^ 15 }
        ensures bits { result ≡ tentative_word tag }
        ensures is { IsTrue (is_tentative result) }
        ensures tag { tag_of result ≡ tag }
    {
        Word {
            bits: 1 << 63 | Word::entry(tag, NO_RECORD).bits,
        }
    }

    /// The tag: below 2^15.
    pub fn tag(self) -> u16
        ensures value { result ≡ tag_of self }
        ensures small { result < 2 ^ 15 }
    {
        (self.bits >> 48 & TAG) as u16
    }

    /// The address: below 2^48.
    pub fn address(self) -> u64
        ensures value { result ≡ address_of self }
        ensures small { result < 2 ^ 48 }
    {
        self.bits & ADDRESS
    }

    /// Whether it is the word of an empty place.
    pub fn is_empty(self) -> bool
        ensures { result ≡ is_empty self }
    {
        self.bits == 0
    }

    /// Whether it is the word of a tentative entry.
    pub fn is_tentative(self) -> bool
        ensures { result ≡ is_tentative self }
    {
        self.bits >= TENTATIVE
    }

    /// Whether it is the word of a final entry.
    pub fn is_final(self) -> bool
        ensures { result ≡ is_final self }
    {
        self.bits != 0 && self.bits < TENTATIVE
    }

    /// Whether it is the word of an entry of this tag, final or tentative.
    pub(crate) fn is_entry_of(self, tag: u16) -> bool
        ensures { result ≡ is_entry_of tag self }
    {
        self.bits != 0 && self.bits >> 48 & TAG == u64::from(tag)
    }

    /// Whether it is the word of a final entry of this tag.
    pub(crate) fn is_final_of(self, tag: u16) -> bool
        requires { tag < 2 ^ 15 }
        ensures { result ≡ is_final_of tag self }
    {
        self.bits >> 48 == u64::from(tag) && self.bits != 0
    }

    /// The word after a sweep: empty where it is final and its address is below `begin`, else the same.
    pub(crate) fn swept(self, begin: u64) -> Word
        ensures { result ≡ swept begin self }
    {
        if self.is_final() && self.address() < begin {
            Word::empty()
        } else {
            self
        }
    }
}

/// The place of a word: its bucket, and its number from 0 among the bucket's places. The first seven
/// places are those of the bucket itself; those of its overflow buckets follow in order.
#[derive(Clone, Copy, Debug, PartialEq, Eq)]
pub struct Place {
    pub bucket: usize,
    pub at: usize,
}
