//! Names: keys of 1 to 31 bytes.
ghost use Rattle.std.specs.Prelude.{◌≡◌, ◌+◌, ◌-◌, ◌<◌, ◌≤◌, ◌↔◌, ℕ, List, ◌∷◌, ◌++◌, length, drop, take, replicate};
ghost use Rattle.std.specs.Prelude.{refl, IfSome, IsSome, IsTrue, Some};
ghost use Rattle.std.specs.Cmp.Lexicographic.{slice_cmp};
ghost use Rattle.std.specs.Int.{w64, to_be_bytes};
ghost use Rattle.std.specs.Ordering.{nat_cmp};
ghost use Rattle.fkv_functions.specs.Hashes.{fnv_1a};

use crate::hashes::fnv_1a_hash;
use crate::integers::word_of;
use crate::values::{Fixed, FixedKey, Known};
use std::cmp::Ordering;

/// 1 to 31 bytes of any kind, ordered as byte strings.
///
/// As a [`Fixed`] value it takes 32 bytes: its length, its bytes, and zeros.
#[derive(Clone, Copy, Debug)]
pub struct Name {
    len: u8,
    bytes: [u8; 31],
    /// Made once for all who ask.
    hash: u64,
    pub ghost some: { 1 ≤ len },
    pub ghost most: { len ≤ 31 },
    pub ghost room: { length bytes ≡ 31 },
    pub ghost padded: { drop len bytes ≡ replicate (31 - len) 0 },
    pub ghost hashed: { hash ≡ fnv_1a (take len bytes) },
}

impl Name {
    ghost use Rattle.fkv_functions.specs.Names.{text_of};

    /// The name of these bytes, where there are 1 to 31.
    pub fn new(bytes: &[u8]) -> Option<Name>
        ensures some { IfSome result (λ name. text_of name ≡ bytes.now) }
        ensures range { IsSome result ↔ ((1 ≤ length bytes.now) × (length bytes.now ≤ 31)) }
    {
        if bytes.is_empty() || bytes.len() > 31 {
            return None;
        }
        let mut all = [0u8; 31];
        all[..bytes.len()].copy_from_slice(bytes);
        Some(Name {
            len: bytes.len() as u8,
            bytes: all,
            hash: fnv_1a_hash(bytes),
        })
    }

    /// The bytes.
    pub fn bytes(&self) -> &[u8]
        ensures value { result.now ≡ text_of self.now }
        ensures some { 1 ≤ length result.now }
        ensures most { length result.now ≤ 31 }
    {
        &self.bytes[..self.len as usize]
    }

    /// The hash of the bytes, FNV-1a of 64 bits.
    pub fn hash(&self) -> u64
        ensures { result ≡ fnv_1a (text_of self.now) }
    {
        self.hash
    }
}

impl PartialEq for Name {
    ghost use Rattle.fkv_functions.specs.Names.{same_names, same_partial};

    ghost eq = { same_names };

    ghost laws = { same_partial };

    fn eq(&self, other: &Name) -> bool {
        self.bytes() == other.bytes()
    }
}

impl Eq for Name {
    ghost use Rattle.fkv_functions.specs.Names.{same_equivalence};

    ghost laws = { same_equivalence };
}

impl Ord for Name {
    ghost use Rattle.std.specs.Prelude.{refl};
    ghost use Rattle.fkv_functions.specs.Names.{name_cmp, name_total, name_ties};

    ghost cmp = { name_cmp };

    ghost total = { name_total };

    ghost matches_partial_cmp = { λ a b. refl };

    ghost matches_eq = { name_ties };

    /// The zeros behind two names tell them apart but where one is the other with NULs behind it.
    fn cmp(&self, other: &Name) -> Ordering {
        match order_of(self.bytes.as_slice(), other.bytes.as_slice()) {
            Ordering::Equal => self.len.cmp(&other.len),
            apart => apart,
        }
    }
}

impl PartialOrd for Name {
    ghost use Rattle.std.specs.Ordering.{as_partial_cmp};
    ghost use Rattle.fkv_functions.specs.Names.{name_cmp, name_ordered};

    ghost partial_cmp = { as_partial_cmp name_cmp };

    ghost laws = { name_ordered };

    fn partial_cmp(&self, other: &Name) -> Option<Ordering> {
        Some(self.cmp(other))
    }
}

impl Known for Name {
    // its ghost fields say all
    ghost is_known = { λ _. Unit {0} };

    fn known(&self) {
        let _length = self.len;
    }

    fn is(&self, other: &Name) -> bool {
        *self == *other
    }
}

impl FixedKey for Name {
    ghost use Rattle.fkv_functions.specs.Names.{name_exact};

    ghost exact = { name_exact };
}

impl Fixed for Name {
    ghost use Rattle.fkv_functions.specs.Names.{name_codec};

    const SIZE: usize = 32;

    ghost SIZE = { 32 };

    ghost codec = { name_codec };

    fn put(&self, out: &mut [u8]) {
        let (length, rest) = out.split_at_mut(1);
        length[0] = self.len;
        rest.copy_from_slice(&self.bytes);
    }

    fn take(bytes: &[u8]) -> Option<Name> {
        let (length, rest) = bytes.split_at(1);
        let len = length[0];
        if len == 0 || len > 31 || !is_zeros(&rest[len as usize..]) {
            return None;
        }
        Some(padded_name(len, rest))
    }

    fn held_in(bytes: &[u8]) -> Name {
        let (length, rest) = bytes.split_at(1);
        padded_name(length[0], rest)
    }

    fn bytes_equal(&self, bytes: &[u8]) -> bool {
        let (length, rest) = bytes.split_at(1);
        length[0] == self.len && is_same(rest, self.bytes.as_slice())
    }

    ghost written = { λ v h. h };
}

/// The name of the first of these 31 bytes, so many, with zeros behind them.
fn padded_name(len: u8, padded: &[u8]) -> Name
    requires some { 1 ≤ len }
    requires most { len ≤ 31 }
    requires room { length padded.now ≡ 31 }
    requires padded { drop len padded.now ≡ replicate (31 - len) 0 }
    ensures len { result.len ≡ len }
    ensures bytes { result.bytes ≡ padded.now }
{
    let mut bytes = [0u8; 31];
    bytes.copy_from_slice(padded);
    Name {
        len,
        bytes,
        hash: fnv_1a_hash(&padded[..len as usize]),
    }
}

/// Whether these 31 bytes are those, eight by eight: each key on a look-up's way is compared so.
fn is_same(bytes: &[u8], other: &[u8]) -> bool
    requires bytes { length bytes.now ≡ 31 }
    requires other { length other.now ≡ 31 }
    ensures { IsTrue result ↔ (bytes.now ≡ other.now) }
{
    let (first, after) = bytes.split_at(8);
    let (second, after) = after.split_at(8);
    let (third, _seven) = after.split_at(8);
    let (_seven, last) = after.split_at(7);
    let (other_first, other_after) = other.split_at(8);
    let (other_second, other_after) = other_after.split_at(8);
    let (other_third, _seven) = other_after.split_at(8);
    let (_seven, other_last) = other_after.split_at(7);
    word_of(first) == word_of(other_first)
        && word_of(second) == word_of(other_second)
        && word_of(third) == word_of(other_third)
        && word_of(last) == word_of(other_last)
}

/// The order of these 31 bytes and those, eight by eight: a table of a feed asks for it at each step down its tree.
fn order_of(bytes: &[u8], other: &[u8]) -> Ordering
    requires bytes { length bytes.now ≡ 31 }
    requires other { length other.now ≡ 31 }
    ensures { result ≡ slice_cmp nat_cmp bytes.now other.now }
{
    let (first, after) = bytes.split_at(8);
    let (other_first, other_after) = other.split_at(8);
    match order_of_words(first, other_first) {
        Ordering::Equal => {}
        apart => return apart,
    }
    let (second, after) = after.split_at(8);
    let (other_second, other_after) = other_after.split_at(8);
    match order_of_words(second, other_second) {
        Ordering::Equal => {}
        apart => return apart,
    }
    let (third, _seven) = after.split_at(8);
    let (other_third, _seven) = other_after.split_at(8);
    match order_of_words(third, other_third) {
        Ordering::Equal => {}
        apart => return apart,
    }
    let (_seven, last) = after.split_at(7);
    let (_seven, other_last) = other_after.split_at(7);
    order_of_words(last, other_last)
}

/// The order of these eight bytes and those: as they stand they tell whether they tie, which takes fewer steps than to
/// turn both round first.
#[tactic(auto, using(crate::proofs::NameOrder::words_ordered))]
fn order_of_words(bytes: &[u8], other: &[u8]) -> Ordering
    requires bytes { length bytes.now ≡ 8 }
    requires other { length other.now ≡ 8 }
    ensures { result ≡ slice_cmp nat_cmp bytes.now other.now }
{
    if word_of(bytes) == word_of(other) {
        return Ordering::Equal;
    }
    high_word_of(bytes).cmp(&high_word_of(other))
}

/// The number that these eight bytes spell, the highest first.
fn high_word_of(bytes: &[u8]) -> u64
    requires { length bytes.now ≡ 8 }
    ensures { to_be_bytes w64 result ≡ bytes.now }
{
    let mut word = [0u8; 8];
    word.copy_from_slice(bytes);
    u64::from_be_bytes(word)
}

/// Whether these bytes, 31 at most, are all zero: eight by eight, and then the last eight, of which some may have been
/// read before.
fn is_zeros(bytes: &[u8]) -> bool
    requires { length bytes.now ≤ 31 }
    ensures { IsTrue result ↔ (bytes.now ≡ replicate (length bytes.now) 0) }
{
    if bytes.len() < 8 {
        return bytes.iter().all(|byte| *byte == 0);
    }
    let mut at = 0;
    while at + 8 < bytes.len() {
        if word_of(&bytes[at..at + 8]) != 0 {
            return false;
        }
        at += 8;
    }
    word_of(&bytes[bytes.len() - 8..]) == 0
}
