//! The fields of a record in its bytes: its header, which is the first eight, its key and its value. Each is read without the others,
//! and changed where it stands.
ghost use Rattle.std.specs.Prelude.{◌≡◌, ◌^◌, ◌<◌, ◌≤◌, ◌↔◌, ℕ, length, is_none, IsTrue, Some, IfSome, ◌+◌, List, false, slice_set};
ghost use Rattle.std.specs.Prelude.{slice_index, bit_or, IsSome, None};
ghost use Rattle.fkv_records.specs.Records.{size_of, IsRecord, Spells, with_value_part};
ghost use Rattle.fkv_records.specs.declared.records.Record.{Record};
ghost use Rattle.fkv_records.specs.Headers.{word_bytes, header_bytes, IsSpelledBy};

use crate::addresses::Address;
use crate::records::Record;
use fkv_functions::Fixed;

/// What the first eight bytes of a record say.
#[derive(Clone, Copy, Debug, PartialEq, Eq)]
pub struct Header {
    /// The address of the record before it in its class, or 1 where there is none: below 2^48.
    pub previous: Address,
    /// Whether the record takes its key away.
    pub is_tombstone: bool,
    /// Whether the record's value is a part, to be joined with what stands before it.
    pub is_delta: bool,
}

impl Header {
    /// The bytes.
    #[tactic(auto, unfolding(crate::specs::Headers::word_bytes))]
    pub fn to_bytes(&self) -> [u8; 8]
        requires { self.now.previous < 2 ^ 48 }
        ensures { result ≡ header_bytes self.now.previous self.now.is_tombstone self.now.is_delta }
    {
        // bit 48 is the tombstone's, bit 49 the delta's, and bit 50 is always 1
        let flags = 4 + 2 * u64::from(self.is_delta) + u64::from(self.is_tombstone);
        (self.previous | flags << 48).to_le_bytes()
    }

    /// The one header that is written in these eight bytes, or `None` where none is.
    pub fn from_bytes(bytes: &[u8]) -> Option<Header>
        requires { length bytes.now ≡ 8 }
        ensures found { IfSome result (IsSpelledBy bytes.now) }
        ensures only { (h : Header) → IsSpelledBy bytes.now h → result ≡ Some h }
    {
        let flags = word_of(bytes) >> 48;
        if flags < 4 || flags > 7 {
            return None;
        }
        Some(Header::held_in(bytes))
    }

    /// The header that these eight bytes are known to be, with no test of them.
    pub fn held_in(bytes: &[u8]) -> Header
        requires { length bytes.now ≡ 8 }
        ensures { (h : Header) → IsSpelledBy bytes.now h → result ≡ h }
    {
        let word = word_of(bytes);
        let flags = word >> 48;
        Header {
            previous: word & 0xffff_ffff_ffff,
            is_tombstone: flags & 1 == 1,
            is_delta: flags & 2 == 2,
        }
    }
}

/// The number that these eight bytes are, the lowest first.
#[tactic(auto, unfolding(crate::specs::Headers::word_bytes))]
fn word_of(bytes: &[u8]) -> u64
    requires { length bytes.now ≡ 8 }
    ensures { word_bytes result ≡ bytes.now }
{
    let mut word = [0u8; 8];
    word.copy_from_slice(bytes);
    u64::from_le_bytes(word)
}

/// Whether the record is one of this key: the key's bytes are compared, and no key is read.
pub fn is_of<K: Fixed, V: Fixed>(bytes: &[u8], key: &K) -> bool
    requires most { size_of K.SIZE V.SIZE ≤ 192 }
    requires room { length bytes.now ≡ size_of K.SIZE V.SIZE }
    ensures { (r : Record K V) → K.codec.is_known r.key → Spells K.codec V.codec bytes.now r
        → (IsTrue result ↔ (r.key ≡ key.now)) }
{
    key.known();
    key.bytes_equal(&bytes[8..8 + K::SIZE])
}

/// The record's header: its previous address, and whether it is a tombstone or a delta.
pub fn link_of<K: Fixed, V: Fixed>(bytes: &[u8]) -> Header
    requires most { size_of K.SIZE V.SIZE ≤ 192 }
    requires room { length bytes.now ≡ size_of K.SIZE V.SIZE }
    ensures { (r : Record K V) → r.previous < 2 ^ 48 → Spells K.codec V.codec bytes.now r
        → result ≡ record { previous = r.previous; is_tombstone = is_none r.value; is_delta = r.delta } }
{
    Header::held_in(&bytes[..8])
}

/// The record's value, where it is no tombstone.
pub fn value_of<K: Fixed, V: Fixed>(bytes: &[u8]) -> Option<V>
    requires most { size_of K.SIZE V.SIZE ≤ 192 }
    requires room { length bytes.now ≡ size_of K.SIZE V.SIZE }
    ensures { (r : Record K V) (v : V) → r.value ≡ Some v → V.codec.is_known v
        → Spells K.codec V.codec bytes.now r
        → result ≡ Some v }
{
    let start = 8 + K::SIZE;
    V::take(&bytes[start..start + V::SIZE])
}

/// The record, with no test of what is known of it.
#[inline(always)]
pub fn record_of<K: Fixed, V: Fixed>(bytes: &[u8]) -> Record<K, V>
    requires most { size_of K.SIZE V.SIZE ≤ 192 }
    requires room { length bytes.now ≡ size_of K.SIZE V.SIZE }
    requires stands { (address : ℕ) × (r : Record K V) × IsRecord K.codec V.codec address r
        × Spells K.codec V.codec bytes.now r }
    ensures { (address : ℕ) (r : Record K V) → IsRecord K.codec V.codec address r
        → Spells K.codec V.codec bytes.now r
        → result ≡ r }
{
    let header = link_of::<K, V>(bytes);
    let value = if header.is_tombstone {
        None
    } else {
        value_of::<K, V>(bytes)
    };
    Record {
        previous: header.previous,
        key: K::held_in(&bytes[8..8 + K::SIZE]),
        value,
        delta: header.is_delta,
    }
}

/// Where in a record the bytes of its value begin.
pub fn value_offset<K: Fixed, V: Fixed>() -> usize
    requires { size_of K.SIZE V.SIZE ≤ 192 }
    ensures { result ≡ 8 + K.SIZE }
{
    8 + K::SIZE
}

/// Writes another value over the bytes of the value of a record that has one.
pub fn write_value<K: Fixed, V: Fixed>(value: &V, place: &mut [u8])
    requires room { length place.old ≡ V.SIZE }
    ensures bytes { place.new ≡ V.codec.bytes_of value.now }
    ensures spells { (bytes : List ℕ) (r : Record K V) → length bytes ≡ size_of K.SIZE V.SIZE → IsSome r.value
        → Spells K.codec V.codec bytes r
        → Spells K.codec V.codec (with_value_part K.SIZE V.SIZE bytes place.new)
        (record r { value = Some value.now }) }
    ensures known { V.codec.is_known value.now }
{
    value.known();
    value.put(place);
}

/// Makes the record in these bytes, which is no delta, a tombstone. All bits but the tombstone's stay.
pub fn set_tombstone<K: Fixed, V: Fixed>(bytes: &mut [u8])
    requires { length bytes.old ≡ size_of K.SIZE V.SIZE }
    ensures bytes { bytes.new ≡ slice_set bytes.old 6 (bit_or (slice_index bytes.old 6) 1) }
    ensures spells { (r : Record K V) → r.delta ≡ false → r.previous < 2 ^ 48
        → Spells K.codec V.codec bytes.old r
        → Spells K.codec V.codec bytes.new (record r { value = None }) }
{
    // bit 48 of the header
    bytes[6] |= 1;
}
