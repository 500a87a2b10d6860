//! Records and their bytes.
ghost use Rattle.std.specs.Prelude.{◌≡◌, ◌+◌, ◌^◌, ◌<◌, ◌≤◌, ◌↔◌, ◌&&◌, ℕ, Bool, false, length, replicate, IfOk, IfSome};
ghost use Rattle.std.specs.Prelude.{IsSome, IsTrue};
ghost use Rattle.fkv_records.specs.Headers.{header_bytes};
ghost use Rattle.fkv_records.specs.Records.{size_of, value_part, value_bytes, spelling, record_bytes};
ghost use Rattle.fkv_records.specs.Records.{IsPrevious, IsRecord, Spells};
ghost use Rattle.fkv_records.specs.declared.records.Record.{Record};

use crate::addresses::{Address, FIRST, NO_RECORD};
use crate::fields::Header;
use fkv_functions::Fixed;
use thiserror::Error;

/// A record of a key.
#[derive(Clone, Copy, Debug, PartialEq, Eq)]
pub struct Record<K, V> {
    /// The address of the record before it in its class, or 1 where there is none.
    pub previous: Address,
    pub key: K,
    /// The value, or `None` for a tombstone.
    pub value: Option<V>,
    /// Whether the value is a part, to be joined with what the key had before. A tombstone is no delta.
    pub delta: bool,
}

/// The bytes spell no record.
#[derive(Clone, Copy, Debug, PartialEq, Eq, Error)]
#[error("damaged record")]
pub struct Damaged;

/// How many bytes a record of these keys and values takes, or `None` where it takes more than 192.
pub fn record_size<K: Fixed, V: Fixed>() -> Option<usize>
    ensures size { IfSome result (λ n. n ≡ size_of K.SIZE V.SIZE) }
    ensures range { IsSome result ↔ (size_of K.SIZE V.SIZE ≤ 192) }
{
    if K::SIZE > 184 || V::SIZE > 184 - K::SIZE {
        return None;
    }
    Some((15 + K::SIZE + V::SIZE) / 8 * 8)
}

/// Writes the bytes of a record over all of `out`. A tombstone's value bytes are zero.
pub fn write_record<K: Fixed, V: Fixed>(entry: &Record<K, V>, out: &mut [u8])
    requires most { size_of K.SIZE V.SIZE ≤ 192 }
    requires room { length out.old ≡ size_of K.SIZE V.SIZE }
    requires previous { entry.now.previous < 2 ^ 48 }
    ensures bytes { out.new ≡ record_bytes K.codec V.codec entry.now }
    ensures spells { Spells K.codec V.codec out.new entry.now }
    ensures key { K.codec.is_known entry.now.key }
    ensures value { IfSome entry.now.value V.codec.is_known }
{
    fill_record(entry, out)
}

/// Writes the four parts of a record.
fn fill_record<K: Fixed, V: Fixed>(entry: &Record<K, V>, out: &mut [u8])
    requires most { size_of K.SIZE V.SIZE ≤ 192 }
    requires room { length out.old ≡ size_of K.SIZE V.SIZE }
    requires previous { entry.now.previous < 2 ^ 48 }
    ensures bytes { out.new ≡ record_bytes K.codec V.codec entry.now }
    ensures key { K.codec.is_known entry.now.key }
    ensures value { IfSome entry.now.value V.codec.is_known }
    ensures key_sized { length (K.codec.bytes_of entry.now.key) ≡ K.SIZE }
    ensures value_sized { length (value_bytes V.codec entry.now.value) ≡ V.SIZE }
{
    entry.key.known();
    let header = Header {
        previous: entry.previous,
        is_tombstone: entry.value.is_none(),
        is_delta: entry.delta,
    };
    let (front, rest) = out.split_at_mut(8);
    front.copy_from_slice(&header.to_bytes());
    let (key, rest) = rest.split_at_mut(K::SIZE);
    entry.key.put(key);
    let (value, padding) = rest.split_at_mut(V::SIZE);
    match &entry.value {
        None => value.fill(0),
        Some(held) => {
            held.known();
            held.put(value);
        }
    }
    padding.fill(0);
}

/// The one record that these bytes spell at this address, or [`Damaged`] where they spell none: a header that says both
/// tombstone and delta is none's.
pub fn read_record<K: Fixed, V: Fixed>(
    address: Address,
    bytes: &[u8],
) -> Result<Record<K, V>, Damaged>
    requires most { size_of K.SIZE V.SIZE ≤ 192 }
    requires room { length bytes.now ≡ size_of K.SIZE V.SIZE }
    ensures found { IfOk result (λ r. IsRecord K.codec V.codec address r
        × Spells K.codec V.codec bytes.now r) }
    ensures only { (r : Record K V) → IsRecord K.codec V.codec address r
        → Spells K.codec V.codec bytes.now r → result ≡ Ok r }

    // one spelling: but for the value's bytes the record determines all bytes, and a value determines those
    ensures spelling { IfOk result (λ r. bytes.now
        ≡ spelling K.codec V.SIZE r (value_part K.SIZE V.SIZE bytes.now)) }
{
    let key_end = 8 + K::SIZE;
    let value_end = key_end + V::SIZE;
    let Some(header) = read_header(address, &bytes[..8]) else {
        return Err(Damaged);
    };
    if !is_zeros(&bytes[value_end..]) {
        return Err(Damaged);
    }
    let Some(key) = K::take(&bytes[8..key_end]) else {
        return Err(Damaged);
    };
    if header.is_tombstone {
        return Ok(Record {
            previous: header.previous,
            key,
            value: None,
            delta: false,
        });
    }
    let Some(value) = V::take(&bytes[key_end..value_end]) else {
        return Err(Damaged);
    };
    Ok(Record {
        previous: header.previous,
        key,
        value: Some(value),
        delta: header.is_delta,
    })
}

/// The header that these eight bytes are, of a record at this address.
fn read_header(address: Address, bytes: &[u8]) -> Option<Header>
    requires { length bytes.now ≡ 8 }
    ensures spelled { IfSome result (λ h. bytes.now ≡ header_bytes h.previous h.is_tombstone h.is_delta) }
    ensures previous { IfSome result (λ h. IsPrevious address h.previous × (h.previous < 2 ^ 48)) }
    ensures one { IfSome result (λ h. (h.is_tombstone && h.is_delta) ≡ false) }
    ensures only { (p : ℕ) (t d : Bool) → IsPrevious address p → p < 2 ^ 48 → (t && d) ≡ false
        → bytes.now ≡ header_bytes p t d
        → IfSome result (λ h. (h.previous ≡ p) × (h.is_tombstone ≡ t) × (h.is_delta ≡ d)) × IsSome result }
{
    let header = Header::from_bytes(bytes)?;
    if header.is_tombstone && header.is_delta {
        return None;
    }
    if !is_previous(header.previous, address) {
        return None;
    }
    Some(header)
}

/// Whether a record at an address may name this one as its previous.
fn is_previous(previous: Address, address: Address) -> bool
    ensures { IsTrue result ↔ IsPrevious address previous }
{
    previous == NO_RECORD || (FIRST <= previous && previous < address)
}

/// Whether these bytes are all zero.
fn is_zeros(bytes: &[u8]) -> bool
    ensures { IsTrue result ↔ (bytes.now ≡ replicate (length bytes.now) 0) }
{
    bytes.iter().all(|byte| *byte == 0)
}
