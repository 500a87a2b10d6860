//! Pairs as records, one behind another, in the bytes of a page.
ghost use Rattle.std.specs.Prelude.{◌≡◌, ◌+◌, ◌<◌, ◌≤◌, ◌++◌, ◌∷◌, [], List, ℕ, Some, length, take, drop, IsSome, IfOk, IfErr, OnOk, OnErr};
ghost use Rattle.fkv_functions.specs.declared.names.Name.{Name};
ghost use Rattle.fkv_functions.specs.declared.refusals.Refused.TheVariants as refused;
ghost use Rattle.fkv_spills.specs.Spilling.{pair_size, record_for, IsPairIn};

use fkv_device::Page;
use fkv_functions::{Fixed, Name, Refused};
use fkv_records::{FIRST, NO_RECORD, Record, read_record, record_size, write_record};
use std::alloc::Global;

/// The most bytes that a record takes.
const MOST: usize = 192;

/// A page of pairs that was written, by its receipt.
#[derive(Drop)]
pub struct SpilledPage<R> {
    pub receipt: R,
    /// How many pairs it has.
    pub count: usize,
}

/// Spells a pair in these bytes.
fn spell<V: Fixed>(name: &Name, value: V, out: &mut [u8])
    requires most { pair_size V.SIZE ≤ 192 }
    requires room { length out.old ≡ pair_size V.SIZE }
    ensures { IsPairIn V.codec out.new (name.now, value) }
{
    let record = Record {
        previous: NO_RECORD,
        key: *name,
        value: Some(value),
        delta: false,
    };
    write_record(&record, out);
}

/// Puts a pair behind others. Refused: `NoMemory`.
pub(crate) fn put_pair<V: Fixed>(bytes: &mut Vec<u8>, name: &Name, value: V) -> Result<(), Refused>
    requires most { pair_size V.SIZE ≤ 192 }
    ensures ok { OnOk result ((spelled : List ℕ) × (bytes.new.items ≡ bytes.old.items ++ spelled)
        × IsPairIn V.codec spelled (name.now, value)) }
    ensures unchanged { OnErr result (bytes.new.items ≡ bytes.old.items) }
    ensures only { IfErr result (λ e. e ≡ refused.NoMemory) }
{
    let Some(size) = record_size::<Name, V>() else {
        unreachable!();
    };
    let mut room = [0u8; MOST];
    let place = &mut room[..size];
    spell(name, value, place);
    match bytes.extend_from_slice(place) {
        Ok(()) => Ok(()),
        Err(_) => Err(Refused::NoMemory),
    }
}

/// The pair that stands at a place of these bytes, `None` where they spell none there.
pub(crate) fn pair_at<V: Fixed>(bytes: &[u8], at: usize) -> Option<(Name, V)>
    ensures found { (x : Name × V) → IsPairIn V.codec (take (pair_size V.SIZE) (drop at bytes.now)) x → result ≡ Some x }
    ensures room { IsSome result → at + pair_size V.SIZE ≤ length bytes.now }
{
    let size = record_size::<Name, V>()?;
    if at > bytes.len() || bytes.len() - at < size {
        return None;
    }
    match read_record::<Name, V>(FIRST, &bytes[at..at + size]) {
        Ok(record) => paired(record),
        Err(_) => None,
    }
}

/// The key and the value of a record, `None` of a tombstone.
fn paired<V: Fixed>(entry: Record<Name, V>) -> Option<(Name, V)>
    ensures { (x : Name × V) → entry ≡ record_for x → result ≡ Some x }
{
    match entry.value {
        Some(value) => Some((entry.key, value)),
        None => None,
    }
}

/// A page of these bytes, and of zeros behind them up to a size. Refused: `NoMemory`.
pub(crate) fn padded(alloc: Global, bytes: &[u8], size: usize) -> Result<Page, Refused>
    ensures ok { IfOk result (λ page. (zeros : List ℕ) × (page ≡ bytes.now ++ zeros)) }
    ensures only { IfErr result (λ e. e ≡ refused.NoMemory) }
{
    let Ok(zeros) = vec![in alloc; 0u8; size.saturating_sub(bytes.len())] else {
        return Err(Refused::NoMemory);
    };
    let Ok(mut page) = Vec::with_capacity(alloc, size) else {
        return Err(Refused::NoMemory);
    };
    let Ok(()) = page.extend_from_slice(bytes) else {
        return Err(Refused::NoMemory);
    };
    let Ok(()) = page.extend_from_slice(&zeros) else {
        return Err(Refused::NoMemory);
    };
    Page::new(alloc, page)
}
