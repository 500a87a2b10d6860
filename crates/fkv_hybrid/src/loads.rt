//! Entries that the bytes of one page spell.
ghost use Rattle.std.specs.Prelude.{◌≡◌, ◌^◌, IfOk, IfErr, Ok, length};
ghost use Rattle.fkv_records.specs.Places.{page_at, offset_at, first_offset};
ghost use Rattle.fkv_records.specs.Records.{size_of};
ghost use Rattle.fkv_texts.specs.declared.entries.Entry.{Entry};
ghost use Rattle.fkv_hybrid.specs.Spelled.{IsEntryIn};
ghost use Rattle.fkv_hybrid.specs.Loads.{IsReached};

use crate::bytes::part;
use fkv_functions::{Fixed, FixedKey, Refused};
use fkv_records::{Address, Shape, read_record};
use fkv_texts::entries::entry_of;
use fkv_texts::{ChainPosition, Entry};

/// The entry at an address, from the bytes of its page. Refused: `Damaged` where they spell none there.
pub(crate) fn entry_in<K: Fixed, V: Fixed>(
    shape: Shape,
    page: &[u8],
    address: Address,
) -> Result<Entry<K, V>, Refused>
    requires size { shape.record_size ≡ size_of K.SIZE V.SIZE }
    requires sized { length page.now ≡ 2 ^ shape.page_bits }
    ensures only { IfOk result (IsEntryIn K.codec V.codec shape.page_bits
        page.now address) }
    ensures found { (e : Entry K V)
        → IsEntryIn K.codec V.codec shape.page_bits page.now address e
        → result ≡ Ok e }
    ensures damaged { IfErr result (λ refused. refused ≡ Refused.Damaged (page_at shape.page_bits address)) }
{
    if !shape.is_record_start(address) {
        return Err(Refused::Damaged {
            page: shape.page_of(address),
        });
    }
    let bytes = part(page, shape.offset_of(address), shape.record_size);
    let damaged = Refused::Damaged {
        page: shape.page_of(address),
    };
    match read_record::<K, V>(address, bytes) {
        Ok(found) => Ok(entry_of(address, found)),
        Err(_) => Err(damaged),
    }
}

/// What is reached from an address along previous addresses, down to another one in the page. Refused as [`entry_in`].
pub(crate) fn reached_in<K: FixedKey, V: Fixed>(
    shape: Shape,
    page: &[u8],
    key: &K,
    from: Address,
    low: Address,
) -> Result<ChainPosition<K, V>, Refused>
    requires size { shape.record_size ≡ size_of K.SIZE V.SIZE }
    requires sized { length page.now ≡ 2 ^ shape.page_bits }
    ensures { IsReached (IsEntryIn K.codec V.codec shape.page_bits page.now)
        K.cmp key.now shape.page_bits low from result }
{
    let mut address = from;
    while address >= low {
        let entry: Entry<K, V> = match entry_in(shape, page, address) {
            Ok(entry) => entry,
            Err(refused) => return Err(refused),
        };
        if entry.key == *key {
            return Ok(ChainPosition::Found(entry));
        }
        address = entry.previous;
    }
    Ok(ChainPosition::Below(address))
}
