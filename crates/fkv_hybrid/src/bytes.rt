//! Records in the bytes of pages.
ghost use Rattle.std.specs.Prelude.{◌≡◌, ◌+◌, ◌^◌, ◌<◌, ◌≤◌, false, Some, None, IfSome, IsSome, length};
ghost use Rattle.fkv_records.specs.Places.{page_at, offset_at, IsRecordStart};
ghost use Rattle.fkv_records.specs.Records.{size_of, record_bytes, Spells};
ghost use Rattle.fkv_frames.specs.Held.{held};
ghost use Rattle.fkv_hybrid.specs.Spelled.{part_of};
ghost use Rattle.fkv_hybrid.specs.Pages.{OpensAndWrites, IsEdited};

use fkv_frames::Frames;
use fkv_functions::Fixed;
use fkv_records::{Address, Record, Shape, set_tombstone, value_offset, write_record, write_value};

/// So many bytes at an offset of a page.
pub(crate) fn part(page: &[u8], offset: usize, size: usize) -> &[u8]
    requires { offset + size ≤ length page.now }
    ensures { result.now ≡ part_of page.now offset size }
{
    &page[offset..offset + size]
}

/// Writes a record of this size at an address of a page, which is opened before where it is new.
pub(crate) fn put_record<K: Fixed, V: Fixed>(
    frames: &mut Frames,
    is_new: bool,
    page: u64,
    address: Address,
    size: usize,
    entry: &Record<K, V>,
)
    requires size { size ≡ size_of K.SIZE V.SIZE }
    requires most { size ≤ 192 }
    requires page { page ≡ page_at frames.old.bits address }
    requires held { is_new ≡ false → IsSome (held frames.old page) }
    requires fits { offset_at frames.old.bits address + size ≤ 2 ^ frames.old.bits }
    requires previous { entry.now.previous < 2 ^ 48 }
    ensures written { OpensAndWrites is_new page (offset_at frames.old.bits address)
        (record_bytes K.codec V.codec entry.now) frames.old frames.new }
    ensures sized { length (record_bytes K.codec V.codec entry.now) ≡ size }
    ensures spells { Spells K.codec V.codec
        (record_bytes K.codec V.codec entry.now) entry.now }
    ensures key { K.codec.is_known entry.now.key }
    ensures value { IfSome entry.now.value V.codec.is_known }
{
    let mut buffer = [0u8; 192];
    let bytes = &mut buffer[..size];
    write_record(entry, bytes);
    if is_new {
        frames.open_page(page);
    }
    frames.write_at(address, bytes);
}

/// Writes another value into the bytes of the record at an address: the value's own, and no others.
pub(crate) fn put_value<K: Fixed, V: Fixed>(
    frames: &mut Frames,
    shape: Shape,
    address: Address,
    value: &V,
)
    requires bits { shape.page_bits ≡ frames.old.bits }
    requires size { shape.record_size ≡ size_of K.SIZE V.SIZE }
    requires held { IsSome (held frames.old (page_at frames.old.bits address)) }
    requires place { IsRecordStart shape.page_bits shape.record_size address }
    ensures edited { IfSome (held frames.old (page_at frames.old.bits address))
        (IsEdited K.codec V.codec (λ r. IsSome r.value) (Some value.now)
        frames.old.bits address frames.old frames.new) }
    ensures facts { V.codec.is_known value.now }
{
    frames.facts();
    let page = shape.page_of(address);
    let offset = shape.offset_of(address) + value_offset::<K, V>();
    let mut buffer = [0u8; 192];
    let bytes = &mut buffer[..V::SIZE];
    write_value::<K, V>(value, bytes);
    frames.write_in(page, offset, bytes);
}

/// Makes the record in the bytes at an address, which is no delta, a tombstone.
pub(crate) fn put_tombstone<K: Fixed, V: Fixed>(frames: &mut Frames, shape: Shape, address: Address)
    requires bits { shape.page_bits ≡ frames.old.bits }
    requires size { shape.record_size ≡ size_of K.SIZE V.SIZE }
    requires held { IsSome (held frames.old (page_at frames.old.bits address)) }
    requires place { IsRecordStart shape.page_bits shape.record_size address }
    ensures { IfSome (held frames.old (page_at frames.old.bits address))
        (IsEdited K.codec V.codec (λ r. (r.delta ≡ false) × (r.previous < 2 ^ 48)) None
        frames.old.bits address frames.old frames.new) }
{
    let page = shape.page_of(address);
    let offset = shape.offset_of(address);
    let size = shape.record_size;
    let mut buffer = [0u8; 192];
    let bytes = &mut buffer[..size];
    bytes.copy_from_slice(part(frames.bytes(page), offset, size));
    set_tombstone::<K, V>(bytes);
    frames.write_at(address, bytes);
}
