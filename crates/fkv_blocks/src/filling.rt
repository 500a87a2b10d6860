//! Reading a stream as far as a block needs.
ghost use Rattle.std.specs.Prelude.{◌≡◌, ◌<◌, ◌≤◌, ◌⊎◌, ℕ, List, Option, false, take, drop, option_map, vec_len, IfOk, IfErr, IfSome, IfNone, OnErr, OnOk, IsTrue};
ghost use Rattle.std.specs.Io.KnownBytes.{IsAtEnd, Keeps, prepend_known};
ghost use Rattle.csv.specs.Reading.{is_bom, strip_bom};
ghost use Rattle.fkv_streams.specs.Counting.{CountsOnly};
ghost use Rattle.fkv_blocks.specs.Cutting.{IsCut};

use crate::cutting::record_end;
use fkv_functions::Refused;
use fkv_streams::Source;
use std::alloc::Global;
use std::mem;

/// Reads on until so many bytes are held, or to the end, and tells whether it came to the end. Refused as the stream is, and
/// `NoMemory`; what is held then is still the front of what there was.
fn fill<S: Source>(source: &mut S, held: &mut Vec<u8>, size: usize) -> Result<bool, Refused>
    ensures keeps { OnOk result (Keeps (prepend_known held.old.items (S.remaining source.old)) (prepend_known held.new.items (S.remaining source.new))) }
    ensures lost { OnErr result ((rest : Option (List ℕ))
        × Keeps (prepend_known held.old.items (S.remaining source.old)) (prepend_known held.new.items rest)) }
    ensures over { IfOk result (λ over. IsTrue over → IsAtEnd (S.remaining source.new)) }
    ensures full { IfOk result (λ over. over ≡ false → size ≤ vec_len held.new) }
    ensures counted { CountsOnly (Refused.Unreadable 1) result (S.failures source.old) (S.failures source.new) }
    ensures only { IfErr result (λ e. (e ≡ Refused.NoMemory) ⊎ (e ≡ Refused.Unreadable 1)) }
{
    let mut buffer = [0u8; 8192];
    while held.len() < size {
        let read = match source.read(&mut buffer) {
            Ok(0) => return Ok(true),
            Ok(read) => read,
            Err(refused) => return Err(refused),
        };
        let Ok(()) = held.extend_from_slice(&buffer[..read]) else {
            return Err(Refused::NoMemory);
        };
    }
    Ok(false)
}

/// Reads on until so many bytes are held and the end of a record is among them, behind which they may be cut, or to the end of all:
/// then there is no such place. Refused as [`fill`] is.
pub(crate) fn next_cut<S: Source>(
    source: &mut S,
    held: &mut Vec<u8>,
    size: usize,
) -> Result<Option<usize>, Refused>
    ensures keeps { OnOk result (Keeps (prepend_known held.old.items (S.remaining source.old)) (prepend_known held.new.items (S.remaining source.new))) }
    ensures lost { OnErr result ((rest : Option (List ℕ))
        × Keeps (prepend_known held.old.items (S.remaining source.old)) (prepend_known held.new.items rest)) }
    ensures cut { IfOk result (λ found. IfSome found (λ n. (0 < n) × IsCut held.new.items n)) }
    ensures end { IfOk result (λ found. IfNone found (IsAtEnd (S.remaining source.new))) }
    ensures counted { CountsOnly (Refused.Unreadable 1) result (S.failures source.old) (S.failures source.new) }
    ensures only { IfErr result (λ e. (e ≡ Refused.NoMemory) ⊎ (e ≡ Refused.Unreadable 1)) }
{
    let mut size = size;
    for _doubling in 0..64 {
        match fill(source, held, size) {
            Ok(true) => return Ok(None),
            Ok(false) => {}
            Err(refused) => return Err(refused),
        }
        match record_end(held.as_slice()) {
            Some(n) => return Ok(Some(n)),
            None => {}
        }
        size = size.saturating_mul(2).max(1);
    }
    // no vector holds so many bytes
    Err(Refused::NoMemory)
}

/// Hands over the first n bytes that are held. Refused, and then nothing has changed of what is held: `NoMemory`.
pub(crate) fn split(held: &mut Vec<u8>, block: &mut Vec<u8>, n: usize) -> Result<(), Refused>
    requires { n ≤ vec_len held.old }
    ensures block { OnOk result (block.new.items ≡ take n held.old.items) }
    ensures held { OnOk result (held.new.items ≡ drop n held.old.items) }
    ensures kept { OnErr result (held.new ≡ held.old) }
    ensures only { IfErr result (λ e. e ≡ Refused.NoMemory) }
{
    block.clear();
    let Ok(()) = block.extend_from_slice(&held[n..]) else {
        return Err(Refused::NoMemory);
    };
    mem::swap(held, block);
    block.truncate(n);
    Ok(())
}

/// Whether these bytes are a byte order mark.
fn is_mark(a: u8, b: u8, c: u8) -> bool
    ensures { result ≡ is_bom a b c }
{
    a == 0xEF && b == 0xBB && c == 0xBF
}

/// What stands behind a byte order mark, if there is one.
fn behind_mark(bytes: &[u8]) -> &[u8]
    ensures { result.now ≡ strip_bom bytes.now }
{
    if bytes.len() < 3 {
        return bytes;
    }
    if is_mark(bytes[0], bytes[1], bytes[2]) {
        return &bytes[3..];
    }
    bytes
}

/// The first bytes of a source, without a byte order mark: three at least, or all. Refused as [`fill`] is.
pub(crate) fn begun<S: Source>(alloc: Global, source: &mut S) -> Result<Vec<u8>, Refused>
    ensures ok { IfOk result (λ held. Keeps (option_map strip_bom (S.remaining source.old)) (prepend_known held.items (S.remaining source.new))) }
    ensures counted { CountsOnly (Refused.Unreadable 1) result (S.failures source.old) (S.failures source.new) }
    ensures only { IfErr result (λ e. (e ≡ Refused.NoMemory) ⊎ (e ≡ Refused.Unreadable 1)) }
{
    let mut front = Vec::new(alloc);
    match fill(source, &mut front, 3) {
        Ok(_over) => {}
        Err(refused) => return Err(refused),
    }
    let mut held = Vec::new(alloc);
    let Ok(()) = held.extend_from_slice(behind_mark(front.as_slice())) else {
        return Err(Refused::NoMemory);
    };
    Ok(held)
}
