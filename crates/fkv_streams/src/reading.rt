//! Reading the first lines of a stream.
ghost use Rattle.std.specs.Prelude.{◌≡◌, ◌⊎◌, ◌<◌, ◌≤◌, length, take, IfOk, IfErr, IfSome};
ghost use Rattle.fkv_streams.specs.Counting.{CountsOnly};
ghost use Rattle.fkv_streams.specs.Streams.{first_lines, lines_left};

use crate::sources::Source;
use fkv_functions::Refused;
use std::alloc::Global;

/// The bytes of the first lines that a reader gives, which is read to the end of these or to its own. Of the bytes
/// after them none is kept.
///
/// # Errors
///
/// `Unreadable` with number 1 where the reader fails, whatever was read before; `NoMemory`.
pub fn read_lines<R: Source>(
    alloc: Global,
    reader: &mut R,
    count: usize,
) -> Result<Vec<u8>, Refused>
    ensures ok { IfOk result (λ text. IfSome (R.remaining reader.old) (λ xs. text.items ≡ first_lines count xs)) }
    ensures counted { CountsOnly (Refused.Unreadable 1) result (R.failures reader.old) (R.failures reader.new) }
    ensures only { IfErr result (λ e. (e ≡ Refused.NoMemory) ⊎ (e ≡ Refused.Unreadable 1)) }
{
    let mut text = Vec::new(alloc);
    let mut left = count;
    let mut buffer = [0u8; 8192];
    while left > 0 {
        let read = match reader.read(&mut buffer) {
            Ok(0) => return Ok(text),
            Ok(read) => read,
            Err(refused) => return Err(refused),
        };
        let bytes = &buffer[..read];
        let (taken, more) = front(bytes, left);
        let Ok(()) = text.extend_from_slice(&bytes[..taken]) else {
            return Err(Refused::NoMemory);
        };
        left = more;
    }
    Ok(text)
}

/// How many bytes the first lines have, and how many lines are still to come after these bytes.
fn front(bytes: &[u8], count: usize) -> (usize, usize)
    ensures taken { take result.0 bytes.now ≡ first_lines count bytes.now }
    ensures within { result.0 ≤ length bytes.now }
    ensures left { result.1 ≡ lines_left count bytes.now }
    ensures some { 0 < count → 0 < length bytes.now → 0 < result.0 }
{
    let mut left = count;
    for (at, byte) in bytes.iter().enumerate() {
        if left == 0 {
            return (at, 0);
        }
        if *byte == b'\n' {
            left -= 1;
        }
    }
    (bytes.len(), left)
}
