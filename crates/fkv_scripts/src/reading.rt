//! Scripts from a reader.
ghost use Rattle.std.specs.Prelude.{◌≡◌, ◌≤◌, ◌⊎◌, ℕ, IfOk, IfErr, IfSome, length};
ghost use Rattle.fkv_streams.specs.Counting.{CountsOnly};
ghost use Rattle.fkv_scripts.specs.Script.{lines_of, SaysScript, IsBadAt};

use crate::lines::Script;
use crate::texts::script_of;
use fkv_functions::Refused;
use fkv_streams::{Source, read_lines};
use std::alloc::Global;

/// The lines that a script can have.
pub const LIMIT: u32 = 1_000_000;

/// Reads a script to its end, or to the line after `limit` lines, and answers what it says. Of the bytes
/// after that line none is kept.
///
/// Refused: `Unreadable` with number 1 where the reader fails, whatever was read before; `BadScript` with
/// the first line that says nothing or is one too many, counted from 1, a script of no bytes in line 1;
/// `NoMemory`.
pub fn read_script<R: Source>(alloc: Global, reader: &mut R, limit: u32) -> Result<Script, Refused>
    ensures ok { IfOk result (λ script. IfSome (R.remaining reader.old)
        (λ text. SaysScript (lines_of text) script.opening script.lines.items × (length (lines_of text) ≤ limit))) }
    ensures bad { IfErr result (λ e. (n : ℕ) → e ≡ Refused.BadScript n
        → IfSome (R.remaining reader.old) (λ text. IsBadAt limit (lines_of text) n)) }
    ensures only { IfErr result (λ e. (e ≡ Refused.NoMemory) ⊎ (e ≡ Refused.Unreadable 1)
        ⊎ ((n : ℕ) × (e ≡ Refused.BadScript n))) }
    // `Unreadable` is told where the reader counted a failure, and nowhere else.
    ensures counted { CountsOnly (Refused.Unreadable 1) result (R.failures reader.old) (R.failures reader.new) }
{
    match read_lines(alloc, reader, limit as usize + 1) {
        Ok(text) => script_of(alloc, text.as_slice(), limit),
        Err(refused) => Err(refused),
    }
}
