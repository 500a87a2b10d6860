//! What a text says, line by line.
ghost use Rattle.std.specs.Prelude.{◌≡◌, ◌∷◌, ◌<◌, ◌+◌, ◌≤◌, ◌⊎◌, ◌++◌, ◌^◌, ℕ, List, [], OnOk, IfOk, IfErr, length};
ghost use Rattle.std.specs.List.{position};
ghost use Rattle.fkv_scripts.specs.Grammar.{Opens};
ghost use Rattle.fkv_scripts.specs.Script.{lines_of, is_line_end, SaysTo, SayAll, SaysScript, IsBadLine, IsBadAt};
ghost use Rattle.fkv_scripts.specs.declared.lines.Line.{Line};
ghost use Rattle.fkv_scripts.specs.declared.lines.Opening.{Opening};

use crate::lines::{FunctionsName, Line, Script};
use crate::parse::{parse_line, parse_opening};
use fkv_functions::Refused;
use std::alloc::Global;

/// What a text says, if it has at most `limit` lines. Refused: `BadScript` with the first line that says
/// nothing or is one too many, counted from 1, a text of no bytes in line 1; `NoMemory`.
pub fn script_of(alloc: Global, text: &[u8], limit: u32) -> Result<Script, Refused>
    ensures ok { IfOk result (λ script. SaysScript (lines_of text.now) script.opening script.lines.items
        × (length (lines_of text.now) ≤ limit)) }
    ensures bad { IfErr result (λ e. (n : ℕ) → e ≡ Refused.BadScript n → IsBadAt limit (lines_of text.now) n) }
    ensures only { IfErr result (λ e. (e ≡ Refused.NoMemory) ⊎ ((n : ℕ) × (e ≡ Refused.BadScript n))) }
{
    if text.is_empty() {
        return Err(Refused::BadScript { line: 1 });
    }
    let (first, rest) = split_line(text);
    if limit == 0 {
        return Err(Refused::BadScript { line: 1 });
    }
    let Some(opening) = parse_opening(first) else {
        return Err(Refused::BadScript { line: 1 });
    };
    let lines = lines_after(alloc, opening.functions, rest, limit)?;
    Ok(Script { opening, lines })
}

/// What the lines of a text say that stand after a first line which names these functions. `limit` and the
/// number of a bad line count that first line too.
fn lines_after(
    alloc: Global,
    functions: FunctionsName,
    text: &[u8],
    limit: u32,
) -> Result<Vec<Line>, Refused>
    requires { 0 < limit }
    ensures ok { IfOk result (λ lines. SayAll functions (lines_of text.now) lines.items
        × (length (lines_of text.now) < limit)) }
    // Whatever first line of these functions stands before.
    ensures bad { IfErr result (λ e. (n : ℕ) → e ≡ Refused.BadScript n → (first : List ℕ) (o : Opening) → Opens first o
        → o.functions ≡ functions → IsBadLine limit (first ∷ lines_of text.now) n) }
    ensures only { IfErr result (λ e. (e ≡ Refused.NoMemory) ⊎ ((n : ℕ) × (e ≡ Refused.BadScript n))) }
{
    let mut lines = Vec::new(alloc);
    let mut rest = text;
    while !rest.is_empty() {
        let (line, after) = split_line(rest);
        if lines.len() + 1 == limit as usize {
            let line = lines.len() as u64 + 2;
            return Err(Refused::BadScript { line });
        }
        add_line(&mut lines, functions, line)?;
        rest = after;
    }
    Ok(lines)
}

/// Adds what a line says, which stands after a first line and these.
fn add_line(lines: &mut Vec<Line>, functions: FunctionsName, line: &[u8]) -> Result<(), Refused>
    requires { length lines.old.items < 2 ^ 32 }
    ensures ok { OnOk result ((l : Line) × SaysTo functions line.now l
        × (lines.new.items ≡ lines.old.items ++ l ∷ [])) }
    ensures bad { IfErr result (λ e. (n : ℕ) → e ≡ Refused.BadScript n → (n ≡ length lines.old.items + 2)
        × ((l : Line) → SaysTo functions line.now l → ⊥)) }
    ensures only { IfErr result (λ e. (e ≡ Refused.NoMemory) ⊎ ((n : ℕ) × (e ≡ Refused.BadScript n))) }
{
    let Some(said) = parse_line(functions, line) else {
        let line = lines.len() as u64 + 2;
        return Err(Refused::BadScript { line });
    };
    if lines.push(said).is_err() {
        return Err(Refused::NoMemory);
    }
    Ok(())
}

/// The first line, and the bytes after it.
fn split_line(text: &[u8]) -> (&[u8], &[u8])
    requires { 0 < length text.now }
    ensures lines { lines_of text.now ≡ result.0.now ∷ lines_of result.1.now }
    ensures shorter { length result.1.now < length text.now }
{
    match line_end(text) {
        Some(at) => (&text[..at], &text[at + 1..]),
        None => (text, &[]),
    }
}

fn line_end(bytes: &[u8]) -> Option<usize>
    ensures { result ≡ position is_line_end bytes.now }
{
    bytes.iter().position(|b| *b == b'\n')
}
