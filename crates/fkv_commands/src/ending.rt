//! How the process ends.
ghost use Rattle.std.specs.Prelude.{◌≡◌, ◌≢◌, true, map, string_bytes, Option, IfOk, IfErr};
ghost use Rattle.std.specs.IoError.{error_kind};
ghost use Rattle.std.specs.Process.{exit_status};
ghost use Rattle.fkv_commands.specs.Endings.{IsEnding};

use crate::opening::Opener;
use crate::reporting::RunReport;
use crate::running::{refuse_words, run, tell};
use fkv_device::PageFile;
use fkv_functions::Refused;
use fkv_meters::ReadProgress;
use fkv_streams::{Sink, Source};
use std::alloc::Global;
use std::fs::Files;
use std::io::{self, ErrorKind};
use std::process::ExitCode;
use std::rt::Clock;
use std::sync::Wait;
use std::thread::Threads;

/// Does what the words ask for, of which the first is the program's name, and ends with its status, as
/// [`run`] has it. Where the words could not be had the output is as it was: status 2 where one of them is
/// no text, and 1 where there was no memory for them.
pub fn end<
    R: Source,
    W: Sink,
    E: Sink,
    H: Files + Threads + Wait + Clock + Sync,
    P: ReadProgress + Sync,
    O: Opener,
>(
    rt: &H,
    alloc: Global,
    words: io::Result<Vec<String>>,
    reader: &mut R,
    writer: &mut W,
    faults: &mut E,
    hook: &P,
    opener: &O,
) -> ExitCode
where
    H::File: PageFile + Send,
    H::Dir: Send,
    O::Feed: Send,
    ensures ends { IfOk words (λ ws. (told : Option RunReport) × IsEnding H.File.pages (λ path. O.bytes opener.now path) (map string_bytes ws.items)
        (R.remaining reader.old) (W.contents writer.old) (W.contents writer.new) (E.contents faults.old)
        (E.contents faults.new) told (exit_status result)) }
    ensures no_text { IfErr words (λ e. error_kind e ≡ ErrorKind.InvalidData → exit_status result ≡ 2) }
    ensures no_memory { IfErr words (λ e. error_kind e ≢ ErrorKind.InvalidData → exit_status result ≡ 1) }
    ensures unwritten { IfErr words (λ _. W.contents writer.new ≡ W.contents writer.old) }
    // What was written is out, and no failure of a stream is hidden.
    ensures out { exit_status result ≡ 0 → W.is_out writer.new ≡ true }
    ensures steady { exit_status result ≡ 0 → (R.failures reader.new ≡ R.failures reader.old)
        × (W.failures writer.new ≡ W.failures writer.old) }
{
    match words {
        Ok(words) => ended(
            rt,
            alloc,
            words.as_slice(),
            reader,
            writer,
            faults,
            hook,
            opener,
        ),
        Err(error) => ExitCode::from(unworded(&error, faults)),
    }
}

/// Does what the words ask for, and ends with its status, as [`run`] has it.
fn ended<
    R: Source,
    W: Sink,
    E: Sink,
    H: Files + Threads + Wait + Clock + Sync,
    P: ReadProgress + Sync,
    O: Opener,
>(
    rt: &H,
    alloc: Global,
    words: &[String],
    reader: &mut R,
    writer: &mut W,
    faults: &mut E,
    hook: &P,
    opener: &O,
) -> ExitCode
where
    H::File: PageFile + Send,
    H::Dir: Send,
    O::Feed: Send,
    ensures ends { (told : Option RunReport) × IsEnding H.File.pages (λ path. O.bytes opener.now path) (map string_bytes words.now)
        (R.remaining reader.old) (W.contents writer.old) (W.contents writer.new) (E.contents faults.old)
        (E.contents faults.new) told (exit_status result) }
    ensures out { exit_status result ≡ 0 → W.is_out writer.new ≡ true }
    ensures steady { exit_status result ≡ 0 → (R.failures reader.new ≡ R.failures reader.old)
        × (W.failures writer.new ≡ W.failures writer.old) }
{
    let ended = run(rt, alloc, words, reader, writer, faults, hook, opener);
    ExitCode::from(ended.status)
}

/// Tells why the words could not be had, and answers the status.
fn unworded<E: Sink>(error: &io::Error, faults: &mut E) -> u8
    ensures no_text { error_kind error.now ≡ ErrorKind.InvalidData → result ≡ 2 }
    ensures no_memory { error_kind error.now ≢ ErrorKind.InvalidData → result ≡ 1 }
{
    if error.kind() == ErrorKind::InvalidData {
        refuse_words(faults)
    } else {
        tell(faults, Refused::NoMemory)
    }
}
