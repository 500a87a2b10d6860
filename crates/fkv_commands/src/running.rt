//! Doing what a command line asks for.
ghost use Rattle.std.specs.Prelude.{◌≡◌, ◌⊎◌, ℕ, List, true, None, OnOk, OnErr, map, codes, string_bytes};
ghost use Rattle.std.specs.Io.KnownBytes.{Appends};
ghost use Rattle.fkv_streams.specs.Streams.{AppendsPrefix};
ghost use Rattle.fkv_steps.specs.Printing.{line};
ghost use Rattle.fkv_requests.specs.Requests.{MayBeMistaken};
ghost use Rattle.fkv_commands.specs.Endings.{IsDone, IsQuiet, IsStopped, version_line};
ghost use Rattle.fkv_commands.specs.Reports.{IsTold};

use crate::causes::tell_with_cause;
use crate::opening::Opener;
use crate::reporting::RunReport;
use crate::tabulating::tabulate;
use crate::telling::SinkWriter;
use fkv_device::PageFile;
use fkv_functions::Refused;
use fkv_meters::ReadProgress;
use fkv_requests::{Request, TableRequest, request_of};
use fkv_steps::scripts::run_script;
use fkv_streams::{Sink, Source, write_out};
use std::alloc::Global;
use std::fs::Files;
use std::io::Write;
use std::rt::Clock;
use std::sync::Wait;
use std::thread::Threads;

/// The status of a run that did what was asked.
const DONE: u8 = 0;
/// The status of a run that a fault ended.
const FAULT: u8 = 1;
/// The status of a run whose command line is mistaken.
const MISTAKE: u8 = 2;

/// How a run ended.
#[derive(Clone, Copy, Debug, PartialEq, Eq)]
pub struct RunOutcome {
    /// The status: 0, 1 or 2.
    pub status: u8,
    /// What it did, where it made a table and wrote it.
    pub report: Option<RunReport>,
}

impl RunOutcome {
    /// A run with this status that wrote no table.
    fn by(status: u8) -> RunOutcome
        ensures { result ≡ record { status = status; report = None } }
    {
        RunOutcome {
            status,
            report: None,
        }
    }
}

/// Does what the words ask for, of which the first is the program's name, and answers the run's status, and what it did.
/// Feeds that are named are opened by `opener`.
///
/// `replay`, and no word, run the script that the reader gives and write what it tells. Status 0: it was
/// done, whatever its lines were refused. `count`, `sum`, `max` and `summary` write the table of the feeds that they name,
/// or of the reader, status 0; where a report is asked for it goes to `faults` afterwards, and where progress is, `hook` tells it
/// on the way. Status 1: it was refused; `fkv_cli: ` and why stand on `faults`, of a table with what [`tell_with_cause`] finds behind it,
/// and nothing was written, or the front of the output: where the writer failed, or a page of a table that is spilled was not read
/// back. `--help` writes help, and `--version` the program's name and version, status 0. Words that ask for nothing that the
/// program does: the mistake's text on `faults`, status 2.
pub fn run<
    R: Source,
    W: Sink,
    E: Sink,
    H: Files + Threads + Wait + Clock + Sync,
    P: ReadProgress + Sync,
    O: Opener,
>(
    rt: &H,
    alloc: Global,
    words: &[String],
    reader: &mut R,
    writer: &mut W,
    faults: &mut E,
    hook: &P,
    opener: &O,
) -> RunOutcome
where
    H::File: PageFile + Send,
    H::Dir: Send,
    O::Feed: Send,
    ensures done { result.status ≡ 0 → IsDone H.File.pages (λ path. O.bytes opener.now path) (map string_bytes words.now)
        (R.remaining reader.old) (W.contents writer.old) (W.contents writer.new) result.report }
    ensures quiet { result.status ≡ 0 → IsQuiet (map string_bytes words.now) result.report (E.contents faults.old)
        (E.contents faults.new) }
    // What was written is out, and no failure of a stream is hidden.
    ensures out { result.status ≡ 0 → W.is_out writer.new ≡ true }
    ensures steady { result.status ≡ 0 → (R.failures reader.new ≡ R.failures reader.old)
        × (W.failures writer.new ≡ W.failures writer.old) }
    ensures fault { result.status ≡ 1 → IsStopped H.File.pages (λ path. O.bytes opener.now path) (map string_bytes words.now)
        (R.remaining reader.old) (W.contents writer.old) (W.contents writer.new) }
    ensures mistake { result.status ≡ 2 → MayBeMistaken (map string_bytes words.now)
        × (W.contents writer.new ≡ W.contents writer.old) }
    ensures only { (result.status ≡ 0) ⊎ (result.status ≡ 1) ⊎ (result.status ≡ 2) }
{
    match request_of(alloc, words) {
        Ok(Request::Replay) => match run_script(alloc, reader, writer) {
            Ok(()) => RunOutcome::by(DONE),
            Err(refused) => RunOutcome::by(tell(faults, refused)),
        },
        Ok(Request::Table(table)) => {
            begin(&table, hook);
            match tabulate(rt, alloc, &table, reader, writer, hook, opener) {
                Ok(done) => {
                    report(alloc, &table, &done, faults);
                    RunOutcome {
                        status: DONE,
                        report: Some(done),
                    }
                }
                Err(refused) => RunOutcome::by(tell_with_cause(rt, alloc, &table, refused, faults)),
            }
        }
        Ok(Request::Help(text)) => match write_out(writer, text.as_bytes()) {
            Ok(()) => RunOutcome::by(DONE),
            Err(refused) => RunOutcome::by(tell(faults, refused)),
        },
        Ok(Request::Version) => match write_version(writer) {
            Ok(()) => RunOutcome::by(DONE),
            Err(refused) => RunOutcome::by(tell(faults, refused)),
        },
        Ok(Request::Mistake(text)) => {
            let _untold = write_out(faults, text.as_bytes());
            RunOutcome::by(MISTAKE)
        }
        Err(refused) => RunOutcome::by(tell(faults, refused)),
    }
}

/// Has the hook tell how far a run is, where that is asked for.
fn begin<P: ReadProgress>(table: &TableRequest, hook: &P) {
    if table.progress {
        hook.begin();
    }
}

/// Tells what a run did, where that is asked for.
fn report<E: Sink>(alloc: Global, table: &TableRequest, done: &RunReport, faults: &mut E)
    ensures { (E.contents faults.new ≡ E.contents faults.old) ⊎ ((table.now.stats ≡ true)
        × ((text : List ℕ) × IsTold table.now.shown table.now.sized done.now text
        × AppendsPrefix (E.contents faults.old) (E.contents faults.new) text)) }
{
    if table.stats {
        done.tell(alloc, table.shown, table.sized, faults);
    }
}

/// Writes the program's name and version. Refused: `Unwritable` where the writer fails.
fn write_version<W: Sink>(writer: &mut W) -> Result<(), Refused>
    ensures ok { OnOk result (Appends (W.contents writer.old) (W.contents writer.new) version_line) }
    ensures refused { OnErr result (AppendsPrefix (W.contents writer.old) (W.contents writer.new) version_line) }
    ensures out { OnOk result (W.is_out writer.new ≡ true) }
    ensures steady { OnOk result (W.failures writer.new ≡ W.failures writer.old) }
{
    let text = "fkv_cli 0.1.0\n";
    write_out(writer, text.as_bytes())
}

/// Tells a fault, and answers its status. Where it can not be told, the status tells it alone.
pub fn tell<E: Sink>(faults: &mut E, refused: Refused) -> u8
    ensures { result ≡ 1 }
{
    let _untold = writeln!(SinkWriter { sink: faults }, "fkv_cli: {refused}");
    FAULT
}

/// Refuses a command line with a word that is no text, in clap's own words, and answers its status.
pub fn refuse_words<E: Sink>(faults: &mut E) -> u8
    ensures status { result ≡ 2 }
    ensures told { AppendsPrefix (E.contents faults.old) (E.contents faults.new)
        (line (codes "error: invalid UTF-8 was detected in one or more arguments")) }
{
    let text = "error: invalid UTF-8 was detected in one or more arguments\n";
    let _untold = write_out(faults, text.as_bytes());
    MISTAKE
}
