//! What a program does first and last.
ghost use Rattle.std.specs.Prelude.{◌≡◌, ◌⊎◌};
ghost use Rattle.std.specs.Process.{exit_status};

use crate::ending::end;
use crate::opening::FeedFiles;
use fkv_device::PageFile;
use fkv_meters::{ProgressLine, ProgressSource};
use fkv_requests::words_of;
use fkv_streams::{CountedReader, CountedWriter};
use std::env::{self, Env};
use std::fs::Files;
use std::io::{self, Eprint, IsTerminal};
use std::process::{ExitCode, Termination};
use std::rt::{Clock, Stderr, Stdin, Stdout};
use std::sync::Wait;
use std::thread::Threads;

/// The end of a program, with its status. [`start`] alone makes one, and nobody can let one go: so a `main` that calls it ends with
/// that status.
pub struct ProgramEnd {
    status: ExitCode,
}

impl Termination for ProgramEnd {
    fn report<R: Eprint>(self, _rt: &R) -> ExitCode
        ensures { result ≡ self.status }
    {
        let ProgramEnd { status } = self;
        status
    }
}

/// Does what the process's own words ask for, with its own streams, and ends with [`end`]'s status: 0, 1
/// or 2. A handle of the process can not read or print, so what goes where is told by the types of its streams.
pub fn start<R: Env + Files + AllocGlobal + Threads + Wait + Clock + Sync>(
    rt: &R,
    input: &Stdin,
    output: &Stdout,
    faults: &Stderr,
) -> ProgramEnd
where
    R::File: PageFile + Send,
    R::Dir: Send,
    ensures { (exit_status result.status ≡ 0) ⊎ (exit_status result.status ≡ 1) ⊎ (exit_status result.status ≡ 2) }
{
    let hook: ProgressLine<'_, R, Stderr> = ProgressLine::new(rt, faults, faults.is_terminal());
    let status = end(
        rt,
        rt.alloc(),
        words_of(rt.alloc(), env::args(rt)),
        &mut ProgressSource::new(CountedReader::new(input.reader()), &hook),
        &mut CountedWriter::new(io::writer(output)),
        &mut CountedWriter::new(io::writer(faults)),
        &hook,
        &FeedFiles::new(rt, &hook).with_input(*input),
    );
    ProgramEnd { status }
}
