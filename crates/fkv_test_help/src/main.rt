//! The texts of help and of the version, as the program tells them. A line of the input is the words of a command line; what they
//! print goes out behind a line that shows them. The launcher tells these texts where the program is not built.
#![tactic(auto)]

use fkv_commands::{FeedFiles, run};
use fkv_device::PageFile;
use fkv_meters::Silent;
use fkv_streams::{CountedReader, CountedWriter, write_out};
use std::alloc::{AllocError, Global};
use std::fs::Files;
use std::io;
use std::process::ExitCode;
use std::rt::Clock;
use std::sync::Wait;
use std::thread::Threads;

/// The words of a command line, the program's name first.
fn words_of(alloc: Global, line: &str) -> Result<Vec<String>, AllocError> {
    let mut words = Vec::new(alloc);
    words.push(String::from_str(alloc, "fkv_cli")?)?;
    for word in line.split(' ') {
        words.push(String::from_str(alloc, word)?)?;
    }
    Ok(words)
}

/// Writes a line that shows these words, and what they print. Answers whether all was written.
fn show<R: Files + Threads + Wait + Clock + Print + Sync>(rt: &R, alloc: Global, line: &str) -> bool
where
    R::File: PageFile + Send,
    R::Dir: Send,
{
    let Ok(words) = words_of(alloc, line) else {
        return false;
    };
    let Ok(title) = format!(in alloc; "== {line}\n") else {
        return false;
    };
    let mut writer = CountedWriter::new(io::writer(rt));
    if write_out(&mut writer, title.as_bytes()).is_err() {
        return false;
    }
    let mut reader = CountedReader::new(b"".as_slice());
    let mut faults = CountedWriter::new(Vec::new(alloc));
    run(
        rt,
        alloc,
        words.as_slice(),
        &mut reader,
        &mut writer,
        &mut faults,
        &Silent,
        &FeedFiles::new(rt, &Silent),
    )
    .status
        == 0
}

fn main(rt: HostRuntime) -> ExitCode {
    for line in rt.lines(rt.alloc()) {
        let Ok(line) = line else {
            return ExitCode::FAILURE;
        };
        if !show(&rt, rt.alloc(), line.as_str()) {
            return ExitCode::FAILURE;
        }
    }
    ExitCode::SUCCESS
}
