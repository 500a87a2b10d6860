//! Makes the calls of each part of standard input, and prints what each answers.
//!
//! A line of four equal signs, a space and a title begins a part, and is printed before its answers. The part's next
//! line says what the calls are made on, and each line after it is a call. A call that may not be made answers
//! `Never`, and one that memory was refused to is made again.
#![tactic(auto)]

mod epochs;
mod frames;
mod hex;
mod index;
mod lines;
mod logs;
mod names;
mod records;
mod regions;
mod shapes;

use crate::frames::FrameCalls;
use crate::index::index_of;
use crate::lines::{Line, Subject, make_calls};
use crate::logs::{file_calls, memory_calls};
use crate::names::NameCalls;
use crate::records::RecordCalls;
use crate::regions::small_regions;
use crate::shapes::ShapeCalls;
use fkv_epoch::Epochs;
use std::alloc::AllocError;
use std::io::{self, Write};

/// Makes the calls on a subject, if there is one.
fn on<S: Subject>(subject: Option<S>, calls: &str, out: &mut String) -> Result<(), AllocError> {
    match subject {
        Some(mut subject) => make_calls(&mut subject, calls, out),
        None => writeln!(out, "no such subject"),
    }
}

/// Makes the calls of a part on what its first line says.
fn answer(rt: &HostRuntime, part: &str, out: &mut String) -> Result<(), AllocError> {
    let (opening, calls) = part.split_once('\n').unwrap_or((part, ""));
    let line = Line::new(opening);
    match line.word {
        "epochs" => on(Some(Epochs::new()), calls, out),
        "regions" => on(small_regions(), calls, out),
        "frames" => on(FrameCalls::new(rt.alloc(), line.numbers[0]), calls, out),
        "index" => on(index_of(rt.alloc(), line.numbers[0]), calls, out),
        "log" => on(memory_calls(rt.alloc(), line.numbers[0]), calls, out),
        "log_in_files" => on(file_calls(rt, line.numbers[0]), calls, out),
        "names" => on(Some(NameCalls::new(rt.alloc())), calls, out),
        "records" => on(Some(RecordCalls::new(rt.alloc())), calls, out),
        "shapes" => on(Some(ShapeCalls), calls, out),
        _ => writeln!(out, "no such subject"),
    }
}

fn main(rt: HostRuntime) -> io::Result<()> {
    let text = io::read_to_string(rt.alloc(), rt.reader())?;
    let mut writer = io::writer(&rt);
    for part in text.as_str().split("==== ").skip(1) {
        let (title, calls) = part.split_once('\n').unwrap_or((part, ""));
        let mut out = String::new(rt.alloc());
        writeln!(out, "==== {title}")?;
        answer(&rt, calls, &mut out)?;
        writer.write_all(out.as_bytes())?;
    }
    Ok(())
}
