//! Runs each script of standard input, and prints what it tells.
//!
//! A line of four equal signs, a space and a title begins each script, and is printed before what the script tells;
//! where the script is refused, the text of the refusal follows in the place of that. A script whose last line
//! has no line feed is followed by the equal signs at once. A script whose title begins with `read` and a number is
//! read up to so many lines and not run: what its lines say is printed, a line each.
#![tactic(auto)]

mod said;

use crate::said::write_script;
use fkv_functions::Refused;
use fkv_steps::scripts::{Script, read_script, run_script};
use fkv_streams::{CountedReader, CountedWriter};
use std::alloc::Global;
use std::io::{self, Write};

/// What a script says whose title asks that it is read and not run.
fn read_alone(alloc: Global, title: &str, script: &str) -> Option<Result<Script, Refused>> {
    let rest = title.strip_prefix("read ")?;
    let (limit, _) = rest.split_once(' ')?;
    let limit = limit.parse::<u32>().ok()?;
    let mut reader = CountedReader::new(script.as_bytes());
    Some(read_script(alloc, &mut reader, limit))
}

fn main(rt: HostRuntime) -> io::Result<()> {
    let text = io::read_to_string(rt.alloc(), rt.reader())?;
    let mut writer = io::writer(&rt);
    for part in text.as_str().split("==== ").skip(1) {
        let Some((title, script)) = part.split_once('\n') else {
            continue;
        };
        writeln!(writer, "==== {title}")?;
        let told = match read_alone(rt.alloc(), title, script) {
            Some(Ok(script)) => {
                write_script(&script, &mut writer)?;
                Ok(())
            }
            Some(Err(refused)) => Err(refused),
            None => run_script(
                rt.alloc(),
                &mut CountedReader::new(script.as_bytes()),
                &mut CountedWriter::new(&mut writer),
            ),
        };
        if let Err(refused) = told {
            writeln!(writer, "{refused}")?;
        }
    }
    Ok(())
}
