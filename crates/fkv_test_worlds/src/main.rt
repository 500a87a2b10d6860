//! Runs each part of standard input in a world, and prints what it tells (`fkv_test_world_lines`).
//!
//! A line of four equal signs, a space and a title begins each part, and is printed before what the part tells; where the
//! part is refused, the refusal follows in the place of that.
#![tactic(auto)]

use fkv_test_world_lines::text_of;
use std::io::{self, Write};

fn main(rt: HostRuntime) -> io::Result<()> {
    let text = io::read_to_string(rt.alloc(), rt.reader())?;
    let mut writer = io::writer(&rt);
    for part in text.as_str().split("==== ").skip(1) {
        let Some((title, part)) = part.split_once('\n') else {
            continue;
        };
        writeln!(writer, "==== {title}")?;
        match text_of(rt.alloc(), part) {
            Ok(text) => writer.write_all(text.as_slice())?,
            Err(refused) => writeln!(writer, "refused {refused:?}")?,
        }
    }
    Ok(())
}
