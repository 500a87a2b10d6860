//! The program of the store: feeds come in from files or on standard input and a table goes out on standard output, or a
//! script comes in and what it tells goes out.
#![tactic(auto)]

use fkv_commands::{ProgramEnd, start};

fn main(rt: HostRuntime) -> ProgramEnd {
    start(&rt, &rt.stdin(), &rt.stdout(), &rt.stderr())
}
