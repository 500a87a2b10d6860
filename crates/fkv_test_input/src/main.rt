//! The program of the store, run with standard input and a file as its feeds, and with a report, which is not for standard output.
//! It is the same call as that of `fkv_cli`.
#![tactic(auto)]

use fkv_commands::{ProgramEnd, start};

fn main(rt: HostRuntime) -> ProgramEnd {
    start(&rt, &rt.stdin(), &rt.stdout(), &rt.stderr())
}
