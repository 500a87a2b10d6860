//! The program of the store, run with a word that asks for nothing that it does: status 2, and nothing on standard
//! output. It is the same call as that of `fkv_cli`.
#![tactic(auto)]

use fkv_commands::{ProgramEnd, start};

fn main(rt: HostRuntime) -> ProgramEnd {
    start(&rt, &rt.stdin(), &rt.stdout(), &rt.stderr())
}
