//! What the program does: a script comes in on one stream, and what it tells goes out on another; feeds come in, and a
//! table goes out.
//!
//! `running` does what the words of a command line ask for (`fkv_requests`), and `ending` makes the process's end of it;
//! neither knows where bytes come from or go to. `causes` tells beside a refusal what can be found of it afterwards, and `advising`
//! beside a report what would make a run read fewer pages. `starting` hands them the process's own words and streams, and is
//! all that a program calls.
#![tactic(auto)]

mod advising;
pub mod causes;
pub mod ending;
pub mod escaping;
mod finding;
mod making;
pub mod opening;
mod peaks;
mod probing;
pub mod reporting;
pub mod running;
mod spilling;
pub mod starting;
mod tabulating;
mod telling;

pub use ending::end;
pub use opening::{FeedFiles, Opener};
pub use reporting::RunReport;
pub use running::{RunOutcome, run};
pub use starting::{ProgramEnd, start};
