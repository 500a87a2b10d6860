//! The most memory that the process has had, by the system's own account.
ghost use Rattle.std.specs.Prelude.{◌≡◌, true, IsSome};

use std::alloc::Global;
use std::fs::{self, Files};
use std::io;

/// Where Linux gives an account of the process that asks for it.
const ACCOUNT: &str = "/proc/self/status";

/// The KiB of memory at most that such an account names, as in `VmHWM:    2008 kB`.
fn peak_in(account: &str) -> Option<u64> {
    for line in account.lines() {
        if let Some(told) = line.strip_prefix("VmHWM:") {
            let number = told.trim().strip_suffix(" kB")?;
            return number.parse::<u64>().ok();
        }
    }
    None
}

/// The KiB of memory that the process has had at most, where that is asked for and the system tells it.
pub(crate) fn peak_of<H: Files>(files: &H, alloc: Global, is_asked: bool) -> Option<u64>
    ensures { IsSome result → is_asked ≡ true }
{
    if !is_asked {
        return None;
    }
    let file = fs::open(files, ACCOUNT).ok()?;
    let account = io::read_to_string(alloc, file).ok()?;
    peak_in(account.as_str())
}
