//! How often a device has failed.
ghost use Rattle.std.specs.Prelude.{◌≡◌, ℕ, vec_len};
ghost use Rattle.fkv_device.specs.Failing.{Tells};

use fkv_functions::Refused;
use std::alloc::Global;
use std::marker::Model;

/// A count of failures, for contracts alone: a list of items without bytes. Its growth may be refused as
/// that of any list. A contract sees it as the number, for which no greatest value is named.
#[derive(Drop)]
pub struct Failures {
    times: Vec<()>,
}

impl Model for Failures {
    ghost Value = { ℕ };

    ghost view = { λ f. vec_len f.times };
}

impl Failures {
    /// No failure yet.
    pub fn new(alloc: Global) -> Failures
        ensures { result ≡ 0 }
    {
        Failures {
            times: Vec::new(alloc),
        }
    }

    /// Counts a failure, and gives the refusal that tells of it: this one, or `NoMemory` where the
    /// count's growth is refused, and then the count stays.
    pub fn count(&mut self, refusal: Refused) -> Refused
        ensures { Tells refusal self.old self.new result }
    {
        match self.times.push(()) {
            Ok(()) => refusal,
            Err(_) => Refused::NoMemory,
        }
    }
}
