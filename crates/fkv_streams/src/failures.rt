//! How often a stream has failed.
ghost use Rattle.std.specs.Prelude.{◌≡◌};
ghost use Rattle.fkv_streams.specs.Counting.{one_more};

use std::marker::Model;

/// A count of failures, for contracts alone: no code reads it. It is kept modulo 2^64, so that counting is
/// never refused.
#[derive(Drop)]
pub struct Failures {
    times: u64,
}

impl Model for Failures {
    ghost use Rattle.std.specs.Prelude.{ℕ};

    ghost Value = { ℕ };

    ghost view = { λ f. f.times };
}

impl Failures {
    /// No failure yet.
    pub fn new() -> Failures
        ensures { result ≡ 0 }
    {
        Failures { times: 0 }
    }

    /// Counts a failure.
    pub fn count(&mut self)
        ensures { self.new ≡ one_more self.old }
    {
        self.times = self.times.wrapping_add(1);
    }
}
