//! What counts of failures tell: a law with no code.
ghost use Rattle.fkv_streams.specs.Counting.{CountsApart};

/// A count differs from the one after it, though it is kept modulo 2^64. So a call that counts one failure is told
/// from a call that counts none.
pub fn counts()
    ensures { CountsApart }
{}
