//! Values that an amount of a script writes.
ghost use Rattle.std.specs.Prelude.{◌≡◌, ℤ};
ghost use Rattle.fkv_steps.specs.Running.{count_of};

/// A value that an amount writes.
pub trait FromAmount: Sized {
    /// The value that an amount writes.
    ghost written: { ℤ → Self };

    /// The value that an amount writes.
    fn from_amount(amount: i64) -> Self
        ensures { result ≡ written amount };
}

/// A count: the amount, or 0 where it is below 0, which no script writes into a store of counts.
impl FromAmount for u64 {
    ghost written = { count_of };

    fn from_amount(amount: i64) -> u64 {
        if amount < 0 { 0 } else { amount as u64 }
    }
}

/// The amount itself.
impl FromAmount for i64 {
    ghost written = { λ n. n };

    fn from_amount(amount: i64) -> i64 {
        amount
    }
}

/// The amount itself.
impl FromAmount for i128 {
    ghost written = { λ n. n };

    fn from_amount(amount: i64) -> i128 {
        amount as i128
    }
}
