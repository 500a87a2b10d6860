//! Moments in order.
ghost use Rattle.std.specs.Prelude.{◌≡◌, ◌+◌, ◌-◌, ◌^◌, ◌≤◌, ◌↔◌, Ok, Err, IfOk, IfErr, OnErr};

use fkv_functions::Refused;
use std::marker::Model;

/// A clock that gives moments in order, each once. A contract sees it as the last moment that it gave.
#[derive(Clone, Copy, Debug)]
pub struct Clock {
    last: u64,
}

impl Model for Clock {
    ghost use Rattle.std.specs.Prelude.{ℕ};

    ghost Value = { ℕ };

    ghost view = { λ c. c.last };

    ghost inverse = { λ n. record { last = n } };
}

impl Clock {
    /// A clock whose last moment is this one.
    pub fn starting(moment: u64) -> Self
        ensures { result ≡ moment }
    {
        Clock { last: moment }
    }

    /// The last moment that was given.
    pub fn last(&self) -> u64
        ensures { result ≡ self.now }
    {
        self.last
    }

    /// The next moment, one more than the last. It is `Worn` where the last is 2^64 - 1, and stays so.
    pub fn tick(&mut self) -> Result<u64, Refused>
        ensures ok { IfOk result (λ moment. moment ≡ self.old + 1) }
        ensures given { IfOk result (λ moment. self.new ≡ moment) }
        ensures worn { (result ≡ Err Refused.Worn) ↔ (self.old ≡ 2 ^ 64 - 1) }
        ensures only { IfErr result (λ refused. refused ≡ Refused.Worn) }
        ensures unchanged { OnErr result (self.new ≡ self.old) }
    {
        match self.last.checked_add(1) {
            None => Err(Refused::Worn),
            Some(moment) => {
                self.last = moment;
                Ok(moment)
            }
        }
    }

    /// The next two moments, in order. It is `Worn` where not both are left, and stays as it is.
    pub fn tick_twice(&mut self) -> Result<(u64, u64), Refused>
        ensures first { IfOk result (λ moments. moments.0 ≡ self.old + 1) }
        ensures second { IfOk result (λ moments. moments.1 ≡ self.old + 2) }
        ensures given { IfOk result (λ moments. self.new ≡ moments.1) }
        ensures worn { (result ≡ Err Refused.Worn) ↔ (2 ^ 64 ≤ self.old + 2) }
        ensures only { IfErr result (λ refused. refused ≡ Refused.Worn) }
        ensures unchanged { OnErr result (self.new ≡ self.old) }
    {
        let Some(moment) = self.last.checked_add(2) else {
            return Err(Refused::Worn);
        };
        self.last = moment;
        Ok((moment - 1, moment))
    }
}
