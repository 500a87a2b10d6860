//! Counters: what the inputs of each key add up to.
ghost use Rattle.std.specs.Prelude.{true};
ghost use Rattle.fkv_functions.specs.Sets.{count_associative};
ghost use Rattle.fkv_functions.specs.Hashes.{fmix_64};
ghost use Rattle.fkv_ycsb.specs.Counters.{counters, counter_parts, counters_merge};

use fkv_functions::{Functions, Mergeable, fmix_64_hash};

/// Adds up the inputs of each number, modulo 2^64.
#[derive(Clone, Copy, Debug, Default)]
pub struct CounterFns;

impl Functions for CounterFns {
    type Key = u64;

    type Value = u64;

    type Input = u64;

    type Output = u64;

    ghost meaning = { counters };

    ghost code = { fmix_64 };

    fn initial(&self, _key: &u64, input: &u64) -> Option<u64> {
        Some(*input)
    }

    fn in_place(&self, _key: &u64, input: &u64, value: &mut u64) -> bool {
        *value = value.wrapping_add(*input);
        true
    }

    fn copy(&self, _key: &u64, input: &u64, held: &u64) -> Option<u64> {
        Some(held.wrapping_add(*input))
    }

    fn read(&self, _key: &u64, _input: &u64, held: &u64) -> u64 {
        *held
    }

    fn hash(&self, key: &u64) -> u64 {
        fmix_64_hash(*key)
    }
}

impl Mergeable for CounterFns {
    const MERGES: bool = true;

    ghost MERGES = { true };

    ghost parts = { counter_parts };

    ghost merges = { λ _. counters_merge };

    ghost associative = { λ u v w. count_associative u v w };

    fn delta(&self, _key: &u64, input: &u64) -> u64 {
        *input
    }

    fn join(&self, value: &u64, part: &u64) -> u64 {
        value.wrapping_add(*part)
    }
}
