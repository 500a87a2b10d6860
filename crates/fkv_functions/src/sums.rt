//! Sums: what the inputs of each key add up to.
ghost use Rattle.std.specs.Prelude.{true};
ghost use Rattle.fkv_functions.specs.Sets.{sums, sum_accepted, sum_either_order, sum_parts, sum_merges, sum_associative};
ghost use Rattle.fkv_functions.specs.Hashes.{fnv_1a};
ghost use Rattle.fkv_functions.specs.Names.{text_of};

use crate::names::Name;
use crate::updates::{Functions, Mergeable, OrderFree};

/// Adds up the inputs of each name, modulo 2^128.
#[derive(Clone, Copy, Debug, Default)]
pub struct SumFns;

impl Functions for SumFns {
    type Key = Name;

    type Value = i128;

    type Input = i64;

    type Output = i128;

    ghost meaning = { sums };

    ghost code = { λ name. fnv_1a (text_of name) };

    fn initial(&self, _key: &Name, input: &i64) -> Option<i128> {
        Some(i128::from(*input))
    }

    fn in_place(&self, _key: &Name, input: &i64, value: &mut i128) -> bool {
        *value = value.wrapping_add(i128::from(*input));
        true
    }

    fn copy(&self, _key: &Name, input: &i64, held: &i128) -> Option<i128> {
        Some(held.wrapping_add(i128::from(*input)))
    }

    fn read(&self, _key: &Name, _input: &i64, held: &i128) -> i128 {
        *held
    }

    fn hash(&self, key: &Name) -> u64 {
        key.hash()
    }
}

impl Mergeable for SumFns {
    const MERGES: bool = true;

    ghost MERGES = { true };

    ghost parts = { sum_parts };

    ghost merges = { λ _. sum_merges };

    ghost associative = { λ u v w. sum_associative u v w };

    fn delta(&self, _key: &Name, input: &i64) -> i128 {
        i128::from(*input)
    }

    fn join(&self, value: &i128, part: &i128) -> i128 {
        value.wrapping_add(*part)
    }
}

impl OrderFree for SumFns {
    ghost accepted = { λ k i held h j l. sum_accepted k i held j };

    ghost either_order = { λ k i j held a b c d. sum_either_order k i j held };
}
