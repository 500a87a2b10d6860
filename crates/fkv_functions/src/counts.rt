//! Counts: how often each key had an input.
ghost use Rattle.std.specs.Prelude.{true};
ghost use Rattle.fkv_functions.specs.Sets.{counts, count_accepted, count_either_order, count_parts, count_merges, count_associative};
ghost use Rattle.fkv_functions.specs.Hashes.{fnv_1a};
ghost use Rattle.fkv_functions.specs.Names.{text_of};

use crate::names::Name;
use crate::updates::{Functions, Mergeable, OrderFree};

/// What a key is counted as at its first input.
const FIRST: u64 = 1;

/// Counts the inputs of each name: from 1, by 1, modulo 2^64. The amount of an input plays no part.
#[derive(Clone, Copy, Debug, Default)]
pub struct CountFns;

impl Functions for CountFns {
    type Key = Name;

    type Value = u64;

    type Input = i64;

    type Output = u64;

    ghost meaning = { counts };

    ghost code = { λ name. fnv_1a (text_of name) };

    fn initial(&self, _key: &Name, _input: &i64) -> Option<u64> {
        Some(FIRST)
    }

    fn in_place(&self, _key: &Name, _input: &i64, value: &mut u64) -> bool {
        *value = value.wrapping_add(1);
        true
    }

    fn copy(&self, _key: &Name, _input: &i64, held: &u64) -> Option<u64> {
        Some(held.wrapping_add(1))
    }

    fn read(&self, _key: &Name, _input: &i64, held: &u64) -> u64 {
        *held
    }

    fn hash(&self, key: &Name) -> u64 {
        key.hash()
    }
}

impl Mergeable for CountFns {
    const MERGES: bool = true;

    ghost MERGES = { true };

    ghost parts = { count_parts };

    ghost merges = { λ _. count_merges };

    ghost associative = { λ u v w. count_associative u v w };

    fn delta(&self, _key: &Name, _input: &i64) -> u64 {
        FIRST
    }

    fn join(&self, value: &u64, part: &u64) -> u64 {
        value.wrapping_add(*part)
    }
}

impl OrderFree for CountFns {
    ghost accepted = { λ k i held h j l. count_accepted k i held };

    ghost either_order = { λ k i j held a b c d. count_either_order k i j held };
}
