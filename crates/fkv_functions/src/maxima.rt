//! Maxima: the greatest input of each key.
ghost use Rattle.std.specs.Prelude.{true};
ghost use Rattle.fkv_functions.specs.Sets.{maxima, max_accepted, max_either_order, max_parts, max_merges, max_associative};
ghost use Rattle.fkv_functions.specs.Hashes.{fnv_1a};
ghost use Rattle.fkv_functions.specs.Names.{text_of};

use crate::names::Name;
use crate::updates::{Functions, Mergeable, OrderFree};

/// Keeps the greatest input of each name.
#[derive(Clone, Copy, Debug, Default)]
pub struct MaxFns;

impl Functions for MaxFns {
    type Key = Name;

    type Value = i64;

    type Input = i64;

    type Output = i64;

    ghost meaning = { maxima };

    ghost code = { λ name. fnv_1a (text_of name) };

    fn initial(&self, _key: &Name, input: &i64) -> Option<i64> {
        Some(*input)
    }

    fn in_place(&self, _key: &Name, input: &i64, value: &mut i64) -> bool {
        *value = (*value).max(*input);
        true
    }

    fn copy(&self, _key: &Name, input: &i64, held: &i64) -> Option<i64> {
        Some((*held).max(*input))
    }

    fn read(&self, _key: &Name, _input: &i64, held: &i64) -> i64 {
        *held
    }

    fn hash(&self, key: &Name) -> u64 {
        key.hash()
    }
}

impl Mergeable for MaxFns {
    const MERGES: bool = true;

    ghost MERGES = { true };

    ghost parts = { max_parts };

    ghost merges = { λ _. max_merges };

    ghost associative = { λ u v w. max_associative u v w };

    fn delta(&self, _key: &Name, input: &i64) -> i64 {
        *input
    }

    fn join(&self, value: &i64, part: &i64) -> i64 {
        (*value).max(*part)
    }
}

impl OrderFree for MaxFns {
    ghost accepted = { λ k i held h j l. max_accepted k i held j l };

    ghost either_order = { λ k i j held a b c d. max_either_order k i j held };
}
