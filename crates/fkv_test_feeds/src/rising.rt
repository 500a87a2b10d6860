//! Functions of the tests' own, which decline a first amount below 0 and each amount that does not rise.
ghost use Rattle.std.specs.Prelude.{◌≡◌, pos, int_le, int_lt, if◌then◌else◌, false, Some, None};
ghost use Rattle.fkv_functions.specs.Hashes.{fnv_1a};
ghost use Rattle.fkv_functions.specs.Meanings.{unmerged, unmerged_associative};
ghost use Rattle.fkv_functions.specs.Names.{text_of};

use fkv_functions::{Functions, Mergeable, Name};

/// Sets the value of a name to its input, where that rises.
#[derive(Clone, Copy, Debug, Default)]
pub struct RisingFns;

impl Functions for RisingFns {
    type Key = Name;

    type Value = i64;

    type Input = i64;

    type Output = i64;

    ghost meaning = { record {
      first = λ k i. if int_lt i (pos 0) then None else Some i;
      next = λ k v i. if int_lt v i then Some i else None;
      shown = λ k i v. v;
    } };

    ghost code = { λ name. fnv_1a (text_of name) };

    fn initial(&self, _key: &Name, input: &i64) -> Option<i64> {
        if *input < 0 { None } else { Some(*input) }
    }

    fn in_place(&self, _key: &Name, input: &i64, value: &mut i64) -> bool {
        if *value < *input {
            *value = *input;
            true
        } else {
            false
        }
    }

    fn copy(&self, _key: &Name, input: &i64, held: &i64) -> Option<i64> {
        if *held < *input { Some(*input) } else { None }
    }

    fn read(&self, _key: &Name, _input: &i64, held: &i64) -> i64 {
        *held
    }

    fn hash(&self, key: &Name) -> u64 {
        key.hash()
    }
}

impl Mergeable for RisingFns {
    const MERGES: bool = false;

    ghost MERGES = { false };

    ghost parts = { unmerged (λ k i. i) };

    ghost merges = { λ h. absurd (cc) };

    ghost associative = { λ u v w. unmerged_associative w };

    fn delta(&self, _key: &Name, input: &i64) -> i64 {
        *input
    }

    fn join(&self, _value: &i64, part: &i64) -> i64 {
        *part
    }
}
