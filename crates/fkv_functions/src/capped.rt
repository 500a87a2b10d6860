//! Capped sums: what the inputs of each key add up to, within a cap.
ghost use Rattle.std.specs.Prelude.{◌≡◌, false};
ghost use Rattle.fkv_functions.specs.Sets.{capped_sums, within_cap};
ghost use Rattle.fkv_functions.specs.Meanings.{unmerged, unmerged_associative};
ghost use Rattle.fkv_functions.specs.Hashes.{fnv_1a};
ghost use Rattle.fkv_functions.specs.Names.{text_of};

use crate::names::Name;
use crate::updates::{Functions, Mergeable};

/// The greatest total that an update may come to.
const CAP: i128 = 1_000_000;

/// Adds up the inputs of each name as [`crate::SumFns`] does, and declines an update whose result would be below 0 or
/// above 1,000,000. A value that was written by an upsert may lie outside that.
#[derive(Clone, Copy, Debug, Default)]
pub struct CappedSumFns;

/// The total, where it stays within the cap.
fn within_cap(total: i128) -> Option<i128>
    ensures { result ≡ within_cap total }
{
    if 0 <= total && total <= CAP {
        Some(total)
    } else {
        None
    }
}

impl Functions for CappedSumFns {
    type Key = Name;

    type Value = i128;

    type Input = i64;

    type Output = i128;

    ghost meaning = { capped_sums };

    ghost code = { λ name. fnv_1a (text_of name) };

    fn initial(&self, _key: &Name, input: &i64) -> Option<i128> {
        within_cap(i128::from(*input))
    }

    fn in_place(&self, _key: &Name, input: &i64, value: &mut i128) -> bool {
        match within_cap(value.wrapping_add(i128::from(*input))) {
            None => false,
            Some(total) => {
                *value = total;
                true
            }
        }
    }

    fn copy(&self, _key: &Name, input: &i64, held: &i128) -> Option<i128> {
        within_cap(held.wrapping_add(i128::from(*input)))
    }

    fn read(&self, _key: &Name, _input: &i64, held: &i128) -> i128 {
        *held
    }

    fn hash(&self, key: &Name) -> u64 {
        key.hash()
    }
}

impl Mergeable for CappedSumFns {
    const MERGES: bool = false;

    ghost MERGES = { false };

    ghost parts = { unmerged (λ k i. i) };

    ghost merges = { λ h. absurd (cc) };

    ghost associative = { λ u v w. unmerged_associative w };

    fn delta(&self, _key: &Name, input: &i64) -> i128 {
        i128::from(*input)
    }

    fn join(&self, _value: &i128, part: &i128) -> i128 {
        *part
    }
}
