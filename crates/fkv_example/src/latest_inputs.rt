//! The latest inputs: how many a key had, and the last of them.
ghost use Rattle.std.specs.Prelude.{◌≡◌, ◌<◌, ◌∷◌, ℤ, List, length, fold, true, FitsSigned, IfSome, Some, None};
ghost use Rattle.std.specs.Int.{w64};
ghost use Rattle.std.specs.Option.{IsSomeAnd};
ghost use Rattle.fkv_functions.specs.Meanings.{updated};
ghost use Rattle.fkv_functions.specs.declared.names.Name.{Name};
ghost use Rattle.fkv_functions.specs.Hashes.{fnv_1a};
ghost use Rattle.fkv_functions.specs.Names.{text_of};
ghost use Rattle.fkv_example.specs.LatestInputs.{AreNumbersOf, IsLatest, IsLatestOf, latest_of, latest_inputs, latest_parts, with_later};
ghost use Rattle.fkv_example.specs.declared.latest_inputs.Latest.{Latest};
ghost use Rattle.fkv_example.specs.Laws.{latest_associative, latest_codec, latest_merge};

use fkv_functions::{Fixed, Functions, Known, Mergeable, Name};
use std::fmt::{self, Display};

/// What a key's inputs come to.
#[derive(Clone, Copy, Debug)]
pub struct Latest {
    /// How many there are, modulo 2^64.
    pub count: u64,
    /// The last of them.
    pub last: i64,
}

impl Latest {
    /// What one input comes to.
    fn of(input: i64) -> Latest
        ensures { result ≡ latest_of input }
    {
        Latest {
            count: 1,
            last: input,
        }
    }

    /// What these inputs come to, and those of a later one after them.
    fn with_later(&self, later: &Latest) -> Latest
        ensures { result ≡ with_later self.now later.now }
    {
        self.known();
        later.known();
        Latest {
            count: self.count.wrapping_add(later.count),
            last: later.last,
        }
    }
}

impl Display for Latest {
    fn fmt<W: fmt::Write>(&self, f: &mut fmt::Formatter<W>) -> fmt::Result {
        let Latest { count, last } = self;
        write!(f, "{last} is the last of {count}")
    }
}

impl Known for Latest {
    ghost is_known = { IsLatest };

    fn known(&self) {
        self.count.known();
        self.last.known();
    }

    fn is(&self, other: &Latest) -> bool {
        self.count == other.count && self.last == other.last
    }
}

impl Fixed for Latest {
    const SIZE: usize = 16;

    ghost SIZE = { 16 };

    ghost codec = { latest_codec };

    fn put(&self, out: &mut [u8]) {
        let (count, last) = out.split_at_mut(8);
        self.count.put(count);
        self.last.put(last);
    }

    fn take(bytes: &[u8]) -> Option<Latest> {
        let (count, last) = bytes.split_at(8);
        joined(u64::take(count), i64::take(last))
    }

    fn bytes_equal(&self, bytes: &[u8]) -> bool {
        let (count, last) = bytes.split_at(8);
        self.count.bytes_equal(count) && self.last.bytes_equal(last)
    }

    ghost written = { λ v h. h };
}

/// What has these numbers, where each is there.
fn joined(count: Option<u64>, last: Option<i64>) -> Option<Latest>
    ensures found { IfSome result (λ s. AreNumbersOf s count last) }
    ensures only { (s : Latest) → IsLatest s → AreNumbersOf s count last → result ≡ Some s }
{
    match (count, last) {
        (Some(count), Some(last)) => Some(Latest { count, last }),
        _ => None,
    }
}

/// Keeps how many inputs each name had, and the last of them. No update is declined. They are not order-free: of two inputs the later
/// one stays.
#[derive(Clone, Copy, Debug, Default)]
pub struct LatestFns;

impl Functions for LatestFns {
    type Key = Name;

    type Value = Latest;

    type Input = i64;

    type Output = Latest;

    ghost meaning = { latest_inputs };

    ghost code = { λ name. fnv_1a (text_of name) };

    fn initial(&self, _key: &Name, input: &i64) -> Option<Latest> {
        Some(Latest::of(*input))
    }

    fn in_place(&self, _key: &Name, input: &i64, value: &mut Latest) -> bool {
        value.count = value.count.wrapping_add(1);
        value.last = *input;
        true
    }

    fn copy(&self, key: &Name, input: &i64, held: &Latest) -> Option<Latest> {
        let mut value = *held;
        self.in_place(key, input, &mut value);
        Some(value)
    }

    fn read(&self, _key: &Name, _input: &i64, held: &Latest) -> Latest {
        *held
    }

    fn hash(&self, key: &Name) -> u64 {
        key.hash()
    }
}

impl Mergeable for LatestFns {
    const MERGES: bool = true;

    ghost MERGES = { true };

    ghost parts = { latest_parts };

    ghost merges = { λ _. latest_merge };

    ghost associative = { λ s t u. latest_associative s t u };

    fn delta(&self, _key: &Name, input: &i64) -> Latest {
        Latest::of(*input)
    }

    fn join(&self, value: &Latest, part: &Latest) -> Latest {
        value.with_later(part)
    }
}

/// What the updates of a key come to, from no value: how many inputs there are and the last of them, by a definition and not by its
/// steps. It does nothing when it runs.
pub fn updates_come_to_the_latest()
    ensures { (key : Name) (first : ℤ) (others : List ℤ)
        → IsSomeAnd (fold (λ held i. updated latest_inputs key i held) None (first ∷ others))
        (λ s. IsLatestOf s first others) }
{}
