//! Summaries: how many inputs a key had, their sum, and the least and the greatest of them.
ghost use Rattle.std.specs.Prelude.{◌≡◌, ◌<◌, ◌∷◌, ℤ, List, length, fold, true, All, FitsSigned, IfSome, Some, None};
ghost use Rattle.std.specs.Int.{w64};
ghost use Rattle.std.specs.Option.{IsSomeAnd};
ghost use Rattle.fkv_functions.specs.Meanings.{updated};
ghost use Rattle.fkv_functions.specs.declared.names.Name.{Name};
ghost use Rattle.fkv_functions.specs.Hashes.{fnv_1a};
ghost use Rattle.fkv_functions.specs.Names.{text_of};
ghost use Rattle.fkv_feeds.specs.Tables.{folded};
ghost use Rattle.fkv_summaries.specs.Summaries.{AreNumbersOf, IsSummary, IsSummaryOf, summary_of, summaries, summary_parts, with_later};
ghost use Rattle.fkv_summaries.specs.declared.summaries.Summary.{Summary};
ghost use Rattle.fkv_summaries.specs.Laws.{accepted, either_order, summaries_associative, summaries_merge, summary_codec};

use fkv_functions::{Fixed, Functions, Known, Mergeable, Name, OrderFree};

/// What a key's inputs come to.
#[derive(Clone, Copy, Debug)]
pub struct Summary {
    /// How many there are, modulo 2^64.
    pub count: u64,
    /// What they add up to, in 128 bits.
    pub sum: i128,
    pub least: i64,
    pub greatest: i64,
}

impl Summary {
    /// The summary of one input.
    fn of(input: i64) -> Summary
        ensures { result ≡ summary_of input }
    {
        Summary {
            count: 1,
            sum: i128::from(input),
            least: input,
            greatest: input,
        }
    }

    /// The summary of these inputs and of those of a later one.
    fn with_later(&self, later: &Summary) -> Summary
        ensures { result ≡ with_later self.now later.now }
    {
        self.known();
        later.known();
        Summary {
            count: self.count.wrapping_add(later.count),
            sum: self.sum.wrapping_add(later.sum),
            least: self.least.min(later.least),
            greatest: self.greatest.max(later.greatest),
        }
    }
}

impl Known for Summary {
    ghost is_known = { IsSummary };

    fn known(&self) {
        self.count.known();
        self.sum.known();
        self.least.known();
        self.greatest.known();
    }

    fn is(&self, other: &Summary) -> bool {
        self.count == other.count
            && self.sum == other.sum
            && self.least == other.least
            && self.greatest == other.greatest
    }
}

impl Fixed for Summary {
    const SIZE: usize = 40;

    ghost SIZE = { 40 };

    ghost codec = { summary_codec };

    fn put(&self, out: &mut [u8]) {
        let (count, rest) = out.split_at_mut(8);
        let (sum, rest) = rest.split_at_mut(16);
        let (least, greatest) = rest.split_at_mut(8);
        self.count.put(count);
        self.sum.put(sum);
        self.least.put(least);
        self.greatest.put(greatest);
    }

    fn take(bytes: &[u8]) -> Option<Summary> {
        let (count, rest) = bytes.split_at(8);
        let (sum, rest) = rest.split_at(16);
        let (least, greatest) = rest.split_at(8);
        joined(
            u64::take(count),
            i128::take(sum),
            i64::take(least),
            i64::take(greatest),
        )
    }

    fn bytes_equal(&self, bytes: &[u8]) -> bool {
        let (count, rest) = bytes.split_at(8);
        let (sum, rest) = rest.split_at(16);
        let (least, greatest) = rest.split_at(8);
        self.count.bytes_equal(count)
            && self.sum.bytes_equal(sum)
            && self.least.bytes_equal(least)
            && self.greatest.bytes_equal(greatest)
    }

    ghost written = { λ v h. h };
}

/// The summary of these numbers, where each is there.
fn joined(
    count: Option<u64>,
    sum: Option<i128>,
    least: Option<i64>,
    greatest: Option<i64>,
) -> Option<Summary>
    ensures found { IfSome result (λ s. AreNumbersOf s count sum least greatest) }
    ensures only { (s : Summary) → IsSummary s → AreNumbersOf s count sum least greatest → result ≡ Some s }
{
    match (count, sum, least, greatest) {
        (Some(count), Some(sum), Some(least), Some(greatest)) => Some(Summary {
            count,
            sum,
            least,
            greatest,
        }),
        _ => None,
    }
}

/// Keeps the summary of the inputs of each name. No update is declined.
#[derive(Clone, Copy, Debug, Default)]
pub struct SummaryFns;

impl Functions for SummaryFns {
    type Key = Name;

    type Value = Summary;

    type Input = i64;

    type Output = Summary;

    ghost meaning = { summaries };

    ghost code = { λ name. fnv_1a (text_of name) };

    fn initial(&self, _key: &Name, input: &i64) -> Option<Summary> {
        Some(Summary::of(*input))
    }

    fn in_place(&self, _key: &Name, input: &i64, value: &mut Summary) -> bool {
        value.count = value.count.wrapping_add(1);
        value.sum = value.sum.wrapping_add(i128::from(*input));
        value.least = value.least.min(*input);
        value.greatest = value.greatest.max(*input);
        true
    }

    fn copy(&self, key: &Name, input: &i64, held: &Summary) -> Option<Summary> {
        let mut value = *held;
        self.in_place(key, input, &mut value);
        Some(value)
    }

    fn read(&self, _key: &Name, _input: &i64, held: &Summary) -> Summary {
        *held
    }

    fn hash(&self, key: &Name) -> u64 {
        key.hash()
    }
}

impl Mergeable for SummaryFns {
    const MERGES: bool = true;

    ghost MERGES = { true };

    ghost parts = { summary_parts };

    ghost merges = { λ _. summaries_merge };

    ghost associative = { λ s t u. summaries_associative s t u };

    fn delta(&self, _key: &Name, input: &i64) -> Summary {
        Summary::of(*input)
    }

    fn join(&self, value: &Summary, part: &Summary) -> Summary {
        value.with_later(part)
    }
}

impl OrderFree for SummaryFns {
    ghost accepted = { λ k i held h j l. accepted k i held j l };

    ghost either_order = { λ k i j held a b c d. either_order k i j held };
}

/// What the updates of a key come to, from no value: the summary of their inputs, by its definition and not by its steps. So a
/// table has of each key the summary of its amounts (`folded`). It does nothing when it runs.
pub fn updates_come_to_summaries()
    ensures updates { (key : Name) (first : ℤ) (others : List ℤ) → All (FitsSigned w64) (first ∷ others)
        → IsSomeAnd (fold (λ held i. updated summaries key i held) None (first ∷ others))
        (λ s. IsSummaryOf s first others) }
    ensures tables { (key : Name) (first : ℤ) (others : List ℤ) → All (FitsSigned w64) (first ∷ others)
        → IsSomeAnd (folded summaries key (first ∷ others)) (λ s. IsSummaryOf s first others) }
{}
