//! The functions of a store, by what they mean.
ghost use Rattle.std.specs.Prelude.{◌≡◌, ℕ, Bool, Option, Some, None, IfSome, IsTrue};
ghost use Rattle.std.specs.Bool.{OnTrue, OnFalse};
ghost use Rattle.std.specs.Option.{IsSomeAnd};
ghost use Rattle.fkv_functions.specs.Meanings.{Meanings, Parts, Merges, updated};

use crate::values::{Fixed, FixedKey, Known};

/// The functions of a store. Two values of one type of functions mean the same.
pub trait Functions: Drop {
    type Key: FixedKey;

    type Value: Fixed;

    type Input: Known;

    type Output: Known;

    /// What the functions mean: the value that a key starts with, the value after an input, and what a
    /// read shows. An update that has no value is declined.
    ghost meaning: { Meanings Self.Key Self.Value Self.Input Self.Output };

    /// The hash of a key.
    ghost code: { Self.Key → ℕ };

    /// The value of a key that has none, after its first input, or `None` where the update is declined.
    fn initial(&self, key: &Self::Key, input: &Self::Input) -> Option<Self::Value>
        ensures { result ≡ meaning.first key.now input.now };

    /// Changes the value of a key by an input, where it stands, and answers whether it did: `false` means that the
    /// update is declined, and then the value is as it was.
    fn in_place(&self, key: &Self::Key, input: &Self::Input, value: &mut Self::Value) -> bool
        ensures changed { OnTrue result (meaning.next key.now value.old input.now ≡ Some value.new) }
        ensures declined { OnFalse result ((meaning.next key.now value.old input.now ≡ None) × (value.new ≡ value.old)) };

    /// The value of a key after an input, apart from the one that it had, or `None` where the update is declined.
    fn copy(&self, key: &Self::Key, input: &Self::Input, value: &Self::Value) -> Option<Self::Value>
        ensures { result ≡ meaning.next key.now value.now input.now };

    /// What a read of a key shows.
    fn read(&self, key: &Self::Key, input: &Self::Input, value: &Self::Value) -> Self::Output
        ensures { result ≡ meaning.shown key.now input.now value.now };

    /// The hash of a key.
    fn hash(&self, key: &Self::Key) -> u64
        ensures { result ≡ code key.now };
}

/// Functions whose updates may be kept as parts of a value, and be joined to the value that they change later.
///
/// Where `MERGES` is true, an update of a value is that value joined with the input's part, and the first value of a
/// key is the part itself; so no update is declined. Functions whose updates can't be kept so say `MERGES = false`.
pub trait Mergeable: Functions {
    /// Whether these functions merge.
    const MERGES: bool;

    ghost MERGES: { Bool };

    /// What parts mean: the part of a value that an input is, and a value or part with the part after it.
    ghost parts: { Parts Self.Key Self.Value Self.Input };

    /// The part of a value that an input is.
    fn delta(&self, key: &Self::Key, input: &Self::Input) -> Self::Value
        ensures { result ≡ parts.delta key.now input.now };

    /// A value, or a part of one, with the part that comes after it.
    fn join(&self, value: &Self::Value, part: &Self::Value) -> Self::Value
        ensures { result ≡ parts.joined value.now part.now };

    /// Where the functions merge, updates are joins.
    ghost merges: { IsTrue MERGES → Merges Self.Functions.meaning parts };

    /// Parts may be joined first.
    ghost associative: { (u v w : Self.Value) → parts.joined (parts.joined u v) w
        ≡ parts.joined u (parts.joined v w) };
}

/// Functions whose inputs may come in any order. They never decline an update.
pub trait OrderFree: Functions {
    /// An update gives a value of its type, from no value and from any.
    ghost accepted: { (k : Self.Key) (i : Self.Input) (held : Option Self.Value) → Self.Key.is_known k
        → Self.Input.is_known i → IfSome held Self.Value.is_known
        → IsSomeAnd (updated Self.meaning k i held) Self.Value.is_known };

    /// Two inputs give the same value in either order, from no value and from any.
    ghost either_order: { (k : Self.Key) (i j : Self.Input) (held : Option Self.Value) → Self.Key.is_known k
        → Self.Input.is_known i → Self.Input.is_known j → IfSome held Self.Value.is_known
        → updated Self.meaning k j (updated Self.meaning k i held)
        ≡ updated Self.meaning k i (updated Self.meaning k j held) };
}
