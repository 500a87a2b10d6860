//! What holds of texts with deltas. An entry that is a delta has a part of a value, to be joined with what its key had
//! before: so entries are one thing, and what they stand for another, which the laws of texts speak of.
ghost use Rattle.std.specs.Prelude.{◌≡◌, ◌≢◌, ◌<◌, ◌≤◌, ◌&&◌, ◌⊎◌, ◌↔◌, ℕ, Bool, true, false};
ghost use Rattle.std.specs.Prelude.{List, [], ◌∷◌, ◌++◌, map, filter};
ghost use Rattle.std.specs.Prelude.{Option, Some, None, IsSome, nat_le, slice_get};
ghost use Rattle.std.specs.Option.{option_map};
ghost use Rattle.std.specs.List.{fold};
ghost use Rattle.std.specs.declared.cmp.Ordering.{Ordering};
ghost use Rattle.fkv_functions.specs.Plain.{PlainMap, Same, IsKeyOrder};
ghost use Rattle.fkv_texts.specs.declared.entries.Entry.{Entry};
ghost use Rattle.fkv_texts.specs.Text.{last_where, entry_at, value_at, has_key, last_of, newest, value_of, live};
ghost use Rattle.fkv_texts.specs.Text.{IsRising, IsFrom, IsBelow, changed, text_from};
ghost use Rattle.fkv_texts.specs.Places.{IsLaidOut};
ghost use Rattle.fkv_texts.specs.Chains.{IsClassTest, last_of_class, Leads, IsChained, IsChainFrom, leads_to};
ghost use Rattle.fkv_texts.specs.Deltas.{combined, IsAssociative, value_after, with_other_value, resolved_from, resolved, AreWhole, IgnoresValues};
ghost use Rattle.fkv_texts.specs.Deltas.{gathered, newest_first_to, newest_first_between};
ghost use Rattle.fkv_texts.specs.Deltas.{IsCovered, IsSuperseded, IsCleared};
ghost use Rattle.fkv_texts.specs.WrongDeltas.{DeltasJoin, WholesEnd, FirstDeltasStand, PartsGather, LaterIsLater};
ghost use Rattle.fkv_texts.specs.WrongDeltas.{WholesCover, CutNeedsClearing};

/// Entries stand where they stood: what they stand for has their addresses, previous addresses, keys and flags, and
/// other values alone.
pub fn places<K, V, C>()
    ensures same { (cmp : K → K → Ordering) (join : V → V → V) (es : List (Entry K V))
        → map (with_other_value None) (resolved cmp join es) ≡ map (with_other_value None) es }
    ensures laid_out { (cmp : K → K → Ordering) (join : V → V → V) (es : List (Entry K V)) (bits size begin tail : ℕ)
        → IsLaidOut bits size begin tail (resolved cmp join es) ↔ IsLaidOut bits size begin tail es }
    ensures rising { (cmp : K → K → Ordering) (join : V → V → V) (es : List (Entry K V))
        → IsRising (resolved cmp join es) ↔ IsRising es }
    ensures from { (cmp : K → K → Ordering) (join : V → V → V) (es : List (Entry K V)) (begin : ℕ)
        → IsFrom begin (resolved cmp join es) ↔ IsFrom begin es }
    ensures below { (cmp : K → K → Ordering) (join : V → V → V) (es : List (Entry K V)) (tail : ℕ)
        → IsBelow tail (resolved cmp join es) ↔ IsBelow tail es }
    ensures chained { (cmp : K → K → Ordering) (join : V → V → V) (es : List (Entry K V))
        (class : K → C) (same : C → C → Bool) (begin : ℕ)
        → IsChained class same begin (resolved cmp join es) ↔ IsChained class same begin es }
    ensures leads { (cmp : K → K → Ordering) (join : V → V → V) (es : List (Entry K V))
        (class : K → C) (same : C → C → Bool) (begin : ℕ) (c : C) (a : ℕ)
        → Leads begin (last_of_class class same (resolved cmp join es) c) a
        ↔ Leads begin (last_of_class class same es c) a }
    // what is found at an address, or of a key, is the same entry, with what its key has there
    ensures entry { (cmp : K → K → Ordering) (join : V → V → V) (es : List (Entry K V)) (a : ℕ)
        → entry_at (resolved cmp join es) a ≡ option_map (with_other_value (value_at (resolved cmp join es) a)) (entry_at es a) }
    ensures last { (cmp : K → K → Ordering) (join : V → V → V) (es : List (Entry K V)) (k : K)
        → last_of cmp (resolved cmp join es) k
        ≡ option_map (with_other_value (live cmp (resolved cmp join es) k)) (last_of cmp es k) }
    ensures newest { (cmp : K → K → Ordering) (join : V → V → V) (es : List (Entry K V)) (k : K) (a : ℕ)
        → newest cmp (resolved cmp join es) k a
        ≡ option_map (with_other_value (value_of (newest cmp (resolved cmp join es) k a))) (newest cmp es k a) }
    ensures last_where { (cmp : K → K → Ordering) (join : V → V → V) (es : List (Entry K V)) (p : Entry K V → Bool)
        → IgnoresValues p
        → last_where p (resolved cmp join es)
        ≡ option_map (with_other_value (value_of (last_where p (resolved cmp join es)))) (last_where p es) }
    // an entry that is no delta, a tombstone too, has its own value; and one that has a value has one once it stands
    ensures whole { (cmp : K → K → Ordering) (join : V → V → V) (es : List (Entry K V)) (p : Entry K V → Bool)
        (e : Entry K V)
        → IgnoresValues p
        → last_where p es ≡ Some e
        → e.delta ≡ false
        → value_of (last_where p (resolved cmp join es)) ≡ e.value }
    ensures valued { (cmp : K → K → Ordering) (join : V → V → V) (es : List (Entry K V)) (p : Entry K V → Bool)
        (e : Entry K V)
        → IgnoresValues p
        → last_where p es ≡ Some e
        → IsSome e.value
        → IsSome (value_of (last_where p (resolved cmp join es))) }
{}

/// What keys have once entries stand: each entry of a key in its turn, a delta joined with what the key had.
pub fn values<K, V>()
    ensures appended { (cmp : K → K → Ordering) (join : V → V → V) (es : List (Entry K V)) (e : Entry K V)
        → resolved cmp join (es ++ e ∷ [])
        ≡ resolved cmp join es ++ with_other_value (value_after join (live cmp (resolved cmp join es) e.key) e) e ∷ [] }
    ensures live { (cmp : K → K → Ordering) (join : V → V → V) (es : List (Entry K V)) (k : K)
        → IsKeyOrder cmp
        → live cmp (resolved cmp join es) k ≡ fold (value_after join) None (filter (has_key cmp k) es) }
    ensures newest { (cmp : K → K → Ordering) (join : V → V → V) (es : List (Entry K V)) (k : K) (a : ℕ)
        → IsKeyOrder cmp
        → IsRising es
        → value_of (newest cmp (resolved cmp join es) k a)
        ≡ fold (value_after join) None (filter (λ e. nat_le e.address a && has_key cmp k e) es) }
    // where no entry is a delta, each has its own value
    ensures whole { (cmp : K → K → Ordering) (join : V → V → V) (m : PlainMap K V) (es : List (Entry K V))
        → AreWhole es
        → resolved_from cmp join m es ≡ es }
    // a change of the last entry of a key, which is no delta, changes what no other entry stands for
    ensures changed { (cmp : K → K → Ordering) (join : V → V → V) (es : List (Entry K V)) (a : ℕ) (v : Option V)
        (e : Entry K V)
        → IsKeyOrder cmp
        → IsRising es
        → entry_at es a ≡ Some e
        → e.delta ≡ false
        → last_of cmp es e.key ≡ Some e
        → resolved cmp join (changed es a v) ≡ changed (resolved cmp join es) a v }
{}

/// What a cleared text still says once its lower part goes, where what deltas stand for may go with their bases.
pub fn uncovered_stays<K, V>()
    // each key has what it had
    ensures lives { (cmp : K → K → Ordering) (join : V → V → V) (es : List (Entry K V)) (low limit : ℕ)
        → IsKeyOrder cmp
        → IsRising es
        → IsCleared cmp es limit
        → low ≤ limit
        → Same (live cmp (resolved cmp join (text_from low es))) (live cmp (resolved cmp join es)) }
    // and had it at an address, where the newest entry of the key there is not covered
    ensures newest { (cmp : K → K → Ordering) (join : V → V → V) (es : List (Entry K V)) (low limit : ℕ) (k : K) (a : ℕ)
        → IsKeyOrder cmp
        → IsRising es
        → IsCleared cmp es limit
        → low ≤ limit
        → ((e : Entry K V) → newest cmp es k a ≡ Some e → IsCovered cmp es e → ⊥)
        → value_of (newest cmp (resolved cmp join (text_from low es)) k a)
        ≡ value_of (newest cmp (resolved cmp join es) k a) }
    // that entry is there still, or there is none where it goes
    ensures stays { (cmp : K → K → Ordering) (es : List (Entry K V)) (low : ℕ) (k : K) (a : ℕ) (e : Entry K V)
        → newest cmp es k a ≡ Some e
        → low ≤ e.address
        → newest cmp (text_from low es) k a ≡ Some e }
    ensures goes { (cmp : K → K → Ordering) (es : List (Entry K V)) (low : ℕ) (k : K) (a : ℕ) (e : Entry K V)
        → IsRising es
        → newest cmp es k a ≡ Some e
        → e.address < low
        → newest cmp (text_from low es) k a ≡ None }
    // what covers an entry stands above it, and stays
    ensures covered { (cmp : K → K → Ordering) (es : List (Entry K V)) (low : ℕ) (e : Entry K V)
        → low ≤ e.address
        → IsCovered cmp (text_from low es) e ↔ IsCovered cmp es e }
    ensures superseded { (cmp : K → K → Ordering) (es : List (Entry K V)) (low : ℕ) (e : Entry K V)
        → low ≤ e.address
        → IsSuperseded cmp (text_from low es) e ↔ IsSuperseded cmp es e }
    ensures cleared { (cmp : K → K → Ordering) (es : List (Entry K V)) (low limit : ℕ)
        → IsCleared cmp es limit
        → IsCleared cmp (text_from low es) limit }
{}

/// Which entries are covered, and what stands for itself.
pub fn covers<K, V>()
    ensures decided { (cmp : K → K → Ordering) (es : List (Entry K V)) (e : Entry K V)
        → IsCovered cmp es e ⊎ (IsCovered cmp es e → ⊥) }
    // an entry that is covered is not the last of its key; where none is a delta, one that is not the last is covered
    ensures passed { (cmp : K → K → Ordering) (es : List (Entry K V)) (e : Entry K V)
        → IsRising es
        → IsCovered cmp es e
        → last_of cmp es e.key ≢ Some e }
    ensures whole { (cmp : K → K → Ordering) (es : List (Entry K V)) (e : Entry K V)
        → IsKeyOrder cmp
        → IsRising es
        → AreWhole es
        → entry_at es e.address ≡ Some e
        → last_of cmp es e.key ≢ Some e
        → IsCovered cmp es e }
    // an entry that is not covered stands for its own value, a delta too, where all below it is superseded
    ensures lowest { (cmp : K → K → Ordering) (join : V → V → V) (es : List (Entry K V)) (e : Entry K V)
        → IsKeyOrder cmp
        → IsRising es
        → entry_at es e.address ≡ Some e
        → IsCleared cmp es e.address
        → (IsCovered cmp es e → ⊥)
        → value_of (newest cmp (resolved cmp join es) e.key e.address) ≡ e.value }
{}

/// What is superseded stays so as a text grows.
pub fn superseded_stays<K, V>()
    // an entry that is no delta covers those of its key below it
    ensures covers { (cmp : K → K → Ordering) (es : List (Entry K V)) (d e : Entry K V)
        → has_key cmp e.key d ≡ true
        → d.delta ≡ false
        → e.address < d.address
        → IsCovered cmp (es ++ d ∷ []) e }
    ensures covered { (cmp : K → K → Ordering) (es : List (Entry K V)) (d e : Entry K V)
        → IsCovered cmp es e
        → IsCovered cmp (es ++ d ∷ []) e }
    ensures superseded { (cmp : K → K → Ordering) (es : List (Entry K V)) (d e : Entry K V)
        → IsSuperseded cmp es e
        → IsSuperseded cmp (es ++ d ∷ []) e }
    ensures cleared { (cmp : K → K → Ordering) (es : List (Entry K V)) (d : Entry K V) (limit : ℕ)
        → limit ≤ d.address
        → IsCleared cmp es limit
        → IsCleared cmp (es ++ d ∷ []) limit }
    // and as an entry gets another value, above what is cleared
    ensures covered_changed { (cmp : K → K → Ordering) (es : List (Entry K V)) (a : ℕ) (v : Option V) (e : Entry K V)
        → IsCovered cmp es e
        → IsCovered cmp (changed es a v) e }
    ensures cleared_changed { (cmp : K → K → Ordering) (es : List (Entry K V)) (a : ℕ) (v : Option V) (limit : ℕ)
        → limit ≤ a
        → IsCleared cmp es limit
        → IsCleared cmp (changed es a v) limit }
{}

/// A reader that goes down the entries of a key and joins their parts, each before those that it has, comes to what the
/// key has: `parts` are those from above, which may be none.
pub fn gathers<K, V>()
    ensures none { (join : V → V → V) (v : Option V) → combined join v None ≡ v }
    // down to the first entry that is no delta, or to the end
    ensures all { (cmp : K → K → Ordering) (join : V → V → V) (es : List (Entry K V)) (k : K) (a : ℕ)
        (parts joined : Option V) (end : Option (Entry K V))
        → IsKeyOrder cmp
        → IsAssociative join
        → IsRising es
        → gathered join (newest_first_to cmp es k a) parts ≡ (joined, end)
        → combined join (value_of (newest cmp (resolved cmp join es) k a)) parts ≡ combined join (value_of end) joined }
    // above an address: such an entry stands there
    ensures met { (cmp : K → K → Ordering) (join : V → V → V) (es : List (Entry K V)) (k : K) (low a : ℕ)
        (parts joined : Option V) (e : Entry K V)
        → IsKeyOrder cmp
        → IsAssociative join
        → IsRising es
        → low ≤ a
        → gathered join (newest_first_between cmp es k low a) parts ≡ (joined, Some e)
        → combined join (value_of (newest cmp (resolved cmp join es) k a)) parts ≡ combined join e.value joined }
    // or what the key has at that address is wanted still
    ensures on { (cmp : K → K → Ordering) (join : V → V → V) (es : List (Entry K V)) (k : K) (low a : ℕ)
        (parts joined : Option V)
        → IsKeyOrder cmp
        → IsAssociative join
        → IsRising es
        → low ≤ a
        → gathered join (newest_first_between cmp es k low a) parts ≡ (joined, None)
        → combined join (value_of (newest cmp (resolved cmp join es) k a)) parts
        ≡ combined join (value_of (newest cmp (resolved cmp join es) k low)) joined }
{}

/// The same along a chain, from an entry of the key's class down to an address.
pub fn chain_gathers<K, V, C>()
    // the reader meets an entry of the key that is no delta
    ensures met { (cmp : K → K → Ordering) (join : V → V → V) (class : K → C) (same : C → C → Bool)
        (begin low : ℕ) (es upper : List (Entry K V)) (k : K) (i : ℕ) (d e : Entry K V) (parts joined : Option V)
        → IsKeyOrder cmp
        → IsAssociative join
        → IsClassTest same
        → begin ≤ low
        → IsRising es
        → IsChained class same begin es
        → slice_get es i ≡ Some d
        → class d.key ≡ class k
        → IsChainFrom low es d.address upper
        → gathered join (filter (has_key cmp k) upper) parts ≡ (joined, Some e)
        → combined join (value_of (newest cmp (resolved cmp join es) k d.address)) parts ≡ combined join e.value joined }
    // or what the key has where the chain leads on is wanted still
    ensures on { (cmp : K → K → Ordering) (join : V → V → V) (class : K → C) (same : C → C → Bool)
        (begin low : ℕ) (es upper : List (Entry K V)) (k : K) (i : ℕ) (d : Entry K V) (parts joined : Option V)
        → IsKeyOrder cmp
        → IsAssociative join
        → IsClassTest same
        → begin ≤ low
        → IsRising es
        → IsChained class same begin es
        → slice_get es i ≡ Some d
        → class d.key ≡ class k
        → IsChainFrom low es d.address upper
        → gathered join (filter (has_key cmp k) upper) parts ≡ (joined, None)
        → combined join (value_of (newest cmp (resolved cmp join es) k d.address)) parts
        ≡ combined join (value_of (newest cmp (resolved cmp join es) k (leads_to d.address upper))) joined }
{}

/// What deltas stand for, and what they cover and do not, shown on small texts.
pub fn wrong_deltas()
    ensures join { DeltasJoin }
    ensures ends { WholesEnd }
    ensures first { FirstDeltasStand }
    ensures gather { PartsGather }
    ensures order { LaterIsLater }
    ensures cover { WholesCover }
    ensures cut { CutNeedsClearing }
{}
