//! What the updates of several workers come to. Each law is what a function without a body ensures.
ghost use Rattle.std.specs.Prelude.{◌≡◌, ◌<◌, ◌++◌, ◌∷◌, [], ℕ, ℤ, List, length, Option, FitsSigned, slice_index_or, slice_set};
ghost use Rattle.std.specs.BTreeMap.{is_at};
ghost use Rattle.std.specs.Int.{w64};
ghost use Rattle.std.specs.List.{AllZip};
ghost use Rattle.std.specs.List.Sorted.{IsStrictlySortedBy};
ghost use Rattle.std.specs.Map.{lookup, keys_of};
ghost use Rattle.fkv_functions.specs.Names.{name_cmp};
ghost use Rattle.fkv_functions.specs.declared.names.Name.{Name};
ghost use Rattle.fkv_histories.specs.declared.entries.Entry.{Entry};
ghost use Rattle.fkv_partition.specs.Views.{partition_of};
ghost use Rattle.fkv_store.specs.Passes.{IsUpdateBy};
ghost use Rattle.fkv_feeds.specs.Tables.{AreFeeds, IsTableOf, amounts_of, folded, most_rows};
ghost use Rattle.fkv_blocks.specs.Pieces.{AreFed};
ghost use Rattle.fkv_workers.specs.Shares.{AreShuffled, HasShare, value_by};

use fkv_functions::{Mergeable, Name, OrderFree};

/// A worker's own lists have no rows while they are empty (`none`), and one row more where the list of its key's partition has
/// an update of it, or a merge, at its end (`more`).
pub fn shares_grow<V, O>()
    ensures none { (code : Name → ℕ) (count : ℕ) (own : List (List (Entry Name V ℤ O)))
        → length own ≡ count
        → ((p : ℕ) → p < count → slice_index_or own p [] ≡ [])
        → HasShare code count own [] }
    ensures more { (code : Name → ℕ) (count p : ℕ) (own : List (List (Entry Name V ℤ O))) (rows : List (Name × ℤ))
        (e : Entry Name V ℤ O) (key : Name) (amount : ℤ)
        → HasShare code count own rows
        → 0 < count
        → p ≡ partition_of count (code key)
        → IsUpdateBy key amount e.op
        → FitsSigned w64 amount
        → HasShare code count (slice_set own p (slice_index_or own p [] ++ e ∷ [])) (rows ++ (key, amount) ∷ []) }
{}

/// Where functions take inputs in any order, several workers make the table of one. They share the rows of feeds out among them, in
/// pieces of any feed, and each has own lists of its updates and merges of them, of which the partitions' histories are shuffles.
/// Then each key has, by the history of its partition, what its amounts come to in the order of the feeds (`values`); so what the
/// histories make of the empty map is the table of the feeds (`table`).
pub fn tables_join<F: Mergeable + OrderFree<Key = Name, Input = i64>>()
    ensures values { (limit : ℕ) (feeds : List (Option (List ℕ))) (shares : List (List (Name × ℤ)))
        (owns : List (List (List (Entry Name F.Value ℤ F.Output)))) (histories : List (List (Entry Name F.Value ℤ F.Output)))
        → AreFed limit feeds shares
        → AllZip (HasShare F.code (length histories)) owns shares
        → AreShuffled histories owns
        → (rows : List (Name × ℤ))
        × AreFeeds limit feeds rows
        × ((k : Name) → value_by name_cmp F.meaning F.code histories k
        ≡ folded F.meaning k (amounts_of name_cmp k rows)) }
    ensures table { (feeds : List (Option (List ℕ))) (shares : List (List (Name × ℤ)))
        (owns : List (List (List (Entry Name F.Value ℤ F.Output)))) (histories : List (List (Entry Name F.Value ℤ F.Output)))
        (pairs : List (Name × F.Value))
        → AreFed most_rows feeds shares
        → AllZip (HasShare F.code (length histories)) owns shares
        → AreShuffled histories owns
        → ((k : Name) → lookup (is_at (name_cmp k)) pairs ≡ value_by name_cmp F.meaning F.code histories k)
        → IsStrictlySortedBy name_cmp (keys_of pairs)
        → IsTableOf F.meaning feeds pairs }
{}
