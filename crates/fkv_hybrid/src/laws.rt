//! What holds of every log. Each law is what a function without a body ensures.
ghost use Rattle.std.specs.Prelude.{◌≡◌, ◌≤◌, ℕ, Bool, List, Option};
ghost use Rattle.fkv_device.specs.Standing.{Standing};
ghost use Rattle.fkv_regions.specs.RegionsView.{RegionsView};
ghost use Rattle.fkv_hybrid.specs.Views.{LogView, with_entry, with_value, with_receipt, with_regions};
ghost use Rattle.fkv_hybrid.specs.Views.{moved, truncated, FrozenStay};
ghost use Rattle.fkv_hybrid.specs.WrongLogs.{AppendsItWhole, ClosesFrames, TruncatesBelow};
ghost use Rattle.fkv_hybrid.specs.WrongLogs.{SpelledInItsPage, TakesPagesInTurn, BeginsWhereKnown, DiffersFirst, RefusesInTurn};

/// No change of a log changes what is frozen: an entry is appended at the tail, which is no lower than the safe
/// read-only offset, or gets another value at or above that offset, or a page is flushed, the regions move or Begin
/// does, and the entries stay from where the text begins then.
pub fn frozen_stay<K, V>()
    ensures appended { (size : ℕ) (log : LogView K V) (p : ℕ) (k : K) (v : Option V) (d : Bool)
        → log.regions.offsets.safe_read_only ≤ log.tail
        → FrozenStay log (with_entry size log p k v d) }
    ensures changed { (log : LogView K V) (a : ℕ) (v : Option V)
        → log.regions.offsets.safe_read_only ≤ a
        → FrozenStay log (with_value log a v) }
    ensures flushed { (log : LogView K V) (s : Standing) → FrozenStay log (with_receipt log s) }
    ensures moved { (keeps : Bool) (log : LogView K V) (regions : RegionsView) (more : List (List ℕ))
        → FrozenStay log (moved keeps log regions more) }
    ensures truncated { (keeps : Bool) (log : LogView K V) (begin : ℕ) → FrozenStay log (truncated keeps log begin) }
{}

/// A log holds the same number of frames, whatever is done to it.
pub fn frames_stay<K, V>()
    ensures appended { (size : ℕ) (log : LogView K V) (p : ℕ) (k : K) (v : Option V) (d : Bool)
        → (with_entry size log p k v d).frames ≡ log.frames }
    ensures changed { (log : LogView K V) (a : ℕ) (v : Option V) → (with_value log a v).frames ≡ log.frames }
    ensures flushed { (log : LogView K V) (s : Standing) → (with_receipt log s).frames ≡ log.frames }
    ensures seen { (log : LogView K V) (regions : RegionsView) → (with_regions log regions).frames ≡ log.frames }
    ensures moved { (keeps : Bool) (log : LogView K V) (regions : RegionsView) (more : List (List ℕ))
        → (moved keeps log regions more).frames ≡ log.frames }
    ensures truncated { (keeps : Bool) (log : LogView K V) (begin : ℕ)
        → (truncated keeps log begin).frames ≡ log.frames }
{}

/// What the definitions of a log refuse, shown on small logs.
pub fn wrong_logs()
    ensures appended { AppendsItWhole }
    ensures closed { ClosesFrames }
    ensures truncated { TruncatesBelow }
    ensures spelled { SpelledInItsPage }
    ensures pages { TakesPagesInTurn }
    ensures begin { BeginsWhereKnown }
    ensures differences { DiffersFirst }
    ensures refusals { RefusesInTurn }
{}
