//! What every event of a partition leaves, and what holds of the contexts of every partition. Each law is what a function without
//! a body ensures.
ghost use Rattle.std.specs.Prelude.{◌≡◌, ◌<◌, ℕ, Bool, IsTrue, List, Some, None, Result, Ok, Err};
ghost use Rattle.std.specs.declared.cmp.Ordering.{Ordering};
ghost use Rattle.fkv_functions.specs.Meanings.{Meanings};
ghost use Rattle.fkv_functions.specs.declared.asks.Ask.{Ask};
ghost use Rattle.fkv_functions.specs.declared.refusals.Refused.{Refused};
ghost use Rattle.fkv_device.specs.Standing.{Standing, Joined};
ghost use Rattle.fkv_hybrid.specs.Spelled.{IsEntryIn};
ghost use Rattle.fkv_hybrid.specs.Views.{FrozenStay};
ghost use Rattle.fkv_texts.specs.Text.{last_of};
ghost use Rattle.fkv_lookups.specs.RecordsViews.{class_in, IsEntryOf};
ghost use Rattle.fkv_operations.specs.declared.entries.IndexEntry.{IndexEntry};
ghost use Rattle.fkv_operations.specs.declared.operations.Op.TheVariants.{Merge, Relocate};
ghost use Rattle.fkv_operations.specs.KeptWords.{after_last};
ghost use Rattle.fkv_operations.specs.Still.{IsStill};
ghost use Rattle.fkv_partition.specs.AnyEvent.{Event, AreEvents};
ghost use Rattle.fkv_partition.specs.Asking.{AsksNothing};
ghost use Rattle.fkv_partition.specs.KeySound.{IsSound};
ghost use Rattle.fkv_partition.specs.Views.{live_of, PartitionView, relocation_at};
ghost use Rattle.fkv_partition.specs.Grown.{IsPreserved};
ghost use Rattle.fkv_partition.specs.declared.contexts.Progress.{Progress};
ghost use Rattle.fkv_partition.specs.Pending.{pending};
ghost use Rattle.fkv_partition.specs.declared.relocations.Relocation.{Relocation};
ghost use Rattle.fkv_partition.specs.Effect.{Asked, asked};
ghost use Rattle.fkv_partition.specs.Events.{Goes, Installs, Loads};
ghost use Rattle.fkv_partition.specs.Sound.{IsCompacting, IsPartition};

use crate::pending_laws::{merges_ask_nothing, merges_take_no_page};
use fkv_device::Receipt;
use fkv_functions::Mergeable;
use fkv_lookups::clearing::cleared_stay;
use fkv_lookups::laws::{entries_lead, meetings_tell, records_change};
use fkv_operations::kept_words_are_sound;

/// What a prepared update of any key kept, and what a look-up of any key that waits for a page is to find, are kept by every
/// event, relocations among them; no offset falls, what is flushed or frozen stays, and what was cleared is cleared.
pub fn every_event_preserves<F: Mergeable, R: Receipt>()
    ensures { (old new : PartitionView F.Key F.Value F.Input)
        → IsPartition R.keeps F.Key.cmp F.parts.joined F.code old → IsPartition R.keeps F.Key.cmp F.parts.joined F.code new
        → Event R.keeps R.stands (IsEntryIn F.Key.codec F.Value.codec) F.Key.cmp F.parts.joined F.meaning F.code old new
        → IsPreserved R.keeps F.Key.cmp F.parts.joined F.code old new }
{
    cleared_stay::<F::Key, F::Value>();
    records_change::<F::Key, F::Value>();
    meetings_tell::<F::Key, F::Value>();
}

/// No event changes a frozen record: one below the safe read-only offset. It stays as it is, or is dropped from where the
/// records begin.
pub fn frozen_stay<F: Mergeable, R: Receipt>()
    ensures { (old new : PartitionView F.Key F.Value F.Input)
        → IsPartition R.keeps F.Key.cmp F.parts.joined F.code old → IsPartition R.keeps F.Key.cmp F.parts.joined F.code new
        → Event R.keeps R.stands (IsEntryIn F.Key.codec F.Value.codec) F.Key.cmp F.parts.joined F.meaning F.code old new
        → FrozenStay old.records.log new.records.log }
{
    every_event_preserves::<F, R>();
}

/// An entry that was kept is sound wherever its place holds the kept word, after any number of events, although it was swept
/// and made again in between: an address is never used again.
pub fn kept_words_stay_sound<F: Mergeable, R: Receipt>()
    ensures { (v : PartitionView F.Key F.Value F.Input) (vs : List (PartitionView F.Key F.Value F.Input)) (k : F.Key)
        (e : IndexEntry)
        → IsTrue R.keeps
        → IsPartition R.keeps F.Key.cmp F.parts.joined F.code v
        → AreEvents R.keeps R.stands (IsEntryIn F.Key.codec F.Value.codec) F.Key.cmp F.parts.joined F.meaning F.code v vs
        → IsEntryOf v.records (class_in F.code v.records k) e
        → IsStill v.records.log.regions.offsets.safe_read_only (last_of F.Key.cmp v.records.text k)
        → IsEntryOf (after_last v vs).records (class_in F.code v.records k) e
        → live_of F.Key.cmp (after_last v vs) k ≡ live_of F.Key.cmp v k }
{
    every_event_preserves::<F, R>();
    kept_words_are_sound::<F::Key, F::Value>();
    entries_lead::<F::Key, F::Value>();
}

/// A context in which nothing is open waits for no page, and a session has eight contexts.
pub fn contexts_tell<K, V, I>()
    ensures closed { (cmp : K → K → Ordering) (v : PartitionView K V I) (slot c : ℕ)
        → asked v slot c ≡ None → pending cmp v slot c ≡ None }
    ensures low { (v : PartitionView K V I) (slot c : ℕ) (x : Asked K V I) → asked v slot c ≡ Some x → c < 8 }
    // an operation on a key and a relocation are never open in one context, and a relocation waits for no look-up
    ensures relocating { (keeps : Bool) (cmp : K → K → Ordering) (join : V → V → V) (code : K → ℕ) (v : PartitionView K V I) (slot c : ℕ)
        (x : Relocation K V) → IsCompacting keeps cmp join code v → relocation_at v slot c ≡ Some x
        → (asked v slot c ≡ Some (record { number = x.number; op = Relocate })) × (pending cmp v slot c ≡ None) }
{}

/// No event of a merge asks for a page, for a built value, or that sessions with an older view are refreshed. As it goes on it
/// tells none of these; and it takes no built value.
pub fn merges_go_on<K, V, I, O, R>()
    ensures goes { (keeps : Bool) (stands : R → Standing) (cmp : K → K → Ordering) (join : V → V → V) (f : Meanings K V I O) (code : K → ℕ)
        (old new : PartitionView K V I) (slot c now : ℕ) (x : Asked K V I) (k : K) (i : I) (progress : Progress K V I O R)
        → IsSound keeps cmp join code old → IsCompacting keeps cmp join code old
        → asked old slot c ≡ Some x → x.op ≡ Merge k i
        → Goes stands cmp join f code old new slot c now (Ok progress)
        → AsksNothing progress }
    ensures installs { (keeps : Bool) (cmp : K → K → Ordering) (join : V → V → V) (f : Meanings K V I O) (code : K → ℕ)
        (old new : PartitionView K V I) (slot c : ℕ) (ask : Ask K V I) (now : ℕ) (x : Asked K V I) (k : K) (i : I)
        (result : Result (Progress K V I O R) Refused)
        → IsSound keeps cmp join code old → IsCompacting keeps cmp join code old
        → asked old slot c ≡ Some x → x.op ≡ Merge k i
        → Installs cmp f code old new slot c ask now result
        → result ≡ Err Refused.NotReady }
{
    merges_ask_nothing::<K, V, I, O, R>();
}

/// And it takes no page.
pub fn merges_load_nothing<F: Mergeable, R: Receipt>()
    ensures { (keeps : Bool) (join : F.Value → F.Value → F.Value) (code : F.Key → ℕ)
        (old new : PartitionView F.Key F.Value F.Input) (slot c : ℕ) (came : Result (Joined R) Refused) (now : ℕ)
        (x : Asked F.Key F.Value F.Input) (k : F.Key) (i : F.Input)
        (result : Result (Progress F.Key F.Value F.Input F.Output R) Refused)
        → IsSound keeps F.Key.cmp join code old → IsCompacting keeps F.Key.cmp join code old
        → asked old slot c ≡ Some x → x.op ≡ Merge k i
        → Loads R.stands (IsEntryIn F.Key.codec F.Value.codec) F.Key.cmp join F.meaning code old new slot c came now result
        → result ≡ Err Refused.NotReady }
{
    merges_take_no_page::<F, R>();
}
