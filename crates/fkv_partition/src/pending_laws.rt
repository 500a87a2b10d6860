//! What every event leaves of the look-ups that wait for a page. Each law is what a function without a body ensures.
ghost use Rattle.std.specs.Prelude.{◌≡◌, ◌⊎◌, ℕ, Bool, true, IsTrue, List, Some, Result, Ok, Err};
ghost use Rattle.std.specs.declared.cmp.Ordering.{Ordering};
ghost use Rattle.fkv_functions.specs.Meanings.{Meanings};
ghost use Rattle.fkv_functions.specs.Plain.{IsKeyOrder};
ghost use Rattle.fkv_functions.specs.declared.asks.Ask.{Ask};
ghost use Rattle.fkv_functions.specs.declared.refusals.Refused.{Refused};
ghost use Rattle.fkv_device.specs.Standing.{Standing, Joined};
ghost use Rattle.fkv_hybrid.specs.Spelled.{IsEntryIn};
ghost use Rattle.fkv_operations.specs.After.{is_merge};
ghost use Rattle.fkv_partition.specs.declared.contexts.Progress.{Progress};
ghost use Rattle.fkv_partition.specs.Views.{PartitionView, context_at};
ghost use Rattle.fkv_operations.specs.declared.operations.KeyedOp.{KeyedOp};
ghost use Rattle.fkv_partition.specs.KeyBeginning.{Enters, Issues};
ghost use Rattle.fkv_partition.specs.KeyEnding.{Leaves, GivesUp};
ghost use Rattle.fkv_partition.specs.KeyGoing.{Goes};
ghost use Rattle.fkv_partition.specs.Asking.{AsksNothing};
ghost use Rattle.fkv_partition.specs.declared.contexts.Context.{Context};
ghost use Rattle.fkv_partition.specs.KeyInstalling.{Installs};
ghost use Rattle.fkv_partition.specs.Moves.{Refreshes, Shifts, Evicts};
ghost use Rattle.fkv_partition.specs.Flushing.{Flushes};
ghost use Rattle.fkv_partition.specs.KeyLoading.{Loads};
ghost use Rattle.fkv_partition.specs.KeyEffect.{IsGiveUp, Finds};
ghost use Rattle.fkv_partition.specs.Pending.{OthersPend, AllPend};
ghost use Rattle.fkv_partition.specs.KeySound.{IsSound};

use fkv_device::Receipt;
use fkv_functions::Mergeable;
use fkv_lookups::laws::{meetings_tell, records_change, records_grow};

/// On a device that keeps, what a look-up that waits for a page is to find stays, whatever other operations do and
/// however pages move.
pub fn pendings_stay<K, V, I, O, R>()
    ensures goes { (keeps : Bool) (stands : R → Standing) (cmp : K → K → Ordering) (join : V → V → V) (f : Meanings K V I O) (code : K → ℕ)
        (old new : PartitionView K V I) (slot c now : ℕ) (result : Result (Progress K V I O R) Refused)
        → IsTrue keeps → IsKeyOrder cmp → IsSound keeps cmp join code old
        → Goes stands cmp join f code old new slot c now result
        → OthersPend cmp old new slot c }
    // where a page is asked for, it is to find what the live map says of the key at that moment, and nothing else is to be
    // found
    ensures finds { (keeps : Bool) (stands : R → Standing) (cmp : K → K → Ordering) (join : V → V → V) (f : Meanings K V I O) (code : K → ℕ)
        (old new : PartitionView K V I) (slot c now : ℕ) (progress : Progress K V I O R)
        → IsKeyOrder cmp → IsSound keeps cmp join code old
        → Goes stands cmp join f code old new slot c now (Ok progress)
        → Finds cmp old new slot c now progress }
    ensures installs { (keeps : Bool) (cmp : K → K → Ordering) (join : V → V → V) (f : Meanings K V I O) (code : K → ℕ)
        (old new : PartitionView K V I) (slot c : ℕ) (ask : Ask K V I) (now : ℕ)
        (result : Result (Progress K V I O R) Refused)
        → IsTrue keeps → IsSound keeps cmp join code old
        → Installs cmp f code old new slot c ask now result
        → OthersPend cmp old new slot c }
    ensures built { (cmp : K → K → Ordering) (join : V → V → V) (f : Meanings K V I O) (code : K → ℕ)
        (old new : PartitionView K V I) (slot c : ℕ) (ask : Ask K V I) (now : ℕ) (progress : Progress K V I O R)
        → Installs cmp f code old new slot c ask now (Ok progress)
        → Finds cmp old new slot c now progress }
    ensures refreshes { (keeps : Bool) (cmp : K → K → Ordering) (old new : PartitionView K V I) (slot now : ℕ)
        (result : Result (Unit {0}) Refused)
        → IsTrue keeps → Refreshes keeps old new slot now result → AllPend cmp old new }
    ensures shifts { (keeps : Bool) (cmp : K → K → Ordering) (old new : PartitionView K V I) (page now : ℕ)
        (result : Result (Unit {0}) Refused)
        → IsTrue keeps → Shifts keeps old new page now result → AllPend cmp old new }
    ensures evicts { (keeps : Bool) (cmp : K → K → Ordering) (old new : PartitionView K V I) (page now : ℕ)
        (result : Result (Unit {0}) Refused)
        → IsTrue keeps → Evicts keeps old new page now result → AllPend cmp old new }
    ensures flushes { (cmp : K → K → Ordering) (old new : PartitionView K V I) (s : Standing) (bytes : List ℕ) (now : ℕ)
        (result : Result (Unit {0}) Refused)
        → Flushes old new s bytes now result → AllPend cmp old new }
    ensures enters { (keeps : Bool) (cmp : K → K → Ordering) (join : V → V → V) (code : K → ℕ) (old new : PartitionView K V I) (now : ℕ)
        (result : Result ℕ Refused)
        → IsSound keeps cmp join code old → Enters old new now result → AllPend cmp old new }
    ensures leaves { (keeps : Bool) (cmp : K → K → Ordering) (old new : PartitionView K V I) (slot now : ℕ)
        (result : Result (Unit {0}) Refused)
        → IsTrue keeps → Leaves keeps old new slot now result → AllPend cmp old new }
    // an operation that was just issued has not looked yet
    ensures issues { (cmp : K → K → Ordering) (code : K → ℕ) (old new : PartitionView K V I) (slot c : ℕ) (op : KeyedOp K V I) (now : ℕ)
        → Issues code old new slot c op now → AllPend cmp old new }
    ensures gives_up { (cmp : K → K → Ordering) (old new : PartitionView K V I) (slot c now : ℕ)
        (result : Result (Unit {0}) Refused)
        → GivesUp old new slot c now result → OthersPend cmp old new slot c }
{
    records_grow::<K, V>();
    records_change::<K, V>();
    meetings_tell::<K, V>();
}

/// A load leaves what the others are to find; one that fails changes nothing, or ends the operation that it was for,
/// without effect.
pub fn loads_end<F: Mergeable, R: Receipt>()
    ensures loads { (old new : PartitionView F.Key F.Value F.Input) (slot c : ℕ) (came : Result (Joined R) Refused)
        (now : ℕ) (result : Result (Progress F.Key F.Value F.Input F.Output R) Refused)
        → Loads R.stands (IsEntryIn F.Key.codec F.Value.codec) F.Key.cmp F.parts.joined F.meaning old new slot c came now result
        → OthersPend F.Key.cmp old new slot c }
    ensures fails { (old new : PartitionView F.Key F.Value F.Input) (slot c : ℕ) (came : Result (Joined R) Refused)
        (now : ℕ) (why : Refused)
        → Loads R.stands (IsEntryIn F.Key.codec F.Value.codec) F.Key.cmp F.parts.joined F.meaning old new slot c came now (Err why)
        → (new ≡ old) ⊎ IsGiveUp old new slot c now }
{}

/// A merge asks for nothing: no event of it asks for a page or for a built value, nor waits until sessions with an older view
/// are refreshed, and it takes no value.
pub fn merges_ask_nothing<K, V, I, O, R>()
    ensures goes { (keeps : Bool) (stands : R → Standing) (cmp : K → K → Ordering) (join : V → V → V) (f : Meanings K V I O) (code : K → ℕ)
        (old new : PartitionView K V I) (slot c now : ℕ) (x : Context K V I) (progress : Progress K V I O R)
        → IsSound keeps cmp join code old
        → context_at old slot c ≡ Some x → is_merge x.op ≡ true
        → Goes stands cmp join f code old new slot c now (Ok progress)
        → AsksNothing progress }
    ensures installs { (keeps : Bool) (cmp : K → K → Ordering) (join : V → V → V) (f : Meanings K V I O) (code : K → ℕ)
        (old new : PartitionView K V I) (slot c : ℕ) (ask : Ask K V I) (now : ℕ) (x : Context K V I)
        (result : Result (Progress K V I O R) Refused)
        → IsSound keeps cmp join code old
        → context_at old slot c ≡ Some x → is_merge x.op ≡ true
        → Installs cmp f code old new slot c ask now result
        → result ≡ Err Refused.NotReady }
{}

/// A merge takes no page: it waits for none.
pub fn merges_take_no_page<F: Mergeable, R: Receipt>()
    ensures { (keeps : Bool) (join : F.Value → F.Value → F.Value) (code : F.Key → ℕ) (old new : PartitionView F.Key F.Value F.Input)
        (slot c : ℕ) (came : Result (Joined R) Refused) (now : ℕ) (x : Context F.Key F.Value F.Input)
        (result : Result (Progress F.Key F.Value F.Input F.Output R) Refused)
        → IsSound keeps F.Key.cmp join code old
        → context_at old slot c ≡ Some x → is_merge x.op ≡ true
        → Loads R.stands (IsEntryIn F.Key.codec F.Value.codec) F.Key.cmp join F.meaning old new slot c came now result
        → result ≡ Err Refused.NotReady }
{}
