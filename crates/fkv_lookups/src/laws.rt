//! What the records of a partition say of each key, and what an appended record changes of it.
//! Each law is what a function without a body ensures.
ghost use Rattle.std.specs.Prelude.{◌≡◌, ◌<◌, ◌≤◌, ◌⊎◌, ℕ, Bool, true, IsTrue, Option, Some, None};
ghost use Rattle.std.specs.declared.cmp.Ordering.{Ordering};
ghost use Rattle.fkv_functions.specs.Plain.{Same, with_at, IsKeyOrder};
ghost use Rattle.fkv_epoch.specs.Moves.{is_entered};
ghost use Rattle.fkv_regions.specs.declared.offsets.Region.TheVariants as region;
ghost use Rattle.fkv_regions.specs.Offsets.{view_at};
ghost use Rattle.fkv_texts.specs.declared.entries.Entry.{Entry};
ghost use Rattle.fkv_texts.specs.Text.{entry_at, has_key, value_of, last_of, newest, live};
ghost use Rattle.fkv_texts.specs.Chains.{IsIn};
ghost use Rattle.fkv_texts.specs.Deltas.{combined};
ghost use Rattle.fkv_index.specs.Words.{address_of};
ghost use Rattle.fkv_operations.specs.declared.classes.Class.{Class};
ghost use Rattle.fkv_operations.specs.declared.entries.IndexEntry.{IndexEntry};
ghost use Rattle.fkv_operations.specs.KeptWords.{IsLed};
ghost use Rattle.fkv_lookups.specs.declared.decisions.LookupResult.TheVariants.{NoValue, ReadOnly, Fuzzy, Mutable, OnDisk};
ghost use Rattle.fkv_lookups.specs.Decisions.{IsHeld};
ghost use Rattle.fkv_lookups.specs.declared.chain_results.ChainResult.{ChainResult};
ghost use Rattle.fkv_lookups.specs.declared.payloads.Payload.{Payload};
ghost use Rattle.fkv_lookups.specs.Lookups.{newest_above, looked_up, IsOfClass, ComesTo, StartsAt, end_of, at_of};
ghost use Rattle.fkv_lookups.specs.Meeting.{met_at, IsMetAt, IsWanted};
ghost use Rattle.fkv_lookups.specs.RecordsViews.{RecordsView, class_in, indexed, entry_of, IsEntryOf, IsReplaceable, with_value, with_written};
ghost use Rattle.fkv_lookups.specs.Traced.{IsTraced, IsResolved};
ghost use Rattle.fkv_operations.specs.Still.{IsStill};

use fkv_regions::laws::by_region;

/// What the entry of a key's class says of the key.
pub fn entries_lead<K, V>()
    // an entry that stands as that of a class leads where its word says
    ensures found { (keeps : Bool) (code : K → ℕ) (v : RecordsView K V) (c : Class) (e : IndexEntry)
        → IsTraced keeps code v → IsEntryOf v c e → entry_of v c ≡ Some (address_of e.word) }
    // all records of the key stand at or below it
    ensures held { (cmp : K → K → Ordering) (keeps : Bool) (code : K → ℕ) (v : RecordsView K V) (k : K) (a : ℕ)
        → IsKeyOrder cmp → IsTraced keeps code v → entry_of v (class_in code v k) ≡ Some a
        → newest cmp v.text k a ≡ last_of cmp v.text k }
    // where there is none, the key has no record
    ensures none { (cmp : K → K → Ordering) (keeps : Bool) (code : K → ℕ) (v : RecordsView K V) (k : K)
        → IsKeyOrder cmp → IsTraced keeps code v → entry_of v (class_in code v k) ≡ None
        → last_of cmp v.text k ≡ None }
    ensures low { (keeps : Bool) (code : K → ℕ) (v : RecordsView K V) (c : Class) (a : ℕ)
        → IsTraced keeps code v → entry_of v c ≡ Some a → a < v.log.tail }
    // so it is of every entry that stands in the index
    ensures led { (cmp : K → K → Ordering) (keeps : Bool) (code : K → ℕ) (v : RecordsView K V)
        → IsKeyOrder cmp → IsTraced keeps code v → IsLed cmp (class_in code v) (indexed v) }
{}

/// What changes once a record is appended, by which its key has this value, or none.
pub fn records_grow<K, V>()
    // what is newest at or below an address that is taken stays
    ensures kept { (cmp : K → K → Ordering) (v : RecordsView K V) (e : IndexEntry) (key : K) (payload : Payload V) (has : Option V)
        (k : K) (a : ℕ) → a < v.log.tail
        → newest cmp (with_written v e key payload has).text k a ≡ newest cmp v.text k a }
    // the key gets its value, or none
    ensures lives { (cmp : K → K → Ordering) (v : RecordsView K V) (e : IndexEntry) (key : K) (payload : Payload V) (has : Option V)
        → Same (live cmp (with_written v e key payload has).text) (with_at cmp (live cmp v.text) key has) }
    // what is frozen stays
    ensures frozen { (keeps : Bool) (code : K → ℕ) (v : RecordsView K V) (e : IndexEntry) (key : K) (payload : Payload V)
        (has : Option V) (a : ℕ)
        → IsTraced keeps code v → a < v.log.regions.offsets.safe_read_only
        → entry_at (with_written v e key payload has).log.text a ≡ entry_at v.log.text a }
{}

/// What changes once the record at an address, which has a value, is no delta and is not frozen, has another value or is a
/// tombstone.
pub fn records_change<K, V>()
    // the newest record of a key at or below an address stays where it is still
    ensures kept { (cmp : K → K → Ordering) (keeps : Bool) (code : K → ℕ) (v : RecordsView K V) (a : ℕ) (value : Option V) (k : K) (b : ℕ)
        → IsTraced keeps code v → IsReplaceable cmp v a → v.log.regions.offsets.safe_read_only ≤ a
        → IsStill v.log.regions.offsets.safe_read_only (newest cmp v.text k b)
        → newest cmp (with_value v a value).text k b ≡ newest cmp v.text k b }
    // where it is the last of its key, the key gets the value, or none
    ensures lives { (cmp : K → K → Ordering) (keeps : Bool) (code : K → ℕ) (v : RecordsView K V) (value : Option V) (k : K) (e : Entry K V)
        → IsKeyOrder cmp → IsTraced keeps code v → last_of cmp v.text k ≡ Some e
        → Same (live cmp (with_value v e.address value).text) (with_at cmp (live cmp v.text) k value) }
    // what is frozen stays
    ensures frozen { (v : RecordsView K V) (a : ℕ) (value : Option V) (b : ℕ)
        → v.log.regions.offsets.safe_read_only ≤ a → b < v.log.regions.offsets.safe_read_only
        → entry_at (with_value v a value).log.text b ≡ entry_at v.log.text b }
{}

/// What a look-up comes to, from the entry of the key's class down to an address at or above which the text has begun.
pub fn lookups_tell<K, V>()
    ensures goes { (keeps : Bool) (cmp : K → K → Ordering) (join : V → V → V) (code : K → ℕ) (v : RecordsView K V) (k : K) (low a : ℕ)
        → IsKeyOrder cmp → IsTraced keeps code v → IsResolved cmp join v
        → v.log.from ≤ low
        → entry_of v (class_in code v k) ≡ Some a
        → ComesTo cmp join code v k low a None (looked_up cmp join code v low k a) }
    // what the key has at the address, joined with the parts from above, is what it has at the end, joined with all of them
    ensures values { (keeps : Bool) (cmp : K → K → Ordering) (join : V → V → V) (code : K → ℕ) (v : RecordsView K V) (k : K) (low a : ℕ)
        (parts : Option V) (r : ChainResult K V)
        → IsKeyOrder cmp → IsTraced keeps code v → IsResolved cmp join v
        → v.log.from ≤ low
        → (v.log.from ≤ a → IsOfClass code v k a)
        → ComesTo cmp join code v k low a parts r
        → combined join (value_of (newest cmp v.text k a)) parts ≡ combined join (end_of cmp v k r.position) r.parts }
    // the key's records on the way are deltas, but the one at the end
    ensures between { (keeps : Bool) (cmp : K → K → Ordering) (join : V → V → V) (code : K → ℕ) (v : RecordsView K V) (k : K) (low a : ℕ)
        (parts : Option V) (r : ChainResult K V)
        → IsKeyOrder cmp → IsTraced keeps code v → IsResolved cmp join v
        → v.log.from ≤ low
        → (v.log.from ≤ a → IsOfClass code v k a)
        → ComesTo cmp join code v k low a parts r
        → (e : Entry K V) → IsIn v.log.text e → has_key cmp k e ≡ true → e.address ≤ a
        → (at_of r.position < e.address) → e.delta ≡ true }
    // where the last record of the key that is read is no delta, it is what the look-up comes to; else parts are collected
    ensures first { (keeps : Bool) (cmp : K → K → Ordering) (join : V → V → V) (code : K → ℕ) (v : RecordsView K V) (k : K) (low a : ℕ)
        → IsKeyOrder cmp → IsTraced keeps code v → IsResolved cmp join v
        → entry_of v (class_in code v k) ≡ Some a
        → v.log.from ≤ low
        → StartsAt (newest_above cmp code v low k a) (looked_up cmp join code v low k a) }
{}

/// What a session meets says of the last record of a key, however old the session's view.
pub fn meetings_tell<K, V>()
    // what is met is what the key holds, unless a page has to be loaded
    ensures held { (keeps : Bool) (cmp : K → K → Ordering) (join : V → V → V) (code : K → ℕ) (v : RecordsView K V) (k : K) (slot : ℕ)
        → IsKeyOrder cmp → IsTraced keeps code v → IsResolved cmp join v → IsTrue (is_entered v.log.regions.epochs slot)
        → IsHeld (met_at cmp join code v (view_at v.log.regions.views slot) k) (value_of (last_of cmp v.text k)) }
    // what is mutable is not frozen
    ensures mutable { (keeps : Bool) (cmp : K → K → Ordering) (join : V → V → V) (code : K → ℕ) (v : RecordsView K V) (k : K) (slot : ℕ) (w : V)
        → IsKeyOrder cmp → IsTraced keeps code v → IsResolved cmp join v → IsTrue (is_entered v.log.regions.epochs slot)
        → met_at cmp join code v (view_at v.log.regions.views slot) k ≡ Mutable w
        → IsMetAt cmp join code v (view_at v.log.regions.views slot) k w region.Mutable }
    ensures unfrozen { (keeps : Bool) (cmp : K → K → Ordering) (join : V → V → V) (code : K → ℕ) (v : RecordsView K V) (k : K) (slot : ℕ) (w : V)
        → IsTraced keeps code v → IsResolved cmp join v → IsTrue (is_entered v.log.regions.epochs slot)
        → (m : IsMetAt cmp join code v (view_at v.log.regions.views slot) k w region.Mutable)
        → v.log.regions.offsets.safe_read_only ≤ m.entry.address }
    ensures fuzzy { (keeps : Bool) (cmp : K → K → Ordering) (join : V → V → V) (code : K → ℕ) (v : RecordsView K V) (k : K) (slot : ℕ) (w : V)
        → IsKeyOrder cmp → IsTraced keeps code v → IsResolved cmp join v → IsTrue (is_entered v.log.regions.epochs slot)
        → met_at cmp join code v (view_at v.log.regions.views slot) k ≡ Fuzzy w
        → IsMetAt cmp join code v (view_at v.log.regions.views slot) k w region.Fuzzy }
    // no value, or a read-only one, is still
    ensures still { (keeps : Bool) (cmp : K → K → Ordering) (join : V → V → V) (code : K → ℕ) (v : RecordsView K V) (k : K) (slot : ℕ)
        → IsKeyOrder cmp → IsTraced keeps code v → IsResolved cmp join v → IsTrue (is_entered v.log.regions.epochs slot)
        → (met_at cmp join code v (view_at v.log.regions.views slot) k ≡ NoValue)
        ⊎ ((w : V) × (met_at cmp join code v (view_at v.log.regions.views slot) k ≡ ReadOnly w))
        → IsStill v.log.regions.offsets.safe_read_only (last_of cmp v.text k) }
    // what lies on disk is wanted from there
    ensures wanted { (keeps : Bool) (cmp : K → K → Ordering) (join : V → V → V) (code : K → ℕ) (v : RecordsView K V) (k : K) (slot b : ℕ)
        (parts : Option V)
        → IsKeyOrder cmp → IsTraced keeps code v → IsResolved cmp join v → IsTrue (is_entered v.log.regions.epochs slot)
        → met_at cmp join code v (view_at v.log.regions.views slot) k ≡ OnDisk b parts
        → IsWanted cmp join code v k b parts }
{
    by_region();
}
