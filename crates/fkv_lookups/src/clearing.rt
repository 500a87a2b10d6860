//! Which records may be dropped: those that say nothing of their keys any more. Each law is what a function without a
//! body ensures.
//!
//! A text is cleared up to an address where each record below is superseded. Whoever copies each record that is not to the
//! tail, the lowest first, clears the text so far; and once it is cleared, dropping what lies below takes no key's
//! value.
ghost use Rattle.std.specs.Prelude.{◌≡◌, ◌<◌, ◌≤◌, ℕ, Bool, Option, Some};
ghost use Rattle.std.specs.declared.cmp.Ordering.{Ordering};
ghost use Rattle.fkv_functions.specs.Plain.{Same, IsKeyOrder};
ghost use Rattle.fkv_records.specs.Places.{IsRecordStart};
ghost use Rattle.fkv_texts.specs.declared.entries.Entry.{Entry};
ghost use Rattle.fkv_texts.specs.Places.{tail_after};
ghost use Rattle.fkv_texts.specs.Text.{entry_at, value_of, newest, live, text_from};
ghost use Rattle.fkv_operations.specs.declared.entries.IndexEntry.{IndexEntry};
ghost use Rattle.fkv_texts.specs.Deltas.{resolved, IsCovered, IsSuperseded, IsCleared};
ghost use Rattle.fkv_lookups.specs.RecordsViews.{RecordsView, with_record, with_value, with_written};
ghost use Rattle.fkv_lookups.specs.declared.payloads.Payload.{Payload};
ghost use Rattle.fkv_lookups.specs.Traced.{IsTraced, IsResolved};
ghost use Rattle.fkv_lookups.specs.WrongCleared.{LastIsNotSuperseded, TombstoneIsSuperseded, ClearsNoLast};

/// What is cleared stays so, whatever is done above; how it is cleared further; and what dropping it leaves.
pub fn cleared_stay<K, V>()
    // a record is appended
    ensures appended { (cmp : K → K → Ordering) (v : RecordsView K V) (entry : IndexEntry) (key : K) (payload : Payload V)
        (has : Option V) (limit : ℕ)
        → limit ≤ v.log.tail
        → IsCleared cmp v.log.text limit
        → IsCleared cmp (with_written v entry key payload has).log.text limit }
    // a record above gets another value, or becomes a tombstone
    ensures changed { (cmp : K → K → Ordering) (v : RecordsView K V) (a : ℕ) (value : Option V) (limit : ℕ)
        → limit ≤ a
        → IsCleared cmp v.log.text limit
        → IsCleared cmp (with_value v a value).log.text limit }
    // records below an address are dropped
    ensures dropped { (cmp : K → K → Ordering) (v : RecordsView K V) (low limit : ℕ)
        → IsCleared cmp v.log.text limit
        → IsCleared cmp (text_from low v.log.text) limit }
    // where the record at the limit is superseded too, the limit goes on to the next place
    ensures raised { (keeps : Bool) (cmp : K → K → Ordering) (join : V → V → V) (code : K → ℕ) (v : RecordsView K V)
        (limit : ℕ)
        → IsTraced keeps code v → IsResolved cmp join v
        → IsRecordStart v.log.bits v.record_size limit
        → limit < v.log.tail
        → IsCleared cmp v.log.text limit
        → ((e : Entry K V) → entry_at v.log.text limit ≡ Some e → IsSuperseded cmp v.log.text e)
        → IsCleared cmp v.log.text (tail_after v.log.bits v.record_size limit) }
    // a record is superseded once a value of its key is appended
    ensures renewed { (keeps : Bool) (cmp : K → K → Ordering) (join : V → V → V) (code : K → ℕ) (v : RecordsView K V)
        (entry : IndexEntry) (limit : ℕ) (e : Entry K V) (value : Option V)
        → IsKeyOrder cmp → IsTraced keeps code v → IsResolved cmp join v
        → entry_at v.log.text limit ≡ Some e
        → IsSuperseded cmp (with_record v entry e.key value).log.text e }
    // and where its key has that value, no key's value changes by that
    ensures kept { (cmp : K → K → Ordering) (v : RecordsView K V) (entry : IndexEntry) (key : K) (value : Option V)
        → IsKeyOrder cmp
        → live cmp v.text key ≡ value
        → Same (live cmp (with_record v entry key value).text) (live cmp v.text) }
    // what a record says that is not superseded, where all below it are, is what its key has there
    ensures lowest { (keeps : Bool) (cmp : K → K → Ordering) (join : V → V → V) (code : K → ℕ) (v : RecordsView K V)
        (e : Entry K V)
        → IsKeyOrder cmp → IsTraced keeps code v → IsResolved cmp join v
        → entry_at v.log.text e.address ≡ Some e
        → IsCleared cmp v.log.text e.address
        → (IsCovered cmp v.log.text e → ⊥)
        → value_of (newest cmp v.text e.key e.address) ≡ e.value }
    // no key's value goes with what is dropped where the text is cleared
    ensures lives { (keeps : Bool) (cmp : K → K → Ordering) (join : V → V → V) (code : K → ℕ) (v : RecordsView K V)
        (low limit : ℕ)
        → IsKeyOrder cmp → IsTraced keeps code v → IsResolved cmp join v
        → IsCleared cmp v.log.text limit
        → low ≤ limit
        → Same (live cmp (resolved cmp join (text_from low v.log.text))) (live cmp v.text) }
{}

/// What is superseded and cleared, and what is not, shown on small texts.
pub fn wrong_cleared()
    ensures last { LastIsNotSuperseded }
    ensures tombstone { TombstoneIsSuperseded }
    ensures cleared { ClearsNoLast }
{}
