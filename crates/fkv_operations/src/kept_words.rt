//! Words of the index that are kept from one event to a later one. The law is what a function without a body ensures.
ghost use Rattle.std.specs.Prelude.{◌≡◌, ◌<◌, ℕ, List, None};
ghost use Rattle.std.specs.declared.cmp.Ordering.{Ordering};
ghost use Rattle.fkv_texts.specs.Text.{last_of, live};
ghost use Rattle.fkv_index.specs.Words.{address_of};
ghost use Rattle.fkv_operations.specs.declared.classes.Class.{Class};
ghost use Rattle.fkv_operations.specs.declared.entries.IndexEntry.{IndexEntry};
ghost use Rattle.fkv_operations.specs.KeptWords.{IndexedText, IsFound, IsLed, ReuseNoAddress, after_last};
ghost use Rattle.fkv_operations.specs.Still.{IsStill};

/// An entry that was kept is sound wherever its place holds the kept word, since an address is never used again.
pub fn kept_words_are_sound<K, V>()
    // an entry that leads to address 1, or below Begin, says that the keys of its class have no record
    ensures nowhere { (cmp : K → K → Ordering) (class : K → Class) (v : IndexedText K V) (k : K) (e : IndexEntry)
        → IsLed cmp class v → IsFound class v k e → address_of e.word < v.begin → last_of cmp v.text k ≡ None }
    // an entry was found, where the last record of its key is none that is changed in place: if the place holds that
    // word after any number of events, then the key has the value it had, although the entry was swept and made again
    ensures kept { (cmp : K → K → Ordering) (class : K → Class) (v : IndexedText K V) (vs : List (IndexedText K V)) (k : K)
        (e : IndexEntry)
        → IsLed cmp class v → ReuseNoAddress cmp class v vs
        → IsFound class v k e → IsStill v.frozen (last_of cmp v.text k)
        → IsFound class (after_last v vs) k e
        → live cmp (after_last v vs).text k ≡ live cmp v.text k }
{}
