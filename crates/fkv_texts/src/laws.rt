//! What holds of every text. Each law is what a function without a body ensures.
ghost use Rattle.std.specs.Prelude.{◌≡◌, ◌≢◌, ◌==◌, ◌<◌, ◌≤◌, ◌↔◌, ℕ, Bool, false, List, [], ◌∷◌, ◌++◌, find};
ghost use Rattle.std.specs.Prelude.{Option, Some, IsSome, slice_get, if◌then◌else◌};
ghost use Rattle.std.specs.Option.{option_map};
ghost use Rattle.std.specs.declared.cmp.Ordering.{Ordering};
ghost use Rattle.fkv_functions.specs.Plain.{Same, with_at, IsKeyOrder};
ghost use Rattle.fkv_texts.specs.declared.entries.Entry.{Entry};
ghost use Rattle.fkv_texts.specs.Text.{entry_at, value_at, has_key, last_of, newest, live, IsRising, IsFrom, IsBelow};
ghost use Rattle.fkv_texts.specs.Text.{set_at, changed, text_from};
ghost use Rattle.fkv_texts.specs.Places.{IsLaidOut};
ghost use Rattle.fkv_texts.specs.WrongTexts.{LiveTakesTheLast, NewestLooksDown, LinksLeadBack, ChainsFall};
ghost use Rattle.fkv_texts.specs.WrongTexts.{HasEachPlace, ChangesOne, CutsBelow, LeadsThrough};
ghost use Rattle.fkv_texts.specs.Chains.{IsClassTest, last_of_class, Leads, IsChained, IsChainFrom, StandsAt, falling};
ghost use Rattle.fkv_texts.specs.Chains.{leads_to};

/// What a text says of each key and address once an entry is appended.
pub fn appended<K, V>()
    // it stands at its address, and what stood stays
    ensures new { (text : List (Entry K V)) (e : Entry K V) → entry_at (text ++ e ∷ []) e.address ≡ Some e }
    ensures old { (text : List (Entry K V)) (e : Entry K V) (a : ℕ) → a ≢ e.address
        → entry_at (text ++ e ∷ []) a ≡ entry_at text a }
    ensures value { (text : List (Entry K V)) (e : Entry K V) (a : ℕ)
        → value_at (text ++ e ∷ []) a ≡ (if e.address == a then e.value else value_at text a) }
    // it is the last of its key, and another key's last stays
    ensures last { (cmp : K → K → Ordering) (text : List (Entry K V)) (e : Entry K V) (k : K)
        → last_of cmp (text ++ e ∷ []) k ≡ (if has_key cmp k e then Some e else last_of cmp text k) }
    // its key gets its value, or none
    ensures live { (cmp : K → K → Ordering) (text : List (Entry K V)) (e : Entry K V)
        → Same (live cmp (text ++ e ∷ [])) (with_at cmp (live cmp text) e.key e.value) }
    // from its address on it is the newest of its key
    ensures newest_from { (cmp : K → K → Ordering) (text : List (Entry K V)) (e : Entry K V) (k : K) (a : ℕ)
        → e.address ≤ a
        → newest cmp (text ++ e ∷ []) k a ≡ (if has_key cmp k e then Some e else newest cmp text k a) }
    ensures newest_below { (cmp : K → K → Ordering) (text : List (Entry K V)) (e : Entry K V) (k : K) (a : ℕ)
        → a < e.address
        → newest cmp (text ++ e ∷ []) k a ≡ newest cmp text k a }
{}

/// What a text says of each key and address once the entry at an address has another value, or is a tombstone.
pub fn changed<K, V>()
    // the entry has it, and every other entry stays
    ensures here { (text : List (Entry K V)) (a : ℕ) (v : Option V) (e : Entry K V)
        → entry_at text a ≡ Some e
        → entry_at (changed text a v) a ≡ Some (record e { value = v }) }
    ensures elsewhere { (text : List (Entry K V)) (a : ℕ) (v : Option V) (b : ℕ)
        → b ≢ a
        → entry_at (changed text a v) b ≡ entry_at text b }
    ensures value { (text : List (Entry K V)) (a : ℕ) (v : Option V) (b : ℕ)
        → IsSome (entry_at text a)
        → value_at (changed text a v) b ≡ (if a == b then v else value_at text b) }
    // the entries stand where they stood
    ensures laid_out { (bits size begin tail : ℕ) (text : List (Entry K V)) (a : ℕ) (v : Option V)
        → IsLaidOut bits size begin tail text
        → IsLaidOut bits size begin tail (changed text a v) }
    ensures rising { (text : List (Entry K V)) (a : ℕ) (v : Option V)
        → IsRising text
        → IsRising (changed text a v) }
    ensures from { (begin : ℕ) (text : List (Entry K V)) (a : ℕ) (v : Option V)
        → IsFrom begin text
        → IsFrom begin (changed text a v) }
    ensures below { (tail : ℕ) (text : List (Entry K V)) (a : ℕ) (v : Option V)
        → IsBelow tail text
        → IsBelow tail (changed text a v) }
    // the last of a key, and the newest at an address, is the same entry, with this value where it stands there
    ensures last { (cmp : K → K → Ordering) (text : List (Entry K V)) (a : ℕ) (v : Option V) (k : K)
        → last_of cmp (changed text a v) k ≡ option_map (set_at a v) (last_of cmp text k) }
    ensures newest { (cmp : K → K → Ordering) (text : List (Entry K V)) (a : ℕ) (v : Option V) (k : K) (b : ℕ)
        → newest cmp (changed text a v) k b ≡ option_map (set_at a v) (newest cmp text k b) }
    // so it stays where it stands elsewhere
    ensures last_elsewhere { (cmp : K → K → Ordering) (text : List (Entry K V)) (a : ℕ) (v : Option V) (k : K)
        (e : Entry K V)
        → last_of cmp text k ≡ Some e
        → e.address ≢ a
        → last_of cmp (changed text a v) k ≡ Some e }
    ensures newest_elsewhere { (cmp : K → K → Ordering) (text : List (Entry K V)) (a : ℕ) (v : Option V) (k : K)
        (b : ℕ) (e : Entry K V)
        → newest cmp text k b ≡ Some e
        → e.address ≢ a
        → newest cmp (changed text a v) k b ≡ Some e }
    // and so do the newest below the address, and what is said of other keys
    ensures newest_below { (cmp : K → K → Ordering) (text : List (Entry K V)) (a : ℕ) (v : Option V) (k : K) (b : ℕ)
        → b < a
        → newest cmp (changed text a v) k b ≡ newest cmp text k b }
    ensures last_other { (cmp : K → K → Ordering) (text : List (Entry K V)) (a : ℕ) (v : Option V) (e : Entry K V)
        (k : K)
        → IsRising text
        → entry_at text a ≡ Some e
        → has_key cmp k e ≡ false
        → last_of cmp (changed text a v) k ≡ last_of cmp text k }
    ensures newest_other { (cmp : K → K → Ordering) (text : List (Entry K V)) (a : ℕ) (v : Option V) (e : Entry K V)
        (k : K) (b : ℕ)
        → IsRising text
        → entry_at text a ≡ Some e
        → has_key cmp k e ≡ false
        → newest cmp (changed text a v) k b ≡ newest cmp text k b }
    // where the entry is the last of its key, the key gets the value, or none
    ensures live { (cmp : K → K → Ordering) (text : List (Entry K V)) (a : ℕ) (v : Option V) (k : K) (e : Entry K V)
        → IsKeyOrder cmp
        → IsRising text
        → last_of cmp text k ≡ Some e
        → e.address ≡ a
        → Same (live cmp (changed text a v)) (with_at cmp (live cmp text) k v) }
{}

/// A text stays chained where an entry gets another value or becomes a tombstone: previous addresses lead where they
/// led, and what leads to the last entry of a class leads to it still.
pub fn changed_chains<K, V, C>()
    ensures kept { (class : K → C) (same : C → C → Bool) (begin : ℕ) (text : List (Entry K V)) (a : ℕ) (v : Option V)
        → IsChained class same begin text
        → IsChained class same begin (changed text a v) }
    ensures last { (class : K → C) (same : C → C → Bool) (text : List (Entry K V)) (a : ℕ) (v : Option V) (c : C)
        → last_of_class class same (changed text a v) c ≡ option_map (set_at a v) (last_of_class class same text c) }
    ensures leads { (class : K → C) (same : C → C → Bool) (begin : ℕ) (text : List (Entry K V)) (a : ℕ) (v : Option V)
        (c : C) (p : ℕ)
        → Leads begin (last_of_class class same text c) p
        → Leads begin (last_of_class class same (changed text a v) c) p }
{}

/// A text stays chained where an entry is appended whose previous address leads to the last entry of its
/// class. The chain from the last entry of a class has the entries of that class and no others, the last one
/// first; and the first of a key that it meets is the last entry of the key, or there is none.
pub fn chains<K, V, C>()
    ensures kept { (class : K → C) (same : C → C → Bool) (begin : ℕ) (text : List (Entry K V)) (e : Entry K V)
        → IsChained class same begin text → IsBelow e.address text
        → Leads begin (last_of_class class same text (class e.key)) e.previous
        → IsChained class same begin (text ++ e ∷ []) }
    ensures met { (class : K → C) (same : C → C → Bool) (begin : ℕ) (text : List (Entry K V)) (c : C) (a : ℕ)
        → IsClassTest same → IsRising text → IsFrom begin text → IsChained class same begin text
        → Leads begin (last_of_class class same text c) a
        → (es : List (Entry K V)) → IsChainFrom begin text a es ↔ (es ≡ falling class same text c) }
    ensures found { (cmp : K → K → Ordering) (class : K → C) (same : C → C → Bool)
        (begin : ℕ) (text : List (Entry K V)) (k : K) (a : ℕ)
        → IsKeyOrder cmp → IsClassTest same → IsRising text → IsFrom begin text → IsChained class same begin text
        → Leads begin (last_of_class class same text (class k)) a
        → (es : List (Entry K V)) → IsChainFrom begin text a es → find (has_key cmp k) es ≡ last_of cmp text k }
    // from any entry of a class, the first of a key of the class is the newest of the key there or below
    ensures found_from { (cmp : K → K → Ordering) (class : K → C) (same : C → C → Bool)
        (begin : ℕ) (text : List (Entry K V)) (k : K) (i : ℕ) (e : Entry K V)
        → IsKeyOrder cmp → IsClassTest same → IsRising text → IsFrom begin text → IsChained class same begin text
        → slice_get text i ≡ Some e
        → class e.key ≡ class k
        → (es : List (Entry K V)) → IsChainFrom begin text e.address es
        → find (has_key cmp k) es ≡ newest cmp text k e.address }
    // an entry appended behind a chain begins it
    ensures grown { (begin : ℕ) (text : List (Entry K V)) (e : Entry K V) (es : List (Entry K V))
        → IsChainFrom begin text e.previous es → begin ≤ e.address
        → IsChainFrom begin (text ++ e ∷ []) e.address (e ∷ es) }
    // a reader goes along it from entry to entry, and ends below Begin
    ensures stands { (begin : ℕ) (text : List (Entry K V)) (a : ℕ) (es : List (Entry K V)) → IsRising text
        → IsChainFrom begin text a es → begin ≤ a → StandsAt begin text a es }
    ensures ends { (begin : ℕ) (text : List (Entry K V)) (a : ℕ) (es : List (Entry K V))
        → IsChainFrom begin text a es → a < begin → es ≡ [] }
{}

/// What a text that begins higher still says. A chained text stays chained, and what leads to the last entry of a class
/// leads to it still, or below where the text begins then.
pub fn cut<K, V, C>()
    ensures entry { (a b : ℕ) (text : List (Entry K V))
        → a ≤ b
        → entry_at (text_from a text) b ≡ entry_at text b }
    ensures rising { (a : ℕ) (text : List (Entry K V)) → IsRising text → IsRising (text_from a text) }
    ensures from { (a : ℕ) (text : List (Entry K V)) → IsFrom a (text_from a text) }
    ensures below { (tail a : ℕ) (text : List (Entry K V)) → IsBelow tail text → IsBelow tail (text_from a text) }
    // nothing is left out where the text begins no lower
    ensures whole { (a : ℕ) (text : List (Entry K V)) → IsFrom a text → text_from a text ≡ text }
    ensures chained { (class : K → C) (same : C → C → Bool) (begin a : ℕ) (text : List (Entry K V))
        → IsRising text → begin ≤ a
        → IsChained class same begin text
        → IsChained class same a (text_from a text) }
    ensures leads { (class : K → C) (same : C → C → Bool) (begin a : ℕ) (text : List (Entry K V)) (c : C) (b : ℕ)
        → IsRising text → begin ≤ a
        → Leads begin (last_of_class class same text c) b
        → Leads a (last_of_class class same (text_from a text) c) b }
{}

/// A chain in parts: its entries from an address on, and those below it, which are the chain from where the upper ones
/// lead.
pub fn parts<K, V>()
    ensures split { (begin a : ℕ) (text : List (Entry K V)) (from : ℕ) (es : List (Entry K V))
        → begin ≤ a
        → IsRising text
        → IsChainFrom begin text from es
        → (upper lower : List (Entry K V))
        → IsChainFrom a text from upper
        → IsChainFrom begin text (leads_to from upper) lower
        → es ≡ upper ++ lower }
    // there are such parts
    ensures upper { (begin a : ℕ) (text : List (Entry K V)) (from : ℕ) (es : List (Entry K V))
        → begin ≤ a
        → IsChainFrom begin text from es
        → (upper : List (Entry K V)) × IsChainFrom a text from upper }
    ensures lower { (begin a : ℕ) (text : List (Entry K V)) (from : ℕ) (es upper : List (Entry K V))
        → begin ≤ a
        → IsRising text
        → IsChainFrom begin text from es
        → IsChainFrom a text from upper
        → (lower : List (Entry K V)) × IsChainFrom begin text (leads_to from upper) lower }
{}

/// What the definitions of a text refuse, shown on small texts.
pub fn wrong_texts()
    ensures live { LiveTakesTheLast }
    ensures newest { NewestLooksDown }
    ensures links { LinksLeadBack }
    ensures chains { ChainsFall }
    ensures places { HasEachPlace }
    ensures changed { ChangesOne }
    ensures cut { CutsBelow }
    ensures leads { LeadsThrough }
{}
