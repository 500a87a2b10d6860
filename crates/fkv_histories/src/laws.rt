//! What holds of histories. Each law is what a function without a body ensures.
ghost use Rattle.std.specs.Prelude.{◌≡◌, true, length, List, [], ◌∷◌, ◌++◌};
ghost use Rattle.std.specs.declared.cmp.Ordering.{Ordering};
ghost use Rattle.fkv_functions.specs.Meanings.{Meanings};
ghost use Rattle.fkv_operations.specs.After.{after};
ghost use Rattle.fkv_histories.specs.declared.entries.Entry.{Entry};
ghost use Rattle.fkv_histories.specs.Histories.{is_update_entry, updates, map_of, IsPlaced, IsLegal};
ghost use Rattle.fkv_histories.specs.WrongHistories.{RefusesInvented, RefusesMisplaced, RefusesSharedPlaces, RefusesOtherTimes};
ghost use Rattle.fkv_histories.specs.WrongHistories.{RefusesUnequal, RefusesSharedSessions, RefusesOtherOrder, TakesTurns};

/// A history of nothing is legal. It stays so with one operation more, placed among the updates so far and completed now,
/// an update behind all of them; and then it makes of the empty map what the operation makes of the map before.
pub fn histories_grow<K, V, I, O>()
    ensures empty { (cmp : K → K → Ordering) (f : Meanings K V I O) → IsLegal cmp f [] }
    ensures more { (cmp : K → K → Ordering) (f : Meanings K V I O) (es : List (Entry K V I O)) (e : Entry K V I O)
        → IsLegal cmp f es
        → (is_update_entry e ≡ true → e.at ≡ length (updates es))
        → e.high ≡ length (updates es)
        → IsPlaced cmp f (updates es) e
        → IsLegal cmp f (es ++ e ∷ []) }
    ensures map { (cmp : K → K → Ordering) (f : Meanings K V I O) (es : List (Entry K V I O)) (e : Entry K V I O)
        → map_of cmp f (updates (es ++ e ∷ [])) ≡ after cmp f (map_of cmp f (updates es)) e.op }
{}

/// Legal histories have no invented answer, no answer of another place, no two updates at one place, and no place outside an
/// operation's times. A merge leaves nothing out, adds nothing, changes no entry, no order and no session's owner; sessions
/// may take turns.
pub fn wrong_histories()
    ensures invented { RefusesInvented }
    ensures misplaced { RefusesMisplaced }
    ensures shared_places { RefusesSharedPlaces }
    ensures times { RefusesOtherTimes }
    ensures unequal { RefusesUnequal }
    ensures shared_sessions { RefusesSharedSessions }
    ensures order { RefusesOtherOrder }
    ensures turns { TakesTurns }
{}
