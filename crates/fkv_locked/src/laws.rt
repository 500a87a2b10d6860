//! What holds of events under a lock, one after the other. Each law is what a function without a body ensures.
ghost use Rattle.std.specs.Prelude.{◌≡◌, ℕ, Bool};
ghost use Rattle.fkv_histories.specs.declared.entries.Entry.{Entry};
ghost use Rattle.fkv_locked.specs.declared.open_operations.OpenOperation.{OpenOperation};
ghost use Rattle.fkv_locked.specs.Locks.{LockedView, noted};
ghost use Rattle.fkv_locked.specs.Marks.{IsOpenFrom, mark_of};
ghost use Rattle.fkv_locked.specs.Turns.{Adds};

/// The mark of an operation stays for as long as it is open, whatever events come. So an entry's `low` is how many updates stood
/// at the operation's issue, where the issue marked so many.
pub fn marks_stay<K, V, I, O>()
    ensures stays { (operation : OpenOperation K V I) (start end : LockedView K V I O) → IsOpenFrom operation start end
        → mark_of operation end ≡ mark_of operation start }
    ensures low { (operation : OpenOperation K V I) (issued last end : LockedView K V I O) (e : Entry K V I O) (keeps : Bool) (count at : ℕ)
        → mark_of operation issued ≡ count
        → IsOpenFrom operation issued last
        → Adds keeps at (noted last) (noted end) operation e
        → e.low ≡ count }
{}
