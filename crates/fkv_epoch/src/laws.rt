//! What holds whatever the calls. Each law is what a function without a body ensures.
ghost use Rattle.std.specs.Prelude.{◌≡◌, ◌↔◌, ℕ, Bool, true, List, Option};
ghost use Rattle.fkv_epoch.specs.declared.actions.Action.{Action};
ghost use Rattle.fkv_epoch.specs.declared.calls.Call.{Call};
ghost use Rattle.fkv_epoch.specs.Runs.{IsOnceInOrder};
ghost use Rattle.fkv_epoch.specs.SafeEpoch.{IsSafeEpoch, is_safe_epoch};
ghost use Rattle.fkv_epoch.specs.Seen.{IsSeenFirst};

/// The test for a safe epoch tells exactly whether each entered slot's epoch is greater.
pub fn safe_by_test()
    ensures { (slots : List (Option ℕ)) (c : ℕ) → (is_safe_epoch slots c ≡ true) ↔ IsSafeEpoch slots c }
{}

/// Over any list of calls on new epochs, each action comes out once, in the order in which they were put
/// in, and at the first bump, refresh or leave after which its epoch is safe.
pub fn once_in_order()
    ensures { (calls : List Call) → IsOnceInOrder calls }
{}

/// Where a session that enters or refreshes sees all that waits, an action comes out only once every
/// session has seen it.
pub fn seen_first()
    ensures { (seen now : ℕ → Action → Bool) → IsSeenFirst seen now }
{}
