//! What becomes of files that do not keep: a law with no code.
ghost use Rattle.std.specs.Prelude.{◌≡◌, Some, true, false};
ghost use Rattle.fkv_device.specs.Known.{Pages, HasCollision, are_kept};

/// Of files whose pages are known: they keep what they are given, or a page that was taken has the SHA-256 of another one that was
/// taken or came back, and not both.
pub fn files_keep_or_collide()
    ensures collide { (pages : Pages) → are_kept (Some pages) ≡ false → HasCollision pages }
    ensures keep { (pages : Pages) → are_kept (Some pages) ≡ true → ¬ (HasCollision pages) }
{}
