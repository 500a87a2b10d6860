//! What holds of any regions. Each law is what a function without a body ensures.
ghost use Rattle.std.specs.Prelude.{◌≡◌, ◌^◌, ◌<◌, ◌≤◌, ℕ};
ghost use Rattle.fkv_records.specs.Places.{IsShape, IsRecordStart, page_at};
ghost use Rattle.fkv_regions.specs.RegionsView.{RegionsView};
ghost use Rattle.fkv_regions.specs.Agree.{IsRegions, IsByRegion};

/// However old the view of an entered session, what it calls mutable is not frozen, what it calls read-only or on
/// disk is frozen, and what it calls in memory is not closed.
pub fn by_region()
    ensures { IsByRegion }
{}

/// What is closed ends at a place, and is flushed.
pub fn closed_place()
    ensures place { (s : RegionsView) (size : ℕ) → IsShape s.bits size → IsRegions s
        → s.offsets.closed < 2 ^ 48
        → IsRecordStart s.bits size s.offsets.closed }
    ensures flushed { (s : RegionsView) → IsRegions s → page_at s.bits s.offsets.closed ≤ s.flushed }
{}
