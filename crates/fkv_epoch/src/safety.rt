//! Which epochs are safe, and what is due then, over the plain parts of the table.
ghost use Rattle.std.specs.Prelude.{◌≡◌, ◌≤◌, length, not, take, drop};
ghost use Rattle.std.specs.List.{filter, prefix_len};
ghost use Rattle.fkv_epoch.specs.SafeEpoch.{is_safe_epoch};
ghost use Rattle.fkv_epoch.specs.Due.{actions_of};
ghost use Rattle.fkv_epoch.specs.Timely.{IsRising};

use crate::actions::{Due, ROOM, Waiting};
use arrayvec::ArrayVec;

/// Takes what waits for a safe epoch off the list.
pub(crate) fn take_due(slots: &[Option<u64>], waiting: &mut ArrayVec<Waiting, ROOM>) -> Due
    requires { IsRising waiting.old.items }
    ensures due { result.items ≡ actions_of (filter (λ w. is_safe_epoch slots.now w.epoch) waiting.old.items) }
    ensures left { waiting.new.items ≡ filter (λ w. not (is_safe_epoch slots.now w.epoch)) waiting.old.items }
{
    let count = count_due(slots, waiting);
    take_first(waiting, count)
}

/// How many actions are due: they stand first, since epochs rise along the list.
fn count_due(slots: &[Option<u64>], waiting: &[Waiting]) -> usize
    ensures count { result ≡ prefix_len (λ w. is_safe_epoch slots.now w.epoch) waiting.now }
    ensures most { result ≤ length waiting.now }
{
    waiting
        .iter()
        .take_while(|one| is_safe(slots, one.epoch))
        .count()
}

/// Whether each entered slot's epoch is greater.
fn is_safe(slots: &[Option<u64>], epoch: u64) -> bool
    ensures { result ≡ is_safe_epoch slots.now epoch }
{
    slots
        .iter()
        .all(|slot| slot.map_or(true, |entered| epoch < entered))
}

/// Takes the first actions off the list.
fn take_first(waiting: &mut ArrayVec<Waiting, ROOM>, count: usize) -> Due
    requires there { count ≤ length waiting.old.items }
    requires room { count ≤ 16 }
    ensures taken { result.items ≡ actions_of (take count waiting.old.items) }
    ensures left { waiting.new.items ≡ drop count waiting.old.items }
{
    let mut due = Due::new();
    for one in waiting.drain(..count) {
        due.push(one.action);
    }
    due
}
