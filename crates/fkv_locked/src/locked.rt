//! A partition under a lock, its beginning and its end.
ghost use Rattle.std.specs.Prelude.{◌≡◌, ◌+◌, ◌-◌, ◌^◌, true, None, IsTrue, IfSome};
ghost use Rattle.fkv_partition.specs.KeySound.{IsSound};
ghost use Rattle.fkv_partition.specs.Sound.{IsCompacting};
ghost use Rattle.fkv_locked.specs.Kept.{seen, IsFaithful, IsEnded};

use fkv_device::Receipt;
use fkv_functions::Mergeable;
use fkv_histories::{EntryOf, Recorder};
use fkv_operations::Clock;
use fkv_partition::Partition;
use std::alloc::Global;
use std::marker::Model;

/// A partition with all that its callers share: its clock, the history of what was finished there, how many updates stood
/// at the issue and at the last look-up of each context, how many operations were finished (the book), and how many
/// sessions were entered.
#[derive(Drop)]
pub struct Locked<F: Mergeable, R: Receipt, H: Recorder<F>> {
    pub(crate) partition: Partition<F, R>,
    pub(crate) history: H,
    pub(crate) lows: Vec<u64>,
    pub(crate) looks: Vec<u64>,
    pub(crate) clock: Clock,
    pub(crate) book: u64,
    pub(crate) enters: u64,
}

impl<F: Mergeable, R: Receipt, H: Recorder<F>> Model for Locked<F, R, H> {
    ghost use Rattle.std.specs.Prelude.{◌≡◌, ◌≤◌, true, IsTrue, length};
    ghost use Rattle.fkv_locked.specs.Locks.{LockedView};
    ghost use Rattle.fkv_locked.specs.Kept.{seen, IsFaithful};

    ghost Value = { LockedView F.Key F.Value F.Input F.Output };

    ghost view = { λ l. record {
      partition = l.partition;
      entries = H.entries l.history;
      count = H.count l.history;
      lows = l.lows.items;
      looks = l.looks.items;
      clock = l.clock;
      book = l.book;
      enters = l.enters;
    } };

    ghost invariant = { λ l. (l.partition.moment ≤ l.clock)
        × (length l.lows.items ≡ 128)
        × (length l.looks.items ≡ 128)
        × (H.keeps ≡ true → IsTrue R.keeps
        → IsFaithful F.Key.cmp F.meaning (seen F.Key.cmp l.partition) (H.entries l.history) l.lows.items l.looks.items
        l.book) };
}

/// The moment after the last one, or none where that is 2^64 - 1.
pub(crate) fn next_moment(clock: &Clock) -> Option<u64>
    ensures some { IfSome result (λ now. now ≡ clock.now + 1) }
    ensures none { result ≡ None → clock.now ≡ 2 ^ 64 - 1 }
{
    clock.last().checked_add(1)
}

/// What is left of a locked partition at its end.
#[derive(Drop)]
pub struct EndedPartition<F: Mergeable, R: Receipt> {
    pub partition: Partition<F, R>,
    pub history: Vec<EntryOf<F>>,
    pub book: u64,
}

impl<F: Mergeable, R: Receipt, H: Recorder<F>> Locked<F, R, H> {
    /// What holds whenever the lock is free. It does nothing when it runs.
    pub fn facts(&self)
        ensures sound { IsSound R.keeps F.Key.cmp F.parts.joined F.code self.now.partition }
        ensures compacting { IsCompacting R.keeps F.Key.cmp F.parts.joined F.code self.now.partition }
        ensures kept { H.keeps ≡ true → IsTrue R.keeps → IsFaithful F.Key.cmp F.meaning (seen F.Key.cmp self.now.partition)
            self.now.entries self.now.lows self.now.looks self.now.book }
    {
        self.partition.facts();
    }

    /// Ends it: the partition as it was, its history, and its book.
    pub fn end(self, alloc: Global) -> EndedPartition<F, R>
        ensures kept { H.keeps ≡ true → IsTrue R.keeps → IsEnded F.Key.cmp F.meaning (seen F.Key.cmp result.partition)
            result.history.items result.book }
        ensures partition { result.partition ≡ self.partition }
        ensures history { result.history.items ≡ self.entries }
        ensures book { result.book ≡ self.book }
    {
        let Locked {
            partition,
            history,
            book,
            ..
        } = self;
        EndedPartition {
            partition,
            history: history.lists(alloc),
            book,
        }
    }
}
