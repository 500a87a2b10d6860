//! What an event finished: an entry that was recorded, in the hands of one caller.
ghost use Rattle.std.specs.Prelude.{◌≡◌, ◌+◌, ◌-◌, ◌^◌, ◌<◌, ◌≤◌, true, [], ◌∷◌, ◌++◌, if◌then◌else◌};
ghost use Rattle.fkv_histories.specs.Histories.{is_update_entry};

use fkv_functions::{Functions, Mergeable};
use fkv_histories::{Entry, EntryOf, Recorder};
use std::marker::Model;

/// An operation that an event finished. A contract sees it as its entry.
///
/// It is made only where its entry is added to the history under a lock and counted in the book there. It is neither copied nor
/// let go: it ends as the answer of one caller, in [`crate::Owns::take`].
pub struct Finished<K, V, I, O> {
    entry: Entry<K, V, I, O>,
}

impl<K, V, I, O> Model for Finished<K, V, I, O> {
    ghost use Rattle.std.specs.Prelude.{◌-◌, ◌^◌, ◌<◌};
    ghost use Rattle.fkv_histories.specs.declared.entries.Entry.{Entry};

    ghost Value = { Entry K V I O };

    ghost view = { λ f. f.entry };

    ghost invariant = { λ f. f.entry.at < 2 ^ 64 - 1 };
}

/// What events of one type of functions finish.
pub type FinishedOf<F> = Finished<
    <F as Functions>::Key,
    <F as Functions>::Value,
    <F as Functions>::Input,
    <F as Functions>::Output,
>;

/// Finishes an operation by this entry, for which there has to be room: it is added to a history, and the book counts it.
pub(crate) fn finish<F: Mergeable, H: Recorder<F>>(
    history: &mut H,
    book: &mut u64,
    entry: EntryOf<F>,
) -> FinishedOf<F>
    requires spare { 1 ≤ H.spare history.old }
    requires room { (H.count history.old < 2 ^ 64 - 1) × (book.old < 2 ^ 64 - 1) }
    requires at { entry.at < 2 ^ 64 - 1 }
    ensures entry { result ≡ entry }
    ensures entries { H.keeps ≡ true → H.entries history.new ≡ H.entries history.old ++ entry ∷ [] }
    ensures count { H.count history.new ≡ H.count history.old + (if is_update_entry entry then 1 else 0) }
    ensures book { book.new ≡ book.old + 1 }
{
    history.add(entry);
    *book += 1;
    Finished { entry }
}

/// Takes what was finished apart, to be told.
pub(crate) fn entry_of<K, V, I, O>(finished: Finished<K, V, I, O>) -> Entry<K, V, I, O>
    ensures entry { result ≡ finished }
    ensures room { result.at < 2 ^ 64 - 1 }
{
    let Finished { entry } = finished;
    entry
}
