//! What keeps the entries of a history or of an own list, or only counts their updates.
ghost use Rattle.std.specs.Prelude.{◌≡◌, ℕ, ◌+◌, ◌-◌, ◌^◌, ◌<◌, ◌≤◌, Bool, true, false, List, [], ◌∷◌, ◌++◌, length, IfErr, OnOk, vec_len, vec_capacity, if◌then◌else◌};
ghost use Rattle.std.proofs.Common.{rules};
ghost use Rattle.fkv_histories.specs.declared.entries.Entry.{Entry};
ghost use Rattle.fkv_histories.specs.Histories.{is_update_entry, updates};

use crate::entries::EntryOf;
use fkv_functions::{Mergeable, Refused};
use std::alloc::Global;

/// Keeps the entries that are added, or only counts the updates among them. No call but [`Recorder::lists`] tells which.
pub trait Recorder<F: Mergeable>: Drop {
    /// Whether entries are kept.
    ghost keeps: { Bool };

    /// The entries that are kept, in the order in which they were added.
    ghost entries: { Self → List (Entry F.Key F.Value F.Input F.Output) };

    /// How many updates were added.
    ghost count: { Self → ℕ };

    /// For how many more entries there is room.
    ghost spare: { Self → ℕ };

    /// One to which nothing was added.
    fn fresh(alloc: Global) -> Self
        ensures entries { entries result ≡ [] }
        ensures count { count result ≡ 0 };

    /// Makes room for an entry. Refused: `NoMemory`. Nothing else changes, whatever it answers.
    fn grow(&mut self) -> Result<(), Refused>
        ensures spare { OnOk result (1 ≤ spare self.new) }
        ensures entries { entries self.new ≡ entries self.old }
        ensures count { count self.new ≡ count self.old }
        ensures only { IfErr result (λ refused. refused ≡ Refused.NoMemory) };

    /// Adds an entry, for which there has to be room.
    fn add(&mut self, entry: EntryOf<F>)
        requires spare { 1 ≤ spare self.old }
        requires count { count self.old < 2 ^ 64 - 1 }
        ensures entries { keeps ≡ true → entries self.new ≡ entries self.old ++ entry ∷ [] }
        ensures count { count self.new ≡ count self.old + (if is_update_entry entry then 1 else 0) };

    /// How many updates were added.
    fn updates(&self) -> u64
        ensures { result ≡ count self.now };

    /// The entries that are kept.
    fn lists(self, alloc: Global) -> Vec<EntryOf<F>>
        ensures { result.items ≡ entries self };

    /// Where entries are kept, the updates among them are counted.
    ghost counted: { (r : Self) → keeps ≡ true → count r ≡ length (updates (entries r)) };

    /// Else there is none.
    ghost nothing: { (r : Self) → keeps ≡ false → entries r ≡ [] };
}

/// Keeps each entry.
#[derive(Drop)]
pub struct Audited<F: Mergeable> {
    list: Vec<EntryOf<F>>,
    updated: u64,
    ghost counted: { updated ≡ length (updates list.items) },
}

impl<F: Mergeable> Recorder<F> for Audited<F> {
    ghost keeps = { true };

    ghost entries = { λ a. a.list.items };

    ghost count = { λ a. a.updated };

    ghost spare = { λ a. vec_capacity a.list - vec_len a.list };

    fn fresh(alloc: Global) -> Self {
        Audited {
            list: Vec::new(alloc),
            updated: 0,
        }
    }

    fn grow(&mut self) -> Result<(), Refused> {
        match self.list.reserve(1) {
            Ok(()) => Ok(()),
            Err(_) => Err(Refused::NoMemory),
        }
    }

    fn add(&mut self, entry: EntryOf<F>)
        requires spare { vec_len self.old.list < vec_capacity self.old.list }
        requires count { self.old.updated < 2 ^ 64 - 1 }
        ensures entries { self.new.list.items ≡ self.old.list.items ++ entry ∷ [] }
        ensures count { self.new.updated ≡ self.old.updated + (if is_update_entry entry then 1 else 0) }
    {
        let one = entry.is_update();
        let Audited { list, updated } = self;
        list.push_reserved(entry);
        if one {
            *updated += 1;
        }
    }

    fn updates(&self) -> u64 {
        self.updated
    }

    fn lists(self, _alloc: Global) -> Vec<EntryOf<F>> {
        self.list
    }

    ghost counted = { λ r k. r.counted };

    ghost nothing = { Prim.search rules };
}

/// Keeps no entry, and counts the updates.
#[derive(Drop)]
pub struct Plain {
    updated: u64,
}

impl<F: Mergeable> Recorder<F> for Plain {
    ghost keeps = { false };

    ghost entries = { λ a. [] };

    ghost count = { λ a. a.updated };

    ghost spare = { λ a. 1 };

    fn fresh(_alloc: Global) -> Self {
        Plain { updated: 0 }
    }

    fn grow(&mut self) -> Result<(), Refused> {
        Ok(())
    }

    fn add(&mut self, entry: EntryOf<F>)
        requires { self.old.updated < 2 ^ 64 - 1 }
        ensures { self.new.updated ≡ self.old.updated + (if is_update_entry entry then 1 else 0) }
    {
        if entry.is_update() {
            self.updated += 1;
        }
    }

    fn updates(&self) -> u64 {
        self.updated
    }

    fn lists(self, alloc: Global) -> Vec<EntryOf<F>> {
        Vec::new(alloc)
    }

    ghost counted = { Prim.search rules };

    ghost nothing = { λ r k. Rattle.std.specs.Prelude.refl };
}
