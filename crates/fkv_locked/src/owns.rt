//! What a caller was answered in each partition.
ghost use Rattle.std.specs.Prelude.{◌≡◌, ◌+◌, ◌-◌, ◌^◌, ◌<◌, ◌≤◌, ◌⊎◌, true, None, [], ◌∷◌, ◌++◌, length, map, max, replicate, vec_len, slice_index, slice_index_or, slice_set, IfOk, IfErr, OnOk};
ghost use Rattle.fkv_locked.specs.Owns.{Takes, told_after};

use crate::finished::{FinishedOf, entry_of};
use fkv_functions::{Mergeable, Refused};
use fkv_histories::{EntryOf, Recorder};
use fkv_operations::AnswerOf;
use std::alloc::Global;
use std::marker::Model;

/// What a caller was answered: for each partition the list of the entries and of how many updates it was told there; how many
/// they are, its share; and the answer of the last. It grows by what events finished under a lock, and by nothing else ([`Owns::take`]);
/// of how many updates it was told it hears from other callers too ([`Owns::hear`]).
#[derive(Drop)]
pub struct Owns<F: Mergeable, H: Recorder<F>> {
    lists: Vec<H>,
    told: Vec<u64>,
    share: u64,
    last: Option<AnswerOf<F>>,
}

impl<F: Mergeable, H: Recorder<F>> Model for Owns<F, H> {
    ghost use Rattle.std.specs.Prelude.{◌≡◌, length};
    ghost use Rattle.fkv_locked.specs.Owns.{OwnsView};

    ghost Value = { OwnsView H F.Output };

    ghost view = { λ o. record { lists = o.lists.items; told = o.told.items; share = o.share; last = o.last } };

    ghost invariant = { λ o. length o.told.items ≡ length o.lists.items };
}

/// So many recorders, to which nothing was added. Refused: `NoMemory`.
fn fresh_lists<F: Mergeable, H: Recorder<F>>(alloc: Global, count: usize) -> Result<Vec<H>, Refused>
    ensures ok { IfOk result (λ own. map H.entries own.items ≡ replicate count []) }
    ensures only { IfErr result (λ refused. refused ≡ Refused.NoMemory) }
{
    let mut own = Vec::new(alloc);
    for _place in 0..count {
        let Ok(()) = own.push(H::fresh(alloc)) else {
            return Err(Refused::NoMemory);
        };
    }
    Ok(own)
}

/// Makes room for an entry in one list. Refused, in this order, and then the entries stay: `Worn` where its updates have no
/// next number, `NoMemory`.
fn room_at<F: Mergeable, H: Recorder<F>>(own: &mut Vec<H>, place: usize) -> Result<(), Refused>
    requires { place < vec_len own.old }
    ensures spare { OnOk result ((d : H) → 1 ≤ H.spare (slice_index_or own.new.items place d)) }
    ensures count { OnOk result ((d : H) → H.count (slice_index_or own.new.items place d) < 2 ^ 64 - 1) }
    ensures entries { map H.entries own.new.items ≡ map H.entries own.old.items }
    ensures len { length own.new.items ≡ length own.old.items }
    ensures only { IfErr result (λ refused. (refused ≡ Refused.Worn) ⊎ (refused ≡ Refused.NoMemory)) }
{
    let list = &mut own[place];
    if list.updates() == u64::MAX {
        return Err(Refused::Worn);
    }
    match list.grow() {
        Ok(()) => Ok(()),
        Err(refused) => Err(refused),
    }
}

/// Adds an entry to one list, for which there has to be room.
fn add_at<F: Mergeable, H: Recorder<F>>(own: &mut Vec<H>, place: usize, entry: EntryOf<F>)
    requires place { place < vec_len own.old }
    requires spare { (d : H) → 1 ≤ H.spare (slice_index_or own.old.items place d) }
    requires count { (d : H) → H.count (slice_index_or own.old.items place d) < 2 ^ 64 - 1 }
    ensures entries { H.keeps ≡ true → map H.entries own.new.items
        ≡ slice_set (map H.entries own.old.items) place
        (slice_index_or (map H.entries own.old.items) place [] ++ entry ∷ []) }
    ensures len { length own.new.items ≡ length own.old.items }
{
    own[place].add(entry);
}

/// Of how many updates a caller was told, after it was answered by an entry.
fn told_by<F: Mergeable>(entry: &EntryOf<F>) -> u64
    requires { entry.now.at < 2 ^ 64 - 1 }
    ensures { result ≡ told_after entry.now }
{
    if entry.is_update() {
        entry.at + 1
    } else {
        entry.at
    }
}

impl<F: Mergeable, H: Recorder<F>> Owns<F, H> {
    /// What a caller has that was answered nothing, in so many partitions. Refused: `NoMemory`.
    pub fn fresh(alloc: Global, count: usize) -> Result<Self, Refused>
        ensures lists { IfOk result (λ owns. map H.entries owns.lists ≡ replicate count []) }
        ensures told { IfOk result (λ owns. owns.told ≡ replicate count 0) }
        ensures share { IfOk result (λ owns. (owns.share ≡ 0) × (owns.last ≡ None)) }
        ensures only { IfErr result (λ refused. refused ≡ Refused.NoMemory) }
    {
        let lists = match fresh_lists::<F, H>(alloc, count) {
            Ok(lists) => lists,
            Err(refused) => return Err(refused),
        };
        let Ok(told) = vec![in alloc; 0u64; count] else {
            return Err(Refused::NoMemory);
        };
        Ok(Owns {
            lists,
            told,
            share: 0,
            last: None,
        })
    }

    /// In how many partitions.
    pub fn partitions(&self) -> usize
        ensures told { result ≡ length self.now.told }
        ensures lists { result ≡ length self.now.lists }
    {
        self.told.len()
    }

    /// Of how many updates of a partition the caller was told.
    pub fn told_at(&self, place: usize) -> u64
        requires { place < length self.now.told }
        ensures { result ≡ slice_index self.now.told place }
    {
        self.told[place]
    }

    /// Hears of how many updates of a partition another caller was told: then this one was told of so many, at least.
    pub fn hear(&mut self, place: usize, told: u64)
        requires { place < length self.old.told }
        ensures { self.new ≡ record self.old {
          told = slice_set self.old.told place (max (slice_index self.old.told place) told);
        } }
    {
        self.told[place] = self.told[place].max(told);
    }

    /// How many entries it took.
    pub fn share(&self) -> u64
        ensures { result ≡ self.now.share }
    {
        self.share
    }

    /// Makes room for an entry of a partition. Refused, in this order: `Worn` where the share, or the updates of its list, have no
    /// next number, `NoMemory`. The entries stay, whatever it answers.
    pub fn make_room(&mut self, place: usize) -> Result<(), Refused>
        requires { place < length self.old.told }
        ensures spare { OnOk result ((d : H) → 1 ≤ H.spare (slice_index_or self.new.lists place d)) }
        ensures count { OnOk result ((d : H) → H.count (slice_index_or self.new.lists place d) < 2 ^ 64 - 1) }
        ensures share { OnOk result (self.new.share < 2 ^ 64 - 1) }
        ensures entries { map H.entries self.new.lists ≡ map H.entries self.old.lists }
        ensures len { length self.new.lists ≡ length self.old.lists }
        ensures told { self.new.told ≡ self.old.told }
        ensures same { (self.new.share ≡ self.old.share) × (self.new.last ≡ self.old.last) }
        ensures only { IfErr result (λ refused. (refused ≡ Refused.Worn) ⊎ (refused ≡ Refused.NoMemory)) }
    {
        if self.share == u64::MAX {
            return Err(Refused::Worn);
        }
        room_at::<F, H>(&mut self.lists, place)
    }

    /// Takes what an event of a partition finished, for which there has to be room: the caller is answered by it.
    pub fn take(&mut self, place: usize, finished: FinishedOf<F>) -> AnswerOf<F>
        requires place { place < length self.old.told }
        requires spare { (d : H) → 1 ≤ H.spare (slice_index_or self.old.lists place d) }
        requires count { (d : H) → H.count (slice_index_or self.old.lists place d) < 2 ^ 64 - 1 }
        requires share { self.old.share < 2 ^ 64 - 1 }
        ensures answer { result ≡ finished.answer }
        ensures takes { Takes H.keeps H.entries self.old self.new place finished }
        ensures told { length self.new.told ≡ length self.old.told }
    {
        let entry = entry_of(finished);
        add_at::<F, H>(&mut self.lists, place, entry);
        self.told[place] = told_by::<F>(&entry);
        self.share += 1;
        let answer = entry.answer;
        self.last = Some(answer);
        answer
    }

    /// The recorders, and the share.
    pub fn end(self) -> (Vec<H>, u64)
        ensures lists { result.0.items ≡ self.lists }
        ensures share { result.1 ≡ self.share }
    {
        let Owns { lists, share, .. } = self;
        (lists, share)
    }
}
