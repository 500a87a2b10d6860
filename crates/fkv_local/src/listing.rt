//! The live pairs of a store, a partition at a time.
ghost use Rattle.std.specs.Prelude.{◌≡◌, ◌<◌, ◌↔◌, length, map, Ok, None, ◌-◌, IsTrue, IfOk, IfErr, IfSome, OnOk, OnErr};
ghost use Rattle.std.specs.BTreeMap.{get};
ghost use Rattle.fkv_alone.specs.Causes.{CanFailToRead, CanFailToWrite};
ghost use Rattle.fkv_local.specs.Causing.{IsCausedBy};
ghost use Rattle.fkv_local.specs.Listing.{AreLeft, IsNextList, IsUnlistedAt, behind_next};

use crate::parts::{Shard, Terms};
use fkv_device::Disk;
use fkv_functions::{Mergeable, Refused};
use std::collections::BTreeMap;
use std::marker::Model;

/// What a store had, to be listed: one list a partition, from the last one to the first. What is still to come is `left` of it, a
/// plain map; each list takes the keys of its partition out of it. A partition with its frames, its index and its receipts goes as
/// its list is given, so that no two lists need be held at once.
#[derive(Drop)]
pub struct Listing<F: Mergeable, D: Disk> {
    terms: Terms<F>,
    shards: Vec<Shard<F, D>>,
    /// How many partitions the store had.
    count: usize,
}

impl<F: Mergeable, D: Disk> Model for Listing<F, D> {
    ghost use Rattle.std.specs.Prelude.{map};
    ghost use Rattle.fkv_local.specs.Listing.{ListsView, AreLeft};

    ghost Value = { ListsView F.Key F.Value F.Input D.Reader };

    ghost view = { λ l. record {
      parts = map (λ shard. shard.part.partition) l.shards.items;
      readers = map (λ shard. shard.reader) l.shards.items;
      count = l.count;
    } };

    ghost invariant = { λ l. AreLeft (map (λ shard. shard.part.partition) l.shards.items) l.count };
}

impl<F: Mergeable, D: Disk> Listing<F, D> {
    /// The lists of these partitions, all of a store.
    pub(crate) fn of(terms: Terms<F>, shards: Vec<Shard<F, D>>) -> Listing<F, D>
        requires { AreLeft (map (λ shard. shard.part.partition) shards.items) (length shards.items) }
        ensures parts { result.parts ≡ map (λ shard. shard.part.partition) shards.items }
        ensures readers { result.readers ≡ map (λ shard. shard.reader) shards.items }
        ensures count { result.count ≡ length shards.items }
    {
        let count = shards.len();
        Listing {
            terms,
            shards,
            count,
        }
    }

    /// How many lists are still to come: the place of the next one is one less.
    pub fn len(&self) -> usize
        ensures { result ≡ length self.now.parts }
    {
        self.shards.len()
    }

    /// Whether no list is still to come.
    pub fn is_empty(&self) -> bool
        ensures { IsTrue result ↔ (length self.now.parts ≡ 0) }
    {
        self.shards.is_empty()
    }

    /// How many lists there are, those that were given among them: a key is in the one whose place its hash leaves, modulo this
    /// number.
    pub fn count(&self) -> usize
        ensures value { result ≡ self.now.count }
        ensures some { 0 < result }
    {
        self.count
    }

    /// The functions of the store.
    pub fn functions(&self) -> &F {
        &self.terms.functions
    }

    /// The next list, of the last partition that is left: its live keys with their values. Each of its pages that left memory
    /// is read once. Then the partition goes. `None` where none is left. Where it is refused all stands as before but
    /// that partition's reader, and it may be asked again, or left out.
    ///
    /// # Errors
    ///
    /// `NoMemory`; `Device` with code 3 where a page of that partition can't be read; `Damaged` where one came back with other
    /// bytes, or spells no record.
    pub fn next(&mut self) -> Result<Option<BTreeMap<F::Key, F::Value>>, Refused>
        ensures list { IsTrue D.Receipt.keeps → IfOk result (λ list. IfSome list
            (λ map. IsNextList F.Key.cmp F.code self.old self.new (get F.Key.cmp map))) }
        ensures end { (result ≡ Ok None) ↔ (length self.old.parts ≡ 0) }
        ensures after { OnOk result (self.new ≡ behind_next self.old) }
        ensures unchanged { OnErr result (self.new ≡ record self.old { readers = self.new.readers }) }
        ensures rest { OnErr result (behind_next self.new ≡ behind_next self.old) }
        ensures caused { IsTrue D.Receipt.keeps → IfErr result
            (IsCausedBy (CanFailToWrite D.Writer.next D.Writer.can_fail) (CanFailToRead D.Receipt.stands D.Reader.can_fail)) }
        ensures told { IfErr result (IsUnlistedAt D.Receipt.keeps D.Reader.failures self.old.parts self.old.readers self.new.readers
            (length self.old.parts - 1)) }
    {
        let count = self.shards.len();
        if count == 0 {
            return Ok(None);
        }
        let last = count - 1;
        let mut map = BTreeMap::new(self.terms.alloc);
        let shard = &mut self.shards[last];
        match shard
            .part
            .partition
            .put_live(&self.terms.functions, &mut shard.reader, &mut map)
        {
            Ok(()) => {
                self.shards.truncate(last);
                Ok(Some(map))
            }
            Err(refused) => Err(refused),
        }
    }

    /// Leaves the next list out, and lets its partition go unread.
    pub fn skip(&mut self)
        ensures { self.new ≡ behind_next self.old }
    {
        let count = self.shards.len();
        self.shards.truncate(count.saturating_sub(1));
    }
}
