//! Handles: what C has of a store.
ghost use Rattle.std.specs.Prelude.{◌≡◌, ◌↔◌, Option, None, Some, MatchOption, IsTrue};
ghost use Rattle.std.specs.Coded.{coded_option};
ghost use Rattle.fkv_c.specs.declared.handles.Held.{Held};
ghost use Rattle.fkv_c.specs.contracts.handles.Held.{the_row};

use crate::cells::{Cell, CellFns};
use crate::loose::Loose;
use fkv_device::MemoryDevice;
use fkv_functions::{CappedSumFns, CountFns, MaxFns, Name, SumFns};
use fkv_local::LocalStore;
use std::alloc::Global;
use std::collections::BTreeMap;
use std::marker::Model;
use std::mem::replace;
use std::ptr::null_mut;

/// What an open handle leads to.
#[derive(Drop)]
pub enum Held {
    /// A store of sums.
    Sums(LocalStore<SumFns, MemoryDevice>),
    /// A store of maxima.
    Maxima(LocalStore<MaxFns, MemoryDevice>),
    /// A store of capped sums.
    CappedSums(LocalStore<CappedSumFns, MemoryDevice>),
    /// A store of counts.
    Counts(LocalStore<CountFns, MemoryDevice>),
    /// A store of cells.
    Cells(LocalStore<CellFns, MemoryDevice>),
    /// What a cursor over the pairs of a store of sums, capped or not, still has to tell.
    SumPairs(BTreeMap<Name, i128>),
    /// What one over those of a store of maxima has.
    MaxPairs(BTreeMap<Name, i64>),
    /// What one over those of a store of counts has.
    CountPairs(BTreeMap<Name, u64>),
    /// What one over those of a store of cells has.
    CellPairs(BTreeMap<Name, Cell>),
}

/// A handle, in memory of C's: a pointer that C neither reads nor writes, null where the handle is closed. It is no `Drop`, so
/// that what it leads to is not lost.
#[repr(C)]
pub struct Handle {
    at: *mut u8,
    pub ghost held: { Option Held } by { coded_option the_row.coded },
}

impl Model for Handle {
    ghost use Rattle.fkv_c.specs.Holding.{owns_held};
    ghost use Rattle.fkv_c.specs.contracts.handles.Held.{the_row};

    ghost also_owns = { λ h. owns_held the_row h.at h.held };
}

impl Handle {
    /// A closed one.
    fn closed() -> Handle
        ensures { result.held ≡ None }
    {
        Handle { at: null_mut() }
    }

    /// One that leads to this.
    fn of(held: Loose<Held, Global>) -> Handle
        ensures { result.held ≡ Some held.value }
    {
        let Loose { at, alloc: _ } = held;
        Handle { at: at as *mut u8 }
    }

    /// What it leads to, if it is open.
    fn into_loose(self, alloc: Global) -> Option<Loose<Held, Global>>
        ensures { MatchOption result (self.held ≡ None) (λ b. self.held ≡ Some b.value) }
    {
        let Handle { at } = self;
        if at.is_null() {
            return None;
        }
        Some(Loose {
            at: at as *mut Held,
            alloc,
        })
    }

    /// The end of a closed one.
    fn end(self)
        requires closed { self.held ≡ None }
    {
        let Handle { at: _ } = self;
    }

    /// Takes what it leads to out of it, if it is open. Then it is closed.
    pub(crate) fn take(&mut self, alloc: Global) -> Option<Box<Held>>
        ensures value { MatchOption result (self.old.held ≡ None) (λ b. self.old.held ≡ Some b.value) }
        ensures closed { self.new.held ≡ None }
    {
        match replace(self, Handle::closed()).into_loose(alloc) {
            None => None,
            Some(loose) => Some(loose.into_box()),
        }
    }

    /// Opens a closed one, which leads to this then.
    pub(crate) fn put(&mut self, held: Box<Held>)
        requires closed { self.old.held ≡ None }
        ensures value { self.new.held ≡ Some held.value }
    {
        replace(self, Handle::of(Loose::of(held))).end();
    }

    /// Whether it is closed.
    pub(crate) fn is_closed(&mut self, alloc: Global) -> bool
        ensures value { IsTrue result ↔ (self.old.held ≡ None) }
        ensures same { self.new.held ≡ self.old.held }
    {
        match self.take(alloc) {
            None => true,
            Some(held) => {
                self.put(held);
                false
            }
        }
    }
}
