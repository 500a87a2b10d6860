//! How a partition's pages move, a hold at a time: to where they are read only, to the device, and out of their frames.
ghost use Rattle.std.specs.Prelude.{◌≡◌, ◌<◌, ◌≤◌, ◌⊎◌, Err, IfErr};
ghost use Rattle.fkv_store.specs.Stores.{IsUntidy, IsUnshifted, IsUntaken, IsUnflushed};

use crate::gates::{Gate, Place};
use crate::holds::At;
use crate::stores::Store;
use fkv_device::{Disk, FlushJob, Written};
use fkv_functions::{Mergeable, Refused};
use fkv_histories::Recorder;
use fkv_partition::{kept_page, read_only_page};
use fkv_records::Address;
use std::alloc::Global;
use std::sync::Wait;

/// The number that gates are told of who moves pages: no worker has it.
pub const KEEPER: u32 = u32::MAX;

/// What comes of a shift: one that is not due, or finds the list of waiting actions full, is passed over.
fn passed(shifted: Result<(), Refused>) -> Result<(), Refused>
    requires { IfErr shifted IsUnshifted }
    ensures only { IfErr result (λ why. why ≡ Refused.Worn) }
{
    match shifted {
        Ok(()) | Err(Refused::NotDue) | Err(Refused::DrainFull) => Ok(()),
        Err(refused) => Err(refused),
    }
}

/// What comes of a page that was written and is not taken in: one that waits no more is passed over.
fn untaken(refused: Refused) -> Result<bool, Refused>
    requires { IsUnflushed refused }
    ensures only { IfErr result IsUntidy }
{
    match refused {
        Refused::NotDue => Ok(false),
        _ => Err(refused),
    }
}

impl<F: Mergeable, D: Disk, H: Recorder<F>> Store<F, D, H> {
    /// Moves a partition's pages on: ReadOnly follows the tail, so that records in most frames are changed in place
    /// ([`read_only_page`]); the pages that wait are written, as many as there are frames at the most; and Head follows, as far as pages
    /// are written, so that the page behind the tail's finds its frame free. What is not due is passed over. Pages wait for
    /// the sessions of all passes to be refreshed. Answers Head, as the last hold leaves it.
    ///
    /// # Errors
    ///
    /// `Unknown` where there is no such partition. Then, and what was moved stays so: `NoMemory`; `Worn` where the
    /// partition's clock has no next moment; `Device` with code 2 where a page can't be written: a later call writes it;
    /// `Stranger` where another page was to be written than the one that was, or with other bytes, which the writer's lock
    /// rules out.
    pub fn tidy<G: Gate>(
        &self,
        rt: &impl Wait,
        alloc: Global,
        partition: usize,
        gate: &G,
    ) -> Result<Address, Refused>
        ensures none { self.now.count ≤ partition → result ≡ Err Refused.Unknown }
        ensures only { IfErr result (λ why. ((why ≡ Refused.Unknown) × (self.now.count ≤ partition)) ⊎ IsUntidy why) }
    {
        if partition >= self.locks.len() {
            return Err(Refused::Unknown);
        }
        let at = At {
            partition,
            worker: KEEPER,
        };
        match self.freeze(rt, at, gate) {
            Ok(()) => {}
            Err(refused) => return Err(refused),
        }
        match self.flush_all(rt, alloc, at, gate) {
            Ok(()) => {}
            Err(refused) => return Err(refused),
        }
        self.evict(rt, at, gate)
    }

    /// Moves ReadOnly behind the tail.
    fn freeze<G: Gate>(&self, rt: &impl Wait, at: At, gate: &G) -> Result<(), Refused>
        requires { at.partition < self.now.count }
        ensures only { IfErr result (λ why. why ≡ Refused.Worn) }
    {
        let mut held = self.locks[at.partition].lock(rt);
        gate.pass(at.worker, at.locked());
        let page = self.page_of(held.tail());
        match held.shift_read_only(read_only_page(self.frames, page)) {
            Ok(()) => {
                self.tell_move(at.partition);
                Ok(())
            }
            Err(refused) => passed(Err(refused)),
        }
    }

    /// Moves Head behind the tail, as far as pages are written, and answers it.
    fn evict<G: Gate>(&self, rt: &impl Wait, at: At, gate: &G) -> Result<Address, Refused>
        requires { at.partition < self.now.count }
        ensures only { IfErr result (λ why. why ≡ Refused.Worn) }
    {
        let mut held = self.locks[at.partition].lock(rt);
        gate.pass(at.worker, at.locked());
        let page = self.page_of(held.tail());
        let written = held.unflushed();
        let shifted = held.shift_head(kept_page(self.frames, page).min(written));
        if let Ok(()) = shifted {
            self.tell_move(at.partition);
        }
        match passed(shifted) {
            Ok(()) => Ok(held.head()),
            Err(refused) => Err(refused),
        }
    }

    /// The page of an address.
    pub(crate) fn page_of(&self, address: Address) -> u64 {
        address.checked_div(self.page_size as u64).unwrap_or(0)
    }

    /// Writes the pages that wait, as many as there are frames at the most.
    fn flush_all<G: Gate>(
        &self,
        rt: &impl Wait,
        alloc: Global,
        at: At,
        gate: &G,
    ) -> Result<(), Refused>
        requires { at.partition < self.now.count }
        ensures only { IfErr result IsUntidy }
    {
        for _page in 0..self.frames {
            match self.flush(rt, alloc, at, gate) {
                Ok(true) => {}
                Ok(false) => return Ok(()),
                Err(refused) => return Err(refused),
            }
        }
        Ok(())
    }

    /// Writes the lowest page that is not flushed, where it waits, with the partition's writer held. `Ok` tells whether it
    /// did.
    fn flush<G: Gate>(
        &self,
        rt: &impl Wait,
        alloc: Global,
        at: At,
        gate: &G,
    ) -> Result<bool, Refused>
        requires { at.partition < self.now.count }
        ensures only { IfErr result IsUntidy }
    {
        let mut writer = self.writers[at.partition].lock(rt);
        let job = match self.take(rt, alloc, at, gate) {
            Ok(job) => job,
            Err(Refused::NotDue) => return Ok(false),
            Err(refused) => return Err(refused),
        };
        gate.pass(at.worker, Place::Flush);
        let written = match Written::<D::Receipt>::write(&mut *writer, job) {
            Ok(written) => written,
            Err(refused) => return Err(refused),
        };
        let mut held = self.locks[at.partition].lock(rt);
        gate.pass(at.worker, at.locked());
        match held.flush_done(written) {
            Ok(()) => {
                self.tell_move(at.partition);
                Ok(true)
            }
            Err(refused) => untaken(refused),
        }
    }

    /// Takes the lowest page that is not flushed. Refused as [`fkv_locked::Locked::flush_take`] is.
    fn take<G: Gate>(
        &self,
        rt: &impl Wait,
        alloc: Global,
        at: At,
        gate: &G,
    ) -> Result<FlushJob, Refused>
        requires { at.partition < self.now.count }
        ensures only { IfErr result IsUntaken }
    {
        let mut held = self.locks[at.partition].lock(rt);
        gate.pass(at.worker, at.locked());
        held.flush_take(alloc)
    }
}
