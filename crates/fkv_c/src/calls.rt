//! The calls, on handles.
ghost use Rattle.std.specs.Prelude.{◌≡◌, None, Some, IfOk, IfErr, OnOk};
ghost use Rattle.fkv_functions.specs.Plain.{Same};
ghost use Rattle.fkv_functions.specs.declared.refusals.Refused.TheVariants.{NoMemory};
ghost use Rattle.fkv_c.specs.Leading.{Store, IsStore, Cursor, cursor_of, kind_of, set_of, store_kind, meaning_of, map_of, cells_of, LeadsAsMuch};
ghost use Rattle.fkv_c.specs.Leading.{pairs_of, FirstIsLeast, IsMade, TakesFirst, AreCounts, IsStoreFault, IsNumberFault, IsOpenFault, IsListFault};
ghost use Rattle.fkv_c.specs.Leading.{counts_status, next_status, close_status};
ghost use Rattle.fkv_c.specs.Statuses.{fault_number};
ghost use Rattle.fkv_c.specs.Stores.{HasSettings, IsKindNumber, IsGood, FitsIn, Refuses, RefusesCompaction, RefusesList, Compacts};
ghost use Rattle.fkv_c.specs.declared.faults.Fault.TheVariants as fault;

use crate::faults::Fault;
use crate::handles::{Handle, Held};
use crate::sets::{AnyOp, compact_held, counts_held, live_held, made, next_held, operate_held};
use fkv_functions::{Name, Refused};
use fkv_local::StoreCounts;
use fkv_operations::Answer;
use fkv_partition::Config;
use std::alloc::Global;

/// Opens a closed handle, as an empty store of the functions of this number.
pub(crate) fn open(
    alloc: Global,
    kind: u32,
    config: &Config,
    handle: &mut Handle,
) -> Result<(), Fault>
    ensures opened { OnOk result (set_of handle.new.held ≡ kind) }
    ensures store { OnOk result (kind_of handle.new.held ≡ store_kind kind) }
    ensures empty { OnOk result ((k : Name) → map_of handle.new.held k ≡ None) }
    ensures no_cells { OnOk result ((k : Name) → cells_of handle.new.held k ≡ None) }
    ensures was { OnOk result (handle.old.held ≡ None) }
    ensures settings { OnOk result (HasSettings handle.new.held config.now) }
    ensures known { OnOk result (IsKindNumber kind) }
    ensures good { OnOk result (IsGood kind config.now) }
    ensures told { IfErr result (IsOpenFault handle.old.held kind config.now) }
    ensures same { IfErr result (λ why. handle.new.held ≡ handle.old.held) }
{
    if !handle.is_closed(alloc) {
        return Err(Fault::InUse);
    }
    match made(alloc, kind, config) {
        Err(fault) => Err(fault),
        Ok(held) => lead(alloc, handle, held),
    }
}

/// Opens a closed handle, which leads to this then, where there is memory for it.
fn lead(alloc: Global, handle: &mut Handle, held: Held) -> Result<(), Fault>
    requires closed { handle.old.held ≡ None }
    ensures opened { OnOk result (handle.new.held ≡ Some held) }
    ensures same { IfErr result (λ why. handle.new.held ≡ handle.old.held) }
    ensures told { IfErr result (λ why. why ≡ fault.Refused NoMemory) }
{
    match Box::new(alloc, held) {
        Err(_) => Err(Fault::Refused(Refused::NoMemory)),
        Ok(held) => {
            handle.put(held);
            Ok(())
        }
    }
}

/// Makes an operation on a store of numbers.
pub(crate) fn operate(alloc: Global, handle: &mut Handle, op: AnyOp) -> Result<Answer<i128>, Fault>
    ensures made { IsMade (meaning_of handle.old.held) (map_of handle.old.held) (map_of handle.new.held) op result }
    ensures set { set_of handle.new.held ≡ set_of handle.old.held }
    ensures kind { kind_of handle.new.held ≡ kind_of handle.old.held }
    ensures store { OnOk result (kind_of handle.old.held ≡ Store) }
    ensures cells { Same (cells_of handle.new.held) (cells_of handle.old.held) }
    ensures fits { OnOk result (FitsIn handle.old.held op) }
    ensures told { IfErr result (IsNumberFault (kind_of handle.old.held) (FitsIn handle.old.held op)
        (Refuses handle.old.held handle.new.held op)) }
{
    match handle.take(alloc) {
        None => Err(Fault::Closed),
        Some(mut held) => {
            let result = operate_held(&mut held, op);
            handle.put(held);
            result
        }
    }
}

/// Appends what lives at the start of the logs again, and cuts that start. Answers whether any was cut.
pub(crate) fn compact(alloc: Global, handle: &mut Handle) -> Result<bool, Fault>
    ensures same { LeadsAsMuch handle.old.held handle.new.held }
    ensures kind { kind_of handle.new.held ≡ kind_of handle.old.held }
    ensures set { set_of handle.new.held ≡ set_of handle.old.held }
    ensures store { OnOk result (IsStore (kind_of handle.old.held)) }
    ensures compacts { IfOk result (Compacts handle.old.held handle.new.held) }
    ensures told { IfErr result (IsStoreFault (kind_of handle.old.held) (RefusesCompaction handle.old.held handle.new.held)) }
{
    match handle.take(alloc) {
        None => Err(Fault::Closed),
        Some(mut held) => {
            let result = compact_held(&mut held);
            handle.put(held);
            result
        }
    }
}

/// How much a store holds.
pub(crate) fn counts(alloc: Global, handle: &mut Handle) -> Result<StoreCounts, Fault>
    ensures counted { IfOk result (λ c. AreCounts handle.old.held c.bytes c.evicted c.moments) }
    ensures same { handle.new.held ≡ handle.old.held }
    ensures store { OnOk result (counts_status (kind_of handle.old.held) ≡ 0) }
    ensures told { IfErr result (λ why. fault_number why ≡ counts_status (kind_of handle.old.held)) }
{
    match handle.take(alloc) {
        None => Err(Fault::Closed),
        Some(held) => {
            let result = counts_held(&held);
            handle.put(held);
            result
        }
    }
}

/// Opens a closed handle as a cursor over the pairs of a store, keys rising.
pub(crate) fn list(alloc: Global, from: &mut Handle, into: &mut Handle) -> Result<(), Fault>
    ensures same { LeadsAsMuch from.old.held from.new.held }
    ensures kind { kind_of from.new.held ≡ kind_of from.old.held }
    ensures set { set_of from.new.held ≡ set_of from.old.held }
    ensures opened { OnOk result (kind_of into.new.held ≡ cursor_of (kind_of from.old.held)) }
    ensures pairs { OnOk result (LeadsAsMuch from.old.held into.new.held) }
    ensures store { OnOk result (IsStore (kind_of from.old.held)) }
    ensures was { OnOk result (into.old.held ≡ None) }
    ensures left { IfErr result (λ why. into.new.held ≡ into.old.held) }
    ensures told { IfErr result (IsListFault into.old.held (kind_of from.old.held) (RefusesList from.old.held from.new.held)) }
{
    if !into.is_closed(alloc) {
        return Err(Fault::InUse);
    }
    match live(alloc, from) {
        Err(fault) => Err(fault),
        Ok(pairs) => lead(alloc, into, pairs),
    }
}

/// The pairs of a store, for a cursor.
fn live(alloc: Global, handle: &mut Handle) -> Result<Held, Fault>
    ensures pairs { IfOk result (λ pairs. LeadsAsMuch handle.old.held (Some pairs)) }
    ensures cursor { IfOk result (λ pairs. kind_of (Some pairs) ≡ cursor_of (kind_of handle.old.held)) }
    ensures same { LeadsAsMuch handle.old.held handle.new.held }
    ensures kind { kind_of handle.new.held ≡ kind_of handle.old.held }
    ensures set { set_of handle.new.held ≡ set_of handle.old.held }
    ensures store { OnOk result (IsStore (kind_of handle.old.held)) }
    ensures unfailed { OnOk result (RefusesList handle.old.held handle.new.held NoMemory) }
    ensures told { IfErr result (IsStoreFault (kind_of handle.old.held)
        (RefusesList handle.old.held handle.new.held)) }
{
    match handle.take(alloc) {
        None => Err(Fault::Closed),
        Some(mut held) => {
            let result = live_held(&mut held);
            handle.put(held);
            result
        }
    }
}

/// The least pair that a cursor over numbers still has, which it has no more then.
pub(crate) fn next(alloc: Global, handle: &mut Handle) -> Result<Option<(Name, i128)>, Fault>
    ensures told { IfOk result (λ pair. TakesFirst (pairs_of handle.old.held) (pairs_of handle.new.held) pair) }
    ensures least { OnOk result (FirstIsLeast (pairs_of handle.old.held)) }
    ensures kind { kind_of handle.new.held ≡ kind_of handle.old.held }
    ensures cursor { OnOk result (kind_of handle.old.held ≡ Cursor) }
    ensures why { IfErr result (λ why. fault_number why ≡ next_status (kind_of handle.old.held)) }
    ensures same { IfErr result (λ why. handle.new.held ≡ handle.old.held) }
{
    match handle.take(alloc) {
        None => Err(Fault::Closed),
        Some(mut held) => {
            let result = next_held(&mut held);
            handle.put(held);
            result
        }
    }
}

/// Closes an open handle, and frees what it led to.
pub(crate) fn close(alloc: Global, handle: &mut Handle) -> Result<(), Fault>
    ensures closed { handle.new.held ≡ None }
    ensures was_open { OnOk result (close_status handle.old.held ≡ 0) }
    ensures told { IfErr result (λ why. (handle.old.held ≡ None) × (why ≡ fault.Closed)) }
{
    match handle.take(alloc) {
        None => Err(Fault::Closed),
        Some(_) => Ok(()),
    }
}
