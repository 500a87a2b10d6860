//! What C calls of stores of cells.
ghost use Rattle.std.specs.Prelude.{◌≡◌, ◌≢◌, pos};
ghost use Rattle.fkv_functions.specs.declared.names.Name.{Name};
ghost use Rattle.fkv_functions.specs.Names.{text_of};
ghost use Rattle.fkv_operations.specs.After.{answer};
ghost use Rattle.fkv_operations.specs.declared.operations.KeyedOp.TheVariants.{Read, Upsert, Delete};
ghost use Rattle.fkv_c.specs.Cells.{blind, cell_answer_of};
ghost use Rattle.fkv_c.specs.Leading.{CellCursor, kind_of, cells_of, cell_pairs_of, FirstIsLeast, IsCellNextTold, IsCellPerformed, IsCellPerformedAt, IsNoKey, next_cell_status};

use crate::cell_calls::{CellOp, next_cell, operate_cells};
use crate::cells::{Cell, CellPair, CellTold};
use crate::faults::Fault;
use crate::handles::Handle;
use fkv_functions::Name;
use fkv_operations::KeyedOp;
use std::alloc::Global;

/// Makes an operation that answers nothing of a cell.
fn perform(alloc: Global, store: &mut Handle, op: CellOp) -> u32
    ensures { IsCellPerformed store.old.held store.new.held op result }
{
    match operate_cells(alloc, store, op) {
        Ok(_stored) => 0,
        Err(fault) => fault.number(),
    }
}

/// Writes the cell of a key, whatever it was.
#[unsafe(no_mangle)]
pub extern "C" fn fkv_c_put(alloc: Global, store: &mut Handle, name: &[u8], cell: &Cell) -> u32
    ensures performed { IsCellPerformedAt name.now store.old.held store.new.held (λ k. Upsert k cell.now) result }
    ensures unkeyed { IsNoKey name.now → (result ≡ 36) × (store.new.held ≡ store.old.held) }
{
    match Name::new(name) {
        None => Fault::BadKey.number(),
        Some(key) => perform(alloc, store, KeyedOp::Upsert(key, *cell)),
    }
}

/// Removes a key and its cell.
#[unsafe(no_mangle)]
pub extern "C" fn fkv_c_remove(alloc: Global, store: &mut Handle, name: &[u8]) -> u32
    ensures performed { IsCellPerformedAt name.now store.old.held store.new.held (λ k. Delete k) result }
    ensures unkeyed { IsNoKey name.now → (result ≡ 36) × (store.new.held ≡ store.old.held) }
{
    match Name::new(name) {
        None => Fault::BadKey.number(),
        Some(key) => perform(alloc, store, KeyedOp::Delete(key)),
    }
}

/// Tells the cell of a key, or that it has none.
#[unsafe(no_mangle)]
pub extern "C" fn fkv_c_get(
    alloc: Global,
    store: &mut Handle,
    name: &[u8],
    told: &mut CellTold,
) -> u32
    ensures performed { IsCellPerformedAt name.now store.old.held store.new.held (λ k. Read k (pos 0)) result }
    ensures told { result ≡ 0 → (k : Name) → text_of k ≡ name.now
        → told.new ≡ cell_answer_of (answer blind (cells_of store.old.held) (Read k (pos 0))) }
    ensures left { result ≢ 0 → told.new ≡ told.old }
    ensures unkeyed { IsNoKey name.now → (result ≡ 36) × (store.new.held ≡ store.old.held) }
{
    let Some(key) = Name::new(name) else {
        return Fault::BadKey.number();
    };
    match operate_cells(alloc, store, KeyedOp::Read(key, 0)) {
        Ok(came) => {
            *told = CellTold::of(came);
            0
        }
        Err(fault) => fault.number(),
    }
}

/// Tells the least pair that a cursor over cells still has, which it has no more then, or that it has none.
#[unsafe(no_mangle)]
pub extern "C" fn fkv_c_next_cell(alloc: Global, cursor: &mut Handle, pair: &mut CellPair) -> u32
    ensures told { result ≡ 0 → IsCellNextTold (cell_pairs_of cursor.old.held) (cell_pairs_of cursor.new.held) pair.new }
    ensures least { result ≡ 0 → FirstIsLeast (cell_pairs_of cursor.old.held) }
    ensures kind { kind_of cursor.new.held ≡ kind_of cursor.old.held }
    ensures cursor { result ≡ 0 → kind_of cursor.old.held ≡ CellCursor }
    ensures status { result ≡ next_cell_status (kind_of cursor.old.held) }
    ensures left { result ≢ 0 → (cursor.new.held ≡ cursor.old.held) × (pair.new ≡ pair.old) }
{
    match next_cell(alloc, cursor) {
        Ok(came) => {
            *pair = CellPair::of(came);
            0
        }
        Err(fault) => fault.number(),
    }
}
