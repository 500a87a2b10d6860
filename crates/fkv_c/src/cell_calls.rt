//! The calls on handles of stores of cells, and of cursors over them.
ghost use Rattle.std.specs.Prelude.{◌≡◌, IfOk, IfErr, OnOk, Some};
ghost use Rattle.fkv_functions.specs.Plain.{Same};
ghost use Rattle.fkv_c.specs.Cells.{blind};
ghost use Rattle.fkv_c.specs.Statuses.{fault_number};
ghost use Rattle.fkv_c.specs.Stores.{CellsRefuse};
ghost use Rattle.fkv_c.specs.Leading.{CellStore, CellCursor, kind_of, set_of, map_of, cells_of, cell_pairs_of, FirstIsLeast, IsMade, TakesFirst, IsCellFault, next_cell_status};

use crate::cells::Cell;
use crate::faults::Fault;
use crate::handles::{Handle, Held};
use crate::stores::run_store;
use fkv_functions::Name;
use fkv_operations::{Answer, KeyedOp};
use std::alloc::Global;

/// An operation on a store of cells.
pub(crate) type CellOp = KeyedOp<Name, Cell, i64>;

/// Makes an operation on what a handle leads to.
fn operate_cells_held(held: &mut Held, op: CellOp) -> Result<Answer<Cell>, Fault>
    ensures made { IsMade blind (cells_of (Some held.old)) (cells_of (Some held.new)) op result }
    ensures kind { kind_of (Some held.new) ≡ kind_of (Some held.old) }
    ensures set { set_of (Some held.new) ≡ set_of (Some held.old) }
    ensures store { OnOk result (kind_of (Some held.old) ≡ CellStore) }
    ensures numbers { Same (map_of (Some held.new)) (map_of (Some held.old)) }
    ensures told { IfErr result (IsCellFault (kind_of (Some held.old)) (CellsRefuse (Some held.old) (Some held.new) op)) }
{
    match held {
        Held::Cells(store) => run_store(store, op),
        Held::Sums(_) | Held::Maxima(_) | Held::CappedSums(_) | Held::Counts(_) => {
            Err(Fault::NotCells)
        }
        Held::SumPairs(_) | Held::MaxPairs(_) | Held::CountPairs(_) | Held::CellPairs(_) => {
            Err(Fault::NotAStore)
        }
    }
}

/// The least pair that a cursor over cells still has, which it has no more then.
fn next_cell_held(held: &mut Held) -> Result<Option<(Name, Cell)>, Fault>
    ensures told { IfOk result (λ pair. TakesFirst (cell_pairs_of (Some held.old)) (cell_pairs_of (Some held.new)) pair) }
    ensures least { OnOk result (FirstIsLeast (cell_pairs_of (Some held.old))) }
    ensures kind { kind_of (Some held.new) ≡ kind_of (Some held.old) }
    ensures cursor { OnOk result (kind_of (Some held.old) ≡ CellCursor) }
    ensures why { IfErr result (λ why. fault_number why ≡ next_cell_status (kind_of (Some held.old))) }
    ensures same { IfErr result (λ why. held.new ≡ held.old) }
{
    match held {
        Held::CellPairs(pairs) => Ok(pairs.pop_first()),
        Held::SumPairs(_) | Held::MaxPairs(_) | Held::CountPairs(_) => Err(Fault::NotCells),
        Held::Sums(_) | Held::Maxima(_) | Held::CappedSums(_) | Held::Counts(_) | Held::Cells(_) =>
            Err(Fault::NotACursor),
    }
}

/// Makes an operation on a store of cells.
pub(crate) fn operate_cells(
    alloc: Global,
    handle: &mut Handle,
    op: CellOp,
) -> Result<Answer<Cell>, Fault>
    ensures made { IsMade blind (cells_of handle.old.held) (cells_of handle.new.held) op result }
    ensures kind { kind_of handle.new.held ≡ kind_of handle.old.held }
    ensures set { set_of handle.new.held ≡ set_of handle.old.held }
    ensures store { OnOk result (kind_of handle.old.held ≡ CellStore) }
    ensures numbers { Same (map_of handle.new.held) (map_of handle.old.held) }
    ensures told { IfErr result (IsCellFault (kind_of handle.old.held) (CellsRefuse handle.old.held handle.new.held op)) }
{
    match handle.take(alloc) {
        None => Err(Fault::Closed),
        Some(mut held) => {
            let result = operate_cells_held(&mut held, op);
            handle.put(held);
            result
        }
    }
}

/// The least pair that a cursor over cells still has, which it has no more then.
pub(crate) fn next_cell(alloc: Global, handle: &mut Handle) -> Result<Option<(Name, Cell)>, Fault>
    ensures told { IfOk result (λ pair. TakesFirst (cell_pairs_of handle.old.held) (cell_pairs_of handle.new.held) pair) }
    ensures least { OnOk result (FirstIsLeast (cell_pairs_of handle.old.held)) }
    ensures kind { kind_of handle.new.held ≡ kind_of handle.old.held }
    ensures cursor { OnOk result (kind_of handle.old.held ≡ CellCursor) }
    ensures why { IfErr result (λ why. fault_number why ≡ next_cell_status (kind_of handle.old.held)) }
    ensures same { IfErr result (λ why. handle.new.held ≡ handle.old.held) }
{
    match handle.take(alloc) {
        None => Err(Fault::Closed),
        Some(mut held) => {
            let result = next_cell_held(&mut held);
            handle.put(held);
            result
        }
    }
}
