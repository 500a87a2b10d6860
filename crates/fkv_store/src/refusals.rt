//! Which refusals a pass and a store tell.
ghost use Rattle.std.specs.Prelude.{◌≡◌, ◌⊎◌, ◌↔◌, ℕ, IsTrue, Some, None};
ghost use Rattle.fkv_store.specs.Stores.{IsUndone, IsPageFault, IsUnturned, heard};
ghost use Rattle.fkv_store.specs.Runs.{fault_in, faults_of};

use fkv_device::{Loaded, Receipt};
use fkv_functions::{Refused, What};

/// The refusal that a caller is told of an event's without an operation: itself, or `Unknown` where it speaks of sessions and
/// contexts, which are the store's own matter, or of a pass. No event stalls.
pub(crate) fn told(refused: Refused) -> Refused
    ensures heard { result ≡ heard refused }
{
    match refused {
        Refused::Stranger {
            what: What::Pass,
            ..
        } => Refused::Unknown,
        Refused::NoMemory
        | Refused::NoSlot
        | Refused::Stranger { .. }
        | Refused::Worn
        | Refused::Device { .. }
        | Refused::Damaged { .. } => refused,
        _ => Refused::Unknown,
    }
}

/// The refusal that a caller is told of an event's of its operation, where it was told of so many updates: itself, or `Unknown`
/// where it speaks of sessions, contexts and phases. No page is read or written by such an event, and other partitions' keys and
/// operations are no part of it.
pub(crate) fn told_of(refused: Refused, known: u64) -> Refused
    ensures told { IsUndone known result }
    ensures same { IsUndone known refused → result ≡ refused }
    ensures other { (result ≡ refused) ⊎ (result ≡ Refused.Unknown) }
{
    match refused {
        Refused::Stranger {
            what: What::Pass,
            held,
            came,
        } if came == known && (held < known || held == u64::MAX) => refused,
        Refused::NoMemory | Refused::Worn => refused,
        _ => Refused::Unknown,
    }
}

/// What came in place of a page, if anything did.
pub(crate) fn fault_in<R: Receipt>(came: &Result<Loaded<R>, Refused>) -> Option<Refused>
    ensures { result ≡ fault_in came.now }
{
    match came {
        Ok(_page) => None,
        Err(refused) => Some(*refused),
    }
}

/// How many faults of a page that is.
pub(crate) fn faults_of(fault: Option<Refused>) -> u64
    ensures { result ≡ faults_of fault }
{
    match fault {
        None | Some(Refused::NoMemory) => 0,
        Some(_) => 1,
    }
}

/// Whether a refusal is the fault of a page.
pub(crate) fn is_page_fault(refused: &Refused) -> bool
    ensures { IsTrue result ↔ IsPageFault refused.now }
{
    match refused {
        Refused::Device { code, .. } => *code == 3,
        Refused::Damaged { .. } => true,
        _ => false,
    }
}

/// The refusal that a caller is told where a load refuses, to which this fault was handed, or a page: the fault, where the load tells
/// it; `Damaged`, where it says so of the page; and else as [`told_of`] tells.
pub(crate) fn told_of_load(refused: Refused, fault: Option<Refused>, known: u64) -> Refused
    ensures told { IsUnturned known result }
    ensures same { IsUndone known refused → result ≡ refused }
    ensures fault { IsPageFault result → (result ≡ refused)
        × ((fault ≡ Some result) ⊎ ((fault ≡ None) × ((page : ℕ) × (result ≡ Refused.Damaged page)))) }
{
    match fault {
        Some(came) if is_page_fault(&refused) && came == refused => refused,
        None if matches!(refused, Refused::Damaged { .. }) => refused,
        _ => told_of(refused, known),
    }
}
