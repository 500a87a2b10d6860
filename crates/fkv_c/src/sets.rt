//! The sets of functions that C has, and the calls on what a handle leads to.
ghost use Rattle.std.specs.Prelude.{◌≡◌, true, false, None, Some, IfOk, IfErr, IfSome, MatchOption, OnOk, FitsSigned};
ghost use Rattle.std.specs.Int.{w64};
ghost use Rattle.fkv_functions.specs.declared.refusals.Refused.TheVariants.{NoMemory};
ghost use Rattle.fkv_functions.specs.Names.{name_cmp};
ghost use Rattle.fkv_functions.specs.Plain.{Same};
ghost use Rattle.fkv_functions.specs.Sets.{maxima};
ghost use Rattle.fkv_local.specs.Storing.{plain, IsRun};
ghost use Rattle.fkv_c.specs.Statuses.{fault_number};
ghost use Rattle.fkv_c.specs.Stores.{name_code, HasSettings, IsKindNumber, IsGood, IsUnmade, SetsOnly, FitsIn};
ghost use Rattle.fkv_c.specs.Stores.{IsUnmadeBy, Refuses, RefusesCompaction, RefusesList, Compacts};
ghost use Rattle.fkv_c.specs.Leading.{Store, IsStore, Cursor, cursor_of, kind_of, set_of, store_kind, meaning_of, map_of, cells_of, LeadsAsMuch};
ghost use Rattle.fkv_c.specs.Leading.{pairs_of, FirstIsLeast, IsMade, TakesFirst, AreCounts, IsWorkFault, IsStoreFault, IsNumberFault};
ghost use Rattle.fkv_c.specs.Leading.{counts_status, next_status};

use crate::cells::CellFns;
use crate::counting::run_counts;
use crate::faults::Fault;
use crate::handles::Held;
use crate::stores::{compact_store, list_store, run_store};
use fkv_device::MemoryDevice;
use fkv_functions::{CappedSumFns, CountFns, MaxFns, Name, SumFns};
use fkv_local::{LocalStore, StoreCounts};
use fkv_operations::{Answer, KeyedOp};
use fkv_partition::Config;
use std::alloc::Global;

/// An operation of any of the sets of numbers.
pub(crate) type AnyOp = KeyedOp<Name, i128, i64>;

/// An empty store of the functions of this number.
pub(crate) fn made(alloc: Global, kind: u32, config: &Config) -> Result<Held, Fault>
    ensures set { IfOk result (λ h. set_of (Some h) ≡ kind) }
    ensures store { IfOk result (λ h. kind_of (Some h) ≡ store_kind kind) }
    ensures empty { IfOk result (λ h. (k : Name) → map_of (Some h) k ≡ None) }
    ensures no_cells { IfOk result (λ h. (k : Name) → cells_of (Some h) k ≡ None) }
    ensures settings { IfOk result (λ h. HasSettings (Some h) config.now) }
    ensures known { OnOk result (IsKindNumber kind) }
    ensures good { OnOk result (IsGood kind config.now) }
    ensures told { IfErr result (IsUnmade kind config.now) }
{
    let device = &mut MemoryDevice::new(alloc);
    match kind {
        1 => match LocalStore::open(alloc, config, SumFns, device) {
            Ok(store) => Ok(Held::Sums(store)),
            Err(refused) => Err(Fault::Refused(refused)),
        },
        2 => match LocalStore::open(alloc, config, MaxFns, device) {
            Ok(store) => Ok(Held::Maxima(store)),
            Err(refused) => Err(Fault::Refused(refused)),
        },
        3 => match LocalStore::open(alloc, config, CappedSumFns, device) {
            Ok(store) => Ok(Held::CappedSums(store)),
            Err(refused) => Err(Fault::Refused(refused)),
        },
        4 => match LocalStore::open(alloc, config, CountFns, device) {
            Ok(store) => Ok(Held::Counts(store)),
            Err(refused) => Err(Fault::Refused(refused)),
        },
        5 => match LocalStore::open(alloc, config, CellFns, device) {
            Ok(store) => Ok(Held::Cells(store)),
            Err(refused) => Err(Fault::Refused(refused)),
        },
        _ => Err(Fault::BadKind),
    }
}

/// Makes an operation on a store of numbers.
pub(crate) fn operate_held(held: &mut Held, op: AnyOp) -> Result<Answer<i128>, Fault>
    ensures made { IsMade (meaning_of (Some held.old)) (map_of (Some held.old)) (map_of (Some held.new)) op result }
    ensures kind { kind_of (Some held.new) ≡ kind_of (Some held.old) }
    ensures set { set_of (Some held.new) ≡ set_of (Some held.old) }
    ensures store { OnOk result (kind_of (Some held.old) ≡ Store) }
    ensures cells { Same (cells_of (Some held.new)) (cells_of (Some held.old)) }
    ensures fits { OnOk result (FitsIn (Some held.old) op) }
    ensures told { IfErr result (IsNumberFault (kind_of (Some held.old)) (FitsIn (Some held.old) op)
        (Refuses (Some held.old) (Some held.new) op)) }
{
    match held {
        Held::Sums(store) => run_store(store, op),
        Held::Maxima(store) => run_maxima(store, op),
        Held::CappedSums(store) => run_store(store, op),
        Held::Counts(store) => run_counts(store, op),
        Held::Cells(_) => Err(Fault::NotNumbers),
        Held::SumPairs(_) | Held::MaxPairs(_) | Held::CountPairs(_) | Held::CellPairs(_) => {
            Err(Fault::NotAStore)
        }
    }
}

/// The same of maxima, whose values have 64 bits.
fn run_maxima(
    store: &mut LocalStore<MaxFns, MemoryDevice>,
    op: AnyOp,
) -> Result<Answer<i128>, Fault>
    ensures made { IsMade maxima (plain name_cmp name_code store.old) (plain name_cmp name_code store.new) op result }
    ensures fits { OnOk result (SetsOnly (FitsSigned w64) op) }
    ensures told { IfErr result (IsWorkFault (SetsOnly (FitsSigned w64) op)
        (IsUnmadeBy true name_code store.old store.new op)) }
{
    let Some(op) = narrowed(op) else {
        return Err(Fault::OutOfRange);
    };
    match run_store(store, op) {
        Ok(answer) => Ok(widened(answer)),
        Err(fault) => Err(fault),
    }
}

/// The same operation, where its value has 64 bits.
fn narrowed(op: AnyOp) -> Option<KeyedOp<Name, i64, i64>>
    ensures same { IfSome result (λ narrow. narrow ≡ op) }
    ensures fits { MatchOption result (SetsOnly (FitsSigned w64) op → ⊥) (λ _. SetsOnly (FitsSigned w64) op) }
{
    match op {
        KeyedOp::Read(key, input) => Some(KeyedOp::Read(key, input)),
        KeyedOp::Upsert(key, value) => match i64::try_from(value) {
            Ok(value) => Some(KeyedOp::Upsert(key, value)),
            Err(_) => None,
        },
        KeyedOp::Rmw(key, input) => Some(KeyedOp::Rmw(key, input)),
        KeyedOp::Delete(key) => Some(KeyedOp::Delete(key)),
        KeyedOp::Merge(key, input) => Some(KeyedOp::Merge(key, input)),
    }
}

/// The same answer.
fn widened(answer: Answer<i64>) -> Answer<i128>
    ensures { result ≡ answer }
{
    match answer {
        Answer::Value(value) => Answer::Value(i128::from(value)),
        Answer::Absent => Answer::Absent,
        Answer::Stored => Answer::Stored,
        Answer::Deleted => Answer::Deleted,
        Answer::Cleared => Answer::Cleared,
        Answer::Declined => Answer::Declined,
    }
}

/// Appends what lives at the start of the logs again, and cuts that start. Answers whether any was cut.
pub(crate) fn compact_held(held: &mut Held) -> Result<bool, Fault>
    ensures same { LeadsAsMuch (Some held.old) (Some held.new) }
    ensures kind { kind_of (Some held.new) ≡ kind_of (Some held.old) }
    ensures set { set_of (Some held.new) ≡ set_of (Some held.old) }
    ensures store { OnOk result (IsStore (kind_of (Some held.old))) }
    ensures compacts { IfOk result (Compacts (Some held.old) (Some held.new)) }
    ensures told { IfErr result (IsStoreFault (kind_of (Some held.old)) (RefusesCompaction (Some held.old) (Some held.new))) }
{
    match held {
        Held::Sums(store) => compact_store(store),
        Held::Maxima(store) => compact_store(store),
        Held::CappedSums(store) => compact_store(store),
        Held::Counts(store) => compact_store(store),
        Held::Cells(store) => compact_store(store),
        Held::SumPairs(_) | Held::MaxPairs(_) | Held::CountPairs(_) | Held::CellPairs(_) => {
            Err(Fault::NotAStore)
        }
    }
}

/// How much a store holds.
pub(crate) fn counts_held(held: &Held) -> Result<StoreCounts, Fault>
    ensures counted { IfOk result (λ c. AreCounts (Some held.now) c.bytes c.evicted c.moments) }
    ensures store { OnOk result (counts_status (kind_of (Some held.now)) ≡ 0) }
    ensures told { IfErr result (λ why. fault_number why ≡ counts_status (kind_of (Some held.now))) }
{
    match held {
        Held::Sums(store) => Ok(store.counts()),
        Held::Maxima(store) => Ok(store.counts()),
        Held::CappedSums(store) => Ok(store.counts()),
        Held::Counts(store) => Ok(store.counts()),
        Held::Cells(store) => Ok(store.counts()),
        Held::SumPairs(_) | Held::MaxPairs(_) | Held::CountPairs(_) | Held::CellPairs(_) => {
            Err(Fault::NotAStore)
        }
    }
}

/// The pairs of a store, for a cursor.
pub(crate) fn live_held(held: &mut Held) -> Result<Held, Fault>
    ensures pairs { IfOk result (λ pairs. LeadsAsMuch (Some held.old) (Some pairs)) }
    ensures cursor { IfOk result (λ pairs. kind_of (Some pairs) ≡ cursor_of (kind_of (Some held.old))) }
    ensures same { LeadsAsMuch (Some held.old) (Some held.new) }
    ensures kind { kind_of (Some held.new) ≡ kind_of (Some held.old) }
    ensures set { set_of (Some held.new) ≡ set_of (Some held.old) }
    ensures store { OnOk result (IsStore (kind_of (Some held.old))) }
    ensures unfailed { OnOk result (RefusesList (Some held.old) (Some held.new) NoMemory) }
    ensures told { IfErr result (IsStoreFault (kind_of (Some held.old)) (RefusesList (Some held.old) (Some held.new))) }
{
    match held {
        Held::Sums(store) => match list_store(store) {
            Ok(pairs) => Ok(Held::SumPairs(pairs)),
            Err(fault) => Err(fault),
        },
        Held::Maxima(store) => match list_store(store) {
            Ok(pairs) => Ok(Held::MaxPairs(pairs)),
            Err(fault) => Err(fault),
        },
        Held::CappedSums(store) => match list_store(store) {
            Ok(pairs) => Ok(Held::SumPairs(pairs)),
            Err(fault) => Err(fault),
        },
        Held::Counts(store) => match list_store(store) {
            Ok(pairs) => Ok(Held::CountPairs(pairs)),
            Err(fault) => Err(fault),
        },
        Held::Cells(store) => match list_store(store) {
            Ok(pairs) => Ok(Held::CellPairs(pairs)),
            Err(fault) => Err(fault),
        },
        Held::SumPairs(_) | Held::MaxPairs(_) | Held::CountPairs(_) | Held::CellPairs(_) => {
            Err(Fault::NotAStore)
        }
    }
}

/// The least pair that a cursor over numbers still has, which it has no more then.
pub(crate) fn next_held(held: &mut Held) -> Result<Option<(Name, i128)>, Fault>
    ensures told { IfOk result (λ pair. TakesFirst (pairs_of (Some held.old)) (pairs_of (Some held.new)) pair) }
    ensures least { OnOk result (FirstIsLeast (pairs_of (Some held.old))) }
    ensures kind { kind_of (Some held.new) ≡ kind_of (Some held.old) }
    ensures cursor { OnOk result (kind_of (Some held.old) ≡ Cursor) }
    ensures why { IfErr result (λ why. fault_number why ≡ next_status (kind_of (Some held.old))) }
    ensures same { IfErr result (λ why. held.new ≡ held.old) }
{
    match held {
        Held::SumPairs(pairs) => Ok(pairs.pop_first()),
        Held::MaxPairs(pairs) => match pairs.pop_first() {
            None => Ok(None),
            Some((name, value)) => Ok(Some((name, i128::from(value)))),
        },
        Held::CountPairs(pairs) => match pairs.pop_first() {
            None => Ok(None),
            Some((name, value)) => Ok(Some((name, i128::from(value)))),
        },
        Held::CellPairs(_) => Err(Fault::NotNumbers),
        Held::Sums(_) | Held::Maxima(_) | Held::CappedSums(_) | Held::Counts(_) | Held::Cells(_) =>
            Err(Fault::NotACursor),
    }
}
