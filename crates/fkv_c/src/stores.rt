//! The calls on a store in memory, of any functions of names: each refusal is one that memory has.
ghost use Rattle.std.specs.Prelude.{◌≡◌, IfOk, IfErr, OnOk};
ghost use Rattle.std.specs.BTreeMap.{get};
ghost use Rattle.fkv_functions.specs.declared.refusals.Refused.TheVariants.{NoMemory};
ghost use Rattle.fkv_functions.specs.Names.{name_cmp};
ghost use Rattle.fkv_functions.specs.Plain.{Same};
ghost use Rattle.fkv_local.specs.Storing.{plain};
ghost use Rattle.fkv_c.specs.Stores.{IsUnmadeBy, IsCompacted, IsNotCompacted, IsNotListed};
ghost use Rattle.fkv_c.specs.Leading.{IsMade, IsRefusedBy};

use crate::faults::Fault;
use fkv_device::MemoryDevice;
use fkv_functions::{Mergeable, Name};
use fkv_local::LocalStore;
use fkv_operations::{Answer, KeyedOp};
use std::collections::BTreeMap;

/// Makes an operation: an update by the call that is for it, which is the fastest.
pub(crate) fn run_store<F: Mergeable<Key = Name, Input = i64>>(
    store: &mut LocalStore<F, MemoryDevice>,
    op: KeyedOp<Name, F::Value, i64>,
) -> Result<Answer<F::Output>, Fault>
    ensures made { IsMade F.meaning (plain name_cmp F.code store.old) (plain name_cmp F.code store.new) op result }
    ensures told { IfErr result (IsRefusedBy (IsUnmadeBy F.MERGES F.code store.old store.new op)) }
{
    match op {
        KeyedOp::Rmw(key, input) => match store.rmw(&key, &input) {
            Ok(answer) => Ok(answer),
            Err(refused) => Err(Fault::Refused(refused)),
        },
        other => match store.run(other) {
            Ok(answer) => Ok(answer),
            Err(refused) => Err(Fault::Refused(refused)),
        },
    }
}

/// Appends what lives at the start of the logs again, and cuts that start. Answers whether any was cut.
pub(crate) fn compact_store<F: Mergeable<Key = Name, Input = i64>>(
    store: &mut LocalStore<F, MemoryDevice>,
) -> Result<bool, Fault>
    ensures same { Same (plain name_cmp F.code store.new) (plain name_cmp F.code store.old) }
    ensures compacted { IfOk result (IsCompacted store.old store.new) }
    ensures told { IfErr result (IsRefusedBy (IsNotCompacted store.old store.new)) }
{
    match store.compact() {
        Ok(has_cut) => Ok(has_cut),
        Err(refused) => Err(Fault::Refused(refused)),
    }
}

/// The pairs of a store, keys rising.
pub(crate) fn list_store<F: Mergeable<Key = Name, Input = i64>>(
    store: &mut LocalStore<F, MemoryDevice>,
) -> Result<BTreeMap<Name, F::Value>, Fault>
    ensures pairs { IfOk result (λ pairs. Same (get name_cmp pairs) (plain name_cmp F.code store.old)) }
    ensures same { Same (plain name_cmp F.code store.new) (plain name_cmp F.code store.old) }
    ensures unfailed { OnOk result (IsNotListed store.old store.new NoMemory) }
    ensures told { IfErr result (IsRefusedBy (IsNotListed store.old store.new)) }
{
    match store.live() {
        Ok(pairs) => Ok(pairs),
        Err(refused) => Err(Fault::Refused(refused)),
    }
}
