//! A store of counts, as one of whole numbers.
ghost use Rattle.std.specs.Prelude.{◌≡◌, true, IfOk, IfErr, IfSome, MatchOption, OnOk};
ghost use Rattle.std.specs.Int.{w64, FitsUnsigned};
ghost use Rattle.fkv_functions.specs.Names.{name_cmp};
ghost use Rattle.fkv_local.specs.Storing.{plain};
ghost use Rattle.fkv_c.specs.Counting.{counted, whole, whole_op, whole_answer};
ghost use Rattle.fkv_c.specs.Stores.{name_code, IsUncounted, SetsOnly};
ghost use Rattle.fkv_c.specs.Leading.{IsMade, IsWorkFault};

use crate::faults::Fault;
use crate::sets::AnyOp;
use crate::stores::run_store;
use fkv_device::MemoryDevice;
use fkv_functions::{CountFns, Name};
use fkv_local::LocalStore;
use fkv_operations::{Answer, KeyedOp};

/// Makes an operation.
pub(crate) fn run_counts(
    store: &mut LocalStore<CountFns, MemoryDevice>,
    op: AnyOp,
) -> Result<Answer<i128>, Fault>
    ensures made { IsMade counted (whole (plain name_cmp name_code store.old)) (whole (plain name_cmp name_code store.new)) op result }
    ensures fits { OnOk result (SetsOnly (FitsUnsigned w64) op) }
    ensures told { IfErr result (IsWorkFault (SetsOnly (FitsUnsigned w64) op) (IsUncounted store.old store.new op)) }
{
    let Some(op) = counting(op) else {
        return Err(Fault::OutOfRange);
    };
    match run_store(store, op) {
        Ok(answer) => Ok(widened(answer)),
        Err(fault) => Err(fault),
    }
}

/// The same operation, where its value is a count.
fn counting(op: AnyOp) -> Option<KeyedOp<Name, u64, i64>>
    ensures same { IfSome result (λ count. whole_op count ≡ op) }
    ensures fits { MatchOption result (SetsOnly (FitsUnsigned w64) op → ⊥) (λ _. SetsOnly (FitsUnsigned w64) op) }
{
    match op {
        KeyedOp::Read(key, input) => Some(KeyedOp::Read(key, input)),
        KeyedOp::Upsert(key, value) => match u64::try_from(value) {
            Ok(value) => Some(KeyedOp::Upsert(key, value)),
            Err(_) => None,
        },
        KeyedOp::Rmw(key, input) => Some(KeyedOp::Rmw(key, input)),
        KeyedOp::Delete(key) => Some(KeyedOp::Delete(key)),
        KeyedOp::Merge(key, input) => Some(KeyedOp::Merge(key, input)),
    }
}

/// The same answer.
fn widened(answer: Answer<u64>) -> Answer<i128>
    ensures { result ≡ whole_answer answer }
{
    match answer {
        Answer::Value(value) => Answer::Value(i128::from(value)),
        Answer::Absent => Answer::Absent,
        Answer::Stored => Answer::Stored,
        Answer::Deleted => Answer::Deleted,
        Answer::Cleared => Answer::Cleared,
        Answer::Declined => Answer::Declined,
    }
}
