//! The plain, slow program: operations on a sorted map, one after the other.
ghost use Rattle.std.specs.Prelude.{◌≡◌, [], ◌∷◌, ◌++◌, Option, None, Ok, Err, IfOk, IfErr, OnOk, OnErr};
ghost use Rattle.std.specs.BTreeMap.{get, IsOrdered};
ghost use Rattle.fkv_functions.specs.Meanings.{updated};
ghost use Rattle.fkv_functions.specs.Plain.{Same};
ghost use Rattle.fkv_operations.specs.After.{after, answer, after_all, answers, shown_of};

use crate::maps::give;
use crate::operations::{Answer, AnswerOf, KeyedOp, KeyedOpOf};
use fkv_functions::{Functions, Mergeable, Refused};
use std::alloc::Global;
use std::collections::BTreeMap;

/// What a list of operations leaves and answers.
#[derive(Drop)]
pub struct PlainRun<F: Mergeable> {
    /// The value of each key that has one.
    pub map: BTreeMap<F::Key, F::Value>,
    /// The answers, in the order of the operations.
    pub answers: Vec<AnswerOf<F>>,
}

/// What the key's value, or none, shows to this input.
pub fn shown<F: Mergeable>(
    functions: &F,
    key: &F::Key,
    input: &F::Input,
    held: Option<F::Value>,
) -> AnswerOf<F>
    ensures { result ≡ shown_of F.meaning key.now input.now held }
{
    match held {
        None => Answer::Absent,
        Some(value) => Answer::Value(functions.read(key, input, &value)),
    }
}

/// Does one operation to the map. Refused: `NoMemory`, and then the map is as it was.
pub fn apply_plainly<F: Mergeable>(
    functions: &F,
    map: &mut BTreeMap<F::Key, F::Value>,
    op: KeyedOpOf<F>,
) -> Result<AnswerOf<F>, Refused>
    ensures map { IfOk result
        (λ _. Same (get F.Key.cmp map.new) (after F.Key.cmp F.meaning (get F.Key.cmp map.old) op)) }
    ensures answer { IfOk result (λ told. told ≡ answer F.meaning (get F.Key.cmp map.old) op) }
    ensures unchanged { OnErr result (Same (get F.Key.cmp map.new) (get F.Key.cmp map.old)) }
    ensures only { IfErr result (λ refused. refused ≡ Refused.NoMemory) }
{
    match op {
        KeyedOp::Read(key, input) => {
            let held = map.get(&key).copied();
            Ok(shown(functions, &key, &input, held))
        }
        KeyedOp::Rmw(key, input) => update_plainly(functions, map, key, input),
        KeyedOp::Merge(key, input) => match update_plainly(functions, map, key, input) {
            Err(refused) => Err(refused),
            Ok(_answer) => Ok(Answer::Stored),
        },
        KeyedOp::Upsert(key, written) => match give(map, key, written) {
            Err(refused) => Err(refused),
            Ok(()) => Ok(Answer::Stored),
        },
        KeyedOp::Delete(key) => {
            map.remove(&key);
            Ok(Answer::Deleted)
        }
    }
}

/// Changes the value of a key by an input, or gives it its first one. A declined update leaves the map. Refused:
/// `NoMemory`, and then the map is as it was.
fn update_plainly<F: Mergeable>(
    functions: &F,
    map: &mut BTreeMap<F::Key, F::Value>,
    key: F::Key,
    input: F::Input,
) -> Result<AnswerOf<F>, Refused>
    ensures map { IfOk result
        (λ _. Same (get F.Key.cmp map.new) (after F.Key.cmp F.meaning (get F.Key.cmp map.old) (KeyedOp.Rmw key input))) }
    ensures answer { IfOk result (λ told. told ≡ answer F.meaning (get F.Key.cmp map.old) (KeyedOp.Rmw key input)) }
    ensures unchanged { OnErr result (Same (get F.Key.cmp map.new) (get F.Key.cmp map.old)) }
    ensures only { IfErr result (λ refused. refused ≡ Refused.NoMemory) }
{
    let held = map.get(&key).copied();
    let Some(value) = updated(functions, &key, &input, held) else {
        return Ok(Answer::Declined);
    };
    match give(map, key, value) {
        Err(refused) => Err(refused),
        Ok(()) => Ok(Answer::Value(functions.read(&key, &input, &value))),
    }
}

/// What an update makes of the value that its key has, or of none; `None` where it is declined.
fn updated<F: Mergeable>(
    functions: &F,
    key: &F::Key,
    input: &F::Input,
    held: Option<F::Value>,
) -> Option<F::Value>
    ensures { result ≡ updated F.meaning key.now input.now held }
{
    match held {
        None => functions.initial(key, input),
        Some(value) => functions.copy(key, input, &value),
    }
}

/// Does one operation, and adds what it answers to what was told. Refused: `NoMemory`.
fn tell<F: Mergeable>(
    functions: &F,
    map: &mut BTreeMap<F::Key, F::Value>,
    told: &mut Vec<AnswerOf<F>>,
    op: KeyedOpOf<F>,
) -> Result<(), Refused>
    ensures map { OnOk result (Same (get F.Key.cmp map.new) (after F.Key.cmp F.meaning (get F.Key.cmp map.old) op)) }
    ensures told { OnOk result
        (told.new.items ≡ told.old.items ++ answer F.meaning (get F.Key.cmp map.old) op ∷ []) }
    ensures only { IfErr result (λ refused. refused ≡ Refused.NoMemory) }
{
    if told.reserve(1).is_err() {
        return Err(Refused::NoMemory);
    }
    let one = match apply_plainly(functions, map, op) {
        Err(refused) => return Err(refused),
        Ok(one) => one,
    };
    if told.push(one).is_err() {
        return Err(Refused::NoMemory);
    }
    Ok(())
}

/// Does the operations in order, from no keys. Refused: `NoMemory`.
pub fn run_plainly<F: Mergeable>(
    alloc: Global,
    functions: &F,
    ops: &[KeyedOpOf<F>],
) -> Result<PlainRun<F>, Refused>
    ensures map { IfOk result
        (λ run. Same (get F.Key.cmp run.map) (after_all F.Key.cmp F.meaning (λ key. None) ops.now)) }
    ensures answers { IfOk result
        (λ run. run.answers.items ≡ answers F.Key.cmp F.meaning (λ key. None) ops.now) }
    ensures only { IfErr result (λ refused. refused ≡ Refused.NoMemory) }
{
    let mut map = BTreeMap::new(alloc);
    let mut told = Vec::new(alloc);
    for op in ops {
        tell(functions, &mut map, &mut told, *op)?;
    }
    Ok(PlainRun { map, answers: told })
}
