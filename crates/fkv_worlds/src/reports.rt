//! What a world reports: its outcomes, its lives, and the live map of all partitions.
ghost use Rattle.std.specs.Prelude.{◌≡◌, [], IfOk, IfErr, OnOk};
ghost use Rattle.std.specs.BTreeMap.{get, is_at};
ghost use Rattle.std.specs.Map.{lookup, keys_of};
ghost use Rattle.std.specs.List.Sorted.{IsStrictlySortedBy};
ghost use Rattle.fkv_functions.specs.Plain.{Same};
ghost use Rattle.fkv_partition.specs.Unions.{union_of};
ghost use Rattle.fkv_worlds.specs.Reports.{IsReport};

use crate::flush_slots::reader;
use crate::states::State;
use crate::worlds::World;
use fkv_functions::{Functions, Mergeable, Refused};
use fkv_lives::lives::Life;
use fkv_lives::outcomes::Outcome;
use fkv_partition::pairs_of;
use std::alloc::Global;
use std::collections::BTreeMap;

/// What became of a list of steps.
#[derive(Drop)]
pub struct Report<K, V, I, O> {
    /// The outcome of each step, refused ones included, in order.
    pub outcomes: Vec<Result<Outcome<V, O>, Refused>>,
    /// What became of each operation that was issued, in the order of the issues.
    pub lives: Vec<Life<K, V, I, O>>,
    /// Each live key of all partitions with its value, keys rising.
    pub map: Vec<(K, V)>,
}

/// The reports of one type of functions.
pub type ReportOf<F> = Report<
    <F as Functions>::Key,
    <F as Functions>::Value,
    <F as Functions>::Input,
    <F as Functions>::Output,
>;

/// A list with the same items. Refused: `NoMemory`.
fn copied<T: Copy>(alloc: Global, items: &[T]) -> Result<Vec<T>, Refused>
    ensures ok { IfOk result (λ copy. copy.items ≡ items.now) }
    ensures only { IfErr result (λ refused. refused ≡ Refused.NoMemory) }
{
    match Vec::from_slice(alloc, items) {
        Ok(copy) => Ok(copy),
        Err(_) => Err(Refused::NoMemory),
    }
}

/// A report of these outcomes, lives and pairs. Refused: `NoMemory`.
fn report_of<K: Copy + Drop, V: Copy + Drop, I: Copy, O: Copy>(
    alloc: Global,
    outcomes: &[Result<Outcome<V, O>, Refused>],
    lives: &[Life<K, V, I, O>],
    map: Vec<(K, V)>,
) -> Result<Report<K, V, I, O>, Refused>
    ensures ok { IfOk result (λ r. (r.outcomes.items ≡ outcomes.now) × (r.lives.items ≡ lives.now)
        × (r.map.items ≡ map.items)) }
    ensures only { IfErr result (λ refused. refused ≡ Refused.NoMemory) }
{
    let Ok(outcomes) = copied(alloc, outcomes) else {
        return Err(Refused::NoMemory);
    };
    let Ok(lives) = copied(alloc, lives) else {
        return Err(Refused::NoMemory);
    };
    Ok(Report {
        outcomes,
        lives,
        map,
    })
}

impl<F: Mergeable> State<F> {
    /// Each live key of all partitions with its value, keys rising. Refused: `NoMemory`.
    pub fn live(&self, functions: &F, alloc: Global) -> Result<Vec<(F::Key, F::Value)>, Refused>
        ensures map { IfOk result (λ pairs. (k : F.Key)
            → lookup (is_at (F.Key.cmp k)) pairs.items ≡ union_of F.Key.cmp F.code self.now.partitions k) }
        ensures rising { IfOk result (λ pairs. IsStrictlySortedBy F.Key.cmp (keys_of pairs.items)) }
        ensures only { IfErr result (λ refused. refused ≡ Refused.NoMemory) }
    {
        let mut map = BTreeMap::new(alloc);
        match self.gather(functions, &mut map, alloc) {
            Ok(()) => {
                let _ordered = map.len();
                pairs_of(alloc, &map)
            }
            Err(refused) => Err(refused),
        }
    }

    /// Puts each live key of all partitions with its value into an empty map. Refused: `NoMemory`.
    fn gather(
        &self,
        functions: &F,
        map: &mut BTreeMap<F::Key, F::Value>,
        alloc: Global,
    ) -> Result<(), Refused>
        requires { map.old.entries ≡ [] }
        ensures ok { OnOk result
            (Same (get F.Key.cmp map.new) (union_of F.Key.cmp F.code self.now.partitions)) }
        ensures only { IfErr result (λ refused. refused ≡ Refused.NoMemory) }
    {
        for partition in &self.partitions {
            // a device in memory refuses no page of the partition's size: what is refused is memory
            match partition.put_live(functions, &mut reader(alloc), map) {
                Ok(()) => (),
                Err(refused) => return Err(refused),
            }
        }
        Ok(())
    }
}

impl<F: Mergeable> World<F> {
    /// Each live key of all partitions with its value, keys rising. Refused: `NoMemory`.
    pub fn live(&self, functions: &F, alloc: Global) -> Result<Vec<(F::Key, F::Value)>, Refused>
        ensures map { IfOk result (λ pairs. (k : F.Key)
            → lookup (is_at (F.Key.cmp k)) pairs.items ≡ union_of F.Key.cmp F.code self.now.state.partitions k) }
        ensures rising { IfOk result (λ pairs. IsStrictlySortedBy F.Key.cmp (keys_of pairs.items)) }
        ensures only { IfErr result (λ refused. refused ≡ Refused.NoMemory) }
    {
        self.state.live(functions, alloc)
    }

    /// The report of the world as it is. Refused: `NoMemory`.
    pub fn report(&self, functions: &F, alloc: Global) -> Result<ReportOf<F>, Refused>
        ensures ok { IfOk result (λ r. IsReport F.Key.cmp F.code self.now r.outcomes.items r.lives.items r.map.items) }
        ensures only { IfErr result (λ refused. refused ≡ Refused.NoMemory) }
    {
        match self.state.live(functions, alloc) {
            Ok(map) => report_of(alloc, &self.outcomes, self.state.lives(), map),
            Err(refused) => Err(refused),
        }
    }
}
