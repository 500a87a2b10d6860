//! A store beside the plain map: what is answered has been done to both, and what is refused to neither.
use fkv_device::Disk;
use fkv_functions::{Mergeable, Name, Refused};
use fkv_local::LocalStore;
use fkv_operations::{Answer, KeyedOp, KeyedOpOf, apply_plainly};
use fkv_partition::Config;
use rand_core::{Rng, SeedableRng};
use rand_xoshiro::Xoshiro256PlusPlus;
use std::alloc::Global;
use std::collections::BTreeMap;

/// Two frames of 256 bytes, in which three or four records stand, and few buckets, so that classes have many keys.
pub const SMALL: Config = Config {
    id: 1,
    partition_bits: 0,
    bucket_bits: 2,
    page_bits: 8,
    frames: 2,
    turns: 10,
};

/// Random operations, by a seed: so many, over so many keys, with a compaction after each so many.
#[derive(Clone, Copy, Debug)]
pub struct Plan {
    pub seed: u64,
    pub keys: u64,
    pub operations: u64,
    pub span: u64,
}

/// By which call an operation is made.
#[derive(Clone, Copy, Debug, PartialEq, Eq)]
enum Way {
    /// The one for all kinds.
    Any,
    /// The one that is named for its kind.
    Named,
    /// The one for updates that may be merged, where it is an update.
    Merged,
}

/// How often what was seen.
#[derive(Clone, Copy, Debug, PartialEq, Eq)]
pub struct Outcome {
    pub done: u64,
    pub declined: u64,
    /// Updates that were made merges.
    pub merged: u64,
    pub cuts: u64,
    pub refused: u64,
    /// The last refusal, if any.
    pub last: Option<Refused>,
}

const NOTHING: Outcome = Outcome {
    done: 0,
    declined: 0,
    merged: 0,
    cuts: 0,
    refused: 0,
    last: None,
};

/// A name of three letters and a number, if that is small.
pub fn name_of(number: u64) -> Option<Name> {
    Name::new(&[
        b'k',
        b'e',
        b'y',
        (number >> 8 & 0xff) as u8,
        (number & 0xff) as u8,
    ])
}

/// A store, the plain map of what it answered, and how often what was seen.
#[derive(Drop)]
pub struct Beside<
    F: Mergeable<Key = Name, Value = i128, Input = i64, Output = i128> + Copy,
    D: Disk,
> {
    functions: F,
    store: LocalStore<F, D>,
    plain: BTreeMap<Name, i128>,
    pub seen: Outcome,
}

impl<F: Mergeable<Key = Name, Value = i128, Input = i64, Output = i128> + Copy, D: Disk> Beside<
    F,
    D,
> {
    /// An empty store beside an empty map. A device that refuses once is asked again.
    pub fn new(
        alloc: Global,
        config: &Config,
        functions: F,
        device: &mut D,
    ) -> Result<Beside<F, D>, Refused> {
        let mut seen = NOTHING;
        let store = match LocalStore::open(alloc, config, functions, device) {
            Ok(store) => store,
            Err(refused) => {
                seen.refused = 1;
                seen.last = Some(refused);
                LocalStore::open(alloc, config, functions, device)?
            }
        };
        Ok(Beside {
            functions,
            store,
            plain: BTreeMap::new(alloc),
            seen,
        })
    }

    /// Notes a refusal.
    fn note(&mut self, refused: Refused) {
        self.seen.refused = self.seen.refused.saturating_add(1);
        self.seen.last = Some(refused);
    }

    /// Makes an operation.
    fn call(&mut self, op: KeyedOpOf<F>, way: Way) -> Result<Answer<i128>, Refused> {
        match (op, way) {
            (KeyedOp::Read(key, input), Way::Named) => self.store.read(&key, &input),
            (KeyedOp::Upsert(key, value), Way::Named) => self.store.upsert(&key, &value),
            (KeyedOp::Rmw(key, input), Way::Named) => self.store.rmw(&key, &input),
            (KeyedOp::Rmw(key, input), Way::Merged) => self.store.update_or_merge(&key, &input),
            (KeyedOp::Delete(key), Way::Named) => self.store.delete(&key),
            (KeyedOp::Merge(key, input), Way::Named) => self.store.merge(&key, &input),
            (op, _) => self.store.run(op),
        }
    }

    /// Whether an operation may be answered so that the plain map answers otherwise: an update that was made a merge.
    fn may_be_merged(op: KeyedOpOf<F>, way: Way, answer: Answer<i128>) -> bool {
        F::MERGES
            && way == Way::Merged
            && answer == Answer::Stored
            && matches!(op, KeyedOp::Rmw(..))
    }

    /// Whether an operation is answered as by the plain map, or is refused and leaves the store the map that it was.
    fn is_right(&mut self, op: KeyedOpOf<F>, way: Way) -> bool {
        match self.call(op, way) {
            Ok(answer) => {
                self.seen.done = self.seen.done.saturating_add(1);
                if answer == Answer::Declined {
                    self.seen.declined = self.seen.declined.saturating_add(1);
                }
                let plainly = apply_plainly(&self.functions, &mut self.plain, op);
                if Self::may_be_merged(op, way, answer) {
                    self.seen.merged = self.seen.merged.saturating_add(1);
                    return plainly.is_ok();
                }
                plainly == Ok(answer)
            }
            // a merge of functions that don't is refused each time
            Err(Refused::NoMerge) => op.is_merge() && !F::MERGES,
            Err(refused) => {
                self.note(refused);
                self.is_plain()
            }
        }
    }

    /// Compacts the store. Whether anything was cut is counted.
    fn compact(&mut self) {
        match self.store.compact() {
            Ok(true) => self.seen.cuts = self.seen.cuts.saturating_add(1),
            Ok(false) => {}
            Err(refused) => self.note(refused),
        }
    }

    /// Whether the store is the plain map. A list that is refused once is asked for again.
    pub fn is_plain(&mut self) -> bool {
        let live = match self.store.live() {
            Err(refused) => {
                self.note(refused);
                self.store.live()
            }
            live => live,
        };
        match live {
            Ok(live) => {
                live.len() == self.plain.len()
                    && live
                        .iter()
                        .all(|(key, value)| self.plain.get(key) == Some(value))
            }
            Err(_) => false,
        }
    }

    /// How often what was seen, where the lists of the store are the plain map, each of the keys of its partition. A list that
    /// is refused once is asked for again.
    fn listed(self) -> Option<Outcome> {
        let Beside {
            store,
            plain,
            mut seen,
            ..
        } = self;
        let mut lists = store.into_lists();
        let mut count = 0usize;
        for _list in 0..lists.len() {
            let list = match lists.next() {
                Err(refused) => {
                    seen.refused = seen.refused.saturating_add(1);
                    seen.last = Some(refused);
                    lists.next()
                }
                list => list,
            };
            let Ok(Some(list)) = list else {
                return None;
            };
            let home = lists.len() as u64;
            let is_own = list.iter().all(|(key, value)| {
                let rest = lists
                    .functions()
                    .hash(key)
                    .checked_rem(lists.count() as u64);
                rest == Some(home) && plain.get(key) == Some(value)
            });
            if !is_own {
                return None;
            }
            count = count.saturating_add(list.len());
        }
        if count == plain.len() {
            Some(seen)
        } else {
            None
        }
    }

    /// Makes these operations, and says whether each was right, and whether the store is the plain map at the end.
    pub fn is_plain_after(&mut self, plan: &Plan) -> bool {
        let mut rng = Xoshiro256PlusPlus::seed_from_u64(plan.seed);
        for at in 0..plan.operations {
            let word = rng.next_u64();
            let Some(op) = random_op::<F>(word, plan.keys) else {
                return false;
            };
            let way = match word >> 62 {
                0 => Way::Any,
                1 => Way::Merged,
                _ => Way::Named,
            };
            if !self.is_right(op, way) {
                return false;
            }
            if at.wrapping_add(1).checked_rem(plan.span) == Some(0) {
                self.compact();
            }
        }
        self.is_plain()
    }
}

/// The operation that a random word names, on one of so many keys.
fn random_op<F: Mergeable<Key = Name, Value = i128, Input = i64>>(
    word: u64,
    keys: u64,
) -> Option<KeyedOpOf<F>> {
    let key = name_of((word & 0xffff).checked_rem(keys)?)?;
    let input = (word >> 16 & 0xfff) as i64 - 1_000;
    Some(match word >> 32 & 7 {
        0 | 1 => KeyedOp::Read(key, input),
        2 => KeyedOp::Upsert(key, i128::from(input)),
        3 => KeyedOp::Delete(key),
        4 => KeyedOp::Merge(key, input),
        _ => KeyedOp::Rmw(key, input),
    })
}

/// What these operations come to over so many partitions, where all is as the plain map has it, the lists at the end too.
pub fn outcome_of<
    F: Mergeable<Key = Name, Value = i128, Input = i64, Output = i128> + Copy,
    D: Disk,
>(alloc: Global, functions: F, device: D, partition_bits: u64, plan: &Plan) -> Option<Outcome> {
    let mut device = device;
    let config = Config {
        partition_bits,
        ..SMALL
    };
    let Ok(mut beside) = Beside::new(alloc, &config, functions, &mut device) else {
        return None;
    };
    if beside.is_plain_after(plan) {
        beside.listed()
    } else {
        None
    }
}
