//! What a run came to, and whether that is what its operations come to.
use crate::asking::Plan;
use crate::mixes::{Mix, upserted};
use std::collections::BTreeMap;
use std::io;
use std::time::Duration;

/// What a run came to.
#[derive(Drop)]
pub struct Outcome {
    /// What the operations took, of the thread that took longest.
    pub took: Duration,
    /// The processor time of the process meanwhile.
    pub processor: Duration,
    /// What the store was at the end.
    pub map: BTreeMap<u64, u64>,
}

impl Outcome {
    /// Whether each key that was loaded is there, and the values are what the operations come to: of updates the sum of all
    /// values is their number; of upserts each value is what an upsert of its key gives, or what it was loaded with.
    pub fn is_right(&self, plan: &Plan<'_>) -> bool {
        if self.map.len() as u64 != plan.keys {
            return false;
        }
        match plan.mix {
            Mix::Updates => self.sum() == plan.operations.wrapping_mul(plan.threads),
            Mix::Halves | Mix::Reads => self
                .map
                .iter()
                .all(|(key, value)| *value == 0 || *value == upserted(*key)),
            Mix::Nothing | Mix::Load => self.sum() == 0,
        }
    }

    /// The sum of all values, modulo 2^64.
    fn sum(&self) -> u64 {
        let mut sum = 0u64;
        for (_key, value) in &self.map {
            sum = sum.wrapping_add(*value);
        }
        sum
    }

    /// A number that two runs share that came to the same: the sum of each value times 2 and 1 for its key.
    pub fn digest(&self) -> u64 {
        let mut digest = 0u64;
        for (key, value) in &self.map {
            let weight = key.wrapping_mul(2).wrapping_add(1);
            digest = digest.wrapping_add(value.wrapping_mul(weight));
        }
        digest
    }

    /// Prints it, a line a fact.
    pub fn tell<P: Print>(&self, rt: &P, plan: &Plan<'_>) -> io::Result<()> {
        let operations = plan.operations.wrapping_mul(plan.threads);
        println!(rt; "operations {operations}")?;
        if plan.timed {
            let nanoseconds = self.took.as_nanos();
            let processor = self.processor.as_nanos();
            println!(rt; "nanoseconds {nanoseconds}")?;
            println!(rt; "processor nanoseconds {processor}")?;
            println!(rt; "operations a second {}", rate(operations, nanoseconds))?;
            println!(rt;
                "processor nanoseconds an operation {}",
                each(operations, processor)
            )?;
        }
        println!(rt; "digest {}", self.digest())
    }
}

/// How many a second these are.
fn rate(operations: u64, nanoseconds: u128) -> u128 {
    u128::from(operations).wrapping_mul(1_000_000_000) / nanoseconds.max(1)
}

/// How many nanoseconds each of these took.
fn each(operations: u64, nanoseconds: u128) -> u128 {
    nanoseconds / u128::from(operations).max(1)
}
