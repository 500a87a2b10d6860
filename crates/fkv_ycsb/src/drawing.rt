//! How keys are drawn: each alike, or by Zipf's law as YCSB draws them.
ghost use Rattle.std.specs.Prelude.{◌<◌};

use fkv_functions::{Refused, fmix_64_hash};
use rand_core::{Rng, SeedableRng};
use rand_xoshiro::Xoshiro256PlusPlus;
use std::alloc::Global;
use std::num::{nearest_u64_to_f64, saturating_f64_to_u64};

/// How often a key is drawn.
#[derive(Clone, Copy, PartialEq, Eq, Debug)]
pub enum Law {
    /// As often as any other.
    Uniform,
    /// That of rank r with a share of about 1/r^0.99.
    Zipf,
}

/// The exponent of Zipf's law.
const THETA: f64 = 0.99;

/// 2^53: as many fractions does a word's draw tell apart.
const FRACTIONS: f64 = 9007199254740992.0;

/// What a draw by Zipf's law of so many keys needs, by the formula of Gray and others that YCSB uses.
#[derive(Clone, Copy, Debug)]
struct Zipf {
    keys: f64,
    total: f64,
    second: f64,
    eta: f64,
}

impl Zipf {
    fn of(keys: u64) -> Zipf {
        let mut total = 0.0;
        for rank in 1..=keys {
            total += 1.0 / nearest_u64_to_f64(rank).powf(THETA);
        }
        let second = 0.5f64.powf(THETA);
        let keys = nearest_u64_to_f64(keys);
        Zipf {
            keys,
            total,
            second,
            eta: (1.0 - (2.0 / keys).powf(1.0 - THETA)) / (1.0 - (1.0 + second) / total),
        }
    }

    /// The rank that a word draws, from 0.
    fn rank(&self, word: u64) -> u64 {
        let share = (word >> 11) as f64 / FRACTIONS;
        let weight = share * self.total;
        if weight < 1.0 {
            return 0;
        }
        if weight < 1.0 + self.second {
            return 1;
        }
        let spread = (self.eta * share - self.eta + 1.0).powf(1.0 / (1.0 - THETA));
        saturating_f64_to_u64(self.keys * spread)
    }
}

/// Draws keys from as many as are loaded.
#[derive(Clone, Copy, Debug)]
pub struct Drawer {
    keys: u64,
    zipf: Option<Zipf>,
    ghost some: { 0 < keys },
}

impl Drawer {
    /// One that draws from so many keys, by this law.
    pub fn new(law: Law, keys: u64) -> Drawer {
        let keys = keys.max(1);
        let zipf = match law {
            Law::Uniform => None,
            Law::Zipf => Some(Zipf::of(keys)),
        };
        Drawer { keys, zipf }
    }

    /// The key that a word draws. What is drawn by Zipf's law is a rank, whose hash leads to the key: so the keys that come
    /// often are not those that were loaded first.
    fn key(&self, word: u64) -> u64 {
        let drawn = match self.zipf {
            None => word,
            Some(zipf) => fmix_64_hash(zipf.rank(word)),
        };
        drawn % self.keys
    }

    /// So many keys, drawn by the generator that begins with this seed. Refused: `NoMemory`.
    pub fn list(&self, alloc: Global, count: u64, seed: u64) -> Result<Vec<u64>, Refused> {
        let mut words = Xoshiro256PlusPlus::seed_from_u64(seed);
        let mut list = Vec::new(alloc);
        for _ in 0..count {
            let key = self.key(words.next_u64());
            let Ok(()) = list.push(key) else {
                return Err(Refused::NoMemory);
            };
        }
        Ok(list)
    }
}

/// The numbers from `first` up to `end`, in order. Refused: `NoMemory`.
pub fn in_order(alloc: Global, first: u64, end: u64) -> Result<Vec<u64>, Refused> {
    let mut numbers = Vec::new(alloc);
    for value in first..end {
        let Ok(()) = numbers.push(value) else {
            return Err(Refused::NoMemory);
        };
    }
    Ok(numbers)
}
