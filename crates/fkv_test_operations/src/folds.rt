//! What operations on keys of one letter come to, one after the other: the plain map of sums, in an array.
ghost use Rattle.std.specs.Prelude.{◌<◌};

use crate::letters::letter;
use fkv_functions::Name;
use fkv_operations::{Answer, Op};

/// The sum of each letter, if it has one.
#[derive(Drop)]
pub struct Fold {
    sums: [Option<i128>; 256],
}

/// Where the sum of a key stands.
fn place(key: &Name) -> usize
    ensures { result < 256 }
{
    usize::from(letter(key))
}

impl Fold {
    /// No letter has a sum.
    pub fn new() -> Fold {
        Fold { sums: [None; 256] }
    }

    /// The sum of a letter once this amount is added, which it now has.
    fn added(&mut self, key: &Name, amount: i64) -> i128 {
        let old = self.sums[place(key)].unwrap_or(0);
        let sum = old.wrapping_add(i128::from(amount));
        self.sums[place(key)] = Some(sum);
        sum
    }

    /// Does an operation, and answers it. A relocation changes no sum.
    pub fn answer(&mut self, op: &Op<Name, i128, i64>) -> Answer<i128> {
        match op {
            Op::Read(key, _) => match self.sums[place(key)] {
                Some(sum) => Answer::Value(sum),
                None => Answer::Absent,
            },
            Op::Upsert(key, sum) => {
                self.sums[place(key)] = Some(*sum);
                Answer::Stored
            }
            Op::Rmw(key, amount) => Answer::Value(self.added(key, *amount)),
            Op::Delete(key) => {
                self.sums[place(key)] = None;
                Answer::Deleted
            }
            Op::Merge(key, amount) => {
                let _ = self.added(key, *amount);
                Answer::Stored
            }
            Op::Relocate => Answer::Cleared,
        }
    }

    /// How many letters have a sum.
    pub fn count(&self) -> usize {
        self.sums.iter().filter(|sum| sum.is_some()).count()
    }

    /// Whether a letter has this sum.
    pub fn has(&self, letter: u8, sum: i128) -> bool {
        self.sums[usize::from(letter)] == Some(sum)
    }

    /// Whether these are the letters with their sums; a map has no key twice.
    pub fn is_map(&self, pairs: &[(Name, i128)]) -> bool {
        pairs.len() == self.count() && pairs.iter().all(|(key, sum)| self.has(letter(key), *sum))
    }
}
