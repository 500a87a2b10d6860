//! What crosses: numbers, answers, pairs, configurations and counts.
ghost use Rattle.std.specs.Prelude.{◌≡◌, ◌≤◌, ◌-◌, ◌++◌, length, replicate, FitsSigned};
ghost use Rattle.std.specs.Int.{w128};
ghost use Rattle.fkv_c.specs.Crossing.{number_of, value_of, answer_of, nothing_of, config_of, pair_of};

use fkv_functions::Name;
use fkv_operations::Answer;
use fkv_partition::Config;

/// A whole number of 128 bits, two's complement: its low half, and its high half, which has the sign.
#[repr(C)]
#[derive(Clone, Copy)]
pub struct Number {
    pub low: u64,
    pub high: i64,
}

impl Number {
    /// The halves of a number.
    pub(crate) fn of(value: i128) -> Number
        ensures { result ≡ number_of value }
    {
        let bits = value.cast_unsigned();
        Number {
            low: (bits & 0xffff_ffff_ffff_ffff) as u64,
            high: ((bits >> 64) as u64).cast_signed(),
        }
    }

    /// The number of these halves.
    pub(crate) fn value(&self) -> i128
        ensures value { result ≡ value_of self.now }
        ensures fits { FitsSigned w128 result }
    {
        let bits = u128::from(self.low) + (u128::from(self.high.cast_unsigned()) << 64);
        bits.cast_signed()
    }
}

/// What an operation answers.
#[repr(C)]
#[derive(Clone, Copy)]
pub struct Told {
    /// 0 a value, 1 that the key has none, 2 that one was stored, 3 that the key was removed, 4 that the update was declined.
    pub kind: u64,
    /// The value, or 0.
    pub value: Number,
}

impl Told {
    /// What tells this answer.
    pub(crate) fn of(answer: Answer<i128>) -> Told
        ensures { result ≡ answer_of answer }
    {
        match answer {
            Answer::Value(value) => Told {
                kind: 0,
                value: Number::of(value),
            },
            Answer::Absent => Told::bare(1),
            Answer::Stored => Told::bare(2),
            Answer::Deleted => Told::bare(3),
            Answer::Declined => Told::bare(4),
            Answer::Cleared => Told::bare(5),
        }
    }

    /// An answer of this kind, which has no value.
    fn bare(kind: u64) -> Told
        ensures { result ≡ nothing_of kind }
    {
        Told {
            kind,
            value: Number { low: 0, high: 0 },
        }
    }
}

/// A key and its value.
#[repr(C)]
#[derive(Clone, Copy)]
pub struct Pair {
    /// 1 where there is one, 0 at the end.
    pub is_some: u64,
    /// How many bytes the key has.
    pub length: u64,
    /// The key's bytes, and zeros.
    pub key: [u8; 32],
    pub value: Number,
}

impl Pair {
    /// What tells this key and value, or that there is none.
    pub(crate) fn of(pair: Option<(Name, i128)>) -> Pair
        ensures { result ≡ pair_of pair }
    {
        match pair {
            None => Pair {
                is_some: 0,
                length: 0,
                key: [0; 32],
                value: Number { low: 0, high: 0 },
            },
            Some((name, value)) => Pair {
                is_some: 1,
                length: name.bytes().len() as u64,
                key: padded(name.bytes()),
                value: Number::of(value),
            },
        }
    }
}

/// These bytes, 32 at most, and zeros behind them.
pub(crate) fn padded(bytes: &[u8]) -> [u8; 32]
    requires { length bytes.now ≤ 32 }
    ensures { result ≡ bytes.now ++ replicate (32 - length bytes.now) 0 }
{
    let mut all = [0u8; 32];
    all[..bytes.len()].copy_from_slice(bytes);
    all
}

/// The numbers of a store's configuration, as `fkv_partition::Config` has them.
#[repr(C)]
#[derive(Clone, Copy)]
pub struct Settings {
    pub id: u64,
    pub partition_bits: u64,
    pub bucket_bits: u64,
    pub page_bits: u64,
    pub frames: u64,
    pub turns: u64,
}

impl Settings {
    /// The configuration of these numbers.
    pub(crate) fn config(&self) -> Config
        ensures { result ≡ config_of self.now }
    {
        Config {
            id: self.id,
            partition_bits: self.partition_bits,
            bucket_bits: self.bucket_bits,
            page_bits: self.page_bits,
            frames: self.frames,
            turns: self.turns,
        }
    }
}

/// How much a store holds.
#[repr(C)]
#[derive(Clone, Copy)]
pub struct Sizes {
    /// The bytes of the logs, from their beginnings to their tails.
    pub bytes: u64,
    /// Those of them that stand below Head: they left memory's frames, or are about to.
    pub evicted: u64,
    /// The moments that were taken.
    pub moments: u64,
}
