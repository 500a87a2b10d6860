//! The configuration of a store, and its limits.
ghost use Rattle.std.specs.Prelude.{◌≡◌, ◌-◌, ◌/◌, ◌^◌, ◌<◌, ◌≤◌, ◌↔◌, IsTrue, IsSome, IfSome};
ghost use Rattle.fkv_records.specs.Records.{size_of};

use fkv_functions::Fixed;
use fkv_records::{Shape, record_size};

/// The configuration of a store. A number outside its limits is `BadConfig`.
#[derive(Clone, Copy, PartialEq, Eq, Debug)]
pub struct Config {
    /// The store's own number, any.
    pub id: u64,
    /// There are 2 to this many partitions: 0 to 6.
    pub partition_bits: u64,
    /// There are 2 to this many buckets in a partition's index: 0 to 20.
    pub bucket_bits: u64,
    /// A page has 2 to this many bytes: 8 to 20.
    pub page_bits: u64,
    /// The page frames of a partition: 2 to 1,024.
    pub frames: u64,
    /// The turns that an operation may take: 1 to 1,000,000,000.
    pub turns: u64,
}

impl Config {
    ghost use Rattle.fkv_partition.specs.Limits.{IsWithinLimits};

    /// Whether each number is within its limits, and a record of such a key and value has at most 192 bytes.
    pub fn is_within_limits<K: Fixed, V: Fixed>(&self) -> bool
        ensures { IsTrue result ↔ IsWithinLimits self.now (size_of K.SIZE V.SIZE) }
    {
        self.numbers_are_within_limits() && record_size::<K, V>().is_some()
    }

    fn numbers_are_within_limits(&self) -> bool
        ensures { IsTrue result ↔ IsWithinLimits self.now 0 }
    {
        self.partition_bits <= 6
            && self.bucket_bits <= 20
            && (8..=20).contains(&self.page_bits)
            && (2..=1024).contains(&self.frames)
            && (1..=1_000_000_000).contains(&self.turns)
    }

    /// The shape of a partition's log for records of such keys and values, where all is within its limits.
    pub(crate) fn shape<K: Fixed, V: Fixed>(&self) -> Option<Shape>
        ensures some { IfSome result
            (λ s. (s.page_bits ≡ self.now.page_bits) × (s.record_size ≡ size_of K.SIZE V.SIZE)) }
        ensures range { IsSome result ↔ IsWithinLimits self.now (size_of K.SIZE V.SIZE) }
    {
        if !self.numbers_are_within_limits() {
            return None;
        }
        let Some(size) = record_size::<K, V>() else {
            return None;
        };
        Shape::new(self.page_bits as u32, size)
    }

    /// How many partitions there are.
    pub fn partitions(&self) -> u64
        requires { self.now.partition_bits ≤ 6 }
        ensures count { result ≡ 2 ^ self.now.partition_bits }
        ensures some { 0 < result }
    {
        1 << self.partition_bits
    }
}

/// The page below which a log of so many frames is to be read only, while its tail stands in this page: an eighth of the frames, and
/// one, hold records that are read only, and in all others they change in place. The read-only pages give who writes them a time to do
/// it, and a record that is often updated one to be copied to the tail before it leaves memory.
pub fn read_only_page(frames: u64, tail: u64) -> u64
    ensures { result ≡ tail - (frames - 3 - frames / 8) }
{
    tail.saturating_sub(frames.saturating_sub(3).saturating_sub(frames / 8))
}

/// The page below which pages are to leave memory, while the tail of a log of so many frames stands in this page: so that the page
/// behind the tail's finds its frame free.
pub fn kept_page(frames: u64, tail: u64) -> u64
    ensures { result ≡ tail - (frames - 2) }
{
    tail.saturating_sub(frames.saturating_sub(2))
}
