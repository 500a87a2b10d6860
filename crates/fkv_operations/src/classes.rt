//! The partition of a key, and its class within that.
ghost use Rattle.std.specs.Prelude.{◌≡◌, ◌≤◌, ◌%◌, ◌^◌, ℕ};
ghost use Rattle.fkv_operations.specs.Classes.{class_at, IsClass};

/// What a partition tells keys apart by when it looks for their records: all keys of one class share one entry of
/// the index.
#[derive(Clone, Copy, Debug)]
pub struct Class {
    /// Below 2^bucket_bits.
    pub bucket: usize,
    /// Below 2^15.
    pub tag: u16,
}

/// How many bits of a hash stand below its tag.
const TAG_SHIFT: u64 = 49;

/// The class of a hash: the bucket is `bucket_bits` bits above the lowest `partition_bits`, and the tag the highest 15.
pub fn class_of(hash: u64, partition_bits: u64, bucket_bits: u64) -> Class
    requires partition { partition_bits ≤ 6 }
    requires bucket { bucket_bits ≤ 20 }
    ensures value { result ≡ class_at partition_bits bucket_bits hash }
    ensures range { IsClass bucket_bits result }
{
    let buckets = 1u64 << bucket_bits;
    let bucket = (hash >> partition_bits) & (buckets - 1);
    let tag = hash >> TAG_SHIFT;
    Class {
        bucket: bucket as usize,
        tag: tag as u16,
    }
}

/// The partition of a hash among so many, whose number is a power of two: so a mask is enough. A division would take a part of an
/// update's time that can be seen.
pub fn partition_at(hash: u64, count: u64) -> u64
    requires { (bits : ℕ) × (count ≡ 2 ^ bits) }
    ensures { result ≡ hash % count }
{
    hash & (count - 1)
}
