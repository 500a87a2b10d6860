//! The class of a hash: its bucket and its tag.
use fkv_operations::class_of;

/// The hash of `a`, and that of `b`.
const HASH_OF_A: u64 = 0xaf63_dc4c_8601_ec8c;

const HASH_OF_B: u64 = 0xaf63_df4c_8601_f1a5;

/// A hash, the bits of partitions and of buckets, and the class.
const CLASSES: [(u64, u64, u64, usize, u16); 5] = [
    (HASH_OF_A, 0, 8, 140, 22449),
    (HASH_OF_A, 0, 0, 0, 22449),
    (HASH_OF_A, 2, 3, 3, 22449),
    (HASH_OF_B, 2, 3, 1, 22449),
    (u64::MAX, 6, 20, 1_048_575, 32767),
];

#[test]
fn classes_of_hashes(rt: HostRuntime) {
    for (hash, partitions, buckets, bucket, tag) in CLASSES {
        assert!(rt; partitions <= 6 && buckets <= 20);
        let class = class_of(hash, partitions, buckets);
        assert!(rt; class.bucket == bucket && class.tag == tag);
    }
}
