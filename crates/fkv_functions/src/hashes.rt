//! Hashes: of bytes, FNV-1a of 64 bits, as published by Fowler, Noll and Vo; of whole numbers, the last steps of MurmurHash3, as
//! published by Appleby.
ghost use Rattle.std.specs.Prelude.{◌≡◌};
ghost use Rattle.fkv_functions.specs.Hashes.{fnv_1a, fmix_64};

const OFFSET_BASIS: u64 = 14695981039346656037;

const PRIME: u64 = 1099511628211;

/// The hash of these bytes.
pub fn fnv_1a_hash(bytes: &[u8]) -> u64
    ensures { result ≡ fnv_1a bytes.now }
{
    bytes.iter().fold(
        OFFSET_BASIS,
        |hash, byte| (hash ^ u64::from(*byte)).wrapping_mul(PRIME),
    )
}

/// The hash of a whole number, in which each bit of the number has a part in each bit. The number itself is no hash of a key: its
/// lowest bits alone would lead to a partition and a bucket, and of a small number the highest bits, which are the tag, are 0.
pub fn fmix_64_hash(number: u64) -> u64
    ensures { result ≡ fmix_64 number }
{
    let word = (number ^ (number >> 33)).wrapping_mul(18397679294719823053);
    let word = (word ^ (word >> 33)).wrapping_mul(14181476777654086739);
    word ^ (word >> 33)
}
