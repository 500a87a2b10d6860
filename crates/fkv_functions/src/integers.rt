//! Whole numbers as values: little-endian, two's complement.
ghost use Rattle.std.specs.Prelude.{◌≡◌, ◌+◌, ◌*◌, ◌^◌, ◌<◌, ℕ, ℤ, List, length, true, refl, FitsSigned};
ghost use Rattle.std.specs.Int.{w64, w128, to_le_bytes, from_le_bytes, cast_unsigned};
ghost use Rattle.fkv_functions.specs.Integers.{word_codec, signed_codec, long_codec};

use crate::values::{Fixed, Known};

impl Known for u64 {
    ghost is_known = { λ n. n < 2 ^ 64 };

    fn known(&self) {
        let _value = *self;
    }

    fn is(&self, other: &Self) -> bool {
        *self == *other
    }
}

impl Known for i64 {
    ghost is_known = { FitsSigned w64 };

    fn known(&self) {
        let _value = *self;
    }

    fn is(&self, other: &Self) -> bool {
        *self == *other
    }
}

impl Known for i128 {
    ghost is_known = { FitsSigned w128 };

    fn known(&self) {
        let _value = *self;
    }

    fn is(&self, other: &Self) -> bool {
        *self == *other
    }
}

impl Fixed for u64 {
    const SIZE: usize = 8;

    ghost SIZE = { 8 };

    ghost codec = { word_codec };

    fn put(&self, out: &mut [u8]) {
        out.copy_from_slice(&self.to_le_bytes());
    }

    fn take(bytes: &[u8]) -> Option<u64> {
        Some(word_of(bytes))
    }

    fn bytes_equal(&self, bytes: &[u8]) -> bool {
        word_of(bytes) == *self
    }

    ghost written = { λ v h. h };
}

impl Fixed for i64 {
    const SIZE: usize = 8;

    ghost SIZE = { 8 };

    ghost codec = { signed_codec };

    fn put(&self, out: &mut [u8]) {
        out.copy_from_slice(&self.cast_unsigned().to_le_bytes());
    }

    fn take(bytes: &[u8]) -> Option<i64> {
        Some(word_of(bytes).cast_signed())
    }

    fn bytes_equal(&self, bytes: &[u8]) -> bool {
        word_of(bytes).cast_signed() == *self
    }

    ghost written = { λ v h. h };
}

impl Fixed for i128 {
    const SIZE: usize = 16;

    ghost SIZE = { 16 };

    ghost codec = { long_codec };

    #[tactic(auto, unfolding(crate::specs::Integers::halves))]
    fn put(&self, out: &mut [u8]) {
        let bits = self.cast_unsigned();
        let (low, high) = out.split_at_mut(8);
        low.copy_from_slice(&((bits & 0xffff_ffff_ffff_ffff) as u64).to_le_bytes());
        high.copy_from_slice(&((bits >> 64) as u64).to_le_bytes());
    }

    fn take(bytes: &[u8]) -> Option<i128> {
        let (low, high) = bytes.split_at(8);
        let bits = u128::from(word_of(low)) + (u128::from(word_of(high)) << 64);
        Some(bits.cast_signed())
    }

    fn bytes_equal(&self, bytes: &[u8]) -> bool {
        self.known();
        match i128::take(bytes) {
            Some(value) => value == *self,
            None => false,
        }
    }

    ghost written = { λ v h. h };
}

/// The number that these eight bytes spell.
pub(crate) fn word_of(bytes: &[u8]) -> u64
    requires { length bytes.now ≡ 8 }
    ensures { to_le_bytes w64 result ≡ bytes.now }
{
    let mut word = [0u8; 8];
    word.copy_from_slice(bytes);
    u64::from_le_bytes(word)
}
