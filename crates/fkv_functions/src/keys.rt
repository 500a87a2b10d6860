//! Whole numbers as keys.
ghost use Rattle.fkv_functions.specs.Keys.{word_exact, signed_exact};

use crate::values::FixedKey;

impl FixedKey for u64 {
    ghost exact = { word_exact };
}

impl FixedKey for i64 {
    ghost exact = { signed_exact };
}
