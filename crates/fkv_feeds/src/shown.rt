//! Values as fields of a row.
ghost use Rattle.std.specs.Prelude.{◌≡◌, ◌<◌, ◌≤◌, ℕ, List};
ghost use Rattle.std.proofs.Common.{arith};

use itoa::{Buffer, Integer};

/// A value as the fields of a row, behind its key: one number, or several things that are known of a key.
pub trait RowFields {
    /// How many fields it has: one at least.
    const FIELDS: usize;

    ghost FIELDS: { ℕ };

    /// The text of the field at a place, from 0.
    ghost field_at: { Self → ℕ → List ℕ };

    /// The bytes of the field at a place, from 0: of the value's own, or of a number's text, which `digits` has room for.
    fn field<'a>(&'a self, place: usize, digits: &'a mut Buffer) -> &'a [u8]
        requires { place < FIELDS }
        ensures { result.now ≡ field_at self.now place };

    ghost some: { 1 ≤ FIELDS };
}

impl<V: Integer> RowFields for V {
    const FIELDS: usize = 1;

    ghost FIELDS = { 1 };

    ghost field_at = { λ v place. V.text v };

    fn field<'a>(&'a self, _place: usize, digits: &'a mut Buffer) -> &'a [u8] {
        digits.format(*self).as_bytes()
    }

    ghost some = { omega arith };
}
