//! Values that a store holds: known to proofs, and of a fixed number of bytes.
ghost use Rattle.std.specs.Prelude.{◌≡◌, ◌↔◌, ℕ, length, IfSome, IsTrue, Some};
ghost use Rattle.fkv_functions.specs.Codecs.{Codec};
ghost use Rattle.fkv_functions.specs.Meanings.{Exact};

/// A value that proofs can tell: one in hand is one of its type.
pub trait Known: Copy {
    /// Holds of the values of the type. A law about numbers speaks of these alone.
    ghost is_known: { Self → Type 0 };

    /// Tells a proof that a value in hand is one of its type.
    fn known(&self)
        ensures { is_known self.now };

    /// Whether both are one value.
    fn is(&self, other: &Self) -> bool
        ensures { IsTrue result ↔ (self.now ≡ other.now) };
}

/// A value that is written in a fixed number of bytes.
pub trait Fixed: Known {
    /// How many bytes.
    const SIZE: usize;

    ghost SIZE: { ℕ };

    /// How values are written: the bytes of each, as many as `SIZE` says, and no two values in the same.
    ghost codec: { Codec Self SIZE };

    /// Writes the value's bytes over all of `out`.
    fn put(&self, out: &mut [u8])
        requires { length out.old ≡ SIZE }
        ensures { out.new ≡ codec.bytes_of self.now };

    /// The one value that is written in these bytes, or `None` where no value is.
    fn take(bytes: &[u8]) -> Option<Self>
        requires { length bytes.now ≡ SIZE }
        ensures found { IfSome result (λ v. codec.is_known v × (codec.bytes_of v ≡ bytes.now)) }
        ensures only { (v : Self) → codec.is_known v → codec.bytes_of v ≡ bytes.now → result ≡ Some v };

    /// The value whose bytes these are known to be. An impl may read it without a test.
    fn held_in(bytes: &[u8]) -> Self
        requires { (v : Self) × codec.is_known v × (codec.bytes_of v ≡ bytes.now) }
        ensures { codec.is_known result × (codec.bytes_of result ≡ bytes.now) }
    {
        match Self::take(bytes) {
            Some(value) => value,
            None => unreachable!(),
        }
    }

    /// Whether these bytes are those of the value.
    fn bytes_equal(&self, bytes: &[u8]) -> bool
        requires { length bytes.now ≡ SIZE }
        ensures { IsTrue result ↔ (bytes.now ≡ codec.bytes_of self.now) };

    /// Each value of the type is written.
    ghost written: { (v : Self) → Self.Known.is_known v → codec.is_known v };
}

/// A key: it is written in a fixed number of bytes, and keys have an order.
pub trait FixedKey: Fixed + Ord {
    /// `==` is true of identical keys alone.
    ghost exact: { Exact Self.eq };
}
