//! What marks a device that keeps.
ghost use Rattle.std.specs.Prelude.{Bool, false};

use std::marker::Brand;

/// Marks a device that keeps what it is given, or one of which nothing is said. A call with the marker [`Brand`] picks which.
pub trait Keeping {
    /// Whether the device keeps what it is given.
    ghost keeps: { Bool };
}

impl Keeping for Brand {
    ghost keeps = { false };
}
