//! What gives pairs one after another.
ghost use Rattle.std.specs.Prelude.{◌≡◌, List, drop};
ghost use Rattle.fkv_functions.specs.declared.names.Name.{Name};
ghost use Rattle.fkv_runs.specs.Merging.{first_key, first_pair};

use fkv_functions::Name;

/// What gives pairs of names with values, one after another.
pub trait Pairs: Drop {
    type Value;

    /// The pairs that are still to come.
    ghost left: { Self → List (Name × Self.Value) };

    /// The name of the next pair.
    fn next_name(&self) -> Option<Name>
        ensures { result ≡ first_key (left self.now) };

    /// The next pair.
    fn next(&mut self) -> Option<(Name, Self::Value)>
        ensures pair { result ≡ first_pair (left self.old) }
        ensures after { left self.new ≡ drop 1 (left self.old) };
}
