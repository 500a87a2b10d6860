//! What gives pairs one after another, and may be refused one.
ghost use Rattle.std.specs.Prelude.{◌≡◌, List, drop, IfOk, IfErr, OnOk, OnErr};
ghost use Rattle.fkv_functions.specs.declared.names.Name.{Name};
ghost use Rattle.fkv_functions.specs.declared.refusals.Refused.{Refused};
ghost use Rattle.fkv_runs.specs.Merging.{first_key, first_pair};

use fkv_functions::{Name, Refused};

/// What gives pairs of names with values, one after another, and may be refused one: then it has all that it had, and may be asked
/// again.
pub trait ReadPairs: Drop {
    type Value;

    /// These pairs are still to come.
    ghost holds: { Self → List (Name × Self.Value) → Type 0 };

    /// What one of them is refused by, before and after.
    ghost refuses: { Self → Self → Refused → Type 0 };

    /// The name of the next pair.
    fn next_name(&self) -> Option<Name>
        ensures { (xs : List (Name × Self.Value)) → holds self.now xs → result ≡ first_key xs };

    /// The next pair.
    ///
    /// # Errors
    ///
    /// What `refuses` says.
    fn next(&mut self) -> Result<Option<(Name, Self::Value)>, Refused>
        ensures pair { (xs : List (Name × Self.Value)) → holds self.old xs → IfOk result (λ pair. pair ≡ first_pair xs) }
        ensures after { (xs : List (Name × Self.Value)) → holds self.old xs → OnOk result (holds self.new (drop 1 xs)) }
        ensures kept { (xs : List (Name × Self.Value)) → holds self.old xs → OnErr result (holds self.new xs) }
        ensures told { IfErr result (refuses self.old self.new) };
}
