//! What takes the rows of feeds.
ghost use Rattle.std.specs.Prelude.{◌≡◌, ◌++◌, ◌∷◌, [], ℤ, List, IfErr, OnOk};
ghost use Rattle.fkv_functions.specs.declared.names.Name.{Name};
ghost use Rattle.fkv_functions.specs.declared.refusals.Refused.{Refused};

use fkv_functions::{Name, Refused};

/// What takes rows, one after the other.
pub trait RowSink {
    /// It stands for these rows.
    ghost stands: { Self → List (Name × ℤ) → Type 0 };

    /// Why a row may be refused.
    ghost fault: { Refused → Type 0 };

    /// What rows leave of it as it is, if that matters.
    ghost Kept: { Type 0 } = { Unit {0} };

    ghost kept: { Self → Kept };

    /// Takes one row more. Refused: as `fault` says; then it stands for no rows.
    fn add(&mut self, key: &Name, amount: i64) -> Result<(), Refused>
        requires { (rows : List (Name × ℤ)) × stands self.old rows }
        ensures ok { OnOk result ((rows : List (Name × ℤ)) → stands self.old rows
            → stands self.new (rows ++ (key.now, amount) ∷ [])) }
        ensures kept { kept self.new ≡ kept self.old }
        ensures told { IfErr result fault };
}
