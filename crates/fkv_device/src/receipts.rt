//! What a written page is read by.
ghost use Rattle.std.specs.Prelude.{◌≡◌, ◌↔◌, IsTrue, Bool, IfOk, IfErr};
ghost use Rattle.fkv_functions.specs.declared.refusals.Refused.TheVariants as refused;
ghost use Rattle.fkv_device.specs.Standing.{Standing};

use fkv_functions::Refused;

/// A receipt of a written page. Two receipts that are the same stand for the same bytes.
pub trait Receipt: Drop {
    /// What it stands for: its number, page, length and bytes, and what else tells it from others.
    ghost stands: { Self → Standing };

    /// Whether it stands for the bytes that were written with it, and reads give those.
    ghost keeps: { Bool };

    /// Its number among the receipts of its writer, which are numbered from 0 in the order of the writes.
    fn number(&self) -> u64
        ensures { result ≡ (stands self.now).number };

    /// The page that was written.
    fn page(&self) -> u64
        ensures { result ≡ (stands self.now).page };

    /// How many bytes the page has.
    fn size(&self) -> usize
        ensures { result ≡ (stands self.now).length };

    /// Whether both stand for the same, in each part.
    fn same(&self, other: &Self) -> bool
        ensures { IsTrue result ↔ (stands self.now ≡ stands other.now) };

    /// Another receipt that stands for the same.
    ///
    /// # Errors
    ///
    /// `NoMemory` where memory to share the page is refused.
    fn again(&self) -> Result<Self, Refused>
        ensures same { IfOk result (λ r. stands r ≡ stands self.now) }
        ensures memory { IfErr result (λ e. e ≡ refused.NoMemory) };
}
