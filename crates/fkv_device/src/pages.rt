//! What writes pages and what reads them.
ghost use Rattle.std.specs.Prelude.{◌≡◌, ◌≢◌, ◌+◌, ◌≤◌, ℕ, length, IsTrue, IfOk, IfErr, OnOk};
ghost use Rattle.fkv_functions.specs.declared.refusals.Refused.TheVariants as refused;
ghost use Rattle.fkv_device.specs.Failing.{FailsOnlyBy, ReadFailsBy};

use crate::receipts::Receipt;
use crate::shared::Page;
use fkv_functions::Refused;

/// Writes pages, and gives a receipt for each.
pub trait PageWriter: Drop {
    type Receipt: Receipt;

    /// How often a call has failed: once for each fault that was told.
    ghost failures: { Self → ℕ };

    /// The number of the next receipt.
    ghost next: { Self → ℕ };

    /// The number of the partition whose pages it writes.
    ghost part: { Self → ℕ };

    /// What holds of a writer wherever a write of it comes to a fault.
    ghost can_fail: { Self → Type 0 };

    /// Writes a page.
    ///
    /// # Errors
    ///
    /// `NoMemory`; `Device` with code 2 where the device failed or the writer has no number left.
    fn write(&mut self, page: u64, bytes: &Page) -> Result<Self::Receipt, Refused>
        ensures kept { IfOk result (λ r. IsTrue Self.Receipt.keeps → (Self.Receipt.stands r).bytes ≡ bytes.now) }
        ensures page { IfOk result (λ r. (Self.Receipt.stands r).page ≡ page) }
        ensures length { IfOk result (λ r. (Self.Receipt.stands r).length ≡ length bytes.now) }
        ensures number { IfOk result (λ r. (Self.Receipt.stands r).number ≡ next self.old) }
        ensures next { OnOk result (next self.new ≡ next self.old + 1) }
        ensures same_next { IfErr result (λ _. next self.new ≡ next self.old) }
        ensures same_part { part self.new ≡ part self.old }
        ensures steady { OnOk result (failures self.new ≡ failures self.old) }
        ensures counted { IfErr result (FailsOnlyBy 2 page (failures self.old) (failures self.new)) }
        ensures caused { IfErr result (λ e. e ≢ refused.NoMemory → can_fail self.old) };

    /// The pages below this one are read no more: the room that they take may be used for others. It is never refused, and
    /// what can't be let go stays.
    fn drop_below(&mut self, page: u64)
        ensures same_next { next self.new ≡ next self.old }
        ensures same_part { part self.new ≡ part self.old }
        ensures steady { failures self.new ≡ failures self.old };
}

/// Reads pages by their receipts.
pub trait PageReader: Drop {
    type Receipt: Receipt;

    /// How often a call has failed: once for each fault that was told.
    ghost failures: { Self → ℕ };

    /// The number of the partition whose pages it reads.
    ghost part: { Self → ℕ };

    /// How many pages it was asked for, by any count that a call raises by one at most: what is bounded by it takes so many calls at
    /// most.
    ghost reads: { Self → ℕ } = { λ _. 0 };

    /// What holds of a receipt and a number of bytes wherever a read of so many bytes by it comes to a fault.
    ghost can_fail: { Self.Receipt → ℕ → Type 0 };

    /// Reads a page of `size` bytes.
    ///
    /// # Errors
    ///
    /// `NoMemory`; `Device` with code 3 where the device failed or the page has not `size` bytes;
    /// `Damaged` where the device gave other bytes than were written.
    fn read(&mut self, receipt: &Self::Receipt, size: usize) -> Result<Page, Refused>
        ensures kept { IfOk result (λ page. IsTrue Self.Receipt.keeps
            → page ≡ (Self.Receipt.stands receipt.now).bytes) }
        ensures size { IfOk result (λ page. length page ≡ size) }
        ensures length { OnOk result (size ≡ (Self.Receipt.stands receipt.now).length) }
        ensures same_part { part self.new ≡ part self.old }
        ensures steady { OnOk result (failures self.new ≡ failures self.old) }
        ensures counted { IfErr result (ReadFailsBy (Self.Receipt.stands receipt.now).page
            (failures self.old) (failures self.new)) }
        ensures once { reads self.new ≤ reads self.old + 1 }
        ensures caused { IfErr result (λ e. e ≢ refused.NoMemory → can_fail receipt.now size) };
}
