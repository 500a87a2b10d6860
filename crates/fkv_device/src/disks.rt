//! What gives writers and readers for partitions.
ghost use Rattle.std.specs.Prelude.{◌≡◌, ℕ, Bool, IsTrue, IfOk, IfErr, OnOk};
ghost use Rattle.fkv_device.specs.Failing.{FailsOnlyBy};

use crate::pages::{PageReader, PageWriter};
use crate::receipts::Receipt;
use fkv_functions::Refused;

/// A device with a place for the pages of each partition. One parameter `D: Disk` names its receipts,
/// its writers and its readers.
pub trait Disk: Drop {
    type Receipt: Receipt;

    type Writer: PageWriter<Receipt = Self::Receipt>;

    type Reader: PageReader<Receipt = Self::Receipt>;

    /// How often a call has failed: once for each fault that was told.
    ghost failures: { Self → ℕ };

    /// A writer of a partition's pages, which begins anew: a partition has one writer.
    ///
    /// # Errors
    ///
    /// `NoMemory`; `Device` with code 1 and page 0 where the device refuses to open.
    fn writer(&mut self, partition: u64) -> Result<Self::Writer, Refused>
        ensures number { IfOk result (λ w. Self.Writer.next w ≡ 0) }
        ensures place { IfOk result (λ w. Self.Writer.part w ≡ partition) }
        ensures steady { OnOk result (failures self.new ≡ failures self.old) }
        ensures counted { IfErr result (FailsOnlyBy 1 0 (failures self.old) (failures self.new)) };

    /// A reader of a partition's pages.
    ///
    /// # Errors
    ///
    /// As for [`Disk::writer`].
    fn reader(&mut self, partition: u64) -> Result<Self::Reader, Refused>
        ensures place { IfOk result (λ r. Self.Reader.part r ≡ partition) }
        ensures steady { OnOk result (failures self.new ≡ failures self.old) }
        ensures counted { IfErr result (FailsOnlyBy 1 0 (failures self.old) (failures self.new)) };
}
