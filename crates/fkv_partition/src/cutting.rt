//! How the log's start is cut, where all below is cleared.
ghost use Rattle.std.specs.Prelude.{◌≡◌, ◌<◌, ◌≤◌, OnOk, OnErr};
ghost use Rattle.fkv_records.specs.Places.{start_at};
ghost use Rattle.fkv_partition.specs.Cutting.{Truncates};
ghost use Rattle.fkv_partition.specs.KeyEffect.{IsTruncation};

use crate::partitions::Partition;
use fkv_device::Receipt;
use fkv_functions::{Mergeable, Refused};
use fkv_lookups::clearing::cleared_stay;

impl<F: Mergeable, R: Receipt> Partition<F, R> {
    /// Moves Begin to the start of a page below which all is cleared: the records there are dropped, and the entries that lead
    /// there, and the live map stays. Each look-up that waits for a page is to look again. Refused, and then nothing changes: `NotDue`
    /// where Begin would not rise, or would pass Head.
    pub(crate) fn cut(&mut self, page: u64, now: u64) -> Result<(), Refused>
        requires later { self.old.moment < now }
        requires low { start_at self.old.records.log.bits page ≤ self.old.cleared }
        ensures effect { Truncates R.keeps self.old self.new page now result }
        ensures event { OnOk result (IsTruncation R.keeps F.Key.cmp self.old self.new page now) }
        ensures unchanged { OnErr result (self.new ≡ self.old) }
        ensures moment { self.new.moment ≤ now }
    {
        cleared_stay::<F::Key, F::Value>();
        match self.records.truncate(page) {
            Err(refused) => return Err(refused),
            Ok(()) => (),
        }
        self.records.facts();
        self.moment = now;
        Ok(())
    }
}
