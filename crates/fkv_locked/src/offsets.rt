//! What can be read of a locked partition without an event: where its offsets stand, and which partition it is.
ghost use Rattle.std.specs.Prelude.{◌≡◌, ◌^◌, length};

use crate::locked::Locked;
use fkv_device::Receipt;
use fkv_functions::Mergeable;
use fkv_histories::Recorder;
use fkv_records::Address;

impl<F: Mergeable, R: Receipt, H: Recorder<F>> Locked<F, R, H> {
    /// The address of the next record, or 2^48 where there can't be one.
    pub fn tail(&self) -> Address
        ensures { result ≡ self.now.partition.records.log.tail }
    {
        self.partition.tail()
    }

    /// Head: records below it are read from the device by sessions that are refreshed from now on.
    pub fn head(&self) -> Address
        ensures { result ≡ self.now.partition.records.log.regions.offsets.head }
    {
        self.partition.head()
    }

    /// The lowest page that is not flushed.
    pub fn unflushed(&self) -> u64
        ensures { result ≡ length self.now.partition.records.log.receipts }
    {
        self.partition.unflushed()
    }

    /// Where the records begin that are not cleared.
    pub fn cleared(&self) -> Address
        ensures { result ≡ self.now.partition.cleared }
    {
        self.partition.cleared()
    }

    /// The bytes of a page.
    pub fn page_size(&self) -> usize
        ensures { result ≡ 2 ^ self.now.partition.records.log.bits }
    {
        self.partition.page_size()
    }

    /// The number of the partition.
    pub fn number(&self) -> u64
        ensures { result ≡ self.now.partition.number }
    {
        self.partition.number()
    }

    /// How many partitions the store has.
    pub fn count(&self) -> u64
        ensures { result ≡ self.now.partition.count }
    {
        self.partition.count()
    }
}
