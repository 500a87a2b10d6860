//! Records one by one: what stands at an address, and where the next one stands.
ghost use Rattle.std.specs.Prelude.{◌≡◌, ◌^◌, ◌<◌, ◌≤◌, Some, IsSome};
ghost use Rattle.fkv_records.specs.Records.{IsPrevious};
ghost use Rattle.fkv_texts.specs.Places.{tail_after};
ghost use Rattle.fkv_texts.specs.Text.{entry_at};

use crate::records::Records;
use fkv_device::Receipt;
use fkv_functions::Mergeable;
use fkv_records::Address;
use fkv_texts::Entry;

impl<F: Mergeable, R: Receipt> Records<F, R> {
    /// The record at an address whose frame is not closed, where one stands.
    pub fn record_at(&self, address: Address) -> Entry<F::Key, F::Value>
        requires there { IsSome (entry_at self.now.log.text address) }
        requires in_frame { self.now.log.regions.offsets.closed ≤ address }
        ensures entry { entry_at self.now.log.text address ≡ Some result }
        // so the way along previous addresses falls
        ensures previous { IsPrevious address result.previous }
        ensures falls { result.previous < address }
    {
        self.log.record_at(address)
    }

    /// The address after one: where the next record stands behind a record, or 2^48 where no record can.
    pub fn next(&self, address: Address) -> Address
        ensures next { result ≡ tail_after self.now.log.bits self.now.record_size address }
        ensures rises { address < 2 ^ 48 → address < result }
    {
        self.log.next(address)
    }
}
