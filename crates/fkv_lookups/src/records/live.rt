//! What all records say of each key.
ghost use Rattle.std.specs.Prelude.{◌≡◌, ◌≢◌, ℕ, IsTrue, IfErr, OnOk, OnErr, length};
ghost use Rattle.std.specs.BTreeMap.{get};
ghost use Rattle.fkv_functions.specs.Plain.{Same};
ghost use Rattle.fkv_records.specs.Places.{page_at};
ghost use Rattle.fkv_hybrid.specs.Scans.{IsScanRefusal, MayFail};
ghost use Rattle.fkv_lookups.specs.Overlays.{IsApart, with_text, HasFront};

use crate::maps::put_entry;
use crate::records::Records;
use fkv_device::{PageReader, Receipt};
use fkv_functions::{Mergeable, Refused};
use std::collections::BTreeMap;

impl<F: Mergeable, R: Receipt> Records<F, R> {
    /// Puts what all records from Begin on say in turn into a map: those of flushed pages are read from the device, each
    /// page once, the others from their frames. On a device that keeps, where no key of a record was in the map, such a key
    /// gets its value, none where its last record is a tombstone, and the others stay. Refused: `NoMemory`, or as the device refuses a flushed page;
    /// `Damaged` where a page's bytes spell no record at a place; on a device that keeps, the map then has what the first
    /// of the records say.
    pub fn put_live<P: PageReader<Receipt = R>>(
        &self,
        functions: &F,
        reader: &mut P,
        map: &mut BTreeMap<F::Key, F::Value>,
    ) -> Result<(), Refused>
        ensures ok { IsTrue R.keeps → IsApart F.Key.cmp (get F.Key.cmp map.old) self.now.text → OnOk result (Same (get F.Key.cmp map.new)
            (with_text F.Key.cmp (get F.Key.cmp map.old) self.now.text)) }
        ensures front { IsTrue R.keeps → IsApart F.Key.cmp (get F.Key.cmp map.old) self.now.text
            → OnErr result (HasFront F.Key.cmp (get F.Key.cmp map.old) (get F.Key.cmp map.new) self.now.text) }
        ensures steady { OnOk result (P.failures reader.new ≡ P.failures reader.old) }
        ensures refused { IfErr result (IsScanRefusal R.keeps (page_at self.now.log.bits self.now.log.begin)
            (length self.now.log.receipts) (P.failures reader.old) (P.failures reader.new)) }
        ensures caused { IsTrue R.keeps → IfErr result (λ e. e ≢ Refused.NoMemory → (page : ℕ)
            × MayFail R.stands P.can_fail self.now.log.receipts self.now.log.bits page) }
    {
        self.log.facts();
        let mut scan = self.log.scan();
        while scan.address() < self.log.tail() {
            let entry = match self.log.step(reader, &mut scan) {
                Ok(entry) => entry,
                Err(refused) => return Err(refused),
            };
            match put_entry(functions, map, &entry) {
                Ok(()) => (),
                Err(refused) => return Err(refused),
            }
        }
        Ok(())
    }
}
