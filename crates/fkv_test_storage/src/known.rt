//! What a caller learns from clauses alone: the laws, and what was written is read.
ghost use Rattle.std.specs.Prelude.{◌≡◌, ◌≤◌, length, Ok};
ghost use Rattle.fkv_records.specs.Records.{size_of, IsRecord};

use fkv_device::MemoryReceipt;
use fkv_epoch::Epochs;
use fkv_functions::{Fixed, Name};
use fkv_hybrid::Log;
use fkv_records::{Damaged, Record, Shape, read_record, write_record};
use fkv_regions::Regions;

/// In memory the text begins at Begin.
fn is_whole(log: &Log<Name, u64, MemoryReceipt>)
    ensures { log.now.from ≡ log.now.begin }
{
    log.facts();
}

/// What was written is read, at any type.
fn read_back<K: Fixed, V: Fixed>(
    address: u64,
    entry: &Record<K, V>,
    out: &mut [u8],
) -> Result<Record<K, V>, Damaged>
    requires most { size_of K.SIZE V.SIZE ≤ 192 }
    requires room { length out.old ≡ size_of K.SIZE V.SIZE }
    requires record { IsRecord K.codec V.codec address entry.now }
    ensures { result ≡ Ok entry.now }
{
    write_record(entry, out);
    read_record(address, out)
}

#[test]
fn what_is_known_at_any_time(rt: HostRuntime) {
    Epochs::new().facts();
    if let (Some(shape), Some(key)) = (Shape::new(8, 48), Name::new(b"a")) {
        Regions::new(shape).facts();
        let last = Record {
            previous: 64,
            key,
            value: Some(2u64),
            delta: true,
        };
        assert!(rt; read_back(65, &last, &mut [1u8; 48]) == Ok(last));
        let log = Log::new(rt.alloc(), shape, 2);
        assert!(rt;
            log.is_ok_and(|log| {
                is_whole(&log);
                log.tail() == 64
            })
        );
    }
}

#[test]
fn laws_are_called() {
    fkv_device::files_keep_or_collide();
    fkv_epoch::laws::safe_by_test();
    fkv_epoch::laws::once_in_order();
    fkv_epoch::laws::seen_first();
    fkv_regions::laws::by_region();
    fkv_regions::laws::closed_place();
    fkv_texts::laws::wrong_texts();
    fkv_texts::laws::cut::<u64, u64, u64>();
    fkv_texts::laws::parts::<u64, u64>();
    fkv_texts::laws::changed::<Name, u64>();
    fkv_texts::laws::changed_chains::<Name, u64, u64>();
    fkv_hybrid::laws::wrong_logs();
    fkv_hybrid::laws::frozen_stay::<Name, u64>();
}
