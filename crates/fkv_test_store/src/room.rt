//! The room that a store takes in a file.
use crate::calls::{Call, Called, Row, SMALL, Told};
use crate::sharing::stored;
use fkv_device::FileDevice;
use fkv_histories::Plain;
use std::fs;
use std::test::Fail;

/// What follows the upserts of a round: the pages move as far as they may, and the log is compacted.
const MOVED: [Row; 5] = [
    (Call::Refresh(0), Told::Ok),
    (Call::Compact(0), Told::Ok),
    (Call::Refresh(0), Told::Ok),
    (Call::Compact(0), Told::Ok),
    (Call::Loads, Told::Count(0)),
];

/// Twenty keys are written forty times, each time into five pages, and as many records are relocated: the places of the pages that
/// are dropped are used again. Three times running, and late, the log is not compacted: then it is longer than it was, and the file
/// grows by these pages at its end.
#[test]
fn a_file_is_no_longer_than_its_log_has_been(rt: HostRuntime) -> Result<(), Fail> {
    let alloc = rt.alloc();
    let folder = String::from_str(alloc, "shared_room")?;
    let device = FileDevice::new(rt.clone()?, alloc, folder, 8);
    let mut called = Called::<_, Plain>::new(&rt, alloc, &SMALL, device)?;
    for round in 0..40u64 {
        let mut rows = Vec::new(alloc);
        for letter in b'a'..b'u' {
            rows.push(stored(Call::Upsert(0, letter, i128::from(round))))?;
        }
        let wrong = called.first_other(&rt, alloc, &rows);
        assert!(rt; wrong == None, "round {round}, row {wrong:?}");
        if (30..33).contains(&round) {
            continue;
        }
        let wrong = called.first_other(&rt, alloc, &MOVED);
        assert!(rt;
            wrong == None,
            "round {round}, after the upserts, row {wrong:?}"
        );
    }
    let length = fs::metadata(&rt, "shared_room/part-00.log")?.len();
    assert!(rt; length > 0 && length <= 60 << SMALL.page_bits, "{length}");
    fs::remove_dir_all(&rt, "shared_room")?;
    Ok(())
}
