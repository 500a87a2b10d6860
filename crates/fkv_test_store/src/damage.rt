//! A file of which one byte changes behind a store's back: what was asked of the page is refused, and all else goes on.
use crate::calls::{Call, Called, Row, SMALL, Told};
use fkv_device::FileDevice;
use fkv_functions::{Refused, SumFns};
use fkv_histories::Audited;
use fkv_operations::Answer;
use std::fs;
use std::fs::OpenOptions;
use std::io::{Read, Seek, SeekFrom, Write};
use std::test::Fail;

const STORED: Told = Told::Done(Answer::Stored);

/// Key a stands on page 0, which has left its frame.
const EVICTED: [Row; 7] = [
    (Call::Upsert(0, b'a', 10), STORED),
    (Call::Upsert(0, b'b', 1), STORED),
    (Call::Upsert(0, b'c', 1), STORED),
    (Call::Tidy(0), Told::Count(64)),
    (Call::Refresh(0), Told::Ok),
    (Call::Tidy(0), Told::Count(256)),
    (Call::Refresh(0), Told::Ok),
];

const DAMAGED: [Row; 4] = [
    (
        Call::Read(0, b'a'),
        Told::Refused(Refused::Damaged { page: 0 }),
    ),
    (
        Call::Read(0, b'a'),
        Told::Refused(Refused::Damaged { page: 0 }),
    ),
    (Call::Upsert(0, b'a', 7), STORED),
    (Call::Read(0, b'a'), Told::Done(Answer::Value(7))),
];

/// Each byte of page 0 in turn, each time in a new store.
#[test]
fn file_damage(rt: HostRuntime) -> Result<(), Fail> {
    let alloc = rt.alloc();
    for offset in 0..256u64 {
        let folder = String::from_str(alloc, "shared_files")?;
        let device = FileDevice::new(rt.clone()?, alloc, folder, 8);
        let mut called = Called::<_, Audited<SumFns>>::new(&rt, alloc, &SMALL, device)?;
        let wrong = called.first_other(&rt, alloc, &EVICTED);
        assert!(rt; wrong == None, "byte {offset}, row {wrong:?}");
        let mut how = OpenOptions::new();
        let mut file = how
            .read(true)
            .write(true)
            .open(&rt, "shared_files/part-00.log")?;
        let mut byte = [0u8; 1];
        file.seek(SeekFrom::Start(offset))?;
        file.read_exact(&mut byte)?;
        byte[0] = byte[0].wrapping_add(1);
        file.seek(SeekFrom::Start(offset))?;
        file.write_all(&byte)?;
        let wrong = called.first_other(&rt, alloc, &DAMAGED);
        assert!(rt; wrong == None, "byte {offset}, row {wrong:?}");
    }
    fs::remove_dir_all(&rt, "shared_files")?;
    Ok(())
}
