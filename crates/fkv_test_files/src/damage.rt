//! A file of which one byte changes, or which is cut, behind a partition's back: the page is refused, what was asked of it is
//! over, and all else goes on.
use crate::filed::{Call, Filed, Row, Told};
use fkv_functions::Refused;
use fkv_operations::Answer;
use std::fs;
use std::fs::OpenOptions;
use std::io::{Read, Seek, SeekFrom, Write};
use std::test::Fail;

/// Two sessions; a to c stand at 64, 120 and 176 on page 0, which has left its frame.
const EVICTED: [Row; 12] = [
    (Call::Enter, Told::At(0)),
    (Call::Enter, Told::At(1)),
    (Call::Upsert(b'a', 10), Told::Done(Answer::Stored)),
    (Call::Upsert(b'b', 1), Told::Done(Answer::Stored)),
    (Call::Upsert(b'c', 1), Told::Done(Answer::Stored)),
    (Call::ReadOnly(1), Told::Ok),
    (Call::Refresh(0), Told::Ok),
    (Call::Refresh(1), Told::Ok),
    (Call::Flush, Told::At(0)),
    (Call::Head(1), Told::Ok),
    (Call::Refresh(0), Told::Ok),
    (Call::Refresh(1), Told::Ok),
];

const UNHARMED: [Row; 1] = [(Call::Read(b'a'), Told::Done(Answer::Value(10)))];

/// What comes after a fault of page 0.
fn after(refused: Refused) -> [Row; 5] {
    [
        (Call::Read(b'a'), Told::Refused(refused)),
        (Call::Read(b'a'), Told::Refused(refused)),
        (Call::Upsert(b'a', 7), Told::Done(Answer::Stored)),
        (Call::Read(b'a'), Told::Done(Answer::Value(7))),
        (Call::Read(b'b'), Told::Refused(refused)),
    ]
}

/// Raises the byte at this place of a file by 1, modulo 256.
fn raise(rt: &HostRuntime, path: &str, place: u64) -> Result<(), Fail> {
    let mut how = OpenOptions::new();
    let mut file = how.read(true).write(true).open(rt, path)?;
    let mut byte = [0u8; 1];
    file.seek(SeekFrom::Start(place))?;
    file.read_exact(&mut byte)?;
    byte[0] = byte[0].wrapping_add(1);
    file.seek(SeekFrom::Start(place))?;
    file.write_all(&byte)?;
    Ok(())
}

#[test]
fn file_damage(rt: HostRuntime) -> Result<(), Fail> {
    let folder = "device_files/damage";
    let damaged = after(Refused::Damaged { page: 0 });
    let mut filed = Filed::new(&rt, folder)?;
    assert!(rt; filed.first_other(rt.alloc(), &EVICTED) == None);
    assert!(rt; filed.first_other(rt.alloc(), &UNHARMED) == None);
    for place in 0..256u64 {
        let mut filed = Filed::new(&rt, folder)?;
        let opened = filed.first_other(rt.alloc(), &EVICTED);
        raise(&rt, "device_files/damage/part-00.log", place)?;
        let wrong = filed.first_other(rt.alloc(), &damaged);
        assert!(rt;
            opened == None && wrong == None,
            "byte {place}: row {wrong:?}"
        );
    }
    fs::remove_dir_all(&rt, folder)?;
    Ok(())
}

#[test]
fn a_file_that_is_cut(rt: HostRuntime) -> Result<(), Fail> {
    let folder = "device_files/cut";
    let mut filed = Filed::new(&rt, folder)?;
    let opened = filed.first_other(rt.alloc(), &EVICTED);
    let mut how = OpenOptions::new();
    let file = how.write(true).open(&rt, "device_files/cut/part-00.log")?;
    file.set_len(100)?;
    let wrong = filed.first_other(rt.alloc(), &after(Refused::Device { code: 3, page: 0 }));
    assert!(rt; opened == None && wrong == None, "row {wrong:?}");
    fs::remove_dir_all(&rt, folder)?;
    Ok(())
}
