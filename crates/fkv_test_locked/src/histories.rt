//! One caller's operations, in memory and from the device, beside a compactor that clears page 0: what each tells, and the
//! history that is left, where one is kept. The records of a to c stand at 64, 120 and 176 on page 0.
use crate::driven::{Call, Driven, Row, Told, key};
use fkv_functions::{Refused, SumFns};
use fkv_histories::{Audited, EntryOf, Plain};
use fkv_operations::{Answer, KeyedOp};
use std::test::Fail;

const ROWS: [Row; 46] = [
    (Call::Upsert(b'a', 10), Told::Done(Answer::Stored)),
    (Call::Add(b'a', 5), Told::Done(Answer::Value(15))),
    (Call::Read(b'a'), Told::Done(Answer::Value(15))),
    (Call::Upsert(b'b', 1), Told::Done(Answer::Stored)),
    (Call::Upsert(b'c', 1), Told::Done(Answer::Stored)),
    (Call::Relocate, Told::Refused(Refused::NotDue)),
    // page 0 leaves its frame
    (Call::ReadOnly(1), Told::Ok),
    (Call::Refresh, Told::Ok),
    (Call::RefreshCompactor, Told::Ok),
    (Call::Flush, Told::At(0)),
    (Call::Head(1), Told::Ok),
    (Call::Refresh, Told::Ok),
    (Call::RefreshCompactor, Told::Ok),
    // it would be read for this; and each of these loads it
    (Call::ReadAtOnce(b'c'), Told::Ok),
    (Call::Read(b'c'), Told::Done(Answer::Value(1))),
    (Call::Add(b'c', 2), Told::Done(Answer::Value(3))),
    (Call::Read(b'b'), Told::Done(Answer::Value(1))),
    // a and b are appended again, and the record of c is superseded
    (Call::Relocate, Told::Done(Answer::Cleared)),
    (Call::Relocate, Told::Done(Answer::Cleared)),
    (Call::Truncate, Told::Refused(Refused::NotDue)),
    (Call::Relocate, Told::Done(Answer::Cleared)),
    (Call::Relocate, Told::Refused(Refused::NotDue)),
    (Call::Truncate, Told::At(256)),
    (Call::Leave, Told::Ok),
    (Call::Leave, Told::Refused(Refused::Unknown)),
    (Call::Relocate, Told::Refused(Refused::Unknown)),
    (Call::RefreshCompactor, Told::Refused(Refused::Unknown)),
    (Call::Read(b'a'), Told::Done(Answer::Value(15))),
    (Call::Read(b'b'), Told::Done(Answer::Value(1))),
    (Call::Read(b'c'), Told::Done(Answer::Value(3))),
    (Call::Read(b'd'), Told::Done(Answer::Absent)),
    (Call::ReadAtOnce(b'd'), Told::Done(Answer::Absent)),
    // in one call where the last record may be changed in place: of d there is none, and that of c is a tombstone for a time,
    // and frozen in the end
    (Call::AddAtOnce(b'd', 1), Told::Ok),
    (Call::AddAtOnce(b'c', 4), Told::Done(Answer::Value(7))),
    (Call::UpsertAtOnce(b'c', 9), Told::Done(Answer::Stored)),
    (Call::MergeAtOnce(b'c', 1), Told::Done(Answer::Stored)),
    (Call::ReadAtOnce(b'c'), Told::Done(Answer::Value(10))),
    (Call::DeleteAtOnce(b'c'), Told::Done(Answer::Deleted)),
    (Call::UpsertAtOnce(b'c', 7), Told::Ok),
    (Call::Upsert(b'c', 7), Told::Done(Answer::Stored)),
    (Call::Upsert(b'd', 1), Told::Done(Answer::Stored)),
    (Call::ReadOnly(2), Told::Ok),
    (Call::Refresh, Told::Ok),
    (Call::AddAtOnce(b'c', 1), Told::Ok),
    (Call::Read(b'c'), Told::Done(Answer::Value(7))),
    (Call::ReadAtOnce(b'c'), Told::Done(Answer::Value(7))),
];

/// What each operation is answered, and how many updates stand before it.
const ENTRIES: [(Answer<i128>, u64); 22] = [
    (Answer::Stored, 0),
    (Answer::Value(15), 1),
    (Answer::Value(15), 2),
    (Answer::Stored, 2),
    (Answer::Stored, 3),
    (Answer::Value(1), 4),
    (Answer::Value(3), 4),
    (Answer::Value(1), 5),
    (Answer::Value(15), 5),
    (Answer::Value(1), 5),
    (Answer::Value(3), 5),
    (Answer::Absent, 5),
    (Answer::Absent, 5),
    (Answer::Value(7), 5),
    (Answer::Stored, 6),
    (Answer::Stored, 7),
    (Answer::Value(10), 8),
    (Answer::Deleted, 8),
    (Answer::Stored, 9),
    (Answer::Stored, 10),
    (Answer::Value(7), 11),
    (Answer::Value(7), 11),
];

/// The number of the first entry that is another.
fn first_other_entry(history: &[EntryOf<SumFns>]) -> Option<usize> {
    history.iter().zip(&ENTRIES).position(|(entry, is)| entry.answer != is.0
        || entry.at != is.1
        || entry.session != 1)
}

#[test]
fn one_caller_audited(rt: HostRuntime) -> Result<(), Fail> {
    let alloc = rt.alloc();
    let mut driven = Driven::<Audited<SumFns>>::new(alloc)?;
    let wrong = driven.first_other(alloc, &ROWS);
    assert!(rt; wrong == None, "row {wrong:?}");
    let part = driven.end(alloc);
    let wrong = first_other_entry(&part.history);
    assert!(rt; wrong == None, "entry {wrong:?}");
    assert!(rt; part.history.len() == 22 && part.book == 22);
    Ok(())
}

#[test]
fn one_caller_plain(rt: HostRuntime) -> Result<(), Fail> {
    let alloc = rt.alloc();
    let mut driven = Driven::<Plain>::new(alloc)?;
    let wrong = driven.first_other(alloc, &ROWS);
    assert!(rt; wrong == None, "row {wrong:?}");
    let part = driven.end(alloc);
    assert!(rt; part.history.is_empty() && part.book == 22);
    Ok(())
}

/// Of entries behind the first five how many updates stood at the issue, stand before, and stood at the completion.
const TIMES: [(u64, u64, u64); 7] = [
    (4, 4, 4),
    (5, 5, 5),
    (4, 5, 6),
    (6, 6, 6),
    (6, 7, 7),
    (7, 7, 7),
    (7, 8, 8),
];

/// Operations that are open while others are finished: a read from the device, a read in memory, and an update.
#[test]
fn interleaved(rt: HostRuntime) -> Result<(), Fail> {
    let alloc = rt.alloc();
    let mut driven = Driven::<Audited<SumFns>>::new(alloc)?;
    let wrong = driven.first_other(alloc, &ROWS[..13]);
    assert!(rt; wrong == None, "row {wrong:?}");
    let add = (Call::Add(b'd', 1), Told::Done(Answer::Value(2)));
    let late = driven.issued(KeyedOp::Read(key(b'c')?, 0))?;
    let begun = driven.first_other(
        alloc,
        &[(Call::Upsert(b'd', 1), Told::Done(Answer::Stored))],
    );
    let Some(receipt) = driven.looked(&late)? else {
        assert!(rt; false, "the page is in memory");
        return Ok(());
    };
    assert!(rt; begun == None && driven.first_other(alloc, &[add]) == None);
    assert!(rt; driven.loaded(&late, &receipt)? == Told::Done(Answer::Value(1)));
    let near = driven.issued(KeyedOp::Read(key(b'd')?, 0))?;
    let more = [(Call::Add(b'd', 1), Told::Done(Answer::Value(3)))];
    assert!(rt; driven.first_other(alloc, &more) == None);
    assert!(rt; driven.ended(&near)? == Told::Done(Answer::Value(3)));
    let last = driven.issued(KeyedOp::Rmw(key(b'd')?, 1))?;
    let more = [(Call::Add(b'd', 1), Told::Done(Answer::Value(4)))];
    assert!(rt; driven.first_other(alloc, &more) == None);
    assert!(rt; driven.ended(&last)? == Told::Done(Answer::Value(5)));
    let part = driven.end(alloc);
    assert!(rt; part.history.len() == 12);
    let wrong = part.history[5..]
        .iter()
        .zip(&TIMES)
        .position(|(entry, is)| (entry.low, entry.at, entry.high) != *is);
    assert!(rt; wrong == None, "entry {wrong:?}");
    Ok(())
}
