//! The table of decisions, row by row, for a sum, and what a session's view makes of what a look-up comes to.
use crate::calls::on_name;
use fkv_functions::{Name, SumFns};
use fkv_lookups::{ChainResult, Decision, LookupResult, Payload, decide, low_of, met_by};
use fkv_operations::{Answer, KeyedOp};
use fkv_records::Address;
use fkv_regions::View;
use fkv_texts::{ChainPosition, Entry};

type Row = (
    KeyedOp<u8, i128, i64>,
    LookupResult<i128>,
    Decision<i128, i64, i128>,
);

const READ: KeyedOp<u8, i128, i64> = KeyedOp::Read(b'a', 0);

const UPSERT: KeyedOp<u8, i128, i64> = KeyedOp::Upsert(b'a', 4);

const UPDATE: KeyedOp<u8, i128, i64> = KeyedOp::Rmw(b'a', 5);

const DELETE: KeyedOp<u8, i128, i64> = KeyedOp::Delete(b'a');

const MERGE: KeyedOp<u8, i128, i64> = KeyedOp::Merge(b'a', 5);

const ROWS: [Row; 32] = [
    (READ, LookupResult::NoEntry, Decision::Done(Answer::Absent)),
    (READ, LookupResult::NoValue, Decision::Done(Answer::Absent)),
    (
        READ,
        LookupResult::ReadOnly(3),
        Decision::Done(Answer::Value(3)),
    ),
    (
        READ,
        LookupResult::Fuzzy(3),
        Decision::Done(Answer::Value(3)),
    ),
    (
        READ,
        LookupResult::Mutable(3),
        Decision::Done(Answer::Value(3)),
    ),
    (
        READ,
        LookupResult::OnDisk(64, None),
        Decision::Load(64, None),
    ),
    // the parts that were collected go with it
    (
        READ,
        LookupResult::OnDisk(64, Some(5)),
        Decision::Load(64, Some(5)),
    ),
    (UPSERT, LookupResult::NoEntry, Decision::Claim),
    (
        UPSERT,
        LookupResult::NoValue,
        Decision::Append(Payload::Whole(Some(4)), Answer::Stored),
    ),
    (
        UPSERT,
        LookupResult::ReadOnly(3),
        Decision::Append(Payload::Whole(Some(4)), Answer::Stored),
    ),
    (
        UPSERT,
        LookupResult::Fuzzy(3),
        Decision::Append(Payload::Whole(Some(4)), Answer::Stored),
    ),
    (
        UPSERT,
        LookupResult::Mutable(3),
        Decision::Replace(Some(4), Answer::Stored),
    ),
    // what is on disk is neither needed by an upsert nor by a delete
    (
        UPSERT,
        LookupResult::OnDisk(64, None),
        Decision::Append(Payload::Whole(Some(4)), Answer::Stored),
    ),
    (UPDATE, LookupResult::NoEntry, Decision::Claim),
    (UPDATE, LookupResult::NoValue, Decision::Prepare(None, 5)),
    (
        UPDATE,
        LookupResult::ReadOnly(3),
        Decision::Prepare(Some(3), 5),
    ),
    (UPDATE, LookupResult::Fuzzy(3), Decision::Wait),
    (
        UPDATE,
        LookupResult::Mutable(3),
        Decision::Replace(Some(8), Answer::Value(8)),
    ),
    (
        UPDATE,
        LookupResult::OnDisk(64, None),
        Decision::Load(64, None),
    ),
    (
        UPDATE,
        LookupResult::OnDisk(64, Some(5)),
        Decision::Load(64, Some(5)),
    ),
    (
        DELETE,
        LookupResult::NoEntry,
        Decision::Done(Answer::Deleted),
    ),
    (
        DELETE,
        LookupResult::NoValue,
        Decision::Done(Answer::Deleted),
    ),
    (
        DELETE,
        LookupResult::ReadOnly(3),
        Decision::Append(Payload::Whole(None), Answer::Deleted),
    ),
    (
        DELETE,
        LookupResult::Fuzzy(3),
        Decision::Append(Payload::Whole(None), Answer::Deleted),
    ),
    (
        DELETE,
        LookupResult::Mutable(3),
        Decision::Replace(None, Answer::Deleted),
    ),
    (
        DELETE,
        LookupResult::OnDisk(64, None),
        Decision::Append(Payload::Whole(None), Answer::Deleted),
    ),
    (MERGE, LookupResult::NoEntry, Decision::Claim),
    (
        MERGE,
        LookupResult::NoValue,
        Decision::Append(Payload::Part(5), Answer::Stored),
    ),
    (
        MERGE,
        LookupResult::ReadOnly(3),
        Decision::Append(Payload::Part(5), Answer::Stored),
    ),
    (
        MERGE,
        LookupResult::Fuzzy(3),
        Decision::Append(Payload::Part(5), Answer::Stored),
    ),
    (
        MERGE,
        LookupResult::Mutable(3),
        Decision::Replace(Some(8), Answer::Stored),
    ),
    (
        MERGE,
        LookupResult::OnDisk(64, Some(5)),
        Decision::Append(Payload::Part(5), Answer::Stored),
    ),
];

fn is_decided(row: &Row) -> bool {
    let Some(op) = on_name(row.0.op()) else {
        return false;
    };
    match op.keyed() {
        Some(op) => decide(&SumFns, &op, &row.1) == row.2,
        None => false,
    }
}

#[test]
fn decisions(rt: HostRuntime) {
    for (at, row) in ROWS.iter().enumerate() {
        assert!(rt; is_decided(row), "row {at}");
    }
}

/// A view of three pages: the first is frozen, the second fuzzy, the third mutable.
const SEEN: View = View {
    head: 64,
    safe_read_only: 256,
    read_only: 512,
};

/// What a look-up comes to.
#[derive(Clone, Copy)]
enum Came {
    /// The first record of the key that is no delta stands at this address, with this value or none for a tombstone.
    Found(Address, Option<i128>),
    /// The records of the class lead to this address, below those that were read.
    Below(Address),
}

/// An entry's address, Begin, the parts of deltas that were collected, what the look-up comes to, and what is met.
type Meeting = (
    Option<Address>,
    Address,
    Option<i128>,
    Came,
    LookupResult<i128>,
);

const MEETINGS: [Meeting; 22] = [
    (None, 64, None, Came::Below(1), LookupResult::NoEntry),
    (None, 64, None, Came::Below(200), LookupResult::NoEntry),
    (
        None,
        64,
        None,
        Came::Found(512, Some(3)),
        LookupResult::NoEntry,
    ),
    (Some(1), 64, None, Came::Below(1), LookupResult::NoValue),
    (
        Some(64),
        64,
        None,
        Came::Found(64, None),
        LookupResult::NoValue,
    ),
    (
        Some(600),
        64,
        None,
        Came::Found(64, Some(3)),
        LookupResult::ReadOnly(3),
    ),
    (
        Some(600),
        64,
        None,
        Came::Found(200, Some(3)),
        LookupResult::ReadOnly(3),
    ),
    (
        Some(600),
        64,
        None,
        Came::Found(256, Some(3)),
        LookupResult::Fuzzy(3),
    ),
    (
        Some(600),
        64,
        None,
        Came::Found(480, Some(3)),
        LookupResult::Fuzzy(3),
    ),
    (
        Some(600),
        64,
        None,
        Came::Found(512, Some(3)),
        LookupResult::Mutable(3),
    ),
    // a record that was found below the view's Head changes no more
    (
        Some(600),
        8,
        None,
        Came::Found(32, Some(3)),
        LookupResult::ReadOnly(3),
    ),
    // what lies at or above Begin is on disk, what lies below it is gone
    (
        Some(600),
        64,
        None,
        Came::Below(64),
        LookupResult::OnDisk(64, None),
    ),
    (
        Some(600),
        64,
        None,
        Came::Below(200),
        LookupResult::OnDisk(200, None),
    ),
    (
        Some(600),
        256,
        None,
        Came::Below(256),
        LookupResult::OnDisk(256, None),
    ),
    (
        Some(600),
        256,
        None,
        Came::Below(255),
        LookupResult::NoValue,
    ),
    // a value with parts is not changed where it stands, wherever it is
    (
        Some(600),
        64,
        Some(5),
        Came::Found(512, Some(3)),
        LookupResult::ReadOnly(8),
    ),
    (
        Some(600),
        64,
        Some(5),
        Came::Found(256, Some(3)),
        LookupResult::ReadOnly(8),
    ),
    // parts behind a tombstone, or behind what is gone, are the value
    (
        Some(600),
        64,
        Some(5),
        Came::Found(64, None),
        LookupResult::ReadOnly(5),
    ),
    (
        Some(600),
        64,
        Some(5),
        Came::Below(63),
        LookupResult::ReadOnly(5),
    ),
    (
        Some(600),
        64,
        Some(5),
        Came::Below(64),
        LookupResult::OnDisk(64, Some(5)),
    ),
    (
        Some(600),
        256,
        Some(5),
        Came::Below(255),
        LookupResult::ReadOnly(5),
    ),
    (None, 64, Some(5), Came::Below(200), LookupResult::NoEntry),
];

/// What the look-up of a key comes to, with these parts.
fn gathered(key: Name, parts: Option<i128>, came: Came) -> ChainResult<Name, i128> {
    let position = match came {
        Came::Below(address) => ChainPosition::Below(address),
        Came::Found(address, value) => ChainPosition::Found(Entry {
            address,
            previous: 1,
            key,
            value,
            delta: false,
        }),
    };
    ChainResult { parts, position }
}

fn is_met(row: &Meeting) -> bool {
    let (entry, begin, parts, came, wanted) = *row;
    let Some(key) = Name::new(b"a") else {
        return false;
    };
    let came = gathered(key, parts, came);
    met_by(&SumFns, entry, begin, &SEEN, &came) == wanted
}

#[test]
fn meetings(rt: HostRuntime) {
    for (at, row) in MEETINGS.iter().enumerate() {
        assert!(rt; is_met(row), "row {at}");
    }
}

/// Begin, and the lowest address that a session with this view reads in memory.
const LOWS: [(Address, Address); 4] = [(0, 64), (64, 64), (65, 65), (256, 256)];

#[test]
fn lows(rt: HostRuntime) {
    for (begin, low) in LOWS {
        assert!(rt; low_of(begin, &SEEN) == low, "{begin}");
    }
}

#[test]
fn laws_are_called() {
    fkv_hybrid::laws::wrong_logs();
    fkv_hybrid::laws::frozen_stay::<u64, u64>();
    fkv_lookups::laws::entries_lead::<u64, u64>();
    fkv_lookups::laws::records_grow::<u64, u64>();
    fkv_lookups::laws::records_change::<u64, u64>();
    fkv_lookups::laws::meetings_tell::<u64, u64>();
}
