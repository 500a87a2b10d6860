//! The plain program on worked runs, and the clock at its end.
use crate::letters::{name, on_name};
use fkv_functions::{CappedSumFns, CountFns, MaxFns, Mergeable, Name, Refused, SumFns};
use fkv_operations::{Answer, Clock, KeyedOp, PlainRun, apply_plainly, run_plainly};
use std::alloc::{AllocError, Global};
use std::collections::BTreeMap;

/// An operation, and what it answers.
type Row<V, O> = (KeyedOp<u8, V, i64>, Answer<O>);

/// The operations of the rows, on names.
fn ops_of<V: Copy + Drop, O>(
    alloc: Global,
    rows: &[Row<V, O>],
) -> Result<Vec<KeyedOp<Name, V, i64>>, AllocError> {
    let mut ops = Vec::new(alloc);
    for (op, _) in rows {
        if let Some(op) = on_name(*op) {
            ops.push(op)?;
        }
    }
    Ok(ops)
}

/// The value of a key after a run.
fn held<F: Mergeable<Key = Name>>(run: &PlainRun<F>, key: u8) -> Option<F::Value> {
    match name(key) {
        Some(key) => run.map.get(&key).copied(),
        None => None,
    }
}

/// Whether the operations answer so one after the other, and leave these values.
fn runs_to<F: Mergeable<Key = Name, Input = i64>>(
    alloc: Global,
    functions: &F,
    rows: &[Row<F::Value, F::Output>],
    map: &[(u8, Option<F::Value>)],
) -> bool
where
    F::Value: PartialEq,
    F::Output: PartialEq,
{
    let Ok(ops) = ops_of(alloc, rows) else {
        return false;
    };
    match run_plainly(alloc, functions, &ops) {
        Ok(run) => {
            run.answers.len() == rows.len()
                && run
                    .answers
                    .iter()
                    .zip(rows.iter())
                    .all(|(told, row)| *told == row.1)
                && map.iter().all(|(key, value)| held(&run, *key) == *value)
        }
        Err(_) => false,
    }
}

const THIN_PATH: [Row<i128, i128>; 4] = [
    (KeyedOp::Rmw(b'a', 5), Answer::Value(5)),
    (KeyedOp::Rmw(b'a', -2), Answer::Value(3)),
    (KeyedOp::Read(b'a', 0), Answer::Value(3)),
    (KeyedOp::Read(b'b', 0), Answer::Absent),
];

const TWO_UPDATES: [Row<i128, i128>; 2] = [
    (KeyedOp::Rmw(b'a', 1), Answer::Value(1)),
    (KeyedOp::Rmw(b'a', 2), Answer::Value(3)),
];

const BLIND_WRITES_AND_DELETES: [Row<i128, i128>; 9] = [
    (KeyedOp::Upsert(b'a', 4), Answer::Stored),
    (KeyedOp::Rmw(b'a', 5), Answer::Value(9)),
    (KeyedOp::Upsert(b'a', 1), Answer::Stored),
    (KeyedOp::Read(b'a', 0), Answer::Value(1)),
    (KeyedOp::Delete(b'a'), Answer::Deleted),
    (KeyedOp::Read(b'a', 0), Answer::Absent),
    (KeyedOp::Delete(b'b'), Answer::Deleted),
    (KeyedOp::Rmw(b'a', 2), Answer::Value(2)),
    (KeyedOp::Upsert(b'b', 7), Answer::Stored),
];

/// A merge does what an update does, and shows nothing.
const MERGES: [Row<i128, i128>; 6] = [
    (KeyedOp::Merge(b'a', 5), Answer::Stored),
    (KeyedOp::Merge(b'a', -2), Answer::Stored),
    (KeyedOp::Read(b'a', 0), Answer::Value(3)),
    (KeyedOp::Rmw(b'a', 4), Answer::Value(7)),
    (KeyedOp::Delete(b'a'), Answer::Deleted),
    (KeyedOp::Merge(b'a', 1), Answer::Stored),
];

/// Sums go round at the ends of their range.
const ROUND: [Row<i128, i128>; 4] = [
    (KeyedOp::Upsert(b'a', i128::MAX), Answer::Stored),
    (KeyedOp::Rmw(b'a', 1), Answer::Value(i128::MIN)),
    (KeyedOp::Rmw(b'a', -1), Answer::Value(i128::MAX)),
    (
        KeyedOp::Rmw(b'b', i64::MIN),
        Answer::Value(-9223372036854775808),
    ),
];

#[test]
fn sums(rt: HostRuntime) {
    let all: [(&[Row<i128, i128>], &[(u8, Option<i128>)]); 6] = [
        (&[], &[(b'a', None)]),
        (&THIN_PATH, &[(b'a', Some(3)), (b'b', None)]),
        (&TWO_UPDATES, &[(b'a', Some(3))]),
        (
            &BLIND_WRITES_AND_DELETES,
            &[(b'a', Some(2)), (b'b', Some(7))],
        ),
        (&MERGES, &[(b'a', Some(1)), (b'b', None)]),
        (&ROUND, &[(b'a', Some(i128::MAX)), (b'c', None)]),
    ];
    for (at, (rows, map)) in all.iter().enumerate() {
        assert!(rt; runs_to(rt.alloc(), &SumFns, rows, map), "run {at}");
    }
}

const COUNTS: [Row<u64, u64>; 8] = [
    (KeyedOp::Rmw(b'a', 5), Answer::Value(1)),
    (KeyedOp::Rmw(b'b', 7), Answer::Value(1)),
    (KeyedOp::Rmw(b'a', -2), Answer::Value(2)),
    (KeyedOp::Read(b'a', 0), Answer::Value(2)),
    (KeyedOp::Upsert(b'c', u64::MAX), Answer::Stored),
    (KeyedOp::Rmw(b'c', 1), Answer::Value(0)),
    (KeyedOp::Delete(b'b'), Answer::Deleted),
    (KeyedOp::Read(b'b', 9), Answer::Absent),
];

const MAXIMA: [Row<i64, i64>; 8] = [
    (KeyedOp::Rmw(b'a', 5), Answer::Value(5)),
    (KeyedOp::Rmw(b'b', 7), Answer::Value(7)),
    (KeyedOp::Rmw(b'a', -2), Answer::Value(5)),
    (KeyedOp::Read(b'a', 0), Answer::Value(5)),
    (KeyedOp::Upsert(b'a', -9), Answer::Stored),
    (KeyedOp::Rmw(b'a', -7), Answer::Value(-7)),
    (KeyedOp::Delete(b'b'), Answer::Deleted),
    (KeyedOp::Rmw(b'b', -1), Answer::Value(-1)),
];

/// A total that would leave 0 to 1,000,000 is declined, and the key is as it was.
const CAPPED: [Row<i128, i128>; 10] = [
    (KeyedOp::Rmw(b'a', -1), Answer::Declined),
    (KeyedOp::Read(b'a', 0), Answer::Absent),
    (KeyedOp::Rmw(b'a', 1000), Answer::Value(1000)),
    (KeyedOp::Rmw(b'a', 999001), Answer::Declined),
    (KeyedOp::Read(b'a', 0), Answer::Value(1000)),
    (KeyedOp::Rmw(b'a', 999000), Answer::Value(1000000)),
    (KeyedOp::Rmw(b'a', -1000000), Answer::Value(0)),
    (KeyedOp::Upsert(b'b', -7), Answer::Stored),
    (KeyedOp::Rmw(b'b', 6), Answer::Declined),
    (KeyedOp::Read(b'b', 0), Answer::Value(-7)),
];

#[test]
fn counts_and_maxima(rt: HostRuntime) {
    let counts = [(b'a', Some(2)), (b'b', None), (b'c', Some(0))];
    assert!(rt; runs_to(rt.alloc(), &CountFns, &COUNTS, &counts));
    let maxima = [(b'a', Some(-7)), (b'b', Some(-1))];
    assert!(rt; runs_to(rt.alloc(), &MaxFns, &MAXIMA, &maxima));
    let capped = [(b'a', Some(0)), (b'b', Some(-7)), (b'c', None)];
    assert!(rt; runs_to(rt.alloc(), &CappedSumFns, &CAPPED, &capped));
}

/// Applies one operation to the map, again where memory is refused once.
fn apply(
    map: &mut BTreeMap<Name, i128>,
    op: KeyedOp<u8, i128, i64>,
) -> Option<Result<Answer<i128>, Refused>> {
    let op = on_name(op)?;
    match apply_plainly(&SumFns, map, op) {
        Err(Refused::NoMemory) => Some(apply_plainly(&SumFns, map, op)),
        answer => Some(answer),
    }
}

#[test]
fn one_operation_after_the_other(rt: HostRuntime) {
    let mut map = BTreeMap::new(rt.alloc());
    for (at, (op, answer)) in BLIND_WRITES_AND_DELETES.iter().enumerate() {
        assert!(rt; apply(&mut map, *op) == Some(Ok(*answer)), "row {at}");
    }
}

#[test]
fn last_moments(rt: HostRuntime) {
    let mut clock = Clock::starting(u64::MAX - 1);
    for told in [Ok(u64::MAX), Err(Refused::Worn), Err(Refused::Worn)] {
        assert!(rt; clock.tick() == told && clock.last() == u64::MAX);
    }
}
