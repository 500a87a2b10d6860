//! Printed texts, and each generic item at the three sets of functions.
use fkv_functions::{
    Ask, Built, CappedSumFns, CountFns, Functions, Known, MaxFns, Mergeable, Name, OrderFree,
    Refused, SumFns, What,
};
use std::alloc::Global;

/// A first input, and then another: by a copy, in place, and built from a question. What is shown at the end, if
/// the three agree, and so do parts, where the functions merge.
fn first_and_next<F: Mergeable>(
    functions: &F,
    key: F::Key,
    first: F::Input,
    next: F::Input,
) -> Option<F::Output> {
    let started = functions.initial(&key, &first)?;
    let copied = functions.copy(&key, &next, &started)?;
    let mut changed = started;
    if !functions.in_place(&key, &next, &mut changed) {
        return None;
    }
    let ask = Ask {
        number: 3,
        key,
        source: Some(started),
        input: next,
    };
    let built = Built::make(functions, ask);
    let fresh = Ask {
        number: 3,
        key,
        source: None,
        input: first,
    };
    let begun = Built::make(functions, fresh);
    let part = functions.delta(&key, &next);
    let is_joined = functions.join(&started, &part).is(&copied)
        && functions.delta(&key, &first).is(&started);
    let is_one = (is_joined || !F::MERGES)
        && changed.is(&copied)
        && built.value().is_some_and(|value| value.is(&copied))
        && built.ask().is(&ask)
        && begun.value().is_some_and(|value| value.is(&started));
    if !is_one {
        return None;
    }
    Some(functions.read(&key, &next, &copied))
}

/// What is shown after two inputs, if it is the same in either order.
fn in_either_order<F: Mergeable + OrderFree>(
    functions: &F,
    key: F::Key,
    first: F::Input,
    next: F::Input,
) -> Option<F::Output> {
    let one = first_and_next(functions, key, first, next)?;
    let other = first_and_next(functions, key, next, first)?;
    if one.is(&other) { Some(one) } else { None }
}

/// Two inputs, and what counts, sums and maxima of them show.
const INPUTS: [(i64, i64, u64, i128, i64); 4] = [
    (5, -2, 2, 3, 5),
    (0, 0, 2, 0, 0),
    (
        9223372036854775807,
        9223372036854775807,
        2,
        18446744073709551614,
        9223372036854775807,
    ),
    (-9223372036854775808, -1, 2, -9223372036854775809, -1),
];

/// Inputs and values at the ends of the ranges, and what sums and maxima make of them.
const SUMS_AT_THE_ENDS: [(i64, i128, i128); 2] = [
    (
        1,
        170141183460469231731687303715884105727,
        -170141183460469231731687303715884105728,
    ),
    (
        -1,
        -170141183460469231731687303715884105728,
        170141183460469231731687303715884105727,
    ),
];

const MAXIMA_AT_THE_ENDS: [(i64, i64); 2] = [
    (-9223372036854775808, 9223372036854775807),
    (9223372036854775807, -9223372036854775808),
];

#[test]
fn three_sets(rt: HostRuntime) {
    let name = Name::new(b"a");
    assert!(rt; name.is_some());
    if let Some(a) = name {
        for (first, next, count, sum, most) in INPUTS {
            assert!(rt; in_either_order(&CountFns, a, first, next) == Some(count));
            assert!(rt; in_either_order(&SumFns, a, first, next) == Some(sum));
            assert!(rt; in_either_order(&MaxFns, a, first, next) == Some(most));
        }
        assert!(rt; CountFns.copy(&a, &0, &u64::MAX) == Some(0));
        for (input, value, copy) in SUMS_AT_THE_ENDS {
            assert!(rt; SumFns.copy(&a, &input, &value) == Some(copy));
        }
        for (input, value) in MAXIMA_AT_THE_ENDS {
            assert!(rt; MaxFns.copy(&a, &input, &value) == Some(i64::MAX));
        }
    }
}

/// Values, inputs and what capped sums make of them: none where the total would leave 0 to 1,000,000.
const CAPPED: [(i128, i64, Option<i128>); 8] = [
    (0, 0, Some(0)),
    (0, -1, None),
    (1, -1, Some(0)),
    (999999, 1, Some(1000000)),
    (1000000, 1, None),
    (1000000, -1000000, Some(0)),
    (2000000, -999999, None),
    (
        170141183460469231731687303715884105727,
        9223372036854775807,
        None,
    ),
];

#[test]
fn capped_sums(rt: HostRuntime) {
    let name = Name::new(b"a");
    assert!(rt; name.is_some());
    if let Some(a) = name {
        for (value, input, total) in CAPPED {
            assert!(rt; CappedSumFns.copy(&a, &input, &value) == total);
            let mut changed = value;
            let is_changed = CappedSumFns.in_place(&a, &input, &mut changed);
            assert!(rt; is_changed == total.is_some());
            assert!(rt; changed == total.unwrap_or(value));
        }
        assert!(rt; CappedSumFns.initial(&a, &-1).is_none());
        assert!(rt; CappedSumFns.initial(&a, &1000000) == Some(1000000));
        assert!(rt; CappedSumFns.initial(&a, &1000001).is_none());
    }
}

/// A refusal, its text and its name.
const REFUSALS: [(Refused, &str, &str); 21] = [
    (Refused::NoMemory, "no memory", "NoMemory"),
    (Refused::BadConfig, "bad configuration", "BadConfig"),
    (Refused::NoSlot, "no free session", "NoSlot"),
    (Refused::NoContext, "no free context", "NoContext"),
    (Refused::Unknown, "unknown session or context", "Unknown"),
    (Refused::Busy, "operations still open", "Busy"),
    (Refused::NotDue, "not due", "NotDue"),
    (Refused::DrainFull, "drain list full", "DrainFull"),
    (
        Refused::Stranger {
            what: What::Receipt,
            held: 0,
            came: 1,
        },
        "stranger: held 0, came 1",
        "Stranger",
    ),
    (Refused::Worn, "worn out", "Worn"),
    (
        Refused::Device { code: 3, page: 12 },
        "device fault 3 on page 12",
        "Device",
    ),
    (Refused::Damaged { page: 7 }, "damaged page 7", "Damaged"),
    (Refused::Stalled, "stalled", "Stalled"),
    (Refused::Mismatch, "mismatch", "Mismatch"),
    (
        Refused::BadRow { feed: 1, row: 2 },
        "bad row 2 of feed 1",
        "BadRow",
    ),
    (
        Refused::BadScript { line: 1000001 },
        "bad script line 1000001",
        "BadScript",
    ),
    (Refused::NotReady, "not ready", "NotReady"),
    (
        Refused::Unreadable { number: 1 },
        "cannot read input 1",
        "Unreadable",
    ),
    (
        Refused::Unreadable {
            number: 18446744073709551615,
        },
        "cannot read input 18446744073709551615",
        "Unreadable",
    ),
    (Refused::Unwritable, "cannot write output", "Unwritable"),
    (Refused::NoMerge, "functions do not merge", "NoMerge"),
];

#[test]
fn texts_of_refusals(rt: HostRuntime) {
    for (at, (refused, text, called)) in REFUSALS.iter().enumerate() {
        let printed = format!(in rt.alloc(); "{refused}");
        assert!(rt;
            printed.is_ok_and(|printed| printed.as_str() == *text),
            "row {at}"
        );
        assert!(rt; refused.name() == *called, "row {at}");
    }
}
