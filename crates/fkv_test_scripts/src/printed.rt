//! What outcomes, refusals and maps print.
use fkv_functions::{Name, Refused, What};
use fkv_operations::Answer;
use fkv_steps::scripts::text_of;
use fkv_steps::{Outcome, Wait};
use std::alloc::Global;

type Told = Result<Outcome<i128, i128>, Refused>;

const STEPS: [Told; 27] = [
    Ok(Outcome::Entered(0)),
    Ok(Outcome::Issued(7)),
    Ok(Outcome::Next),
    Ok(Outcome::Build(None)),
    Ok(Outcome::Build(Some(-5))),
    Ok(Outcome::Done(Answer::Value(-170141183460469231731687303715884105728))),
    Ok(Outcome::Done(Answer::Absent)),
    Ok(Outcome::Done(Answer::Stored)),
    Ok(Outcome::Done(Answer::Deleted)),
    Ok(Outcome::GivenUp),
    Ok(Outcome::Left),
    Ok(Outcome::Refreshed),
    Ok(Outcome::Shifted),
    Ok(Outcome::Waits(Wait::Fuzzy)),
    Ok(Outcome::Waits(Wait::Full)),
    Ok(Outcome::Taken(0)),
    Ok(Outcome::Flushed(18446744073709551615)),
    Ok(Outcome::Load(64)),
    Ok(Outcome::Issued(7)),
    Ok(Outcome::Done(Answer::Cleared)),
    Ok(Outcome::Truncated(256)),
    Ok(Outcome::Truncated(281474976710656)),
    Err(Refused::NoMemory),
    Err(Refused::Stranger {
        what: What::Page,
        held: 1,
        came: 2,
    }),
    Err(Refused::Stalled),
    Err(Refused::BadScript { line: 3 }),
    Err(Refused::NotReady),
];

const PAIRS: [(&[u8], i128); 2] = [
    (b"a", 12),
    (b"a-1", 170141183460469231731687303715884105727),
];

const TEXT: &str = "entered 0
issued 7
next
build none
build -5
done value -170141183460469231731687303715884105728
done absent
done stored
done deleted
given up
left
refreshed
shifted
wait fuzzy
wait full
taken 0
flushed 18446744073709551615
load 64
issued 7
done cleared
begin 256
begin 281474976710656
refused NoMemory
refused Stranger
refused Stalled
refused BadScript
refused NotReady
map 2
a 12
a-1 170141183460469231731687303715884105727
";

/// Names with their values, asked for again where memory is refused once.
fn pairs_of(alloc: Global, pairs: &[(&[u8], i128)]) -> Option<Vec<(Name, i128)>> {
    let mut named = Vec::new(alloc);
    for (key, value) in pairs {
        let pair = (Name::new(key)?, *value);
        if named.push(pair).is_err() && named.push(pair).is_err() {
            return None;
        }
    }
    Some(named)
}

/// Whether outcomes and pairs print this, again where memory is refused once.
fn prints(alloc: Global, steps: &[Told], pairs: &[(&[u8], i128)], wanted: &str) -> bool {
    let Some(pairs) = pairs_of(alloc, pairs) else {
        return false;
    };
    let text = match text_of(alloc, steps, pairs.as_slice()) {
        Err(Refused::NoMemory) => text_of(alloc, steps, pairs.as_slice()),
        text => text,
    };
    match text {
        Ok(text) => text.as_slice() == wanted.as_bytes(),
        Err(_) => false,
    }
}

/// Run also with each allocation refused in turn, by `rt try --test --fail-alloc N`.
#[test]
fn printed_texts(rt: HostRuntime) {
    assert!(rt; prints(rt.alloc(), &STEPS, &PAIRS, TEXT));
    assert!(rt; prints(rt.alloc(), &[], &[], "map 0\n"));
    let none: [Result<Outcome<u64, i64>, Refused>; 0] = [];
    assert!(rt; text_of(rt.alloc(), none.as_slice(), &[]).is_ok_and(|text| text.len() == 6));
}
