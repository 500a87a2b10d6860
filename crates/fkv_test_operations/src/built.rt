//! Values that were built for another question than the one that an update asked: a partition refuses each of them, and
//! the update waits for its own. No step of a world can bring one.
ghost use Rattle.std.specs.Prelude.{◌<◌, ◌≤◌};

use crate::letters::{is_map, letter, name, on_name};
use fkv_device::{Disk, MemoryDevice, MemoryReceipt};
use fkv_functions::{Ask, Built, Name, Refused, SumFns, What};
use fkv_operations::{Answer, KeyedOp};
use fkv_partition::{Config, Partition, Progress, ProgressOf};
use std::alloc::Global;

/// A question, with a letter for the key.
type Question = Ask<u8, i128, i64>;

/// A call on a partition.
#[derive(Clone, Copy)]
enum Call {
    Enter,
    Issue(usize, KeyedOp<u8, i128, i64>),
    Go(usize, usize),
    /// Installs the value that is built for this question.
    Install(usize, usize, Question),
    Refresh(usize),
    /// Moves the read-only offset to the start of a page.
    Shift(u64),
}

/// What a call tells.
#[derive(Clone, Copy, PartialEq, Eq, Debug)]
enum Told {
    /// A slot or a context.
    Number(usize),
    Moved,
    Next,
    Asks(Question),
    /// An answer, and the moment of the effect.
    Done(Answer<i128>, u64),
    /// What no call of these runs tells.
    Other,
}

/// One call, and what it tells.
type Row = (Call, Result<Told, Refused>);

/// A partition with the last moment that it was given.
#[derive(Drop)]
struct Driven {
    partition: Partition<SumFns, MemoryReceipt>,
    now: u64,
    ghost timely: { partition.moment ≤ now },
}

/// The question on a name.
fn named(question: Question) -> Option<Ask<Name, i128, i64>> {
    let key = name(question.key)?;
    Some(Ask {
        number: question.number,
        key,
        source: question.source,
        input: question.input,
    })
}

/// What an event of an operation tells, with letters for keys.
fn by_letters(
    progress: Result<ProgressOf<SumFns, MemoryReceipt>, Refused>,
) -> Result<Told, Refused> {
    match progress {
        Ok(Progress::Done(answer, effect)) => Ok(Told::Done(answer, effect)),
        Ok(Progress::Next) => Ok(Told::Next),
        Ok(Progress::NeedsBuild(ask)) => Ok(Told::Asks(Ask {
            number: ask.number,
            key: letter(&ask.key),
            source: ask.source,
            input: ask.input,
        })),
        Ok(_) => Ok(Told::Other),
        Err(refused) => Err(refused),
    }
}

/// What a call tells that answers a slot or a context.
fn numbered(told: Result<usize, Refused>) -> Result<Told, Refused> {
    match told {
        Ok(number) => Ok(Told::Number(number)),
        Err(refused) => Err(refused),
    }
}

/// What a call tells that answers nothing.
fn moved(told: Result<(), Refused>) -> Result<Told, Refused> {
    match told {
        Ok(()) => Ok(Told::Moved),
        Err(refused) => Err(refused),
    }
}

/// What a call tells that is made at a moment.
fn told_at(
    partition: &mut Partition<SumFns, MemoryReceipt>,
    call: Call,
    now: u64,
) -> Result<Told, Refused>
    requires { partition.old.moment < now }
    ensures { partition.new.moment ≤ now }
{
    match call {
        Call::Enter => numbered(partition.enter(now)),
        Call::Issue(slot, op) => match on_name(op) {
            Some(op) => numbered(partition.issue(slot, op.op(), &SumFns, now)),
            None => Ok(Told::Other),
        },
        Call::Go(slot, context) => by_letters(partition.go(slot, context, &SumFns, now)),
        Call::Install(slot, context, question) => match named(question) {
            Some(ask) => {
                let built = Built::make(&SumFns, ask);
                by_letters(partition.install(slot, context, built, &SumFns, now))
            }
            None => Ok(Told::Other),
        },
        Call::Refresh(slot) => moved(partition.refresh(slot, now)),
        Call::Shift(page) => moved(partition.shift_read_only(page, now)),
    }
}

impl Driven {
    /// What a call tells that is made at the next moment.
    fn told(&mut self, call: Call) -> Result<Told, Refused> {
        let Some(now) = self.now.checked_add(1) else {
            return Err(Refused::Worn);
        };
        let told = told_at(&mut self.partition, call, now);
        self.now = now;
        told
    }
}

/// The number of the first row that is told otherwise; that of the rows where the map at the end is another; and none
/// where all is as wanted.
fn first_wrong(alloc: Global, run: &Run) -> Result<Option<usize>, Refused> {
    let mut driven = Driven {
        partition: Partition::new(alloc, &run.config, run.number)?,
        now: 0,
    };
    for (at, (call, told)) in run.rows.iter().enumerate() {
        if driven.told(*call) != *told {
            return Ok(Some(at));
        }
    }
    let mut reader = MemoryDevice::new(alloc).reader(run.number)?;
    let pairs = driven.partition.live(&SumFns, alloc, &mut reader)?;
    if is_map(pairs.as_slice(), run.map) {
        Ok(None)
    } else {
        Ok(Some(run.rows.len()))
    }
}

/// A run in the partition of a number, and the map at its end.
struct Run {
    config: Config,
    number: u64,
    rows: &'static [Row],
    map: &'static [(u8, i128)],
}

/// What an update of `b` asks that was issued at moment 2.
const OF_NOTHING: Question = Ask {
    number: 2,
    key: b'b',
    source: None,
    input: 1,
};

const OF_ANOTHER_OPERATION: Question = Ask {
    number: 1,
    key: b'b',
    source: None,
    input: 1,
};

const OF_ANOTHER_KEY: Question = Ask {
    number: 2,
    key: b'a',
    source: None,
    input: 1,
};

const OF_A_SOURCE: Question = Ask {
    number: 2,
    key: b'b',
    source: Some(0),
    input: 1,
};

const OF_ANOTHER_INPUT: Question = Ask {
    number: 2,
    key: b'b',
    source: None,
    input: 2,
};

/// Of an operation of another number.
const ANOTHER: Refused = Refused::Stranger {
    what: What::Built,
    held: 2,
    came: 1,
};

/// Of the same number, where the question is another.
const CHANGED: Refused = Refused::Stranger {
    what: What::Built,
    held: 2,
    came: 2,
};

/// A value that was built for another number, key, source or input is a stranger's.
const ONE_QUESTION: [Row; 10] = [
    (Call::Enter, Ok(Told::Number(0))),
    (Call::Issue(0, KeyedOp::Rmw(b'b', 1)), Ok(Told::Number(0))),
    (Call::Go(0, 0), Ok(Told::Next)),
    (Call::Go(0, 0), Ok(Told::Next)),
    (Call::Go(0, 0), Ok(Told::Asks(OF_NOTHING))),
    (Call::Install(0, 0, OF_ANOTHER_OPERATION), Err(ANOTHER)),
    (Call::Install(0, 0, OF_ANOTHER_KEY), Err(CHANGED)),
    (Call::Install(0, 0, OF_A_SOURCE), Err(CHANGED)),
    (Call::Install(0, 0, OF_ANOTHER_INPUT), Err(CHANGED)),
    (
        Call::Install(0, 0, OF_NOTHING),
        Ok(Told::Done(Answer::Value(1), 10)),
    ),
];

/// What an update of `b` asks that was issued at moment 3.
const LATER: Question = Ask {
    number: 3,
    key: b'b',
    source: None,
    input: 1,
};

/// A stranger's value where nothing is open, and where nothing is asked for.
const BEFORE_A_QUESTION: [Row; 8] = [
    (Call::Enter, Ok(Told::Number(0))),
    (
        Call::Install(0, 0, OF_ANOTHER_OPERATION),
        Err(Refused::Unknown),
    ),
    (Call::Issue(0, KeyedOp::Rmw(b'b', 1)), Ok(Told::Number(0))),
    (
        Call::Install(0, 0, OF_ANOTHER_OPERATION),
        Err(Refused::NotReady),
    ),
    (Call::Go(0, 0), Ok(Told::Next)),
    (Call::Go(0, 0), Ok(Told::Next)),
    (Call::Go(0, 0), Ok(Told::Asks(LATER))),
    (
        Call::Install(0, 0, LATER),
        Ok(Told::Done(Answer::Value(1), 8)),
    ),
];

/// What two updates of `a` ask of a value that changes no more.
const ASKED_FIRST: Question = Ask {
    number: 17,
    key: b'a',
    source: Some(1),
    input: 2,
};

const ASKED_SECOND: Question = Ask {
    number: 18,
    key: b'a',
    source: Some(1),
    input: 3,
};

/// The first question without its source.
const SOURCELESS: Question = Ask {
    number: 17,
    key: b'a',
    source: None,
    input: 2,
};

/// Of the same number, without its source.
const SOURCE_LOST: Refused = Refused::Stranger {
    what: What::Built,
    held: 17,
    came: 17,
};

/// Of the update that asked first.
const FIRST_AGAIN: Refused = Refused::Stranger {
    what: What::Built,
    held: 18,
    came: 17,
};

/// Two updates of a frozen value: both ask, the first is installed, and the second finds the new value, which is
/// mutable.
const TWO_UPDATES_OF_A_FROZEN_VALUE: [Row; 26] = [
    (Call::Enter, Ok(Told::Number(0))),
    (
        Call::Issue(0, KeyedOp::Upsert(b'a', 1)),
        Ok(Told::Number(0)),
    ),
    (Call::Go(0, 0), Ok(Told::Next)),
    (Call::Go(0, 0), Ok(Told::Next)),
    (Call::Go(0, 0), Ok(Told::Done(Answer::Stored, 5))),
    (
        Call::Issue(0, KeyedOp::Upsert(b'b', 1)),
        Ok(Told::Number(0)),
    ),
    (Call::Go(0, 0), Ok(Told::Next)),
    (Call::Go(0, 0), Ok(Told::Next)),
    (Call::Go(0, 0), Ok(Told::Done(Answer::Stored, 9))),
    (
        Call::Issue(0, KeyedOp::Upsert(b'c', 1)),
        Ok(Told::Number(0)),
    ),
    (Call::Go(0, 0), Ok(Told::Next)),
    (Call::Go(0, 0), Ok(Told::Next)),
    (Call::Go(0, 0), Ok(Told::Done(Answer::Stored, 13))),
    (Call::Shift(1), Ok(Told::Moved)),
    (Call::Refresh(0), Ok(Told::Moved)),
    (Call::Enter, Ok(Told::Number(1))),
    (Call::Issue(0, KeyedOp::Rmw(b'a', 2)), Ok(Told::Number(0))),
    (Call::Issue(1, KeyedOp::Rmw(b'a', 3)), Ok(Told::Number(0))),
    (Call::Go(0, 0), Ok(Told::Asks(ASKED_FIRST))),
    (Call::Go(1, 0), Ok(Told::Asks(ASKED_SECOND))),
    (Call::Install(0, 0, SOURCELESS), Err(SOURCE_LOST)),
    (
        Call::Install(0, 0, ASKED_FIRST),
        Ok(Told::Done(Answer::Value(3), 22)),
    ),
    // before the entry, which has moved, the question is compared
    (Call::Install(1, 0, ASKED_FIRST), Err(FIRST_AGAIN)),
    (Call::Install(1, 0, ASKED_SECOND), Ok(Told::Next)),
    (Call::Go(1, 0), Ok(Told::Done(Answer::Value(6), 25))),
    (Call::Go(1, 0), Err(Refused::Unknown)),
];

const RUNS: [Run; 3] = [
    Run {
        config: Config {
            id: 1,
            partition_bits: 1,
            bucket_bits: 8,
            page_bits: 8,
            frames: 2,
            turns: 1,
        },
        number: 1,
        rows: &BEFORE_A_QUESTION,
        map: &[(b'b', 1)],
    },
    Run {
        config: Config {
            id: 1,
            partition_bits: 1,
            bucket_bits: 8,
            page_bits: 8,
            frames: 2,
            turns: 1,
        },
        number: 1,
        rows: &ONE_QUESTION,
        map: &[(b'b', 1)],
    },
    Run {
        config: Config {
            id: 1,
            partition_bits: 0,
            bucket_bits: 8,
            page_bits: 8,
            frames: 2,
            turns: 1_000_000,
        },
        number: 0,
        rows: &TWO_UPDATES_OF_A_FROZEN_VALUE,
        map: &[(b'a', 6), (b'b', 1), (b'c', 1)],
    },
];

#[test]
fn values_built_for_another_question(rt: HostRuntime) {
    for (at, run) in RUNS.iter().enumerate() {
        let wrong = first_wrong(rt.alloc(), run);
        assert!(rt; wrong == Ok(None), "run {at}: {wrong:?}");
    }
}
