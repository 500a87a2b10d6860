//! What the lines of a part say. They are read as lines of a script, by the reader of scripts.
use fkv_functions::{Name, Refused, SumFns};
use fkv_lives::{ContextId, Step, StepOf};
use fkv_operations::{KeyedOp, Op, OpOf};
use fkv_partition::Config;
use fkv_scripts::{FunctionsName, LIMIT, Line, Script, read_script};
use fkv_streams::CountedReader;
use std::alloc::Global;
use std::io::Write;

/// A call on a world.
#[derive(Clone, Copy)]
pub enum Call {
    Step(StepOf<SumFns>),
    Ready(ContextId),
    Finish(ContextId),
}

/// The store that a part opens, and its calls in order.
#[derive(Drop)]
pub struct Part {
    pub config: Config,
    pub calls: Vec<Call>,
}

/// The first word of the script's line that has the same words after it.
fn scripted(verb: &str) -> &str {
    match verb {
        "take" => "enter",
        "write" => "flush",
        "relocate" => "compact",
        other => other,
    }
}

/// The first word of a line.
fn verb_of(line: &str) -> &str {
    match line.split_once(' ') {
        Some((verb, _)) => verb,
        None => line,
    }
}

/// The script that has a line of the same words for each line of a part.
fn script_of(alloc: Global, text: &str) -> Result<Script, Refused> {
    let mut script = Vec::new(alloc);
    for line in text.lines() {
        let (verb, rest) = line.split_once(' ').unwrap_or((line, ""));
        let Ok(()) = writeln!(script, "{} {rest}", scripted(verb)) else {
            return Err(Refused::NoMemory);
        };
    }
    read_script(alloc, &mut CountedReader::new(script.as_slice()), LIMIT)
}

/// The operation of a line, on sums.
fn on_sums(op: KeyedOp<Name, i64, i64>) -> OpOf<SumFns> {
    match op {
        KeyedOp::Read(key, input) => Op::Read(key, input),
        KeyedOp::Upsert(key, amount) => Op::Upsert(key, amount as i128),
        KeyedOp::Rmw(key, amount) => Op::Rmw(key, amount),
        KeyedOp::Delete(key) => Op::Delete(key),
        KeyedOp::Merge(key, amount) => Op::Merge(key, amount),
    }
}

/// The step of a line that begins with this word and has the words of this line of a script; none where the line is
/// several steps.
fn step_of(verb: &str, line: Line) -> Option<StepOf<SumFns>> {
    Some(match line {
        Line::Enter { partition } if verb == "take" => Step::Take(partition as usize),
        Line::Enter { partition } => Step::Enter(partition as usize),
        Line::Leave { partition, session } => Step::Leave(partition as usize, session as usize),
        Line::Refresh { partition, session } => Step::Refresh(partition as usize, session as usize),
        Line::ReadOnly { partition, page } => Step::ReadOnly(partition as usize, page),
        Line::Head { partition, page } => Step::Head(partition as usize, page),
        Line::Flush { partition, access } if verb == "write" => {
            Step::Write(partition as usize, access)
        }
        Line::Truncate { partition } => Step::Truncate(partition as usize),
        Line::Issue {
            partition,
            session,
            op,
        } => Step::Issue(partition as usize, session as usize, on_sums(op)),
        Line::Compact { partition, session } if verb == "relocate" => {
            Step::Issue(partition as usize, session as usize, Op::Relocate)
        }
        Line::Go(place) => Step::Go(place),
        Line::Install(place) => Step::Install(place),
        Line::Load(place, access) => Step::Load(place, access),
        Line::GiveUp(place) => Step::GiveUp(place),
        _ => return None,
    })
}

/// The call of a line that begins with this word and has the words of this line of a script.
fn call_of(verb: &str, line: Line) -> Option<Call> {
    match line {
        Line::Ready(place) => Some(Call::Ready(place)),
        Line::Finish(place) => Some(Call::Finish(place)),
        _ => match step_of(verb, line) {
            Some(step) => Some(Call::Step(step)),
            None => None,
        },
    }
}

/// What a part says. Refused: `BadScript` with the number of a line that says nothing, the first where the store is not
/// one of sums; `NoMemory`.
pub fn part_of(alloc: Global, text: &str) -> Result<Part, Refused> {
    let script = script_of(alloc, text)?;
    if script.opening.functions != FunctionsName::Sum {
        return Err(Refused::BadScript { line: 1 });
    }
    let mut calls = Vec::new(alloc);
    for (at, (text, line)) in text.lines().skip(1).zip(script.lines.iter()).enumerate() {
        let Some(call) = call_of(verb_of(text), *line) else {
            let line = (at as u64).saturating_add(2);
            return Err(Refused::BadScript { line });
        };
        if calls.push(call).is_err() {
            return Err(Refused::NoMemory);
        }
    }
    Ok(Part {
        config: script.opening.config(),
        calls,
    })
}
