//! Running a script from a reader to a writer.
ghost use Rattle.std.specs.Prelude.{◌≡◌, ◌≢◌, ◌⊎◌, ℕ, List, Err, true, IfOk, IfErr, IfSome, OnOk};
ghost use Rattle.fkv_records.specs.Records.{size_of};
ghost use Rattle.fkv_partition.specs.Limits.{IsWithinLimits};
ghost use Rattle.fkv_partition.specs.declared.limits.Config.{Config};
ghost use Rattle.fkv_worlds.specs.States.{empty_world};
ghost use Rattle.fkv_scripts.specs.declared.lines.Line.{Line};
ghost use Rattle.fkv_functions.specs.Names.{name_cmp};
ghost use Rattle.std.specs.Io.KnownBytes.{Appends};
ghost use Rattle.fkv_streams.specs.Counting.{CountsOnly};
ghost use Rattle.fkv_streams.specs.Streams.{AppendsPrefix};
ghost use Rattle.fkv_scripts.specs.Configs.{config_of};
ghost use Rattle.fkv_scripts.specs.Script.{lines_of, IsBadAt};
ghost use Rattle.fkv_steps.specs.Bytes.{standing_of, IsNamedEntry};
ghost use Rattle.fkv_steps.specs.Running.{context_in, is_page, op_of, record_size, FollowsIssue, RunsLine, RunLines, IsPrintedBy, Prints, IsOutputOf, HasBadConfig};

use crate::scripts::printing::text_of;
use crate::scripts::written::FromAmount;
use fkv_functions::{CappedSumFns, CountFns, MaxFns, Mergeable, Name, Refused, SumFns};
use fkv_lives::{Access, ContextId, Outcome, OutcomeOf, Printed, Step};
use fkv_operations::{KeyedOp, Op};
use fkv_partition::Config;
use fkv_scripts::{FunctionsName, LIMIT, Line, Script, read_script};
use fkv_streams::{Sink, Source, write_out};
use fkv_worlds::run_until::Until;
use fkv_worlds::worlds::World;
use std::alloc::Global;

/// The operation of a line, on values.
fn on_values<V: FromAmount>(op: KeyedOp<Name, i64, i64>) -> Op<Name, V, i64>
    ensures { result ≡ op_of V.written op }
{
    match op {
        KeyedOp::Read(key, input) => Op::Read(key, input),
        KeyedOp::Upsert(key, amount) => Op::Upsert(key, V::from_amount(amount)),
        KeyedOp::Rmw(key, amount) => Op::Rmw(key, amount),
        KeyedOp::Delete(key) => Op::Delete(key),
        KeyedOp::Merge(key, amount) => Op::Merge(key, amount),
    }
}

/// Does what a line says, and answers what its last step told; `None` where there is no memory to keep a
/// step's outcome.
fn run_line<F: Mergeable<Key = Name, Input = i64>>(
    world: &mut World<F>,
    functions: &F,
    line: &Line,
) -> Option<Result<OutcomeOf<F>, Refused>>
where
    F::Value: FromAmount,
    ensures { IfSome result (λ told. RunsLine standing_of (IsNamedEntry F.Value.codec)
        name_cmp F.parts.joined F.meaning F.code F.Value.FromAmount.written world.old world.new told line.now) }
{
    let step = match *line {
        Line::Enter { partition } => Step::Enter(partition as usize),
        Line::Leave { partition, session } => Step::Leave(partition as usize, session as usize),
        Line::Refresh { partition, session } => Step::Refresh(partition as usize, session as usize),
        Line::ReadOnly { partition, page } => Step::ReadOnly(partition as usize, page),
        Line::Head { partition, page } => Step::Head(partition as usize, page),
        Line::Flush { partition, access } => {
            return flush(world, functions, partition as usize, access);
        }
        Line::Truncate { partition } => Step::Truncate(partition as usize),
        Line::Issue {
            partition,
            session,
            op,
        } => Step::Issue(partition as usize, session as usize, on_values(op)),
        Line::Do {
            partition,
            session,
            op,
        } => return do_operation(world, functions, partition as usize, session as usize, op),
        Line::Compact { partition, session } => {
            return compact(world, functions, partition as usize, session as usize);
        }
        Line::Go(place) => Step::Go(place),
        Line::Install(place) => Step::Install(place),
        Line::Load(place, access) => Step::Load(place, access),
        Line::GiveUp(place) => Step::GiveUp(place),
        Line::Ready(place) => return world.run_until(functions, Until::Ready, place),
        Line::Finish(place) => return world.run_until(functions, Until::Finish, place),
    };
    world.try_step(functions, step)
}

/// The context of an accepted issue.
fn context_in<V: Copy, O: Copy>(told: &Result<Outcome<V, O>, Refused>) -> Option<usize>
    ensures { result ≡ context_in told.now }
{
    match told {
        Ok(Outcome::Issued(context)) => Some(*context),
        _ => None,
    }
}

/// Whether a page was taken.
fn is_page<V: Copy, O: Copy>(told: &Result<Outcome<V, O>, Refused>) -> bool
    ensures { result ≡ is_page told.now }
{
    match told {
        Ok(Outcome::Taken(_)) => true,
        _ => false,
    }
}

/// Issues an operation, and finishes it.
fn do_operation<F: Mergeable<Key = Name, Input = i64>>(
    world: &mut World<F>,
    functions: &F,
    partition: usize,
    slot: usize,
    op: KeyedOp<Name, i64, i64>,
) -> Option<Result<OutcomeOf<F>, Refused>>
where
    F::Value: FromAmount,
    ensures { IfSome result (λ told. RunsLine standing_of (IsNamedEntry F.Value.codec)
        name_cmp F.parts.joined F.meaning F.code F.Value.FromAmount.written world.old world.new told (Line.Do partition slot op)) }
{
    let Some(issued) = world.try_step(functions, Step::Issue(partition, slot, on_values(op))) else {
        return None;
    };
    finish_issued(world, functions, partition, slot, issued)
}

/// Issues a relocation, and finishes it.
fn compact<F: Mergeable<Key = Name, Input = i64>>(
    world: &mut World<F>,
    functions: &F,
    partition: usize,
    slot: usize,
) -> Option<Result<OutcomeOf<F>, Refused>>
where
    F::Value: FromAmount,
    ensures { IfSome result (λ told. RunsLine standing_of (IsNamedEntry F.Value.codec)
        name_cmp F.parts.joined F.meaning F.code F.Value.FromAmount.written
        world.old world.new told (Line.Compact partition slot)) }
{
    let Some(issued) = world.try_step(functions, Step::Issue(partition, slot, Op::Relocate)) else {
        return None;
    };
    finish_issued(world, functions, partition, slot, issued)
}

/// Finishes what was issued, and answers what its last step told; where nothing was issued, what the issue told.
fn finish_issued<F: Mergeable<Key = Name, Input = i64>>(
    world: &mut World<F>,
    functions: &F,
    partition: usize,
    slot: usize,
    issued: Result<OutcomeOf<F>, Refused>,
) -> Option<Result<OutcomeOf<F>, Refused>>
    ensures { IfSome result (λ told. FollowsIssue standing_of
        (IsNamedEntry F.Value.codec) name_cmp F.parts.joined F.meaning F.code
        partition slot
        world.old world.new told issued) }
{
    let Some(context) = context_in(&issued) else {
        return Some(issued);
    };
    let place = ContextId {
        partition,
        slot,
        context,
    };
    world.run_until(functions, Until::Finish, place)
}

/// Takes the lowest page that is not flushed and writes it, and answers what the write told; where no page was taken,
/// what the take told.
fn flush<F: Mergeable<Key = Name, Input = i64>>(
    world: &mut World<F>,
    functions: &F,
    partition: usize,
    access: Access,
) -> Option<Result<OutcomeOf<F>, Refused>>
where
    F::Value: FromAmount,
    ensures { IfSome result (λ told. RunsLine standing_of (IsNamedEntry F.Value.codec)
        name_cmp F.parts.joined F.meaning F.code F.Value.FromAmount.written
        world.old world.new told (Line.Flush partition access)) }
{
    let Some(taken) = world.try_step(functions, Step::Take(partition)) else {
        return None;
    };
    if !is_page(&taken) {
        return Some(taken);
    }
    world.try_step(functions, Step::Write(partition, access))
}

/// Does what the lines say, in turn, and answers what the last step of each told. Refused: `NoMemory`.
fn run_lines<F: Mergeable<Key = Name, Input = i64>>(
    alloc: Global,
    world: &mut World<F>,
    functions: &F,
    lines: &[Line],
) -> Result<Vec<Result<OutcomeOf<F>, Refused>>, Refused>
where
    F::Value: FromAmount,
    ensures ok { IfOk result (λ told. RunLines standing_of (IsNamedEntry F.Value.codec)
        name_cmp F.parts.joined F.meaning F.code F.Value.FromAmount.written world.old lines.now told.items world.new) }
    ensures only { IfErr result (λ refused. refused ≡ Refused.NoMemory) }
{
    let mut told = Vec::new(alloc);
    for line in lines {
        let Some(one) = run_line(world, functions, line) else {
            return Err(Refused::NoMemory);
        };
        let Ok(()) = told.push(one) else {
            return Err(Refused::NoMemory);
        };
    }
    Ok(told)
}

/// The text that the lines print, run in a world with nothing in it. Refused, in this order: `BadConfig`
/// where a number of the configuration is outside its limits, `NoMemory`.
fn printed_by<F: Mergeable<Key = Name, Input = i64>>(
    alloc: Global,
    functions: &F,
    config: &Config,
    lines: &[Line],
) -> Result<Vec<u8>, Refused>
where
    F::Value: FromAmount + Printed,
    F::Output: Printed,
    ensures ok { IfOk result (λ text. IsPrintedBy standing_of
        (IsNamedEntry F.Value.codec) name_cmp F.parts.joined F.meaning F.code
        F.Value.FromAmount.written
        F.Value.text F.Output.text F.MERGES config.now (size_of 32 F.Value.SIZE) lines.now text.items) }
    ensures good { result ≢ Err Refused.BadConfig → IsWithinLimits config.now (size_of 32 F.Value.SIZE) }
    ensures bad { result ≡ Err Refused.BadConfig → ¬ IsWithinLimits config.now (size_of 32 F.Value.SIZE) }
    ensures only { IfErr result (λ refused. (refused ≡ Refused.BadConfig) ⊎ (refused ≡ Refused.NoMemory)) }
{
    match World::<F>::new(alloc, config) {
        Ok(mut world) => printed_in(alloc, &mut world, functions, lines),
        Err(refused) => Err(refused),
    }
}

/// The text that the lines print, run in this world. Refused: `NoMemory`.
fn printed_in<F: Mergeable<Key = Name, Input = i64>>(
    alloc: Global,
    world: &mut World<F>,
    functions: &F,
    lines: &[Line],
) -> Result<Vec<u8>, Refused>
where
    F::Value: FromAmount + Printed,
    F::Output: Printed,
    // Of whatever configuration the world is, with nothing in it.
    ensures ok { IfOk result (λ text. (config : Config) (size : ℕ) → world.old ≡ empty_world F.MERGES config size
        → IsPrintedBy standing_of (IsNamedEntry F.Value.codec) name_cmp
        F.parts.joined F.meaning
        F.code F.Value.FromAmount.written F.Value.text F.Output.text F.MERGES config size lines.now text.items) }
    ensures only { IfErr result (λ refused. refused ≡ Refused.NoMemory) }
{
    let told = match run_lines(alloc, world, functions, lines) {
        Ok(told) => told,
        Err(refused) => return Err(refused),
    };
    world.headline();
    match world.live(functions, alloc) {
        Ok(pairs) => text_of(alloc, told.as_slice(), pairs.as_slice()),
        Err(refused) => Err(refused),
    }
}

/// Reads a script to its end, does what its lines say, and writes what they tell: a line for each, then
/// the number of live keys, and a line for each of these with its value, keys rising.
///
/// Refused, in this order: `Unreadable` with number 1 where the reader fails; `BadScript` with the first
/// line that is bad; `BadConfig` where a number of the first line is outside its limits; `NoMemory`; and
/// `Unwritable` where the writer fails: then the bytes that it took are the first of them. After any other
/// refusal nothing is written.
pub fn run_script<R: Source, W: Sink>(
    alloc: Global,
    reader: &mut R,
    writer: &mut W,
) -> Result<(), Refused>
    ensures ok { OnOk result (IfSome (R.remaining reader.old) (λ input. (text : List ℕ) × IsOutputOf input text
        × Appends (W.contents writer.old) (W.contents writer.new) text)) }
    ensures unwritable { result ≡ Err Refused.Unwritable → IfSome (R.remaining reader.old)
        (λ input. (text : List ℕ) × IsOutputOf input text
        × AppendsPrefix (W.contents writer.old) (W.contents writer.new) text) }
    ensures nothing { IfErr result (λ e. e ≢ Refused.Unwritable → W.contents writer.new ≡ W.contents writer.old) }
    ensures bad { IfErr result (λ e. (n : ℕ) → e ≡ Refused.BadScript n
        → IfSome (R.remaining reader.old) (λ input. IsBadAt 1000000 (lines_of input) n)) }
    ensures config { result ≡ Err Refused.BadConfig → IfSome (R.remaining reader.old) HasBadConfig }
    ensures only { IfErr result (λ e. (e ≡ Refused.NoMemory) ⊎ (e ≡ Refused.Unreadable 1) ⊎ (e ≡ Refused.BadConfig)
        ⊎ (e ≡ Refused.Unwritable) ⊎ ((n : ℕ) × (e ≡ Refused.BadScript n))) }
    // What was written is out.
    ensures out { OnOk result (W.is_out writer.new ≡ true) }
    // A stream is blamed where it counted a failure, and nowhere else.
    ensures unread { CountsOnly (Refused.Unreadable 1) result (R.failures reader.old) (R.failures reader.new) }
    ensures unwritten { CountsOnly Refused.Unwritable result (W.failures writer.old) (W.failures writer.new) }
{
    let script = match read_script(alloc, reader, LIMIT) {
        Ok(script) => script,
        Err(refused) => return Err(refused),
    };
    match output_of(alloc, &script) {
        Ok(text) => write_out(writer, text.as_slice()),
        Err(refused) => Err(refused),
    }
}

/// The text that a script prints, with the functions that its first line names. Refused, in this order:
/// `BadConfig` where a number of that line is outside its limits, `NoMemory`.
fn output_of(alloc: Global, script: &Script) -> Result<Vec<u8>, Refused>
    ensures ok { IfOk result (λ text. Prints script.now.opening.functions (config_of script.now.opening)
        script.now.lines.items text.items) }
    ensures good { result ≢ Err Refused.BadConfig → IsWithinLimits (config_of script.now.opening)
        (record_size script.now.opening.functions) }
    ensures bad { result ≡ Err Refused.BadConfig → ¬ IsWithinLimits (config_of script.now.opening)
        (record_size script.now.opening.functions) }
    ensures only { IfErr result (λ refused. (refused ≡ Refused.BadConfig) ⊎ (refused ≡ Refused.NoMemory)) }
{
    let config = script.opening.config();
    let lines = script.lines.as_slice();
    match script.opening.functions {
        FunctionsName::Count => printed_by(alloc, &CountFns, &config, lines),
        FunctionsName::Sum => printed_by(alloc, &SumFns, &config, lines),
        FunctionsName::Max => printed_by(alloc, &MaxFns, &config, lines),
        FunctionsName::Capped => printed_by(alloc, &CappedSumFns, &config, lines),
    }
}
