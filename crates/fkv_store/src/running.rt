//! How an operation of a pass runs by its events, from its issue to its end, each in a hold; and what is done between holds.
ghost use Rattle.std.specs.Prelude.{◌≡◌, ◌≢◌, ◌<◌, ◌≤◌, ◌+◌, ◌-◌, ◌^◌, ◌⊎◌, ℕ, true, false, None, length, map, IsTrue, IfOk, IfErr, IfSome, OnOk, IsSome};
ghost use Rattle.fkv_operations.specs.After.{is_merge};
ghost use Rattle.fkv_locked.specs.Turns.{IsOf, IsTurnOf};
ghost use Rattle.fkv_store.specs.Stores.{IsUnturned, IsUnrefreshed, IsUntidy, IsStopped, IsUnrun};
ghost use Rattle.fkv_store.specs.Runs.{IsRunAs, IsEntryOf, IsCounted, AreCounted, AreSteady};

use crate::gates::{Gate, Place};
use crate::holds::{
    At, IssuedOf, Turned, close, give_up, go, install, issue, load, may_need_page, refresh,
};
use crate::stores::Store;
use crate::waiting::Patience;
use fkv_device::{Disk, Loaded};
use fkv_functions::{Built, Mergeable, Refused};
use fkv_histories::Recorder;
use fkv_locked::{FinishedOf, SessionId, Turn, TurnOf};
use fkv_operations::{KeyedOp, KeyedOpOf};
use std::alloc::Global;
use std::rt::Clock;
use std::sync::Wait;

/// What is done where an operation needs a page from the device.
#[derive(Clone, Copy, PartialEq, Eq, Debug)]
pub enum Loads {
    /// The page is read, and the operation goes on.
    Read,
    /// An update is given up, and a merge by the same input runs in its place, where the functions merge. For any other
    /// operation the page is read.
    Merge,
}

/// What a pass hands to the run of one operation: where it runs, and in which of its sessions; and of how many updates of the
/// partition it was told.
#[derive(Clone, Copy)]
pub(crate) struct OperationRun<'a> {
    pub alloc: Global,
    pub at: At,
    pub sessions: &'a [Option<SessionId>],
    pub session: SessionId,
    pub known: u64,
}

/// Refreshes each session of a pass.
pub(crate) fn refresh_all<F: Mergeable, D: Disk, H: Recorder<F>, G: Gate>(
    rt: &impl Wait,
    store: &Store<F, D, H>,
    sessions: &[Option<SessionId>],
    worker: u32,
    gate: &G,
) -> Result<(), Refused>
    requires { length sessions.now ≡ store.now.count }
    ensures only { IfErr result IsUnrefreshed }
{
    for (partition, session) in sessions.iter().enumerate() {
        let Some(session) = session else {
            continue;
        };
        match refresh(rt, store, At { partition, worker }, *session, gate) {
            Ok(()) => {}
            Err(refused) => return Err(refused),
        }
    }
    Ok(())
}

/// How often pages had been moved when the sessions of a pass were refreshed: those of any partition, and those of each.
#[derive(Drop)]
pub(crate) struct SeenMoves {
    pub any: u64,
    pub each: Vec<u64>,
}

/// Refreshes the sessions of a pass in partitions whose pages were moved since they were refreshed. Where none were, no partition is
/// looked at.
pub(crate) fn refresh_moved<F: Mergeable, D: Disk, H: Recorder<F>, G: Gate>(
    rt: &impl Wait,
    store: &Store<F, D, H>,
    sessions: &[Option<SessionId>],
    seen: &mut SeenMoves,
    worker: u32,
    gate: &G,
) -> Result<(), Refused>
    requires sessions { length sessions.now ≡ store.now.count }
    requires seen { length seen.old.each.items ≡ store.now.count }
    ensures seen { length seen.new.each.items ≡ length seen.old.each.items }
    ensures only { IfErr result IsUnrefreshed }
{
    let any = store.moves_of_any();
    if seen.any == any {
        return Ok(());
    }
    for (partition, session) in sessions.iter().enumerate() {
        let Some(session) = session else {
            continue;
        };
        let moves = store.moves_of(partition);
        if seen.each[partition] == moves {
            continue;
        }
        match refresh(rt, store, At { partition, worker }, *session, gate) {
            Ok(()) => seen.each[partition] = moves,
            Err(refused) => return Err(refused),
        }
    }
    seen.any = any;
    Ok(())
}

/// Makes the next event of an operation, which is a turn of it: where it wants a page, with that page, which is read by this receipt.
/// Refused as [`go`] and [`load`] are. Of the reader's failures those are counted as passed over that no refusal tells.
fn turn<F: Mergeable, D: Disk, H: Recorder<F>, G: Gate>(
    rt: &impl Wait,
    store: &Store<F, D, H>,
    at: At,
    issued: &IssuedOf<F>,
    reader: &mut D::Reader,
    wanted: Option<D::Receipt>,
    turned: &mut Turned,
    gate: &G,
) -> Result<TurnOf<F, D::Receipt>, Refused>
    requires within { at.partition < store.now.count }
    requires room { turned.old.count < 2 ^ 64 - 1 }
    requires missed { turned.old.missed ≤ turned.old.count }
    ensures counted { OnOk result (turned.new.count ≡ turned.old.count + 1) }
    ensures missed { OnOk result (turned.new.missed ≤ turned.new.count) }
    ensures of { IfOk result (IsTurnOf issued.now) }
    ensures only { IfErr result (IsUnturned issued.now.told) }
    ensures steady { (before : ℕ) → D.Reader.failures reader.old ≡ before + turned.old.missed
        → OnOk result (D.Reader.failures reader.new ≡ before + turned.new.missed) }
    ensures read { (before : ℕ) → D.Reader.failures reader.old ≡ before + turned.old.missed
        → IfErr result (IsCounted D.Receipt.keeps before (D.Reader.failures reader.new) turned.new.missed) }
    ensures unread { wanted ≡ None → turned.new.missed ≡ turned.old.missed }
{
    let Some(receipt) = wanted else {
        return go(rt, store, at, issued, turned, gate);
    };
    gate.pass(at.worker, Place::Load);
    let came = Loaded::fetch(reader, &receipt, store.page_size);
    load(rt, store, at, issued, came, turned, gate)
}

/// Makes the next event of an operation as [`turn`] does, and where a value is to be built for it builds and installs that. Refused
/// as [`turn`] and [`install`] are.
fn attempt<F: Mergeable, D: Disk, H: Recorder<F>, G: Gate>(
    rt: &impl Wait,
    store: &Store<F, D, H>,
    at: At,
    issued: &IssuedOf<F>,
    reader: &mut D::Reader,
    wanted: Option<D::Receipt>,
    turned: &mut Turned,
    gate: &G,
) -> Result<TurnOf<F, D::Receipt>, Refused>
    requires within { at.partition < store.now.count }
    requires room { turned.old.count < 2 ^ 64 - 1 }
    requires missed { turned.old.missed ≤ turned.old.count }
    ensures counted { OnOk result (turned.new.count ≡ turned.old.count + 1) }
    ensures missed { OnOk result (turned.new.missed ≤ turned.new.count) }
    ensures of { IfOk result (IsTurnOf issued.now) }
    ensures only { IfErr result (IsUnturned issued.now.told) }
    ensures steady { (before : ℕ) → D.Reader.failures reader.old ≡ before + turned.old.missed
        → OnOk result (D.Reader.failures reader.new ≡ before + turned.new.missed) }
    ensures read { (before : ℕ) → D.Reader.failures reader.old ≡ before + turned.old.missed
        → IfErr result (IsCounted D.Receipt.keeps before (D.Reader.failures reader.new) turned.new.missed) }
    ensures unread { wanted ≡ None → turned.new.missed ≡ turned.old.missed }
{
    let made = match turn(rt, store, at, issued, reader, wanted, turned, gate) {
        Ok(made) => made,
        Err(refused) => return Err(refused),
    };
    match made {
        Turn::NeedsBuild(ask) => {
            gate.pass(at.worker, Place::Build);
            let built = Built::make(&store.functions, ask);
            install(rt, store, at, issued, built, gate)
        }
        Turn::Done(entry) => Ok(Turn::Done(entry)),
        Turn::Next => Ok(Turn::Next),
        Turn::NeedsLoad(receipt, address) => Ok(Turn::NeedsLoad(receipt, address)),
        Turn::Waits(why) => Ok(Turn::Waits(why)),
    }
}

/// How often a wait moves pages on. A page leaves its frame in two steps, to where it is read only and then out, and each waits
/// until all sessions are refreshed: so who is refreshed last makes both, and tries again before any other. With one step a
/// wait, of callers who take turns one would find the frame free each time, and the others never.
const STEPS: u8 = 2;

/// Gives way to others, moves the pages of a partition on, and refreshes the sessions of a pass, so that what an operation waits
/// for may come.
fn wait<F: Mergeable, D: Disk, H: Recorder<F>, G: Gate>(
    rt: &(impl Wait + Clock),
    store: &Store<F, D, H>,
    run: &OperationRun<'_>,
    patience: &mut Patience,
    gate: &G,
) -> Result<(), Refused>
    requires within { run.now.at.partition < store.now.count }
    requires sessions { length run.now.sessions.now ≡ store.now.count }
    ensures only { IfErr result (λ why. IsUntidy why ⊎ IsUnrefreshed why) }
{
    patience.give_way(rt, store.moves_of(run.at.partition));
    for _step in 0..STEPS {
        match store.tidy(rt, run.alloc, run.at.partition, gate) {
            Ok(_head) => {}
            Err(refused) => return Err(refused),
        }
        match refresh_all(rt, store, run.sessions, run.at.worker, gate) {
            Ok(()) => {}
            Err(refused) => return Err(refused),
        }
    }
    Ok(())
}

/// Goes on with an operation until it is finished, or has taken all its turns: each event that lets it go on, asks for a page
/// or waits is a turn, and they are counted. Answers its entry, or `None` where it needs a page that is not to be read: then it is
/// still open.
fn run_on<F: Mergeable, D: Disk, H: Recorder<F>, G: Gate>(
    rt: &(impl Wait + Clock),
    store: &Store<F, D, H>,
    run: &OperationRun<'_>,
    reader: &mut D::Reader,
    issued: &IssuedOf<F>,
    reads: bool,
    turned: &mut Turned,
    gate: &G,
) -> Result<Option<FinishedOf<F>>, Refused>
    requires within { run.now.at.partition < store.now.count }
    requires sessions { length run.now.sessions.now ≡ store.now.count }
    requires fresh { turned.old ≡ record { count = 0; missed = 0 } }
    ensures of { IfOk result (λ done. IfSome done (IsOf issued.now)) }
    ensures read { IsTrue reads → IfOk result IsSome }
    ensures only { IfErr result (IsStopped issued.now.told) }
    ensures stalled { IfErr result (λ why. why ≡ Refused.Stalled → turned.new.count ≡ store.now.turns) }
    ensures within { OnOk result (turned.new.count ≤ store.now.turns) }
    ensures steady { OnOk result (D.Reader.failures reader.new ≡ D.Reader.failures reader.old + turned.new.missed) }
    ensures counted { IfErr result
        (IsCounted D.Receipt.keeps (D.Reader.failures reader.old) (D.Reader.failures reader.new) turned.new.missed) }
    ensures unread { reads ≡ false → turned.new.missed ≡ 0 }
{
    let mut wanted: Option<D::Receipt> = None;
    let mut patience = Patience::default();
    for _turn in 0..store.turns {
        let page = wanted;
        wanted = None;
        let made = match attempt(rt, store, run.at, issued, reader, page, turned, gate) {
            Ok(made) => made,
            Err(refused) => return Err(refused),
        };
        match made {
            Turn::Done(entry) => return Ok(Some(entry)),
            // an install asks nothing
            Turn::Next | Turn::NeedsBuild(_) => patience.go_on(rt),
            Turn::NeedsLoad(receipt, _) => {
                if !reads {
                    return Ok(None);
                }
                patience.reads();
                wanted = Some(receipt);
            }
            Turn::Waits(_) => match wait(rt, store, run, &mut patience, gate) {
                Ok(()) => {}
                Err(refused) => return Err(refused),
            },
        }
    }
    Err(Refused::Stalled)
}

/// Issues an operation and runs it to its end. Answers its entry, or `None` where it needs a page that is not to be read. Where
/// it is not finished it is given up, without effect.
fn run_out<F: Mergeable, D: Disk, H: Recorder<F>, G: Gate>(
    rt: &(impl Wait + Clock),
    store: &Store<F, D, H>,
    run: &OperationRun<'_>,
    reader: &mut D::Reader,
    op: KeyedOpOf<F>,
    reads: bool,
    turned: &mut Turned,
    gate: &G,
) -> Result<Option<FinishedOf<F>>, Refused>
    requires within { run.now.at.partition < store.now.count }
    requires sessions { length run.now.sessions.now ≡ store.now.count }
    ensures of { IfOk result (λ done. IfSome done (IsEntryOf op run.now.known)) }
    ensures read { IsTrue reads → IfOk result IsSome }
    ensures only { IfErr result (IsStopped run.now.known) }
    ensures stalled { IfErr result (λ why. why ≡ Refused.Stalled → turned.new.count ≡ store.now.turns) }
    ensures within { OnOk result (turned.new.count ≤ store.now.turns) }
    ensures steady { OnOk result (D.Reader.failures reader.new ≡ D.Reader.failures reader.old + turned.new.missed) }
    ensures counted { IfErr result
        (IsCounted D.Receipt.keeps (D.Reader.failures reader.old) (D.Reader.failures reader.new) turned.new.missed) }
    ensures unread { reads ≡ false → turned.new.missed ≡ 0 }
{
    *turned = Turned::none();
    let issued = match issue(rt, store, run.at, run.session, op, run.known, gate) {
        Ok(issued) => issued,
        Err(refused) => return Err(refused),
    };
    match run_on(rt, store, run, reader, &issued, reads, turned, gate) {
        Ok(Some(entry)) => {
            close::<F>(issued, &entry);
            Ok(Some(entry))
        }
        Ok(None) => {
            give_up(rt, store, run.at, issued, gate);
            Ok(None)
        }
        Err(refused) => {
            give_up(rt, store, run.at, issued, gate);
            Err(refused)
        }
    }
}

/// Issues an operation and runs it to its end, and reads the pages that it needs. Where it is not finished it is given up, without
/// effect.
fn run_reading<F: Mergeable, D: Disk, H: Recorder<F>, G: Gate>(
    rt: &(impl Wait + Clock),
    store: &Store<F, D, H>,
    run: &OperationRun<'_>,
    reader: &mut D::Reader,
    op: KeyedOpOf<F>,
    turned: &mut Turned,
    gate: &G,
) -> Result<FinishedOf<F>, Refused>
    requires within { run.now.at.partition < store.now.count }
    requires sessions { length run.now.sessions.now ≡ store.now.count }
    ensures of { IfOk result (IsEntryOf op run.now.known) }
    ensures only { IfErr result (IsStopped run.now.known) }
    ensures stalled { IfErr result (λ why. why ≡ Refused.Stalled → turned.new.count ≡ store.now.turns) }
    ensures within { OnOk result (turned.new.count ≤ store.now.turns) }
    ensures steady { OnOk result (D.Reader.failures reader.new ≡ D.Reader.failures reader.old + turned.new.missed) }
    ensures counted { IfErr result
        (IsCounted D.Receipt.keeps (D.Reader.failures reader.old) (D.Reader.failures reader.new) turned.new.missed) }
{
    match run_out(rt, store, run, reader, op, true, turned, gate) {
        Ok(Some(entry)) => Ok(entry),
        Ok(None) => unreachable!(),
        Err(refused) => Err(refused),
    }
}

/// The merge that runs in place of an operation where that would need a page, if one does.
fn merge_for<F: Mergeable>(op: &KeyedOpOf<F>, loads: Loads) -> Option<KeyedOpOf<F>>
    ensures some { IfSome result (IsRunAs loads op.now) }
{
    match op {
        KeyedOp::Rmw(key, input) if F::MERGES && loads == Loads::Merge => {
            Some(KeyedOp::Merge(*key, *input))
        }
        _ => None,
    }
}

/// Runs an operation in a session of a pass, by its events. Where it is refused it is over, without effect. An update that may need a
/// page is made a merge at once, where that is asked for: where the last record of its key in memory, if any, has no value of it
/// ([`may_need_page`]).
pub(crate) fn run_by_turns<F: Mergeable, D: Disk, H: Recorder<F>, G: Gate>(
    rt: &(impl Wait + Clock),
    store: &Store<F, D, H>,
    run: &OperationRun<'_>,
    readers: &mut Vec<D::Reader>,
    op: KeyedOpOf<F>,
    loads: Loads,
    turned: &mut Turned,
    gate: &G,
) -> Result<FinishedOf<F>, Refused>
    requires within { run.now.at.partition < store.now.count }
    requires sessions { length run.now.sessions.now ≡ store.now.count }
    requires readers { length readers.old.items ≡ store.now.count }
    requires fresh { turned.old ≡ record { count = 0; missed = 0 } }
    ensures readers { length readers.new.items ≡ length readers.old.items }
    ensures op { IfOk result (λ e. IsRunAs loads op e.op) }
    ensures fresh { IfOk result (λ e. run.now.known ≤ e.at) }
    ensures room { IfOk result (λ e. e.at < 2 ^ 64 - 1) }
    ensures merging { OnOk result (is_merge op ≡ true → F.MERGES ≡ true) }
    ensures only { IfErr result (IsUnrun F.MERGES op run.now.known) }
    ensures stalled { IfErr result (λ why. why ≡ Refused.Stalled → turned.new.count ≡ store.now.turns) }
    ensures within { OnOk result (turned.new.count ≤ store.now.turns) }
    ensures steady { OnOk result (AreSteady run.now.at.partition (map D.Reader.failures readers.old.items)
        (map D.Reader.failures readers.new.items) turned.new.missed) }
    ensures counted { IfErr result (AreCounted D.Receipt.keeps run.now.at.partition
        (map D.Reader.failures readers.old.items) (map D.Reader.failures readers.new.items) turned.new.missed) }
{
    if !F::MERGES && op.is_merge() {
        return Err(Refused::NoMerge);
    }
    let reader = &mut readers[run.at.partition];
    let Some(merge) = merge_for::<F>(&op, loads) else {
        return run_reading(rt, store, run, reader, op, turned, gate);
    };
    if may_need_page(rt, store, run.at, run.session, &op.key(), gate) {
        return run_reading(rt, store, run, reader, merge, turned, gate);
    }
    match run_out(rt, store, run, reader, op, false, turned, gate) {
        Ok(Some(entry)) => Ok(entry),
        Ok(None) => run_reading(rt, store, run, reader, merge, turned, gate),
        Err(refused) => Err(refused),
    }
}
