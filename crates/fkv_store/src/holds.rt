//! Holds of a partition's lock, each for one event.
ghost use Rattle.std.specs.Prelude.{◌≡◌, ◌≢◌, ◌<◌, ◌≤◌, ◌+◌, ◌-◌, ◌^◌, IfOk, IfErr, OnOk, OnErr};
ghost use Rattle.fkv_locked.specs.Turns.{IsOf, IsTurnOf};
ghost use Rattle.fkv_store.specs.Stores.{IsUnentered, IsUndone, IsUnturned, IsUnrefreshed};
ghost use Rattle.fkv_store.specs.Runs.{fault_in, faults_of, IsSaid};

use crate::gates::{Gate, Place};
use crate::refusals::{fault_in, faults_of, is_page_fault, told, told_of, told_of_load};
use crate::stores::Store;
use fkv_device::{Disk, Loaded};
use fkv_functions::{Built, Functions, Mergeable, Refused};
use fkv_histories::Recorder;
use fkv_locked::{FinishedOf, OpenOperation, SessionId, TurnOf};
use fkv_operations::KeyedOpOf;
use std::marker::Model;
use std::sync::Wait;

/// Where a hold is: which partition's lock it takes, and which worker it tells the gate.
#[derive(Clone, Copy, Debug)]
pub(crate) struct At {
    pub partition: usize,
    pub worker: u32,
}

impl At {
    /// The place that a gate is told in a hold.
    pub(crate) fn locked(&self) -> Place {
        Place::Locked(self.partition as u64)
    }
}

/// An operation of a caller that is issued. A contract sees it as what the caller knows of it. It is neither copied nor let go: it
/// ends where an event finished it ([`close`]), or it is given up ([`give_up`]).
pub(crate) struct Issued<K, V, I> {
    operation: OpenOperation<K, V, I>,
}

impl<K, V, I> Model for Issued<K, V, I> {
    ghost use Rattle.fkv_locked.specs.declared.open_operations.OpenOperation.{OpenOperation};

    ghost Value = { OpenOperation K V I };

    ghost view = { λ i. i.operation };

    ghost inverse = { λ operation. record { operation = operation } };
}

/// The operations of callers of one type of functions that are issued.
pub(crate) type IssuedOf<F> = Issued<
    <F as Functions>::Key,
    <F as Functions>::Value,
    <F as Functions>::Input,
>;

/// How many turns an operation took, and how many faults of pages it passed over. Only [`go`] and [`load`] count them, where an event
/// of the operation is made under a lock.
#[derive(Drop)]
pub(crate) struct Turned {
    count: u64,
    missed: u64,
}

impl Model for Turned {
    ghost use Rattle.fkv_store.specs.Runs.{TurnsView};

    ghost Value = { TurnsView };

    ghost view = { λ t. record { count = t.count; missed = t.missed } };

    ghost inverse = { λ t. record { count = t.count; missed = t.missed } };
}

impl Turned {
    /// No turn.
    pub(crate) fn none() -> Turned
        ensures { result ≡ record { count = 0; missed = 0 } }
    {
        Turned {
            count: 0,
            missed: 0,
        }
    }
}

/// Enters a session. Refused as [`fkv_locked::Locked::enter`] is.
#[cold]
#[inline(never)]
pub(crate) fn enter<F: Mergeable, D: Disk, H: Recorder<F>, G: Gate>(
    rt: &impl Wait,
    store: &Store<F, D, H>,
    at: At,
    gate: &G,
) -> Result<SessionId, Refused>
    requires { at.partition < store.now.count }
    ensures only { IfErr result IsUnentered }
{
    let mut held = store.locks[at.partition].lock(rt);
    gate.pass(at.worker, at.locked());
    match held.enter() {
        Ok(session) => Ok(session),
        Err(refused) => Err(told(refused)),
    }
}

/// Refreshes a session. Refused as [`fkv_locked::Locked::refresh`] is.
pub(crate) fn refresh<F: Mergeable, D: Disk, H: Recorder<F>, G: Gate>(
    rt: &impl Wait,
    store: &Store<F, D, H>,
    at: At,
    session: SessionId,
    gate: &G,
) -> Result<(), Refused>
    requires { at.partition < store.now.count }
    ensures only { IfErr result IsUnrefreshed }
{
    let mut held = store.locks[at.partition].lock(rt);
    gate.pass(at.worker, at.locked());
    match held.refresh(session) {
        Ok(()) => Ok(()),
        Err(refused) => Err(told(refused)),
    }
}

/// Leaves a session. Refused as [`fkv_locked::Locked::leave`] is.
pub(crate) fn leave<F: Mergeable, D: Disk, H: Recorder<F>, G: Gate>(
    rt: &impl Wait,
    store: &Store<F, D, H>,
    at: At,
    session: SessionId,
    gate: &G,
) -> Result<(), Refused>
    requires { at.partition < store.now.count }
    ensures only { IfErr result IsUnrefreshed }
{
    let mut held = store.locks[at.partition].lock(rt);
    gate.pass(at.worker, at.locked());
    match held.leave(session) {
        Ok(()) => Ok(()),
        Err(refused) => Err(told(refused)),
    }
}

/// Issues an operation of a caller. Refused as [`fkv_locked::Locked::issue`] is.
pub(crate) fn issue<F: Mergeable, D: Disk, H: Recorder<F>, G: Gate>(
    rt: &impl Wait,
    store: &Store<F, D, H>,
    at: At,
    session: SessionId,
    op: KeyedOpOf<F>,
    known: u64,
    gate: &G,
) -> Result<IssuedOf<F>, Refused>
    requires { at.partition < store.now.count }
    ensures op { IfOk result (λ issued. issued.op ≡ op) }
    ensures known { IfOk result (λ issued. issued.told ≡ known) }
    ensures only { IfErr result (IsUndone known) }
{
    let mut held = store.locks[at.partition].lock(rt);
    gate.pass(at.worker, at.locked());
    match held.issue(session, op, known, &store.functions) {
        Ok(operation) => Ok(Issued { operation }),
        Err(refused) => Err(told_of(refused, known)),
    }
}

/// Whether an update of a key may need a page, as [`fkv_locked::Locked::may_need_page`] tells.
pub(crate) fn may_need_page<F: Mergeable, D: Disk, H: Recorder<F>, G: Gate>(
    rt: &impl Wait,
    store: &Store<F, D, H>,
    at: At,
    session: SessionId,
    key: &F::Key,
    gate: &G,
) -> bool
    requires { at.partition < store.now.count }
{
    let held = store.locks[at.partition].lock(rt);
    gate.pass(at.worker, at.locked());
    held.may_need_page(session, key, &store.functions)
}

/// Makes the next event of an operation of a caller, and counts a turn of it. Refused as [`fkv_locked::Locked::go`] is.
pub(crate) fn go<F: Mergeable, D: Disk, H: Recorder<F>, G: Gate>(
    rt: &impl Wait,
    store: &Store<F, D, H>,
    at: At,
    issued: &IssuedOf<F>,
    turned: &mut Turned,
    gate: &G,
) -> Result<TurnOf<F, D::Receipt>, Refused>
    requires within { at.partition < store.now.count }
    requires room { turned.old.count < 2 ^ 64 - 1 }
    ensures counted { OnOk result (turned.new ≡ record turned.old { count = turned.old.count + 1 }) }
    ensures same { OnErr result (turned.new ≡ turned.old) }
    ensures of { IfOk result (IsTurnOf issued.now) }
    ensures only { IfErr result (IsUndone issued.now.told) }
{
    let mut held = store.locks[at.partition].lock(rt);
    gate.pass(at.worker, at.locked());
    match held.go(&issued.operation, &store.functions) {
        Ok(turn) => {
            turned.count += 1;
            Ok(turn)
        }
        Err(refused) => Err(told_of(refused, issued.operation.told)),
    }
}

/// Makes the next event of an operation of a caller that waits for a page, with that page, or what came in its place, and counts a
/// turn of it. Refused as [`fkv_locked::Locked::load`] is. A fault in place of the page that it does not tell is counted as passed
/// over.
pub(crate) fn load<F: Mergeable, D: Disk, H: Recorder<F>, G: Gate>(
    rt: &impl Wait,
    store: &Store<F, D, H>,
    at: At,
    issued: &IssuedOf<F>,
    came: Result<Loaded<D::Receipt>, Refused>,
    turned: &mut Turned,
    gate: &G,
) -> Result<TurnOf<F, D::Receipt>, Refused>
    requires within { at.partition < store.now.count }
    requires room { turned.old.count < 2 ^ 64 - 1 }
    requires missed { turned.old.missed ≤ turned.old.count }
    ensures counted { OnOk result (turned.new
        ≡ record { count = turned.old.count + 1; missed = turned.old.missed + faults_of (fault_in came) }) }
    ensures of { IfOk result (IsTurnOf issued.now) }
    ensures only { IfErr result (IsUnturned issued.now.told) }
    ensures said { IfErr result (IsSaid D.Receipt.keeps (fault_in came) turned.old.missed turned.new.missed) }
{
    let fault = fault_in(&came);
    let mut held = store.locks[at.partition].lock(rt);
    gate.pass(at.worker, at.locked());
    match held.load(&issued.operation, came, &store.functions) {
        Ok(turn) => {
            turned.count += 1;
            turned.missed += faults_of(fault);
            Ok(turn)
        }
        Err(refused) => {
            let why = told_of_load(refused, fault, issued.operation.told);
            if is_page_fault(&why) {
                return Err(why);
            }
            turned.missed += faults_of(fault);
            Err(why)
        }
    }
}

/// Installs what was built for an operation of a caller, in the turn that asked for it. Refused as
/// [`fkv_locked::Locked::install`] is.
pub(crate) fn install<F: Mergeable, D: Disk, H: Recorder<F>, G: Gate>(
    rt: &impl Wait,
    store: &Store<F, D, H>,
    at: At,
    issued: &IssuedOf<F>,
    built: Built<F>,
    gate: &G,
) -> Result<TurnOf<F, D::Receipt>, Refused>
    requires { at.partition < store.now.count }
    ensures of { IfOk result (IsTurnOf issued.now) }
    ensures only { IfErr result (IsUndone issued.now.told) }
{
    let mut held = store.locks[at.partition].lock(rt);
    gate.pass(at.worker, at.locked());
    match held.install(&issued.operation, built, &store.functions) {
        Ok(turn) => Ok(turn),
        Err(refused) => Err(told_of(refused, issued.operation.told)),
    }
}

/// Ends an operation of a caller that an event finished.
pub(crate) fn close<F: Mergeable>(issued: IssuedOf<F>, _finished: &FinishedOf<F>)
    requires { IsOf issued _finished.now }
{
    let Issued { operation: _mine } = issued;
}

/// Gives an operation of a caller up, if it is still open.
pub(crate) fn give_up<F: Mergeable, D: Disk, H: Recorder<F>, G: Gate>(
    rt: &impl Wait,
    store: &Store<F, D, H>,
    at: At,
    issued: IssuedOf<F>,
    gate: &G,
)
    requires { at.partition < store.now.count }
{
    let Issued { operation } = issued;
    let mut held = store.locks[at.partition].lock(rt);
    gate.pass(at.worker, at.locked());
    // a page that was refused has ended it already
    let _ended = held.give_up(&operation);
}
