//! What one worker does: it reads its share of the feeds, and makes each row an update, or a merge.
ghost use Rattle.std.specs.Prelude.{◌≡◌, ◌<◌, ◌⊎◌, ◌++◌, ◌∷◌, [], ℤ, List, length, map, replicate, slice_set, vec_len, Some, None, IfSome, IfNone, IfErr, OnOk, FitsSigned};
ghost use Rattle.std.specs.Int.{w64};
ghost use Rattle.std.specs.List.{All};
ghost use Rattle.fkv_functions.specs.declared.names.Name.{Name};
ghost use Rattle.fkv_feeds.specs.declared.counting.RowMode.{RowMode};
ghost use Rattle.fkv_store.specs.Stores.{IsTold};
ghost use Rattle.fkv_workers.specs.Works.{StandsFor, AreSplit, HasDone, loads_of};

use crate::sharing::{Reading, Share};
use crate::waiting::{WaitingRows, clear, put, rows_of};
use fkv_blocks::BlockSink;
use fkv_device::Disk;
use fkv_feed_rows::RowSink;
use fkv_feeds::RowMode;
use fkv_functions::{Mergeable, Name, Refused};
use fkv_histories::Recorder;
use fkv_jobs::Job;
use fkv_store::{Gate, Loads, Pass, Store};
use std::alloc::Global;
use std::marker::{Brand, PhantomData};
use std::rt::Clock;
use std::sync::Wait;

/// The mode by which rows are made, as a part of their type: what reads a feed says nothing of the fields of what takes its rows.
/// A call with the marker [`Brand`] picks it.
trait ByMode {
    /// The mode.
    ghost mode: { RowMode };
}

impl ByMode for Brand {
    ghost mode = { RowMode.Update };
}

/// A pass, into which rows go, and those that wait for it.
#[derive(Drop)]
struct Rows<'a, W, F: Mergeable, D: Disk, H: Recorder<F>, G, M> {
    rt: &'a W,
    alloc: Global,
    store: &'a Store<F, D, H>,
    gate: &'a G,
    mode: RowMode,
    pass: Pass<F, D, H>,
    waiting: WaitingRows,
    /// Whether the pass refused a row: then none is made after it.
    stopped: bool,
    by: PhantomData<M>,
}

/// What a pass does in this mode where a row needs a page.
fn loads_of(mode: RowMode) -> Loads
    ensures { result ≡ loads_of mode }
{
    match mode {
        RowMode::Update => Loads::Read,
        RowMode::Merge => Loads::Merge,
    }
}

/// Makes rows updates by a pass, in order, or, as the mode says, where that would read a page merges. Refused as the pass refuses an
/// update.
fn update_all<F: Mergeable<Key = Name, Input = i64>, D: Disk, H: Recorder<F>, G: Gate>(
    rt: &(impl Wait + Clock),
    alloc: Global,
    store: &Store<F, D, H>,
    gate: &G,
    pass: &mut Pass<F, D, H>,
    rows: &[(Name, i64)],
    mode: RowMode,
) -> Result<(), Refused>
    ensures ok { OnOk result (All (λ r. FitsSigned w64 r.1) rows.now
        → (before : List (Name × ℤ))
        → StandsFor H.keeps F.code mode pass.old before
        → StandsFor H.keeps F.code mode pass.new (before ++ rows.now)) }
    ensures long { OnOk result (length pass.new.told ≡ length pass.old.told) }
    ensures told { IfErr result IsTold }
{
    let loads = loads_of(mode);
    match pass.update_all(rt, alloc, store, rows, loads, gate) {
        Ok(()) => Ok(()),
        Err(refused) => Err(refused),
    }
}

impl<
    'a,
    W: Wait + Clock,
    F: Mergeable<Key = Name, Input = i64>,
    D: Disk,
    H: Recorder<F>,
    G: Gate,
    M: ByMode,
> Rows<'a, W, F, D, H, G, M> {
    /// Makes the rows of a partition that wait updates. Refused as [`update_all`] is.
    fn make(&mut self, partition: usize) -> Result<(), Refused>
        requires { partition < vec_len self.old.waiting }
        ensures ok { OnOk result ((rows : List (Name × ℤ))
            → AreSplit H.keeps F.code self.old.mode self.old.pass (map (λ rows. rows.items) self.old.waiting.items) rows
            → AreSplit H.keeps F.code self.old.mode self.new.pass (map (λ rows. rows.items) self.new.waiting.items) rows) }
        ensures empty { OnOk result (map (λ rows. rows.items) self.new.waiting.items
            ≡ slice_set (map (λ rows. rows.items) self.old.waiting.items) partition []) }
        ensures long { OnOk result (length self.new.pass.told ≡ length self.old.pass.told) }
        ensures store { self.new.store ≡ self.old.store }
        ensures mode { self.new.mode ≡ self.old.mode }
        ensures told { IfErr result IsTold }
    {
        let rows = rows_of(&self.waiting, partition);
        match update_all(
            self.rt,
            self.alloc,
            self.store,
            self.gate,
            &mut self.pass,
            rows,
            self.mode,
        ) {
            Ok(()) => {}
            Err(refused) => return Err(refused),
        }
        clear(&mut self.waiting, partition);
        Ok(())
    }

    /// The fault of reading feeds that ended by this one: the rows that wait come before it, so they are made first, and where one is
    /// refused that is told. Where the pass refused a row already none is made after it.
    fn first_fault(&mut self, refused: Refused) -> Refused
        ensures { (result ≡ refused) ⊎ IsTold result }
    {
        if self.stopped {
            return refused;
        }
        match self.make_all() {
            Ok(()) => refused,
            Err(first) => first,
        }
    }

    /// Makes all rows that wait updates, partition by partition. Refused as [`update_all`] is.
    fn make_all(&mut self) -> Result<(), Refused>
        ensures ok { OnOk result ((rows : List (Name × ℤ))
            → AreSplit H.keeps F.code self.old.mode self.old.pass (map (λ rows. rows.items) self.old.waiting.items) rows
            → StandsFor H.keeps F.code self.old.mode self.new.pass rows) }
        ensures told { IfErr result IsTold }
    {
        for partition in 0..self.waiting.len() {
            match self.make(partition) {
                Ok(()) => {}
                Err(refused) => return Err(refused),
            }
        }
        Ok(())
    }
}

impl<
    'a,
    W: Wait + Clock,
    F: Mergeable<Key = Name, Input = i64>,
    D: Disk,
    H: Recorder<F>,
    G: Gate,
    M: ByMode,
> RowSink for Rows<'a, W, F, D, H, G, M> {
    ghost stands = { λ r rows. AreSplit H.keeps F.code M.mode r.pass (map (λ rows. rows.items) r.waiting.items) rows
        × (length r.pass.told ≡ r.store.now.count) × (r.mode ≡ M.mode) };

    ghost kept = { λ _. tt };

    ghost fault = { IsTold };

    fn add(&mut self, key: &Name, amount: i64) -> Result<(), Refused> {
        let partition = self.store.home(key);
        match put(&mut self.waiting, partition, key, amount) {
            Ok(false) => return Ok(()),
            Ok(true) => {}
            Err(refused) => return Err(refused),
        }
        match self.make(partition) {
            Ok(()) => Ok(()),
            Err(refused) => {
                self.stopped = true;
                Err(refused)
            }
        }
    }
}

impl<
    'a,
    W: Wait + Clock,
    F: Mergeable<Key = Name, Input = i64>,
    D: Disk,
    H: Recorder<F>,
    G: Gate,
    M: ByMode,
> BlockSink for Rows<'a, W, F, D, H, G, M> {
    fn rest(&mut self) -> Result<(), Refused> {
        self.pass.rest(self.rt, self.store)
    }
}

/// What one worker is to do.
#[derive(Drop)]
pub(crate) struct WorkerJob<'a, C: Share, F: Mergeable, D: Disk, H: Recorder<F>, G> {
    pub alloc: Global,
    pub store: &'a Store<F, D, H>,
    pub gate: &'a G,
    pub mode: RowMode,
    pub pass: Pass<F, D, H>,
    /// No rows, of each partition.
    pub waiting: WaitingRows,
    pub share: C,
}

/// What a worker hands back: its pass, which rests, what tells of what it read, and why it stopped, if it did before its share ended.
#[derive(Drop)]
pub(crate) struct WorkerResult<F: Mergeable, D: Disk, H: Recorder<F>, R> {
    pub pass: Pass<F, D, H>,
    pub had: R,
    pub fault: Option<Refused>,
}

/// Reads a share into a pass, until none of its rows waits. Refused as the share is, and as the pass refuses an update: the first of
/// the rows, in the order in which they are made, comes before what stands behind them in a feed.
fn work_through<
    W: Wait + Clock,
    C: Share,
    F: Mergeable<Key = Name, Input = i64>,
    D: Disk,
    H: Recorder<F>,
    G: Gate,
    M: ByMode,
>(alloc: Global, share: C, rows: &mut Rows<'_, W, F, D, H, G, M>) -> Reading<C::Had>
    requires none { AreSplit H.keeps F.code M.mode rows.old.pass (map (λ rows. rows.items) rows.old.waiting.items) [] }
    requires long { length rows.old.pass.told ≡ rows.old.store.now.count }
    requires mode { rows.old.mode ≡ M.mode }
    ensures done { IfNone result.fault (HasDone (C.reads share result.had) H.keeps F.code M.mode rows.new.pass) }
    ensures stopped { IfSome result.fault (λ why. IsTold why ⊎ C.fails share result.had why) }
    ensures told { C.tells share result.had }
{
    let rt = rows.rt;
    let Reading { had, fault } = share.read(rt, alloc, rows);
    match fault {
        Some(refused) => {
            let first = rows.first_fault(refused);
            return Reading {
                had,
                fault: Some(first),
            };
        }
        None => {}
    }
    match rows.make_all() {
        Ok(()) => Reading { had, fault: None },
        Err(refused) => Reading {
            had,
            fault: Some(refused),
        },
    }
}

/// Reads a worker's share, and makes each row by this mode.
fn read_by<
    W: Wait + Clock,
    C: Share,
    F: Mergeable<Key = Name, Input = i64>,
    D: Disk,
    H: Recorder<F>,
    G: Gate,
    M: ByMode,
>(rt: &W, asked: WorkerJob<'_, C, F, D, H, G>) -> WorkerResult<F, D, H, C::Had>
    requires none { StandsFor H.keeps F.code M.mode asked.pass [] }
    requires long { length asked.pass.told ≡ asked.store.now.count }
    requires mode { asked.mode ≡ M.mode }
    requires waiting { map (λ rows. rows.items) asked.waiting.items ≡ replicate asked.store.now.count [] }
    ensures done { IfNone result.fault
        (HasDone (C.reads asked.entry.share result.had) H.keeps F.code M.mode result.pass) }
    ensures stopped { IfSome result.fault (λ why. IsTold why ⊎ C.fails asked.entry.share result.had why) }
    ensures told { C.tells asked.entry.share result.had }
{
    let WorkerJob {
        alloc,
        store,
        gate,
        mode,
        pass,
        waiting,
        share,
    } = asked;
    let mut rows: Rows<'_, W, F, D, H, G, M> = Rows {
        rt,
        alloc,
        store,
        gate,
        mode,
        pass,
        waiting,
        stopped: false,
        by: PhantomData,
    };
    let Reading { had, fault } = work_through(alloc, share, &mut rows);
    let Rows { pass, .. } = rows;
    WorkerResult { pass, had, fault }
}

/// Has a worker's pass rest at its end, so that no other worker waits for it. The worker's fault stays, if it has one: that the pass
/// is refused to rest is told only where it has none.
fn rest_after<F: Mergeable, D: Disk, H: Recorder<F>, R: Drop>(
    rt: &impl Wait,
    store: &Store<F, D, H>,
    so_far: WorkerResult<F, D, H, R>,
) -> WorkerResult<F, D, H, R>
    ensures same { result.pass ≡ so_far.pass }
    ensures had { result.had ≡ so_far.had }
    ensures first { IfSome so_far.fault (λ why. result.fault ≡ Some why) }
    ensures told { so_far.fault ≡ None → IfSome result.fault IsTold }
{
    let WorkerResult { pass, had, fault } = so_far;
    let mut pass = pass;
    let rested = pass.rest(rt, store);
    match (fault, rested) {
        (None, Err(refused)) => WorkerResult {
            pass,
            had,
            fault: Some(refused),
        },
        (fault, _) => WorkerResult { pass, had, fault },
    }
}

/// Does a worker's work: it reads its share, and makes each row by its mode; then its pass rests.
fn run_work<
    W: Wait + Clock,
    C: Share,
    F: Mergeable<Key = Name, Input = i64>,
    D: Disk,
    H: Recorder<F>,
    G: Gate,
>(rt: &W, asked: WorkerJob<'_, C, F, D, H, G>) -> WorkerResult<F, D, H, C::Had>
    requires none { StandsFor H.keeps F.code asked.mode asked.pass [] }
    requires long { length asked.pass.told ≡ asked.store.now.count }
    requires waiting { map (λ rows. rows.items) asked.waiting.items ≡ replicate asked.store.now.count [] }
    ensures done { IfNone result.fault
        (HasDone (C.reads asked.entry.share result.had) H.keeps F.code asked.entry.mode result.pass) }
    ensures stopped { IfSome result.fault (λ why. IsTold why ⊎ C.fails asked.entry.share result.had why) }
    ensures told { C.tells asked.entry.share result.had }
{
    let store = asked.store;
    let so_far = read_by::<W, C, F, D, H, G, Brand>(rt, asked);
    rest_after(rt, store, so_far)
}

impl<'a, C: Share, F: Mergeable<Key = Name, Input = i64>, D: Disk, H: Recorder<F>, G: Gate> Job
    for WorkerJob<'a, C, F, D, H, G> {
    type Output = WorkerResult<F, D, H, C::Had>;

    ghost ready = { λ j. StandsFor H.keeps F.code j.mode j.pass [] × (length j.pass.told ≡ j.store.now.count)
        × (map (λ rows. rows.items) j.waiting.items ≡ replicate j.store.now.count []) };

    ghost gives = { λ j w. IfNone w.fault (HasDone (C.reads j.share w.had) H.keeps F.code j.mode w.pass)
        × IfSome w.fault (λ why. IsTold why ⊎ C.fails j.share w.had why)
        × C.tells j.share w.had };

    fn run<W: Wait + Clock>(self, rt: &W) -> WorkerResult<F, D, H, C::Had> {
        run_work(rt, self)
    }
}
