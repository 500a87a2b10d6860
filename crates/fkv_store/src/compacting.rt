//! How the start of a partition's log is cleared and cut, a hold at a time.
ghost use Rattle.std.specs.Prelude.{◌≡◌, ◌≢◌, ◌+◌, ◌-◌, ◌^◌, ◌<◌, ◌≤◌, ◌⊎◌, Err, IfOk, IfErr};
ghost use Rattle.fkv_store.specs.Stores.{IsUncompacted, IsUnrelocated, IsUncut, IsUnentered, IsUnopened};
ghost use Rattle.fkv_store.specs.declared.compacting.RelocationStep.TheVariants.{Over};

use crate::gates::{Gate, Place};
use crate::holds::At;
use crate::stores::Store;
use crate::tidying::KEEPER;
use fkv_compaction::Compactor;
use fkv_device::{Disk, Loaded, PageReader, PageWriter, Receipt};
use fkv_functions::{Mergeable, Refused};
use fkv_histories::Recorder;
use fkv_partition::{Progress, ProgressOf};
use fkv_records::Address;
use std::marker::Model;
use std::sync::Wait;
use std::sync::atomic::{AtomicBool, Ordering};

/// How often one relocation begins anew in one call, because callers moved the entry of its key meanwhile. After that it is given
/// up: they write the key faster than it follows.
const RESTARTS: u8 = 8;

/// How many events a relocation takes, at the most, where its key's chain is short.
const FEW: u64 = 8;

/// How many events of relocations a compaction made, how many relocations it finished, and how many events more than eight for each of
/// these it may make. Only the hold that makes an event counts it. A contract sees the number of events.
#[derive(Drop)]
pub struct Events {
    count: u64,
    finished: u64,
    limit: u64,
}

impl Model for Events {
    ghost use Rattle.std.specs.Prelude.{ℕ};

    ghost Value = { ℕ };

    ghost view = { λ e. e.count };
}

impl Events {
    /// No event, where a compaction may make as many as an operation may take turns.
    pub fn none() -> Events
        ensures { result ≡ 0 }
    {
        Events::within(u64::MAX)
    }

    /// No event, where a compaction ends once it has made so many more than eight for each relocation that it finished. There are
    /// many where callers merge: a relocation follows all that its key was merged since its last whole value, and begins anew where
    /// that goes on meanwhile.
    pub fn within(limit: u64) -> Events
        ensures { result ≡ 0 }
    {
        Events {
            count: 0,
            finished: 0,
            limit,
        }
    }

    /// Whether they are more than they may be.
    fn are_too_many(&self) -> bool {
        let few = self.finished.saturating_mul(FEW);
        self.count.saturating_sub(few) > self.limit
    }
}

/// A compactor that has joined, up to where it relocates, which is Head as it was then, and how often pages had been moved.
#[derive(Drop)]
struct Joined {
    compactor: Compactor,
    end: Address,
    moves: u64,
}

/// The pages of a partition, as a compaction reads them: that of the place that is relocated is kept, since the next place stands in
/// it too, but at the page's end.
#[derive(Drop)]
struct Pages<P: PageReader> {
    reader: P,
    size: usize,
    kept: Option<Loaded<P::Receipt>>,
}

impl<P: PageReader> Pages<P> {
    /// The page of this receipt, as it is kept, if it is.
    fn kept(&self, receipt: &P::Receipt) -> Option<Result<Loaded<P::Receipt>, Refused>> {
        match &self.kept {
            Some(page) if page.receipt().number() == receipt.number() => Some(page.again()),
            _ => None,
        }
    }

    /// Reads a page, and keeps it where it is that of a place.
    fn read(
        &mut self,
        receipt: &P::Receipt,
        is_of_place: bool,
    ) -> Result<Loaded<P::Receipt>, Refused> {
        let page = match Loaded::fetch(&mut self.reader, receipt, self.size) {
            Ok(page) => page,
            Err(refused) => return Err(refused),
        };
        if is_of_place {
            self.kept = match page.again() {
                Ok(kept) => Some(kept),
                Err(refused) => return Err(refused),
            };
        }
        Ok(page)
    }
}

/// How far relocations are.
#[derive(Drop)]
enum RelocationStep<R: Drop> {
    /// One begins, or begins anew.
    Begun,
    /// The page by this receipt is to be read.
    NeedsLoad(R),
    /// One is done.
    Done,
    /// There is no other one in this call.
    Over,
}

/// What comes of a refused event of a compactor: relocations end where none is due, and where its session is not its own any more.
/// The session is known to no other caller, so that does not come.
fn after_refusal<R: Drop>(refused: Refused) -> Result<RelocationStep<R>, Refused>
    ensures only { IfErr result IsUnrelocated }
    ensures over { IfOk result (λ stage. stage ≡ Over) }
{
    match refused {
        Refused::NoMemory
        | Refused::Worn
        | Refused::Device { code: 3, .. }
        | Refused::Damaged { .. } => Err(refused),
        _ => Ok(RelocationStep::Over),
    }
}

/// What comes of an event of a compactor: relocations end where one waits.
fn after_event<F: Mergeable, D: Disk>(
    made: ProgressOf<F, D::Receipt>,
) -> RelocationStep<D::Receipt> {
    match made {
        Progress::NeedsLoad(receipt, _) => RelocationStep::NeedsLoad(receipt),
        Progress::Waits(_) => RelocationStep::Over,
        Progress::Done(_, _) => RelocationStep::Done,
        Progress::Next | Progress::NeedsBuild(_) => RelocationStep::Begun,
    }
}

impl<F: Mergeable, D: Disk, H: Recorder<F>> Store<F, D, H> {
    /// Relocates what lives at the start of a partition's log, up to the Head that it finds at the most, moves Begin
    /// behind what is cleared, also where something is refused, and drops the pages below: in memory they are freed, and the places
    /// that they had in files are used again. It stops early where a part is not due; where a relocation waits, or has begun anew
    /// eight times because callers wrote its key meanwhile, it begins no other, and gives that one up. Its session is refreshed
    /// wherever pages were moved, so that callers need not wait for it. No value of a key changes.
    ///
    /// # Errors
    ///
    /// `Unknown` where there is no such partition. Then, and what was relocated stays so: `NoMemory`; `NoSlot` where sixteen
    /// sessions are entered; `Worn` where the partition's clock has no next moment; `Device` with code 1 where the device does
    /// not open the partition's pages, 3 where a page can't be read; `Damaged` where a page came back with other bytes, or
    /// spells no record; `Stalled` where it took as many events as an operation may take turns.
    pub fn compact<G: Gate>(
        &self,
        rt: &impl Wait,
        partition: usize,
        gate: &G,
    ) -> Result<(), Refused>
        ensures none { self.now.count ≤ partition → result ≡ Err Refused.Unknown }
        ensures only { IfErr result (λ why. ((why ≡ Refused.Unknown) × (self.now.count ≤ partition)) ⊎ IsUncompacted why) }
    {
        let never = AtomicBool::new(false);
        let mut events = Events::none();
        self.compact_until(rt, partition, gate, &mut events, &never)
    }

    /// Does the same, and counts its events anew, but begins no event of a relocation any more once it is told to stop, or has made more
    /// than it may ([`Events::within`]): what is cleared by then is cut.
    ///
    /// # Errors
    ///
    /// As [`Store::compact`]'s.
    pub fn compact_until<G: Gate>(
        &self,
        rt: &impl Wait,
        partition: usize,
        gate: &G,
        events: &mut Events,
        stop: &AtomicBool,
    ) -> Result<(), Refused>
        ensures none { self.now.count ≤ partition → result ≡ Err Refused.Unknown }
        ensures only { IfErr result (λ why. ((why ≡ Refused.Unknown) × (self.now.count ≤ partition)) ⊎ IsUncompacted why) }
        ensures stalled { result ≡ Err Refused.Stalled → events.new ≡ self.now.turns }
    {
        *events = Events::within(events.limit);
        if partition >= self.locks.len() {
            return Err(Refused::Unknown);
        }
        let at = At {
            partition,
            worker: KEEPER,
        };
        let reader = match self.reader(rt, partition) {
            Ok(reader) => reader,
            Err(refused) => return Err(refused),
        };
        let mut pages = Pages {
            reader,
            size: self.page_size,
            kept: None,
        };
        let joined = match self.join(rt, at, gate) {
            Ok(joined) => joined,
            Err(refused) => return Err(refused),
        };
        let relocated = self.relocate(rt, at, &joined, &mut pages, events, gate, stop);
        let truncated = self.truncate(rt, at, &joined.compactor, gate);
        let parted = self.part(rt, at, joined.compactor, gate);
        match relocated {
            Ok(()) => {}
            Err(refused) => return Err(refused),
        }
        match truncated {
            Ok(()) => parted,
            Err(refused) => Err(refused),
        }
    }

    /// A reader of a partition's pages. Refused as the device refuses to open.
    fn reader(&self, rt: &impl Wait, partition: usize) -> Result<D::Reader, Refused>
        ensures only { IfErr result IsUnopened }
    {
        let mut device = self.device.lock(rt);
        device.reader(partition as u64)
    }

    /// A compactor joins a partition.
    fn join<G: Gate>(&self, rt: &impl Wait, at: At, gate: &G) -> Result<Joined, Refused>
        requires { at.partition < self.now.count }
        ensures only { IfErr result IsUnentered }
    {
        let moves = self.moves_of(at.partition);
        let mut held = self.locks[at.partition].lock(rt);
        gate.pass(at.worker, at.locked());
        let end = held.head();
        match held.join() {
            Ok(compactor) => Ok(Joined {
                compactor,
                end,
                moves,
            }),
            Err(refused) => Err(refused),
        }
    }

    /// Relocates until all is cleared up to the end of a compactor, there is no other relocation in this call, or it is told to
    /// stop.
    fn relocate<G: Gate>(
        &self,
        rt: &impl Wait,
        at: At,
        joined: &Joined,
        pages: &mut Pages<D::Reader>,
        events: &mut Events,
        gate: &G,
        stop: &AtomicBool,
    ) -> Result<(), Refused>
        requires within { at.partition < self.now.count }
        requires none { events.old ≡ 0 }
        ensures only { IfErr result (λ why. (why ≡ Refused.Stalled) ⊎ IsUnrelocated why) }
        ensures stalled { result ≡ Err Refused.Stalled → events.new ≡ self.now.turns }
    {
        let mut came: Option<Result<Loaded<D::Receipt>, Refused>> = None;
        let mut moves = joined.moves;
        let mut begun = 0;
        let mut is_of_place = false;
        for _event in 0..self.turns {
            if stop.load(Ordering::SeqCst) || events.are_too_many() {
                return Ok(());
            }
            let page = came;
            came = None;
            match self.relocate_on(rt, at, joined, page, events, gate) {
                Ok(RelocationStep::Begun) if begun > RESTARTS => return Ok(()),
                Ok(RelocationStep::Begun) => {
                    begun += 1;
                    is_of_place = true;
                }
                Ok(RelocationStep::Done) => begun = 0,
                Ok(RelocationStep::Over) => return Ok(()),
                Ok(RelocationStep::NeedsLoad(receipt)) => {
                    came = pages.kept(&receipt);
                    if came.is_none() {
                        gate.pass(at.worker, Place::Load);
                        came = Some(pages.read(&receipt, is_of_place));
                    }
                    is_of_place = false;
                }
                Err(refused) => return Err(refused),
            }
            match self.refresh_moved(rt, at, &joined.compactor, moves, gate) {
                Ok(moved) => moves = moved,
                Err(refused) => return Err(refused),
            }
        }
        Err(Refused::Stalled)
    }

    /// Refreshes a compactor's session where pages of its partition were moved since it was refreshed, so that callers need not
    /// wait for it. Answers how often they had been moved.
    fn refresh_moved<G: Gate>(
        &self,
        rt: &impl Wait,
        at: At,
        compactor: &Compactor,
        seen: u64,
        gate: &G,
    ) -> Result<u64, Refused>
        requires { at.partition < self.now.count }
        ensures only { IfErr result (λ why. why ≡ Refused.Worn) }
    {
        let moves = self.moves_of(at.partition);
        if moves == seen {
            return Ok(seen);
        }
        let mut held = self.locks[at.partition].lock(rt);
        gate.pass(at.worker, at.locked());
        match held.refresh_compactor(compactor) {
            Err(Refused::Worn) => Err(Refused::Worn),
            // without its session, the next event ends the relocations
            Ok(()) | Err(_) => Ok(moves),
        }
    }

    /// Makes the next event of a compactor, with the page that came for it, if one did, and counts it, unless all is cleared.
    fn relocate_on<G: Gate>(
        &self,
        rt: &impl Wait,
        at: At,
        joined: &Joined,
        page: Option<Result<Loaded<D::Receipt>, Refused>>,
        events: &mut Events,
        gate: &G,
    ) -> Result<RelocationStep<D::Receipt>, Refused>
        requires within { at.partition < self.now.count }
        requires room { events.old < 2 ^ 64 - 1 }
        ensures only { IfErr result IsUnrelocated }
        ensures counted { IfOk result (λ stage. stage ≢ Over → events.new ≡ events.old + 1) }
    {
        let mut held = self.locks[at.partition].lock(rt);
        gate.pass(at.worker, at.locked());
        let made = match page {
            Some(came) => held.load_relocation(&joined.compactor, came, &self.functions),
            None if held.cleared() >= joined.end => return Ok(RelocationStep::Over),
            None => held.next(&joined.compactor, &self.functions),
        };
        match made {
            Ok(made) => {
                let stage = after_event::<F, D>(made);
                events.count += 1;
                if matches!(stage, RelocationStep::Done) {
                    events.finished = events.finished.saturating_add(1);
                }
                Ok(stage)
            }
            Err(refused) => after_refusal(refused),
        }
    }

    /// Moves Begin behind what is cleared, where that is due, and gives the room back that the pages below take on the device.
    fn truncate<G: Gate>(
        &self,
        rt: &impl Wait,
        at: At,
        compactor: &Compactor,
        gate: &G,
    ) -> Result<(), Refused>
        requires { at.partition < self.now.count }
        ensures only { IfErr result (λ why. why ≡ Refused.Worn) }
    {
        match self.move_begin(rt, at, compactor, gate) {
            Ok(begin) => {
                // the partition's lock is let go: who writes a page takes it while the writer is held
                let mut writer = self.writers[at.partition].lock(rt);
                writer.drop_below(self.page_of(begin));
                Ok(())
            }
            Err(Refused::NotDue) => Ok(()),
            Err(refused) => Err(refused),
        }
    }

    /// Moves Begin behind what is cleared, and answers it. Refused as [`fkv_locked::Locked::truncate_cleared`] is.
    fn move_begin<G: Gate>(
        &self,
        rt: &impl Wait,
        at: At,
        compactor: &Compactor,
        gate: &G,
    ) -> Result<Address, Refused>
        requires { at.partition < self.now.count }
        ensures only { IfErr result IsUncut }
    {
        let mut held = self.locks[at.partition].lock(rt);
        gate.pass(at.worker, at.locked());
        held.truncate_cleared(compactor)
    }

    /// A compactor leaves a partition, with what it has open given up.
    fn part<G: Gate>(
        &self,
        rt: &impl Wait,
        at: At,
        compactor: Compactor,
        gate: &G,
    ) -> Result<(), Refused>
        requires { at.partition < self.now.count }
        ensures only { IfErr result (λ why. why ≡ Refused.Worn) }
    {
        let mut held = self.locks[at.partition].lock(rt);
        gate.pass(at.worker, at.locked());
        match held.part(compactor) {
            Err(Refused::Worn) => Err(Refused::Worn),
            // a session that is not its own any more is not left
            Ok(()) | Err(_) => Ok(()),
        }
    }
}
