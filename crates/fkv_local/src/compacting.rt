//! How the start of a partition's log is cleared and cut.
//!
//! Relocations are made in the session that all operations are made in, one at a time, while nothing else is open there. So pages
//! can move on wherever one finds no room, and one that is not done is given up, which is without effect: whatever is refused on the
//! way, the map stays and nothing is open.
ghost use Rattle.std.specs.Prelude.{◌≡◌, ◌≢◌, ◌≤◌, ◌+◌, ◌^◌, ◌<◌, IfOk, IfErr, IfSome, OnOk, IsTrue, List, Option, None, Some, option_map, false};
ghost use Rattle.fkv_device.specs.Failing.{ReadFailsBy};
ghost use Rattle.fkv_device.specs.Standing.{Standing};
ghost use Rattle.fkv_hybrid.specs.Loads.{IsHeldBy};
ghost use Rattle.fkv_alone.specs.Causes.{CanFailToRead, CanFailToWrite};
ghost use Rattle.fkv_local.specs.Causing.{IsCausedBy};
ghost use Rattle.fkv_local.specs.Clearing.{IsWanted, WantsThen, IsKeptBy, WasCut, IsAllCut, IsGivenBack};
ghost use Rattle.fkv_local.specs.Failures.{failures_of, IsBeside};
ghost use Rattle.fkv_local.specs.Resting.{IsIdle, IsIdleBut, StaysIdle, StaysIdleBut};
ghost use Rattle.fkv_local.specs.Refusing.{IsWorkRefusal};
ghost use Rattle.fkv_local.specs.Moving.{IsPassed, IsOnward};

use crate::moving::{page_of, tidy};
use crate::parts::{PagedPartition, SLOT, Shard, Terms};
use fkv_device::{Disk, Loaded, PageReader, PageWriter, Receipt};
use fkv_functions::{Mergeable, Refused};
use fkv_operations::{Clock, Op};
use fkv_partition::{Partition, Progress, ProgressOf};
use fkv_records::Address;

/// How many pages a compaction clears, at least, until it is seen whether it pays.
const SEEN: u64 = 8;

/// How many pages Head moves, at least, until a partition is compacted again by itself.
const PAGES: u64 = 64;

/// The page that a relocation waits for, if it does.
#[derive(Drop)]
struct Wanted<R: Receipt> {
    receipt: Option<R>,
    /// Whether it is the page of the place that is relocated.
    is_of_place: bool,
}

impl<R: Receipt> Wanted<R> {
    /// It waits for none.
    fn nothing() -> Wanted<R>
        ensures { result.receipt ≡ None }
    {
        Wanted {
            receipt: None,
            is_of_place: false,
        }
    }

    /// The page of this receipt: the first one since it began is that of its place.
    fn then(self, receipt: R) -> Wanted<R>
        ensures { result.receipt ≡ Some receipt }
    {
        Wanted {
            is_of_place: self.receipt.is_none(),
            receipt: Some(receipt),
        }
    }
}

/// The page of the place that is relocated: the next place stands in it too, but at the page's end.
#[derive(Drop)]
struct KeptPage<R: Receipt> {
    page: Option<Loaded<R>>,
    /// Whether it is the log's own for sure: no page has moved since it was read, or was compared.
    is_sure: bool,
}

impl<R: Receipt> KeptPage<R> {
    /// Whether it is the page of this receipt of the log.
    fn has(&self, receipt: &R) -> bool
        ensures same { (receipts : List (Option Standing)) → IsTrue result
            → IsKeptBy R.stands receipts self.now.is_sure self.now.page
            → IsHeldBy receipts (R.stands receipt.now).page (R.stands receipt.now)
            → IfSome self.now.page (λ p. R.stands p.receipt ≡ R.stands receipt.now) }
    {
        match &self.page {
            None => false,
            Some(page) => {
                if self.is_sure {
                    page.receipt().page() == receipt.page()
                } else {
                    page.receipt().same(receipt)
                }
            }
        }
    }

    /// The page of this receipt: the kept one, or it is read, and kept where it is that of a place.
    fn fetch<P: PageReader<Receipt = R>>(
        &mut self,
        reader: &mut P,
        receipt: &R,
        is_of_place: bool,
    ) -> Result<Loaded<R>, Refused>
        ensures same { (receipts : List (Option Standing))
            → IsKeptBy R.stands receipts self.old.is_sure self.old.page
            → IsHeldBy receipts (R.stands receipt.now).page (R.stands receipt.now)
            → IfOk result (λ l. R.stands l.receipt ≡ R.stands receipt.now)
            × IsKeptBy R.stands receipts self.new.is_sure self.new.page }
        ensures steady { OnOk result (P.failures reader.new ≡ P.failures reader.old) }
        ensures told { IfErr result
            (ReadFailsBy (R.stands receipt.now).page (P.failures reader.old) (P.failures reader.new)) }
        ensures caused { IfErr result (λ e. e ≢ Refused.NoMemory → CanFailToRead R.stands P.can_fail) }
    {
        if self.has(receipt) {
            self.is_sure = true;
            if let Some(page) = &self.page {
                return page.again();
            }
        }
        let page = match Loaded::fetch(reader, receipt, receipt.size()) {
            Ok(page) => page,
            Err(refused) => return Err(refused),
        };
        if is_of_place {
            match page.again() {
                Ok(again) => {
                    self.page = Some(again);
                    self.is_sure = true;
                }
                Err(refused) => return Err(refused),
            }
        }
        Ok(page)
    }
}

/// What became of a relocation.
#[derive(Clone, Copy, Debug, PartialEq, Eq)]
enum Relocated {
    /// Its place is cleared.
    Cleared,
    /// It found no room, or its place is one that pages have to move past first.
    Waits,
}

/// The next moment, where another one is left after it. Refused: `Worn`.
fn moment_before_another(clock: &mut Clock) -> Result<u64, Refused>
    ensures ok { IfOk result (λ now. (now ≡ clock.old + 1) × (clock.new ≡ now) × (now + 1 < 2 ^ 64)) }
    ensures refused { IfErr result (λ refused. (refused ≡ Refused.Worn) × (clock.new ≡ clock.old)
        × (2 ^ 64 ≤ clock.new + 2)) }
{
    if clock.last() >= u64::MAX - 1 {
        return Err(Refused::Worn);
    }
    clock.tick()
}

/// Makes the next event of the relocation in a context: it goes on, with the page of this receipt if it waits for one.
fn event<F: Mergeable, D: Disk>(
    functions: &F,
    shard: &mut Shard<F, D>,
    kept: &mut KeptPage<D::Receipt>,
    context: usize,
    wanted: &Wanted<D::Receipt>,
    clock: &mut Clock,
) -> Result<ProgressOf<F, D::Receipt>, Refused>
    requires only { IsIdleBut shard.old.part.partition 0 context }
    requires wanted { IsWanted shard.old.part.partition context (option_map D.Receipt.stands wanted.now.receipt) }
    requires kept { IsKeptBy D.Receipt.stands shard.old.part.partition.records.log.receipts
        kept.old.is_sure kept.old.page }
    requires past { shard.old.part.partition.moment ≤ clock.old }
    requires numbered { D.Writer.next shard.old.part.writer ≤ clock.old }
    requires spare { clock.old + 1 < 2 ^ 64 }
    ensures stays { StaysIdleBut D.Receipt.keeps F.Key.cmp shard.old.part.partition shard.new.part.partition context }
    ensures onward { IsOnward shard.old.part.partition shard.new.part.partition }
    ensures passed { IsPassed shard.new.part.partition.moment clock.old clock.new }
    ensures numbered { D.Writer.next shard.new.part.writer ≤ clock.new }
    ensures caused { IsTrue D.Receipt.keeps → IfErr result
        (IsCausedBy (CanFailToWrite D.Writer.next D.Writer.can_fail) (CanFailToRead D.Receipt.stands D.Reader.can_fail)) }
    ensures spare { clock.new + 1 < 2 ^ 64 }
    ensures wants { IfOk result (λ progress. WantsThen D.Receipt.stands shard.new.part.partition context progress) }
    ensures kept { OnOk result (IsKeptBy D.Receipt.stands shard.new.part.partition.records.log.receipts
        kept.new.is_sure kept.new.page) }
    ensures same_writer { shard.new.part.writer ≡ shard.old.part.writer }
    ensures steady { OnOk result (D.Reader.failures shard.new.reader ≡ D.Reader.failures shard.old.reader) }
    ensures same_begin { shard.new.part.partition.records.log.begin ≡ shard.old.part.partition.records.log.begin }
    ensures told { IfErr result (IsWorkRefusal D.Receipt.keeps
        shard.new.part.partition.records.log.tail clock.new
        (failures_of D.Writer.failures D.Reader.failures shard.old.part.writer shard.old.reader)
        (failures_of D.Writer.failures D.Reader.failures shard.new.part.writer shard.new.reader)) }
{
    let now = match moment_before_another(clock) {
        Ok(now) => now,
        Err(refused) => return Err(refused),
    };
    match &wanted.receipt {
        None => shard.part.partition.go(SLOT, context, functions, now),
        Some(receipt) => {
            let page = match kept.fetch(&mut shard.reader, receipt, wanted.is_of_place) {
                Ok(page) => page,
                Err(refused) => return Err(refused),
            };
            // which says which page each receipt is of
            shard.part.partition.page_facts();
            shard
                .part
                .partition
                .load_own(SLOT, context, page, functions, now)
        }
    }
}

/// Goes on with the relocation that is open in a context, until it is done, waits or is refused.
fn go_on<F: Mergeable, D: Disk>(
    functions: &F,
    shard: &mut Shard<F, D>,
    kept: &mut KeptPage<D::Receipt>,
    context: usize,
    clock: &mut Clock,
) -> Result<Relocated, Refused>
    requires only { IsIdleBut shard.old.part.partition 0 context }
    requires fresh { IsWanted shard.old.part.partition context None }
    requires kept { IsKeptBy D.Receipt.stands shard.old.part.partition.records.log.receipts
        kept.old.is_sure kept.old.page }
    requires past { shard.old.part.partition.moment ≤ clock.old }
    requires numbered { D.Writer.next shard.old.part.writer ≤ clock.old }
    requires spare { clock.old + 1 < 2 ^ 64 }
    ensures stays { StaysIdleBut D.Receipt.keeps F.Key.cmp shard.old.part.partition shard.new.part.partition context }
    ensures onward { IsOnward shard.old.part.partition shard.new.part.partition }
    ensures passed { IsPassed shard.new.part.partition.moment clock.old clock.new }
    ensures numbered { D.Writer.next shard.new.part.writer ≤ clock.new }
    ensures caused { IsTrue D.Receipt.keeps → IfErr result
        (IsCausedBy (CanFailToWrite D.Writer.next D.Writer.can_fail) (CanFailToRead D.Receipt.stands D.Reader.can_fail)) }
    ensures spare { clock.new + 1 < 2 ^ 64 }
    ensures kept { OnOk result (IsKeptBy D.Receipt.stands shard.new.part.partition.records.log.receipts
        kept.new.is_sure kept.new.page) }
    ensures same_writer { shard.new.part.writer ≡ shard.old.part.writer }
    ensures steady { OnOk result (D.Reader.failures shard.new.reader ≡ D.Reader.failures shard.old.reader) }
    ensures same_begin { shard.new.part.partition.records.log.begin ≡ shard.old.part.partition.records.log.begin }
    ensures told { IfErr result (IsWorkRefusal D.Receipt.keeps
        shard.new.part.partition.records.log.tail clock.new
        (failures_of D.Writer.failures D.Reader.failures shard.old.part.writer shard.old.reader)
        (failures_of D.Writer.failures D.Reader.failures shard.new.part.writer shard.new.reader)) }
{
    let mut wanted = Wanted::nothing();
    for _event in 0..u64::MAX {
        match event(functions, shard, kept, context, &wanted, clock) {
            Ok(Progress::NeedsLoad(receipt, _)) => wanted = wanted.then(receipt),
            Ok(Progress::Done(..)) => return Ok(Relocated::Cleared),
            Ok(Progress::Next) => wanted = Wanted::nothing(),
            Ok(Progress::Waits(_)) | Ok(Progress::NeedsBuild(_)) => return Ok(Relocated::Waits),
            Err(refused) => return Err(refused),
        }
    }
    Ok(Relocated::Waits)
}

/// Gives up the relocation in a context, if it is open.
fn give_up<F: Mergeable, R: Receipt>(
    partition: &mut Partition<F, R>,
    context: usize,
    clock: &mut Clock,
)
    requires only { IsIdleBut partition.old 0 context }
    requires past { partition.old.moment ≤ clock.old }
    requires spare { clock.old + 1 < 2 ^ 64 }
    ensures stays { StaysIdle R.keeps F.Key.cmp partition.old partition.new }
    ensures onward { IsOnward partition.old partition.new }
    ensures same_records { partition.new.records ≡ partition.old.records }
    ensures passed { IsPassed partition.new.moment clock.old clock.new }
{
    let Some(_relocation) = partition.relocation(SLOT, context) else {
        return;
    };
    let Ok(now) = clock.tick() else {
        unreachable!()
    };
    let _given_up = partition.give_up(SLOT, context, now);
}

/// Relocates what stands at the address that is cleared next. Where that is not done it is given up.
fn relocate<F: Mergeable, D: Disk>(
    functions: &F,
    shard: &mut Shard<F, D>,
    kept: &mut KeptPage<D::Receipt>,
    clock: &mut Clock,
) -> Result<Relocated, Refused>
    requires idle { IsIdle shard.old.part.partition 0 }
    requires kept { IsKeptBy D.Receipt.stands shard.old.part.partition.records.log.receipts
        kept.old.is_sure kept.old.page }
    requires past { shard.old.part.partition.moment ≤ clock.old }
    requires numbered { D.Writer.next shard.old.part.writer ≤ clock.old }
    ensures stays { StaysIdle D.Receipt.keeps F.Key.cmp shard.old.part.partition shard.new.part.partition }
    ensures onward { IsOnward shard.old.part.partition shard.new.part.partition }
    ensures later { OnOk result (clock.old + 1 ≤ clock.new) }
    ensures passed { IsPassed shard.new.part.partition.moment clock.old clock.new }
    ensures numbered { D.Writer.next shard.new.part.writer ≤ clock.new }
    ensures caused { IsTrue D.Receipt.keeps → IfErr result
        (IsCausedBy (CanFailToWrite D.Writer.next D.Writer.can_fail) (CanFailToRead D.Receipt.stands D.Reader.can_fail)) }
    ensures kept { OnOk result (IsKeptBy D.Receipt.stands shard.new.part.partition.records.log.receipts
        kept.new.is_sure kept.new.page) }
    ensures same_writer { shard.new.part.writer ≡ shard.old.part.writer }
    ensures steady { OnOk result (D.Reader.failures shard.new.reader ≡ D.Reader.failures shard.old.reader) }
    ensures same_begin { shard.new.part.partition.records.log.begin ≡ shard.old.part.partition.records.log.begin }
    ensures told { IfErr result (IsWorkRefusal D.Receipt.keeps
        shard.new.part.partition.records.log.tail clock.new
        (failures_of D.Writer.failures D.Reader.failures shard.old.part.writer shard.old.reader)
        (failures_of D.Writer.failures D.Reader.failures shard.new.part.writer shard.new.reader)) }
{
    let now = match moment_before_another(clock) {
        Ok(now) => now,
        Err(refused) => return Err(refused),
    };
    shard.part.partition.facts();
    let context = match shard
        .part
        .partition
        .issue(SLOT, Op::Relocate, functions, now)
    {
        Ok(context) => context,
        Err(refused) => match refused {
            Refused::NotDue => return Ok(Relocated::Waits),
            // nothing is open
            _ => unreachable!(),
        },
    };
    let told = go_on(functions, shard, kept, context, clock);
    give_up(&mut shard.part.partition, context, clock);
    told
}

/// How far a compaction goes.
#[derive(Clone, Copy, Debug, PartialEq, Eq)]
pub enum Effort {
    /// To Head.
    Whole,
    /// To Head, but it ends where more than a quarter of what it passed still lives.
    WhereItPays,
}

/// What a compaction has done so far.
#[derive(Clone, Copy, Drop)]
struct Passed {
    /// The bytes at the start that it has cleared.
    cleared: u64,
    /// The bytes that it has appended again.
    appended: u64,
    page_size: u64,
}

impl Effort {
    /// Whether a compaction is to end that has done so much.
    fn ends(self, passed: &Passed) -> bool
        ensures whole { self ≡ Effort.Whole → result ≡ false }
    {
        let is_seen = passed.cleared >= passed.page_size.saturating_mul(SEEN);
        match self {
            Effort::Whole => false,
            Effort::WhereItPays => is_seen && passed.appended > passed.cleared / 4,
        }
    }
}

/// Relocates what lives below an address, one record after the other, to that address; or, by the effort, until it does not pay.
/// Pages move on where one finds no room.
fn clear<F: Mergeable, D: Disk>(
    terms: &Terms<F>,
    shard: &mut Shard<F, D>,
    end: Address,
    effort: Effort,
    clock: &mut Clock,
) -> Result<(), Refused>
    requires idle { IsIdle shard.old.part.partition 0 }
    requires past { shard.old.part.partition.moment ≤ clock.old }
    requires numbered { D.Writer.next shard.old.part.writer ≤ clock.old }
    ensures stays { StaysIdle D.Receipt.keeps F.Key.cmp shard.old.part.partition shard.new.part.partition }
    ensures onward { IsOnward shard.old.part.partition shard.new.part.partition }
    ensures whole { OnOk result (effort ≡ Effort.Whole → end ≤ shard.new.part.partition.cleared) }
    ensures passed { IsPassed shard.new.part.partition.moment clock.old clock.new }
    ensures numbered { D.Writer.next shard.new.part.writer ≤ clock.new }
    ensures caused { IsTrue D.Receipt.keeps → IfErr result
        (IsCausedBy (CanFailToWrite D.Writer.next D.Writer.can_fail) (CanFailToRead D.Receipt.stands D.Reader.can_fail)) }
    ensures steady { OnOk result (failures_of D.Writer.failures D.Reader.failures shard.new.part.writer shard.new.reader
        ≡ failures_of D.Writer.failures D.Reader.failures shard.old.part.writer shard.old.reader) }
    ensures same_begin { shard.new.part.partition.records.log.begin ≡ shard.old.part.partition.records.log.begin }
    ensures told { IfErr result (IsWorkRefusal D.Receipt.keeps
        shard.new.part.partition.records.log.tail clock.new
        (failures_of D.Writer.failures D.Reader.failures shard.old.part.writer shard.old.reader)
        (failures_of D.Writer.failures D.Reader.failures shard.new.part.writer shard.new.reader)) }
{
    let size = shard.part.partition.page_size();
    let (start, tail) = (shard.part.partition.cleared(), shard.part.partition.tail());
    let mut kept = KeptPage {
        page: None,
        is_sure: false,
    };
    for _record in 0..u64::MAX {
        let passed = Passed {
            cleared: shard.part.partition.cleared().saturating_sub(start),
            appended: shard.part.partition.tail().saturating_sub(tail),
            page_size: size as u64,
        };
        if shard.part.partition.cleared() >= end {
            return Ok(());
        }
        if effort.ends(&passed) {
            return Ok(());
        }
        match relocate(&terms.functions, shard, &mut kept, clock) {
            Ok(Relocated::Cleared) => {}
            Ok(Relocated::Waits) => match tidy(terms.alloc, &mut shard.part, clock) {
                Ok(()) => kept.is_sure = false,
                Err(refused) => return Err(refused),
            },
            Err(refused) => return Err(refused),
        }
    }
    // each of them took a moment
    Err(Refused::Worn)
}

/// Cuts the start of a log behind what is cleared and left memory. Answers whether there was anything to cut. Refused: `Worn` where
/// no moment is left.
fn cut<F: Mergeable, R: Receipt>(
    partition: &mut Partition<F, R>,
    clock: &mut Clock,
) -> Result<bool, Refused>
    requires idle { IsIdle partition.old 0 }
    requires past { partition.old.moment ≤ clock.old }
    ensures stays { StaysIdle R.keeps F.Key.cmp partition.old partition.new }
    ensures onward { IsOnward partition.old partition.new }
    ensures same_tail { partition.new.records.log.tail ≡ partition.old.records.log.tail }
    ensures cut { IfOk result (WasCut partition.old partition.new) }
    ensures whole { OnOk result (IsAllCut partition.new) }
    ensures passed { IsPassed partition.new.moment clock.old clock.new }
    ensures told { IfErr result (λ e. (e ≡ Refused.Worn) × (2 ^ 64 ≤ clock.new + 1)) }
{
    let now = match clock.tick() {
        Ok(now) => now,
        Err(refused) => return Err(refused),
    };
    let page = page_of(partition, partition.cleared().min(partition.head()));
    match partition.truncate(page, now) {
        Ok(()) => Ok(true),
        Err(Refused::NotDue) => Ok(false),
        Err(refused) => Err(refused),
    }
}

/// Appends what lives below Head again, and cuts the log's start behind what is cleared, also where something is refused; by the
/// effort all of it, or as far as it pays. The room of the pages that are dropped is given back. Answers whether it cut anything.
pub fn compact<F: Mergeable, D: Disk>(
    terms: &Terms<F>,
    shard: &mut Shard<F, D>,
    effort: Effort,
    clock: &mut Clock,
) -> Result<bool, Refused>
    requires idle { IsIdle shard.old.part.partition 0 }
    requires past { shard.old.part.partition.moment ≤ clock.old }
    requires numbered { D.Writer.next shard.old.part.writer ≤ clock.old }
    ensures stays { StaysIdle D.Receipt.keeps F.Key.cmp shard.old.part.partition shard.new.part.partition }
    ensures passed { IsPassed shard.new.part.partition.moment clock.old clock.new }
    ensures numbered { D.Writer.next shard.new.part.writer ≤ clock.new }
    ensures caused { IsTrue D.Receipt.keeps → IfErr result
        (IsCausedBy (CanFailToWrite D.Writer.next D.Writer.can_fail) (CanFailToRead D.Receipt.stands D.Reader.can_fail)) }
    ensures onward { IsOnward shard.old.part.partition shard.new.part.partition }
    ensures given_back { OnOk result (effort ≡ Effort.Whole
        → IsGivenBack shard.old.part.partition shard.new.part.partition) }
    ensures cut { IfOk result (WasCut shard.old.part.partition shard.new.part.partition) }
    ensures whole { OnOk result (IsAllCut shard.new.part.partition) }
    ensures steady { OnOk result (failures_of D.Writer.failures D.Reader.failures shard.new.part.writer shard.new.reader
        ≡ failures_of D.Writer.failures D.Reader.failures shard.old.part.writer shard.old.reader) }
    ensures told { IfErr result (IsWorkRefusal D.Receipt.keeps
        shard.new.part.partition.records.log.tail clock.new
        (failures_of D.Writer.failures D.Reader.failures shard.old.part.writer shard.old.reader)
        (failures_of D.Writer.failures D.Reader.failures shard.new.part.writer shard.new.reader)) }
{
    // which says, here and at the end, that regions have its pages' size
    shard.part.partition.facts();
    match tidy(terms.alloc, &mut shard.part, clock) {
        Ok(()) => {}
        Err(refused) => return Err(refused),
    }
    let end = shard.part.partition.head();
    let cleared = clear(terms, shard, end, effort, clock);
    let cut = cut(&mut shard.part.partition, clock);
    let begin = page_of(&shard.part.partition, shard.part.partition.begin());
    shard.part.writer.drop_below(begin);
    shard.part.partition.facts();
    match cleared {
        Ok(()) => cut,
        Err(refused) => Err(refused),
    }
}

/// Whether Head has moved 64 pages since a log was compacted, and as far as what was left of it below Head then, so that each byte
/// is appended again a bounded number of times.
fn is_due<F: Mergeable, D: Disk>(part: &PagedPartition<F, D>) -> bool {
    let span = (part.partition.page_size() as u64).saturating_mul(PAGES);
    let moved = part.partition.head().saturating_sub(part.compacted);
    moved >= span.max(part.left)
}

/// Compacts a log where that is due, as far as it pays. What is refused is not told: the map stays, and the log is compacted again when Head has moved
/// on.
pub fn compact_where_due<F: Mergeable, D: Disk>(
    terms: &Terms<F>,
    shard: &mut Shard<F, D>,
    clock: &mut Clock,
)
    requires idle { IsIdle shard.old.part.partition 0 }
    requires past { shard.old.part.partition.moment ≤ clock.old }
    requires numbered { D.Writer.next shard.old.part.writer ≤ clock.old }
    ensures stays { StaysIdle D.Receipt.keeps F.Key.cmp shard.old.part.partition shard.new.part.partition }
    ensures same { IsTrue terms.now.keeps_log → shard.new ≡ shard.old }
    ensures beside { IsBeside terms.now.keeps_log
        (failures_of D.Writer.failures D.Reader.failures shard.old.part.writer shard.old.reader)
        (failures_of D.Writer.failures D.Reader.failures shard.new.part.writer shard.new.reader) }
    ensures passed { IsPassed shard.new.part.partition.moment clock.old clock.new }
    ensures numbered { D.Writer.next shard.new.part.writer ≤ clock.new }
{
    if terms.keeps_log || !is_due(&shard.part) {
        return;
    }
    let _cut = compact(terms, shard, Effort::WhereItPays, clock);
    let head = shard.part.partition.head();
    shard.part.compacted = head;
    shard.part.left = head.saturating_sub(shard.part.partition.begin());
}
