//! A session that relocates, one target at a time.
ghost use Rattle.std.specs.Prelude.{◌≡◌, ◌≢◌, ◌+◌, ◌^◌, ◌<◌, ◌≤◌, ◌⊎◌, ℕ, IsTrue, IfOk, IfErr, IfSome, OnOk, OnErr, Ok, Some, None};
ghost use Rattle.fkv_functions.specs.Plain.{Same};
ghost use Rattle.fkv_records.specs.Places.{page_at, start_at};
ghost use Rattle.fkv_hybrid.specs.Spelled.{IsEntryIn};
ghost use Rattle.fkv_operations.specs.declared.operations.KeyedOp.{KeyedOp};
ghost use Rattle.fkv_operations.specs.declared.operations.Answer.TheVariants.{Cleared};
ghost use Rattle.fkv_operations.specs.Operations.{keyed};
ghost use Rattle.fkv_partition.specs.Pending.{AllPend};
ghost use Rattle.fkv_partition.specs.Views.{live_of, relocation_at};
ghost use Rattle.fkv_partition.specs.declared.contexts.Progress.TheVariants.{Done};
ghost use Rattle.fkv_partition.specs.Beginning.{IsFirstOpen};
ghost use Rattle.fkv_partition.specs.Effect.{Asked, asked, IsQuiet, IsGiveUp, IsTruncation};
ghost use Rattle.fkv_partition.specs.Events.{Enters};
ghost use Rattle.fkv_partition.specs.Truncating.{Truncates, told_of};
ghost use Rattle.fkv_compaction.specs.Compactor.{IsTurn, IsParted, CompactsNext, CompactsLoad, GivesUpAll, Parts, IsWithoutThem};

use fkv_device::{Loaded, Receipt};
use fkv_functions::{Mergeable, Refused};
use fkv_operations::{Clock, Op};
use fkv_partition::{Partition, Progress, ProgressOf};
use fkv_records::Address;
use std::marker::Model;

/// The contexts of a session.
const CONTEXTS: usize = 8;

/// A session of a partition that relocates: it finishes one relocation before it issues the next. Which partition it
/// has joined is not kept, so each call is to be given that one. A contract sees it as its slot.
#[derive(Clone, Copy, Debug)]
pub struct Compactor {
    slot: usize,
}

impl Model for Compactor {
    ghost use Rattle.std.specs.Prelude.{ℕ};

    ghost Value = { ℕ };

    ghost view = { λ c. c.slot };

    ghost inverse = { λ n. record { slot = n } };
}

impl Compactor {
    /// Enters a session of a partition. Refused, and then nothing changes: `NoSlot` where sixteen sessions are entered.
    pub fn join<F: Mergeable, R: Receipt>(
        partition: &mut Partition<F, R>,
        now: u64,
    ) -> Result<Self, Refused>
        requires later { partition.old.moment < now }
        ensures effect { Enters partition.old partition.new now result }
        ensures event { IfOk result (λ _. IsQuiet R.keeps partition.old partition.new now) }
        ensures pends { AllPend F.Key.cmp partition.old partition.new }
        ensures within { IfOk result (λ slot. slot < 16) }
        ensures unchanged { OnErr result (partition.new ≡ partition.old) }
        ensures moment { partition.new.moment ≤ now }
    {
        match partition.enter(now) {
            Err(refused) => Err(refused),
            Ok(slot) => Ok(Compactor { slot }),
        }
    }

    /// The slot of its session.
    pub fn slot(&self) -> usize
        ensures { result ≡ self.now }
    {
        self.slot
    }

    /// Takes the next step. Where no relocation of its session is open it issues one, as [`Partition::issue`] does, and
    /// answers `Next`; else it goes on with the one of the lowest context in which one is open, as [`Partition::go`] does.
    /// Refused, and then nothing changes: as those are.
    pub fn next<F: Mergeable, R: Receipt>(
        &self,
        partition: &mut Partition<F, R>,
        functions: &F,
        now: u64,
    ) -> Result<ProgressOf<F, R>, Refused>
        requires later { partition.old.moment < now }
        ensures effect { CompactsNext R.stands F.Key.cmp F.parts.joined F.meaning F.code
            partition.old partition.new self.now now result }
        ensures event { IfOk result (λ _. IsTurn R.keeps F.Key.cmp partition.old partition.new self.now now) }
        ensures cleared { result ≡ Ok (Done Cleared now) → (c : ℕ)
            → IsFirstOpen partition.old self.now (Some c)
            → IfSome (relocation_at partition.old self.now c) (λ x. x.target < partition.new.cleared) }
        ensures unchanged { OnErr result (partition.new ≡ partition.old) }
        ensures moment { partition.new.moment ≤ now }
    {
        match partition.open_relocation(self.slot) {
            Some(context) => self.go(partition, context, functions, now),
            None => self.begin(partition, functions, now),
        }
    }

    /// Goes on with its relocation in the lowest context in which one is open.
    fn go<F: Mergeable, R: Receipt>(
        &self,
        partition: &mut Partition<F, R>,
        context: usize,
        functions: &F,
        now: u64,
    ) -> Result<ProgressOf<F, R>, Refused>
        requires later { partition.old.moment < now }
        requires open { IsFirstOpen partition.old self.now (Some context) }
        ensures effect { CompactsNext R.stands F.Key.cmp F.parts.joined F.meaning F.code
            partition.old partition.new self.now now result }
        ensures event { IfOk result (λ _. IsTurn R.keeps F.Key.cmp partition.old partition.new self.now now) }
        ensures cleared { result ≡ Ok (Done Cleared now)
            → IfSome (relocation_at partition.old self.now context) (λ x. x.target < partition.new.cleared) }
        ensures unchanged { OnErr result (partition.new ≡ partition.old) }
        ensures moment { partition.new.moment ≤ now }
    {
        partition.go(self.slot, context, functions, now)
    }

    /// Issues a relocation where none of its session is open.
    fn begin<F: Mergeable, R: Receipt>(
        &self,
        partition: &mut Partition<F, R>,
        functions: &F,
        now: u64,
    ) -> Result<ProgressOf<F, R>, Refused>
        requires later { partition.old.moment < now }
        requires none { IsFirstOpen partition.old self.now None }
        ensures effect { CompactsNext R.stands F.Key.cmp F.parts.joined F.meaning F.code
            partition.old partition.new self.now now result }
        ensures event { IfOk result (λ _. IsTurn R.keeps F.Key.cmp partition.old partition.new self.now now) }
        ensures uncleared { result ≡ Ok (Done Cleared now) → ⊥ }
        ensures unchanged { OnErr result (partition.new ≡ partition.old) }
        ensures moment { partition.new.moment ≤ now }
    {
        match partition.issue(self.slot, Op::Relocate, functions, now) {
            Err(refused) => Err(refused),
            Ok(_context) => Ok(Progress::Next),
        }
    }

    /// Goes on with the relocation of the lowest context in which one of its session is open, with the page that it
    /// waits for, or with the refusal that came in its place, as [`Partition::load`] does, whose refusals it has, and
    /// `Unknown` where none is open. A refusal gives the relocation up, or changes nothing.
    pub fn load<F: Mergeable, R: Receipt>(
        &self,
        partition: &mut Partition<F, R>,
        came: Result<Loaded<R>, Refused>,
        functions: &F,
        now: u64,
    ) -> Result<ProgressOf<F, R>, Refused>
        requires later { partition.old.moment < now }
        ensures effect { CompactsLoad R.stands (IsEntryIn F.Key.codec F.Value.codec) F.Key.cmp F.parts.joined F.meaning F.code
            partition.old partition.new self.now came now result }
        ensures event { IfOk result (λ _. IsTurn R.keeps F.Key.cmp partition.old partition.new self.now now) }
        ensures fails { IfErr result (λ _. (partition.new ≡ partition.old)
            ⊎ ((c : ℕ) × IsFirstOpen partition.old self.now (Some c)
            × IsGiveUp partition.old partition.new self.now c now)) }
        ensures cleared { result ≡ Ok (Done Cleared now) → (c : ℕ)
            → IsFirstOpen partition.old self.now (Some c)
            → IfSome (relocation_at partition.old self.now c) (λ x. x.target < partition.new.cleared) }
        ensures moment { partition.new.moment ≤ now }
    {
        match partition.open_relocation(self.slot) {
            None => Err(Refused::Unknown),
            Some(context) => partition.load(self.slot, context, came, functions, now),
        }
    }

    /// Moves Begin to the start of the page up to which all is cleared, as [`Partition::truncate_cleared`] does, whose
    /// refusals it has.
    pub fn truncate_cleared<F: Mergeable, R: Receipt>(
        &self,
        partition: &mut Partition<F, R>,
        now: u64,
    ) -> Result<Address, Refused>
        requires later { partition.old.moment < now }
        ensures effect { Truncates R.keeps partition.old partition.new
            (page_at partition.old.records.log.bits partition.old.cleared) now (told_of result) }
        ensures begin { IfOk result (λ begin. (begin ≡ partition.new.records.log.begin)
            × (begin ≡ start_at partition.old.records.log.bits
            (page_at partition.old.records.log.bits partition.old.cleared))) }
        ensures event { OnOk result (IsTruncation R.keeps F.Key.cmp partition.old partition.new
            (page_at partition.old.records.log.bits partition.old.cleared) now) }
        ensures unchanged { OnErr result (partition.new ≡ partition.old) }
        ensures moment { partition.new.moment ≤ now }
    {
        partition.truncate_cleared(now)
    }

    /// Gives up the relocations of its session that are open, the lowest context first, each at a moment of the clock,
    /// and then leaves the session at one more. Refused, in this order: `Worn` where the clock has fewer than nine
    /// moments left, and then nothing changes; `Unknown` where its slot is that of no session; `Busy` where an
    /// operation of the session is open, and then the session stays, and its relocations are given up nonetheless.
    pub fn part<F: Mergeable, R: Receipt>(
        self,
        partition: &mut Partition<F, R>,
        clock: &mut Clock,
    ) -> Result<(), Refused>
        requires past { partition.old.moment ≤ clock.old }
        ensures effect { Parts R.keeps partition.old partition.new self clock.old clock.new result }
        ensures event { OnOk result (IsParted R.keeps partition.old partition.new clock.new) }
        // whatever it answers: other sessions and operations on keys ask what they asked, look-ups are to find what they
        // were to find, and the live map stays
        ensures others { (s d : ℕ) → s ≢ self → asked partition.new s d ≡ asked partition.old s d }
        ensures operations { (s d : ℕ) (x : Asked F.Key F.Value F.Input) (o : KeyedOp F.Key F.Value F.Input)
            → asked partition.old s d ≡ Some x → keyed x.op ≡ Some o → asked partition.new s d ≡ Some x }
        ensures pends { IsTrue R.keeps → AllPend F.Key.cmp partition.old partition.new }
        ensures live { IsTrue R.keeps → Same (live_of F.Key.cmp partition.new) (live_of F.Key.cmp partition.old) }
        ensures cleared { partition.new.cleared ≡ partition.old.cleared }
        ensures past { partition.new.moment ≤ clock.new }
    {
        if clock.last() > u64::MAX - 9 {
            return Err(Refused::Worn);
        }
        self.give_up_all(partition, clock);
        let Ok(now) = clock.tick() else {
            unreachable!()
        };
        partition.leave(self.slot, now)
    }

    /// Gives up the relocations of its session that are open.
    fn give_up_all<F: Mergeable, R: Receipt>(
        &self,
        partition: &mut Partition<F, R>,
        clock: &mut Clock,
    )
        requires past { partition.old.moment ≤ clock.old }
        requires spare { clock.old + 9 < 2 ^ 64 }
        ensures effect { GivesUpAll self.now partition.old partition.new clock.old clock.new }
        ensures without { IsWithoutThem F.Key.cmp partition.old partition.new }
        ensures cleared { partition.new.cleared ≡ partition.old.cleared }
        ensures none { (c : ℕ) → relocation_at partition.new self.now c ≡ None }
        ensures others { (s d : ℕ) → s ≢ self.now → asked partition.new s d ≡ asked partition.old s d }
        ensures past { partition.new.moment ≤ clock.new }
        ensures spare { clock.new ≤ clock.old + 8 }
    {
        for context in 0..CONTEXTS {
            if partition.relocation(self.slot, context).is_some() {
                let Ok(now) = clock.tick() else {
                    unreachable!()
                };
                let _given_up = partition.give_up(self.slot, context, now);
            }
        }
    }
}
