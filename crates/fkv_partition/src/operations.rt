//! Operations: on keys, and relocations. Each stands in a context of a session from its issue on, and
//! goes on by events of its own session.
ghost use Rattle.std.specs.Prelude.{◌≡◌, ◌≢◌, ◌+◌, ◌<◌, ◌≤◌, ◌⊎◌, ℕ, IsTrue, None, Ok, Err, IfOk, IfErr, IfSome, IsSome, OnOk, OnErr};
ghost use Rattle.fkv_hybrid.specs.Loads.{IsHeldBy};
ghost use Rattle.fkv_hybrid.specs.Spelled.{IsEntryIn};
ghost use Rattle.fkv_hybrid.specs.Scans.{MayFail};
ghost use Rattle.fkv_operations.specs.declared.operations.Answer.TheVariants.{Cleared};
ghost use Rattle.fkv_operations.specs.declared.operations.Op.TheVariants.{Relocate};
ghost use Rattle.fkv_partition.specs.declared.contexts.Progress.TheVariants.{Done};
ghost use Rattle.fkv_partition.specs.KeyEffect as key_effect;
ghost use Rattle.fkv_partition.specs.Pending.{AllPend, OthersPend};
ghost use Rattle.fkv_partition.specs.Views.{relocation_at};
ghost use Rattle.fkv_partition.specs.Effect.{IsIssue, IsEvent, IsLoad, IsGiveUp, Finds};
ghost use Rattle.fkv_partition.specs.Relocating.{IsRelocating};
ghost use Rattle.fkv_partition.specs.Reading.{WaitsOn};
ghost use Rattle.fkv_partition.specs.Events.{Issues, Goes, Installs, Loads, LoadsBy, WaitsFor, GivesUp};

use crate::contexts::ProgressOf;
use crate::partitions::Partition;
use crate::pending_laws::{loads_end, pendings_stay};
use fkv_device::{Loaded, PageReader, Receipt};
use fkv_functions::{Built, Mergeable, Refused};
use fkv_operations::OpOf;

impl<F: Mergeable, R: Receipt> Partition<F, R> {
    /// Issues an operation in a session and answers its context, the lowest free one. A relocation takes the lowest address
    /// that is not cleared. Refused, in this order, and then nothing changes: `Unknown` where the slot is that of no
    /// session, `Stranger` where the operation's key belongs to another partition, `NoMerge` where it is a merge and the
    /// functions don't merge, `NotDue` where a relocation's address does not lie below what the session sees as safely
    /// read-only, `NoContext`.
    pub fn issue(
        &mut self,
        slot: usize,
        op: OpOf<F>,
        functions: &F,
        now: u64,
    ) -> Result<usize, Refused>
        requires later { self.old.moment < now }
        ensures effect { Issues F.code self.old self.new slot op now result }
        ensures event { IfOk result (λ context. IsIssue F.code self.old self.new slot context op now) }
        ensures relocating { op ≡ Relocate → IfOk result (λ context.
            IsRelocating R.keeps F.Key.cmp self.old self.new slot context now) }
        ensures pends { IsTrue R.keeps → AllPend F.Key.cmp self.old self.new }
        ensures within { IfOk result (λ context. (slot < 16) × (context < 8)) }
        ensures unchanged { OnErr result (self.new ≡ self.old) }
        ensures moment { self.new.moment ≤ now }
    {
        self.facts();
        match op.keyed() {
            Some(keyed) => self.issue_on_key(slot, keyed, functions, now),
            None => self.relocate(slot, now),
        }
    }

    /// Goes on with what is open in a context.
    ///
    /// An operation on a key looks its key up, and what it meets decides. A read is finished with its answer, and a delete
    /// of a key without a value. A write of a class without an entry makes a tentative one and answers `Next`; the next
    /// call confirms it, or takes it back where another entry of its tag stands in the bucket, and answers `Next` too.
    /// Where there is an entry, the region of the key's last record by the session's view decides. A mutable value is
    /// changed where it stands, by an upsert, an update, a merge or a delete, which is finished; an update that the functions
    /// decline is finished with the answer `Declined`, and changes nothing. A delta is never changed where it stands: the
    /// parts of a key's deltas are joined on the way, down to a record that is none. Else a merge appends its
    /// part as a delta, whatever the key has, and is finished; an upsert, and a delete of a value, append a record and are
    /// finished; and an update keeps the entry and the key's value and asks for the new one,
    /// the same again until it is installed, but over a fuzzy value it answers `Waits`. Where the records of the key's
    /// class go on below what the session reads in memory, a read and an update ask for the page there. Where a record is
    /// to be appended and there is no room, the answer is `Waits` too.
    ///
    /// A relocation is finished where its target was cleared meanwhile. Else the record there is read in memory, or its
    /// page is asked for. Where the record is a tombstone, or a newer one of its key that is no delta is met, its target is
    /// cleared as it is; where that is to be read from the device, a page is asked for; else the record is appended again,
    /// joined with the parts of the key's deltas above, and its target is cleared. Where there is no room for it the answer is
    /// `Waits`, and the next call tries this last part again.
    ///
    /// Refused, in this order, and then nothing changes: `Unknown` where nothing is open there; `NotReady` where it waits
    /// for a page; `Worn` where a record is to be appended and no address is left; `NoMemory` where an entry is to be made
    /// and no place of its bucket is empty, or where the receipt of a page can't be shared.
    pub fn go(
        &mut self,
        slot: usize,
        context: usize,
        functions: &F,
        now: u64,
    ) -> Result<ProgressOf<F, R>, Refused>
        requires later { self.old.moment < now }
        ensures effect { Goes R.stands F.Key.cmp F.parts.joined F.meaning F.code self.old self.new slot context now result }
        // of an operation on a key also where the device does not keep
        ensures on_key { relocation_at self.old slot context ≡ None → IfOk result (λ progress.
            key_effect.IsEvent F.Key.cmp F.meaning self.old self.new slot context now progress) }
        // and of a relocation
        ensures relocating { IsSome (relocation_at self.old slot context) → IfOk result (λ _.
            IsRelocating R.keeps F.Key.cmp self.old self.new slot context now) }
        ensures event { IsTrue R.keeps → IfOk result (λ progress.
            IsEvent F.Key.cmp F.meaning self.old self.new slot context now progress) }
        ensures others { IsTrue R.keeps → OthersPend F.Key.cmp self.old self.new slot context }
        ensures finds { IsTrue R.keeps → IfOk result (λ progress.
            Finds F.Key.cmp self.old self.new slot context now progress) }
        ensures cleared { result ≡ Ok (Done Cleared now)
            → IfSome (relocation_at self.old slot context) (λ x. x.target < self.new.cleared) }
        ensures within { IfOk result (λ _. (slot < 16) × (context < 8)) }
        ensures unchanged { OnErr result (self.new ≡ self.old) }
        ensures moment { self.new.moment ≤ now }
    {
        pendings_stay::<F::Key, F::Value, F::Input, F::Output, R>();
        self.facts();
        if self.holds_relocation(slot, context) {
            self.go_on(slot, context, functions, now)
        } else {
            self.go_on_key(slot, context, functions, now)
        }
    }

    /// Installs the value that was built for an update. Where the entry is as it was kept, the value is appended and the
    /// update is finished; where the functions declined it, it is finished with the answer `Declined`, and nothing is
    /// appended; where the entry has moved, the update is to look again, with the answer `Next`; where there is no room for
    /// the value, the answer is `Waits`. Refused, in this order, and then nothing changes: `Unknown` where nothing is open there;
    /// `NotReady` where it asks for nothing to be built, as no relocation does; `Stranger` where the value was built for
    /// another question; `Worn` where no address is left.
    pub fn install(
        &mut self,
        slot: usize,
        context: usize,
        built: Built<F>,
        functions: &F,
        now: u64,
    ) -> Result<ProgressOf<F, R>, Refused>
        requires later { self.old.moment < now }
        ensures effect { Installs F.Key.cmp F.meaning F.code self.old self.new slot context built now result }
        ensures event { IsTrue R.keeps → IfOk result (λ progress.
            IsEvent F.Key.cmp F.meaning self.old self.new slot context now progress) }
        ensures others { IsTrue R.keeps → OthersPend F.Key.cmp self.old self.new slot context }
        ensures finds { IsTrue R.keeps → IfOk result (λ progress.
            Finds F.Key.cmp self.old self.new slot context now progress) }
        ensures within { IfOk result (λ _. (slot < 16) × (context < 8)) }
        ensures unchanged { OnErr result (self.new ≡ self.old) }
        ensures moment { self.new.moment ≤ now }
    {
        pendings_stay::<F::Key, F::Value, F::Input, F::Output, R>();
        self.facts();
        if self.holds_relocation(slot, context) {
            Err(Refused::NotReady)
        } else {
            self.install_on_key(slot, context, built, functions, now)
        }
    }

    /// Goes on with what waits for a page in a context, with that page as a device gave it, or with the refusal that came in
    /// its place.
    ///
    /// Where Begin has moved since it asked it is to look again, whatever came, and the answer is `Next`. Else the records
    /// of the page are followed along the class's chain, and the parts of the key's deltas are joined. For an operation on a
    /// key: where a record of the key that is no delta stands there, or the chain ends below Begin, a read is finished, its
    /// effect being at its look-up, and an update asks for its new value; where the chain goes on in another page, that one is
    /// asked for. For a relocation: where a newer record of the key that is no delta is met its target is cleared as it is,
    /// where the chain goes on above the target another page is asked for, and else the record is appended again, joined with
    /// those parts, unless the entry has moved, and the target is cleared.
    ///
    /// Refused, in this order: `Unknown` where nothing is open there; `NotReady` where it waits for no page; what came in
    /// place of the page, which ends it without effect unless it is `NoMemory`; `Stranger` where the page was read by
    /// another receipt than the one that is kept of it; `Damaged` where its bytes spell no record on the chain, or lead to
    /// no place, which ends it too; `Worn`; `NoMemory` where the receipt of the next page can't be shared. A refusal that
    /// ends nothing changes nothing.
    pub fn load(
        &mut self,
        slot: usize,
        context: usize,
        came: Result<Loaded<R>, Refused>,
        functions: &F,
        now: u64,
    ) -> Result<ProgressOf<F, R>, Refused>
        requires later { self.old.moment < now }
        ensures effect { Loads R.stands (IsEntryIn F.Key.codec F.Value.codec) F.Key.cmp F.parts.joined F.meaning F.code self.old self.new slot context came now result }
        // on a device that keeps, what comes of it is what the look-up was to find
        ensures event { IsTrue R.keeps → IfOk result (λ progress.
            IsLoad F.Key.cmp F.meaning self.old self.new slot context now progress) }
        // of a relocation also where the device does not keep
        ensures relocating { IsSome (relocation_at self.old slot context) → IfOk result (λ _.
            IsRelocating R.keeps F.Key.cmp self.old self.new slot context now) }
        // there it finds no damage, and tells only of what came in place of the page
        ensures undamaged { IsTrue R.keeps → (page : ℕ) → result ≡ Err (Refused.Damaged page) → came ≡ Err (Refused.Damaged page) }
        ensures fails { IfErr result (λ _. (self.new ≡ self.old) ⊎ IsGiveUp self.old self.new slot context now) }
        ensures others { IsTrue R.keeps → OthersPend F.Key.cmp self.old self.new slot context }
        ensures cleared { result ≡ Ok (Done Cleared now)
            → IfSome (relocation_at self.old slot context) (λ x. x.target < self.new.cleared) }
        ensures within { IfOk result (λ _. (slot < 16) × (context < 8)) }
        ensures moment { self.new.moment ≤ now }
    {
        loads_end::<F, R>();
        self.facts();
        if self.holds_relocation(slot, context) {
            self.resume_load(slot, context, came, functions, now)
        } else {
            self.load_on_key(slot, context, came, functions, now)
        }
    }

    /// Goes on with what waits for a page in a context, as [`Partition::load`] does with that page, and reads it here, by the
    /// receipt that is kept of it. So it is the page that was asked for, and is compared with none: a caller that holds the
    /// partition while it reads calls this one.
    ///
    /// Where nothing is open there, it waits for no page, or Begin has moved since it asked, nothing is read, and what comes
    /// of it is what `load` makes of anything.
    ///
    /// Refused as `load` is, but never by `Stranger`; and by what the reader tells (`Device` with code 3, `Damaged`,
    /// `NoMemory`), and `NoMemory` where the receipt can't be shared: then nothing changes, also where `load` would end the
    /// operation that is handed this refusal. So the page may be asked for again, or the operation be given up.
    pub fn load_by<P: PageReader<Receipt = R>>(
        &mut self,
        slot: usize,
        context: usize,
        functions: &F,
        reader: &mut P,
        now: u64,
    ) -> Result<ProgressOf<F, R>, Refused>
        requires later { self.old.moment < now }
        ensures effect { LoadsBy R.stands (IsEntryIn F.Key.codec F.Value.codec) F.Key.cmp F.parts.joined F.meaning F.code self.old self.new slot context now
            (P.failures reader.old) (P.failures reader.new) result }
        // on a device that keeps, what comes of it is what the look-up was to find
        ensures event { IsTrue R.keeps → IfOk result (λ progress.
            IsLoad F.Key.cmp F.meaning self.old self.new slot context now progress) }
        // of a relocation also where the device does not keep
        ensures relocating { IsSome (relocation_at self.old slot context) → IfOk result (λ _.
            IsRelocating R.keeps F.Key.cmp self.old self.new slot context now) }
        // there it finds no damage, and tells only of what the reader counted
        ensures undamaged { IsTrue R.keeps → (page : ℕ) → result ≡ Err (Refused.Damaged page)
            → P.failures reader.new ≡ P.failures reader.old + 1 }
        ensures fails { IfErr result (λ _. (self.new ≡ self.old) ⊎ IsGiveUp self.old self.new slot context now) }
        ensures others { IsTrue R.keeps → OthersPend F.Key.cmp self.old self.new slot context }
        ensures cleared { result ≡ Ok (Done Cleared now)
            → IfSome (relocation_at self.old slot context) (λ x. x.target < self.new.cleared) }
        ensures once { P.reads reader.new ≤ P.reads reader.old + 1 }
        ensures unread { ((page : ℕ) → WaitsFor self.old slot context page → ⊥) → reader.new ≡ reader.old }
        // the reader fails only where it may for the receipt that is kept of a page
        ensures caused { P.failures reader.new ≢ P.failures reader.old → (page : ℕ)
            × MayFail R.stands P.can_fail self.old.records.log.receipts self.old.records.log.bits page }
        ensures within { IfOk result (λ _. (slot < 16) × (context < 8)) }
        ensures moment { self.new.moment ≤ now }
    {
        loads_end::<F, R>();
        self.facts();
        if self.holds_relocation(slot, context) {
            self.resume_load_by(slot, context, functions, reader, now)
        } else {
            self.load_by_on_key(slot, context, functions, reader, now)
        }
    }

    /// Goes on with what waits for a page in a context, as [`Partition::load`] does, with a page that the caller knows to be the
    /// one that is kept, where a relocation waits for it: then it is compared with no receipt, and the call is never refused by
    /// `Stranger`.
    pub fn load_own(
        &mut self,
        slot: usize,
        context: usize,
        loaded: Loaded<R>,
        functions: &F,
        now: u64,
    ) -> Result<ProgressOf<F, R>, Refused>
        requires later { self.old.moment < now }
        requires own { (page : ℕ) → WaitsOn self.old slot context page
            → IsHeldBy self.old.records.log.receipts page (R.stands loaded.receipt) }
        ensures effect { Loads R.stands (IsEntryIn F.Key.codec F.Value.codec) F.Key.cmp F.parts.joined F.meaning F.code self.old self.new slot context (Ok loaded) now result }
        // on a device that keeps, what comes of it is what the look-up was to find
        ensures event { IsTrue R.keeps → IfOk result (λ progress.
            IsLoad F.Key.cmp F.meaning self.old self.new slot context now progress) }
        // of a relocation also where the device does not keep
        ensures relocating { IsSome (relocation_at self.old slot context) → IfOk result (λ _.
            IsRelocating R.keeps F.Key.cmp self.old self.new slot context now) }
        // there it finds no damage
        ensures undamaged { IsTrue R.keeps → (page : ℕ) → result ≢ Err (Refused.Damaged page) }
        ensures fails { IfErr result (λ _. (self.new ≡ self.old) ⊎ IsGiveUp self.old self.new slot context now) }
        ensures others { IsTrue R.keeps → OthersPend F.Key.cmp self.old self.new slot context }
        ensures cleared { result ≡ Ok (Done Cleared now)
            → IfSome (relocation_at self.old slot context) (λ x. x.target < self.new.cleared) }
        ensures within { IfOk result (λ _. (slot < 16) × (context < 8)) }
        ensures moment { self.new.moment ≤ now }
    {
        loads_end::<F, R>();
        self.facts();
        if self.holds_relocation(slot, context) {
            self.resume_load_own(slot, context, loaded, functions, now)
        } else {
            self.load_on_key(slot, context, Ok(loaded), functions, now)
        }
    }

    /// Gives up what is open in a context: it ends without effect, and its context is free; an entry that it waited to
    /// confirm is taken back. Refused, and then nothing changes: `Unknown` where nothing is open there.
    pub fn give_up(&mut self, slot: usize, context: usize, now: u64) -> Result<(), Refused>
        requires later { self.old.moment < now }
        ensures effect { GivesUp self.old self.new slot context now result }
        ensures event { OnOk result (IsGiveUp self.old self.new slot context now) }
        ensures others { OthersPend F.Key.cmp self.old self.new slot context }
        ensures within { OnOk result ((slot < 16) × (context < 8)) }
        ensures unchanged { OnErr result (self.new ≡ self.old) }
        ensures moment { self.new.moment ≤ now }
    {
        self.facts();
        if self.holds_relocation(slot, context) {
            self.drop_relocation(slot, context, now)
        } else {
            self.give_up_on_key(slot, context, now)
        }
    }
}
