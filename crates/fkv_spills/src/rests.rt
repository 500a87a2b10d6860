//! What is left of a spilled run that is read.
ghost use Rattle.std.specs.Prelude.{◌≡◌, ◌≢◌, List, drop, IsTrue, IfOk, IfErr};
ghost use Rattle.fkv_functions.specs.declared.names.Name.{Name};
ghost use Rattle.fkv_functions.specs.declared.refusals.Refused.TheVariants as refused;
ghost use Rattle.fkv_spills.specs.Spilling.{AreSpilled};
ghost use Rattle.fkv_spills.specs.Reading.{IsLeft, IsUnreadable};

use crate::reads::ReadPairs;
use crate::spilled::Spilled;
use crate::unread::Unread;
use fkv_device::PageReader;
use fkv_functions::{Fixed, Name, Refused};
use std::mem::replace;

/// The pairs of a spilled run that are still to come, and the page in hand.
#[derive(Drop)]
pub struct SpilledRest<V, R, P> {
    /// The next pair: it is given only once the one behind it was read.
    next: Option<(Name, V)>,
    behind: Unread<V, R, P>,
}

impl<V: Fixed, P: PageReader> SpilledRest<V, P::Receipt, P> {
    /// All pairs of a run, whose pages this reader reads: it reads the first of them.
    ///
    /// # Errors
    ///
    /// As [`ReadPairs::next`].
    pub fn of(
        run: Spilled<V, P::Receipt>,
        reader: P,
    ) -> Result<SpilledRest<V, P::Receipt, P>, Refused>
        ensures ok { (xs : List (Name × V)) → IsTrue P.Receipt.keeps → AreSpilled V.codec P.Receipt.stands run.pages.items xs
            → IfOk result (λ rest. IsLeft V.codec P.Receipt.keeps P.Receipt.stands rest xs) }
        ensures told { IfErr result (λ e. (after : P) × IsUnreadable (P.failures reader) (P.failures after)
            ((xs : List (Name × V)) × IsTrue P.Receipt.keeps × AreSpilled V.codec P.Receipt.stands run.pages.items xs) e) }
        // on a device that keeps, a fault comes only where a read can fail
        ensures caused { (xs : List (Name × V)) → IsTrue P.Receipt.keeps → AreSpilled V.codec P.Receipt.stands run.pages.items xs
            → IfErr result (λ e. e ≢ refused.NoMemory → (r : P.Receipt) × P.can_fail r (P.Receipt.stands r).length) }
    {
        let Spilled { pages, .. } = run;
        let mut behind: Unread<V, P::Receipt, P> = Unread::new(pages, reader);
        match behind.next() {
            Ok(next) => Ok(SpilledRest { next, behind }),
            Err(refused) => Err(refused),
        }
    }
}

impl<V: Fixed, P: PageReader> ReadPairs for SpilledRest<V, P::Receipt, P> {
    type Value = V;

    ghost holds = { IsLeft V.codec P.Receipt.keeps P.Receipt.stands };

    ghost refuses = { λ old new e. IsUnreadable (P.failures old.behind.reader) (P.failures new.behind.reader)
        ((xs : List (Name × V)) × IsLeft V.codec P.Receipt.keeps P.Receipt.stands old xs) e };

    #[inline(always)]
    fn next_name(&self) -> Option<Name> {
        match &self.next {
            Some((name, _)) => Some(*name),
            None => None,
        }
    }

    fn next(&mut self) -> Result<Option<(Name, V)>, Refused> {
        match self.behind.next() {
            Ok(following) => Ok(replace(&mut self.next, following)),
            Err(refused) => Err(refused),
        }
    }
}
