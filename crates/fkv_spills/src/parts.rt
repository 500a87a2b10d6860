//! The runs of several partitions in pages of a device, and the table that they are.
ghost use Rattle.std.specs.Prelude.{◌≡◌, ◌⊎◌, ◌++◌, ◌∷◌, [], List, IfOk, IfErr, OnOk};
ghost use Rattle.fkv_functions.specs.Names.{name_cmp};
ghost use Rattle.fkv_functions.specs.declared.names.Name.{Name};
ghost use Rattle.fkv_functions.specs.declared.refusals.Refused.TheVariants as refused;
ghost use Rattle.fkv_runs.specs.Merging.{merged};
ghost use Rattle.fkv_spills.specs.Parts.{HasPairs, HaveRuns, HasMergedPairs};

use crate::groups::ReadGroups;
use crate::merging::ReadMerge;
use crate::rests::SpilledRest;
use fkv_device::PageReader;
use fkv_functions::{Fixed, Refused};
use std::alloc::Global;

/// The run of a partition, and how many pairs it has.
#[derive(Drop)]
pub struct SpilledPart<V, R, P> {
    pub rest: SpilledRest<V, R, P>,
    pub len: usize,
}

/// The runs of some partitions, and how many pairs they have.
#[derive(Drop)]
pub struct SpilledParts<V, R, P> {
    groups: ReadGroups<SpilledRest<V, R, P>>,
    keys: usize,
}

/// The runs of all partitions, merged, and how many pairs they have.
#[derive(Drop)]
pub struct SpilledTable<V, R, P> {
    pub pairs: ReadMerge<ReadMerge<SpilledRest<V, R, P>>>,
    pub keys: usize,
}

impl<V: Fixed, P: PageReader> SpilledParts<V, P::Receipt, P> {
    /// None yet.
    pub fn new(alloc: Global) -> SpilledParts<V, P::Receipt, P>
        ensures { HaveRuns V.codec P.Receipt.keeps P.Receipt.stands result [] }
    {
        SpilledParts {
            groups: ReadGroups::new(alloc),
            keys: 0,
        }
    }

    /// One more, behind the others.
    ///
    /// # Errors
    ///
    /// `NoMemory`; `Worn` where they have more pairs than a number counts.
    pub fn add(&mut self, part: SpilledPart<V, P::Receipt, P>) -> Result<(), Refused>
        ensures ok { (lists : List (List (Name × V))) → (xs : List (Name × V))
            → HaveRuns V.codec P.Receipt.keeps P.Receipt.stands self.old lists
            → HasPairs V.codec P.Receipt.keeps P.Receipt.stands part xs
            → OnOk result (HaveRuns V.codec P.Receipt.keeps P.Receipt.stands self.new (lists ++ xs ∷ [])) }
        ensures only { IfErr result (λ e. (e ≡ refused.NoMemory) ⊎ (e ≡ refused.Worn)) }
    {
        let SpilledPart { rest, len } = part;
        let Some(keys) = self.keys.checked_add(len) else {
            return Err(Refused::Worn);
        };
        match self.groups.add(rest) {
            Ok(()) => {
                self.keys = keys;
                Ok(())
            }
            Err(refused) => Err(refused),
        }
    }

    /// The table that they are. Refused: `NoMemory`.
    pub fn merge(self) -> Result<SpilledTable<V, P::Receipt, P>, Refused>
        ensures ok { (lists : List (List (Name × V)))
            → HaveRuns V.codec P.Receipt.keeps P.Receipt.stands self lists
            → IfOk result (λ table. HasMergedPairs V.codec P.Receipt.keeps P.Receipt.stands table (merged name_cmp lists)) }
        ensures only { IfErr result (λ e. e ≡ refused.NoMemory) }
    {
        let SpilledParts { groups, keys } = self;
        match groups.merge() {
            Ok(pairs) => Ok(SpilledTable { pairs, keys }),
            Err(refused) => Err(refused),
        }
    }
}
